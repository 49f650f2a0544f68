//! Where the descriptors of a poll go wrong.

use crate::cause::Cause;
use crate::forms::Form;
use crate::numbers::number_miss;
use crate::words::{Miss, letters_miss};

const EXPECTED: Cause = Cause::Expected(Form::PollFds);

/// Where a descriptor goes wrong, or what is asked for of it.
fn asked_miss(item: &[u8]) -> Option<Miss> {
    let colon = item.iter().position(|byte| *byte == b':');
    let number = item.get(..colon.unwrap_or(item.len())).unwrap_or(item);
    if let Some(miss) = number_miss(number, 0, Form::Number("FD", 0)) {
        return Some(miss);
    }
    let Some(colon) = colon else {
        return Some(Miss::new(item.len(), EXPECTED));
    };
    let start = colon.saturating_add(1);
    let events = item.get(start..).unwrap_or(&[]);
    let miss = letters_miss("ioh", events, Form::PollFds)?;
    Some(miss.after(start))
}

/// Where descriptors go wrong that are joined by commas.
fn list_miss(word: &[u8]) -> Option<Miss> {
    let mut start: usize = 0;
    for item in word.split(|byte| *byte == b',') {
        if let Some(miss) = asked_miss(item) {
            return Some(miss.after(start));
        }
        start = start.saturating_add(item.len()).saturating_add(1);
    }
    None
}

/// Where the descriptors of a poll go wrong.
pub(crate) fn poll_fds_miss(word: &[u8]) -> Option<Miss> {
    match word {
        [] => Some(Miss::new(0, EXPECTED)),
        [dash] if *dash == b'-' => None,
        [dash, ..] if *dash == b'-' => Some(Miss::new(1, EXPECTED)),
        _ => list_miss(word),
    }
}
