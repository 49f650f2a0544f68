//! Where control data goes wrong.

use crate::cause::Cause;
use crate::forms::Form;
use crate::numbers::number_miss;
use crate::quoted::text_miss;
use crate::words::{Miss, pairs_miss};

const EXPECTED: Cause = Cause::Expected(Form::Control);

/// How many numbers credentials have.
const CREDENTIALS: usize = 3;

/// Where numbers go wrong that are joined by commas: three of credentials, and one at least of descriptors.
fn list_miss(text: &[u8], credentials: bool) -> Option<Miss> {
    let mut start: usize = 0;
    let mut count: usize = 0;
    for word in text.split(|byte| *byte == b',') {
        if credentials && count == CREDENTIALS {
            return Some(Miss::new(start.saturating_sub(1), EXPECTED));
        }
        if let Some(miss) = number_miss(word, 0, Form::Number("N", 0)) {
            return Some(miss.after(start));
        }
        start = start.saturating_add(word.len()).saturating_add(1);
        count = count.saturating_add(1);
    }
    if credentials && count < CREDENTIALS {
        return Some(Miss::new(text.len(), EXPECTED));
    }
    None
}

/// Where an item goes wrong, which has one of these letters.
fn item_miss(item: &[u8], letters: &[u8]) -> Option<Miss> {
    match item {
        [letter, colon, numbers @ ..] if letters.contains(letter) && *colon == b':' => {
            let miss = list_miss(numbers, *letter == b'c')?;
            Some(miss.after(2))
        }
        [letter, ..] if letters.contains(letter) => Some(Miss::new(1, EXPECTED)),
        _ => Some(Miss::new(0, EXPECTED)),
    }
}

/// The letters that the items behind this one may have, which has one of these.
fn letters_behind(item: &[u8], letters: &[u8]) -> &'static [u8] {
    match item {
        _ if letters.len() < 2 => b"",
        [letter, ..] if *letter == b'r' => b"c",
        _ => b"r",
    }
}

/// Where items go wrong that are joined by a plus: one, or one of each kind.
fn items_miss(word: &[u8]) -> Option<Miss> {
    let mut start: usize = 0;
    let mut letters: &[u8] = b"rc";
    for item in word.split(|byte| *byte == b'+') {
        if letters.is_empty() {
            return Some(Miss::new(start.saturating_sub(1), EXPECTED));
        }
        if let Some(miss) = item_miss(item, letters) {
            return Some(miss.after(start));
        }
        letters = letters_behind(item, letters);
        start = start.saturating_add(item.len()).saturating_add(1);
    }
    None
}

/// Where a text goes wrong that has one byte at least, behind its opening quotation mark.
fn some_text_miss(inner: &[u8]) -> Option<Miss> {
    match inner {
        [mark, ..] if *mark == b'"' => Some(Miss::new(0, EXPECTED)),
        _ => text_miss(inner),
    }
}

/// Where bytes go wrong that are written out, without the `x` before them.
fn raw_miss(text: &[u8]) -> Option<Miss> {
    match text {
        [colon] if *colon == b':' => Some(Miss::new(1, EXPECTED)),
        [colon, mark, inner @ ..] if *colon == b':' && *mark == b'"' => {
            let miss = some_text_miss(inner)?;
            Some(miss.after(2))
        }
        [colon, digits @ ..] if *colon == b':' => {
            let miss = pairs_miss(digits, Form::Control)?;
            Some(miss.after(1))
        }
        _ => Some(Miss::new(0, EXPECTED)),
    }
}

/// Where control data goes wrong.
pub(crate) fn control_miss(word: &[u8]) -> Option<Miss> {
    match word {
        [dash] if *dash == b'-' => None,
        [dash, ..] if *dash == b'-' => Some(Miss::new(1, EXPECTED)),
        [letter, rest @ ..] if *letter == b'x' => {
            let miss = raw_miss(rest)?;
            Some(miss.after(1))
        }
        _ if word.starts_with(b"rights:") => Some(Miss::new(1, Cause::SpaceOfRights)),
        _ => items_miss(word),
    }
}
