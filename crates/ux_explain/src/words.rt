//! Where a word goes wrong.

use crate::cause::Cause;
use crate::control::control_miss;
use crate::forms::{FirstWord, Form, Rows};
use crate::names::{address_miss, path_miss, target_miss};
use crate::numbers::{number_miss, rights_miss, signed_miss, space_miss};
use crate::polling::poll_fds_miss;
use crate::quoted::text_miss;

/// The first byte of a word that is wrong, counted from the word's start, and why. At the word's length the word ends
/// too early.
#[derive(Clone, Copy, Debug)]
pub(crate) struct Miss {
    pub(crate) at: usize,
    pub(crate) cause: Cause,
}

impl Miss {
    pub(crate) fn new(at: usize, cause: Cause) -> Miss {
        Miss { at, cause }
    }

    /// The same in a text that has so many bytes in front.
    pub(crate) fn after(self, count: usize) -> Miss {
        Miss::new(self.at.saturating_add(count), self.cause)
    }
}

/// How many bytes two texts have in common at their beginnings.
pub(crate) fn common(text: &[u8], other: &[u8]) -> usize {
    let mut count: usize = 0;
    for (byte, wanted) in text.iter().zip(other) {
        if byte != wanted {
            return count;
        }
        count = count.saturating_add(1);
    }
    count
}

/// The longest beginning of a word that one of these words has.
fn longest_common(words: &[&str], word: &[u8]) -> usize {
    let mut longest: usize = 0;
    for candidate in words {
        longest = longest.max(common(word, candidate.as_bytes()));
    }
    longest
}

/// The same of the first words of rows.
fn longest_in(rows: Rows, word: &[u8]) -> usize {
    let mut longest: usize = 0;
    for index in 0..rows.len() {
        let Some(row) = rows.get(index) else {
            break;
        };
        longest = longest.max(common(word, row.word.as_bytes()));
    }
    longest
}

/// The row of this first word.
pub(crate) fn row_of(rows: Rows, word: &[u8]) -> Option<FirstWord> {
    for index in 0..rows.len() {
        let row = rows.get(index)?;
        if row.word.as_bytes() == word {
            return Some(row);
        }
    }
    None
}

fn row_miss(rows: Rows, word: &[u8], form: Form) -> Option<Miss> {
    if row_of(rows, word).is_some() {
        return None;
    }
    Some(Miss::new(longest_in(rows, word), Cause::Expected(form)))
}

fn choice_miss(words: &[&str], word: &[u8], form: Form) -> Option<Miss> {
    if words.iter().any(|candidate| candidate.as_bytes() == word) {
        return None;
    }
    Some(Miss::new(longest_common(words, word), Cause::Expected(form)))
}

/// Whether a digit is one of `0-9a-f`.
pub(crate) fn is_digit(byte: u8) -> bool {
    byte.is_ascii_digit() || (b'a'..=b'f').contains(&byte)
}

/// Why a byte is no digit of `0-9a-f`.
pub(crate) fn digit_cause(byte: u8, otherwise: Cause) -> Cause {
    if (b'A'..=b'F').contains(&byte) {
        Cause::UpperCase
    } else {
        otherwise
    }
}

/// Where pairs of digits go wrong.
pub(crate) fn pairs_miss(digits: &[u8], form: Form) -> Option<Miss> {
    for (at, byte) in digits.iter().enumerate() {
        if !is_digit(*byte) {
            return Some(Miss::new(at, digit_cause(*byte, Cause::Expected(form))));
        }
    }
    if digits.len() % 2 == 0 {
        return None;
    }
    Some(Miss::new(digits.len(), Cause::OddDigit))
}

fn hex_miss(word: &[u8]) -> Option<Miss> {
    match word {
        [] => Some(Miss::new(0, Cause::Expected(Form::Hex))),
        [dash] if *dash == b'-' => None,
        [dash, ..] if *dash == b'-' => Some(Miss::new(1, Cause::Expected(Form::Hex))),
        [mark, inner @ ..] if *mark == b'"' => {
            let miss = text_miss(inner)?;
            Some(miss.after(1))
        }
        _ => pairs_miss(word, Form::Hex),
    }
}

/// Where letters go wrong that stand in this order, each once at most.
fn order_miss(letters: &[u8], word: &[u8], form: Form) -> Option<Miss> {
    let mut left = letters;
    for (at, byte) in word.iter().enumerate() {
        let Some(place) = left.iter().position(|letter| letter == byte) else {
            return Some(Miss::new(at, Cause::Expected(form)));
        };
        left = left.get(place.saturating_add(1)..).unwrap_or(&[]);
    }
    None
}

/// Where letters go wrong, or `-` for none.
pub(crate) fn letters_miss(letters: &'static str, word: &[u8], form: Form) -> Option<Miss> {
    match word {
        [] => Some(Miss::new(0, Cause::Expected(form))),
        [dash] if *dash == b'-' => None,
        [dash, ..] if *dash == b'-' => Some(Miss::new(1, Cause::Expected(form))),
        _ => order_miss(letters.as_bytes(), word, form),
    }
}

/// Where a word that is to be of this form goes wrong, if it does.
pub(crate) fn miss_of(form: Form, word: &[u8]) -> Option<Miss> {
    if let Some(rows) = form.rows() {
        return row_miss(rows, word, form);
    }
    match form {
        Form::Number(_, least) => number_miss(word, least, form),
        Form::Space => space_miss(word),
        Form::Rights => rights_miss(word),
        Form::Signed(_, bits) => signed_miss(word, bits, form),
        Form::Hex => hex_miss(word),
        Form::Choice(_, words) => choice_miss(words, word, form),
        Form::Letters(_, letters) => letters_miss(letters, word, form),
        Form::Path => path_miss(word),
        Form::Address => address_miss(word, form),
        Form::Target => target_miss(word),
        Form::Control => control_miss(word),
        Form::PollFds => poll_fds_miss(word),
        Form::Head | Form::Call | Form::Kind(_) => None,
    }
}
