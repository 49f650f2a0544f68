//! Where text between quotation marks goes wrong.

use crate::cause::Cause;
use crate::forms::Form;
use crate::texts::word_from;
use crate::words::{Miss, digit_cause, is_digit};

/// What may stand behind a backslash, but for `x` and two digits.
const ESCAPED: &[u8] = b"abtnvfr\"\\";

/// Where the two digits behind `x` go wrong.
fn two_digits_miss(text: &[u8]) -> Option<Miss> {
    match text {
        [high, ..] if !is_digit(*high) => Some(Miss::new(0, digit_cause(*high, Cause::Escape))),
        [_high, low, ..] if !is_digit(*low) => {
            Some(Miss::new(1, digit_cause(*low, Cause::Escape)))
        }
        [_high, _low, ..] => None,
        _ => Some(Miss::new(text.len(), Cause::Escape)),
    }
}

/// Where what stands behind a backslash goes wrong.
fn escape_miss(text: &[u8]) -> Option<Miss> {
    match text {
        [letter, digits @ ..] if *letter == b'x' => {
            let miss = two_digits_miss(digits)?;
            Some(miss.after(1))
        }
        [letter, ..] if ESCAPED.contains(letter) => None,
        _ => Some(Miss::new(0, Cause::Escape)),
    }
}

/// How many bytes what stands behind a backslash has.
fn escape_length(text: &[u8]) -> usize {
    match text {
        [letter, ..] if *letter == b'x' => 3,
        _ => 1,
    }
}

/// How many bytes a text has behind its opening quotation mark, the closing one included, or where it goes wrong.
fn text_length(text: &[u8]) -> Result<usize, Miss> {
    let mut escaped: usize = 0;
    for (at, byte) in text.iter().enumerate() {
        let behind = at.saturating_add(1);
        if escaped > 0 {
            escaped = escaped.saturating_sub(1);
        } else if *byte == b'"' {
            return Ok(behind);
        } else if *byte == b'\\' {
            let rest = text.get(behind..).unwrap_or(&[]);
            if let Some(miss) = escape_miss(rest) {
                return Err(miss.after(behind));
            }
            escaped = escape_length(rest);
        }
    }
    Err(Miss::new(text.len(), Cause::Unclosed))
}

/// Where a word goes wrong that is a text, behind its opening quotation mark.
pub(crate) fn text_miss(word: &[u8]) -> Option<Miss> {
    match text_length(word) {
        Ok(length) if length < word.len() => Some(Miss::new(length, Cause::BehindText)),
        Ok(_) => None,
        Err(miss) => Some(miss),
    }
}

/// How many bytes stand before a text and in its opening quotation mark, where a word of this form begins one.
fn bytes_before(form: Form, word: &[u8]) -> Option<usize> {
    match (form, word) {
        (Form::Hex, [mark, ..]) if *mark == b'"' => Some(1),
        (Form::Control, [letter, colon, mark, ..])
            if *letter == b'x' && *colon == b':' && *mark == b'"' => { Some(3) }
        _ => None,
    }
}

/// How many bytes a word has that begins with a text: up to the blank behind it, or all where it goes wrong.
fn quoted_length(word: &[u8], before: usize) -> usize {
    let inner = word.get(before..).unwrap_or(&[]);
    let Ok(length) = text_length(inner) else {
        return word.len();
    };
    let end = before.saturating_add(length);
    let behind = word_from(word, end).unwrap_or(&[]);
    end.saturating_add(behind.len())
}

/// The word of this form from a column on: with the blanks of its text, if it is one. None behind the line's end.
pub(crate) fn field_from(text: &[u8], start: usize, form: Form) -> Option<&[u8]> {
    let rest = text.get(start..)?;
    match bytes_before(form, rest) {
        Some(before) => rest.get(..quoted_length(rest, before)),
        None => word_from(text, start),
    }
}
