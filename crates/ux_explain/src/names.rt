//! Where paths, addresses and their names go wrong.

use crate::cause::Cause;
use crate::forms::Form;
use crate::words::{Miss, digit_cause, is_digit};
use ux_trace::stands;

/// The value of a digit of `0-9a-f`.
fn value_of(digit: u8) -> u8 {
    if digit.is_ascii_digit() {
        digit.saturating_sub(b'0')
    } else {
        digit.saturating_sub(b'a').saturating_add(10)
    }
}

/// Whether each byte with this first digit stands for itself: 0x30 to 0x6f.
fn is_needless(high: u8) -> bool {
    (b'3'..=b'6').contains(&high)
}

/// Where two digits behind a `%` go wrong: by the first already, where no byte with it has a `%`.
fn two_digits_miss(high: u8, low: u8) -> Option<Miss> {
    let at = if is_needless(high) { 0 } else { 1 };
    if !is_digit(low) {
        return Some(Miss::new(at, digit_cause(low, Cause::NoDigits)));
    }
    let byte = value_of(high)
        .saturating_mul(16)
        .saturating_add(value_of(low));
    if stands(byte) {
        return Some(Miss::new(at, Cause::Needless(byte)));
    }
    None
}

/// Where what stands behind a `%` goes wrong.
fn escape_miss(text: &[u8]) -> Option<Miss> {
    match text {
        [] => Some(Miss::new(0, Cause::NoDigits)),
        [high, ..] if !is_digit(*high) => {
            Some(Miss::new(0, digit_cause(*high, Cause::NoDigits)))
        }
        [high] if is_needless(*high) => Some(Miss::new(0, Cause::NoDigits)),
        [_high] => Some(Miss::new(1, Cause::NoDigits)),
        [high, low, ..] => two_digits_miss(*high, *low),
    }
}

/// Where a name goes wrong.
fn name_miss(name: &[u8]) -> Option<Miss> {
    let mut escaped: usize = 0;
    for (at, byte) in name.iter().enumerate() {
        let behind = at.saturating_add(1);
        if escaped > 0 {
            escaped = escaped.saturating_sub(1);
        } else if *byte == b'%' {
            if let Some(miss) = escape_miss(name.get(behind..).unwrap_or(&[])) {
                return Some(miss.after(behind));
            }
            escaped = 2;
        } else if !stands(*byte) {
            return Some(Miss::new(at, Cause::Unescaped(*byte)));
        }
    }
    None
}

/// Where what stands behind a letter goes wrong: a colon, and a name.
fn lettered_miss(text: &[u8], otherwise: Cause) -> Option<Miss> {
    match text {
        [colon, name @ ..] if *colon == b':' => {
            let miss = name_miss(name)?;
            Some(miss.after(2))
        }
        _ => Some(Miss::new(1, otherwise)),
    }
}

/// Where a path goes wrong.
pub(crate) fn path_miss(word: &[u8]) -> Option<Miss> {
    match word {
        [] => Some(Miss::new(0, Cause::Expected(Form::Path))),
        [letter, rest @ ..] if *letter == b'p' => lettered_miss(rest, Cause::NoPath),
        _ => Some(Miss::new(0, Cause::NoPath)),
    }
}

/// Where an address goes wrong.
pub(crate) fn address_miss(word: &[u8], form: Form) -> Option<Miss> {
    match word {
        [letter] if *letter == b'u' => None,
        [letter, ..] if *letter == b'u' => Some(Miss::new(1, Cause::Expected(form))),
        [letter, rest @ ..] if *letter == b'p' || *letter == b'a' => {
            lettered_miss(rest, Cause::Expected(form))
        }
        _ => Some(Miss::new(0, Cause::Expected(form))),
    }
}

/// Where the address of a send goes wrong, which may be `-`.
pub(crate) fn target_miss(word: &[u8]) -> Option<Miss> {
    match word {
        [dash] if *dash == b'-' => None,
        [dash, ..] if *dash == b'-' => Some(Miss::new(1, Cause::Expected(Form::Target))),
        _ => address_miss(word, Form::Target),
    }
}
