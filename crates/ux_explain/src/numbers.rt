//! Where numbers go wrong.

use crate::cause::Cause;
use crate::forms::Form;
use crate::words::{Miss, common};
use ux_types::RIGHTS_LIMIT;

/// The first digit by which a number is greater than this one, which is at most 2^63.
fn first_excess(digits: &[u8], greatest: u64) -> Option<usize> {
    let mut value: u64 = 0;
    for (at, byte) in digits.iter().enumerate() {
        let digit = u64::from(byte.saturating_sub(b'0'));
        value = value.saturating_mul(10).saturating_add(digit);
        if value > greatest {
            return Some(at);
        }
    }
    None
}

/// Where digits go wrong that spell a number up to this one, without leading zeros.
fn digits_miss(word: &[u8], greatest: u64, form: Form) -> Option<Miss> {
    let other = word.iter().position(|byte| !byte.is_ascii_digit());
    let count = other.unwrap_or(word.len());
    if count == 0 {
        return Some(Miss::new(0, Cause::Expected(form)));
    }
    let digits = word.get(..count).unwrap_or(word);
    if starts_with_zero(digits) && count > 1 {
        return Some(Miss::new(1, Cause::LeadingZero));
    }
    if let Some(at) = first_excess(digits, greatest) {
        return Some(Miss::new(at, Cause::TooLarge(form)));
    }
    other.map(|at| Miss::new(at, Cause::Expected(form)))
}

fn starts_with_zero(word: &[u8]) -> bool {
    match word {
        [first, ..] => *first == b'0',
        [] => false,
    }
}

/// Where a number of 32 bits goes wrong, which is at least so large.
pub(crate) fn number_miss(word: &[u8], least: u32, form: Form) -> Option<Miss> {
    if least > 0 && starts_with_zero(word) {
        return Some(Miss::new(0, Cause::Expected(form)));
    }
    digits_miss(word, u64::from(u32::MAX), form)
}

const RIGHTS: &[u8] = b"rights:";

/// Where the number of rights goes wrong, which is at most as many as one message may pass.
pub(crate) fn rights_miss(word: &[u8]) -> Option<Miss> {
    digits_miss(word, RIGHTS_LIMIT as u64, Form::Rights)
}

/// Where a control space goes wrong: a number, or `rights:` and one.
pub(crate) fn space_miss(word: &[u8]) -> Option<Miss> {
    match word {
        [first, ..] if *first == b'r' => {
            let count = common(word, RIGHTS);
            if count < RIGHTS.len() {
                return Some(Miss::new(count, Cause::Expected(Form::Space)));
            }
            let miss = rights_miss(word.get(count..).unwrap_or(&[]))?;
            Some(miss.after(count))
        }
        _ => number_miss(word, 0, Form::Space),
    }
}

/// The greatest number of so many bits with a sign.
fn greatest_of(bits: u32) -> u64 {
    if bits == 32 {
        u64::from(i32::MAX.unsigned_abs())
    } else {
        i64::MAX.unsigned_abs()
    }
}

/// Where a signed number of so many bits goes wrong.
pub(crate) fn signed_miss(word: &[u8], bits: u32, form: Form) -> Option<Miss> {
    let greatest = greatest_of(bits);
    match word {
        [minus, digits @ ..] if *minus == b'-' => {
            if starts_with_zero(digits) {
                return Some(Miss::new(1, Cause::Expected(form)));
            }
            let miss = digits_miss(digits, greatest.saturating_add(1), form)?;
            Some(miss.after(1))
        }
        _ => digits_miss(word, greatest, form),
    }
}
