//! The names that autobind gives: a number below 2^20 in five digits of `0-9a-f` (unix(7)).
ghost use Rattle.std.specs.Prelude.{◌≡◌, ◌≢◌, ℕ, ◌<◌, IfOk, MatchOption};
ghost use Rattle.ux_model.specs.Limits.{autobind_names};
ghost use Rattle.ux_model.specs.Names.{hex_digit, autobind_name};

use std::alloc::{AllocError, Global};
use ux_types::Name;

/// The name of a number, the highest digit first.
pub(crate) fn name_of(alloc: Global, number: usize) -> Result<Name, AllocError>
    requires { number < autobind_names }
    ensures { IfOk result (λ name. name ≡ autobind_name number) }
{
    let digits = [
        digit_of(number / 65536 % 16),
        digit_of(number / 4096 % 16),
        digit_of(number / 256 % 16),
        digit_of(number / 16 % 16),
        digit_of(number % 16),
    ];
    Name::from_slice(alloc, &digits)
}

/// The number whose name this is, if it is one that autobind gives.
pub(crate) fn number_of(name: &Name) -> Option<usize>
    ensures { MatchOption result
        ((n : ℕ) → n < autobind_names → autobind_name n ≢ name.now)
        (λ n. (n < autobind_names) × (autobind_name n ≡ name.now)) }
{
    let [a, b, c, d, e] = name.as_bytes() else {
        return None;
    };
    let high = value_of(*a)? * 65536 + value_of(*b)? * 4096;
    let low = value_of(*c)? * 256 + value_of(*d)? * 16 + value_of(*e)?;
    Some(high + low)
}

/// The digit of a number below 16.
fn digit_of(number: usize) -> u8
    requires { number < 16 }
    ensures { result ≡ hex_digit number }
{
    if number < 10 {
        b'0' + number as u8
    } else {
        b'a' + (number - 10) as u8
    }
}

/// The number of which this is the digit.
fn value_of(digit: u8) -> Option<usize>
    ensures { MatchOption result
        ((n : ℕ) → n < 16 → hex_digit n ≢ digit)
        (λ n. (n < 16) × (hex_digit n ≡ digit)) }
{
    match digit {
        b'0'..=b'9' => Some((digit - b'0') as usize),
        b'a'..=b'f' => Some((digit - b'a') as usize + 10),
        _ => None,
    }
}
