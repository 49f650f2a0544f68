//! Names, paths and addresses. A byte of a name that would be mistaken for the end of a word, or can't
//! be printed, is written as `%` and two digits.

ghost use Rattle.std.specs.Prelude.{◌≡◌};
ghost use Rattle.ux_syntax.specs.Reading.{byte_at, escaped_at, name_at, lettered_at, path_at, addr_at, addr_or_dash_at};
ghost use Rattle.ux_syntax.specs.Results.{IsAsRead};

use crate::fault::{BAD, LineError};
use crate::words::{Word, digit_of};
use std::alloc::Global;
use ux_trace::stands;
use ux_types::{Addr, Bytes, Name};

/// The byte that two digits spell, which must be one that doesn't stand for itself.
fn escaped_of(high: u8, low: u8) -> Result<u8, LineError>
    ensures { IsAsRead (λ b. b) result (escaped_at high low) }
{
    let high = digit_of(high)?;
    let low = digit_of(low)?;
    let byte = 16 * high + low;
    if stands(byte) { Err(BAD) } else { Ok(byte) }
}

/// The first byte of a name, and what follows its spelling.
fn byte_of(text: &[u8]) -> Result<(u8, &[u8]), LineError>
    ensures { IsAsRead (λ x. (x.0, x.1.now)) result (byte_at text.now) }
{
    match text {
        [first, high, low, rest @ ..] if *first == b'%' => Ok((escaped_of(*high, *low)?, rest)),
        [first, rest @ ..] if stands(*first) => Ok((*first, rest)),
        _ => Err(BAD),
    }
}

fn name_of(alloc: Global, text: &[u8]) -> Result<Name, LineError>
    ensures { IsAsRead (λ name. name) result (name_at text.now) }
{
    let mut bytes = Vec::new(alloc);
    let mut rest = text;
    while !rest.is_empty() {
        let (byte, after) = byte_of(rest)?;
        bytes.push(byte)?;
        rest = after;
    }
    Ok(Name::new(Bytes::new(bytes)?))
}

/// The name that a word has behind this letter and a colon.
fn lettered_of(alloc: Global, letter: u8, word: &[u8]) -> Result<Name, LineError>
    ensures { IsAsRead (λ name. name) result (lettered_at letter word.now) }
{
    match word {
        [first, colon, name @ ..] if *first == letter && *colon == b':' => name_of(alloc, name),
        _ => Err(BAD),
    }
}

/// The path that a word spells: `p:` and a name. Whether a file can have it is found where it is used.
impl Word for Name {
    ghost at = { path_at };

    fn of(alloc: Global, word: &[u8]) -> Result<Name, LineError> {
        lettered_of(alloc, b'p', word)
    }
}

/// The address that a word spells: `u` for none, a path, or `a:` and a name of the abstract namespace.
impl Word for Addr {
    ghost at = { addr_at };

    #[tactic(auto, unfolding(crate::specs::Reading::addr_at))]
    fn of(alloc: Global, word: &[u8]) -> Result<Addr, LineError> {
        if word == b"u".as_slice() {
            return Ok(Addr::Unnamed);
        }
        match word {
            [first, ..] if *first == b'p' => Ok(Addr::Path(Name::of(alloc, word)?)),
            _ => Ok(Addr::Abstract(lettered_of(alloc, b'a', word)?)),
        }
    }
}

/// An address, or `-` for none.
impl Word for Option<Addr> {
    ghost at = { addr_or_dash_at };

    #[tactic(auto, unfolding(crate::specs::Reading::addr_or_dash_at))]
    fn of(alloc: Global, word: &[u8]) -> Result<Option<Addr>, LineError> {
        if word == b"-".as_slice() {
            return Ok(None);
        }
        Ok(Some(Addr::of(alloc, word)?))
    }
}
