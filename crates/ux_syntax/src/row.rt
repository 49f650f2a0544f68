//! The words of a line in a row.

ghost use Rattle.std.specs.Prelude.{ℕ, List, Result, map, Ok};
ghost use Rattle.ux_syntax.specs.declared.fault.Fault.{Fault};
ghost use Rattle.ux_syntax.specs.Reading.{◌>>◌, one, ends};
ghost use Rattle.ux_syntax.specs.Results.{IsAsRead};

use crate::fault::{BAD, LineError};
use crate::words::Word;
use std::alloc::Global;

/// The first word, and those after it.
pub(crate) fn next<'a>(words: &'a [&'a [u8]]) -> Result<(&'a [u8], &'a [&'a [u8]]), LineError>
    ensures { IsAsRead (λ x. (x.0.now, map (λ w. w.now) x.1.now)) result (one (λ w. Ok w) (map (λ w. w.now) words.now)) }
{
    match words {
        [word, rest @ ..] => Ok((*word, rest)),
        [] => Err(BAD),
    }
}

/// Reads the first word as a value of this type, and gives the words after it.
pub(crate) fn word<'a, T: Word>(
    alloc: Global,
    words: &'a [&'a [u8]],
) -> Result<(T, &'a [&'a [u8]]), LineError>
    ensures { IsAsRead (λ x. (x.0, map (λ w. w.now) x.1.now)) result (one T.at (map (λ w. w.now) words.now)) }
{
    let (first, rest) = next(words)?;
    Ok((T::of(alloc, first)?, rest))
}

/// Checks that no word is left.
pub(crate) fn end(words: &[&[u8]]) -> Result<(), LineError>
    ensures { IsAsRead (λ x. x) result (ends (map (λ w. w.now) words.now)) }
{
    if words.is_empty() { Ok(()) } else { Err(BAD) }
}

/// Values that all the words of a row spell, one word each: a pair of the first value and the row of the others,
/// and `()` where no word is left.
pub(crate) trait Row: Sized {
    ghost at: { List (List ℕ) → Result Self Fault };

    fn of(alloc: Global, words: &[&[u8]]) -> Result<Self, LineError>
        ensures { IsAsRead (λ x. x) result (at (map (λ w. w.now) words.now)) };
}

impl Row for () {
    ghost at = { ends };

    fn of(_alloc: Global, words: &[&[u8]]) -> Result<(), LineError> {
        end(words)
    }
}

impl<T: Word + Drop, Others: Row> Row for (T, Others) {
    ghost at = { T.at >> Others.at };

    fn of(alloc: Global, words: &[&[u8]]) -> Result<(T, Others), LineError> {
        let (first, words) = word(alloc, words)?;
        Ok((first, Others::of(alloc, words)?))
    }
}

/// Reads all the words of a row.
pub(crate) fn row_of<R: Row>(alloc: Global, words: &[&[u8]]) -> Result<R, LineError>
    ensures { IsAsRead (λ x. x) result (R.at (map (λ w. w.now) words.now)) }
{
    R::of(alloc, words)
}
