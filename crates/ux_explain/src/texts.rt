//! Lines of a text, and words of a line.

ghost use Rattle.std.specs.Prelude.{◌≡◌, map, IfOk};
ghost use Rattle.ux_syntax.specs.Spelling.{lines_of};

use std::alloc::{AllocError, Global};

/// The lines of a text.
pub(crate) fn split_lines<'a>(alloc: Global, text: &'a [u8]) -> Result<Vec<&'a [u8]>, AllocError>
    ensures { IfOk result (λ lines. map (λ l. l.now) lines.items ≡ lines_of text.now) }
{
    text.split(|b| *b == b'\n').collect(alloc)
}

/// The bytes up to the next blank, from this column on. None behind the line's end.
pub(crate) fn word_from(text: &[u8], start: usize) -> Option<&[u8]> {
    let rest = text.get(start..)?;
    let end = rest.iter().position(|byte| *byte == b' ');
    rest.get(..end.unwrap_or(rest.len()))
}

/// The word in which a column stands.
pub(crate) fn word_around(text: &[u8], column: usize) -> &[u8] {
    let before = text.get(..column).unwrap_or(text);
    let blank = before.iter().rposition(|byte| *byte == b' ');
    let start = match blank {
        Some(place) => place.saturating_add(1),
        None => 0,
    };
    word_from(text, start).unwrap_or(&[])
}
