//! A line of a script, and a place in it.

use std::fmt;
use ux_types::Bytes;

/// How many bytes of a line are shown.
const SHOWN: usize = 72;

/// How many of them stand before the place.
const BEFORE: usize = 48;

/// A line of a script, and a place in it. It is written in two lines, a caret below the place. Of a long line the bytes
/// around the place are shown, between dots; a byte that isn't 0x20 to 0x7e is shown as `\x` and two digits.
#[derive(Debug, Drop)]
pub struct Excerpt {
    /// The line's number, counted from 1.
    pub line: usize,
    /// Its bytes, without the line feed.
    pub text: Bytes,
    /// The place, counted in bytes from 0. At the line's length it is behind the last byte.
    pub column: usize,
}

/// A byte as it is shown.
#[derive(Clone, Copy)]
pub(crate) struct ShownByte(pub(crate) u8);

impl fmt::Display for ShownByte {
    fn fmt<W: fmt::Write>(&self, f: &mut fmt::Formatter<W>) -> fmt::Result {
        let byte = self.0;
        if (0x20..=0x7e).contains(&byte) {
            let letter = char::from(byte);
            write!(f, "{letter}")
        } else {
            write!(f, "\\x{byte:02x}")
        }
    }
}

/// How many columns a byte takes.
fn width_of(byte: u8) -> usize {
    if (0x20..=0x7e).contains(&byte) { 1 } else { 4 }
}

/// How many columns bytes take.
fn width(text: &[u8]) -> usize {
    let mut width: usize = 0;
    for byte in text {
        width = width.saturating_add(width_of(*byte));
    }
    width
}

/// How many digits a number has.
fn digits(number: usize) -> usize {
    match number.checked_ilog10() {
        Some(power) => (power as usize).saturating_add(1),
        None => 1,
    }
}

/// Bytes as they are shown.
#[derive(Clone, Copy)]
pub(crate) struct Text<'a>(pub(crate) &'a [u8]);

impl fmt::Display for Text<'_> {
    fn fmt<W: fmt::Write>(&self, f: &mut fmt::Formatter<W>) -> fmt::Result {
        for byte in self.0 {
            let byte = ShownByte(*byte);
            write!(f, "{byte}")?;
        }
        Ok(())
    }
}

/// So many blanks.
#[derive(Clone, Copy)]
struct Blanks(usize);

impl fmt::Display for Blanks {
    fn fmt<W: fmt::Write>(&self, f: &mut fmt::Formatter<W>) -> fmt::Result {
        for _ in 0..self.0 {
            write!(f, " ")?;
        }
        Ok(())
    }
}

const DOTS: &str = "..";

impl Excerpt {
    /// The first byte that is shown.
    fn first(&self) -> usize {
        if self.text.len() <= SHOWN {
            0
        } else {
            self.column.saturating_sub(BEFORE)
        }
    }
}

impl fmt::Display for Excerpt {
    fn fmt<W: fmt::Write>(&self, f: &mut fmt::Formatter<W>) -> fmt::Result {
        let first = self.first();
        let rest = self.text.as_slice().get(first..).unwrap_or(&[]);
        let text = rest.get(..SHOWN).unwrap_or(rest);
        let front = if first > 0 { DOTS } else { "" };
        let back = if text.len() < rest.len() { DOTS } else { "" };
        let before = text
            .get(..self.column.saturating_sub(first))
            .unwrap_or(text);
        let line = self.line;
        let indent = digits(line)
            .saturating_add(3)
            .saturating_add(front.len())
            .saturating_add(width(before));
        let text = Text(text);
        let blanks = Blanks(indent);
        write!(f, "{line} | {front}{text}{back}\n{blanks}^")
    }
}
