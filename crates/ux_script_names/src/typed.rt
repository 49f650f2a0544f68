//! Scripts as people type them.

use crate::constants::word_for;
use crate::polls::polls_line;
use std::alloc::{AllocError, Global};
use ux_syntax::tidy_text;

/// The first line of a script that may have all calls, and runs in any order.
const WIDE: &[u8] = b"wide";

/// A script as it is read.
#[derive(Debug, Drop)]
pub struct Typed {
    /// Its text, with words one blank apart, without comments behind calls, with words for constants of manual pages, with
    /// `polls` and a list in place of `poll` of several descriptors, and with `serial` in place of `wide`.
    pub text: Vec<u8>,
    /// Whether it has the line `wide`.
    pub wide: bool,
    /// Whether it has constants of manual pages, numbers behind `0x`, or `poll` of several descriptors.
    pub constants: bool,
}

/// Where the line `wide` begins, if it is the first line that says something.
fn place_of_wide(text: &[u8]) -> Option<usize> {
    let mut place = 0usize;
    for line in text.split(|byte| *byte == b'\n') {
        if !line.is_empty() && !line.starts_with(b"#") {
            return (line == WIDE).then_some(place);
        }
        place = place.checked_add(line.len())?.checked_add(1)?;
    }
    None
}

/// Whether a word that begins outside of text, or within it, ends within.
fn ends_in_text(word: &[u8], begins_in_text: bool) -> bool {
    let mut inside = begins_in_text;
    let mut escaped = false;
    for byte in word {
        if *byte == b'"' && !escaped {
            inside = !inside;
        }
        escaped = inside && *byte == b'\\' && !escaped;
    }
    inside
}

/// Adds a line with words for constants, but in its text.
fn put_line(alloc: Global, out: &mut Vec<u8>, line: &[u8]) -> Result<(), AllocError> {
    let mut in_text = false;
    for (place, word) in line.split(|byte| *byte == b' ').enumerate() {
        if place > 0 {
            out.push(b' ')?;
        }
        let plain = if in_text {
            None
        } else {
            word_for(alloc, word)?
        };
        match plain {
            Some(plain) => out.extend_from_slice(&plain)?,
            None => out.extend_from_slice(word)?,
        }
        in_text = ends_in_text(word, in_text);
    }
    Ok(())
}

/// A text with words for the constants in its lines, and a list for each poll of several, but for comments.
fn with_words(alloc: Global, text: &[u8]) -> Result<Vec<u8>, AllocError> {
    let mut out = Vec::new(alloc);
    for (place, line) in text.split(|byte| *byte == b'\n').enumerate() {
        if place > 0 {
            out.push(b'\n')?;
        }
        if line.starts_with(b"#") {
            out.extend_from_slice(line)?;
        } else if let Some(polls) = polls_line(alloc, line)? {
            out.extend_from_slice(&polls)?;
        } else {
            put_line(alloc, &mut out, line)?;
        }
    }
    Ok(out)
}

/// How a script is read that is typed so.
///
/// # Errors
///
/// `AllocError` where memory runs out.
pub fn as_typed(alloc: Global, text: &[u8]) -> Result<Typed, AllocError> {
    let tidy = tidy_text(alloc, text)?;
    let plain = with_words(alloc, &tidy)?;
    let constants = plain.as_slice() != tidy.as_slice();
    let Some(place) = place_of_wide(&plain) else {
        return Ok(Typed {
            text: plain,
            wide: false,
            constants,
        });
    };
    let mut wide = Vec::from_slice(alloc, plain.get(..place).unwrap_or(&[]))?;
    wide.extend_from_slice(b"serial")?;
    let behind = place.saturating_add(WIDE.len());
    wide.extend_from_slice(plain.get(behind..).unwrap_or(&[]))?;
    Ok(Typed {
        text: wide,
        wide: true,
        constants,
    })
}
