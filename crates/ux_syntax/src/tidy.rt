//! Lines as people type them, and the lines that they stand for.

ghost use Rattle.std.specs.Prelude.{◌≡◌, ◌++◌, if◌then◌else◌, IfOk, OnOk};
ghost use Rattle.std.specs.Option.{is_some, option_map};
ghost use Rattle.ux_syntax.specs.Tidy.{is_space, past_blanks, behind_equals, behind_hash, marked, outside, next_position, laid, begins_comment, comment_left, tidy_line, feed, tidy_text};

use crate::reading::split_lines;
use std::alloc::{AllocError, Global};

/// Where a byte of a line stands.
#[derive(Clone, Copy)]
pub(crate) enum Position {
    /// Before the first word.
    Front,
    /// Behind a word.
    Gap,
    /// In a word, but for its text.
    Word,
    /// Between quotation marks.
    Text,
    /// Behind a backslash there.
    Escape,
}

/// A blank or a tab.
fn is_space(byte: u8) -> bool
    ensures { result ≡ is_space byte }
{
    byte == b' ' || byte == b'\t'
}

/// What stands behind blanks and tabs.
fn past_blanks(text: &[u8]) -> &[u8]
    ensures { result.now ≡ past_blanks text.now }
{
    let mut rest = text;
    while let [b' ' | b'\t', more @ ..] = rest {
        rest = more;
    }
    rest
}

/// What stands behind `=`, where no further `=` follows, as in a row of them.
fn behind_equals(text: &[u8]) -> Option<&[u8]>
    ensures { option_map (λ reply. reply.now) result ≡ behind_equals text.now }
{
    match text {
        [b'=', b'=', ..] => None,
        [b'=', rest @ ..] => Some(past_blanks(rest)),
        _ => None,
    }
}

/// What stands behind `#` and `=`, with blanks between and behind them or without.
fn behind_hash(text: &[u8]) -> Option<&[u8]>
    ensures { option_map (λ reply. reply.now) result ≡ behind_hash text.now }
{
    match text {
        [b'#', rest @ ..] => behind_equals(past_blanks(rest)),
        _ => None,
    }
}

/// What stands behind `#` and `=`, with blanks before, between and behind them or without.
pub(crate) fn marked(text: &[u8]) -> Option<&[u8]>
    ensures { option_map (λ reply. reply.now) result ≡ marked text.now }
{
    behind_hash(past_blanks(text))
}

/// Whether a line is a comment that may say what a call answers: `#`, `=`, and no further `=`.
pub fn is_marked(text: &[u8]) -> bool
    ensures { result ≡ is_some (marked text.now) }
{
    marked(text).is_some()
}

/// Where the byte behind one outside of text stands, with this gap behind a word.
fn outside(gap: Position, byte: u8) -> Position
    ensures { result ≡ outside gap byte }
{
    if is_space(byte) {
        gap
    } else if byte == b'"' {
        Position::Text
    } else {
        Position::Word
    }
}

/// Where the byte behind this one stands.
fn next_position(position: Position, byte: u8) -> Position
    ensures { result ≡ next_position position byte }
{
    match position {
        Position::Front => outside(Position::Front, byte),
        Position::Gap | Position::Word => outside(Position::Gap, byte),
        Position::Text if byte == b'\\' => Position::Escape,
        Position::Text if byte == b'"' => Position::Word,
        Position::Text | Position::Escape => Position::Text,
    }
}

/// Adds the bytes that one stands for: none for blanks and tabs, and a blank, too, for the first of a further word.
fn put_byte(line: &mut Vec<u8>, position: Position, byte: u8) -> Result<(), AllocError>
    ensures { OnOk result (line.new.items ≡ line.old.items ++ laid position byte) }
{
    match position {
        Position::Text | Position::Escape => {}
        Position::Front | Position::Gap | Position::Word if is_space(byte) => return Ok(()),
        Position::Gap => line.push(b' ')?,
        Position::Front | Position::Word => {}
    }
    line.push(byte)?;
    Ok(())
}

/// Whether a comment begins with this byte, behind a word.
fn begins_comment(position: Position, byte: u8) -> bool
    ensures { result ≡ begins_comment position byte }
{
    match position {
        Position::Gap => byte == b'#',
        _ => false,
    }
}

/// Adds a comment that says what a call answers, so that it isn't overlooked; and no other.
fn put_comment(line: &mut Vec<u8>, comment: &[u8]) -> Result<(), AllocError>
    ensures { OnOk result (line.new.items ≡ line.old.items ++ comment_left comment.now) }
{
    if !is_marked(comment) {
        return Ok(());
    }
    line.push(b' ')?;
    line.extend_from_slice(comment)?;
    Ok(())
}

/// The line that one stands for as people type them: its words one blank apart, without a comment behind them.
///
/// # Errors
///
/// `AllocError` where memory runs out.
pub fn tidy_line(alloc: Global, text: &[u8]) -> Result<Vec<u8>, AllocError>
    ensures { IfOk result (λ line. line.items ≡ tidy_line text.now) }
{
    let mut line = Vec::new(alloc);
    let mut position = Position::Front;
    let mut rest = text;
    while let [byte, behind @ ..] = rest {
        if begins_comment(position, *byte) {
            put_comment(&mut line, rest)?;
            return Ok(line);
        }
        put_byte(&mut line, position, *byte)?;
        position = next_position(position, *byte);
        rest = behind;
    }
    Ok(line)
}

/// Adds a line feed, and the line that this one stands for.
fn put_line(alloc: Global, out: &mut Vec<u8>, text: &[u8]) -> Result<(), AllocError>
    ensures { OnOk result (out.new.items ≡ out.old.items ++ feed (tidy_line text.now)) }
{
    let line = tidy_line(alloc, text)?;
    out.push(b'\n')?;
    out.extend_from_slice(&line)?;
    Ok(())
}

/// The text of the lines that the lines of a text stand for.
///
/// # Errors
///
/// `AllocError` where memory runs out.
pub fn tidy_text(alloc: Global, text: &[u8]) -> Result<Vec<u8>, AllocError>
    ensures { IfOk result (λ tidy. tidy.items ≡ tidy_text text.now) }
{
    let lines = split_lines(alloc, text)?;
    let Some((first, rest)) = lines.split_first() else {
        return Ok(Vec::new(alloc));
    };
    let mut tidy = tidy_line(alloc, first)?;
    for line in rest {
        put_line(alloc, &mut tidy, line)?;
    }
    Ok(tidy)
}
