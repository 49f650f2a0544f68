//! The explanation of a faulty line.

ghost use Rattle.std.specs.Prelude.{◌≡◌, ◌-◌, [], ℕ, List, map, IfOk, IfSome, IfNone, slice_index_or};
ghost use Rattle.ux_syntax.specs.Spelling.{lines_of};
ghost use Rattle.ux_explain.specs.Places.{IsLimit, IsLineOf, IsNamed, IsNoLine, IsPlace, IsPlaceIn, IsPlaceOf, NamesNone};

use crate::cause::Cause;
use crate::context::context_fault;
use crate::excerpt::{Excerpt, Text};
use crate::forms::Form;
use crate::lines::Mistake;
use crate::place::{is_any_line, place_of};
use crate::texts::{split_lines, word_around};
use std::alloc::{AllocError, Global};
use std::fmt;
use ux_syntax::{LineReader, ScriptFault};
use ux_types::Bytes;

/// What is wrong with a line of a script, and where. It is written in three lines: the line, a caret below the first byte
/// that is wrong, and what is expected there.
#[derive(Debug, Drop)]
pub struct Explanation {
    pub excerpt: Excerpt,
    pub cause: Cause,
}

/// A word as it is shown, of which a long one is cut.
const SHOWN: usize = 24;

/// The word that is none of those that it may be, and the nearest of them.
fn write_word<W: fmt::Write>(
    f: &mut fmt::Formatter<W>,
    what: &str,
    word: &[u8],
    nearest: Option<&str>,
) -> fmt::Result {
    let dots = if word.len() > SHOWN { ".." } else { "" };
    let word = Text(word.get(..SHOWN).unwrap_or(word));
    write!(f, "{what} '{word}{dots}'")?;
    match nearest {
        Some(nearest) => write!(f, "; did you mean '{nearest}'?"),
        None => Ok(()),
    }
}

/// What a line begins with, where no word of these is near.
fn write_heads<W: fmt::Write>(f: &mut fmt::Formatter<W>, nearest: Option<&str>) -> fmt::Result {
    match nearest {
        Some(_) => Ok(()),
        None => write!(f, ": expected {}", Form::Head),
    }
}

impl fmt::Display for Explanation {
    fn fmt<W: fmt::Write>(&self, f: &mut fmt::Formatter<W>) -> fmt::Result {
        let excerpt = &self.excerpt;
        let cause = self.cause;
        write!(f, "{excerpt}\n")?;
        let word = word_around(excerpt.text.as_slice(), excerpt.column);
        match cause {
            Cause::NoCall(nearest) => write_word(f, "no call", word, nearest),
            Cause::Elsewhere(found) => {
                write_word(f, "no call", word, None)?;
                write!(f, ": {found}")
            }
            Cause::NoHead(nearest) => {
                write_word(f, "no line begins with", word, nearest)?;
                write_heads(f, nearest)
            }
            _ => write!(f, "{cause}"),
        }
    }
}

/// The line of this number, counted from 1.
fn line_of<'a>(lines: &[&'a [u8]], number: usize) -> Option<&'a [u8]>
    ensures none { IfNone result (IsNoLine (map (λ l. l.now) lines.now) number) }
    ensures some { IfSome result (λ line. line.now ≡ slice_index_or (map (λ l. l.now) lines.now) (number - 1) []) }
{
    if number == 0 || number > lines.len() {
        return None;
    }
    Some(lines[number - 1])
}

/// The script of these lines, without those at fault.
fn read_all(alloc: Global, lines: &[&[u8]]) -> Result<LineReader, AllocError> {
    let mut read = LineReader::new(alloc);
    for (index, line) in lines.iter().enumerate() {
        if let Err(ScriptFault::NoMemory) = read.read_line(alloc, index + 1, line) {
            return Err(AllocError);
        }
    }
    Ok(read)
}

/// What is wrong with a line that is too long behind these lines.
fn long_fault(read: &LineReader) -> Mistake
    ensures { IsLimit result.column }
{
    let limit = read.script().line_limit();
    Mistake::at(limit, Cause::TooLong(limit))
}

/// What is wrong with a line behind these lines: its words, or that they come there.
fn bad_fault(alloc: Global, read: &LineReader, line: &[u8]) -> Result<Mistake, AllocError>
    ensures { IfOk result (λ found. IsPlace line.now found.column) }
{
    if !is_any_line(alloc, line)? {
        return place_of(alloc, line);
    }
    Ok(context_fault(read, line))
}

/// What is wrong with a line that has this fault; none where the fault is of no line.
fn found_in(
    alloc: Global,
    read: &LineReader,
    line: &[u8],
    fault: &ScriptFault,
) -> Result<Option<Mistake>, AllocError>
    ensures none { IfOk result (λ found. IfNone found ((lines : List (List ℕ)) → NamesNone lines fault.now)) }
    ensures some { IfOk result (λ found. IfSome found (λ f. IsPlaceIn line.now fault.now f.column)) }
{
    match fault {
        ScriptFault::BadLine(_) | ScriptFault::UnknownProcess(_) => {
            Ok(Some(bad_fault(alloc, read, line)?))
        }
        ScriptFault::TooLong(_) => Ok(Some(long_fault(read))),
        _ => Ok(None),
    }
}

/// The number of the line that a fault names.
fn named_line(fault: &ScriptFault) -> Option<usize>
    ensures none { IfNone result ((lines : List (List ℕ)) → NamesNone lines fault.now) }
    ensures some { IfSome result (λ n. IsNamed fault.now n) }
{
    match fault {
        ScriptFault::BadLine(number)
        | ScriptFault::UnknownProcess(number)
        | ScriptFault::TooLong(number) => Some(*number),
        _ => None,
    }
}

/// What is wrong with a line, which has this fault behind the lines that were read; none where the fault is of no line.
/// It takes time in proportion to the line, however many were read.
///
/// # Errors
///
/// `AllocError` where memory runs out.
pub fn explain_line(
    alloc: Global,
    read: &LineReader,
    line: &[u8],
    fault: &ScriptFault,
) -> Result<Option<Explanation>, AllocError>
    // None is given only where the fault names no line.
    ensures none { IfOk result (λ found. IfNone found ((lines : List (List ℕ)) → NamesNone lines fault.now)) }
    // It shows this line, by the number that the fault has.
    ensures named { IfOk result (λ found. IfSome found (λ e. IsNamed fault.now e.excerpt.line)) }
    ensures shown { IfOk result (λ found. IfSome found (λ e. e.excerpt.text ≡ line.now)) }
    // What stands before its column can still become a line; of a line too long that is how long it may be.
    ensures place { IfOk result (λ found. IfSome found (λ e. IsPlaceOf fault.now e.excerpt)) }
{
    let Some(number) = named_line(fault) else {
        return Ok(None);
    };
    let Some(found) = found_in(alloc, read, line, fault)? else {
        return Ok(None);
    };
    let excerpt = Excerpt {
        line: number,
        text: Bytes::from_slice(alloc, line)?,
        column: found.column,
    };
    Ok(Some(Explanation {
        excerpt,
        cause: found.cause,
    }))
}

/// What is wrong with the line that a fault of this text names; none where the fault names no line of it.
///
/// # Errors
///
/// `AllocError` where memory runs out.
#[tactic(auto, using(crate::proofs::Completions::names_none))]
pub fn explain(
    alloc: Global,
    text: &[u8],
    fault: &ScriptFault,
) -> Result<Option<Explanation>, AllocError>
    // None is given only where the fault names no line of the text.
    ensures none { IfOk result (λ found. IfNone found (NamesNone (lines_of text.now) fault.now)) }
    // It shows the line that the fault names, as the text has it.
    ensures named { IfOk result (λ found. IfSome found (λ e. IsNamed fault.now e.excerpt.line)) }
    ensures shown { IfOk result (λ found. IfSome found (λ e. IsLineOf text.now e.excerpt)) }
    // What stands before its column can still become a line; of a line too long that is how long it may be.
    ensures place { IfOk result (λ found. IfSome found (λ e. IsPlaceOf fault.now e.excerpt)) }
{
    let Some(number) = named_line(fault) else {
        return Ok(None);
    };
    let lines = split_lines(alloc, text)?;
    let Some(line) = line_of(&lines, number) else {
        return Ok(None);
    };
    let before = lines.get(..number.saturating_sub(1)).unwrap_or(&[]);
    let read = read_all(alloc, before)?;
    explain_line(alloc, &read, line, fault)
}
