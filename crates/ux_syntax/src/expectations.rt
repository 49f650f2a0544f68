//! What the calls of a script are expected to answer: comments behind their lines.

ghost use Rattle.std.specs.Prelude.{◌≡◌, ◌+◌, ◌^◌, ◌<◌, ◌⊎◌, ◌++◌, ◌&&◌, ℕ, [], true, false, map, not, IfOk, IfErr, OnOk, if◌then◌else◌};
ghost use Rattle.std.specs.Option.{is_some, option_map};
ghost use Rattle.ux_syntax.specs.Spelling.{lines_of};
ghost use Rattle.ux_syntax.specs.Turns.{is_call};
ghost use Rattle.ux_syntax.specs.Text.{plain_line};
ghost use Rattle.ux_syntax.specs.Tidy.{marked};
ghost use Rattle.ux_syntax.specs.Expectations.{usual_line, asks_call, behind_mark, expected_in, expecting, expectations, is_misplaced, IsFaultOfPlace};

use crate::fault::{LineError, ScriptFault};
use crate::plain::plain_line;
use crate::reading::{Parsed, item_of, split_lines};
use crate::script::{Act, SERIAL_LINE_LIMIT};
use crate::tidy::{marked, tidy_line};
use std::alloc::{AllocError, Global};
use ux_types::Bytes;

/// What a call is expected to answer.
#[derive(Debug, Drop)]
pub struct Expectation {
    /// The number of the call's line, counted from 1.
    pub line: usize,
    /// What a trace is to have behind `=`.
    pub reply: Bytes,
}

fn is_call(act: &Act) -> bool
    ensures { result ≡ is_call act.now }
{
    match act {
        Act::Call(_) => true,
        Act::Wait(..) => false,
    }
}

/// Whether a line is a process's, and asks for a call. It may be as long as behind a line `serial`.
///
/// # Errors
///
/// `AllocError` where memory runs out.
#[tactic(auto, unfolding(crate::specs::Expectations::asks_call))]
pub fn asks_call(alloc: Global, text: &[u8]) -> Result<bool, AllocError>
    ensures { IfOk result (λ yes. yes ≡ asks_call text.now) }
{
    let line = tidy_line(alloc, text)?;
    match item_of(alloc, 0, SERIAL_LINE_LIMIT, &line) {
        Ok(Parsed::Line(line)) => Ok(is_call(&line.act)),
        Ok(_) => Ok(false),
        Err(LineError::Memory) => Err(AllocError),
        Err(LineError::Fault(_)) => Ok(false),
    }
}

/// What stands in a line behind `#= `.
fn behind_mark(text: &[u8]) -> Option<&[u8]>
    ensures { option_map (λ reply. reply.now) result ≡ behind_mark text.now }
{
    match text {
        [hash, equals, blank, reply @ ..]
            if *hash == b'#' && *equals == b'=' && *blank == b' ' && !reply.is_empty() => {
            Some(reply)
        }
        _ => None,
    }
}

/// The comment line as it is usually written.
fn usual_line(alloc: Global, reply: &[u8]) -> Result<Vec<u8>, AllocError>
    ensures { IfOk result (λ line. line.items ≡ usual_line reply.now) }
{
    let mut line = Vec::new(alloc);
    line.extend_from_slice(b"#= ")?;
    line.extend_from_slice(reply)?;
    Ok(line)
}

/// What a comment line expects, in plain words, if anything.
///
/// # Errors
///
/// `AllocError` where memory runs out.
pub fn expected_in(alloc: Global, text: &[u8]) -> Result<Option<Bytes>, AllocError>
    ensures { IfOk result (λ reply. reply ≡ expected_in text.now) }
{
    let Some(reply) = marked(text) else {
        return Ok(None);
    };
    expected_by_line(alloc, &usual_line(alloc, reply)?)
}

/// What a comment line expects that is written as usual, in plain words.
fn expected_by_line(alloc: Global, text: &[u8]) -> Result<Option<Bytes>, AllocError>
    ensures { IfOk result (λ reply. reply ≡ behind_mark (plain_line text.now)) }
{
    let plain = plain_line(alloc, text)?;
    let line = match &plain {
        Some(plain) => plain.as_slice(),
        None => text,
    };
    match behind_mark(line) {
        Some(reply) => Ok(Some(Bytes::from_slice(alloc, reply)?)),
        None => Ok(None),
    }
}

/// Adds what a line expects of the call's line of this number, which is the line before it where that is a call's.
fn add_expected(
    alloc: Global,
    found: &mut Vec<Expectation>,
    line: usize,
    behind_call: bool,
    text: &[u8],
) -> Result<(), ScriptFault>
    requires { line < 2 ^ 63 }
    ensures found { OnOk result (found.new.items ≡ found.old.items ++ (if behind_call then expecting line (expected_in text.now) else [])) }
    ensures placed { OnOk result (is_some (expected_in text.now) && not behind_call ≡ false) }
    ensures fault { IfErr result (λ f. (f ≡ ScriptFault.NoMemory) ⊎ ((f ≡ ScriptFault.BadLine (line + 1)) × (is_some (expected_in text.now) && not behind_call ≡ true))) }
{
    let Some(reply) = expected_in(alloc, text)? else {
        return Ok(());
    };
    if !behind_call {
        return Err(ScriptFault::BadLine(line + 1));
    }
    found.push(Expectation { line, reply })?;
    Ok(())
}

/// What the lines expect, each of the line before it.
fn expected_by(alloc: Global, texts: &[&[u8]]) -> Result<Vec<Expectation>, ScriptFault>
    ensures found { IfOk result (λ found. found.items ≡ expectations (map (λ l. l.now) texts.now)) }
    ensures placed { OnOk result ((n : ℕ) → is_misplaced (map (λ l. l.now) texts.now) n ≡ false) }
    ensures fault { IfErr result (IsFaultOfPlace (map (λ l. l.now) texts.now)) }
{
    let mut found = Vec::new(alloc);
    let mut behind_call = false;
    for (line, text) in texts.iter().enumerate() {
        add_expected(alloc, &mut found, line, behind_call, text)?;
        behind_call = asks_call(alloc, text)?;
    }
    Ok(found)
}

/// What the calls of a script are expected to answer. A comment line `#= REPLY` right behind a call's line says so of that
/// call: what a trace is to have behind `=`, with ` closed` and the numbers of the file objects that are closed. Blanks
/// between `#`, `=` and the reply are free. Where nothing stands behind `=`, nothing is expected, nor where a further `=` does.
/// The script's own faults are reported by `parse_script`.
///
/// # Errors
///
/// `BadLine` of the first such comment that stands behind no call's line, as behind a `wait`, and `NoMemory`.
pub fn expectations_of(alloc: Global, text: &[u8]) -> Result<Vec<Expectation>, ScriptFault>
    // What is found stands so in the text, behind the call's line, and nothing that stands there is left out.
    ensures found { IfOk result (λ found. found.items ≡ expectations (lines_of text.now)) }
    // No expectation stands behind another line.
    ensures placed { OnOk result ((n : ℕ) → is_misplaced (lines_of text.now) n ≡ false) }
    // A fault is that of the first line that does.
    ensures fault { IfErr result (IsFaultOfPlace (lines_of text.now)) }
{
    let texts = split_lines(alloc, text)?;
    expected_by(alloc, &texts)
}
