//! The answers of a run beside those that its script expects.

ghost use Rattle.std.specs.Prelude.{◌≡◌, ◌++◌, IfOk, OnOk, string_bytes};
ghost use Rattle.std.specs.Option.{option_map};
ghost use Rattle.ux_trace.specs.Echoes.{answer};
ghost use Rattle.ux_script.specs.Comparing.{answer_at, difference, difference_line, differences, is_met, or_nothing};

use std::alloc::{AllocError, Global};
use ux_syntax::Expectation;
use ux_trace::answer_text;
use ux_types::Entry;

/// The first call whose line has this number.
fn call_of<'a>(line: usize, lines: &[Option<usize>], history: &'a [Entry]) -> Option<&'a Entry>
    ensures { option_map (λ entry. answer entry.now) result ≡ answer_at line lines.now history.now }
{
    let mut left = lines;
    for entry in history {
        let (number, more) = left.split_first()?;
        if *number == Some(line) {
            return Some(entry);
        }
        left = more;
    }
    None
}

/// What the first call whose line has this number answered, as a trace has it. Beside each call of the history stands the
/// number of its script's line.
pub(crate) fn answer_of(
    alloc: Global,
    line: usize,
    lines: &[Option<usize>],
    history: &[Entry],
) -> Result<Option<String>, AllocError>
    ensures { IfOk result (λ got. option_map string_bytes got ≡ answer_at line lines.now history.now) }
{
    match call_of(line, lines, history) {
        Some(entry) => Ok(Some(answer_text(alloc, entry)?)),
        None => Ok(None),
    }
}

/// Whether a call answered what is expected. One that wasn't made didn't.
pub(crate) fn is_met(reply: &[u8], got: &Option<String>) -> bool
    ensures { result ≡ is_met reply.now (option_map string_bytes got.now) }
{
    match got {
        Some(got) => got.as_bytes() == reply,
        None => false,
    }
}

/// What was answered, or `nothing`.
fn or_nothing(got: &Option<String>) -> &[u8]
    ensures { result.now ≡ or_nothing (option_map string_bytes got.now) }
{
    match got {
        Some(got) => got.as_bytes(),
        None => b"nothing",
    }
}

/// Adds the line of a call that answered otherwise than expected.
fn add_line(
    alloc: Global,
    text: &mut Vec<u8>,
    expected: &Expectation,
    got: &Option<String>,
) -> Result<(), AllocError>
    ensures { OnOk result (text.new.items ≡ text.old.items ++ difference_line expected.now.line expected.now.reply (option_map string_bytes got.now)) }
{
    let line = expected.line;
    let head = format!(in alloc; "line {line}: expected ")?;
    text.extend_from_slice(head.as_bytes())?;
    text.extend_from_slice(expected.reply.as_slice())?;
    text.extend_from_slice(b", got ")?;
    text.extend_from_slice(or_nothing(got))?;
    text.push(b'\n')?;
    Ok(())
}

/// Adds the line of a call where it answered otherwise than expected.
fn add_difference(
    alloc: Global,
    text: &mut Vec<u8>,
    expected: &Expectation,
    got: &Option<String>,
) -> Result<(), AllocError>
    ensures { OnOk result (text.new.items ≡ text.old.items ++ difference expected.now (option_map string_bytes got.now)) }
{
    if is_met(expected.reply.as_slice(), got) {
        return Ok(());
    }
    add_line(alloc, text, expected, got)
}

/// The lines that say which calls answered otherwise than expected: `line L: expected REPLY, got REPLY`, or
/// `got nothing` of a call that wasn't made. None where each answered so. Beside each call of the history stands the
/// number of its script's line. It takes time in proportion to the expectations times the calls.
pub fn differences(
    alloc: Global,
    expected: &[Expectation],
    lines: &[Option<usize>],
    history: &[Entry],
) -> Result<Vec<u8>, AllocError>
    // A line for each call that answered otherwise, in the order of the expectations, and none for another.
    ensures { IfOk result (λ text. text.items ≡ differences lines.now history.now expected.now) }
{
    let mut text = Vec::new(alloc);
    for one in expected {
        let got = answer_of(alloc, one.line, lines, history)?;
        add_difference(alloc, &mut text, one, &got)?;
    }
    Ok(text)
}
