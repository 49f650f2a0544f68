//! Writing a run as JSON, one value a line.

ghost use Rattle.std.specs.Prelude.{◌≡◌, ◌⊎◌, List, ℕ, None, IfErr, OnOk, option_map, slice_index_or, string_bytes};
ghost use Rattle.std.specs.Io.KnownBytes.{Appends};
ghost use Rattle.serde_json.specs.View.{view};
ghost use Rattle.ux_json.specs.Lines.{IsLineOf};
ghost use Rattle.ux_syntax.specs.declared.fault.ScriptFault.{ScriptFault};
ghost use Rattle.ux_script.specs.Comparing.{answer_at, is_met};
ghost use Rattle.ux_script.specs.JsonLines.{CallLine, CallLines, DifferenceText, DifferenceLines};

use crate::comparing::{answer_of, is_met};
use crate::echo::line_at;
use crate::write::put_all;
use serde_json::Value;
use std::alloc::Global;
use std::io::Write;
use ux_json::{call_value, difference_value, line_of};
use ux_syntax::{Expectation, ScriptFault};
use ux_types::Entry;

/// Writes a value as one line.
///
/// # Errors
///
/// `Writing` where a write fails, and `NoMemory`.
pub fn write_value<W: Write>(
    alloc: Global,
    writer: &mut W,
    value: &Value,
) -> Result<(), ScriptFault>
    // What was written is one line, which reads as the value.
    ensures ok { OnOk result ((line : List ℕ) × IsLineOf (view value.now) line × Appends (W.contents writer.old) (W.contents writer.new) line) }
    ensures fault { IfErr result (λ f. (f ≡ ScriptFault.Writing) ⊎ (f ≡ ScriptFault.NoMemory)) }
{
    let line = line_of(alloc, value)?;
    put_all(writer, line.as_bytes())
}

/// Writes the calls of a history, a line each, and flushes the writer. Beside each call stands the number of its script's
/// line.
///
/// # Errors
///
/// `Writing` where a write or the flush fails, and `NoMemory`.
pub fn finish_json<W: Write>(
    alloc: Global,
    writer: &mut W,
    lines: &[Option<usize>],
    history: &[Entry],
) -> Result<(), ScriptFault>
    // What was written is a line for each call, which reads as an object for it.
    ensures ok { OnOk result ((text : List ℕ) × CallLines lines.now 0 history.now text × Appends (W.contents writer.old) (W.contents writer.new) text) }
    ensures fault { IfErr result (λ f. (f ≡ ScriptFault.Writing) ⊎ (f ≡ ScriptFault.NoMemory)) }
{
    write_calls(alloc, writer, lines, history)?;
    if writer.flush().is_err() {
        return Err(ScriptFault::Writing);
    }
    Ok(())
}

/// Writes the line of the call at this place.
fn write_call<W: Write>(
    alloc: Global,
    writer: &mut W,
    lines: &[Option<usize>],
    place: usize,
    entry: &Entry,
) -> Result<(), ScriptFault>
    ensures ok { OnOk result ((text : List ℕ) × CallLine place (slice_index_or lines.now place None) entry.now text × Appends (W.contents writer.old) (W.contents writer.new) text) }
    ensures fault { IfErr result (λ f. (f ≡ ScriptFault.Writing) ⊎ (f ≡ ScriptFault.NoMemory)) }
{
    let value = call_value(alloc, place, line_at(lines, place), entry)?;
    write_value(alloc, writer, &value)
}

fn write_calls<W: Write>(
    alloc: Global,
    writer: &mut W,
    lines: &[Option<usize>],
    history: &[Entry],
) -> Result<(), ScriptFault>
    ensures ok { OnOk result ((text : List ℕ) × CallLines lines.now 0 history.now text × Appends (W.contents writer.old) (W.contents writer.new) text) }
    ensures fault { IfErr result (λ f. (f ≡ ScriptFault.Writing) ⊎ (f ≡ ScriptFault.NoMemory)) }
{
    for (place, entry) in history.iter().enumerate() {
        write_call(alloc, writer, lines, place, entry)?;
    }
    Ok(())
}

/// Writes the line of a call that answered otherwise than expected, and nothing where it answered so.
fn write_difference<W: Write>(
    alloc: Global,
    writer: &mut W,
    expected: &Expectation,
    got: &Option<String>,
) -> Result<(), ScriptFault>
    ensures ok { OnOk result ((text : List ℕ) × DifferenceText (is_met expected.now.reply (option_map string_bytes got.now)) expected.now text × Appends (W.contents writer.old) (W.contents writer.new) text) }
    ensures fault { IfErr result (λ f. (f ≡ ScriptFault.Writing) ⊎ (f ≡ ScriptFault.NoMemory)) }
{
    let reply = expected.reply.as_slice();
    if is_met(reply, got) {
        return Ok(());
    }
    let value = difference_value(alloc, expected.line, reply, got)?;
    write_value(alloc, writer, &value)
}

/// Writes the calls that answered otherwise than expected, a line each, and none for another: those that `differences` gives.
///
/// # Errors
///
/// `Writing` where a write fails, and `NoMemory`.
pub fn write_differences<W: Write>(
    alloc: Global,
    writer: &mut W,
    expected: &[Expectation],
    lines: &[Option<usize>],
    history: &[Entry],
) -> Result<(), ScriptFault>
    // What was written is a line for each such call, in the order of the expectations.
    ensures ok { OnOk result ((text : List ℕ) × DifferenceLines lines.now history.now expected.now text × Appends (W.contents writer.old) (W.contents writer.new) text) }
    ensures fault { IfErr result (λ f. (f ≡ ScriptFault.Writing) ⊎ (f ≡ ScriptFault.NoMemory)) }
{
    for one in expected {
        let got = answer_of(alloc, one.line, lines, history)?;
        write_difference(alloc, writer, one, &got)?;
    }
    Ok(())
}
