//! Writing a run beside its script.

ghost use Rattle.std.specs.Prelude.{◌≡◌, ◌⊎◌, None, IfErr, OnOk, OnErr, slice_index_or};
ghost use Rattle.std.specs.Io.KnownBytes.{Appends};
ghost use Rattle.ux_trace.specs.Echoes.{echo};
ghost use Rattle.ux_script.specs.Writes.{AppendsBeginning};

use crate::write::put_all;
use std::alloc::Global;
use std::io::Write;
use ux_syntax::ScriptFault;
use ux_trace::echo_text;
use ux_types::Entry;

/// The number of the line of the call at this place, where it has one.
pub(crate) fn line_at(lines: &[Option<usize>], place: usize) -> Option<usize>
    ensures { result ≡ slice_index_or lines.now place None }
{
    match lines.get(place) {
        Some(line) => *line,
        None => None,
    }
}

/// Writes the lines of a history beside its script, and flushes the writer. After a fault a beginning of them was
/// written.
///
/// # Errors
///
/// `Writing` where a write or the flush fails, and `NoMemory`.
pub fn finish_echo<W: Write>(
    alloc: Global,
    writer: &mut W,
    lines: &[Option<usize>],
    history: &[Entry],
) -> Result<(), ScriptFault>
    // What was written is the text of the entries beside these numbers of lines.
    ensures ok { OnOk result (Appends (W.contents writer.old) (W.contents writer.new) (echo lines.now history.now)) }
    ensures err { OnErr result (AppendsBeginning (W.contents writer.old) (W.contents writer.new) (echo lines.now history.now)) }
    ensures fault { IfErr result (λ f. (f ≡ ScriptFault.Writing) ⊎ (f ≡ ScriptFault.NoMemory)) }
{
    write_echo(alloc, writer, lines, history)?;
    if writer.flush().is_err() {
        return Err(ScriptFault::Writing);
    }
    Ok(())
}

fn write_echo<W: Write>(
    alloc: Global,
    writer: &mut W,
    lines: &[Option<usize>],
    history: &[Entry],
) -> Result<(), ScriptFault>
    ensures ok { OnOk result (Appends (W.contents writer.old) (W.contents writer.new) (echo lines.now history.now)) }
    ensures err { OnErr result (AppendsBeginning (W.contents writer.old) (W.contents writer.new) (echo lines.now history.now)) }
    ensures fault { IfErr result (λ e. (e ≡ ScriptFault.Writing) ⊎ (e ≡ ScriptFault.NoMemory)) }
{
    for (place, entry) in history.iter().enumerate() {
        let text = echo_text(alloc, line_at(lines, place), entry)?;
        put_all(writer, text.as_bytes())?;
    }
    Ok(())
}
