//! Writing a trace.

ghost use Rattle.std.specs.Prelude.{◌≡◌, ◌<◌, ◌≤◌, ◌⊎◌, length, take, IfOk, OnOk, OnErr, IfErr};
ghost use Rattle.std.specs.Io.KnownBytes.{Appends, Keeps};
ghost use Rattle.ux_trace.specs.Trace.{trace};
ghost use Rattle.ux_script.specs.Writes.{AppendsBeginning};

use std::alloc::Global;
use std::io::{ErrorKind, Write};
use ux_syntax::ScriptFault;
use ux_trace::entry_text;
use ux_types::Entry;

/// How often a write that is interrupted is made again.
const TURNS: u64 = u64::MAX;

/// Writes some of the bytes. A write that was interrupted (EINTR of write(2)) is made again.
fn put_some<W: Write>(writer: &mut W, bytes: &[u8]) -> Result<usize, ScriptFault>
    ensures some { IfOk result (λ count. 0 < count) }
    ensures fits { IfOk result (λ count. count ≤ length bytes.now) }
    ensures ok { IfOk result (λ count. Appends (W.contents writer.old) (W.contents writer.new) (take count bytes.now)) }
    ensures err { OnErr result (Keeps (W.contents writer.old) (W.contents writer.new)) }
    ensures fault { IfErr result (λ e. e ≡ ScriptFault.Writing) }
{
    for _ in 0..TURNS {
        match writer.write(bytes) {
            Ok(0) => return Err(ScriptFault::Writing),
            Ok(count) => return Ok(count),
            Err(error) if error.kind() == ErrorKind::Interrupted => {}
            Err(_) => return Err(ScriptFault::Writing),
        }
    }
    Err(ScriptFault::Writing)
}

/// Writes all bytes. After a fault a beginning of them was written.
///
/// # Errors
///
/// `Writing` where a write fails.
pub fn put_all<W: Write>(writer: &mut W, bytes: &[u8]) -> Result<(), ScriptFault>
    ensures ok { OnOk result (Appends (W.contents writer.old) (W.contents writer.new) bytes.now) }
    ensures err { OnErr result (AppendsBeginning (W.contents writer.old) (W.contents writer.new) bytes.now) }
    ensures fault { IfErr result (λ e. e ≡ ScriptFault.Writing) }
{
    let mut rest = bytes;
    while !rest.is_empty() {
        let count = put_some(writer, rest)?;
        rest = &rest[count..];
    }
    Ok(())
}

/// Writes the lines of a history. After a fault a beginning of them was written.
///
/// # Errors
///
/// `Writing` where a write fails, and `NoMemory`.
pub fn write_trace<W: Write>(
    alloc: Global,
    writer: &mut W,
    history: &[Entry],
) -> Result<(), ScriptFault>
    ensures ok { OnOk result (Appends (W.contents writer.old) (W.contents writer.new) (trace history.now)) }
    ensures err { OnErr result (AppendsBeginning (W.contents writer.old) (W.contents writer.new) (trace history.now)) }
    ensures fault { IfErr result (λ e. (e ≡ ScriptFault.Writing) ⊎ (e ≡ ScriptFault.NoMemory)) }
{
    for (number, entry) in history.iter().enumerate() {
        let text = entry_text(alloc, number, entry)?;
        put_all(writer, text.as_bytes())?;
    }
    Ok(())
}
