//! Reading a script from a file or another reader.

ghost use Rattle.std.specs.Prelude.{◌≡◌, ◌⊎◌, Ok, Err, IfOk, OnOk, IfErr, IfSome};
ghost use Rattle.std.specs.Io.KnownBytes.{IsAtEnd};
ghost use Rattle.ux_syntax.specs.Spelling.{Plan, plan_of, SpellScript, IsOrderly, lines_of};
ghost use Rattle.ux_syntax.specs.Results.{GivesScript, HasFault};
ghost use Rattle.ux_syntax.specs.Continuing.{Found};

use crate::fault::ScriptFault;
use crate::progress::Progress;
use crate::script::Script;
use std::alloc::Global;
use std::io::{ErrorKind, Read};

/// The bytes that are read at once.
const CHUNK: usize = 4096;

/// How many reads are made at most, so that each line's number fits.
const TURNS: u64 = u64::MAX / 8192;

/// The script that the bytes of a reader spell. It is read to its end, or until a line is at fault: no
/// more is kept than the script and one line, and no read is made once a fault is found.
///
/// # Errors
///
/// `BadLine`, `UnknownProcess` or `TooLong` of the first line at fault; `Reading` where a read fails; `NoMemory`.
pub fn read_script<R: Read>(alloc: Global, reader: &mut R) -> Result<Script, ScriptFault>
    // What is read is spelled so by the bytes that the reader had.
    ensures found { IfOk result (λ script. IfSome (R.remaining reader.old) (λ text. SpellScript (lines_of text) (plan_of script))) }
    // Each line is of a process that is there and hasn't made its exit, and waits for none that isn't there.
    ensures orderly { IfOk result (λ script. IsOrderly (plan_of script)) }
    // What is spelled so is read, unless memory runs out or the read failed.
    ensures only { IfSome (R.remaining reader.old) (λ text. (s : Plan) → SpellScript (lines_of text) s → (result ≡ Err ScriptFault.Reading) ⊎ GivesScript result (Ok s)) }
    // None of the reader's bytes is left.
    ensures end { OnOk result (IsAtEnd (R.remaining reader.new)) }
    // The read failed, or the fault is that of the first line at fault, and says why.
    ensures fault { IfErr result (λ f. (f ≡ ScriptFault.Reading) ⊎ IfSome (R.remaining reader.old) (λ text. HasFault (lines_of text) f)) }
{
    read_lines_of(alloc, reader)
}

/// Reads on while no line is at fault.
fn read_lines_of<R: Read>(alloc: Global, reader: &mut R) -> Result<Script, ScriptFault>
    ensures found { (result ≡ Err ScriptFault.Reading) ⊎ Found (R.remaining reader.old) result }
    ensures end { OnOk result (IsAtEnd (R.remaining reader.new)) }
{
    let mut progress = Progress::new(alloc);
    let mut buffer = [0; CHUNK];
    for turn in 0..TURNS {
        match reader.read(&mut buffer) {
            Ok(0) => return progress.finish(alloc),
            Ok(count) => progress.take_bytes(alloc, &buffer[..count])?,
            Err(error) if error.kind() == ErrorKind::Interrupted => {}
            Err(error) if error.kind() == ErrorKind::OutOfMemory => {
                return Err(ScriptFault::NoMemory);
            }
            Err(_) => return Err(ScriptFault::Reading),
        }
    }
    Err(ScriptFault::Reading)
}
