//! A history as text.
ghost use Rattle.std.specs.Prelude.{◌≡◌, IfOk};
ghost use Rattle.std.specs.String.{string_bytes};
ghost use Rattle.ux_trace.specs.Trace.{trace};

use std::alloc::{AllocError, Global};
use ux_trace::entry_text;
use ux_types::Entry;

/// The history as a trace, as `uxrun` prints it: a line for each call, in the words of `entry_text`.
///
/// # Errors
///
/// Out of memory.
pub fn trace_text(alloc: Global, entries: &[Entry]) -> Result<String, AllocError>
    ensures { IfOk result (λ text. string_bytes text ≡ trace entries.now) }
{
    let mut text = String::new(alloc);
    for (number, entry) in entries.iter().enumerate() {
        let line = entry_text(alloc, number, entry)?;
        text.push_str(line.as_str())?;
    }
    Ok(text)
}
