//! Which bytes are a line, whatever stands before it.

ghost use Rattle.std.specs.Prelude.{◌≡◌, IfOk};
ghost use Rattle.ux_syntax.specs.Forms.{is_line};

use crate::fault::LineError;
use crate::reading::item_of;
use std::alloc::{AllocError, Global};

/// Whether these bytes are a line that a script may have somewhere, of at most so many bytes: an empty line or a comment,
/// a line of the header, one of a process, whichever number that has, `off` or `serial`.
///
/// # Errors
///
/// `AllocError` where memory runs out.
#[tactic(auto, unfolding(crate::specs::Forms::is_line))]
pub fn is_line(alloc: Global, limit: usize, text: &[u8]) -> Result<bool, AllocError>
    ensures exact { IfOk result (λ yes. yes ≡ is_line limit text.now) }
{
    match item_of(alloc, 0, limit, text) {
        Ok(_) => Ok(true),
        Err(LineError::Memory) => Err(AllocError),
        Err(LineError::Fault(_)) => Ok(false),
    }
}
