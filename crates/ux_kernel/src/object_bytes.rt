//! The bytes that a file object gives. All memory for them is there before the object is asked.
ghost use Rattle.std.specs.Prelude.{◌≡◌, ◌≤◌, ◌<◌, ◌^◌, IsTrue, is_some, length, IfOk, OnErr};
ghost use Rattle.ux_model.specs.Places.{place};
ghost use Rattle.ux_state.specs.ObjectCalls.{ReadsObject};

use std::alloc::{AllocError, Global};
use std::sync::Arc;
use ux_object::{FileObject, ObjError};
use ux_state::State;
use ux_types::{Bytes, SHORT_BYTES};

/// Reads at most n bytes of a file object that is there, as the interface of file objects says.
///
/// # Errors
///
/// Out of memory, before the object is asked; else what the object answers.
pub(crate) fn read_bytes<O: FileObject>(
    state: &mut State<O>,
    alloc: Global,
    number: u32,
    at: u64,
    n: usize,
) -> Result<Result<Bytes, ObjError>, AllocError>
    requires there { IsTrue (is_some (place state.old.objects number)) }
    requires few { n < 2 ^ 32 }
    ensures fits { IfOk result (λ answer. IfOk answer (λ bytes. length bytes ≤ n)) }
    ensures reads { IfOk result (λ answer. ReadsObject state.old number at n answer state.new) }
    ensures err { OnErr result (state.new ≡ state.old) }
{
    if n <= SHORT_BYTES {
        return Ok(read_short(state, number, at, n));
    }
    read_long(state, alloc, number, at, n)
}

/// Reads so few bytes that they need no memory.
fn read_short<O: FileObject>(
    state: &mut State<O>,
    number: u32,
    at: u64,
    n: usize,
) -> Result<Bytes, ObjError>
    requires there { IsTrue (is_some (place state.old.objects number)) }
    requires few { n ≤ SHORT_BYTES }
    ensures fits { IfOk result (λ bytes. length bytes ≤ n) }
    ensures reads { ReadsObject state.old number at n result state.new }
{
    let mut buf = [0u8; SHORT_BYTES];
    let count = state.read_object(number, at, &mut buf[..n])?;
    Ok(Bytes::short(&buf[..count]))
}

/// Reads bytes into memory that the reply then shares.
fn read_long<O: FileObject>(
    state: &mut State<O>,
    alloc: Global,
    number: u32,
    at: u64,
    n: usize,
) -> Result<Result<Bytes, ObjError>, AllocError>
    requires there { IsTrue (is_some (place state.old.objects number)) }
    requires few { n < 2 ^ 32 }
    ensures fits { IfOk result (λ answer. IfOk answer (λ bytes. length bytes ≤ n)) }
    ensures reads { IfOk result (λ answer. ReadsObject state.old number at n answer state.new) }
    ensures err { OnErr result (state.new ≡ state.old) }
{
    let mut whole = Arc::new(alloc, vec![in alloc; 0u8; n]?)?;
    // It has one owner, so its bytes are always there to be written.
    let Some(bytes) = Arc::get_mut(&mut whole) else {
        return Err(AllocError);
    };
    match state.read_object(number, at, bytes.as_mut_slice()) {
        Ok(count) => {
            bytes.truncate(count);
            Ok(Ok(Bytes::from_shared(whole)))
        }
        Err(error) => Ok(Err(error)),
    }
}
