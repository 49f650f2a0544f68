//! Names, addresses, bytes and flags as JSON texts.

ghost use Rattle.std.specs.Prelude.{◌≡◌, IfOk, string_bytes};
ghost use Rattle.ux_trace.specs.Trace.{path_text, addr_text};

use bitflags::Flags;
use serde_json::Value;
use std::alloc::{AllocError, Global};
use ux_trace::{AddrText, NameText};
use ux_types::{Addr, Name, OpenFlags};

/// A path as a script has it: `p:` and the name.
///
/// # Errors
///
/// Out of memory.
pub fn path_text(alloc: Global, path: &Name) -> Result<String, AllocError>
    ensures { IfOk result (λ text. string_bytes text ≡ path_text path.now) }
{
    format!(in alloc; "p:{}", NameText(path.as_bytes()))
}

/// An address as a script has it.
///
/// # Errors
///
/// Out of memory.
pub fn addr_text(alloc: Global, addr: &Addr) -> Result<String, AllocError>
    ensures { IfOk result (λ text. string_bytes text ≡ addr_text addr.now) }
{
    format!(in alloc; "{}", AddrText(addr))
}

/// An address as a script has it, or null for none.
pub(crate) fn addr_or_null(alloc: Global, addr: &Option<Addr>) -> Result<Value, AllocError> {
    match addr {
        Some(addr) => Ok(Value::String(addr_text(alloc, addr)?)),
        None => Ok(Value::Null),
    }
}

/// Bytes as pairs of hexadecimal digits, an empty text for none.
pub(crate) fn hex_text(alloc: Global, bytes: &[u8]) -> Result<String, AllocError> {
    hex::encode(alloc, bytes)
}

/// The name of each flag that is set.
fn names_of<F: Flags>(alloc: Global, flags: &F) -> Result<Vec<Value>, AllocError> {
    let mut names = Vec::new(alloc);
    for (name, _flag) in flags.iter_names() {
        names.push(Value::try_from_str(alloc, name)?)?;
    }
    Ok(names)
}

/// The names of the flags that are set, as the manual pages have them without what all begin with.
pub(crate) fn flag_names<F: Flags>(alloc: Global, flags: &F) -> Result<Value, AllocError> {
    Ok(Value::Array(names_of(alloc, flags)?))
}

/// The same of a counter, and behind them `SEMAPHORE` where it is one (eventfd(2)).
pub(crate) fn counter_flag_names(
    alloc: Global,
    semaphore: bool,
    flags: &OpenFlags,
) -> Result<Value, AllocError> {
    let mut names = names_of(alloc, flags)?;
    if semaphore {
        names.push(Value::try_from_str(alloc, "SEMAPHORE")?)?;
    }
    Ok(Value::Array(names))
}
