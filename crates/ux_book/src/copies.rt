//! Copies of a history.
ghost use Rattle.std.specs.Prelude.{◌≡◌, IfOk};

use std::alloc::{AllocError, Global};
use ux_types::Entry;

/// Copies of these entries, which own their bytes together with them.
///
/// # Errors
///
/// Out of memory.
pub fn copy_entries(alloc: Global, entries: &[Entry]) -> Result<Vec<Entry>, AllocError>
    ensures { IfOk result (λ copies. copies.items ≡ entries.now) }
{
    let mut copies = Vec::with_capacity(alloc, entries.len())?;
    let mut left = entries;
    while let Some((entry, more)) = left.split_first() {
        copies.push(entry.clone()?)?;
        left = more;
    }
    Ok(copies)
}
