//! Runs beside runs.
use crate::machine::list_of;
use std::alloc::Global;
use std::test::Fail;
use ux_orders::Ran;

/// Whether these are runs in the same orders, in the same row.
pub fn are_same_runs(alloc: Global, these: &[Ran], those: &[Ran]) -> Result<bool, Fail> {
    if these.len() != those.len() {
        return Ok(false);
    }
    for (one, other) in these.iter().zip(those) {
        if list_of(alloc, one)?.as_str() != list_of(alloc, other)?.as_str() {
            return Ok(false);
        }
    }
    Ok(true)
}
