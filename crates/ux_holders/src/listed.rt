//! Lists that grow by a row where there is one.
ghost use Rattle.std.specs.Prelude.{◌≡◌, ◌++◌, OnOk};
ghost use Rattle.std.specs.Option.{option_to_list};

use std::alloc::AllocError;

/// Appends the row, if there is one.
///
/// # Errors
///
/// Out of memory.
pub(crate) fn add<T: Drop>(rows: &mut Vec<T>, row: Option<T>) -> Result<(), AllocError>
    ensures { OnOk result (rows.new.items ≡ rows.old.items ++ option_to_list row) }
{
    if let Some(row) = row {
        rows.push(row)?;
    }
    Ok(())
}
