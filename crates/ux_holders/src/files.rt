//! File objects and paths.
ghost use Rattle.std.specs.Prelude.{◌≡◌, IfOk, map};
ghost use Rattle.ux_names.specs.Targets.{target_of};
ghost use Rattle.ux_holders.specs.Listing as listing;

use crate::listed::add;
use crate::rows::{ObjectRow, PathRow};
use std::alloc::{AllocError, Global};
use ux_object::FileObject;
use ux_state::State;

/// The file objects that are open, rising.
#[tactic(auto, using(crate::proofs::Steps::next_row), unfolding(crate::specs::Listing::objects_of))]
pub(crate) fn objects_of<O: FileObject>(
    alloc: Global,
    state: &State<O>,
) -> Result<Vec<ObjectRow>, AllocError>
    ensures { IfOk result (λ rows. rows.items ≡ listing.objects_of state.now) }
{
    let mut rows = Vec::new(alloc);
    for number in 0..state.object_count() {
        add(&mut rows, object_row(state, number as u32))?;
    }
    Ok(rows)
}

/// The row of a file object, while it is open.
fn object_row<O: FileObject>(state: &State<O>, number: u32) -> Option<ObjectRow>
    ensures { result ≡ listing.object_row state.now number }
{
    match state.object(number) {
        Some(object) => Some(ObjectRow {
            number,
            kind: object.kind(),
            size: object.size(),
        }),
        None => None,
    }
}

/// The paths, in order of binding.
pub(crate) fn paths_of<O: FileObject>(
    alloc: Global,
    state: &State<O>,
) -> Result<Vec<PathRow>, AllocError>
    ensures { IfOk result (λ rows. map (λ row. (row.name, target_of row.target)) rows.items ≡ state.now.paths) }
{
    let paths = state.paths();
    let listed = match paths.in_order() {
        Ok(listed) => listed,
        Err(error) => return Err(error),
    };
    let mut rows = Vec::new(alloc);
    for entry in &listed {
        let name = entry.0.clone()?;
        rows.push(PathRow {
            name,
            target: entry.1,
        })?;
    }
    Ok(rows)
}
