//! What is held at one moment.
ghost use Rattle.std.specs.Prelude.{◌≡◌, IfOk, map};
ghost use Rattle.ux_names.specs.Targets.{target_of};
ghost use Rattle.ux_holders.specs.Listing.{processes_of, descriptions_of, objects_of};

use crate::descriptions::descriptions_of;
use crate::files::{objects_of, paths_of};
use crate::processes::processes_of;
use crate::rows::{DescriptionRow, ObjectRow, PathRow, ProcessRow};
use std::alloc::{AllocError, Global};
use ux_object::FileObject;
use ux_state::State;

/// All that is there at one moment, and who holds it.
#[derive(Drop)]
pub struct Snapshot {
    /// The processes that live, rising.
    pub processes: Vec<ProcessRow>,
    /// The descriptions that are there, rising.
    pub descriptions: Vec<DescriptionRow>,
    /// The file objects that are open, rising.
    pub objects: Vec<ObjectRow>,
    /// In order of binding.
    pub paths: Vec<PathRow>,
}

/// All that is there now, and who holds it.
///
/// # Errors
///
/// Out of memory.
pub fn take_snapshot<O: FileObject>(alloc: Global, state: &State<O>) -> Result<Snapshot, AllocError>
    // Each live process with its open numbers, and where each leads.
    ensures processes { IfOk result (λ s. s.processes.items ≡ processes_of state.now) }
    // Each description that is there, with how many references it has and what it leads to.
    ensures descriptions { IfOk result (λ s. s.descriptions.items ≡ descriptions_of state.now) }
    // Each file object that is open.
    ensures objects { IfOk result (λ s. s.objects.items ≡ objects_of state.now) }
    // Each path, and what it names.
    ensures paths { IfOk result (λ s. map (λ row. (row.name, target_of row.target)) s.paths.items ≡ state.now.paths) }
{
    Ok(Snapshot {
        processes: processes_of(alloc, state)?,
        descriptions: descriptions_of(alloc, state)?,
        objects: objects_of(alloc, state)?,
        paths: paths_of(alloc, state)?,
    })
}
