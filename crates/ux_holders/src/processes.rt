//! The processes that live, and their open numbers.
ghost use Rattle.std.specs.Prelude.{◌≡◌, IfOk, IsTrue};
ghost use Rattle.ux_model.specs.State.{is_live};
ghost use Rattle.ux_holders.specs.Listing as listing;

use crate::listed::add;
use crate::rows::{NumberRow, ProcessRow};
use std::alloc::{AllocError, Global};
use ux_fdtable::Table;
use ux_object::FileObject;
use ux_state::State;
use ux_types::{Fd, Pid};

/// The processes that live, rising.
#[tactic(auto, using(crate::proofs::Steps::next_row), unfolding(crate::specs::Listing::processes_of))]
pub(crate) fn processes_of<O: FileObject>(
    alloc: Global,
    state: &State<O>,
) -> Result<Vec<ProcessRow>, AllocError>
    ensures { IfOk result (λ rows. rows.items ≡ listing.processes_of state.now) }
{
    let mut rows = Vec::new(alloc);
    for index in 0..state.process_count() {
        let row = process_row(alloc, state, Pid(index as u32 + 1))?;
        add(&mut rows, row)?;
    }
    Ok(rows)
}

/// The row of a process, if it lives.
fn process_row<O: FileObject>(
    alloc: Global,
    state: &State<O>,
    pid: Pid,
) -> Result<Option<ProcessRow>, AllocError>
    ensures { IfOk result (λ row. row ≡ listing.process_row state.now pid.0) }
{
    if !state.is_live(pid) {
        return Ok(None);
    }
    let numbers = numbers_of(alloc, state.table(pid))?;
    Ok(Some(ProcessRow { pid, numbers }))
}

/// The open numbers of a table, rising.
#[tactic(auto, using(crate::proofs::Steps::next_row), unfolding(crate::specs::Listing::numbers_of))]
fn numbers_of(alloc: Global, table: &Table) -> Result<Vec<NumberRow>, AllocError>
    ensures { IfOk result (λ rows. rows.items ≡ listing.numbers_of table.now) }
{
    let mut rows = Vec::new(alloc);
    for number in 0..table.limit() {
        add(&mut rows, number_row(table, Fd(number)))?;
    }
    Ok(rows)
}

/// The row of a number, if it is open.
fn number_row(table: &Table, fd: Fd) -> Option<NumberRow>
    ensures { result ≡ listing.number_row table.now fd.0 }
{
    match table.get(fd) {
        Some(descriptor) => Some(NumberRow { fd, descriptor }),
        None => None,
    }
}
