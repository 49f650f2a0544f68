//! Rights that a message passed (recvmsg(2)).
ghost use Rattle.std.specs.Prelude.{◌≡◌, ◌≤◌, IsTrue, OnOk, OnErr, length, map, take};
ghost use Rattle.ux_model.specs.Process.{free_numbers};
ghost use Rattle.ux_model.specs.Delivery.{installed};
ghost use Rattle.ux_model.specs.State.{is_live, table_of, with_table};
ghost use Rattle.ux_state.specs.Moves.{AreReferenced};

use crate::process::process_mut;
use crate::references::{have_room, retain_all};
use crate::state::State;
use std::alloc::AllocError;
use ux_object::FileObject;
use ux_rights::Reference;
use ux_types::{Fd, Pid};

impl<O: FileObject> State<O> {
    /// Opens these numbers of a process, its lowest free ones, for the first of the rights, with close-on-exec
    /// or without (recvmsg(2)). Each leads to what something refers to already. Every growth comes before the
    /// first change.
    ///
    /// # Errors
    ///
    /// Out of memory, also where no more references can be counted. The state is then as before.
    pub fn install_rights(
        &mut self,
        pid: Pid,
        numbers: &[Fd],
        rights: &[Reference],
        cloexec: bool,
    ) -> Result<(), AllocError>
        requires live { IsTrue (is_live self.old pid.0) }
        requires free { map (λ fd. fd.0) numbers.now ≡ take (length numbers.now) (free_numbers (table_of self.old pid.0)) }
        requires enough { length numbers.now ≤ length rights.now }
        requires held { AreReferenced self.old rights.now }
        ensures ok { OnOk result (self.new ≡ with_table self.old pid.0 (installed cloexec (map (λ fd. fd.0) numbers.now) rights.now (table_of self.old pid.0))) }
        ensures err { OnErr result (self.new ≡ self.old) }
    {
        let first = &rights[..numbers.len()];
        if !have_room(&self.descriptions, first) {
            return Err(AllocError);
        }
        let process = process_mut(&mut self.processes, pid);
        process.table.install_all(numbers, rights, cloexec)?;
        retain_all(&mut self.descriptions, first);
        Ok(())
    }
}
