//! Making a process, and starting a new program in one.
ghost use Rattle.std.specs.Prelude.{◌≡◌, ◌<◌, IsTrue, Some, IfOk, OnOk, OnErr, length, map};
ghost use Rattle.ux_model.specs.Limits.{made_limit};
ghost use Rattle.ux_model.specs.Process.{Process, kept_on_exec};
ghost use Rattle.ux_model.specs.State.{is_live, process_at, table_of, with_table, with_child, next_process};
ghost use Rattle.ux_model.specs.Forking.{child_of};

use crate::process::process_mut;
use crate::references::{release_marked, retain_table, table_has_room};
use crate::state::State;
use std::alloc::AllocError;
use ux_object::FileObject;
use ux_types::Pid;

impl<O: FileObject> State<O> {
    /// Makes the copy of a process, and answers its number (fork(2)): of the same user, with the same descriptors.
    ///
    /// # Errors
    ///
    /// Out of memory, also where no more references can be counted. The state is then as before.
    pub fn fork_process(&mut self, parent: Pid) -> Result<Pid, AllocError>
        requires live { IsTrue (is_live self.old parent.0) }
        requires few { length self.old.processes < made_limit }
        ensures number { IfOk result (λ pid. pid.0 ≡ next_process self.old) }
        ensures made { (P : Process) → process_at self.old parent.0 ≡ Some P → OnOk result (self.new ≡ with_child self.old (child_of P)) }
        ensures err { OnErr result (self.new ≡ self.old) }
    {
        let child = self.process(parent).fork()?;
        if !table_has_room(&self.descriptions, &child.table) {
            return Err(AllocError);
        }
        self.processes.reserve(1)?;
        retain_table(&mut self.descriptions, &child.table);
        self.processes.push(child)?;
        Ok(Pid(self.processes.len() as u32))
    }

    /// Closes the descriptors of a process that have close-on-exec (execve(2)).
    pub fn exec_process(&mut self, pid: Pid)
        requires { IsTrue (is_live self.old pid.0) }
        ensures { self.new ≡ with_table self.old pid.0 (map kept_on_exec (table_of self.old pid.0)) }
    {
        let process = process_mut(&mut self.processes, pid);
        release_marked(&mut self.descriptions, &process.table);
        process.table.close_on_exec();
    }
}
