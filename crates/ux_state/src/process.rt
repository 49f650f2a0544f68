//! A process and its descriptor table.
ghost use Rattle.std.specs.Prelude.{◌≡◌, ◌-◌, ◌<◌, map, None, true, IfOk, length, slice_index_or};
ghost use Rattle.std.specs.Borrow.{sem};
ghost use Rattle.ux_model.specs.Boot.{new_process};
ghost use Rattle.ux_model.specs.Closing.{with_nothing_open};
ghost use Rattle.ux_model.specs.Forking.{child_of};
ghost use Rattle.ux_model.specs.Users.{with_ids};
ghost use Rattle.ux_state.specs.Lends.{lends_process};

use std::alloc::{AllocError, Global};
use std::marker::Model;
use ux_fdtable::Table;
use ux_types::{Pid, ProcSpec};

/// A process.
#[derive(Drop)]
pub(crate) struct Process {
    pub(crate) uid: u32,
    pub(crate) gid: u32,
    pub(crate) privileged: bool,
    pub(crate) exited: bool,
    pub(crate) table: Table,
}

impl Model for Process {
    ghost use Rattle.ux_model.specs.Process as model;

    ghost Value = { model.Process };

    ghost view = { λ p. record { uid = p.uid; gid = p.gid; privileged = p.privileged; exited = p.exited; table = p.table } };
}

impl Process {
    /// A process that has opened nothing yet.
    pub(crate) fn new(alloc: Global, spec: &ProcSpec) -> Result<Process, AllocError>
        ensures { IfOk result (λ P. P ≡ new_process spec.now) }
    {
        Ok(Process {
            uid: spec.uid,
            gid: spec.gid,
            privileged: spec.privileged,
            exited: false,
            table: Table::new(alloc, spec.limit)?,
        })
    }

    /// Its copy, which lives.
    pub(crate) fn fork(&self) -> Result<Process, AllocError>
        ensures { IfOk result (λ P. P ≡ child_of self.now) }
    {
        Ok(Process {
            uid: self.uid,
            gid: self.gid,
            privileged: self.privileged,
            exited: false,
            table: self.table.clone()?,
        })
    }

    /// Gives it other ids. It loses its privileges where it was user 0 and is another now (capabilities(7)).
    pub(crate) fn set_ids(&mut self, uid: u32, gid: u32)
        ensures { self.new ≡ with_ids uid gid self.old }
    {
        self.privileged = self.privileged && (uid == 0 || self.uid != 0);
        self.uid = uid;
        self.gid = gid;
    }

    /// Closes all its descriptors.
    pub(crate) fn close_all(&mut self)
        ensures { self.new ≡ with_nothing_open self.old }
    {
        self.table.clear();
    }

    /// Ends it: all its descriptors are closed.
    pub(crate) fn exit(&mut self)
        ensures { self.new ≡ record self.old { exited = true; table = map (λ e. None) self.old.table } }
    {
        self.exited = true;
        self.table.clear();
    }
}

/// The process with this number, for writing. Numbers start from 1.
pub(crate) fn process_mut(processes: &mut Vec<Process>, pid: Pid) -> &mut Process
    requires positive { 0 < pid.0 }
    requires inside { pid.0 - 1 < length processes.old.items }
    ensures* writes_back { sem 𝓛 (lends_process processes.entry pid.0 result) }
    ensures value { result.now ≡ slice_index_or processes.old.items (pid.0 - 1) result.now }
{
    &mut processes[pid.0 as usize - 1]
}
