//! The whole layer as one value.
ghost use Rattle.std.specs.Prelude.{◌≡◌, ◌≤◌, length};
ghost use Rattle.ux_model.specs.Limits.{made_limit};
ghost use Rattle.ux_model.specs.State.{is_live};
ghost use Rattle.ux_model.specs.History.{has_live};

use std::alloc::Global;
use std::marker::Model;
use ux_object::FileObject;
use ux_state::State;
use ux_types::Pid;

/// All file objects, open file descriptions, processes and paths. Contracts see it as the state that
/// the definitions speak of.
pub struct Kernel<O: FileObject> {
    /// Where the bytes of messages and of replies get their memory.
    pub(crate) alloc: Global,
    pub(crate) state: State<O>,
}

// Written out, so that it is proved here and not in each function that drops a kernel.
impl<O: FileObject> Drop for Kernel<O> {
    fn drop(self) {
        let Self { alloc: _, state } = self;
        drop(state)
    }
}

impl<O: FileObject> Model for Kernel<O> {
    ghost use Rattle.ux_model.specs.State as model;

    ghost Value = { model.State };

    ghost view = { λ k. k.state };
}

impl<O: FileObject> Kernel<O> {
    /// Its state, to be looked at.
    pub fn state(&self) -> &State<O>
        ensures { result.now ≡ self.now }
    {
        &self.state
    }

    /// How many processes were made, exited ones too.
    pub fn process_count(&self) -> usize
        ensures count { result ≡ length self.now.processes }
        ensures most { result ≤ made_limit }
    {
        self.state.process_count()
    }

    /// Whether a process with this number was made, and hasn't exited.
    pub fn is_live(&self, pid: Pid) -> bool
        ensures { result ≡ is_live self.now pid.0 }
    {
        self.state.is_live(pid)
    }

    /// Whether some process hasn't exited.
    pub fn has_live(&self) -> bool
        ensures { result ≡ has_live self.now }
    {
        self.state.has_live()
    }
}
