//! Who a process runs as.
ghost use Rattle.std.specs.Prelude.{◌≡◌, IsTrue, Some};
ghost use Rattle.ux_model.specs.Process.{Process};
ghost use Rattle.ux_model.specs.State.{is_live, process_at, with_process};
ghost use Rattle.ux_model.specs.Users.{with_ids};

use crate::process::process_mut;
use crate::state::State;
use ux_object::FileObject;
use ux_types::Pid;

impl<O: FileObject> State<O> {
    /// Gives a process other ids (setresuid(2), setresgid(2)). It loses its privileges where it was user 0 and is another
    /// now (capabilities(7)). Rights in flight stay counted to the user that sent them.
    pub fn set_ids(&mut self, pid: Pid, uid: u32, gid: u32)
        requires { IsTrue (is_live self.old pid.0) }
        ensures { (P : Process) → process_at self.old pid.0 ≡ Some P → self.new ≡ with_process self.old pid.0 (with_ids uid gid P) }
    {
        let process = process_mut(&mut self.processes, pid);
        process.set_ids(uid, gid);
    }
}
