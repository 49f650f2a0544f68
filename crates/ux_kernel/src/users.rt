//! Changing who a process runs as (setresuid(2), setresgid(2)).
ghost use Rattle.std.specs.Prelude.{◌≡◌, ◌||◌, ◌==◌, IsTrue, IsSomeAnd};
ghost use Rattle.ux_model.specs.State.{is_live, process_at};
ghost use Rattle.ux_model.specs.Users as model;
ghost use Rattle.ux_msg.specs.Answers.{Gives};

use crate::kernel::Kernel;
use ux_object::FileObject;
use ux_types::{Errno, Pid, Refusal, Reply};

/// The number of no user and of no group, (uid_t) -1.
const NO_ID: u32 = 4_294_967_295;

impl<O: FileObject> Kernel<O> {
    /// setresuid(2) and setresgid(2) at once, with one id for the real, the effective and the saved. EINVAL where one
    /// is no id, else EPERM where the process is unprivileged and they aren't its own. Privileges are lost where user 0
    /// becomes another (capabilities(7)).
    #[tactic(auto, using(crate::proofs::Processes::no_ids_refused, crate::proofs::Processes::others_ids_refused))]
    pub(crate) fn set_ids(&mut self, pid: Pid, uid: u32, gid: u32) -> Result<Reply, Refusal>
        requires { IsTrue (is_live self.old pid.0) }
        ensures { Gives self.old (model.set_ids self.old pid.0 uid gid) result self.new }
    {
        if has_no_id(uid, gid) {
            return Err(Errno::EINVAL.into());
        }
        if !self.may_become(pid, uid, gid) {
            return Err(Errno::EPERM.into());
        }
        self.state.set_ids(pid, uid, gid);
        Ok(Reply::Ok)
    }

    /// Whether a process may take these ids: any where it is privileged, else its own.
    fn may_become(&self, pid: Pid, uid: u32, gid: u32) -> bool
        requires { IsTrue (is_live self.now pid.0) }
        ensures { IsSomeAnd (process_at self.now pid.0) (λ P. result ≡ model.may_become uid gid P) }
    {
        let own = self.state.credentials(pid);
        self.state.is_privileged(pid) || (own.uid == uid && own.gid == gid)
    }
}

/// Whether one of these is no id.
fn has_no_id(uid: u32, gid: u32) -> bool
    ensures { result ≡ ((uid == model.no_id) || (gid == model.no_id)) }
{
    uid == NO_ID || gid == NO_ID
}
