//! Making a pair of sockets (socketpair(2)).
ghost use Rattle.std.specs.Prelude.{IsTrue};
ghost use Rattle.ux_model.specs.State.{is_live};
ghost use Rattle.ux_msg.specs.Answers.{Gives};
ghost use Rattle.ux_model.specs.Pairing as model;

use crate::kernel::Kernel;
use ux_object::FileObject;
use ux_types::{OpenFlags, Pid, Refusal, Reply, SockType};

impl<O: FileObject> Kernel<O> {
    /// socketpair(2). EMFILE where fewer than two numbers are free.
    #[tactic(auto, unfolding(ux_model::specs::Pairing::make_pair))]
    pub(crate) fn make_pair(
        &mut self,
        pid: Pid,
        kind: SockType,
        flags: OpenFlags,
    ) -> Result<Reply, Refusal>
        requires { IsTrue (is_live self.old pid.0) }
        ensures { Gives self.old (model.make_pair self.old pid.0 kind flags) result self.new }
    {
        let cred = self.state.credentials(pid);
        let (low, high) = self.state.open_pair(pid, kind, flags, cred)?;
        Ok(Reply::Fds(low, high))
    }
}
