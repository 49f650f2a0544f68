//! Making processes (fork(2)), and starting programs in them (execve(2)).
ghost use Rattle.std.specs.Prelude.{◌≡◌, IsTrue};
ghost use Rattle.ux_model.specs.State.{is_live};
ghost use Rattle.ux_model.specs.Forking as model;
ghost use Rattle.ux_msg.specs.Answers.{Gives};

use crate::kernel::Kernel;
use ux_object::FileObject;
use ux_types::{Errno, MADE_LIMIT, Pid, Refusal, Reply};

impl<O: FileObject> Kernel<O> {
    /// fork(2). EAGAIN where 1,024 processes have been made, those that have exited counted.
    #[tactic(auto, using(crate::proofs::Processes::fork_refused, crate::proofs::Processes::fork_wants, crate::proofs::Processes::forked))]
    pub(crate) fn fork(&mut self, pid: Pid) -> Result<Reply, Refusal>
        requires { IsTrue (is_live self.old pid.0) }
        ensures { Gives self.old (model.fork self.old pid.0) result self.new }
    {
        if self.state.process_count() >= MADE_LIMIT {
            return Err(Errno::EAGAIN.into());
        }
        let child = self.state.fork_process(pid)?;
        Ok(Reply::Child(child))
    }

    /// execve(2), of which the layer sees the descriptors alone: those with close-on-exec are closed. It is never
    /// refused.
    #[tactic(auto, using(crate::proofs::Processes::exec_reply, crate::proofs::Processes::exec_next))]
    pub(crate) fn exec(&mut self, pid: Pid) -> Reply
        requires { IsTrue (is_live self.old pid.0) }
        ensures reply { result ≡ (model.exec self.old pid.0).reply }
        ensures state { self.new ≡ (model.exec self.old pid.0).next }
    {
        self.state.exec_process(pid);
        Reply::Ok
    }
}
