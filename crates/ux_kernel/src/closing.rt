//! Closing descriptors (close(2)), the end of a process (_exit(2)), and that of the whole layer.
ghost use Rattle.std.specs.Prelude.{◌≡◌, IsTrue};
ghost use Rattle.ux_model.specs.State.{is_live};
ghost use Rattle.ux_model.specs.Closing as model;
ghost use Rattle.ux_msg.specs.Answers.{Gives};

use crate::kernel::Kernel;
use ux_object::FileObject;
use ux_types::{Fd, Pid, Refusal, Reply};

impl<O: FileObject> Kernel<O> {
    /// close(2). EBADF where the number isn't open.
    #[tactic(auto, unfolding(ux_model::specs::Closing::close))]
    pub(crate) fn close(&mut self, pid: Pid, fd: Fd) -> Result<Reply, Refusal>
        requires { IsTrue (is_live self.old pid.0) }
        ensures { Gives self.old (model.close self.old pid.0 fd) result self.new }
    {
        if let Err(e) = self.state.find_description(pid, fd) {
            return Err(e.into());
        }
        self.state.take_entry(pid, fd);
        Ok(Reply::Ok)
    }

    /// _exit(2). It is never refused.
    #[tactic(auto, using(crate::proofs::Processes::exit_reply))]
    pub(crate) fn exit(&mut self, pid: Pid) -> Reply
        requires { IsTrue (is_live self.old pid.0) }
        ensures reply { result ≡ (model.exit self.old pid.0).reply }
        ensures state { self.new ≡ (model.exit self.old pid.0).next }
    {
        self.state.end_process(pid);
        Reply::Ok
    }

    /// The end of the layer: every path and every description is freed. It is never refused.
    #[tactic(auto, unfolding(ux_model::specs::Closing::off))]
    pub(crate) fn off(&mut self) -> Reply
        ensures reply { result ≡ (model.off self.old).reply }
        ensures state { self.new ≡ (model.off self.old).next }
    {
        self.state.forget_all();
        Reply::Ok
    }
}
