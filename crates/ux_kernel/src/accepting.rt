//! Taking an end that waits at a listener (accept(2)).
ghost use Rattle.std.specs.Prelude.{◌≡◌, IsTrue, IfOk};
ghost use Rattle.ux_model.specs.State.{is_live};
ghost use Rattle.ux_model.specs.Accepting as model;
ghost use Rattle.ux_msg.specs.Answers.{Gives};

use crate::kernel::Kernel;
use std::alloc::AllocError;
use ux_object::FileObject;
use ux_state::FoundSocket;
use ux_types::{Addr, DescriptionId, Errno, Fd, OpenFlags, Pid, Refusal, Reply};

impl<O: FileObject> Kernel<O> {
    /// accept4(2): the oldest end that waits, with these flags, and the name that its client has now.
    /// EOPNOTSUPP of a datagram socket, EINVAL where the socket doesn't listen, EMFILE where no number is free,
    /// and the end waits on; EAGAIN where none waits.
    #[tactic(auto, using(ux_model::proofs::Tables::Shows::socket_found), unfolding(ux_model::specs::Accepting::accept))]
    pub(crate) fn accept(&mut self, pid: Pid, fd: Fd, flags: OpenFlags) -> Result<Reply, Refusal>
        requires { IsTrue (is_live self.old pid.0) }
        ensures { Gives self.old (model.accept self.old pid.0 fd flags) result self.new }
    {
        let FoundSocket { id, socket } = match self.state.find_socket(pid, fd) {
            Ok(found) => found,
            Err(e) => return Err(e.into()),
        };
        if socket.is_datagram() {
            return Err(Errno::EOPNOTSUPP.into());
        }
        if !socket.is_listening() {
            return Err(Errno::EINVAL.into());
        }
        if self.state.table(pid).lowest_free().is_none() {
            return Err(Errno::EMFILE.into());
        }
        let end = self.state.first_pending(id).ok_or(Errno::EAGAIN)?;
        let client = self.client_of(end)?;
        let number = self.state.accept(pid, id, flags)?;
        Ok(Reply::Accepted(number, client))
    }

    /// The name that the client of a server's end has now; the unnamed address where it is gone.
    fn client_of(&self, end: DescriptionId) -> Result<Addr, AllocError>
        ensures { IfOk result (λ name. name ≡ model.client_name self.now end) }
    {
        match self.state.client_name(end) {
            Some(name) => name.clone(),
            None => Ok(Addr::Unnamed),
        }
    }
}
