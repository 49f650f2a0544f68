//! Names of sockets (bind(2), getsockname(2)).
ghost use Rattle.std.specs.Prelude.{IsTrue};
ghost use Rattle.ux_model.specs.State.{is_live};
ghost use Rattle.ux_model.specs.Binding as model;
ghost use Rattle.ux_msg.specs.Answers.{Gives};
ghost use Rattle.ux_state.specs.Moves.{IsUnnamedAt};

use crate::kernel::Kernel;
use ux_names::is_valid_addr;
use ux_object::FileObject;
use ux_state::FoundSocket;
use ux_types::{Addr, DescriptionId, Errno, Fd, Pid, Refusal, Reply};

impl<O: FileObject> Kernel<O> {
    /// bind(2). EINVAL where the socket has a name or the address is invalid, EADDRINUSE where the name is
    /// there already, ENOSPC where autobind finds none that is free, in this order.
    #[tactic(auto, using(ux_model::proofs::Tables::Shows::socket_found), unfolding(ux_model::specs::Binding::bind))]
    pub(crate) fn bind(&mut self, pid: Pid, fd: Fd, addr: &Addr) -> Result<Reply, Refusal>
        requires { IsTrue (is_live self.old pid.0) }
        ensures { Gives self.old (model.bind self.old pid.0 fd addr.now) result self.new }
    {
        let FoundSocket { id, socket } = match self.state.find_socket(pid, fd) {
            Ok(found) => found,
            Err(e) => return Err(e.into()),
        };
        if !socket.is_unnamed() || !is_valid_addr(addr) {
            return Err(Errno::EINVAL.into());
        }
        self.bind_to(id, addr)
    }

    /// Gives a socket without a name this one; the unnamed address asks for one of the abstract namespace.
    fn bind_to(&mut self, id: DescriptionId, addr: &Addr) -> Result<Reply, Refusal>
        requires { IsUnnamedAt self.old id }
        ensures { Gives self.old (model.bind_to self.old id addr.now) result self.new }
    {
        match addr {
            Addr::Unnamed => self.state.autobind(id)?,
            Addr::Path(name) => self.state.bind_path(id, name)?,
            Addr::Abstract(name) => self.state.bind_abstract(id, name)?,
        }
        Ok(Reply::Ok)
    }

    /// getsockname(2).
    #[tactic(auto, unfolding(ux_model::specs::Binding::get_sock_name))]
    pub(crate) fn get_sock_name(&self, pid: Pid, fd: Fd) -> Result<Reply, Refusal>
        requires { IsTrue (is_live self.now pid.0) }
        ensures { Gives self.now (model.get_sock_name self.now pid.0 fd) result self.now }
    {
        let socket = match self.state.find_socket(pid, fd) {
            Ok(found) => found.socket,
            Err(e) => return Err(e.into()),
        };
        Ok(Reply::Addr(socket.name().clone()?))
    }
}
