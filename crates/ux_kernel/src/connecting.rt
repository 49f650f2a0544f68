//! Sockets that listen, and those that connect to them or are associated (socket(2), listen(2), connect(2),
//! shutdown(2), getpeername(2)).
ghost use Rattle.std.specs.Prelude.{IsTrue};
ghost use Rattle.ux_model.specs.State.{is_live};
ghost use Rattle.ux_model.specs.Connecting as model;
ghost use Rattle.ux_msg.specs.Answers.{Gives};
ghost use Rattle.ux_state.specs.Moves.{IsUnconnectedAt, IsNoListenerAt};

use crate::kernel::Kernel;
use ux_names::{is_unnamed, is_valid_addr};
use ux_object::FileObject;
use ux_state::FoundSocket;
use ux_types::{
    Addr, Cred, DescriptionId, Errno, Fd, Mode, OpenFlags, Pid, Refusal, Reply, SockType,
};

impl<O: FileObject> Kernel<O> {
    /// socket(2). EMFILE where no number is free.
    #[tactic(auto, unfolding(ux_model::specs::Connecting::make_socket))]
    pub(crate) fn make_socket(
        &mut self,
        pid: Pid,
        kind: SockType,
        flags: OpenFlags,
    ) -> Result<Reply, Refusal>
        requires { IsTrue (is_live self.old pid.0) }
        ensures { Gives self.old (model.make_socket self.old pid.0 kind flags) result self.new }
    {
        let fd = self.state.open_socket(pid, kind, flags)?;
        Ok(Reply::Fd(fd))
    }

    /// listen(2). EOPNOTSUPP of a datagram socket, EINVAL where the socket is connected, else EDESTADDRREQ where
    /// it has no name.
    #[tactic(auto, using(ux_model::proofs::Tables::Shows::socket_found), unfolding(ux_model::specs::Connecting::listen))]
    pub(crate) fn listen(&mut self, pid: Pid, fd: Fd, backlog: i32) -> Result<Reply, Refusal>
        requires { IsTrue (is_live self.old pid.0) }
        ensures { Gives self.old (model.listen self.old pid.0 fd backlog) result self.new }
    {
        let FoundSocket { id, socket } = match self.state.find_socket(pid, fd) {
            Ok(found) => found,
            Err(e) => return Err(e.into()),
        };
        if socket.is_datagram() {
            return Err(Errno::EOPNOTSUPP.into());
        }
        if socket.is_connected() {
            return Err(Errno::EINVAL.into());
        }
        if socket.is_unnamed() {
            return Err(Errno::EDESTADDRREQ.into());
        }
        let cred = self.state.credentials(pid);
        self.state.listen(id, backlog, cred);
        Ok(Reply::Ok)
    }

    /// connect(2). EINVAL for an invalid or unnamed address, and of a socket that listens, EISCONN
    /// of one that is connected; what the address leads to answers ENOENT, ECONNREFUSED or EPROTOTYPE; then
    /// ECONNREFUSED where that doesn't listen, EAGAIN where its backlog is full. A datagram socket is associated
    /// instead; the unnamed address ends its association.
    #[tactic(auto, using(ux_model::proofs::Tables::Shows::socket_found), unfolding(ux_model::specs::Connecting::connect))]
    pub(crate) fn connect(&mut self, pid: Pid, fd: Fd, addr: &Addr) -> Result<Reply, Refusal>
        requires { IsTrue (is_live self.old pid.0) }
        ensures { Gives self.old (model.connect self.old pid.0 fd addr.now) result self.new }
    {
        let cred = self.state.credentials(pid);
        let FoundSocket { id, socket } = match self.state.find_socket(pid, fd) {
            Ok(found) => found,
            Err(e) => return Err(e.into()),
        };
        let kind = socket.kind();
        if socket.is_datagram() {
            return self.connect_datagram(id, kind, addr);
        }
        if !is_valid_addr(addr) || is_unnamed(addr) || socket.is_listening() {
            return Err(Errno::EINVAL.into());
        }
        if socket.is_connected() {
            return Err(Errno::EISCONN.into());
        }
        self.connect_by(id, kind, addr, cred)
    }

    /// Associates a datagram socket with the one of this type that an address leads to, or by the unnamed
    /// address with none. EPERM where the target is associated with another.
    fn connect_datagram(
        &mut self,
        id: DescriptionId,
        kind: SockType,
        addr: &Addr,
    ) -> Result<Reply, Refusal>
        ensures { Gives self.old (model.connect_datagram self.old id kind addr.now) result self.new }
    {
        if !is_valid_addr(addr) {
            return Err(Errno::EINVAL.into());
        }
        if is_unnamed(addr) {
            self.state.set_association(id, None);
            return Ok(Reply::Ok);
        }
        let FoundSocket { id: target, socket } = match self.state.socket_named(kind, addr) {
            Ok(found) => found,
            Err(e) => return Err(e.into()),
        };
        if !socket.takes_from(id) {
            return Err(Errno::EPERM.into());
        }
        self.state.set_association(id, Some(target));
        Ok(Reply::Ok)
    }

    /// Connects a socket to the one of this type that an address leads to.
    fn connect_by(
        &mut self,
        id: DescriptionId,
        kind: SockType,
        addr: &Addr,
        cred: Cred,
    ) -> Result<Reply, Refusal>
        requires unconnected { IsUnconnectedAt self.old id }
        requires no_listener { IsNoListenerAt self.old id }
        ensures { Gives self.old (model.connect_by self.old id kind addr.now cred) result self.new }
    {
        let FoundSocket {
            id: listener,
            socket,
        } = match self.state.socket_named(kind, addr) {
            Ok(found) => found,
            Err(e) => return Err(e.into()),
        };
        if !socket.is_listening() {
            return Err(Errno::ECONNREFUSED.into());
        }
        self.state.connect(id, listener, cred)?;
        Ok(Reply::Ok)
    }

    /// shutdown(2). ENOTCONN where the socket is neither connected nor associated.
    #[tactic(auto, using(ux_model::proofs::Tables::Shows::socket_found), unfolding(ux_model::specs::Connecting::shutdown))]
    pub(crate) fn shutdown(&mut self, pid: Pid, fd: Fd, how: Mode) -> Result<Reply, Refusal>
        requires { IsTrue (is_live self.old pid.0) }
        ensures { Gives self.old (model.shutdown self.old pid.0 fd how) result self.new }
    {
        let FoundSocket { id, socket } = match self.state.find_socket(pid, fd) {
            Ok(found) => found,
            Err(e) => return Err(e.into()),
        };
        if socket.tied_socket().is_none() {
            return Err(Errno::ENOTCONN.into());
        }
        self.state.shut_down(id, how);
        Ok(Reply::Ok)
    }

    /// getpeername(2). ENOTCONN where the socket is neither connected nor associated, or the other is gone.
    #[tactic(auto, unfolding(ux_model::specs::Connecting::get_peer_name))]
    pub(crate) fn get_peer_name(&self, pid: Pid, fd: Fd) -> Result<Reply, Refusal>
        requires { IsTrue (is_live self.now pid.0) }
        ensures { Gives self.now (model.get_peer_name self.now pid.0 fd) result self.now }
    {
        let socket = match self.state.find_socket(pid, fd) {
            Ok(found) => found.socket,
            Err(e) => return Err(e.into()),
        };
        let name = self.state.peer_name(socket)?;
        Ok(Reply::Addr(name.clone()?))
    }
}
