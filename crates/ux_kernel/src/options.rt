//! Options of sockets (getsockopt(2), setsockopt(2)).
ghost use Rattle.std.specs.Prelude.{◌≡◌, if◌then◌else◌, Some, None, IsTrue};
ghost use Rattle.ux_model.specs.State.{is_live};
ghost use Rattle.ux_model.specs.Options as model;
ghost use Rattle.ux_msg.specs.Answers.{Gives};

use crate::kernel::Kernel;
use ux_description::Socket;
use ux_object::FileObject;
use ux_state::FoundSocket;
use ux_types::{Errno, Fd, GREATEST_QUEUE_LIMIT, Pid, Refusal, Reply, SockOpt, SockType};

impl<O: FileObject> Kernel<O> {
    /// getsockopt(2). SO_ERROR clears the pending error that it reports. ENOTCONN of SO_PEERCRED where no peer's
    /// credentials were recorded. EOPNOTSUPP of the limit of a queue that isn't a stream's.
    #[tactic(auto, using(ux_model::proofs::Tables::Shows::socket_found), unfolding(ux_model::specs::Options::get_opt))]
    pub(crate) fn get_opt(&mut self, pid: Pid, fd: Fd, opt: SockOpt) -> Result<Reply, Refusal>
        requires { IsTrue (is_live self.old pid.0) }
        ensures { Gives self.old (model.get_opt self.old pid.0 fd opt) result self.new }
    {
        let FoundSocket { id, socket } = match self.state.find_socket(pid, fd) {
            Ok(found) => found,
            Err(e) => return Err(e.into()),
        };
        match opt {
            SockOpt::Kind => Ok(Reply::Opt(type_number(socket.kind()))),
            SockOpt::Error => {
                let error = pending_error(socket);
                self.state.set_reset(id, false);
                Ok(Reply::Opt(error))
            }
            SockOpt::PassCred => Ok(on_off(socket.passcred())),
            SockOpt::PeerCred => match socket.peer_cred() {
                Some(cred) => Ok(Reply::Cred(cred)),
                None => Err(Errno::ENOTCONN.into()),
            },
            SockOpt::AcceptConn => Ok(on_off(socket.is_listening())),
            SockOpt::QueueLimit if socket.is_stream() => Ok(Reply::Opt(
                socket.queue_limit() as u64,
            )),
            SockOpt::QueueLimit => Err(Errno::EOPNOTSUPP.into()),
        }
    }

    /// setsockopt(2) of SO_PASSCRED, or of the limit of a stream's queue. A socket that has neither a name nor a peer
    /// gets a name of the abstract namespace as SO_PASSCRED is set on; ENOSPC where none is free. EOPNOTSUPP of the limit
    /// of a queue that isn't a stream's, then EINVAL where it isn't 1 to 1,048,576 bytes. EINVAL of other options.
    #[tactic(auto, using(ux_model::proofs::Tables::Shows::socket_found), unfolding(ux_model::specs::Options::set_opt))]
    pub(crate) fn set_opt(
        &mut self,
        pid: Pid,
        fd: Fd,
        opt: SockOpt,
        value: u64,
    ) -> Result<Reply, Refusal>
        requires { IsTrue (is_live self.old pid.0) }
        ensures { Gives self.old (model.set_opt self.old pid.0 fd opt value) result self.new }
    {
        let FoundSocket { id, socket } = match self.state.find_socket(pid, fd) {
            Ok(found) => found,
            Err(e) => return Err(e.into()),
        };
        match opt {
            SockOpt::PassCred => {
                let on = value != 0;
                if on && socket.is_unnamed() && socket.tied_socket().is_none() {
                    self.state.autobind(id)?;
                }
                self.state.set_passcred(id, on);
                Ok(Reply::Ok)
            }
            SockOpt::QueueLimit if !socket.is_stream() => Err(Errno::EOPNOTSUPP.into()),
            SockOpt::QueueLimit => {
                let limit = queue_limit_of(value).ok_or(Errno::EINVAL)?;
                self.state.set_queue_limit(id, limit);
                Ok(Reply::Ok)
            }
            _ => Err(Errno::EINVAL.into()),
        }
    }
}

/// The limit of a queue that this value sets: 1 to 1,048,576.
fn queue_limit_of(value: u64) -> Option<u32>
    ensures { result ≡ if model.may_limit value then Some value else None }
{
    if 1 <= value && value <= GREATEST_QUEUE_LIMIT as u64 {
        Some(value as u32)
    } else {
        None
    }
}

/// What SO_TYPE reports: the number of SOCK_STREAM, SOCK_DGRAM or SOCK_SEQPACKET.
fn type_number(kind: SockType) -> u64
    ensures { result ≡ model.type_number kind }
{
    match kind {
        SockType::Stream => 1,
        SockType::Dgram => 2,
        SockType::Seq => 5,
    }
}

/// What SO_ERROR reports: the number of the pending error, or 0.
fn pending_error(socket: &Socket) -> u64
    ensures { result ≡ model.pending_error socket.now }
{
    if socket.reset() {
        Errno::ECONNRESET as u64
    } else {
        0
    }
}

/// The value of an option that is on or off.
fn on_off(on: bool) -> Reply
    ensures { result ≡ model.on_off on }
{
    Reply::Opt(on as u64)
}
