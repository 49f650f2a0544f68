//! How many bytes wait to be read: here (ioctl(2), FIONREAD, which SIOCINQ is of a socket), or by the peer (SIOCOUTQ).
ghost use Rattle.std.specs.Prelude.{◌≡◌, IsTrue};
ghost use Rattle.ux_model.specs.State.{is_live};
ghost use Rattle.ux_model.specs.Socket.{peer_of};
ghost use Rattle.ux_model.specs.QueueLengths as model;
ghost use Rattle.ux_msg.specs.Answers.{Gives};

use crate::kernel::Kernel;
use ux_description::Socket;
use ux_object::FileObject;
use ux_types::{Errno, Fd, Pid, Refusal, Reply};

impl<O: FileObject> Kernel<O> {
    /// ioctl(2), FIONREAD, which SIOCINQ is of a socket. EBADF where the number isn't open, ENOTTY of a counter, EINVAL of
    /// a listener.
    #[tactic(auto, unfolding(ux_model::specs::QueueLengths::in_queue))]
    pub(crate) fn in_queue(&self, pid: Pid, fd: Fd) -> Result<Reply, Refusal>
        requires { IsTrue (is_live self.now pid.0) }
        ensures { Gives self.now (model.in_queue self.now pid.0 fd) result self.now }
    {
        let found = match self.state.find_description(pid, fd) {
            Ok(found) => found,
            Err(e) => return Err(e.into()),
        };
        if let Some(socket) = found.description.socket() {
            // At a listener ends wait, and no bytes.
            if socket.is_listening() {
                return Err(Errno::EINVAL.into());
            }
            return Ok(Reply::Count(socket.waiting_bytes()));
        }
        let number = found.description.object().ok_or(Errno::EBADF)?;
        let object = self.state.object(number).ok_or(Errno::EBADF)?;
        let count = object
            .bytes_ahead(found.description.offset())
            .ok_or(Errno::ENOTTY)?;
        Ok(Reply::Count(count))
    }

    /// ioctl(2), SIOCOUTQ. EBADF where the number isn't open, ENOTTY where it leads to no socket, EOPNOTSUPP of a datagram
    /// socket.
    #[tactic(auto, unfolding(ux_model::specs::QueueLengths::out_queue))]
    pub(crate) fn out_queue(&self, pid: Pid, fd: Fd) -> Result<Reply, Refusal>
        requires { IsTrue (is_live self.now pid.0) }
        ensures { Gives self.now (model.out_queue self.now pid.0 fd) result self.now }
    {
        let found = match self.state.find_description(pid, fd) {
            Ok(found) => found,
            Err(e) => return Err(e.into()),
        };
        let Some(socket) = found.description.socket() else {
            return Err(Errno::ENOTTY.into());
        };
        if socket.is_datagram() {
            return Err(Errno::EOPNOTSUPP.into());
        }
        Ok(Reply::Count(self.sent_bytes(socket)))
    }

    /// How many bytes the peer of a socket hasn't received; none where it has none, or that is gone.
    fn sent_bytes(&self, socket: &Socket) -> usize
        ensures { result ≡ model.sent_bytes self.now (peer_of socket.now.phase) }
    {
        let Some(peer) = socket.peer() else {
            return 0;
        };
        match self.state.socket(peer) {
            Some(other) => other.queued_bytes(),
            None => 0,
        }
    }
}
