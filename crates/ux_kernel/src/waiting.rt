//! Which calls may wait until they can be done (O_NONBLOCK of open(2), MSG_DONTWAIT of send(2) and recv(2), the time limit of poll(2)).
ghost use Rattle.std.specs.Prelude.{◌≡◌, true, ℕ, IsTrue};
ghost use Rattle.ux_model.specs.Types.{Reply, Errno};
ghost use Rattle.ux_model.specs.State.{is_live};
ghost use Rattle.ux_model.specs.Waiting.{is_blocking, may_wait};
ghost use Rattle.ux_model.specs.Step.{outcome};
ghost use Rattle.ux_model.specs.Writing.{write};
ghost use Rattle.ux_kernel.specs.FileCalls.{write_file};

use crate::kernel::Kernel;
use crate::open_file::OpenFile;
use bitflags::Flags;
use ux_object::{FileObject, ObjKind};
use ux_state::FoundDescription;
use ux_types::{Bytes, Fd, MsgFlags, Pid, Request};

impl<O: FileObject> Kernel<O> {
    /// Whether a call of this live process may wait: a read, a write, a connect, an accept, a send or a
    /// receive by an open number whose description isn't non-blocking, and without MSG_DONTWAIT; and a poll of several that
    /// waits.
    #[tactic(auto, unfolding(ux_model::specs::Waiting::may_wait))]
    pub fn may_wait(&self, pid: Pid, request: &Request) -> bool
        requires { IsTrue (is_live self.now pid.0) }
        ensures { result ≡ may_wait self.now pid.0 request.now }
    {
        match request {
            Request::Read { fd, .. }
            | Request::Write { fd, .. }
            | Request::Connect { fd, .. }
            | Request::Accept { fd, .. } => self.is_blocking(pid, *fd),
            Request::SendMsg { fd, flags, .. } | Request::RecvMsg { fd, flags, .. } => {
                self.is_blocking(pid, *fd) && !flags.contains(MsgFlags::DONTWAIT)
            }
            Request::PollMany { waits, .. } => *waits,
            _ => false,
        }
    }

    /// Whether a number is open, and its description isn't non-blocking.
    fn is_blocking(&self, pid: Pid, fd: Fd) -> bool
        requires { IsTrue (is_live self.now pid.0) }
        ensures { result ≡ is_blocking self.now pid.0 fd }
    {
        match self.state.find_description(pid, fd) {
            Ok(found) => !found.description.nonblock(),
            Err(_) => false,
        }
    }

    /// Whether a call of this live process is a write that has to wait for room in a counter or a pipe, as the file object
    /// tells without being written to. Such a call is answered EAGAIN.
    #[tactic(auto, unfolding(ux_model::specs::Step::outcome))]
    pub fn lacks_room(&self, pid: Pid, request: &Request) -> bool
        requires { IsTrue (is_live self.now pid.0) }
        ensures again { result ≡ true → (tag : ℕ) → (outcome self.now pid.0 tag request.now).reply ≡ Reply.Err Errno.EAGAIN }
    {
        match request {
            Request::Write { fd, bytes } => self.write_lacks_room(pid, *fd, bytes),
            _ => false,
        }
    }

    /// Whether a write has to wait for room, as the file object tells.
    fn write_lacks_room(&self, pid: Pid, fd: Fd, bytes: &Bytes) -> bool
        requires { IsTrue (is_live self.now pid.0) }
        ensures again { result ≡ true → (tag : ℕ) → (write self.now pid.0 tag fd bytes.now).reply ≡ Reply.Err Errno.EAGAIN }
    {
        let FoundDescription {
            descriptor,
            description,
        } = match self.state.find_description(pid, fd) {
            Ok(found) => found,
            Err(_) => return false,
        };
        match OpenFile::of(descriptor.description, description) {
            Some(file) => self.file_lacks_room(file, bytes),
            None => false,
        }
    }

    /// Whether a write to an open file object has to wait for room.
    fn file_lacks_room(&self, file: OpenFile, bytes: &Bytes) -> bool
        ensures again { result ≡ true → (write_file self.now file bytes.now).reply ≡ Reply.Err Errno.EAGAIN }
    {
        let Some(object) = self.state.object(file.object) else {
            return false;
        };
        if !file.mode.can_write() {
            return false;
        }
        // One that nobody can read is answered EPIPE.
        if object.kind() == ObjKind::Pipe && !self.state.has_reader(file.object) {
            return false;
        }
        object.lacks_room(bytes.as_slice())
    }
}
