//! One call.
ghost use Rattle.std.specs.Prelude.{◌≡◌, [], map, IfOk, None};
ghost use Rattle.std.specs.List.{AllByRecursion};
ghost use Rattle.ux_msg.specs.Answers.{GivesOrFails, reply_of};
ghost use Rattle.ux_model.specs.Delivered.{delivered_by};
ghost use Rattle.ux_model.specs.Step.{outcome, Step};
ghost use Rattle.ux_model.specs.Outcome.{Chosen};
ghost use Rattle.ux_model.specs.HandingOut.{IsHandedOut};
ghost use Rattle.ux_kernel.specs.Calling.{IsCaller};

use crate::kernel::Kernel;
use ux_msg::{Incoming, Outgoing, recv_msg, send_msg};
use ux_object::FileObject;
use ux_state::ReleasedObjects;
use ux_types::{Done, Errno, Pid, Refusal, Released, Reply, Request};

impl<O: FileObject> Kernel<O> {
    /// Makes one call of a process that hasn't exited, or the end of the layer once none is left, and releases what
    /// nothing refers to any more.
    ///
    /// - The file objects that nothing leads to are put into an empty list by rising number, closed and otherwise as they
    ///   were; their numbers stand beside the answer.
    /// - `tag` is the number of the call. A message that it sends keeps it, and the answer reports that of the message of
    ///   which rights were received.
    /// - A refusal is the reply. One with ENOMEM leaves the kernel as it was.
    /// - close(2), unlink(2), lseek(2), the flags of fcntl(2), the counts of ioctl(2), listen(2), shutdown(2), getsockopt(2), poll(2), setsockopt(2)
    ///   of a queue's limit, setresuid(2) with setresgid(2), execve(2), _exit(2) and the end of the layer never give ENOMEM.
    #[tactic(auto, unfolding(ux_model::specs::Step::Step))]
    pub fn step(
        &mut self,
        pid: Pid,
        tag: u64,
        request: &Request,
        released: &mut ReleasedObjects<O>,
    ) -> (Done, Released)
        requires caller { IsCaller self.old pid.0 request.now }
        requires empty { released.old ≡ [] }
        ensures step { Step self.old pid.0 tag request.now result.0.reply (map (λ r. r.0) released.new) self.new }
        ensures delivered { result.0.delivered ≡ delivered_by self.old pid.0 request.now result.0.reply }
        ensures numbers { result.1 ≡ map (λ r. r.0) released.new }
        ensures handed_out { AllByRecursion (IsHandedOut self.old) released.new }
    {
        let done = self.call(pid, tag, request);
        let numbers = self.state.settle(released);
        (done, numbers)
    }

    /// Makes the call, and leaves what nothing refers to any more to `settle`.
    fn call(&mut self, pid: Pid, tag: u64, request: &Request) -> Done
        requires { IsCaller self.old pid.0 request.now }
        ensures chosen { Chosen self.old (outcome self.old pid.0 tag request.now) result.reply self.new }
        ensures delivered { result.delivered ≡ delivered_by self.old pid.0 request.now result.reply }
    {
        match self.dispatch(pid, tag, request) {
            Ok(done) => done,
            Err(Refusal::Answer(errno)) => refused(errno),
            Err(Refusal::NoMemory) => refused(Errno::ENOMEM),
        }
    }

    /// Hands the call to the function of its name.
    #[tactic(auto, unfolding(ux_model::specs::Step::outcome))]
    fn dispatch(&mut self, pid: Pid, tag: u64, request: &Request) -> Result<Done, Refusal>
        requires { IsCaller self.old pid.0 request.now }
        ensures gives { GivesOrFails self.old (outcome self.old pid.0 tag request.now) (reply_of result) self.new }
        ensures delivered { IfOk result (λ done. done.delivered ≡ delivered_by self.old pid.0 request.now done.reply) }
    {
        let answer = match request {
            Request::Open { path, mode, flags } => self.open_file(pid, path, *mode, *flags),
            Request::Create { path, mode, flags } => self.create_file(pid, path, *mode, *flags),
            Request::MemFd { flags } => self.make_file(pid, *flags),
            Request::EventFd {
                value,
                semaphore,
                flags,
            } => self.make_counter(pid, *value, *semaphore, *flags),
            Request::Pipe { flags } => self.make_pipe(pid, *flags),
            Request::Read { fd, n } => self.read(pid, *fd, *n),
            Request::Write { fd, bytes } => self.write(pid, tag, *fd, bytes),
            Request::Lseek { fd, offset, whence } => self.lseek(pid, *fd, *offset, *whence),
            Request::Dup { fd } => self.dup(pid, *fd),
            Request::Dup2 { fd, to } => self.dup2(pid, *fd, *to),
            Request::DupFrom { fd, minimum } => self.dup_from(pid, *fd, *minimum),
            Request::GetFlags { fd } => self.get_flags(pid, *fd),
            Request::SetFlags { fd, flags } => self.set_flags(pid, *fd, *flags),
            Request::InQueue { fd } => self.in_queue(pid, *fd),
            Request::OutQueue { fd } => self.out_queue(pid, *fd),
            Request::Close { fd } => self.close(pid, *fd),
            Request::Unlink { path } => self.unlink(path),
            Request::Socket { kind, flags } => self.make_socket(pid, *kind, *flags),
            Request::SocketPair { kind, flags } => self.make_pair(pid, *kind, *flags),
            Request::Bind { fd, addr } => self.bind(pid, *fd, addr),
            Request::Listen { fd, backlog } => self.listen(pid, *fd, *backlog),
            Request::Connect { fd, addr } => self.connect(pid, *fd, addr),
            Request::Accept { fd, flags } => self.accept(pid, *fd, *flags),
            Request::Shutdown { fd, how } => self.shutdown(pid, *fd, *how),
            Request::GetOpt { fd, opt } => self.get_opt(pid, *fd, *opt),
            Request::SetOpt { fd, opt, value } => self.set_opt(pid, *fd, *opt, *value),
            Request::GetSockName { fd } => self.get_sock_name(pid, *fd),
            Request::GetPeerName { fd } => self.get_peer_name(pid, *fd),
            Request::SendMsg {
                fd,
                addr,
                bytes,
                control,
                flags,
            } => {
                let message = Outgoing {
                    addr: addr.as_ref(),
                    bytes,
                    control: control.as_slice(),
                    flags: *flags,
                };
                send_msg(&mut self.state, self.alloc, pid, tag, *fd, message)
            }
            Request::RecvMsg {
                fd,
                n,
                space,
                flags,
            } => {
                let asked = Incoming {
                    n: *n,
                    space: *space,
                    flags: *flags,
                };
                return recv_msg(&mut self.state, self.alloc, pid, *fd, asked);
            }
            Request::Poll { fd } => self.poll(pid, *fd),
            Request::PollMany { fds, waits } => self.poll_many(pid, fds, *waits),
            Request::SetIds { uid, gid } => self.set_ids(pid, *uid, *gid),
            Request::Fork => self.fork(pid),
            Request::Exec => Ok(self.exec(pid)),
            Request::Exit => Ok(self.exit(pid)),
            Request::Off => Ok(self.off()),
        };
        match answer {
            Ok(reply) => Ok(Done {
                reply,
                delivered: None,
            }),
            Err(refusal) => Err(refusal),
        }
    }
}

/// The answer of a call that was refused.
fn refused(errno: Errno) -> Done
    ensures reply { result.reply ≡ Reply.Err errno }
    ensures none { result.delivered ≡ None }
{
    Done {
        reply: Reply::Err(errno),
        delivered: None,
    }
}
