//! The calls of one process, each a method.
ghost use Rattle.std.specs.Prelude.{◌≡◌, ℕ, [], true, false, IfOk, IfErr, OnOk, OnErr, None, map, min};
ghost use Rattle.ux_model.specs.Types.{Request, Reply, Addr, SockOpt};
ghost use Rattle.ux_model.specs.Limits.{rights_limit};
ghost use Rattle.ux_model.specs.Delivery.{control_bytes};
ghost use Rattle.ux_book.specs.declared.fault.CallFault.{CallFault};
ghost use Rattle.ux_book.specs.Books.{has_own_call};
ghost use Rattle.ux_calls.specs.Calls.{no_open_flags, no_msg_flags, rights_space};
ghost use Rattle.ux_model.specs.ReplyKinds.{is_reply_to};
ghost use Rattle.delortxa.specs.Answering.{Fails, FailsAsNumber};
ghost use Rattle.delortxa.specs.declared.whole.Way.{Way};
ghost use Rattle.delortxa.specs.Giving.{Takes, EndsEarly, AfterFirst, EndsEarlyAfter, request_of};

use crate::answers::{Message, ReplyExt};
use crate::fault::CallError;
use crate::whole::{Unfinished, Way, give_all, give_all_with};
use std::alloc::Global;
use ux_book::CallFault;
use ux_calls::call;
use ux_types::{
    Addr, Bytes, Cred, Fd, Mode, OpenFlags, PollFds, PollFlags, Reply, Request, Revents, SockOpt,
    SockType, Whence,
};

/// What makes the calls of a process: a session, which is told the process (`C` is `Pid`), or a seat, which is told the
/// runtime by which it waits. Each method is named for its manual page, and gives what that call gives.
///
/// # Errors
///
/// Each method gives `Refused` where the layer refuses the call, and `Fault` where no call was made: nothing has changed
/// then.
pub trait Calls<C: Copy> {
    /// The call was made, with this request and this reply.
    ghost did: { C → Self → Self → Request → Reply → Type 0 };

    /// Why a call with this request can't be made.
    ghost unmade: { C → Self → Request → CallFault → Type 0 };

    /// Where its requests are allocated.
    fn allocator(&self) -> Global;

    /// Makes this call, and gives its reply.
    ///
    /// # Errors
    ///
    /// No call was made then, and nothing has changed.
    fn ask(&mut self, who: C, request: &Request) -> Result<Reply, CallFault>
        requires { has_own_call request.now ≡ false }
        ensures made { IfOk result (λ reply. did who self.old self.new request.now reply) }
        ensures fault { IfErr result (λ f. unmade who self.old request.now f) }
        ensures same { OnErr result (self.new ≡ self.old) };

    /// The reply of a call that was made is a refusal, or of the kind of its request.
    ghost replies: { (who : C) (old new : Self) (request : Request) (reply : Reply) → did who old new request reply → is_reply_to request reply ≡ true };

    /// open(2) of a file object by its path, without flags: the new descriptor.
    #[tactic(auto, using(crate::proofs::Calling::fails))]
    final fn open(&mut self, who: C, path: &[u8], mode: Mode) -> Result<Fd, CallError>
        ensures made { IfOk result (λ new. did who self.old self.new (Request.Open path.now mode no_open_flags) (Reply.Fd new)) }
        ensures failed { IfErr result (λ error. Fails did unmade who self.old self.new (Request.Open path.now mode no_open_flags) error) }
    {
        let request = call::open(self.allocator(), path, mode)?;
        let reply = self.ask(who, &request)?;
        reply.fd()
    }

    /// open(2) of a file object by its path: the new descriptor.
    #[tactic(auto, using(crate::proofs::Calling::fails))]
    final fn open_with(
        &mut self,
        who: C,
        path: &[u8],
        mode: Mode,
        flags: OpenFlags,
    ) -> Result<Fd, CallError>
        ensures made { IfOk result (λ new. did who self.old self.new (Request.Open path.now mode flags) (Reply.Fd new)) }
        ensures failed { IfErr result (λ error. Fails did unmade who self.old self.new (Request.Open path.now mode flags) error) }
    {
        let request = call::open_with(self.allocator(), path, mode, flags)?;
        let reply = self.ask(who, &request)?;
        reply.fd()
    }

    /// open(2) with O_CREAT and O_EXCL: the new descriptor, of a new, empty file under this path.
    #[tactic(auto, using(crate::proofs::Calling::fails))]
    final fn create(
        &mut self,
        who: C,
        path: &[u8],
        mode: Mode,
        flags: OpenFlags,
    ) -> Result<Fd, CallError>
        ensures made { IfOk result (λ new. did who self.old self.new (Request.Create path.now mode flags) (Reply.Fd new)) }
        ensures failed { IfErr result (λ error. Fails did unmade who self.old self.new (Request.Create path.now mode flags) error) }
    {
        let request = call::create(self.allocator(), path, mode, flags)?;
        let reply = self.ask(who, &request)?;
        reply.fd()
    }

    /// memfd_create(2): the new descriptor, of a new, empty file with no path.
    #[tactic(auto, using(crate::proofs::Calling::fails))]
    final fn mem_fd(&mut self, who: C, flags: OpenFlags) -> Result<Fd, CallError>
        ensures made { IfOk result (λ new. did who self.old self.new (Request.MemFd flags) (Reply.Fd new)) }
        ensures failed { IfErr result (λ error. Fails did unmade who self.old self.new (Request.MemFd flags) error) }
    {
        let request = call::mem_fd(flags);
        let reply = self.ask(who, &request)?;
        reply.fd()
    }

    /// eventfd(2): the new descriptor, of a new counter with this value, of which a read takes all.
    #[tactic(auto, using(crate::proofs::Calling::fails))]
    final fn event_fd(&mut self, who: C, value: u32, flags: OpenFlags) -> Result<Fd, CallError>
        ensures made { IfOk result (λ new. did who self.old self.new (Request.EventFd value false flags) (Reply.Fd new)) }
        ensures failed { IfErr result (λ error. Fails did unmade who self.old self.new (Request.EventFd value false flags) error) }
    {
        let request = call::event_fd(value, flags);
        let reply = self.ask(who, &request)?;
        reply.fd()
    }

    /// eventfd(2) with EFD_SEMAPHORE: the new descriptor, of a new counter with this value, of which a read takes 1.
    #[tactic(auto, using(crate::proofs::Calling::fails))]
    final fn semaphore(&mut self, who: C, value: u32, flags: OpenFlags) -> Result<Fd, CallError>
        ensures made { IfOk result (λ new. did who self.old self.new (Request.EventFd value true flags) (Reply.Fd new)) }
        ensures failed { IfErr result (λ error. Fails did unmade who self.old self.new (Request.EventFd value true flags) error) }
    {
        let request = call::semaphore(value, flags);
        let reply = self.ask(who, &request)?;
        reply.fd()
    }

    /// pipe2(2): the two new descriptors of a new pipe, the reading end's first.
    #[tactic(auto, using(crate::proofs::Calling::fails))]
    final fn pipe(&mut self, who: C, flags: OpenFlags) -> Result<(Fd, Fd), CallError>
        ensures made { IfOk result (λ fds. did who self.old self.new (Request.Pipe flags) (Reply.Fds fds.0 fds.1)) }
        ensures failed { IfErr result (λ error. Fails did unmade who self.old self.new (Request.Pipe flags) error) }
    {
        let request = call::pipe(flags);
        let reply = self.ask(who, &request)?;
        reply.fds()
    }

    /// read(2) of at most `n` bytes.
    #[tactic(auto, using(crate::proofs::Calling::fails))]
    final fn read(&mut self, who: C, fd: Fd, n: usize) -> Result<Bytes, CallError>
        ensures made { IfOk result (λ got. did who self.old self.new (Request.Read fd n) (Reply.Bytes got)) }
        ensures failed { IfErr result (λ error. Fails did unmade who self.old self.new (Request.Read fd n) error) }
    {
        let request = call::read(fd, n);
        let reply = self.ask(who, &request)?;
        reply.bytes()
    }

    /// write(2): how many of these bytes were taken.
    #[tactic(auto, using(crate::proofs::Calling::fails))]
    final fn write(&mut self, who: C, fd: Fd, bytes: &[u8]) -> Result<usize, CallError>
        ensures made { IfOk result (λ taken. did who self.old self.new (Request.Write fd bytes.now) (Reply.Count taken)) }
        ensures failed { IfErr result (λ error. Fails did unmade who self.old self.new (Request.Write fd bytes.now) error) }
    {
        let request = call::write(self.allocator(), fd, bytes)?;
        let reply = self.ask(who, &request)?;
        reply.count()
    }

    /// lseek(2): the new offset, in bytes from the beginning.
    #[tactic(auto, using(crate::proofs::Calling::fails))]
    final fn lseek(&mut self, who: C, fd: Fd, offset: i64, whence: Whence) -> Result<u64, CallError>
        ensures made { IfOk result (λ at. did who self.old self.new (Request.Lseek fd offset whence) (Reply.At at)) }
        ensures failed { IfErr result (λ error. Fails did unmade who self.old self.new (Request.Lseek fd offset whence) error) }
    {
        let request = call::lseek(fd, offset, whence);
        let reply = self.ask(who, &request)?;
        reply.offset()
    }

    /// dup(2): the new descriptor.
    #[tactic(auto, using(crate::proofs::Calling::fails))]
    final fn dup(&mut self, who: C, fd: Fd) -> Result<Fd, CallError>
        ensures made { IfOk result (λ new. did who self.old self.new (Request.Dup fd) (Reply.Fd new)) }
        ensures failed { IfErr result (λ error. Fails did unmade who self.old self.new (Request.Dup fd) error) }
    {
        let request = call::dup(fd);
        let reply = self.ask(who, &request)?;
        reply.fd()
    }

    /// dup2(2): `to` becomes a copy of `fd`.
    #[tactic(auto, using(crate::proofs::Calling::fails))]
    final fn dup2(&mut self, who: C, fd: Fd, to: Fd) -> Result<Fd, CallError>
        ensures made { IfOk result (λ new. did who self.old self.new (Request.Dup2 fd to) (Reply.Fd new)) }
        ensures failed { IfErr result (λ error. Fails did unmade who self.old self.new (Request.Dup2 fd to) error) }
    {
        let request = call::dup2(fd, to);
        let reply = self.ask(who, &request)?;
        reply.fd()
    }

    /// fcntl(2), F_DUPFD: the new descriptor is the lowest free number that isn't below `minimum`.
    #[tactic(auto, using(crate::proofs::Calling::fails))]
    final fn dup_from(&mut self, who: C, fd: Fd, minimum: Fd) -> Result<Fd, CallError>
        ensures made { IfOk result (λ new. did who self.old self.new (Request.DupFrom fd minimum) (Reply.Fd new)) }
        ensures failed { IfErr result (λ error. Fails did unmade who self.old self.new (Request.DupFrom fd minimum) error) }
    {
        let request = call::dup_from(fd, minimum);
        let reply = self.ask(who, &request)?;
        reply.fd()
    }

    /// fcntl(2), F_GETFL and F_GETFD at once: the flags of a descriptor and of its description.
    #[tactic(auto, using(crate::proofs::Calling::fails))]
    final fn get_flags(&mut self, who: C, fd: Fd) -> Result<OpenFlags, CallError>
        ensures made { IfOk result (λ flags. did who self.old self.new (Request.GetFlags fd) (Reply.Flags flags)) }
        ensures failed { IfErr result (λ error. Fails did unmade who self.old self.new (Request.GetFlags fd) error) }
    {
        let request = call::get_flags(fd);
        let reply = self.ask(who, &request)?;
        reply.flags()
    }

    /// fcntl(2), F_SETFL and F_SETFD at once: all three flags get the values given.
    #[tactic(auto, using(crate::proofs::Calling::fails))]
    final fn set_flags(&mut self, who: C, fd: Fd, flags: OpenFlags) -> Result<(), CallError>
        ensures made { OnOk result (did who self.old self.new (Request.SetFlags fd flags) Reply.Ok) }
        ensures failed { IfErr result (λ error. Fails did unmade who self.old self.new (Request.SetFlags fd flags) error) }
    {
        let request = call::set_flags(fd, flags);
        let reply = self.ask(who, &request)?;
        reply.done()
    }

    /// ioctl(2), FIONREAD, which SIOCINQ is of a socket: how many bytes are ready to be read. It refuses a counter with ENOTTY, and
    /// a listening socket with EINVAL.
    #[tactic(auto, using(crate::proofs::Calling::fails))]
    final fn in_queue(&mut self, who: C, fd: Fd) -> Result<usize, CallError>
        ensures made { IfOk result (λ waiting. did who self.old self.new (Request.InQueue fd) (Reply.Count waiting)) }
        ensures failed { IfErr result (λ error. Fails did unmade who self.old self.new (Request.InQueue fd) error) }
    {
        let request = call::in_queue(fd);
        let reply = self.ask(who, &request)?;
        reply.count()
    }

    /// ioctl(2), SIOCOUTQ: how many bytes the peer hasn't received yet. It refuses a file object with ENOTTY, and a datagram
    /// socket with EOPNOTSUPP.
    #[tactic(auto, using(crate::proofs::Calling::fails))]
    final fn out_queue(&mut self, who: C, fd: Fd) -> Result<usize, CallError>
        ensures made { IfOk result (λ waiting. did who self.old self.new (Request.OutQueue fd) (Reply.Count waiting)) }
        ensures failed { IfErr result (λ error. Fails did unmade who self.old self.new (Request.OutQueue fd) error) }
    {
        let request = call::out_queue(fd);
        let reply = self.ask(who, &request)?;
        reply.count()
    }

    /// close(2).
    #[tactic(auto, using(crate::proofs::Calling::fails))]
    final fn close(&mut self, who: C, fd: Fd) -> Result<(), CallError>
        ensures made { OnOk result (did who self.old self.new (Request.Close fd) Reply.Ok) }
        ensures failed { IfErr result (λ error. Fails did unmade who self.old self.new (Request.Close fd) error) }
    {
        let request = call::close(fd);
        let reply = self.ask(who, &request)?;
        reply.done()
    }

    /// unlink(2).
    #[tactic(auto, using(crate::proofs::Calling::fails))]
    final fn unlink(&mut self, who: C, path: &[u8]) -> Result<(), CallError>
        ensures made { OnOk result (did who self.old self.new (Request.Unlink path.now) Reply.Ok) }
        ensures failed { IfErr result (λ error. Fails did unmade who self.old self.new (Request.Unlink path.now) error) }
    {
        let request = call::unlink(self.allocator(), path)?;
        let reply = self.ask(who, &request)?;
        reply.done()
    }

    /// socket(2), without flags: the new descriptor.
    #[tactic(auto, using(crate::proofs::Calling::fails))]
    final fn socket(&mut self, who: C, kind: SockType) -> Result<Fd, CallError>
        ensures made { IfOk result (λ new. did who self.old self.new (Request.Socket kind no_open_flags) (Reply.Fd new)) }
        ensures failed { IfErr result (λ error. Fails did unmade who self.old self.new (Request.Socket kind no_open_flags) error) }
    {
        let request = call::socket(kind);
        let reply = self.ask(who, &request)?;
        reply.fd()
    }

    /// socket(2): the new descriptor.
    #[tactic(auto, using(crate::proofs::Calling::fails))]
    final fn socket_with(
        &mut self,
        who: C,
        kind: SockType,
        flags: OpenFlags,
    ) -> Result<Fd, CallError>
        ensures made { IfOk result (λ new. did who self.old self.new (Request.Socket kind flags) (Reply.Fd new)) }
        ensures failed { IfErr result (λ error. Fails did unmade who self.old self.new (Request.Socket kind flags) error) }
    {
        let request = call::socket_with(kind, flags);
        let reply = self.ask(who, &request)?;
        reply.fd()
    }

    /// socketpair(2), without flags: the two new descriptors.
    #[tactic(auto, using(crate::proofs::Calling::fails))]
    final fn pair(&mut self, who: C, kind: SockType) -> Result<(Fd, Fd), CallError>
        ensures made { IfOk result (λ fds. did who self.old self.new (Request.SocketPair kind no_open_flags) (Reply.Fds fds.0 fds.1)) }
        ensures failed { IfErr result (λ error. Fails did unmade who self.old self.new (Request.SocketPair kind no_open_flags) error) }
    {
        let request = call::pair(kind);
        let reply = self.ask(who, &request)?;
        reply.fds()
    }

    /// bind(2) to this path.
    #[tactic(auto, using(crate::proofs::Calling::fails))]
    final fn bind_path(&mut self, who: C, fd: Fd, path: &[u8]) -> Result<(), CallError>
        ensures made { OnOk result (did who self.old self.new (Request.Bind fd (Addr.Path path.now)) Reply.Ok) }
        ensures failed { IfErr result (λ error. Fails did unmade who self.old self.new (Request.Bind fd (Addr.Path path.now)) error) }
    {
        let request = call::bind_path(self.allocator(), fd, path)?;
        let reply = self.ask(who, &request)?;
        reply.done()
    }

    /// bind(2) to this name of the abstract namespace.
    #[tactic(auto, using(crate::proofs::Calling::fails))]
    final fn bind_abstract(&mut self, who: C, fd: Fd, name: &[u8]) -> Result<(), CallError>
        ensures made { OnOk result (did who self.old self.new (Request.Bind fd (Addr.Abstract name.now)) Reply.Ok) }
        ensures failed { IfErr result (λ error. Fails did unmade who self.old self.new (Request.Bind fd (Addr.Abstract name.now)) error) }
    {
        let request = call::bind_abstract(self.allocator(), fd, name)?;
        let reply = self.ask(who, &request)?;
        reply.done()
    }

    /// listen(2), for so many connections that wait.
    #[tactic(auto, using(crate::proofs::Calling::fails))]
    final fn listen(&mut self, who: C, fd: Fd, backlog: i32) -> Result<(), CallError>
        ensures made { OnOk result (did who self.old self.new (Request.Listen fd backlog) Reply.Ok) }
        ensures failed { IfErr result (λ error. Fails did unmade who self.old self.new (Request.Listen fd backlog) error) }
    {
        let request = call::listen(fd, backlog);
        let reply = self.ask(who, &request)?;
        reply.done()
    }

    /// connect(2) to this path.
    #[tactic(auto, using(crate::proofs::Calling::fails))]
    final fn connect_path(&mut self, who: C, fd: Fd, path: &[u8]) -> Result<(), CallError>
        ensures made { OnOk result (did who self.old self.new (Request.Connect fd (Addr.Path path.now)) Reply.Ok) }
        ensures failed { IfErr result (λ error. Fails did unmade who self.old self.new (Request.Connect fd (Addr.Path path.now)) error) }
    {
        let request = call::connect_path(self.allocator(), fd, path)?;
        let reply = self.ask(who, &request)?;
        reply.done()
    }

    /// connect(2) to this name of the abstract namespace.
    #[tactic(auto, using(crate::proofs::Calling::fails))]
    final fn connect_abstract(&mut self, who: C, fd: Fd, name: &[u8]) -> Result<(), CallError>
        ensures made { OnOk result (did who self.old self.new (Request.Connect fd (Addr.Abstract name.now)) Reply.Ok) }
        ensures failed { IfErr result (λ error. Fails did unmade who self.old self.new (Request.Connect fd (Addr.Abstract name.now)) error) }
    {
        let request = call::connect_abstract(self.allocator(), fd, name)?;
        let reply = self.ask(who, &request)?;
        reply.done()
    }

    /// accept(2): the connection's descriptor, and its client's name.
    #[tactic(auto, using(crate::proofs::Calling::fails))]
    final fn accept(&mut self, who: C, fd: Fd) -> Result<(Fd, Addr), CallError>
        ensures made { IfOk result (λ a. did who self.old self.new (Request.Accept fd no_open_flags) (Reply.Accepted a.0 a.1)) }
        ensures failed { IfErr result (λ error. Fails did unmade who self.old self.new (Request.Accept fd no_open_flags) error) }
    {
        let request = call::accept(fd);
        let reply = self.ask(who, &request)?;
        reply.accepted()
    }

    /// accept4(2), with the flags of the new descriptor: that descriptor, and the client's name.
    #[tactic(auto, using(crate::proofs::Calling::fails))]
    final fn accept_with(
        &mut self,
        who: C,
        fd: Fd,
        flags: OpenFlags,
    ) -> Result<(Fd, Addr), CallError>
        ensures made { IfOk result (λ a. did who self.old self.new (Request.Accept fd flags) (Reply.Accepted a.0 a.1)) }
        ensures failed { IfErr result (λ error. Fails did unmade who self.old self.new (Request.Accept fd flags) error) }
    {
        let request = call::accept_with(fd, flags);
        let reply = self.ask(who, &request)?;
        reply.accepted()
    }

    /// shutdown(2) in these directions.
    #[tactic(auto, using(crate::proofs::Calling::fails))]
    final fn shutdown(&mut self, who: C, fd: Fd, how: Mode) -> Result<(), CallError>
        ensures made { OnOk result (did who self.old self.new (Request.Shutdown fd how) Reply.Ok) }
        ensures failed { IfErr result (λ error. Fails did unmade who self.old self.new (Request.Shutdown fd how) error) }
    {
        let request = call::shutdown(fd, how);
        let reply = self.ask(who, &request)?;
        reply.done()
    }

    /// getsockopt(2) at the level SOL_SOCKET, of an option that is a number.
    #[tactic(auto, using(crate::proofs::Calling::fails))]
    final fn getopt(&mut self, who: C, fd: Fd, opt: SockOpt) -> Result<u64, CallError>
        ensures made { IfOk result (λ got. did who self.old self.new (Request.GetOpt fd opt) (Reply.Opt got)) }
        ensures failed { IfErr result (λ error. FailsAsNumber did unmade who self.old self.new fd opt error) }
    {
        let request = call::getopt(fd, opt);
        let reply = self.ask(who, &request)?;
        reply.value()
    }

    /// getsockopt(2) of SO_PEERCRED: who made the connection's other end (unix(7)).
    #[tactic(auto, using(crate::proofs::Calling::fails))]
    final fn peer_cred(&mut self, who: C, fd: Fd) -> Result<Cred, CallError>
        ensures made { IfOk result (λ cred. did who self.old self.new (Request.GetOpt fd SockOpt.PeerCred) (Reply.Cred cred)) }
        ensures failed { IfErr result (λ error. Fails did unmade who self.old self.new (Request.GetOpt fd SockOpt.PeerCred) error) }
    {
        let request = call::getopt(fd, SockOpt::PeerCred);
        let reply = self.ask(who, &request)?;
        reply.cred()
    }

    /// setsockopt(2) at the level SOL_SOCKET: 0 is off, or a number of bytes.
    #[tactic(auto, using(crate::proofs::Calling::fails))]
    final fn setopt(&mut self, who: C, fd: Fd, opt: SockOpt, value: u64) -> Result<(), CallError>
        ensures made { OnOk result (did who self.old self.new (Request.SetOpt fd opt value) Reply.Ok) }
        ensures failed { IfErr result (λ error. Fails did unmade who self.old self.new (Request.SetOpt fd opt value) error) }
    {
        let request = call::setopt(fd, opt, value);
        let reply = self.ask(who, &request)?;
        reply.done()
    }

    /// getsockname(2).
    #[tactic(auto, using(crate::proofs::Calling::fails))]
    final fn getsockname(&mut self, who: C, fd: Fd) -> Result<Addr, CallError>
        ensures made { IfOk result (λ addr. did who self.old self.new (Request.GetSockName fd) (Reply.Addr addr)) }
        ensures failed { IfErr result (λ error. Fails did unmade who self.old self.new (Request.GetSockName fd) error) }
    {
        let request = call::getsockname(fd);
        let reply = self.ask(who, &request)?;
        reply.addr()
    }

    /// getpeername(2).
    #[tactic(auto, using(crate::proofs::Calling::fails))]
    final fn getpeername(&mut self, who: C, fd: Fd) -> Result<Addr, CallError>
        ensures made { IfOk result (λ addr. did who self.old self.new (Request.GetPeerName fd) (Reply.Addr addr)) }
        ensures failed { IfErr result (λ error. Fails did unmade who self.old self.new (Request.GetPeerName fd) error) }
    {
        let request = call::getpeername(fd);
        let reply = self.ask(who, &request)?;
        reply.addr()
    }

    /// send(2), without flags: how many of these bytes were taken.
    #[tactic(auto, using(crate::proofs::Calling::fails))]
    final fn send(&mut self, who: C, fd: Fd, bytes: &[u8]) -> Result<usize, CallError>
        ensures made { IfOk result (λ taken. did who self.old self.new (Request.SendMsg fd None bytes.now [] no_msg_flags) (Reply.Count taken)) }
        ensures failed { IfErr result (λ error. Fails did unmade who self.old self.new (Request.SendMsg fd None bytes.now [] no_msg_flags) error) }
    {
        let request = call::send(self.allocator(), fd, bytes)?;
        let reply = self.ask(who, &request)?;
        reply.count()
    }

    /// sendmsg(2) that passes these descriptors (SCM_RIGHTS of unix(7)): how many of the bytes were taken.
    #[tactic(auto, using(crate::proofs::Calling::fails))]
    final fn send_rights(
        &mut self,
        who: C,
        fd: Fd,
        bytes: &[u8],
        rights: &[Fd],
    ) -> Result<usize, CallError>
        ensures made { IfOk result (λ taken. did who self.old self.new (Request.SendMsg fd None bytes.now (control_bytes None (map (λ right. right.0) rights.now)) no_msg_flags) (Reply.Count taken)) }
        ensures failed { IfErr result (λ error. Fails did unmade who self.old self.new (Request.SendMsg fd None bytes.now (control_bytes None (map (λ right. right.0) rights.now)) no_msg_flags) error) }
    {
        let request = call::send_rights(self.allocator(), fd, bytes, rights)?;
        let reply = self.ask(who, &request)?;
        reply.count()
    }

    /// recv(2) of at most `n` bytes, without flags; descriptors that come with them are lost.
    #[tactic(auto, using(crate::proofs::Calling::fails))]
    final fn recv(&mut self, who: C, fd: Fd, n: usize) -> Result<Message, CallError>
        ensures made { IfOk result (λ m. did who self.old self.new (Request.RecvMsg fd n 0 no_msg_flags) (Reply.Received m.flags m.count m.bytes m.control m.from)) }
        ensures failed { IfErr result (λ error. Fails did unmade who self.old self.new (Request.RecvMsg fd n 0 no_msg_flags) error) }
    {
        let request = call::recv(fd, n);
        let reply = self.ask(who, &request)?;
        reply.message()
    }

    /// recvmsg(2) of at most `n` bytes, with room for so many descriptors, at most as many as go in one message. A
    /// socket with SO_PASSCRED takes 32 bytes of that room for credentials.
    #[tactic(auto, using(crate::proofs::Calling::fails))]
    final fn recv_rights(
        &mut self,
        who: C,
        fd: Fd,
        n: usize,
        count: usize,
    ) -> Result<Message, CallError>
        ensures made { IfOk result (λ m. did who self.old self.new (Request.RecvMsg fd n (rights_space (min count rights_limit)) no_msg_flags) (Reply.Received m.flags m.count m.bytes m.control m.from)) }
        ensures failed { IfErr result (λ error. Fails did unmade who self.old self.new (Request.RecvMsg fd n (rights_space (min count rights_limit)) no_msg_flags) error) }
    {
        let request = call::recv_rights(fd, n, count);
        let reply = self.ask(who, &request)?;
        reply.message()
    }

    /// poll(2) of one descriptor, without waiting: which conditions hold.
    #[tactic(auto, using(crate::proofs::Calling::fails))]
    final fn poll(&mut self, who: C, fd: Fd) -> Result<PollFlags, CallError>
        ensures made { IfOk result (λ flags. did who self.old self.new (Request.Poll fd) (Reply.Poll flags)) }
        ensures failed { IfErr result (λ error. Fails did unmade who self.old self.new (Request.Poll fd) error) }
    {
        let request = call::poll(fd);
        let reply = self.ask(who, &request)?;
        reply.ready()
    }

    /// poll(2) of several descriptors, at most 64, which waits until something is reported of one, or doesn't wait: what is
    /// reported of each, in order.
    #[tactic(auto, using(crate::proofs::Calling::fails))]
    final fn poll_many(&mut self, who: C, fds: PollFds, waits: bool) -> Result<Revents, CallError>
        ensures made { IfOk result (λ found. did who self.old self.new (Request.PollMany fds waits) (Reply.Polled found)) }
        ensures failed { IfErr result (λ error. Fails did unmade who self.old self.new (Request.PollMany fds waits) error) }
    {
        let request = call::poll_many(fds, waits);
        let reply = self.ask(who, &request)?;
        reply.polled()
    }

    /// setresuid(2) and setresgid(2) at once: the real, the effective and the saved ids of the process become these.
    /// EINVAL where one is 4294967295, which is no id; else EPERM where the process is unprivileged and they aren't its
    /// own. Privileges go where user 0 becomes another (capabilities(7)). Credentials that were recorded before stay
    /// (unix(7)).
    #[tactic(auto, using(crate::proofs::Calling::fails))]
    final fn set_ids(&mut self, who: C, uid: u32, gid: u32) -> Result<(), CallError>
        ensures made { OnOk result (did who self.old self.new (Request.SetIds uid gid) Reply.Ok) }
        ensures failed { IfErr result (λ error. Fails did unmade who self.old self.new (Request.SetIds uid gid) error) }
    {
        let request = call::set_ids(uid, gid);
        let reply = self.ask(who, &request)?;
        reply.done()
    }

    /// execve(2), of which the layer sees the descriptors alone.
    #[tactic(auto, using(crate::proofs::Calling::fails))]
    final fn exec(&mut self, who: C) -> Result<(), CallError>
        ensures made { OnOk result (did who self.old self.new Request.Exec Reply.Ok) }
        ensures failed { IfErr result (λ error. Fails did unmade who self.old self.new Request.Exec error) }
    {
        let request = call::exec();
        let reply = self.ask(who, &request)?;
        reply.done()
    }

    /// Writes all these bytes, by as many calls of write(2) as it takes. A stream socket or a pipe takes what there is room
    /// for, where a call of Linux would wait for more room.
    ///
    /// # Errors
    ///
    /// How many bytes were taken before a call that took none.
    final fn write_all(&mut self, who: C, fd: Fd, bytes: &[u8]) -> Result<(), Unfinished>
        ensures all { OnOk result ((k : ℕ) × Takes did who (Request.Write fd) bytes.now k [] self.old self.new) }
        ensures early { IfErr result (λ u. EndsEarly did unmade who (Request.Write fd) bytes.now self.old self.new u) }
    {
        give_all(self, who, fd, Way::Write, bytes)
    }

    /// Sends all these bytes, by as many calls of send(2) as it takes, as `write_all` writes them.
    ///
    /// # Errors
    ///
    /// Those of `write_all`.
    final fn send_all(&mut self, who: C, fd: Fd, bytes: &[u8]) -> Result<(), Unfinished>
        ensures all { OnOk result ((k : ℕ) × Takes did who (request_of Way.Send fd) bytes.now k [] self.old self.new) }
        ensures early { IfErr result (λ u. EndsEarly did unmade who (request_of Way.Send fd) bytes.now self.old self.new u) }
    {
        give_all(self, who, fd, Way::Send, bytes)
    }

    /// Sends all these bytes as `send_all` does, and passes these descriptors with the first of them, as `send_rights`
    /// does.
    ///
    /// # Errors
    ///
    /// Those of `write_all`.
    final fn send_all_rights(
        &mut self,
        who: C,
        fd: Fd,
        bytes: &[u8],
        rights: &[Fd],
    ) -> Result<(), Unfinished>
        ensures all { OnOk result (AfterFirst did who (Request.SendMsg fd None bytes.now (control_bytes None (map (λ right. right.0) rights.now)) no_msg_flags) bytes.now self.old (λ mid left. (k : ℕ) × Takes did who (request_of Way.Send fd) left k [] mid self.new)) }
        ensures early { IfErr result (λ u. EndsEarlyAfter did unmade who (Request.SendMsg fd None bytes.now (control_bytes None (map (λ right. right.0) rights.now)) no_msg_flags) (request_of Way.Send fd) bytes.now self.old self.new u) }
    {
        give_all_with(self, who, fd, bytes, rights)
    }
}
