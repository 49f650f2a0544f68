//! The requests of the calls, with the arguments that the manual pages give. None is a fork, an exit
//! or the end of the layer, as each contract's right side shows.
ghost use Rattle.std.specs.Prelude.{◌≡◌, ◌≤◌, [], None, IfOk, false, map, min, true};
ghost use Rattle.ux_model.specs.Types.{Request, Addr};
ghost use Rattle.ux_model.specs.Limits.{rights_limit};
ghost use Rattle.ux_model.specs.Delivery.{control_bytes, rights_fit};
ghost use Rattle.ux_calls.specs.Calls.{no_open_flags, no_msg_flags, rights_space};

use std::alloc::{AllocError, Global};
use ux_cmsg::{Control, write_control};
use ux_types::{
    Addr, Bytes, Fd, Mode, MsgFlags, Name, OpenFlags, PollFds, RIGHTS_LIMIT, Request, SockOpt,
    SockType, Whence,
};

const NO_OPEN_FLAGS: OpenFlags = OpenFlags(0);

const NO_MSG_FLAGS: MsgFlags = MsgFlags(0);

/// open(2) of a file object by its path, without flags.
///
/// # Errors
///
/// Out of memory.
pub fn open(alloc: Global, path: &[u8], mode: Mode) -> Result<Request, AllocError>
    ensures { IfOk result (λ request. request ≡ Request.Open path.now mode no_open_flags) }
{
    open_with(alloc, path, mode, NO_OPEN_FLAGS)
}

/// open(2) of a file object by its path.
///
/// # Errors
///
/// Out of memory.
pub fn open_with(
    alloc: Global,
    path: &[u8],
    mode: Mode,
    flags: OpenFlags,
) -> Result<Request, AllocError>
    ensures { IfOk result (λ request. request ≡ Request.Open path.now mode flags) }
{
    let path = Name::from_slice(alloc, path)?;
    Ok(Request::Open { path, mode, flags })
}

/// open(2) with O_CREAT and O_EXCL: a new, empty file under this path.
///
/// # Errors
///
/// Out of memory.
pub fn create(
    alloc: Global,
    path: &[u8],
    mode: Mode,
    flags: OpenFlags,
) -> Result<Request, AllocError>
    ensures { IfOk result (λ request. request ≡ Request.Create path.now mode flags) }
{
    let path = Name::from_slice(alloc, path)?;
    Ok(Request::Create { path, mode, flags })
}

/// memfd_create(2): a new, empty file.
pub fn mem_fd(flags: OpenFlags) -> Request
    ensures { result ≡ Request.MemFd flags }
{
    Request::MemFd { flags }
}

/// eventfd(2): a new counter with this value, of which a read takes all.
pub fn event_fd(value: u32, flags: OpenFlags) -> Request
    ensures { result ≡ Request.EventFd value false flags }
{
    Request::EventFd {
        value,
        semaphore: false,
        flags,
    }
}

/// eventfd(2) with EFD_SEMAPHORE: a new counter with this value, of which a read takes 1.
pub fn semaphore(value: u32, flags: OpenFlags) -> Request
    ensures { result ≡ Request.EventFd value true flags }
{
    Request::EventFd {
        value,
        semaphore: true,
        flags,
    }
}

/// pipe2(2): a new pipe.
pub fn pipe(flags: OpenFlags) -> Request
    ensures { result ≡ Request.Pipe flags }
{
    Request::Pipe { flags }
}

/// read(2) of at most `n` bytes.
pub fn read(fd: Fd, n: usize) -> Request
    ensures { result ≡ Request.Read fd n }
{
    Request::Read { fd, n }
}

/// write(2) of a copy of these bytes.
///
/// # Errors
///
/// Out of memory.
pub fn write(alloc: Global, fd: Fd, bytes: &[u8]) -> Result<Request, AllocError>
    ensures { IfOk result (λ request. request ≡ Request.Write fd bytes.now) }
{
    let bytes = Bytes::from_slice(alloc, bytes)?;
    Ok(Request::Write { fd, bytes })
}

/// lseek(2): to so many bytes from there.
pub fn lseek(fd: Fd, offset: i64, whence: Whence) -> Request
    ensures { result ≡ Request.Lseek fd offset whence }
{
    Request::Lseek { fd, offset, whence }
}

/// dup(2).
pub fn dup(fd: Fd) -> Request
    ensures { result ≡ Request.Dup fd }
{
    Request::Dup { fd }
}

/// dup2(2): `to` becomes a copy of `fd`.
pub fn dup2(fd: Fd, to: Fd) -> Request
    ensures { result ≡ Request.Dup2 fd to }
{
    Request::Dup2 { fd, to }
}

/// fcntl(2), F_DUPFD: a copy of `fd` at the lowest free number that isn't below `minimum`.
pub fn dup_from(fd: Fd, minimum: Fd) -> Request
    ensures { result ≡ Request.DupFrom fd minimum }
{
    Request::DupFrom { fd, minimum }
}

/// fcntl(2), F_GETFL and F_GETFD at once.
pub fn get_flags(fd: Fd) -> Request
    ensures { result ≡ Request.GetFlags fd }
{
    Request::GetFlags { fd }
}

/// fcntl(2), F_SETFL and F_SETFD at once: all three flags get the values given.
pub fn set_flags(fd: Fd, flags: OpenFlags) -> Request
    ensures { result ≡ Request.SetFlags fd flags }
{
    Request::SetFlags { fd, flags }
}

/// ioctl(2), FIONREAD, which SIOCINQ is of a socket: how many bytes are ready to be read.
pub fn in_queue(fd: Fd) -> Request
    ensures { result ≡ Request.InQueue fd }
{
    Request::InQueue { fd }
}

/// ioctl(2), SIOCOUTQ: how many bytes the peer hasn't received yet.
pub fn out_queue(fd: Fd) -> Request
    ensures { result ≡ Request.OutQueue fd }
{
    Request::OutQueue { fd }
}

/// close(2).
pub fn close(fd: Fd) -> Request
    ensures { result ≡ Request.Close fd }
{
    Request::Close { fd }
}

/// unlink(2).
///
/// # Errors
///
/// Out of memory.
pub fn unlink(alloc: Global, path: &[u8]) -> Result<Request, AllocError>
    ensures { IfOk result (λ request. request ≡ Request.Unlink path.now) }
{
    let path = Name::from_slice(alloc, path)?;
    Ok(Request::Unlink { path })
}

/// socket(2), without flags.
pub fn socket(kind: SockType) -> Request
    ensures { result ≡ Request.Socket kind no_open_flags }
{
    socket_with(kind, NO_OPEN_FLAGS)
}

/// socket(2).
pub fn socket_with(kind: SockType, flags: OpenFlags) -> Request
    ensures { result ≡ Request.Socket kind flags }
{
    Request::Socket { kind, flags }
}

/// socketpair(2), without flags.
pub fn pair(kind: SockType) -> Request
    ensures { result ≡ Request.SocketPair kind no_open_flags }
{
    Request::SocketPair {
        kind,
        flags: NO_OPEN_FLAGS,
    }
}

/// bind(2) to this path.
///
/// # Errors
///
/// Out of memory.
pub fn bind_path(alloc: Global, fd: Fd, path: &[u8]) -> Result<Request, AllocError>
    ensures { IfOk result (λ request. request ≡ Request.Bind fd (Addr.Path path.now)) }
{
    let addr = Addr::Path(Name::from_slice(alloc, path)?);
    Ok(Request::Bind { fd, addr })
}

/// bind(2) to this name of the abstract namespace.
///
/// # Errors
///
/// Out of memory.
pub fn bind_abstract(alloc: Global, fd: Fd, name: &[u8]) -> Result<Request, AllocError>
    ensures { IfOk result (λ request. request ≡ Request.Bind fd (Addr.Abstract name.now)) }
{
    let addr = Addr::Abstract(Name::from_slice(alloc, name)?);
    Ok(Request::Bind { fd, addr })
}

/// listen(2), for so many connections that wait.
pub fn listen(fd: Fd, backlog: i32) -> Request
    ensures { result ≡ Request.Listen fd backlog }
{
    Request::Listen { fd, backlog }
}

/// connect(2) to this path.
///
/// # Errors
///
/// Out of memory.
pub fn connect_path(alloc: Global, fd: Fd, path: &[u8]) -> Result<Request, AllocError>
    ensures { IfOk result (λ request. request ≡ Request.Connect fd (Addr.Path path.now)) }
{
    let addr = Addr::Path(Name::from_slice(alloc, path)?);
    Ok(Request::Connect { fd, addr })
}

/// connect(2) to this name of the abstract namespace.
///
/// # Errors
///
/// Out of memory.
pub fn connect_abstract(alloc: Global, fd: Fd, name: &[u8]) -> Result<Request, AllocError>
    ensures { IfOk result (λ request. request ≡ Request.Connect fd (Addr.Abstract name.now)) }
{
    let addr = Addr::Abstract(Name::from_slice(alloc, name)?);
    Ok(Request::Connect { fd, addr })
}

/// accept(2).
pub fn accept(fd: Fd) -> Request
    ensures { result ≡ Request.Accept fd no_open_flags }
{
    accept_with(fd, NO_OPEN_FLAGS)
}

/// accept4(2): the flags are those of the new descriptor and of its description.
pub fn accept_with(fd: Fd, flags: OpenFlags) -> Request
    ensures { result ≡ Request.Accept fd flags }
{
    Request::Accept { fd, flags }
}

/// shutdown(2) in these directions.
pub fn shutdown(fd: Fd, how: Mode) -> Request
    ensures { result ≡ Request.Shutdown fd how }
{
    Request::Shutdown { fd, how }
}

/// getsockopt(2) at the level SOL_SOCKET.
pub fn getopt(fd: Fd, opt: SockOpt) -> Request
    ensures { result ≡ Request.GetOpt fd opt }
{
    Request::GetOpt { fd, opt }
}

/// setsockopt(2) at the level SOL_SOCKET: 0 is off, or a number of bytes.
pub fn setopt(fd: Fd, opt: SockOpt, value: u64) -> Request
    ensures { result ≡ Request.SetOpt fd opt value }
{
    Request::SetOpt { fd, opt, value }
}

/// getsockname(2).
pub fn getsockname(fd: Fd) -> Request
    ensures { result ≡ Request.GetSockName fd }
{
    Request::GetSockName { fd }
}

/// getpeername(2).
pub fn getpeername(fd: Fd) -> Request
    ensures { result ≡ Request.GetPeerName fd }
{
    Request::GetPeerName { fd }
}

/// send(2) of a copy of these bytes, without flags.
///
/// # Errors
///
/// Out of memory.
pub fn send(alloc: Global, fd: Fd, bytes: &[u8]) -> Result<Request, AllocError>
    ensures { IfOk result (λ request. request ≡ Request.SendMsg fd None bytes.now [] no_msg_flags) }
{
    let bytes = Bytes::from_slice(alloc, bytes)?;
    Ok(Request::SendMsg {
        fd,
        addr: None,
        bytes,
        control: Bytes::empty(),
        flags: NO_MSG_FLAGS,
    })
}

/// sendmsg(2) of a copy of these bytes, which passes these descriptors (SCM_RIGHTS of unix(7)).
///
/// # Errors
///
/// Out of memory.
pub fn send_rights(
    alloc: Global,
    fd: Fd,
    bytes: &[u8],
    rights: &[Fd],
) -> Result<Request, AllocError>
    ensures { IfOk result (λ request. request ≡ Request.SendMsg fd None bytes.now (control_bytes None (map (λ right. right.0) rights.now)) no_msg_flags) }
{
    let bytes = Bytes::from_slice(alloc, bytes)?;
    let control = Control::new(None, Vec::from_slice(alloc, rights)?);
    let control = Bytes::new(write_control(alloc, &control)?)?;
    Ok(Request::SendMsg {
        fd,
        addr: None,
        bytes,
        control,
        flags: NO_MSG_FLAGS,
    })
}

/// recv(2) of at most `n` bytes, without flags; descriptors that come with them are lost.
pub fn recv(fd: Fd, n: usize) -> Request
    ensures { result ≡ Request.RecvMsg fd n 0 no_msg_flags }
{
    Request::RecvMsg {
        fd,
        n,
        space: 0,
        flags: NO_MSG_FLAGS,
    }
}

/// recvmsg(2) of at most `n` bytes, with room for so many descriptors, at most as many as one message may pass. A
/// socket with SO_PASSCRED takes 32 bytes of that room for credentials.
pub fn recv_rights(fd: Fd, n: usize, count: usize) -> Request
    ensures request { result ≡ Request.RecvMsg fd n (rights_space (min count rights_limit)) no_msg_flags }
    ensures enough { min count rights_limit ≤ rights_fit (rights_space (min count rights_limit)) }
{
    // A head of 16 bytes, and 4 for each descriptor, up to the next multiple of 8.
    let space = 16 + 8 * ((count.min(RIGHTS_LIMIT) + 1) / 2);
    Request::RecvMsg {
        fd,
        n,
        space,
        flags: NO_MSG_FLAGS,
    }
}

/// poll(2) of one descriptor, without waiting.
pub fn poll(fd: Fd) -> Request
    ensures { result ≡ Request.Poll fd }
{
    Request::Poll { fd }
}

/// poll(2) of several descriptors, at most 64, which waits until something is reported of one, or doesn't wait.
pub fn poll_many(fds: PollFds, waits: bool) -> Request
    ensures { result ≡ Request.PollMany fds waits }
{
    Request::PollMany { fds, waits }
}

/// setresuid(2) and setresgid(2) at once: the real, the effective and the saved ids are one.
pub fn set_ids(uid: u32, gid: u32) -> Request
    ensures { result ≡ Request.SetIds uid gid }
{
    Request::SetIds { uid, gid }
}

/// execve(2), of which the layer sees the descriptors alone.
pub fn exec() -> Request
    ensures { result ≡ Request.Exec }
{
    Request::Exec
}
