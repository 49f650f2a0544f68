//! Calls of a kernel by examples. A call with its reply is a row, and one loop goes over the rows.

mod boots;
mod connections;
mod datagrams;
mod files;
mod forking;
mod making;
mod memory;
mod objects;
mod options;
mod pairs;
mod paths;
mod polls;
mod queue_lengths;
mod queue_limits;
mod rights;
mod users;
mod waiting;

use files::{FileCall, file_request_of};
use hoard::Hoard;
use std::alloc::{AllocError, Global};
use std::process::Abort;
use ux_kernel::Kernel;
use ux_objects::{Counter, Plain};
use ux_state::ReleasedObjects;
use ux_types::{
    Addr, Bytes, Cred, Errno, Fd, Mode, MsgFlags, Name, OpenFlags, POLL_LIMIT, Pid, PollFd,
    PollFds, PollFlags, ProcSpec, Reply, Request, Revents, SockOpt, SockType,
};

/// A user's process with this descriptor limit.
fn process(limit: u32) -> ProcSpec {
    ProcSpec {
        uid: 1000,
        gid: 1000,
        privileged: false,
        limit,
    }
}

fn pair(kind: SockType) -> Request {
    Request::SocketPair {
        kind,
        flags: OpenFlags(0),
    }
}

fn socket(kind: SockType) -> Request {
    Request::Socket {
        kind,
        flags: OpenFlags(0),
    }
}

fn open(alloc: Global, path: &[u8], flags: u8) -> Result<Request, AllocError> {
    Ok(Request::Open {
        path: Name::from_slice(alloc, path)?,
        mode: Mode::Both,
        flags: OpenFlags(flags),
    })
}

fn unlink(alloc: Global, path: &[u8]) -> Result<Request, AllocError> {
    Ok(Request::Unlink {
        path: Name::from_slice(alloc, path)?,
    })
}

fn send(
    alloc: Global,
    fd: u32,
    addr: Option<Addr>,
    bytes: &[u8],
    flags: u8,
) -> Result<Request, AllocError> {
    Ok(Request::SendMsg {
        fd: Fd(fd),
        addr,
        bytes: Bytes::from_slice(alloc, bytes)?,
        control: Bytes::empty(),
        flags: MsgFlags(flags),
    })
}

/// The bytes of an SCM_RIGHTS item with these numbers, or none (cmsg(3)).
fn rights_item(alloc: Global, numbers: &[u32]) -> Result<Vec<u8>, AllocError> {
    let mut bytes = Vec::new(alloc);
    if numbers.is_empty() {
        return Ok(bytes);
    }
    let length = numbers.len().saturating_mul(4).saturating_add(16) as u64;
    bytes.extend_from_slice(&length.to_le_bytes())?;
    bytes.extend_from_slice(&[1, 0, 0, 0, 1, 0, 0, 0])?;
    for number in numbers {
        bytes.extend_from_slice(&number.to_le_bytes())?;
    }
    Ok(bytes)
}

fn pass(alloc: Global, fd: u32, numbers: &[u32]) -> Result<Request, AllocError> {
    Ok(Request::SendMsg {
        fd: Fd(fd),
        addr: None,
        bytes: Bytes::from_slice(alloc, b"x")?,
        control: Bytes::new(rights_item(alloc, numbers)?)?,
        flags: MsgFlags(0),
    })
}

fn taken(alloc: Global, flags: u8, numbers: &[u32]) -> Result<Reply, AllocError> {
    Ok(Reply::Received {
        count: 1,
        bytes: Bytes::from_slice(alloc, b"x")?,
        flags: MsgFlags(flags),
        control: Bytes::new(rights_item(alloc, numbers)?)?,
        from: None,
    })
}

/// The bytes of an SCM_CREDENTIALS item (unix(7)).
fn credentials_item(alloc: Global, pid: u32, uid: u32, gid: u32) -> Result<Vec<u8>, AllocError> {
    let mut bytes = Vec::new(alloc);
    bytes.extend_from_slice(&[28, 0, 0, 0, 0, 0, 0, 0, 1, 0, 0, 0, 2, 0, 0, 0])?;
    bytes.extend_from_slice(&pid.to_le_bytes())?;
    bytes.extend_from_slice(&uid.to_le_bytes())?;
    bytes.extend_from_slice(&gid.to_le_bytes())?;
    Ok(bytes)
}

fn claim(alloc: Global, fd: u32, pid: u32, uid: u32, gid: u32) -> Result<Request, AllocError> {
    Ok(Request::SendMsg {
        fd: Fd(fd),
        addr: None,
        bytes: Bytes::from_slice(alloc, b"x")?,
        control: Bytes::new(credentials_item(alloc, pid, uid, gid)?)?,
        flags: MsgFlags(0),
    })
}

fn signed(alloc: Global, pid: u32, uid: u32, gid: u32) -> Result<Reply, AllocError> {
    Ok(Reply::Received {
        count: 1,
        bytes: Bytes::from_slice(alloc, b"x")?,
        flags: MsgFlags(0),
        control: Bytes::new(credentials_item(alloc, pid, uid, gid)?)?,
        from: None,
    })
}

fn recv(fd: u32, n: usize, flags: u8) -> Request {
    Request::RecvMsg {
        fd: Fd(fd),
        n,
        space: 0,
        flags: MsgFlags(flags),
    }
}

fn fds(a: u32, b: u32) -> Reply {
    Reply::Fds(Fd(a), Fd(b))
}

fn got(alloc: Global, bytes: &[u8], flags: u8, from: Option<Addr>) -> Result<Reply, AllocError> {
    Ok(Reply::Received {
        count: bytes.len(),
        bytes: Bytes::from_slice(alloc, bytes)?,
        flags: MsgFlags(flags),
        control: Bytes::empty(),
        from,
    })
}

fn refused(e: Errno) -> Reply {
    Reply::Err(e)
}

/// A kernel, and a list for what its calls let go of.
struct Machine {
    kernel: Kernel<Plain>,
    released: ReleasedObjects<Plain>,
}

/// Written out, a drop is a call, and not each of its parts in the proof of each test.
impl Drop for Machine {
    fn drop(self) {
        let Machine { kernel, released } = self;
        drop(kernel);
        drop(released);
    }
}

/// A kernel of these file objects and processes.
fn make_machine(
    alloc: Global,
    objects: Vec<(Name, Plain)>,
    procs: &[ProcSpec],
) -> Result<Machine, AllocError> {
    let released = ReleasedObjects::new(alloc);
    match Kernel::boot(alloc, objects, procs) {
        Ok(kernel) => Ok(Machine { kernel, released }),
        Err(_) => Err(AllocError),
    }
}

/// A kernel without file objects.
fn bare(alloc: Global, procs: &[ProcSpec]) -> Result<Machine, AllocError> {
    make_machine(alloc, Vec::new(alloc), procs)
}

/// Makes a call of this process, if it may make that.
fn ask(machine: &mut Machine, pid: u32, request: &Request) -> Option<Reply> {
    if matches!(request, Request::Off) || !machine.kernel.is_live(Pid(pid)) {
        return None;
    }
    machine.released.clear();
    let (done, _numbers) = machine
        .kernel
        .step(Pid(pid), 0, request, &mut machine.released);
    Some(done.reply)
}

/// An address of a row.
#[derive(Clone, Copy)]
enum At {
    Unnamed,
    Path(&'static [u8]),
    Abstract(&'static [u8]),
}

/// A call that a row of a test makes.
#[derive(Clone, Copy)]
enum Asked {
    Open(&'static [u8]),
    /// With close-on-exec.
    OpenMarked(&'static [u8]),
    File(FileCall),
    Pair,
    PairOf(SockType),
    Socket,
    SocketOf(SockType),
    Bind(u32, At),
    Listen(u32, i32),
    Shutdown(u32, Mode),
    Connect(u32, At),
    Accept(u32, u8),
    SockName(u32),
    PeerName(u32),
    GetOpt(u32, SockOpt),
    SetOpt(u32, SockOpt, u64),
    Poll(u32),
    /// Numbers with the bits of what is asked for, and whether it waits.
    Polls(&'static [(u32, u8)], bool),
    Send(u32, &'static [u8], u8),
    SendTo(u32, At, &'static [u8]),
    /// So many bytes `x`.
    SendMany(u32, usize),
    Recv(u32, usize, u8),
    /// A send of one byte `x` with these rights.
    Pass(u32, &'static [u32]),
    /// A send of one byte `x` with these credentials: a process, a user and a group.
    Claim(u32, u32, u32, u32),
    /// A receive of one byte with this control space, by these flags.
    Take(u32, usize, u8),
    Close(u32),
    Unlink(&'static [u8]),
    /// A user and a group.
    SetIds(u32, u32),
    Fork,
    Exec,
    Exit,
}

/// What it is answered.
#[derive(Clone, Copy)]
enum Told {
    Ok,
    Fd(u32),
    Fds(u32, u32),
    Count(usize),
    /// What was read of a file object.
    Bytes(&'static [u8]),
    At(u64),
    Got(&'static [u8]),
    /// A whole record of these bytes.
    Record(&'static [u8]),
    /// These bytes of a datagram, with these flags, from this address.
    From(&'static [u8], u8, At),
    /// So many bytes `x`.
    GotMany(usize),
    /// One byte `x` with these flags and these rights.
    Taken(u8, &'static [u32]),
    /// One byte `x` with the credentials of a process, a user and a group.
    Signed(u32, u32, u32),
    Accepted(u32, At),
    Addr(At),
    Opt(u64),
    Cred(u32, u32, u32),
    Poll(u8),
    /// The bits of what is reported of each.
    Polled(&'static [u8]),
    Child(u32),
    /// APPEND, NONBLOCK and CLOEXEC.
    Flags(u8),
    Err(Errno),
}

/// A process, its call and the reply.
type Row = (u32, Asked, Told);

/// So many bytes `x`.
fn copies(alloc: Global, count: usize) -> Result<Vec<u8>, AllocError> {
    vec![in alloc; b'x'; count]
}

/// The address of a row.
fn addr_of(alloc: Global, at: &At) -> Result<Addr, AllocError> {
    Ok(match at {
        At::Unnamed => Addr::Unnamed,
        At::Path(bytes) => Addr::Path(Name::from_slice(alloc, bytes)?),
        At::Abstract(bytes) => Addr::Abstract(Name::from_slice(alloc, bytes)?),
    })
}

/// A poll of several descriptors.
fn poll_of_several(alloc: Global, fds: &[(u32, u8)], waits: bool) -> Result<Request, AllocError> {
    let mut asked = Vec::with_capacity(alloc, fds.len())?;
    for (fd, events) in fds {
        asked.push(PollFd {
            fd: Fd(*fd),
            events: PollFlags(*events),
        })?;
    }
    let fds = PollFds::new(asked);
    Ok(Request::PollMany { fds, waits })
}

/// What is reported of each of at most 64 descriptors.
fn revents(sets: &[u8]) -> Revents {
    let mut found = Revents::new();
    for set in sets {
        if found.as_slice().len() < POLL_LIMIT {
            found.push(PollFlags(*set));
        }
    }
    found
}

/// The request of a row.
fn request_of(alloc: Global, asked: &Asked) -> Result<Request, AllocError> {
    Ok(match asked {
        Asked::Open(path) => open(alloc, path, 0)?,
        Asked::OpenMarked(path) => open(alloc, path, 4)?,
        Asked::File(call) => file_request_of(alloc, call)?,
        Asked::Pair => pair(SockType::Stream),
        Asked::PairOf(kind) => pair(*kind),
        Asked::Socket => socket(SockType::Stream),
        Asked::SocketOf(kind) => socket(*kind),
        Asked::Bind(fd, at) => Request::Bind {
            fd: Fd(*fd),
            addr: addr_of(alloc, at)?,
        },
        Asked::Listen(fd, backlog) => Request::Listen {
            fd: Fd(*fd),
            backlog: *backlog,
        },
        Asked::Shutdown(fd, how) => Request::Shutdown {
            fd: Fd(*fd),
            how: *how,
        },
        Asked::Connect(fd, at) => Request::Connect {
            fd: Fd(*fd),
            addr: addr_of(alloc, at)?,
        },
        Asked::Accept(fd, flags) => Request::Accept {
            fd: Fd(*fd),
            flags: OpenFlags(*flags),
        },
        Asked::SockName(fd) => Request::GetSockName { fd: Fd(*fd) },
        Asked::PeerName(fd) => Request::GetPeerName { fd: Fd(*fd) },
        Asked::GetOpt(fd, opt) => Request::GetOpt {
            fd: Fd(*fd),
            opt: *opt,
        },
        Asked::SetOpt(fd, opt, value) => Request::SetOpt {
            fd: Fd(*fd),
            opt: *opt,
            value: *value,
        },
        Asked::Poll(fd) => Request::Poll { fd: Fd(*fd) },
        Asked::Polls(fds, waits) => poll_of_several(alloc, fds, *waits)?,
        Asked::Send(fd, bytes, flags) => send(alloc, *fd, None, bytes, *flags)?,
        Asked::SendTo(fd, at, bytes) => send(alloc, *fd, Some(addr_of(alloc, at)?), bytes, 0)?,
        Asked::SendMany(fd, count) => send(alloc, *fd, None, &copies(alloc, *count)?, 0)?,
        Asked::Recv(fd, n, flags) => recv(*fd, *n, *flags),
        Asked::Pass(fd, numbers) => pass(alloc, *fd, numbers)?,
        Asked::Claim(fd, pid, uid, gid) => claim(alloc, *fd, *pid, *uid, *gid)?,
        Asked::Take(fd, space, flags) => Request::RecvMsg {
            fd: Fd(*fd),
            n: 1,
            space: *space,
            flags: MsgFlags(*flags),
        },
        Asked::Close(fd) => Request::Close { fd: Fd(*fd) },
        Asked::Unlink(path) => unlink(alloc, path)?,
        Asked::SetIds(uid, gid) => Request::SetIds {
            uid: *uid,
            gid: *gid,
        },
        Asked::Fork => Request::Fork,
        Asked::Exec => Request::Exec,
        Asked::Exit => Request::Exit,
    })
}

/// The reply of a row.
fn reply_of(alloc: Global, told: &Told) -> Result<Reply, AllocError> {
    Ok(match told {
        Told::Ok => Reply::Ok,
        Told::Fd(fd) => Reply::Fd(Fd(*fd)),
        Told::Fds(low, high) => fds(*low, *high),
        Told::Count(count) => Reply::Count(*count),
        Told::Bytes(bytes) => Reply::Bytes(Bytes::from_slice(alloc, bytes)?),
        Told::At(offset) => Reply::At(*offset),
        Told::Got(bytes) => got(alloc, bytes, 0, None)?,
        Told::Record(bytes) => got(alloc, bytes, MsgFlags::EOR.0, None)?,
        Told::From(bytes, flags, at) => got(alloc, bytes, *flags, Some(addr_of(alloc, at)?))?,
        Told::GotMany(count) => got(alloc, &copies(alloc, *count)?, 0, None)?,
        Told::Taken(flags, numbers) => taken(alloc, *flags, numbers)?,
        Told::Signed(pid, uid, gid) => signed(alloc, *pid, *uid, *gid)?,
        Told::Accepted(fd, at) => Reply::Accepted(Fd(*fd), addr_of(alloc, at)?),
        Told::Addr(at) => Reply::Addr(addr_of(alloc, at)?),
        Told::Opt(value) => Reply::Opt(*value),
        Told::Cred(pid, uid, gid) => Reply::Cred(Cred {
            pid: Pid(*pid),
            uid: *uid,
            gid: *gid,
        }),
        Told::Poll(flags) => Reply::Poll(PollFlags(*flags)),
        Told::Polled(sets) => Reply::Polled(revents(sets)),
        Told::Child(pid) => Reply::Child(Pid(*pid)),
        Told::Flags(flags) => Reply::Flags(OpenFlags(*flags)),
        Told::Err(errno) => refused(*errno),
    })
}

/// A request, and the reply that it gets.
struct Case {
    request: Request,
    reply: Reply,
}

/// As of a machine: each kind of request and of reply is a case in the proof of a drop.
impl Drop for Case {
    fn drop(self) {
        let Case { request, reply } = self;
        drop(request);
        drop(reply);
    }
}

/// The request and the reply of a row.
fn case_of(alloc: Global, asked: &Asked, told: &Told) -> Result<Case, AllocError> {
    let request = request_of(alloc, asked)?;
    match reply_of(alloc, told) {
        Ok(reply) => Ok(Case { request, reply }),
        Err(error) => {
            drop(request);
            Err(error)
        }
    }
}

/// Makes a call of this process, which is answered so.
fn expect_reply(rt: &impl Abort, machine: &mut Machine, pid: u32, case: &Case) {
    expect(rt, ask(machine, pid, &case.request), &case.reply);
}

/// Sees that a call was made, and answered so.
fn expect(rt: &impl Abort, answer: Option<Reply>, reply: &Reply) {
    assert_eq!(rt; answer.as_ref(), Some(reply));
}

/// Makes the calls of these rows in order, each of which is answered as its row says.
fn expect_rows(
    rt: &impl Abort,
    alloc: Global,
    machine: &mut Machine,
    rows: &[Row],
) -> Result<(), AllocError> {
    for (pid, asked, told) in rows {
        expect_reply(rt, machine, *pid, &case_of(alloc, asked, told)?);
    }
    Ok(())
}

/// Makes the calls of these rows so many times.
fn expect_rows_often(
    rt: &impl Abort,
    alloc: Global,
    machine: &mut Machine,
    times: usize,
    rows: &[Row],
) -> Result<(), AllocError> {
    for _ in 0..times {
        expect_rows(rt, alloc, machine, rows)?;
    }
    Ok(())
}

/// Makes the calls of these rows in order, over a kernel of one process with this descriptor limit.
fn expect_rows_of_one_process(
    rt: &impl Abort,
    alloc: Global,
    limit: u32,
    rows: &[Row],
) -> Result<(), AllocError> {
    let mut machine = bare(alloc, &[process(limit)])?;
    expect_rows(rt, alloc, &mut machine, rows)
}

/// Makes a call while every allocation is refused.
fn ask_without_memory(
    alloc: Global,
    machine: &mut Machine,
    pid: u32,
    request: &Request,
) -> Result<Option<Reply>, AllocError> {
    let hoard = Hoard::take_all(alloc)?;
    let answer = ask(machine, pid, request);
    drop(hoard);
    Ok(answer)
}

/// Makes each call of these rows while every allocation is refused, then again with memory.
fn expect_refusals_then_rows(
    rt: &impl Abort,
    alloc: Global,
    machine: &mut Machine,
    rows: &[Row],
) -> Result<(), AllocError> {
    for (pid, asked, told) in rows {
        let case = case_of(alloc, asked, told)?;
        let first = ask_without_memory(alloc, machine, *pid, &case.request)?;
        expect(rt, first, &refused(Errno::ENOMEM));
        expect_reply(rt, machine, *pid, &case);
    }
    Ok(())
}

/// Ends the layer, once no process is left.
fn turns_off(machine: &mut Machine) -> bool {
    if machine.kernel.has_live() {
        return false;
    }
    machine.released.clear();
    let (done, _numbers) = machine
        .kernel
        .step(Pid(0), 0, &Request::Off, &mut machine.released);
    done.reply == Reply::Ok
}

/// Makes each call of these rows while every allocation is refused, and each is answered as its row says.
fn expect_rows_without_memory(
    rt: &impl Abort,
    alloc: Global,
    machine: &mut Machine,
    rows: &[Row],
) -> Result<(), AllocError> {
    for (pid, asked, told) in rows {
        let case = case_of(alloc, asked, told)?;
        let answer = ask_without_memory(alloc, machine, *pid, &case.request)?;
        expect(rt, answer, &case.reply);
    }
    Ok(())
}

/// Makes the call of a row, and answers whether its process may make it.
fn is_made(
    alloc: Global,
    machine: &mut Machine,
    pid: u32,
    asked: &Asked,
) -> Result<bool, AllocError> {
    let request = request_of(alloc, asked)?;
    let answer = ask(machine, pid, &request);
    drop(request);
    Ok(answer.is_some())
}

/// Open counters under these paths.
fn counters(alloc: Global, paths: &[&[u8]]) -> Result<Vec<(Name, Plain)>, AllocError> {
    let mut objects = Vec::with_capacity(alloc, paths.len())?;
    for path in paths {
        objects.push((
            Name::from_slice(alloc, path)?,
            Plain::Counter(Counter::new()),
        ))?;
    }
    Ok(objects)
}

/// So many open counters, each under its number.
fn numbered_counters(alloc: Global, count: u32) -> Result<Vec<(Name, Plain)>, AllocError> {
    let mut objects = Vec::with_capacity(alloc, count as usize)?;
    for number in 0..count {
        let path = format!(in alloc; "{number}")?;
        let name = Name::from_slice(alloc, path.as_str().as_bytes())?;
        objects.push((name, Plain::Counter(Counter::new())))?;
    }
    Ok(objects)
}

/// A kernel with one process and open counters under these paths.
fn with_counters(alloc: Global, paths: &[&[u8]]) -> Result<Machine, AllocError> {
    make_machine(alloc, counters(alloc, paths)?, &[process(16)])
}
