//! Calls of a kernel that are kept as a history, and what an audit says of it.

use std::alloc::{AllocError, Global};
use std::process::Abort;
use std::test::Fail;
use ux_audit::{Audit, chain_text};
use ux_cmsg::{Control, write_control};
use ux_kernel::Kernel;
use ux_object::ObjKind;
use ux_objects::Plain;
use ux_state::ReleasedObjects;
use ux_types::{
    Addr, Bytes, Entry, Fd, Mode, MsgFlags, Name, OpenFlags, Pid, ProcSpec, Request, SockType,
};

/// A file object that a call makes.
#[derive(Clone, Copy)]
pub(crate) enum New {
    /// By open(2), under the path `new`.
    File,
    /// By memfd_create(2).
    Memory,
    /// By eventfd(2).
    Counter,
    /// By pipe2(2).
    Pipe,
}

/// A call that a row of a test makes.
#[derive(Clone, Copy)]
pub(crate) enum Call {
    /// Of the one file, with O_CLOEXEC or not.
    Open(bool),
    /// A new file object, with O_CLOEXEC or not.
    Make(New, bool),
    Pair,
    Socket,
    Bind(u32),
    Listen(u32),
    Connect(u32),
    Accept(u32),
    Dup(u32),
    Dup2(u32, u32),
    DupFrom(u32, u32),
    /// The flag FD_CLOEXEC.
    Mark(u32, bool),
    Close(u32),
    /// Of one byte `x` with these descriptors.
    Send(u32, &'static [u32]),
    /// With room for so many bytes of control.
    Recv(u32, usize),
    Peek(u32, usize),
    Fork,
    Exec,
    Exit,
}

fn flags_of(cloexec: bool) -> OpenFlags {
    if cloexec {
        OpenFlags::CLOEXEC
    } else {
        OpenFlags(0)
    }
}

/// A send of one byte with these descriptors.
fn sending(alloc: Global, fd: u32, rights: &[u32]) -> Result<Request, AllocError> {
    let mut numbers = Vec::new(alloc);
    for right in rights {
        numbers.push(Fd(*right))?;
    }
    let control = Control::new(None, numbers);
    Ok(Request::SendMsg {
        fd: Fd(fd),
        addr: None,
        bytes: Bytes::from_slice(alloc, b"x")?,
        control: Bytes::new(write_control(alloc, &control)?)?,
        flags: MsgFlags(0),
    })
}

fn receiving(fd: u32, space: usize, flags: MsgFlags) -> Request {
    Request::RecvMsg {
        fd: Fd(fd),
        n: 8,
        space,
        flags,
    }
}

/// The name of the server.
fn server(alloc: Global) -> Result<Addr, AllocError> {
    Ok(Addr::Abstract(Name::from_slice(alloc, b"s")?))
}

fn listening(fd: u32) -> Request {
    Request::Listen {
        fd: Fd(fd),
        backlog: 4,
    }
}

fn accepting(fd: u32) -> Request {
    Request::Accept {
        fd: Fd(fd),
        flags: OpenFlags(0),
    }
}

fn marking(fd: u32, on: bool) -> Request {
    Request::SetFlags {
        fd: Fd(fd),
        flags: flags_of(on),
    }
}

fn opening(alloc: Global, cloexec: bool) -> Result<Request, AllocError> {
    Ok(Request::Open {
        path: Name::from_slice(alloc, b"f")?,
        mode: Mode::Both,
        flags: flags_of(cloexec),
    })
}

fn making(alloc: Global, new: New, cloexec: bool) -> Result<Request, AllocError> {
    let flags = flags_of(cloexec);
    Ok(match new {
        New::File => Request::Create {
            path: Name::from_slice(alloc, b"new")?,
            mode: Mode::Both,
            flags,
        },
        New::Memory => Request::MemFd { flags },
        New::Counter => Request::EventFd {
            value: 7,
            semaphore: false,
            flags,
        },
        New::Pipe => Request::Pipe { flags },
    })
}

fn request_of(alloc: Global, call: Call) -> Result<Request, AllocError> {
    let kind = SockType::Stream;
    let plain = OpenFlags(0);
    Ok(match call {
        Call::Open(cloexec) => return opening(alloc, cloexec),
        Call::Make(new, cloexec) => return making(alloc, new, cloexec),
        Call::Pair => Request::SocketPair { kind, flags: plain },
        Call::Socket => Request::Socket { kind, flags: plain },
        Call::Bind(fd) => Request::Bind {
            fd: Fd(fd),
            addr: server(alloc)?,
        },
        Call::Listen(fd) => listening(fd),
        Call::Connect(fd) => Request::Connect {
            fd: Fd(fd),
            addr: server(alloc)?,
        },
        Call::Accept(fd) => accepting(fd),
        Call::Dup(fd) => Request::Dup { fd: Fd(fd) },
        Call::Dup2(fd, to) => Request::Dup2 {
            fd: Fd(fd),
            to: Fd(to),
        },
        Call::DupFrom(fd, minimum) => Request::DupFrom {
            fd: Fd(fd),
            minimum: Fd(minimum),
        },
        Call::Mark(fd, on) => marking(fd, on),
        Call::Close(fd) => Request::Close { fd: Fd(fd) },
        Call::Send(fd, rights) => return sending(alloc, fd, rights),
        Call::Recv(fd, space) => receiving(fd, space, MsgFlags(0)),
        Call::Peek(fd, space) => receiving(fd, space, MsgFlags::PEEK),
        Call::Fork => Request::Fork,
        Call::Exec => Request::Exec,
        Call::Exit => Request::Exit,
    })
}

/// A kernel of one file and these processes, and what it was called so far.
struct Recorder {
    kernel: Kernel<Plain>,
    released: ReleasedObjects<Plain>,
    entries: Vec<Entry>,
}

impl Drop for Recorder {
    fn drop(self) {
        let Recorder {
            kernel,
            released,
            entries,
        } = self;
        drop(kernel);
        drop(released);
        drop(entries);
    }
}

fn make_recorder(alloc: Global, procs: &[ProcSpec]) -> Result<Recorder, AllocError> {
    let Ok(file) = Plain::new(alloc, ObjKind::Memory, b"abcdef") else {
        return Err(AllocError);
    };
    let mut objects = Vec::new(alloc);
    objects.push((Name::from_slice(alloc, b"f")?, file))?;
    let released = ReleasedObjects::new(alloc);
    match Kernel::boot(alloc, objects, procs) {
        Ok(kernel) => Ok(Recorder {
            kernel,
            released,
            entries: Vec::new(alloc),
        }),
        Err(_) => Err(AllocError),
    }
}

/// How many of the entries are the process's.
fn count_of(entries: &[Entry], pid: Pid) -> u64 {
    entries.iter().filter(|e| e.pid == pid).count() as u64
}

/// Makes the call, and keeps it. One that the process may not make is a mistake of the test, and fails it.
fn record(recorder: &mut Recorder, pid: Pid, request: Request) -> Result<(), AllocError> {
    if matches!(request, Request::Off) || !recorder.kernel.is_live(pid) {
        return Err(AllocError);
    }
    recorder.released.clear();
    let tag = recorder.entries.len() as u64;
    let (done, released) = recorder
        .kernel
        .step(pid, tag, &request, &mut recorder.released);
    let k = count_of(recorder.entries.as_slice(), pid);
    recorder.entries.push(Entry {
        pid,
        k,
        request,
        reply: done.reply,
        released,
        delivered: done.delivered,
    })?;
    Ok(())
}

/// The history of these calls of unprivileged processes of one user, with room for 16 descriptors each.
pub(crate) fn history(
    alloc: Global,
    processes: usize,
    calls: &[(u32, Call)],
) -> Result<Vec<Entry>, AllocError> {
    let user = ProcSpec {
        uid: 1000,
        gid: 1000,
        privileged: false,
        limit: 16,
    };
    let procs = [user, user];
    let count = processes.min(procs.len());
    let mut recorder = make_recorder(alloc, &procs[..count])?;
    for (pid, call) in calls {
        let request = request_of(alloc, *call)?;
        record(&mut recorder, Pid(*pid), request)?;
    }
    let mut entries = Vec::new(alloc);
    std::mem::swap(&mut entries, &mut recorder.entries);
    Ok(entries)
}

/// Sees that these are the holdings at the end, each with its chain, and that each chain is found right.
pub(crate) fn expect(
    rt: &impl Abort,
    alloc: Global,
    entries: &[Entry],
    wanted: &[(u32, u32, &str)],
) -> Result<(), Fail> {
    let audit = Audit::new(alloc, entries)?;
    let held = audit.holdings(alloc)?;
    assert!(rt; held.len() == wanted.len());
    for ((pid, fd), (p, n, text)) in held.iter().zip(wanted) {
        assert!(rt; pid.0 == *p && fd.0 == *n);
        let Some(chain) = audit.pedigree(alloc, *pid, *fd)? else {
            panic!(rt; "no chain");
        };
        assert!(rt; chain_text(alloc, &chain)?.as_str() == *text);
        assert!(rt; audit.check_pedigree(alloc, &chain, *pid, *fd)?);
    }
    Ok(())
}
