//! A service manager and the worker that it starts. The manager opens its log and its key with close-on-exec and a
//! listening socket without it, and makes a child, in which the worker's program starts: it finds the socket and
//! nothing else, and takes a client after the manager has closed its own number of the socket.
ghost use Rattle.std.specs.Prelude.{◌≡◌, [], IfOk};
ghost use Rattle.ux_model.specs.Boot.{IsBootState};

use crate::print_history;
use crate::relying::entries_made;
use crate::two_threads::{check, make_calls};
use anyhow::{Result, anyhow};
use std::alloc::Global;
use std::marker::Brand;
use std::sync::Wait;
use ux_book::{BookName, Receipt, Spent, Trail};
use ux_kernel::Kernel;
use ux_layer::{Layer, Seat, start};
use ux_objects::MemFile;
use ux_types::{Addr, Bytes, Fd, Mode, MsgFlags, Name, OpenFlags, ProcSpec, Request, SockType};

/// The log is the manager's first number.
const LOG: Fd = Fd(0);

/// The key is its second.
const KEY: Fd = Fd(1);

/// The listening socket is its third, and the worker's.
const LISTENER: Fd = Fd(2);

/// The connection is the lowest number that is free in the worker, and in the client.
const CONNECTION: Fd = Fd(0);

const SOCKET: Request = Request::Socket {
    kind: SockType::Stream,
    flags: OpenFlags(0),
};

/// Where the service is found.
fn address(alloc: Global) -> Result<Addr> {
    Ok(Addr::Path(Name::from_slice(alloc, b"service")?))
}

/// A kernel with the manager's two files, and two processes: the manager and a client.
fn boot(alloc: Global) -> Result<Kernel<MemFile>>
    ensures { IfOk result (λ kernel. IsBootState kernel) }
{
    let log = MemFile::new(alloc, b"")?;
    let key = MemFile::new(alloc, b"secret")?;
    let user = ProcSpec {
        uid: 1000,
        gid: 1000,
        privileged: false,
        limit: 16,
    };
    let objects = vec![in alloc;
        (Name::from_slice(alloc, b"log")?, log),
        (Name::from_slice(alloc, b"key")?, key),
    ]?;
    match Kernel::boot(alloc, objects, &[user, user]) {
        Ok(kernel) => Ok(kernel),
        Err((fault, _objects)) => Err(anyhow!("{fault}")),
    }
}

/// A file that no program finds that starts in this process, or in a child of it.
fn open_marked(alloc: Global, path: &[u8], mode: Mode) -> Result<Request> {
    Ok(Request::Open {
        path: Name::from_slice(alloc, path)?,
        mode,
        flags: OpenFlags::CLOEXEC,
    })
}

/// A write to the log.
fn write_log(alloc: Global, text: &[u8]) -> Result<Request> {
    let bytes = Bytes::from_slice(alloc, text)?;
    Ok(Request::Write { fd: LOG, bytes })
}

/// What the manager asks for before it makes the worker.
fn prepare(alloc: Global) -> Result<Vec<Request>> {
    let log = open_marked(alloc, b"log", Mode::Write)?;
    let key = open_marked(alloc, b"key", Mode::Read)?;
    let addr = address(alloc)?;
    Ok(vec![in alloc;
        log,
        key,
        SOCKET,
        Request::Bind { fd: LISTENER, addr },
        Request::Listen {
            fd: LISTENER,
            backlog: 4
        },
    ]?)
}

/// What it asks for then: the socket is the worker's now, and the log is still its own.
fn hand_over(alloc: Global) -> Result<Vec<Request>> {
    let write = write_log(alloc, b"started")?;
    Ok(vec![in alloc; Request::Close { fd: LISTENER }, write]?)
}

/// The worker's program starts, and looks for the manager's files.
fn look_around(alloc: Global) -> Result<Vec<Request>> {
    let write = write_log(alloc, b"mine?")?;
    Ok(vec![in alloc; Request::Exec, write, Request::Read { fd: KEY, n: 6 }]?)
}

/// A client connects, and greets.
fn come(alloc: Global) -> Result<Vec<Request>> {
    let addr = address(alloc)?;
    let greeting = Request::SendMsg {
        fd: CONNECTION,
        addr: None,
        bytes: Bytes::from_slice(alloc, b"hello")?,
        control: Bytes::empty(),
        flags: MsgFlags(0),
    };
    Ok(vec![in alloc;
        SOCKET,
        Request::Connect {
            fd: CONNECTION,
            addr
        },
        greeting,
    ]?)
}

/// The worker takes the client, and reads its greeting.
fn serve(alloc: Global) -> Result<Vec<Request>> {
    let flags = OpenFlags(0);
    let receive = Request::RecvMsg {
        fd: CONNECTION,
        n: 64,
        space: 0,
        flags: MsgFlags(0),
    };
    Ok(vec![in alloc;
        Request::Accept {
            fd: LISTENER,
            flags
        },
        receive,
    ]?)
}

/// Makes the process in which the worker's program is to start.
fn make_worker<W: BookName, R: Wait>(
    rt: &R,
    manager: &mut Seat<W, MemFile>,
    receipts: &mut Vec<Receipt<W>>,
) -> Result<Seat<W, MemFile>> {
    let (reply, receipt, child) = match manager.fork(rt) {
        Ok(made) => made,
        Err(fault) => return Err(anyhow!("{fault}")),
    };
    drop(reply);
    receipts.push(receipt)?;
    match child {
        Some(worker) => Ok(worker),
        None => Err(anyhow!("no process is made")),
    }
}

/// Makes the calls of all three, and gives the worker's seat.
fn make_all<W: BookName, R: Wait + AllocGlobal>(
    rt: &R,
    manager: &mut Seat<W, MemFile>,
    client: &mut Seat<W, MemFile>,
    receipts: &mut Vec<Receipt<W>>,
) -> Result<Seat<W, MemFile>> {
    let alloc = rt.alloc();
    make_calls(rt, manager, receipts, &prepare(alloc)?)?;
    let mut worker = make_worker(rt, manager, receipts)?;
    make_calls(rt, manager, receipts, &hand_over(alloc)?)?;
    make_calls(rt, &mut worker, receipts, &look_around(alloc)?)?;
    make_calls(rt, client, receipts, &come(alloc)?)?;
    make_calls(rt, &mut worker, receipts, &serve(alloc)?)?;
    Ok(worker)
}

/// Ends these processes.
fn exit_all<W: BookName, R: Wait + AllocGlobal>(
    rt: &R,
    seats: Vec<Seat<W, MemFile>>,
) -> Result<Vec<Spent<W>>> {
    let mut spents = Vec::new(rt.alloc());
    for seat in seats {
        spents.push(seat.exit(rt))?;
    }
    Ok(spents)
}

/// Compares the history with what the processes have of it, the worker's share among theirs.
fn settle<W: BookName, R: Wait + Print + AllocGlobal>(
    rt: &R,
    layer: &Layer<W, MemFile>,
    mut receipts: Vec<Receipt<W>>,
    mut spents: Vec<Spent<W>>,
) -> Result<()> {
    let entries = entries_made(rt, layer, &mut spents, &mut receipts)?;
    let guard = layer.book(rt);
    print_history(rt, guard.book())?;
    println!(rt; "{entries} entries settle, and {} receipts", receipts.len())?;
    check(rt, guard.book(), boot(rt.alloc())?)
}

/// Runs the three processes, under a name that lives in here.
fn manage<W: BookName, R: Wait + Print + AllocGlobal>(
    rt: &R,
    trail: Trail,
    kernel: Kernel<MemFile>,
) -> Result<()>
    requires trail { trail ≡ record { id = W.trail; entries = []; given = 0 } }
    requires boots { IsBootState kernel }
    requires named { kernel ≡ W.boot }
{
    let alloc = rt.alloc();
    let Ok((layer, mut seats)) = start::<W, MemFile, R>(rt, alloc, trail, kernel) else {
        return Err(anyhow!("out of memory"));
    };
    let (Some(mut client), Some(mut manager)) = (seats.pop(), seats.pop()) else {
        return Err(anyhow!("a process is missing"));
    };
    let mut receipts = Vec::new(alloc);
    let worker = make_all(rt, &mut manager, &mut client, &mut receipts)?;
    let spents = exit_all(rt, vec![in alloc; manager, client, worker]?)?;
    settle(rt, &layer, receipts, spents)
}

/// Runs the example.
pub(crate) fn run<R: Wait + Print + AllocGlobal>(rt: &R) -> Result<()> {
    let kernel = boot(rt.alloc())?;
    manage::<Brand, R>(rt, Trail::new(rt.alloc())?, kernel)
}
