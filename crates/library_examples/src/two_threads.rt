//! The layer with threads as its processes: a monitor opens a file and passes it over a connection to a worker in
//! another thread, which reads it after the monitor has exited, and takes its last reference. At the end the
//! history has exactly the calls that the processes' shares know, and is compared with a second run of its calls.
ghost use Rattle.std.specs.Prelude.{◌≡◌, [], false, IfOk};
ghost use Rattle.ux_model.specs.Boot.{IsBootState};
ghost use Rattle.ux_book.specs.Books.{has_own_call};

use crate::print_history;
use crate::relying::{close, entries_made, stands};
use anyhow::{Result, anyhow};
use std::alloc::Global;
use std::marker::Brand;
use std::sync::Wait;
use std::thread;
use std::thread::Threads;
use ux_book::{Book, BookName, Receipt, Spent, Trail};
use ux_cmsg::{Control, write_control};
use ux_kernel::Kernel;
use ux_layer::{Layer, Seat, start};
use ux_objects::MemFile;
use ux_replay::check_history;
use ux_types::{
    Addr, Bytes, Fd, Mode, MsgFlags, Name, OpenFlags, Pid, ProcSpec, Request, SockType,
};

const MONITOR: Pid = Pid(1);

const WORKER: Pid = Pid(2);

const SOCKET: Request = Request::Socket {
    kind: SockType::Stream,
    flags: OpenFlags(0),
};

/// A process that made its calls and exited.
struct Done<W: BookName> {
    spent: Spent<W>,
    receipts: Vec<Receipt<W>>,
}

/// Written out, a drop is a call, and not each of its parts in the proof of each function that drops one.
impl<W: BookName> Drop for Done<W> {
    fn drop(self) {
        let Done { spent, receipts } = self;
        drop(spent);
        drop(receipts);
    }
}

impl<W: BookName> Done<W> {
    /// Its share and its receipts.
    fn into_parts(self) -> (Spent<W>, Vec<Receipt<W>>) {
        let Done { spent, receipts } = self;
        (spent, receipts)
    }
}

/// The path of the file.
fn notes(alloc: Global) -> Result<Name> {
    Ok(Name::from_slice(alloc, b"notes")?)
}

/// Where the monitor listens.
fn address(alloc: Global) -> Result<Addr> {
    Ok(Addr::Abstract(Name::from_slice(alloc, b"monitor")?))
}

/// A kernel with one memory file and two processes.
fn boot(alloc: Global) -> Result<Kernel<MemFile>>
    ensures { IfOk result (λ kernel. IsBootState kernel) }
{
    let file = MemFile::new(alloc, b"hello")?;
    let user = ProcSpec {
        uid: 1000,
        gid: 1000,
        privileged: false,
        limit: 16,
    };
    let objects = vec![in alloc; (notes(alloc)?, file)]?;
    match Kernel::boot(alloc, objects, &[user, user]) {
        Ok(kernel) => Ok(kernel),
        Err((fault, _objects)) => Err(anyhow!("{fault}")),
    }
}

/// A message of one byte that passes the descriptor 0 over the descriptor 2.
fn pass(alloc: Global) -> Result<Request> {
    let files = vec![in alloc; Fd(0)]?;
    let control = write_control(alloc, &Control::new(None, files))?;
    Ok(Request::SendMsg {
        fd: Fd(2),
        addr: None,
        bytes: Bytes::from_slice(alloc, b"x")?,
        control: Bytes::new(control)?,
        flags: MsgFlags(0),
    })
}

/// What the monitor asks for: it opens the file, waits for a connection, and passes the file.
fn monitor_calls(alloc: Global) -> Result<Vec<Request>> {
    let pass = pass(alloc)?;
    let path = notes(alloc)?;
    let mode = Mode::Read;
    let flags = OpenFlags(0);
    let addr = address(alloc)?;
    Ok(vec![in alloc;
        Request::Open { path, mode, flags },
        SOCKET,
        Request::Bind { fd: Fd(1), addr },
        Request::Listen {
            fd: Fd(1),
            backlog: 1
        },
        Request::Accept { fd: Fd(1), flags },
        pass,
    ]?)
}

/// What the worker asks for first: it connects, is passed the file, and reads it.
fn worker_calls(alloc: Global) -> Result<Vec<Request>> {
    let addr = address(alloc)?;
    // A control buffer of 24 bytes has room for one descriptor.
    let receive = Request::RecvMsg {
        fd: Fd(0),
        n: 8,
        space: 24,
        flags: MsgFlags(0),
    };
    Ok(vec![in alloc;
        SOCKET,
        Request::Connect { fd: Fd(0), addr },
        receive,
        Request::Read { fd: Fd(1), n: 64 },
    ]?)
}

/// Takes the file's path away, and closes it: with the close it has no reference left.
fn let_go<W: BookName, R: Wait>(
    rt: &R,
    alloc: Global,
    seat: &mut Seat<W, MemFile>,
    receipts: &mut Vec<Receipt<W>>,
) -> Result<()> {
    let path = notes(alloc)?;
    make_calls(
        rt,
        seat,
        receipts,
        &vec![in alloc; Request::Unlink { path }]?,
    )?;
    match close(rt, seat, Fd(1)) {
        Ok((reply, receipt)) => {
            drop(reply);
            receipts.push(receipt)?;
            Ok(())
        }
        Err(fault) => Err(anyhow!("{fault}")),
    }
}

/// Makes these calls, each of which waits until it can be done, and keeps their receipts.
pub(crate) fn make_calls<W: BookName, R: Wait>(
    rt: &R,
    seat: &mut Seat<W, MemFile>,
    receipts: &mut Vec<Receipt<W>>,
    requests: &[Request],
) -> Result<()> {
    for request in requests {
        // A process makes another one, and exits, by functions of its seat's own.
        if ux_book::has_own_call(request) {
            return Err(anyhow!("a fork or an exit isn't a call"));
        }
        match seat.call_blocking(rt, request) {
            Ok((reply, receipt)) => {
                drop(reply);
                // That the call stands in some legal history needs no look.
                stands(&receipt);
                receipts.push(receipt)?;
            }
            Err(fault) => return Err(anyhow!("{fault}")),
        }
    }
    Ok(())
}

/// Ends the process.
fn exit<W: BookName, R: Wait>(
    rt: &R,
    seat: Seat<W, MemFile>,
    receipts: Vec<Receipt<W>>,
) -> Done<W> {
    let spent = seat.exit(rt);
    Done { spent, receipts }
}

/// The monitor's thread.
fn monitor<W: BookName, R: Wait>(
    rt: &R,
    alloc: Global,
    layer: &Layer<W, MemFile>,
    mut seat: Seat<W, MemFile>,
) -> Result<Done<W>> {
    let mut receipts = Vec::new(alloc);
    make_calls(rt, &mut seat, &mut receipts, &monitor_calls(alloc)?)?;
    // The worker has read the file.
    layer.wait_for(rt, WORKER, 4);
    Ok(exit(rt, seat, receipts))
}

/// The worker's thread.
fn worker<W: BookName, R: Wait>(
    rt: &R,
    alloc: Global,
    layer: &Layer<W, MemFile>,
    mut seat: Seat<W, MemFile>,
) -> Result<Done<W>> {
    let mut receipts = Vec::new(alloc);
    // The monitor listens.
    layer.wait_for(rt, MONITOR, 4);
    make_calls(rt, &mut seat, &mut receipts, &worker_calls(alloc)?)?;
    // The monitor has exited.
    layer.wait_for(rt, MONITOR, 7);
    let_go(rt, alloc, &mut seat, &mut receipts)?;
    Ok(exit(rt, seat, receipts))
}

/// Compares the history with what the processes have of it.
fn settle<W: BookName, R: Wait + Print + AllocGlobal>(
    rt: &R,
    layer: &Layer<W, MemFile>,
    monitor: Done<W>,
    worker: Done<W>,
) -> Result<()> {
    let (spent, mut receipts) = monitor.into_parts();
    let (other, others) = worker.into_parts();
    for receipt in others {
        receipts.push(receipt)?;
    }
    let mut spents = vec![in rt.alloc(); spent, other]?;
    let entries = entries_made(rt, layer, &mut spents, &mut receipts)?;
    let guard = layer.book(rt);
    print_history(rt, guard.book())?;
    println!(rt; "{entries} entries settle, and {} receipts", receipts.len())?;
    check(rt, guard.book(), boot(rt.alloc())?)
}

/// Makes the history's calls once more, on another kernel.
pub(crate) fn check<W: BookName>(
    rt: &(impl Print + AllocGlobal),
    book: &Book<W, MemFile>,
    again: Kernel<MemFile>,
) -> Result<()> {
    match check_history(rt.alloc(), book.entries(), again) {
        Ok(count) => println!(rt; "check ok {count}")?,
        Err(number) => return Err(anyhow!("check differs at {number}")),
    }
    Ok(())
}

/// Runs the two processes as threads of a layer, under a name that lives in here.
fn run_threads<W: BookName + Send + Sync, R: Threads + Wait + Print + AllocGlobal + Sync>(
    rt: &R,
    trail: Trail,
    kernel: Kernel<MemFile>,
) -> Result<()>
    requires trail { trail ≡ record { id = W.trail; entries = []; given = 0 } }
    requires boots { IsBootState kernel }
    requires named { kernel ≡ W.boot }
{
    let alloc = rt.alloc();
    let Ok((layer, mut seats)) = start::<W, MemFile, R>(rt, alloc, trail, kernel) else {
        return Err(anyhow!("out of memory"));
    };
    let (Some(second), Some(first)) = (seats.pop(), seats.pop()) else {
        return Err(anyhow!("a process is missing"));
    };
    let shared = &layer;
    let (monitored, worked) = thread::join(
        rt,
        move || monitor(rt, alloc, shared, first),
        move || worker(rt, alloc, shared, second),
    );
    settle(rt, &layer, monitored?, worked?)
}

/// Runs the example.
pub(crate) fn run<R: Threads + Wait + Print + AllocGlobal + Sync>(rt: &R) -> Result<()> {
    let kernel = boot(rt.alloc())?;
    run_threads::<Brand, R>(rt, Trail::new(rt.alloc())?, kernel)
}
