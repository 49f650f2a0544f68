//! Calls by seats, one thread after another and several at once, and the history that they leave.
ghost use Rattle.std.specs.Prelude.{◌≡◌, [], false, IfOk};
ghost use Rattle.ux_model.specs.Boot.{IsBootState};
ghost use Rattle.ux_book.specs.Books.{has_own_call};

use hoard::Hoard;
use std::alloc::{AllocError, Global};
use std::marker::Brand;
use std::process::Abort;
use std::sync::Wait;
use std::test::Fail;
use std::thread;
use std::thread::Threads;
use ux_book::{BookName, CallFault, Keeper, Missing, OffFault, Receipt, Spent, Trail};
use ux_kernel::Kernel;
use ux_layer::{Layer, Seat, start};
use ux_object::FileObject;
use ux_objects::Counter;
use ux_types::{
    Addr, Bytes, Errno, Fd, MsgFlags, Name, OpenFlags, Pid, PollFd, PollFds, PollFlags, ProcSpec,
    Reply, Request, Revents, SockType,
};

mod deadlock;
mod forking;
mod watched;

const USER: ProcSpec = ProcSpec {
    uid: 1000,
    gid: 1000,
    privileged: false,
    limit: 16,
};

const SOCKET: Request = Request::Socket {
    kind: SockType::Stream,
    flags: OpenFlags(0),
};

/// Why a worker gave up.
#[derive(Debug, Drop)]
enum Trouble {
    Fault(CallFault),
    Memory,
    Wrong,
}

impl From<CallFault> for Trouble {
    fn from(fault: CallFault) -> Trouble {
        Trouble::Fault(fault)
    }
}

impl From<AllocError> for Trouble {
    fn from(_error: AllocError) -> Trouble {
        Trouble::Memory
    }
}

/// What one thread brings back.
struct Done<W: BookName> {
    spent: Spent<W>,
    receipts: Vec<Receipt<W>>,
}

/// Written out, a drop is a call, and not each of its parts in the proof of each function that drops one.
impl<W: BookName> Drop for Done<W> {
    fn drop(self) {
        let Done { spent, receipts } = self;
        drop(spent);
        drop(receipts);
    }
}

impl<W: BookName> Done<W> {
    /// Its share and its receipts.
    fn into_parts(self) -> (Spent<W>, Vec<Receipt<W>>) {
        let Done { spent, receipts } = self;
        (spent, receipts)
    }
}

/// A seat, and the receipts of its calls.
struct Worker<W: BookName, O: FileObject> {
    seat: Seat<W, O>,
    receipts: Vec<Receipt<W>>,
}

/// As of what a thread brings back.
impl<W: BookName, O: FileObject> Drop for Worker<W, O> {
    fn drop(self) {
        let Worker { seat, receipts } = self;
        drop(seat);
        drop(receipts);
    }
}

impl<W: BookName, O: FileObject> Worker<W, O> {
    /// A seat, and no receipt yet.
    fn new(alloc: Global, seat: Seat<W, O>) -> Worker<W, O> {
        let receipts = Vec::new(alloc);
        Worker { seat, receipts }
    }

    /// Makes a call that must be answered so, and keeps its receipt.
    fn expect_reply<R: Wait>(
        &mut self,
        rt: &R,
        request: Request,
        answer: Reply,
    ) -> Result<(), Trouble>
        requires { has_own_call request ≡ false }
    {
        let called = self.seat.call_blocking(rt, &request);
        drop(request);
        let receipt = answered(called, answer)?;
        match self.receipts.push(receipt) {
            Ok(()) => Ok(()),
            Err(_) => Err(Trouble::Memory),
        }
    }

    /// Exits.
    fn done<R: Wait>(self, rt: &R) -> Result<Done<W>, Trouble> {
        let Worker { seat, receipts } = self;
        let spent = seat.exit(rt);
        Ok(Done { spent, receipts })
    }
}

/// The receipt of a call that was answered so. Of values of any type a drop is a call, and not each of their kinds.
fn answered<A: PartialEq + Drop, R: Drop>(
    called: Result<(A, R), CallFault>,
    answer: A,
) -> Result<R, Trouble> {
    let (reply, receipt) = called?;
    if reply == answer {
        Ok(receipt)
    } else {
        Err(Trouble::Wrong)
    }
}

/// The address of the server.
fn server(alloc: Global) -> Result<Addr, AllocError> {
    Ok(Addr::Abstract(Name::from_slice(alloc, b"s")?))
}

/// A receive of at most 8 bytes by this number.
fn receive(fd: u32) -> Request
    ensures { has_own_call result ≡ false }
{
    Request::RecvMsg {
        fd: Fd(fd),
        n: 8,
        space: 0,
        flags: MsgFlags(0),
    }
}

/// A send of these bytes by this number.
fn send(alloc: Global, fd: u32, bytes: &[u8]) -> Result<Request, AllocError>
    ensures { IfOk result (λ r. has_own_call r ≡ false) }
{
    Ok(Request::SendMsg {
        fd: Fd(fd),
        addr: None,
        bytes: Bytes::from_slice(alloc, bytes)?,
        control: Bytes::empty(),
        flags: MsgFlags(0),
    })
}

/// A poll of one socket that waits for input.
fn poll_for_input(alloc: Global, fd: u32) -> Result<Request, AllocError>
    ensures { IfOk result (λ r. has_own_call r ≡ false) }
{
    let asked = PollFd {
        fd: Fd(fd),
        events: PollFlags::IN,
    };
    Ok(Request::PollMany {
        fds: PollFds::new(vec![in alloc; asked]?),
        waits: true,
    })
}

/// There is input, of one socket.
fn input() -> Reply {
    let mut found = Revents::new();
    found.push(PollFlags::IN);
    Reply::Polled(found)
}

/// Listens, waits by a poll for a connection, takes it, and sends two bytes.
fn serve<W: BookName, R: Wait>(
    rt: &R,
    alloc: Global,
    seat: Seat<W, Counter>,
) -> Result<Done<W>, Trouble> {
    let mut worker = Worker::new(alloc, seat);
    let w = &mut worker;
    w.expect_reply(rt, SOCKET, Reply::Fd(Fd(0)))?;
    let addr = server(alloc)?;
    w.expect_reply(rt, Request::Bind { fd: Fd(0), addr }, Reply::Ok)?;
    let backlog = 4;
    w.expect_reply(rt, Request::Listen { fd: Fd(0), backlog }, Reply::Ok)?;
    w.expect_reply(rt, poll_for_input(alloc, 0)?, input())?;
    let flags = OpenFlags(0);
    let accepted = Reply::Accepted(Fd(1), Addr::Unnamed);
    w.expect_reply(rt, Request::Accept { fd: Fd(0), flags }, accepted)?;
    w.expect_reply(rt, send(alloc, 1, b"hi")?, Reply::Count(2))?;
    worker.done(rt)
}

/// Connects once the server listens, and receives what it sends.
fn ask<W: BookName, R: Wait>(
    rt: &R,
    alloc: Global,
    layer: &Layer<W, Counter>,
    seat: Seat<W, Counter>,
) -> Result<Done<W>, Trouble> {
    let mut worker = Worker::new(alloc, seat);
    let w = &mut worker;
    layer.wait_for(rt, Pid(1), 3);
    w.expect_reply(rt, SOCKET, Reply::Fd(Fd(0)))?;
    let addr = server(alloc)?;
    w.expect_reply(rt, Request::Connect { fd: Fd(0), addr }, Reply::Ok)?;
    let got = Reply::Received {
        count: 2,
        bytes: Bytes::from_slice(alloc, b"hi")?,
        flags: MsgFlags(0),
        control: Bytes::empty(),
        from: None,
    };
    w.expect_reply(rt, receive(0), got)?;
    worker.done(rt)
}

/// A kernel of two processes.
fn two_processes(alloc: Global) -> Result<Kernel<Counter>, Fail>
    ensures { IfOk result (λ kernel. IsBootState kernel) }
{
    match Kernel::boot(alloc, Vec::new(alloc), &[USER, USER]) {
        Ok(kernel) => Ok(kernel),
        Err(_) => Err(Fail::from("no kernel")),
    }
}

#[test]
fn two_threads_wait_for_one_another(rt: HostRuntime) -> Result<(), Fail> {
    let kernel = two_processes(rt.alloc())?;
    exchange::<Brand, _>(&rt, rt.alloc(), Trail::new(rt.alloc())?, kernel)
}

fn exchange<W: BookName + Send + Sync, R: Threads + Wait + Abort + Sync>(
    rt: &R,
    alloc: Global,
    trail: Trail,
    kernel: Kernel<Counter>,
) -> Result<(), Fail>
    requires trail { trail ≡ record { id = W.trail; entries = []; given = 0 } }
    requires boots { IsBootState kernel }
    requires named { kernel ≡ W.boot }
{
    let Ok((layer, mut seats)) = start::<W, Counter, R>(rt, alloc, trail, kernel) else {
        return Err(Fail::from("no layer"));
    };
    let client = seats.pop().ok_or("no seat")?;
    let server = seats.pop().ok_or("no seat")?;
    let there = &layer;
    let (served, asked) = thread::join(
        rt,
        move || serve(rt, alloc, server),
        move || ask(rt, alloc, there, client),
    );
    let (Ok(served), Ok(asked)) = (served, asked) else {
        return Err(Fail::from("a call went wrong"));
    };
    settle(rt, alloc, &layer, served, asked)
}

/// Sees that accounts settle with both shares and all receipts, and that the layer is ended once.
fn settle<W: BookName, R: Wait + Abort>(
    rt: &R,
    alloc: Global,
    layer: &Layer<W, Counter>,
    served: Done<W>,
    asked: Done<W>,
) -> Result<(), Fail> {
    let entries = settle_both(rt, alloc, layer, served, asked);
    let ends = (layer.off(rt), layer.off(rt));
    assert_eq!(rt; entries?, 11);
    assert_eq!(rt; ends, (Ok(()), Err(OffFault::Given)));
    assert_eq!(rt; layer.book(rt).book().entries().len(), 12);
    Ok(())
}

/// How many entries the accounts settle with, which they do with both shares and all receipts, and not with one share.
fn settle_both<W: BookName, O: FileObject, R: Wait>(
    rt: &R,
    alloc: Global,
    layer: &Layer<W, O>,
    one: Done<W>,
    other: Done<W>,
) -> Result<usize, Fail> {
    let (spent, mut receipts) = one.into_parts();
    let (last, others) = other.into_parts();
    for receipt in others {
        receipts.push(receipt)?;
    }
    let mut spents = vec![in alloc; spent]?;
    ask_for_more(rt, layer, &mut spents)?;
    spents.push(last)?;
    match layer.settle_with(rt, &mut spents, &mut receipts) {
        Ok(account) => Ok(account.entries),
        Err(Missing) => Err(Fail::from("accounts don't settle")),
    }
}

/// Sees that accounts don't settle with these shares alone.
fn ask_for_more<W: BookName, O: FileObject, K: Keeper, R: Wait>(
    rt: &R,
    layer: &Layer<W, O, K>,
    spents: &mut [Spent<W>],
) -> Result<(), Fail> {
    match layer.settle(rt, spents) {
        Err(Missing) => Ok(()),
        Ok(_) => Err(Fail::from("settled too soon")),
    }
}

#[test]
fn a_call_that_needn_t_wait_is_answered(rt: HostRuntime) -> Result<(), Fail> {
    let kernel = two_processes(rt.alloc())?;
    call_once::<Brand, _>(&rt, rt.alloc(), Trail::new(rt.alloc())?, kernel)
}

fn call_once<W: BookName, R: Wait + Abort>(
    rt: &R,
    alloc: Global,
    trail: Trail,
    kernel: Kernel<Counter>,
) -> Result<(), Fail>
    requires trail { trail ≡ record { id = W.trail; entries = []; given = 0 } }
    requires boots { IsBootState kernel }
    requires named { kernel ≡ W.boot }
{
    let Ok((layer, mut seats)) = start::<W, Counter, R>(rt, alloc, trail, kernel) else {
        return Err(Fail::from("no layer"));
    };
    assert_eq!(rt; layer.off(rt), Err(OffFault::Alive));
    let seat = seats.pop().ok_or("no seat")?;
    let other = seats.pop().ok_or("no seat")?;
    assert!(rt; has_exited(rt, other));
    assert_eq!(rt; layer.off(rt), Err(OffFault::Alive));
    assert!(rt; calls_and_exits(rt, seat));
    assert_eq!(rt; layer.off(rt), Ok(()));
    assert_eq!(rt; layer.off(rt), Err(OffFault::Given));
    Ok(())
}

#[test]
fn a_blocking_call_without_memory_is_no_entry(rt: HostRuntime) -> Result<(), Fail> {
    let kernel = two_processes(rt.alloc())?;
    call_without_memory::<Brand, _>(&rt, rt.alloc(), Trail::new(rt.alloc())?, kernel)
}

fn call_without_memory<W: BookName, R: Wait + Abort>(
    rt: &R,
    alloc: Global,
    trail: Trail,
    kernel: Kernel<Counter>,
) -> Result<(), Fail>
    requires trail { trail ≡ record { id = W.trail; entries = []; given = 0 } }
    requires boots { IsBootState kernel }
    requires named { kernel ≡ W.boot }
{
    let Ok((layer, mut seats)) = start::<W, Counter, R>(rt, alloc, trail, kernel) else {
        return Err(Fail::from("no layer"));
    };
    let other = seats.pop().ok_or("no seat")?;
    let mut seat = seats.pop().ok_or("no seat")?;
    let hoard = Hoard::take_all(alloc)?;
    let fault = seat.call_blocking(rt, &receive(0)).err();
    let exited = has_exited(rt, seat);
    drop(hoard);
    assert_eq!(rt; fault, Some(CallFault::NoMemory));
    assert!(rt; exited);
    assert_eq!(rt; layer.book(rt).book().entries().len(), 1);
    assert!(rt; calls_and_exits(rt, other));
    Ok(())
}

/// Whether a seat exits with no call before.
fn has_exited<W: BookName, R: Wait>(rt: &R, seat: Seat<W, Counter>) -> bool {
    seat.exit(rt).calls() == 1
}

/// Whether calls that needn't wait are answered, and the seat exits.
fn calls_and_exits<W: BookName, R: Wait>(rt: &R, mut seat: Seat<W, Counter>) -> bool {
    let made = is_answered(rt, &mut seat, SOCKET, Reply::Fd(Fd(0)))
        && is_answered(rt, &mut seat, receive(0), Reply::Err(Errno::ENOTCONN));
    let calls = seat.calls();
    made && calls == 2 && seat.exit(rt).calls() == 3
}

/// Whether a call that doesn't wait is answered so.
fn is_answered<W: BookName, O: FileObject, R: Wait>(
    rt: &R,
    seat: &mut Seat<W, O>,
    request: Request,
    answer: Reply,
) -> bool
    requires { has_own_call request ≡ false }
{
    let called = seat.call(rt, &request);
    drop(request);
    answered(called, answer).is_ok()
}
