//! What each thread does: it sends itself one byte over a pair, and receives it, again and again.
ghost use Rattle.std.specs.Prelude.{◌≡◌, false, IfOk};
ghost use Rattle.ux_book.specs.Books.{has_own_call};

use anyhow::{Result, anyhow};
use std::alloc::Global;
use std::sync::Wait;
use std::thread;
use std::thread::Threads;
use ux_book::{BookName, Nothing, Receipt, Spent};
use ux_layer::Seat;
use ux_objects::MemFile;
use ux_types::{Bytes, Fd, MsgFlags, OpenFlags, Reply, Request, SockType};

/// A pair at the numbers 0 and 1.
const PAIR: Request = Request::SocketPair {
    kind: SockType::Stream,
    flags: OpenFlags(0),
};

/// The receive of a byte at 1.
const RECEIVE: Request = Request::RecvMsg {
    fd: Fd(1),
    n: 1,
    space: 0,
    flags: MsgFlags(0),
};

/// A send of a byte at 0.
fn send(alloc: Global) -> Result<Request>
    ensures { IfOk result (λ request. has_own_call request ≡ false) }
{
    Ok(Request::SendMsg {
        fd: Fd(0),
        addr: None,
        bytes: Bytes::from_slice(alloc, b"x")?,
        control: Bytes::empty(),
        flags: MsgFlags(0),
    })
}

/// What is left of a process that made its calls and exited: its share, and the receipts of its first call and of the
/// last before the exit.
pub(crate) struct Ended<W: BookName> {
    spent: Spent<W>,
    receipts: Vec<Receipt<W>>,
}

/// Written out, a drop is a call, and not each of its parts in the proof of each function that drops one.
impl<W: BookName> Drop for Ended<W> {
    fn drop(self) {
        let Ended { spent, receipts } = self;
        drop(spent);
        drop(receipts);
    }
}

impl<W: BookName> Ended<W> {
    /// Adds the share and the receipts to those of others.
    fn put(self, spents: &mut Vec<Spent<W>>, receipts: &mut Vec<Receipt<W>>) -> Result<()> {
        let Ended {
            spent,
            receipts: mine,
        } = self;
        spents.push(spent)?;
        for receipt in mine {
            receipts.push(receipt)?;
        }
        Ok(())
    }
}

/// Makes a call, which must be granted.
fn call<W: BookName, R: Wait>(
    rt: &R,
    seat: &mut Seat<W, MemFile, Nothing>,
    request: &Request,
) -> Result<Receipt<W>>
    requires { has_own_call request.now ≡ false }
{
    match seat.call(rt, request) {
        Ok((Reply::Err(refused), _receipt)) => Err(anyhow!("a call was refused: {refused}")),
        Ok((_reply, receipt)) => Ok(receipt),
        Err(fault) => Err(anyhow!("{fault}")),
    }
}

/// Sends a byte and receives it so many times and once more, and gives the receipt of the last call.
fn exchange<W: BookName, R: Wait>(
    rt: &R,
    seat: &mut Seat<W, MemFile, Nothing>,
    send: &Request,
    more: u64,
) -> Result<Receipt<W>>
    requires { has_own_call send.now ≡ false }
{
    for _ in 0..more {
        call(rt, seat, send)?;
        call(rt, seat, &RECEIVE)?;
    }
    call(rt, seat, send)?;
    call(rt, seat, &RECEIVE)
}

/// Makes so many calls over a pair, and exits.
fn work<W: BookName, R: Wait>(
    rt: &R,
    alloc: Global,
    mut seat: Seat<W, MemFile, Nothing>,
    calls: u64,
) -> Result<Ended<W>> {
    let send = send(alloc)?;
    let mut receipts = Vec::with_capacity(alloc, 2)?;
    receipts.push(call(rt, &mut seat, &PAIR)?)?;
    let more = (calls / 2).saturating_sub(1);
    receipts.push(exchange(rt, &mut seat, &send, more)?)?;
    let spent = seat.exit(rt);
    Ok(Ended { spent, receipts })
}

/// Has each seat make so many calls and exit, in a thread of its own where one can be made.
pub(crate) fn work_all<W: BookName + Send + Sync, R: Threads + Wait + Sync>(
    rt: &R,
    alloc: Global,
    seats: Vec<Seat<W, MemFile, Nothing>>,
    calls: u64,
) -> Result<Vec<Ended<W>>> {
    let mut all = Vec::with_capacity(alloc, seats.len())?;
    for ended in thread::map_vec(rt, seats, &|seat| work(rt, alloc, seat, calls))? {
        all.push(ended?)?;
    }
    Ok(all)
}

/// Adds the shares and the receipts of all to those of others.
pub(crate) fn put_all<W: BookName>(
    all: Vec<Ended<W>>,
    spents: &mut Vec<Spent<W>>,
    receipts: &mut Vec<Receipt<W>>,
) -> Result<()> {
    for ended in all {
        ended.put(spents, receipts)?;
    }
    Ok(())
}
