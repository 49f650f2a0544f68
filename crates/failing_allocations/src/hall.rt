//! A script whose calls are made by the seats of its processes, with little memory or with none.

ghost use Rattle.std.specs.Prelude.{◌≡◌, []};
ghost use Rattle.ux_model.specs.Boot.{IsBootState};

use crate::scarcity::{STEPS, Supply, bytes_at};
use anyhow::{Result, anyhow};
use hoard::Purse;
use std::alloc::{AllocError, Global};
use std::sync::Wait;
use ux_book::{BookName, CallFault, Receipt, Spent, Trail, copy_entries, has_own_call};
use ux_kernel::Kernel;
use ux_layer::{Layer, Seat, start};
use ux_objects::Plain;
use ux_syntax::{Act, Script};
use ux_types::{Entry, Errno, Pid, Reply, Request};

/// A layer, the seats of its processes as long as they haven't exited, and what their calls left.
struct Hall<W: BookName> {
    layer: Layer<W, Plain>,
    seats: Vec<Option<Seat<W, Plain>>>,
    receipts: Vec<Receipt<W>>,
    spents: Vec<Spent<W>>,
    /// How many calls lacked memory.
    failures: usize,
}

/// Written out, a drop is a call, and not each of its parts in the proof of each function that drops one.
impl<W: BookName> Drop for Hall<W> {
    fn drop(self) {
        let Hall {
            layer,
            seats,
            receipts,
            spents,
            failures: _,
        } = self;
        drop(seats);
        drop(receipts);
        drop(spents);
        drop(layer);
    }
}

/// How a call went.
#[derive(Clone, Copy, PartialEq, Eq)]
enum Made {
    Answered,
    /// An allocation failed: the book didn't make the call, and there is no entry, or the kernel answered ENOMEM, and there
    /// is one.
    OutOfMemory,
}

impl<W: BookName> Hall<W> {
    /// Room for what so many calls leave, and for the seats that they make, is taken here.
    fn new(
        alloc: Global,
        layer: Layer<W, Plain>,
        seats: Vec<Seat<W, Plain>>,
        calls: usize,
    ) -> Result<Hall<W>> {
        let most = seats.len().saturating_add(calls);
        let mut places = Vec::with_capacity(alloc, most)?;
        let spents = Vec::with_capacity(alloc, most)?;
        for seat in seats {
            if places.push(Some(seat)).is_err() {
                return Err(anyhow!("out of memory"));
            }
        }
        Ok(Hall {
            layer,
            seats: places,
            receipts: Vec::with_capacity(alloc, calls)?,
            spents,
            failures: 0,
        })
    }

    /// How many entries the history has.
    fn entries<R: Wait>(&self, rt: &R) -> usize {
        self.layer.book(rt).book().entries().len()
    }

    /// The seat of a process that hasn't exited.
    fn seat(&mut self, pid: Pid) -> Option<&mut Seat<W, Plain>> {
        match self.seats.get_mut((pid.0 as usize).wrapping_sub(1)) {
            Some(Some(seat)) => Some(seat),
            _ => None,
        }
    }

    /// Makes a call that is no exit, and sees that it counts where an entry was made, and not where none was. Where so
    /// many bytes are named, no more is left for it.
    fn call<R: Wait + AllocGlobal>(
        &mut self,
        rt: &R,
        purse: &mut Purse,
        bytes: Option<usize>,
        pid: Pid,
        request: &Request,
    ) -> Result<Made> {
        let before = self.entries(rt);
        let Some(seat) = self.seat(pid) else {
            return Err(anyhow!("a call after the exit"));
        };
        let calls = seat.calls();
        if let Some(bytes) = bytes {
            purse.leave(rt.alloc(), bytes);
        }
        let answer = ask(rt, seat, request);
        if bytes.is_some() {
            purse.open();
        }
        let counted = seat.calls().wrapping_sub(calls);
        let entered = self.entries(rt).wrapping_sub(before);
        match answer {
            Ok((reply, receipt, child)) => {
                let refused = matches!(reply, Reply::Err(Errno::ENOMEM));
                drop(reply);
                self.receipts.push(receipt)?;
                if (counted, entered) != (1, 1) {
                    return Err(anyhow!("an answer without an entry"));
                }
                self.keep(child)?;
                Ok(if refused {
                    Made::OutOfMemory
                } else {
                    Made::Answered
                })
            }
            Err(CallFault::NoMemory) if (counted, entered) == (0, 0) => Ok(Made::OutOfMemory),
            Err(fault) => Err(anyhow!("{fault}")),
        }
    }

    /// Puts the seat of a process that was made behind all others, whose place is that of its number.
    fn keep(&mut self, child: Option<Seat<W, Plain>>) -> Result<()> {
        let Some(seat) = child else {
            return Ok(());
        };
        if seat.pid().0 as usize != self.seats.len().wrapping_add(1) {
            return Err(anyhow!("a process with another number"));
        }
        if self.seats.push(Some(seat)).is_err() {
            return Err(anyhow!("out of memory"));
        }
        Ok(())
    }

    /// Makes a call with no memory, and with more while an allocation fails.
    fn call_at_last<R: Wait + AllocGlobal>(
        &mut self,
        rt: &R,
        purse: &mut Purse,
        pid: Pid,
        request: &Request,
    ) -> Result<()> {
        for step in 0..STEPS {
            if self.call(rt, purse, Some(bytes_at(step)), pid, request)? == Made::Answered {
                return Ok(());
            }
            self.failures = self.failures.saturating_add(1);
        }
        // It wants more than a purse leaves.
        if self.call(rt, purse, None, pid, request)? == Made::OutOfMemory {
            return Err(anyhow!("out of memory with ample memory"));
        }
        Ok(())
    }

    /// Ends a process, if it hasn't exited.
    fn exit<R: Wait>(&mut self, rt: &R, pid: Pid) -> Result<()> {
        let Some(place) = self.seats.get_mut((pid.0 as usize).wrapping_sub(1)) else {
            return Ok(());
        };
        let Some(seat) = place.take() else {
            return Ok(());
        };
        self.spents.push(seat.exit(rt))?;
        Ok(())
    }

    /// Makes a line's call, which is the script's call of this number. A process that no fork made for lack
    /// of memory makes none.
    fn make<R: Wait + AllocGlobal>(
        &mut self,
        rt: &R,
        purse: &mut Purse,
        supply: Supply,
        number: usize,
        pid: Pid,
        request: &Request,
    ) -> Result<()> {
        if matches!(supply, Supply::NoneAfter(calls) if calls == number) {
            purse.refill(rt.alloc());
        }
        if matches!(request, Request::Exit) {
            return self.exit(rt, pid);
        }
        match supply {
            Supply::NoneAfter(_) if pid.0 as usize > self.seats.len() => Ok(()),
            Supply::Scarce(_) => self.call_at_last(rt, purse, pid, request),
            Supply::NoneAfter(calls) if calls <= number => {
                self.call(rt, purse, None, pid, request)?;
                Ok(())
            }
            Supply::Ample | Supply::NoneAfter(_) => {
                if self.call(rt, purse, None, pid, request)? == Made::OutOfMemory {
                    return Err(anyhow!("out of memory with ample memory"));
                }
                Ok(())
            }
        }
    }

    /// Makes the calls of the script's lines.
    fn make_calls<R: Wait + AllocGlobal>(
        &mut self,
        rt: &R,
        purse: &mut Purse,
        supply: Supply,
        script: &Script,
    ) -> Result<()> {
        for (number, line) in script.lines.iter().enumerate() {
            if let Act::Call(request) = &line.act {
                self.make(rt, purse, supply, number, line.pid, request)?;
            }
        }
        Ok(())
    }

    /// Ends each process that is left, and the layer.
    fn make_ends<R: Wait>(&mut self, rt: &R) -> Result<()> {
        let mut pid = Pid(0);
        for _ in 0..self.seats.len() {
            pid = Pid(pid.0.wrapping_add(1));
            self.exit(rt, pid)?;
        }
        match self.layer.off(rt) {
            Ok(()) => Ok(()),
            Err(fault) => Err(anyhow!("{fault}")),
        }
    }

    /// Settles the layer, which has ended, with the memory that there is; then gives all memory, and the history.
    fn finish<R: Wait + AllocGlobal>(self, rt: &R, purse: &mut Purse) -> Result<Vec<Entry>> {
        let Hall {
            layer,
            seats,
            mut receipts,
            mut spents,
            failures: _,
        } = self;
        drop(seats);
        let settled = layer.settle_with(rt, &mut spents, &mut receipts);
        purse.open();
        let guard = layer.book(rt);
        let entries = guard.book().entries();
        match settled {
            Ok(account) if account.entries == entries.len() => Ok(copy_entries(
                rt.alloc(),
                entries,
            )?),
            Ok(_account) => Err(anyhow!("an entry is lost")),
            Err(fault) => Err(anyhow!("{fault}")),
        }
    }
}

/// Makes a call that is no exit. A fork gives the seat of the process that it makes.
fn ask<W: BookName, R: Wait>(
    rt: &R,
    seat: &mut Seat<W, Plain>,
    request: &Request,
) -> Result<(Reply, Receipt<W>, Option<Seat<W, Plain>>), CallFault> {
    if has_own_call(request) {
        return seat.fork(rt);
    }
    match seat.call(rt, request) {
        Ok((reply, receipt)) => Ok((reply, receipt, None)),
        Err(fault) => Err(fault),
    }
}

/// Makes a script's calls by seats with so much memory, ends the layer, and gives its history; none where it
/// didn't start for lack of memory, and the kernel came back with its processes.
pub fn run_by_seats<W: BookName, R: Wait + AllocGlobal>(
    rt: &R,
    trail: Trail,
    kernel: Kernel<Plain>,
    purse: &mut Purse,
    script: &Script,
    supply: Supply,
) -> Result<Option<Vec<Entry>>>
    requires trail { trail ≡ record { id = W.trail; entries = []; given = 0 } }
    requires boots { IsBootState kernel }
    requires named { kernel ≡ W.boot }
{
    let alloc = rt.alloc();
    if let Supply::Scarce(bytes) = supply {
        purse.leave(alloc, bytes);
    }
    let started = start::<W, Plain, R>(rt, alloc, trail, kernel);
    purse.open();
    let (layer, seats) = match started {
        Ok(made) => made,
        Err((kernel, _)) if kernel.has_live() => return Ok(None),
        Err(_) => return Err(anyhow!("another kernel comes back")),
    };
    let mut hall = Hall::new(alloc, layer, seats, script.lines.len())?;
    hall.make_calls(rt, purse, supply, script)?;
    if matches!(supply, Supply::Scarce(_)) {
        if hall.failures == 0 {
            return Err(anyhow!("no call lacks memory"));
        }
        purse.refill(alloc);
    }
    hall.make_ends(rt)?;
    Ok(Some(hall.finish(rt, purse)?))
}
