//! A script whose calls are made by the seats of its processes, in the order of its lines.

ghost use Rattle.std.specs.Prelude.{◌≡◌, []};
ghost use Rattle.ux_model.specs.Boot.{IsBootState};

use anyhow::{Result, anyhow};
use std::alloc::Global;
use std::sync::Wait;
use ux_book::{BookName, CallFault, Keeper, Receipt, Spent, Trail, has_own_call};
use ux_kernel::Kernel;
use ux_layer::{Layer, Seat, start, start_counting};
use ux_object::FileObject;
use ux_script::write_trace;
use ux_syntax::{Act, Script};
use ux_types::{Entry, Pid, Reply, Request};

/// The seats of the processes 1, 2 and so on, as long as they haven't exited, and what their calls left.
struct Hall<W: BookName, O: FileObject, K: Keeper> {
    seats: Vec<Option<Seat<W, O, K>>>,
    receipts: Vec<Receipt<W>>,
    spents: Vec<Spent<W>>,
    /// How many calls and exits were made.
    made: usize,
    /// Whether each call was answered as in the history of one thread.
    is_alike: bool,
}

/// Written out, a drop is a call, and not each of its parts in the proof of each function that drops one.
impl<W: BookName, O: FileObject, K: Keeper> Drop for Hall<W, O, K> {
    fn drop(self) {
        let Hall {
            seats,
            receipts,
            spents,
            made: _,
            is_alike: _,
        } = self;
        drop(seats);
        drop(receipts);
        drop(spents);
    }
}

impl<W: BookName, O: FileObject, K: Keeper> Hall<W, O, K> {
    fn new(alloc: Global, seats: Vec<Seat<W, O, K>>) -> Result<Hall<W, O, K>> {
        let mut places = Vec::new(alloc);
        for seat in seats {
            if places.push(Some(seat)).is_err() {
                return Err(anyhow!("out of memory"));
            }
        }
        Ok(Hall {
            seats: places,
            receipts: Vec::new(alloc),
            spents: Vec::new(alloc),
            made: 0,
            is_alike: true,
        })
    }

    /// What its calls left.
    fn into_parts(self) -> (Vec<Receipt<W>>, Vec<Spent<W>>) {
        let Hall {
            seats,
            receipts,
            spents,
            made: _,
            is_alike: _,
        } = self;
        drop(seats);
        (receipts, spents)
    }

    /// The place of a process's seat.
    fn place(&mut self, pid: Pid) -> Result<&mut Option<Seat<W, O, K>>> {
        match self.seats.get_mut((pid.0 as usize).wrapping_sub(1)) {
            Some(place) => Ok(place),
            None => Err(anyhow!("no such process")),
        }
    }

    /// Makes a call of a process that lives, which must be answered as the next entry of this history. The seat of a
    /// process that it makes is kept.
    fn call<R: Wait>(
        &mut self,
        rt: &R,
        history: &[Entry],
        pid: Pid,
        request: &Request,
    ) -> Result<()> {
        let Some(seat) = self.place(pid)? else {
            return Err(anyhow!("a call after the exit"));
        };
        match ask(rt, seat, request) {
            Ok((reply, receipt, child)) => {
                self.is_alike = self.is_alike && is_answer_of(history.get(self.made), reply);
                self.made = self.made.wrapping_add(1);
                self.receipts.push(receipt)?;
                self.keep(child)
            }
            Err(fault) => Err(anyhow!("{fault}")),
        }
    }

    /// Puts the seat of a process that was made behind all others, whose place is that of its number.
    fn keep(&mut self, child: Option<Seat<W, O, K>>) -> Result<()> {
        let Some(seat) = child else {
            return Ok(());
        };
        if seat.pid().0 as usize != self.seats.len().wrapping_add(1) {
            return Err(anyhow!("a process with another number"));
        }
        if self.seats.push(Some(seat)).is_err() {
            return Err(anyhow!("out of memory"));
        }
        Ok(())
    }

    /// Ends a process, if it hasn't exited.
    fn exit<R: Wait>(&mut self, rt: &R, pid: Pid) -> Result<()> {
        let Some(seat) = self.place(pid)?.take() else {
            return Ok(());
        };
        self.made = self.made.wrapping_add(1);
        self.spents.push(seat.exit(rt))?;
        Ok(())
    }

    /// Makes the calls of the script's lines. A wait is over at its turn, as the calls are made in the lines' order.
    fn make_calls<R: Wait>(&mut self, rt: &R, script: &Script, history: &[Entry]) -> Result<()> {
        for line in &script.lines {
            match &line.act {
                Act::Wait(..) => {}
                Act::Call(Request::Exit) => self.exit(rt, line.pid)?,
                Act::Call(request) => self.call(rt, history, line.pid, request)?,
            }
        }
        Ok(())
    }

    /// Ends each process that is left, by rising number.
    fn make_exits<R: Wait>(&mut self, rt: &R) -> Result<()> {
        let mut pid = Pid(0);
        for _ in 0..self.seats.len() {
            pid = Pid(pid.0.wrapping_add(1));
            self.exit(rt, pid)?;
        }
        Ok(())
    }
}

/// Makes a call that is no exit. A fork gives the seat of the process that it makes.
fn ask<W: BookName, O: FileObject, K: Keeper, R: Wait>(
    rt: &R,
    seat: &mut Seat<W, O, K>,
    request: &Request,
) -> Result<(Reply, Receipt<W>, Option<Seat<W, O, K>>), CallFault> {
    if has_own_call(request) {
        return seat.fork(rt);
    }
    match seat.call(rt, request) {
        Ok((reply, receipt)) => Ok((reply, receipt, None)),
        Err(fault) => Err(fault),
    }
}

/// Whether the entry has this reply.
fn is_answer_of(entry: Option<&Entry>, reply: Reply) -> bool {
    match entry {
        Some(entry) => entry.reply == reply,
        None => false,
    }
}

/// Makes the script's calls by these seats, and ends the layer where the script says so. Gives what the calls left,
/// where each was answered as in this history.
fn make_all<W: BookName, O: FileObject, K: Keeper, R: Wait + AllocGlobal>(
    rt: &R,
    layer: &Layer<W, O, K>,
    seats: Vec<Seat<W, O, K>>,
    script: &Script,
    history: &[Entry],
) -> Result<(Vec<Receipt<W>>, Vec<Spent<W>>)> {
    let mut hall = Hall::new(rt.alloc(), seats)?;
    hall.make_calls(rt, script, history)?;
    hall.make_exits(rt)?;
    if script.off && layer.off(rt).is_err() {
        return Err(anyhow!("the layer isn't ended"));
    }
    if !hall.is_alike {
        return Err(anyhow!("another answer"));
    }
    Ok(hall.into_parts())
}

/// Whether the layer's history has this trace, and settles with all shares and all receipts.
fn is_right<W: BookName, O: FileObject, R: Wait + AllocGlobal>(
    rt: &R,
    layer: &Layer<W, O>,
    receipts: &mut [Receipt<W>],
    spents: &mut [Spent<W>],
    wanted: &[u8],
) -> Result<bool> {
    let account = layer.settle_with(rt, spents, receipts)?;
    let guard = layer.book(rt);
    let entries = guard.book().entries();
    let mut trace: Vec<u8> = Vec::new(rt.alloc());
    write_trace(rt.alloc(), &mut trace, entries)?;
    Ok(account.entries == entries.len() && trace.as_slice() == wanted)
}

/// Whether the script has this trace when its calls are made by seats, is answered as in this history, and settles
/// then.
pub fn is_alike_by_seats<W: BookName, O: FileObject, R: Wait + AllocGlobal>(
    rt: &R,
    trail: Trail,
    kernel: Kernel<O>,
    script: &Script,
    history: &[Entry],
    wanted: &[u8],
) -> Result<bool>
    requires trail { trail ≡ record { id = W.trail; entries = []; given = 0 } }
    requires boots { IsBootState kernel }
    requires named { kernel ≡ W.boot }
{
    let Ok((layer, seats)) = start::<W, O, R>(rt, rt.alloc(), trail, kernel) else {
        return Err(anyhow!("out of memory"));
    };
    let (mut receipts, mut spents) = make_all(rt, &layer, seats, script, history)?;
    is_right(rt, &layer, &mut receipts, &mut spents, wanted)
}

/// Whether the script is answered as in this history when its calls are made by seats over a book that keeps none
/// of them, and settles then with as many entries.
pub fn is_alike_by_counting_seats<W: BookName, O: FileObject, R: Wait + AllocGlobal>(
    rt: &R,
    trail: Trail,
    kernel: Kernel<O>,
    script: &Script,
    history: &[Entry],
) -> Result<bool>
    requires trail { trail ≡ record { id = W.trail; entries = []; given = 0 } }
    requires boots { IsBootState kernel }
    requires named { kernel ≡ W.boot }
{
    let Ok((layer, seats)) = start_counting::<W, O, R>(rt, rt.alloc(), trail, kernel) else {
        return Err(anyhow!("out of memory"));
    };
    let (mut receipts, mut spents) = make_all(rt, &layer, seats, script, history)?;
    let account = layer.settle_with(rt, &mut spents, &mut receipts)?;
    Ok(account.entries == history.len())
}
