//! A book whose processes take turns in one thread.
ghost use Rattle.std.specs.Prelude.{◌≡◌, ◌+◌, ◌<◌, [], true, false, length, drop, get_or, set, replicate, Some, None, Ok, IfOk, IfSome, IfNone, OnOk};
ghost use Rattle.ux_model.specs.Boot.{IsBootState};
ghost use Rattle.ux_model.specs.State.{is_live};
ghost use Rattle.ux_model.specs.Types.{Request};
ghost use Rattle.ux_model.specs.History.{calls_of, has_live, IsLegal};
ghost use Rattle.ux_book.specs.Books.{state_of, has_own_call};
ghost use Rattle.ux_orders.specs.Lists.{pids_of};
ghost use Rattle.ux_orders.specs.Threads.{asks, calls_in, Threaded};
ghost use Rattle.ux_orders.specs.declared.member.Next.{Next};
ghost use Rattle.ux_orders.specs.Crews.{Steps, IsHeld, IsLeft, IsDue, Makes, StopsAt, HasReady, AreHeld};

use crate::chooser::{Chooser, Ready};
use crate::member::{Next, is_alone, next_of};
use crate::point::spell_state;
use crate::ran::OrderFault;
use crate::spelled::Spelled;
use crate::touched::{Touched, Written, touched_by};
use std::alloc::{AllocError, Global};
use std::marker::Model;
use ux_book::{BookName, Serial, Trail, has_own_call};
use ux_kernel::Kernel;
use ux_object::FileObject;
use ux_syntax::{Act, Line};
use ux_types::{Entry, Pid, Reply, Request};

/// A book, and how far each of its processes has come in a script's lines.
pub(crate) struct Crew<'a, W: BookName, O: FileObject> {
    serial: Serial<W, O>,
    /// The place of each process in the lines, by its number: the next one behind its last call. Nobody has the
    /// number 0.
    places: Vec<usize>,
    lines: &'a [Line],
    /// The file object that the last call read or wrote.
    touched: Option<Touched>,
    written: Written,
    alloc: Global,
}

// Written out, so that it is proved here and not in each function that drops one.
impl<W: BookName, O: FileObject> Drop for Crew<'_, W, O> {
    fn drop(self) {
        let Crew {
            serial,
            places,
            lines: _,
            touched: _,
            written,
            alloc: _,
        } = self;
        drop(serial);
        drop(places);
        drop(written)
    }
}

impl<'a, W: BookName, O: FileObject> Model for Crew<'a, W, O> {
    ghost use Rattle.ux_orders.specs.Crews.{Crewed, IsCrew};

    ghost Value = { Crewed };

    ghost view = { λ c. record { book = c.serial; lines = c.lines.now } };

    ghost invariant = { λ c. IsCrew c.serial c.lines.now c.places.items };
}

/// What became of a turn.
#[derive(Clone, Copy, Debug, PartialEq, Eq)]
pub(crate) enum Turn {
    /// A line was made.
    Made,
    /// The chooser named none of the processes that may go on, or knew the point.
    BrokenOff,
    /// No process may go on.
    Idle,
}

impl<'a, W: BookName, O: FileObject> Crew<'a, W, O> {
    /// The processes of this kernel, which have all lines before them.
    ///
    /// # Errors
    ///
    /// Out of memory.
    pub(crate) fn new(
        alloc: Global,
        trail: Trail,
        kernel: Kernel<O>,
        lines: &'a [Line],
    ) -> Result<Self, OrderFault>
        requires trail { trail ≡ record { id = W.trail; entries = []; given = 0 } }
        requires boots { IsBootState kernel }
        requires named { kernel ≡ W.boot }
        ensures { IfOk result (λ crew. crew ≡ record { book = record { boot = kernel; entries = [] }; lines = lines.now }) }
    {
        let Ok(serial) = Serial::new(alloc, trail, kernel) else {
            return Err(OrderFault::NoMemory);
        };
        let written = Written::new(alloc, serial.state().object_count())?;
        let places = first_places(alloc, serial.process_count())?;
        Ok(Crew {
            serial,
            places,
            lines,
            touched: None,
            written,
            alloc,
        })
    }

    /// The entries, which threads may have made.
    pub(crate) fn entries(&self) -> &[Entry]
        ensures entries { result.now ≡ self.now.book.entries }
        ensures threaded { Threaded self.now.book.boot self.now.lines self.now.book.entries }
        ensures boot { self.now.book.boot ≡ W.boot }
    {
        self.serial.entries()
    }

    /// Whether some process hasn't exited.
    pub(crate) fn has_live(&self) -> bool
        ensures { result ≡ has_live (state_of self.now.book) }
    {
        self.serial.has_live()
    }

    /// Makes one line, of the process that the chooser names among those that may go on, after so many lines.
    ///
    /// # Errors
    ///
    /// `NoMemory`, also where a fork makes no process; `Stranger` for a line that can't be made at all.
    pub(crate) fn take_turn<C: Chooser>(
        &mut self,
        chooser: &mut C,
        made: usize,
    ) -> Result<Turn, OrderFault> {
        if chooser.is_new(made) && self.is_met(chooser)? {
            return Ok(Turn::BrokenOff);
        }
        let mut ready = self.ready()?;
        for _ in 0..ready.len() {
            let Some(place) = chooser.choose(made, &ready)? else {
                return Ok(Turn::BrokenOff);
            };
            if place >= ready.len() {
                return Ok(Turn::BrokenOff);
            }
            let chosen = ready.remove(place);
            if self.make_next(chosen.pid)? {
                self.tell(chooser)?;
                return Ok(Turn::Made);
            }
        }
        Ok(Turn::Idle)
    }

    /// Whether the chooser knows the point that the run is at.
    fn is_met<C: Chooser>(&self, chooser: &mut C) -> Result<bool, AllocError> {
        match self.point()? {
            Some(point) => chooser.is_met(point),
            None => Ok(false),
        }
    }

    /// Spells the point that the run is at: which lines are left, what was written to file objects, and the state.
    fn point(&self) -> Result<Option<Vec<u8>>, AllocError> {
        let mut out = Spelled::new(self.alloc);
        let count = self.serial.process_count();
        out.number(count as u64)?;
        for number in 0..count {
            let pid = Pid(number as u32 + 1);
            out.flag(self.serial.is_live(pid))?;
            out.number(self.place_of(pid) as u64)?;
        }
        self.written.spell(&mut out)?;
        let spelled = spell_state(self.alloc, self.serial.state(), self.entries(), out)?;
        Ok(spelled.map(Spelled::into_bytes))
    }

    /// Tells the chooser of the call that was made last.
    fn tell<C: Chooser>(&mut self, chooser: &mut C) -> Result<(), AllocError> {
        if !chooser.compares() {
            return Ok(());
        }
        let Some(entry) = self.serial.entries().last() else {
            return Ok(());
        };
        self.written.make(entry)?;
        match self.touched {
            Some(touched) => {
                self.written.add(touched, entry)?;
                chooser.hear(entry, Some(touched.number))
            }
            None => chooser.hear(entry, None),
        }
    }

    /// The processes that don't wait in a line for another one's calls: each that asks for a call.
    pub(crate) fn ready(&self) -> Result<Vec<Ready>, OrderFault>
        ensures { IfOk result (λ ready. HasReady self.now ready.items) }
    {
        let count = self.serial.process_count();
        let mut ready = Vec::with_capacity(self.alloc, count)?;
        for number in 0..count {
            if let Some(one) = self.ready_of(Pid(number as u32 + 1)) {
                ready.push(one)?;
            }
        }
        Ok(ready)
    }

    /// This process, if it asks for a call.
    fn ready_of(&self, pid: Pid) -> Option<Ready>
        ensures some { IfSome result (λ one. one.pid ≡ pid) }
        ensures none { IfNone result (asks self.now.book self.now.lines pid.0 ≡ None) }
    {
        if !self.serial.is_live(pid) {
            return None;
        }
        match self.next_of(pid) {
            Next::Wait(_) => None,
            Next::Exit => Some(Ready { pid, alone: false }),
            Next::Call(place) => Some(Ready {
                pid,
                alone: self.concerns_one(place),
            }),
        }
    }

    /// Where the lines of this process begin that it hasn't made.
    fn place_of(&self, pid: Pid) -> usize {
        place_at(&self.places, pid)
    }

    /// What this live process does next.
    fn next_of(&self, pid: Pid) -> Next
        requires { is_live (state_of self.now.book) pid.0 ≡ true }
        ensures { IsDue self.now pid result }
    {
        let from = place_at(&self.places, pid);
        next_of(&self.serial, self.lines, from, pid)
    }

    /// Whether the line is a call that concerns its process alone.
    fn concerns_one(&self, place: usize) -> bool {
        match self.lines.get(place) {
            Some(line) => match &line.act {
                Act::Call(request) => is_alone(request),
                Act::Wait(..) => false,
            },
            None => false,
        }
    }

    /// Makes the next lines of these processes, one after another, as long as none has to wait. Whether all were made.
    ///
    /// # Errors
    ///
    /// Those of `make_next`.
    pub(crate) fn make_all(&mut self, pids: &[Pid]) -> Result<bool, OrderFault>
        requires start { self.old.book.entries ≡ [] }
        ensures made { IfOk result (λ all. all ≡ true → pids_of self.new.book.entries ≡ pids.now) }
        ensures held { IfOk result (λ all. all ≡ false → StopsAt self.new pids.now) }
        ensures boot { OnOk result (self.new.book.boot ≡ self.old.book.boot) }
        ensures lines { OnOk result (self.new.lines ≡ self.old.lines) }
    {
        for pid in pids {
            if !self.make_next(*pid)? {
                return Ok(false);
            }
        }
        Ok(true)
    }

    /// Makes the next line of the first of these processes that needn't wait. Whether there was one.
    ///
    /// # Errors
    ///
    /// Those of `make_next`.
    pub(crate) fn make_any(&mut self, ready: &[Ready]) -> Result<bool, OrderFault>
        ensures made { IfOk result (λ any. any ≡ true → Makes self.old self.new) }
        ensures held { IfOk result (λ any. any ≡ false → AreHeld self.old ready.now) }
        ensures kept { IfOk result (λ any. any ≡ false → self.new ≡ self.old) }
    {
        for one in ready {
            if self.make_next(one.pid)? {
                return Ok(true);
            }
        }
        Ok(false)
    }

    /// Makes the next line of a process, where it needn't wait.
    ///
    /// # Errors
    ///
    /// `NoMemory`, also where a fork makes no process; `Stranger` for a line that can't be made at all, and for a
    /// process that doesn't live.
    pub(crate) fn make_next(&mut self, pid: Pid) -> Result<bool, OrderFault>
        ensures made { IfOk result (λ made. made ≡ true → Steps self.old self.new pid) }
        ensures held { IfOk result (λ made. made ≡ false → IsHeld self.old pid) }
        ensures kept { IfOk result (λ made. made ≡ false → self.new ≡ self.old) }
    {
        if !self.serial.is_live(pid) {
            return Err(OrderFault::Stranger);
        }
        self.touched = None;
        match self.next_of(pid) {
            Next::Wait(_) => Ok(false),
            Next::Exit => self.exit(pid),
            Next::Call(place) => self.make_line(pid, place),
        }
    }

    /// Makes the call of the line at this place, where it needn't wait.
    fn make_line(&mut self, pid: Pid, place: usize) -> Result<bool, OrderFault>
        requires live { is_live (state_of self.old.book) pid.0 ≡ true }
        requires due { IsDue self.old pid (Next.Call place) }
        ensures made { IfOk result (λ made. made ≡ true → Steps self.old self.new pid) }
        ensures held { IfOk result (λ made. made ≡ false → IsHeld self.old pid) }
        ensures kept { IfOk result (λ made. made ≡ false → self.new ≡ self.old) }
    {
        let Some(line) = self.lines.get(place) else {
            return Err(OrderFault::Stranger);
        };
        match &line.act {
            Act::Wait(..) => Err(OrderFault::Stranger),
            Act::Call(Request::Exit) => self.exit(pid),
            Act::Call(Request::Fork) => self.fork(pid, place + 1),
            Act::Call(request) if has_own_call(request) => Err(OrderFault::Stranger),
            Act::Call(request) => self.call(pid, request, place + 1),
        }
    }

    /// Makes a call, where it needn't wait. The process's next lines begin at this place.
    fn call(&mut self, pid: Pid, request: &Request, behind: usize) -> Result<bool, OrderFault>
        requires call { has_own_call request.now ≡ false }
        requires asked { asks self.old.book self.old.lines pid.0 ≡ Some request.now }
        requires left { IsLeft pid.0 (calls_of pid.0 self.old.book.entries + 1) self.old.lines (drop behind self.old.lines) }
        ensures made { IfOk result (λ made. made ≡ true → Steps self.old self.new pid) }
        ensures held { IfOk result (λ made. made ≡ false → IsHeld self.old pid) }
        ensures kept { IfOk result (λ made. made ≡ false → self.new ≡ self.old) }
    {
        // It says that the entries are a legal history.
        let _entries = self.serial.entries();
        self.touched = touched_by(self.serial.state(), pid, request);
        match self.serial.try_call(pid, request) {
            Ok(Some(_)) => {
                set_place(&mut self.places, pid, behind);
                Ok(true)
            }
            Ok(None) => Ok(false),
            Err(_) => Err(OrderFault::NoMemory),
        }
    }

    /// Makes a fork, whose child has all lines before it. The process's next lines begin at this place.
    fn fork(&mut self, pid: Pid, behind: usize) -> Result<bool, OrderFault>
        requires asked { asks self.old.book self.old.lines pid.0 ≡ Some Request.Fork }
        requires left { IsLeft pid.0 (calls_of pid.0 self.old.book.entries + 1) self.old.lines (drop behind self.old.lines) }
        ensures made { IfOk result (λ made. made ≡ true → Steps self.old self.new pid) }
        ensures done { OnOk result (result ≡ Ok true) }
    {
        // It says that the entries are a legal history, by which the new process has made no call.
        let _entries = self.serial.entries();
        self.places.push(0)?;
        let Ok(reply) = self.serial.fork(pid) else {
            return Err(OrderFault::NoMemory);
        };
        set_place(&mut self.places, pid, behind);
        match reply {
            Reply::Child(child) => {
                set_place(&mut self.places, child, 0);
                Ok(true)
            }
            _ => Err(OrderFault::NoMemory),
        }
    }

    /// Makes the exit of a process.
    fn exit(&mut self, pid: Pid) -> Result<bool, OrderFault>
        requires asked { asks self.old.book self.old.lines pid.0 ≡ Some Request.Exit }
        ensures made { IfOk result (λ made. made ≡ true → Steps self.old self.new pid) }
        ensures done { OnOk result (result ≡ Ok true) }
    {
        // It says that the entries are a legal history.
        let _entries = self.serial.entries();
        match self.serial.exit(pid) {
            Ok(()) => Ok(true),
            Err(_) => Err(OrderFault::Stranger),
        }
    }

    /// The entries, and nothing else of it; where the layer is to be ended, with that as the last. No process may be
    /// left then.
    pub(crate) fn into_history(self, off: bool) -> Result<Vec<Entry>, OrderFault>
        ensures legal { IfOk result (λ entries. IsLegal W.boot entries.items) }
        ensures calls { IfOk result (λ entries. calls_in entries.items ≡ self.entry.book.entries) }
    {
        let Crew {
            mut serial,
            places: _,
            lines: _,
            touched: _,
            written: _,
            alloc: _,
        } = self;
        if off && serial.off().is_err() {
            return Err(OrderFault::Stranger);
        }
        Ok(serial.into_entries())
    }

    /// The processes that are left, each with the line that it waits in.
    pub(crate) fn waits(&self) -> Result<Vec<(Pid, usize)>, OrderFault> {
        let count = self.serial.process_count();
        let mut waits = Vec::new(self.alloc);
        for number in 0..count {
            if let Some(wait) = self.wait_of(Pid(number as u32 + 1)) {
                waits.push(wait)?;
            }
        }
        Ok(waits)
    }

    /// A process that hasn't exited, and the line that it comes to next.
    fn wait_of(&self, pid: Pid) -> Option<(Pid, usize)> {
        if !self.serial.is_live(pid) {
            return None;
        }
        match self.next_of(pid) {
            Next::Wait(place) | Next::Call(place) => {
                let line = self.lines.get(place)?;
                Some((pid, line.number))
            }
            Next::Exit => None,
        }
    }
}

/// Place 0 for each of the processes 1 to `count`, and for nobody.
fn first_places(alloc: Global, count: usize) -> Result<Vec<usize>, AllocError>
    ensures { IfOk result (λ places. places.items ≡ replicate (count + 1) 0) }
{
    let mut places = Vec::new(alloc);
    places.push(0)?;
    for _number in 0..count {
        places.push(0)?;
    }
    Ok(places)
}

/// The place of a process; without one, the beginning.
fn place_at(places: &[usize], pid: Pid) -> usize
    ensures { result ≡ get_or places.now pid.0 0 }
{
    match places.get(pid.0 as usize) {
        Some(place) => *place,
        None => 0,
    }
}

/// Sets the place of a process.
fn set_place(places: &mut Vec<usize>, pid: Pid, place: usize)
    requires { pid.0 < length places.old.items }
    ensures { places.new.items ≡ set places.old.items pid.0 place }
{
    places[pid.0 as usize] = place;
}
