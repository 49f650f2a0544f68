//! A session.
ghost use Rattle.std.specs.Prelude.{◌≡◌, ◌+◌, ◌++◌, ◌∷◌, [], true, false, length, Some, None, IfOk, OnOk, IfErr, OnErr, unwrap_or};
ghost use Rattle.std.specs.List.{All};
ghost use Rattle.ux_model.specs.History.{IsLegal};
ghost use Rattle.ux_session.specs.declared.fault.SessionFault.{SessionFault};
ghost use Rattle.ux_session.specs.Sessions.{has_number, without, refusal, refusal_of, IsSound, IsHeld, AreHeld, Extends};
ghost use Rattle.ux_session.specs.Making.{Makes, Pends};

use crate::asking::{drop_numbered, go_on, has_number, make_call, make_or_wait};
use crate::fault::SessionFault;
use crate::order::Order;
use crate::pending::{Made, Pending};
use std::alloc::Global;
use std::marker::Model;
use ux_book::{BookName, Serial};
use ux_object::FileObject;
use ux_types::{Pid, Request};

/// A history that grows by the calls that are asked for, and the calls that are pending. Contracts see the history, the pending
/// calls in the order of asking, whether of several that needn't wait the one goes first that was asked for first, and
/// whether memory ran out before it was seen of each pending call that it has to wait.
pub struct Session<W: BookName, O: FileObject> {
    alloc: Global,
    serial: Serial<W, O>,
    calls: Vec<Pending>,
    order: Order,
    stalled: bool,
}

// Written out, so that it is proved here and not in each function that drops one.
impl<W: BookName, O: FileObject> Drop for Session<W, O> {
    fn drop(self) {
        let Session {
            alloc: _,
            serial,
            calls,
            order,
            stalled: _,
        } = self;
        drop(serial);
        drop(calls);
        drop(order)
    }
}

impl<W: BookName, O: FileObject> Model for Session<W, O> {
    ghost use Rattle.ux_session.specs.Sessions.{Sessioned, IsSession, is_asked};

    ghost Value = { Sessioned };

    ghost view = { λ s. record { book = s.serial; pending = s.calls.items; asked = is_asked s.order; stalled = s.stalled } };

    ghost invariant = { λ s. IsSession (record { book = s.serial; pending = s.calls.items; asked = is_asked s.order; stalled = s.stalled }) };
}

impl<W: BookName, O: FileObject> Session<W, O> {
    /// A session that goes on where this history ends. Nothing is pending. Of several calls that needn't wait the one will go
    /// first that was asked for first.
    pub fn new(alloc: Global, serial: Serial<W, O>) -> Session<W, O>
        ensures { result ≡ record { book = serial; pending = []; asked = true; stalled = false } }
    {
        Session {
            alloc,
            serial,
            calls: Vec::new(alloc),
            order: Order::Asked,
            stalled: false,
        }
    }

    /// The history and its state.
    pub fn serial(&self) -> &Serial<W, O>
        ensures { result.now ≡ self.now.book }
    {
        &self.serial
    }

    /// The pending calls, in the order of asking.
    pub fn pending(&self) -> &[Pending]
        ensures pending { result.now ≡ self.now.pending }
        // Each is of a process that lives.
        ensures sound { All (IsSound self.now.book) self.now.pending }
        // Each has to wait now: no wakeup is lost.
        ensures held { self.now.stalled ≡ false → AreHeld self.now }
    {
        &self.calls
    }

    /// Whether a pending call has this number.
    pub fn is_pending(&self, number: u32) -> bool
        ensures { result ≡ has_number self.now.pending number }
    {
        has_number(&self.calls, number)
    }

    /// Whether memory ran out before it was seen of each pending call that it has to wait. The next call tries them again.
    pub fn is_stalled(&self) -> bool
        ensures { result ≡ self.now.stalled }
    {
        self.stalled
    }

    /// Makes a call at once, and behind it the pending calls that needn't wait any more. Pending calls of a process whose exit
    /// it is are dropped first.
    ///
    /// # Errors
    ///
    /// `NoCall` and `Stranger` exactly where the request has that fault, else `NoMemory`. Nothing has changed then.
    pub fn call(&mut self, pid: Pid, request: &Request) -> Result<Made, SessionFault>
        // The call asked for is the next entry, and those behind it answer pending calls.
        ensures made { IfOk result (λ made. Makes self.old self.new pid request.now None made.answered.items) }
        // What was there stays in front, and the entries that were made stand behind it, as many as are told.
        ensures behind { IfOk result (λ made. Extends self.old.book self.new.book made.from (length made.answered.items)) }
        ensures legal { OnOk result (IsLegal self.new.book.boot self.new.book.entries) }
        // Each call that is pending then has to wait in the state that is reached: no wakeup is lost.
        ensures held { OnOk result (self.new.stalled ≡ false → AreHeld self.new) }
        ensures sound { OnOk result (refusal self.old pid request.now ≡ None) }
        ensures fault { IfErr result (λ f. f ≡ unwrap_or (refusal self.old pid request.now) SessionFault.NoMemory) }
        ensures same { OnErr result (self.new ≡ self.old) }
    {
        if let Some(fault) = self.refusal(pid, request) {
            return Err(fault);
        }
        let mut answered = Vec::with_capacity(self.alloc, 1)?;
        let from = self.serial.entries().len();
        make_call(&mut self.serial, pid, request)?;
        answered.push_reserved(None);
        self.stalled = !go_on(
            &mut self.serial,
            &mut self.calls,
            &mut self.order,
            pid,
            request,
            &mut answered,
        );
        Ok(Made { from, answered })
    }

    /// Makes a call as soon as it needn't wait: at once where it needn't wait now or never waits, else behind a later call.
    /// Behind it are made the pending calls that needn't wait any more.
    ///
    /// # Errors
    ///
    /// `InUse`, `NoCall` and `Stranger` exactly where the request has that fault, of several the first of these, else
    /// `NoMemory`. Nothing has changed then.
    pub fn pend(&mut self, call: Pending) -> Result<Made, SessionFault>
        // It is the next entry and needn't wait, or it is pending from now on, has to wait, and nothing else has changed.
        ensures made { IfOk result (λ made. Pends self.old self.new call made.answered.items) }
        ensures behind { IfOk result (λ made. Extends self.old.book self.new.book made.from (length made.answered.items)) }
        ensures legal { OnOk result (IsLegal self.new.book.boot self.new.book.entries) }
        ensures held { OnOk result (self.new.stalled ≡ false → AreHeld self.new) }
        ensures sound { OnOk result (refusal_of self.old call ≡ None) }
        ensures fault { IfErr result (λ f. f ≡ unwrap_or (refusal_of self.old call) SessionFault.NoMemory) }
        ensures same { OnErr result (self.new ≡ self.old) }
    {
        if has_number(&self.calls, call.number) {
            return Err(SessionFault::InUse);
        }
        if let Some(fault) = self.refusal(call.pid, &call.request) {
            return Err(fault);
        }
        let mut answered = Vec::with_capacity(self.alloc, 1)?;
        self.calls.reserve(1)?;
        let from = self.serial.entries().len();
        if !make_or_wait(&mut self.serial, &call)? {
            self.calls.push_reserved(call);
            return Ok(Made { from, answered });
        }
        answered.push_reserved(Some(call.number));
        self.stalled = !go_on(
            &mut self.serial,
            &mut self.calls,
            &mut self.order,
            call.pid,
            &call.request,
            &mut answered,
        );
        Ok(Made { from, answered })
    }

    /// Lets the pending call with this number never be made.
    ///
    /// # Errors
    ///
    /// `NotPending` exactly where none has it.
    pub fn cancel(&mut self, number: u32) -> Result<(), SessionFault>
        // It isn't pending any more, and nothing else has changed.
        ensures gone { OnOk result (self.new ≡ record self.old { pending = without number self.old.pending }) }
        ensures found { OnOk result (has_number self.old.pending number ≡ true) }
        ensures held { self.new.stalled ≡ false → AreHeld self.new }
        ensures fault { IfErr result (λ f. (f ≡ SessionFault.NotPending) × (has_number self.old.pending number ≡ false)) }
        ensures same { OnErr result (self.new ≡ self.old) }
    {
        if !has_number(&self.calls, number) {
            return Err(SessionFault::NotPending);
        }
        drop_numbered(&mut self.calls, number);
        Ok(())
    }

    /// From here on, of several pending calls that needn't wait the next is drawn by this seed: the same for the same seed.
    pub fn order(&mut self, seed: u64)
        ensures { self.new ≡ record self.old { asked = false } }
    {
        self.order = Order::of_seed(seed);
    }

    /// Which fault a request has of itself.
    fn refusal(&self, pid: Pid, request: &Request) -> Option<SessionFault>
        ensures { result ≡ refusal self.now pid request.now }
    {
        if let Request::Off = request {
            return Some(SessionFault::NoCall);
        }
        if self.serial.is_live(pid) {
            None
        } else {
            Some(SessionFault::Stranger)
        }
    }
}
