//! A process in a thread of its own.
ghost use Rattle.std.specs.Prelude.{◌≡◌, ◌⊎◌, [], true, false, length, IfOk, IfErr, OnErr};
ghost use Rattle.ux_model.specs.Types.{Request, Reply};
ghost use Rattle.ux_book.specs.Books.{has_own_call};
ghost use Rattle.ux_book.specs.Pasts.{made, IsOf};
ghost use Rattle.ux_book.specs.Receipts.{IsSlip, IsSlipOf};
ghost use Rattle.ux_book.specs.declared.fault.CallFault.{CallFault};
ghost use Rattle.ux_layer.specs.Faults.{WaitsOrCannotKeep};
ghost use Rattle.delortxa.specs.Answering.{Explains};
ghost use Rattle.delortxa.specs.Happening.{Happens};

use crate::answers::other_reply;
use crate::calls::Calls;
use crate::fault::CallError;
use crate::objects::AnyObject;
use std::alloc::Global;
use std::marker::Model;
use std::sync::Wait;
use ux_book::{BookName, CallFault, Receipt, Spent};
use ux_types::{Pid, Reply, Request};

/// The layer as a whole, beside its seats.
pub type Layer<W> = ux_layer::Layer<W, AnyObject>;

/// The place of one process, by which one thread at a time makes its calls. Each waits where that call of Linux would.
/// Contracts see the process, and the calls that it has made, in order.
pub struct Seat<W: BookName> {
    alloc: Global,
    place: ux_layer::Seat<W, AnyObject>,
}

// Written out, so that it is proved here and not in each function that drops one.
impl<W: BookName> Drop for Seat<W> {
    fn drop(self) {
        let Seat { alloc: _, place } = self;
        drop(place);
    }
}

impl<W: BookName> Model for Seat<W> {
    ghost use Rattle.ux_book.specs.Pasts.{Caller};

    ghost Value = { Caller };

    ghost view = { λ s. s.place };
}

impl<W: BookName> Seat<W> {
    /// The place, with where its requests are allocated.
    pub(crate) fn new(alloc: Global, place: ux_layer::Seat<W, AnyObject>) -> Seat<W>
        ensures { result ≡ place }
    {
        Seat { alloc, place }
    }

    /// The process.
    pub fn pid(&self) -> Pid
        ensures { result ≡ self.now.pid }
    {
        self.place.pid()
    }

    /// How many calls it has made.
    pub fn calls(&self) -> u64
        ensures { result ≡ length self.now.past }
    {
        self.place.calls()
    }

    /// Makes a call, and gives the reply with a receipt, by which the book finds the call again. A call that can't be
    /// done yet waits until it can be, where it would on Linux.
    ///
    /// # Errors
    ///
    /// No call was made then: `Deadlock` where every process that hasn't exited waits, or `NoMemory`.
    pub fn call<R: Wait>(
        &mut self,
        rt: &R,
        request: &Request,
    ) -> Result<(Reply, Receipt<W>), CallFault>
        requires own_call { has_own_call request.now ≡ false }
        ensures past { IfOk result (λ r. self.new ≡ made self.old request.now r.0) }
        ensures of { IfOk result (λ r. IsOf W.boot self.new) }
        ensures receipt { IfOk result (λ r. IsSlipOf self.old request.now r.0 true r.1) }
        ensures shown { IfOk result (λ r. IsSlip W.boot r.1) }
        ensures fault { IfErr result (λ f. WaitsOrCannotKeep W.boot self.old request.now (λ _ lacks. lacks ≡ CallFault.NoMemory) f) }
        ensures same { OnErr result (self.new ≡ self.old) }
    {
        self.place.call_blocking(rt, request)
    }

    /// fork(2): the seat of the new process, which is a copy of this one. It may go to a thread of its own.
    ///
    /// # Errors
    ///
    /// `Refused` where the layer refuses it, and `Fault` where no call was made.
    #[tactic(auto, using(crate::proofs::Calling::explains, crate::proofs::Seatings::happens, crate::proofs::Seatings::no_child, crate::specs::Replying::reply_happens))]
    pub fn fork<R: Wait>(&mut self, rt: &R) -> Result<Seat<W>, CallError>
        ensures made { IfOk result (λ child. Happens W.boot self.old self.new Request.Fork (Reply.Child child.pid) false) }
        ensures fresh { IfOk result (λ child. child.past ≡ []) }
        ensures failed { IfErr result (λ error. Explains (λ reply. Happens W.boot self.old self.new Request.Fork reply false) (λ f. f ≡ CallFault.NoMemory) self.old self.new error) }
    {
        let alloc = self.alloc;
        match self.place.fork(rt) {
            Ok((reply, receipt, child)) => {
                drop(receipt);
                match child {
                    Some(place) => {
                        drop(reply);
                        Ok(Seat { alloc, place })
                    }
                    None => Err(other_reply(reply)),
                }
            }
            Err(fault) => Err(CallError::Fault(fault)),
        }
    }

    /// _exit(2). It takes no memory. What is given knows the process's calls, for `Layer::settle`.
    pub fn exit<R: Wait>(self, rt: &R) -> Spent<W>
        ensures past { result ≡ made self Request.Exit Reply.Ok }
        ensures of { IsOf W.boot result }
    {
        let Seat { alloc: _, place } = self;
        place.exit(rt)
    }
}

impl<'r, W: BookName, R: Wait> Calls<&'r R> for Seat<W> {
    ghost use Rattle.std.specs.Prelude.{◌≡◌, true};
    ghost use Rattle.ux_book.specs.declared.fault.CallFault.{CallFault};
    ghost use Rattle.ux_layer.specs.Faults.{WaitsOrCannotKeep};
    ghost use Rattle.delortxa.specs.Happening.{Happens};
    ghost use Rattle.delortxa.specs.Replying.{reply_happens};

    ghost did = { λ _ old new request reply. Happens W.boot old new request reply true };

    ghost unmade = { λ _ old request fault. WaitsOrCannotKeep W.boot old request (λ _ f. f ≡ CallFault.NoMemory) fault };

    fn allocator(&self) -> Global {
        self.alloc
    }

    fn ask(&mut self, rt: &'r R, request: &Request) -> Result<Reply, CallFault> {
        let (reply, _receipt) = self.place.call_blocking(rt, request)?;
        Ok(reply)
    }

    ghost replies = { λ _ old new request reply happened. reply_happens W.boot old new request reply true happened };
}
