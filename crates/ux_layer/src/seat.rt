//! The place of one process.
ghost use Rattle.std.specs.Prelude.{◌≡◌, ◌⊎◌, true, false, [], length, IfOk, IfErr, OnErr};
ghost use Rattle.ux_model.specs.Types.{Request, Reply};
ghost use Rattle.ux_book.specs.declared.fault.CallFault.{CallFault};
ghost use Rattle.ux_book.specs.Books.{has_own_call};
ghost use Rattle.ux_book.specs.Pasts.{made, child_by, IsOf};
ghost use Rattle.ux_book.specs.Receipts.{IsSlip, IsSlipOf};
ghost use Rattle.ux_book.specs.Faults.{is_deadlock};
ghost use Rattle.ux_layer.specs.Faults.{CannotKeep, WaitsOrCannotKeep};

use crate::layer::{Shared, another};
use std::alloc::Global;
use std::marker::Model;
use std::sync::{Arc, Wait};
use ux_book::{BookName, CallFault, Entries, Keeper, Receipt, Share, Spent};
use ux_object::FileObject;
use ux_state::ReleasedObjects;
use ux_types::{Pid, Reply, Request};

/// The place of one process, by which one thread at a time makes its calls. Contracts see the process, and the calls
/// that it has made, in order.
pub struct Seat<W: BookName, O: FileObject, K: Keeper = Entries> {
    share: Share<W>,
    shared: Arc<Shared<W, O, K>, Global>,
    /// The file objects that went with a call, between the call and their drop.
    released: ReleasedObjects<O>,
}

// Written out, so that it is proved here and not in each function that drops one.
impl<W: BookName, O: FileObject, K: Keeper> Drop for Seat<W, O, K> {
    fn drop(self) {
        let Seat {
            share,
            shared,
            released,
        } = self;
        drop(share);
        drop(shared);
        drop(released)
    }
}

impl<W: BookName, O: FileObject, K: Keeper> Model for Seat<W, O, K> {
    ghost use Rattle.std.specs.Prelude.{◌≡◌, []};
    ghost use Rattle.ux_book.specs.Pasts.{Caller};

    ghost Value = { Caller };

    ghost view = { λ s. s.share };

    ghost invariant = { λ s. s.released ≡ [] };
}

impl<W: BookName, O: FileObject, K: Keeper> Seat<W, O, K> {
    /// The process.
    pub fn pid(&self) -> Pid
        ensures { result ≡ self.now.pid }
    {
        self.share.pid()
    }

    /// How many calls it has made.
    pub fn calls(&self) -> u64
        ensures { result ≡ length self.now.past }
    {
        self.share.calls()
    }

    /// Makes a call, which is an entry whatever its answer. The file objects that go with it are dropped after the
    /// lock is given back, and all who wait are woken. Some legal history from the layer's boot state has exactly the
    /// calls of this process that the seat knows then.
    ///
    /// # Errors
    ///
    /// Those of `Book::record`; no entry was made then.
    #[tactic(auto, using(crate::proofs::Faults::cannot_keep))]
    pub fn call<R: Wait>(
        &mut self,
        rt: &R,
        request: &Request,
    ) -> Result<(Reply, Receipt<W>), CallFault>
        requires { has_own_call request.now ≡ false }
        ensures past { IfOk result (λ r. self.new ≡ made self.old request.now r.0) }
        ensures of { IfOk result (λ r. IsOf W.boot self.new) }
        ensures receipt { IfOk result (λ r. IsSlipOf self.old request.now r.0 false r.1) }
        ensures shown { IfOk result (λ r. IsSlip W.boot r.1) }
        ensures not_made { IfErr result (λ f. CannotKeep W.boot self.old K.cannot_keep f) }
        ensures no_deadlock { IfErr result (λ f. is_deadlock f ≡ false) }
        ensures same { OnErr result (self.new ≡ self.old) }
    {
        let Seat {
            share,
            shared,
            released,
        } = self;
        let mut guard = shared.lock(rt);
        let desk = &mut *guard;
        let (reply, receipt) = desk.book.record(share, request, released)?;
        desk.waiters.entry_made(share.pid());
        shared.release(guard, released);
        receipt.shows();
        Ok((reply, receipt))
    }

    /// As `call`; but a call that may wait, and can't be done yet, waits until it can be. Of the history it says what
    /// `call` does, and that the call isn't one that should have waited.
    ///
    /// # Errors
    ///
    /// Those of `call`, and `Deadlock` where the seats of all processes that haven't exited wait: then this call has to
    /// wait after some legal history that has exactly the calls of this process that the seat knows.
    #[tactic(auto, using(crate::proofs::Faults::cannot_keep, crate::proofs::Faults::has_to_wait))]
    pub fn call_blocking<R: Wait>(
        &mut self,
        rt: &R,
        request: &Request,
    ) -> Result<(Reply, Receipt<W>), CallFault>
        requires { has_own_call request.now ≡ false }
        ensures past { IfOk result (λ r. self.new ≡ made self.old request.now r.0) }
        ensures of { IfOk result (λ r. IsOf W.boot self.new) }
        ensures receipt { IfOk result (λ r. IsSlipOf self.old request.now r.0 true r.1) }
        ensures shown { IfOk result (λ r. IsSlip W.boot r.1) }
        ensures not_made { IfErr result (λ f. WaitsOrCannotKeep W.boot self.old request.now K.cannot_keep f) }
        ensures same { OnErr result (self.new ≡ self.old) }
    {
        let Seat {
            share,
            shared,
            released,
        } = self;
        let mut guard = shared.lock(rt);
        let mut ticket = guard.waiters.ticket();
        for _ in rt.forever() {
            let desk = &mut *guard;
            match desk.book.try_record(share, request, released) {
                Ok(Some((reply, receipt))) => {
                    desk.waiters.entry_made(share.pid());
                    shared.release(guard, released);
                    receipt.shows();
                    return Ok((reply, receipt));
                }
                Ok(None) => {}
                Err(fault) => {
                    // It waits no more, though no entry was made.
                    desk.waiters.leave(ticket);
                    return Err(fault);
                }
            }
            let Some(again) = shared.next_entry(rt, guard, &mut ticket) else {
                return Err(CallFault::Deadlock);
            };
            guard = again;
        }
        unreachable!()
    }

    /// Makes a process that is a copy of this one (fork(2)), and gives its seat, which is there exactly where the
    /// answer is `Child`. The call is an entry whatever its answer. All allocations come before it.
    ///
    /// # Errors
    ///
    /// Those of `Book::fork`, and `NoMemory` where there is none for the new seat; no entry was made then.
    #[tactic(auto, using(crate::proofs::Faults::cannot_keep))]
    pub fn fork<R: Wait>(
        &mut self,
        rt: &R,
    ) -> Result<(Reply, Receipt<W>, Option<Seat<W, O, K>>), CallFault>
        ensures past { IfOk result (λ r. self.new ≡ made self.old Request.Fork r.0) }
        ensures of { IfOk result (λ r. IsOf W.boot self.new) }
        ensures receipt { IfOk result (λ r. IsSlipOf self.old Request.Fork r.0 false r.1) }
        ensures shown { IfOk result (λ r. IsSlip W.boot r.1) }
        ensures child { IfOk result (λ r. r.2 ≡ child_by Request.Fork r.0) }
        ensures not_made { IfErr result (λ f. (f ≡ CallFault.NoMemory) ⊎ CannotKeep W.boot self.old K.cannot_keep f) }
        ensures same { OnErr result (self.new ≡ self.old) }
    {
        let Seat {
            share,
            shared,
            released,
        } = self;
        let list = ReleasedObjects::new(shared.alloc);
        let owner = another(rt, shared);
        let mut guard = shared.lock(rt);
        let desk = &mut *guard;
        desk.waiters.reserve()?;
        let (reply, receipt, child) = desk.book.fork(share, released)?;
        desk.waiters.fork_made(share.pid(), child.is_some());
        shared.release(guard, released);
        receipt.shows();
        let seat = match child {
            Some(share) => Some(make_seat(share, owner, list)),
            None => None,
        };
        Ok((reply, receipt, seat))
    }

    /// Returns once this process has made so many calls, or has exited, or was never made and process 1 has exited.
    ///
    /// # Errors
    ///
    /// `Deadlock` where the seats of all processes that haven't exited wait.
    pub fn wait_for<R: Wait>(&self, rt: &R, pid: Pid, calls: u64) -> Result<(), CallFault>
        ensures fault { IfErr result (λ f. f ≡ CallFault.Deadlock) }
    {
        let mut guard = self.shared.lock(rt);
        let mut ticket = guard.waiters.ticket();
        for _ in rt.forever() {
            if guard.has_made(pid, calls) {
                guard.waiters.leave(ticket);
                return Ok(());
            }
            let Some(again) = self.shared.next_entry(rt, guard, &mut ticket) else {
                return Err(CallFault::Deadlock);
            };
            guard = again;
        }
        unreachable!()
    }

    /// Ends the process, which takes no memory. The file objects that go with it are dropped after the lock is given
    /// back, and all who wait are woken.
    pub fn exit<R: Wait>(self, rt: &R) -> Spent<W>
        ensures past { result ≡ made self Request.Exit Reply.Ok }
        ensures of { IsOf W.boot result }
    {
        let Seat {
            share,
            shared,
            mut released,
        } = self;
        let mut desk = shared.lock(rt);
        let spent = desk.book.exit(share, &mut released);
        desk.waiters.exit_made(spent.pid());
        shared.release(desk, &mut released);
        spent
    }
}

/// The place of a share's process, with room for what its calls let go of.
pub(crate) fn make_seat<W: BookName, O: FileObject, K: Keeper>(
    share: Share<W>,
    shared: Arc<Shared<W, O, K>, Global>,
    mut released: ReleasedObjects<O>,
) -> Seat<W, O, K>
    ensures { result ≡ share }
{
    released.clear();
    Seat {
        share,
        shared,
        released,
    }
}
