//! The book: a kernel with all that was called since it started, and the right to call as shares.
ghost use Rattle.std.specs.Prelude.{◌≡◌, ◌+◌, ◌^◌, ◌<◌, ◌≤◌, ◌++◌, ◌∷◌, [], true, false, length, map, Some, IfOk, IfErr, OnOk, OnErr, IfSome, IfNone, OnSome, IsTrue, ◌↔◌, if◌then◌else◌};
ghost use Rattle.std.specs.List.{slice_get, AllByRecursion};
ghost use Rattle.ux_model.specs.Limits.{made_limit};
ghost use Rattle.ux_model.specs.Types.{Request, Reply, Errno};
ghost use Rattle.ux_model.specs.Boot.{IsBootState};
ghost use Rattle.ux_model.specs.State.{is_live};
ghost use Rattle.ux_model.specs.Step.{Step};
ghost use Rattle.ux_model.specs.Waiting.{may_wait, is_again, should_wait};
ghost use Rattle.ux_model.specs.History.{calls_of, has_live, makes_one, IsLegal};
ghost use Rattle.ux_model.specs.HandingOut.{IsHandedOut};
ghost use Rattle.ux_book.specs.Books.{state_of, processes, may_call, ends_of, is_last, has_own_call, entry_of, Adds, MustWait};
ghost use Rattle.ux_book.specs.Pasts.{fresh, child_by, calls_by, has_exit};
ghost use Rattle.ux_book.specs.Receipts.{next_slip};
ghost use Rattle.ux_book.specs.Recording.{Knows, IsCall, IsKept, IsEnd};
ghost use Rattle.ux_book.specs.Appending.{IsAppended, IsIdle};

use crate::book_name::BookName;
use crate::fault::{CallFault, NoMemory, OffFault};
use crate::keeper::{Entries, Keeper, Nothing};
use crate::receipts::{Receipt, new_receipt};
use crate::shares::{Share, Spent, new_share};
use crate::trail::{Place, Token, Trail};
use std::alloc::{AllocError, Global};
use std::marker::{Model, PhantomData};
use ux_kernel::Kernel;
use ux_object::FileObject;
use ux_state::{ReleasedObjects, State};
use ux_types::{Done, Entry, Errno, Pid, Released, Reply, Request};

/// A kernel with the history of its calls. Contracts see the boot state and the entries, which are a legal history;
/// the kernel is at the end of them. `W` names the book, and `K` keeps the entries (`Entries`) or counts them
/// (`Nothing`).
pub struct Book<W: BookName, O: FileObject, K: Keeper = Entries> {
    pub(crate) kernel: Kernel<O>,
    pub(crate) keeper: K,
    /// All entries, which only clauses see.
    pub(crate) trail: Trail,
    /// The token of nobody, whose only call is the layer's end.
    own: Token,
    /// Whether the layer was ended.
    pub(crate) ended: bool,
    of: PhantomData<W>,
}

// Written out, so that it is proved here and not in each function that drops one.
impl<W: BookName, O: FileObject, K: Keeper> Drop for Book<W, O, K> {
    fn drop(self) {
        let Book {
            kernel,
            keeper,
            trail,
            own,
            ended: _,
            of: _,
        } = self;
        drop(kernel);
        drop(keeper);
        drop(trail);
        drop(own)
    }
}

impl<W: BookName, O: FileObject, K: Keeper> Model for Book<W, O, K> {
    ghost use Rattle.ux_book.specs.Books.{KeptHistory, IsBook};

    ghost Value = { KeptHistory };

    ghost view = { λ b. record { boot = W.boot; entries = b.trail.entries } };

    ghost invariant = { λ b. IsBook W.boot W.trail b.kernel b.trail b.own b.ended (K.room b.keeper) × K.keeps b.keeper b.trail.entries };
}

impl<W: BookName, O: FileObject> Book<W, O, Entries> {
    /// A book at the start of this kernel that keeps each entry, and a share for each of its processes.
    ///
    /// # Errors
    ///
    /// The kernel, where an allocation fails. The trail is spent.
    pub fn new(
        alloc: Global,
        trail: Trail,
        kernel: Kernel<O>,
    ) -> Result<(Book<W, O>, Vec<Share<W>>), (Kernel<O>, NoMemory)>
        requires trail { trail ≡ record { id = W.trail; entries = []; given = 0 } }
        requires boots { IsBootState kernel }
        requires named { kernel ≡ W.boot }
        ensures book { IfOk result (λ r. r.0 ≡ record { boot = kernel; entries = [] }) }
        ensures shares { IfOk result (λ r. r.1.items ≡ fresh (length kernel.processes)) }
        ensures back { IfErr result (λ f. f.0 ≡ kernel) }
    {
        let count = kernel.process_count() + 1;
        match Entries::new(alloc, count) {
            Ok(keeper) => open(alloc, keeper, trail, kernel),
            Err(_) => Err((kernel, NoMemory)),
        }
    }

    /// The entries, which are a legal history.
    pub fn entries(&self) -> &[Entry]
        ensures entries { result.now ≡ self.now.entries }
        ensures boot { self.now.boot ≡ W.boot }
        ensures legal { IsLegal self.now.boot self.now.entries }
    {
        self.keeper.entries.as_slice()
    }

    /// The entries, and nothing else of it.
    pub fn into_entries(self) -> Vec<Entry>
        ensures entries { result.items ≡ self.entries }
        ensures boot { self.boot ≡ W.boot }
        ensures legal { IsLegal self.boot self.entries }
    {
        let Book {
            kernel: _,
            keeper,
            trail: _,
            own: _,
            ended: _,
            of: _,
        } = self;
        keeper.into_entries()
    }
}

impl<W: BookName, O: FileObject> Book<W, O, Nothing> {
    /// A book at the start of this kernel that keeps no entry, and a share for each of its processes.
    ///
    /// # Errors
    ///
    /// The kernel, where an allocation fails. The trail is spent.
    pub fn counting(
        alloc: Global,
        trail: Trail,
        kernel: Kernel<O>,
    ) -> Result<(Book<W, O, Nothing>, Vec<Share<W>>), (Kernel<O>, NoMemory)>
        requires trail { trail ≡ record { id = W.trail; entries = []; given = 0 } }
        requires boots { IsBootState kernel }
        requires named { kernel ≡ W.boot }
        ensures book { IfOk result (λ r. r.0 ≡ record { boot = kernel; entries = [] }) }
        ensures shares { IfOk result (λ r. r.1.items ≡ fresh (length kernel.processes)) }
        ensures back { IfErr result (λ f. f.0 ≡ kernel) }
    {
        let _count = kernel.process_count();
        open(alloc, Nothing::new(), trail, kernel)
    }
}

impl<W: BookName, O: FileObject, K: Keeper> Book<W, O, K> {
    /// How many entries there are, which are a legal history.
    pub fn entry_count(&self) -> usize
        ensures count { result ≡ length self.now.entries }
        ensures boot { self.now.boot ≡ W.boot }
        ensures legal { IsLegal self.now.boot self.now.entries }
    {
        self.keeper.count()
    }

    /// The kernel, at the end of the history.
    pub fn into_kernel(self) -> Kernel<O>
        ensures { result ≡ state_of self }
    {
        let Book {
            kernel,
            keeper: _,
            trail: _,
            own: _,
            ended: _,
            of: _,
        } = self;
        kernel
    }

    /// How many processes were made.
    pub fn process_count(&self) -> usize
        ensures count { result ≡ processes self.now }
        ensures most { result ≤ made_limit }
    {
        self.kernel.process_count()
    }

    /// Whether a process with this number was made, and hasn't exited.
    pub fn is_live(&self, pid: Pid) -> bool
        ensures { result ≡ is_live (state_of self.now) pid.0 }
    {
        self.kernel.is_live(pid)
    }

    /// Whether some process hasn't exited.
    pub fn has_live(&self) -> bool
        ensures { result ≡ has_live (state_of self.now) }
    {
        self.kernel.has_live()
    }

    /// The state at the end of the history, to be looked at.
    pub fn state(&self) -> &State<O>
        ensures { result.now ≡ state_of self.now }
    {
        self.kernel.state()
    }

    /// Whether the layer was ended.
    pub fn has_ended(&self) -> bool
        ensures { (if result then 1 else 0) ≡ ends_of self.now.entries }
    {
        self.ended
    }

    /// Compares a receipt with the book, which looks nothing up: its entry stands at its number.
    pub fn confirm(&mut self, receipt: &mut Receipt<W>)
        ensures stands { slice_get self.old.entries receipt.old.number ≡ Some receipt.old.entry }
        ensures book { self.new ≡ self.old }
        ensures receipt { receipt.new ≡ receipt.old }
    {
        self.trail.find(&mut receipt.place);
    }

    /// Makes a call of the share's process, and keeps it as one more entry. The file objects that went with the call
    /// are put into an empty list by rising number, closed and otherwise as they were. All allocations come before
    /// the call.
    ///
    /// # Errors
    ///
    /// `NoMemory` where each entry is kept, and else `Full`, and that only after 2^62 calls. Book and share are then
    /// as before.
    pub fn record(
        &mut self,
        share: &mut Share<W>,
        request: &Request,
        released: &mut ReleasedObjects<O>,
    ) -> Result<(Reply, Receipt<W>), CallFault>
        requires call { has_own_call request.now ≡ false }
        requires empty { released.old ≡ [] }
        ensures knows { Knows W.boot self.old share.old }
        ensures call { IfOk result (λ r. IsCall W.boot self.old self.new share.old share.new request.now r.0 released.new) }
        ensures receipt { IfOk result (λ r. r.1 ≡ next_slip self.old share.old request.now r.0 false (map (λ o. o.0) released.new)) }
        ensures not_made { IfErr result (λ f. K.cannot_keep (length self.old.entries) f) }
        ensures same { OnErr result (IsKept self.old self.new share.old share.new released.new) }
    {
        match self.make(share, request, false, released) {
            Ok(Some((reply, receipt, _))) => Ok((reply, receipt)),
            Ok(None) => unreachable!(),
            Err(fault) => Err(fault),
        }
    }

    /// As `record`; but where the call may wait, and would have to, the answer is `None`, and book and share are as
    /// before.
    ///
    /// # Errors
    ///
    /// Those of `record`.
    pub fn try_record(
        &mut self,
        share: &mut Share<W>,
        request: &Request,
        released: &mut ReleasedObjects<O>,
    ) -> Result<Option<(Reply, Receipt<W>)>, CallFault>
        requires call { has_own_call request.now ≡ false }
        requires empty { released.old ≡ [] }
        ensures knows { Knows W.boot self.old share.old }
        ensures call { IfOk result (λ o. IfSome o (λ r. IsCall W.boot self.old self.new share.old share.new request.now r.0 released.new)) }
        ensures receipt { IfOk result (λ o. IfSome o (λ r. r.1 ≡ next_slip self.old share.old request.now r.0 true (map (λ o. o.0) released.new))) }
        ensures done { IfOk result (λ o. IfSome o (λ r. should_wait (state_of self.old) share.old.pid.0 request.now r.0 ≡ false)) }
        ensures waits { IfOk result (λ o. IfNone o (MustWait self.old share.old.pid request.now)) }
        ensures kept { IfOk result (λ o. IfNone o (IsKept self.old self.new share.old share.new released.new)) }
        ensures not_made { IfErr result (λ f. K.cannot_keep (length self.old.entries) f) }
        ensures same { OnErr result (IsKept self.old self.new share.old share.new released.new) }
    {
        self.recognize(share);
        // A file object that fails at a certain write doesn't count a write that isn't made.
        if self.lacks_room(share.pid, request) {
            return Ok(None);
        }
        match self.make(share, request, true, released) {
            Ok(Some((reply, receipt, _))) => Ok(Some((reply, receipt))),
            Ok(None) => Ok(None),
            Err(fault) => Err(fault),
        }
    }

    /// Makes a process that is a copy of the share's, as one more entry (fork(2)), and gives the new process's share,
    /// which has made no call yet. It is there exactly where the answer is `Child`.
    ///
    /// # Errors
    ///
    /// Those of `record`.
    pub fn fork(
        &mut self,
        share: &mut Share<W>,
        released: &mut ReleasedObjects<O>,
    ) -> Result<(Reply, Receipt<W>, Option<Share<W>>), CallFault>
        requires empty { released.old ≡ [] }
        ensures knows { Knows W.boot self.old share.old }
        ensures call { IfOk result (λ r. IsCall W.boot self.old self.new share.old share.new Request.Fork r.0 released.new) }
        ensures receipt { IfOk result (λ r. r.1 ≡ next_slip self.old share.old Request.Fork r.0 false (map (λ o. o.0) released.new)) }
        ensures child { IfOk result (λ r. r.2 ≡ child_by Request.Fork r.0) }
        ensures not_made { IfErr result (λ f. K.cannot_keep (length self.old.entries) f) }
        ensures same { OnErr result (IsKept self.old self.new share.old share.new released.new) }
    {
        match self.make(share, &Request::Fork, false, released) {
            Ok(Some(forked)) => Ok(forked),
            Ok(None) => unreachable!(),
            Err(fault) => Err(fault),
        }
    }

    /// Ends the share's process, for which there is always room: it takes no memory. The file objects that went with
    /// it are put into an empty list.
    pub fn exit(&mut self, share: Share<W>, released: &mut ReleasedObjects<O>) -> Spent<W>
        requires empty { released.old ≡ [] }
        ensures { IsCall W.boot self.old self.new share result Request.Exit Reply.Ok released.new }
    {
        let mut share = share;
        self.recognize(&mut share);
        let (pid, k, mut token) = share.into_parts();
        self.append_last(&mut token, pid, k, Request::Exit, released);
        Spent {
            pid,
            k: k + 1,
            token,
            of: PhantomData,
        }
    }

    /// Ends the layer once every process has exited, for which there is always room: it takes no memory. The file
    /// objects that were still open are put into an empty list.
    ///
    /// # Errors
    ///
    /// `Alive` exactly where a process hasn't exited, else `Given` exactly where this was done before.
    pub fn off(&mut self, released: &mut ReleasedObjects<O>) -> Result<(), OffFault>
        requires empty { released.old ≡ [] }
        ensures gone { OnOk result (has_live (state_of self.old) ≡ false) }
        ensures first { OnOk result (ends_of self.old.entries ≡ 0) }
        ensures entry { OnOk result (IsEnd self.old self.new released.new) }
        ensures alive { IfErr result (λ f. f ≡ OffFault.Alive → has_live (state_of self.old) ≡ true) }
        ensures given { IfErr result (λ f. f ≡ OffFault.Given → (has_live (state_of self.old) ≡ false) × (ends_of self.old.entries ≡ 1)) }
        ensures same { OnErr result (self.new ≡ self.old) }
        ensures none { OnErr result (released.new ≡ []) }
    {
        if self.has_live() {
            return Err(OffFault::Alive);
        }
        if self.ended {
            return Err(OffFault::Given);
        }
        self.end(released);
        Ok(())
    }

    /// Compares a share with the book, which is some steps on a word: its process lives, and its calls are those that
    /// the share knows.
    fn recognize(&mut self, share: &mut Share<W>)
        ensures knows { Knows W.boot self.old share.old }
        ensures live { is_live (state_of self.old) share.old.pid.0 ≡ true }
        ensures book { self.new ≡ self.old }
        ensures share { share.new ≡ share.old }
    {
        self.trail.check(&mut share.token);
    }

    /// Whether the call of this live process may wait now.
    fn may_wait(&self, pid: Pid, request: &Request) -> bool
        requires { is_live (state_of self.now) pid.0 ≡ true }
        ensures { result ≡ may_wait (state_of self.now) pid.0 request.now }
    {
        self.kernel.may_wait(pid, request)
    }

    /// Whether the call of this live process is a write that has to wait for room, as the file object tells.
    fn lacks_room(&self, pid: Pid, request: &Request) -> bool
        requires { is_live (state_of self.now) pid.0 ≡ true }
        ensures waits { result ≡ true → MustWait self.now pid request.now }
    {
        self.kernel.may_wait(pid, request) && self.kernel.lacks_room(pid, request)
    }

    /// Makes a call of the share's process, and gives the share of a process that it made; where it is `tried`, only
    /// if it needn't wait.
    // In the place of its call, as `append` is: an answer moves once less.
    #[inline(always)]
    pub(crate) fn make(
        &mut self,
        share: &mut Share<W>,
        request: &Request,
        tried: bool,
        released: &mut ReleasedObjects<O>,
    ) -> Result<Option<(Reply, Receipt<W>, Option<Share<W>>)>, CallFault>
        requires call { is_last request.now ≡ false }
        requires empty { released.old ≡ [] }
        ensures knows { Knows W.boot self.old share.old }
        ensures call { IfOk result (λ o. IfSome o (λ r. IsCall W.boot self.old self.new share.old share.new request.now r.0 released.new)) }
        ensures receipt { IfOk result (λ o. IfSome o (λ r. r.1 ≡ next_slip self.old share.old request.now r.0 tried (map (λ o. o.0) released.new))) }
        ensures child { IfOk result (λ o. IfSome o (λ r. r.2 ≡ child_by request.now r.0)) }
        ensures done { IfOk result (λ o. IfSome o (λ r. tried ≡ true → should_wait (state_of self.old) share.old.pid.0 request.now r.0 ≡ false)) }
        ensures tried { IfOk result (λ o. IfNone o (tried ≡ true)) }
        ensures waits { IfOk result (λ o. IfNone o (MustWait self.old share.old.pid request.now)) }
        ensures kept { IfOk result (λ o. IfNone o (IsKept self.old self.new share.old share.new released.new)) }
        ensures not_made { IfErr result (λ f. K.cannot_keep (length self.old.entries) f) }
        ensures same { OnErr result (IsKept self.old self.new share.old share.new released.new) }
    {
        self.recognize(share);
        let number = self.entry_count();
        let waits = tried && self.may_wait(share.pid, request);
        let (pid, k) = (share.pid, share.k);
        let Some((reply, place, child)) = self.append(
            &mut share.token,
            pid,
            k,
            request,
            waits,
            released,
        )?
        else {
            return Ok(None);
        };
        share.k += 1;
        Ok(Some((reply, new_receipt(number, place, tried), child)))
    }

    /// Makes the next call of a token's process, and keeps it as one more entry, whose place it gives, with the share
    /// of a process that the call made. Where it waits, and would have to, the answer is `None`.
    #[inline(always)]
    fn append(
        &mut self,
        token: &mut Token,
        pid: Pid,
        k: u64,
        request: &Request,
        waits: bool,
        released: &mut ReleasedObjects<O>,
    ) -> Result<Option<(Reply, Place, Option<Share<W>>)>, CallFault>
        requires token { (token.old.id ≡ W.trail) × (token.old.pid ≡ pid.0) }
        requires call { may_call self.old pid.0 k request.now ≡ true }
        requires last { is_last request.now ≡ false }
        requires empty { released.old ≡ [] }
        ensures appended { IfOk result (λ o. IfSome o (λ r. IsAppended W.trail self.old self.new token.old token.new pid k request.now r.0 r.1 released.new)) }
        ensures child { IfOk result (λ o. IfSome o (λ r. r.2 ≡ child_by request.now r.0)) }
        ensures done { IfOk result (λ o. IfSome o (λ r. waits ≡ true → is_again r.0 ≡ false)) }
        ensures fits { IfOk result (λ o. OnSome o (k + 1 < 2 ^ 64)) }
        ensures waits { IfOk result (λ o. IfNone o (waits ≡ true)) }
        ensures again { IfOk result (λ o. IfNone o (Step (state_of self.old) pid.0 (length self.old.entries) request.now (Reply.Err Errno.EAGAIN) [] (state_of self.old))) }
        ensures idle { IfOk result (λ o. IfNone o (IsIdle self.old self.new token.old token.new released.new)) }
        ensures not_made { IfErr result (λ f. K.cannot_keep (length self.old.entries) f) }
        ensures same { OnErr result (IsIdle self.old self.new token.old token.new released.new) }
    {
        let room = self.kernel.process_count() + 3;
        self.keeper.prepare(request, room)?;
        let number = self.keeper.count();
        let (done, numbers) = self.kernel.step(pid, number as u64, request, released);
        if waits && is_again(&done.reply) {
            drop(done);
            return Ok(None);
        }
        let place = self.trail.push(token, k, request, &done, &numbers);
        self.keeper.keep(pid, k, request, &done, numbers);
        let Done {
            reply,
            delivered: _,
        } = done;
        let child = open_child(&mut self.trail, request, &reply);
        Ok(Some((reply, place, child)))
    }

    /// Makes the last call of a process, for whose entry there is always room.
    fn append_last(
        &mut self,
        token: &mut Token,
        pid: Pid,
        k: u64,
        request: Request,
        released: &mut ReleasedObjects<O>,
    )
        requires token { (token.old.id ≡ W.trail) × (token.old.pid ≡ pid.0) }
        requires call { may_call self.old pid.0 k request ≡ true }
        requires exit { request ≡ Request.Exit }
        requires empty { released.old ≡ [] }
        ensures adds { Adds self.old self.new (entry_of (state_of self.old) pid k request Reply.Ok (map (λ o. o.0) released.new)) }
        ensures token { token.new ≡ record token.old { past = token.old.past ++ record { request = request; reply = Reply.Ok } ∷ [] } }
        ensures fits { k + 1 < 2 ^ 64 }
        ensures handed_out { AllByRecursion (IsHandedOut (state_of self.old)) released.new }
    {
        let _made = self.kernel.process_count();
        let number = self.keeper.count();
        let (done, numbers) = self.kernel.step(pid, number as u64, &request, released);
        self.trail.push(token, k, &request, &done, &numbers);
        self.keeper
            .keep_last(last_entry(pid, k, request, done, numbers));
    }

    /// Ends the layer, for which there is always room.
    fn end(&mut self, released: &mut ReleasedObjects<O>)
        requires gone { has_live (state_of self.old) ≡ false }
        requires first { ends_of self.old.entries ≡ 0 }
        requires empty { released.old ≡ [] }
        ensures { IsEnd self.old self.new released.new }
    {
        let _made = self.kernel.process_count();
        let number = self.keeper.count();
        let request = Request::Off;
        let (done, numbers) = self.kernel.step(Pid(0), number as u64, &request, released);
        self.trail.push(&mut self.own, 0, &request, &done, &numbers);
        self.keeper
            .keep_last(last_entry(Pid(0), 0, request, done, numbers));
        self.ended = true;
    }
}

/// A book at the start of this kernel, with this keeper of no entry yet.
fn open<W: BookName, O: FileObject, K: Keeper>(
    alloc: Global,
    keeper: K,
    mut trail: Trail,
    kernel: Kernel<O>,
) -> Result<(Book<W, O, K>, Vec<Share<W>>), (Kernel<O>, NoMemory)>
    requires keeps { K.keeps keeper [] }
    requires room { length kernel.processes + 1 ≤ K.room keeper }
    requires trail { trail ≡ record { id = W.trail; entries = []; given = 0 } }
    requires boots { IsBootState kernel }
    requires named { kernel ≡ W.boot }
    ensures book { IfOk result (λ r. r.0 ≡ record { boot = kernel; entries = [] }) }
    ensures shares { IfOk result (λ r. r.1.items ≡ fresh (length kernel.processes)) }
    ensures back { IfErr result (λ f. f.0 ≡ kernel) }
{
    let own = trail.open();
    match deal(alloc, &mut trail, kernel.process_count()) {
        Ok(shares) => {
            let book = Book {
                kernel,
                keeper,
                trail,
                own,
                ended: false,
                of: PhantomData,
            };
            Ok((book, shares))
        }
        Err(_) => Err((kernel, NoMemory)),
    }
}

/// Whether it is exit, off or fork, which are no calls of `Book::record`: a book has a function for each.
pub fn has_own_call(request: &Request) -> bool
    ensures { result ≡ has_own_call request.now }
{
    matches!(request, Request::Exit | Request::Off | Request::Fork)
}

/// Whether the call couldn't be done yet.
fn is_again(reply: &Reply) -> bool
    ensures { result ≡ is_again reply.now }
{
    matches!(reply, Reply::Err(Errno::EAGAIN))
}

/// The entry of a last call.
fn last_entry(pid: Pid, k: u64, request: Request, done: Done, released: Released) -> Entry
    ensures { result ≡ record { pid = pid; k = k; request = request; reply = done.reply; released = released; delivered = done.delivered } }
{
    let Done { reply, delivered } = done;
    Entry {
        pid,
        k,
        request,
        reply,
        released,
        delivered,
    }
}

/// A share for each of the processes 1 to `count`.
#[tactic(auto, using(crate::proofs::Pasts::fresh_more))]
fn deal<W: BookName>(
    alloc: Global,
    trail: &mut Trail,
    count: usize,
) -> Result<Vec<Share<W>>, AllocError>
    requires few { count ≤ made_limit }
    requires trail { trail.old ≡ record { id = W.trail; entries = []; given = 1 } }
    ensures shares { IfOk result (λ v. v.items ≡ fresh count) }
    ensures trail { OnOk result (trail.new ≡ record { id = W.trail; entries = []; given = count + 1 }) }
{
    let mut shares = Vec::new(alloc);
    for pid in 1..count as u32 + 1 {
        shares.push(new_share(Pid(pid), trail.open()))?;
    }
    Ok(shares)
}

/// The share of the process that a call made, if it made one.
fn open_child<W: BookName>(trail: &mut Trail, request: &Request, reply: &Reply) -> Option<Share<W>>
    requires id { trail.old.id ≡ W.trail }
    requires process { 0 < trail.old.given }
    requires child { IfSome (child_by request.now reply.now) (λ c. c.pid.0 ≡ trail.old.given) }
    requires none { calls_by trail.old.given trail.old.entries ≡ [] }
    ensures child { result ≡ child_by request.now reply.now }
    ensures trail { trail.new ≡ record trail.old { given = trail.old.given + (if makes_one request.now reply.now then 1 else 0) } }
{
    match (request, reply) {
        (Request::Fork, Reply::Child(pid)) => Some(new_share(*pid, trail.open())),
        _ => None,
    }
}
