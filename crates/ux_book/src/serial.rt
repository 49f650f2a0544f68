//! A book by which one thread makes the calls of all processes.
ghost use Rattle.std.specs.Prelude.{◌≡◌, ◌<◌, ◌≤◌, ◌∷◌, [], false, true, map, Some, None, IfOk, IfErr, IfSome, IfNone, OnOk, OnErr, length, if◌then◌else◌};
ghost use Rattle.ux_model.specs.Types.{Request, Reply};
ghost use Rattle.ux_model.specs.Boot.{IsBootState};
ghost use Rattle.ux_model.specs.Limits.{made_limit};
ghost use Rattle.ux_model.specs.Places.{place, filled, emptied};
ghost use Rattle.ux_model.specs.State.{is_live};
ghost use Rattle.ux_model.specs.Waiting.{should_wait};
ghost use Rattle.ux_model.specs.History.{calls_of, has_live, IsLegal};
ghost use Rattle.ux_book.specs.declared.fault.CallFault.{CallFault};
ghost use Rattle.ux_book.specs.declared.fault.OffFault.{OffFault};
ghost use Rattle.ux_book.specs.Books.{state_of, processes, ends_of, has_own_call, MustWait};
ghost use Rattle.ux_book.specs.Recording.{IsCall, IsKept};
ghost use Rattle.ux_book.specs.Pasts.{made};
ghost use Rattle.ux_book.specs.Sitting.{Answers, IsFault, Forks};

use crate::book::Book;
use crate::book_name::BookName;
use crate::fault::{CallFault, NoMemory, OffFault};
use crate::shares::Share;
use crate::trail::Trail;
use std::alloc::{AllocError, Global};
use std::marker::Model;
use ux_kernel::Kernel;
use ux_object::FileObject;
use ux_state::{ReleasedObjects, State};
use ux_types::{Entry, Pid, Reply, Request};

/// A book with the share of each process that hasn't exited. Contracts see the book.
pub struct Serial<W: BookName, O: FileObject> {
    book: Book<W, O>,
    /// The share of each process at the place of its number, until its exit. No process has the number 0. There may
    /// be places without a process behind all others.
    shares: Vec<Option<Share<W>>>,
    /// What the last call released, until the next one.
    released: ReleasedObjects<O>,
}

// Written out, so that it is proved here and not in each function that drops one.
impl<W: BookName, O: FileObject> Drop for Serial<W, O> {
    fn drop(self) {
        let Serial {
            book,
            shares,
            released,
        } = self;
        drop(book);
        drop(shares);
        drop(released)
    }
}

impl<W: BookName, O: FileObject> Model for Serial<W, O> {
    ghost use Rattle.ux_book.specs.Books.{KeptHistory};
    ghost use Rattle.ux_book.specs.Sitting.{HasShares};

    ghost Value = { KeptHistory };

    ghost view = { λ s. s.book };

    ghost invariant = { λ s. HasShares s.book s.shares.items };
}

impl<W: BookName, O: FileObject> Serial<W, O> {
    /// A book at the start of this kernel.
    ///
    /// # Errors
    ///
    /// Out of memory.
    pub fn new(alloc: Global, trail: Trail, kernel: Kernel<O>) -> Result<Serial<W, O>, NoMemory>
        requires trail { trail ≡ record { id = W.trail; entries = []; given = 0 } }
        requires boots { IsBootState kernel }
        requires named { kernel ≡ W.boot }
        ensures { IfOk result (λ s. s ≡ record { boot = kernel; entries = [] }) }
    {
        let Ok((book, shares)) = Book::new(alloc, trail, kernel) else {
            return Err(NoMemory);
        };
        let Ok(shares) = by_number(alloc, shares) else {
            return Err(NoMemory);
        };
        let released = ReleasedObjects::new(alloc);
        Ok(Serial {
            book,
            shares,
            released,
        })
    }

    /// The entries, which are a legal history.
    pub fn entries(&self) -> &[Entry]
        ensures entries { result.now ≡ self.now.entries }
        ensures boot { self.now.boot ≡ W.boot }
        ensures legal { IsLegal self.now.boot self.now.entries }
    {
        self.book.entries()
    }

    /// The entries, and nothing else of it.
    pub fn into_entries(self) -> Vec<Entry>
        ensures entries { result.items ≡ self.entries }
        ensures boot { self.boot ≡ W.boot }
        ensures legal { IsLegal self.boot self.entries }
    {
        let Serial {
            book,
            shares: _,
            released: _,
        } = self;
        book.into_entries()
    }

    /// Whether a process with this number was made, and hasn't exited.
    pub fn is_live(&self, pid: Pid) -> bool
        ensures { result ≡ is_live (state_of self.now) pid.0 }
    {
        self.book.is_live(pid)
    }

    /// Whether some process hasn't exited.
    pub fn has_live(&self) -> bool
        ensures { result ≡ has_live (state_of self.now) }
    {
        self.book.has_live()
    }

    /// How many calls a process with this number has made, if it was made and hasn't exited.
    pub fn calls(&self, pid: Pid) -> Option<u64>
        ensures { result ≡ (if is_live (state_of self.now) pid.0 then Some (calls_of pid.0 self.now.entries) else None) }
    {
        match share_at(&self.shares, pid) {
            Some(share) => Some(share.calls()),
            None => None,
        }
    }

    /// The state at the end of the history, to be looked at.
    pub fn state(&self) -> &State<O>
        ensures { result.now ≡ state_of self.now }
    {
        self.book.state()
    }

    /// How many processes were made.
    pub fn process_count(&self) -> usize
        ensures count { result ≡ processes self.now }
        ensures most { result ≤ made_limit }
    {
        self.book.process_count()
    }

    /// Makes a call of this process, and keeps it as one more entry. What the call before released is dropped first.
    ///
    /// # Errors
    ///
    /// `Stranger` exactly where no live process has this number, else `NoMemory`; no call was made then.
    pub fn call(&mut self, pid: Pid, request: &Request) -> Result<Reply, CallFault>
        requires { has_own_call request.now ≡ false }
        ensures made { IfOk result (λ reply. Answers self.old self.new pid request.now reply) }
        ensures many { OnOk result (processes self.new ≡ processes self.old) }
        ensures fault { IfErr result (λ f. IsFault self.old pid f) }
        ensures same { OnErr result (self.new ≡ self.old) }
    {
        match self.make(pid, request, false) {
            Ok(Some(reply)) => Ok(reply),
            Ok(None) => unreachable!(),
            Err(fault) => Err(fault),
        }
    }

    /// As `call`; but where the call may wait, and would have to, the answer is `None`, and nothing has changed.
    ///
    /// # Errors
    ///
    /// Those of `call`.
    pub fn try_call(&mut self, pid: Pid, request: &Request) -> Result<Option<Reply>, CallFault>
        requires { has_own_call request.now ≡ false }
        ensures made { IfOk result (λ o. IfSome o (λ reply. Answers self.old self.new pid request.now reply)) }
        ensures done { IfOk result (λ o. IfSome o (λ reply. should_wait (state_of self.old) pid.0 request.now reply ≡ false)) }
        ensures waits { IfOk result (λ o. IfNone o (MustWait self.old pid request.now)) }
        ensures kept { IfOk result (λ o. IfNone o (self.new ≡ self.old)) }
        ensures many { OnOk result (processes self.new ≡ processes self.old) }
        ensures fault { IfErr result (λ f. IsFault self.old pid f) }
        ensures same { OnErr result (self.new ≡ self.old) }
    {
        self.make(pid, request, true)
    }

    /// Makes a call of this process; where it is `tried`, only if it needn't wait.
    fn make(&mut self, pid: Pid, request: &Request, tried: bool) -> Result<Option<Reply>, CallFault>
        requires { has_own_call request.now ≡ false }
        ensures made { IfOk result (λ o. IfSome o (λ reply. Answers self.old self.new pid request.now reply)) }
        ensures done { IfOk result (λ o. IfSome o (λ reply. tried ≡ true → should_wait (state_of self.old) pid.0 request.now reply ≡ false)) }
        ensures tried { IfOk result (λ o. IfNone o (tried ≡ true)) }
        ensures waits { IfOk result (λ o. IfNone o (MustWait self.old pid request.now)) }
        ensures kept { IfOk result (λ o. IfNone o (self.new ≡ self.old)) }
        ensures many { OnOk result (processes self.new ≡ processes self.old) }
        ensures fault { IfErr result (λ f. IsFault self.old pid f) }
        ensures same { OnErr result (self.new ≡ self.old) }
    {
        let Some(mut share) = take(&mut self.shares, pid) else {
            return Err(CallFault::Stranger);
        };
        self.released.clear();
        let asked = ask(
            &mut self.book,
            &mut share,
            request,
            tried,
            &mut self.released,
        );
        put(&mut self.shares, share);
        asked
    }

    /// Makes a fork of this process (fork(2)), whose child's calls can be made from then on.
    ///
    /// # Errors
    ///
    /// Those of `call`.
    pub fn fork(&mut self, pid: Pid) -> Result<Reply, CallFault>
        ensures made { IfOk result (λ reply. Answers self.old self.new pid Request.Fork reply) }
        ensures fault { IfErr result (λ f. IsFault self.old pid f) }
        ensures same { OnErr result (self.new ≡ self.old) }
    {
        if !self.is_live(pid) {
            return Err(CallFault::Stranger);
        }
        if self.shares.push(None).is_err() {
            return Err(CallFault::NoMemory);
        }
        let Some(mut share) = take(&mut self.shares, pid) else {
            return Err(CallFault::Stranger);
        };
        self.released.clear();
        let forked = fork(&mut self.book, &mut share, &mut self.released);
        put(&mut self.shares, share);
        match forked {
            Ok((reply, child)) => {
                if let Some(child) = child {
                    put(&mut self.shares, child);
                }
                Ok(reply)
            }
            Err(fault) => Err(fault),
        }
    }

    /// Makes the exit of this process (_exit(2)). It takes no memory.
    ///
    /// # Errors
    ///
    /// `Stranger` exactly where no live process has this number.
    pub fn exit(&mut self, pid: Pid) -> Result<(), CallFault>
        ensures made { OnOk result (Answers self.old self.new pid Request.Exit Reply.Ok) }
        ensures many { OnOk result (processes self.new ≡ processes self.old) }
        ensures stranger { IfErr result (λ f. (f ≡ CallFault.Stranger) × (is_live (state_of self.old) pid.0 ≡ false)) }
        ensures same { OnErr result (self.new ≡ self.old) }
    {
        let Some(share) = take(&mut self.shares, pid) else {
            return Err(CallFault::Stranger);
        };
        self.released.clear();
        let _spent = self.book.exit(share, &mut self.released);
        Ok(())
    }

    /// Ends the layer once every process has exited. It takes no memory.
    ///
    /// # Errors
    ///
    /// `Alive` exactly where a process hasn't exited, else `Given` exactly where this was done before.
    pub fn off(&mut self) -> Result<(), OffFault>
        ensures made { OnOk result (Answers self.old self.new (record { 0 = 0 }) Request.Off Reply.Ok) }
        ensures many { OnOk result (processes self.new ≡ processes self.old) }
        ensures gone { OnOk result (has_live (state_of self.old) ≡ false) }
        ensures first { OnOk result (ends_of self.old.entries ≡ 0) }
        ensures alive { IfErr result (λ f. f ≡ OffFault.Alive → has_live (state_of self.old) ≡ true) }
        ensures given { IfErr result (λ f. f ≡ OffFault.Given → (has_live (state_of self.old) ≡ false) × (ends_of self.old.entries ≡ 1)) }
        ensures same { OnErr result (self.new ≡ self.old) }
    {
        self.released.clear();
        self.book.off(&mut self.released)
    }
}

/// Makes a call of the share's process; where it is `tried`, only if it needn't wait.
fn ask<W: BookName, O: FileObject>(
    book: &mut Book<W, O>,
    share: &mut Share<W>,
    request: &Request,
    tried: bool,
    released: &mut ReleasedObjects<O>,
) -> Result<Option<Reply>, CallFault>
    requires call { has_own_call request.now ≡ false }
    requires empty { released.old ≡ [] }
    ensures call { IfOk result (λ o. IfSome o (λ reply. IsCall W.boot book.old book.new share.old share.new request.now reply released.new)) }
    ensures done { IfOk result (λ o. IfSome o (λ reply. tried ≡ true → should_wait (state_of book.old) share.old.pid.0 request.now reply ≡ false)) }
    ensures tried { IfOk result (λ o. IfNone o (tried ≡ true)) }
    ensures waits { IfOk result (λ o. IfNone o (MustWait book.old share.old.pid request.now)) }
    ensures kept { IfOk result (λ o. IfNone o (IsKept book.old book.new share.old share.new released.new)) }
    ensures not_made { IfErr result (λ f. f ≡ CallFault.NoMemory) }
    ensures same { OnErr result (IsKept book.old book.new share.old share.new released.new) }
{
    if tried {
        return match book.try_record(share, request, released) {
            Ok(Some((reply, _receipt))) => Ok(Some(reply)),
            Ok(None) => Ok(None),
            Err(fault) => Err(fault),
        };
    }
    match book.record(share, request, released) {
        Ok((reply, _receipt)) => Ok(Some(reply)),
        Err(fault) => Err(fault),
    }
}

/// Makes a fork of the share's process, and gives the share of the process that it made, if it made one.
fn fork<W: BookName, O: FileObject>(
    book: &mut Book<W, O>,
    share: &mut Share<W>,
    released: &mut ReleasedObjects<O>,
) -> Result<(Reply, Option<Share<W>>), CallFault>
    requires empty { released.old ≡ [] }
    ensures legal { IsLegal book.old.boot book.old.entries }
    ensures entry { IfOk result (λ r. Forks book.old book.new share.old.pid r.0 r.1) }
    ensures share { IfOk result (λ r. share.new ≡ made share.old Request.Fork r.0) }
    ensures memory { IfErr result (λ f. f ≡ CallFault.NoMemory) }
    ensures same { OnErr result (book.new ≡ book.old) }
    ensures kept { OnErr result (share.new ≡ share.old) }
{
    // What this says of the entries is what `legal` says.
    let _entries = book.entries();
    match book.fork(share, released) {
        Ok((reply, _receipt, child)) => Ok((reply, child)),
        Err(fault) => Err(fault),
    }
}

/// The shares of the processes 1, 2 and so on at the places of these numbers.
fn by_number<W: BookName>(
    alloc: Global,
    shares: Vec<Share<W>>,
) -> Result<Vec<Option<Share<W>>>, AllocError>
    ensures { IfOk result (λ places. places.items ≡ None ∷ map (λ s. Some s) shares.items) }
{
    let mut places = Vec::new(alloc);
    places.push(None)?;
    for share in shares {
        places.push(Some(share))?;
    }
    Ok(places)
}

/// The share of a process at its place.
fn share_at<W: BookName>(shares: &[Option<Share<W>>], pid: Pid) -> Option<&Share<W>>
    ensures some { IfSome result (λ share. place shares.now pid.0 ≡ Some share.now) }
    ensures none { IfNone result (place shares.now pid.0 ≡ None) }
{
    match shares.get(pid.0 as usize) {
        Some(Some(share)) => Some(share),
        _ => None,
    }
}

/// Takes the share of a process from its place.
fn take<W: BookName>(shares: &mut Vec<Option<Share<W>>>, pid: Pid) -> Option<Share<W>>
    ensures share { result ≡ place shares.old.items pid.0 }
    ensures left { shares.new.items ≡ emptied shares.old.items pid.0 }
{
    let number = pid.0 as usize;
    if number >= shares.len() {
        return None;
    }
    shares[number].take()
}

/// Puts a share at the place of its process.
fn put<W: BookName>(shares: &mut Vec<Option<Share<W>>>, share: Share<W>)
    requires { share.pid.0 < length shares.old.items }
    ensures { shares.new.items ≡ filled shares.old.items share.pid.0 share }
{
    let number = share.pid().0 as usize;
    shares[number] = Some(share);
}
