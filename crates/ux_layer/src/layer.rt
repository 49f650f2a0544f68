//! What the seats share: the book under its lock.
ghost use Rattle.std.specs.Prelude.{◌≡◌, [], length, IfOk, IfErr, OnOk, OnErr};
ghost use Rattle.ux_model.specs.Boot.{IsBootState};
ghost use Rattle.ux_model.specs.History.{IsLegal};
ghost use Rattle.ux_book.specs.Books.{state_of};
ghost use Rattle.ux_book.specs.Pasts.{fresh};
ghost use Rattle.ux_book.specs.Settling.{Exact, IsSettled, IsSettledWith, IsWhole};

use crate::seat::{Seat, make_seat};
use crate::waiters::{Ticket, Waiters};
use std::alloc::{AllocError, Global};
use std::hint::spin_loop;
use std::sync::{Arc, Condvar, Mutex, MutexGuard, OnceLock, Wait};
use ux_book::{
    Account, Book, BookName, Entries, Keeper, Missing, NoMemory, Nothing, OffFault, Receipt, Share,
    Spent, Trail, copy_entries,
};
use ux_kernel::Kernel;
use ux_object::FileObject;
use ux_state::ReleasedObjects;
use ux_types::{Entry, Pid};

/// What stands under the lock: the book, and who waits for one more entry.
pub(crate) struct Desk<W: BookName, O: FileObject, K: Keeper> {
    pub(crate) book: Book<W, O, K>,
    pub(crate) waiters: Waiters,
}

// Written out, so that it is proved here and not in each function that drops one.
impl<W: BookName, O: FileObject, K: Keeper> Drop for Desk<W, O, K> {
    fn drop(self) {
        let Desk { book, waiters } = self;
        drop(book);
        drop(waiters)
    }
}

impl<W: BookName, O: FileObject, K: Keeper> Desk<W, O, K> {
    /// Whether this process has made so many calls, or has exited, or was never made and process 1 has exited.
    pub(crate) fn has_made(&self, pid: Pid, calls: u64) -> bool {
        let is_made = pid.0 as usize <= self.book.process_count();
        let awaited = if is_made { pid } else { Pid(1) };
        self.waiters.calls_of(pid) >= calls || !self.book.is_live(awaited)
    }
}

/// How long a thread waits between one look at the lock and the next, in pauses of the processor.
const PAUSES: [u32; 8] = [128, 256, 512, 1024, 1024, 1024, 1024, 1024];

/// Waits without a system call.
// A call, since the compiler would write out each pause in its place.
#[inline(never)]
fn pause(count: u32) {
    for _ in 0..count {
        spin_loop();
    }
}

/// What all seats share. The place of the book is made first, so that a kernel comes back as it was where there is no
/// memory for it; the book is put there once, before any seat is made.
pub(crate) struct Shared<W: BookName, O: FileObject, K: Keeper> {
    desk: OnceLock<Mutex<Desk<W, O, K>>>,
    pub(crate) changed: Condvar,
    /// Where the seats of further processes are allocated.
    pub(crate) alloc: Global,
}

// Written out, so that it is proved here and not in each function that drops one.
impl<W: BookName, O: FileObject, K: Keeper> Drop for Shared<W, O, K> {
    fn drop(self) {
        let Shared {
            desk,
            changed,
            alloc: _,
        } = self;
        drop(desk);
        drop(changed)
    }
}

impl<W: BookName, O: FileObject, K: Keeper> Shared<W, O, K> {
    /// Takes the lock. Whoever has it needs it for less than a microsecond, and makes its next calls faster while what
    /// they read stays in its processor's cache: so another looks ever less often, and then sleeps.
    pub(crate) fn lock<R: Wait>(&self, rt: &R) -> MutexGuard<'_, Desk<W, O, K>> {
        let Some(desk) = self.desk.get() else {
            // Nobody has a share of it before the book is there.
            for _ in rt.forever() {}
            unreachable!()
        };
        for pauses in PAUSES {
            if let Some(guard) = desk.try_lock() {
                return guard;
            }
            pause(pauses);
        }
        desk.lock(rt)
    }

    /// Gives the lock back, wakes all who wait, and then drops the file objects that went with a call.
    pub(crate) fn release(
        &self,
        desk: MutexGuard<'_, Desk<W, O, K>>,
        released: &mut ReleasedObjects<O>,
    )
        ensures { released.new ≡ [] }
    {
        drop(desk);
        self.changed.notify_all();
        released.clear();
    }

    /// Gives the lock back until one more entry was made. `None` where the seats of all processes that haven't exited
    /// wait: then all are woken.
    pub(crate) fn next_entry<'a, R: Wait>(
        &'a self,
        rt: &R,
        mut desk: MutexGuard<'a, Desk<W, O, K>>,
        ticket: &mut Ticket,
    ) -> Option<MutexGuard<'a, Desk<W, O, K>>> {
        if desk.waiters.is_in_vain(ticket) {
            self.changed.notify_all();
            return None;
        }
        Some(self.changed.wait(rt, desk))
    }
}

/// The layer as a whole, beside its seats. Its book keeps each call (`Entries`), unless `K` names another keeper.
pub struct Layer<W: BookName, O: FileObject, K: Keeper = Entries> {
    pub(crate) shared: Arc<Shared<W, O, K>, Global>,
    /// Room for the file objects that the end of the layer closes.
    released: Mutex<ReleasedObjects<O>>,
}

// Written out, so that it is proved here and not in each function that drops a layer.
impl<W: BookName, O: FileObject, K: Keeper> Drop for Layer<W, O, K> {
    fn drop(self) {
        let Self { shared, released } = self;
        drop(shared);
        drop(released)
    }
}

/// The book, lent for reading while the lock is held.
#[derive(Drop)]
pub struct BookGuard<'a, W: BookName, O: FileObject, K: Keeper> {
    guard: MutexGuard<'a, Desk<W, O, K>>,
}

impl<W: BookName, O: FileObject, K: Keeper> BookGuard<'_, W, O, K> {
    /// The book.
    pub fn book(&self) -> &Book<W, O, K> {
        &self.guard.book
    }
}

impl<W: BookName, O: FileObject, K: Keeper> Layer<W, O, K> {
    /// Takes the lock, and lends the book.
    pub fn book<R: Wait>(&self, rt: &R) -> BookGuard<'_, W, O, K> {
        BookGuard {
            guard: self.shared.lock(rt),
        }
    }

    /// Sees that each process has one of these spent shares, as `Book::settle` does: one legal history from the
    /// layer's boot state has of each process exactly the calls that its share knows, and no others but its end.
    ///
    /// # Errors
    ///
    /// Exactly where a process of the start, or a child that a fork of one of these reports, has no spent share among
    /// them, or several.
    pub fn settle<R: Wait>(&self, rt: &R, spents: &mut [Spent<W>]) -> Result<Account, Missing>
        ensures settled { IfOk result (λ a. IsSettled W.boot spents.old a.entries a.ended) }
        ensures whole { OnOk result (IsWhole W.boot spents.old) }
        ensures missing { OnErr result (¬ (IsWhole W.boot spents.old)) }
        ensures spents { spents.new ≡ spents.old }
    {
        let mut desk = self.shared.lock(rt);
        desk.book.settle(spents)
    }

    /// As `settle`, of spent shares of which none is missing: it can't fail.
    pub fn settle_whole<R: Wait>(&self, rt: &R, spents: &mut [Spent<W>]) -> Account
        requires { IsWhole W.boot spents.old }
        ensures settled { IsSettled W.boot spents.old result.entries result.ended }
        ensures spents { spents.new ≡ spents.old }
    {
        let mut desk = self.shared.lock(rt);
        desk.book.settle_whole(spents)
    }

    /// As `settle`; the same history has the entry of each of these receipts at its number, too.
    ///
    /// # Errors
    ///
    /// Those of `settle`.
    pub fn settle_with<R: Wait>(
        &self,
        rt: &R,
        spents: &mut [Spent<W>],
        receipts: &mut [Receipt<W>],
    ) -> Result<Account, Missing>
        ensures settled { IfOk result (λ a. IsSettledWith W.boot spents.old receipts.old a.entries a.ended) }
        ensures whole { OnOk result (IsWhole W.boot spents.old) }
        ensures missing { OnErr result (¬ (IsWhole W.boot spents.old)) }
        ensures spents { spents.new ≡ spents.old }
        ensures receipts { receipts.new ≡ receipts.old }
    {
        let mut desk = self.shared.lock(rt);
        desk.book.settle_with(spents, receipts)
    }

    /// Returns once this process has made so many calls, or has exited, or was never made and process 1 has exited.
    /// Whoever waits here makes no calls, and isn't counted where the layer looks whether all its seats wait.
    pub fn wait_for<R: Wait>(&self, rt: &R, pid: Pid, calls: u64) {
        let mut desk = self.shared.lock(rt);
        for _ in rt.forever() {
            if desk.has_made(pid, calls) {
                return;
            }
            desk = self.shared.changed.wait(rt, desk);
        }
        unreachable!()
    }

    /// Ends the layer once every process has exited, which takes no memory. The file objects that were still open
    /// are dropped after the lock is given back, and all who wait are woken.
    ///
    /// # Errors
    ///
    /// Those of `Book::off`.
    pub fn off<R: Wait>(&self, rt: &R) -> Result<(), OffFault> {
        let mut released = self.released.lock(rt);
        released.clear();
        let mut desk = self.shared.lock(rt);
        let ended = desk.book.off(&mut *released);
        self.shared.release(desk, &mut *released);
        ended
    }
}

impl<W: BookName, O: FileObject> Layer<W, O> {
    /// A copy of the calls so far, with their replies: a legal history from the layer's boot state. Each of these spent
    /// shares knows exactly its process's calls in it.
    ///
    /// # Errors
    ///
    /// Out of memory.
    pub fn history<R: Wait>(
        &self,
        rt: &R,
        alloc: Global,
        spents: &mut [Spent<W>],
    ) -> Result<Vec<Entry>, AllocError>
        ensures legal { IfOk result (λ entries. IsLegal W.boot entries.items) }
        ensures exact { IfOk result (λ entries. Exact entries.items spents.old) }
        ensures spents { spents.new ≡ spents.old }
    {
        let mut desk = self.shared.lock(rt);
        desk.book.confirm_all(spents);
        copy_entries(alloc, desk.book.entries())
    }
}

/// A layer at the start of this kernel, whose book keeps each call, and a seat for each of its processes.
///
/// # Errors
///
/// The kernel as it was, where an allocation fails. The trail is spent.
pub fn start<W: BookName, O: FileObject, R: Wait>(
    rt: &R,
    alloc: Global,
    trail: Trail,
    kernel: Kernel<O>,
) -> Result<(Layer<W, O>, Vec<Seat<W, O>>), (Kernel<O>, NoMemory)>
    requires trail { trail ≡ record { id = W.trail; entries = []; given = 0 } }
    requires boots { IsBootState kernel }
    requires named { kernel ≡ W.boot }
    ensures seats { IfOk result (λ r. r.1.items ≡ fresh (length kernel.processes)) }
    ensures back { IfErr result (λ f. f.0 ≡ kernel) }
{
    let (book, shares) = Book::<W, O>::new(alloc, trail, kernel)?;
    start_book(rt, alloc, book, shares)
}

/// As `start`, over a book that keeps no entry: its memory stays as it is, however many calls are made.
///
/// # Errors
///
/// Those of `start`.
pub fn start_counting<W: BookName, O: FileObject, R: Wait>(
    rt: &R,
    alloc: Global,
    trail: Trail,
    kernel: Kernel<O>,
) -> Result<(Layer<W, O, Nothing>, Vec<Seat<W, O, Nothing>>), (Kernel<O>, NoMemory)>
    requires trail { trail ≡ record { id = W.trail; entries = []; given = 0 } }
    requires boots { IsBootState kernel }
    requires named { kernel ≡ W.boot }
    ensures seats { IfOk result (λ r. r.1.items ≡ fresh (length kernel.processes)) }
    ensures back { IfErr result (λ f. f.0 ≡ kernel) }
{
    let (book, shares) = Book::<W, O, Nothing>::counting(alloc, trail, kernel)?;
    start_book(rt, alloc, book, shares)
}

/// A layer over this book, and a seat for each of these shares.
///
/// # Errors
///
/// The book's kernel as it was, where an allocation fails.
pub fn start_book<W: BookName, O: FileObject, K: Keeper, R: Wait>(
    rt: &R,
    alloc: Global,
    book: Book<W, O, K>,
    shares: Vec<Share<W>>,
) -> Result<(Layer<W, O, K>, Vec<Seat<W, O, K>>), (Kernel<O>, NoMemory)>
    ensures seats { IfOk result (λ r. r.1.items ≡ shares.items) }
    ensures back { IfErr result (λ f. f.0 ≡ state_of book) }
{
    let Ok(mut seats) = Vec::with_capacity(alloc, shares.len()) else {
        return Err((book.into_kernel(), NoMemory));
    };
    let Ok(waiters) = Waiters::new(alloc, shares.len()) else {
        return Err((book.into_kernel(), NoMemory));
    };
    let shared = Shared {
        desk: OnceLock::new(),
        changed: Condvar::new(),
        alloc,
    };
    let Ok(shared) = Arc::new(alloc, shared) else {
        return Err((book.into_kernel(), NoMemory));
    };
    drop(shared.desk.set(rt, Mutex::new(Desk { book, waiters })));
    for share in shares {
        let released = ReleasedObjects::new(alloc);
        seats.push_reserved(make_seat(share, another(rt, &shared), released));
    }
    let layer = Layer {
        shared,
        released: Mutex::new(ReleasedObjects::new(alloc)),
    };
    Ok((layer, seats))
}

/// One more owner. No program makes so many that there is none left.
pub(crate) fn another<W: BookName, O: FileObject, K: Keeper, R: Wait>(
    rt: &R,
    shared: &Arc<Shared<W, O, K>, Global>,
) -> Arc<Shared<W, O, K>, Global> {
    for _ in rt.forever() {
        if let Ok(more) = Arc::try_clone(shared) {
            return more;
        }
    }
    unreachable!()
}
