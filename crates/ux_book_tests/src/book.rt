//! What a book keeps of its calls: shares, entries, receipts, and the accounts settled.
ghost use Rattle.std.specs.Prelude.{◌≡◌, [], false, length};
ghost use Rattle.ux_model.specs.Boot.{IsBootState};
ghost use Rattle.ux_book.specs.Books.{has_own_call};

use hoard::{Hoard, Purse};
use std::alloc::{AllocError, Global};
use std::marker::Brand;
use std::process::Abort;
use std::test::Fail;
use ux_book::{Account, Book, BookName, CallFault, Missing, OffFault, Share, Spent, Trail};
use ux_kernel::Kernel;
use ux_objects::Counter;
use ux_state::ReleasedObjects;
use ux_types::{Errno, Fd, MsgFlags, Name, OpenFlags, Pid, ProcSpec, Reply, Request, SockType};

const ONE: [ProcSpec; 1] = [ProcSpec {
    uid: 1000,
    gid: 1000,
    privileged: false,
    limit: 16,
}];

const PAIR: Request = Request::SocketPair {
    kind: SockType::Stream,
    flags: OpenFlags(0),
};

/// A receive of one byte by the number 0.
const fn receive(flags: MsgFlags) -> Request
    ensures { has_own_call result ≡ false }
{
    Request::RecvMsg {
        fd: Fd(0),
        n: 1,
        space: 0,
        flags,
    }
}

/// A book, whose drop is proved once.
struct Kept<W: BookName> {
    book: Book<W, Counter>,
}

impl<W: BookName> Drop for Kept<W> {
    fn drop(self) {
        let Self { book } = self;
        drop(book)
    }
}

/// A book of one process and its share, and a list for the file objects that go.
#[derive(Drop)]
struct Shelf<W: BookName> {
    kept: Kept<W>,
    share: Share<W>,
    released: ReleasedObjects<Counter>,
}

/// A shelf at the start of a kernel.
fn make_shelf<W: BookName>(
    alloc: Global,
    trail: Trail,
    kernel: Kernel<Counter>,
) -> Result<Shelf<W>, AllocError>
    requires trail { trail ≡ record { id = W.trail; entries = []; given = 0 } }
    requires boots { IsBootState kernel }
    requires named { kernel ≡ W.boot }
{
    let released = ReleasedObjects::new(alloc);
    let Ok((book, mut shares)) = Book::new(alloc, trail, kernel) else {
        return Err(AllocError);
    };
    let kept = Kept { book };
    match shares.pop() {
        Some(share) => Ok(Shelf {
            kept,
            share,
            released,
        }),
        None => Err(AllocError),
    }
}

/// What is answered to a call, which makes the entry with this number.
fn answer_of<W: BookName>(
    rt: &impl Abort,
    shelf: &mut Shelf<W>,
    request: Request,
    number: usize,
) -> Reply
    requires { has_own_call request ≡ false }
{
    shelf.released.clear();
    let made = shelf
        .kept
        .book
        .record(&mut shelf.share, &request, &mut shelf.released);
    drop(request);
    let Ok((reply, mut receipt)) = made else {
        panic!(rt; "no entry");
    };
    shelf.kept.book.confirm(&mut receipt);
    let same = receipt.number();
    drop(receipt);
    assert_eq!(rt; same, number);
    reply
}

/// Whether a call is tried and would have to wait.
fn would_wait<W: BookName>(shelf: &mut Shelf<W>, request: Request) -> bool
    requires { has_own_call request ≡ false }
{
    shelf.released.clear();
    let tried = shelf
        .kept
        .book
        .try_record(&mut shelf.share, &request, &mut shelf.released);
    drop(request);
    match tried {
        Ok(Some(recorded)) => {
            drop(recorded);
            false
        }
        Ok(None) => true,
        Err(_) => false,
    }
}

/// Whether a call lacks memory.
fn lacks_memory<W: BookName>(shelf: &mut Shelf<W>, request: Request) -> bool
    requires { has_own_call request ≡ false }
{
    shelf.released.clear();
    let made = shelf
        .kept
        .book
        .record(&mut shelf.share, &request, &mut shelf.released);
    drop(request);
    match made {
        Ok(recorded) => {
            drop(recorded);
            false
        }
        Err(fault) => fault == CallFault::NoMemory,
    }
}

/// Whether a call that is tried lacks memory.
fn lacks_memory_when_tried<W: BookName>(shelf: &mut Shelf<W>, request: Request) -> bool
    requires { has_own_call request ≡ false }
{
    shelf.released.clear();
    let tried = shelf
        .kept
        .book
        .try_record(&mut shelf.share, &request, &mut shelf.released);
    drop(request);
    match tried {
        Ok(Some(recorded)) => {
            drop(recorded);
            false
        }
        Ok(None) => false,
        Err(fault) => fault == CallFault::NoMemory,
    }
}

#[test]
fn each_call_is_one_entry(rt: HostRuntime) -> Result<(), Fail> {
    let alloc = rt.alloc();
    let Ok(kernel) = Kernel::boot(alloc, Vec::new(alloc), &ONE) else {
        return Err(Fail::from("no kernel"));
    };
    make_calls::<Brand>(&rt, alloc, Trail::new(alloc)?, kernel)?;
    Ok(())
}

fn make_calls<W: BookName>(
    rt: &impl Abort,
    alloc: Global,
    trail: Trail,
    kernel: Kernel<Counter>,
) -> Result<(), AllocError>
    requires trail { trail ≡ record { id = W.trail; entries = []; given = 0 } }
    requires boots { IsBootState kernel }
    requires named { kernel ≡ W.boot }
{
    let mut shelf = make_shelf::<W>(alloc, trail, kernel)?;
    let s = &mut shelf;
    let reply = answer_of(rt, s, PAIR, 0);
    assert_eq!(rt; reply, Reply::Fds(Fd(0), Fd(1)));
    drop(reply);
    let reply = answer_of(rt, s, Request::Close { fd: Fd(7) }, 1);
    assert_eq!(rt; reply, Reply::Err(Errno::EBADF));
    drop(reply);
    assert_eq!(rt; (s.share.pid(), s.share.calls()), (Pid(1), 2));
    let book = &s.kept.book;
    assert_eq!(rt; (book.entry_count(), book.entries().len()), (2, 2));
    Ok(())
}

#[test]
fn a_call_that_would_wait_leaves_no_entry(rt: HostRuntime) -> Result<(), Fail> {
    let alloc = rt.alloc();
    let Ok(kernel) = Kernel::boot(alloc, Vec::new(alloc), &ONE) else {
        return Err(Fail::from("no kernel"));
    };
    try_calls::<Brand>(&rt, alloc, Trail::new(alloc)?, kernel)?;
    Ok(())
}

fn try_calls<W: BookName>(
    rt: &impl Abort,
    alloc: Global,
    trail: Trail,
    kernel: Kernel<Counter>,
) -> Result<(), AllocError>
    requires trail { trail ≡ record { id = W.trail; entries = []; given = 0 } }
    requires boots { IsBootState kernel }
    requires named { kernel ≡ W.boot }
{
    let mut shelf = make_shelf::<W>(alloc, trail, kernel)?;
    let s = &mut shelf;
    let reply = answer_of(rt, s, PAIR, 0);
    assert_eq!(rt; reply, Reply::Fds(Fd(0), Fd(1)));
    drop(reply);
    assert!(rt; would_wait(s, receive(MsgFlags(0))));
    assert_eq!(rt; (s.share.calls(), s.kept.book.entries().len()), (1, 1));
    assert!(rt; !would_wait(s, receive(MsgFlags::DONTWAIT)));
    assert_eq!(rt; s.kept.book.entries().len(), 2);
    let reply = answer_of(rt, s, receive(MsgFlags(0)), 2);
    assert_eq!(rt; reply, Reply::Err(Errno::EAGAIN));
    drop(reply);
    Ok(())
}

#[test]
fn the_end_comes_once_and_accounts_settle(rt: HostRuntime) -> Result<(), Fail> {
    let alloc = rt.alloc();
    let mut objects = Vec::new(alloc);
    let path = Name::from_slice(alloc, b"c")?;
    objects.push((path, Counter::new()))?;
    let Ok(kernel) = Kernel::boot(alloc, objects, &ONE) else {
        return Err(Fail::from("no kernel"));
    };
    settle::<Brand>(&rt, alloc, Trail::new(alloc)?, kernel)?;
    Ok(())
}

fn settle<W: BookName>(
    rt: &impl Abort,
    alloc: Global,
    trail: Trail,
    kernel: Kernel<Counter>,
) -> Result<(), AllocError>
    requires trail { trail ≡ record { id = W.trail; entries = []; given = 0 } }
    requires boots { IsBootState kernel }
    requires named { kernel ≡ W.boot }
{
    let Shelf {
        mut kept,
        share,
        mut released,
    } = make_shelf::<W>(alloc, trail, kernel)?;
    let spent = end_book(rt, &mut kept.book, share, &mut released, 1)?;
    drop(released);
    settle_book(rt, alloc, &mut kept.book, spent)
}

/// Ends the one process and then the layer, neither too early nor twice, which closes so many file objects.
fn end_book<W: BookName>(
    rt: &impl Abort,
    book: &mut Book<W, Counter>,
    share: Share<W>,
    released: &mut ReleasedObjects<Counter>,
    objects: usize,
) -> Result<Spent<W>, AllocError> {
    released.clear();
    assert_eq!(rt; book.off(released), Err(OffFault::Alive));
    assert!(rt; book.is_live(Pid(1)) && !book.has_ended());
    let spent = book.exit(share, released);
    assert_eq!(rt; (spent.pid(), spent.calls()), (Pid(1), 1));
    released.clear();
    assert_eq!(rt; book.off(released), Ok(()));
    assert_eq!(rt; released.len(), objects);
    released.clear();
    assert_eq!(rt; book.off(released), Err(OffFault::Given));
    assert!(rt; !book.is_live(Pid(1)) && book.has_ended());
    Ok(spent)
}

/// Settles accounts, without a share and with it.
fn settle_book<W: BookName>(
    rt: &impl Abort,
    alloc: Global,
    book: &mut Book<W, Counter>,
    spent: Spent<W>,
) -> Result<(), AllocError> {
    let mut spents = Vec::new(alloc);
    assert_eq!(rt; book.settle(&mut spents), Err(Missing));
    spents.push(spent)?;
    let entries = 2;
    let ended = true;
    assert_eq!(rt; book.settle(&mut spents), Ok(Account { entries, ended }));
    Ok(())
}

#[test]
fn an_exit_and_the_end_need_no_memory(rt: HostRuntime) -> Result<(), Fail> {
    let alloc = rt.alloc();
    let Ok(kernel) = Kernel::boot(alloc, Vec::new(alloc), &ONE) else {
        return Err(Fail::from("no kernel"));
    };
    end_without_memory::<Brand>(&rt, alloc, Trail::new(alloc)?, kernel)?;
    Ok(())
}

fn end_without_memory<W: BookName>(
    rt: &impl Abort,
    alloc: Global,
    trail: Trail,
    kernel: Kernel<Counter>,
) -> Result<(), AllocError>
    requires trail { trail ≡ record { id = W.trail; entries = []; given = 0 } }
    requires boots { IsBootState kernel }
    requires named { kernel ≡ W.boot }
{
    let mut shelf = make_shelf::<W>(alloc, trail, kernel)?;
    let mut spents = Vec::with_capacity(alloc, 1)?;
    let hoard = Hoard::take_all(alloc)?;
    assert!(rt; lacks_memory(&mut shelf, receive(MsgFlags(0))));
    assert!(rt; lacks_memory_when_tried(&mut shelf, receive(MsgFlags::DONTWAIT)));
    let Shelf {
        mut kept,
        share,
        mut released,
    } = shelf;
    assert_eq!(rt; (share.calls(), kept.book.entries().len()), (0, 0));
    spents.push(end_book(rt, &mut kept.book, share, &mut released, 0)?)?;
    drop(released);
    let settled = kept.book.settle(&mut spents);
    drop(hoard);
    let entries = 2;
    let ended = true;
    assert_eq!(rt; settled, Ok(Account { entries, ended }));
    assert_eq!(rt; kept.book.entries().len(), 2);
    Ok(())
}

#[test]
fn a_book_without_memory_gives_the_kernel_back(rt: HostRuntime) -> Result<(), Fail> {
    let alloc = rt.alloc();
    let Ok(kernel) = Kernel::boot(alloc, Vec::new(alloc), &ONE) else {
        return Err(Fail::from("no kernel"));
    };
    open_book::<Brand>(&rt, alloc, Trail::new(alloc)?, kernel)?;
    Ok(())
}

fn open_book<W: BookName>(
    rt: &impl Abort,
    alloc: Global,
    trail: Trail,
    kernel: Kernel<Counter>,
) -> Result<(), AllocError>
    requires trail { trail ≡ record { id = W.trail; entries = []; given = 0 } }
    requires boots { IsBootState kernel }
    requires named { kernel ≡ W.boot }
{
    let hoard = Hoard::take_all(alloc)?;
    let failed = Book::<W, Counter>::new(alloc, trail, kernel).err();
    drop(hoard);
    let Some((kernel, _)) = failed else {
        panic!(rt; "a book without memory");
    };
    assert!(rt; kernel.is_live(Pid(1)) && kernel.process_count() == 1);
    Ok(())
}

/// The steps in which more is left, of 16 bytes each.
const STEPS: usize = 3800;

/// How a fork went.
#[derive(Clone, Copy, Debug, PartialEq, Eq)]
enum Forked {
    /// The book had no memory, and didn't make the call.
    NotMade,
    /// The kernel had none, and answered ENOMEM, which is an entry.
    Refused,
    /// There is a process 2 that has made no call.
    Child,
    Otherwise,
}

impl Forked {
    /// How many calls, entries and processes there are more.
    fn more(self) -> (u64, usize, usize) {
        match self {
            Forked::NotMade | Forked::Otherwise => (0, 0, 0),
            Forked::Refused => (1, 1, 0),
            Forked::Child => (1, 1, 1),
        }
    }
}

/// What a fork's answer reports.
fn outcome_of<W: BookName>(reply: Reply, child: Option<Share<W>>) -> Forked {
    let Some(share) = child else {
        if reply == Reply::Err(Errno::ENOMEM) {
            return Forked::Refused;
        }
        return Forked::Otherwise;
    };
    if reply == Reply::Child(Pid(2)) && share.pid() == Pid(2) && share.calls() == 0 {
        return Forked::Child;
    }
    Forked::Otherwise
}

/// Forks while so many bytes are left.
fn fork_with<W: BookName>(
    alloc: Global,
    shelf: &mut Shelf<W>,
    purse: &mut Purse,
    bytes: usize,
) -> Forked {
    shelf.released.clear();
    purse.leave(alloc, bytes);
    let made = shelf.kept.book.fork(&mut shelf.share, &mut shelf.released);
    purse.open();
    match made {
        Ok((reply, receipt, child)) => {
            drop(receipt);
            outcome_of(reply, child)
        }
        Err(CallFault::NoMemory) => Forked::NotMade,
        Err(_) => Forked::Otherwise,
    }
}

/// How many calls the share has made, and how many entries and processes the book has.
fn counts<W: BookName>(shelf: &Shelf<W>) -> (u64, usize, usize) {
    let book = &shelf.kept.book;
    (
        shelf.share.calls(),
        book.entries().len(),
        book.process_count(),
    )
}

/// Forks with no memory, and with more each time until a process is made, and gives how often none was. Book and share
/// are then as they were, but for the entry of a call that was made.
fn fork_at_last<W: BookName>(
    rt: &impl Abort,
    alloc: Global,
    shelf: &mut Shelf<W>,
    purse: &mut Purse,
) -> usize {
    for step in 0..STEPS {
        let (calls, entries, processes) = counts(shelf);
        let outcome = fork_with(alloc, shelf, purse, step * 16);
        let more = outcome.more();
        let now = counts(shelf);
        assert!(rt; outcome != Forked::Otherwise);
        assert_eq!(rt; now.0, calls.wrapping_add(more.0));
        assert_eq!(rt; now.1, entries.wrapping_add(more.1));
        assert_eq!(rt; now.2, processes.wrapping_add(more.2));
        if outcome == Forked::Child {
            return step;
        }
    }
    panic!(rt; "no child");
}

#[test]
fn a_fork_without_memory_makes_no_process(rt: HostRuntime) -> Result<(), Fail> {
    let alloc = rt.alloc();
    let Ok(kernel) = Kernel::boot(alloc, Vec::new(alloc), &ONE) else {
        return Err(Fail::from("no kernel"));
    };
    fork_often::<Brand>(&rt, alloc, Trail::new(alloc)?, kernel)?;
    Ok(())
}

fn fork_often<W: BookName>(
    rt: &impl Abort,
    alloc: Global,
    trail: Trail,
    kernel: Kernel<Counter>,
) -> Result<(), AllocError>
    requires trail { trail ≡ record { id = W.trail; entries = []; given = 0 } }
    requires boots { IsBootState kernel }
    requires named { kernel ≡ W.boot }
{
    let mut shelf = make_shelf::<W>(alloc, trail, kernel)?;
    let s = &mut shelf;
    let reply = answer_of(rt, s, PAIR, 0);
    assert_eq!(rt; reply, Reply::Fds(Fd(0), Fd(1)));
    drop(reply);
    let mut purse = Purse::new(alloc)?;
    let failures = fork_at_last(rt, alloc, s, &mut purse);
    drop(purse);
    assert!(rt; failures > 0);
    Ok(())
}
