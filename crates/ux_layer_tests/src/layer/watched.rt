//! What the threads do to the file objects, as objects of the tests' own report it.
ghost use Rattle.std.specs.Prelude.{◌≡◌, [], false, IfOk};
ghost use Rattle.ux_model.specs.Boot.{IsBootState};
ghost use Rattle.ux_book.specs.Books.{has_own_call};
ghost use Rattle.ux_objects.specs.Faultless.{counter_view};

use super::{Done, Trouble, USER, Worker, is_answered, settle_both};
use std::alloc::{AllocError, Global};
use std::marker::Brand;
use std::process::Abort;
use std::sync::Wait;
use std::sync::atomic::{AtomicU64, Ordering};
use std::test::Fail;
use std::thread;
use std::thread::Threads;
use ux_book::{BookName, Trail};
use ux_kernel::Kernel;
use ux_layer::{Layer, Seat, start};
use ux_object::{FileObject, ObjError, ObjKind};
use ux_objects::Counter;
use ux_types::{Bytes, Fd, Mode, Name, OpenFlags, ProcSpec, Reply, Request};

/// How often a thread looks for what another is to do, before it gives up.
const PATIENCE: u32 = 1_000_000;

/// A number to be written to a counter.
const FIVE: [u8; 8] = [5, 0, 0, 0, 0, 0, 0, 0];

/// What was seen of file objects.
#[derive(Drop)]
struct Watch {
    /// How often a drop looks whether another thread has had the lock.
    patience: u32,
    /// How often one was asked whether it is ready, and had nothing to read.
    empty: AtomicU64,
    /// How many drops have begun.
    begun: AtomicU64,
    /// In how many of them another thread has had the lock, as that thread says.
    locked: AtomicU64,
    /// In how many of them that was so before they ended.
    outside: AtomicU64,
}

impl Watch {
    /// Nothing was seen yet.
    fn new(patience: u32) -> Watch {
        Watch {
            patience,
            empty: AtomicU64::new(0),
            begun: AtomicU64::new(0),
            locked: AtomicU64::new(0),
            outside: AtomicU64::new(0),
        }
    }
}

/// Whether a count comes so far while one looks so often.
fn comes_to(count: &AtomicU64, number: u64, patience: u32) -> bool {
    for _n in 0..patience {
        if count.load(Ordering::SeqCst) >= number {
            return true;
        }
        thread::yield_now();
    }
    false
}

/// A counter that says when a read of it finds nothing, and in whose drop another thread has to take the lock.
struct Watched<'a> {
    counter: Counter,
    watch: &'a Watch,
}

impl Drop for Watched<'_> {
    fn drop(self) {
        let number = self
            .watch
            .begun
            .fetch_add(1, Ordering::SeqCst)
            .wrapping_add(1);
        if comes_to(&self.watch.locked, number, self.watch.patience) {
            self.watch.outside.fetch_add(1, Ordering::SeqCst);
        }
        let Watched { counter, watch: _ } = self;
        drop(counter);
    }
}

impl FileObject for Watched<'_> {
    ghost view = { λ w. counter_view w.counter };

    fn kind(&self) -> ObjKind {
        self.counter.kind()
    }

    fn read(&mut self, at: u64, buf: &mut [u8]) -> Result<usize, ObjError> {
        self.counter.read(at, buf)
    }

    fn write(&mut self, at: u64, bytes: &[u8]) -> Result<usize, ObjError> {
        self.counter.write(at, bytes)
    }

    fn size(&self) -> u64 {
        self.counter.size()
    }

    fn bytes_ahead(&self, at: u64) -> Option<usize> {
        self.counter.bytes_ahead(at)
    }

    fn ready(&self) -> (bool, bool) {
        let ready = self.counter.ready();
        if !ready.0 {
            self.watch.empty.fetch_add(1, Ordering::SeqCst);
        }
        ready
    }

    fn faults(&self) -> u64 {
        self.counter.faults()
    }

    fn is_open(&self) -> bool {
        self.counter.is_open()
    }

    fn close(&mut self) {
        self.counter.close()
    }
}

/// A request to open the object at this path.
fn open(alloc: Global, path: &[u8]) -> Result<Request, AllocError>
    ensures { IfOk result (λ r. has_own_call r ≡ false) }
{
    Ok(Request::Open {
        path: Name::from_slice(alloc, path)?,
        mode: Mode::Both,
        flags: OpenFlags(0),
    })
}

/// A kernel of these processes with an object at each of these paths.
fn watched_kernel<'a>(
    alloc: Global,
    paths: &[&[u8]],
    procs: &[ProcSpec],
    watch: &'a Watch,
) -> Result<Kernel<Watched<'a>>, Fail>
    ensures { IfOk result (λ kernel. IsBootState kernel) }
{
    let mut objects = Vec::new(alloc);
    for path in paths {
        let counter = Counter::new();
        objects.push((Name::from_slice(alloc, path)?, Watched { counter, watch }))?;
    }
    match Kernel::boot(alloc, objects, procs) {
        Ok(kernel) => Ok(kernel),
        Err(_) => Err(Fail::from("no kernel")),
    }
}

#[test]
fn a_kernel_goes_with_its_open_objects(rt: HostRuntime) -> Result<(), Fail> {
    let alloc = rt.alloc();
    let watch = Watch::new(0);
    let kernel = watched_kernel(alloc, &[b"a", b"b"], &[USER], &watch)?;
    abandon::<Brand, _>(&rt, alloc, Trail::new(alloc)?, kernel, &watch)
}

fn abandon<'a, W: BookName + Send + Sync, R: Threads + Wait + Abort + Sync>(
    rt: &R,
    alloc: Global,
    trail: Trail,
    kernel: Kernel<Watched<'a>>,
    watch: &'a Watch,
) -> Result<(), Fail>
    requires trail { trail ≡ record { id = W.trail; entries = []; given = 0 } }
    requires boots { IsBootState kernel }
    requires named { kernel ≡ W.boot }
{
    let Ok((layer, mut seats)) = start::<W, Watched<'a>, R>(rt, alloc, trail, kernel) else {
        return Err(Fail::from("no layer"));
    };
    let seat = seats.pop().ok_or("no seat")?;
    let left = leave_open(rt, alloc, layer, seat, watch);
    assert!(rt; left.is_ok());
    assert_eq!(rt; watch.begun.load(Ordering::SeqCst), 2);
    Ok(())
}

/// Opens an object, and drops its seat and the layer while nothing was dropped yet.
fn leave_open<W: BookName, R: Wait>(
    rt: &R,
    alloc: Global,
    layer: Layer<W, Watched<'_>>,
    seat: Seat<W, Watched<'_>>,
    watch: &Watch,
) -> Result<(), Trouble> {
    let mut worker = Worker::new(alloc, seat);
    worker.expect_reply(rt, open(alloc, b"b")?, Reply::Fd(Fd(0)))?;
    drop(worker);
    let kept = watch.begun.load(Ordering::SeqCst) == 0;
    drop(layer);
    if kept { Ok(()) } else { Err(Trouble::Wrong) }
}

#[test]
fn objects_are_dropped_outside_the_lock(rt: HostRuntime) -> Result<(), Fail> {
    let alloc = rt.alloc();
    let watch = Watch::new(PATIENCE);
    let kernel = watched_kernel(alloc, &[b"a", b"b", b"c", b"d"], &[USER], &watch)?;
    drop_objects::<Brand, _>(&rt, alloc, Trail::new(alloc)?, kernel, &watch)
}

fn drop_objects<'a, W: BookName + Send + Sync, R: Threads + Wait + Abort + Sync>(
    rt: &R,
    alloc: Global,
    trail: Trail,
    kernel: Kernel<Watched<'a>>,
    watch: &'a Watch,
) -> Result<(), Fail>
    requires trail { trail ≡ record { id = W.trail; entries = []; given = 0 } }
    requires boots { IsBootState kernel }
    requires named { kernel ≡ W.boot }
{
    let Ok((layer, mut seats)) = start::<W, Watched<'a>, R>(rt, alloc, trail, kernel) else {
        return Err(Fail::from("no layer"));
    };
    let seat = seats.pop().ok_or("no seat")?;
    let there = &layer;
    let (let_go, all) = thread::join(
        rt,
        move || let_go(rt, alloc, there, seat),
        move || take_the_lock(rt, there, watch),
    );
    assert!(rt; let_go.is_ok());
    assert!(rt; all);
    assert_eq!(rt; watch.outside.load(Ordering::SeqCst), 4);
    Ok(())
}

/// Lets go of an object by a call, by a call that might have waited, by an exit, and by the end of the layer.
fn let_go<W: BookName, R: Wait>(
    rt: &R,
    alloc: Global,
    layer: &Layer<W, Watched<'_>>,
    seat: Seat<W, Watched<'_>>,
) -> Result<(), Trouble> {
    let mut worker = Worker::new(alloc, seat);
    let w = &mut worker;
    own(rt, alloc, w, b"a", Fd(0))?;
    own(rt, alloc, w, b"b", Fd(1))?;
    own(rt, alloc, w, b"c", Fd(2))?;
    if !is_answered(rt, &mut w.seat, Request::Close { fd: Fd(0) }, Reply::Ok) {
        return Err(Trouble::Wrong);
    }
    w.expect_reply(rt, Request::Close { fd: Fd(1) }, Reply::Ok)?;
    drop(worker.done(rt)?);
    if layer.off(rt).is_ok() {
        Ok(())
    } else {
        Err(Trouble::Wrong)
    }
}

/// Opens the object at this path, and takes the path away.
fn own<W: BookName, R: Wait>(
    rt: &R,
    alloc: Global,
    worker: &mut Worker<W, Watched<'_>>,
    path: &[u8],
    fd: Fd,
) -> Result<(), Trouble> {
    worker.expect_reply(rt, open(alloc, path)?, Reply::Fd(fd))?;
    let path = Name::from_slice(alloc, path)?;
    worker.expect_reply(rt, Request::Unlink { path }, Reply::Ok)
}

/// Takes the lock once in each of four drops, and says whether there were so many.
fn take_the_lock<W: BookName, R: Wait>(
    rt: &R,
    layer: &Layer<W, Watched<'_>>,
    watch: &Watch,
) -> bool {
    for number in 1..5 {
        if !comes_to(&watch.begun, number, PATIENCE) {
            return false;
        }
        drop(layer.book(rt));
        watch.locked.store(number, Ordering::SeqCst);
    }
    true
}

#[test]
fn a_write_wakes_a_read(rt: HostRuntime) -> Result<(), Fail> {
    let alloc = rt.alloc();
    let watch = Watch::new(0);
    let kernel = watched_kernel(alloc, &[b"a"], &[USER, USER], &watch)?;
    wake::<Brand, _>(&rt, alloc, Trail::new(alloc)?, kernel, &watch)
}

fn wake<'a, W: BookName + Send + Sync, R: Threads + Wait + Abort + Sync>(
    rt: &R,
    alloc: Global,
    trail: Trail,
    kernel: Kernel<Watched<'a>>,
    watch: &'a Watch,
) -> Result<(), Fail>
    requires trail { trail ≡ record { id = W.trail; entries = []; given = 0 } }
    requires boots { IsBootState kernel }
    requires named { kernel ≡ W.boot }
{
    let Ok((layer, mut seats)) = start::<W, Watched<'a>, R>(rt, alloc, trail, kernel) else {
        return Err(Fail::from("no layer"));
    };
    let writer = seats.pop().ok_or("no seat")?;
    let reader = seats.pop().ok_or("no seat")?;
    let (read, written) = thread::join(
        rt,
        move || read_five(rt, alloc, reader),
        move || write_five(rt, alloc, watch, writer),
    );
    let (Ok(read), Ok(written)) = (read, written) else {
        return Err(Fail::from("a call went wrong"));
    };
    assert_eq!(rt; settle_both(rt, alloc, &layer, read, written)?, 6);
    Ok(())
}

/// Reads what the other thread writes.
fn read_five<W: BookName, R: Wait>(
    rt: &R,
    alloc: Global,
    seat: Seat<W, Watched<'_>>,
) -> Result<Done<W>, Trouble> {
    let mut worker = Worker::new(alloc, seat);
    worker.expect_reply(rt, open(alloc, b"a")?, Reply::Fd(Fd(0)))?;
    let five = Bytes::from_slice(alloc, &FIVE)?;
    worker.expect_reply(rt, Request::Read { fd: Fd(0), n: 8 }, Reply::Bytes(five))?;
    worker.done(rt)
}

/// Writes once a read has found nothing, which then waits.
fn write_five<W: BookName, R: Wait>(
    rt: &R,
    alloc: Global,
    watch: &Watch,
    seat: Seat<W, Watched<'_>>,
) -> Result<Done<W>, Trouble> {
    let mut worker = Worker::new(alloc, seat);
    worker.expect_reply(rt, open(alloc, b"a")?, Reply::Fd(Fd(0)))?;
    let waits = comes_to(&watch.empty, 1, PATIENCE);
    let bytes = Bytes::from_slice(alloc, &FIVE)?;
    worker.expect_reply(rt, Request::Write { fd: Fd(0), bytes }, Reply::Count(8))?;
    if waits {
        worker.done(rt)
    } else {
        Err(Trouble::Wrong)
    }
}
