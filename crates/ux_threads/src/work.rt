//! One thread for each process.
ghost use Rattle.std.specs.Prelude.{◌≡◌, ◌≤◌, ◌<◌, false, length, IfOk, IfSome};
ghost use Rattle.ux_book.specs.Books.{has_own_call};

use crate::gate::Gate;
use std::alloc::{AllocError, Global};
use std::sync::Wait;
use std::sync::atomic::{AtomicBool, Ordering};
use std::thread;
use std::thread::{JoinHandle, Scope, Threads};
use ux_book::{BookName, CallFault, NoMemory, Spent, has_own_call};
use ux_layer::Seat;
use ux_object::FileObject;
use ux_syntax::{Act, Line, Script};
use ux_types::{Pid, Request};

/// Why a worker stopped before all its lines were made.
#[derive(Clone, Copy, Debug, PartialEq, Eq)]
pub(crate) enum Stop {
    /// Memory ran out.
    NoMemory,
    /// A line can't be made: another process than the first would fork.
    Stranger,
    /// Every process waits, this one in the line of this number.
    Deadlock(Pid, usize),
}

/// What a worker brings back. With no `spent` it stopped where every process waits.
#[derive(Drop)]
pub(crate) struct Ended<W: BookName> {
    pub(crate) spent: Option<Spent<W>>,
    pub(crate) stop: Option<Stop>,
}

/// What all workers of a run share.
struct Shared<'a, R, G> {
    rt: &'a R,
    alloc: Global,
    script: &'a Script,
    gate: &'a G,
    /// Set where a thread can't be started: no worker makes a further call then.
    stop: &'a AtomicBool,
}

impl<R, G> Clone for Shared<'_, R, G> {
    fn clone(&self) -> Result<Self, AllocError> {
        Ok(*self)
    }
}

// Not derived, since it asks nothing of `R` and `G`.
impl<R, G> Copy for Shared<'_, R, G> {}

/// Starts a thread for each seat but the first, which is that of process 1, makes the lines of process 1 here, with
/// a thread for each child that it forks, and joins them all. There is room for all processes of the script before
/// anything starts. Where a thread can't be started, its seat is exited here, and no worker makes a further call.
pub(crate) fn work_all<
    W: BookName + Send + Sync,
    O: FileObject + Send,
    R: Threads + Wait + Sync,
    G: Gate,
>(
    rt: &R,
    alloc: Global,
    script: &Script,
    seats: Vec<Seat<W, O>>,
    gate: &G,
) -> Result<Vec<Ended<W>>, NoMemory> {
    let stop = AtomicBool::new(false);
    let shared = Shared {
        rt,
        alloc,
        script,
        gate,
        stop: &stop,
    };
    let all = join_scope(shared, seats);
    if stop.load(Ordering::SeqCst) {
        return Err(NoMemory);
    }
    all.map_err(|_| NoMemory)
}

/// As `work_all`, where all threads can be started.
fn join_scope<W: BookName + Send + Sync, O: FileObject + Send, R: Threads + Wait + Sync, G: Gate>(
    shared: Shared<'_, R, G>,
    seats: Vec<Seat<W, O>>,
) -> Result<Vec<Ended<W>>, AllocError> {
    thread::scope(
        thread::scope_env(),
        shared.rt,
        move |scope| -> Result<Vec<Ended<W>>, AllocError> {
            let count = shared.script.process_count();
            let mut threads = Vec::with_capacity(shared.alloc, count)?;
            let mut done = Vec::with_capacity(shared.alloc, count)?;
            let mut seats = seats.into_iter();
            let first = seats.next();
            for seat in seats {
                start_work(scope, shared, seat, &mut threads);
            }
            if let Some(seat) = first {
                done.push(lead(scope, shared, seat, &mut threads))?;
            }
            for thread in threads {
                done.push(thread.join(shared.rt))?;
            }
            Ok(done)
        },
    )
}

/// Starts a seat's thread. Where it can't be started, the seat is exited here, and no worker makes a further call.
fn start_work<
    's,
    'a: 's,
    E,
    W: BookName + Send + Sync + 's,
    O: FileObject + Send + 's,
    R: Wait + Sync,
    G: Gate,
>(
    scope: &Scope<'s, E>,
    shared: Shared<'a, R, G>,
    seat: Seat<W, O>,
    threads: &mut Vec<JoinHandle<Ended<W>>>,
) {
    if threads.reserve(1).is_err() {
        shared.stop.store(true, Ordering::SeqCst);
        let _exited = work(shared, seat);
        return;
    }
    match scope.spawn(move || work(shared, seat)) {
        Ok(thread) => threads.push_reserved(thread),
        Err(unstarted) => {
            shared.stop.store(true, Ordering::SeqCst);
            let _exited = (unstarted.value)();
        }
    }
}

/// Makes the lines of process 1, with a thread for each child that it forks, and exits it.
fn lead<
    's,
    'a: 's,
    E,
    W: BookName + Send + Sync + 's,
    O: FileObject + Send + 's,
    R: Wait + Sync,
    G: Gate,
>(
    scope: &Scope<'s, E>,
    shared: Shared<'a, R, G>,
    seat: Seat<W, O>,
    threads: &mut Vec<JoinHandle<Ended<W>>>,
) -> Ended<W> {
    let mut worker = Worker::new(seat);
    let mut left = shared.script.lines.as_slice();
    while let Some((child, more)) = worker.next_child(shared, left) {
        start_work(scope, shared, child, threads);
        left = more;
    }
    worker.end(shared)
}

/// Makes the seat's lines, and exits it. A fork line is one of process 1 alone, which has no thread of its own.
fn work<W: BookName, O: FileObject, R: Wait, G: Gate>(
    shared: Shared<'_, R, G>,
    seat: Seat<W, O>,
) -> Ended<W> {
    let mut worker = Worker::new(seat);
    let left = worker.make_calls(shared, &shared.script.lines);
    if !left.is_empty() {
        worker.stopped = Some(Stop::Stranger);
    }
    worker.end(shared)
}

/// A seat whose lines are made.
#[derive(Drop)]
struct Worker<W: BookName, O: FileObject> {
    seat: Seat<W, O>,
    /// Why it makes no further line, where that isn't its exit.
    stopped: Option<Stop>,
}

impl<W: BookName, O: FileObject> Worker<W, O> {
    /// A worker that has made no calls.
    fn new(seat: Seat<W, O>) -> Self {
        Worker {
            seat,
            stopped: None,
        }
    }

    /// Makes these lines through the seat's next fork, if it comes to one: gives the child's seat, and the lines
    /// that are left.
    fn next_child<'a, R: Wait, G: Gate>(
        &mut self,
        shared: Shared<'_, R, G>,
        lines: &'a [Line],
    ) -> Option<(Seat<W, O>, &'a [Line])>
        ensures { IfSome result (λ next. length next.1.now < length lines.now) }
    {
        let left = self.make_calls(shared, lines);
        let (line, more) = left.split_first()?;
        match self.fork(shared) {
            Ok(child) => Some((child, more)),
            Err(fault) => {
                self.stopped = Some(stop_at(line, fault));
                None
            }
        }
    }

    /// Makes the seat's lines up to its exit or its next fork: makes its calls, and waits for other processes. Gives the
    /// lines from that fork on, and none where there is none.
    fn make_calls<'a, R: Wait, G: Gate>(
        &mut self,
        shared: Shared<'_, R, G>,
        lines: &'a [Line],
    ) -> &'a [Line]
        ensures { length result.now ≤ length lines.now }
    {
        let pid = self.seat.pid();
        let mut left = lines;
        while let Some((line, more)) = left.split_first() {
            if line.pid == pid {
                match self.make_line(shared, line) {
                    Ok(Step::Made) => {}
                    Ok(Step::Fork) => return left,
                    Ok(Step::Last) => return &[],
                    Err(why) => {
                        self.stopped = Some(why);
                        return &[];
                    }
                }
            }
            left = more;
        }
        left
    }

    /// Makes a call, or waits for another process. A fork and an exit are not made here.
    fn make_line<R: Wait, G: Gate>(
        &mut self,
        shared: Shared<'_, R, G>,
        line: &Line,
    ) -> Result<Step, Stop> {
        if shared.stop.load(Ordering::SeqCst) {
            return Err(Stop::NoMemory);
        }
        let made = match &line.act {
            Act::Wait(other, calls) => self.seat.wait_for(shared.rt, *other, u64::from(*calls)),
            Act::Call(Request::Fork) => return Ok(Step::Fork),
            Act::Call(request) if has_own_call(request) => return Ok(Step::Last),
            Act::Call(request) => self.call(shared, request),
        };
        match made {
            Ok(()) => Ok(Step::Made),
            Err(fault) => Err(stop_at(line, fault)),
        }
    }

    /// Makes one call.
    fn call<R: Wait, G: Gate>(
        &mut self,
        shared: Shared<'_, R, G>,
        request: &Request,
    ) -> Result<(), CallFault>
        requires { has_own_call request.now ≡ false }
    {
        let (pid, k) = (self.seat.pid(), self.seat.calls());
        shared.gate.before(pid, k);
        let made = self.seat.call_blocking(shared.rt, request);
        shared.gate.after(pid, k);
        match made {
            Ok(_answer) => Ok(()),
            Err(fault) => Err(fault),
        }
    }

    /// Makes a fork, and gives the child's seat.
    ///
    /// # Errors
    ///
    /// Those of `Seat::fork`, and `NoMemory` also where the answer is that no process was made.
    fn fork<R: Wait, G: Gate>(
        &mut self,
        shared: Shared<'_, R, G>,
    ) -> Result<Seat<W, O>, CallFault> {
        let (pid, k) = (self.seat.pid(), self.seat.calls());
        shared.gate.before(pid, k);
        let made = self.seat.fork(shared.rt);
        shared.gate.after(pid, k);
        match made {
            Ok((_reply, _receipt, child)) => child.ok_or(CallFault::NoMemory),
            Err(fault) => Err(fault),
        }
    }

    /// Exits the seat. Where every process waits the history ends there, without exits.
    fn end<R: Wait, G: Gate>(self, shared: Shared<'_, R, G>) -> Ended<W> {
        let Worker { seat, stopped } = self;
        let spent = match stopped {
            Some(Stop::Deadlock(..)) => None,
            _ => Some(exit(shared, seat)),
        };
        Ended {
            spent,
            stop: stopped,
        }
    }
}

/// What became of a line.
enum Step {
    /// It was made.
    Made,
    /// It is a fork, which is made next.
    Fork,
    /// It is the exit, which is made last.
    Last,
}

/// Exits a seat.
fn exit<W: BookName, O: FileObject, R: Wait, G: Gate>(
    shared: Shared<'_, R, G>,
    seat: Seat<W, O>,
) -> Spent<W> {
    let (pid, k) = (seat.pid(), seat.calls());
    shared.gate.before(pid, k);
    let spent = seat.exit(shared.rt);
    shared.gate.after(pid, k);
    spent
}

/// Why the worker of this line stops there.
fn stop_at(line: &Line, fault: CallFault) -> Stop {
    match fault {
        CallFault::NoMemory => Stop::NoMemory,
        CallFault::Deadlock => Stop::Deadlock(line.pid, line.number),
        CallFault::Stranger | CallFault::Full => Stop::Stranger,
    }
}
