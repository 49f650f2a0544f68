//! The threads that wait for processes to be made.
ghost use Rattle.std.specs.Prelude.{◌≡◌, [], false, IfOk, IfErr};
ghost use Rattle.ux_model.specs.Types.{Pid, Request, Reply};
ghost use Rattle.ux_book.specs.declared.fault.CallFault.{CallFault};
ghost use Rattle.delortxa.specs.Answering.{Explains};
ghost use Rattle.delortxa.specs.Happening.{Happens, Forks};

use crate::fault::CallError;
use crate::seat::Seat;
use std::alloc::{AllocError, Global};
use std::mem;
use std::sync::{Condvar, Mutex, Wait};
use ux_book::BookName;
use ux_types::Pid;

/// A process that was made and has made no call, and what its parent gave it to do.
#[derive(Drop)]
pub(crate) struct Child<W: BookName, T: Drop> {
    pub(crate) seat: Seat<W>,
    pub(crate) task: T,
    ghost fresh: { seat.past ≡ [] },
}

/// The child of this seat, with its task.
fn with_task<W: BookName, T: Drop>(seat: Seat<W>, task: T) -> Child<W, T>
    requires { seat.past ≡ [] }
{
    Child { seat, task }
}

/// A place for each thread that waits for a child.
#[derive(Drop)]
struct Places<W: BookName, T: Drop> {
    /// Who may still make a child: each child whose program isn't over, and one for all processes of the start.
    parents: usize,
    /// How many places were given a child.
    taken: usize,
    places: Vec<Option<Child<W, T>>>,
}

impl<W: BookName, T: Drop> Places<W, T> {
    fn is_full(&self) -> bool {
        self.places.len() <= self.taken
    }

    /// Whether the thread at this place has to wait: it has no child yet, and may still get one.
    fn is_awaited(&self, place: usize) -> bool {
        0 < self.parents && !self.places.get(place).is_some_and(|child| child.is_some())
    }

    /// Gives the child to the next place, where there is one.
    fn put(&mut self, child: Child<W, T>) {
        if let Some(place) = self.places.get_mut(self.taken) {
            *place = Some(child);
            self.taken = self.taken.saturating_add(1);
            self.parents = self.parents.saturating_add(1);
        }
    }

    /// The child at this place, which is gone from there then.
    fn take(&mut self, place: usize) -> Option<Child<W, T>> {
        match self.places.get_mut(place) {
            Some(child) => child.take(),
            None => None,
        }
    }
}

/// Threads that wait for processes to be made, one for each child that the whole run may have. `T` is what a parent gives
/// its child to do.
#[derive(Drop)]
pub struct Nursery<W: BookName, T: Drop> {
    places: Mutex<Places<W, T>>,
    changed: Condvar,
}

impl<W: BookName, T: Drop> Nursery<W, T> {
    /// Has places for so many children.
    pub(crate) fn new(alloc: Global, children: usize) -> Result<Nursery<W, T>, AllocError> {
        let mut places = Vec::with_capacity(alloc, children)?;
        for _place in 0..children {
            places.push(None)?;
        }
        Ok(Nursery {
            places: Mutex::new(Places {
                parents: 1,
                taken: 0,
                places,
            }),
            changed: Condvar::new(),
        })
    }

    /// fork(2): a thread of the nursery makes the calls of the new process, by the program's `run_child` with this task. The
    /// child exits once that is over, also where it ends early by `?`. `None`, and no call, where each thread has had its
    /// child.
    ///
    /// # Errors
    ///
    /// Those of `Seat::fork`.
    pub fn fork<R: Wait>(
        &self,
        rt: &R,
        seat: &mut Seat<W>,
        task: T,
    ) -> Result<Option<Pid>, CallError>
        ensures made { IfOk result (λ made. Forks W.boot seat.old seat.new made) }
        ensures failed { IfErr result (λ error. Explains (λ reply. Happens W.boot seat.old seat.new Request.Fork reply false) (λ f. f ≡ CallFault.NoMemory) seat.old seat.new error) }
    {
        let mut places = self.places.lock(rt);
        if places.is_full() {
            return Ok(None);
        }
        let child = seat.fork(rt)?;
        let pid = child.pid();
        places.put(with_task(child, task));
        self.changed.notify_all();
        Ok(Some(pid))
    }

    /// The child at this place, once it is there; none where nobody is left who could make it.
    pub(crate) fn wait_at<R: Wait>(&self, rt: &R, place: usize) -> Option<Child<W, T>> {
        let places = self.places.lock(rt);
        let mut places = self
            .changed
            .wait_while(rt, places, |places| places.is_awaited(place));
        places.take(place)
    }

    /// One is less who may make a child.
    pub(crate) fn leave<R: Wait>(&self, rt: &R) {
        let mut places = self.places.lock(rt);
        places.parents = places.parents.saturating_sub(1);
        self.changed.notify_all();
    }

    /// No child is run any more: those that wait for a thread exit at once.
    pub(crate) fn close<R: Wait>(&self, rt: &R, alloc: Global) {
        let mut places = self.places.lock(rt);
        let left = mem::replace(&mut places.places, Vec::new(alloc));
        drop(places);
        for child in left.into_iter().flatten() {
            let Child { seat, task } = child;
            drop(task);
            drop(seat.exit(rt));
        }
    }
}
