//! All orders of a script, one after another.
ghost use Rattle.std.specs.Prelude.{◌≡◌, ◌<◌, true, length, IfSome};

use crate::answers::Answers;
use crate::chooser::{Chooser, Ready};
use crate::met::Met;
use crate::order::place_of;
use std::alloc::{AllocError, Global};
use ux_types::{Entry, Pid};

/// Which orders aren't made, or not to their end.
#[derive(Clone, Copy, Debug, PartialEq, Eq)]
pub struct Reduction {
    /// Of orders that differ in where calls stand that concern their process alone, all but one.
    pub exchanged: bool,
    /// Those that come to a point to which another came: with the same state, the same lines left, and the same replies
    /// so far.
    pub merged: bool,
}

impl Reduction {
    /// All of these.
    pub fn all() -> Reduction
        ensures { result ≡ record { exchanged = true; merged = true } }
    {
        Reduction {
            exchanged: true,
            merged: true,
        }
    }
}

/// One line of the order that is made.
#[derive(Drop)]
struct OrderLine {
    /// Which process makes it.
    chosen: Pid,
    /// Which processes needn't make it: each order in which they do has the outcome of one that was made.
    asleep: Vec<Pid>,
    /// Those that needn't make the next line either.
    still_asleep: Vec<Pid>,
    /// Whether a further process may make it in place of the chosen one.
    more: bool,
}

/// Goes through all orders, the smaller list first. Each run makes one, and `advance` goes on to the next.
#[derive(Drop)]
pub(crate) struct Search {
    alloc: Global,
    places: Vec<OrderLine>,
    /// How many of the places are made again as they are.
    kept: usize,
    reduction: Reduction,
    /// The points to which orders came.
    met: Met,
    answers: Answers,
    /// How each process was answered so far, as a number.
    heard: Vec<usize>,
}

impl Search {
    /// Before the first order.
    ///
    /// # Errors
    ///
    /// Out of memory.
    pub(crate) fn new(alloc: Global, reduction: Reduction) -> Result<Search, AllocError> {
        Ok(Search {
            alloc,
            places: Vec::new(alloc),
            kept: 0,
            reduction,
            met: Met::new(alloc),
            answers: Answers::new(alloc)?,
            heard: Vec::new(alloc),
        })
    }

    /// How many points were kept, to which orders came.
    pub(crate) fn point_count(&self) -> usize {
        self.met.count()
    }

    /// Goes on to the next order, if there may be one: another process makes the last line of which that may be so.
    ///
    /// # Errors
    ///
    /// Out of memory.
    pub(crate) fn advance(&mut self) -> Result<bool, AllocError> {
        self.heard.clear();
        for _ in 0..self.places.len() {
            let Some(mut place) = self.places.pop() else {
                return Ok(false);
            };
            if place.more {
                self.kept = self.places.len();
                place.asleep.push(place.chosen)?;
                self.places.push(place)?;
                return Ok(true);
            }
        }
        Ok(false)
    }

    /// Who needn't make the next line, behind those that have places.
    fn next_asleep(&self) -> Result<Vec<Pid>, AllocError> {
        match self.places.last() {
            Some(place) => place.still_asleep.clone(),
            None => Ok(Vec::new(self.alloc)),
        }
    }

    /// The point, with how each process was answered up to it.
    fn with_answers(&self, point: Vec<u8>) -> Result<Vec<u8>, AllocError> {
        let mut whole = point;
        for row in &self.heard {
            whole.extend_from_slice(&row.to_le_bytes())?;
        }
        Ok(whole)
    }

    /// Chooses the lowest of these processes above this one that isn't asleep.
    fn choose_above(
        &mut self,
        above: Pid,
        asleep: Vec<Pid>,
        ready: &[Ready],
    ) -> Result<Option<usize>, AllocError> {
        let Some(place) = next_awake(ready, 0, above, &asleep) else {
            self.places.push(exhausted(self.alloc, asleep))?;
            return Ok(None);
        };
        let chosen = ready[place];
        let still_asleep = self.still_asleep(&asleep, ready, chosen)?;
        self.places.push(OrderLine {
            chosen: chosen.pid,
            more: next_awake(ready, place + 1, above, &asleep).is_some(),
            asleep,
            still_asleep,
        })?;
        Ok(Some(place))
    }

    /// Which of these sleepers sleep on when the chosen process has made its line: those whose lines can be exchanged
    /// with it.
    fn still_asleep(
        &self,
        asleep: &[Pid],
        ready: &[Ready],
        chosen: Ready,
    ) -> Result<Vec<Pid>, AllocError> {
        let mut still = Vec::new(self.alloc);
        if !self.reduction.exchanged {
            return Ok(still);
        }
        for pid in asleep {
            if chosen.alone || is_alone_of(ready, *pid) {
                still.push(*pid)?;
            }
        }
        Ok(still)
    }
}

impl Chooser for Search {
    fn choose(&mut self, made: usize, ready: &[Ready]) -> Result<Option<usize>, AllocError> {
        if made < self.kept {
            return match self.places.get(made) {
                Some(place) => Ok(place_of(ready, place.chosen)),
                None => Ok(None),
            };
        }
        if made >= self.places.len() {
            let asleep = self.next_asleep()?;
            return self.choose_above(Pid(0), asleep, ready);
        }
        match self.places.pop() {
            Some(place) => self.choose_above(place.chosen, place.asleep, ready),
            None => Ok(None),
        }
    }

    fn compares(&self) -> bool {
        self.reduction.merged
    }

    fn hear(&mut self, entry: &Entry, object: Option<u32>) -> Result<(), AllocError> {
        let index = entry.pid.0 as usize;
        for _ in self.heard.len()..index.saturating_add(1) {
            self.heard.push(0)?;
        }
        if let Some(row) = self.heard.get_mut(index) {
            *row = self.answers.behind(*row, entry, object)?;
        }
        Ok(())
    }

    fn is_new(&self, made: usize) -> bool {
        self.reduction.merged && made >= self.places.len()
    }

    fn is_met(&mut self, point: Vec<u8>) -> Result<bool, AllocError> {
        let asleep = self.next_asleep()?;
        let whole = self.with_answers(point)?;
        if self.met.has(&whole, &asleep) {
            return Ok(true);
        }
        self.met.add(whole, asleep)?;
        Ok(false)
    }
}

/// A line for which no process is left to be chosen.
fn exhausted(alloc: Global, asleep: Vec<Pid>) -> OrderLine {
    OrderLine {
        chosen: Pid(0),
        asleep,
        still_asleep: Vec::new(alloc),
        more: false,
    }
}

/// The first place from this one on of a process above this one that isn't asleep.
fn next_awake(ready: &[Ready], from: usize, above: Pid, asleep: &[Pid]) -> Option<usize>
    ensures { IfSome result (λ place. place < length ready.now) }
{
    for (place, one) in ready.iter().enumerate() {
        if place >= from && one.pid.0 > above.0 && !asleep.contains(&one.pid) {
            return Some(place);
        }
    }
    None
}

/// Whether the process is among these, with a call that concerns it alone.
fn is_alone_of(ready: &[Ready], pid: Pid) -> bool {
    ready.iter().any(|one| one.pid == pid && one.alone)
}
