//! The ends that wait at a listener.
ghost use Rattle.std.specs.Prelude.{◌≡◌, ◌≤◌, ◌↔◌, [], length, drop, IsTrue, OnOk, OnErr, slice_get};
ghost use Rattle.ux_model.specs.Backlog.{backlog_of, with_pending};
ghost use Rattle.ux_backlog.specs.Refusals.{refusal_of};
ghost use Rattle.ux_backlog.specs.declared.backlog.PushError.{PushError};

use std::alloc::{AllocError, Allocator, Global};
use std::collections::VecDeque;
use std::marker::Model;
use thiserror::Error;
use ux_types::{DescriptionId, Errno, Refusal};

/// The greatest backlog that listen(2) takes as it is (SOMAXCONN).
const GREATEST_LIMIT: i32 = 128;

/// Why an end can't wait.
#[derive(Clone, Copy, Debug, PartialEq, Eq, Error)]
pub enum PushError {
    /// As many ends wait as may, or more (EAGAIN of connect(2)).
    #[error("the backlog is full")]
    Full,
    /// The backlog was to grow, and found no memory (ENOMEM).
    #[error("out of memory")]
    NoMemory,
}

impl From<AllocError> for PushError {
    ghost from_gives = { λ _ error. error ≡ PushError.NoMemory };

    fn from(_error: AllocError) -> PushError {
        PushError::NoMemory
    }
}

impl From<PushError> for Refusal {
    ghost from_gives = { λ error refusal. refusal ≡ refusal_of error };

    fn from(error: PushError) -> Refusal {
        match error {
            PushError::Full => Refusal::Answer(Errno::EAGAIN),
            PushError::NoMemory => Refusal::NoMemory,
        }
    }
}

/// The ends that wait at a listening socket, by the handles of their descriptions, and how many may.
/// Contracts see the limit and the list of the descriptions' numbers, the oldest first.
#[derive(Debug, Drop)]
pub struct Backlog<A: Allocator = Global> {
    limit: usize,
    pending: VecDeque<DescriptionId, A>,
}

impl<A: Allocator> Model for Backlog<A> {
    ghost use Rattle.std.specs.Prelude.{◌≤◌};
    ghost use Rattle.ux_model.specs.Backlog as model;
    ghost use Rattle.ux_model.specs.Limits.{backlog_limit};

    ghost Value = { model.Backlog };

    ghost view = { λ b. record { limit = b.limit; pending = b.pending.items } };

    ghost invariant = { λ b. (1 ≤ b.limit) × (b.limit ≤ backlog_limit) };
}

impl<A: Allocator> Backlog<A> {
    /// The backlog of a socket that starts to listen, where no end waits. A backlog below 1 counts as 1,
    /// above 128 as 128 (listen(2)).
    pub fn new(alloc: A, backlog: i32) -> Backlog<A>
        ensures limit { result.limit ≡ backlog_of backlog }
        ensures empty { result.pending ≡ [] }
    {
        Backlog {
            limit: limit_of(backlog),
            pending: VecDeque::new(alloc),
        }
    }

    /// Listens again with another backlog, clamped likewise. No end is dropped, also where more wait than
    /// the new limit.
    pub fn set_limit(&mut self, backlog: i32)
        ensures limit { self.new.limit ≡ backlog_of backlog }
        ensures pending { self.new.pending ≡ self.old.pending }
    {
        self.limit = limit_of(backlog);
    }

    /// How many ends may wait: 1 to 128.
    pub fn limit(&self) -> usize
        ensures limit { result ≡ self.now.limit }
        ensures at_least { 1 ≤ self.now.limit }
        ensures at_most { self.now.limit ≤ 128 }
    {
        self.limit
    }

    /// Whether as many ends wait as may, or more.
    pub fn is_full(&self) -> bool
        ensures { IsTrue result ↔ (self.now.limit ≤ length self.now.pending) }
    {
        self.pending.len() >= self.limit
    }

    /// How many ends wait.
    pub fn len(&self) -> usize
        ensures { result ≡ length self.now.pending }
    {
        self.pending.len()
    }

    /// Whether no end waits.
    pub fn is_empty(&self) -> bool
        ensures { IsTrue result ↔ (self.now.pending ≡ []) }
    {
        self.pending.is_empty()
    }

    /// The oldest end, which the next accept takes.
    pub fn first(&self) -> Option<DescriptionId>
        ensures { result ≡ slice_get self.now.pending 0 }
    {
        self.get(0)
    }

    /// The end with this index, counted from the oldest on.
    pub fn get(&self, index: usize) -> Option<DescriptionId>
        ensures { result ≡ slice_get self.now.pending index }
    {
        self.pending.get(index).copied()
    }

    /// One more end waits, behind all others.
    ///
    /// # Errors
    ///
    /// `Full` exactly where the backlog is full, else `NoMemory`. The backlog is then as before.
    pub fn push(&mut self, end: DescriptionId) -> Result<(), PushError>
        ensures ok { OnOk result (self.new ≡ with_pending self.old end) }
        ensures full { (result ≡ Err PushError.Full) ↔ (self.old.limit ≤ length self.old.pending) }
        ensures err { OnErr result (self.new ≡ self.old) }
    {
        if self.is_full() {
            return Err(PushError::Full);
        }
        match self.pending.push_back(end) {
            Ok(()) => Ok(()),
            Err(_) => Err(PushError::NoMemory),
        }
    }

    /// Takes the oldest end, if one waits. It needs no memory.
    pub fn pop(&mut self) -> Option<DescriptionId>
        ensures oldest { result ≡ slice_get self.old.pending 0 }
        ensures others { self.new.pending ≡ drop 1 self.old.pending }
        ensures limit { self.new.limit ≡ self.old.limit }
    {
        self.pending.pop_front()
    }
}

/// The limit that a backlog stands for.
fn limit_of(backlog: i32) -> usize
    ensures limit { result ≡ backlog_of backlog }
    ensures at_least { 1 ≤ result }
    ensures at_most { result ≤ 128 }
{
    backlog.clamp(1, GREATEST_LIMIT) as usize
}
