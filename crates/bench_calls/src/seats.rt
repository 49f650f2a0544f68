//! Calls by seats, each of which must be granted.
use crate::layers::is_granted;
use crate::rows::{Requests, Row};
use anyhow::{Result, anyhow};
use std::alloc::Global;
use std::sync::Wait;
use std::time::Duration;
use ux_book::{BookName, Entries, Keeper, has_own_call};
use ux_layer::Seat;
use ux_objects::Plain;
use ux_types::Request;

/// How often each thread makes its calls.
pub(crate) const TURNS: u32 = 20_000;

/// How a seat makes a call.
#[derive(Clone, Copy, Drop)]
pub(crate) enum Way {
    /// At once.
    Call,
    /// When it can be done.
    Blocking,
}

/// A seat, and how it makes calls.
pub(crate) struct Worker<W: BookName, K: Keeper = Entries> {
    seat: Seat<W, Plain, K>,
    way: Way,
}

/// As of a layer that isn't shared.
impl<W: BookName, K: Keeper> Drop for Worker<W, K> {
    fn drop(self) {
        let Worker { seat, way: _ } = self;
        drop(seat);
    }
}

impl<W: BookName, K: Keeper> Worker<W, K> {
    pub(crate) fn new(seat: Seat<W, Plain, K>, way: Way) -> Worker<W, K> {
        Worker { seat, way }
    }

    /// Makes a call, and answers whether it was granted.
    fn call<R: Wait>(&mut self, rt: &R, request: &Request) -> Result<bool> {
        match self.way {
            Way::Call => self.call_at_once(rt, request),
            Way::Blocking => self.call_when_done(rt, request),
        }
    }

    /// Makes a call, and answers whether it was granted.
    fn call_at_once<R: Wait>(&mut self, rt: &R, request: &Request) -> Result<bool> {
        if has_own_call(request) {
            return Err(anyhow!("a fork or an exit isn't measured by a seat's call"));
        }
        match self.seat.call(rt, request) {
            Ok((reply, _receipt)) => Ok(is_granted(&reply)),
            Err(fault) => Err(anyhow!("{fault}")),
        }
    }

    /// Makes a call once it can be done, and answers whether it was granted.
    fn call_when_done<R: Wait>(&mut self, rt: &R, request: &Request) -> Result<bool> {
        if has_own_call(request) {
            return Err(anyhow!("a fork or an exit isn't measured by a seat's call"));
        }
        match self.seat.call_blocking(rt, request) {
            Ok((reply, _receipt)) => Ok(is_granted(&reply)),
            Err(fault) => Err(anyhow!("{fault}")),
        }
    }

    /// Makes these calls, each of which must be granted.
    fn call_all<R: Wait>(&mut self, rt: &R, calls: &[Request]) -> Result<()> {
        for request in calls {
            if !self.call(rt, request)? {
                return Err(anyhow!("a call was refused"));
            }
        }
        Ok(())
    }

    /// Makes the calls of these rows.
    pub(crate) fn call_rows<R: Wait>(&mut self, rt: &R, alloc: Global, rows: &[Row]) -> Result<()> {
        let calls = Requests::of(alloc, rows)?;
        self.call_all(rt, calls.as_slice())
    }

    /// Makes these calls in turn.
    pub(crate) fn repeat<R: Wait>(&mut self, rt: &R, calls: &Requests) -> Result<()> {
        for _ in 0..TURNS {
            self.call_all(rt, calls.as_slice())?;
        }
        Ok(())
    }
}

/// What one of so many turns took, in nanoseconds.
pub(crate) fn each(time: Duration, turns: usize) -> u128 {
    time.as_nanos() / (turns as u128).max(1)
}
