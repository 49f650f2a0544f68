//! Who waits at the book, so that a layer finds out when nobody is left to wake anybody.
use std::alloc::{AllocError, Global};
#[cfg(test)]
use std::test::Fail;
use ux_types::Pid;

/// Counts the calls of each process, and the seats that wait. A seat that has found that it must wait continues only
/// after an entry, since its call is answered by the book alone; so once the seats of all processes that haven't
/// exited have found it since the last entry, none of them ever continues.
#[derive(Drop)]
pub(crate) struct Waiters {
    /// How many calls each process has made, by its number; nobody's first.
    calls: Vec<u64>,
    /// How many processes haven't exited.
    live: usize,
    /// How many seats have found that they must wait since the last entry, and wait still.
    idle: usize,
    /// Counts the entries.
    round: u64,
    /// Counts how often all seats were found to wait.
    deadlocks: u64,
}

/// What one wait of a seat has found so far.
#[derive(Clone, Copy)]
pub(crate) struct Ticket {
    /// The round in which it was counted last.
    round: Option<u64>,
    /// How often all seats had been found to wait when it began.
    deadlocks: u64,
}

impl Waiters {
    /// The seats of so many processes, none of which waits.
    pub(crate) fn new(alloc: Global, live: usize) -> Result<Waiters, AllocError> {
        let mut calls = Vec::new(alloc);
        for _ in 0..live {
            calls.push(0)?;
        }
        calls.push(0)?;
        Ok(Waiters {
            calls,
            live,
            idle: 0,
            round: 0,
            deadlocks: 0,
        })
    }

    /// How many calls this process has made.
    pub(crate) fn calls_of(&self, pid: Pid) -> u64 {
        match self.calls.get(pid.0 as usize) {
            Some(calls) => *calls,
            None => 0,
        }
    }

    /// A wait that begins now.
    pub(crate) fn ticket(&self) -> Ticket {
        Ticket {
            round: None,
            deadlocks: self.deadlocks,
        }
    }

    /// An entry of this process was made: whoever waits looks again.
    pub(crate) fn entry_made(&mut self, pid: Pid) {
        if let Some(calls) = self.calls.get_mut(pid.0 as usize) {
            *calls = calls.saturating_add(1);
        }
        self.round = self.round.wrapping_add(1);
        self.idle = 0;
    }

    /// Makes room for one more process.
    pub(crate) fn reserve(&mut self) -> Result<(), AllocError> {
        self.calls.reserve(1)?;
        Ok(())
    }

    /// The entry of a fork was made, which made a process or none. There is room for it.
    pub(crate) fn fork_made(&mut self, pid: Pid, made: bool) {
        if made {
            self.live = self.live.saturating_add(1);
            let _kept = self.calls.push(0);
        }
        self.entry_made(pid);
    }

    /// The entry of an exit was made.
    pub(crate) fn exit_made(&mut self, pid: Pid) {
        self.live = self.live.saturating_sub(1);
        self.entry_made(pid);
    }

    /// Whether all seats were found to wait since this wait began.
    fn is_over(&self, ticket: Ticket) -> bool {
        ticket.deadlocks != self.deadlocks
    }

    /// Counts a seat that must wait, once a round. Where all seats do, their waits are over, and it says so, to each.
    pub(crate) fn is_in_vain(&mut self, ticket: &mut Ticket) -> bool {
        if self.is_over(*ticket) {
            return true;
        }
        if ticket.round != Some(self.round) {
            ticket.round = Some(self.round);
            self.idle = self.idle.saturating_add(1);
        }
        if self.idle < self.live {
            return false;
        }
        self.deadlocks = self.deadlocks.wrapping_add(1);
        self.idle = 0;
        true
    }

    /// A seat waits no more, for which no entry was made: it isn't counted any longer.
    pub(crate) fn leave(&mut self, ticket: Ticket) {
        if ticket.round == Some(self.round) && !self.is_over(ticket) {
            self.idle = self.idle.saturating_sub(1);
        }
    }
}

#[test]
fn a_wait_that_ends_without_an_entry_is_no_longer_counted(rt: HostRuntime) -> Result<(), Fail> {
    let mut waiters = Waiters::new(rt.alloc(), 2)?;
    let mut ended = waiters.ticket();
    let alone = waiters.is_in_vain(&mut ended);
    waiters.leave(ended);
    let mut first = waiters.ticket();
    let still_alone = waiters.is_in_vain(&mut first);
    let mut second = waiters.ticket();
    let both = waiters.is_in_vain(&mut second);
    assert_eq!(rt; (alone, still_alone, both), (false, false, true));
    // The first is in vain too, and leaves without uncounting one that waits since.
    let over = waiters.is_in_vain(&mut first);
    let mut again = waiters.ticket();
    let anew = waiters.is_in_vain(&mut again);
    waiters.leave(first);
    let mut last = waiters.ticket();
    let all = waiters.is_in_vain(&mut last);
    assert_eq!(rt; (over, anew, all), (true, false, true));
    Ok(())
}
