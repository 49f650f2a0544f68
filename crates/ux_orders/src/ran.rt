//! What a run in one order has come to.
use std::alloc::{AllocError, AllocFailed};
use std::fmt;
use thiserror::Error;
use ux_types::{Entry, Pid};

/// The history of a run in one order.
#[derive(Drop)]
pub enum Ran {
    /// Of the whole script.
    Whole(Vec<Entry>),
    /// Up to where each process that is left has to wait: which, and in which line.
    Deadlock(Vec<Entry>, Vec<(Pid, usize)>),
    /// Up to where the chooser named none of the processes that may go on.
    BrokenOff(Vec<Entry>),
}

impl Ran {
    ghost use Rattle.std.specs.Prelude.{◌≡◌};
    ghost use Rattle.ux_orders.specs.Orders.{entries_of};
    ghost use Rattle.ux_orders.specs.Outcomes.{is_broken_off, is_deadlock};

    /// The entries, in order.
    pub fn entries(&self) -> &[Entry]
        ensures { result.now ≡ entries_of self.now }
    {
        match self {
            Ran::Whole(entries) | Ran::Deadlock(entries, _) | Ran::BrokenOff(entries) => {
                entries.as_slice()
            }
        }
    }

    /// Whether each process that is left has to wait.
    pub fn is_deadlock(&self) -> bool
        ensures { result ≡ is_deadlock self.now }
    {
        matches!(self, Ran::Deadlock(..))
    }

    /// Whether it was broken off, as the chooser named none of the processes that may go on.
    pub fn is_broken_off(&self) -> bool
        ensures { result ≡ is_broken_off self.now }
    {
        matches!(self, Ran::BrokenOff(_))
    }
}

/// Why there is no run.
#[derive(Clone, Copy, Debug, PartialEq, Eq, Error)]
pub enum OrderFault {
    /// Memory ran out, or a fork made no process.
    #[error("out of memory")]
    NoMemory,
    /// A line can't be made at all. No text spells such a script.
    #[error("stranger")]
    Stranger,
    /// No kernel could be made.
    #[error("no kernel")]
    NoKernel,
}

impl From<AllocError> for OrderFault {
    fn from(_error: AllocError) -> OrderFault {
        OrderFault::NoMemory
    }
}

impl<T: Drop> From<AllocFailed<T>> for OrderFault {
    fn from(_error: AllocFailed<T>) -> OrderFault {
        OrderFault::NoMemory
    }
}

/// The order of a history, as it is written: the process of each call, joined by commas. Behind one number alone a comma
/// stands too, and for no call a comma alone, so that no list is a number. The end of the layer isn't in it.
#[derive(Clone, Copy)]
pub struct OrderList<'a>(pub &'a [Entry]);

impl fmt::Display for OrderList<'_> {
    fn fmt<W: fmt::Write>(&self, f: &mut fmt::Formatter<W>) -> fmt::Result {
        let mut count: usize = 0;
        for entry in self.0 {
            if entry.pid.0 == 0 {
                continue;
            }
            let pid = entry.pid.0;
            if count > 0 {
                write!(f, ",")?;
            }
            write!(f, "{pid}")?;
            count = count.saturating_add(1);
        }
        if count < 2 {
            write!(f, ",")?;
        }
        Ok(())
    }
}
