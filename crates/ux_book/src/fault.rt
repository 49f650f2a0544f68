//! Why a call, the end of a layer or a settling was not made.
ghost use Rattle.std.specs.Prelude.{◌≡◌};
ghost use Rattle.ux_book.specs.declared.fault.CallFault.{CallFault};

use std::alloc::AllocError;
use thiserror::Error;

/// An allocation failed.
#[derive(Clone, Copy, Debug, PartialEq, Eq, Error)]
#[error("out of memory")]
pub struct NoMemory;

impl From<AllocError> for NoMemory {
    fn from(_error: AllocError) -> NoMemory {
        NoMemory
    }
}

/// Why a call was no entry.
#[derive(Clone, Copy, Debug, PartialEq, Eq, Error)]
pub enum CallFault {
    /// No live process has this number: only where a caller gives a number, and no share.
    #[error("no live process has this number")]
    Stranger,
    /// An allocation failed.
    #[error("out of memory")]
    NoMemory,
    /// There are so many entries that no more can be counted, but for the last ones.
    #[error("too many calls")]
    Full,
    /// Every process that hasn't exited waits, so nobody is left to wake one.
    #[error("deadlock")]
    Deadlock,
}

impl From<AllocError> for CallFault {
    ghost from_gives = { λ _ error. error ≡ CallFault.NoMemory };

    fn from(_error: AllocError) -> CallFault {
        CallFault::NoMemory
    }
}

/// Why the layer can't be ended.
#[derive(Clone, Copy, Debug, PartialEq, Eq, Error)]
pub enum OffFault {
    /// A process hasn't exited.
    #[error("a process hasn't exited")]
    Alive,
    /// It was ended before.
    #[error("ended before")]
    Given,
}

/// Why accounts don't settle: a process of the start, or a child that one of the processes made, has no spent share
/// among them, or several.
#[derive(Clone, Copy, Debug, PartialEq, Eq, Error)]
#[error("a process's share is missing or doubled")]
pub struct Missing;
