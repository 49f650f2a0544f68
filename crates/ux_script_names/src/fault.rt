//! Why the names of a script mean nothing.

use std::alloc::{AllocError, AllocFailed};
use thiserror::Error;

/// Why a script with names stands for none. Each fault of a line begins with the line's number, counted from 1.
#[derive(Debug, Drop, Error)]
pub enum NameFault {
    /// Nothing was named so.
    #[error("line {0}: nothing is named {1}")]
    Unknown(usize, String),
    /// The call in the second of these lines gave nothing to be named so.
    #[error("line {0}: nothing is named {1}: the call of line {2} gave nothing for it")]
    NotGiven(usize, String, usize),
    /// What was named so in the second of these lines is closed, or its number leads elsewhere now.
    #[error("line {0}: {1}, which line {2} names, is closed, or its number leads elsewhere")]
    Lost(usize, String, usize),
    /// What stands where a name is to stand isn't one.
    #[error("line {0}: {1} is no name: a letter or _, and behind it letters, digits and _")]
    NoName(usize, String),
    /// A process is named so, or it is a word with which other lines begin.
    #[error("line {0}: {1} is taken: a process, or a line of another kind, begins so")]
    Taken(usize, String),
    /// No name stands behind `->`.
    #[error("line {0}: behind -> stands a name for what the call gives")]
    Missing(usize),
    /// Memory ran out.
    #[error("out of memory")]
    NoMemory,
}

impl From<AllocError> for NameFault {
    fn from(_error: AllocError) -> NameFault {
        NameFault::NoMemory
    }
}

impl<T: Drop> From<AllocFailed<T>> for NameFault {
    fn from(_error: AllocFailed<T>) -> NameFault {
        NameFault::NoMemory
    }
}
