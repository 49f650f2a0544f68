//! Why a script gave no trace.

ghost use Rattle.std.specs.Prelude.{◌≡◌};
ghost use Rattle.ux_syntax.specs.declared.fault.LineError.TheVariants.{Memory};
ghost use Rattle.ux_syntax.specs.declared.fault.ScriptFault.TheVariants.{NoMemory};
ghost use Rattle.ux_syntax.specs.Results.{fault_at};

use crate::waiting::Waiting;
use std::alloc::{AllocError, AllocFailed};
use thiserror::Error;

/// What is wrong with a line.
#[derive(Clone, Copy, Debug, PartialEq, Eq)]
pub enum Fault {
    /// It is none of the lines that a script may have there.
    BadLine,
    /// It names a process that isn't there: the header doesn't have it, and no fork line before makes it.
    UnknownProcess,
    /// It has more bytes than a line may have there: 4,096, and 200,000 behind a line `serial`.
    TooLong,
}

/// Why a line was not read.
#[derive(Clone, Copy, Debug)]
pub(crate) enum LineError {
    Memory,
    Fault(Fault),
}

pub(crate) const BAD: LineError = LineError::Fault(Fault::BadLine);

/// Why a script gave no trace. The numbers are of lines, counted from 1.
#[derive(Debug, Drop, Error)]
pub enum ScriptFault {
    /// A line that a script may not have there.
    #[error("line {0}: bad line")]
    BadLine(usize),
    /// A line that names a process that isn't there: the header doesn't have it, and no fork line before makes it.
    #[error("line {0}: unknown process")]
    UnknownProcess(usize),
    /// A line of more bytes than it may have: 4,096, and 200,000 behind a line `serial`.
    #[error("line {0}: too long")]
    TooLong(usize),
    /// The script couldn't be opened, or read to its end, or the machine gave no random keys for hash maps.
    #[error("reading failed")]
    Reading,
    /// The trace couldn't be written to its end.
    #[error("writing failed")]
    Writing,
    /// Memory ran out.
    #[error("out of memory")]
    NoMemory,
    /// A line is of no process, or of one that has exited. No text spells such a script.
    #[error("stranger")]
    Stranger,
    /// The script is to run in the order of its lines alone, and threads have no such order.
    #[error("a serial script has one order, and no threads")]
    OneOrder,
    /// Each process that has not exited waits, and nobody is left to wake one.
    #[error("deadlock: {0}")]
    Deadlock(Waiting),
}

impl From<AllocError> for LineError {
    ghost from_gives = { λ _ e. e ≡ Memory };

    fn from(_e: AllocError) -> LineError {
        LineError::Memory
    }
}

impl<T: Drop> From<AllocFailed<T>> for LineError {
    ghost from_gives = { λ _ e. e ≡ Memory };

    fn from(_e: AllocFailed<T>) -> LineError {
        LineError::Memory
    }
}

impl From<AllocError> for ScriptFault {
    ghost from_gives = { λ _ e. e ≡ NoMemory };

    fn from(_e: AllocError) -> ScriptFault {
        ScriptFault::NoMemory
    }
}

impl<T: Drop> From<AllocFailed<T>> for ScriptFault {
    ghost from_gives = { λ _ e. e ≡ NoMemory };

    fn from(_e: AllocFailed<T>) -> ScriptFault {
        ScriptFault::NoMemory
    }
}

impl LineError {
    /// The fault of the line of this number.
    pub(crate) fn at(self, number: usize) -> ScriptFault
        ensures { result ≡ fault_at number self }
    {
        match self {
            LineError::Memory => ScriptFault::NoMemory,
            LineError::Fault(Fault::BadLine) => ScriptFault::BadLine(number),
            LineError::Fault(Fault::UnknownProcess) => ScriptFault::UnknownProcess(number),
            LineError::Fault(Fault::TooLong) => ScriptFault::TooLong(number),
        }
    }
}
