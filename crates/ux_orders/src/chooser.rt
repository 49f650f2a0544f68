//! Who makes the next line.
use std::alloc::AllocError;
use ux_types::{Entry, Pid};

/// A process that may make its next line.
#[derive(Clone, Copy, Debug, PartialEq, Eq)]
pub struct Ready {
    /// The process.
    pub pid: Pid,
    /// Whether that line is a call that concerns the process alone: no call of another process changes its answer, and
    /// it changes the answer of none.
    pub alone: bool,
}

/// Chooses the order in which the lines of a script are made.
pub trait Chooser {
    /// The place, among these processes, of the one that makes the next line, after so many were made. They stand by
    /// rising number. Where the call of that line has to wait it isn't made, and the question comes again without the
    /// process. None of them ends the run.
    ///
    /// # Errors
    ///
    /// Out of memory.
    fn choose(&mut self, made: usize, ready: &[Ready]) -> Result<Option<usize>, AllocError>;

    /// Whether it asks which points of a run came up before.
    fn compares(&self) -> bool {
        false
    }

    /// Hears of a call that was made, with the file object that it read or wrote.
    ///
    /// # Errors
    ///
    /// Out of memory.
    fn hear(&mut self, _entry: &Entry, _object: Option<u32>) -> Result<(), AllocError> {
        Ok(())
    }

    /// Whether nobody was chosen yet after so many lines.
    fn is_new(&self, _made: usize) -> bool {
        false
    }

    /// Whether another order came to this point, with the same replies so far, so that the run may end there. The bytes
    /// spell the state and which lines are left.
    ///
    /// # Errors
    ///
    /// Out of memory.
    fn is_met(&mut self, _point: Vec<u8>) -> Result<bool, AllocError> {
        Ok(false)
    }
}
