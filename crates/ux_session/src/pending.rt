//! Calls that are pending, and what became of one that was asked for.
use ux_types::{Pid, Request};

/// A call that is made as soon as it needn't wait.
pub struct Pending {
    /// By which it is cancelled and its answer is known.
    pub number: u32,
    /// The process that makes it.
    pub pid: Pid,
    /// What it asks for.
    pub request: Request,
}

// Written out, so that it is proved here and not in each function that drops one.
impl Drop for Pending {
    fn drop(self) {
        let Pending {
            number: _,
            pid: _,
            request,
        } = self;
        drop(request)
    }
}

/// Which entries were made.
#[derive(Debug, Drop)]
pub struct Made {
    /// The place of the first in the history. All behind it were made, too.
    pub from: usize,
    /// Of each the number of the pending call that it answers; none where it answers a plain one.
    pub answered: Vec<Option<u32>>,
}
