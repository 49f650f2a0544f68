//! How a process came to a descriptor.
use crate::identity::{Fd, Pid};

/// By what a process came to a descriptor.
#[derive(Clone, Copy, Debug, PartialEq, Eq)]
pub enum How {
    /// By a call that made the open file description or took its first descriptor: open(2), memfd_create(2),
    /// eventfd(2), pipe2(2), socket(2), socketpair(2) or accept(2).
    Made,
    /// By dup(2) or dup2(2).
    Dup,
    /// By a message (SCM_RIGHTS), which was sent by the entry with this number.
    Received(u64),
    /// By fork(2).
    Forked,
}

/// A holding: the entry of a history that gave a process a descriptor, and how.
#[derive(Clone, Copy, Debug, PartialEq, Eq)]
pub struct Link {
    /// The number of the entry.
    pub entry: usize,
    /// The process that holds the descriptor.
    pub pid: Pid,
    /// The descriptor.
    pub fd: Fd,
    /// By what it came to it.
    pub how: How,
}
