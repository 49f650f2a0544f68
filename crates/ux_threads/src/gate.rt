//! What is reported of each call of a worker, in the worker's thread.

use ux_types::Pid;

/// Whoever wants to know when a worker is about to make a call, and when it was made.
pub trait Gate: Sync {
    /// Before call `k` of a process.
    fn before(&self, pid: Pid, k: u64);

    /// After it.
    fn after(&self, pid: Pid, k: u64);
}

/// Nobody wants to know.
pub struct NoGate;

impl Gate for NoGate {
    fn before(&self, _pid: Pid, _k: u64) {}

    fn after(&self, _pid: Pid, _k: u64) {}
}
