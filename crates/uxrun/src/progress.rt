//! How far a run is, counted where its calls are made.

use std::rt::Clock;
use ux_command::Meter;
use ux_script::Watch;
use ux_threads::Gate;
use ux_types::Pid;

/// The calls of a run are steps.
pub struct Calls<'a, 'b, R>(pub &'b Meter<'a, R>);

// Not derived, since it asks nothing of `R`.
impl<R> Drop for Calls<'_, '_, R> {
    fn drop(self) {
        let Calls(_meter) = self;
    }
}

impl<R: Clock + Eprint> Watch for Calls<'_, '_, R> {
    fn turn(&self) {
        self.0.step();
    }
}

impl<R: Clock + Eprint + Sync> Gate for Calls<'_, '_, R> {
    fn before(&self, _pid: Pid, _k: u64) {}

    fn after(&self, _pid: Pid, _k: u64) {
        self.0.step();
    }
}
