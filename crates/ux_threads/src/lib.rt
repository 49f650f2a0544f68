//! Runs a script with a thread for each process, and writes the trace of its history.
#![tactic(auto)]

mod compared;
mod gate;
mod run;
mod work;

pub use gate::{Gate, NoGate};
pub use run::{ThreadedRun, make_threads, run_threads};
