//! Compares a history: with what a second kernel answers to its calls, and with the script whose calls it should hold.
#![tactic(auto)]

mod check;
mod script_calls;

pub use check::{ReplayFault, check_history, replay, replay_entry, replay_on};
pub use script_calls::{makes_all, makes_first};
