//! What poll(2) reports of an open file description: all conditions that hold now, by the table of readiness in
//! `docs/calls.md`. It takes no memory.
#![tactic(auto)]

mod conditions;
mod descriptions;
mod files;
mod sockets;

pub use descriptions::{readiness, reported};
