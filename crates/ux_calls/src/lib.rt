//! The requests of the calls, in few words.
#![tactic(auto)]

pub mod call;
