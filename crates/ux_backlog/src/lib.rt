//! The backlog of a listening socket: the ends of connections that wait until accept(2) takes them, first
//! in, first out, and how many may wait (listen(2)).
#![tactic(auto)]

mod backlog;

pub use backlog::{Backlog, PushError};
