//! The layer that threads share: each process is a seat, which may go to any thread, and each call of a seat
//! is one entry of one history, which is kept under one lock.
#![tactic(auto)]

mod layer;
mod seat;
mod waiters;

pub use layer::{BookGuard, Layer, start, start_book, start_counting};
pub use seat::Seat;
