//! The queue of a stream socket. The bytes of all messages lie in one ring; a message is a mark that
//! says how many of them are its own, and what is sent with them.
#![tactic(auto)]

mod byte_ring;
mod mark;
mod marks;
mod queue;

pub use mark::Mark;
pub use queue::{PeekedBytes, StreamQueue, Unsent};
// A crate can name `StreamQueue` in a contract only if the types of its fields are exported.
#[doc(hidden)]
pub use byte_ring::ByteRing;
