//! The queue of a datagram or seqpacket socket: whole messages, which a receive takes one at a time.
#![tactic(auto)]

mod queue;
mod record;

pub use queue::{RecordQueue, UnsentRecord};
pub use record::{Peeked, Record};
