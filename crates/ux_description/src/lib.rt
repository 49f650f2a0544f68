//! The open file description: what all descriptors of one open file share, and what it leads to, a file
//! object or a socket with its queue.
#![tactic(auto)]

mod description;
mod listening;
mod phase;
mod queue;
mod socket;
mod socket_changes;
mod unread;

pub use description::{Description, Target};
pub use phase::{Listener, Phase};
pub use queue::Queue;
pub use socket::Socket;
pub use unread::Unread;
