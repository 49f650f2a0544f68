//! Whom a socket is tied to.

use ux_backlog::Backlog;
use ux_types::{Cred, DescriptionId};

/// Whom a socket is tied to. A peer or a target may be gone.
#[derive(Drop)]
pub enum Phase {
    /// Nobody.
    Idle,
    /// The ends that wait at a listener.
    Listening(Listener),
    /// The peer of a stream or seqpacket socket.
    Connected(DescriptionId),
    /// Where a datagram socket sends by default.
    Associated(DescriptionId),
}

/// What a listening socket keeps.
#[derive(Drop)]
pub struct Listener {
    pub(crate) backlog: Backlog,
    /// Of the process that called listen(2).
    pub(crate) cred: Cred,
}
