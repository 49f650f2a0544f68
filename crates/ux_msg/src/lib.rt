//! The calls that move messages: sending to a socket and receiving at one, by sendmsg(2), recvmsg(2),
//! write(2) and read(2). Each changes a state by its moves, and its contract is one outcome of the
//! definitions.
#![tactic(auto)]

mod datagrams;
mod delivering;
mod flight;
mod receiving;
mod sending;

pub use receiving::{Incoming, read_socket, recv_msg};
pub use sending::{Outgoing, send_msg, write_socket};
