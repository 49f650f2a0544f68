//! Room for a copy of the reply to one request, taken before the call is made, so that the copy can't lack memory.
#![tactic(auto)]

mod copying;
mod room;

pub use room::ReplyRoom;
