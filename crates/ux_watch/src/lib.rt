//! What a supervisor is told of open file descriptions: readiness as poll(2) has it, and how much is unread as FIONREAD of
//! ioctl(2) has it; and which of it has changed since it was told.
#![tactic(auto)]

mod told;
mod watch;

pub use told::{Told, tell};
pub use watch::{Change, Watch};
