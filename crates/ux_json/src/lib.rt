//! What `uxrun` says of a run as JSON (RFC 8259), one value a line.
#![tactic(auto)]

mod arguments;
mod call;
mod control;
mod holding;
mod line;
mod outcome;
mod reply;
mod words;

pub use arguments::arguments_value;
pub use call::call_value;
pub use control::cred_value;
pub use holding::{audit_value, held_value};
pub use line::line_of;
pub use outcome::{check_value, difference_value, expect_value};
pub use reply::reply_value;
pub use words::{addr_text, path_text};
