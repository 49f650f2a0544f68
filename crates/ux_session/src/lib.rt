//! A session for a supervisor: calls of all processes as they come, of which some are pending until they needn't wait; and
//! which description each new number leads to.
#![tactic(auto)]

mod asking;
mod fault;
mod numbers;
mod order;
mod pending;
mod session;
mod waking;

pub use fault::SessionFault;
pub use numbers::{Lead, leads};
pub use pending::{Made, Pending};
pub use session::Session;
