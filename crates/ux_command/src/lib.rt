//! The command line of `uxrun`, and why it prints no whole trace.
#![tactic(auto)]

mod answers;
mod args;
mod fault;
mod forms;
mod meter;
mod orders;
mod point;
mod source;
mod views;

pub use args::{Args, read_args};
pub use fault::CommandFault;
pub use meter::Meter;
pub use orders::Orders;
pub use point::Point;
pub use source::{Kept, Source, line_reason};
