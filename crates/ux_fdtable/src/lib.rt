//! The descriptor table of a process: for each number below its limit a descriptor, or none. The
//! lowest number that isn't open is found in a few steps, however many are.
#![tactic(auto)]

mod descriptor;
mod table;

pub use descriptor::Descriptor;
pub use table::{DupError, InstallError, Table};
