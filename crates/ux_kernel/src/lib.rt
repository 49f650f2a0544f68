//! The layer as a machine: one value with all file objects, open file descriptions, processes and
//! paths, which makes one call at a time.
#![tactic(auto)]

mod accepting;
mod binding;
mod boot;
mod closing;
mod connecting;
mod descriptors;
mod files;
mod forking;
mod kernel;
mod making;
mod object_bytes;
mod open_file;
mod options;
mod pairing;
mod polling;
mod queue_lengths;
mod reading;
mod step;
mod unlinking;
mod users;
mod waiting;
mod writing;

pub use boot::BootFault;
pub use kernel::Kernel;
pub use ux_names::Seed;
