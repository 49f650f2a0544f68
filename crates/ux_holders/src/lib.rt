//! Who holds what at one moment: the open numbers of each process, what each description leads to and how many
//! references it has, the messages that wait with what they pass, file objects and paths.
#![tactic(auto)]

mod descriptions;
mod files;
mod graph;
mod holders;
mod listed;
mod processes;
mod rows;
mod snapshot;
mod sockets;
mod text;
mod values;
mod words;

pub use graph::dot;
pub use rows::{
    DescriptionRow, MessageRow, NumberRow, ObjectRow, PathRow, ProcessRow, SocketRow, TargetRow,
};
pub use snapshot::{Snapshot, take_snapshot};
pub use values::snapshot_values;
