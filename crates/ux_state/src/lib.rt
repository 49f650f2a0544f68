//! The whole state of the layer as one value: file objects, open file descriptions, processes with their
//! descriptor tables, and paths. It changes by named moves, each a method with its own clause, and
//! `settle` frees what nothing refers to any more. Whatever counts or refers lies behind it.
#![tactic(auto)]

mod binding;
mod connections;
mod delivering;
mod descriptions;
mod entries;
mod finding;
mod flights;
mod forking;
mod making;
mod names;
mod new_objects;
mod object_place;
mod objects;
mod openings;
mod process;
mod references;
mod release;
mod released_objects;
mod state;
mod users;

pub use finding::{FoundDescription, FoundSocket};
pub use new_objects::MakeError;
pub use released_objects::{ReleasedObject, ReleasedObjects};
pub use state::State;
