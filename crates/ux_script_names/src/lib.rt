//! Scripts as people type them: with names of processes and of descriptors, further blanks, and comments behind calls.
#![tactic(auto)]

mod constants;
mod fault;
mod line;
mod names;
mod polls;
mod run;
mod scope;
mod typed;
mod words;

pub use fault::NameFault;
pub use run::NamedScript;
pub use scope::Named;
pub use typed::{Typed, as_typed};
pub use words::{Meanings, WordFault, line_for};
