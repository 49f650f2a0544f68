//! A history as a sequence diagram, in the language of Mermaid: who sent what to whom, in order.
#![tactic(auto)]

mod arrows;
mod diagram;

pub use diagram::sequence;
