//! Sets of numbers from 0 on, in which the first free number is found in a few steps, however many are in use.
#![tactic(auto)]

mod bit_words;
mod grouped_set;
mod number_set;

// A crate can name `NumberSet` in a contract only if the types of its fields are exported.
#[doc(hidden)]
pub use bit_words::BitWords;
pub use grouped_set::GroupedSet;
pub use number_set::NumberSet;
