//! Slots for values that are referred to from several places, as open file descriptions are from
//! descriptors and from messages in flight. A slot is used again once its value was taken out; the
//! number by which a handle names a value never is.
#![tactic(auto)]

mod slot;
mod slots;

// A crate can name `Slots` in a contract only if the types of its fields are exported.
#[doc(hidden)]
pub use slot::Slot;
pub use slots::Slots;
