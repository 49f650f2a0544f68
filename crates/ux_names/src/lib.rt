//! The names of a layer (unix(7)): paths, and names of the abstract namespace, each kind a list in order
//! of binding, which `in_order` sorts when it is asked for. A name is found, bound and taken away by a hash
//! of its bytes, whatever else is in use, and the lowest name that autobind may give is found without a
//! search through those that are in use.
#![tactic(auto)]

mod abstract_names;
mod addresses;
mod digits;
mod listing;
mod paths;
mod refusals;
mod seed;

pub use abstract_names::AbstractNames;
pub use addresses::{is_unnamed, is_valid_addr, is_valid_path};
pub use paths::{PathTarget, Paths};
pub use refusals::{AutobindError, BindError};
pub use seed::Seed;
// A crate can name `Paths` and `AbstractNames` in a contract only if the types of their fields are exported.
#[doc(hidden)]
pub use listing::{Binding, Listing};
#[doc(hidden)]
pub use paths::KeptTarget;
