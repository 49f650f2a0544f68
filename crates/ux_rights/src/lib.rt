//! The rights of a message (SCM_RIGHTS of unix(7)): references to open file descriptions, where they come
//! from, how many of them a receiver gets, and why a queue takes none.
#![tactic(auto)]

mod draft;
mod installing;
mod origin;
mod references;
mod refusals;

pub use draft::Draft;
pub use installing::install_count;
pub use origin::Origin;
pub use references::{INLINE, RefList, Reference};
pub use refusals::SendError;
