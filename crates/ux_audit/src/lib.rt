//! Who got which open file from whom: what each process holds at the end of a kept history, and through
//! whose hands each descriptor came (SCM_RIGHTS of unix(7), dup(2), fork(2)).
#![tactic(auto)]

mod audit;
mod chain;
mod flags;
mod hands;
mod held;
mod index;
mod lists;
mod origin;
mod shown;
mod tables;
mod text;
mod walk;

pub use audit::{Audit, holdings};
pub use chain::Chain;
pub use text::chain_text;
pub use ux_types::{How, Link};
