//! Runs a script in one order of its processes' lines, and in every order.
#![tactic(auto)]

mod answers;
mod chooser;
mod compared;
mod crew;
mod draw;
mod each;
mod exploring;
mod member;
mod met;
mod order;
mod outcome;
mod point;
mod ran;
mod run;
mod search;
mod spelled;
mod touched;

pub use chooser::{Chooser, Ready};
pub use draw::Draw;
pub use each::explore_each;
pub use exploring::{Boot, Found, explore};
pub use order::{Order, make_order, read_order};
pub use outcome::is_same_outcome;
pub use ran::{OrderFault, OrderList, Ran};
pub use run::run_order;
pub use search::Reduction;
