//! The history of the layer: what was called, in which order, and what was answered.
#![tactic(auto)]

mod account;
mod book;
mod book_name;
mod call;
mod copies;
mod fault;
mod keeper;
mod receipts;
mod serial;
mod shares;
mod trail;

pub use account::Account;
pub use book::{Book, has_own_call};
pub use book_name::BookName;
pub use call::Call;
pub use copies::copy_entries;
pub use fault::{CallFault, Missing, NoMemory, OffFault};
pub use keeper::{Entries, Keeper, Nothing};
pub use receipts::Receipt;
pub use serial::Serial;
pub use shares::{Share, Spent};
pub use trail::Trail;
pub use ux_types::Entry;
