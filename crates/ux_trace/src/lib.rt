//! Traces: the text of a history, a line for each call.
#![tactic(auto)]

mod arguments;
mod choices;
mod echo;
mod entry;
mod polling;
mod reply;
mod words;

pub use choices::{mode_word, option_word, type_word, whence_word};
pub use echo::echo_text;
pub use entry::{answer_text, entry_text};
pub use reply::errno_name;
pub use ux_fields::CallWord;
pub use words::{AddrText, HexText, NameText, stands};
