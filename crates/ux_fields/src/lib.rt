//! What each call is: the word that names it, and its fields in the order of a script's line, each with a name and a kind.
//! Reading, traces, JSON and explanations go by kinds of fields, and so name no call.
#![tactic(auto)]

mod call_word;
mod fields;
mod forms;
mod laws;
mod requests;
mod same;

pub use call_word::{CallWord, SCRIPT_WORDS};
pub use fields::{Field, Fields};
pub use forms::{FieldForm, FieldKind, form_of};
pub use laws::{calls_are_made_again, fields_are_kept};
pub use requests::fields_of;
pub use same::{is_same_reply, is_same_request};
