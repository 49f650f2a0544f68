//! Runs a script over a kernel, one call after the other, and writes the trace of its history, the history beside
//! the script, or both as JSON.
#![tactic(auto)]

mod comparing;
mod echo;
mod json_lines;
mod objects;
mod places;
mod run;
mod session;
mod updating;
mod write;

pub use comparing::differences;
pub use echo::finish_echo;
pub use json_lines::{finish_json, write_differences, write_value};
pub use objects::objects_of;
pub use places::line_numbers;
pub use run::{NoWatch, Watch, finish_trace, make_call, make_serial, make_watched, run_serial};
pub use session::{Followed, LineSource, Listener, follow, read_header};
pub use updating::with_replies;
pub use write::{put_all, write_trace};
