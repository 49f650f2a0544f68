//! Scripts of calls, which are read.
#![tactic(auto)]

mod acts;
mod calls;
mod control;
mod expectations;
mod fault;
mod forms;
mod headers;
mod input;
mod line_reader;
mod paths;
mod plain;
mod polling;
mod progress;
mod reading;
mod row;
mod script;
mod tidy;
mod waiting;
mod words;

pub use control::items_are_spelled;
pub use expectations::{Expectation, asks_call, expectations_of, expected_in};
pub use fault::{Fault, ScriptFault};
pub use forms::is_line;
pub use input::read_script;
pub use line_reader::LineReader;
pub use plain::{echoes_are_read, plain_line, plain_lines_stay};
pub use reading::{one_script, parse_script, split_lines};
pub use script::{Act, Line, ObjectLine, SERIAL_LINE_LIMIT, Script};
pub use tidy::{is_marked, tidy_line, tidy_text};
pub use waiting::Waiting;
