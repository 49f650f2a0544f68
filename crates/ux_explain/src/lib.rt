//! Why a script is at fault: where its line goes wrong, and what is expected there.
#![tactic(auto)]

mod boot;
mod cause;
mod context;
mod control;
mod elsewhere;
mod excerpt;
mod explanation;
mod forms;
mod lines;
mod names;
mod near;
mod numbers;
mod place;
mod polling;
mod quoted;
mod texts;
mod words;

pub use boot::{BootExplanation, explain_boot};
pub use cause::Cause;
pub use elsewhere::Elsewhere;
pub use excerpt::Excerpt;
pub use explanation::{Explanation, explain, explain_line};
pub use forms::Form;
