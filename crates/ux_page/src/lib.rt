//! A run as one page of HTML: its calls, and who holds what at each of them, to be walked through. The page loads nothing, and its calls can
//! be read without its script.
#![tactic(auto)]

mod escape;
mod moments;
mod page;
mod texts;

pub use escape::text_stays_text;
pub use page::{Page, RunText};
