//! Tests of `ux_json`. Beside it they would have it proved once more.
#![tactic(auto)]

#[cfg(test)]
mod arguments;
#[cfg(test)]
mod lines;
#[cfg(test)]
mod replies;
