//! Tests of `ux_book`. Beside it they would have it proved once more.
#![tactic(auto)]

#[cfg(test)]
mod book;
