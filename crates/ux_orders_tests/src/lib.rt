//! Tests of `ux_orders`. Beside it they would have it proved once more.
#![tactic(auto)]

#[cfg(test)]
mod beside;
#[cfg(test)]
mod exploring;
#[cfg(test)]
mod machine;
#[cfg(test)]
mod one;
#[cfg(test)]
mod random;
