//! Tests of the facade: each method of a session and of a seat, answered and refused; and what a layer starts with.
#![tactic(auto)]

#[cfg(test)]
mod boots;
#[cfg(test)]
mod families;
#[cfg(test)]
mod layered;
#[cfg(test)]
mod methods;
#[cfg(test)]
mod orders;
#[cfg(test)]
mod sessions;
