//! Tests of sessions, and of what a supervisor is told.
#![tactic(auto)]

#[cfg(test)]
mod desk;
#[cfg(test)]
mod drawn;
#[cfg(test)]
mod memory;
#[cfg(test)]
mod rows;
