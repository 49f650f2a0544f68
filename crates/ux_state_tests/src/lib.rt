//! Tests of the state, of names and backlogs, and of what is looked at before a message: control buffers,
//! credentials, and the room for a copy. Beside their crates they would have each proved once more.
#![tactic(auto)]

#[cfg(test)]
mod backlogs;
#[cfg(test)]
mod control;
#[cfg(test)]
mod credentials;
#[cfg(test)]
mod names;
#[cfg(test)]
mod rooms;
#[cfg(test)]
mod state;
