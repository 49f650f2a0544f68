//! Tests of the runs of scripts and of histories, and of the command line that asks for them. Beside their crates
//! they would have each proved once more.
#![tactic(auto)]

#[cfg(test)]
mod again;
#[cfg(test)]
mod beside;
#[cfg(test)]
mod command;
#[cfg(test)]
mod following;
#[cfg(test)]
mod json_lines;
#[cfg(test)]
mod malformed;
#[cfg(test)]
mod metering;
#[cfg(test)]
mod naming;
#[cfg(test)]
mod serial;
#[cfg(test)]
mod threads;
#[cfg(test)]
mod updating;
