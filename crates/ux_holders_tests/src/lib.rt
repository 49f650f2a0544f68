//! Tests of snapshots: their texts, their graphs, and their values; and of pages.
#![tactic(auto)]

#[cfg(test)]
mod counted;
#[cfg(test)]
mod graphs;
#[cfg(test)]
mod listings;
#[cfg(test)]
mod moments;
#[cfg(test)]
mod pages;
#[cfg(test)]
mod sequences;
#[cfg(test)]
mod values;
