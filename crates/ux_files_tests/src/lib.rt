//! Tests of what files and descriptors are made of: plain types, file objects, slots, sets of numbers, tables, and
//! rights. Beside their crates they would have each proved once more.
#![tactic(auto)]

#[cfg(test)]
mod broken_object;
#[cfg(test)]
mod bytes;
#[cfg(test)]
mod number_sets;
#[cfg(test)]
mod objects;
#[cfg(test)]
mod rights;
#[cfg(test)]
mod slots;
#[cfg(test)]
mod tables;
#[cfg(test)]
mod types;
