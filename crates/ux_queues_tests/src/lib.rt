//! Tests of the queues and of the descriptions. Beside them they would have each proved once more.
#![tactic(auto)]

#[cfg(test)]
mod descriptions;
#[cfg(test)]
mod records;
#[cfg(test)]
mod streams;
#[cfg(test)]
mod unread;
#[cfg(test)]
mod values;
