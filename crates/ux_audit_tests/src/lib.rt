//! Tests of the audit on what a kernel was called and answered: who holds what at the end, and through whose
//! hands it came.
#![tactic(auto)]

#[cfg(test)]
mod calls;
#[cfg(test)]
mod chains;
#[cfg(test)]
mod holdings;
