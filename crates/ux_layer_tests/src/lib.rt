//! Tests of `ux_kernel` and `ux_layer`. Beside them they would have each proved once more.
#![tactic(auto)]

#[cfg(test)]
mod kernel;
#[cfg(test)]
mod layer;
