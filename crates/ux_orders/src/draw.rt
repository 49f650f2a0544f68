//! An order that a number stands for.
use crate::chooser::{Chooser, Ready};
use std::alloc::AllocError;

/// The factor of the generator, and what it adds (D. E. Knuth, MMIX).
const FACTOR: u64 = 6_364_136_223_846_793_005;

const SUMMAND: u64 = 1_442_695_040_888_963_407;

/// How many low bits of a drawn number are left out, which repeat soon.
const LOW_BITS: u32 = 33;

/// Draws each next process by a linear congruential generator: the same order for the same number, on any machine.
#[derive(Clone, Copy, Debug)]
pub struct Draw {
    state: u64,
}

impl Draw {
    /// The order of this number.
    pub fn new(seed: u64) -> Draw {
        Draw { state: seed }
    }

    /// The next number.
    fn next(&mut self) -> u64 {
        self.state = self.state.wrapping_mul(FACTOR).wrapping_add(SUMMAND);
        self.state >> LOW_BITS
    }
}

impl Chooser for Draw {
    fn choose(&mut self, _made: usize, ready: &[Ready]) -> Result<Option<usize>, AllocError> {
        if ready.is_empty() {
            return Ok(None);
        }
        let drawn = self.next() as usize;
        Ok(Some(drawn % ready.len()))
    }
}
