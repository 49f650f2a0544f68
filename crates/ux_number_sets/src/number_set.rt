//! Sets of numbers below a bound of at most 4,096.
ghost use Rattle.std.specs.Prelude.{◌≡◌, ◌<◌, ◌≤◌, IfOk, length};
ghost use Rattle.ux_number_sets.specs.Sets.{IsEmptySet, FindsFirstFree, PutsNumber};

use crate::bit_words::{BITS, BitWords};
use std::alloc::{AllocError, Global};
use std::marker::Model;

/// A set of numbers below its capacity. A number that isn't in it is free. Contracts see for each number
/// whether it is in the set.
#[derive(Drop)]
pub struct NumberSet {
    /// A bit for each number, and perhaps some more.
    words: BitWords,
    capacity: usize,
}

impl Model for NumberSet {
    ghost use Rattle.std.specs.Prelude.{List, Bool, ◌*◌, ◌≤◌, length};
    ghost use Rattle.ux_number_sets.specs.Bits.{set_of_bits};

    ghost Value = { List Bool };

    ghost view = { λ s. set_of_bits s.words s.capacity };

    ghost invariant = { λ s. s.capacity ≤ 64 * length s.words };
}

impl Clone for NumberSet {
    ghost is_clone = { λ x y. y ≡ x };

    fn clone(&self) -> Result<NumberSet, AllocError> {
        Ok(NumberSet {
            words: self.words.clone()?,
            capacity: self.capacity,
        })
    }
}

impl NumberSet {
    /// The greatest capacity.
    pub const LIMIT: usize = 4096;

    /// An empty set for the numbers below this capacity.
    pub fn new(alloc: Global, capacity: usize) -> Result<NumberSet, AllocError>
        requires { capacity ≤ Self.LIMIT }
        ensures { IfOk result (IsEmptySet capacity) }
    {
        Ok(NumberSet {
            words: BitWords::new(alloc, capacity.div_ceil(BITS))?,
            capacity,
        })
    }

    /// How many numbers it can hold: those below this one.
    pub fn capacity(&self) -> usize
        ensures { result ≡ length self.now }
    {
        self.capacity
    }

    /// Puts a number in, or takes it out.
    pub fn put(&mut self, number: usize, is_in: bool)
        requires { number < length self.old }
        ensures { PutsNumber self.old self.new number is_in }
    {
        self.words.put(number, is_in);
    }

    /// Takes every number out.
    pub fn clear(&mut self)
        ensures { IsEmptySet (length self.old) self.new }
    {
        self.words.clear();
    }

    /// The first number, from this one on, that is free.
    pub fn first_free(&self, from: usize) -> Option<usize>
        ensures { FindsFirstFree self.now from result }
    {
        let number = self.words.first_clear(from)?;
        if number < self.capacity {
            Some(number)
        } else {
            None
        }
    }
}
