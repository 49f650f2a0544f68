//! Bits of words, in which the first one that isn't set is found in a few steps.
ghost use Rattle.std.specs.Prelude.{◌≡◌, ◌≢◌, ℕ, ◌*◌, ◌<◌, ◌≤◌, List, IfOk, length, replicate, if◌then◌else◌};
ghost use Rattle.std.specs.Int.{bit_at};
ghost use Rattle.ux_number_sets.specs.Bits.{FindsBit, FindsClearBit, FindsOpenWord, IsSummary, PutsBit};

use std::alloc::{AllocError, Global};
use std::marker::Model;

/// The bits of a word.
pub(crate) const BITS: usize = 64;

/// Words, and in `full` a bit for each of which every bit is set, so that a search looks at three words
/// at most. Contracts see the words.
#[derive(Drop)]
pub struct BitWords {
    words: Vec<u64>,
    full: u64,
}

impl Model for BitWords {
    ghost Value = { List ℕ };

    ghost view = { λ m. m.words.items };

    ghost invariant = { λ m. IsSummary m.full m.words.items };
}

impl Clone for BitWords {
    ghost is_clone = { λ x y. y ≡ x };

    fn clone(&self) -> Result<BitWords, AllocError> {
        Ok(BitWords {
            words: self.words.clone()?,
            full: self.full,
        })
    }
}

impl BitWords {
    /// So many words, none of whose bits is set.
    pub(crate) fn new(alloc: Global, words: usize) -> Result<BitWords, AllocError>
        requires { words ≤ 64 }
        ensures { IfOk result (λ m. m ≡ replicate words 0) }
    {
        Ok(BitWords {
            words: vec![in alloc; 0; words]?,
            full: 0,
        })
    }

    /// Sets or clears the bit of a number.
    pub(crate) fn put(&mut self, number: usize, on: bool)
        requires { number < 64 * length self.old }
        ensures { PutsBit self.old self.new number on }
    {
        let word = number / BITS;
        let bits = with_bit(self.words[word], number % BITS, on);
        self.words[word] = bits;
        self.full = with_bit(self.full, word, bits == u64::MAX);
    }

    /// Clears every bit.
    pub(crate) fn clear(&mut self)
        ensures { self.new ≡ replicate (length self.old) 0 }
    {
        self.words.fill(0);
        self.full = 0;
    }

    /// The first number, from this one on, whose bit isn't set.
    pub(crate) fn first_clear(&self, from: usize) -> Option<usize>
        ensures { FindsBit self.now from result }
    {
        let word = from / BITS;
        if word >= self.words.len() {
            return None;
        }
        match first_clear_bit(self.words[word], from % BITS) {
            Some(bit) => Some(word * BITS + bit),
            None => self.first_clear_in(word + 1),
        }
    }

    /// The first number, from the first of this word on, whose bit isn't set.
    fn first_clear_in(&self, from: usize) -> Option<usize>
        requires { from ≤ length self.now }
        ensures { FindsBit self.now (64 * from) result }
    {
        let word = self.first_open_word(from)?;
        let bit = first_clear_bit(self.words[word], 0)?;
        Some(word * BITS + bit)
    }

    /// The first word, from this one on, that has a bit that isn't set.
    fn first_open_word(&self, from: usize) -> Option<usize>
        ensures { FindsOpenWord self.now from result }
    {
        if from >= self.words.len() {
            return None;
        }
        let word = first_clear_bit(self.full, from)?;
        if word < self.words.len() {
            Some(word)
        } else {
            None
        }
    }
}

/// A word with one bit set or cleared.
fn with_bit(word: u64, bit: usize, on: bool) -> u64
    requires { bit < 64 }
    ensures this { bit_at result bit ≡ (if on then 1 else 0) }
    ensures others { (i : ℕ) → i < 64 → i ≢ bit → bit_at result i ≡ bit_at word i }
{
    if on {
        word | (1 << bit)
    } else {
        word & !(1 << bit)
    }
}

/// The first bit of a word, from this one on, that isn't set.
fn first_clear_bit(word: u64, from: usize) -> Option<usize>
    requires { from < 64 }
    ensures { FindsClearBit word from result }
{
    let seen = word | ((1 << from) - 1);
    if seen == u64::MAX {
        None
    } else {
        Some(seen.trailing_ones() as usize)
    }
}
