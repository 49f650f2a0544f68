//! All memory, of which a part can be given back and taken again, whole or to so many bytes.

use super::{BLOCKS, Hoard, take_blocks, take_halving};
use std::alloc::{AllocError, Global};

/// The greatest power of two of the part that is given and taken, which is of 64 MiB.
const PART: u32 = 26;

/// What is left is cut from a block of this size: below 128 KiB, from where on malloc(3) maps each block by itself.
const SLOT: usize = 61440;

/// Small blocks that were freed serve their own size alone, which are so many, 16 bytes apart.
const SIZES: usize = 66;

/// All memory, of which a part can be given back.
#[derive(Drop)]
pub struct Purse {
    pieces: Vec<Vec<u8>>,
    _kept: Hoard,
}

impl Purse {
    /// All memory but the part that can be given and taken, which is given.
    ///
    /// # Errors
    ///
    /// There was no memory for the lists of blocks.
    pub fn new(alloc: Global) -> Result<Purse, AllocError> {
        let pieces = Vec::with_capacity(alloc, BLOCKS)?;
        let part: Vec<u8> = Vec::with_capacity(alloc, 1 << PART)?;
        let kept = Hoard::take_all(alloc)?;
        drop(part);
        Ok(Purse {
            pieces,
            _kept: kept,
        })
    }

    /// Gives the whole part.
    pub fn open(&mut self) {
        self.pieces.clear();
    }

    /// Takes all that is left.
    pub fn refill(&mut self, alloc: Global) {
        take_halving(alloc, &mut self.pieces, PART);
        for smaller in 0..SIZES {
            take_blocks(alloc, &mut self.pieces, (SIZES - smaller) * 16);
        }
    }

    /// Takes all but so many bytes, in one piece: what an allocator needs for each block beside its bytes is of them,
    /// and fewer than 32 are none. For 60 KiB or more it is 60 KiB.
    pub fn leave(&mut self, alloc: Global, bytes: usize) {
        self.open();
        let slot: Result<Vec<u8>, AllocError> = Vec::with_capacity(alloc, SLOT);
        self.refill(alloc);
        drop(slot);
        if bytes < SLOT {
            let filler = Vec::with_capacity(alloc, SLOT - bytes);
            if let Ok(filler) = filler {
                let _ = self.pieces.push(filler);
            }
        }
    }
}
