//! For tests: takes all memory that there is, so that the next allocation fails, or all but so many bytes.
#![tactic(auto)]

ghost use Rattle.std.specs.Prelude.{◌≤◌};

mod purse;

pub use purse::Purse;
use std::alloc::{AllocError, Global};

/// The largest block that is asked for: 2^46 bytes, a good part of the address space.
const LARGEST: u32 = 46;

/// How many blocks are held at most.
const BLOCKS: usize = 200000;

/// All memory that could be had, in blocks. It is free again once this is dropped.
#[derive(Drop)]
pub struct Hoard {
    _blocks: Vec<Vec<u8>>,
}

impl Hoard {
    /// Takes all memory: blocks of each power of two, the largest first, until not even the smallest is
    /// given. Nothing is written to them, so they cost address space alone.
    ///
    /// # Errors
    ///
    /// There was no memory for the list of blocks.
    pub fn take_all(alloc: Global) -> Result<Hoard, AllocError> {
        let mut blocks = Vec::with_capacity(alloc, BLOCKS)?;
        take_halving(alloc, &mut blocks, LARGEST);
        Ok(Hoard { _blocks: blocks })
    }
}

/// Takes blocks of each power of two up to this one, the largest first.
fn take_halving(alloc: Global, blocks: &mut Vec<Vec<u8>>, largest: u32)
    requires { largest ≤ 46 }
{
    for smaller in 0..largest {
        take_blocks(alloc, blocks, 1 << (largest - smaller));
    }
}

/// Takes blocks of this size, as many as there are.
fn take_blocks(alloc: Global, blocks: &mut Vec<Vec<u8>>, size: usize) {
    for _ in 0..BLOCKS {
        let Ok(block) = Vec::with_capacity(alloc, size) else {
            return;
        };
        if blocks.push(block).is_err() {
            return;
        }
    }
}

#[cfg(test)]
mod tests {
    use super::*;
    use std::test::Fail;

    #[test]
    fn the_next_allocation_fails(rt: HostRuntime) -> Result<(), Fail> {
        let alloc = rt.alloc();
        let hoard = Hoard::take_all(alloc)?;
        let one: Result<Vec<u8>, AllocError> = Vec::with_capacity(alloc, 1);
        let page: Result<Vec<u8>, AllocError> = Vec::with_capacity(alloc, 4096);
        let failed = one.is_err() && page.is_err();
        drop(hoard);
        assert!(rt; failed);
        let again: Result<Vec<u8>, AllocError> = Vec::with_capacity(alloc, 4096);
        assert!(rt; again.is_ok());
        Ok(())
    }

    /// Whether a block of this size is given.
    fn is_given(alloc: Global, size: usize) -> bool {
        let block: Result<Vec<u8>, AllocError> = Vec::with_capacity(alloc, size);
        block.is_ok()
    }

    /// What a purse leaves, a block that it gives then, and one that it doesn't.
    const LEFT: &[(usize, usize, usize)] = &[
        (64, 40, 128),
        (256, 200, 512),
        (4096, 4000, 4200),
        (32768, 32000, 33000),
    ];

    #[test]
    fn so_many_bytes_are_left(rt: HostRuntime) -> Result<(), Fail> {
        let alloc = rt.alloc();
        let mut purse = Purse::new(alloc)?;
        let mut right = true;
        for (left, given, larger) in LEFT {
            purse.leave(alloc, *left);
            right = right && !is_given(alloc, *larger) && is_given(alloc, *given);
            purse.refill(alloc);
            right = right && !is_given(alloc, 1);
            purse.open();
            right = right && is_given(alloc, 1 << 20);
        }
        drop(purse);
        assert!(rt; right);
        Ok(())
    }
}
