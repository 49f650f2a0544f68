//! A ring of bytes that grows as it has to.
ghost use Rattle.std.specs.Prelude.{◌≡◌, ◌+◌, ◌≤◌, ◌++◌, [], length, take, drop, max, IfOk, IsOk, OnOk};
ghost use Rattle.std.specs.Int.{IsNextPowerOfTwo};
ghost use Rattle.circular_buffer.specs.Buffer.{buffer};

use circular_buffer::HeapCircularBuffer;
use std::alloc::{AllocError, Allocator, Global};
use std::marker::Model;
use ux_types::{Bytes, SHORT_BYTES};

/// The places of the smallest ring.
const SMALLEST: usize = 64;

/// Bytes in order, in one ring, which is made before the first byte is put in, and grows by doubling.
/// Contracts see the bytes and how many there is room for.
#[derive(Drop)]
pub struct ByteRing<A: Allocator + Copy = Global> {
    ring: Option<HeapCircularBuffer<u8, A>>,
}

impl<A: Allocator + Copy> Model for ByteRing<A> {
    ghost use Rattle.std.specs.Prelude.{ℕ};
    ghost use Rattle.circular_buffer.specs.Buffer.{Buffer};
    ghost use Rattle.ux_stream.specs.Rings.{ring_of};

    ghost Value = { Buffer ℕ };

    ghost view = { λ r. ring_of r.ring };
}

impl<A: Allocator + Copy> ByteRing<A> {
    /// No ring yet.
    pub fn new() -> ByteRing<A>
        ensures { result ≡ buffer [] 0 }
    {
        ByteRing { ring: None }
    }

    /// How many bytes it has.
    pub fn len(&self) -> usize
        ensures len { result ≡ length self.now.items }
    {
        match &self.ring {
            Some(ring) => ring.len(),
            None => 0,
        }
    }

    /// Makes room for so many more bytes.
    pub fn reserve(&mut self, alloc: A, additional: usize) -> Result<(), AllocError>
        ensures ok { OnOk result (length self.new.items + additional ≤ self.new.capacity) }
        ensures items { self.new.items ≡ self.old.items }
    {
        let Some(needed) = self.len().checked_add(additional) else {
            return Err(AllocError);
        };
        let places = places(needed)?;
        match &mut self.ring {
            Some(ring) if ring.capacity() < needed => ring.resize(places),
            Some(_) => Ok(()),
            None => {
                self.ring = Some(HeapCircularBuffer::with_capacity(alloc, places)?);
                Ok(())
            }
        }
    }

    /// Appends bytes for which there is room.
    pub fn append(&mut self, bytes: &[u8])
        requires { length self.old.items + length bytes.now ≤ self.old.capacity }
        ensures { self.new.items ≡ self.old.items ++ bytes.now }
    {
        if let Some(ring) = &mut self.ring {
            ring.fill_from_slice(bytes);
        }
    }

    /// A copy of the first bytes. At most 14 take no memory.
    pub fn front(&self, alloc: Global, n: usize) -> Result<Bytes, AllocError>
        ensures bytes { IfOk result (λ b. b ≡ take n self.now.items) }
        ensures short { n ≤ SHORT_BYTES → IsOk result }
    {
        let Some(ring) = &self.ring else {
            return Ok(Bytes::empty());
        };
        let count = n.min(ring.len());
        let (older, newer) = ring.as_slices();
        let first = count.min(older.len());
        joined(alloc, &older[..first], &newer[..count - first])
    }

    /// Takes out the first bytes.
    pub fn drop_front(&mut self, n: usize)
        requires { n ≤ length self.old.items }
        ensures { self.new.items ≡ drop n self.old.items }
    {
        if let Some(ring) = &mut self.ring {
            let left = ring.len() - n;
            ring.truncate_front(left);
        }
    }
}

/// The places of a ring for so many bytes: the least power of two that is enough and no smaller than the
/// smallest ring.
fn places(needed: usize) -> Result<usize, AllocError>
    ensures { IfOk result (IsNextPowerOfTwo (max needed SMALLEST)) }
{
    match needed.max(SMALLEST).checked_next_power_of_two() {
        Some(places) => Ok(places),
        None => Err(AllocError),
    }
}

/// A copy of two parts, the one behind the other. At most 14 bytes take no memory.
fn joined(alloc: Global, first: &[u8], second: &[u8]) -> Result<Bytes, AllocError>
    ensures bytes { IfOk result (λ b. b ≡ first.now ++ second.now) }
    ensures short { length first.now + length second.now ≤ SHORT_BYTES → IsOk result }
{
    if first.len() + second.len() <= SHORT_BYTES {
        return Ok(joined_short(first, second));
    }
    let mut bytes = Vec::with_capacity(alloc, first.len() + second.len())?;
    bytes.extend_from_slice(first)?;
    bytes.extend_from_slice(second)?;
    Bytes::new(bytes)
}

/// A copy of two parts that need no memory, the one behind the other.
fn joined_short(first: &[u8], second: &[u8]) -> Bytes
    requires { length first.now + length second.now ≤ SHORT_BYTES }
    ensures { result ≡ first.now ++ second.now }
{
    let mut buf = [0u8; SHORT_BYTES];
    let count = first.len() + second.len();
    buf[..first.len()].copy_from_slice(first);
    buf[first.len()..count].copy_from_slice(second);
    Bytes::short(&buf[..count])
}
