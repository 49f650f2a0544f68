//! What one call closed: the first of it in place.
ghost use Rattle.std.specs.Prelude.{◌≡◌, ◌+◌, ◌≤◌, ◌<◌, ◌^◌, ◌==◌, ◌++◌, ◌∷◌, [], OnOk, OnErr, length};
ghost use Rattle.std.specs.Cmp.Lexicographic.{pointwise};
ghost use Rattle.std.specs.Cmp.Rules.{comparing};
ghost use Rattle.std.proofs.Common.{rules};

use arrayvec::ArrayVec;
use std::alloc::{AllocError, Global};
use std::collections::LinkedList;
use std::marker::Model;

/// A list of what one call closed. The first `FEW` lie in place; each other one comes in memory that was made with it, so a call
/// that closes many takes none. Contracts see it as a list.
#[derive(Debug)]
pub struct ClosedList<T, const FEW: usize> {
    few: ArrayVec<T, FEW>,
    more: LinkedList<T>,
}

// Written out, so that it is proved here and not in each function that drops one.
impl<T: Drop, const FEW: usize> Drop for ClosedList<T, FEW> {
    fn drop(self) {
        let ClosedList { few, more } = self;
        drop(few);
        drop(more)
    }
}

impl<T, const FEW: usize> Model for ClosedList<T, FEW> {
    ghost use Rattle.std.specs.Prelude.{◌≡◌, ◌<◌, ◌≤◌, List, [], ◌++◌, length};

    ghost Value = { List T };

    ghost view = { λ l. l.few.items ++ l.more };

    // The places are filled first.
    ghost invariant = { λ l. (length l.few.items ≤ FEW) × (length l.few.items < FEW → l.more ≡ []) };
}

impl<T: Default + Drop, const FEW: usize> ClosedList<T, FEW> {
    /// Nothing.
    pub fn new(alloc: Global) -> ClosedList<T, FEW>
        ensures { result ≡ [] }
    {
        ClosedList {
            few: ArrayVec::new(),
            more: LinkedList::new(alloc),
        }
    }

    /// One more, behind the others, in the list in which it was kept.
    pub fn push(&mut self, mut one: LinkedList<T>)
        requires one { length one ≤ 1 }
        requires room { length self.old + 1 < 2 ^ 63 }
        ensures { self.new ≡ self.old ++ one }
    {
        if self.few.is_full() {
            // Far fewer than can be counted.
            if self.more.append(&mut one).is_err() {
                unreachable!()
            }
            return;
        }
        if let Some(first) = one.pop_front() {
            self.few.push(first);
        }
    }

    /// One more, behind the others, in new memory where it has no place.
    ///
    /// # Errors
    ///
    /// Out of memory.
    pub fn push_back(&mut self, element: T) -> Result<(), AllocError>
        requires room { length self.old + 1 < 2 ^ 63 }
        ensures ok { OnOk result (self.new ≡ self.old ++ element ∷ []) }
        ensures err { OnErr result (self.new ≡ self.old) }
    {
        if self.few.is_full() {
            self.more.push_back(element)?;
        } else {
            self.few.push(element);
        }
        Ok(())
    }

    /// Drops all of them.
    pub fn clear(&mut self)
        ensures { self.new ≡ [] }
    {
        self.few.clear();
        self.more.clear();
    }
}

impl<T, const FEW: usize> ClosedList<T, FEW> {
    /// Those in place, and those behind them.
    pub fn parts(&self) -> (&[T], &LinkedList<T>)
        ensures { result.0.now ++ result.1.now ≡ self.now }
    {
        (self.few.as_slice(), &self.more)
    }

    /// Whether there is none.
    pub fn is_empty(&self) -> bool
        ensures { result ≡ (length self.now == 0) }
    {
        self.few.is_empty() && self.more.is_empty()
    }
}

impl<const FEW: usize> Clone for ClosedList<u32, FEW> {
    ghost is_clone = { λ x y. y ≡ x };

    fn clone(&self) -> Result<ClosedList<u32, FEW>, AllocError> {
        Ok(ClosedList {
            few: self.few.clone()?,
            more: self.more.clone()?,
        })
    }
}

impl<const FEW: usize> PartialEq for ClosedList<u32, FEW> {
    ghost eq = { pointwise ◌==◌ };

    ghost laws = { Prim.search (comparing, rules) };

    fn eq(&self, other: &ClosedList<u32, FEW>) -> bool {
        self.few == other.few && self.more == other.more
    }
}

impl<const FEW: usize> Eq for ClosedList<u32, FEW> {
    ghost laws = { Prim.search (comparing, rules) };
}
