//! The references that a message holds.
ghost use Rattle.std.specs.Prelude.{◌≡◌, ◌<◌, ◌≤◌, ◌==◌, [], ◌∷◌, ◌++◌, length, IsOk, IfOk, OnOk, OnErr};

use smallvec::SmallVec;
use std::alloc::{AllocError, Global};
use std::marker::Model;
use std::mem;
use ux_types::DescriptionId;

/// So many references take no allocation.
pub const INLINE: usize = 4;

/// A reference to an open file description, which a message passes as dup(2) does. Contracts see the
/// description's number.
#[derive(Clone, Copy, Debug, PartialEq, Eq)]
pub struct Reference {
    description: DescriptionId,
}

impl Model for Reference {
    ghost use Rattle.std.specs.Prelude.{ℕ};

    ghost Value = { ℕ };

    ghost view = { λ r. r.description };

    ghost inverse = { λ n. record { description = n } };
}

impl Reference {
    /// A reference to this description.
    pub fn to(description: DescriptionId) -> Reference
        ensures { result ≡ description }
    {
        Reference { description }
    }

    /// The description that it refers to.
    pub fn description(self) -> DescriptionId
        ensures { result ≡ self }
    {
        self.description
    }
}

/// What the unused places of a short list hold.
impl Default for Reference {
    fn default() -> Reference {
        Reference::to(DescriptionId::new(0))
    }
}

/// References to open file descriptions, in order, one as often as it was sent.
pub struct RefList {
    references: SmallVec<Reference, INLINE>,
}

// Written out, so that it is proved here and not in each function that drops one.
impl Drop for RefList {
    fn drop(self) {
        let RefList { references } = self;
        drop(references);
    }
}

impl Model for RefList {
    ghost use Rattle.std.specs.Prelude.{List, ℕ, ◌≤◌};

    ghost Value = { List ℕ };

    ghost view = { λ r. r.references.items };

    ghost invariant = { λ r. 4 ≤ r.references.capacity };
}

impl RefList {
    /// A list of none.
    pub fn new(alloc: Global) -> RefList
        ensures { result ≡ [] }
    {
        RefList {
            references: SmallVec::new(alloc),
        }
    }

    /// References to these descriptions.
    ///
    /// # Errors
    ///
    /// Out of memory, and never for `INLINE` of them or fewer.
    pub fn from_slice(alloc: Global, descriptions: &[DescriptionId]) -> Result<RefList, AllocError>
        ensures ok { IfOk result (λ r. r ≡ descriptions.now) }
        ensures short { length descriptions.now ≤ INLINE → IsOk result }
    {
        let mut references = SmallVec::with_capacity(alloc, descriptions.len())?;
        for description in descriptions {
            references.push_reserved(Reference::to(*description));
        }
        Ok(RefList { references })
    }

    /// Appends a reference to this description.
    ///
    /// # Errors
    ///
    /// Out of memory, and never below `INLINE` of them. The list is then as before.
    pub fn push(&mut self, description: DescriptionId) -> Result<(), AllocError>
        ensures ok { OnOk result (self.new ≡ self.old ++ description ∷ []) }
        ensures short { length self.old < INLINE → IsOk result }
        ensures err { OnErr result (self.new ≡ self.old) }
    {
        self.references.push(Reference::to(description))?;
        Ok(())
    }

    /// The references.
    pub fn as_slice(&self) -> &[Reference]
        ensures { result.now ≡ self.now }
    {
        self.references.as_slice()
    }

    /// How many there are.
    pub fn len(&self) -> usize
        ensures { result ≡ length self.now }
    {
        self.references.len()
    }

    /// Whether there is none.
    pub fn is_empty(&self) -> bool
        ensures { result ≡ (length self.now == 0) }
    {
        self.references.is_empty()
    }

    /// A list of none, from the same allocator. It takes no memory.
    pub fn empty_like(&self) -> RefList
        ensures { result ≡ [] }
    {
        RefList::new(*self.references.allocator())
    }

    /// Moves all of them out, with no memory. The list is then empty.
    pub fn take(&mut self) -> RefList
        ensures taken { result ≡ self.old }
        ensures left { self.new ≡ [] }
    {
        let none = self.empty_like();
        mem::replace(self, none)
    }
}

/// A copy refers to the same descriptions.
impl Clone for RefList {
    ghost use Rattle.std.specs.Prelude.{◌≡◌, ◌≤◌, length};

    ghost is_clone = { λ r copy. copy ≡ r };

    ghost is_infallible = { λ r. length r ≤ 4 };

    fn clone(&self) -> Result<RefList, AllocError> {
        let mut references = SmallVec::with_capacity(
            *self.references.allocator(),
            self.references.len(),
        )?;
        references.extend_from_slice(self.references.as_slice())?;
        Ok(RefList { references })
    }
}
