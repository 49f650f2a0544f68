//! Names in order of binding, each with what it names.
ghost use Rattle.std.specs.Prelude.{◌≡◌, ◌+◌, ◌<◌, ◌≤◌, [], ◌∷◌, ◌++◌, length, map, None, Some, OnOk, IfOk, IsOk, option_copied};
ghost use Rattle.std.specs.List.Sorted.{IsPermutation, IsNonDecreasingBy};
ghost use Rattle.std.specs.Map.Iter.{deref_pair};
ghost use Rattle.ux_model.specs.Names.{named, without_name};

use crate::seed::Seed;
use indexmap::IndexMap;
use std::alloc::{AllocError, Global};
use std::marker::Model;
use ux_types::Name;

/// What a name names, with the number of its binding.
#[derive(Drop)]
pub struct Binding<X> {
    /// It is above the numbers of all that were bound before.
    pub(crate) number: u64,
    pub(crate) value: X,
}

/// Names, each once, in order of binding, with what they name. Contracts see the list of the pairs, and
/// how many more names there is room for.
pub struct Listing<X> {
    /// In any order, so that taking a name away moves no other.
    bound: IndexMap<Name, Binding<X>, Seed>,
    /// The number of the next binding.
    next: u64,
}

// Written out, so that it is proved here and not in each function that drops one.
impl<X: Drop> Drop for Listing<X> {
    fn drop(self) {
        let Listing { bound, next: _ } = self;
        drop(bound);
    }
}

impl<X> Model for Listing<X> {
    ghost use Rattle.std.specs.Prelude.{◌==◌};
    ghost use Rattle.std.specs.Cmp.Lexicographic.{pointwise};
    ghost use Rattle.indexmap.specs.IndexMap as map;
    ghost use Rattle.ux_names.specs.Listed.{Listed, listed_code};
    ghost use Rattle.ux_names.specs.Order.{in_order, room_of, AreNumbered};

    ghost Value = { Listed X };

    ghost coded = { listed_code X.code };

    ghost view = { λ l. record { names = in_order l.bound.entries l.next; room = room_of (map.spare l.bound) l.next } };

    ghost invariant = { λ l. map.IsUnique (pointwise ◌==◌) l.bound × AreNumbered l.bound.entries l.next };
}

impl<X: Drop> Listing<X> {
    /// No names yet, which are hashed by this seed. It takes no memory.
    pub(crate) fn new(alloc: Global, seed: Seed) -> Listing<X>
        ensures { result.names ≡ [] }
    {
        Listing {
            bound: IndexMap::with_hasher(alloc, seed),
            next: 0,
        }
    }

    /// The allocator of the names.
    pub(crate) fn allocator(&self) -> Global {
        *self.bound.allocator()
    }

    /// How many names there are.
    pub(crate) fn len(&self) -> usize
        ensures { result ≡ length self.now.names }
    {
        self.bound.len()
    }

    /// The names in order of binding, each with what it names. It sorts them.
    ///
    /// # Errors
    ///
    /// There was no memory for so many.
    pub(crate) fn in_order(&self) -> Result<Vec<(&Name, &X)>, AllocError>
        ensures { IfOk result (λ names. map (λ e. (e.0.now, e.1.now)) names.items ≡ self.now.names) }
    {
        let entries = sorted_entries(self.allocator(), &self.bound)?;
        let mut names = Vec::new(self.allocator());
        for entry in &entries {
            names.push((entry.0, &entry.1.value))?;
        }
        Ok(names)
    }

    /// What a name names, if it is listed.
    pub(crate) fn find(&self, name: &Name) -> Option<&X>
        ensures { option_copied result ≡ named name.now self.now.names }
    {
        let binding = self.bound.get(name)?;
        Some(&binding.value)
    }

    /// Makes room for so many more names.
    ///
    /// # Errors
    ///
    /// There was no memory, or not as many numbers are left. The names stand as before.
    pub(crate) fn reserve(&mut self, additional: usize) -> Result<(), AllocError>
        ensures ok { OnOk result (additional ≤ self.new.room) }
        ensures had_room { additional ≤ self.old.room → IsOk result }
        ensures room { self.old.room ≤ self.new.room }
        ensures names { self.new.names ≡ self.old.names }
    {
        if additional as u64 > u64::MAX - self.next {
            return Err(AllocError);
        }
        self.bound.reserve(additional)
    }

    /// Lists a further name, where there is room.
    pub(crate) fn bind_reserved(&mut self, name: Name, value: X)
        requires room { 0 < self.old.room }
        requires free { named name self.old.names ≡ None }
        ensures names { self.new.names ≡ self.old.names ++ (name, value) ∷ [] }
        ensures room { self.old.room ≤ self.new.room + 1 }
    {
        let number = self.next;
        let Ok(_known) = self.bound.insert(name, Binding { number, value }) else {
            // There is room, as the contract requires.
            unreachable!();
        };
        self.next = number + 1;
    }

    /// Takes a name away, and answers what it named. The others keep their order.
    pub(crate) fn remove(&mut self, name: &Name) -> Option<X>
        ensures value { result ≡ named name.now self.old.names }
        ensures names { self.new.names ≡ without_name name.now self.old.names }
        ensures room { self.old.room ≤ self.new.room }
    {
        let binding = self.bound.swap_remove(name)?;
        Some(binding.value)
    }

    /// Takes all names away.
    pub(crate) fn clear(&mut self)
        ensures names { self.new.names ≡ [] }
        ensures room { length self.old.names + self.old.room ≤ self.new.room }
    {
        self.bound.clear();
        self.next = 0;
    }
}

/// The entries of a map, in order of the numbers of their bindings.
fn sorted_entries<X: Drop>(
    alloc: Global,
    bound: &IndexMap<Name, Binding<X>, Seed>,
) -> Result<Vec<(&Name, &Binding<X>)>, AllocError>
    ensures all { IfOk result (λ entries. IsPermutation bound.now.entries (map deref_pair entries.items)) }
    ensures sorted { IfOk result (λ entries. IsNonDecreasingBy (λ e. e.1.now.number) entries.items) }
{
    let mut entries = Vec::new(alloc);
    for entry in bound {
        entries.push(entry)?;
    }
    entries.sort_unstable_by_key(|entry| entry.1.number);
    Ok(entries)
}
