//! Sets of many numbers, in groups that take memory once they are used.
ghost use Rattle.std.specs.Prelude.{◌≡◌, ◌+◌, ◌*◌, ◌/◌, ◌%◌, ◌<◌, ◌≤◌, true, false, max, IfOk, OnOk, OnErr, length};
ghost use Rattle.ux_number_sets.specs.Sets.{IsEmptySet, FindsFirstFree, PutsNumber};
ghost use Rattle.ux_number_sets.specs.Groups.{group, AddsGroups, PutsInGroup, PutsFull};

use crate::number_set::NumberSet;
use std::alloc::{AllocError, Global};
use std::marker::Model;

/// How many numbers a group has.
const GROUP: usize = NumberSet::LIMIT;

/// A set of the numbers of so many groups of 4,096. A search looks at two groups of words, however many
/// numbers are in use. Contracts see for each number whether it is in the set.
#[derive(Drop)]
pub struct GroupedSet {
    /// The groups up to the last one that was used.
    groups: Vec<NumberSet>,
    /// The groups all of whose numbers are in the set.
    full: NumberSet,
}

impl Model for GroupedSet {
    ghost use Rattle.std.specs.Prelude.{List, Bool, length};
    ghost use Rattle.ux_number_sets.specs.Groups.{set_of_groups, AreGroups};

    ghost Value = { List Bool };

    ghost view = { λ s. set_of_groups s.groups.items (length s.full) };

    ghost invariant = { λ s. AreGroups s.groups.items s.full };
}

impl GroupedSet {
    /// An empty set for the numbers of so many groups.
    pub fn new(alloc: Global, groups: usize) -> Result<GroupedSet, AllocError>
        requires { groups ≤ NumberSet.LIMIT }
        ensures { IfOk result (IsEmptySet (NumberSet.LIMIT * groups)) }
    {
        Ok(GroupedSet {
            groups: Vec::new(alloc),
            full: NumberSet::new(alloc, groups)?,
        })
    }

    /// How many numbers it can hold: those below this one.
    pub fn capacity(&self) -> usize
        ensures { result ≡ length self.now }
    {
        self.full.capacity() * GROUP
    }

    /// Puts a number in.
    ///
    /// # Errors
    ///
    /// There was no memory for its group. The set is then as before.
    pub fn insert(&mut self, number: usize) -> Result<(), AllocError>
        requires { number < length self.old }
        ensures ok { OnOk result (PutsNumber self.old self.new number true) }
        ensures err { OnErr result (self.new ≡ self.old) }
    {
        add_groups(&mut self.groups, number / GROUP + 1)?;
        put_in_group(&mut self.groups, &mut self.full, number, true);
        Ok(())
    }

    /// Takes a number out.
    pub fn remove(&mut self, number: usize)
        requires { number < length self.old }
        ensures { PutsNumber self.old self.new number false }
    {
        if number / GROUP < self.groups.len() {
            put_in_group(&mut self.groups, &mut self.full, number, false);
        }
    }

    /// Takes every number out, and gives the memory of the groups back.
    pub fn clear(&mut self)
        ensures { IsEmptySet (length self.old) self.new }
    {
        self.groups.clear();
        self.full.clear();
    }

    /// The first number that is free.
    pub fn first_free(&self) -> Option<usize>
        ensures { FindsFirstFree self.now 0 result }
    {
        let group = self.full.first_free(0)?;
        let Some(numbers) = self.groups.get(group) else {
            return Some(group * GROUP);
        };
        let number = numbers.first_free(0)?;
        Some(group * GROUP + number)
    }
}

/// Makes so many groups, where there are fewer.
fn add_groups(groups: &mut Vec<NumberSet>, count: usize) -> Result<(), AllocError>
    ensures ok { OnOk result (count ≤ length groups.new.items) }
    ensures few { length groups.new.items ≤ max (length groups.old.items) count }
    ensures added { AddsGroups groups.old.items groups.new.items }
{
    while groups.len() < count {
        let alloc = *groups.allocator();
        groups.push(NumberSet::new(alloc, GROUP)?)?;
    }
    Ok(())
}

/// Puts a number in a group that is there, or takes it out, and keeps account of whether the group is full.
fn put_in_group(groups: &mut Vec<NumberSet>, full: &mut NumberSet, number: usize, is_in: bool)
    requires there { number / GROUP < length groups.old.items }
    requires few { length groups.old.items ≤ length full.old }
    requires long { length (group groups.old.items (number / GROUP)) ≡ GROUP }
    ensures put { PutsInGroup groups.old.items groups.new.items (number / GROUP) (number % GROUP) is_in }
    ensures full { PutsFull (group groups.new.items (number / GROUP)) full.old full.new (number / GROUP) }
{
    let numbers = &mut groups[number / GROUP];
    numbers.put(number % GROUP, is_in);
    let is_full = numbers.first_free(0).is_none();
    full.put(number / GROUP, is_full);
}
