//! Values by handle, with a count of the references to each.
ghost use Rattle.std.specs.Prelude.{◌≡◌, nat_eq, ℕ, ◌↔◌, ◌+◌, ◌-◌, ◌^◌, ◌<◌, ◌≤◌, [], length, None, Some, is_some, if◌then◌else◌, IsTrue, IsErr, IsOk, IsSome, IsNone, IfOk, IfErr, IfSome, IfNone, OnOk, OnErr, OnSome};
ghost use Rattle.std.specs.Option.{option_copied, option_copied_mut};
ghost use Rattle.std.specs.Borrow.{sem};
ghost use Rattle.std.specs.HashMap as map;
ghost use Rattle.std.specs.List.{Contains};
ghost use Rattle.std.specs.List.Sorted.{IsStrictlyIncreasing};
ghost use Rattle.slab.specs.Slab as slab;
ghost use Rattle.ux_model.specs.Places.{place, emptied};
ghost use Rattle.ux_slots.specs.Held.{count_at, once, HasMore, Adds, IsNoneDead, Lists};
ghost use Rattle.ux_slots.specs.Kept.{Puts, IsReleased, put_in_front};

use crate::slot::Slot;
use slab::Slab;
use std::alloc::{AllocError, AllocFailed, Global};
use std::collections::HashMap;
use std::marker::Model;
use ux_types::DescriptionId;

/// Values, each with a number that is never given again, and a count of the references to it. Contracts
/// see the values in the order in which they were put in, where a place stays empty once its value was
/// taken out; the counts by the same numbers; and how many more values there is room for.
pub struct Slots<T> {
    /// The values that are there, under keys that are used again.
    slots: Slab<Slot<T>>,
    /// The key of each of them, by its number.
    index: HashMap<u128, usize>,
    /// The number of the next value.
    next: u128,
    /// The first slot of the release list, on which each slot of count 0 stands once.
    head: Option<usize>,
}

// Written out, so that it is proved here and not in each function that drops one.
impl<T: Drop> Drop for Slots<T> {
    fn drop(self) {
        let Slots {
            slots,
            index,
            next: _,
            head: _,
        } = self;
        drop(slots);
        drop(index);
    }
}

impl<T> Model for Slots<T> {
    ghost use Rattle.std.specs.Prelude.{List, nat_eq};
    ghost use Rattle.std.specs.HashMap as map;
    ghost use Rattle.slab.specs.Slab as slab;
    ghost use Rattle.ux_slots.specs.Held.{Held, held_code};

    ghost Value = { Held T };

    ghost coded = { held_code T.code };

    ghost use Rattle.ux_slots.specs.Kept.{value_in, count_in, slot_of, seen, room_of, IsKept};

    ghost view = { λ a. record {
      places = seen value_in (slot_of (slab.get a.slots) (map.get nat_eq a.index)) a.next;
      counts = seen count_in (slot_of (slab.get a.slots) (map.get nat_eq a.index)) a.next;
      room = room_of a.slots a.index a.next;
    } };

    ghost invariant = { λ a. IsKept (slab.get a.slots) (map.get nat_eq a.index) a.next a.head };
}

impl<T> Slots<T> {
    ghost use Rattle.ux_slots.specs.Lends.{lends_value};

    /// No values yet. It takes no memory.
    pub fn new(alloc: Global) -> Slots<T>
        ensures places { result.places ≡ [] }
        ensures counts { result.counts ≡ [] }
    {
        Slots {
            slots: Slab::new(alloc),
            index: HashMap::new(alloc),
            next: 0,
            head: None,
        }
    }

    /// The handle that the next value will have.
    pub fn next_id(&self) -> DescriptionId
        ensures { result ≡ length self.now.places }
    {
        DescriptionId::new(self.next)
    }

    /// The handles of the values that are there, by rising number. It visits these alone.
    ///
    /// # Errors
    ///
    /// Out of memory.
    pub fn ids(&self, alloc: Global) -> Result<Vec<DescriptionId>, AllocError>
        ensures { IfOk result (λ ids. Lists self.now.places ids.items) }
    {
        ids_in(alloc, &self.index)
    }

    /// The value of a handle, until it is taken out.
    pub fn get(&self, id: DescriptionId) -> Option<&T>
        ensures value { option_copied result ≡ place self.now.places id }
        ensures gone { IfNone result (count_at self.now id ≡ 0) }
    {
        let number = id.number();
        let key = *self.index.get(&number)?;
        let slot = self.slots.get(key)?;
        Some(&slot.value)
    }

    /// The value of a handle for writing, until it is taken out.
    pub fn get_mut(&mut self, id: DescriptionId) -> Option<&mut T>
        ensures* writes_back { sem 𝓛 (lends_value T.row self.entry id result) }
        ensures value { option_copied_mut result ≡ place self.old.places id }
    {
        let number = id.number();
        let key = *self.index.get(&number)?;
        let slot = self.slots.get_mut(key)?;
        Some(&mut slot.value)
    }

    /// How many references there are to a value; none to one that was taken out.
    pub fn count(&self, id: DescriptionId) -> u64
        ensures { result ≡ count_at self.now id }
    {
        let number = id.number();
        let Some(key) = self.index.get(&number) else {
            return 0;
        };
        match self.slots.get(*key) {
            Some(slot) => slot.count,
            None => 0,
        }
    }

    /// Whether so many more references to a value can be counted.
    pub fn has_room(&self, id: DescriptionId, more: usize) -> bool
        ensures { IsTrue result ↔ (count_at self.now id + more < 2 ^ 64) }
    {
        more as u64 <= u64::MAX - self.count(id)
    }

    /// Makes room for so many more values.
    ///
    /// # Errors
    ///
    /// There was no memory, or not as many numbers are left. The values and counts stand as before.
    pub fn reserve(&mut self, additional: usize) -> Result<(), AllocError>
        ensures ok { OnOk result (additional ≤ self.new.room) }
        ensures had_room { 0 < additional → additional ≤ self.old.room → IsOk result }
        ensures room { self.old.room ≤ self.new.room }
        ensures numbers { self.new.room + length self.new.places < 2 ^ 128 }
        ensures places { self.new.places ≡ self.old.places }
        ensures counts { self.new.counts ≡ self.old.counts }
    {
        if (additional as u128) > u128::MAX - self.next {
            return Err(AllocError);
        }
        self.slots.reserve(additional)?;
        self.index.reserve(additional)
    }

    /// Puts in a value, with one reference, where there is room, and answers its handle.
    pub fn insert_reserved(&mut self, value: T) -> DescriptionId
        requires { 0 < self.old.room }
        ensures number { result ≡ length self.old.places }
        ensures added { Adds value self.old self.new }
        ensures room { self.old.room ≤ self.new.room + 1 }
    {
        let number = self.next;
        let key = self.slots.vacant_key();
        let known = self.index.insert(number, key);
        // There is room, as the contract requires.
        if known.is_err() {
            unreachable!();
        }
        self.slots.insert_reserved(Slot {
            number,
            count: 1,
            next: None,
            value,
        });
        self.next = number + 1;
        DescriptionId::new(number)
    }

    /// Puts in a value, with one reference, and answers its handle.
    ///
    /// # Errors
    ///
    /// There was no memory, or no number is left. The value is given back, and the others and all
    /// counts stand as before.
    pub fn insert(&mut self, value: T) -> Result<DescriptionId, AllocFailed<T>>
        ensures number { IfOk result (λ id. id ≡ length self.old.places) }
        ensures added { OnOk result (Adds value self.old self.new) }
        ensures had_room { 0 < self.old.room → IsOk result }
        ensures room { self.old.room ≤ self.new.room + 1 }

        ensures given_back { IfErr result (λ e. e.value ≡ value) }
        ensures places { OnErr result (self.new.places ≡ self.old.places) }
        ensures counts { OnErr result (self.new.counts ≡ self.old.counts) }
    {
        if self.reserve(1).is_err() {
            return Err(AllocFailed { value });
        }
        Ok(self.insert_reserved(value))
    }

    /// Counts one more reference to a value.
    ///
    /// # Errors
    ///
    /// The count is the greatest that there is. Nothing has changed then.
    pub fn retain_ref(&mut self, id: DescriptionId) -> Result<(), AllocError>
        requires { 0 < count_at self.old id }
        ensures ok { OnOk result (HasMore (once id) self.old self.new) }
        ensures full { IsErr result ↔ (count_at self.old id ≡ 2 ^ 64 - 1) }
        ensures err { OnErr result (self.new ≡ self.old) }
        ensures room { self.new.room ≡ self.old.room }
    {
        let number = id.number();
        let key = self.index[&number];
        let slot = &mut self.slots[key];
        if slot.count == u64::MAX {
            return Err(AllocError);
        }
        slot.count += 1;
        Ok(())
    }

    /// Counts one reference less to a value. Once there is none, the value can be taken out.
    pub fn release_ref(&mut self, id: DescriptionId)
        requires { 0 < count_at self.old id }
        ensures counted { HasMore (once id) self.new self.old }
        ensures room { self.new.room ≡ self.old.room }
    {
        let number = id.number();
        let key = self.index[&number];
        let head = self.head;
        let slot = &mut self.slots[key];
        slot.count -= 1;
        if slot.count == 0 {
            slot.next = head;
            self.head = Some(key);
        }
    }

    /// Counts no reference to any value. It visits all slots, and takes no memory.
    pub fn release_all(&mut self)
        ensures places { self.new.places ≡ self.old.places }
        ensures counts { (d : ℕ) → count_at self.new d ≡ 0 }
        ensures room { self.new.room ≡ self.old.room }
    {
        let head = release_slots(&mut self.slots);
        self.head = head;
    }

    /// Takes out a value to which there is no reference, with its handle, if there is one.
    pub fn next_dead(&mut self) -> Option<(DescriptionId, T)>
        ensures dead { IfSome result (λ x. place self.old.places x.0 ≡ Some x.1) }
        ensures uncounted { IfSome result (λ x. count_at self.old x.0 ≡ 0) }
        ensures taken { IfSome result (λ x. self.new.places ≡ emptied self.old.places x.0) }
        ensures counts { self.new.counts ≡ self.old.counts }
        ensures room { self.old.room ≤ self.new.room }

        ensures none { IsNone result ↔ IsNoneDead self.old }
        ensures unchanged { IfNone result (self.new ≡ self.old) }
    {
        let key = self.head?;
        let slot = self.slots.remove(key);
        let number = slot.number;
        // It has a name, since the proof cites the call by it.
        let _key = self.index.remove(&number);
        self.head = slot.next;
        Some((DescriptionId::new(number), slot.value))
    }
}

/// The numbers of an index, rising.
fn ids_in(alloc: Global, index: &HashMap<u128, usize>) -> Result<Vec<DescriptionId>, AllocError>
    ensures there { IfOk result (λ ids. (d : ℕ) → Contains ids.items d ↔ IsSome (map.get nat_eq index.now d)) }
    ensures rising { IfOk result (λ ids. IsStrictlyIncreasing ids.items) }
{
    let mut ids = Vec::with_capacity(alloc, index.len())?;
    for number in index.keys() {
        ids.push(DescriptionId::new(*number))?;
    }
    ids.sort_unstable_by_key(|id| id.number());
    Ok(ids)
}

/// Puts every slot on a new release list, and answers the first of that.
fn release_slots<T>(slots: &mut Slab<Slot<T>>) -> Option<usize>
    ensures released { IsReleased (slab.get slots.old) (slab.get slots.new) result }
    ensures len { slab.slab_len slots.new ≡ slab.slab_len slots.old }
    ensures capacity { slots.new.capacity ≡ slots.old.capacity }
{
    let mut head = None;
    for key in 0..slots.capacity() {
        head = release_slot(slots, key, head);
    }
    head
}

/// Puts the slot of a key in front of a release list, if there is one, and answers the first of that.
fn release_slot<T>(slots: &mut Slab<Slot<T>>, key: usize, head: Option<usize>) -> Option<usize>
    ensures slot { Puts (slab.get slots.old) (slab.get slots.new) key (put_in_front head (slab.get slots.old key)) }
    ensures head { result ≡ (if is_some (slab.get slots.old key) then Some key else head) }
    ensures keys { length slots.new.slots ≡ length slots.old.slots }
    ensures len { slab.slab_len slots.new ≡ slab.slab_len slots.old }
    ensures capacity { slots.new.capacity ≡ slots.old.capacity }
{
    let Some(slot) = slots.get_mut(key) else {
        return head;
    };
    slot.count = 0;
    slot.next = head;
    Some(key)
}
