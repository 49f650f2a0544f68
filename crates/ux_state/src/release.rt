//! The end of a call: what nothing refers to is freed.
ghost use Rattle.std.specs.Prelude.{◌≡◌, ℕ, ◌<◌, ◌==◌, [], length, map, option_map, true, false, MatchOption, IfSome, Option, None, Some, ◌++◌, ◌∷◌, slice_set};
ghost use Rattle.std.specs.List.{list_any};
ghost use Rattle.ux_model.specs.Limits.{raised_object_limit};
ghost use Rattle.ux_model.specs.Object.{View, closed};
ghost use Rattle.ux_model.specs.Places.{place};
ghost use Rattle.ux_model.specs.References.{path_names, is_open_of, orefs};
ghost use Rattle.ux_model.specs.Release.{is_orphan, is_unreferenced, has_unreferenced, without, drop_unreferenced, orphans, without_orphans, settled};
ghost use Rattle.ux_model.specs.Release as release;
ghost use Rattle.ux_model.specs.Peers.{with_peer_reset};
ghost use Rattle.ux_model.specs.Closing.{with_nothing_open};
ghost use Rattle.ux_model.specs.Closing as model;
ghost use Rattle.ux_slots.specs.Held.{count_at};
ghost use Rattle.ux_state.specs.Counting.{none_open};
ghost use Rattle.ux_state.specs.Settling.{IsNextLook, LooksAgain, NoOrphans, handed_from, left};

use crate::binding::{drop_name, unlink_all};
use crate::object_place::ClosedObject;
use crate::openings::{Openings, count_out};
use crate::process::Process;
use crate::references::release_held;
use crate::released_objects::ReleasedObjects;
use crate::state::State;
use ux_description::Description;
use ux_number_sets::NumberSet;
use ux_object::FileObject;
use ux_slots::Slots;
use ux_types::{DescriptionId, Released};

impl<O: FileObject> State<O> {
    /// Drops each description that nothing refers to, again until none is left, then closes each file
    /// object that neither a path nor a description leads to, puts these into an empty list by rising number, and
    /// gives their numbers. It takes no memory.
    #[tactic(auto, unfolding(ux_model::specs::Release::settled, ux_model::specs::Release::released_objects))]
    pub fn settle(&mut self, released: &mut ReleasedObjects<O>) -> Released
        requires empty { released.old ≡ [] }
        ensures released { released.new ≡ release.released_objects self.old }
        ensures numbers { result ≡ map (λ r. r.0) released.new }
        ensures settled { self.new ≡ settled self.old }
    {
        self.drop_unreferenced();
        self.close_orphans(released)
    }

    /// Takes away all names, all descriptors and all descriptions (the end of the layer).
    #[tactic(auto, unfolding(ux_model::specs::Closing::off))]
    pub fn forget_all(&mut self)
        ensures { self.new ≡ (model.off self.old).next }
    {
        self.paths.clear();
        unlink_all(&mut self.links);
        self.abstract_names.clear();
        clear_tables(&mut self.processes);
        forget(&mut self.descriptions);
        uncount_all(&mut self.openings);
        self.flights.clear();
        self.settled.clear();
    }

    /// Drops each description that nothing refers to, again until none is left. It looks at none but
    /// those that it drops and the peer of each.
    fn drop_unreferenced(&mut self)
        ensures { self.new ≡ drop_unreferenced self.old }
    {
        // The proof names the loop by what it binds.
        while let Some(d) = self.drop_dead() {}
    }

    /// Drops some description that nothing refers to, with all that it holds, and gives its handle.
    fn drop_dead(&mut self) -> Option<DescriptionId>
        ensures { MatchOption result
            ((self.new ≡ self.old) × (has_unreferenced self.old ≡ false))
            (λ d. (is_unreferenced self.old d ≡ true) × (self.new ≡ without (λ n. n == d) self.old)) }
    {
        let Some(gone) = self.descriptions.next_dead() else {
            return None;
        };
        reset_peer(&mut self.descriptions, gone.1.lost_peer());
        count_out(&mut self.openings, &gone.1);
        look_again(&mut self.settled, gone.1.object());
        drop_name(&mut self.abstract_names, &gone.1, gone.0);
        release_held(&mut self.descriptions, &mut self.flights, gone.1);
        Some(gone.0)
    }

    /// Closes each file object that neither a path nor a description leads to, hands it out, and gives their numbers. It
    /// looks at none but those that aren't settled.
    fn close_orphans(&mut self, released: &mut ReleasedObjects<O>) -> Released
        requires empty { released.old ≡ [] }
        ensures released { released.new ≡ map (λ e. (e.0, option_map closed e.1)) (orphans self.old) }
        ensures numbers { result ≡ map (λ r. r.0) released.new }
        ensures state { self.new ≡ without_orphans self.old }
    {
        let mut numbers = Released::new(released.allocator());
        let mut from = 0;
        while let Some(o) = self.next_look(from) {
            let orphan = self.take_orphan(o);
            self.keep_settled(o);
            hand_out(released, &mut numbers, orphan);
            from = o + 1;
        }
        numbers
    }

    /// The first place, from this one on, whose file object isn't settled.
    fn next_look(&self, from: usize) -> Option<usize>
        ensures look { MatchOption result (NoOrphans self.now from (length self.now.objects)) (IsNextLook self.now from) }
        ensures small { IfSome result (λ o. o < raised_object_limit) }
    {
        // The set has room for file objects that are still to be made.
        let Some(o) = self.settled.first_free(from) else {
            return None;
        };
        if o < self.objects.len() {
            Some(o)
        } else {
            None
        }
    }

    /// Takes the file object out of this place, closed, if neither a path nor a description leads to it.
    fn take_orphan(&mut self, o: usize) -> Option<ClosedObject<O>>
        requires { o < length self.old.objects }
        ensures numbered { IfSome result (λ c. (c.number ≡ map (λ r. r.0) c.object) × (length c.object ≡ 1)) }
        ensures orphan { (elim result [ None ↦ [] | Some c ↦ c.object ]) ≡ handed_from self.old (o, place self.old.objects o) }
        ensures state { self.new ≡ record self.old { objects = slice_set self.old.objects o (left self.old (o, place self.old.objects o)) } }
    {
        if !self.is_orphan(o) {
            return None;
        }
        self.objects[o].take_closed(o as u32)
    }

    /// The end of a call needn't look at this place again, as long as nothing that led to its file object is lost.
    fn keep_settled(&mut self, o: usize)
        requires inside { o < length self.old.objects }
        requires no_orphan { is_orphan self.old (o, place self.old.objects o) ≡ false }
        ensures { self.new ≡ self.old }
    {
        self.settled.put(o, true);
    }

    /// Whether neither a path nor a description leads to the file object in this place.
    fn is_orphan(&self, o: usize) -> bool
        requires { o < length self.now.objects }
        ensures { result ≡ (orefs self.now o == 0) }
    {
        !self.is_open(o) && !self.is_named(o)
    }

    /// Whether a description leads to the file object in this place.
    fn is_open(&self, o: usize) -> bool
        requires { o < length self.now.objects }
        ensures { result ≡ list_any (is_open_of o) self.now.descriptions }
    {
        let counts = self.openings[o];
        0 < counts.readers || 0 < counts.writers
    }

    /// Whether a path names the file object in this place.
    fn is_named(&self, o: usize) -> bool
        requires { o < length self.now.objects }
        ensures { result ≡ list_any (λ e. path_names o e.1) self.now.paths }
    {
        0 < self.links[o]
    }
}

/// Hands out a file object and its number, if there is one, behind those that were.
fn hand_out<O: FileObject>(
    released: &mut ReleasedObjects<O>,
    numbers: &mut Released,
    object: Option<ClosedObject<O>>,
)
    requires room { length released.old < raised_object_limit }
    requires each { numbers.old ≡ map (λ r. r.0) released.old }
    requires numbered { IfSome object (λ c. (c.number ≡ map (λ r. r.0) c.object) × (length c.object ≡ 1)) }
    ensures released { released.new ≡ released.old ++ (elim object [ None ↦ [] | Some c ↦ c.object ]) }
    ensures numbers { numbers.new ≡ map (λ r. r.0) released.new }
{
    let Some(ClosedObject { object, number }) = object else {
        return;
    };
    released.push(object);
    numbers.push(number);
}

/// The file object that a description led to, or a path named, is looked at when the call ends.
pub(crate) fn look_again(settled: &mut NumberSet, object: Option<u32>)
    ensures { LooksAgain object settled.old settled.new }
{
    if let Some(object) = object {
        let o = object as usize;
        if o < settled.capacity() {
            settled.put(o, false);
        }
    }
}

/// ECONNRESET is pending at the peer of one that is freed, if the peer is still there.
fn reset_peer(slots: &mut Slots<Description>, peer: Option<DescriptionId>)
    ensures places { slots.new.places ≡ with_peer_reset peer slots.old.places }
    ensures counts { slots.new.counts ≡ slots.old.counts }
{
    if let Some(id) = peer {
        if let Some(x) = slots.get_mut(id) {
            x.set_reset(true);
        }
    }
}

/// Frees each description, whatever refers to it.
fn forget(slots: &mut Slots<Description>)
    ensures places { slots.new.places ≡ map (λ _. None) slots.old.places }
    ensures counts { (d : ℕ) → count_at slots.new d ≡ 0 }
{
    slots.release_all();
    // The proof names the loop by what it binds.
    while let Some(gone) = slots.next_dead() {}
}

/// No process has anything open any more.
fn clear_tables(processes: &mut Vec<Process>)
    ensures { processes.new.items ≡ map with_nothing_open processes.old.items }
{
    for process in processes.iter_mut() {
        process.close_all();
    }
}

/// No description is counted any more.
fn uncount_all(openings: &mut Vec<Openings>)
    ensures { openings.new.items ≡ map (λ _. none_open) openings.old.items }
{
    for counts in openings.iter_mut() {
        *counts = Openings::new();
    }
}
