//! What was told last, and what has changed since.
ghost use Rattle.std.specs.Prelude.{◌≡◌, ℕ, IfOk, OnOk, OnErr};
ghost use Rattle.ux_watch.specs.Telling as telling;
ghost use Rattle.ux_watch.specs.Changing.{AreChanges, AreNew, HasEachNew, AreRising, IsFrom, told_at, first_at, without, lower};

use crate::told::{Told, tell};
use std::alloc::{AllocError, Global};
use std::marker::Model;
use ux_object::FileObject;
use ux_state::State;
use ux_types::DescriptionId;

/// What now holds of a description of which something else was told before.
#[derive(Clone, Copy, Debug)]
pub struct Change {
    pub id: DescriptionId,
    pub now: Told,
}

/// What was told last of each description. Contracts see what was told of those that were there, by rising number; of each
/// further number it is what holds of one that isn't there (`told_at`).
#[derive(Drop)]
pub struct Watch {
    alloc: Global,
    /// Of the descriptions that were there, by rising number.
    last: Vec<Change>,
}

impl Model for Watch {
    ghost use Rattle.std.specs.Prelude.{List};
    ghost use Rattle.ux_watch.specs.declared.watch.Change.{Change};
    ghost use Rattle.ux_watch.specs.Changing.{IsFrom};

    ghost Value = { List Change };

    ghost view = { λ w. w.last.items };

    ghost invariant = { λ w. IsFrom 0 w.last.items };
}

impl Watch {
    /// Nothing was told yet. It takes no memory.
    pub fn new(alloc: Global) -> Watch
        ensures { (d : ℕ) → told_at result d ≡ telling.gone }
    {
        Watch {
            alloc,
            last: Vec::new(alloc),
        }
    }

    /// What has changed in this state since the last call, rising by the descriptions' numbers. It is told then. It looks at
    /// the descriptions that are there, or were at the last call.
    ///
    /// # Errors
    ///
    /// Out of memory.
    pub fn changes<O: FileObject>(&mut self, state: &State<O>) -> Result<Vec<Change>, AllocError>
        // Each of these is of a description of which something else was told, with what holds now.
        ensures sound { IfOk result (λ changes. AreNew (told_at self.old) state.now changes.items) }
        // Each description of which something else was told is among them.
        ensures complete { IfOk result (λ changes. HasEachNew (told_at self.old) state.now changes.items) }
        // They rise, so none comes twice.
        ensures rising { IfOk result (λ changes. AreRising changes.items) }
        // From then on what holds now is what was told, of every number.
        ensures told { OnOk result ((d : ℕ) → told_at self.new d ≡ telling.told state.now d) }
        ensures same { OnErr result ((d : ℕ) → told_at self.new d ≡ told_at self.old d) }
    {
        let now = tell_all(self.alloc, state)?;
        let changes = changes_between(self.alloc, &self.last, &now)?;
        self.last = now;
        Ok(changes)
    }
}

/// What holds of each description that is there, by rising number.
fn tell_all<O: FileObject>(alloc: Global, state: &State<O>) -> Result<Vec<Change>, AllocError>
    ensures told { IfOk result (λ all. (d : ℕ) → told_at all.items d ≡ telling.told state.now d) }
    ensures rising { IfOk result (λ all. IsFrom 0 all.items) }
{
    let ids = state.description_ids(alloc)?;
    let mut all = Vec::with_capacity(alloc, ids.len())?;
    for i in 0..ids.len() {
        let id = ids[i];
        all.push(Change {
            id,
            now: tell(state, id),
        })?;
    }
    Ok(all)
}

/// What is told of another way than before, where each of both is by rising number.
fn changes_between(
    alloc: Global,
    before: &[Change],
    now: &[Change],
) -> Result<Vec<Change>, AllocError>
    requires before { IsFrom 0 before.now }
    requires now { IsFrom 0 now.now }
    ensures { IfOk result (λ changes. AreChanges (told_at before.now) (told_at now.now) changes.items) }
{
    let mut changes = Vec::new(alloc);
    let mut old = before;
    let mut new = now;
    while let Some(id) = lower(old, new) {
        let told = first_at(new, id);
        if !told.is_same(first_at(old, id)) {
            changes.push(Change { id, now: told })?;
        }
        old = without(old, id);
        new = without(new, id);
    }
    Ok(changes)
}

/// The lower of the first numbers of the two.
fn lower(old: &[Change], new: &[Change]) -> Option<DescriptionId>
    ensures { result ≡ lower old.now new.now }
{
    match (old.first(), new.first()) {
        (Some(one), Some(other)) if other.id.number() < one.id.number() => Some(other.id),
        (Some(one), _) => Some(one.id),
        (None, Some(other)) => Some(other.id),
        (None, None) => None,
    }
}

/// What the first says, where it is of this description.
fn first_at(list: &[Change], id: DescriptionId) -> Told
    ensures { result ≡ first_at list.now id }
{
    match list.first() {
        Some(first) if first.id == id => first.now,
        _ => Told::GONE,
    }
}

/// The same without the first, where that is of this description.
fn without(list: &[Change], id: DescriptionId) -> &[Change]
    ensures { result.now ≡ without list.now id }
{
    match list.first() {
        Some(first) if first.id == id => &list[1..],
        _ => list,
    }
}
