//! Which entries gave each number, and what is open at the end, found once for all questions.
ghost use Rattle.std.specs.Prelude.{◌≡◌, ◌==◌, ◌<◌, ℕ, [], ◌∷◌, ◌++◌, length, map, replicate, if◌then◌else◌, IfOk, OnOk};
ghost use Rattle.ux_model.specs.References.{times};
ghost use Rattle.ux_model.specs.State.{State};
ghost use Rattle.ux_model.specs.History.{replay, makes, IsLegal};
ghost use Rattle.ux_audit.specs.Shown.{shown};
ghost use Rattle.ux_audit.specs.Flags.{flag_at, flag_after, AreFlags, AreSmall};
ghost use Rattle.ux_audit.specs.Givers.{items_at, places_at, AreGivers};

use crate::lists::{note, note_all};
use crate::shown::numbers_shown;
use crate::tables;
use std::alloc::{AllocError, Global};
use ux_types::{Entry, Fd, Pid, Reply, Request};

/// What was found in the entries of a history.
#[derive(Drop)]
pub(crate) struct Index {
    /// For each process the entries that made it, by their places.
    pub(crate) births: Vec<Vec<usize>>,
    /// For each process and each of its numbers, its own entries that gave it.
    pub(crate) rows: Vec<Vec<Vec<usize>>>,
    /// For each process and each of its numbers that is open, its close-on-exec flag.
    pub(crate) tables: Vec<Vec<Option<bool>>>,
}

/// Lets the rows have one for the process.
fn reach(alloc: Global, rows: &mut Vec<Vec<Vec<usize>>>, pid: Pid) -> Result<(), AllocError>
    ensures within { OnOk result (pid.0 < length rows.new.items) }
    ensures same { (p n : ℕ) → places_at rows.new.items p n ≡ places_at rows.old.items p n }
{
    while rows.len() <= pid.0 as usize {
        rows.push(Vec::new(alloc))?;
    }
    Ok(())
}

/// Notes the place of an entry of the process that gave it these numbers.
fn note_given(
    alloc: Global,
    rows: &mut Vec<Vec<Vec<usize>>>,
    pid: Pid,
    numbers: &[Fd],
    place: usize,
) -> Result<(), AllocError>
    ensures { OnOk result ((p n : ℕ) → places_at rows.new.items p n
        ≡ (if pid.0 == p then places_at rows.old.items p n ++ replicate (times n (map (λ fd. fd.0) numbers.now)) place else places_at rows.old.items p n)) }
{
    reach(alloc, rows, pid)?;
    note_all(alloc, &mut rows[pid.0 as usize], numbers, place)
}

/// Notes the place of an entry that made a process.
fn note_birth(
    alloc: Global,
    births: &mut Vec<Vec<usize>>,
    entry: &Entry,
    place: usize,
) -> Result<(), AllocError>
    ensures { OnOk result ((p : ℕ) → items_at births.new.items p
        ≡ (if makes p entry.now.request entry.now.reply then items_at births.old.items p ++ place ∷ [] else items_at births.old.items p)) }
{
    match (&entry.request, &entry.reply) {
        (Request::Fork, Reply::Child(child)) => note(alloc, births, child.0, place),
        _ => Ok(()),
    }
}

impl Index {
    /// Takes one more entry in, which has this place.
    fn follow(&mut self, alloc: Global, entry: &Entry, place: usize) -> Result<(), AllocError>
        ensures births { OnOk result ((p : ℕ) → items_at self.new.births.items p
            ≡ (if makes p entry.now.request entry.now.reply then items_at self.old.births.items p ++ place ∷ [] else items_at self.old.births.items p)) }
        ensures rows { OnOk result ((p n : ℕ) → places_at self.new.rows.items p n
            ≡ (if entry.now.pid.0 == p then places_at self.old.rows.items p n ++ replicate (times n (shown entry.now.request entry.now.reply)) place else places_at self.old.rows.items p n)) }
        ensures flags { OnOk result ((q n : ℕ) → flag_at self.new.tables.items q n ≡ flag_after (flag_at self.old.tables.items) entry.now q n) }
        ensures small { AreSmall self.old.tables.items → AreSmall self.new.tables.items }
    {
        let numbers = numbers_shown(alloc, entry)?;
        tables::follow(alloc, &mut self.tables, entry, numbers.as_slice())?;
        note_birth(alloc, &mut self.births, entry, place)?;
        note_given(alloc, &mut self.rows, entry.pid, numbers.as_slice(), place)
    }

    /// What is found in the entries of a history.
    pub(crate) fn of(alloc: Global, entries: &[Entry]) -> Result<Index, AllocError>
        ensures givers { IfOk result (λ index. AreGivers entries.now (length entries.now) index.births.items index.rows.items) }
        ensures flags { IfOk result (λ index. (boot : State) → IsLegal boot entries.now → AreFlags (replay boot entries.now) index.tables.items) }
        ensures small { IfOk result (λ index. AreSmall index.tables.items) }
    {
        let mut index = Index {
            births: Vec::new(alloc),
            rows: Vec::new(alloc),
            tables: Vec::new(alloc),
        };
        for (place, entry) in entries.iter().enumerate() {
            index.follow(alloc, entry, place)?;
        }
        Ok(index)
    }
}
