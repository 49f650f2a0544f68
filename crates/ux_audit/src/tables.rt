//! The close-on-exec flags of all tables, followed entry by entry.
ghost use Rattle.std.specs.Prelude.{◌≡◌, ◌==◌, ℕ, ◌<◌, ◌≤◌, ◌^◌, All, length, map, if◌then◌else◌, IfOk, OnOk};
ghost use Rattle.ux_model.specs.History.{makes};
ghost use Rattle.ux_audit.specs.Shown.{shown};
ghost use Rattle.ux_audit.specs.Flags.{flag_at, flag_own, flag_of_others, flag_after, AreSmall};

use crate::flags::{leave, put_all};
use crate::shown::{cloexec_of, is_err};
use std::alloc::{AllocError, Global};
use ux_types::{Entry, Fd, Pid, Reply, Request};

/// Lets the tables have a row for the process.
fn reach(alloc: Global, tables: &mut Vec<Vec<Option<bool>>>, pid: Pid) -> Result<(), AllocError>
    ensures within { OnOk result (pid.0 < length tables.new.items) }
    ensures more { length tables.old.items ≤ length tables.new.items }
    ensures small { AreSmall tables.old.items → AreSmall tables.new.items }
    ensures same { (q n : ℕ) → flag_at tables.new.items q n ≡ flag_at tables.old.items q n }
{
    while tables.len() <= pid.0 as usize {
        tables.push(Vec::new(alloc))?;
    }
    Ok(())
}

/// Copies the parent's row for the child.
fn fork(
    alloc: Global,
    tables: &mut Vec<Vec<Option<bool>>>,
    parent: Pid,
    child: Pid,
) -> Result<(), AllocError>
    ensures flags { OnOk result ((q n : ℕ) → flag_at tables.new.items q n
        ≡ (if child.0 == q then flag_at tables.old.items parent.0 n else flag_at tables.old.items q n)) }
    ensures small { AreSmall tables.old.items → AreSmall tables.new.items }
{
    reach(alloc, tables, parent)?;
    reach(alloc, tables, child)?;
    let row = Vec::from_slice(alloc, tables[parent.0 as usize].as_slice())?;
    tables[child.0 as usize] = row;
    Ok(())
}

/// What a call that wasn't refused changes in its process's table.
fn change(
    alloc: Global,
    tables: &mut Vec<Vec<Option<bool>>>,
    entry: &Entry,
    numbers: &[Fd],
) -> Result<(), AllocError>
    ensures flags { OnOk result ((q n : ℕ) → flag_at tables.new.items q n
        ≡ (if entry.now.pid.0 == q then flag_own entry.now.request (map (λ fd. fd.0) numbers.now) n (flag_at tables.old.items q n) else flag_at tables.old.items q n)) }
    ensures small { AreSmall tables.old.items → AreSmall tables.new.items }
{
    reach(alloc, tables, entry.pid)?;
    let row = &mut tables[entry.pid.0 as usize];
    leave(row, &entry.request);
    put_all(row, numbers, cloexec_of(&entry.request))
}

/// Empties all tables at the end of the layer.
fn leave_others(tables: &mut Vec<Vec<Option<bool>>>, request: &Request)
    ensures flags { (q n : ℕ) → flag_at tables.new.items q n ≡ flag_of_others request.now (flag_at tables.old.items q n) }
    ensures small { AreSmall tables.old.items → AreSmall tables.new.items }
{
    if let Request::Off = request {
        tables.clear();
    }
}

/// What the entry changes, which gave its process these numbers.
pub(crate) fn follow(
    alloc: Global,
    tables: &mut Vec<Vec<Option<bool>>>,
    entry: &Entry,
    numbers: &[Fd],
) -> Result<(), AllocError>
    requires shown { map (λ fd. fd.0) numbers.now ≡ shown entry.now.request entry.now.reply }
    ensures flags { OnOk result ((q n : ℕ) → flag_at tables.new.items q n ≡ flag_after (flag_at tables.old.items) entry.now q n) }
    ensures small { AreSmall tables.old.items → AreSmall tables.new.items }
{
    if is_err(&entry.reply) {
        return Ok(());
    }
    if let (Request::Fork, Reply::Child(child)) = (&entry.request, &entry.reply) {
        return fork(alloc, tables, entry.pid, *child);
    }
    leave_others(tables, &entry.request);
    change(alloc, tables, entry, numbers)
}
