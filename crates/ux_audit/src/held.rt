//! Which numbers are open, by rows of flags.
ghost use Rattle.std.specs.Prelude.{◌≡◌, ◌+◌, ◌≤◌, ◌^◌, ℕ, Bool, Option, [], ◌∷◌, ◌++◌, length, is_some, if◌then◌else◌, IfOk, OnOk};
ghost use Rattle.ux_model.specs.Places.{place};
ghost use Rattle.ux_audit.specs.Flags.{flag_at, AreSmall};
ghost use Rattle.ux_audit.specs.Holdings.{AreListed};

use std::alloc::{AllocError, Global};
use ux_types::{Fd, Pid};

/// Whether the number is open.
pub(crate) fn is_open(tables: &[Vec<Option<bool>>], pid: Pid, fd: Fd) -> bool
    ensures { result ≡ is_some (flag_at tables.now pid.0 fd.0) }
{
    match tables.get(pid.0 as usize) {
        Some(row) => match row.get(fd.0 as usize) {
            Some(flag) => flag.is_some(),
            None => false,
        },
        None => false,
    }
}

/// Lists the number, if it is open.
fn list_number(
    held: &mut Vec<(Pid, Fd)>,
    pid: Pid,
    fd: Fd,
    flag: Option<bool>,
) -> Result<(), AllocError>
    ensures { OnOk result (held.new.items ≡ (if is_some flag then held.old.items ++ (pid, fd) ∷ [] else held.old.items)) }
{
    if flag.is_some() {
        held.push((pid, fd))?;
    }
    Ok(())
}

/// Lists the numbers of a process.
fn list_row(held: &mut Vec<(Pid, Fd)>, pid: u32, row: &[Option<bool>]) -> Result<(), AllocError>
    requires small { length row.now ≤ 2 ^ 32 }
    ensures { OnOk result ((flags : ℕ → ℕ → Option Bool) → ((n : ℕ) → flags pid n ≡ place row.now n) →
        AreListed flags pid 0 held.old.items → AreListed flags (pid + 1) 0 held.new.items) }
{
    for (n, flag) in row.iter().enumerate() {
        list_number(held, Pid(pid), Fd(n as u32), *flag)?;
    }
    Ok(())
}

/// Lists the numbers of all processes.
pub(crate) fn list_all(
    alloc: Global,
    tables: &[Vec<Option<bool>>],
) -> Result<Vec<(Pid, Fd)>, AllocError>
    requires small { AreSmall tables.now }
    ensures { IfOk result (λ held. AreListed (flag_at tables.now) (length tables.now) 0 held.items) }
{
    let mut held = Vec::new(alloc);
    for (pid, row) in tables.iter().enumerate() {
        list_row(&mut held, pid as u32, row.as_slice())?;
    }
    Ok(held)
}
