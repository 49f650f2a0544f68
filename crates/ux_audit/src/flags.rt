//! The close-on-exec flags of one process's table, as far as numbers were open.
ghost use Rattle.std.specs.Prelude.{◌≡◌, ◌==◌, ℕ, ◌<◌, ◌≤◌, ◌^◌, None, Some, Option, Bool, length, map, option_map, if◌then◌else◌, IfOk, OnOk};
ghost use Rattle.std.specs.List.{list_any};
ghost use Rattle.ux_model.specs.Places.{place};
ghost use Rattle.ux_audit.specs.Flags.{flag_on_exec, flag_left};

use bitflags::Flags;
use std::alloc::AllocError;
use ux_types::{Fd, OpenFlags, Request};

/// Lets the row have a place for the number.
fn reach(row: &mut Vec<Option<bool>>, n: u32) -> Result<(), AllocError>
    ensures within { OnOk result (n < length row.new.items) }
    ensures same { (k : ℕ) → place row.new.items k ≡ place row.old.items k }
    ensures small { length row.old.items ≤ 2 ^ 32 → length row.new.items ≤ 2 ^ 32 }
{
    while row.len() <= n as usize {
        row.push(None)?;
    }
    Ok(())
}

/// Gives the number.
fn put(row: &mut Vec<Option<bool>>, n: u32, cloexec: bool) -> Result<(), AllocError>
    ensures flags { OnOk result ((k : ℕ) → place row.new.items k ≡ (if n == k then Some cloexec else place row.old.items k)) }
    ensures small { length row.old.items ≤ 2 ^ 32 → length row.new.items ≤ 2 ^ 32 }
{
    reach(row, n)?;
    row[n as usize] = Some(cloexec);
    Ok(())
}

/// Gives the numbers.
pub(crate) fn put_all(
    row: &mut Vec<Option<bool>>,
    numbers: &[Fd],
    cloexec: bool,
) -> Result<(), AllocError>
    ensures flags { OnOk result ((k : ℕ) → place row.new.items k
        ≡ (if list_any (λ m. m == k) (map (λ fd. fd.0) numbers.now) then Some cloexec else place row.old.items k)) }
    ensures small { length row.old.items ≤ 2 ^ 32 → length row.new.items ≤ 2 ^ 32 }
{
    for fd in numbers {
        put(row, fd.0, cloexec)?;
    }
    Ok(())
}

/// Sets or clears the flag of a number that is open.
fn set_flag(row: &mut Vec<Option<bool>>, n: u32, on: bool)
    ensures flags { (k : ℕ) → place row.new.items k ≡ (if n == k then option_map (λ c. on) (place row.old.items k) else place row.old.items k) }
    ensures small { length row.old.items ≤ 2 ^ 32 → length row.new.items ≤ 2 ^ 32 }
{
    let n = n as usize;
    if n < row.len() && row[n].is_some() {
        row[n] = Some(on);
    }
}

/// Takes the number away.
fn take(row: &mut Vec<Option<bool>>, n: u32)
    ensures flags { (k : ℕ) → place row.new.items k ≡ (if n == k then None else place row.old.items k) }
    ensures small { length row.old.items ≤ 2 ^ 32 → length row.new.items ≤ 2 ^ 32 }
{
    let n = n as usize;
    if n < row.len() {
        row[n] = None;
    }
}

/// Takes the numbers away that have the flag.
fn take_flagged(row: &mut [Option<bool>])
    ensures { (k : ℕ) → place row.new k ≡ flag_on_exec (place row.old k) }
{
    for flag in row.iter_mut() {
        if let Some(true) = *flag {
            *flag = None;
        }
    }
}

/// What a call that wasn't refused leaves of the numbers that it doesn't give.
pub(crate) fn leave(row: &mut Vec<Option<bool>>, request: &Request)
    ensures flags { (k : ℕ) → place row.new.items k ≡ flag_left request.now k (place row.old.items k) }
    ensures small { length row.old.items ≤ 2 ^ 32 → length row.new.items ≤ 2 ^ 32 }
{
    match request {
        Request::SetFlags { fd, flags } => {
            set_flag(row, fd.0, flags.contains(OpenFlags::CLOEXEC));
        }
        Request::Close { fd } => take(row, fd.0),
        Request::Exec => take_flagged(row.as_mut_slice()),
        Request::Exit | Request::Off => row.clear(),
        _ => {}
    }
}
