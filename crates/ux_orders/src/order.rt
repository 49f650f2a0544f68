//! One order: by a number, or written out.
ghost use Rattle.std.specs.Prelude.{◌≡◌, ◌++◌, ◌∷◌, [], true, List, map, IfOk, IfSome, IfNone};
ghost use Rattle.ux_model.specs.Types.{Pid};
ghost use Rattle.ux_model.specs.State.{State};
ghost use Rattle.ux_model.specs.Boot.{IsBootState, new_process};
ghost use Rattle.ux_model.specs.History.{IsLegal};
ghost use Rattle.ux_syntax.specs.Spelling.{Plan, plan_of};
ghost use Rattle.ux_orders.specs.Orders.{entries_of, IsRunOf};
ghost use Rattle.ux_orders.specs.Outcomes.{is_broken_off};
ghost use Rattle.ux_orders.specs.Lists.{pids_of, MakesList, MakesOrder};

use crate::chooser::{Chooser, Ready};
use crate::draw::Draw;
use crate::ran::{OrderFault, Ran};
use crate::run::run_order;
use std::alloc::{AllocError, Global};
use ux_kernel::Kernel;
use ux_object::FileObject;
use ux_syntax::Script;
use ux_types::{Entry, Pid};

/// An order.
#[derive(Debug, Drop)]
pub enum Order {
    /// The one that a number stands for.
    Drawn(Draw),
    /// The processes of the first lines, in order; behind them the process of the lowest number goes on that may.
    Listed(Vec<Pid>),
}

/// Names the process of the next place of a list, and behind its end the one of the lowest number.
#[derive(Clone, Copy)]
struct Listed<'a>(&'a [Pid]);

impl Chooser for Listed<'_> {
    fn choose(&mut self, made: usize, ready: &[Ready]) -> Result<Option<usize>, AllocError> {
        match self.0.get(made) {
            Some(pid) => Ok(place_of(ready, *pid)),
            None => Ok(Some(0)),
        }
    }
}

/// At which place this process is.
pub(crate) fn place_of(ready: &[Ready], pid: Pid) -> Option<usize> {
    ready.iter().position(|one| one.pid == pid)
}

/// Reads an order: a number, or process numbers that are joined by commas. Behind the last a comma may stand, and a
/// comma alone is the empty list. None where it is written otherwise.
///
/// # Errors
///
/// Out of memory.
pub fn read_order(alloc: Global, text: &str) -> Result<Option<Order>, AllocError> {
    if !text.contains(',') {
        return Ok(number_of(text).map(|seed| Order::Drawn(Draw::new(seed))));
    }
    if text == "," {
        return Ok(Some(Order::Listed(Vec::new(alloc))));
    }
    let body = text.strip_suffix(',').unwrap_or(text);
    Ok(read_list(alloc, body)?.map(Order::Listed))
}

/// The process numbers that are joined by commas here, if nothing else is.
fn read_list(alloc: Global, text: &str) -> Result<Option<Vec<Pid>>, AllocError> {
    let mut pids = Vec::new(alloc);
    for word in text.split(',') {
        match pid_of(word) {
            Some(pid) => pids.push(pid)?,
            None => return Ok(None),
        }
    }
    Ok(Some(pids))
}

/// The process whose number is written so.
fn pid_of(text: &str) -> Option<Pid> {
    u32::try_from(number_of(text)?).ok().map(Pid)
}

/// The number that is written so, as numbers are in scripts: in decimal, without leading zeros.
fn number_of(text: &str) -> Option<u64> {
    if text.starts_with('+') || (text.starts_with('0') && text.len() > 1) {
        return None;
    }
    text.parse().ok()
}

/// Runs the script as `run_order` does, in this order. One that is written out is made: the run's begins with it, or,
/// where a process of it can't go on, is broken off there.
///
/// # Errors
///
/// Those of `run_order`.
pub fn make_order<O: FileObject>(
    alloc: Global,
    script: &Script,
    kernel: Kernel<O>,
    order: &mut Order,
) -> Result<Ran, OrderFault>
    requires boots { IsBootState kernel }
    requires processes { kernel.processes ≡ map new_process script.now.procs.items }
    // The entries are a legal history from the kernel's state.
    ensures legal { IfOk result (λ ran. IsLegal kernel (entries_of ran)) }
    // Each process made the script's calls, as `run_order` has it.
    ensures runs { IfOk result (λ ran. IsRunOf kernel (plan_of script.now) ran) }
    // Who made them is as the order says.
    ensures order { IfOk result (λ ran. MakesOrder order.old ran) }
{
    match order {
        Order::Drawn(draw) => run_order(alloc, script, kernel, draw),
        Order::Listed(pids) => {
            let ran = run_order(alloc, script, kernel, &mut Listed(pids.as_slice()))?;
            asked(ran, pids.as_slice())
        }
    }
}

/// The run, where it made this list. Where it came to its end before the list does, it is broken off there.
#[tactic(auto, using(crate::proofs::Breaking::broken, crate::proofs::Breaking::made, crate::proofs::Breaking::made_first))]
fn asked(ran: Ran, pids: &[Pid]) -> Result<Ran, OrderFault>
    ensures legal { IfOk result (λ asked. entries_of asked ≡ entries_of ran) }
    ensures runs { IfOk result (λ asked. (boot : State) (s : Plan) → IsRunOf boot s ran → IsRunOf boot s asked) }
    ensures list { IfOk result (λ asked. MakesList pids.now asked) }
{
    if !ran.is_broken_off() && begins_with(ran.entries(), pids) {
        return Ok(ran);
    }
    if !is_begun(ran.entries(), pids) {
        return Err(OrderFault::Stranger);
    }
    Ok(broken_off(ran))
}

/// The same run, as one that was broken off.
fn broken_off(ran: Ran) -> Ran
    ensures entries { entries_of result ≡ entries_of ran }
    ensures broken_off { is_broken_off result ≡ true }
{
    match ran {
        Ran::Whole(entries) => Ran::BrokenOff(entries),
        Ran::Deadlock(entries, waits) => {
            drop(waits);
            Ran::BrokenOff(entries)
        }
        Ran::BrokenOff(entries) => Ran::BrokenOff(entries),
    }
}

/// Whether the first of these calls are those of these processes.
fn begins_with(entries: &[Entry], pids: &[Pid]) -> bool
    ensures { result ≡ true → (rest : List Pid) × (pids_of entries.now ≡ pids.now ++ rest) }
{
    let mut rest = entries;
    for pid in pids {
        let Some((entry, after)) = next_made(rest) else {
            return false;
        };
        if entry.pid != *pid {
            return false;
        }
        rest = after;
    }
    true
}

/// Whether these calls are those of the first of these processes.
fn is_begun(entries: &[Entry], pids: &[Pid]) -> bool
    ensures { result ≡ true → (rest : List Pid) × (pids.now ≡ pids_of entries.now ++ rest) }
{
    let mut left = pids;
    for entry in entries {
        if entry.pid.0 == 0 {
            continue;
        }
        let Some((pid, more)) = left.split_first() else {
            return false;
        };
        if entry.pid != *pid {
            return false;
        }
        left = more;
    }
    true
}

/// The next call that a process made, and those after it.
fn next_made(entries: &[Entry]) -> Option<(&Entry, &[Entry])>
    ensures some { IfSome result (λ r. pids_of entries.now ≡ r.0.now.pid ∷ pids_of r.1.now) }
    ensures none { IfNone result (pids_of entries.now ≡ []) }
{
    let mut rest = entries;
    while let Some((entry, more)) = rest.split_first() {
        if entry.pid.0 != 0 {
            return Some((entry, more));
        }
        rest = more;
    }
    None
}
