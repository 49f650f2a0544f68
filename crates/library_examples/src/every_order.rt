//! Two processes take two semaphores and give them back, in every order of their calls. Where each takes them in its own
//! order, one of the outcomes is a deadlock; where both take them in the same order, none is.
ghost use Rattle.std.specs.Prelude.{◌≡◌, true, IfOk};
ghost use Rattle.std.specs.List.{AllByRecursion, list_any};
ghost use Rattle.ux_model.specs.Boot.{boot_state};
ghost use Rattle.ux_orders.specs.Outcomes.{is_deadlock};
ghost use Rattle.library_examples.specs.Histories.{IsHistory, LeavesNone};

use anyhow::Result;
use delortxa::{Boot, Fd, Found, Mode, OrderList, Pid, Programs, Ran, call, explore, explore_each};
use std::alloc::Global;

const FIRST: Pid = Pid(1);

const SECOND: Pid = Pid(2);

/// What a semaphore is taken and given back by: a counter at 1 is free (eventfd(2)).
const ONE: [u8; 8] = [1, 0, 0, 0, 0, 0, 0, 0];

/// The process opens both semaphores, as 0 and 1.
fn opens_both(alloc: Global, programs: Programs, pid: Pid) -> Result<Programs> {
    let programs = programs.call(pid, call::open(alloc, b"a", Mode::Both)?)?;
    Ok(programs.call(pid, call::open(alloc, b"b", Mode::Both)?)?)
}

/// The process takes this one and then the other, and gives them back.
fn takes_both(alloc: Global, programs: Programs, pid: Pid, one: Fd, other: Fd) -> Result<Programs> {
    let programs = programs.call(pid, call::read(one, 8))?;
    let programs = programs.call(pid, call::read(other, 8))?;
    let programs = programs.call(pid, call::write(alloc, other, &ONE)?)?;
    Ok(programs.call(pid, call::write(alloc, one, &ONE)?)?)
}

/// The first process makes both free, and takes 0 before 1; the second takes this one before the other.
fn protocol(alloc: Global, one: Fd, other: Fd) -> Result<Programs> {
    let programs = opens_both(alloc, Programs::new(alloc), FIRST)?;
    let programs = programs.call(FIRST, call::write(alloc, Fd(0), &ONE)?)?;
    let programs = programs.call(FIRST, call::write(alloc, Fd(1), &ONE)?)?;
    let programs = takes_both(alloc, programs, FIRST, Fd(0), Fd(1))?;
    let programs = opens_both(alloc, programs.wait(SECOND, FIRST, 4)?, SECOND)?;
    takes_both(alloc, programs, SECOND, one, other)
}

/// Two semaphores, which nobody has made free yet, and two processes.
fn semaphores(alloc: Global) -> Result<Boot> {
    let boot = Boot::new(alloc).counter(b"a")?.counter(b"b")?;
    Ok(boot.process(1000, 1000, 16)?.process(1000, 1000, 16)?)
}

/// What all orders come to. The history of each outcome is legal, so all laws of legal histories hold of it.
#[tactic(auto, using(crate::proofs::Histories::all_legal))]
fn outcomes(alloc: Global, one: Fd, other: Fd) -> Result<Found>
    ensures { IfOk result (λ found. AllByRecursion IsHistory found.outcomes.items) }
{
    let boot = semaphores(alloc)?;
    Ok(explore(alloc, &boot, &protocol(alloc, one, other)?, 1000)?)
}

/// Whether no order of these lists ends in a deadlock. Where it says so, none does: whatever threads make of them, up to
/// where each process has exited or has to wait, leaves no process, if no memory lacks and no object fails.
fn never_deadlocks(alloc: Global, boot: &Boot, programs: &Programs) -> Result<bool>
    ensures { IfOk result (λ never. never ≡ true → LeavesNone (boot_state boot.now.objects boot.now.processes) programs.now) }
{
    let found = explore_each(alloc, boot, programs, 100_000)?;
    if !found.is_all || has_deadlock(&found.outcomes) {
        return Ok(false);
    }
    Ok(true)
}

/// Whether one of these is a deadlock.
fn has_deadlock(outcomes: &[Ran]) -> bool
    ensures { result ≡ list_any (λ ran. is_deadlock ran) outcomes.now }
{
    outcomes.iter().any(|ran| ran.is_deadlock())
}

/// Prints an order for each outcome, and who waits where in its list.
fn print_outcomes(rt: &impl Print, name: &str, found: &Found) -> Result<()> {
    let deadlocks = found
        .outcomes
        .iter()
        .filter(|outcome| outcome.is_deadlock());
    println!(rt;
        "{name}: outcomes {}, deadlocks {}",
        found.outcomes.len(),
        deadlocks.count()
    )?;
    if !found.is_all {
        println!(rt; "orders are left")?;
    }
    for outcome in &found.outcomes {
        let order = OrderList(outcome.entries());
        match outcome {
            Ran::Deadlock(_, waits) => println!(rt; "{order} deadlock: {waits:?}")?,
            _ => println!(rt; "{order}")?,
        }
    }
    Ok(())
}

pub(crate) fn run(rt: &(impl Print + AllocGlobal)) -> Result<()> {
    let opposite = outcomes(rt.alloc(), Fd(1), Fd(0))?;
    print_outcomes(rt, "each in its own order", &opposite)?;
    let same = outcomes(rt.alloc(), Fd(0), Fd(1))?;
    print_outcomes(rt, "both in the same order", &same)?;
    let boot = semaphores(rt.alloc())?;
    let never = never_deadlocks(rt.alloc(), &boot, &protocol(rt.alloc(), Fd(0), Fd(1))?)?;
    println!(rt; "never a deadlock: {never}")?;
    Ok(())
}
