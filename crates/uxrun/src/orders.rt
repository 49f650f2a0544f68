//! Runs of a script in one order, and in all.
ghost use Rattle.std.specs.Prelude.{map};
ghost use Rattle.ux_model.specs.Boot.{boot_state};
ghost use Rattle.ux_script.specs.Objects.{object_of};

use crate::machines::boot;
use crate::page::{add_run, write_page};
use crate::printing::{print_calls, print_expected};
use std::alloc::Global;
use std::io;
use std::random::RandomSource;
use std::rt::{Clock, Files};
use ux_command::{Args, CommandFault, Meter, Orders};
use ux_kernel::Kernel;
use ux_objects::FailAt;
use ux_orders::{
    Boot, Found, Order, OrderFault, OrderList, Ran, Reduction, explore, explore_each, make_order,
};
use ux_page::Page;
use ux_script::{differences, line_numbers, put_all};
use ux_syntax::{Expectation, Script, ScriptFault, Waiting};
use ux_types::{Entry, Pid, Reply};

/// Makes kernels of a script's processes over its file objects as they are at first.
struct Machine<'a, R> {
    rt: &'a R,
    meter: Meter<'a, R>,
    /// Why the last kernel wasn't made.
    fault: Option<CommandFault>,
}

// Not derived, since it asks nothing of `R`.
impl<R> Drop for Machine<'_, R> {
    fn drop(self) {
        let Machine {
            rt: _,
            meter,
            fault,
        } = self;
        drop(meter);
        drop(fault)
    }
}

impl<R: Clock + Eprint + RandomSource + AllocGlobal> Boot for Machine<'_, R> {
    type Object = FailAt;

    ghost state = { λ _ plan. boot_state (map object_of plan.objects) plan.procs };

    fn boot(&mut self, script: &Script) -> Result<Kernel<FailAt>, OrderFault> {
        self.meter.step();
        match boot(self.rt, script) {
            Ok(kernel) => Ok(kernel),
            Err(fault) => {
                self.fault = Some(fault);
                Err(OrderFault::NoKernel)
            }
        }
    }
}

/// The history of a run.
#[derive(Drop)]
pub enum Made {
    /// To its end.
    Whole(Vec<Entry>),
    /// Up to where it was cut short, and why.
    Cut(Vec<Entry>, CommandFault),
}

/// Runs the script in one order.
pub fn run_in_order<R: RandomSource + AllocGlobal>(
    rt: &R,
    script: &Script,
    order: &mut Order,
) -> Result<Made, CommandFault> {
    let kernel = boot(rt, script)?;
    match make_order(rt.alloc(), script, kernel, order)? {
        Ran::Whole(entries) => Ok(Made::Whole(entries)),
        Ran::Deadlock(entries, waits) => {
            let deadlock = ScriptFault::Deadlock(Waiting::new(waits));
            Ok(Made::Cut(entries, CommandFault::Script(deadlock)))
        }
        Ran::BrokenOff(entries) => {
            let fault = fault_behind(script, order, entries.as_slice());
            Ok(Made::Cut(entries, fault))
        }
    }
}

/// Why an order is broken off behind these calls.
fn fault_behind(script: &Script, order: &Order, entries: &[Entry]) -> CommandFault {
    let made = entries.iter().filter(|entry| entry.pid.0 != 0).count();
    let place = made.saturating_add(1);
    let children = entries
        .iter()
        .filter(|entry| matches!(entry.reply, Reply::Child(_)))
        .count();
    let processes = script.procs.len().saturating_add(children);
    let Order::Listed(pids) = order else {
        return CommandFault::Order(place);
    };
    match pids.get(made) {
        Some(pid) if pid.0 == 0 || pid.0 as usize > processes => CommandFault::Nobody(place, *pid),
        _ => CommandFault::Order(place),
    }
}

/// What the orders of the script come to.
fn found_of<R: Clock + Eprint + RandomSource + AllocGlobal>(
    alloc: Global,
    script: &Script,
    machine: &mut Machine<'_, R>,
    orders: Orders,
) -> Result<Found, CommandFault> {
    let limit = u64::from(orders.limit);
    let found = if orders.each {
        explore_each(alloc, script, machine, limit)
    } else {
        explore(alloc, script, machine, limit, Reduction::all())
    };
    match found {
        Ok(found) => Ok(found),
        Err(fault) => Err(machine.fault.take().unwrap_or(CommandFault::from(fault))),
    }
}

/// Runs the script in all orders, but at most in so many, and prints what they come to: how many orders and outcomes
/// there are, and of each outcome the order, the trace, and where answers are expected which of them differ. Writes a page
/// of the outcomes besides, where one is asked for.
pub fn print_orders<R: Files + Print + Clock + Eprint + RandomSource + AllocGlobal>(
    rt: &R,
    args: &Args<'_>,
    script: &Script,
    expected: Option<&[Expectation]>,
    orders: Orders,
) -> Result<(), CommandFault> {
    let mut machine = Machine {
        rt,
        meter: Meter::new(rt, args.progress, "orders begun"),
        fault: None,
    };
    let found = found_of(rt.alloc(), script, &mut machine, orders)?;
    let outcomes = found.outcomes.as_slice();
    let told = outcomes.iter().filter(|ran| is_first(outcomes, ran));
    let count = told.count();
    let deadlocks = outcomes
        .iter()
        .filter(|ran| ran.is_deadlock() && is_first(outcomes, ran))
        .count();
    println!(rt; "orders {}\noutcomes {count}", found.orders).map_err(|_| ScriptFault::Writing)?;
    let unexpected = print_outcomes(rt, args, script, expected, outcomes)?;
    if let Some(file) = args.html {
        write_outcomes(rt, file, args.script, script, outcomes)?;
    }
    if !found.is_all {
        println!(rt; "not all orders were made").map_err(|_| ScriptFault::Writing)?;
    }
    if deadlocks > 0 {
        return Err(CommandFault::Deadlocks(deadlocks, count));
    }
    if unexpected > 0 {
        return Err(CommandFault::UnexpectedIn(unexpected, count));
    }
    if !found.is_all {
        return Err(CommandFault::Limit);
    }
    match expected {
        Some(expected) => print_expected(rt, expected.len()),
        None => Ok(()),
    }
}

/// Prints the outcomes in their order: in how many of them an answer isn't the expected one. Each answer that isn't is told
/// once, behind the first outcome that has it.
fn print_outcomes<R: Print + AllocGlobal>(
    rt: &R,
    args: &Args<'_>,
    script: &Script,
    expected: Option<&[Expectation]>,
    outcomes: &[Ran],
) -> Result<usize, CommandFault> {
    let mut last: Option<&Ran> = None;
    let mut before: Option<&Ran> = None;
    let mut told = Vec::new(rt.alloc());
    let mut unexpected: usize = 0;
    for _ in 0..outcomes.len() {
        let Some(next) = next_behind(outcomes, last) else {
            return Ok(unexpected);
        };
        last = Some(next);
        if !is_first(outcomes, next) {
            continue;
        }
        print_outcome(rt, args, script, next, before)?;
        before = Some(next);
        if let Some(expected) = expected {
            if !is_expected(rt, script, expected, outcomes, next, &mut told)? {
                unexpected = unexpected.saturating_add(1);
            }
        }
    }
    Ok(unexpected)
}

/// Whether both are deadlocks in which the same processes wait in the same lines. That is one outcome, whatever was
/// answered before.
fn wait_alike(one: &Ran, other: &Ran) -> bool {
    match (one, other) {
        (Ran::Deadlock(_, one), Ran::Deadlock(_, other)) => one.as_slice() == other.as_slice(),
        _ => false,
    }
}

/// Whether none that waits alike stands before it.
fn is_first(outcomes: &[Ran], ran: &Ran) -> bool {
    !outcomes
        .iter()
        .any(|other| wait_alike(other, ran) && is_before(other, ran))
}

/// Whether all answers of an outcome are those that are expected, in each way in which its deadlock is reached. Prints
/// which aren't and were not told yet, each with the order in which it is answered.
fn is_expected<R: Print + AllocGlobal>(
    rt: &R,
    script: &Script,
    expected: &[Expectation],
    outcomes: &[Ran],
    first: &Ran,
    told: &mut Vec<u8>,
) -> Result<bool, CommandFault> {
    let mut are = tell_further(rt, script, expected, first, told)?;
    let mut last = first;
    for _ in 0..outcomes.len() {
        let Some(next) = next_behind(outcomes, Some(last)) else {
            break;
        };
        last = next;
        if wait_alike(first, next) {
            are = tell_further(rt, script, expected, next, told)? && are;
        }
    }
    Ok(are)
}

/// The lines that say which answers of a run aren't the expected ones.
fn differing<R: Print + AllocGlobal>(
    rt: &R,
    script: &Script,
    expected: &[Expectation],
    ran: &Ran,
) -> Result<Vec<u8>, CommandFault> {
    let lines = line_numbers(rt.alloc(), script, ran.entries())?;
    Ok(differences(rt.alloc(), expected, &lines, ran.entries())?)
}

/// Whether all answers of a run are those that are expected. Prints those that aren't and weren't told, each with the run's
/// order, and notes them.
fn tell_further<R: Print + AllocGlobal>(
    rt: &R,
    script: &Script,
    expected: &[Expectation],
    ran: &Ran,
    told: &mut Vec<u8>,
) -> Result<bool, CommandFault> {
    let further = differing(rt, script, expected, ran)?;
    for line in further.split(|byte| *byte == b'\n') {
        if line.is_empty() || told.split(|byte| *byte == b'\n').any(|one| one == line) {
            continue;
        }
        put_all(&mut io::writer(rt), line)?;
        let list = OrderList(ran.entries());
        println!(rt; ", in order {list}").map_err(|_| ScriptFault::Writing)?;
        told.extend_from_slice(line)?;
        told.push(b'\n')?;
    }
    Ok(further.is_empty())
}

/// The first outcome behind this one, or of all.
fn next_behind<'a>(outcomes: &'a [Ran], last: Option<&Ran>) -> Option<&'a Ran> {
    let mut found: Option<&'a Ran> = None;
    for ran in outcomes {
        let is_behind = last.is_none_or(|last| is_before(last, ran));
        if is_behind && found.is_none_or(|found| is_before(ran, found)) {
            found = Some(ran);
        }
    }
    found
}

/// Whether this outcome stands before the other: deadlocks first, then the shorter, then the smaller list.
fn is_before(one: &Ran, other: &Ran) -> bool {
    if one.is_deadlock() != other.is_deadlock() {
        return one.is_deadlock();
    }
    let (one, other) = (one.entries(), other.entries());
    if one.len() != other.len() {
        return one.len() < other.len();
    }
    for (entry, twin) in one.iter().zip(other) {
        if entry.pid.0 != twin.pid.0 {
            return entry.pid.0 < twin.pid.0;
        }
    }
    false
}

/// Prints an outcome's order, who waits where it is a deadlock, and its calls; or in place of these, where each outcome is
/// told in one line, the call at which it parts from the one that was told before.
fn print_outcome<R: Print + AllocGlobal>(
    rt: &R,
    args: &Args<'_>,
    script: &Script,
    ran: &Ran,
    before: Option<&Ran>,
) -> Result<(), CommandFault> {
    let alloc: Global = rt.alloc();
    let list = OrderList(ran.entries());
    let mut line = format!(in alloc; "order {list}")?;
    if let Ran::Deadlock(_, waits) = ran {
        let waiting = Waiting::new(waits.clone()?);
        let text = format!(in alloc; " deadlock: {waiting}")?;
        line.push_str(text.as_str())?;
    }
    let brief = args.orders.is_some_and(|orders| orders.brief);
    if let Some(before) = before.filter(|_| brief) {
        let place = parting(before.entries(), ran.entries());
        let text = format!(in alloc; ", parts at call {place}")?;
        line.push_str(text.as_str())?;
    }
    println!(rt; "{line}").map_err(|_| ScriptFault::Writing)?;
    if brief {
        return Ok(());
    }
    let lines = line_numbers(alloc, script, ran.entries())?;
    print_calls(rt, args, &lines, ran.entries())
}

/// How many calls two histories have in common before they part.
fn parting(one: &[Entry], other: &[Entry]) -> usize {
    one.iter()
        .zip(other)
        .take_while(|(entry, twin)| entry == twin)
        .count()
}

/// Writes a page of the outcomes, in their order.
fn write_outcomes<R: Files + RandomSource + AllocGlobal>(
    rt: &R,
    file: &str,
    name: &str,
    script: &Script,
    outcomes: &[Ran],
) -> Result<(), CommandFault> {
    let mut page = Page::new(rt.alloc(), name)?;
    let mut last: Option<&Ran> = None;
    for _ in 0..outcomes.len() {
        let Some(next) = next_behind(outcomes, last) else {
            break;
        };
        last = Some(next);
        if is_first(outcomes, next) {
            add_outcome(rt, &mut page, script, next)?;
        }
    }
    write_page(rt, file, page)
}

/// Adds an outcome to the page, by its order.
fn add_outcome<R: RandomSource + AllocGlobal>(
    rt: &R,
    page: &mut Page,
    script: &Script,
    ran: &Ran,
) -> Result<(), CommandFault> {
    let alloc: Global = rt.alloc();
    let list = OrderList(ran.entries());
    let title = format!(in alloc; "order {list}")?;
    let end = match ran {
        Ran::Deadlock(_, waits) => {
            let waiting = Waiting::new(waits.clone()?);
            format!(in alloc; "deadlock: {waiting}")?
        }
        _ => String::from_str(alloc, "")?,
    };
    add_run(
        rt,
        page,
        title.as_str(),
        script,
        ran.entries(),
        end.as_str(),
    )
}
