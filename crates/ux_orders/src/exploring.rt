//! Every order of a script.
ghost use Rattle.std.specs.Prelude.{◌≡◌, ◌+◌, ◌^◌, ◌<◌, ◌≤◌, true, false, [], length, map, slice_index_or, IfOk, OnOk, IfSome};
ghost use Rattle.std.specs.List.{AllByRecursion};
ghost use Rattle.ux_model.specs.Limits.{made_limit};
ghost use Rattle.ux_model.specs.Boot.{IsBootState, new_process};
ghost use Rattle.ux_model.specs.State.{State};
ghost use Rattle.ux_syntax.specs.Spelling.{Plan, plan_of, known_count};
ghost use Rattle.ux_orders.specs.Walks.{Takes};
ghost use Rattle.ux_orders.specs.Outcomes.{SameOutcome, Keeps, IsRun, Cover, is_broken_off};

use crate::outcome::is_same_outcome;
use crate::ran::{OrderFault, Ran};
use crate::run::run_order;
use crate::search::{Reduction, Search};
use std::alloc::Global;
use ux_kernel::Kernel;
use ux_object::FileObject;
use ux_syntax::Script;
use ux_types::MADE_LIMIT;

/// Makes kernels that have just started, as often as one is wanted.
pub trait Boot {
    type Object: FileObject;

    /// The state in which each kernel for this script starts.
    ghost state: { Self → Plan → State };

    /// A kernel that has just started with the script's processes.
    ///
    /// # Errors
    ///
    /// Whatever keeps it from being made.
    fn boot(&mut self, script: &Script) -> Result<Kernel<Self::Object>, OrderFault>
        ensures boots { IfOk result (λ kernel. IsBootState kernel) }
        ensures processes { IfOk result (λ kernel. kernel.processes ≡ map new_process script.now.procs.items) }
        ensures state { IfOk result (λ kernel. kernel ≡ state self.old (plan_of script.now)) }
        ensures same { (plan : Plan) → state self.new plan ≡ state self.old plan };
}

/// What all orders of a script have come to.
#[derive(Drop)]
pub struct Found {
    /// How many orders were made to their end.
    pub orders: u64,
    /// At how many points they were compared with others.
    pub points: usize,
    /// Whether no further order is left; for `explore_each` also that no call lacked memory and no file object failed,
    /// in whose place there might have been another answer.
    pub is_all: bool,
    /// A run for each outcome, the shortest that was made, and of those the one with the smallest list.
    pub outcomes: Vec<Ran>,
}

/// Runs the script in all orders, the smaller list first, each on a kernel that has just started, and keeps a run for
/// each outcome. No more than `limit` runs are begun. Those that the reduction leaves out aren't made, or are broken off
/// where they come to what another has come to.
///
/// Where orders are merged, two runs that came to the same point must go on alike. So the machine's kernels are all alike, and what a file
/// object answers depends on nothing but what is in it, and how many reads and writes were made of it.
///
/// # Errors
///
/// Those of `run_order`, and of the kernels.
pub fn explore<B: Boot>(
    alloc: Global,
    script: &Script,
    machine: &mut B,
    limit: u64,
    reduction: Reduction,
) -> Result<Found, OrderFault>
    // Each of them is a legal history from the state in which the machine's kernels start, in which each process makes the script's calls in
    // their order, and its exit last, or a beginning of them up to a deadlock.
    ensures runs { IfOk result (λ found. AllByRecursion (IsRun (B.state machine.old (plan_of script.now)) (plan_of script.now)) found.outcomes.items) }
    // So many such runs were made, and each has the outcome of one of them, which isn't longer.
    ensures covered { IfOk result (λ found. Cover (B.state machine.old (plan_of script.now)) (plan_of script.now) found.orders found.outcomes.items) }
    ensures limit { IfOk result (λ found. found.orders ≤ limit) }
{
    let mut search = Search::new(alloc, reduction)?;
    let mut found = Found::new(alloc);
    for _run in 0..limit {
        let kernel = machine.boot(script)?;
        let ran = run_order(alloc, script, kernel, &mut search)?;
        found.take(ran, script)?;
        found.points = search.point_count();
        if !search.advance()? {
            return Ok(found);
        }
    }
    found.is_all = false;
    Ok(found)
}

impl Found {
    /// Nothing yet.
    pub(crate) fn new(alloc: Global) -> Found
        ensures found { result ≡ record { orders = 0; points = 0; is_all = true; outcomes = result.outcomes } }
        ensures none { result.outcomes.items ≡ [] }
    {
        Found {
            orders: 0,
            points: 0,
            is_all: true,
            outcomes: Vec::new(alloc),
        }
    }

    /// Adds a run, if it wasn't broken off.
    fn take(&mut self, ran: Ran, script: &Script) -> Result<(), OrderFault>
        requires room { self.old.orders + 1 < 2 ^ 64 }
        ensures { OnOk result (Takes (known_count (plan_of script.now)) self.old self.new ran) }
    {
        if ran.is_broken_off() {
            return Ok(());
        }
        self.add(ran, script)
    }

    /// Counts a run, and keeps it where none with its outcome was found before, or only longer ones.
    pub(crate) fn add(&mut self, ran: Ran, script: &Script) -> Result<(), OrderFault>
        requires room { self.old.orders + 1 < 2 ^ 64 }
        requires ended { is_broken_off ran ≡ false }
        ensures keeps { OnOk result (Keeps (known_count (plan_of script.now)) self.old.outcomes.items self.new.outcomes.items ran) }
        ensures count { OnOk result (self.new.orders ≡ self.old.orders + 1) }
        ensures all { OnOk result (self.new.is_all ≡ self.old.is_all) }
    {
        let count = script.process_count();
        if count > MADE_LIMIT {
            return Err(OrderFault::Stranger);
        }
        keep(&mut self.outcomes, ran, count)?;
        self.orders += 1;
        Ok(())
    }
}

/// Keeps a run where none with its outcome is among these, or in place of a longer one.
fn keep(outcomes: &mut Vec<Ran>, ran: Ran, count: usize) -> Result<(), OrderFault>
    requires few { count ≤ made_limit }
    ensures { OnOk result (Keeps count outcomes.old.items outcomes.new.items ran) }
{
    let Some(place) = place_of_same(outcomes, &ran, count) else {
        outcomes.push(ran)?;
        return Ok(());
    };
    if ran.entries().len() < outcomes[place].entries().len() {
        outcomes[place] = ran;
    }
    Ok(())
}

/// The first place of a run with this one's outcome.
fn place_of_same(outcomes: &[Ran], ran: &Ran, count: usize) -> Option<usize>
    requires few { count ≤ made_limit }
    ensures within { IfSome result (λ i. i < length outcomes.now) }
    ensures same { IfSome result (λ i. SameOutcome count ran.now (slice_index_or outcomes.now i ran.now)) }
{
    for (place, known) in outcomes.iter().enumerate() {
        if is_same_outcome(ran, known, count) {
            return Some(place);
        }
    }
    None
}
