//! Every order of a script, and none left out.
ghost use Rattle.std.specs.Prelude.{◌≡◌, ◌<◌, ◌≤◌, ◌^◌, true, false, [], map, IfOk, OnOk};
ghost use Rattle.std.specs.List.{AllByRecursion};
ghost use Rattle.ux_model.specs.Limits.{made_limit};
ghost use Rattle.ux_model.specs.Boot.{IsBootState, new_process};
ghost use Rattle.ux_syntax.specs.Spelling.{plan_of, known_count};
ghost use Rattle.ux_orders.specs.Outcomes.{IsRun, Cover};
ghost use Rattle.ux_orders.specs.Threads.{KnowsBehind, KnowsAll, is_choice, has_choice};
ghost use Rattle.ux_orders.specs.Walks.{IsWalk, Grows, Leads};

use crate::chooser::Ready;
use crate::crew::Crew;
use crate::exploring::{Boot, Found};
use crate::ran::OrderFault;
use crate::run::ended;
use std::alloc::Global;
use std::marker::Brand;
use ux_book::{BookName, Trail};
use ux_kernel::Kernel;
use ux_object::FileObject;
use ux_syntax::Script;
use ux_types::{Entry, Errno, MADE_LIMIT, Pid, Reply};

/// Runs the script in all orders, as `explore` does without any reduction: each that its processes' threads can make is
/// made to its end. No more than `limit` runs are begun, one for each beginning of an order, and one for each process
/// that would have to wait behind it.
///
/// # Errors
///
/// Those of `run_order`, and of the kernels.
pub fn explore_each<B: Boot>(
    alloc: Global,
    script: &Script,
    machine: &mut B,
    limit: u64,
) -> Result<Found, OrderFault>
    // As with `explore`: each of the outcomes is of a run, and so many runs were made, each with one of these outcomes.
    ensures runs { IfOk result (λ found. AllByRecursion (IsRun (B.state machine.old (plan_of script.now)) (plan_of script.now)) found.outcomes.items) }
    ensures covered { IfOk result (λ found. Cover (B.state machine.old (plan_of script.now)) (plan_of script.now) found.orders found.outcomes.items) }
    ensures limit { IfOk result (λ found. found.orders ≤ limit) }
    // And the other way round: where nothing was left out, each history that threads can make of the script was made, up to where each
    // process has exited or has to wait, if no memory lacks and no file object fails in it; and its outcome is one of these.
    ensures all { IfOk result (λ found. found.is_all ≡ true → KnowsAll (B.state machine.old (plan_of script.now)) (plan_of script.now) found.outcomes.items) }
{
    let count = script.process_count();
    if count > MADE_LIMIT {
        return Err(OrderFault::Stranger);
    }
    let mut walk = Walk {
        alloc,
        limit,
        begun: 0,
        found: Found::new(alloc),
    };
    let mut pids = Vec::new(alloc);
    let most = script.lines.len().saturating_add(count);
    walk.visit(script, machine, &mut pids, most.saturating_add(2))?;
    Ok(walk.found)
}

/// What was found so far.
#[derive(Drop)]
struct Walk {
    alloc: Global,
    /// How many runs may be begun.
    limit: u64,
    begun: u64,
    found: Found,
}

impl Walk {
    /// Makes all orders that begin with these processes. None has more than `left` further lines.
    fn visit<B: Boot>(
        &mut self,
        script: &Script,
        machine: &mut B,
        pids: &mut Vec<Pid>,
        left: usize,
    ) -> Result<(), OrderFault>
        requires few { known_count (plan_of script.now) ≤ made_limit }
        requires walk { IsWalk (B.state machine.old (plan_of script.now)) (plan_of script.now) self.old }
        ensures walk { OnOk result (IsWalk (B.state machine.old (plan_of script.now)) (plan_of script.now) self.new) }
        ensures grows { OnOk result (Grows (plan_of script.now) self.old self.new) }
        ensures all { OnOk result (self.new.found.is_all ≡ true → KnowsBehind (B.state machine.old (plan_of script.now)) (plan_of script.now) self.new.found.outcomes.items pids.old.items) }
        ensures back { OnOk result (pids.new.items ≡ pids.old.items) }
        ensures machine { OnOk result (B.state machine.new (plan_of script.now) ≡ B.state machine.old (plan_of script.now)) }
    {
        let Some(left) = left.checked_sub(1) else {
            return Err(OrderFault::Stranger);
        };
        let next = self.look(script, machine, pids)?;
        for one in &next {
            pids.push(one.pid)?;
            self.visit(script, machine, pids, left)?;
            pids.pop();
        }
        Ok(())
    }

    /// Makes the lines of these processes, one after another. Who may make the next one: nobody where one of them has
    /// to wait, and where the run has ended behind them, which is kept then.
    fn look<B: Boot>(
        &mut self,
        script: &Script,
        machine: &mut B,
        pids: &[Pid],
    ) -> Result<Vec<Ready>, OrderFault>
        requires few { known_count (plan_of script.now) ≤ made_limit }
        requires walk { IsWalk (B.state machine.old (plan_of script.now)) (plan_of script.now) self.old }
        ensures walk { OnOk result (IsWalk (B.state machine.old (plan_of script.now)) (plan_of script.now) self.new) }
        ensures grows { OnOk result (Grows (plan_of script.now) self.old self.new) }
        ensures leads { IfOk result (λ next. self.new.found.is_all ≡ true → Leads (B.state machine.old (plan_of script.now)) (plan_of script.now) self.new.found.outcomes.items pids.now next.items) }
        ensures machine { OnOk result (B.state machine.new (plan_of script.now) ≡ B.state machine.old (plan_of script.now)) }
    {
        if self.begun >= self.limit {
            self.found.is_all = false;
            return Ok(Vec::new(self.alloc));
        }
        self.begun += 1;
        let kernel = machine.boot(script)?;
        let Ok(trail) = Trail::new(self.alloc) else {
            return Err(OrderFault::NoMemory);
        };
        self.look_named::<Brand, B::Object>(script, trail, kernel, pids)
    }

    /// As `look`, with a name for the book.
    fn look_named<W: BookName, O: FileObject>(
        &mut self,
        script: &Script,
        trail: Trail,
        kernel: Kernel<O>,
        pids: &[Pid],
    ) -> Result<Vec<Ready>, OrderFault>
        requires few { known_count (plan_of script.now) ≤ made_limit }
        requires walk { IsWalk W.boot (plan_of script.now) self.old }
        requires room { self.old.found.orders < self.old.begun }
        requires fits { self.old.begun < 2 ^ 64 }
        requires trail { trail ≡ record { id = W.trail; entries = []; given = 0 } }
        requires boots { IsBootState kernel }
        requires named { kernel ≡ W.boot }
        ensures walk { OnOk result (IsWalk W.boot (plan_of script.now) self.new) }
        ensures grows { OnOk result (Grows (plan_of script.now) self.old self.new) }
        ensures leads { IfOk result (λ next. self.new.found.is_all ≡ true → Leads W.boot (plan_of script.now) self.new.found.outcomes.items pids.now next.items) }
    {
        let mut crew = Crew::<W, O>::new(self.alloc, trail, kernel, &script.lines)?;
        if !crew.make_all(pids)? {
            self.note(crew.entries());
            return Ok(Vec::new(self.alloc));
        }
        let ready = crew.ready()?;
        let goes_on = crew.make_any(&ready)?;
        self.note(crew.entries());
        if goes_on {
            return Ok(ready);
        }
        let ran = ended(crew, script, script.process_count())?;
        self.found.add(ran, script)?;
        Ok(Vec::new(self.alloc))
    }

    /// Notes that others may be left out, where one of these calls lacked memory or a file object failed.
    fn note(&mut self, entries: &[Entry])
        ensures sure { self.new.found.is_all ≡ true → has_choice entries.now ≡ false }
        ensures all { self.new.found.is_all ≡ true → self.old.found.is_all ≡ true }
        ensures rest { self.new ≡ record self.old { found = record self.old.found { is_all = self.new.found.is_all } } }
    {
        if has_choice(entries) {
            self.found.is_all = false;
        }
    }
}

/// Whether the reply of one of these may come in place of another.
fn has_choice(entries: &[Entry]) -> bool
    ensures { result ≡ has_choice entries.now }
{
    entries.iter().any(|entry| is_choice(&entry.reply))
}

/// Whether the reply may come in place of another: a lack of memory, or a failure of a file object.
fn is_choice(reply: &Reply) -> bool
    ensures { result ≡ is_choice reply.now }
{
    matches!(reply, Reply::Err(Errno::ENOMEM | Errno::EIO))
}
