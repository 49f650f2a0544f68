//! A run of a script in one order.
ghost use Rattle.std.specs.Prelude.{◌≡◌, ◌≤◌, [], map, IfOk};
ghost use Rattle.ux_model.specs.Limits.{made_limit};
ghost use Rattle.ux_model.specs.Boot.{IsBootState, new_process};
ghost use Rattle.ux_model.specs.History.{IsLegal};
ghost use Rattle.ux_syntax.specs.Spelling.{plan_of, known_count};
ghost use Rattle.ux_orders.specs.Orders.{entries_of, IsRunOf};
ghost use Rattle.ux_orders.specs.Threads.{HasCalls};

use crate::chooser::Chooser;
use crate::compared::{begun_history, whole_history};
use crate::crew::{Crew, Turn};
use crate::ran::{OrderFault, Ran};
use std::alloc::Global;
use std::marker::Brand;
use ux_book::{BookName, Trail};
use ux_kernel::Kernel;
use ux_object::FileObject;
use ux_syntax::Script;
use ux_types::MADE_LIMIT;

/// Runs the script in one thread, on a kernel that has just started with its processes: the chooser names at each
/// point which process makes its next line. A call waits where one of a thread would, a line that waits for a process
/// holds its own, a child's lines begin when its fork was answered, and a process exits behind its last line. The layer
/// is ended last, where the script says so.
///
/// # Errors
///
/// `NoMemory`, also where a fork makes no process; `Stranger` for a script that no text spells.
pub fn run_order<O: FileObject, C: Chooser>(
    alloc: Global,
    script: &Script,
    kernel: Kernel<O>,
    chooser: &mut C,
) -> Result<Ran, OrderFault>
    requires boots { IsBootState kernel }
    requires processes { kernel.processes ≡ map new_process script.now.procs.items }
    // The entries are a legal history from the kernel's state.
    ensures legal { IfOk result (λ ran. IsLegal kernel (entries_of ran)) }
    // Each process, each child included, made the script's calls, in their order, and one exit last; or where the run was cut short a
    // beginning of them.
    ensures runs { IfOk result (λ ran. IsRunOf kernel (plan_of script.now) ran) }
{
    let Ok(trail) = Trail::new(alloc) else {
        return Err(OrderFault::NoMemory);
    };
    run_named::<Brand, O, C>(alloc, trail, script, kernel, chooser)
}

/// As `run_order`, with a name for the book.
fn run_named<W: BookName, O: FileObject, C: Chooser>(
    alloc: Global,
    trail: Trail,
    script: &Script,
    kernel: Kernel<O>,
    chooser: &mut C,
) -> Result<Ran, OrderFault>
    requires trail { trail ≡ record { id = W.trail; entries = []; given = 0 } }
    requires boots { IsBootState kernel }
    requires named { kernel ≡ W.boot }
    requires processes { kernel.processes ≡ map new_process script.now.procs.items }
    ensures runs { IfOk result (λ ran. IsRunOf W.boot (plan_of script.now) ran) }
{
    let count = script.process_count();
    if count > MADE_LIMIT {
        return Err(OrderFault::Stranger);
    }
    let mut crew = Crew::<W, O>::new(alloc, trail, kernel, &script.lines)?;
    if make_lines(&mut crew, script, count, chooser)? {
        return ended(crew, script, count);
    }
    let entries = begun_history(crew.into_history(false)?, script, count)?;
    Ok(Ran::BrokenOff(entries))
}

/// Makes line after line, until nobody may go on. There are no more than the script's, and an exit for each process;
/// behind them a further turn finds nobody left. False where the chooser named none.
fn make_lines<W: BookName, O: FileObject, C: Chooser>(
    crew: &mut Crew<'_, W, O>,
    script: &Script,
    count: usize,
    chooser: &mut C,
) -> Result<bool, OrderFault> {
    let most = script.lines.len().saturating_add(count);
    for made in 0..most.saturating_add(1) {
        match crew.take_turn(chooser, made)? {
            Turn::Made => {}
            Turn::BrokenOff => return Ok(false),
            Turn::Idle => break,
        }
    }
    Ok(true)
}

/// The run at its end, where nobody may go on: a deadlock where a process is left, and else the whole, with the end of
/// the layer where the script says so.
///
/// # Errors
///
/// Out of memory; `Stranger` where the calls aren't the script's.
pub(crate) fn ended<W: BookName, O: FileObject>(
    crew: Crew<'_, W, O>,
    script: &Script,
    count: usize,
) -> Result<Ran, OrderFault>
    requires count { count ≡ known_count (plan_of script.now) }
    requires few { count ≤ made_limit }
    ensures runs { IfOk result (λ ran. IsRunOf W.boot (plan_of script.now) ran) }
    ensures calls { IfOk result (λ ran. HasCalls W.boot crew.entry.book.entries ran) }
{
    // It says where the history began.
    let _entries = crew.entries();
    if crew.has_live() {
        let waits = crew.waits()?;
        let entries = begun_history(crew.into_history(false)?, script, count)?;
        return Ok(Ran::Deadlock(entries, waits));
    }
    let entries = whole_history(crew.into_history(script.off)?, script, count)?;
    Ok(Ran::Whole(entries))
}
