//! A run of a script by threads, from its kernel to its trace.
ghost use Rattle.std.specs.Prelude.{◌≡◌, ◌≤◌, ◌⊎◌, ◌↔◌, ℕ, [], true, false, length, map, Err, IfOk, IfErr};
ghost use Rattle.ux_model.specs.Limits.{made_limit};
ghost use Rattle.std.specs.Io.KnownBytes.{Appends, Keeps};
ghost use Rattle.ux_model.specs.Boot.{IsBootState, new_process};
ghost use Rattle.ux_model.specs.History.{IsLegal};
ghost use Rattle.ux_syntax.specs.Spelling.{plan_of, known_count};
ghost use Rattle.ux_trace.specs.Trace.{trace};
ghost use Rattle.ux_script.specs.Runs.{IsRunFault};
ghost use Rattle.ux_replay.specs.Runs.{requests_of, turns, Runs};
ghost use Rattle.ux_threads.specs.Runs.{WritesBeginning, WritesBegun, IsOfScript, is_deadlock};

use crate::compared::{begun_history, whole_history};
use crate::gate::Gate;
use crate::work::{Ended, Stop, work_all};
use std::alloc::Global;
use std::io::Write;
use std::marker::Brand;
use std::sync::Wait;
use std::thread::Threads;
use ux_book::{BookName, Spent, Trail};
use ux_kernel::Kernel;
use ux_layer::{Layer, start};
use ux_object::FileObject;
use ux_script::finish_trace;
use ux_syntax::{Script, ScriptFault, Waiting};
use ux_types::{Entry, MADE_LIMIT, Pid};

/// Runs the script on a kernel that has just started with its processes, one thread for each, and writes the
/// trace. Each process makes its lines in their order, by calls that wait where they have to, and exits; a child's
/// lines begin when its fork was answered. Then the layer is ended, where the script says so. The gate is called
/// before and after each call.
///
/// # Errors
///
/// `Writing`; `NoMemory`, also where a thread can't be started or a fork makes no process; `Stranger` for a script that
/// no text spells, whose calls can't all be made, as where another process than the first forks;
/// `Deadlock` where every process that hasn't exited waits, with the lines in which they do: the run ends there,
/// and the trace so far is written. `OneOrder` for a script with the line `serial`, of which nothing is run.
pub fn run_threads<O: FileObject + Send, G: Gate, Out: Write>(
    rt: &(impl Threads + Wait + Sync),
    alloc: Global,
    script: &Script,
    writer: &mut Out,
    kernel: Kernel<O>,
    gate: &G,
) -> Result<Vec<Entry>, ScriptFault>
    requires boots { IsBootState kernel }
    requires processes { kernel.processes ≡ map new_process script.now.procs.items }
    // The entries are a legal history from the kernel's state.
    ensures legal { IfOk result (λ entries. IsLegal kernel entries.items) }
    // Each process, each child included, made the script's calls, in their order, and one exit last; the layer was ended where the script has it.
    ensures calls { IfOk result (λ entries. (p : ℕ) → p ≤ known_count (plan_of script.now) → requests_of p entries.items ≡ turns (plan_of script.now) p) }
    // What was written is its trace.
    ensures trace { IfOk result (λ entries. Appends (Out.contents writer.old) (Out.contents writer.new) (trace entries.items)) }
    // After a fault a beginning of such a trace was written.
    ensures beginning { IfErr result (λ f. is_deadlock f ≡ false → WritesBeginning kernel (plan_of script.now) (Out.contents writer.old) (Out.contents writer.new)) }
    // Where every process waits, a beginning of the trace of a history that has begun as such a run.
    ensures begun { IfErr result (λ f. is_deadlock f ≡ true → WritesBegun kernel (plan_of script.now) (Out.contents writer.old) (Out.contents writer.new)) }
    // A script that is to run in the order of its lines alone isn't run, and no other is left out for that reason.
    ensures one_order { (result ≡ Err ScriptFault.OneOrder) ↔ (script.now.serial ≡ true) }
    // Nothing of it is written.
    ensures unwritten { script.now.serial ≡ true → Keeps (Out.contents writer.old) (Out.contents writer.new) }
    ensures fault { IfErr result (λ f. is_deadlock f ≡ false → script.now.serial ≡ false → IsRunFault f) }
{
    match make_threads(rt, alloc, script, kernel, gate)? {
        ThreadedRun::Whole(entries) => {
            finish_trace(alloc, writer, &entries)?;
            Ok(entries)
        }
        ThreadedRun::Begun(entries, waiting) => {
            // The deadlock is what is reported, also where the trace can't be written.
            let _written = finish_trace(alloc, writer, &entries);
            Err(ScriptFault::Deadlock(waiting))
        }
    }
}

/// As `run_threads`, but writes nothing, and gives the history also where every process waits.
///
/// # Errors
///
/// `OneOrder` exactly for a serial script; `NoMemory`, also where a thread can't be started or a fork makes no process;
/// `Stranger` for a script that no text spells.
pub fn make_threads<O: FileObject + Send, G: Gate>(
    rt: &(impl Threads + Wait + Sync),
    alloc: Global,
    script: &Script,
    kernel: Kernel<O>,
    gate: &G,
) -> Result<ThreadedRun, ScriptFault>
    requires boots { IsBootState kernel }
    requires processes { kernel.processes ≡ map new_process script.now.procs.items }
    // The history is a legal one from the kernel's state, in which each process made the script's calls, or the first of them.
    ensures runs { IfOk result (λ ran. IsOfScript kernel (plan_of script.now) ran) }
    // A script that is to run in the order of its lines alone isn't run, and no other is left out for that reason.
    ensures one_order { (result ≡ Err ScriptFault.OneOrder) ↔ (script.now.serial ≡ true) }
    ensures fault { IfErr result (λ f. script.now.serial ≡ false → (f ≡ ScriptFault.NoMemory) ⊎ (f ≡ ScriptFault.Stranger)) }
    // Where every process waits, that isn't reported as a fault.
    ensures begun { IfErr result (λ f. is_deadlock f ≡ false) }
{
    if script.serial {
        return Err(ScriptFault::OneOrder);
    }
    let Ok(trail) = Trail::new(alloc) else {
        return Err(ScriptFault::NoMemory);
    };
    run_named::<Brand, O, _, G>(rt, alloc, trail, script, kernel, gate)
}

/// The history of a run.
#[derive(Drop)]
pub enum ThreadedRun {
    /// Of the whole script.
    Whole(Vec<Entry>),
    /// Up to where every process waits, each in its line.
    Begun(Vec<Entry>, Waiting),
}

/// Makes the calls in threads, and compares what they brought back with the history.
fn run_named<W: BookName + Send + Sync, O: FileObject + Send, R: Threads + Wait + Sync, G: Gate>(
    rt: &R,
    alloc: Global,
    trail: Trail,
    script: &Script,
    kernel: Kernel<O>,
    gate: &G,
) -> Result<ThreadedRun, ScriptFault>
    requires trail { trail ≡ record { id = W.trail; entries = []; given = 0 } }
    requires boots { IsBootState kernel }
    requires named { kernel ≡ W.boot }
    requires processes { kernel.processes ≡ map new_process script.now.procs.items }
    ensures runs { IfOk result (λ ran. IsOfScript W.boot (plan_of script.now) ran) }
    ensures fault { IfErr result (λ f. (f ≡ ScriptFault.NoMemory) ⊎ (f ≡ ScriptFault.Stranger)) }
{
    let count = script.process_count();
    if count > MADE_LIMIT {
        return Err(ScriptFault::Stranger);
    }
    let Ok((layer, seats)) = start::<W, O, R>(rt, alloc, trail, kernel) else {
        return Err(ScriptFault::NoMemory);
    };
    let Ok(done) = work_all(rt, alloc, script, seats, gate) else {
        return Err(ScriptFault::NoMemory);
    };
    let brought = gather(alloc, done)?;
    if brought.waits.is_empty() {
        let entries = finish(rt, alloc, script, &layer, brought, count)?;
        return Ok(ThreadedRun::Whole(entries));
    }
    let guard = layer.book(rt);
    let entries = begun_history(alloc, guard.book(), script, count)?;
    Ok(ThreadedRun::Begun(entries, Waiting::new(brought.waits)))
}

/// Ends the layer where the script says so, and compares its history with what the workers brought back.
fn finish<W: BookName, O: FileObject, R: Wait>(
    rt: &R,
    alloc: Global,
    script: &Script,
    layer: &Layer<W, O>,
    brought: Brought<W>,
    count: usize,
) -> Result<Vec<Entry>, ScriptFault>
    requires count { count ≡ known_count (plan_of script.now) }
    requires few { count ≤ made_limit }
    ensures runs { IfOk result (λ entries. Runs W.boot (plan_of script.now) entries.items) }
    ensures fault { IfErr result (λ f. (f ≡ ScriptFault.NoMemory) ⊎ (f ≡ ScriptFault.Stranger)) }
{
    let Brought {
        mut spents,
        waits: _,
    } = brought;
    if script.off && layer.off(rt).is_err() {
        return Err(ScriptFault::Stranger);
    }
    if layer.settle(rt, &mut spents).is_err() {
        return Err(ScriptFault::Stranger);
    }
    whole_history(alloc, layer.book(rt).book(), script, count)
}

/// What all workers brought back.
#[derive(Drop)]
struct Brought<W: BookName> {
    spents: Vec<Spent<W>>,
    /// Where every process waits: which, and in which line.
    waits: Vec<(Pid, usize)>,
}

/// What the workers brought back, where each either exited or waits with all others. Lack of memory is reported
/// before all else, then a stranger.
fn gather<W: BookName>(alloc: Global, done: Vec<Ended<W>>) -> Result<Brought<W>, ScriptFault>
    ensures { IfErr result (λ f. (f ≡ ScriptFault.NoMemory) ⊎ (f ≡ ScriptFault.Stranger)) }
{
    if done.iter().any(|one| one.stop == Some(Stop::NoMemory)) {
        return Err(ScriptFault::NoMemory);
    }
    let mut brought = Brought {
        spents: Vec::new(alloc),
        waits: Vec::new(alloc),
    };
    for one in done {
        add(&mut brought, one)?;
    }
    Ok(brought)
}

/// Adds what one worker brought back.
fn add<W: BookName>(brought: &mut Brought<W>, done: Ended<W>) -> Result<(), ScriptFault>
    ensures { IfErr result (λ f. (f ≡ ScriptFault.NoMemory) ⊎ (f ≡ ScriptFault.Stranger)) }
{
    let Ended { spent, stop } = done;
    let kept = match (spent, stop) {
        (Some(spent), None) => brought.spents.push(spent).is_ok(),
        (None, Some(Stop::Deadlock(pid, line))) => brought.waits.push((pid, line)).is_ok(),
        _ => return Err(ScriptFault::Stranger),
    };
    if !kept {
        return Err(ScriptFault::NoMemory);
    }
    Ok(())
}
