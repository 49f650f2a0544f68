//! What a run has come to at a moment of it.

ghost use Rattle.std.specs.Prelude.{◌≤◌, IfOk, length};

use crate::json::print_json_holders;
use crate::machines::boot_without_faults;
use std::alloc::Global;
use std::random::RandomSource;
use ux_command::{Args, CommandFault, Point};
use ux_holders::{Snapshot, dot, take_snapshot};
use ux_replay::{ReplayFault, replay_on};
use ux_script::line_numbers;
use ux_sequence::sequence;
use ux_syntax::{Script, ScriptFault};
use ux_types::Entry;

/// How many calls of a history were made at this moment.
pub fn calls_until(
    alloc: Global,
    script: &Script,
    history: &[Entry],
    point: Point,
) -> Result<usize, CommandFault>
    ensures { IfOk result (λ count. count ≤ length history.now) }
{
    let lines = line_numbers(alloc, script, history)?;
    point.count(&lines)
}

/// Prints who holds what at the moments that were asked for, and the diagram that was.
pub fn print_moments<R: Print + RandomSource + AllocGlobal>(
    rt: &R,
    args: &Args<'_>,
    script: &Script,
    history: &[Entry],
) -> Result<(), CommandFault> {
    if let Some(point) = args.holders {
        let held = snapshot_at(rt, script, history, point)?;
        print_held(rt, &held, args.json)?;
    }
    if let Some(point) = args.dot {
        let held = snapshot_at(rt, script, history, point)?;
        let graph = dot(rt.alloc(), &held)?;
        print!(rt; "{graph}").map_err(|_| ScriptFault::Writing)?;
    }
    if args.sequence {
        let diagram = sequence_of(rt, script, history)?;
        print!(rt; "{diagram}").map_err(|_| ScriptFault::Writing)?;
    }
    Ok(())
}

/// Prints who holds what, as a list or as JSON.
fn print_held<R: Print + AllocGlobal>(
    rt: &R,
    held: &Snapshot,
    json: bool,
) -> Result<(), CommandFault> {
    if json {
        return print_json_holders(rt, held);
    }
    print!(rt; "{held}").map_err(|_| ScriptFault::Writing)?;
    Ok(())
}

/// The run as a sequence diagram.
fn sequence_of<R: RandomSource + AllocGlobal>(
    rt: &R,
    script: &Script,
    history: &[Entry],
) -> Result<String, CommandFault> {
    let alloc: Global = rt.alloc();
    let lines = line_numbers(alloc, script, history)?;
    let kernel = boot_without_faults(rt, script)?;
    sequence(alloc, &lines, history, kernel).map_err(fault_of)
}

/// Why the calls weren't all made once more.
pub fn fault_of(fault: ReplayFault) -> CommandFault {
    match fault {
        ReplayFault::Differs(number) => CommandFault::Differs(number),
        ReplayFault::NoMemory(_) => CommandFault::Script(ScriptFault::NoMemory),
    }
}

/// Who holds what at a moment: the calls up to it are made once more, on a kernel that is then looked at.
fn snapshot_at<R: RandomSource + AllocGlobal>(
    rt: &R,
    script: &Script,
    history: &[Entry],
    point: Point,
) -> Result<Snapshot, CommandFault> {
    let alloc: Global = rt.alloc();
    let count = calls_until(alloc, script, history, point)?;
    let mut kernel = boot_without_faults(rt, script)?;
    match replay_on(alloc, &history[..count], &mut kernel) {
        Ok(_count) => Ok(take_snapshot(alloc, kernel.state())?),
        Err(fault) => Err(fault_of(fault)),
    }
}
