//! Runs of a script, and its calls made once more.

ghost use Rattle.std.specs.Prelude.{◌≡◌, length, IfOk};

use crate::machines::{boot, boot_without_faults};
use crate::progress::Calls;
use std::random::RandomSource;
use std::rt::Clock;
use std::sync::Wait;
use std::thread::Threads;
use ux_command::{CommandFault, Meter};
use ux_kernel::Kernel;
use ux_object::FileObject;
use ux_replay::{ReplayFault, replay_entry};
use ux_script::make_watched;
use ux_state::ReleasedObjects;
use ux_syntax::{Script, ScriptFault};
use ux_threads::{ThreadedRun, make_threads};
use ux_types::Entry;

/// Runs the script. With `threads` each process is a thread.
pub fn run_script<R: Threads + Wait + Clock + Eprint + RandomSource + AllocGlobal + Sync>(
    rt: &R,
    script: &Script,
    threads: bool,
    meter: &Meter<'_, R>,
) -> Result<ThreadedRun, CommandFault> {
    let kernel = boot(rt, script)?;
    let calls = Calls(meter);
    if threads {
        return Ok(make_threads(rt, rt.alloc(), script, kernel, &calls)?);
    }
    let history = make_watched(rt.alloc(), script, kernel, &calls)?;
    Ok(ThreadedRun::Whole(history))
}

/// Makes the calls of the script's history once more, over file objects that are as they were at first.
pub fn check_script<R: Clock + Eprint + RandomSource + AllocGlobal>(
    rt: &R,
    script: &Script,
    history: &[Entry],
    meter: &Meter<'_, R>,
) -> Result<(), CommandFault> {
    let mut kernel = boot_without_faults(rt, script)?;
    let mut released = ReleasedObjects::new(rt.alloc());
    match make_again(&mut kernel, history, &mut released, meter) {
        Ok(_count) => Ok(()),
        Err(ReplayFault::Differs(number)) => Err(CommandFault::Differs(number)),
        Err(ReplayFault::NoMemory(_)) => Err(CommandFault::Script(ScriptFault::NoMemory)),
    }
}

/// Makes the calls of a history once more, up to the first with another outcome, and gives how many entries it has.
fn make_again<O: FileObject, R: Clock + Eprint>(
    kernel: &mut Kernel<O>,
    history: &[Entry],
    released: &mut ReleasedObjects<O>,
    meter: &Meter<'_, R>,
) -> Result<u64, ReplayFault>
    ensures { IfOk result (λ n. n ≡ length history.now) }
{
    for (index, entry) in history.iter().enumerate() {
        meter.step();
        replay_entry(kernel, index as u64, entry, released)?;
    }
    Ok(history.len() as u64)
}
