//! Runs each script of `data/` where each allocation fails in turn: with as little memory as each call can do with,
//! and with none from some call on.
#![tactic(auto)]

ghost use Rattle.std.specs.Prelude.{◌≡◌, map, IfOk};
ghost use Rattle.ux_model.specs.Boot.{IsBootState, new_process};

mod attempts;
mod hall;
mod scarcity;

use anyhow::{Result, anyhow};
use attempts::bear_the_rest;
use hall::run_by_seats;
use hoard::Purse;
use scarcity::{STEPS, Supply, bytes_at};
use std::alloc::{AllocError, Global};
use std::fs;
use std::marker::Brand;
use std::rt::Files;
use std::sync::Wait;
use ux_book::Trail;
use ux_kernel::{BootFault, Kernel};
use ux_object::{FileObject, ObjKind};
use ux_objects::Plain;
use ux_replay::check_history;
use ux_syntax::{Act, ObjectLine, Script, parse_script};
use ux_types::{Entry, Errno, Name, Reply, Request};

/// The scripts by their names.
const SCRIPTS: &[&str] = &[
    "rights_are_a_barrier",
    "receive_before_rights",
    "rights_come_with_the_first_byte",
    "passed_file_shares_its_offset",
    "file_in_a_lost_message",
    "excess_of_rights_is_closed",
    "most_rights_of_a_message",
    "peek_installs_further_descriptors",
    "full_table_cuts_rights",
    "datagrams_are_cut",
    "socket_in_its_own_queue",
    "full_backlog_and_lost_listener",
    "accept_at_a_full_table",
    "credentials_of_a_sender",
    "hello",
    "counter_and_pipe",
    "records_before_the_end",
    "ends_of_a_file",
    "peek_and_reset",
    "one_offset",
    "autobind_and_refusals",
    "associated_sockets",
    "limit_of_rights_in_flight",
    "given_credentials",
    "options_and_readiness",
    "fork_and_exec",
    "made_file_objects",
];

/// The file objects of a script.
fn objects_of(alloc: Global, script: &Script) -> Result<Vec<(Name, Plain)>, AllocError> {
    let mut objects = Vec::new(alloc);
    for line in &script.objects {
        let made = Plain::new(alloc, line.kind, line.body.as_slice());
        let object = made.map_err(|_| AllocError)?;
        objects.push((line.name.clone()?, object))?;
    }
    Ok(objects)
}

/// A kernel of the script's processes and file objects. It fails for lack of memory alone.
fn kernel_of(alloc: Global, script: &Script) -> Result<Kernel<Plain>, AllocError>
    ensures boots { IfOk result (λ kernel. IsBootState kernel) }
    ensures processes { IfOk result (λ kernel. kernel.processes ≡ map new_process script.now.procs.items) }
{
    let objects = objects_of(alloc, script)?;
    match Kernel::boot(alloc, objects, &script.procs) {
        Ok(kernel) => Ok(kernel),
        Err(_) => Err(AllocError),
    }
}

/// Whether an object is as its line has it.
fn is_as_made(line: &ObjectLine, name: &Name, object: &Plain) -> bool {
    let size = match line.kind {
        ObjKind::Memory => line.body.as_slice().len() as u64,
        ObjKind::Counter | ObjKind::Pipe => 0,
    };
    *name == line.name
        && object.kind() == line.kind
        && object.size() == size
        && object.is_open()
        && object.faults() == 0
}

/// Whether these are the script's objects, as they were made.
fn are_as_made(script: &Script, objects: &[(Name, Plain)]) -> bool {
    script.objects.len() == objects.len()
        && script
            .objects
            .iter()
            .zip(objects)
            .all(|(line, object)| is_as_made(line, &object.0, &object.1))
}

/// Boots with no memory, and with more while that fails: the objects come back as they were, and the next
/// boot has them. Gives how often it failed.
fn boot_at_last(alloc: Global, purse: &mut Purse, script: &Script) -> Result<usize> {
    let mut objects = objects_of(alloc, script)?;
    for step in 0..STEPS {
        purse.leave(alloc, bytes_at(step));
        let booted = Kernel::boot(alloc, objects, &script.procs);
        purse.open();
        match booted {
            Ok(_kernel) => return Ok(step),
            Err((BootFault::NoMemory, back)) => {
                if !are_as_made(script, &back) {
                    return Err(anyhow!("other objects come back"));
                }
                objects = back;
            }
            Err((fault, _objects)) => return Err(anyhow!("{fault}")),
        }
    }
    Err(anyhow!("no boot"))
}

/// Whether an entry's call was answered ENOMEM.
fn lacks_memory(entry: &Entry) -> bool {
    matches!(entry.reply, Reply::Err(Errno::ENOMEM))
}

/// Whether a history is that of another run, but for calls that were answered ENOMEM. Those count, so a message may have
/// another tag.
fn is_but_for_failures(history: &[Entry], undisturbed: &[Entry]) -> bool {
    let mut rest = undisturbed.iter();
    for entry in history {
        if lacks_memory(entry) {
            continue;
        }
        let Some(other) = rest.next() else {
            return false;
        };
        if entry.pid != other.pid
            || entry.request != other.request
            || entry.reply != other.reply
            || entry.released != other.released
            || entry.delivered.is_some() != other.delivered.is_some()
        {
            return false;
        }
    }
    rest.next().is_none()
}

/// Whether an entry's call made a file object.
fn makes_object(entry: &Entry) -> bool {
    match &entry.request {
        Request::Create { .. } | Request::MemFd { .. } | Request::EventFd { .. } => {
            matches!(entry.reply, Reply::Fd(_))
        }
        Request::Pipe { .. } => matches!(entry.reply, Reply::Fds(..)),
        _ => false,
    }
}

/// Whether each of so many objects was closed once.
fn closes_each_once(history: &[Entry], count: usize) -> bool {
    let mut closed = [0u8; 64];
    for entry in history {
        let (first, others) = entry.released.parts();
        for number in first.iter().chain(others) {
            let place = *number as usize;
            if place >= count || place >= 64 || closed[place] > 0 {
                return false;
            }
            closed[place] = 1;
        }
    }
    closed.iter().filter(|times| **times == 1).count() == count
}

/// Sees that a history ends with each object closed once, those that calls made too, and can be made again with ample
/// memory.
fn must_be_whole(alloc: Global, script: &Script, history: &[Entry]) -> Result<()> {
    let made = history.iter().filter(|entry| makes_object(entry)).count();
    if !closes_each_once(history, script.objects.len().saturating_add(made)) {
        return Err(anyhow!("an object isn't closed once"));
    }
    match check_history(alloc, history, kernel_of(alloc, script)?) {
        Ok(_count) => Ok(()),
        Err(number) => Err(anyhow!("entry {number} is another the second time")),
    }
}

/// The history of a run by seats with so much memory; none where it didn't start.
fn history_with<R: Wait + AllocGlobal>(
    rt: &R,
    purse: &mut Purse,
    script: &Script,
    supply: Supply,
) -> Result<Option<Vec<Entry>>> {
    let alloc = rt.alloc();
    let kernel = kernel_of(alloc, script)?;
    let trail = Trail::new(rt.alloc())?;
    let ran = run_by_seats::<Brand, R>(rt, trail, kernel, purse, script, supply)?;
    if let Some(history) = &ran {
        must_be_whole(alloc, script, history)?;
    }
    Ok(ran)
}

/// Starts with no memory, and with more while that fails; then makes each call so.
fn run_scarce<R: Wait + AllocGlobal>(
    rt: &R,
    purse: &mut Purse,
    script: &Script,
    undisturbed: &[Entry],
) -> Result<()> {
    for step in 0..STEPS {
        let supply = Supply::Scarce(bytes_at(step));
        let Some(history) = history_with(rt, purse, script, supply)? else {
            continue;
        };
        if step == 0 {
            return Err(anyhow!("it starts with no memory"));
        }
        if !is_but_for_failures(&history, undisturbed) {
            return Err(anyhow!("another history with little memory"));
        }
        return Ok(());
    }
    Err(anyhow!("no start"))
}

/// Runs the script once for each of its calls, from which on no memory is left.
fn run_dry<R: Wait + AllocGlobal>(rt: &R, purse: &mut Purse, script: &Script) -> Result<()> {
    for calls in 0..script.lines.len() {
        if history_with(rt, purse, script, Supply::NoneAfter(calls))?.is_none() {
            return Err(anyhow!("no start"));
        }
    }
    Ok(())
}

/// Runs a script where each allocation fails in turn.
fn must_bear<R: Files + Wait + AllocGlobal>(rt: &R, purse: &mut Purse, name: &str) -> Result<()> {
    let alloc: Global = rt.alloc();
    let text = fs::read(rt, format!(in alloc; "{name}.ux")?.as_str())?;
    let script = parse_script(alloc, &text)?;
    if boot_at_last(alloc, purse, &script)? == 0 {
        return Err(anyhow!("it boots with no memory"));
    }
    let Some(undisturbed) = history_with(rt, purse, &script, Supply::Ample)? else {
        return Err(anyhow!("no start"));
    };
    run_scarce(rt, purse, &script, &undisturbed)?;
    run_dry(rt, purse, &script)?;
    bear_the_rest(alloc, purse, &text, &script, &undisturbed)
}

fn run<R: Files + Wait + Print + AllocGlobal>(rt: &R) -> Result<()> {
    let mut purse = Purse::new(rt.alloc())?;
    for name in SCRIPTS {
        if let Err(error) = must_bear(rt, &mut purse, name) {
            return Err(anyhow!("{name}: {error}"));
        }
        println!(rt; "{name}: ok")?;
    }
    Ok(())
}

fn main(rt: HostRuntime) -> Result<()> {
    run(&rt)
}
