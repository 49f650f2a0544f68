//! What else takes memory: reading a script, a run of one thread, making a history again, and copies.

use crate::kernel_of;
use crate::scarcity::{STEPS, bytes_at};
use anyhow::{Result, anyhow};
use hoard::Purse;
use std::alloc::Global;
use ux_book::copy_entries;
use ux_replay::{ReplayFault, replay};
use ux_script::run_serial;
use ux_syntax::{Script, ScriptFault, parse_script, read_script};
use ux_trace::entry_text;
use ux_types::Entry;

/// How an attempt went.
#[derive(Clone, Copy, PartialEq, Eq)]
enum Tried {
    Done,
    OutOfMemory,
    /// Not as with ample memory, and no word of want of it.
    Wrong,
}

/// What takes memory, and may be tried again where an allocation failed.
trait Attempt {
    fn attempt(&self, alloc: Global) -> Tried;
}

/// What reading a script gives.
fn tried_to_read(found: Result<Script, ScriptFault>) -> Tried {
    match found {
        Ok(_script) => Tried::Done,
        Err(ScriptFault::NoMemory) => Tried::OutOfMemory,
        Err(_) => Tried::Wrong,
    }
}

/// A text that is parsed.
#[derive(Clone, Copy)]
struct Parsed<'a>(&'a [u8]);

impl Attempt for Parsed<'_> {
    fn attempt(&self, alloc: Global) -> Tried {
        tried_to_read(parse_script(alloc, self.0))
    }
}

/// A text that is read as from a file.
#[derive(Clone, Copy)]
struct Read<'a>(&'a [u8]);

impl Attempt for Read<'_> {
    fn attempt(&self, alloc: Global) -> Tried {
        let mut rest = self.0;
        tried_to_read(read_script(alloc, &mut rest))
    }
}

/// A script that one thread runs, and its trace. What is written is the trace with each call in it that was answered
/// ENOMEM, or a beginning of that. There is room for it, so that no write fails.
#[derive(Clone, Copy)]
struct Run<'a> {
    script: &'a Script,
    trace: &'a [u8],
}

impl Attempt for Run<'_> {
    fn attempt(&self, alloc: Global) -> Tried {
        let Ok(kernel) = kernel_of(alloc, self.script) else {
            return Tried::OutOfMemory;
        };
        let Ok(mut trace) = Vec::with_capacity(alloc, self.trace.len().saturating_mul(2)) else {
            return Tried::OutOfMemory;
        };
        match run_serial(alloc, self.script, &mut trace, kernel) {
            Ok(_history) if trace.as_slice() == self.trace => Tried::Done,
            Ok(_history) => Tried::OutOfMemory,
            Err(ScriptFault::NoMemory) => Tried::OutOfMemory,
            Err(_) => Tried::Wrong,
        }
    }
}

/// A history that is made again.
#[derive(Clone, Copy)]
struct Again<'a> {
    script: &'a Script,
    history: &'a [Entry],
}

impl Attempt for Again<'_> {
    fn attempt(&self, alloc: Global) -> Tried {
        let Ok(kernel) = kernel_of(alloc, self.script) else {
            return Tried::OutOfMemory;
        };
        match replay(alloc, self.history, kernel) {
            Ok(_count) => Tried::Done,
            Err(ReplayFault::NoMemory(_)) => Tried::OutOfMemory,
            Err(ReplayFault::Differs(_)) => Tried::Wrong,
        }
    }
}

/// An entry whose line of the trace is made.
#[derive(Clone, Copy)]
struct Line<'a>(&'a Entry);

impl Attempt for Line<'_> {
    fn attempt(&self, alloc: Global) -> Tried {
        match entry_text(alloc, 0, self.0) {
            Ok(_text) => Tried::Done,
            Err(_) => Tried::OutOfMemory,
        }
    }
}

/// A history that is copied.
#[derive(Clone, Copy)]
struct Copied<'a>(&'a [Entry]);

impl Attempt for Copied<'_> {
    fn attempt(&self, alloc: Global) -> Tried {
        match copy_entries(alloc, self.0) {
            Ok(copied) if copied.as_slice() == self.0 => Tried::Done,
            Ok(_copied) => Tried::Wrong,
            Err(_) => Tried::OutOfMemory,
        }
    }
}

/// Attempts this with no memory, and with more while an allocation fails.
fn must_be_done<A: Attempt>(alloc: Global, purse: &mut Purse, what: &str, task: &A) -> Result<()> {
    for step in 0..STEPS {
        purse.leave(alloc, bytes_at(step));
        let tried = task.attempt(alloc);
        purse.open();
        match tried {
            Tried::OutOfMemory => {}
            Tried::Done if step > 0 => return Ok(()),
            Tried::Done => return Err(anyhow!("{what} takes no memory")),
            Tried::Wrong => return Err(anyhow!("{what} goes wrong with little memory")),
        }
    }
    // It wants more than a purse leaves.
    if task.attempt(alloc) == Tried::Done {
        return Ok(());
    }
    Err(anyhow!("{what} fails with ample memory"))
}

/// Reads and runs a script, makes its history again, copies it, and makes the line of its first entry, with as little memory as
/// each can do with.
pub fn bear_the_rest(
    alloc: Global,
    purse: &mut Purse,
    text: &[u8],
    script: &Script,
    history: &[Entry],
) -> Result<()> {
    let mut trace: Vec<u8> = Vec::new(alloc);
    run_serial(alloc, script, &mut trace, kernel_of(alloc, script)?)?;
    must_be_done(alloc, purse, "parsing", &Parsed(text))?;
    must_be_done(alloc, purse, "reading", &Read(text))?;
    let run = Run {
        script,
        trace: &trace,
    };
    must_be_done(alloc, purse, "a run", &run)?;
    must_be_done(alloc, purse, "a replay", &Again { script, history })?;
    must_be_done(alloc, purse, "a copy", &Copied(history))?;
    match history.first() {
        Some(entry) => must_be_done(alloc, purse, "a line", &Line(entry)),
        None => Err(anyhow!("no entry")),
    }
}
