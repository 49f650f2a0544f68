//! Several scripts, of each of which it is told whether its answers are those that it expects.

use crate::orders::Made;
use crate::reading::{ReadScript, script_of};
use crate::run_as_asked;
use crate::tap::{tell_plan, tell_point};
use std::alloc::Global;
use std::io;
use std::random::RandomSource;
use std::rt::{Clock, Files};
use std::sync::Wait;
use std::thread::Threads;
use ux_command::{Args, CommandFault, Source};
use ux_script::{differences, line_numbers, put_all};
use ux_syntax::ScriptFault;

/// What a script's answers came to, beside those that it expects.
#[derive(Drop)]
pub struct Compared {
    /// How many are expected.
    pub count: usize,
    /// What is told of those that differ, a line each.
    pub differing: Vec<u8>,
}

impl Compared {
    /// Whether the script was run, and none of its answers differs.
    pub fn is_expected(found: &Result<Compared, CommandFault>) -> bool {
        match found {
            Ok(compared) => compared.differing.is_empty(),
            Err(_) => false,
        }
    }
}

/// Runs the script that the arguments name, and compares its answers.
fn compare<
    R: Files + Input + Threads + Wait + Clock + Print + Eprint + RandomSource + AllocGlobal + Sync,
>(rt: &R, args: &mut Args<'_>, source: &mut Source) -> Result<Compared, CommandFault> {
    let alloc: Global = rt.alloc();
    let ReadScript {
        script,
        expected,
        ..
    } = script_of(rt, args, source)?;
    let history = match run_as_asked(rt, args, &script)? {
        Made::Whole(history) => history,
        Made::Cut(_history, fault) => return Err(fault),
    };
    let lines = line_numbers(alloc, &script, &history)?;
    let differing = differences(alloc, &expected, &lines, &history)?;
    Ok(Compared {
        count: expected.len(),
        differing,
    })
}

/// Tells how a script ended: a line with its name, and behind that why it isn't as expected.
fn tell<R: Print + AllocGlobal>(
    rt: &R,
    name: &str,
    source: &Source,
    found: &Result<Compared, CommandFault>,
) -> Result<bool, CommandFault> {
    match found {
        Ok(compared) if compared.differing.is_empty() => {
            let count = compared.count;
            println!(rt; "{name}: expect ok {count}").map_err(|_| ScriptFault::Writing)?;
            Ok(true)
        }
        Ok(compared) => {
            let fault = CommandFault::Unexpected;
            println!(rt; "{name}: {fault}").map_err(|_| ScriptFault::Writing)?;
            put_all(&mut io::writer(rt), &compared.differing)?;
            Ok(false)
        }
        Err(fault) => {
            println!(rt; "{name}: {fault}").map_err(|_| ScriptFault::Writing)?;
            if let Some(reason) = source.reason_of(rt.alloc(), name, fault)? {
                println!(rt; "{reason}").map_err(|_| ScriptFault::Writing)?;
            }
            Ok(false)
        }
    }
}

/// Why not all scripts answer as expected, where they don't.
fn summed_up(as_expected: usize, count: usize) -> Result<(), CommandFault> {
    if as_expected < count {
        return Err(CommandFault::Unexpected);
    }
    Ok(())
}

/// Runs each of these scripts, and tells in TAP whether its answers are those that it expects.
pub fn tap_each<
    'a,
    R: Files + Input + Threads + Wait + Clock + Print + Eprint + RandomSource + AllocGlobal + Sync,
>(rt: &R, args: &mut Args<'a>, names: &[&'a str]) -> Result<(), CommandFault> {
    tell_plan(rt, names.len())?;
    let mut as_expected: usize = 0;
    for (place, name) in names.iter().enumerate() {
        let mut source = Source::new(rt.alloc());
        args.script = *name;
        let found = compare(rt, args, &mut source);
        if tell_point(rt, place.saturating_add(1), name, &source, &found)? {
            as_expected = as_expected.saturating_add(1);
        }
    }
    summed_up(as_expected, names.len())
}

/// Runs each of these scripts, tells whether its answers are those that it expects, and at last of how many they are.
pub fn expect_each<
    'a,
    R: Files + Input + Threads + Wait + Clock + Print + Eprint + RandomSource + AllocGlobal + Sync,
>(rt: &R, args: &mut Args<'a>, names: &[&'a str]) -> Result<(), CommandFault> {
    let mut as_expected: usize = 0;
    for name in names {
        let mut source = Source::new(rt.alloc());
        args.script = *name;
        let found = compare(rt, args, &mut source);
        if tell(rt, name, &source, &found)? {
            as_expected = as_expected.saturating_add(1);
        }
    }
    let count = names.len();
    println!(rt; "{as_expected} of {count} scripts answer as expected").map_err(
        |_| ScriptFault::Writing,
    )?;
    summed_up(as_expected, count)
}
