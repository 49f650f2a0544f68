//! Scripts into which their answers are written.

use crate::orders::Made;
use crate::reading::{ReadScript, script_of};
use crate::run_as_asked;
use std::alloc::Global;
use std::random::RandomSource;
use std::rt::{Clock, Files};
use std::sync::Wait;
use std::thread::Threads;
use std::{fs, io};
use ux_command::{Args, CommandFault, Source};
use ux_script::{line_numbers, put_all, with_replies};
use ux_syntax::{ScriptFault, expectations_of};

/// Writes the text with the answers where the script came from: to its file, where it is another than before, or for standard
/// input to standard output. Tells how many answers it expects.
fn put_back<R: Files + Print + AllocGlobal>(
    rt: &R,
    name: &str,
    before: &[u8],
    text: &[u8],
) -> Result<(), CommandFault> {
    if name == "-" {
        return Ok(put_all(&mut io::writer(rt), text)?);
    }
    let count = expectations_of(rt.alloc(), text)?.len();
    if text == before {
        println!(rt; "{name}: {count} replies, as before").map_err(|_| ScriptFault::Writing)?;
        return Ok(());
    }
    fs::write(rt, name, text).map_err(|_| CommandFault::Update)?;
    println!(rt; "{name}: {count} replies, written").map_err(|_| ScriptFault::Writing)?;
    Ok(())
}

/// Runs the script that the arguments name, and writes its answers into it.
fn update<
    R: Files + Input + Threads + Wait + Clock + Print + Eprint + RandomSource + AllocGlobal + Sync,
>(rt: &R, args: &mut Args<'_>, source: &mut Source) -> Result<(), CommandFault> {
    let alloc: Global = rt.alloc();
    let ReadScript { script, .. } = script_of(rt, args, source)?;
    let history = match run_as_asked(rt, args, &script)? {
        Made::Whole(history) => history,
        Made::Cut(_history, fault) => return Err(fault),
    };
    let Some(before) = source.text() else {
        return Err(CommandFault::Update);
    };
    let lines = line_numbers(alloc, &script, &history)?;
    let text = with_replies(alloc, before, &lines, &history)?;
    put_back(rt, args.script, before, &text)
}

/// Tells why a script's answers weren't written into it.
fn tell_fault<R: Print + Eprint + AllocGlobal>(
    rt: &R,
    name: &str,
    source: &Source,
    fault: &CommandFault,
) -> Result<(), CommandFault> {
    let _ = eprintln!(rt; "{name}: {fault}");
    if let Some(reason) = source.reason_of(rt.alloc(), name, fault)? {
        let _ = eprintln!(rt; "{reason}");
    }
    Ok(())
}

/// Writes the answers of each of these scripts into it. A script at fault stays as it is.
pub fn update_each<
    'a,
    R: Files + Input + Threads + Wait + Clock + Print + Eprint + RandomSource + AllocGlobal + Sync,
>(rt: &R, args: &mut Args<'a>, names: &[&'a str]) -> Result<(), CommandFault> {
    let mut all = true;
    for name in names {
        let mut source = Source::new(rt.alloc());
        args.script = *name;
        if let Err(fault) = update(rt, args, &mut source) {
            tell_fault(rt, name, &source, &fault)?;
            all = false;
        }
    }
    if !all {
        return Err(CommandFault::Update);
    }
    Ok(())
}
