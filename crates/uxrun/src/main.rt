//! Runs a script of socket calls, and prints the trace.
#![tactic(auto)]

mod audit;
mod follow;
mod json;
mod machines;
mod moments;
mod naming;
mod orders;
mod page;
mod printing;
mod progress;
mod reading;
mod runs;
mod several;
mod tap;
mod updating;
mod wording;

use audit::{AuditForm, print_audit};
use clap::Error;
use clap::error::ErrorKind;
use follow::follow_script;
use json::print_json;
use moments::{calls_until, print_moments};
use orders::{Made, print_orders, run_in_order};
use page::write_run;
use printing::{print_comparison, print_run};
use reading::{ReadScript, script_of};
use runs::{check_script, run_script};
use several::{expect_each, tap_each};
use std::io::IsTerminal;
use std::process::ExitCode;
use std::random::RandomSource;
use std::rt::{Clock, Files};
use std::sync::Wait;
use std::thread::Threads;
use std::{env, io};
use updating::update_each;
use ux_command::{Args, CommandFault, Meter, Source, read_args};
use ux_json::check_value;
use ux_syntax::{Expectation, Script, ScriptFault};
use ux_threads::ThreadedRun;
use ux_types::Entry;

/// The exit status where the command line wasn't understood, as clap has it.
const NOT_UNDERSTOOD: u8 = 2;

/// Runs the script that was named, or several; prints its trace to standard output; where it is asked for, compares the
/// answers, makes the calls once more, and reports how many entries there are, and who came to which descriptor through
/// whom.
fn run<
    R: Files + Input + Threads + Wait + Clock + Print + Eprint + RandomSource + AllocGlobal + Sync,
>(rt: &R, args: &mut Args<'_>, source: &mut Source) -> Result<(), CommandFault> {
    if args.follow {
        return follow_script(rt, args, source);
    }
    if let Some(names) = args.several.take() {
        return run_each(rt, args, &names);
    }
    let read = script_of(rt, args, source)?;
    read.must_have_orders(args)?;
    let ReadScript {
        script,
        expected,
        ..
    } = read;
    if let Some(orders) = args.orders {
        let expected = args.expect.then_some(expected.as_slice());
        return print_orders(rt, args, &script, expected, orders);
    }
    let history = history_of(rt, args, &script, &expected)?;
    print_run(rt, args, &script, &expected, &history)?;
    print_rest(rt, args, &script, history)
}

/// Runs each of these scripts: writes its answers into it, or tells whether they are those that it expects.
fn run_each<
    'a,
    R: Files + Input + Threads + Wait + Clock + Print + Eprint + RandomSource + AllocGlobal + Sync,
>(rt: &R, args: &mut Args<'a>, names: &[&'a str]) -> Result<(), CommandFault> {
    if args.update {
        return update_each(rt, args, names);
    }
    if args.tap {
        return tap_each(rt, args, names);
    }
    expect_each(rt, args, names)
}

/// Prints what stands behind the trace: makes the calls once more, and reports who holds which descriptor, where it is
/// asked for.
fn print_rest<
    R: Files + Threads + Wait + Clock + Print + Eprint + RandomSource + AllocGlobal + Sync,
>(rt: &R, args: &Args<'_>, script: &Script, history: Vec<Entry>) -> Result<(), CommandFault> {
    if let Some(file) = args.html {
        write_run(rt, file, args.script, script, &history, "")?;
    }
    if args.check {
        let meter = Meter::new(rt, args.progress, "calls made again");
        check_script(rt, script, &history, &meter)?;
        print_check(rt, args, history.len())?;
    }
    if let Some(point) = args.audit {
        let count = calls_until(rt.alloc(), script, &history, point)?;
        print_audit(rt, &history[..count], audit_form(args))?;
    }
    print_moments(rt, args, script, &history)
}

/// In which form an audit is asked for.
fn audit_form(args: &Args<'_>) -> AuditForm {
    if args.json {
        AuditForm::Json
    } else if args.words {
        AuditForm::Words
    } else {
        AuditForm::Lines
    }
}

/// Prints how many calls were made again and answered alike.
fn print_check<R: Print + AllocGlobal>(
    rt: &R,
    args: &Args<'_>,
    calls: usize,
) -> Result<(), CommandFault> {
    if args.json {
        return print_json(rt, &check_value(rt.alloc(), calls)?);
    }
    println!(rt; "check ok {calls}").map_err(|_| ScriptFault::Writing)?;
    Ok(())
}

/// Runs the script. Where it isn't run to its end, that is what is reported, behind what there is to print: also where
/// it can't be printed.
fn history_of<
    R: Files + Threads + Wait + Clock + Print + Eprint + RandomSource + AllocGlobal + Sync,
>(
    rt: &R,
    args: &mut Args<'_>,
    script: &Script,
    expected: &[Expectation],
) -> Result<Vec<Entry>, CommandFault> {
    match run_as_asked(rt, args, script) {
        Ok(Made::Whole(history)) => Ok(history),
        Ok(Made::Cut(history, fault)) => {
            let _printed = print_run(rt, args, script, expected, &history);
            if let Some(file) = args.html {
                let end = format!(in rt.alloc(); "{fault}")?;
                write_run(rt, file, args.script, script, &history, end.as_str())?;
            }
            Err(fault)
        }
        Err(fault) => {
            if args.expect {
                let _printed = print_comparison(rt, args, expected, &[], &[]);
            }
            Err(fault)
        }
    }
}

/// What a run has come to in the order that was asked for.
fn run_as_asked<R: Threads + Wait + Clock + Eprint + RandomSource + AllocGlobal + Sync>(
    rt: &R,
    args: &mut Args<'_>,
    script: &Script,
) -> Result<Made, CommandFault> {
    if let Some(order) = &mut args.order {
        return run_in_order(rt, script, order);
    }
    let meter = Meter::new(rt, args.progress, "calls made");
    match run_script(rt, script, args.threads, &meter)? {
        ThreadedRun::Whole(history) => Ok(Made::Whole(history)),
        ThreadedRun::Begun(history, waiting) => {
            let deadlock = ScriptFault::Deadlock(waiting);
            Ok(Made::Cut(history, CommandFault::Script(deadlock)))
        }
    }
}

/// Prints why no whole trace was printed.
fn failed(rt: &impl Eprint, fault: &CommandFault) -> ExitCode {
    let _ = eprintln!(rt; "uxrun: {fault}");
    ExitCode::FAILURE
}

/// Whether what is printed goes to a pipe that nobody reads any more, as behind `| head`.
fn is_unread(rt: &impl Print) -> bool {
    match print!(rt; "\n") {
        Err(error) => error.kind() == io::ErrorKind::BrokenPipe,
        Ok(()) => false,
    }
}

/// Prints why no whole trace was printed, and behind that the place in the script and what is expected there, if any.
/// Nothing where nobody reads the trace.
fn explained<R: Print + Eprint + AllocGlobal>(
    rt: &R,
    name: &str,
    source: &Source,
    fault: &CommandFault,
) -> ExitCode {
    if matches!(fault, CommandFault::Script(ScriptFault::Writing)) && is_unread(rt) {
        return ExitCode::FAILURE;
    }
    let code = failed(rt, fault);
    if let Ok(Some(reason)) = source.reason_of(rt.alloc(), name, fault) {
        let _ = eprintln!(rt; "{reason}");
    }
    code
}

/// Prints why the command line wasn't understood, or what was asked of the program itself.
fn answered<R: Print + Eprint>(rt: &R, error: &Error) -> ExitCode {
    if error.print(rt).is_err() && !error.use_stderr() {
        return failed(rt, &CommandFault::Script(ScriptFault::Writing));
    }
    ExitCode::from(error.exit_code() as u8)
}

/// Reports why the command line has no valid words.
fn no_words(rt: &impl Eprint, error: &io::Error) -> ExitCode {
    if error.kind() == io::ErrorKind::OutOfMemory {
        return failed(rt, &CommandFault::Script(ScriptFault::NoMemory));
    }
    let _ = eprintln!(rt; "uxrun: an argument isn't UTF-8");
    ExitCode::from(NOT_UNDERSTOOD)
}

fn main(rt: HostRuntime) -> ExitCode {
    let no_memory = CommandFault::Script(ScriptFault::NoMemory);
    let words = match env::args(&rt) {
        Ok(words) => words,
        Err(error) => return no_words(&rt, &error),
    };
    let Ok(words) = words.collect::<Vec<String>>(rt.alloc()) else {
        return failed(&rt, &no_memory);
    };
    let mut args = match read_args(rt.alloc(), words.as_slice()) {
        Ok(args) => args,
        Err(error) if error.kind() == ErrorKind::OutOfMemory => return failed(&rt, &no_memory),
        Err(error) => return answered(&rt, &error),
    };
    if args.may_follow() && rt.stdin().is_terminal() {
        args.follow = true;
    }
    args.progress = rt.stderr().is_terminal();
    args.words = args.words || rt.stdout().is_terminal();
    let mut source = Source::new(rt.alloc());
    match run(&rt, &mut args, &mut source) {
        Ok(()) => ExitCode::SUCCESS,
        Err(fault) => explained(&rt, args.script, &source, &fault),
    }
}
