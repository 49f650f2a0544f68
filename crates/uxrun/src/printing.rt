//! What is printed of a run.

use crate::json::{print_json_calls, print_json_comparison};
use crate::wording::print_with_text;
use std::alloc::{AllocError, Global};
use std::io;
use std::io::BufWriter;
use ux_command::{Args, CommandFault};
use ux_script::{differences, finish_echo, finish_trace, line_numbers, put_all};
use ux_syntax::{Expectation, Script, ScriptFault};
use ux_types::Entry;

/// Prints the history of a run to standard output, as a trace or beside the script; where it is asked for, compares the
/// answers with those that are expected, and prints how many are, or which answers differ. Where a graph or a
/// diagram is asked for, that alone is printed.
pub fn print_run<R: Print + AllocGlobal>(
    rt: &R,
    args: &Args<'_>,
    script: &Script,
    expected: &[Expectation],
    history: &[Entry],
) -> Result<(), CommandFault> {
    if args.dot.is_some() || args.sequence {
        return Ok(());
    }
    if !args.echo && !args.expect && !args.json {
        return print_calls(rt, args, &[], history);
    }
    let lines = line_numbers(rt.alloc(), script, history)?;
    print_calls(rt, args, &lines, history)?;
    if args.expect {
        print_comparison(rt, args, expected, &lines, history)?;
    }
    Ok(())
}

/// Prints the calls of a history in the form that is asked for; beside them stand the numbers of their lines.
pub fn print_calls<R: Print + AllocGlobal>(
    rt: &R,
    args: &Args<'_>,
    lines: &[Option<usize>],
    history: &[Entry],
) -> Result<(), CommandFault> {
    if args.json {
        return print_json_calls(rt, lines, history);
    }
    if args.text {
        return print_with_text(rt, args.echo.then_some(lines), history);
    }
    if args.echo {
        return print_echo(rt, lines, history);
    }
    print_trace(rt, history)
}

/// Prints the trace of a history.
pub fn print_trace<R: Print + AllocGlobal>(rt: &R, history: &[Entry]) -> Result<(), CommandFault> {
    let alloc: Global = rt.alloc();
    let mut writer = BufWriter::new(alloc, io::writer(rt)).map_err(|_| AllocError)?;
    Ok(finish_trace(alloc, &mut writer, history)?)
}

fn print_echo<R: Print + AllocGlobal>(
    rt: &R,
    lines: &[Option<usize>],
    history: &[Entry],
) -> Result<(), CommandFault> {
    let alloc: Global = rt.alloc();
    let mut writer = BufWriter::new(alloc, io::writer(rt)).map_err(|_| AllocError)?;
    Ok(finish_echo(alloc, &mut writer, lines, history)?)
}

/// Prints which answers aren't those that are expected, or how many were compared where all are.
pub fn print_comparison<R: Print + AllocGlobal>(
    rt: &R,
    args: &Args<'_>,
    expected: &[Expectation],
    lines: &[Option<usize>],
    history: &[Entry],
) -> Result<(), CommandFault> {
    if args.json {
        return print_json_comparison(rt, expected, lines, history);
    }
    let differing = differences(rt.alloc(), expected, lines, history)?;
    if differing.is_empty() {
        return print_expected(rt, expected.len());
    }
    put_all(&mut io::writer(rt), &differing)?;
    Err(CommandFault::Unexpected)
}

/// Prints how many answers were compared, of which none differs.
pub fn print_expected(rt: &impl Print, count: usize) -> Result<(), CommandFault> {
    println!(rt; "expect ok {count}").map_err(|_| ScriptFault::Writing)?;
    Ok(())
}
