//! What is printed of a run as JSON.

use serde_json::Value;
use std::alloc::{AllocError, Global};
use std::io;
use std::io::BufWriter;
use ux_command::CommandFault;
use ux_holders::{Snapshot, snapshot_values};
use ux_json::expect_value;
use ux_script::{differences, finish_json, write_differences, write_value};
use ux_syntax::Expectation;
use ux_types::Entry;

/// Prints the calls of a run, a line each.
pub fn print_json_calls<R: Print + AllocGlobal>(
    rt: &R,
    lines: &[Option<usize>],
    history: &[Entry],
) -> Result<(), CommandFault> {
    let alloc: Global = rt.alloc();
    let mut writer = BufWriter::new(alloc, io::writer(rt)).map_err(|_| AllocError)?;
    Ok(finish_json(alloc, &mut writer, lines, history)?)
}

/// Prints which answers aren't those that are expected, or how many were compared where all are.
pub fn print_json_comparison<R: Print + AllocGlobal>(
    rt: &R,
    expected: &[Expectation],
    lines: &[Option<usize>],
    history: &[Entry],
) -> Result<(), CommandFault> {
    let alloc: Global = rt.alloc();
    if differences(alloc, expected, lines, history)?.is_empty() {
        return print_json(rt, &expect_value(alloc, expected.len())?);
    }
    write_differences(alloc, &mut io::writer(rt), expected, lines, history)?;
    Err(CommandFault::Unexpected)
}

/// Prints who holds what, a line for each process, description, file object and path.
pub fn print_json_holders<R: Print + AllocGlobal>(
    rt: &R,
    held: &Snapshot,
) -> Result<(), CommandFault> {
    for value in &snapshot_values(rt.alloc(), held)? {
        print_json(rt, value)?;
    }
    Ok(())
}

/// Prints one value, as a line.
pub fn print_json<R: Print + AllocGlobal>(rt: &R, value: &Value) -> Result<(), CommandFault> {
    Ok(write_value(rt.alloc(), &mut io::writer(rt), value)?)
}
