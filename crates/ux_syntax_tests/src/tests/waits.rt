//! Lines that wait for a process: what each asks for, and which are at fault.
use super::{expect_bad_lines, expect_faults};
use std::process::Abort;
use std::test::*;
use ux_syntax::{Act, Line, Script, parse_script};
use ux_types::Pid;

/// Whether a line is of this process, and waits for this one and so many entries.
fn is_wait(line: &Line, pid: u32, wanted: (Pid, u32)) -> bool {
    match &line.act {
        Act::Wait(other, calls) => line.pid == Pid(pid) && (*other, *calls) == wanted,
        Act::Call(_) => false,
    }
}

/// Sees whose a line of a script is, for whom it waits, and for how many entries.
fn expect_wait(rt: &impl Abort, script: &Script, index: usize, pid: u32, wanted: (Pid, u32)) {
    let Some(line) = script.lines.get(index) else {
        panic!(rt; "no line at {index}");
    };
    assert!(rt; is_wait(line, pid, wanted), "at {index}");
}

/// Three waits beside a call: for another process, for itself and no entry, and for the greatest number.
const WAITS: &str =
    "proc 0 0 0 1\nproc 0 0 0 1\n2 wait 1 3\n1 wait 1 0\n1 close 0\n2 wait 1 4294967295\n";

#[test]
fn a_wait_is_read(rt: HostRuntime) -> Result<(), Fail> {
    let script = parse_script(rt.alloc(), WAITS.as_bytes())?;
    assert_eq!(rt; script.lines.len(), 4);
    expect_wait(&rt, &script, 0, 2, (Pid(1), 3));
    expect_wait(&rt, &script, 1, 1, (Pid(1), 0));
    expect_wait(&rt, &script, 3, 2, (Pid(1), 4294967295));
    Ok(())
}

/// Lines behind one process, of which the last waits for a process that isn't there, or is of one.
const WAITS_OF_STRANGERS: &[(&str, &str)] = &[
    ("1 wait 2 0", "line 2: unknown process"),
    ("1 wait 0 1", "line 2: unknown process"),
    ("1 wait 4294967295 1", "line 2: unknown process"),
    ("2 wait 1 1", "line 2: unknown process"),
    ("0 wait 0 1", "line 2: unknown process"),
    ("1 close 0\n\n1 wait 2 0", "line 4: unknown process"),
];

#[test]
fn a_wait_for_a_process_that_is_not_there_is_reported(rt: HostRuntime) -> Result<(), Fail> {
    expect_faults(&rt, rt.alloc(), "proc 0 0 0 1\n", WAITS_OF_STRANGERS)
}

/// Lines behind one process, of which the last waits behind the exit of a process.
const WAITS_BEHIND_EXITS: &[(&str, &str)] = &[
    ("1 exit\n1 wait 1 0", "line 3: bad line"),
    ("1 exit\n1 wait 2 0", "line 3: bad line"),
    (
        "proc 0 0 0 1\n2 exit\n1 wait 2 0\n2 wait 1 0",
        "line 5: bad line",
    ),
    ("proc 0 0 0 1\n2 exit\n1 wait 2 0\n1 exit", ""),
];

#[test]
fn a_wait_after_the_exit_of_its_process_is_a_bad_line(rt: HostRuntime) -> Result<(), Fail> {
    expect_faults(&rt, rt.alloc(), "proc 0 0 0 1\n", WAITS_BEHIND_EXITS)
}

/// Waits without two numbers.
const INCOMPLETE: &[&str] = &[
    "wait",
    "wait 1",
    "wait 1 ",
    "wait 1 0 0",
    "wait  1 0",
    "wait 1 -",
    "Wait 1 0",
];

#[test]
fn a_wait_has_two_numbers(rt: HostRuntime) -> Result<(), Fail> {
    expect_bad_lines(&rt, rt.alloc(), "1 ", INCOMPLETE, "")
}

/// Waits whose numbers aren't written as numbers are, or are too great.
const BAD_NUMBERS: &[&str] = &[
    "wait 01 0",
    "wait 1 00",
    "wait 1 01",
    "wait 4294967296 0",
    "wait 1 4294967296",
];

#[test]
fn a_wait_with_a_leading_zero_is_a_bad_line(rt: HostRuntime) -> Result<(), Fail> {
    expect_bad_lines(&rt, rt.alloc(), "1 ", BAD_NUMBERS, "")
}
