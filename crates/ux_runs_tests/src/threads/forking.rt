//! Forks that are never made, one of another process than the first, and a script in which each process may fork.

use super::{RUNS, history_of, repeat};
use crate::beside::kernel_of;
use std::test::Fail;
use ux_syntax::{ScriptFault, parse_script};
use ux_threads::{NoGate, run_threads};
use ux_types::Pid;

/// A process waits for a child of the first.
const AWAITED: &str = "proc 1000 1000 0 16
proc 1000 1000 0 16
1 fork
2 wait 3 1
";

#[test]
fn a_wait_for_a_child_that_never_comes_returns(rt: HostRuntime) -> Result<(), Fail> {
    let alloc = rt.alloc();
    let mut script = parse_script(alloc, AWAITED.as_bytes())?;
    script.lines.retain(|line| line.pid != Pid(1));
    for _run in 0..RUNS {
        let mut trace = Vec::new(alloc);
        let entries = history_of(&rt, alloc, &script, &mut trace, &NoGate)?;
        assert!(rt; trace.as_slice() == b"0 1 0 exit = ok\n1 2 0 exit = ok\n".as_slice());
        repeat(&rt, alloc, &script, &entries, 2)?;
    }
    Ok(())
}

#[test]
fn a_fork_of_another_process_is_a_strangers(rt: HostRuntime) -> Result<(), Fail> {
    let alloc = rt.alloc();
    let mut script = parse_script(alloc, AWAITED.as_bytes())?;
    for line in script.lines.iter_mut() {
        line.pid = Pid(2);
    }
    let kernel = kernel_of(alloc, &script)?;
    let mut written: Vec<u8> = Vec::new(alloc);
    let reported = run_threads(&rt, alloc, &script, &mut written, kernel, &NoGate);
    assert!(rt; matches!(reported, Err(ScriptFault::Stranger)));
    assert!(rt; written.is_empty());
    Ok(())
}

/// A script that has one order alone.
const SERIAL: &str = "serial
proc 1000 1000 0 16
1 pair stream -
1 fork
2 fork
";

#[test]
fn a_serial_script_is_not_run_by_threads(rt: HostRuntime) -> Result<(), Fail> {
    let alloc = rt.alloc();
    let script = parse_script(alloc, SERIAL.as_bytes())?;
    let kernel = kernel_of(alloc, &script)?;
    let mut written: Vec<u8> = Vec::new(alloc);
    let reported = run_threads(&rt, alloc, &script, &mut written, kernel, &NoGate);
    assert!(rt; matches!(reported, Err(ScriptFault::OneOrder)));
    assert!(rt; written.is_empty());
    Ok(())
}
