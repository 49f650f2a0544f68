//! Lines that fork, begin a new program or change ids: what each asks for, and which are at fault.
use super::{expect_bad_lines, expect_fault, expect_faults, expect_request, repeated};
use std::alloc::Global;
use std::process::Abort;
use std::test::*;
use ux_syntax::{Act, Script, parse_script};
use ux_types::{Pid, Request};

#[test]
fn fork_and_exec_are_read(rt: HostRuntime) -> Result<(), Fail> {
    expect_request(&rt, rt.alloc(), "fork", Request::Fork)?;
    expect_request(&rt, rt.alloc(), "exec", Request::Exec)
}

#[test]
fn a_change_of_ids_is_read(rt: HostRuntime) -> Result<(), Fail> {
    let (uid, gid) = (1000, 100);
    expect_request(
        &rt,
        rt.alloc(),
        "setids 1000 100",
        Request::SetIds { uid, gid },
    )?;
    let (uid, gid) = (0, 4294967295);
    expect_request(
        &rt,
        rt.alloc(),
        "setids 0 4294967295",
        Request::SetIds { uid, gid },
    )
}

/// Calls with a word too many, or in other letters.
const BAD_CALLS: &[&str] = &[
    "fork x", "fork 0", "fork ", "Fork", "forks", "exec x", "exec 0", "exec ", "Exec", "execve",
];

#[test]
fn fork_and_exec_have_no_arguments(rt: HostRuntime) -> Result<(), Fail> {
    expect_bad_lines(&rt, rt.alloc(), "1 ", BAD_CALLS, "")
}

/// Lines behind two processes, and the fault of the script.
const FORKS_OF_OTHERS: &[(&str, &str)] = &[
    ("1 fork", ""),
    ("2 fork", "line 3: bad line"),
    ("3 fork", "line 3: bad line"),
    ("0 fork", "line 3: bad line"),
    ("4294967295 fork", "line 3: bad line"),
    ("1 fork\n3 fork", "line 4: bad line"),
    ("1 fork\n2 fork", "line 4: bad line"),
];

#[test]
fn a_fork_of_another_process_than_1_is_a_bad_line(rt: HostRuntime) -> Result<(), Fail> {
    let front = "proc 0 0 0 1\nproc 0 0 0 1\n";
    expect_faults(&rt, rt.alloc(), front, FORKS_OF_OTHERS)
}

/// Scripts without a process, and their faults.
const FORKS_OF_NONE: &[(&str, &str)] = &[
    ("1 fork", "line 1: bad line"),
    ("2 fork", "line 1: bad line"),
    ("object p:f pipe\n1 fork", "line 2: bad line"),
    ("1 exec", "line 1: unknown process"),
];

#[test]
fn a_fork_without_a_process_is_a_bad_line(rt: HostRuntime) -> Result<(), Fail> {
    expect_faults(&rt, rt.alloc(), "", FORKS_OF_NONE)
}

/// Lines behind one process, and the fault of the script.
const CHILDREN: &[(&str, &str)] = &[
    ("2 close 0\n1 fork", "line 2: unknown process"),
    ("1 fork\n2 close 0", ""),
    ("1 fork\n3 close 0", "line 3: unknown process"),
    ("1 fork\n3 close 0\n1 fork", "line 3: unknown process"),
    ("1 fork\n1 fork\n3 close 0\n2 close 0", ""),
    ("1 fork\n2 exec\n2 exit", ""),
    ("1 fork\n2 exit\n2 close 0", "line 4: bad line"),
    ("1 fork\n2 exit\n1 fork\n3 close 0", ""),
    ("1 fork\n2 exit\n1 fork\n2 close 0", "line 5: bad line"),
    ("1 fork\n1 exit\n2 close 0", ""),
];

#[test]
fn a_child_is_known_after_its_fork_line_and_not_before(rt: HostRuntime) -> Result<(), Fail> {
    expect_faults(&rt, rt.alloc(), "proc 0 0 0 1\n", CHILDREN)
}

/// Lines behind one process, of which the last waits, and the fault of the script.
const AWAITED_CHILDREN: &[(&str, &str)] = &[
    ("1 wait 2 0", "line 2: unknown process"),
    ("1 wait 2 0\n1 fork", "line 2: unknown process"),
    ("1 fork\n1 wait 2 0", ""),
    ("1 fork\n2 wait 1 1", ""),
    ("1 fork\n1 wait 3 0", "line 3: unknown process"),
    ("1 fork\n1 fork\n2 wait 3 0", ""),
    ("1 fork\n2 exit\n1 wait 2 0", ""),
];

#[test]
fn a_child_is_awaited_after_its_fork_line_and_not_before(rt: HostRuntime) -> Result<(), Fail> {
    expect_faults(&rt, rt.alloc(), "proc 0 0 0 1\n", AWAITED_CHILDREN)
}

/// Lines behind one process, of which the last forks too late or stands too late.
const LATE_FORKS: &[(&str, &str)] = &[
    ("1 exit\n1 fork", "line 3: bad line"),
    ("1 fork\n1 exit\n1 fork", "line 4: bad line"),
    ("off\n1 fork", "line 3: bad line"),
    ("1 fork\nproc 0 0 0 1", "line 3: bad line"),
    ("1 fork\nobject p:f pipe", "line 3: bad line"),
];

#[test]
fn a_fork_after_the_exit_of_its_process_or_after_off_is_a_bad_line(
    rt: HostRuntime,
) -> Result<(), Fail> {
    expect_faults(&rt, rt.alloc(), "proc 0 0 0 1\n", LATE_FORKS)
}

/// Sees the fault of a script of so many processes, so many forks, and this last line.
fn expect_fault_behind(
    rt: &impl Abort,
    alloc: Global,
    (procs, forks): (usize, usize),
    last: &str,
    fault: &str,
) -> Result<(), Fail> {
    let procs = repeated(alloc, "proc 0 0 0 1\n", procs)?;
    let forks = repeated(alloc, "1 fork\n", forks)?;
    let text = format!(in alloc; "{procs}{forks}{last}")?;
    expect_fault(rt, alloc, &text, fault)
}

#[test]
fn no_more_than_1024_processes_are_made(rt: HostRuntime) -> Result<(), Fail> {
    let alloc = rt.alloc();
    let bad = "line 1025: bad line";
    expect_fault_behind(&rt, alloc, (1, 1022), "1 fork", "")?;
    expect_fault_behind(&rt, alloc, (1, 1023), "1 fork", bad)?;
    expect_fault_behind(&rt, alloc, (1023, 0), "1 fork", "")?;
    expect_fault_behind(&rt, alloc, (1024, 0), "1 fork", bad)?;
    expect_fault_behind(&rt, alloc, (1, 1023), "1024 close 0", "")?;
    let unknown = "line 1025: unknown process";
    expect_fault_behind(&rt, alloc, (1, 1023), "1025 close 0", unknown)
}

/// Sees that the line at this place is this process's, and whether it forks.
fn expect_line(rt: &impl Abort, script: &Script, index: usize, pid: u32, forks: bool) {
    let Some(line) = script.lines.get(index) else {
        panic!(rt; "no line at {index}");
    };
    assert_eq!(rt; line.pid, Pid(pid), "at {index}");
    let found = matches!(line.act, Act::Call(Request::Fork));
    assert_eq!(rt; found, forks, "at {index}");
}

#[test]
fn a_script_keeps_its_forks_and_the_lines_of_children(rt: HostRuntime) -> Result<(), Fail> {
    let script = parse_script(rt.alloc(), b"proc 0 0 0 1\n1 fork\n2 exec\n1 exit")?;
    assert_eq!(rt; script.procs.len(), 1);
    assert_eq!(rt; script.lines.len(), 3);
    expect_line(&rt, &script, 0, 1, true);
    expect_line(&rt, &script, 1, 2, false);
    expect_line(&rt, &script, 2, 1, false);
    Ok(())
}
