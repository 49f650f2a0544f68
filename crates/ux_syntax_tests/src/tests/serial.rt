//! The line `serial`: where it may stand, who may fork behind it, and how long the lines are there.
use super::{expect_fault, expect_faults, filled, repeated};
use std::alloc::Global;
use std::process::Abort;
use std::test::*;
use ux_syntax::{Act, parse_script};
use ux_types::Request;

/// Scripts with the line at each place, and their faults.
const PLACES: &[(&str, &str)] = &[
    ("serial", ""),
    ("serial\n", ""),
    ("serial\noff\n", ""),
    (
        "serial\n# more\nobject p:f pipe\nproc 0 0 0 1\n1 exit\noff\n",
        "",
    ),
    ("\n# a comment\n\nserial\nproc 0 0 0 1\n", ""),
    ("serial\nserial", "line 2: bad line"),
    ("serial\nproc 0 0 0 1\nserial", "line 3: bad line"),
    ("proc 0 0 0 1\nserial", "line 2: bad line"),
    ("object p:f pipe\nserial", "line 2: bad line"),
    ("proc 0 0 0 1\n1 close 0\nserial", "line 3: bad line"),
    ("off\nserial", "line 2: bad line"),
    ("serial\n1 close 0", "line 2: unknown process"),
    ("serial\noff\n1 close 0", "line 3: bad line"),
];

#[test]
fn the_line_comes_first(rt: HostRuntime) -> Result<(), Fail> {
    expect_faults(&rt, rt.alloc(), "", PLACES)
}

/// Lines that are not that line.
const OTHERS: &[(&str, &str)] = &[
    ("serial ", "line 1: bad line"),
    ("serial x", "line 1: bad line"),
    ("serial 1", "line 1: bad line"),
    ("serial serial", "line 1: bad line"),
    (" serial", "line 1: bad line"),
    ("serial\r\n", "line 1: bad line"),
    ("Serial", "line 1: bad line"),
    ("serials", "line 1: bad line"),
    ("seria", "line 1: bad line"),
    ("1 serial", "line 1: bad line"),
];

#[test]
fn the_line_is_one_word(rt: HostRuntime) -> Result<(), Fail> {
    expect_faults(&rt, rt.alloc(), "", OTHERS)
}

#[test]
fn a_script_keeps_whether_it_has_the_line(rt: HostRuntime) -> Result<(), Fail> {
    let with = parse_script(rt.alloc(), b"# one order\nserial\nproc 0 0 0 1\n1 exit")?;
    let without = parse_script(rt.alloc(), b"# serial\nproc 0 0 0 1\n1 exit")?;
    assert!(rt; with.serial && with.procs.len() == 1 && with.lines.len() == 1);
    assert!(rt; !without.serial);
    // How long a further line may be, as the page of uxrun says.
    assert!(rt; with.line_limit() == 200_000 && without.line_limit() == 4096);
    Ok(())
}

/// Lines, and whether each asks for an exit, for a fork, and for a call that stands only behind that line.
const ASKED: &[(&str, bool, bool, bool)] = &[
    ("1 exit", true, false, false),
    ("1 fork", false, true, false),
    ("1 create p:f rw -", false, false, true),
    ("1 memfd -", false, false, true),
    ("1 eventfd 0 -", false, false, true),
    ("1 eventfd 0 s", false, false, true),
    ("1 pipe -", false, false, true),
    ("1 dupfd 0 3", false, false, true),
    ("1 getfl 0", false, false, true),
    ("1 inq 0", false, false, true),
    ("1 outq 0", false, false, true),
    ("1 setids 0 0", false, false, true),
    ("1 open p:f rw -", false, false, false),
    ("1 pair stream -", false, false, false),
    ("1 dup 0", false, false, false),
    ("1 exec", false, false, false),
    ("1 wait 1 0", false, false, false),
];

/// Sees what the one line behind a process asks for.
fn expect_asked(
    rt: &impl Abort,
    alloc: Global,
    line: &str,
    wanted: (bool, bool, bool),
) -> Result<(), Fail> {
    let text = format!(in alloc; "serial\nproc 0 0 0 1\n{line}")?;
    let script = parse_script(alloc, text.as_bytes())?;
    assert_eq!(rt; script.lines.len(), 1);
    for read in &script.lines {
        let act = &read.act;
        let asked = (act.asks_exit(), act.asks_fork(), act.asks_recorded());
        assert!(rt; asked == wanted, "{line}");
    }
    Ok(())
}

#[test]
fn exits_forks_and_calls_of_one_order_are_told_apart(rt: HostRuntime) -> Result<(), Fail> {
    for (line, exits, forks, recorded) in ASKED {
        expect_asked(&rt, rt.alloc(), line, (*exits, *forks, *recorded))?;
    }
    Ok(())
}

/// Lines behind that line and two processes, and the fault of the script.
const FORKS: &[(&str, &str)] = &[
    ("1 fork", ""),
    ("2 fork", ""),
    ("2 fork\n3 fork\n4 fork\n5 close 0", ""),
    ("1 fork\n2 fork\n3 close 0\n4 close 0", ""),
    ("1 exit\n2 fork\n3 close 0", ""),
    ("2 fork\n1 wait 3 0", ""),
    ("0 fork", "line 4: bad line"),
    ("3 fork", "line 4: bad line"),
    ("4294967295 fork", "line 4: bad line"),
    ("2 fork\n4 fork", "line 5: bad line"),
    ("2 fork\n4 close 0", "line 5: unknown process"),
    ("2 fork\n1 wait 4 0", "line 5: unknown process"),
    ("2 exit\n2 fork", "line 5: bad line"),
    ("1 exit\n1 fork", "line 5: bad line"),
    ("2 fork\n3 exit\n3 fork", "line 6: bad line"),
    ("2 fork\nserial", "line 5: bad line"),
    ("2 fork\nproc 0 0 0 1", "line 5: bad line"),
    ("off\n2 fork", "line 5: bad line"),
    ("2 fork x", "line 4: bad line"),
];

#[test]
fn each_process_may_fork(rt: HostRuntime) -> Result<(), Fail> {
    let front = "serial\nproc 0 0 0 1\nproc 0 0 0 1\n";
    expect_faults(&rt, rt.alloc(), front, FORKS)
}

/// Lines behind that line and a process, of calls that stand only there, and the fault of the script.
const RECORDED: &[(&str, &str)] = &[
    ("1 dupfd 0 3", ""),
    ("1 dupfd 4294967295 4294967295", ""),
    ("1 getfl 0", ""),
    ("1 dupfd 0", "line 3: bad line"),
    ("1 dupfd 0 1 2", "line 3: bad line"),
    ("1 dupfd 0 -", "line 3: bad line"),
    ("1 dupfd 0 03", "line 3: bad line"),
    ("1 getfl", "line 3: bad line"),
    ("1 getfl 0 0", "line 3: bad line"),
    ("2 getfl 0", "line 3: unknown process"),
    ("1 exit\n1 getfl 0", "line 4: bad line"),
    ("1 inq 4294967295", ""),
    ("1 inq", "line 3: bad line"),
    ("1 inq 0 0", "line 3: bad line"),
    ("1 inq -", "line 3: bad line"),
    ("1 outq 0", ""),
    ("1 outq", "line 3: bad line"),
    ("1 outq 00", "line 3: bad line"),
    ("1 outqs 0", "line 3: bad line"),
    ("2 outq 0", "line 3: unknown process"),
    ("1 exit\n1 inq 0", "line 4: bad line"),
    ("1 setids 0 0", ""),
    ("1 setids 4294967295 4294967295", ""),
    ("1 setids", "line 3: bad line"),
    ("1 setids 0", "line 3: bad line"),
    ("1 setids 0 0 0", "line 3: bad line"),
    ("1 setids 0 -", "line 3: bad line"),
    ("1 setids - 0", "line 3: bad line"),
    ("1 setids 00 0", "line 3: bad line"),
    ("1 setids 0 4294967296", "line 3: bad line"),
    ("1 setids 4294967296 0", "line 3: bad line"),
    ("1 setid 0 0", "line 3: bad line"),
    ("2 setids 0 0", "line 3: unknown process"),
    ("1 exit\n1 setids 0 0", "line 4: bad line"),
];

/// The same behind a process alone.
const NOT_RECORDED: &[(&str, &str)] = &[
    ("1 dupfd 0 3", "line 2: bad line"),
    ("1 getfl 0", "line 2: bad line"),
    ("2 getfl 0", "line 2: bad line"),
    ("1 inq 0", "line 2: bad line"),
    ("1 outq 0", "line 2: bad line"),
    ("1 setids 0 0", "line 2: bad line"),
    ("2 setids 0 0", "line 2: bad line"),
    ("1 dup 0\n1 dupfd 0 3", "line 3: bad line"),
];

#[test]
fn some_calls_stand_behind_the_line_alone(rt: HostRuntime) -> Result<(), Fail> {
    let alloc = rt.alloc();
    expect_faults(&rt, alloc, "serial\nproc 0 0 0 1\n", RECORDED)?;
    expect_faults(&rt, alloc, "proc 0 0 0 1\n", NOT_RECORDED)
}

/// How many forks process 1 makes, a fork of another behind them, and the fault of the script.
const LAST_FORKS: &[(usize, &str, &str)] = &[
    (1022, "1023 fork\n1024 close 0", ""),
    (1022, "1023 fork\n1024 fork", "line 1026: bad line"),
    (1023, "2 fork", "line 1026: bad line"),
];

#[test]
fn no_more_than_1024_processes_are_made_by_all(rt: HostRuntime) -> Result<(), Fail> {
    let alloc = rt.alloc();
    for (count, last, fault) in LAST_FORKS {
        let forks = repeated(alloc, "1 fork\n", *count)?;
        let text = format!(in alloc; "serial\nproc 0 0 0 1\n{forks}{last}")?;
        let reported = super::fault_of(alloc, text.as_bytes())?;
        assert_eq!(rt; reported.as_str(), *fault);
    }
    Ok(())
}

/// Sees the fault of a script of these lines and one that begins so and is filled up to so many bytes, and of these.
fn expect_fault_of_length(
    rt: &impl Abort,
    alloc: Global,
    (before, front, count): (&str, &str, usize),
    behind: &str,
    fault: &str,
) -> Result<(), Fail> {
    let line = filled(alloc, front, '1', count)?;
    let text = format!(in alloc; "{before}{line}{behind}")?;
    expect_fault(rt, alloc, &text, fault)
}

/// The lines before a line, how it begins, how many bytes it has, the lines behind it, and the fault.
const LENGTHS: &[(&str, &str, usize, &str, &str)] = &[
    ("serial\n", "#", 4097, "\n", ""),
    ("serial\n", "#", 200_000, "\n", ""),
    ("serial\n", "#", 200_000, "", ""),
    ("serial\n", "#", 200_001, "\n", "line 2: too long"),
    ("serial\n", "#", 200_001, "", "line 2: too long"),
    ("serial\n", "1 close ", 200_000, "\n", "line 2: bad line"),
    ("serial\n", "1 close ", 200_001, "\n", "line 2: too long"),
    ("", "#", 4096, "\nserial\n", ""),
    ("", "#", 4097, "\nserial\n", "line 1: too long"),
    ("", "serial ", 4097, "\n", "line 1: too long"),
    (
        "proc 0 0 0 1\n",
        "#",
        4097,
        "\nserial\n",
        "line 2: too long",
    ),
    ("# serial\n", "#", 4097, "\n", "line 2: too long"),
    ("serial\nproc 0 0 0 1\n1 exit\noff\n", "#", 4097, "\n#", ""),
];

#[test]
fn a_line_behind_it_has_200000_bytes_at_most(rt: HostRuntime) -> Result<(), Fail> {
    for (before, front, count, behind, fault) in LENGTHS {
        let line = (*before, *front, *count);
        expect_fault_of_length(&rt, rt.alloc(), line, behind, fault)?;
    }
    Ok(())
}

/// How many bytes a send of a script has.
fn bytes_sent(alloc: Global, text: &str) -> Result<usize, Fail> {
    let mut script = parse_script(alloc, text.as_bytes())?;
    let line = script.lines.pop().ok_or("no line")?;
    match line.act {
        Act::Call(Request::SendMsg { bytes, .. }) => Ok(bytes.len()),
        _ => Err(Fail::from("no send")),
    }
}

#[test]
fn a_send_of_65536_bytes_is_read(rt: HostRuntime) -> Result<(), Fail> {
    let alloc = rt.alloc();
    let send = "1 send 0 - ";
    let line = filled(alloc, send, '0', send.len() + 131_072)?;
    let text = format!(in alloc; "serial\nproc 0 0 0 1\n{line} r:0 -")?;
    assert_eq!(rt; bytes_sent(alloc, &text)?, 65_536);
    Ok(())
}
