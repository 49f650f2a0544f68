//! Runs beside their scripts: each call with its line, and its answer beside the one that is expected.
ghost use Rattle.std.specs.Prelude.{◌≡◌, map, IfOk};
ghost use Rattle.ux_model.specs.Boot.{IsBootState, new_process};

use crate::serial::Fake;
use std::alloc::Global;
use std::process::Abort;
use std::sync::Wait;
use std::test::Fail;
use std::thread::Threads;
use ux_kernel::Kernel;
use ux_objects::Counter;
use ux_script::{differences, finish_echo, line_numbers, make_serial};
use ux_syntax::{Script, ScriptFault, expectations_of, parse_script};
use ux_threads::{NoGate, ThreadedRun, make_threads};
use ux_types::{Entry, Name};

/// A kernel of a script's processes, with a counter for each of its objects.
pub(crate) fn kernel_of(alloc: Global, script: &Script) -> Result<Kernel<Counter>, Fail>
    ensures boots { IfOk result (λ kernel. IsBootState kernel) }
    ensures processes { IfOk result (λ kernel. kernel.processes ≡ map new_process script.now.procs.items) }
{
    let mut objects: Vec<(Name, Counter)> = Vec::new(alloc);
    for line in &script.objects {
        objects.push((line.name.clone()?, Counter::new()))?;
    }
    match Kernel::boot(alloc, objects, &script.procs) {
        Ok(kernel) => Ok(kernel),
        Err(_) => Err(Fail::from("no kernel")),
    }
}

/// The history of a script whose lines are made in order.
pub(crate) fn serial_history(alloc: Global, script: &Script) -> Result<Vec<Entry>, Fail> {
    let kernel = kernel_of(alloc, script)?;
    Ok(make_serial(alloc, script, kernel)?)
}

/// The history of a script that threads run, to its end or to where all wait.
fn threads_history<R: Threads + Wait + Sync>(
    rt: &R,
    alloc: Global,
    script: &Script,
) -> Result<Vec<Entry>, Fail> {
    let kernel = kernel_of(alloc, script)?;
    match make_threads(rt, alloc, script, kernel, &NoGate) {
        Ok(ThreadedRun::Whole(entries)) => Ok(entries),
        Ok(ThreadedRun::Begun(entries, _waiting)) => Ok(entries),
        Err(_fault) => Err(Fail::from("a fault")),
    }
}

/// Sees the lines of a history beside its script.
fn expect_echo(
    rt: &impl Abort,
    alloc: Global,
    script: &Script,
    history: &[Entry],
    wanted: &str,
) -> Result<(), Fail> {
    let lines = line_numbers(alloc, script, history)?;
    let mut written: Vec<u8> = Vec::new(alloc);
    let reported = finish_echo(alloc, &mut written, &lines, history);
    assert!(rt; reported.is_ok() && written.as_slice() == wanted.as_bytes());
    Ok(())
}

/// Sees which answers of a history aren't those that its script's text expects.
fn expect_differences(
    rt: &impl Abort,
    alloc: Global,
    text: &str,
    script: &Script,
    history: &[Entry],
    wanted: &str,
) -> Result<(), Fail> {
    let expected = expectations_of(alloc, text.as_bytes())?;
    let lines = line_numbers(alloc, script, history)?;
    let reported = differences(alloc, &expected, &lines, history)?;
    assert!(rt; reported.as_slice() == wanted.as_bytes(), "{text}");
    Ok(())
}

/// Two processes, with comments, empty lines and waits among their lines. The first doesn't exit by itself, and the
/// layer is ended.
const TWO_PROCESSES: &str = "# Two.
proc 1000 1000 0 16

proc 1000 1000 0 16
2 socket dgram n
#= fd 0
1 wait 2 1
1 pair stream -
2 bind 0 a:x
2 exit
1 send 0 - 6f6b r:1 -
#= n 2
1 wait 2 3
1 close 7
off
";

/// It beside its script.
const ECHO: &str = "5 2 socket(dgram, n) = fd 0
8 1 pair(stream, -) = fds 0 1
9 2 bind(0, a:x) = ok
10 2 exit() = ok
11 1 send(0, -, \"ok\", r:1, -) = n 2
14 1 close(7) = err EBADF
- 1 exit() = ok
- 0 off() = ok
";

#[test]
fn each_call_has_the_number_of_its_line(rt: HostRuntime) -> Result<(), Fail> {
    let alloc = rt.alloc();
    let script = parse_script(alloc, TWO_PROCESSES.as_bytes())?;
    let history = serial_history(alloc, &script)?;
    expect_echo(&rt, alloc, &script, &history, ECHO)
}

/// Two threads, of which the first waits for the second's exit, and the second for the first's call.
const TAKING_TURNS: &str = "proc 1000 1000 0 16
proc 1000 1000 0 16
2 wait 1 1
2 pair seq -
#= fds 0 1
1 pair dgram -
#= fds 0 1
1 wait 2 2
1 close 0
#= ok
";

/// They beside their script: in the order of the calls, and not of the lines.
const ECHO_OF_TURNS: &str = "6 1 pair(dgram, -) = fds 0 1
4 2 pair(seq, -) = fds 0 1
- 2 exit() = ok
9 1 close(0) = ok
- 1 exit() = ok
";

#[test]
fn a_call_of_a_thread_has_its_process_line(rt: HostRuntime) -> Result<(), Fail> {
    let alloc = rt.alloc();
    let script = parse_script(alloc, TAKING_TURNS.as_bytes())?;
    let history = threads_history(&rt, alloc, &script)?;
    expect_echo(&rt, alloc, &script, &history, ECHO_OF_TURNS)?;
    expect_differences(&rt, alloc, TAKING_TURNS, &script, &history, "")
}

/// Scripts with the lines of what differs.
const COMPARED: &[(&str, &str)] = &[
    ("", ""),
    (TWO_PROCESSES, ""),
    ("proc 0 0 1 16\n1 pair stream -\n1 close 9\n", ""),
    (
        "proc 0 0 1 16\n1 pair stream -\n#= fds 0 1\n1 close 9\n#= ok\n",
        "line 4: expected ok, got err EBADF\n",
    ),
    (
        "proc 0 0 1 16\n1 pair stream -\n#= fds 1 0\n1 close 9\n1 close 0\n#= ok closed 0\n1 exit\n#= ok\n",
        "line 2: expected fds 1 0, got fds 0 1\nline 5: expected ok closed 0, got ok\n",
    ),
    (
        "object p:a counter\nproc 0 0 1 16\n1 open p:a rw -\n1 unlink p:a\n1 close 0\n#= ok\n",
        "line 5: expected ok, got ok closed 0\n",
    ),
    (
        "proc 0 0 1 16\n1 close 0\n#= err EBADF \n",
        "line 2: expected err EBADF , got err EBADF\n",
    ),
    (
        "proc 0 0 1 16\n1 fork\n#= child 2\n2 pair seq -\n#= fds 0 1\n1 pair seq -\n#= fds 2 3\n",
        "line 6: expected fds 2 3, got fds 0 1\n",
    ),
];

#[test]
fn what_answers_otherwise_is_reported_with_its_line(rt: HostRuntime) -> Result<(), Fail> {
    let alloc = rt.alloc();
    for (text, wanted) in COMPARED {
        let script = parse_script(alloc, text.as_bytes())?;
        let history = serial_history(alloc, &script)?;
        expect_differences(&rt, alloc, text, &script, &history, wanted)?;
    }
    Ok(())
}

/// A thread that reads what nobody writes.
const CUT_OFF: &str = "object p:a counter
proc 1000 1000 0 16
1 open p:a rw -
#= fd 0
1 read 0 8
#= bytes 0100000000000000
1 close 0
#= ok
";

const CUT_OFF_TOLD: &str = "line 5: expected bytes 0100000000000000, got nothing
line 7: expected ok, got nothing
";

#[test]
fn a_call_that_was_cut_off_answers_nothing(rt: HostRuntime) -> Result<(), Fail> {
    let alloc = rt.alloc();
    let script = parse_script(alloc, CUT_OFF.as_bytes())?;
    let history = threads_history(&rt, alloc, &script)?;
    expect_echo(
        &rt,
        alloc,
        &script,
        &history,
        "3 1 open(p:a, rw, -) = fd 0\n",
    )?;
    expect_differences(&rt, alloc, CUT_OFF, &script, &history, CUT_OFF_TOLD)
}

/// Sees that the write of this number may fail, and that the lines before it are written.
fn expect_cut(
    rt: &impl Abort,
    alloc: Global,
    lines: &[Option<usize>],
    history: &[Entry],
    fails_at: usize,
) {
    let mut writer = Fake::new(alloc, 100, fails_at);
    let reported = finish_echo(alloc, &mut writer, lines, history);
    assert!(rt; matches!(reported, Err(ScriptFault::Writing)));
    let taken = writer.taken.as_slice();
    let whole = taken.iter().filter(|byte| **byte == b'\n').count();
    assert_eq!(rt; whole, fails_at.saturating_sub(1));
    assert!(rt; taken.last().is_none_or(|byte| *byte == b'\n'));
    assert!(rt; ECHO.as_bytes().starts_with(taken));
}

#[test]
fn each_write_beside_a_script_may_fail(rt: HostRuntime) -> Result<(), Fail> {
    let alloc = rt.alloc();
    let script = parse_script(alloc, TWO_PROCESSES.as_bytes())?;
    let history = serial_history(alloc, &script)?;
    let lines = line_numbers(alloc, &script, &history)?;
    for fails_at in 1..9 {
        expect_cut(&rt, alloc, &lines, &history, fails_at);
    }
    Ok(())
}
