//! Runs by examples, and with writers that fail. Scripts with file objects have their traces in `examples/`.
ghost use Rattle.std.specs.Prelude.{Some};

use hoard::Purse;
use std::alloc::Global;
use std::io;
use std::io::Write;
use std::process::Abort;
use std::test::Fail;
use ux_kernel::{Kernel, Seed};
use ux_objects::Counter;
use ux_script::{objects_of, run_serial, write_trace};
use ux_syntax::{Act, Line, Script, ScriptFault, parse_script};
use ux_types::{Entry, Name, Pid, Request};

const SEND_AND_RECEIVE: (&str, &str) = (
    "proc 1000 1000 0 16\n1 pair stream -\n1 send 0 - 6869 - -\n1 recv 1 8 0 -\n",
    "0 1 0 pair = fds 0 1\n1 1 1 send = n 2\n2 1 2 recv = got 2 6869 - - -\n3 1 3 exit = ok\n",
);

const PEEK_RESET_AND_BROKEN_PIPE: (&str, &str) = (
    "proc 1000 1000 0 16
1 pair stream -
1 send 0 - 6162 - -
1 recv 1 1 0 p
1 recv 1 8 0 -
1 recv 1 8 0 -
1 send 0 - - - -
1 recv 1 0 0 -
1 send 0 - 78 - -
1 close 1
1 recv 0 8 0 -
1 recv 0 8 0 -
1 send 0 - 78 - -
1 close 0
1 close 0
",
    "0 1 0 pair = fds 0 1
1 1 1 send = n 2
2 1 2 recv = got 1 61 - - -
3 1 3 recv = got 2 6162 - - -
4 1 4 recv = err EAGAIN
5 1 5 send = n 0
6 1 6 recv = got 0 - - - -
7 1 7 send = n 1
8 1 8 close = ok
9 1 9 recv = err ECONNRESET
10 1 10 recv = got 0 - - - -
11 1 11 send = err EPIPE
12 1 12 close = ok
13 1 13 close = err EBADF
14 1 14 exit = ok
",
);

/// The exits that a script leaves out come last, by rising process number.
const TWO_PROCESSES: (&str, &str) = (
    "# The second process ends by itself.
proc 0 0 1 16
proc 1000 1000 0 16

2 pair stream n
2 exit
1 pair stream x
",
    "0 2 0 pair = fds 0 1
1 2 1 exit = ok
2 1 0 pair = fds 0 1
3 1 1 exit = ok
",
);

/// The same with waits, one of which is never over.
const TWO_PROCESSES_THAT_WAIT: &str = "proc 0 0 1 16
proc 1000 1000 0 16
1 wait 2 2
2 wait 2 0
2 pair stream n
2 wait 1 99
2 exit
1 pair stream x
1 wait 2 0
";

/// The end of the layer is an entry of process 0, behind the exits that a script leaves out.
const ENDED_LAYER: (&str, &str) = (
    "proc 1000 1000 0 16
off
",
    "0 1 0 exit = ok
1 0 0 off = ok
",
);

/// The number of a child is the next that no process has, whoever forks: one of a child and of a grandchild, too.
const FORKS_OF_CHILDREN: (&str, &str) = (
    "serial
proc 1000 1000 0 16
1 pair stream -
1 fork
2 fork
3 fork
4 send 0 - 6869 - -
3 recv 1 8 0 -
2 fork
5 close 0
1 fork
6 exit
",
    "0 1 0 pair = fds 0 1
1 1 1 fork = child 2
2 2 0 fork = child 3
3 3 0 fork = child 4
4 4 0 send = n 2
5 3 1 recv = got 2 6869 - - -
6 2 1 fork = child 5
7 5 0 close = ok
8 1 2 fork = child 6
9 6 0 exit = ok
10 1 3 exit = ok
11 2 2 exit = ok
12 3 2 exit = ok
13 4 1 exit = ok
14 5 1 exit = ok
",
);

/// Holds what it took. It takes at most `most` bytes a call, and fails at the write of the number
/// `fails_at`, counted from 1, or at a flush.
#[derive(Drop)]
pub(crate) struct Fake {
    pub(crate) taken: Vec<u8>,
    most: usize,
    fails_at: usize,
    writes: usize,
    fails_to_flush: bool,
    /// Whether every other write is interrupted.
    interrupted: bool,
}

impl Fake {
    pub(crate) fn new(alloc: Global, most: usize, fails_at: usize) -> Fake {
        Fake {
            taken: Vec::new(alloc),
            most,
            fails_at,
            writes: 0,
            fails_to_flush: false,
            interrupted: false,
        }
    }
}

impl Write for Fake {
    ghost contents = { λ w. Some w.taken.items };

    fn write(&mut self, buf: &[u8]) -> io::Result<usize> {
        self.writes = self.writes.saturating_add(1);
        if self.interrupted && self.writes % 2 == 1 {
            return Err(io::Error::from(io::ErrorKind::Interrupted));
        }
        if self.writes == self.fails_at {
            return Err(io::Error::from(io::ErrorKind::BrokenPipe));
        }
        let count = buf.len().min(self.most);
        self.taken.extend_from_slice(&buf[..count])?;
        Ok(count)
    }

    fn flush(&mut self) -> io::Result<()> {
        if self.fails_to_flush {
            return Err(io::Error::from(io::ErrorKind::BrokenPipe));
        }
        Ok(())
    }
}

/// Runs a text, which asks for no file objects.
fn run<W: Write>(alloc: Global, text: &str, writer: &mut W) -> Result<Vec<Entry>, ScriptFault> {
    let script = parse_script(alloc, text.as_bytes())?;
    run_over(alloc, &script, writer)
}

/// Runs a script over no file objects.
fn run_over<W: Write>(
    alloc: Global,
    script: &Script,
    writer: &mut W,
) -> Result<Vec<Entry>, ScriptFault> {
    let objects: Vec<(Name, Counter)> = Vec::new(alloc);
    match Kernel::boot(alloc, objects, &script.procs) {
        Ok(kernel) => run_serial(alloc, script, writer, kernel),
        Err(_) => Err(ScriptFault::NoMemory),
    }
}

/// Whether a script has its trace, with a line for each entry.
fn check_trace(rt: &impl Abort, alloc: Global, row: (&str, &str)) -> Result<(), Fail> {
    let (script, trace) = row;
    let mut written: Vec<u8> = Vec::new(alloc);
    let entries = run(alloc, script, &mut written)?;
    assert_eq!(rt; written.as_slice(), trace.as_bytes());
    assert_eq!(rt; entries.len(), trace.lines().count());
    Ok(())
}

/// Scripts with their traces.
const TRACES: &[(&str, &str)] = &[
    SEND_AND_RECEIVE,
    PEEK_RESET_AND_BROKEN_PIPE,
    TWO_PROCESSES,
    ENDED_LAYER,
    FORKS_OF_CHILDREN,
    ("serial\n", ""),
    ("", ""),
];

#[test]
fn scripts_have_their_traces(rt: HostRuntime) -> Result<(), Fail> {
    for row in TRACES {
        check_trace(&rt, rt.alloc(), *row)?;
    }
    Ok(())
}

#[test]
fn a_script_with_waits_has_the_trace_of_the_script_without_them(
    rt: HostRuntime,
) -> Result<(), Fail> {
    check_trace(&rt, rt.alloc(), (TWO_PROCESSES_THAT_WAIT, TWO_PROCESSES.1))
}

/// A process that may have more descriptors than there can be, and duplicates one until it has all.
const MOST_DESCRIPTORS: usize = 4096;

#[test]
fn a_process_has_4096_descriptors_at_most(rt: HostRuntime) -> Result<(), Fail> {
    let alloc = rt.alloc();
    let mut script = String::new(alloc);
    let mut trace = String::new(alloc);
    script.push_str("proc 0 0 1 5000\n1 pair stream -\n")?;
    trace.push_str("0 1 0 pair = fds 0 1\n")?;
    for entry in 1..MOST_DESCRIPTORS - 1 {
        let number = entry + 1;
        script.push_str("1 dup 0\n")?;
        trace.push_str(&format!(in alloc; "{entry} 1 {entry} dup = fd {number}\n")?)?;
    }
    script.push_str("1 dup 0\n")?;
    trace.push_str("4095 1 4095 dup = err EMFILE\n4096 1 4096 exit = ok\n")?;
    check_trace(&rt, alloc, (script.as_str(), trace.as_str()))
}

/// As many file objects as there may be behind a line `serial`.
const MOST_OBJECTS: usize = 4096;

/// Runs a text over its file objects.
fn run_with_objects<W: Write>(
    alloc: Global,
    text: &str,
    writer: &mut W,
) -> Result<Vec<Entry>, ScriptFault> {
    let script = parse_script(alloc, text.as_bytes())?;
    let objects = objects_of(alloc, &script, false)?;
    let most = script.object_limit();
    match Kernel::boot_with_seed(alloc, Seed::fixed(), most, objects, &script.procs) {
        Ok(kernel) => run_serial(alloc, &script, writer, kernel),
        Err(_) => Err(ScriptFault::NoMemory),
    }
}

/// Lines made of a text for each file object's number, from 0 on, each with this in front and that behind.
fn push_numbered(text: &mut String, alloc: Global, front: &str, behind: &str) -> Result<(), Fail> {
    for number in 0..MOST_OBJECTS {
        text.push_str(&format!(in alloc; "{front}{number}{behind}")?)?;
    }
    Ok(())
}

/// A process opens each of as many files as there may be, all their paths go, and all files with its exit.
#[test]
fn an_exit_closes_4096_objects(rt: HostRuntime) -> Result<(), Fail> {
    let alloc = rt.alloc();
    let mut script = String::new(alloc);
    script.push_str("serial\nproc 0 0 1 4096\n")?;
    push_numbered(&mut script, alloc, "object p:f", " mem -\n")?;
    push_numbered(&mut script, alloc, "1 open p:f", " r -\n")?;
    push_numbered(&mut script, alloc, "1 unlink p:f", "\n")?;
    let mut last = String::new(alloc);
    last.push_str("\n8192 1 8192 exit = ok closed")?;
    push_numbered(&mut last, alloc, " ", "")?;
    last.push_str("\n")?;
    let mut written: Vec<u8> = Vec::new(alloc);
    let entries = run_with_objects(alloc, script.as_str(), &mut written)?;
    assert_eq!(rt; entries.len(), 2 * MOST_OBJECTS + 1);
    assert!(rt; written.as_slice().ends_with(last.as_str().as_bytes()));
    Ok(())
}

/// Sees that a script has this fault, and that nothing of it is written.
fn expect_fault(rt: &impl Abort, alloc: Global, script: &str, text: &str) -> Result<(), Fail> {
    let mut written: Vec<u8> = Vec::new(alloc);
    let fault = run(alloc, script, &mut written).err().ok_or("a run")?;
    let reported = fault.to_string(alloc)?;
    assert_eq!(rt; reported.as_str(), text);
    assert!(rt; written.is_empty());
    Ok(())
}

/// Faulty scripts, and what is reported of each.
const FAULTS: &[(&str, &str)] = &[
    ("1 read 0\n", "line 1: bad line"),
    ("1 read 0 4\n", "line 1: unknown process"),
    ("1 close", "line 1: bad line"),
    ("1 close 0", "line 1: unknown process"),
];

#[test]
fn a_faulty_script_runs_nothing(rt: HostRuntime) -> Result<(), Fail> {
    for (script, text) in FAULTS {
        expect_fault(&rt, rt.alloc(), script, text)?;
    }
    Ok(())
}

/// Sees that a run reports a failed write.
fn expect_failure(rt: &impl Abort, alloc: Global, script: &str, writer: &mut Fake) {
    let reported = run(alloc, script, writer);
    assert!(rt; matches!(reported, Err(ScriptFault::Writing)));
}

/// How many lines were written whole.
fn whole_lines(written: &[u8]) -> usize {
    let mut lines: usize = 0;
    for byte in written {
        if *byte == b'\n' {
            lines = lines.saturating_add(1);
        }
    }
    lines
}

/// Sees that the write of this number may fail, and that the lines before it are written.
fn expect_cut(rt: &impl Abort, alloc: Global, fails_at: usize) {
    let (script, trace) = PEEK_RESET_AND_BROKEN_PIPE;
    let mut writer = Fake::new(alloc, 100, fails_at);
    expect_failure(rt, alloc, script, &mut writer);
    let taken = writer.taken.as_slice();
    assert!(rt; trace.as_bytes().starts_with(taken));
    assert_eq!(rt; whole_lines(taken), fails_at.saturating_sub(1));
    assert!(rt; taken.is_empty() || taken.ends_with(b"\n"));
}

#[test]
fn each_write_may_fail(rt: HostRuntime) {
    let lines = PEEK_RESET_AND_BROKEN_PIPE.1.lines().count();
    for fails_at in 1..lines.saturating_add(1) {
        expect_cut(&rt, rt.alloc(), fails_at);
    }
}

/// Sees that a writer has a whole trace in the end.
fn expect_whole(rt: &impl Abort, alloc: Global, mut writer: Fake) -> Result<(), Fail> {
    let (script, trace) = PEEK_RESET_AND_BROKEN_PIPE;
    run(alloc, script, &mut writer)?;
    assert_eq!(rt; writer.taken.as_slice(), trace.as_bytes());
    Ok(())
}

#[test]
fn a_writer_may_take_a_byte_a_call(rt: HostRuntime) -> Result<(), Fail> {
    expect_whole(&rt, rt.alloc(), Fake::new(rt.alloc(), 1, 0))
}

#[test]
fn a_writer_that_takes_nothing_fails(rt: HostRuntime) {
    let mut stuck = Fake::new(rt.alloc(), 0, 0);
    expect_failure(&rt, rt.alloc(), PEEK_RESET_AND_BROKEN_PIPE.0, &mut stuck);
    assert!(rt; stuck.taken.is_empty());
}

#[test]
fn a_write_that_is_interrupted_is_made_again(rt: HostRuntime) -> Result<(), Fail> {
    let mut writer = Fake::new(rt.alloc(), 5, 0);
    writer.interrupted = true;
    expect_whole(&rt, rt.alloc(), writer)
}

#[test]
fn what_is_not_flushed_was_not_written(rt: HostRuntime) {
    let mut writer = Fake::new(rt.alloc(), 100, 0);
    writer.fails_to_flush = true;
    expect_failure(&rt, rt.alloc(), SEND_AND_RECEIVE.0, &mut writer);
}

/// The steps in which more memory is left, of 16 bytes each.
const STEPS: usize = 3800;

/// Writes a trace with no memory, and with 16 bytes more while that is refused: what was written then is a
/// beginning of it. Tells how often it was refused.
fn refusals_of(
    rt: &impl Abort,
    alloc: Global,
    history: &[Entry],
    trace: &[u8],
) -> Result<usize, Fail> {
    let mut purse = Purse::new(alloc)?;
    let mut written: Vec<u8> = Vec::with_capacity(alloc, 4096)?;
    for step in 0..STEPS {
        written.clear();
        purse.leave(alloc, step.saturating_mul(16));
        let reported = write_trace(alloc, &mut written, history);
        purse.open();
        match reported {
            Ok(()) => {
                assert!(rt; written.as_slice() == trace);
                return Ok(step);
            }
            Err(fault) => assert!(rt; matches!(fault, ScriptFault::NoMemory)),
        }
        assert!(rt; trace.starts_with(written.as_slice()) && written.len() < trace.len());
    }
    Err(Fail::from("refused with 60 KiB"))
}

#[test]
fn a_trace_that_is_refused_memory_is_begun(rt: HostRuntime) -> Result<(), Fail> {
    let alloc = rt.alloc();
    let (script, trace) = SEND_AND_RECEIVE;
    let mut written: Vec<u8> = Vec::new(alloc);
    let history = run(alloc, script, &mut written)?;
    assert!(rt; refusals_of(&rt, alloc, &history, trace.as_bytes())? > 0);
    Ok(())
}

#[test]
fn a_call_of_nobody_is_a_stranger(rt: HostRuntime) -> Result<(), Fail> {
    let alloc = rt.alloc();
    let mut script = Script {
        serial: false,
        objects: Vec::new(alloc),
        procs: Vec::new(alloc),
        lines: Vec::new(alloc),
        off: false,
    };
    script.lines.push(Line {
        pid: Pid(1),
        act: Act::Call(Request::Exit),
        number: 1,
    })?;
    let mut written: Vec<u8> = Vec::new(alloc);
    let reported = run_over(alloc, &script, &mut written);
    assert!(rt; matches!(reported, Err(ScriptFault::Stranger)));
    assert!(rt; written.is_empty());
    Ok(())
}
