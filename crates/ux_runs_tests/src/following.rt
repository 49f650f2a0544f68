//! Scripts that are run as they come: what is written, which lines are left out, and where a run ends.

use crate::beside::kernel_of;
use crate::serial::Fake;
use std::alloc::Global;
use std::io;
use std::io::Write;
use std::process::Abort;
use std::test::Fail;
use ux_script::{Followed, LineSource, Listener, follow, read_header};
use ux_syntax::{LineReader, ScriptFault};

/// Keeps what is reported of lines that are left out, a line each.
#[derive(Drop)]
struct Reports {
    text: String,
}

impl Listener for Reports {
    fn taken(&mut self, _text: &[u8]) {}

    fn left_out(&mut self, _taken: &LineReader, _text: &[u8], fault: &ScriptFault) {
        let _ = self.text.push_str(match fault {
            ScriptFault::BadLine(7) => "7 is bad\n",
            ScriptFault::BadLine(9) => "9 is bad\n",
            ScriptFault::UnknownProcess(5) => "5 has no process\n",
            ScriptFault::TooLong(3) => "3 is too long\n",
            _ => "another\n",
        });
    }
}

/// Runs a text as it comes, whose header is read.
fn run<W: Write>(
    alloc: Global,
    text: &[u8],
    writer: &mut W,
    reported: &mut Reports,
) -> Result<Result<Followed, ScriptFault>, Fail> {
    let mut source = LineSource::new(text);
    let reader = read_header(alloc, &mut source, reported)?;
    let kernel = kernel_of(alloc, reader.script())?;
    Ok(follow(alloc, reader, &mut source, writer, reported, kernel))
}

/// Sees what is written of a text, and what is reported of its lines.
fn expect(
    rt: &impl Abort,
    alloc: Global,
    text: &str,
    trace: &str,
    faults: &str,
) -> Result<(), Fail> {
    let mut written: Vec<u8> = Vec::new(alloc);
    let mut reported = Reports {
        text: String::new(alloc),
    };
    let run = run(alloc, text.as_bytes(), &mut written, &mut reported)??;
    assert!(rt; written.as_slice() == trace.as_bytes(), "{text}");
    assert!(rt; reported.text.as_str() == faults, "{text}");
    assert_eq!(rt; run.history.len(), trace.lines().count());
    Ok(())
}

/// A session of two processes: the third line to the ninth have one that names no process, one that is no call, and a
/// header's line behind the header. Blanks, and a comment behind a call, are as people type them.
const SESSION: &str = "proc 1000 1000 0 16
# a comment
proc 1000 1000 0 16
  1 pair   stream -
3 close 0
1 send 0 - 6f6b - -\t# two bytes
1 sand 0
1 recv 1 64 0 -
proc 1000 1000 0 16
2 wait 1 2
2 exit
1 close 1
";

const SESSION_TRACE: &str = "0 1 0 pair = fds 0 1
1 1 1 send = n 2
2 1 2 recv = got 2 6f6b - - -
3 2 0 exit = ok
4 1 3 close = ok
5 1 4 exit = ok
";

#[test]
fn a_line_at_fault_is_reported_and_left_out(rt: HostRuntime) -> Result<(), Fail> {
    let faults = "5 has no process\n7 is bad\n9 is bad\n";
    expect(&rt, rt.alloc(), SESSION, SESSION_TRACE, faults)
}

/// Scripts and their traces: with an end of the layer, with a fork, with a last line that has no line feed, with no call,
/// and with nothing.
const WHOLE: &[(&str, &str)] = &[
    (
        "proc 0 0 1 4\n1 socket seq x\noff\n",
        "0 1 0 socket = fd 0\n1 1 1 exit = ok\n2 0 0 off = ok\n",
    ),
    (
        "serial\nproc 0 0 1 4\n1 fork\n2 fork\n3 close 0\n1 exit",
        "0 1 0 fork = child 2\n1 2 0 fork = child 3\n2 3 0 close = err EBADF\n3 1 1 exit = ok\n\
         4 2 1 exit = ok\n5 3 1 exit = ok\n",
    ),
    ("proc 0 0 1 4\n\n", "0 1 0 exit = ok\n"),
    ("off", "0 0 0 off = ok\n"),
    ("", ""),
];

#[test]
fn a_whole_script_is_run_as_at_once(rt: HostRuntime) -> Result<(), Fail> {
    for (text, trace) in WHOLE {
        expect(&rt, rt.alloc(), text, trace, "")?;
    }
    Ok(())
}

#[test]
fn what_comes_behind_the_end_is_left_out(rt: HostRuntime) -> Result<(), Fail> {
    let text = "off\n# a comment\n\n\n\n\nproc 0 0 1 4\n";
    expect(&rt, rt.alloc(), text, "0 0 0 off = ok\n", "7 is bad\n")
}

#[test]
fn a_line_that_is_too_long_is_left_out(rt: HostRuntime) -> Result<(), Fail> {
    let alloc = rt.alloc();
    let mut text = String::from_str(alloc, "proc 0 0 1 4\n1 pair seq -\n1 write 0 ")?;
    for _ in 0..2100 {
        text.push_str("00")?;
    }
    text.push_str("\n1 close 0")?;
    let trace = "0 1 0 pair = fds 0 1\n1 1 1 close = ok\n2 1 2 exit = ok\n";
    expect(&rt, alloc, text.as_str(), trace, "3 is too long\n")
}

/// Sees that a write may fail at each line, and that the lines before it are written.
fn expect_cut(rt: &impl Abort, alloc: Global, fails_at: usize) -> Result<(), Fail> {
    let mut writer = Fake::new(alloc, 100, fails_at);
    let mut reported = Reports {
        text: String::new(alloc),
    };
    let ran = run(alloc, SESSION.as_bytes(), &mut writer, &mut reported)?;
    assert!(rt; matches!(ran, Err(ScriptFault::Writing)));
    let taken = writer.taken.as_slice();
    assert!(rt; SESSION_TRACE.as_bytes().starts_with(taken));
    assert!(rt; taken.is_empty() || taken.ends_with(b"\n"));
    Ok(())
}

#[test]
fn each_write_may_fail(rt: HostRuntime) -> Result<(), Fail> {
    for fails_at in 1..7 {
        expect_cut(&rt, rt.alloc(), fails_at)?;
    }
    Ok(())
}

/// A reader that gives its bytes and fails at their end.
#[derive(Drop)]
struct Torn<'a>(&'a [u8]);

impl io::Read for Torn<'_> {
    fn read(&mut self, buffer: &mut [u8]) -> io::Result<usize> {
        if self.0.is_empty() {
            return Err(io::Error::from(io::ErrorKind::ConnectionReset));
        }
        self.0.read(buffer)
    }
}

#[test]
fn a_read_that_fails_ends_the_run(rt: HostRuntime) -> Result<(), Fail> {
    let alloc = rt.alloc();
    let mut reported = Reports {
        text: String::new(alloc),
    };
    let buffer = io::BufReader::new(alloc, Torn(b"proc 0 0 1 4\n1 pair seq -\n"))?;
    let mut source = LineSource::new(buffer);
    let reader = read_header(alloc, &mut source, &mut reported)?;
    let kernel = kernel_of(alloc, reader.script())?;
    let mut written: Vec<u8> = Vec::new(alloc);
    let ran = follow(
        alloc,
        reader,
        &mut source,
        &mut written,
        &mut reported,
        kernel,
    );
    assert!(rt; matches!(ran, Err(ScriptFault::Reading)));
    assert!(rt; written.as_slice() == b"0 1 0 pair = fds 0 1\n".as_slice());
    Ok(())
}
