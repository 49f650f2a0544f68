//! Readers that end, fail, are interrupted or never end; out of memory; the texts of faults.
use super::expect_report;
use hoard::Hoard;
use std::alloc::Global;
use std::io;
use std::io::Read;
use std::process::Abort;
use std::test::*;
use ux_syntax::{LineReader, ScriptFault, Waiting, parse_script, read_script};
use ux_types::Pid;

#[test]
fn faults_have_their_texts(rt: HostRuntime) -> Result<(), Fail> {
    let alloc = rt.alloc();
    expect_report(&rt, alloc, &ScriptFault::BadLine(1), "line 1: bad line");
    let unknown = ScriptFault::UnknownProcess(20);
    expect_report(&rt, alloc, &unknown, "line 20: unknown process");
    expect_report(&rt, alloc, &ScriptFault::TooLong(300), "line 300: too long");
    expect_report(&rt, alloc, &ScriptFault::Reading, "reading failed");
    expect_report(&rt, alloc, &ScriptFault::Writing, "writing failed");
    expect_report(&rt, alloc, &ScriptFault::NoMemory, "out of memory");
    expect_report(&rt, alloc, &ScriptFault::Stranger, "stranger");
    let serial = "a serial script has one order, and no threads";
    expect_report(&rt, alloc, &ScriptFault::OneOrder, serial);
    let places = Vec::from_slice(alloc, &[(Pid(1), 4), (Pid(3), 7)])?;
    let deadlock = ScriptFault::Deadlock(Waiting::new(places));
    let waits = "deadlock: process 1 waits in line 4, process 3 waits in line 7";
    expect_report(&rt, alloc, &deadlock, waits);
    Ok(())
}

/// Lines of a script, how many processes are known behind each, and whether the first has made its exit.
const KNOWN: &[(&str, usize, bool)] = &[
    ("serial", 0, false),
    ("proc 0 0 1 16", 1, false),
    ("1 fork", 2, false),
    ("1 exit", 2, true),
    ("2 fork", 3, true),
];

#[test]
fn a_line_reader_knows_processes_and_exits(rt: HostRuntime) -> Result<(), Fail> {
    let mut reader = LineReader::new(rt.alloc());
    for (line, processes, exited) in KNOWN {
        reader.read_line(rt.alloc(), 1, line.as_bytes())?;
        let others = reader.has_exited(Pid(0)) || reader.has_exited(Pid(3));
        assert_eq!(rt; reader.process_count(), *processes, "{line}");
        assert!(rt; reader.has_exited(Pid(1)) == *exited && !others, "{line}");
    }
    Ok(())
}

/// A reader whose reads fail.
#[derive(Drop)]
struct Broken(io::ErrorKind);

impl Read for Broken {
    fn read(&mut self, _buf: &mut [u8]) -> io::Result<usize> {
        Err(io::Error::from(self.0))
    }
}

/// A script that is read.
const READ: &[u8] = b"proc 1000 1000 0 16\n1 pair stream -\n1 exit\n";

#[test]
fn a_reader_is_read_to_its_end(rt: HostRuntime) -> Result<(), Fail> {
    let mut whole = READ;
    let script = read_script(rt.alloc(), &mut whole)?;
    assert_eq!(rt; script.lines.len(), 2);
    Ok(())
}

/// Sees what is reported where the reads behind so many bytes fail.
fn expect_reading(
    rt: &impl Abort,
    alloc: Global,
    place: usize,
    kind: io::ErrorKind,
    fault: &str,
) -> Result<(), Fail> {
    let front = READ.get(..place).ok_or("no such place")?;
    let mut reader = front.chain(Broken(kind));
    let reported = read_script(alloc, &mut reader).err().ok_or("a script")?;
    expect_report(rt, alloc, &reported, fault);
    Ok(())
}

#[test]
fn a_read_that_fails_is_reported(rt: HostRuntime) -> Result<(), Fail> {
    let alloc = rt.alloc();
    let reset = io::ErrorKind::ConnectionReset;
    expect_reading(&rt, alloc, 0, reset, "reading failed")?;
    let invalid = io::ErrorKind::InvalidData;
    expect_reading(&rt, alloc, 20, invalid, "reading failed")?;
    expect_reading(&rt, alloc, READ.len(), invalid, "reading failed")?;
    let memory = io::ErrorKind::OutOfMemory;
    expect_reading(&rt, alloc, 20, memory, "out of memory")
}

/// Gives these bytes again and again, and is interrupted before each read.
#[derive(Drop)]
struct Endless {
    bytes: Vec<u8>,
    interrupted: bool,
}

impl Read for Endless {
    fn read(&mut self, buf: &mut [u8]) -> io::Result<usize> {
        self.interrupted = !self.interrupted;
        if self.interrupted {
            return Err(io::Error::from(io::ErrorKind::Interrupted));
        }
        let count = self.bytes.len().min(buf.len());
        buf[..count].copy_from_slice(&self.bytes[..count]);
        Ok(count)
    }
}

/// Sees the fault of an input that never ends.
fn expect_endless(rt: &impl Abort, alloc: Global, bytes: &[u8], fault: &str) -> Result<(), Fail> {
    let mut reader = Endless {
        bytes: Vec::from_slice(alloc, bytes)?,
        interrupted: false,
    };
    let reported = read_script(alloc, &mut reader).err().ok_or("a script")?;
    expect_report(rt, alloc, &reported, fault);
    Ok(())
}

#[test]
fn an_endless_input_ends_at_its_first_fault(rt: HostRuntime) -> Result<(), Fail> {
    let alloc = rt.alloc();
    expect_endless(&rt, alloc, b"\0", "line 1: too long")?;
    expect_endless(&rt, alloc, b"y\n", "line 1: bad line")?;
    let unknown = "line 3: unknown process";
    expect_endless(&rt, alloc, b"#\n\n1 exit\n", unknown)?;
    let script = b"proc 0 0 1 16\n1 exit\n";
    expect_endless(&rt, alloc, script, "line 3: bad line")
}

#[test]
fn a_script_that_is_refused_memory_is_reported(rt: HostRuntime) -> Result<(), Fail> {
    let alloc = rt.alloc();
    let mut reader = READ;
    let hoard = Hoard::take_all(alloc)?;
    let parsed = parse_script(alloc, READ).err();
    let read = read_script(alloc, &mut reader).err();
    drop(hoard);
    assert!(rt; matches!(parsed, Some(ScriptFault::NoMemory)));
    assert!(rt; matches!(read, Some(ScriptFault::NoMemory)));
    Ok(())
}
