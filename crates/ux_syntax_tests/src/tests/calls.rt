//! The calls of a script: what each asks for, and what is no call.
use super::{expect_bad_lines, expect_request};
use std::alloc::Global;
use std::process::Abort;
use std::test::*;
use ux_types::{Bytes, Fd, Mode, Name, OpenFlags, Request, Whence};

/// Sees that a call opens a path.
fn expect_open(
    rt: &impl Abort,
    alloc: Global,
    call: &str,
    path: &[u8],
    mode: Mode,
    flags: OpenFlags,
) -> Result<(), Fail> {
    let path = Name::from_slice(alloc, path)?;
    expect_request(rt, alloc, call, Request::Open { path, mode, flags })
}

/// Sees that a call writes bytes to a descriptor.
fn expect_write(
    rt: &impl Abort,
    alloc: Global,
    call: &str,
    fd: Fd,
    bytes: &[u8],
) -> Result<(), Fail> {
    let bytes = Bytes::from_slice(alloc, bytes)?;
    expect_request(rt, alloc, call, Request::Write { fd, bytes })
}

/// Sees that a call unlinks a path.
fn expect_unlink(rt: &impl Abort, alloc: Global, call: &str, path: &[u8]) -> Result<(), Fail> {
    let path = Name::from_slice(alloc, path)?;
    expect_request(rt, alloc, call, Request::Unlink { path })
}

/// Lines of which the last is a bad one.
const BAD_LINES: &[&str] = &[
    "1 close +1",
    "1 close -1",
    "1 close 0 0",
    "1 Close 0",
    "01 close 0",
    "close 0",
    "1",
    "1 ",
    "1 exit 0",
    "1 exit\n1 exit",
    "1 close 0\nproc 0 0 0 1",
    "1 pair stream",
    "1 pair raw -",
    "1 pair Seq -",
    "1 pair stream xa",
    "1 pair stream aa",
    "1 pair stream d",
    "1 pair stream ",
    "1 send 1 - 6A - -",
    "1 send 1 - 6 - -",
    "1 send 1 -  - -",
    "1 send 1 - 6g - -",
    "1 send 1 - 6a - -d",
    "1 send 1 - 6a -",
    "1 recv 1 1 1 xd",
    "1 recv 1 1 1 e",
    "1 recv 1 1 1",
    "1 sleep 1 1",
    "1 off",
    "off x",
    "off ",
    " off",
    "off\noff",
    "off\n1 close 0",
    "off\n9 close 0",
    "off\nproc 0 0 0 1",
    "off\nobject p:f pipe",
];

#[test]
fn bad_calls_are_reported(rt: HostRuntime) -> Result<(), Fail> {
    expect_bad_lines(&rt, rt.alloc(), "", BAD_LINES, "")
}

/// Calls on files that are bad lines.
const BAD_CALLS: &[&str] = &[
    "open u r -",
    "open a:x r -",
    "open f r -",
    "open p r -",
    "open p:%61 r -",
    "open p:%7e r -",
    "open p:%2 r -",
    "open p:% r -",
    "open p:%FF r -",
    "open p:%zz r -",
    "open p:\u{7f} r -",
    "open p:\t r -",
    "open p:\u{e9} r -",
    "open p:x wr -",
    "open p:x R -",
    "open p:x - -",
    "open p:x r d",
    "open p:x r",
    "open p:x r - -",
    "read 0",
    "read 0 -1",
    "read 0 4 4",
    "read -1 4",
    "write 0",
    "write 0 6",
    "write 0 - -",
    "lseek 0 0",
    "lseek 0 0 SET",
    "lseek 0 0 here",
    "lseek 0 0 set 0",
    "dup",
    "dup -",
    "dup 0 1",
    "dup2 0",
    "dup2 0 1 2",
    "flags 0",
    "flags 0 xa",
    "flags 0 - -",
    "unlink",
    "unlink u",
    "unlink a:x",
    "unlink p:x -",
];

#[test]
fn bad_calls_on_files_are_reported(rt: HostRuntime) -> Result<(), Fail> {
    expect_bad_lines(&rt, rt.alloc(), "1 ", BAD_CALLS, "")
}

#[test]
fn calls_on_paths_are_read(rt: HostRuntime) -> Result<(), Fail> {
    let alloc = rt.alloc();
    let anx = OpenFlags(7);
    expect_open(&rt, alloc, "open p:f rw anx", b"f", Mode::Both, anx)?;
    let append = OpenFlags::APPEND;
    expect_open(&rt, alloc, "open p:log w a", b"log", Mode::Write, append)?;
    expect_open(&rt, alloc, "open p: r -", b"", Mode::Read, OpenFlags(0))?;
    expect_unlink(&rt, alloc, "unlink p:f", b"f")
}

#[test]
fn calls_on_descriptors_are_read(rt: HostRuntime) -> Result<(), Fail> {
    let alloc = rt.alloc();
    let fd = Fd(3);
    let read = Request::Read { fd, n: 4294967295 };
    expect_request(&rt, alloc, "read 3 4294967295", read)?;
    expect_write(&rt, alloc, "write 3 00ff", fd, &[0, 0xff])?;
    expect_write(&rt, alloc, "write 3 -", fd, b"")?;
    expect_request(&rt, alloc, "dup 3", Request::Dup { fd })?;
    let to = Fd(9);
    expect_request(&rt, alloc, "dup2 3 9", Request::Dup2 { fd, to })?;
    let minimum = Fd(4294967295);
    let from = Request::DupFrom { fd, minimum };
    expect_request(&rt, alloc, "dupfd 3 4294967295", from)?;
    expect_request(&rt, alloc, "getfl 3", Request::GetFlags { fd })?;
    expect_request(&rt, alloc, "inq 3", Request::InQueue { fd })?;
    expect_request(&rt, alloc, "outq 3", Request::OutQueue { fd })?;
    let flags = OpenFlags(6);
    expect_request(&rt, alloc, "flags 3 nx", Request::SetFlags { fd, flags })
}

/// Names as they are written, and their bytes.
const NAMES: &[(&str, &[u8])] = &[
    ("a", b"a"),
    ("!~", &[0x21, 0x7e]),
    ("#p:", b"#p:"),
    ("%20", b" "),
    ("%25", b"%"),
    ("%7f", &[0x7f]),
    ("a%00%ffz", &[b'a', 0, 0xff, b'z']),
    ("%e2%82%ac", &[0xe2, 0x82, 0xac]),
];

#[test]
fn names_are_read(rt: HostRuntime) -> Result<(), Fail> {
    let alloc = rt.alloc();
    for (text, bytes) in NAMES {
        let call = format!(in alloc; "unlink p:{text}")?;
        expect_unlink(&rt, alloc, &call, bytes)?;
    }
    Ok(())
}

/// Sees that an offset is read, from each place.
fn expect_offset(rt: &impl Abort, alloc: Global, text: &str, offset: i64) -> Result<(), Fail> {
    let fd = Fd(0);
    for (word, whence) in [
        ("set", Whence::Set),
        ("cur", Whence::Cur),
        ("end", Whence::End),
    ] {
        let call = format!(in alloc; "lseek 0 {text} {word}")?;
        expect_request(rt, alloc, &call, Request::Lseek { fd, offset, whence })?;
    }
    Ok(())
}

/// Offsets as they are written.
const OFFSETS: &[(&str, i64)] = &[
    ("0", 0),
    ("1", 1),
    ("-1", -1),
    ("10", 10),
    ("-9223372036854775808", i64::MIN),
    ("9223372036854775807", i64::MAX),
];

/// What is no offset.
const BAD_OFFSETS: &[&str] = &[
    "-0",
    "00",
    "01",
    "-01",
    "+1",
    "-",
    "--1",
    "1-",
    "9223372036854775808",
    "-9223372036854775809",
    "99999999999999999999",
];

#[test]
fn offsets_are_read(rt: HostRuntime) -> Result<(), Fail> {
    for (text, offset) in OFFSETS {
        expect_offset(&rt, rt.alloc(), text, *offset)?;
    }
    Ok(())
}

#[test]
fn bad_offsets_are_reported(rt: HostRuntime) -> Result<(), Fail> {
    expect_bad_lines(&rt, rt.alloc(), "1 lseek 0 ", BAD_OFFSETS, " set")
}
