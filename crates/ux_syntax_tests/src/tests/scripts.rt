//! Whole scripts: what their text gives, and which line is at fault.
use super::{expect_bad_lines, expect_fault, expect_faults, filled};
use std::alloc::Global;
use std::process::Abort;
use std::test::*;
use ux_object::ObjKind;
use ux_syntax::{Act, Line, ObjectLine, Script, parse_script};
use ux_types::{Bytes, Fd, MsgFlags, OpenFlags, Pid, ProcSpec, Request, SockType};

/// Whether a line is a call of this process that asks for this.
fn is_call(line: &Line, pid: u32, request: &Request) -> bool {
    match &line.act {
        Act::Call(call) => line.pid == Pid(pid) && *call == *request,
        Act::Wait(..) => false,
    }
}

/// Sees whose a script's call is, and what it asks for.
fn expect_call(rt: &impl Abort, script: &Script, index: usize, pid: u32, request: Request) {
    let line = script.lines.get(index);
    let found = line.is_some_and(|line| is_call(line, pid, &request));
    drop(request);
    assert!(rt; found, "at {index}");
}

/// Sees a script's processes, and how many calls it has.
fn expect_processes(rt: &impl Abort, script: &Script, procs: &[ProcSpec], calls: usize) {
    assert_eq!(rt; script.procs.as_slice(), procs);
    assert_eq!(rt; script.lines.len(), calls);
}

#[test]
fn a_script_is_read(rt: HostRuntime) -> Result<(), Fail> {
    let text =
        b"proc 1000 1001 0 16\nproc 0 0 1 4294967295\n# a pair\n\n1 pair stream anx\n2 send 0 - 68ff - dptx\n#\n1 recv 1 8 24 px\n1 close 7\n1 exit";
    let script = parse_script(rt.alloc(), text.as_slice())?;
    let procs = [
        ProcSpec {
            uid: 1000,
            gid: 1001,
            privileged: false,
            limit: 16,
        },
        ProcSpec {
            uid: 0,
            gid: 0,
            privileged: true,
            limit: 4294967295,
        },
    ];
    expect_processes(&rt, &script, &procs, 5);
    let pair = Request::SocketPair {
        kind: SockType::Stream,
        flags: OpenFlags(7),
    };
    expect_call(&rt, &script, 0, 1, pair);
    let send = Request::SendMsg {
        fd: Fd(0),
        addr: None,
        bytes: Bytes::from_slice(rt.alloc(), &[0x68, 0xff])?,
        control: Bytes::empty(),
        flags: MsgFlags(15),
    };
    expect_call(&rt, &script, 1, 2, send);
    let receive = Request::RecvMsg {
        fd: Fd(1),
        n: 8,
        space: 24,
        flags: MsgFlags(9),
    };
    expect_call(&rt, &script, 2, 1, receive);
    expect_call(&rt, &script, 3, 1, Request::Close { fd: Fd(7) });
    expect_call(&rt, &script, 4, 1, Request::Exit);
    Ok(())
}

/// Scripts, each with its fault.
const LINES: &[(&str, &str)] = &[
    ("", ""),
    ("\n\n# no line\n#", ""),
    ("proc 0 0 0 1\n1 exit\n", ""),
    ("proc 0 0 0 1\n1 exit", ""),
    ("1 read 0", "line 1: bad line"),
    ("1 read 0 4", "line 1: unknown process"),
    ("1 close 0", "line 1: unknown process"),
    ("1 close", "line 1: bad line"),
    ("proc 0 0 0 1\n0 close 0", "line 2: unknown process"),
    ("proc 0 0 0 1\n2 close 0", "line 2: unknown process"),
    ("\n# two\nproc 0 0 0 1\n\n1 close 00", "line 5: bad line"),
    ("proc 0 0 0 01", "line 1: bad line"),
    ("proc 0 0 0 4294967295", ""),
    ("proc 0 0 0 4294967296", "line 1: bad line"),
    ("proc 0 0 0 99999999999999999999", "line 1: bad line"),
    ("proc 0 0 2 1", "line 1: bad line"),
    ("proc 0 0 0 1 ", "line 1: bad line"),
    (" proc 0 0 0 1", "line 1: bad line"),
    ("proc 0  0 0 1", "line 1: bad line"),
    ("proc 0 0 0", "line 1: bad line"),
    ("proc\t0 0 0 1", "line 1: bad line"),
    ("proc 0 0 0 1\r\n", "line 1: bad line"),
    (" # a comment", "line 1: bad line"),
];

#[test]
fn bad_lines_are_reported(rt: HostRuntime) -> Result<(), Fail> {
    expect_faults(&rt, rt.alloc(), "", LINES)
}

/// Whether a file object is of this kind, and has this path and this body.
fn is_object(object: &ObjectLine, name: &[u8], kind: ObjKind, body: &[u8]) -> bool {
    object.name.as_bytes() == name && object.kind == kind && object.body.as_slice() == body
}

/// Sees a script's file object.
fn expect_object(
    rt: &impl Abort,
    script: &Script,
    index: usize,
    name: &[u8],
    kind: ObjKind,
    body: &[u8],
) {
    let object = script.objects.get(index);
    let found = object.is_some_and(|object| is_object(object, name, kind, body));
    assert!(rt; found, "at {index}");
}

#[test]
fn a_header_is_read(rt: HostRuntime) -> Result<(), Fail> {
    let text =
        b"object p:f mem 6869\nproc 0 0 0 16\nobject p:c counter\n# more\nobject p:%20 pipe\nproc 7 1 1 1\nobject p:e mem -\n1 exit\n";
    let script = parse_script(rt.alloc(), text.as_slice())?;
    let procs = [
        ProcSpec {
            uid: 0,
            gid: 0,
            privileged: false,
            limit: 16,
        },
        ProcSpec {
            uid: 7,
            gid: 1,
            privileged: true,
            limit: 1,
        },
    ];
    expect_processes(&rt, &script, &procs, 1);
    assert_eq!(rt; script.objects.len(), 4);
    expect_object(&rt, &script, 0, b"f", ObjKind::Memory, b"hi");
    expect_object(&rt, &script, 1, b"c", ObjKind::Counter, b"");
    expect_object(&rt, &script, 2, b" ", ObjKind::Pipe, b"");
    expect_object(&rt, &script, 3, b"e", ObjKind::Memory, b"");
    Ok(())
}

/// Lines of which the last may not stand in a header, or behind it.
const BAD_HEADERS: &[&str] = &[
    "object",
    "object p:f",
    "object p:f mem",
    "object p:f mem 6",
    "object p:f mem 6A",
    "object p:f mem - -",
    "object p:f counter -",
    "object p:f pipe 00",
    "object p:f disk",
    "object p:f Mem -",
    "object f mem -",
    "object a:f mem -",
    "object p:%66 mem -",
    "object  p:f pipe",
    "objects p:f pipe",
    "1 close 0\nobject p:f mem -",
    "1 close 0\nproc 0 0 0 1",
];

#[test]
fn bad_headers_are_reported(rt: HostRuntime) -> Result<(), Fail> {
    expect_bad_lines(&rt, rt.alloc(), "", BAD_HEADERS, "")
}

/// Scripts, and whether they end the layer.
const ENDS: &[(&str, bool)] = &[
    ("", false),
    ("proc 0 0 0 1\n1 exit\n", false),
    ("# off\n", false),
    ("off", true),
    ("off\n\n# the end\n", true),
    ("object p:f mem -\nproc 0 0 0 1\n1 exit\noff\n", true),
];

#[test]
fn off_comes_last(rt: HostRuntime) -> Result<(), Fail> {
    for (text, off) in ENDS {
        let script = parse_script(rt.alloc(), text.as_bytes())?;
        assert_eq!(rt; script.off, *off, "{text}");
    }
    Ok(())
}

/// Sees the fault of a script whose second line begins so, is filled up to so many bytes, and ends so.
fn expect_fault_of_length(
    rt: &impl Abort,
    alloc: Global,
    front: &str,
    filler: char,
    count: usize,
    end: &str,
    fault: &str,
) -> Result<(), Fail> {
    let line = filled(alloc, front, filler, count)?;
    let text = format!(in alloc; "proc 0 0 0 1\n{line}{end}")?;
    expect_fault(rt, alloc, &text, fault)
}

/// How a line begins, how many bytes it has, and its fault.
const LENGTHS: &[(&str, usize, &str)] = &[
    ("#", 4096, ""),
    ("#", 4097, "line 2: too long"),
    ("1 close ", 4096, "line 2: bad line"),
    ("1 close ", 4097, "line 2: too long"),
    ("9 bad ", 4097, "line 2: too long"),
];

#[test]
fn a_line_has_4096_bytes_at_most(rt: HostRuntime) -> Result<(), Fail> {
    let alloc = rt.alloc();
    for (front, count, fault) in LENGTHS {
        for end in ["", "\n", "\n1 close 0"] {
            expect_fault_of_length(&rt, alloc, front, '1', *count, end, fault)?;
        }
    }
    Ok(())
}

#[test]
fn a_long_send_is_read(rt: HostRuntime) -> Result<(), Fail> {
    let alloc = rt.alloc();
    let send = "1 send 10 - ";
    expect_fault_of_length(&rt, alloc, send, '0', 12 + 4080, " - -", "")?;
    let fault = "line 2: too long";
    expect_fault_of_length(&rt, alloc, send, '0', 12 + 4082, " - -", fault)
}
