//! The lines of a run beside its script.
use super::{beside, request_in};
use std::alloc::Global;
use std::process::Abort;
use std::test::*;
use ux_trace::{answer_text, echo_text};
use ux_types::{Bytes, Entry, Errno, Fd, Pid, Released, Reply, Request};

/// An entry of process 1, the eighth of its calls, at whose end no file object was closed.
fn entry_of(alloc: Global, request: Request, reply: Reply) -> Entry {
    closing_entry(request, reply, Released::new(alloc))
}

/// The same, at whose end these were.
fn closing_entry(request: Request, reply: Reply, released: Released) -> Entry {
    Entry {
        pid: Pid(1),
        k: 7,
        request,
        reply,
        released,
        delivered: None,
    }
}

/// Sees how a call is written that stands so in line 12 of a script and answers `ok`.
fn expect_call(rt: &impl Abort, alloc: Global, call: &str, written: &str) -> Result<(), Fail> {
    let entry = entry_of(alloc, request_in(alloc, call)?, Reply::Ok);
    let text = echo_text(alloc, Some(12), &entry)?;
    let wanted = format!(in alloc; "12 1 {written} = ok\n")?;
    assert_eq!(rt; text, wanted);
    Ok(())
}

/// Calls as a script has them, and beside it.
const CALLS: &[(&str, &str)] = &[
    ("open p:a%20b rw anx", "open(p:a%20b, rw, anx)"),
    ("open p: r -", "open(p:, r, -)"),
    ("create p:a%20b rw anx", "create(p:a%20b, rw, anx)"),
    ("create p: w -", "create(p:, w, -)"),
    ("memfd x", "memfd(x)"),
    ("memfd -", "memfd(-)"),
    ("eventfd 0 -", "eventfd(0, -)"),
    ("eventfd 4294967295 nx", "eventfd(4294967295, nx)"),
    ("eventfd 0 anx", "eventfd(0, anx)"),
    ("eventfd 3 s", "eventfd(3, s)"),
    ("eventfd 3 ns", "eventfd(3, ns)"),
    ("eventfd 3 anxs", "eventfd(3, anxs)"),
    ("pipe -", "pipe(-)"),
    ("pipe anx", "pipe(anx)"),
    ("read 3 4096", "read(3, 4096)"),
    ("write 0 -", "write(0, \"\")"),
    ("write 1 6f6b217e20", "write(1, \"ok!~ \")"),
    (
        "write 1 00225c0a7fff",
        "write(1, \"\\x00\\x22\\x5c\\x0a\\x7f\\xff\")",
    ),
    ("lseek 0 -5 end", "lseek(0, -5, end)"),
    ("lseek 0 7 set", "lseek(0, 7, set)"),
    ("lseek 0 0 cur", "lseek(0, 0, cur)"),
    ("dup 4294967295", "dup(4294967295)"),
    ("dup2 1 2", "dup2(1, 2)"),
    ("dupfd 1 10", "dupfd(1, 10)"),
    ("getfl 1", "getfl(1)"),
    ("inq 1", "inq(1)"),
    ("outq 4294967295", "outq(4294967295)"),
    ("flags 3 nx", "flags(3, nx)"),
    ("close 5", "close(5)"),
    ("unlink p:a,b", "unlink(p:a,b)"),
    ("socket stream x", "socket(stream, x)"),
    ("socket dgram n", "socket(dgram, n)"),
    ("pair seq -", "pair(seq, -)"),
    ("bind 0 u", "bind(0, u)"),
    ("bind 0 p:s", "bind(0, p:s)"),
    ("listen 0 -1", "listen(0, -1)"),
    ("connect 1 a:%00s", "connect(1, a:%00s)"),
    ("accept 2 a", "accept(2, a)"),
    ("shut 0 w", "shut(0, w)"),
    ("getopt 0 type", "getopt(0, type)"),
    ("getopt 0 error", "getopt(0, error)"),
    ("getopt 0 peercred", "getopt(0, peercred)"),
    ("getopt 0 accept", "getopt(0, accept)"),
    ("setopt 0 passcred 1", "setopt(0, passcred, 1)"),
    ("setopt 0 qlimit 4096", "setopt(0, qlimit, 4096)"),
    ("sockname 0", "sockname(0)"),
    ("peername 0", "peername(0)"),
    ("poll 0", "poll(0)"),
    ("polls 3:i,4:io,5:- wait", "polls(3:i,4:io,5:-, wait)"),
    ("polls 0:ioh now", "polls(0:ioh, now)"),
    ("polls - wait", "polls(-, wait)"),
    ("setids 1000 1000", "setids(1000, 1000)"),
    ("setids 0 4294967295", "setids(0, 4294967295)"),
    ("fork", "fork()"),
    ("exec", "exec()"),
    ("exit", "exit()"),
];

#[test]
fn each_call_is_written_with_its_arguments(rt: HostRuntime) -> Result<(), Fail> {
    for (call, written) in CALLS {
        expect_call(&rt, rt.alloc(), call, written)?;
    }
    Ok(())
}

/// Sends and receives: what control bytes say stands there, however the script writes them.
const MESSAGES: &[(&str, &str)] = &[
    ("send 1 - 6f6b - -", "send(1, -, \"ok\", -, -)"),
    ("send 1 u - - d", "send(1, u, \"\", -, d)"),
    ("send 1 a:x 78 r:2 -", "send(1, a:x, \"x\", r:2, -)"),
    (
        "send 1 - 78 r:2,4,2+c:1,1000,1001 dptx",
        "send(1, -, \"x\", c:1,1000,1001+r:2,4,2, dptx)",
    ),
    ("send 1 p:b 78 c:1,2,3 t", "send(1, p:b, \"x\", c:1,2,3, t)"),
    ("send 1 - 78 x:0102 x", "send(1, -, \"x\", x:0102, x)"),
    ("recv 0 64 24 px", "recv(0, 64, 24, px)"),
    ("recv 0 0 0 -", "recv(0, 0, 0, -)"),
];

#[test]
fn messages_are_written_with_what_their_control_bytes_say(rt: HostRuntime) -> Result<(), Fail> {
    for (call, written) in MESSAGES {
        expect_call(&rt, rt.alloc(), call, written)?;
    }
    Ok(())
}

/// Sees the line of a call and what a trace has of it behind `=`.
fn expect_line(
    rt: &impl Abort,
    alloc: Global,
    line: Option<usize>,
    entry: &Entry,
    texts: (&str, &str),
) -> Result<(), Fail> {
    let written = echo_text(alloc, line, entry)?;
    let answer = answer_text(alloc, entry)?;
    assert!(rt; written.as_str() == texts.0 && answer.as_str() == texts.1);
    Ok(())
}

#[test]
fn a_call_without_a_line_has_a_dash(rt: HostRuntime) -> Result<(), Fail> {
    let entry = entry_of(rt.alloc(), Request::Exit, Reply::Ok);
    expect_line(&rt, rt.alloc(), None, &entry, ("- 1 exit() = ok\n", "ok"))
}

#[test]
fn a_reply_is_written_as_in_a_trace(rt: HostRuntime) -> Result<(), Fail> {
    let alloc = rt.alloc();
    let bytes = Bytes::from_slice(alloc, b"hi")?;
    let (request, reply) = beside(request_in(alloc, "read 0 8"), Reply::Bytes(bytes))?;
    let entry = entry_of(alloc, request, reply);
    let texts = ("3 1 read(0, 8) = bytes 6869\n", "bytes 6869");
    expect_line(&rt, alloc, Some(3), &entry, texts)
}

#[test]
fn closed_objects_stand_behind_the_reply(rt: HostRuntime) -> Result<(), Fail> {
    let alloc = rt.alloc();
    let mut released = Released::new(alloc);
    released.push_back(0)?;
    released.push_back(5)?;
    released.push_back(64)?;
    released.push_back(4095)?;
    let close = Request::Close { fd: Fd(1) };
    let entry = closing_entry(close, Reply::Err(Errno::EIO), released);
    let texts = (
        "9 1 close(1) = err EIO closed 0 5 64 4095\n",
        "err EIO closed 0 5 64 4095",
    );
    expect_line(&rt, alloc, Some(9), &entry, texts)
}
