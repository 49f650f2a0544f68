//! The arguments of calls, as scripts write them.

use serde_json::Value;
use std::alloc::Global;
use std::process::Abort;
use std::test::Fail;
use ux_json::arguments_value;
use ux_syntax::{Act, parse_script};
use ux_types::Request;

/// Sees that the arguments of a call that a script writes so are these.
fn expect(rt: &impl Abort, alloc: Global, call: &str, wanted: &str) -> Result<(), Fail> {
    let text = format!(in alloc; "serial\nproc 0 0 1 9\n1 {call}")?;
    let script = parse_script(alloc, text.as_bytes())?;
    let [line] = script.lines.as_slice() else {
        panic!(rt; "no line");
    };
    let Act::Call(request) = &line.act else {
        panic!(rt; "no call");
    };
    let value = arguments_value(alloc, request)?;
    assert!(rt; value == Value::from_str(alloc, wanted)?);
    Ok(())
}

/// Calls as a script has them, and their arguments.
const CALLS: &[(&str, &str)] = &[
    (
        "open p:a%20b rw anx",
        r#"{"path": "p:a%20b", "mode": "rw", "flags": ["APPEND", "NONBLOCK", "CLOEXEC"]}"#,
    ),
    ("open p: r -", r#"{"path": "p:", "mode": "r", "flags": []}"#),
    (
        "create p:a%20b w nx",
        r#"{"path": "p:a%20b", "mode": "w", "flags": ["NONBLOCK", "CLOEXEC"]}"#,
    ),
    ("memfd x", r#"{"flags": ["CLOEXEC"]}"#),
    (
        "eventfd 4294967295 n",
        r#"{"value": 4294967295, "flags": ["NONBLOCK"]}"#,
    ),
    ("eventfd 0 -", r#"{"value": 0, "flags": []}"#),
    ("eventfd 0 s", r#"{"value": 0, "flags": ["SEMAPHORE"]}"#),
    (
        "eventfd 1 anxs",
        r#"{"value": 1, "flags": ["APPEND", "NONBLOCK", "CLOEXEC", "SEMAPHORE"]}"#,
    ),
    ("pipe -", r#"{"flags": []}"#),
    ("read 3 4096", r#"{"fd": 3, "n": 4096}"#),
    ("write 0 -", r#"{"fd": 0, "bytes": ""}"#),
    (
        "write 1 00225c0a7fff",
        r#"{"fd": 1, "bytes": "00225c0a7fff"}"#,
    ),
    (
        "lseek 0 -5 end",
        r#"{"fd": 0, "offset": -5, "whence": "end"}"#,
    ),
    (
        "lseek 0 7 set",
        r#"{"fd": 0, "offset": 7, "whence": "set"}"#,
    ),
    ("dup 4294967295", r#"{"fd": 4294967295}"#),
    ("dup2 1 2", r#"{"fd": 1, "to": 2}"#),
    ("dupfd 1 10", r#"{"fd": 1, "minimum": 10}"#),
    ("getfl 1", r#"{"fd": 1}"#),
    ("inq 1", r#"{"fd": 1}"#),
    ("outq 2", r#"{"fd": 2}"#),
    (
        "flags 3 nx",
        r#"{"fd": 3, "flags": ["NONBLOCK", "CLOEXEC"]}"#,
    ),
    ("close 5", r#"{"fd": 5}"#),
    ("unlink p:a,b", r#"{"path": "p:a,b"}"#),
    (
        "socket stream x",
        r#"{"type": "stream", "flags": ["CLOEXEC"]}"#,
    ),
    ("pair seq -", r#"{"type": "seq", "flags": []}"#),
    ("bind 0 u", r#"{"fd": 0, "addr": "u"}"#),
    ("listen 0 -1", r#"{"fd": 0, "backlog": -1}"#),
    ("connect 1 a:%00s", r#"{"fd": 1, "addr": "a:%00s"}"#),
    ("accept 2 a", r#"{"fd": 2, "flags": ["APPEND"]}"#),
    ("shut 0 w", r#"{"fd": 0, "how": "w"}"#),
    ("getopt 0 peercred", r#"{"fd": 0, "opt": "peercred"}"#),
    (
        "setopt 0 qlimit 4096",
        r#"{"fd": 0, "opt": "qlimit", "value": 4096}"#,
    ),
    ("sockname 0", r#"{"fd": 0}"#),
    ("peername 7", r#"{"fd": 7}"#),
    ("poll 0", r#"{"fd": 0}"#),
    (
        "polls 3:i,4:io,5:- wait",
        r#"{"fds": [{"fd": 3, "events": ["IN"]}, {"fd": 4, "events": ["IN", "OUT"]}, {"fd": 5, "events": []}], "waits": true}"#,
    ),
    (
        "polls 4294967295:h now",
        r#"{"fds": [{"fd": 4294967295, "events": ["RDHUP"]}], "waits": false}"#,
    ),
    ("polls - wait", r#"{"fds": [], "waits": true}"#),
    ("setids 1000 100", r#"{"uid": 1000, "gid": 100}"#),
    ("setids 0 4294967295", r#"{"uid": 0, "gid": 4294967295}"#),
    ("fork", "{}"),
    ("exec", "{}"),
    ("exit", "{}"),
    (
        "recv 1 64 24 dptx",
        r#"{"fd": 1, "n": 64, "space": 24, "flags": ["PEEK", "TRUNC", "DONTWAIT", "CMSG_CLOEXEC"]}"#,
    ),
];

#[test]
fn each_call_has_its_arguments(rt: HostRuntime) -> Result<(), Fail> {
    for (call, wanted) in CALLS {
        expect(&rt, rt.alloc(), call, wanted)?;
    }
    Ok(())
}

/// Sends, whose control bytes are what they spell, or the bytes where they spell no items.
const SENDS: &[(&str, &str)] = &[
    (
        "send 0 - 78 - -",
        r#"{"fd": 0, "addr": null, "bytes": "78", "control": {"cred": null, "rights": []}, "flags": []}"#,
    ),
    (
        "send 0 p:s - r:3,4 d",
        r#"{"fd": 0, "addr": "p:s", "bytes": "", "control": {"cred": null, "rights": [3, 4]}, "flags": ["DONTWAIT"]}"#,
    ),
    (
        "send 0 - 78 c:1,2,3+r:5 -",
        r#"{"fd": 0, "addr": null, "bytes": "78", "control": {"cred": {"pid": 1, "uid": 2, "gid": 3}, "rights": [5]}, "flags": []}"#,
    ),
    (
        "send 0 - 78 x:01 -",
        r#"{"fd": 0, "addr": null, "bytes": "78", "control": {"raw": "01"}, "flags": []}"#,
    ),
];

#[test]
fn each_send_has_what_its_control_bytes_spell(rt: HostRuntime) -> Result<(), Fail> {
    for (call, wanted) in SENDS {
        expect(&rt, rt.alloc(), call, wanted)?;
    }
    Ok(())
}

#[test]
fn the_end_of_the_layer_has_none(rt: HostRuntime) -> Result<(), Fail> {
    let alloc = rt.alloc();
    let value = arguments_value(alloc, &Request::Off)?;
    assert!(rt; value == Value::from_str(alloc, "{}")?);
    Ok(())
}
