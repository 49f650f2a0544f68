//! Lines: calls, descriptors with their chains, and what a check and a comparison came to.

use serde_json::Value;
use std::alloc::{AllocError, Global};
use std::process::Abort;
use std::test::Fail;
use ux_audit::Chain;
use ux_json::{
    audit_value, call_value, check_value, difference_value, expect_value, held_value, line_of,
};
use ux_types::{Entry, Fd, How, Link, Pid, Released, Reply, Request};

/// Sees that the value's line ends with its only line feed, and reads as this.
fn expect(rt: &impl Abort, alloc: Global, value: &Value, wanted: &str) -> Result<(), Fail> {
    let line = line_of(alloc, value)?;
    let Some(text) = line.as_str().strip_suffix('\n') else {
        panic!(rt; "no line feed");
    };
    assert!(rt; !text.contains('\n'));
    assert!(rt; Value::from_str(alloc, text)? == Value::from_str(alloc, wanted)?);
    Ok(())
}

fn entry(pid: u32, k: u64, request: Request, released: Released) -> Entry {
    Entry {
        pid: Pid(pid),
        k,
        request,
        reply: Reply::Ok,
        released,
        delivered: None,
    }
}

/// The numbers of closed file objects, in this order.
fn closing(alloc: Global, numbers: [u32; 4]) -> Result<Released, AllocError> {
    let [first, second, third, fourth] = numbers;
    let mut released = Released::new(alloc);
    released.push_back(first)?;
    released.push_back(second)?;
    released.push_back(third)?;
    released.push_back(fourth)?;
    Ok(released)
}

#[test]
fn a_call_has_its_numbers(rt: HostRuntime) -> Result<(), Fail> {
    let alloc = rt.alloc();
    let released = closing(alloc, [0, 63, 64, 4095])?;
    let close = entry(1, 5, Request::Close { fd: Fd(2) }, released);
    expect(
        &rt,
        alloc,
        &call_value(alloc, 8, Some(7), &close)?,
        r#"{"kind": "call", "call": 8, "pid": 1, "k": 5, "line": 7, "word": "close", "arguments": {"fd": 2}, "reply": {"kind": "ok"}, "closed": [0, 63, 64, 4095]}"#,
    )?;
    expect(
        &rt,
        alloc,
        &call_value(
            alloc,
            9,
            None,
            &entry(0, 0, Request::Off, Released::new(alloc)),
        )?,
        r#"{"kind": "call", "call": 9, "pid": 0, "k": 0, "line": null, "word": "off", "arguments": {}, "reply": {"kind": "ok"}, "closed": []}"#,
    )
}

fn link(entry: usize, pid: u32, fd: u32, how: How) -> Link {
    Link {
        entry,
        pid: Pid(pid),
        fd: Fd(fd),
        how,
    }
}

#[test]
fn a_descriptor_has_its_chain(rt: HostRuntime) -> Result<(), Fail> {
    let alloc = rt.alloc();
    let links = [
        link(3, 1, 0, How::Made),
        link(4, 1, 1, How::Dup),
        link(5, 2, 1, How::Forked),
        link(8, 3, 2, How::Received(7)),
    ];
    let chain = Chain {
        links: Vec::from_slice(alloc, &links)?,
    };
    expect(
        &rt,
        alloc,
        &held_value(alloc, Pid(3), Fd(2), &chain)?,
        r#"{"kind": "held", "pid": 3, "fd": 2, "chain": [
            {"how": "made", "call": 3, "pid": 1, "fd": 0, "from": null},
            {"how": "dup", "call": 4, "pid": 1, "fd": 1, "from": null},
            {"how": "fork", "call": 5, "pid": 2, "fd": 1, "from": null},
            {"how": "got", "call": 8, "pid": 3, "fd": 2, "from": 7}]}"#,
    )
}

#[test]
fn results_count(rt: HostRuntime) -> Result<(), Fail> {
    let alloc = rt.alloc();
    expect(
        &rt,
        alloc,
        &audit_value(alloc, 5)?,
        r#"{"kind": "audit", "result": "ok", "held": 5}"#,
    )?;
    expect(
        &rt,
        alloc,
        &check_value(alloc, 9)?,
        r#"{"kind": "check", "result": "ok", "calls": 9}"#,
    )?;
    expect(
        &rt,
        alloc,
        &expect_value(alloc, 0)?,
        r#"{"kind": "expect", "result": "ok", "calls": 0}"#,
    )
}

#[test]
fn a_difference_has_both_replies(rt: HostRuntime) -> Result<(), Fail> {
    let alloc = rt.alloc();
    let expected = b"fd \"1\" \xff".as_slice();
    let got = Some(String::from_str(alloc, "err EBADF")?);
    expect(
        &rt,
        alloc,
        &difference_value(alloc, 4, expected, &got)?,
        "{\"kind\": \"difference\", \"line\": 4, \"expected\": \"fd \\\"1\\\" \u{fffd}\", \"got\": \"err EBADF\"}",
    )?;
    expect(
        &rt,
        alloc,
        &difference_value(alloc, 4, expected, &None)?,
        "{\"kind\": \"difference\", \"line\": 4, \"expected\": \"fd \\\"1\\\" \u{fffd}\", \"got\": null}",
    )
}
