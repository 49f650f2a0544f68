//! Replies, of each kind one at least.

use serde_json::Value;
use std::alloc::Global;
use std::process::Abort;
use std::test::Fail;
use ux_json::{addr_text, cred_value, path_text, reply_value};
use ux_types::{
    Addr, Bytes, Cred, Errno, Fd, MsgFlags, Name, OpenFlags, Pid, PollFlags, Reply, Revents,
};

fn expect(rt: &impl Abort, alloc: Global, reply: &Reply, wanted: &str) -> Result<(), Fail> {
    let value = reply_value(alloc, reply)?;
    assert!(rt; value == Value::from_str(alloc, wanted)?);
    Ok(())
}

#[test]
fn replies_of_numbers(rt: HostRuntime) -> Result<(), Fail> {
    let alloc = rt.alloc();
    let cred = Cred {
        pid: Pid(2),
        uid: 1000,
        gid: 4294967295,
    };
    let rows = [
        (Reply::Ok, r#"{"kind": "ok"}"#),
        (Reply::Fd(Fd(3)), r#"{"kind": "fd", "fd": 3}"#),
        (
            Reply::Fds(Fd(3), Fd(5)),
            r#"{"kind": "fds", "fds": [3, 5]}"#,
        ),
        (Reply::Count(7), r#"{"kind": "n", "n": 7}"#),
        (
            Reply::At(9223372036854775808),
            r#"{"kind": "at", "at": 9223372036854775808}"#,
        ),
        (Reply::Opt(4096), r#"{"kind": "opt", "value": 4096}"#),
        (
            Reply::Cred(cred),
            r#"{"kind": "cred", "pid": 2, "uid": 1000, "gid": 4294967295}"#,
        ),
        (
            Reply::Poll(PollFlags(0)),
            r#"{"kind": "poll", "conditions": []}"#,
        ),
        (
            Reply::Poll(PollFlags(63)),
            r#"{"kind": "poll", "conditions": ["IN", "OUT", "RDHUP", "HUP", "ERR", "NVAL"]}"#,
        ),
        (Reply::Child(Pid(4)), r#"{"kind": "child", "pid": 4}"#),
        (
            Reply::Flags(OpenFlags(6)),
            r#"{"kind": "flags", "flags": ["NONBLOCK", "CLOEXEC"]}"#,
        ),
        (
            Reply::Err(Errno::EAGAIN),
            r#"{"kind": "err", "errno": "EAGAIN"}"#,
        ),
    ];
    for (reply, wanted) in rows.as_slice() {
        expect(&rt, alloc, reply, wanted)?;
    }
    Ok(())
}

#[test]
fn replies_of_several_descriptors(rt: HostRuntime) -> Result<(), Fail> {
    let alloc = rt.alloc();
    expect(
        &rt,
        alloc,
        &Reply::Polled(Revents::new()),
        r#"{"kind": "polled", "conditions": []}"#,
    )?;
    let mut found = Revents::new();
    found.push(PollFlags::IN | PollFlags::OUT);
    found.push(PollFlags(0));
    found.push(PollFlags::NVAL);
    expect(
        &rt,
        alloc,
        &Reply::Polled(found),
        r#"{"kind": "polled", "conditions": [["IN", "OUT"], [], ["NVAL"]]}"#,
    )
}

#[test]
fn replies_of_bytes_and_names(rt: HostRuntime) -> Result<(), Fail> {
    let alloc = rt.alloc();
    let bytes = Reply::Bytes(Bytes::from_slice(alloc, b"ab\0")?);
    expect(
        &rt,
        alloc,
        &bytes,
        r#"{"kind": "bytes", "bytes": "616200"}"#,
    )?;
    let name = Name::from_slice(alloc, b"s v")?;
    let accepted = Reply::Accepted(Fd(2), Addr::Path(name));
    expect(
        &rt,
        alloc,
        &accepted,
        r#"{"kind": "accepted", "fd": 2, "addr": "p:s%20v"}"#,
    )?;
    expect(
        &rt,
        alloc,
        &Reply::Addr(Addr::Unnamed),
        r#"{"kind": "addr", "addr": "u"}"#,
    )
}

/// What a receive got: `x`, these control bytes, and flags that are set.
fn got(alloc: Global, control: &[u8], from: Option<Addr>) -> Result<Reply, Fail> {
    Ok(Reply::Received {
        flags: MsgFlags::TRUNC | MsgFlags::EOR,
        count: 1,
        bytes: Bytes::from_slice(alloc, b"x")?,
        control: Bytes::from_slice(alloc, control)?,
        from,
    })
}

/// The control bytes of descriptor 5 (SCM_RIGHTS): length 20, level 1, type 1, and the number, as cmsg(3) lays them out.
const RIGHTS: [u8; 24] = [
    20, 0, 0, 0, 0, 0, 0, 0, 1, 0, 0, 0, 1, 0, 0, 0, 5, 0, 0, 0, 0, 0, 0, 0,
];

#[test]
fn replies_of_receives(rt: HostRuntime) -> Result<(), Fail> {
    let alloc = rt.alloc();
    expect(
        &rt,
        alloc,
        &got(alloc, &RIGHTS, None)?,
        r#"{"kind": "got", "n": 1, "bytes": "78", "flags": ["TRUNC", "EOR"], "control": {"cred": null, "rights": [5]}, "from": null}"#,
    )?;
    let from = Addr::Abstract(Name::from_slice(alloc, b"")?);
    expect(
        &rt,
        alloc,
        &got(alloc, b"\x01", Some(from))?,
        r#"{"kind": "got", "n": 1, "bytes": "78", "flags": ["TRUNC", "EOR"], "control": {"raw": "01"}, "from": "a:"}"#,
    )
}

/// Names, and how a script spells them behind `p:` and `a:`: a byte that isn't printable ASCII, a blank and `%` by its
/// digits.
const NAMES: &[(&[u8], &str)] = &[
    (b"", ""),
    (b"run/s.sock", "run/s.sock"),
    (b"a b%c", "a%20b%25c"),
    (&[0, 0x7f, 0xff, b'"'], "%00%7f%ff\""),
];

#[test]
fn names_stand_as_scripts_spell_them(rt: HostRuntime) -> Result<(), Fail> {
    let alloc = rt.alloc();
    for (bytes, spelled) in NAMES {
        let name = Name::from_slice(alloc, bytes)?;
        let wanted = format!(in alloc; "p:{spelled}")?;
        assert!(rt; path_text(alloc, &name)?.as_str() == wanted.as_str());
        let path = Addr::Path(name);
        assert!(rt; addr_text(alloc, &path)?.as_str() == wanted.as_str());
        let name = Addr::Abstract(Name::from_slice(alloc, bytes)?);
        let wanted = format!(in alloc; "a:{spelled}")?;
        assert!(rt; addr_text(alloc, &name)?.as_str() == wanted.as_str());
    }
    assert!(rt; addr_text(alloc, &Addr::Unnamed)?.as_str() == "u");
    Ok(())
}

#[test]
fn credentials_are_three_numbers(rt: HostRuntime) -> Result<(), Fail> {
    let alloc = rt.alloc();
    let cred = Cred {
        pid: Pid(1),
        uid: 0,
        gid: 4294967295,
    };
    let wanted = r#"{"pid": 1, "uid": 0, "gid": 4294967295}"#;
    assert!(rt; cred_value(alloc, cred)? == Value::from_str(alloc, wanted)?);
    Ok(())
}
