//! Options and poll: what their calls ask for, what is no such call, and how a trace has their replies.
use super::traces::{Row, expect_fifth, expect_rows};
use super::{expect_bad_lines, expect_request};
use std::test::*;
use ux_types::{Cred, Fd, Pid, PollFlags, Reply, Request, SockOpt};

/// Each option as it is written.
const OPTIONS: &[(&str, SockOpt)] = &[
    ("type", SockOpt::Kind),
    ("error", SockOpt::Error),
    ("passcred", SockOpt::PassCred),
    ("peercred", SockOpt::PeerCred),
    ("accept", SockOpt::AcceptConn),
    ("qlimit", SockOpt::QueueLimit),
];

#[test]
fn options_are_read(rt: HostRuntime) -> Result<(), Fail> {
    let alloc = rt.alloc();
    let fd = Fd(3);
    let value = 1;
    for (text, opt) in OPTIONS {
        let opt = *opt;
        let call = format!(in alloc; "getopt 3 {text}")?;
        expect_request(&rt, alloc, &call, Request::GetOpt { fd, opt })?;
        let call = format!(in alloc; "setopt 3 {text} 1")?;
        expect_request(&rt, alloc, &call, Request::SetOpt { fd, opt, value })?;
    }
    Ok(())
}

/// Values of an option as they are written.
const VALUES: &[(&str, u64)] = &[("0", 0), ("10", 10), ("4294967295", 4294967295)];

#[test]
fn values_of_options_are_read(rt: HostRuntime) -> Result<(), Fail> {
    let alloc = rt.alloc();
    let fd = Fd(0);
    let opt = SockOpt::PassCred;
    for (text, value) in VALUES {
        let value = *value;
        let call = format!(in alloc; "setopt 0 passcred {text}")?;
        expect_request(&rt, alloc, &call, Request::SetOpt { fd, opt, value })?;
    }
    Ok(())
}

#[test]
fn polls_are_read(rt: HostRuntime) -> Result<(), Fail> {
    let alloc = rt.alloc();
    let poll = Request::Poll { fd: Fd(3) };
    expect_request(&rt, alloc, "poll 3", poll)?;
    let poll = Request::Poll { fd: Fd(4294967295) };
    expect_request(&rt, alloc, "poll 4294967295", poll)
}

/// Calls of options and of poll that are bad lines.
const BAD_CALLS: &[&str] = &[
    "getopt",
    "getopt 3",
    "getopt 3 -",
    "getopt 3 Type",
    "getopt 3 kind",
    "getopt 3 SO_TYPE",
    "getopt 3 acceptconn",
    "getopt 3 type,error",
    "getopt type 3",
    "getopt 03 type",
    "getopt 3 type 1",
    "getsockopt 3 type",
    "setopt",
    "setopt 3",
    "setopt 3 passcred",
    "setopt 3 passcred -",
    "setopt 3 passcred -1",
    "setopt 3 passcred 01",
    "setopt 3 passcred on",
    "setopt 3 passcred 4294967296",
    "setopt 3 passcred 1 1",
    "setopt 3 1 passcred",
    "setopt passcred 3 1",
    "setsockopt 3 passcred 1",
    "poll",
    "poll -",
    "poll u",
    "poll 03",
    "poll 3 3",
    "poll 3 IN",
    "poll 4294967296",
    "Poll 3",
];

#[test]
fn bad_calls_of_options_are_reported(rt: HostRuntime) -> Result<(), Fail> {
    expect_bad_lines(&rt, rt.alloc(), "1 ", BAD_CALLS, "")
}

#[test]
fn entries_of_options_are_printed(rt: HostRuntime) -> Result<(), Fail> {
    // Entries of the calls on options.
    let rows = vec![in rt.alloc();
        (
            (5, 7),
            "getopt 3 error",
            Reply::Opt(0),
            "5 1 7 getopt = opt 0\n",
        ),
        (
            (5, 7),
            "getopt 3 type",
            Reply::Opt(5),
            "5 1 7 getopt = opt 5\n",
        ),
        (
            (5, 7),
            "getopt 3 error",
            Reply::Opt(18446744073709551615),
            "5 1 7 getopt = opt 18446744073709551615\n",
        ),
        (
            (5, 7),
            "getopt 3 peercred",
            Reply::Cred(Cred {
                pid: Pid(2),
                uid: 1000,
                gid: 100,
            }),
            "5 1 7 getopt = cred 2 1000 100\n",
        ),
        (
            (5, 7),
            "getopt 3 peercred",
            Reply::Cred(Cred {
                pid: Pid(2),
                uid: 0,
                gid: 4294967295,
            }),
            "5 1 7 getopt = cred 2 0 4294967295\n",
        ),
        (
            (5, 7),
            "setopt 3 passcred 1",
            Reply::Ok,
            "5 1 7 setopt = ok\n",
        ),
    ]?;
    expect_rows(&rt, rt.alloc(), rows)
}

/// Bits of conditions, and their names. The last two bits have none.
const CONDITIONS: &[(u8, &str)] = &[
    (0, "-"),
    (1, "IN"),
    (2, "OUT"),
    (4, "RDHUP"),
    (8, "HUP"),
    (16, "ERR"),
    (32, "NVAL"),
    (3, "IN|OUT"),
    (13, "IN|RDHUP|HUP"),
    (63, "IN|OUT|RDHUP|HUP|ERR|NVAL"),
    (64 + 128, "-"),
];

#[test]
fn conditions_are_printed(rt: HostRuntime) -> Result<(), Fail> {
    let alloc = rt.alloc();
    for (bits, names) in CONDITIONS {
        let found = Reply::Poll(PollFlags(*bits));
        let line = format!(in alloc; "5 1 7 poll = poll {names}\n")?;
        expect_fifth(&rt, alloc, "poll 3", found, &line)?;
    }
    Ok(())
}
