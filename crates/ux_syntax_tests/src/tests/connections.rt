//! Calls of names and connections: what each asks for, and what is no call.
use super::{addr_of, expect_bad_lines, expect_request};
use std::alloc::Global;
use std::process::Abort;
use std::test::*;
use ux_types::{Fd, Mode, OpenFlags, Request, SockType};

#[test]
fn calls_of_connections_are_read(rt: HostRuntime) -> Result<(), Fail> {
    let alloc = rt.alloc();
    let fd = Fd(3);
    let flags = OpenFlags(6);
    expect_request(&rt, alloc, "accept 3 nx", Request::Accept { fd, flags })?;
    expect_request(&rt, alloc, "sockname 3", Request::GetSockName { fd })?;
    expect_request(&rt, alloc, "peername 3", Request::GetPeerName { fd })
}

/// Each type of socket as it is written.
const TYPES: &[(&str, SockType)] = &[
    ("stream", SockType::Stream),
    ("dgram", SockType::Dgram),
    ("seq", SockType::Seq),
];

#[test]
fn types_of_sockets_are_read(rt: HostRuntime) -> Result<(), Fail> {
    let alloc = rt.alloc();
    let flags = OpenFlags(6);
    for (text, kind) in TYPES {
        let kind = *kind;
        let call = format!(in alloc; "socket {text} nx")?;
        expect_request(&rt, alloc, &call, Request::Socket { kind, flags })?;
        let call = format!(in alloc; "pair {text} nx")?;
        expect_request(&rt, alloc, &call, Request::SocketPair { kind, flags })?;
    }
    Ok(())
}

/// Each way in which a socket is shut down, as it is written.
const WAYS: &[(&str, Mode)] = &[("r", Mode::Read), ("w", Mode::Write), ("rw", Mode::Both)];

#[test]
fn shutdowns_are_read(rt: HostRuntime) -> Result<(), Fail> {
    let alloc = rt.alloc();
    let fd = Fd(3);
    for (text, how) in WAYS {
        let how = *how;
        let call = format!(in alloc; "shut 3 {text}")?;
        expect_request(&rt, alloc, &call, Request::Shutdown { fd, how })?;
    }
    Ok(())
}

/// Sees that an address is read, as a socket's own and as one to connect to.
fn expect_addr(
    rt: &impl Abort,
    alloc: Global,
    text: &str,
    form: char,
    name: &[u8],
) -> Result<(), Fail> {
    let fd = Fd(3);
    let call = format!(in alloc; "bind 3 {text}")?;
    let addr = addr_of(alloc, form, name)?;
    expect_request(rt, alloc, &call, Request::Bind { fd, addr })?;
    let call = format!(in alloc; "connect 3 {text}")?;
    let addr = addr_of(alloc, form, name)?;
    expect_request(rt, alloc, &call, Request::Connect { fd, addr })
}

/// Addresses as they are written, their form, and the bytes of their name.
const ADDRESSES: &[(&str, char, &[u8])] = &[
    ("u", 'u', b""),
    ("p:s", 'p', b"s"),
    ("p:", 'p', b""),
    ("p:/run/a%20b", 'p', b"/run/a b"),
    ("p:a:x", 'p', b"a:x"),
    ("a:", 'a', b""),
    ("a:u", 'a', b"u"),
    ("a:00001", 'a', b"00001"),
    ("a:%00%25%ff", 'a', &[0, b'%', 0xff]),
    ("a:!~%7f", 'a', &[0x21, 0x7e, 0x7f]),
];

#[test]
fn addresses_are_read(rt: HostRuntime) -> Result<(), Fail> {
    for (text, form, name) in ADDRESSES {
        expect_addr(&rt, rt.alloc(), text, *form, name)?;
    }
    Ok(())
}

/// What is no address.
const BAD_ADDRESSES: &[&str] = &[
    "", "-", "s", "/s", "p", "a", ":", ":s", "uu", "u:", "U", "P:s", "x:s", "p=s", "ap:s", "p:%73",
    "a:%7e", "a:%2", "a:%", "a:%FF", "a:%zz", "a:\u{7f}", "p:\t", "a:\u{e9}",
];

#[test]
fn bad_addresses_are_reported(rt: HostRuntime) -> Result<(), Fail> {
    expect_bad_lines(&rt, rt.alloc(), "1 bind 3 ", BAD_ADDRESSES, "")?;
    expect_bad_lines(&rt, rt.alloc(), "1 connect 3 ", BAD_ADDRESSES, "")
}

/// Backlogs as they are written.
const BACKLOGS: &[(&str, i32)] = &[
    ("0", 0),
    ("1", 1),
    ("-1", -1),
    ("128", 128),
    ("-2147483648", i32::MIN),
    ("2147483647", i32::MAX),
];

#[test]
fn backlogs_are_read(rt: HostRuntime) -> Result<(), Fail> {
    let alloc = rt.alloc();
    let fd = Fd(0);
    for (text, backlog) in BACKLOGS {
        let backlog = *backlog;
        let call = format!(in alloc; "listen 0 {text}")?;
        expect_request(&rt, alloc, &call, Request::Listen { fd, backlog })?;
    }
    Ok(())
}

/// What is no backlog.
const BAD_BACKLOGS: &[&str] = &[
    "",
    "-",
    "-0",
    "00",
    "01",
    "-01",
    "+1",
    "--1",
    "1-",
    "0x1",
    "2147483648",
    "-2147483649",
    "4294967295",
    "9223372036854775807",
    "99999999999999999999",
];

#[test]
fn bad_backlogs_are_reported(rt: HostRuntime) -> Result<(), Fail> {
    expect_bad_lines(&rt, rt.alloc(), "1 listen 0 ", BAD_BACKLOGS, "")
}

/// Calls of names and connections that are bad lines.
const BAD_CALLS: &[&str] = &[
    "socket",
    "socket -",
    "socket stream",
    "socket stream xa",
    "socket stream - -",
    "socket raw -",
    "socket seqpacket -",
    "shut 3",
    "shut 3 wr",
    "shut 3 -",
    "shut r 3",
    "shut 3 r w",
    "socket Stream -",
    "bind",
    "bind 3",
    "bind u",
    "bind u 3",
    "bind -1 u",
    "bind 3 u u",
    "listen",
    "listen 0",
    "listen 0 1 1",
    "listen -1 0",
    "connect",
    "connect 3",
    "connect u",
    "connect 3 u -",
    "accept",
    "accept 3",
    "accept -",
    "accept 3 xn",
    "accept 3 - -",
    "accept4 3 -",
    "sockname",
    "sockname u",
    "sockname 3 3",
    "getsockname 3",
    "peername",
    "peername 03",
    "peername 3 u",
    "getpeername 3",
];

#[test]
fn bad_calls_of_connections_are_reported(rt: HostRuntime) -> Result<(), Fail> {
    expect_bad_lines(&rt, rt.alloc(), "1 ", BAD_CALLS, "")
}
