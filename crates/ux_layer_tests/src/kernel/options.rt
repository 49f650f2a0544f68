//! Options and readiness: what is refused memory, and what needs none.
use super::{
    Asked, At, Row, Told, bare, expect_refusals_then_rows, expect_rows, expect_rows_without_memory,
    process,
};
use std::alloc::AllocError;
use ux_types::{Errno, SockOpt, SockType};

const SOCKET: &[Row] = &[(1, Asked::SocketOf(SockType::Dgram), Told::Fd(0))];

/// It binds the socket to a name, which takes memory.
const ON: &[Row] = &[(1, Asked::SetOpt(0, SockOpt::PassCred, 1), Told::Ok)];

const STILL_OFF: &[Row] = &[
    (
        1,
        Asked::SetOpt(0, SockOpt::PassCred, 1),
        Told::Err(Errno::ENOMEM),
    ),
    (1, Asked::GetOpt(0, SockOpt::PassCred), Told::Opt(0)),
];

const NAMED: &[Row] = &[
    (1, Asked::GetOpt(0, SockOpt::PassCred), Told::Opt(1)),
    (1, Asked::SockName(0), Told::Addr(At::Abstract(b"00000"))),
];

#[test]
fn an_option_without_memory_stays_off(rt: HostRuntime) -> Result<(), AllocError> {
    let alloc = rt.alloc();
    let mut machine = bare(alloc, &[process(16)])?;
    expect_rows(&rt, alloc, &mut machine, SOCKET)?;
    expect_rows_without_memory(&rt, alloc, &mut machine, STILL_OFF)?;
    expect_refusals_then_rows(&rt, alloc, &mut machine, ON)?;
    expect_rows(&rt, alloc, &mut machine, NAMED)
}

/// A pair of which one end is lost with an unread byte.
const LOST: &[Row] = &[
    (1, Asked::Pair, Told::Fds(0, 1)),
    (1, Asked::Send(0, b"x", 0), Told::Count(1)),
    (1, Asked::Close(1), Told::Ok),
];

/// Options and conditions are reported, and options that bind no name are set, without memory.
const ASKED: &[Row] = &[
    (1, Asked::Poll(0), Told::Poll(0b01_1111)),
    (1, Asked::GetOpt(0, SockOpt::Error), Told::Opt(20)),
    (1, Asked::GetOpt(0, SockOpt::Error), Told::Opt(0)),
    (1, Asked::Poll(0), Told::Poll(0b00_1111)),
    (1, Asked::Poll(1), Told::Poll(0b10_0000)),
    (1, Asked::GetOpt(0, SockOpt::Kind), Told::Opt(1)),
    (1, Asked::GetOpt(0, SockOpt::AcceptConn), Told::Opt(0)),
    (
        1,
        Asked::GetOpt(0, SockOpt::PeerCred),
        Told::Cred(1, 1000, 1000),
    ),
    (1, Asked::SetOpt(0, SockOpt::PassCred, 1), Told::Ok),
    (1, Asked::GetOpt(0, SockOpt::PassCred), Told::Opt(1)),
    (1, Asked::SetOpt(0, SockOpt::PassCred, 0), Told::Ok),
    (
        1,
        Asked::SetOpt(0, SockOpt::Kind, 1),
        Told::Err(Errno::EINVAL),
    ),
];

#[test]
fn options_and_conditions_are_told_without_memory(rt: HostRuntime) -> Result<(), AllocError> {
    let alloc = rt.alloc();
    let mut machine = bare(alloc, &[process(16)])?;
    expect_rows(&rt, alloc, &mut machine, LOST)?;
    expect_rows_without_memory(&rt, alloc, &mut machine, ASKED)
}
