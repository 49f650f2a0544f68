//! Datagrams and records: what is refused memory, and what is too long.
use super::{
    Asked, At, Row, Told, bare, expect_refusals_then_rows, expect_rows, expect_rows_of_one_process,
    expect_rows_often, expect_rows_without_memory, process,
};
use std::alloc::AllocError;
use ux_types::{Errno, SockType};

const TARGET: At = At::Abstract(b"target");

const SENDER: At = At::Abstract(b"sender");

/// A target and a sender, each with a name.
const MADE: &[Row] = &[
    (1, Asked::SocketOf(SockType::Dgram), Told::Fd(0)),
    (1, Asked::Bind(0, TARGET), Told::Ok),
    (1, Asked::SocketOf(SockType::Dgram), Told::Fd(1)),
    (1, Asked::Bind(1, SENDER), Told::Ok),
];

/// A call that takes memory: the queue's first message.
const SENT: &[Row] = &[(1, Asked::SendTo(1, TARGET, b"abc"), Told::Count(3))];

/// A peek and a receive of it.
const RECEIVED: &[Row] = &[
    (1, Asked::Recv(0, 2, 1), Told::From(b"ab", 2, SENDER)),
    (1, Asked::Recv(0, 8, 0), Told::From(b"abc", 0, SENDER)),
];

/// Nothing was sent twice, and nothing lost.
const SENT_ONCE: &[Row] = &[(1, Asked::Recv(0, 8, 0), Told::Err(Errno::EAGAIN))];

#[test]
fn a_datagram_without_memory_is_not_sent(rt: HostRuntime) -> Result<(), AllocError> {
    let alloc = rt.alloc();
    let mut machine = bare(alloc, &[process(16)])?;
    expect_rows(&rt, alloc, &mut machine, MADE)?;
    expect_refusals_then_rows(&rt, alloc, &mut machine, SENT)?;
    expect_rows(&rt, alloc, &mut machine, RECEIVED)?;
    expect_rows(&rt, alloc, &mut machine, SENT_ONCE)
}

/// An association takes no memory, and neither does its end.
const ASSOCIATED: &[Row] = &[
    (1, Asked::Connect(1, TARGET), Told::Ok),
    (1, Asked::Close(0), Told::Ok),
    (1, Asked::Send(1, b"x", 0), Told::Err(Errno::ECONNREFUSED)),
    (1, Asked::Send(1, b"x", 0), Told::Err(Errno::EDESTADDRREQ)),
    (
        1,
        Asked::SendTo(1, TARGET, b"x"),
        Told::Err(Errno::ECONNREFUSED),
    ),
];

#[test]
fn a_lost_target_is_told_without_memory(rt: HostRuntime) -> Result<(), AllocError> {
    let alloc = rt.alloc();
    let mut machine = bare(alloc, &[process(16)])?;
    expect_rows(&rt, alloc, &mut machine, MADE)?;
    expect_rows_without_memory(&rt, alloc, &mut machine, ASSOCIATED)
}

const SEND_ONE: &[Row] = &[(1, Asked::SendTo(1, TARGET, b"x"), Told::Count(1))];

/// What is refused whether there is memory or not.
const FULL: &[Row] = &[(1, Asked::SendTo(1, TARGET, b"x"), Told::Err(Errno::EAGAIN))];

#[test]
fn a_full_queue_comes_before_want_of_memory(rt: HostRuntime) -> Result<(), AllocError> {
    let alloc = rt.alloc();
    let mut machine = bare(alloc, &[process(16)])?;
    expect_rows(&rt, alloc, &mut machine, MADE)?;
    expect_rows_often(&rt, alloc, &mut machine, 16, SEND_ONE)?;
    expect_rows_without_memory(&rt, alloc, &mut machine, FULL)?;
    expect_rows(&rt, alloc, &mut machine, FULL)
}

/// The longest datagram and the longest record, and one byte more.
const LONGEST: &[Row] = &[
    (1, Asked::PairOf(SockType::Dgram), Told::Fds(0, 1)),
    (1, Asked::SendMany(0, 65537), Told::Err(Errno::EMSGSIZE)),
    (1, Asked::SendMany(0, 65536), Told::Count(65536)),
    (
        1,
        Asked::SendTo(0, TARGET, b"x"),
        Told::Err(Errno::ECONNREFUSED),
    ),
    (1, Asked::PairOf(SockType::Seq), Told::Fds(2, 3)),
    (1, Asked::SendMany(2, 65537), Told::Err(Errno::EMSGSIZE)),
    (1, Asked::SendMany(2, 65536), Told::Count(65536)),
    (1, Asked::Close(3), Told::Ok),
    (1, Asked::SendMany(2, 65537), Told::Err(Errno::EPIPE)),
    (1, Asked::Close(1), Told::Ok),
    (1, Asked::SendMany(0, 65537), Told::Err(Errno::EMSGSIZE)),
    (1, Asked::SendMany(0, 65536), Told::Err(Errno::ECONNREFUSED)),
];

#[test]
fn a_message_has_65536_bytes_at_most(rt: HostRuntime) -> Result<(), AllocError> {
    expect_rows_of_one_process(&rt, rt.alloc(), 16, LONGEST)
}
