//! The limit of a stream socket's queue, and tables of 4,096 descriptors.
use super::{
    Asked, At, Case, Machine, Row, Told, bare, expect_reply, expect_rows,
    expect_rows_of_one_process, expect_rows_without_memory, pass, process, taken,
};
use std::alloc::{AllocError, Global};
use std::process::Abort;
use ux_types::{Errno, Fd, MsgFlags, Reply, Request, SockOpt, SockType};

const LIMIT: SockOpt = SockOpt::QueueLimit;

/// A queue with the greatest limit, between a send of one byte too many and a receive of more than there are.
const GREATEST: &[Row] = &[
    (1, Asked::Pair, Told::Fds(0, 1)),
    (1, Asked::SetOpt(1, LIMIT, 1048576), Told::Ok),
    (1, Asked::SendMany(0, 1048577), Told::Count(1048576)),
    (1, Asked::Send(0, b"y", 0), Told::Err(Errno::EAGAIN)),
    (1, Asked::Recv(1, 1048577, 0), Told::GotMany(1048576)),
    (1, Asked::Recv(1, 8, 0), Told::Err(Errno::EAGAIN)),
];

#[test]
fn the_greatest_limit_takes_1048576_bytes(rt: HostRuntime) -> Result<(), AllocError> {
    expect_rows_of_one_process(&rt, rt.alloc(), 16, GREATEST)
}

/// A queue of messages with rights whose limit is lowered below what waits, and raised.
const WITH_RIGHTS: &[Row] = &[
    (1, Asked::Pair, Told::Fds(0, 1)),
    (1, Asked::SetOpt(1, LIMIT, 2), Told::Ok),
    (1, Asked::Pass(0, &[0]), Told::Count(1)),
    (1, Asked::Pass(0, &[0, 1]), Told::Count(1)),
    (1, Asked::Pass(0, &[0]), Told::Err(Errno::EAGAIN)),
    (1, Asked::SetOpt(1, LIMIT, 1), Told::Ok),
    (1, Asked::Poll(0), Told::Poll(0)),
    (1, Asked::Take(1, 64, 0), Told::Taken(0, &[2])),
    (1, Asked::Poll(0), Told::Poll(0)),
    (1, Asked::Pass(0, &[0]), Told::Err(Errno::EAGAIN)),
    (1, Asked::SetOpt(1, LIMIT, 70000), Told::Ok),
    (1, Asked::Poll(0), Told::Poll(2)),
    (1, Asked::Pass(0, &[2]), Told::Count(1)),
    (1, Asked::SendMany(0, 70000), Told::Count(69998)),
    (1, Asked::Take(1, 64, 0), Told::Taken(0, &[3, 4])),
    (1, Asked::Take(1, 64, 0), Told::Taken(0, &[5])),
    (1, Asked::Recv(1, 70000, 0), Told::GotMany(69998)),
    (1, Asked::Exit, Told::Ok),
];

#[test]
fn a_lowered_limit_drops_nothing(rt: HostRuntime) -> Result<(), AllocError> {
    expect_rows_of_one_process(&rt, rt.alloc(), 16, WITH_RIGHTS)
}

const THREE_PAIRS: &[Row] = &[
    (1, Asked::Pair, Told::Fds(0, 1)),
    (1, Asked::PairOf(SockType::Dgram), Told::Fds(2, 3)),
    (1, Asked::PairOf(SockType::Seq), Told::Fds(4, 5)),
];

/// What is reported of limits, and what is refused, all without memory.
const SET_AND_TOLD: &[Row] = &[
    (1, Asked::GetOpt(0, LIMIT), Told::Opt(65536)),
    (1, Asked::SetOpt(0, LIMIT, 0), Told::Err(Errno::EINVAL)),
    (1, Asked::SetOpt(0, LIMIT, 1), Told::Ok),
    (1, Asked::GetOpt(0, LIMIT), Told::Opt(1)),
    (1, Asked::SetOpt(0, LIMIT, 1048576), Told::Ok),
    (
        1,
        Asked::SetOpt(0, LIMIT, 1048577),
        Told::Err(Errno::EINVAL),
    ),
    (
        1,
        Asked::SetOpt(0, LIMIT, u64::MAX),
        Told::Err(Errno::EINVAL),
    ),
    (
        1,
        Asked::SetOpt(0, LIMIT, 1 << 32),
        Told::Err(Errno::EINVAL),
    ),
    (1, Asked::GetOpt(0, LIMIT), Told::Opt(1048576)),
    (1, Asked::GetOpt(1, LIMIT), Told::Opt(65536)),
    (1, Asked::GetOpt(2, LIMIT), Told::Err(Errno::EOPNOTSUPP)),
    (1, Asked::SetOpt(2, LIMIT, 0), Told::Err(Errno::EOPNOTSUPP)),
    (1, Asked::SetOpt(3, LIMIT, 8), Told::Err(Errno::EOPNOTSUPP)),
    (1, Asked::GetOpt(4, LIMIT), Told::Err(Errno::EOPNOTSUPP)),
    (1, Asked::SetOpt(5, LIMIT, 8), Told::Err(Errno::EOPNOTSUPP)),
    (1, Asked::GetOpt(6, LIMIT), Told::Err(Errno::EBADF)),
    (1, Asked::SetOpt(6, LIMIT, 0), Told::Err(Errno::EBADF)),
];

#[test]
fn limits_are_set_and_told_without_memory(rt: HostRuntime) -> Result<(), AllocError> {
    let alloc = rt.alloc();
    let mut machine = bare(alloc, &[process(16)])?;
    expect_rows(&rt, alloc, &mut machine, THREE_PAIRS)?;
    expect_rows_without_memory(&rt, alloc, &mut machine, SET_AND_TOLD)
}

/// A listener has a limit too, set while it is idle and while it listens, and its servers' ends have the first one.
const LISTENER: &[Row] = &[
    (1, Asked::Socket, Told::Fd(0)),
    (1, Asked::SetOpt(0, LIMIT, 5), Told::Ok),
    (1, Asked::Bind(0, At::Abstract(b"s")), Told::Ok),
    (1, Asked::Listen(0, 1), Told::Ok),
    (1, Asked::SetOpt(0, LIMIT, 6), Told::Ok),
    (1, Asked::Socket, Told::Fd(1)),
    (1, Asked::SetOpt(1, LIMIT, 7), Told::Ok),
    (1, Asked::Connect(1, At::Abstract(b"s")), Told::Ok),
    (1, Asked::Accept(0, 0), Told::Accepted(2, At::Unnamed)),
    (1, Asked::GetOpt(0, LIMIT), Told::Opt(6)),
    (1, Asked::GetOpt(1, LIMIT), Told::Opt(7)),
    (1, Asked::GetOpt(2, LIMIT), Told::Opt(65536)),
    (1, Asked::SendMany(2, 8), Told::Count(7)),
    (1, Asked::Close(1), Told::Ok),
    (1, Asked::SetOpt(2, LIMIT, 9), Told::Ok),
    (1, Asked::GetOpt(2, LIMIT), Told::Opt(9)),
];

#[test]
fn a_servers_end_has_the_first_limit(rt: HostRuntime) -> Result<(), AllocError> {
    expect_rows_of_one_process(&rt, rt.alloc(), 16, LISTENER)
}

/// The most descriptors of a process, and of a message.
const MOST: u32 = 4096;

const PASSED: u32 = 253;

/// A process that has opened all its numbers, the first two a pair.
fn full_process(rt: &impl Abort, alloc: Global) -> Result<Machine, AllocError> {
    let mut machine = bare(alloc, &[process(5000)])?;
    expect_rows(
        rt,
        alloc,
        &mut machine,
        &[(1, Asked::Pair, Told::Fds(0, 1))],
    )?;
    for number in 2..MOST {
        let row = (1, Asked::Socket, Told::Fd(number));
        expect_rows(rt, alloc, &mut machine, &[row])?;
    }
    let full = (1, Asked::Socket, Told::Err(Errno::EMFILE));
    expect_rows(rt, alloc, &mut machine, &[full])?;
    Ok(machine)
}

/// Closes numbers from this one on, as many as a message passes.
fn close_from(
    rt: &impl Abort,
    alloc: Global,
    machine: &mut Machine,
    first: u32,
) -> Result<(), AllocError> {
    for number in first..first.saturating_add(PASSED) {
        expect_rows(rt, alloc, machine, &[(1, Asked::Close(number), Told::Ok)])?;
    }
    Ok(())
}

/// So many numbers from this one on.
fn numbers_from(alloc: Global, first: u32) -> Result<Vec<u32>, AllocError> {
    let mut numbers = Vec::new(alloc);
    for number in first..first.saturating_add(PASSED) {
        numbers.push(number)?;
    }
    Ok(numbers)
}

/// A receive of one byte with room for all rights of a message.
const RECEIVE: Request = Request::RecvMsg {
    fd: Fd(1),
    n: 1,
    space: 1028,
    flags: MsgFlags(0),
};

#[test]
fn the_last_of_4096_descriptors_are_passed(rt: HostRuntime) -> Result<(), AllocError> {
    let alloc = rt.alloc();
    let mut machine = full_process(&rt, alloc)?;
    let first = MOST - PASSED;
    let request = pass(alloc, 0, &numbers_from(alloc, first)?)?;
    let reply = Reply::Count(1);
    expect_reply(&rt, &mut machine, 1, &Case { request, reply });
    close_from(&rt, alloc, &mut machine, first)?;
    let reply = taken(alloc, 0, &numbers_from(alloc, first)?)?;
    let request = RECEIVE;
    expect_reply(&rt, &mut machine, 1, &Case { request, reply });
    close_from(&rt, alloc, &mut machine, 1000)?;
    expect_rows(&rt, alloc, &mut machine, &[(1, Asked::Exit, Told::Ok)])
}
