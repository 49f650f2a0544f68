//! Pairs of sockets, what is sent through them, and their further descriptors.
use super::{
    Asked, Row, Told, bare, expect_refusals_then_rows, expect_rows, expect_rows_of_one_process,
    expect_rows_often, process, turns_off,
};
use std::alloc::AllocError;
use ux_types::{Errno, Pid};

/// A pair from its making to its end.
const A_PAIR: &[Row] = &[
    (1, Asked::Pair, Told::Fds(0, 1)),
    (1, Asked::Send(0, b"ab", 0), Told::Count(2)),
    (1, Asked::Recv(1, 1, 1), Told::Got(b"a")),
    (1, Asked::Recv(1, 8, 0), Told::Got(b"ab")),
    (1, Asked::Recv(1, 8, 0), Told::Err(Errno::EAGAIN)),
    (1, Asked::Send(0, b"", 0), Told::Count(0)),
    (1, Asked::Recv(1, 0, 0), Told::Got(b"")),
    (1, Asked::Send(0, b"x", 0), Told::Count(1)),
    (1, Asked::Close(1), Told::Ok),
    (1, Asked::Recv(0, 8, 0), Told::Err(Errno::ECONNRESET)),
    (1, Asked::Recv(0, 8, 0), Told::Got(b"")),
    (1, Asked::Send(0, b"x", 0), Told::Err(Errno::EPIPE)),
    (1, Asked::Close(0), Told::Ok),
    (1, Asked::Close(0), Told::Err(Errno::EBADF)),
    (1, Asked::Exit, Told::Ok),
];

#[test]
fn a_pair_from_its_making_to_its_end(rt: HostRuntime) -> Result<(), AllocError> {
    let alloc = rt.alloc();
    let mut machine = bare(alloc, &[process(16)])?;
    expect_rows(&rt, alloc, &mut machine, A_PAIR)?;
    assert!(rt; !machine.kernel.is_live(Pid(1)));
    Ok(())
}

/// Calls that take memory before a message is sent.
const MADE_AND_SENT: &[Row] = &[
    (1, Asked::Pair, Told::Fds(0, 1)),
    (1, Asked::Send(0, b"abcdefghijklmnop", 0), Told::Count(16)),
];

/// A further send.
const SENT: &[Row] = &[(1, Asked::Send(0, b"def", 0), Told::Count(3))];

/// Calls that take memory to receive, as for each more than 14 bytes.
const RECEIVED: &[Row] = &[
    (1, Asked::Recv(1, 15, 1), Told::Got(b"abcdefghijklmno")),
    (1, Asked::Recv(1, 17, 0), Told::Got(b"abcdefghijklmnopd")),
];

/// What shows that a refused call took nothing.
const AFTERWARDS: &[Row] = &[
    (1, Asked::Pair, Told::Fds(2, 3)),
    (1, Asked::Close(1), Told::Ok),
    (1, Asked::Recv(0, 8, 0), Told::Err(Errno::ECONNRESET)),
    (1, Asked::Exit, Told::Ok),
];

#[test]
fn a_call_without_memory_changes_nothing(rt: HostRuntime) -> Result<(), AllocError> {
    let alloc = rt.alloc();
    let mut machine = bare(alloc, &[process(16)])?;
    let k = &mut machine;
    expect_refusals_then_rows(&rt, alloc, k, MADE_AND_SENT)?;
    expect_rows(&rt, alloc, k, SENT)?;
    expect_refusals_then_rows(&rt, alloc, k, RECEIVED)?;
    expect_rows(&rt, alloc, k, AFTERWARDS)
}

/// Flags that a send or a receive takes, and others.
const FLAGS: &[Row] = &[
    (1, Asked::Pair, Told::Fds(0, 1)),
    (1, Asked::Send(0, b"a", 1), Told::Err(Errno::EINVAL)),
    (1, Asked::Send(0, b"a", 2), Told::Err(Errno::EINVAL)),
    (1, Asked::Send(0, b"a", 8), Told::Err(Errno::EINVAL)),
    (1, Asked::Send(0, b"a", 16), Told::Err(Errno::EINVAL)),
    (1, Asked::Send(0, b"a", 64), Told::Err(Errno::EINVAL)),
    (1, Asked::Send(0, b"a", 128), Told::Err(Errno::EINVAL)),
    (1, Asked::Recv(1, 8, 16), Told::Err(Errno::EINVAL)),
    (1, Asked::Recv(1, 8, 32), Told::Err(Errno::EINVAL)),
    (1, Asked::Recv(1, 8, 64), Told::Err(Errno::EINVAL)),
    (1, Asked::Recv(1, 8, 128), Told::Err(Errno::EINVAL)),
    (1, Asked::Send(2, b"a", 1), Told::Err(Errno::EBADF)),
    (1, Asked::Recv(2, 8, 16), Told::Err(Errno::EBADF)),
    (1, Asked::Send(0, b"a", 36), Told::Count(1)),
    (1, Asked::Recv(1, 8, 15), Told::Got(b"a")),
    (1, Asked::Recv(1, 8, 14), Told::Got(b"a")),
];

#[test]
fn flags_are_checked_behind_the_descriptor(rt: HostRuntime) -> Result<(), AllocError> {
    expect_rows_of_one_process(&rt, rt.alloc(), 16, FLAGS)
}

/// A queue with room for one byte, between a send and a receive of many.
const ONE_BYTE: &[Row] = &[
    (1, Asked::Pair, Told::Fds(0, 1)),
    (1, Asked::SendMany(0, 70000), Told::Count(65536)),
    (1, Asked::Send(0, b"y", 0), Told::Err(Errno::EAGAIN)),
    (1, Asked::Send(0, b"", 0), Told::Count(0)),
    (1, Asked::Recv(1, 1, 0), Told::Got(b"x")),
    (1, Asked::Send(0, b"yz", 0), Told::Count(1)),
    (1, Asked::Recv(1, 65535, 0), Told::GotMany(65535)),
    (1, Asked::Recv(1, 8, 0), Told::Got(b"y")),
];

#[test]
fn a_full_queue_takes_what_fits(rt: HostRuntime) -> Result<(), AllocError> {
    expect_rows_of_one_process(&rt, rt.alloc(), 16, ONE_BYTE)
}

const PAIR: &[Row] = &[(1, Asked::Pair, Told::Fds(0, 1))];

const SEND_ONE: &[Row] = &[(1, Asked::Send(0, b"x", 0), Told::Count(1))];

/// What is left of a queue that single bytes have filled.
const FILLED: &[Row] = &[
    (1, Asked::Send(0, b"x", 0), Told::Err(Errno::EAGAIN)),
    (1, Asked::Recv(1, 1000000, 1), Told::GotMany(65536)),
    (1, Asked::Recv(1, 1000000, 0), Told::GotMany(65536)),
    (1, Asked::Recv(1, 1000000, 0), Told::Err(Errno::EAGAIN)),
];

#[test]
fn a_queue_of_single_bytes_is_taken_at_once(rt: HostRuntime) -> Result<(), AllocError> {
    let alloc = rt.alloc();
    let mut machine = bare(alloc, &[process(16)])?;
    let k = &mut machine;
    expect_rows(&rt, alloc, k, PAIR)?;
    expect_rows_often(&rt, alloc, k, 65536, SEND_ONE)?;
    expect_rows(&rt, alloc, k, FILLED)
}

/// A queue that one send and one byte fill.
const FULL: &[Row] = &[
    (1, Asked::Pair, Told::Fds(0, 1)),
    (1, Asked::SendMany(0, 65535), Told::Count(65535)),
    (1, Asked::Send(0, b"y", 0), Told::Count(1)),
];

const RECEIVE_ONE: &[Row] = &[(1, Asked::Recv(1, 1, 0), Told::Got(b"x"))];

/// Its last byte.
const LAST: &[Row] = &[
    (1, Asked::Recv(1, 1, 0), Told::Got(b"y")),
    (1, Asked::Recv(1, 1, 0), Told::Err(Errno::EAGAIN)),
];

#[test]
fn a_full_queue_is_taken_byte_by_byte(rt: HostRuntime) -> Result<(), AllocError> {
    let alloc = rt.alloc();
    let mut machine = bare(alloc, &[process(16)])?;
    let k = &mut machine;
    expect_rows(&rt, alloc, k, FULL)?;
    expect_rows_often(&rt, alloc, k, 65535, RECEIVE_ONE)?;
    expect_rows(&rt, alloc, k, LAST)
}

/// Two processes with a pair each, up to the exit of the first.
const TWO_PAIRS: &[Row] = &[
    (1, Asked::Pair, Told::Fds(0, 1)),
    (2, Asked::Pair, Told::Fds(0, 1)),
    (1, Asked::Send(0, b"a", 0), Told::Count(1)),
    (2, Asked::Send(0, b"b", 0), Told::Count(1)),
    (1, Asked::Exit, Told::Ok),
];

/// The second receives its own message.
const SECOND: &[Row] = &[
    (2, Asked::Recv(1, 8, 0), Told::Got(b"b")),
    (2, Asked::Exit, Told::Ok),
];

#[test]
fn an_exit_leaves_the_pairs_of_others(rt: HostRuntime) -> Result<(), AllocError> {
    let alloc = rt.alloc();
    let mut machine = bare(alloc, &[process(16), process(16)])?;
    let k = &mut machine;
    expect_rows(&rt, alloc, k, TWO_PAIRS)?;
    assert!(rt; !k.kernel.is_live(Pid(1)));
    expect_rows(&rt, alloc, k, SECOND)?;
    assert!(rt; !k.kernel.has_live());
    assert!(rt; k.kernel.process_count() == 2);
    assert!(rt; turns_off(k));
    Ok(())
}
