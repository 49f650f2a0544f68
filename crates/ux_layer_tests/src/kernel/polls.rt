//! poll(2) of several descriptors, with and without waiting.
use super::{Asked, Row, Told, expect_rows_of_one_process};
use std::alloc::AllocError;
use ux_types::Errno;

/// What is asked for is told alone, and a number that isn't open (32) and a lost peer (8) in any case. One that waits and finds
/// nothing is answered EAGAIN, one that doesn't wait tells that there is nothing.
const SEVERAL: &[Row] = &[
    (1, Asked::Pair, Told::Fds(0, 1)),
    (
        1,
        Asked::Polls(&[(0, 1), (1, 1)], true),
        Told::Err(Errno::EAGAIN),
    ),
    (
        1,
        Asked::Polls(&[(0, 1), (1, 1)], false),
        Told::Polled(&[0, 0]),
    ),
    (
        1,
        Asked::Polls(&[(0, 3), (1, 0), (7, 0)], false),
        Told::Polled(&[2, 0, 32]),
    ),
    (1, Asked::Send(0, b"x", 0), Told::Count(1)),
    (
        1,
        Asked::Polls(&[(0, 1), (1, 5)], true),
        Told::Polled(&[0, 1]),
    ),
    (1, Asked::Recv(1, 1, 0), Told::Got(b"x")),
    (1, Asked::Polls(&[(1, 1)], true), Told::Err(Errno::EAGAIN)),
    (1, Asked::Close(0), Told::Ok),
    (1, Asked::Polls(&[(1, 0)], true), Told::Polled(&[8])),
    // RDHUP, and room to be told that nobody is there.
    (
        1,
        Asked::Polls(&[(1, 4), (1, 2)], true),
        Told::Polled(&[12, 10]),
    ),
    (1, Asked::Polls(&[], true), Told::Err(Errno::EAGAIN)),
    (1, Asked::Polls(&[], false), Told::Polled(&[])),
];

#[test]
fn several_descriptors_are_polled(rt: HostRuntime) -> Result<(), AllocError> {
    expect_rows_of_one_process(&rt, rt.alloc(), 16, SEVERAL)
}

/// At most 64.
const MANY: &[Row] = &[
    (1, Asked::Pair, Told::Fds(0, 1)),
    (1, Asked::Polls(&[(0, 2); 64], true), Told::Polled(&[2; 64])),
    (
        1,
        Asked::Polls(&[(0, 2); 65], true),
        Told::Err(Errno::EINVAL),
    ),
    (
        1,
        Asked::Polls(&[(9, 0); 65], false),
        Told::Err(Errno::EINVAL),
    ),
];

#[test]
fn at_most_64_descriptors_are_polled(rt: HostRuntime) -> Result<(), AllocError> {
    expect_rows_of_one_process(&rt, rt.alloc(), 16, MANY)
}
