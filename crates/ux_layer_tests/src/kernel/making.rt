//! File objects that processes make.
use super::files::FileCall;
use super::objects::{is_gone, with_most_counters};
use super::{
    Asked, Row, Told, bare, expect_refusals_then_rows, expect_rows, expect_rows_of_one_process,
    is_made, process,
};
use std::alloc::AllocError;
use ux_types::{Errno, Mode};

const READ: Asked = Asked::File(FileCall::Read(0, 8));

/// A pipe's reader waits while there is a writer, and sees the end when the last one is closed. A writer without a
/// reader gets EPIPE.
const PIPE: &[Row] = &[
    (1, Asked::File(FileCall::Pipe), Told::Fds(0, 1)),
    (1, READ, Told::Err(Errno::EAGAIN)),
    (1, Asked::File(FileCall::Write(1, b"ab")), Told::Count(2)),
    (
        1,
        Asked::File(FileCall::Write(0, b"ab")),
        Told::Err(Errno::EBADF),
    ),
    (1, Asked::File(FileCall::Dup(1)), Told::Fd(2)),
    (1, Asked::Close(1), Told::Ok),
    (1, READ, Told::Bytes(b"ab")),
    (1, READ, Told::Err(Errno::EAGAIN)),
    (1, Asked::Close(2), Told::Ok),
    (1, READ, Told::Bytes(b"")),
    (1, Asked::File(FileCall::Pipe), Told::Fds(1, 2)),
    (1, Asked::Close(1), Told::Ok),
    (
        1,
        Asked::File(FileCall::Write(2, b"ab")),
        Told::Err(Errno::EPIPE),
    ),
];

#[test]
fn a_reader_sees_the_end_when_the_last_writer_is_closed(rt: HostRuntime) -> Result<(), AllocError> {
    expect_rows_of_one_process(&rt, rt.alloc(), 16, PIPE)
}

/// A counter is read whole, and a file from where the offset is.
const MADE: &[Row] = &[
    (1, Asked::File(FileCall::EventFd(3)), Told::Fd(0)),
    (1, READ, Told::Bytes(b"\x03\x00\x00\x00\x00\x00\x00\x00")),
    (1, READ, Told::Err(Errno::EAGAIN)),
    (1, Asked::File(FileCall::MemFd), Told::Fd(1)),
    (1, Asked::File(FileCall::Write(1, b"abc")), Told::Count(3)),
    (1, Asked::File(FileCall::Read(1, 8)), Told::Bytes(b"")),
    (
        1,
        Asked::File(FileCall::Create(b"", Mode::Both)),
        Told::Err(Errno::EINVAL),
    ),
    (
        1,
        Asked::File(FileCall::Create(b"p", Mode::Write)),
        Told::Fd(2),
    ),
    (
        1,
        Asked::File(FileCall::Create(b"p", Mode::Write)),
        Told::Err(Errno::EEXIST),
    ),
    (1, Asked::File(FileCall::Write(2, b"xy")), Told::Count(2)),
    (1, Asked::Open(b"p"), Told::Fd(3)),
    (1, Asked::File(FileCall::Read(3, 8)), Told::Bytes(b"xy")),
    (1, Asked::File(FileCall::Pipe), Told::Err(Errno::EMFILE)),
    (1, Asked::File(FileCall::MemFd), Told::Fd(4)),
    (
        1,
        Asked::File(FileCall::EventFd(0)),
        Told::Err(Errno::EMFILE),
    ),
    (
        1,
        Asked::File(FileCall::Create(b"p", Mode::Both)),
        Told::Err(Errno::EEXIST),
    ),
    (
        1,
        Asked::File(FileCall::Create(b"q", Mode::Both)),
        Told::Err(Errno::EMFILE),
    ),
    (1, Asked::Unlink(b"q"), Told::Err(Errno::ENOENT)),
];

/// A read of a semaphore takes 1 of its value (eventfd(2), EFD_SEMAPHORE).
const SEMAPHORE: &[Row] = &[
    (1, Asked::File(FileCall::Semaphore(2)), Told::Fd(0)),
    (
        1,
        Asked::File(FileCall::Read(0, 7)),
        Told::Err(Errno::EINVAL),
    ),
    (1, READ, Told::Bytes(b"\x01\x00\x00\x00\x00\x00\x00\x00")),
    (
        1,
        Asked::File(FileCall::Write(0, b"\x01\x00\x00\x00\x00\x00\x00\x00")),
        Told::Count(8),
    ),
    (1, READ, Told::Bytes(b"\x01\x00\x00\x00\x00\x00\x00\x00")),
    (1, READ, Told::Bytes(b"\x01\x00\x00\x00\x00\x00\x00\x00")),
    (1, READ, Told::Err(Errno::EAGAIN)),
    // There is nothing to be read, and room for more.
    (1, Asked::Poll(0), Told::Poll(0b00_0010)),
];

#[test]
fn a_semaphore_is_taken_one_by_one(rt: HostRuntime) -> Result<(), AllocError> {
    expect_rows_of_one_process(&rt, rt.alloc(), 16, SEMAPHORE)
}

#[test]
fn a_process_makes_file_objects(rt: HostRuntime) -> Result<(), AllocError> {
    expect_rows_of_one_process(&rt, rt.alloc(), 5, MADE)
}

/// Each takes memory, and nothing is left of one that found none.
const REFUSED: &[Row] = &[
    (1, Asked::File(FileCall::Pipe), Told::Fds(0, 1)),
    (1, Asked::File(FileCall::EventFd(1)), Told::Fd(2)),
    (1, Asked::File(FileCall::MemFd), Told::Fd(3)),
    (
        1,
        Asked::File(FileCall::Create(b"p", Mode::Both)),
        Told::Fd(4),
    ),
];

#[test]
fn no_memory_makes_nothing(rt: HostRuntime) -> Result<(), AllocError> {
    let alloc = rt.alloc();
    let mut machine = bare(alloc, &[process(16)])?;
    let k = &mut machine;
    expect_refusals_then_rows(&rt, alloc, k, REFUSED)?;
    assert!(rt; k.kernel.state().object_count() == 4);
    Ok(())
}

/// The file is at number 0, and has a path.
const NAMED: &[Row] = &[
    (
        1,
        Asked::File(FileCall::Create(b"p", Mode::Both)),
        Told::Fd(0),
    ),
    (1, Asked::Close(0), Told::Ok),
];

#[test]
fn a_file_that_was_made_is_closed_once(rt: HostRuntime) -> Result<(), AllocError> {
    let alloc = rt.alloc();
    let mut machine = bare(alloc, &[process(16)])?;
    let k = &mut machine;
    expect_rows(&rt, alloc, k, NAMED)?;
    assert!(rt; k.released.is_empty());
    assert!(rt; is_made(alloc, k, 1, &Asked::Unlink(b"p"))?);
    assert!(rt; is_gone(k, 0));
    // Its number isn't given again.
    assert!(rt; is_made(alloc, k, 1, &Asked::File(FileCall::Pipe))?);
    assert!(rt; k.released.is_empty() && k.kernel.state().object_count() == 2);
    Ok(())
}

/// No number is free for one more file object.
const FULL: &[Row] = &[
    (1, Asked::File(FileCall::Pipe), Told::Err(Errno::ENFILE)),
    (
        1,
        Asked::File(FileCall::EventFd(1)),
        Told::Err(Errno::ENFILE),
    ),
    (1, Asked::File(FileCall::MemFd), Told::Err(Errno::ENFILE)),
    (
        1,
        Asked::File(FileCall::Create(b"p", Mode::Both)),
        Told::Err(Errno::ENFILE),
    ),
];

#[test]
fn a_layer_has_no_more_than_4096_objects(rt: HostRuntime) -> Result<(), AllocError> {
    let alloc = rt.alloc();
    let mut machine = with_most_counters(alloc)?;
    expect_rows(&rt, alloc, &mut machine, FULL)
}
