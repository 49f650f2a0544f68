//! Calls on file objects and on descriptors, as rows have them, and the flags that these set and read.
use super::{Asked, Row, Told, expect_rows_of_one_process};
use std::alloc::{AllocError, Global};
use ux_types::{Bytes, Errno, Fd, Mode, Name, OpenFlags, Request, Whence};

/// A call on a file object or a descriptor that a row of a test makes.
#[derive(Clone, Copy)]
pub(super) enum FileCall {
    Create(&'static [u8], Mode),
    MemFd,
    EventFd(u32),
    Semaphore(u32),
    Pipe,
    Read(u32, usize),
    Write(u32, &'static [u8]),
    Lseek(u32, i64, Whence),
    Dup(u32),
    Dup2(u32, u32),
    DupFrom(u32, u32),
    GetFlags(u32),
    SetFlags(u32, u8),
    InQueue(u32),
    OutQueue(u32),
}

/// The request that makes a counter.
fn counting(value: u32, semaphore: bool) -> Request {
    Request::EventFd {
        value,
        semaphore,
        flags: OpenFlags(0),
    }
}

/// The request of such a call.
pub(super) fn file_request_of(alloc: Global, call: &FileCall) -> Result<Request, AllocError> {
    let plain = OpenFlags(0);
    Ok(match call {
        FileCall::Create(path, mode) => Request::Create {
            path: Name::from_slice(alloc, path)?,
            mode: *mode,
            flags: plain,
        },
        FileCall::MemFd => Request::MemFd { flags: plain },
        FileCall::EventFd(value) => counting(*value, false),
        FileCall::Semaphore(value) => counting(*value, true),
        FileCall::Pipe => Request::Pipe { flags: plain },
        FileCall::Read(fd, n) => Request::Read { fd: Fd(*fd), n: *n },
        FileCall::Write(fd, bytes) => Request::Write {
            fd: Fd(*fd),
            bytes: Bytes::from_slice(alloc, bytes)?,
        },
        FileCall::Lseek(fd, offset, whence) => Request::Lseek {
            fd: Fd(*fd),
            offset: *offset,
            whence: *whence,
        },
        FileCall::Dup(fd) => Request::Dup { fd: Fd(*fd) },
        FileCall::Dup2(fd, to) => Request::Dup2 {
            fd: Fd(*fd),
            to: Fd(*to),
        },
        FileCall::DupFrom(fd, minimum) => Request::DupFrom {
            fd: Fd(*fd),
            minimum: Fd(*minimum),
        },
        FileCall::GetFlags(fd) => Request::GetFlags { fd: Fd(*fd) },
        FileCall::SetFlags(fd, flags) => Request::SetFlags {
            fd: Fd(*fd),
            flags: OpenFlags(*flags),
        },
        FileCall::InQueue(fd) => Request::InQueue { fd: Fd(*fd) },
        FileCall::OutQueue(fd) => Request::OutQueue { fd: Fd(*fd) },
    })
}

/// O_APPEND and O_NONBLOCK are the description's, so a copy has them too; FD_CLOEXEC is the descriptor's, and a copy
/// starts without it (fcntl(2), dup(2)).
const FLAGS: &[Row] = &[
    (1, Asked::Pair, Told::Fds(0, 1)),
    (1, Asked::File(FileCall::GetFlags(0)), Told::Flags(0)),
    (1, Asked::File(FileCall::SetFlags(0, 7)), Told::Ok),
    (1, Asked::File(FileCall::GetFlags(0)), Told::Flags(7)),
    (1, Asked::File(FileCall::Dup(0)), Told::Fd(2)),
    (1, Asked::File(FileCall::GetFlags(2)), Told::Flags(3)),
    (1, Asked::File(FileCall::SetFlags(2, 2)), Told::Ok),
    (1, Asked::File(FileCall::GetFlags(0)), Told::Flags(6)),
    (1, Asked::File(FileCall::GetFlags(2)), Told::Flags(2)),
    (1, Asked::File(FileCall::Dup2(0, 2)), Told::Fd(2)),
    (1, Asked::File(FileCall::DupFrom(0, 5)), Told::Fd(5)),
    (1, Asked::File(FileCall::GetFlags(5)), Told::Flags(2)),
    // The other end is a description of its own.
    (1, Asked::File(FileCall::GetFlags(1)), Told::Flags(0)),
    (
        1,
        Asked::File(FileCall::GetFlags(3)),
        Told::Err(Errno::EBADF),
    ),
];

#[test]
fn copies_share_all_flags_but_close_on_exec(rt: HostRuntime) -> Result<(), AllocError> {
    expect_rows_of_one_process(&rt, rt.alloc(), 16, FLAGS)
}
