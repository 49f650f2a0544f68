//! How many bytes wait to be read (ioctl(2), FIONREAD and SIOCINQ), and how many the peer hasn't received (SIOCOUTQ).
use super::files::FileCall;
use super::{
    Asked, At, Row, Told, bare, expect_rows, expect_rows_of_one_process,
    expect_rows_without_memory, process,
};
use std::alloc::AllocError;
use ux_types::{Errno, Mode, SockType, Whence};

/// A memory file tells the bytes from its offset to its end, a pipe all its bytes at either end. A counter has none to tell, and
/// no file object has a peer.
const OBJECTS: &[Row] = &[
    (1, Asked::File(FileCall::MemFd), Told::Fd(0)),
    (1, Asked::File(FileCall::InQueue(0)), Told::Count(0)),
    (1, Asked::File(FileCall::Write(0, b"hello")), Told::Count(5)),
    (1, Asked::File(FileCall::InQueue(0)), Told::Count(0)),
    (
        1,
        Asked::File(FileCall::Lseek(0, 1, Whence::Set)),
        Told::At(1),
    ),
    (1, Asked::File(FileCall::InQueue(0)), Told::Count(4)),
    (1, Asked::File(FileCall::Read(0, 3)), Told::Bytes(b"ell")),
    (1, Asked::File(FileCall::InQueue(0)), Told::Count(1)),
    // Behind the end there are none.
    (
        1,
        Asked::File(FileCall::Lseek(0, 9, Whence::Set)),
        Told::At(9),
    ),
    (1, Asked::File(FileCall::InQueue(0)), Told::Count(0)),
    (
        1,
        Asked::File(FileCall::OutQueue(0)),
        Told::Err(Errno::ENOTTY),
    ),
    (1, Asked::File(FileCall::Pipe), Told::Fds(1, 2)),
    (1, Asked::File(FileCall::InQueue(1)), Told::Count(0)),
    (1, Asked::File(FileCall::Write(2, b"abc")), Told::Count(3)),
    (1, Asked::File(FileCall::InQueue(1)), Told::Count(3)),
    (1, Asked::File(FileCall::InQueue(2)), Told::Count(3)),
    (1, Asked::File(FileCall::Read(1, 2)), Told::Bytes(b"ab")),
    (1, Asked::File(FileCall::InQueue(2)), Told::Count(1)),
    (
        1,
        Asked::File(FileCall::OutQueue(1)),
        Told::Err(Errno::ENOTTY),
    ),
    (
        1,
        Asked::File(FileCall::OutQueue(2)),
        Told::Err(Errno::ENOTTY),
    ),
    (1, Asked::File(FileCall::EventFd(3)), Told::Fd(3)),
    (
        1,
        Asked::File(FileCall::InQueue(3)),
        Told::Err(Errno::ENOTTY),
    ),
    (
        1,
        Asked::File(FileCall::OutQueue(3)),
        Told::Err(Errno::ENOTTY),
    ),
    (1, Asked::File(FileCall::Semaphore(3)), Told::Fd(4)),
    (
        1,
        Asked::File(FileCall::InQueue(4)),
        Told::Err(Errno::ENOTTY),
    ),
    (
        1,
        Asked::File(FileCall::OutQueue(4)),
        Told::Err(Errno::ENOTTY),
    ),
    (
        1,
        Asked::File(FileCall::InQueue(5)),
        Told::Err(Errno::EBADF),
    ),
    (
        1,
        Asked::File(FileCall::OutQueue(5)),
        Told::Err(Errno::EBADF),
    ),
];

#[test]
fn file_objects_tell_the_bytes_ahead(rt: HostRuntime) -> Result<(), AllocError> {
    expect_rows_of_one_process(&rt, rt.alloc(), 16, OBJECTS)
}

/// A stream tells all unread bytes at one end, and at the other those that weren't received, in both directions.
const STREAM: &[Row] = &[
    (1, Asked::Pair, Told::Fds(0, 1)),
    (1, Asked::File(FileCall::InQueue(0)), Told::Count(0)),
    (1, Asked::File(FileCall::OutQueue(0)), Told::Count(0)),
    (1, Asked::Send(0, b"hello", 0), Told::Count(5)),
    (1, Asked::Send(0, b"ab", 0), Told::Count(2)),
    (1, Asked::Send(1, b"xyz", 0), Told::Count(3)),
    (1, Asked::File(FileCall::InQueue(1)), Told::Count(7)),
    (1, Asked::File(FileCall::OutQueue(0)), Told::Count(7)),
    (1, Asked::File(FileCall::InQueue(0)), Told::Count(3)),
    (1, Asked::File(FileCall::OutQueue(1)), Told::Count(3)),
    // A peek leaves them there.
    (1, Asked::Recv(1, 3, 1), Told::Got(b"hel")),
    (1, Asked::File(FileCall::InQueue(1)), Told::Count(7)),
    (1, Asked::File(FileCall::OutQueue(0)), Told::Count(7)),
    (1, Asked::Recv(1, 3, 0), Told::Got(b"hel")),
    (1, Asked::File(FileCall::InQueue(1)), Told::Count(4)),
    (1, Asked::File(FileCall::OutQueue(0)), Told::Count(4)),
    (1, Asked::Shutdown(0, Mode::Write), Told::Ok),
    (1, Asked::File(FileCall::InQueue(1)), Told::Count(4)),
    (1, Asked::File(FileCall::OutQueue(0)), Told::Count(4)),
    (1, Asked::Recv(1, 8, 0), Told::Got(b"loab")),
    (1, Asked::File(FileCall::InQueue(1)), Told::Count(0)),
    (1, Asked::File(FileCall::OutQueue(0)), Told::Count(0)),
    // What a peer that is gone left unread won't be received.
    (1, Asked::File(FileCall::OutQueue(1)), Told::Count(3)),
    (1, Asked::Close(0), Told::Ok),
    (1, Asked::File(FileCall::OutQueue(1)), Told::Count(0)),
    (1, Asked::File(FileCall::InQueue(1)), Told::Count(0)),
];

/// Records are told as the bytes of a stream are.
const RECORDS: &[Row] = &[
    (1, Asked::PairOf(SockType::Seq), Told::Fds(0, 1)),
    (1, Asked::Send(0, b"abc", 0), Told::Count(3)),
    (1, Asked::Send(0, b"", 0), Told::Count(0)),
    (1, Asked::Send(0, b"de", 0), Told::Count(2)),
    (1, Asked::File(FileCall::InQueue(1)), Told::Count(5)),
    (1, Asked::File(FileCall::OutQueue(0)), Told::Count(5)),
    (1, Asked::Recv(1, 8, 0), Told::Record(b"abc")),
    (1, Asked::File(FileCall::InQueue(1)), Told::Count(2)),
    (1, Asked::File(FileCall::OutQueue(0)), Told::Count(2)),
    (1, Asked::Recv(1, 8, 0), Told::Record(b"")),
    (1, Asked::File(FileCall::InQueue(1)), Told::Count(2)),
    (1, Asked::Recv(1, 8, 0), Told::Record(b"de")),
    (1, Asked::File(FileCall::InQueue(1)), Told::Count(0)),
    (1, Asked::File(FileCall::OutQueue(0)), Told::Count(0)),
];

#[test]
fn connections_tell_what_is_unread(rt: HostRuntime) -> Result<(), AllocError> {
    let alloc = rt.alloc();
    expect_rows_of_one_process(&rt, alloc, 16, STREAM)?;
    expect_rows_of_one_process(&rt, alloc, 16, RECORDS)
}

const TARGET: At = At::Abstract(b"target");

/// A datagram socket tells the length of the oldest datagram, and doesn't tell what it has sent.
const DATAGRAMS: &[Row] = &[
    (1, Asked::SocketOf(SockType::Dgram), Told::Fd(0)),
    (1, Asked::Bind(0, TARGET), Told::Ok),
    (1, Asked::SocketOf(SockType::Dgram), Told::Fd(1)),
    (1, Asked::File(FileCall::InQueue(0)), Told::Count(0)),
    (1, Asked::SendTo(1, TARGET, b"abc"), Told::Count(3)),
    (1, Asked::SendTo(1, TARGET, b""), Told::Count(0)),
    (1, Asked::SendTo(1, TARGET, b"de"), Told::Count(2)),
    (1, Asked::File(FileCall::InQueue(0)), Told::Count(3)),
    (1, Asked::File(FileCall::InQueue(1)), Told::Count(0)),
    (
        1,
        Asked::File(FileCall::OutQueue(1)),
        Told::Err(Errno::EOPNOTSUPP),
    ),
    (
        1,
        Asked::File(FileCall::OutQueue(0)),
        Told::Err(Errno::EOPNOTSUPP),
    ),
    (1, Asked::Recv(0, 8, 0), Told::From(b"abc", 0, At::Unnamed)),
    // An empty one is the oldest.
    (1, Asked::File(FileCall::InQueue(0)), Told::Count(0)),
    (1, Asked::Recv(0, 8, 0), Told::From(b"", 0, At::Unnamed)),
    (1, Asked::File(FileCall::InQueue(0)), Told::Count(2)),
    (1, Asked::Connect(1, TARGET), Told::Ok),
    (
        1,
        Asked::File(FileCall::OutQueue(1)),
        Told::Err(Errno::EOPNOTSUPP),
    ),
    (1, Asked::File(FileCall::InQueue(0)), Told::Count(2)),
];

#[test]
fn datagram_sockets_tell_the_oldest_datagram(rt: HostRuntime) -> Result<(), AllocError> {
    expect_rows_of_one_process(&rt, rt.alloc(), 16, DATAGRAMS)
}

const SERVER: At = At::Abstract(b"server");

/// At a listener no bytes wait, but ends. What is sent to an end that waits there isn't received.
const LISTENER: &[Row] = &[
    (1, Asked::Socket, Told::Fd(0)),
    (1, Asked::File(FileCall::InQueue(0)), Told::Count(0)),
    (1, Asked::File(FileCall::OutQueue(0)), Told::Count(0)),
    (1, Asked::Bind(0, SERVER), Told::Ok),
    (1, Asked::Listen(0, 1), Told::Ok),
    (
        1,
        Asked::File(FileCall::InQueue(0)),
        Told::Err(Errno::EINVAL),
    ),
    (1, Asked::File(FileCall::OutQueue(0)), Told::Count(0)),
    (1, Asked::Socket, Told::Fd(1)),
    (1, Asked::Connect(1, SERVER), Told::Ok),
    (1, Asked::Send(1, b"hi", 0), Told::Count(2)),
    (
        1,
        Asked::File(FileCall::InQueue(0)),
        Told::Err(Errno::EINVAL),
    ),
    (1, Asked::File(FileCall::OutQueue(0)), Told::Count(0)),
    (1, Asked::File(FileCall::OutQueue(1)), Told::Count(2)),
    (1, Asked::Accept(0, 0), Told::Accepted(2, At::Unnamed)),
    (1, Asked::File(FileCall::InQueue(2)), Told::Count(2)),
    (1, Asked::File(FileCall::OutQueue(1)), Told::Count(2)),
    (1, Asked::File(FileCall::OutQueue(2)), Told::Count(0)),
];

#[test]
fn a_listener_has_no_bytes(rt: HostRuntime) -> Result<(), AllocError> {
    expect_rows_of_one_process(&rt, rt.alloc(), 16, LISTENER)
}

/// A pair, with bytes on their way.
const SENT: &[Row] = &[
    (1, Asked::Pair, Told::Fds(0, 1)),
    (1, Asked::Send(0, b"abc", 0), Told::Count(3)),
];

/// What is told of it.
const TOLD: &[Row] = &[
    (1, Asked::File(FileCall::InQueue(1)), Told::Count(3)),
    (1, Asked::File(FileCall::OutQueue(0)), Told::Count(3)),
    (1, Asked::File(FileCall::InQueue(0)), Told::Count(0)),
    (1, Asked::File(FileCall::OutQueue(1)), Told::Count(0)),
    (
        1,
        Asked::File(FileCall::InQueue(2)),
        Told::Err(Errno::EBADF),
    ),
];

#[test]
fn lengths_are_told_without_memory(rt: HostRuntime) -> Result<(), AllocError> {
    let alloc = rt.alloc();
    let mut machine = bare(alloc, &[process(16)])?;
    expect_rows(&rt, alloc, &mut machine, SENT)?;
    expect_rows_without_memory(&rt, alloc, &mut machine, TOLD)
}
