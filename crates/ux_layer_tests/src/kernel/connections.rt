//! Connections: how many ends wait, and what a refused allocation leaves. What is answered to whom stands in
//! the scripts of `examples/`.
use super::{
    Asked, At, Machine, Row, Told, bare, expect_refusals_then_rows, expect_rows,
    expect_rows_of_one_process, expect_rows_without_memory, process,
};
use std::alloc::{AllocError, Global};
use std::process::Abort;
use ux_types::Errno;

/// A listener that asks for a longer backlog than there is.
const LONGEST: &[Row] = &[
    (1, Asked::Socket, Told::Fd(0)),
    (1, Asked::Bind(0, At::Abstract(b"l")), Told::Ok),
    (1, Asked::Listen(0, 500), Told::Ok),
];

/// One more than may wait at it.
const ONE_MORE: &[Row] = &[
    (1, Asked::Socket, Told::Fd(129)),
    (
        1,
        Asked::Connect(129, At::Abstract(b"l")),
        Told::Err(Errno::EAGAIN),
    ),
    (1, Asked::Accept(0, 0), Told::Accepted(130, At::Unnamed)),
    (1, Asked::Connect(129, At::Abstract(b"l")), Told::Ok),
];

/// Makes a socket, which gets this number, and connects it to `l`.
fn connects(
    rt: &impl Abort,
    alloc: Global,
    machine: &mut Machine,
    fd: u32,
) -> Result<(), AllocError> {
    let rows = [
        (1, Asked::Socket, Told::Fd(fd)),
        (1, Asked::Connect(fd, At::Abstract(b"l")), Told::Ok),
    ];
    expect_rows(rt, alloc, machine, &rows)
}

#[test]
fn at_most_128_ends_wait(rt: HostRuntime) -> Result<(), AllocError> {
    let alloc = rt.alloc();
    let mut machine = bare(alloc, &[process(1024)])?;
    let k = &mut machine;
    expect_rows(&rt, alloc, k, LONGEST)?;
    for fd in 1..129 {
        connects(&rt, alloc, k, fd)?;
    }
    expect_rows(&rt, alloc, k, ONE_MORE)
}

const OF_107: &[u8] =
    b"aaaaaaaaaaaaaaaaaaaaaaaaaaaaaaaaaaaaaaaaaaaaaaaaaaaaaaaaaaaaaaaaaaaaaaaaaaaaaaaaaaaaaaaaaaaaaaaaaaaaaaaaaaa";

const OF_108: &[u8] =
    b"aaaaaaaaaaaaaaaaaaaaaaaaaaaaaaaaaaaaaaaaaaaaaaaaaaaaaaaaaaaaaaaaaaaaaaaaaaaaaaaaaaaaaaaaaaaaaaaaaaaaaaaaaaaa";

/// Names at their limits (unix(7)).
const NAMES: &[Row] = &[
    (1, Asked::Socket, Told::Fd(0)),
    (1, Asked::Bind(0, At::Path(b"")), Told::Err(Errno::EINVAL)),
    (
        1,
        Asked::Bind(0, At::Path(OF_108)),
        Told::Err(Errno::EINVAL),
    ),
    (
        1,
        Asked::Bind(0, At::Abstract(OF_108)),
        Told::Err(Errno::EINVAL),
    ),
    (1, Asked::Bind(0, At::Path(OF_107)), Told::Ok),
    (1, Asked::SockName(0), Told::Addr(At::Path(OF_107))),
    (1, Asked::Socket, Told::Fd(1)),
    (1, Asked::Bind(1, At::Abstract(OF_107)), Told::Ok),
    (1, Asked::SockName(1), Told::Addr(At::Abstract(OF_107))),
    (1, Asked::Socket, Told::Fd(2)),
    (1, Asked::Bind(2, At::Abstract(b"")), Told::Ok),
    (1, Asked::SockName(2), Told::Addr(At::Abstract(b""))),
];

#[test]
fn a_name_has_107_bytes_at_most(rt: HostRuntime) -> Result<(), AllocError> {
    expect_rows_of_one_process(&rt, rt.alloc(), 16, NAMES)
}

/// The first socket, and its path.
const A_SERVER: &[Row] = &[
    (1, Asked::Socket, Told::Fd(0)),
    (1, Asked::Bind(0, At::Path(b"p")), Told::Ok),
];

/// Two clients of it.
const CLIENTS: &[Row] = &[
    (1, Asked::Listen(0, 1), Told::Ok),
    (1, Asked::Socket, Told::Fd(1)),
    (1, Asked::Socket, Told::Fd(2)),
];

/// A call of the first that takes memory.
const NAMED: &[Row] = &[(1, Asked::Bind(1, At::Unnamed), Told::Ok)];

/// One of the second, for whose name there is room.
const ALSO_NAMED: &[Row] = &[(1, Asked::Bind(2, At::Abstract(b"n")), Told::Ok)];

/// A further call that takes memory.
const CONNECTED: &[Row] = &[(1, Asked::Connect(1, At::Path(b"p")), Told::Ok)];

/// Calls that report short names.
const TOLD: &[Row] = &[
    (1, Asked::SockName(1), Told::Addr(At::Abstract(b"00000"))),
    (1, Asked::PeerName(1), Told::Addr(At::Path(b"p"))),
    (
        1,
        Asked::Accept(0, 0),
        Told::Accepted(3, At::Abstract(b"00000")),
    ),
];

/// What shows that a refused call took nothing.
const AFTERWARDS: &[Row] = &[
    (1, Asked::Accept(0, 0), Told::Err(Errno::EAGAIN)),
    (1, Asked::Send(1, b"a", 0), Told::Count(1)),
    (1, Asked::Recv(3, 8, 0), Told::Got(b"a")),
    (1, Asked::Socket, Told::Fd(4)),
    (1, Asked::Bind(4, At::Unnamed), Told::Ok),
    (1, Asked::SockName(4), Told::Addr(At::Abstract(b"00001"))),
    (1, Asked::Connect(2, At::Path(b"p")), Told::Ok),
    (1, Asked::Socket, Told::Fd(5)),
];

/// Calls that take no memory, and refusals that come before the want of it.
const WITHOUT_MEMORY: &[Row] = &[
    (1, Asked::Listen(0, 1), Told::Ok),
    (
        1,
        Asked::Bind(5, At::Path(b"p")),
        Told::Err(Errno::EADDRINUSE),
    ),
    (
        1,
        Asked::Bind(5, At::Abstract(b"n")),
        Told::Err(Errno::EADDRINUSE),
    ),
    (
        1,
        Asked::Connect(5, At::Path(b"q")),
        Told::Err(Errno::ENOENT),
    ),
    (
        1,
        Asked::Connect(5, At::Path(b"p")),
        Told::Err(Errno::EAGAIN),
    ),
    (1, Asked::Accept(5, 0), Told::Err(Errno::EINVAL)),
    (1, Asked::PeerName(5), Told::Err(Errno::ENOTCONN)),
    (1, Asked::Close(0), Told::Ok),
    (1, Asked::Recv(2, 8, 0), Told::Err(Errno::ECONNRESET)),
    (1, Asked::Recv(2, 8, 0), Told::Got(b"")),
    (1, Asked::Exit, Told::Ok),
];

#[test]
fn a_connection_without_memory_is_not_there(rt: HostRuntime) -> Result<(), AllocError> {
    let alloc = rt.alloc();
    let mut machine = bare(alloc, &[process(16)])?;
    let k = &mut machine;
    expect_refusals_then_rows(&rt, alloc, k, A_SERVER)?;
    expect_rows(&rt, alloc, k, CLIENTS)?;
    expect_refusals_then_rows(&rt, alloc, k, NAMED)?;
    expect_rows(&rt, alloc, k, ALSO_NAMED)?;
    expect_refusals_then_rows(&rt, alloc, k, CONNECTED)?;
    expect_rows(&rt, alloc, k, TOLD)?;
    expect_rows(&rt, alloc, k, AFTERWARDS)?;
    expect_rows_without_memory(&rt, alloc, k, WITHOUT_MEMORY)
}
