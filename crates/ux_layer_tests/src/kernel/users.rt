//! Who a process runs as (setresuid(2), setresgid(2), capabilities(7)), and what goes by it.
use super::{Asked, At, Row, Told, bare, expect_rows, expect_rows_without_memory};
use std::alloc::AllocError;
use ux_types::{Errno, ProcSpec, SockOpt};

/// The number of no id.
const NO_ID: u32 = 4_294_967_295;

/// A process of this user, of the group with the same number, with this descriptor limit.
fn process_of(uid: u32, privileged: bool, limit: u32) -> ProcSpec {
    ProcSpec {
        uid,
        gid: uid,
        privileged,
        limit,
    }
}

/// A user's process keeps its own ids. That a number is no id is told first.
const UNPRIVILEGED: &[Row] = &[
    (1, Asked::SetIds(NO_ID, 1000), Told::Err(Errno::EINVAL)),
    (1, Asked::SetIds(1000, NO_ID), Told::Err(Errno::EINVAL)),
    (1, Asked::SetIds(NO_ID, 0), Told::Err(Errno::EINVAL)),
    (1, Asked::SetIds(0, 1000), Told::Err(Errno::EPERM)),
    (1, Asked::SetIds(1000, 0), Told::Err(Errno::EPERM)),
    (1, Asked::SetIds(1000, 1000), Told::Ok),
];

/// It runs as before.
const AS_BEFORE: &[Row] = &[
    (1, Asked::Pair, Told::Fds(0, 1)),
    (
        1,
        Asked::GetOpt(0, SockOpt::PeerCred),
        Told::Cred(1, 1000, 1000),
    ),
];

#[test]
fn an_unprivileged_process_keeps_its_ids(rt: HostRuntime) -> Result<(), AllocError> {
    let alloc = rt.alloc();
    let mut machine = bare(alloc, &[process_of(1000, false, 16)])?;
    expect_rows_without_memory(&rt, alloc, &mut machine, UNPRIVILEGED)?;
    expect_rows(&rt, alloc, &mut machine, AS_BEFORE)
}

/// User 0 loses its privileges with its number, a privileged user 7 only as it has become user 0, and a process of user
/// 0 without privileges has none.
const PRIVILEGES: &[Row] = &[
    (1, Asked::SetIds(NO_ID, 0), Told::Err(Errno::EINVAL)),
    (1, Asked::SetIds(0, NO_ID), Told::Err(Errno::EINVAL)),
    (1, Asked::SetIds(0, 5), Told::Ok),
    (1, Asked::SetIds(0, 0), Told::Ok),
    (1, Asked::SetIds(1000, 100), Told::Ok),
    (1, Asked::SetIds(0, 0), Told::Err(Errno::EPERM)),
    (1, Asked::SetIds(1000, 0), Told::Err(Errno::EPERM)),
    (1, Asked::SetIds(1000, 100), Told::Ok),
    (2, Asked::SetIds(8, 9), Told::Ok),
    (2, Asked::SetIds(7, 7), Told::Ok),
    (2, Asked::SetIds(0, 0), Told::Ok),
    (2, Asked::SetIds(0, 1), Told::Ok),
    (2, Asked::SetIds(7, 7), Told::Ok),
    (2, Asked::SetIds(8, 9), Told::Err(Errno::EPERM)),
    (3, Asked::SetIds(1000, 1000), Told::Err(Errno::EPERM)),
    (3, Asked::SetIds(0, 0), Told::Ok),
];

#[test]
fn privileges_go_with_user_0_alone(rt: HostRuntime) -> Result<(), AllocError> {
    let alloc = rt.alloc();
    let (root, user, other) = (
        process_of(0, true, 16),
        process_of(7, true, 16),
        process_of(0, false, 16),
    );
    let mut machine = bare(alloc, &[root, user, other])?;
    expect_rows_without_memory(&rt, alloc, &mut machine, PRIVILEGES)
}

/// A pair, a message that waits, a listener and a client of it, and then other ids.
const RECORDED: &[Row] = &[
    (1, Asked::Pair, Told::Fds(0, 1)),
    (1, Asked::SetOpt(1, SockOpt::PassCred, 1), Told::Ok),
    (1, Asked::Send(0, b"x", 0), Told::Count(1)),
    (1, Asked::Socket, Told::Fd(2)),
    (1, Asked::Bind(2, At::Abstract(b"l")), Told::Ok),
    (1, Asked::Listen(2, 4), Told::Ok),
    (1, Asked::Socket, Told::Fd(3)),
    (1, Asked::Connect(3, At::Abstract(b"l")), Told::Ok),
    (1, Asked::SetIds(1000, 100), Told::Ok),
];

/// The credentials of the pair, of the listener, of the client and of the message are those of before.
const STAYS: &[Row] = &[
    (1, Asked::GetOpt(0, SockOpt::PeerCred), Told::Cred(1, 0, 0)),
    (1, Asked::GetOpt(3, SockOpt::PeerCred), Told::Cred(1, 0, 0)),
    (1, Asked::Accept(2, 0), Told::Accepted(4, At::Unnamed)),
    (1, Asked::GetOpt(4, SockOpt::PeerCred), Told::Cred(1, 0, 0)),
    (1, Asked::Take(1, 32, 0), Told::Signed(1, 0, 0)),
];

/// A message, a pair and a client have the new ones, and so has the listener once it listens again (listen(2)).
const LATER: &[Row] = &[
    (1, Asked::Send(0, b"x", 0), Told::Count(1)),
    (1, Asked::Take(1, 32, 0), Told::Signed(1, 1000, 100)),
    (1, Asked::Pair, Told::Fds(5, 6)),
    (
        1,
        Asked::GetOpt(5, SockOpt::PeerCred),
        Told::Cred(1, 1000, 100),
    ),
    (1, Asked::Socket, Told::Fd(7)),
    (1, Asked::Connect(7, At::Abstract(b"l")), Told::Ok),
    (1, Asked::GetOpt(7, SockOpt::PeerCred), Told::Cred(1, 0, 0)),
    (1, Asked::Accept(2, 0), Told::Accepted(8, At::Unnamed)),
    (
        1,
        Asked::GetOpt(8, SockOpt::PeerCred),
        Told::Cred(1, 1000, 100),
    ),
    (1, Asked::Listen(2, 4), Told::Ok),
    (1, Asked::Socket, Told::Fd(9)),
    (1, Asked::Connect(9, At::Abstract(b"l")), Told::Ok),
    (
        1,
        Asked::GetOpt(9, SockOpt::PeerCred),
        Told::Cred(1, 1000, 100),
    ),
];

#[test]
fn credentials_are_those_of_their_time(rt: HostRuntime) -> Result<(), AllocError> {
    let alloc = rt.alloc();
    let mut machine = bare(alloc, &[process_of(0, true, 16)])?;
    expect_rows(&rt, alloc, &mut machine, RECORDED)?;
    expect_rows(&rt, alloc, &mut machine, STAYS)?;
    expect_rows(&rt, alloc, &mut machine, LATER)
}

/// With privileges a process sends any user's credentials, without them its own alone: not those that it had.
const CLAIMS: &[Row] = &[
    (1, Asked::Pair, Told::Fds(0, 1)),
    (1, Asked::SetOpt(1, SockOpt::PassCred, 1), Told::Ok),
    (1, Asked::Claim(0, 1, 5, 6), Told::Count(1)),
    (1, Asked::Take(1, 32, 0), Told::Signed(1, 5, 6)),
    (1, Asked::SetIds(1000, 100), Told::Ok),
    (1, Asked::Claim(0, 1, 5, 6), Told::Err(Errno::EPERM)),
    (1, Asked::Claim(0, 1, 0, 0), Told::Err(Errno::EPERM)),
    (1, Asked::Claim(0, 1, 1000, 100), Told::Count(1)),
    (1, Asked::Take(1, 32, 0), Told::Signed(1, 1000, 100)),
];

#[test]
fn claims_go_by_the_new_ids(rt: HostRuntime) -> Result<(), AllocError> {
    let alloc = rt.alloc();
    let mut machine = bare(alloc, &[process_of(0, true, 16)])?;
    expect_rows(&rt, alloc, &mut machine, CLAIMS)
}

/// User 0 has five rights in flight, which its privileged process may; user 1000 has two.
const FLYING: &[Row] = &[
    (1, Asked::Pair, Told::Fds(0, 1)),
    (2, Asked::Pair, Told::Fds(0, 1)),
    (3, Asked::Pair, Told::Fds(0, 1)),
    (1, Asked::Pass(0, &[0, 0, 0, 0, 0]), Told::Count(1)),
    (2, Asked::Pass(0, &[0]), Told::Err(Errno::ETOOMANYREFS)),
    (3, Asked::Pass(0, &[0, 0]), Told::Count(1)),
];

/// Process 1 is one of user 1000 now, of whose four rights two are left. Those in flight are user 0's until they are
/// received.
const COUNTED: &[Row] = &[
    (1, Asked::SetIds(1000, 1000), Told::Ok),
    (2, Asked::Pass(0, &[0]), Told::Err(Errno::ETOOMANYREFS)),
    (
        1,
        Asked::Pass(0, &[0, 0, 0]),
        Told::Err(Errno::ETOOMANYREFS),
    ),
    (1, Asked::Pass(0, &[0, 0]), Told::Count(1)),
    (3, Asked::Pass(0, &[0]), Told::Err(Errno::ETOOMANYREFS)),
    (1, Asked::Take(1, 64, 0), Told::Taken(16, &[2, 3])),
    (2, Asked::Pass(0, &[0]), Told::Count(1)),
    (3, Asked::Pass(0, &[0]), Told::Err(Errno::ETOOMANYREFS)),
    (1, Asked::Take(1, 64, 0), Told::Taken(16, &[])),
    (3, Asked::Pass(0, &[0, 0]), Told::Count(1)),
    (3, Asked::Pass(0, &[0]), Told::Err(Errno::ETOOMANYREFS)),
];

#[test]
fn rights_in_flight_are_their_senders_and_the_limit_comes_with_the_ids(
    rt: HostRuntime,
) -> Result<(), AllocError> {
    let alloc = rt.alloc();
    let (root, own, user) = (
        process_of(0, true, 4),
        process_of(0, false, 4),
        process_of(1000, false, 4),
    );
    let mut machine = bare(alloc, &[root, own, user])?;
    expect_rows(&rt, alloc, &mut machine, FLYING)?;
    expect_rows(&rt, alloc, &mut machine, COUNTED)
}

/// A child has its parent's ids and privileges, and a new program those of its process.
const FAMILY: &[Row] = &[
    (1, Asked::SetIds(0, 5), Told::Ok),
    (1, Asked::Fork, Told::Child(2)),
    (2, Asked::Pair, Told::Fds(0, 1)),
    (2, Asked::GetOpt(0, SockOpt::PeerCred), Told::Cred(2, 0, 5)),
    (2, Asked::SetIds(1000, 100), Told::Ok),
    (2, Asked::Exec, Told::Ok),
    (2, Asked::SetIds(0, 5), Told::Err(Errno::EPERM)),
    (2, Asked::Fork, Told::Child(3)),
    (3, Asked::Pair, Told::Fds(2, 3)),
    (
        3,
        Asked::GetOpt(2, SockOpt::PeerCred),
        Told::Cred(3, 1000, 100),
    ),
    (3, Asked::SetIds(0, 5), Told::Err(Errno::EPERM)),
    (1, Asked::Exec, Told::Ok),
    (1, Asked::SetIds(7, 7), Told::Ok),
    (1, Asked::Pair, Told::Fds(0, 1)),
    (1, Asked::GetOpt(0, SockOpt::PeerCred), Told::Cred(1, 7, 7)),
];

#[test]
fn a_child_and_a_program_have_the_ids_of_their_process(rt: HostRuntime) -> Result<(), AllocError> {
    let alloc = rt.alloc();
    let mut machine = bare(alloc, &[process_of(0, true, 8)])?;
    expect_rows(&rt, alloc, &mut machine, FAMILY)
}
