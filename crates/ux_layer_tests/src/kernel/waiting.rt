//! Which calls may wait until they can be done (O_NONBLOCK of open(2), MSG_DONTWAIT of send(2) and recv(2)).
use super::files::FileCall;
use super::{Asked, At, Machine, Row, Told, bare, expect_rows, process, request_of};
use std::alloc::AllocError;
use std::process::Abort;
use ux_types::{Mode, Pid, Request, SockOpt};

/// Two pairs, of which the second is non-blocking, and a copy of a descriptor of each, which shares that.
const SOCKETS: &[Row] = &[
    (1, Asked::Pair, Told::Fds(0, 1)),
    (1, Asked::Pair, Told::Fds(2, 3)),
    (1, Asked::File(FileCall::Dup(0)), Told::Fd(4)),
    (1, Asked::File(FileCall::Dup(2)), Told::Fd(5)),
    (1, Asked::File(FileCall::SetFlags(2, 2)), Told::Ok),
];

/// Calls, and whether they may wait.
const CALLS: &[(Asked, bool)] = &[
    (Asked::File(FileCall::Read(0, 1)), true),
    (Asked::File(FileCall::Read(2, 1)), false),
    (Asked::File(FileCall::Read(4, 1)), true),
    (Asked::File(FileCall::Read(5, 1)), false),
    (Asked::File(FileCall::Write(0, b"x")), true),
    (Asked::File(FileCall::Write(5, b"x")), false),
    (Asked::Connect(0, At::Abstract(b"a")), true),
    (Asked::Connect(2, At::Abstract(b"a")), false),
    // The flags of accept4(2) are those of the new descriptor.
    (Asked::Accept(0, 2), true),
    (Asked::Accept(2, 0), false),
    (Asked::Send(0, b"x", 0), true),
    (Asked::Send(0, b"x", 4), false),
    (Asked::Send(2, b"x", 0), false),
    (Asked::Recv(1, 1, 0), true),
    (Asked::Recv(1, 1, 1), true),
    (Asked::Recv(1, 1, 4), false),
    // The other end of the second pair is another description, whose flags are as they were.
    (Asked::Recv(3, 1, 0), true),
    (Asked::Recv(2, 1, 0), false),
    // 9 isn't open.
    (Asked::Recv(9, 1, 0), false),
    (Asked::Accept(9, 0), false),
    // The time limit of a poll alone says whether it waits.
    (Asked::Polls(&[(0, 1)], true), true),
    (Asked::Polls(&[(2, 1), (9, 0)], true), true),
    (Asked::Polls(&[(0, 1)], false), false),
    // These never wait.
    (Asked::Poll(0), false),
    (Asked::Close(0), false),
    (Asked::Shutdown(0, Mode::Both), false),
    (Asked::GetOpt(0, SockOpt::Kind), false),
    (Asked::Fork, false),
    (Asked::Exit, false),
];

/// Whether a call of process 1 may wait.
fn may_wait(rt: &impl Abort, machine: &Machine, request: &Request) -> bool {
    assert!(rt; machine.kernel.is_live(Pid(1)));
    machine.kernel.may_wait(Pid(1), request)
}

#[test]
fn a_call_waits_where_neither_its_description_nor_its_flags_forbid_it(
    rt: HostRuntime,
) -> Result<(), AllocError> {
    let alloc = rt.alloc();
    let mut machine = bare(alloc, &[process(16)])?;
    expect_rows(&rt, alloc, &mut machine, SOCKETS)?;
    for (index, (asked, may)) in CALLS.iter().enumerate() {
        let request = request_of(alloc, asked)?;
        let found = may_wait(&rt, &machine, &request);
        drop(request);
        assert_eq!(rt; found, *may, "row {index}");
    }
    Ok(())
}
