//! Processes that are made, and new programs in them.
use super::memory::with_file;
use super::objects::is_gone;
use super::{
    Asked, At, Case, FileCall, Machine, Row, Told, bare, expect_reply, expect_rows,
    expect_rows_without_memory, process, refused,
};
use std::alloc::{AllocError, Global};
use std::process::Abort;
use std::test::Fail;
use ux_types::{Errno, Pid, Reply, Request};

/// A file under two numbers, one with close-on-exec, in a process and its child. The program that starts in the
/// child finds the other alone, with the offset that both processes share.
const PROGRAM: &[Row] = &[
    (1, Asked::OpenMarked(b"f"), Told::Fd(0)),
    (1, Asked::File(FileCall::Dup(0)), Told::Fd(1)),
    (1, Asked::Fork, Told::Child(2)),
    (2, Asked::Exec, Told::Ok),
    (
        2,
        Asked::File(FileCall::Read(0, 2)),
        Told::Err(Errno::EBADF),
    ),
    (1, Asked::File(FileCall::Read(0, 2)), Told::Bytes(b"ab")),
    (2, Asked::File(FileCall::Read(1, 2)), Told::Bytes(b"c")),
    (1, Asked::Unlink(b"f"), Told::Ok),
    (1, Asked::Exit, Told::Ok),
];

/// The end of the child.
const CHILD_EXIT: &[Row] = &[(2, Asked::Exit, Told::Ok)];

#[test]
fn a_program_keeps_what_has_no_close_on_exec(rt: HostRuntime) -> Result<(), Fail> {
    let alloc = rt.alloc();
    let mut machine = with_file(alloc, 16)?;
    let k = &mut machine;
    expect_rows(&rt, alloc, k, PROGRAM)?;
    assert!(rt; !is_gone(k, 0));
    expect_rows(&rt, alloc, k, CHILD_EXIT)?;
    assert!(rt; is_gone(k, 0));
    Ok(())
}

/// A file whose last descriptor is a child's, with close-on-exec as its parent's.
const MARKED: &[Row] = &[
    (1, Asked::OpenMarked(b"f"), Told::Fd(0)),
    (1, Asked::Unlink(b"f"), Told::Ok),
    (1, Asked::Fork, Told::Child(2)),
    (1, Asked::Exec, Told::Ok),
    (1, Asked::Close(0), Told::Err(Errno::EBADF)),
];

/// A program that starts in the child, and one in a process that has nothing open.
const CHILD_EXEC: &[Row] = &[(2, Asked::Exec, Told::Ok)];

#[test]
fn a_file_goes_with_the_last_exec(rt: HostRuntime) -> Result<(), Fail> {
    let alloc = rt.alloc();
    let mut machine = with_file(alloc, 16)?;
    let k = &mut machine;
    expect_rows(&rt, alloc, k, MARKED)?;
    assert!(rt; !is_gone(k, 0));
    expect_rows(&rt, alloc, k, CHILD_EXEC)?;
    assert!(rt; is_gone(k, 0));
    expect_rows(&rt, alloc, k, CHILD_EXEC)?;
    assert!(rt; k.released.is_empty());
    Ok(())
}

/// A child has its parent's descriptor limit, and its marks.
const FULL: &[Row] = &[
    (1, Asked::Pair, Told::Fds(0, 1)),
    (1, Asked::File(FileCall::SetFlags(1, 4)), Told::Ok),
    (1, Asked::Fork, Told::Child(2)),
    (1, Asked::File(FileCall::SetFlags(1, 0)), Told::Ok),
    (2, Asked::Socket, Told::Fd(2)),
    (2, Asked::Socket, Told::Err(Errno::EMFILE)),
    (2, Asked::Exec, Told::Ok),
    (2, Asked::Socket, Told::Fd(1)),
    (1, Asked::Exec, Told::Ok),
    (1, Asked::Send(1, b"x", 0), Told::Count(1)),
    (2, Asked::Recv(0, 9, 0), Told::Got(b"x")),
];

#[test]
fn a_child_has_a_table_of_its_own(rt: HostRuntime) -> Result<(), Fail> {
    let alloc = rt.alloc();
    let mut machine = bare(alloc, &[process(3)])?;
    expect_rows(&rt, alloc, &mut machine, FULL)?;
    Ok(())
}

/// A file that is in a message alone, and a listener, in a process that closes all that its child has too.
const PARENT: &[Row] = &[
    (1, Asked::Open(b"f"), Told::Fd(0)),
    (1, Asked::Unlink(b"f"), Told::Ok),
    (1, Asked::Pair, Told::Fds(1, 2)),
    (1, Asked::Pass(1, &[0]), Told::Count(1)),
    (1, Asked::Close(0), Told::Ok),
    (1, Asked::Socket, Told::Fd(0)),
    (1, Asked::Bind(0, At::Abstract(b"l")), Told::Ok),
    (1, Asked::Listen(0, 4), Told::Ok),
    (1, Asked::Fork, Told::Child(2)),
    (1, Asked::Close(0), Told::Ok),
    (1, Asked::Close(1), Told::Ok),
    (1, Asked::Close(2), Told::Ok),
];

/// The child finds both, until it closes them itself.
const CHILD: &[Row] = &[
    (2, Asked::Socket, Told::Fd(3)),
    (2, Asked::Connect(3, At::Abstract(b"l")), Told::Ok),
    (2, Asked::Accept(0, 0), Told::Accepted(4, At::Unnamed)),
    (2, Asked::Close(0), Told::Ok),
    (2, Asked::Socket, Told::Fd(0)),
    (
        2,
        Asked::Connect(0, At::Abstract(b"l")),
        Told::Err(Errno::ECONNREFUSED),
    ),
    (2, Asked::Take(2, 64, 0), Told::Taken(0, &[5])),
    (2, Asked::File(FileCall::Read(5, 9)), Told::Bytes(b"abc")),
];

/// The file's last descriptor.
const CHILD_CLOSE: &[Row] = &[(2, Asked::Close(5), Told::Ok)];

#[test]
fn what_a_parent_closes_stays_open_in_its_child(rt: HostRuntime) -> Result<(), Fail> {
    let alloc = rt.alloc();
    let mut machine = with_file(alloc, 16)?;
    let k = &mut machine;
    expect_rows(&rt, alloc, k, PARENT)?;
    expect_rows(&rt, alloc, k, CHILD)?;
    assert!(rt; k.released.is_empty());
    expect_rows(&rt, alloc, k, CHILD_CLOSE)?;
    assert!(rt; is_gone(k, 0));
    Ok(())
}

/// A fork by this process, which is answered so.
fn forks(rt: &impl Abort, machine: &mut Machine, pid: u32, reply: Reply) {
    let case = Case {
        request: Request::Fork,
        reply,
    };
    expect_reply(rt, machine, pid, &case);
}

/// Makes children of process 1 up to the last that there may be: each gets the next number.
fn makes_all(rt: &impl Abort, machine: &mut Machine) {
    for number in 2..1025 {
        forks(rt, machine, 1, Reply::Child(Pid(number)));
    }
}

/// Processes that have exited count still, and a refusal needs no memory.
const NO_MORE: &[Row] = &[
    (1, Asked::Fork, Told::Err(Errno::EAGAIN)),
    (2, Asked::Exit, Told::Ok),
    (1024, Asked::Exit, Told::Ok),
    (1, Asked::Fork, Told::Err(Errno::EAGAIN)),
    (1023, Asked::Fork, Told::Err(Errno::EAGAIN)),
];

#[test]
fn no_process_is_made_beyond_1024(rt: HostRuntime) -> Result<(), Fail> {
    let alloc = rt.alloc();
    let mut machine = bare(alloc, &[process(1)])?;
    let k = &mut machine;
    makes_all(&rt, k);
    forks(&rt, k, 1024, refused(Errno::EAGAIN));
    expect_rows_without_memory(&rt, alloc, k, NO_MORE)?;
    Ok(())
}
