//! Calls that take no memory, made with none, and calls on files that are refused each of their growths.
use super::objects::is_gone;
use super::{
    Asked, At, Case, FileCall, Machine, Row, Told, ask, case_of, expect, expect_rows,
    expect_rows_without_memory, make_machine, process, refused, turns_off,
};
use hoard::{Hoard, Purse};
use std::alloc::Global;
use std::process::Abort;
use std::test::Fail;
use ux_object::ObjKind;
use ux_objects::Plain;
use ux_types::{Errno, Mode, Name, Reply, SockOpt, Whence};

/// A kernel of one process with so many descriptors at most and a memory file of three bytes under `f`.
pub(super) fn with_file(alloc: Global, limit: u32) -> Result<Machine, Fail> {
    let mut objects = Vec::new(alloc);
    let Ok(file) = Plain::new(alloc, ObjKind::Memory, b"abc") else {
        return Err(Fail::from("no file"));
    };
    objects.push((Name::from_slice(alloc, b"f")?, file))?;
    Ok(make_machine(alloc, objects, &[process(limit)])?)
}

/// A file, a socket with a name, and a pair.
const MADE: &[Row] = &[
    (1, Asked::Open(b"f"), Told::Fd(0)),
    (1, Asked::Socket, Told::Fd(1)),
    (1, Asked::Bind(1, At::Abstract(b"l")), Told::Ok),
    (1, Asked::Pair, Told::Fds(2, 3)),
];

/// Calls that take no memory, and what shows that each was made.
const NO_MEMORY: &[Row] = &[
    (
        1,
        Asked::File(FileCall::Lseek(0, 2, Whence::Set)),
        Told::At(2),
    ),
    (
        1,
        Asked::File(FileCall::Lseek(0, -1, Whence::Cur)),
        Told::At(1),
    ),
    (1, Asked::File(FileCall::InQueue(0)), Told::Count(2)),
    (1, Asked::File(FileCall::OutQueue(3)), Told::Count(0)),
    (
        1,
        Asked::File(FileCall::OutQueue(0)),
        Told::Err(Errno::ENOTTY),
    ),
    (
        1,
        Asked::File(FileCall::Lseek(0, 4, Whence::End)),
        Told::At(7),
    ),
    (
        1,
        Asked::File(FileCall::Lseek(0, -4, Whence::End)),
        Told::Err(Errno::EINVAL),
    ),
    (
        1,
        Asked::File(FileCall::Lseek(0, 0, Whence::Cur)),
        Told::At(7),
    ),
    (
        1,
        Asked::File(FileCall::Lseek(1, 0, Whence::Cur)),
        Told::Err(Errno::ESPIPE),
    ),
    (1, Asked::File(FileCall::SetFlags(0, 7)), Told::Ok),
    (1, Asked::File(FileCall::GetFlags(0)), Told::Flags(7)),
    (
        1,
        Asked::File(FileCall::SetFlags(9, 7)),
        Told::Err(Errno::EBADF),
    ),
    (1, Asked::GetOpt(1, SockOpt::AcceptConn), Told::Opt(0)),
    (1, Asked::Listen(1, 4), Told::Ok),
    (1, Asked::GetOpt(1, SockOpt::AcceptConn), Told::Opt(1)),
    (1, Asked::Poll(3), Told::Poll(0b00_0010)),
    (1, Asked::Shutdown(2, Mode::Write), Told::Ok),
    (1, Asked::Poll(3), Told::Poll(0b00_0111)),
    (1, Asked::File(FileCall::SetFlags(0, 3)), Told::Ok),
    (1, Asked::File(FileCall::SetFlags(3, 4)), Told::Ok),
    (1, Asked::Exec, Told::Ok),
    (1, Asked::Close(3), Told::Err(Errno::EBADF)),
    (1, Asked::Unlink(b"f"), Told::Ok),
    (1, Asked::Unlink(b"f"), Told::Err(Errno::ENOENT)),
    (1, Asked::Close(0), Told::Ok),
];

/// The number of what was closed.
const CLOSED: &[Row] = &[(1, Asked::Close(0), Told::Err(Errno::EBADF))];

/// The end of the process.
const EXIT: &[Row] = &[(1, Asked::Exit, Told::Ok)];

#[test]
fn fourteen_calls_are_answered_without_memory(rt: HostRuntime) -> Result<(), Fail> {
    let alloc = rt.alloc();
    let mut machine = with_file(alloc, 16)?;
    let k = &mut machine;
    expect_rows(&rt, alloc, k, MADE)?;
    expect_rows_without_memory(&rt, alloc, k, NO_MEMORY)?;
    assert!(rt; is_gone(k, 0));
    expect_rows_without_memory(&rt, alloc, k, CLOSED)?;
    expect_rows_without_memory(&rt, alloc, k, EXIT)?;
    let hoard = Hoard::take_all(alloc)?;
    let off = turns_off(k);
    drop(hoard);
    assert!(rt; off);
    Ok(())
}

/// Reads of few bytes, to the end of the file and at its end.
const FEW_BYTES: &[Row] = &[
    (1, Asked::File(FileCall::Read(0, 2)), Told::Bytes(b"ab")),
    (1, Asked::File(FileCall::Read(0, 99)), Told::Bytes(b"c")),
    (1, Asked::File(FileCall::Read(0, 99)), Told::Bytes(b"")),
];

#[test]
fn few_bytes_are_read_without_memory(rt: HostRuntime) -> Result<(), Fail> {
    let alloc = rt.alloc();
    let mut machine = with_file(alloc, 16)?;
    let k = &mut machine;
    expect_rows(&rt, alloc, k, MADE)?;
    expect_rows_without_memory(&rt, alloc, k, FEW_BYTES)?;
    Ok(())
}

/// The steps in which more is left, of 16 bytes each.
const STEPS: usize = 3800;

/// Makes a call while so many bytes are left.
fn ask_with(
    alloc: Global,
    machine: &mut Machine,
    purse: &mut Purse,
    bytes: usize,
    case: &Case,
) -> Option<Reply> {
    purse.leave(alloc, bytes);
    let answer = ask(machine, 1, &case.request);
    purse.open();
    answer
}

/// Makes the call of a row with no memory, which is refused, and with 16 bytes more while it is. After each refusal
/// these rows are answered as they say: nothing has changed.
fn expect_row_with_least_memory(
    rt: &impl Abort,
    alloc: Global,
    machine: &mut Machine,
    purse: &mut Purse,
    row: &(Asked, Told, &[Row]),
) -> Result<(), Fail> {
    let (asked, told, same) = row;
    let case = case_of(alloc, asked, told)?;
    for step in 0..STEPS {
        let answer = ask_with(alloc, machine, purse, step.saturating_mul(16), &case);
        if answer.as_ref() != Some(&refused(Errno::ENOMEM)) {
            expect(rt, answer, &case.reply);
            assert!(rt; step > 0, "it takes no memory");
            return Ok(());
        }
        drop(answer);
        expect_rows(rt, alloc, machine, same)?;
    }
    Err(Fail::from("refused with 60 KiB"))
}

/// Four descriptors of the file, of two descriptions: a table has room for four before it grows. The first of
/// them stands behind two bytes.
const OPENED: &[Row] = &[
    (1, Asked::Open(b"f"), Told::Fd(1)),
    (1, Asked::File(FileCall::Dup(0)), Told::Fd(2)),
    (1, Asked::File(FileCall::Dup(0)), Told::Fd(3)),
    (1, Asked::File(FileCall::Read(0, 2)), Told::Bytes(b"ab")),
];

/// An open, before there is any descriptor.
const FIRST_OPEN: (Asked, Told, &[Row]) = (
    Asked::Open(b"f"),
    Told::Fd(0),
    &[(1, Asked::Close(0), Told::Err(Errno::EBADF))],
);

/// Further calls that grow something, and what shows after a refusal that nothing has changed: a number isn't
/// open, an offset stands where it stood, and the file is as it was.
const GROWTHS: &[(Asked, Told, &[Row])] = &[
    (
        Asked::File(FileCall::Dup(1)),
        Told::Fd(4),
        &[(1, Asked::Close(4), Told::Err(Errno::EBADF))],
    ),
    (
        Asked::File(FileCall::DupFrom(1, 20)),
        Told::Fd(20),
        &[(1, Asked::Close(20), Told::Err(Errno::EBADF))],
    ),
    (
        Asked::File(FileCall::Dup2(1, 1000)),
        Told::Fd(1000),
        &[(1, Asked::Close(1000), Told::Err(Errno::EBADF))],
    ),
    (
        Asked::File(FileCall::Write(0, b"0123456789012345678901234567890123456789")),
        Told::Count(40),
        &[
            (
                1,
                Asked::File(FileCall::Lseek(0, 0, Whence::Cur)),
                Told::At(2),
            ),
            (
                1,
                Asked::File(FileCall::Lseek(1, 0, Whence::Set)),
                Told::At(0),
            ),
            (1, Asked::File(FileCall::Read(1, 9)), Told::Bytes(b"abc")),
        ],
    ),
    (
        Asked::File(FileCall::Read(1, 15)),
        Told::Bytes(b"123456789012345"),
        &[(
            1,
            Asked::File(FileCall::Lseek(1, 0, Whence::Cur)),
            Told::At(3),
        )],
    ),
];

/// What the calls have left, and the last of the numbers that they opened.
const LEFT: &[Row] = &[
    (
        1,
        Asked::File(FileCall::Lseek(4, 0, Whence::Set)),
        Told::At(0),
    ),
    (
        1,
        Asked::File(FileCall::Read(1000, 99)),
        Told::Bytes(b"ab0123456789012345678901234567890123456789"),
    ),
    (
        1,
        Asked::File(FileCall::Lseek(0, 0, Whence::Cur)),
        Told::At(42),
    ),
    (1, Asked::Unlink(b"f"), Told::Ok),
    (1, Asked::Exit, Told::Ok),
];

/// Makes the calls of these rows in order, each as `expect_row_with_least_memory` has it.
fn expect_rows_with_least_memory(
    rt: &impl Abort,
    alloc: Global,
    machine: &mut Machine,
    purse: &mut Purse,
    rows: &[(Asked, Told, &[Row])],
) -> Result<(), Fail> {
    for row in rows {
        expect_row_with_least_memory(rt, alloc, machine, purse, row)?;
    }
    Ok(())
}

#[test]
fn each_growth_of_a_call_on_a_file_is_refused(rt: HostRuntime) -> Result<(), Fail> {
    let alloc = rt.alloc();
    let mut machine = with_file(alloc, 1024)?;
    let k = &mut machine;
    let mut purse = Purse::new(alloc)?;
    let p = &mut purse;
    expect_row_with_least_memory(&rt, alloc, k, p, &FIRST_OPEN)?;
    expect_rows(&rt, alloc, k, OPENED)?;
    expect_rows_with_least_memory(&rt, alloc, k, p, GROWTHS)?;
    expect_rows(&rt, alloc, k, LEFT)?;
    assert!(rt; is_gone(k, 0));
    Ok(())
}

/// A file under two numbers, one with close-on-exec, and both ends of a pair.
const BEFORE_FORK: &[Row] = &[
    (1, Asked::OpenMarked(b"f"), Told::Fd(0)),
    (1, Asked::File(FileCall::Dup(0)), Told::Fd(1)),
    (1, Asked::Pair, Told::Fds(2, 3)),
    (1, Asked::Unlink(b"f"), Told::Ok),
];

/// A fork, and what shows that nothing changed by a refusal.
const FORK: (Asked, Told, &[Row]) = (
    Asked::Fork,
    Told::Child(2),
    &[(
        1,
        Asked::File(FileCall::Lseek(0, 0, Whence::Cur)),
        Told::At(0),
    )],
);

/// All that both processes have open, the file last.
const AFTER_FORK: &[Row] = &[
    (1, Asked::Exit, Told::Ok),
    (2, Asked::File(FileCall::Read(0, 1)), Told::Bytes(b"a")),
    (2, Asked::Send(2, b"x", 0), Told::Count(1)),
    (2, Asked::Recv(3, 9, 0), Told::Got(b"x")),
    (2, Asked::Close(0), Told::Ok),
];

/// The last descriptor of the file, and then the end.
const LAST_CLOSE: &[Row] = &[(2, Asked::Close(1), Told::Ok)];

/// A reference that a refused fork had counted would keep the file open.
#[test]
fn each_growth_of_a_fork_is_refused(rt: HostRuntime) -> Result<(), Fail> {
    let alloc = rt.alloc();
    let mut machine = with_file(alloc, 1024)?;
    let k = &mut machine;
    let mut purse = Purse::new(alloc)?;
    expect_rows(&rt, alloc, k, BEFORE_FORK)?;
    expect_row_with_least_memory(&rt, alloc, k, &mut purse, &FORK)?;
    expect_rows(&rt, alloc, k, AFTER_FORK)?;
    assert!(rt; !is_gone(k, 0));
    expect_rows(&rt, alloc, k, LAST_CLOSE)?;
    assert!(rt; is_gone(k, 0));
    Ok(())
}
