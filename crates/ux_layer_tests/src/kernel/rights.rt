//! Rights that messages pass: what is refused memory, and what is handed out.
use super::objects::is_gone;
use super::{
    Asked, Machine, Row, Told, bare, expect_refusals_then_rows, expect_rows,
    expect_rows_of_one_process, expect_rows_without_memory, is_made, process, turns_off,
    with_counters,
};
use std::alloc::{AllocError, Global};
use std::process::Abort;
use ux_types::Errno;

/// A pair, before anything is passed.
const PAIR: &[Row] = &[(1, Asked::Pair, Told::Fds(0, 1))];

/// Sends and receives that take memory: five rights don't lie in the message itself, and a receive takes bytes,
/// numbers, control and places of the table. A peek and a receive get descriptors of their own.
const PASSED: &[Row] = &[
    (1, Asked::Pass(0, &[0, 1, 0, 1, 0]), Told::Count(1)),
    (1, Asked::Take(1, 64, 1), Told::Taken(0, &[2, 3, 4, 5, 6])),
    (
        1,
        Asked::Take(1, usize::MAX, 0),
        Told::Taken(0, &[7, 8, 9, 10, 11]),
    ),
];

/// Nothing was taken twice, and nothing lost.
const PASSED_ONCE: &[Row] = &[
    (1, Asked::Take(1, 64, 0), Told::Err(Errno::EAGAIN)),
    (1, Asked::Pair, Told::Fds(12, 13)),
    (1, Asked::Exit, Told::Ok),
];

#[test]
fn rights_without_memory_stay(rt: HostRuntime) -> Result<(), AllocError> {
    let alloc = rt.alloc();
    let mut machine = bare(alloc, &[process(16)])?;
    expect_rows(&rt, alloc, &mut machine, PAIR)?;
    expect_refusals_then_rows(&rt, alloc, &mut machine, PASSED)?;
    expect_rows(&rt, alloc, &mut machine, PASSED_ONCE)
}

/// Refusals that come without memory too.
const REFUSED: &[Row] = &[
    (1, Asked::Close(7), Told::Err(Errno::EBADF)),
    (1, Asked::Pass(7, &[0]), Told::Err(Errno::EBADF)),
];

#[test]
fn a_number_that_is_not_open_needs_no_memory(rt: HostRuntime) -> Result<(), AllocError> {
    let alloc = rt.alloc();
    let mut machine = bare(alloc, &[process(16)])?;
    expect_rows(&rt, alloc, &mut machine, PAIR)?;
    expect_rows_without_memory(&rt, alloc, &mut machine, REFUSED)
}

/// Two files in messages: of one the excess is closed, the other lies in the queue of a socket that nobody has.
const LOST: &[Row] = &[
    (1, Asked::Open(b"a"), Told::Fd(0)),
    (1, Asked::Open(b"b"), Told::Fd(1)),
    (1, Asked::Unlink(b"a"), Told::Ok),
    (1, Asked::Unlink(b"b"), Told::Ok),
    (1, Asked::Pair, Told::Fds(2, 3)),
    (1, Asked::Pass(2, &[3, 0]), Told::Count(1)),
    (1, Asked::Close(0), Told::Ok),
    (1, Asked::Take(3, 20, 0), Told::Taken(16, &[0])),
    (1, Asked::Pass(2, &[0, 1]), Told::Count(1)),
    (1, Asked::Close(1), Told::Ok),
    (1, Asked::Close(0), Told::Ok),
    (1, Asked::Exit, Told::Ok),
];

/// Makes the calls of these rows, and counts how often they hand out file objects, of which each is this one.
fn count_gone(
    rt: &impl Abort,
    alloc: Global,
    machine: &mut Machine,
    rows: &[Row],
    number: u32,
) -> Result<usize, AllocError> {
    let mut gone: usize = 0;
    for (pid, asked, _) in rows {
        assert!(rt; is_made(alloc, machine, *pid, asked)?);
        if !machine.released.is_empty() {
            assert!(rt; is_gone(machine, number));
            gone = gone.saturating_add(1);
        }
    }
    Ok(gone)
}

#[test]
fn each_file_object_is_handed_out_once(rt: HostRuntime) -> Result<(), AllocError> {
    let alloc = rt.alloc();
    let mut answered = with_counters(alloc, &[b"a", b"b"])?;
    expect_rows(&rt, alloc, &mut answered, LOST)?;
    let mut machine = with_counters(alloc, &[b"a", b"b"])?;
    assert_eq!(rt; count_gone(&rt, alloc, &mut machine, LOST, 0)?, 1);
    // The socket in its own queue, with the other file, stays until the layer ends.
    assert!(rt; turns_off(&mut machine));
    assert!(rt; is_gone(&machine, 1));
    Ok(())
}

/// A receiver without room in its table.
const NO_ROOM: &[Row] = &[
    (1, Asked::Pair, Told::Fds(0, 1)),
    (1, Asked::Pass(0, &[0, 1]), Told::Count(1)),
    (1, Asked::Take(1, 64, 0), Told::Taken(16, &[])),
    (1, Asked::Exit, Told::Ok),
];

#[test]
fn a_full_table_gets_no_rights(rt: HostRuntime) -> Result<(), AllocError> {
    expect_rows_of_one_process(&rt, rt.alloc(), 2, NO_ROOM)
}
