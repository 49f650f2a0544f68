//! Connected sockets: messages, resets, and what is freed with their queues.
use super::{
    append, close, expect_queue, expect_socket, open, open_pair, pass, settle, start,
    start_with_files, user,
};
use hoard::Hoard;
use std::alloc::{AllocError, Global};
use std::process::Abort;
use std::test::Fail;
use ux_object::FileObject;
use ux_objects::Counter;
use ux_rights::RefList;
use ux_state::{ReleasedObjects, State};
use ux_types::{DescriptionId, Errno, Fd, Mode, Name, OpenFlags, Pid, SockType};

/// Takes these bytes from a socket.
fn take<O: FileObject>(
    rt: &(impl Abort + AllocGlobal),
    state: &mut State<O>,
    id: u128,
    bytes: &[u8],
) -> Result<(), AllocError> {
    let id = DescriptionId::new(id);
    let waits = state.socket(id).filter(|socket| !socket.is_empty());
    let Some(socket) = waits else {
        assert!(rt; false);
        return Ok(());
    };
    let shown = socket.peek(rt.alloc(), bytes.len())?;
    assert!(rt; shown.bytes.as_slice() == bytes);
    state.skip_front(id, bytes.len());
    Ok(())
}

/// Delivers a description to process 1, at the lowest number.
fn deliver<O: FileObject>(
    rt: &impl Abort,
    alloc: Global,
    state: &mut State<O>,
    passed: u128,
    cloexec: bool,
) -> Result<(), AllocError> {
    let passed = DescriptionId::new(passed);
    assert!(rt; state.is_live(Pid(1)));
    assert!(rt; state.count(passed) > 0);
    let rights = RefList::from_slice(alloc, &[passed])?;
    let numbers = state.table(Pid(1)).lowest_numbers(alloc, 1)?;
    state.install_rights(Pid(1), &numbers, rights.as_slice(), cloexec)
}

/// Sees how many references a description has.
fn expect_count<O: FileObject>(rt: &impl Abort, state: &State<O>, id: u128, count: u64) {
    assert!(rt; state.count(DescriptionId::new(id)) == count);
}

/// Delivers where there is no memory left, and nothing was installed.
fn fail_delivery<O: FileObject>(
    rt: &impl Abort,
    alloc: Global,
    state: &mut State<O>,
    passed: u128,
) -> Result<(), AllocError> {
    let hoard = Hoard::take_all(alloc)?;
    let delivered = deliver(rt, alloc, state, passed, false);
    drop(hoard);
    assert!(rt; delivered.is_err());
    Ok(())
}

#[test]
fn delivered_rights_are_counted(rt: HostRuntime) -> Result<(), Fail> {
    let alloc = rt.alloc();
    let mut held = start_with_files(&rt, alloc)?;
    let s = &mut held.state;
    open(&rt, s, 1, 0, Mode::Both, Ok(Fd(0)));
    open_pair(&rt, s, 1, 2);
    close(&rt, s, 1, 1);
    fail_delivery(&rt, alloc, s, 0)?;
    expect_count(&rt, s, 0, 1);
    expect_socket(&rt, s, 1, Err(Errno::EBADF));
    deliver(&rt, alloc, s, 0, true)?;
    deliver(&rt, alloc, s, 2, false)?;
    expect_count(&rt, s, 0, 2);
    expect_count(&rt, s, 2, 2);
    expect_socket(&rt, s, 1, Err(Errno::ENOTSOCK));
    expect_socket(&rt, s, 3, Ok((2, 1)));
    close(&rt, s, 1, 0);
    settle(&rt, s, &[]);
    expect_count(&rt, s, 0, 1);
    Ok(())
}

#[test]
fn a_pair_has_messages_and_a_reset(rt: HostRuntime) -> Result<(), Fail> {
    let alloc = rt.alloc();
    let mut held = start_with_files(&rt, alloc)?;
    let s = &mut held.state;
    open(&rt, s, 1, 0, Mode::Both, Ok(Fd(0)));
    open_pair(&rt, s, 1, 2);
    expect_socket(&rt, s, 0, Err(Errno::ENOTSOCK));
    expect_socket(&rt, s, 1, Ok((1, 2)));
    expect_socket(&rt, s, 2, Ok((2, 1)));
    expect_socket(&rt, s, 3, Err(Errno::EBADF));
    append(&rt, alloc, s, 2, b"abc");
    append(&rt, alloc, s, 2, b"de");
    take(&rt, s, 2, b"ab")?;
    expect_queue(&rt, s, 1, b"", false)?;
    expect_queue(&rt, s, 2, b"cde", false)?;
    close(&rt, s, 1, 2);
    settle(&rt, s, &[]);
    assert!(rt; s.socket(DescriptionId::new(2)).is_none());
    expect_queue(&rt, s, 1, b"", true)?;
    s.set_reset(DescriptionId::new(1), false);
    expect_queue(&rt, s, 1, b"", false)?;
    Ok(())
}

/// Sees of a socket whether it is shut down for reading and for writing, whether a receive gets credentials, and how
/// many bytes its queue takes.
fn expect_set<O: FileObject>(
    rt: &impl Abort,
    state: &State<O>,
    id: u128,
    shut: (bool, bool),
    passcred: bool,
    limit: u32,
) {
    match state.socket(DescriptionId::new(id)) {
        Some(socket) => {
            assert!(rt; (socket.is_read_shut(), socket.is_write_shut()) == shut);
            assert!(rt; socket.passcred() == passcred);
            assert!(rt; socket.queue_limit() == limit);
        }
        None => assert!(rt; false),
    }
}

/// A file's description, which has nothing of this, and some that aren't there.
const NO_SOCKETS: &[u128] = &[0, 3, u128::MAX];

#[test]
fn one_socket_of_two_is_changed(rt: HostRuntime) -> Result<(), Fail> {
    let mut held = start_with_files(&rt, rt.alloc())?;
    let s = &mut held.state;
    open(&rt, s, 1, 0, Mode::Both, Ok(Fd(0)));
    open_pair(&rt, s, 1, 2);
    s.shut_down(DescriptionId::new(1), Mode::Write);
    s.set_passcred(DescriptionId::new(1), true);
    s.set_queue_limit(DescriptionId::new(1), 7);
    expect_set(&rt, s, 1, (false, true), true, 7);
    expect_set(&rt, s, 2, (false, false), false, 65536);
    for id in NO_SOCKETS {
        s.shut_down(DescriptionId::new(*id), Mode::Both);
        s.set_passcred(DescriptionId::new(*id), true);
        s.set_queue_limit(DescriptionId::new(*id), 9);
        assert!(rt; s.socket(DescriptionId::new(*id)).is_none());
    }
    expect_set(&rt, s, 1, (false, true), true, 7);
    expect_set(&rt, s, 2, (false, false), false, 65536);
    Ok(())
}

/// Makes two connected sockets of process 1, if there is memory.
fn opens_pair<O: FileObject>(state: &mut State<O>) -> bool {
    state.is_live(Pid(1))
        && state
            .open_pair(Pid(1), SockType::Stream, OpenFlags(0), user())
            .is_ok()
}

#[test]
fn pairs_with_unread_bytes_leave_no_slot_taken(rt: HostRuntime) -> Result<(), Fail> {
    let alloc = rt.alloc();
    let mut held = start_with_files(&rt, alloc)?;
    let s = &mut held.state;
    for pair in 0..10_000u32 {
        open_pair(&rt, s, 0, 1);
        append(&rt, alloc, s, 2 * pair as u128 + 1, b"x");
        close(&rt, s, 1, 0);
        close(&rt, s, 1, 1);
        settle(&rt, s, &[]);
    }
    let hoard = Hoard::take_all(alloc)?;
    let opened = opens_pair(s);
    drop(hoard);
    assert!(rt; opened);
    expect_socket(&rt, s, 1, Ok((20_001, 20_000)));
    Ok(())
}

#[test]
fn a_chain_of_passed_sockets_is_freed_at_once(rt: HostRuntime) -> Result<(), Fail> {
    let alloc = rt.alloc();
    let mut held = start_with_files(&rt, alloc)?;
    let s = &mut held.state;
    open_pair(&rt, s, 0, 1);
    close(&rt, s, 1, 1);
    // The last socket is open at the one of the numbers 0 and 1, the next at the other.
    for last in 0..9_999u32 {
        let at = last % 2;
        let (last, next) = (2 * last as u128, 2 * last as u128 + 2);
        open_pair(&rt, s, 1 - at, 2);
        pass(&rt, alloc, s, next, last, 1000)?;
        close(&rt, s, 1, at);
        close(&rt, s, 1, 2);
        settle(&rt, s, &[]);
        assert!(rt; s.count(DescriptionId::new(last)) == 1);
    }
    assert!(rt; s.socket(DescriptionId::new(0)).is_some());
    assert!(rt; s.socket(DescriptionId::new(10_000)).is_some());
    close(&rt, s, 1, 1);
    settle(&rt, s, &[]);
    for id in 0..20_000u32 {
        assert!(rt; s.description(DescriptionId::new(id as u128)).is_none());
    }
    Ok(())
}

/// Ends a call and opens a pair where there is no memory left: how many file objects are released, and whether
/// there is a pair.
fn settle_without_memory<O: FileObject>(
    alloc: Global,
    state: &mut State<O>,
) -> Result<(usize, bool), AllocError> {
    let mut released = ReleasedObjects::new(alloc);
    let hoard = Hoard::take_all(alloc)?;
    let _numbers = state.settle(&mut released);
    let opened = opens_pair(state);
    drop(hoard);
    Ok((released.len(), opened))
}

#[test]
fn a_state_settles_without_memory(rt: HostRuntime) -> Result<(), Fail> {
    let alloc = rt.alloc();
    let mut held = start(&rt, alloc, Counter::new(), Counter::new())?;
    let s = &mut held.state;
    open(&rt, s, 1, 0, Mode::Both, Ok(Fd(0)));
    open_pair(&rt, s, 1, 2);
    append(&rt, alloc, s, 2, b"abc");
    s.unlink(&Name::from_slice(alloc, b"a")?);
    close(&rt, s, 1, 0);
    close(&rt, s, 1, 2);
    let (gone, opened) = settle_without_memory(alloc, s)?;
    assert!(rt; gone == 1);
    assert!(rt; s.object(0).is_none());
    assert!(rt; s.socket(DescriptionId::new(2)).is_none());
    expect_queue(&rt, s, 1, b"", true)?;
    assert!(rt; opened);
    Ok(())
}
