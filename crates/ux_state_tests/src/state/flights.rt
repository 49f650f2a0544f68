//! How many rights of each user are in messages that nobody has received.
use super::{
    append, close, draft, end, expect_queue, open, open_pair, pass, settle, start_with_files,
};
use hoard::Hoard;
use std::alloc::{AllocError, Global};
use std::process::Abort;
use std::test::Fail;
use ux_object::FileObject;
use ux_rights::RefList;
use ux_state::State;
use ux_types::{Bytes, DescriptionId, Fd, Mode};

/// Sends a reference to a description twice in one message to a socket, for a process of a user.
fn pass_twice<O: FileObject>(
    rt: &impl Abort,
    alloc: Global,
    state: &mut State<O>,
    id: u128,
    passed: u128,
    uid: u32,
) -> Result<(), AllocError> {
    let id = DescriptionId::new(id);
    let passed = DescriptionId::new(passed);
    assert!(rt; state.socket(id).is_some());
    assert!(rt; state.count(passed) > 0);
    let rights = RefList::from_slice(alloc, &[passed, passed])?;
    let sent = state.send(id, draft(&Bytes::short(b"x"), uid), rights, None);
    assert!(rt; sent == Ok(1));
    Ok(())
}

/// Receives some bytes at a socket, and drops their rights.
fn receive<O: FileObject>(rt: &impl Abort, state: &mut State<O>, id: u128, count: usize) {
    let id = DescriptionId::new(id);
    assert!(rt; state.socket(id).is_some_and(|socket| !socket.is_empty()));
    state.skip_front(id, count);
}

/// Sees how many rights of the users 1000 and 1001 are in flight.
fn expect_flights<O: FileObject>(rt: &impl Abort, state: &State<O>, first: u64, second: u64) {
    assert!(rt; state.rights_in_flight(1000) == first);
    assert!(rt; state.rights_in_flight(1001) == second);
    assert!(rt; state.rights_in_flight(0) == 0);
}

#[test]
fn sends_count_and_receives_count_back(rt: HostRuntime) -> Result<(), Fail> {
    let alloc = rt.alloc();
    let mut held = start_with_files(&rt, alloc)?;
    let s = &mut held.state;
    open(&rt, s, 1, 0, Mode::Both, Ok(Fd(0)));
    open_pair(&rt, s, 1, 2);
    pass_twice(&rt, alloc, s, 1, 0, 1000)?;
    pass(&rt, alloc, s, 1, 0, 1001)?;
    pass_twice(&rt, alloc, s, 2, 0, 1001)?;
    pass(&rt, alloc, s, 2, 0, 1001)?;
    append(&rt, alloc, s, 2, b"no rights");
    expect_flights(&rt, s, 2, 4);
    receive(&rt, s, 1, 100);
    expect_flights(&rt, s, 0, 4);
    receive(&rt, s, 1, 100);
    expect_flights(&rt, s, 0, 3);
    Ok(())
}

#[test]
fn a_freed_queue_counts_back(rt: HostRuntime) -> Result<(), Fail> {
    let alloc = rt.alloc();
    let mut held = start_with_files(&rt, alloc)?;
    let s = &mut held.state;
    open(&rt, s, 1, 0, Mode::Both, Ok(Fd(0)));
    open_pair(&rt, s, 1, 2);
    pass(&rt, alloc, s, 1, 0, 1000)?;
    pass_twice(&rt, alloc, s, 2, 0, 1000)?;
    pass(&rt, alloc, s, 2, 0, 1001)?;
    close(&rt, s, 1, 2);
    expect_flights(&rt, s, 3, 1);
    settle(&rt, s, &[]);
    expect_flights(&rt, s, 1, 0);
    Ok(())
}

#[test]
fn the_end_counts_all_back(rt: HostRuntime) -> Result<(), Fail> {
    let alloc = rt.alloc();
    let mut held = start_with_files(&rt, alloc)?;
    let s = &mut held.state;
    open_pair(&rt, s, 0, 1);
    // Each end is in the other's queue, so the two stay when the process ends.
    pass(&rt, alloc, s, 0, 1, 1000)?;
    pass(&rt, alloc, s, 1, 0, 1001)?;
    end(&rt, s, 1);
    settle(&rt, s, &[]);
    expect_flights(&rt, s, 1, 1);
    s.forget_all();
    expect_flights(&rt, s, 0, 0);
    Ok(())
}

#[test]
fn a_chain_is_freed_with_its_counts(rt: HostRuntime) -> Result<(), Fail> {
    let alloc = rt.alloc();
    let mut held = start_with_files(&rt, alloc)?;
    let s = &mut held.state;
    open_pair(&rt, s, 0, 1);
    open_pair(&rt, s, 2, 3);
    pass(&rt, alloc, s, 0, 1, 1000)?;
    pass(&rt, alloc, s, 2, 0, 1001)?;
    close(&rt, s, 1, 0);
    close(&rt, s, 1, 1);
    settle(&rt, s, &[]);
    expect_flights(&rt, s, 1, 1);
    close(&rt, s, 1, 2);
    settle(&rt, s, &[]);
    expect_flights(&rt, s, 0, 0);
    assert!(rt; s.socket(DescriptionId::new(0)).is_none());
    assert!(rt; s.socket(DescriptionId::new(3)).is_some());
    Ok(())
}

/// Sends, where there is no memory left, a message with a right and one without: whether each is taken.
fn send_without_memory<O: FileObject>(
    rt: &impl Abort,
    alloc: Global,
    state: &mut State<O>,
    id: u128,
    passed: u128,
) -> Result<(bool, bool), AllocError> {
    let id = DescriptionId::new(id);
    let passed = DescriptionId::new(passed);
    assert!(rt; state.socket(id).is_some());
    assert!(rt; state.count(passed) > 0);
    let rights = RefList::from_slice(alloc, &[passed])?;
    let hoard = Hoard::take_all(alloc)?;
    let with = state.send(id, draft(&Bytes::short(b"x"), 1001), rights, None);
    let socket_stays = state.socket(id).is_some();
    assert!(rt; socket_stays);
    let bytes = Bytes::short(b"y");
    let without = state.send(id, draft(&bytes, 1001), RefList::new(alloc), None);
    drop(hoard);
    Ok((with.is_ok(), without.is_ok()))
}

#[test]
fn a_new_user_takes_memory(rt: HostRuntime) -> Result<(), Fail> {
    let alloc = rt.alloc();
    let mut held = start_with_files(&rt, alloc)?;
    let s = &mut held.state;
    open(&rt, s, 1, 0, Mode::Both, Ok(Fd(0)));
    open_pair(&rt, s, 1, 2);
    append(&rt, alloc, s, 1, b"ab");
    let (with, without) = send_without_memory(&rt, alloc, s, 1, 0)?;
    assert!(rt; !with);
    assert!(rt; without);
    expect_queue(&rt, s, 1, b"aby", false)?;
    assert!(rt; s.count(DescriptionId::new(0)) == 1);
    expect_flights(&rt, s, 0, 0);
    pass(&rt, alloc, s, 1, 0, 1001)?;
    expect_flights(&rt, s, 0, 1);
    Ok(())
}
