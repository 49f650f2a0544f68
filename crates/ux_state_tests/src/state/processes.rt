//! Processes that are made, and what a new program in one closes: by the counts of references.
use super::{append, end, expect_queue, open_pair, pass, settle, start_with, start_with_files};
use hoard::Hoard;
use std::alloc::{AllocError, Global};
use std::process::Abort;
use std::test::Fail;
use ux_object::FileObject;
use ux_objects::Counter;
use ux_state::State;
use ux_types::{Cred, DescriptionId, Fd, Mode, OpenFlags, Pid, ProcSpec};

/// Makes a child of a process, if there is memory. None is made beyond 1,024.
fn fork<O: FileObject>(
    rt: &impl Abort,
    state: &mut State<O>,
    parent: u32,
) -> Result<Pid, AllocError> {
    assert!(rt; state.is_live(Pid(parent)));
    assert!(rt; state.process_count() < 1024);
    state.fork_process(Pid(parent))
}

/// Starts a program in a process.
fn exec<O: FileObject>(rt: &impl Abort, state: &mut State<O>, pid: u32) {
    assert!(rt; state.is_live(Pid(pid)));
    state.exec_process(Pid(pid));
}

/// Opens the first file object in process 1 with close-on-exec, at this number.
fn open_with_cloexec<O: FileObject>(rt: &impl Abort, state: &mut State<O>, fd: u32) {
    assert!(rt; state.is_live(Pid(1)));
    let opened = state.open_object(Pid(1), 0, Mode::Both, OpenFlags(4));
    assert!(rt; opened == Ok(Fd(fd)));
}

/// Sees how often each of the descriptions 0, 1 and 2 is referred to.
fn expect_counts<O: FileObject>(rt: &impl Abort, state: &State<O>, counts: [u64; 3]) {
    let [first, second, third] = counts;
    assert!(rt; state.count(DescriptionId::new(0)) == first);
    assert!(rt; state.count(DescriptionId::new(1)) == second);
    assert!(rt; state.count(DescriptionId::new(2)) == third);
}

#[test]
fn a_child_refers_to_all_that_its_parent_does(rt: HostRuntime) -> Result<(), Fail> {
    let alloc = rt.alloc();
    let mut held = start_with_files(&rt, alloc)?;
    let s = &mut held.state;
    open_with_cloexec(&rt, s, 0);
    open_pair(&rt, s, 1, 2);
    pass(&rt, alloc, s, 1, 2, 1000)?;
    expect_counts(&rt, s, [1, 1, 2]);
    assert!(rt; fork(&rt, s, 1) == Ok(Pid(3)));
    expect_counts(&rt, s, [2, 2, 3]);
    assert!(rt; s.rights_in_flight(1000) == 1);
    exec(&rt, s, 3);
    expect_counts(&rt, s, [1, 2, 3]);
    end(&rt, s, 1);
    settle(&rt, s, &[]);
    expect_counts(&rt, s, [0, 1, 2]);
    Ok(())
}

#[test]
fn numbers_of_the_exited_are_not_given_again(rt: HostRuntime) -> Result<(), Fail> {
    let mut held = start_with_files(&rt, rt.alloc())?;
    let s = &mut held.state;
    end(&rt, s, 2);
    assert!(rt; fork(&rt, s, 1) == Ok(Pid(3)));
    end(&rt, s, 1);
    assert!(rt; fork(&rt, s, 3) == Ok(Pid(4)));
    assert!(rt; s.process_count() == 4);
    assert!(rt; !s.is_live(Pid(1)));
    assert!(rt; !s.is_live(Pid(5)));
    Ok(())
}

/// A process of a user, and one of the superuser.
const USERS: [ProcSpec; 2] = [
    ProcSpec {
        uid: 1000,
        gid: 100,
        privileged: false,
        limit: 4,
    },
    ProcSpec {
        uid: 0,
        gid: 1,
        privileged: true,
        limit: 4,
    },
];

/// Sees the user and the group of a process, and whether it has privileges.
fn expect_user<O: FileObject>(rt: &impl Abort, state: &State<O>, pid: u32, user: (u32, u32, bool)) {
    let (uid, gid, privileged) = user;
    let pid = Pid(pid);
    assert!(rt; state.is_live(pid));
    assert!(rt; state.credentials(pid) == Cred { pid, uid, gid });
    assert!(rt; state.is_privileged(pid) == privileged);
}

#[test]
fn a_child_is_of_its_parents_user(rt: HostRuntime) -> Result<(), Fail> {
    let alloc = rt.alloc();
    let mut held = start_with(&rt, alloc, Counter::new(), Counter::new(), &USERS)?;
    let s = &mut held.state;
    assert!(rt; fork(&rt, s, 2) == Ok(Pid(3)));
    assert!(rt; fork(&rt, s, 1) == Ok(Pid(4)));
    expect_user(&rt, s, 1, (1000, 100, false));
    expect_user(&rt, s, 2, (0, 1, true));
    expect_user(&rt, s, 3, (0, 1, true));
    expect_user(&rt, s, 4, (1000, 100, false));
    exec(&rt, s, 3);
    expect_user(&rt, s, 3, (0, 1, true));
    Ok(())
}

/// Gives a process other ids.
fn set_ids<O: FileObject>(rt: &impl Abort, state: &mut State<O>, pid: u32, uid: u32, gid: u32) {
    assert!(rt; state.is_live(Pid(pid)));
    state.set_ids(Pid(pid), uid, gid);
}

/// A process of the superuser, and one of a user with its privileges.
const PRIVILEGED: [ProcSpec; 2] = [
    ProcSpec {
        uid: 0,
        gid: 1,
        privileged: true,
        limit: 4,
    },
    ProcSpec {
        uid: 7,
        gid: 7,
        privileged: true,
        limit: 4,
    },
];

/// Other ids, with the user and the group that they leave, and whether the process has privileges still.
const BECOME: &[(u32, u32, u32, bool)] = &[
    (1, 0, 5, true),
    (1, 1000, 100, false),
    (1, 0, 0, false),
    (2, 7, 9, true),
    (2, 8, 8, true),
    (2, 0, 3, true),
    (2, 8, 8, false),
];

#[test]
fn privileges_go_where_user_0_becomes_another(rt: HostRuntime) -> Result<(), Fail> {
    let alloc = rt.alloc();
    let mut held = start_with(&rt, alloc, Counter::new(), Counter::new(), &PRIVILEGED)?;
    let s = &mut held.state;
    for (pid, uid, gid, privileged) in BECOME {
        set_ids(&rt, s, *pid, *uid, *gid);
        expect_user(&rt, s, *pid, (*uid, *gid, *privileged));
    }
    expect_user(&rt, s, 1, (0, 0, false));
    Ok(())
}

#[test]
fn rights_in_flight_stay_with_the_user_that_sent_them(rt: HostRuntime) -> Result<(), Fail> {
    let alloc = rt.alloc();
    let mut held = start_with_files(&rt, alloc)?;
    let s = &mut held.state;
    open_with_cloexec(&rt, s, 0);
    open_pair(&rt, s, 1, 2);
    pass(&rt, alloc, s, 1, 0, 1000)?;
    set_ids(&rt, s, 1, 1001, 1001);
    assert!(rt; s.rights_in_flight(1000) == 1);
    assert!(rt; s.rights_in_flight(1001) == 0);
    expect_counts(&rt, s, [2, 1, 1]);
    assert!(rt; fork(&rt, s, 1) == Ok(Pid(3)));
    expect_user(&rt, s, 3, (1001, 1001, false));
    Ok(())
}

/// Whether a fork of process 1 is made while there is no memory.
fn forks_without_memory<O: FileObject>(
    rt: &impl Abort,
    alloc: Global,
    state: &mut State<O>,
) -> Result<bool, AllocError> {
    let hoard = Hoard::take_all(alloc)?;
    let made = fork(rt, state, 1).is_ok();
    exec(rt, state, 1);
    drop(hoard);
    Ok(made)
}

#[test]
fn a_fork_without_memory_counts_nothing_and_exec_needs_none(rt: HostRuntime) -> Result<(), Fail> {
    let alloc = rt.alloc();
    let mut held = start_with_files(&rt, alloc)?;
    let s = &mut held.state;
    open_with_cloexec(&rt, s, 0);
    open_pair(&rt, s, 1, 2);
    append(&rt, alloc, s, 1, b"ab");
    let made = forks_without_memory(&rt, alloc, s)?;
    assert!(rt; !made);
    assert!(rt; s.process_count() == 2);
    expect_counts(&rt, s, [0, 1, 1]);
    expect_queue(&rt, s, 1, b"ab", false)?;
    assert!(rt; fork(&rt, s, 1) == Ok(Pid(3)));
    expect_counts(&rt, s, [0, 2, 2]);
    Ok(())
}
