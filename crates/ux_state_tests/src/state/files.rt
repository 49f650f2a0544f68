//! File objects, descriptors and descriptions, and how a file object is released.
use super::{
    append, close, end, open, open_pair, process, settle, start, start_with, start_with_files,
};
use std::alloc::{AllocError, Global};
use std::process::Abort;
use std::test::Fail;
use ux_fdtable::{Descriptor, DupError, InstallError};
use ux_names::PathTarget;
use ux_object::FileObject;
use ux_objects::{Counter, Pipe};
use ux_state::State;
use ux_types::{DescriptionId, Errno, Fd, Mode, Name, OpenFlags, Pid};

/// A descriptor of the description with this number.
fn descriptor(description: u128, cloexec: bool) -> Descriptor {
    Descriptor {
        description: DescriptionId::new(description),
        cloexec,
    }
}

/// Puts an entry at the lowest free number of process 1, which is this one.
fn put_lowest<O: FileObject>(rt: &impl Abort, state: &mut State<O>, entry: Descriptor, fd: u32) {
    assert!(rt; state.is_live(Pid(1)));
    assert!(rt; state.count(entry.description) > 0);
    let put = state.put_lowest(Pid(1), entry);
    assert!(rt; put == Ok(Fd(fd)));
}

/// Puts an entry at the lowest free number of process 1 that isn't below a minimum, with this answer.
fn put_lowest_from<O: FileObject>(
    rt: &impl Abort,
    state: &mut State<O>,
    minimum: u32,
    entry: Descriptor,
    answer: Result<Fd, InstallError>,
) {
    assert!(rt; state.is_live(Pid(1)));
    assert!(rt; state.count(entry.description) > 0);
    let put = state.put_lowest_from(Pid(1), Fd(minimum), entry);
    assert!(rt; put == answer);
}

/// Puts a copy of an entry at a number of process 1, which gives this answer.
fn put_copy_at<O: FileObject>(
    rt: &impl Abort,
    state: &mut State<O>,
    fd: u32,
    entry: Descriptor,
    answer: Result<(), DupError>,
) {
    assert!(rt; state.is_live(Pid(1)));
    assert!(rt; state.count(entry.description) > 0);
    let put = state.put_copy_at(Pid(1), Fd(fd), entry);
    assert!(rt; put == answer);
}

/// Sets or clears close-on-exec at a number of process 1.
fn set_cloexec<O: FileObject>(rt: &impl Abort, state: &mut State<O>, fd: u32, cloexec: bool) {
    assert!(rt; state.is_live(Pid(1)));
    state.set_cloexec(Pid(1), Fd(fd), cloexec);
}

/// Sees what a number of process 1 leads to.
fn expect_entry<O: FileObject>(
    rt: &impl Abort,
    state: &State<O>,
    fd: u32,
    entry: Option<Descriptor>,
) {
    assert!(rt; state.is_live(Pid(1)));
    match state.find_description(Pid(1), Fd(fd)) {
        Ok(found) => assert!(rt; entry == Some(found.descriptor), "{fd}"),
        Err(refusal) => {
            assert!(rt; refusal == Errno::EBADF);
            assert!(rt; entry.is_none(), "{fd}");
        }
    }
}

/// Sees whether a file object is open for reading and for writing.
fn expect_openings<O: FileObject>(
    rt: &impl Abort,
    state: &State<O>,
    object: u32,
    reader: bool,
    writer: bool,
) {
    assert!(rt; state.object(object).is_some());
    assert!(rt; state.has_reader(object) == reader, "{object}");
    assert!(rt; state.has_writer(object) == writer, "{object}");
}

/// Writes to a file object.
fn write<O: FileObject>(rt: &impl Abort, state: &mut State<O>, object: u32, at: u64, bytes: &[u8]) {
    assert!(rt; state.object(object).is_some());
    assert!(rt; state.write_object(object, at, bytes) == Ok(bytes.len()));
}

/// Reads these bytes of a file object.
fn read<O: FileObject>(rt: &impl Abort, state: &mut State<O>, object: u32, at: u64, bytes: &[u8]) {
    let mut buf = [0; 8];
    assert!(rt; state.object(object).is_some());
    assert!(rt; state.read_object(object, at, &mut buf) == Ok(bytes.len()));
    assert!(rt; bytes.len() <= 8);
    assert!(rt; &buf[..bytes.len()] == bytes);
}

/// Sees what a path leads to.
fn expect_path<O: FileObject>(
    rt: &impl Abort,
    alloc: Global,
    state: &State<O>,
    path: &[u8],
    answer: Option<PathTarget>,
) -> Result<(), AllocError> {
    let path = Name::from_slice(alloc, path)?;
    assert!(rt; state.path(&path) == answer);
    Ok(())
}

/// Numbers, and whether they are those of processes that live at the start.
const LIVING: &[(u32, bool)] = &[(0, false), (1, true), (2, true), (3, false)];

#[test]
fn a_state_starts_as_it_is_wanted(rt: HostRuntime) -> Result<(), Fail> {
    let alloc = rt.alloc();
    let mut held = start_with_files(&rt, alloc)?;
    let s = &mut held.state;
    assert!(rt; s.process_count() == 2);
    assert!(rt; s.has_live());
    for (pid, live) in LIVING {
        assert!(rt; s.is_live(Pid(*pid)) == *live, "{pid}");
    }
    expect_path(&rt, alloc, s, b"a", Some(PathTarget::File(0)))?;
    expect_path(&rt, alloc, s, b"b", Some(PathTarget::File(1)))?;
    s.unlink(&Name::from_slice(alloc, b"a")?);
    expect_path(&rt, alloc, s, b"a", None)?;
    expect_path(&rt, alloc, s, b"b", Some(PathTarget::File(1)))?;
    match s.object(1) {
        Some(object) => assert!(rt; object.size() == 2),
        None => assert!(rt; false),
    }
    assert!(rt; s.object(2).is_none());
    assert!(rt; s.object_count() == 2 && s.description_count() == 0);
    assert!(rt; s.paths().len() == 1);
    Ok(())
}

#[test]
fn a_file_is_opened_twice(rt: HostRuntime) -> Result<(), Fail> {
    let mut held = start_with_files(&rt, rt.alloc())?;
    let s = &mut held.state;
    expect_openings(&rt, s, 0, false, false);
    open(&rt, s, 1, 0, Mode::Read, Ok(Fd(0)));
    expect_openings(&rt, s, 0, true, false);
    open(&rt, s, 2, 0, Mode::Write, Ok(Fd(0)));
    expect_openings(&rt, s, 0, true, true);
    expect_openings(&rt, s, 1, false, false);
    open(&rt, s, 2, 1, Mode::Both, Err(InstallError::Full));
    expect_openings(&rt, s, 1, false, false);
    write(&rt, s, 0, 2, b"CD");
    read(&rt, s, 0, 1, b"bCD");
    read(&rt, s, 1, 0, b"xy");
    close(&rt, s, 1, 0);
    settle(&rt, s, &[]);
    expect_openings(&rt, s, 0, false, true);
    Ok(())
}

#[test]
fn a_description_is_changed(rt: HostRuntime) -> Result<(), Fail> {
    let mut held = start_with_files(&rt, rt.alloc())?;
    let s = &mut held.state;
    open(&rt, s, 1, 1, Mode::Write, Ok(Fd(0)));
    let id = DescriptionId::new(0);
    s.set_offset(id, 7);
    s.set_flags(id, OpenFlags(2));
    s.set_offset(DescriptionId::new(1), 8);
    s.set_flags(DescriptionId::new(u128::MAX), OpenFlags(1));
    match s.description(id) {
        Some(description) => {
            assert!(rt; description.object() == Some(1) && description.mode() == Mode::Write);
            assert!(rt; description.offset() == 7);
            assert!(rt; description.nonblock() && !description.append());
        }
        None => assert!(rt; false),
    }
    assert!(rt; s.description(DescriptionId::new(1)).is_none());
    Ok(())
}

#[test]
fn entries_are_put_and_taken(rt: HostRuntime) -> Result<(), Fail> {
    let mut held = start_with_files(&rt, rt.alloc())?;
    let s = &mut held.state;
    open(&rt, s, 1, 0, Mode::Both, Ok(Fd(0)));
    open(&rt, s, 1, 1, Mode::Both, Ok(Fd(1)));
    put_lowest(&rt, s, descriptor(1, true), 2);
    put_copy_at(&rt, s, 3, descriptor(0, true), Ok(()));
    put_copy_at(&rt, s, 4, descriptor(0, true), Err(DupError::BadNumber));
    set_cloexec(&rt, s, 0, true);
    expect_entry(&rt, s, 0, Some(descriptor(0, true)));
    expect_entry(&rt, s, 1, Some(descriptor(1, false)));
    expect_entry(&rt, s, 2, Some(descriptor(1, true)));
    expect_entry(&rt, s, 3, Some(descriptor(0, false)));
    close(&rt, s, 1, 1);
    settle(&rt, s, &[]);
    expect_entry(&rt, s, 1, None);
    expect_entry(&rt, s, 2, Some(descriptor(1, true)));
    put_lowest(&rt, s, descriptor(1, false), 1);
    put_lowest_from(&rt, s, 2, descriptor(0, true), Err(InstallError::Full));
    put_lowest_from(&rt, s, 9, descriptor(0, true), Err(InstallError::Full));
    assert!(rt; s.count(DescriptionId::new(0)) == 2);
    assert!(rt; s.count(DescriptionId::new(1)) == 2);
    assert!(rt; s.count(DescriptionId::new(2)) == 0);
    Ok(())
}

#[test]
fn entries_are_put_from_a_minimum_on(rt: HostRuntime) -> Result<(), Fail> {
    let mut held = start_with_files(&rt, rt.alloc())?;
    let s = &mut held.state;
    open(&rt, s, 1, 0, Mode::Both, Ok(Fd(0)));
    put_lowest_from(&rt, s, 2, descriptor(0, true), Ok(Fd(2)));
    put_lowest_from(&rt, s, 2, descriptor(0, false), Ok(Fd(3)));
    put_lowest_from(&rt, s, 3, descriptor(0, false), Err(InstallError::Full));
    put_lowest_from(&rt, s, 0, descriptor(0, false), Ok(Fd(1)));
    expect_entry(&rt, s, 2, Some(descriptor(0, true)));
    assert!(rt; s.count(DescriptionId::new(0)) == 4);
    Ok(())
}

#[test]
fn a_file_is_released_with_its_last_descriptor(rt: HostRuntime) -> Result<(), Fail> {
    let alloc = rt.alloc();
    let mut held = start(&rt, alloc, Counter::new(), Counter::new())?;
    let s = &mut held.state;
    open(&rt, s, 1, 1, Mode::Read, Ok(Fd(0)));
    open(&rt, s, 2, 1, Mode::Write, Ok(Fd(0)));
    settle(&rt, s, &[]);
    s.unlink(&Name::from_slice(alloc, b"b")?);
    settle(&rt, s, &[]);
    close(&rt, s, 1, 0);
    settle(&rt, s, &[]);
    end(&rt, s, 2);
    settle(&rt, s, &[1]);
    settle(&rt, s, &[]);
    assert!(rt; s.object(0).is_some());
    assert!(rt; s.has_live());
    Ok(())
}

#[test]
fn a_file_is_released_with_its_last_path(rt: HostRuntime) -> Result<(), Fail> {
    let alloc = rt.alloc();
    let mut held = start(&rt, alloc, Counter::new(), Counter::new())?;
    let s = &mut held.state;
    open(&rt, s, 1, 0, Mode::Both, Ok(Fd(0)));
    close(&rt, s, 1, 0);
    settle(&rt, s, &[]);
    s.unlink(&Name::from_slice(alloc, b"a")?);
    settle(&rt, s, &[0]);
    settle(&rt, s, &[]);
    Ok(())
}

#[test]
fn all_is_freed_at_the_end(rt: HostRuntime) -> Result<(), Fail> {
    let alloc = rt.alloc();
    let a = Pipe::new(alloc)?;
    let b = Pipe::new(alloc)?;
    let mut held = start(&rt, alloc, a, b)?;
    let s = &mut held.state;
    open(&rt, s, 1, 0, Mode::Both, Ok(Fd(0)));
    open_pair(&rt, s, 1, 2);
    append(&rt, alloc, s, 1, b"abc");
    end(&rt, s, 1);
    end(&rt, s, 2);
    settle(&rt, s, &[]);
    assert!(rt; !s.has_live());
    s.forget_all();
    settle(&rt, s, &[0, 1]);
    settle(&rt, s, &[]);
    assert!(rt; s.process_count() == 2);
    expect_path(&rt, alloc, s, b"a", None)?;
    Ok(())
}

#[test]
fn a_process_of_64_opens_4096_descriptors_and_exits(rt: HostRuntime) -> Result<(), Fail> {
    let alloc = rt.alloc();
    let procs = vec![in alloc; process(4096); 64]?;
    let mut held = start_with(&rt, alloc, Counter::new(), Counter::new(), &procs)?;
    let s = &mut held.state;
    for fd in 0..4096 {
        open(&rt, s, 64, 0, Mode::Read, Ok(Fd(fd)));
    }
    open(&rt, s, 64, 0, Mode::Read, Err(InstallError::Full));
    expect_openings(&rt, s, 0, true, false);
    end(&rt, s, 64);
    settle(&rt, s, &[]);
    expect_openings(&rt, s, 0, false, false);
    assert!(rt; s.description(DescriptionId::new(4095)).is_none());
    assert!(rt; s.is_live(Pid(63)));
    Ok(())
}
