//! File objects that calls make.
use super::{close, open, settle, start_with_files};
use std::alloc::Global;
use std::process::Abort;
use std::test::Fail;
use ux_names::PathTarget;
use ux_object::{FileObject, ObjError};
use ux_state::{MakeError, State};
use ux_types::{Fd, Mode, Name, OpenFlags, Pid};

const PLAIN: OpenFlags = OpenFlags(0);

/// Makes a pipe at these numbers of a process.
fn make_pipe<O: FileObject>(
    rt: &impl Abort,
    state: &mut State<O>,
    pid: u32,
    answer: Result<(Fd, Fd), MakeError>,
) {
    assert!(rt; state.is_live(Pid(pid)));
    let made = state.make_pipe(Pid(pid), PLAIN);
    assert!(rt; made == answer);
}

/// Makes a counter of process 1, or a semaphore.
fn make_counter<O: FileObject>(
    rt: &impl Abort,
    state: &mut State<O>,
    value: u32,
    semaphore: bool,
    answer: Result<Fd, MakeError>,
) {
    assert!(rt; state.is_live(Pid(1)));
    let made = state.make_counter(Pid(1), value, semaphore, PLAIN);
    assert!(rt; made == answer);
}

/// Makes a file of a process.
fn make_file<O: FileObject>(
    rt: &impl Abort,
    state: &mut State<O>,
    pid: u32,
    answer: Result<Fd, MakeError>,
) {
    assert!(rt; state.is_live(Pid(pid)));
    let made = state.make_file(Pid(pid), PLAIN);
    assert!(rt; made == answer);
}

/// Makes a file of a process under a path.
fn create<O: FileObject>(
    rt: &impl Abort,
    alloc: Global,
    state: &mut State<O>,
    pid: u32,
    path: &[u8],
    answer: Result<Fd, MakeError>,
) -> Result<(), Fail> {
    let path = Name::from_slice(alloc, path)?;
    assert!(rt; state.is_live(Pid(pid)));
    assert!(rt; state.path(&path).is_none());
    let made = state.create_file(Pid(pid), &path, Mode::Write, PLAIN);
    assert!(rt; made == answer);
    Ok(())
}

/// Reads so many bytes of a file object, with this answer.
fn read<O: FileObject>(
    rt: &impl Abort,
    state: &mut State<O>,
    object: u32,
    answer: Result<usize, ObjError>,
) -> [u8; 8] {
    let mut buf = [0; 8];
    assert!(rt; state.object(object).is_some());
    assert!(rt; state.read_object(object, 0, &mut buf) == answer);
    buf
}

/// Writes these bytes, all of which fit, to a file object.
fn write<O: FileObject>(rt: &impl Abort, state: &mut State<O>, object: u32, bytes: &[u8]) {
    assert!(rt; state.object(object).is_some());
    let put = state.write_object(object, 0, bytes);
    assert!(rt; put == Ok(bytes.len()));
}

#[test]
fn a_pipe_is_made_and_closed_once(rt: HostRuntime) -> Result<(), Fail> {
    let mut held = start_with_files(&rt, rt.alloc())?;
    let s = &mut held.state;
    open(&rt, s, 1, 0, Mode::Read, Ok(Fd(0)));
    make_pipe(&rt, s, 1, Ok((Fd(1), Fd(2))));
    assert!(rt; s.object_count() == 3 && s.description_count() == 3);
    settle(&rt, s, &[]);
    assert!(rt; s.object(2).is_some());
    assert!(rt; s.has_reader(2) && s.has_writer(2));
    write(&rt, s, 2, b"ab");
    close(&rt, s, 1, 2);
    settle(&rt, s, &[]);
    assert!(rt; s.object(2).is_some());
    assert!(rt; s.has_reader(2) && !s.has_writer(2));
    let read = read(&rt, s, 2, Ok(2));
    assert!(rt; read.starts_with(b"ab"));
    close(&rt, s, 1, 1);
    settle(&rt, s, &[2]);
    settle(&rt, s, &[]);
    make_file(&rt, s, 1, Ok(Fd(1)));
    assert!(rt; s.object(3).is_some());
    Ok(())
}

#[test]
fn a_counter_starts_at_its_value(rt: HostRuntime) -> Result<(), Fail> {
    let mut held = start_with_files(&rt, rt.alloc())?;
    let s = &mut held.state;
    make_counter(&rt, s, 258, false, Ok(Fd(0)));
    let value = read(&rt, s, 2, Ok(8));
    assert!(rt; u64::from_le_bytes(value) == 258);
    let _empty = read(&rt, s, 2, Err(ObjError::WouldBlock));
    close(&rt, s, 1, 0);
    settle(&rt, s, &[2]);
    Ok(())
}

#[test]
fn a_semaphore_is_taken_one_by_one(rt: HostRuntime) -> Result<(), Fail> {
    let mut held = start_with_files(&rt, rt.alloc())?;
    let s = &mut held.state;
    make_counter(&rt, s, 2, true, Ok(Fd(0)));
    for _ in 0..2 {
        let value = read(&rt, s, 2, Ok(8));
        assert!(rt; u64::from_le_bytes(value) == 1);
    }
    let _empty = read(&rt, s, 2, Err(ObjError::WouldBlock));
    close(&rt, s, 1, 0);
    settle(&rt, s, &[2]);
    Ok(())
}

#[test]
fn a_file_is_made_under_a_path(rt: HostRuntime) -> Result<(), Fail> {
    let alloc = rt.alloc();
    let mut held = start_with_files(&rt, alloc)?;
    let s = &mut held.state;
    create(&rt, alloc, s, 1, b"new", Ok(Fd(0)))?;
    let path = Name::from_slice(alloc, b"new")?;
    assert!(rt; s.path(&path) == Some(PathTarget::File(2)));
    close(&rt, s, 1, 0);
    settle(&rt, s, &[]);
    open(&rt, s, 2, 2, Mode::Read, Ok(Fd(0)));
    s.unlink(&path);
    settle(&rt, s, &[]);
    close(&rt, s, 2, 0);
    settle(&rt, s, &[2]);
    Ok(())
}

#[test]
fn a_full_table_makes_nothing(rt: HostRuntime) -> Result<(), Fail> {
    let alloc = rt.alloc();
    let mut held = start_with_files(&rt, alloc)?;
    let s = &mut held.state;
    make_pipe(&rt, s, 2, Err(MakeError::Full));
    make_file(&rt, s, 2, Ok(Fd(0)));
    make_file(&rt, s, 2, Err(MakeError::Full));
    create(&rt, alloc, s, 2, b"new", Err(MakeError::Full))?;
    assert!(rt; s.object_count() == 3 && s.paths().len() == 2);
    Ok(())
}
