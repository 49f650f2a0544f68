//! The kinds at their limits, each through the interface.
ghost use Rattle.std.specs.Prelude.{◌≡◌, IfOk, vec_len};

use hoard::Hoard;
use std::alloc::{AllocError, Global};
use std::process::Abort;
use std::test::Fail;
use ux_object::{FileObject, ObjError, ObjKind};
use ux_objects::{Counter, MemFile, Pipe};

/// The greatest length of a memory file.
const FILE_LIMIT: usize = 1048576;

/// So many bytes, all alike.
fn alike(alloc: Global, byte: u8, length: usize) -> Result<Vec<u8>, AllocError>
    ensures { IfOk result (λ bytes. vec_len bytes ≡ length) }
{
    vec![in alloc; byte; length]
}

/// Reads from an open object, and sees what that answers.
fn read<O: FileObject>(
    rt: &impl Abort,
    object: &mut O,
    at: u64,
    buf: &mut [u8],
    answer: Result<usize, ObjError>,
) {
    assert!(rt; object.is_open());
    assert_eq!(rt; object.read(at, buf), answer, "at {at}");
}

/// Writes to an open object, and sees what that answers.
fn write<O: FileObject>(
    rt: &impl Abort,
    object: &mut O,
    at: u64,
    bytes: &[u8],
    answer: Result<usize, ObjError>,
) {
    let length = bytes.len();
    assert!(rt; object.is_open());
    assert_eq!(rt; object.write(at, bytes), answer, "{length} bytes at {at}");
}

/// Sees whether an object can be read and written.
fn expect_ready<O: FileObject>(rt: &impl Abort, object: &O, ready: (bool, bool)) {
    assert_eq!(rt; object.ready(), ready);
}

/// Sees how long an object is.
fn expect_size<O: FileObject>(rt: &impl Abort, object: &O, size: u64) {
    assert_eq!(rt; object.size(), size);
}

/// Sees which bytes were read.
fn expect_bytes(rt: &impl Abort, buf: &[u8], bytes: &[u8]) {
    assert_eq!(rt; buf, bytes);
}

/// Closes an object, and sees that it is closed and never failed.
fn close<O: FileObject>(rt: &impl Abort, mut object: O) {
    assert!(rt; object.is_open());
    object.close();
    assert!(rt; !object.is_open());
    assert_eq!(rt; object.faults(), 0);
}

/// An error of a test's own, when out of memory.
fn made<T>(answer: Result<T, ObjError>) -> Result<T, Fail> {
    Ok(answer?)
}

#[test]
fn a_file_is_read_and_written_at_a_place(rt: HostRuntime) -> Result<(), Fail> {
    let mut file = made(MemFile::new(rt.alloc(), b"abcdef"))?;
    let mut buf = [0; 4];
    assert_eq!(rt; file.kind(), ObjKind::Memory);
    expect_ready(&rt, &file, (true, true));
    expect_size(&rt, &file, 6);
    read(&rt, &mut file, 4, &mut buf, Ok(2));
    expect_bytes(&rt, &buf, b"ef\0\0");
    read(&rt, &mut file, 6, &mut buf, Ok(0));
    read(&rt, &mut file, u64::MAX, &mut buf, Ok(0));
    write(&rt, &mut file, 1, b"xy", Ok(2));
    write(&rt, &mut file, 5, b"zw", Ok(2));
    write(&rt, &mut file, 9, b"v", Ok(1));
    write(&rt, &mut file, 20, &[], Ok(0));
    let mut whole = [7; 11];
    read(&rt, &mut file, 0, &mut whole, Ok(10));
    expect_bytes(&rt, &whole, b"axydezw\0\0v\x07");
    close(&rt, file);
    Ok(())
}

#[test]
fn a_file_ends_at_its_limit(rt: HostRuntime) -> Result<(), Fail> {
    let mut file = made(MemFile::new(rt.alloc(), b"abcdef"))?;
    let last = FILE_LIMIT as u64 - 1;
    let mut buf = [0; 4];
    write(&rt, &mut file, last, b"xy", Ok(1));
    expect_size(&rt, &file, 1048576);
    write(&rt, &mut file, last + 1, b"z", Err(ObjError::Full));
    write(&rt, &mut file, u64::MAX, b"z", Err(ObjError::Full));
    write(&rt, &mut file, last + 1, &[], Ok(0));
    expect_size(&rt, &file, 1048576);
    read(&rt, &mut file, last, &mut buf, Ok(1));
    expect_bytes(&rt, &buf, b"x\0\0\0");
    read(&rt, &mut file, 4, &mut buf, Ok(4));
    expect_bytes(&rt, &buf, b"ef\0\0");
    Ok(())
}

#[test]
fn a_file_is_made_up_to_its_limit(rt: HostRuntime) -> Result<(), Fail> {
    let alloc = rt.alloc();
    let mut bytes = alike(alloc, 7, FILE_LIMIT)?;
    let greatest = made(MemFile::new(alloc, bytes.as_slice()))?;
    expect_size(&rt, &greatest, 1048576);
    bytes.push(7).map_err(AllocError::from)?;
    match MemFile::new(alloc, bytes.as_slice()) {
        Err(error) => assert_eq!(rt; error, ObjError::Full),
        Ok(_) => panic!(rt; "too large a file was made"),
    }
    Ok(())
}

#[test]
fn a_counter_is_read_whole_and_cleared(rt: HostRuntime) {
    let mut counter = Counter::new();
    let mut buf = [0; 9];
    assert_eq!(rt; counter.kind(), ObjKind::Counter);
    expect_size(&rt, &counter, 0);
    expect_ready(&rt, &counter, (false, true));
    read(&rt, &mut counter, 0, &mut buf, Err(ObjError::WouldBlock));
    write(&rt, &mut counter, 0, &[5, 0, 0, 0, 0, 0, 0, 0, 9], Ok(8));
    write(&rt, &mut counter, 0, &[255; 8], Err(ObjError::Invalid));
    write(
        &rt,
        &mut counter,
        0,
        &[254, 255, 255, 255, 255, 255, 255, 255],
        Err(ObjError::WouldBlock),
    );
    write(&rt, &mut counter, 0, &[1; 7], Err(ObjError::Invalid));
    read(&rt, &mut counter, 0, &mut buf[..7], Err(ObjError::Invalid));
    expect_ready(&rt, &counter, (true, true));
    read(&rt, &mut counter, 3, &mut buf, Ok(8));
    expect_bytes(&rt, &buf, &[5, 0, 0, 0, 0, 0, 0, 0, 0]);
    expect_ready(&rt, &counter, (false, true));
    read(&rt, &mut counter, 0, &mut buf, Err(ObjError::WouldBlock));
    close(&rt, counter);
}

/// The answer of an object from which nothing can be read, or which has no room.
const BLOCKS: Result<usize, ObjError> = Err(ObjError::WouldBlock);

/// What a counter holds, what is added, the answer, and whether it can be read and added to then.
const SUMS: &[(u64, u64, Result<usize, ObjError>, (bool, bool))] = &[
    (0, u64::MAX - 1, Ok(8), (true, false)),
    (1, u64::MAX - 2, Ok(8), (true, false)),
    (1, u64::MAX - 3, Ok(8), (true, true)),
    (1, u64::MAX - 1, BLOCKS, (true, true)),
    (u64::MAX - 1, 1, BLOCKS, (true, false)),
    (u64::MAX - 1, 0, Ok(8), (true, false)),
    (u64::MAX - 2, 1, Ok(8), (true, false)),
    (u64::MAX - 2, 2, BLOCKS, (true, true)),
    (0, u64::MAX, Err(ObjError::Invalid), (false, true)),
];

#[test]
fn a_counter_reaches_its_greatest_value(rt: HostRuntime) {
    for (first, addend, answer, ready) in SUMS {
        let mut counter = Counter::new();
        write(&rt, &mut counter, 0, &first.to_le_bytes(), Ok(8));
        write(&rt, &mut counter, 0, &addend.to_le_bytes(), *answer);
        assert_eq!(rt; counter.ready(), *ready, "{first} and {addend}");
    }
}

#[test]
fn a_pipe_is_read_in_order(rt: HostRuntime) -> Result<(), Fail> {
    let mut pipe = made(Pipe::new(rt.alloc()))?;
    let mut buf = [0; 8];
    assert_eq!(rt; pipe.kind(), ObjKind::Pipe);
    expect_size(&rt, &pipe, 0);
    expect_ready(&rt, &pipe, (false, true));
    read(&rt, &mut pipe, 0, &mut buf, Err(ObjError::WouldBlock));
    read(&rt, &mut pipe, 0, &mut [], Ok(0));
    write(&rt, &mut pipe, 0, &[], Ok(0));
    write(&rt, &mut pipe, 9, b"abc", Ok(3));
    write(&rt, &mut pipe, 0, b"de", Ok(2));
    expect_size(&rt, &pipe, 0);
    expect_ready(&rt, &pipe, (true, true));
    read(&rt, &mut pipe, 7, &mut buf[..4], Ok(4));
    expect_bytes(&rt, &buf, b"abcd\0\0\0\0");
    read(&rt, &mut pipe, 0, &mut buf, Ok(1));
    expect_bytes(&rt, &buf, b"ebcd\0\0\0\0");
    read(&rt, &mut pipe, 0, &mut buf, Err(ObjError::WouldBlock));
    close(&rt, pipe);
    Ok(())
}

/// Writes to a pipe in which so many bytes wait, and sees what it answers and whether it is ready then.
fn write_behind(
    rt: &impl Abort,
    alloc: Global,
    waiting: usize,
    length: usize,
    answer: Result<usize, ObjError>,
    has_room: bool,
) -> Result<(), Fail> {
    let mut pipe = made(Pipe::new(alloc))?;
    let first = alike(alloc, 7, waiting)?;
    let second = alike(alloc, 8, length)?;
    write(rt, &mut pipe, 0, first.as_slice(), Ok(waiting));
    write(rt, &mut pipe, 0, second.as_slice(), answer);
    assert_eq!(rt; pipe.ready(), (true, has_room), "{length} behind {waiting}");
    Ok(())
}

/// How much waits in a pipe, how much is written, the answer, and whether room for a small write is left.
const SMALL_WRITES: &[(usize, usize, Result<usize, ObjError>, bool)] = &[
    (0, 65536, Ok(65536), false),
    (0, 65537, Ok(65536), false),
    (57344, 4096, Ok(4096), true),
    (61440, 4096, Ok(4096), false),
    (61441, 4096, BLOCKS, false),
    (61441, 4097, Ok(4095), false),
    (61440, 0, Ok(0), true),
    (65535, 1, Ok(1), false),
    (65535, 2, BLOCKS, false),
    (65535, 4097, Ok(1), false),
    (65536, 1, BLOCKS, false),
    (65536, 4097, BLOCKS, false),
    (65536, 0, Ok(0), false),
];

#[test]
fn a_small_write_is_whole_or_fails(rt: HostRuntime) -> Result<(), Fail> {
    for (waiting, length, answer, has_room) in SMALL_WRITES {
        write_behind(&rt, rt.alloc(), *waiting, *length, *answer, *has_room)?;
    }
    Ok(())
}

/// Passes bytes and a last one through a pipe.
fn pass_through(rt: &impl Abort, alloc: Global, pipe: &mut Pipe, byte: u8) -> Result<(), Fail> {
    let bytes = alike(alloc, byte, 50000)?;
    let mut passed = alike(alloc, 0, 50000)?;
    let mut last = [0; 8];
    write(rt, pipe, 0, bytes.as_slice(), Ok(50000));
    write(rt, pipe, 0, b"z", Ok(1));
    read(rt, pipe, 0, passed.as_mut_slice(), Ok(50000));
    assert!(rt; passed.as_slice() == bytes.as_slice());
    read(rt, pipe, 0, &mut last, Ok(1));
    expect_bytes(rt, &last, b"z\0\0\0\0\0\0\0");
    Ok(())
}

#[test]
fn a_pipe_keeps_its_order_round_its_end(rt: HostRuntime) -> Result<(), Fail> {
    let alloc = rt.alloc();
    let mut pipe = made(Pipe::new(alloc))?;
    for round in 1..6 {
        pass_through(&rt, alloc, &mut pipe, round)?;
    }
    Ok(())
}

/// A file that lacks memory for a write at this place is as it was before.
fn grow(rt: &impl Abort, alloc: Global, at: u64) -> Result<(), Fail> {
    let mut file = made(MemFile::new(alloc, b"abcdef"))?;
    let mut buf = [0; 8];
    let hoard = Hoard::take_all(alloc)?;
    write(rt, &mut file, at, b"xyz", Err(ObjError::NoMemory));
    drop(hoard);
    expect_size(rt, &file, 6);
    read(rt, &mut file, 0, &mut buf, Ok(6));
    expect_bytes(rt, &buf, b"abcdef\0\0");
    assert_eq!(rt; file.faults(), 0);
    Ok(())
}

#[test]
fn a_failed_growth_changes_nothing(rt: HostRuntime) -> Result<(), Fail> {
    let alloc = rt.alloc();
    // A few bytes more may fit into the block that is there.
    grow(&rt, alloc, 5000)?;
    grow(&rt, alloc, 100000)
}

#[test]
fn an_object_needs_memory(rt: HostRuntime) -> Result<(), Fail> {
    let alloc = rt.alloc();
    let hoard = Hoard::take_all(alloc)?;
    let pipe = Pipe::new(alloc).err();
    let file = MemFile::new(alloc, b"a").err();
    drop(hoard);
    assert_eq!(rt; pipe, Some(ObjError::NoMemory));
    assert_eq!(rt; file, Some(ObjError::NoMemory));
    Ok(())
}
