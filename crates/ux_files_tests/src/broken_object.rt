//! An object whose every call fails, as a broken disk does, used through a box.
ghost use Rattle.std.specs.Prelude.{List, [], IsTrue, IfOk};
ghost use Rattle.ux_model.specs.Object.{View, memory};

use std::process::Abort;
use std::test::Fail;
use ux_object::{FileObject, ObjError, ObjKind};

/// The greatest length of a memory file.
const LIMIT: u64 = 1048576;

/// An empty file on a disk that never works.
#[derive(Drop)]
struct BrokenFile {
    opened: bool,
    faults: u64,
}

impl FileObject for BrokenFile {
    ghost view = { λ f. record { opened = f.opened; body = memory []; faults = f.faults } };

    fn kind(&self) -> ObjKind {
        ObjKind::Memory
    }

    fn read(&mut self, _at: u64, _buf: &mut [u8]) -> Result<usize, ObjError> {
        if self.faults < u64::MAX {
            self.faults += 1;
            return Err(ObjError::Io);
        }
        Ok(0)
    }

    fn write(&mut self, at: u64, bytes: &[u8]) -> Result<usize, ObjError> {
        if self.faults < u64::MAX {
            self.faults += 1;
            return Err(ObjError::Io);
        }
        if bytes.is_empty() {
            return Ok(0);
        }
        if at >= LIMIT {
            return Err(ObjError::Full);
        }
        Err(ObjError::NoMemory)
    }

    fn size(&self) -> u64 {
        0
    }

    fn bytes_ahead(&self, _at: u64) -> Option<usize> {
        Some(0)
    }

    fn ready(&self) -> (bool, bool) {
        (true, true)
    }

    fn faults(&self) -> u64 {
        self.faults
    }

    fn is_open(&self) -> bool {
        self.opened
    }

    fn close(&mut self) {
        self.opened = false;
    }
}

/// Reads from the front of an open object.
fn expect_read<O: FileObject>(rt: &impl Abort, object: &mut O, answer: Result<usize, ObjError>) {
    let mut buf = [7; 4];
    assert!(rt; object.is_open());
    assert_eq!(rt; object.read(0, &mut buf), answer);
}

/// Writes to an open object.
fn expect_write<O: FileObject>(
    rt: &impl Abort,
    object: &mut O,
    at: u64,
    bytes: &[u8],
    answer: Result<usize, ObjError>,
) {
    assert!(rt; object.is_open());
    assert_eq!(rt; object.write(at, bytes), answer);
}

/// Looks at an empty file after so many failures.
fn expect_faults<O: FileObject>(rt: &impl Abort, object: &O, faults: u64) {
    assert_eq!(rt; (object.kind(), object.size()), (ObjKind::Memory, 0));
    assert_eq!(rt; (object.ready(), object.faults()), ((true, true), faults));
}

/// Closes an open object.
fn expect_close<O: FileObject>(rt: &impl Abort, object: &mut O) {
    assert!(rt; object.is_open());
    object.close();
    assert!(rt; !object.is_open());
}

/// Reads and writes a broken file as any object, and closes it.
fn use_broken<O: FileObject>(rt: &impl Abort, mut object: O) {
    expect_faults(rt, &object, 0);
    expect_read(rt, &mut object, Err(ObjError::Io));
    expect_faults(rt, &object, 1);
    expect_write(rt, &mut object, 0, &[7; 4], Err(ObjError::Io));
    expect_faults(rt, &object, 2);
    expect_close(rt, &mut object);
    expect_faults(rt, &object, 2);
}

/// At the greatest count it fails no more, and answers what it can.
fn use_worn_out<O: FileObject>(rt: &impl Abort, mut object: O) {
    expect_faults(rt, &object, u64::MAX);
    expect_read(rt, &mut object, Ok(0));
    expect_write(rt, &mut object, 0, &[], Ok(0));
    expect_write(rt, &mut object, LIMIT, &[7; 4], Err(ObjError::Full));
    expect_write(rt, &mut object, 0, &[7; 4], Err(ObjError::NoMemory));
    expect_faults(rt, &object, u64::MAX);
}

#[test]
fn a_box_fails_as_what_is_in_it(rt: HostRuntime) -> Result<(), Fail> {
    let alloc = rt.alloc();
    let fresh: Box<dyn FileObject + Send> = Box::new(
        alloc,
        BrokenFile {
            opened: true,
            faults: 0,
        },
    )?;
    use_broken(&rt, fresh);
    let worn: Box<dyn FileObject + Send> = Box::new(
        alloc,
        BrokenFile {
            opened: true,
            faults: u64::MAX,
        },
    )?;
    use_worn_out(&rt, worn);
    Ok(())
}

/// The errors, and what they are in words.
const WORDS: &[(ObjError, &str)] = &[
    (ObjError::WouldBlock, "nothing to read, or no room to write"),
    (ObjError::Io, "input or output failed"),
    (ObjError::Full, "the file is too large"),
    (ObjError::NoMemory, "out of memory"),
    (ObjError::Invalid, "invalid argument"),
];

#[test]
fn errors_are_printed_in_words(rt: HostRuntime) -> Result<(), Fail> {
    for (error, words) in WORDS {
        let text = format!(in rt.alloc(); "{error}")?;
        assert_eq!(rt; text.as_str(), *words);
    }
    Ok(())
}
