//! The file objects that a program can boot with, as one type.
ghost use Rattle.std.specs.Prelude.{◌≡◌, ◌<◌, ◌↔◌, ◌⊎◌, IfOk, OnErr, Err, length};
ghost use Rattle.ux_model.specs.Limits.{file_limit};
ghost use Rattle.ux_model.specs.Object.{new_view};
ghost use Rattle.ux_objects.specs.Failing.{first_body};
ghost use Rattle.delortxa.specs.AnyObjects.{any_view, calls_left};

use std::alloc::Global;
use ux_object::{FileObject, ObjError, ObjKind};
use ux_objects::{FailAt, Plain};

/// A memory file, a counter or a pipe that never fails, or one of which one read or write fails.
#[derive(Drop)]
pub enum AnyObject {
    /// One that never fails.
    Plain(Plain),
    /// One that fails once.
    Failing(FailAt),
}

impl AnyObject {
    /// An open object of this kind: a file with a copy of these bytes, a counter at 0, or an empty pipe. Its nth read
    /// or write fails with EIO, counted from 1; for 0 none does.
    ///
    /// # Errors
    ///
    /// `Full` exactly for a file of more than 1,048,576 bytes, else `NoMemory`.
    pub fn new(alloc: Global, kind: ObjKind, bytes: &[u8], n: u32) -> Result<AnyObject, ObjError>
        ensures made { IfOk result (λ o. any_view o ≡ new_view (first_body kind bytes.now)) }
        ensures fails { IfOk result (λ o. calls_left o ≡ n) }
        ensures full { (result ≡ Err ObjError.Full) ↔ ((kind ≡ ObjKind.Memory) × (file_limit < length bytes.now)) }
        ensures failed { OnErr result ((result ≡ Err ObjError.Full) ⊎ (result ≡ Err ObjError.NoMemory)) }
    {
        let plain = Plain::new(alloc, kind, bytes)?;
        if n == 0 {
            return Ok(AnyObject::Plain(plain));
        }
        Ok(AnyObject::Failing(FailAt::new(plain, n)))
    }
}

/// Each call is that of the object inside.
impl FileObject for AnyObject {
    ghost view = { any_view };

    fn kind(&self) -> ObjKind {
        match self {
            AnyObject::Plain(plain) => plain.kind(),
            AnyObject::Failing(failing) => failing.kind(),
        }
    }

    fn read(&mut self, at: u64, buf: &mut [u8]) -> Result<usize, ObjError> {
        match self {
            AnyObject::Plain(plain) => plain.read(at, buf),
            AnyObject::Failing(failing) => failing.read(at, buf),
        }
    }

    fn write(&mut self, at: u64, bytes: &[u8]) -> Result<usize, ObjError> {
        match self {
            AnyObject::Plain(plain) => plain.write(at, bytes),
            AnyObject::Failing(failing) => failing.write(at, bytes),
        }
    }

    fn size(&self) -> u64 {
        match self {
            AnyObject::Plain(plain) => plain.size(),
            AnyObject::Failing(failing) => failing.size(),
        }
    }

    fn bytes_ahead(&self, at: u64) -> Option<usize> {
        match self {
            AnyObject::Plain(plain) => plain.bytes_ahead(at),
            AnyObject::Failing(failing) => failing.bytes_ahead(at),
        }
    }

    fn ready(&self) -> (bool, bool) {
        match self {
            AnyObject::Plain(plain) => plain.ready(),
            AnyObject::Failing(failing) => failing.ready(),
        }
    }

    fn lacks_room(&self, bytes: &[u8]) -> bool {
        match self {
            AnyObject::Plain(plain) => plain.lacks_room(bytes),
            AnyObject::Failing(failing) => failing.lacks_room(bytes),
        }
    }

    fn faults(&self) -> u64 {
        match self {
            AnyObject::Plain(plain) => plain.faults(),
            AnyObject::Failing(failing) => failing.faults(),
        }
    }

    fn is_open(&self) -> bool {
        match self {
            AnyObject::Plain(plain) => plain.is_open(),
            AnyObject::Failing(failing) => failing.is_open(),
        }
    }

    fn close(&mut self) {
        match self {
            AnyObject::Plain(plain) => plain.close(),
            AnyObject::Failing(failing) => failing.close(),
        }
    }
}
