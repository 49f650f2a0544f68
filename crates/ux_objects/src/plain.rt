//! An object of any of the three kinds.
ghost use Rattle.std.specs.Prelude.{◌≡◌, ◌≢◌, ◌<◌, ◌↔◌, ◌⊎◌, IfOk, OnErr, Err, length};
ghost use Rattle.ux_model.specs.Limits.{file_limit};
ghost use Rattle.ux_model.specs.Object.{new_view, lacks_room};
ghost use Rattle.ux_object.specs.Calls.{Reads, Writes};
ghost use Rattle.ux_objects.specs.Failing.{plain_view, first_body};

use crate::{Counter, MemFile, Pipe};
use std::alloc::Global;
use ux_object::{FileObject, ObjError, ObjKind};

/// A memory file, a counter or a pipe.
#[derive(Drop)]
pub enum Plain {
    Memory(MemFile),
    Counter(Counter),
    Pipe(Pipe),
}

impl Plain {
    /// An open object of this kind: a file with a copy of these bytes, a counter at 0, or an empty pipe.
    ///
    /// # Errors
    ///
    /// `Full` for a file of more than 1,048,576 bytes, else `NoMemory`.
    pub fn new(alloc: Global, kind: ObjKind, bytes: &[u8]) -> Result<Plain, ObjError>
        ensures made { IfOk result (λ p. plain_view p ≡ new_view (first_body kind bytes.now)) }
        ensures full { (result ≡ Err ObjError.Full) ↔ ((kind ≡ ObjKind.Memory) × (file_limit < length bytes.now)) }
        ensures errors { OnErr result ((result ≡ Err ObjError.Full) ⊎ (result ≡ Err ObjError.NoMemory)) }
    {
        match kind {
            ObjKind::Memory => Ok(Plain::Memory(MemFile::new(alloc, bytes)?)),
            ObjKind::Counter => Ok(Plain::Counter(Counter::new())),
            ObjKind::Pipe => Ok(Plain::Pipe(Pipe::new(alloc)?)),
        }
    }
}

/// Each call is that of the object inside, so none fails.
impl FileObject for Plain {
    ghost view = { plain_view };

    fn kind(&self) -> ObjKind {
        match self {
            Plain::Memory(file) => file.kind(),
            Plain::Counter(counter) => counter.kind(),
            Plain::Pipe(pipe) => pipe.kind(),
        }
    }

    fn read(&mut self, at: u64, buf: &mut [u8]) -> Result<usize, ObjError>
        ensures reads { Reads (plain_view self.old) at (length buf.old) result buf.new (plain_view self.new) }
        ensures works { result ≢ Err ObjError.Io }
    {
        match self {
            Plain::Memory(file) => file.read(at, buf),
            Plain::Counter(counter) => counter.read(at, buf),
            Plain::Pipe(pipe) => pipe.read(at, buf),
        }
    }

    fn write(&mut self, at: u64, bytes: &[u8]) -> Result<usize, ObjError>
        ensures writes { Writes (plain_view self.old) at bytes.now result (plain_view self.new) }
        ensures works { result ≢ Err ObjError.Io }
    {
        match self {
            Plain::Memory(file) => file.write(at, bytes),
            Plain::Counter(counter) => counter.write(at, bytes),
            Plain::Pipe(pipe) => pipe.write(at, bytes),
        }
    }

    fn size(&self) -> u64 {
        match self {
            Plain::Memory(file) => file.size(),
            Plain::Counter(counter) => counter.size(),
            Plain::Pipe(pipe) => pipe.size(),
        }
    }

    fn bytes_ahead(&self, at: u64) -> Option<usize> {
        match self {
            Plain::Memory(file) => file.bytes_ahead(at),
            Plain::Counter(counter) => counter.bytes_ahead(at),
            Plain::Pipe(pipe) => pipe.bytes_ahead(at),
        }
    }

    fn ready(&self) -> (bool, bool) {
        match self {
            Plain::Memory(file) => file.ready(),
            Plain::Counter(counter) => counter.ready(),
            Plain::Pipe(pipe) => pipe.ready(),
        }
    }

    fn lacks_room(&self, bytes: &[u8]) -> bool
        ensures { result ≡ lacks_room (plain_view self.now).body bytes.now }
    {
        match self {
            Plain::Memory(_) => false,
            Plain::Counter(counter) => counter.lacks_room(bytes),
            Plain::Pipe(pipe) => pipe.lacks_room(bytes),
        }
    }

    fn faults(&self) -> u64 {
        0
    }

    fn is_open(&self) -> bool {
        match self {
            Plain::Memory(file) => file.is_open(),
            Plain::Counter(counter) => counter.is_open(),
            Plain::Pipe(pipe) => pipe.is_open(),
        }
    }

    fn close(&mut self) {
        match self {
            Plain::Memory(file) => file.close(),
            Plain::Counter(counter) => counter.close(),
            Plain::Pipe(pipe) => pipe.close(),
        }
    }
}
