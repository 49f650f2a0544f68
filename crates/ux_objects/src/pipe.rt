//! A pipe: a bounded queue of bytes.
ghost use Rattle.std.specs.Prelude.{ℕ, List, [], ◌≡◌, ◌≢◌, IfOk, IfErr, length};
ghost use Rattle.ux_model.specs.Limits.{pipe_limit};
ghost use Rattle.ux_model.specs.Object.{pipe, lacks_room};
ghost use Rattle.ux_object.specs.Calls.{Reads, Writes};
ghost use Rattle.ux_objects.specs.Faultless.{Faultless, opened_with, pipe_view};

use circular_buffer::HeapCircularBuffer;
use std::alloc::Global;
use std::marker::Model;
use ux_object::{FileObject, ObjError, ObjKind};

/// The bytes that a pipe has room for (pipe(7), "Pipe capacity").
const LIMIT: usize = 65536;

/// The most bytes that are written whole or not at all (PIPE_BUF of limits.h, pipe(7)).
const WHOLE: usize = 4096;

/// Bytes that wait to be read, the oldest first (pipe(7)).
#[derive(Drop)]
pub struct Pipe {
    bytes: HeapCircularBuffer<u8>,
    opened: bool,
}

impl Model for Pipe {
    ghost Value = { Faultless (List ℕ) };

    ghost view = { λ p. record { opened = p.opened; content = p.bytes.items } };

    ghost invariant = { λ p. p.bytes.capacity ≡ pipe_limit };
}

impl Pipe {
    /// An open pipe with no bytes. Room for all that it may hold is taken here, once.
    ///
    /// # Errors
    ///
    /// `NoMemory` alone.
    pub fn new(alloc: Global) -> Result<Pipe, ObjError>
        ensures made { IfOk result (λ p. p ≡ opened_with []) }
        ensures errors { IfErr result (λ e. e ≡ ObjError.NoMemory) }
    {
        Ok(Pipe {
            bytes: HeapCircularBuffer::with_capacity(alloc, LIMIT)?,
            opened: true,
        })
    }
}

impl FileObject for Pipe {
    ghost view = { pipe_view };

    fn kind(&self) -> ObjKind {
        ObjKind::Pipe
    }

    fn read(&mut self, _at: u64, buf: &mut [u8]) -> Result<usize, ObjError>
        ensures reads { Reads (pipe_view self.old) _at (length buf.old) result buf.new (pipe_view self.new) }
        ensures works { result ≢ Err ObjError.Io }
    {
        if buf.is_empty() {
            return Ok(0);
        }
        if self.bytes.is_empty() {
            return Err(ObjError::WouldBlock);
        }
        Ok(self.bytes.read_into(buf))
    }

    fn write(&mut self, _at: u64, bytes: &[u8]) -> Result<usize, ObjError>
        ensures writes { Writes (pipe_view self.old) _at bytes.now result (pipe_view self.new) }
        ensures works { result ≢ Err ObjError.Io }
    {
        if self.lacks_room(bytes) {
            return Err(ObjError::WouldBlock);
        }
        Ok(self.bytes.fill_from_slice(bytes))
    }

    fn size(&self) -> u64 {
        0
    }

    fn bytes_ahead(&self, _at: u64) -> Option<usize> {
        Some(self.bytes.len())
    }

    fn ready(&self) -> (bool, bool) {
        (!self.bytes.is_empty(), self.bytes.len() <= LIMIT - WHOLE)
    }

    fn lacks_room(&self, bytes: &[u8]) -> bool
        ensures { result ≡ lacks_room (pipe self.now.content) bytes.now }
    {
        let room = LIMIT - self.bytes.len();
        bytes.len() > room && (bytes.len() <= WHOLE || room == 0)
    }

    fn faults(&self) -> u64 {
        0
    }

    fn is_open(&self) -> bool {
        self.opened
    }

    fn close(&mut self) {
        self.opened = false;
    }
}
