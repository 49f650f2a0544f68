//! The interface of a file object, as the kernel sees it: bytes at fixed places, a counter as of
//! eventfd(2), or a pipe (pipe(7)). Its meaning is a view: whether it is open, what is in it, and
//! how often it has failed.
#![tactic(auto)]

ghost use Rattle.std.specs.Prelude.{◌≡◌, true, IsTrue, length};
ghost use Rattle.ux_model.specs.Object.{View, closed, size_of_body, bytes_ahead, ready, lacks_room};
ghost use Rattle.ux_object.specs.Kind.{kind_of};
ghost use Rattle.ux_object.specs.declared.ObjError.{ObjError};
ghost use Rattle.ux_object.specs.Calls.{Reads, Writes};

mod boxed;

use std::alloc::AllocError;
use thiserror::Error;

/// What kind of object it is.
#[derive(Clone, Copy, Debug, PartialEq, Eq)]
pub enum ObjKind {
    /// Bytes at fixed places.
    Memory,
    /// A number that a write adds to and a read takes away, all of it or 1 (eventfd(2)).
    Counter,
    /// Bytes that wait to be read, the oldest first (pipe(7)).
    Pipe,
}

/// Why a call of an object did nothing. After each of them but `Io` the object is as before.
#[derive(Clone, Copy, Debug, PartialEq, Eq, Error)]
pub enum ObjError {
    /// There is nothing to read, or no room to write (EAGAIN).
    #[error("nothing to read, or no room to write")]
    WouldBlock,
    /// The object failed, and its count of failures is one higher (EIO).
    #[error("input or output failed")]
    Io,
    /// A file reaches no further (EFBIG).
    #[error("the file is too large")]
    Full,
    /// A file that was to grow found no memory (ENOMEM).
    #[error("out of memory")]
    NoMemory,
    /// What was asked has no meaning for this kind of object (EINVAL).
    #[error("invalid argument")]
    Invalid,
}

impl From<AllocError> for ObjError {
    ghost from_gives = { λ _ error. error ≡ ObjError.NoMemory };

    fn from(_error: AllocError) -> ObjError {
        ObjError::NoMemory
    }
}

/// A file object. Reading, writing and closing it ask that it is open.
pub trait FileObject: Drop {
    ghost view: { Self → View };

    /// What kind it is, which never changes.
    fn kind(&self) -> ObjKind
        ensures { result ≡ kind_of (view self.now).body };

    /// Reads up to `buf.len()` bytes into the front of `buf`, and answers how many: of a memory file
    /// those from the place `at` on, of a counter its eight, the lowest first, and of a pipe the oldest.
    /// Of a semaphore the eight are those of the number 1, and 1 is what a read takes (EFD_SEMAPHORE).
    /// What the rest of `buf` contains afterwards is left open.
    ///
    /// # Errors
    ///
    /// `Invalid` for fewer than eight bytes of a counter, `WouldBlock` for a counter at 0 and an empty
    /// pipe, or `Io` in place of any answer, but only while the count of failures can rise.
    fn read(&mut self, at: u64, buf: &mut [u8]) -> Result<usize, ObjError>
        requires { IsTrue (view self.old).opened }
        ensures reads { Reads (view self.old) at (length buf.old) result buf.new (view self.new) };

    /// Writes a front of `bytes`, and answers how many went: to a memory file at the place `at`, up to
    /// 1,048,576 bytes in all, with zeros in a gap; to a counter the first eight, the lowest first, as a
    /// number to be added; to a pipe what fits into its 65,536 bytes, and up to 4,096 (PIPE_BUF) whole
    /// or not at all.
    ///
    /// # Errors
    ///
    /// `Full` for data at the end of the greatest file, `Invalid` for fewer than eight bytes to a counter
    /// and for the greatest number, `WouldBlock` where the sum or the data has no room, `NoMemory` in
    /// place of a success of a memory file, or `Io` in place of any answer, but only while the count of
    /// failures can rise.
    fn write(&mut self, at: u64, bytes: &[u8]) -> Result<usize, ObjError>
        requires { IsTrue (view self.old).opened }
        ensures writes { Writes (view self.old) at bytes.now result (view self.new) };

    /// The length of a memory file in bytes, and 0 for every other object.
    fn size(&self) -> u64
        ensures { result ≡ size_of_body (view self.now).body };

    /// How many bytes a read finds at this place: of a memory file those up to its end, of a pipe all that wait. Of a
    /// counter none are counted.
    fn bytes_ahead(&self, at: u64) -> Option<usize>
        ensures { result ≡ bytes_ahead (view self.now).body at };

    /// Whether it is ready to be read, and to be written (poll(2)).
    fn ready(&self) -> (bool, bool)
        ensures { result ≡ ready (view self.now).body };

    /// Whether a write of these bytes would have to wait for room. It is asked and not tried, so an object that fails at
    /// a certain write doesn't count it. One that can't tell says no, and is tried.
    fn lacks_room(&self, _bytes: &[u8]) -> bool
        ensures waits { result ≡ true → lacks_room (view self.now).body _bytes.now ≡ true }
    {
        false
    }

    /// How often reading or writing it has failed.
    fn faults(&self) -> u64
        ensures { result ≡ (view self.now).faults };

    /// Whether it wasn't closed yet.
    fn is_open(&self) -> bool
        ensures { result ≡ (view self.now).opened };

    /// Closes it. This can't fail, and takes no memory.
    fn close(&mut self)
        requires { IsTrue (view self.old).opened }
        ensures { view self.new ≡ closed (view self.old) };
}
