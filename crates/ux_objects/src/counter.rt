//! A counter, which a write adds to and a read takes whole, or 1 of it.
ghost use Rattle.std.specs.Prelude.{ℕ, Bool, true, false, ◌≡◌, ◌≢◌, ◌+◌, ◌≤◌, IfSome, IfNone, length};
ghost use Rattle.ux_model.specs.Limits.{counter_limit};
ghost use Rattle.ux_model.specs.Object.{lacks_room};
ghost use Rattle.ux_object.specs.Calls.{Reads, Writes};
ghost use Rattle.ux_objects.specs.Faultless.{Faultless, opened_with, counter_view};
ghost use Rattle.ux_objects.specs.Given.{given, can_add};

use std::marker::Model;
use ux_object::{FileObject, ObjError, ObjKind};

/// The greatest value of a counter (eventfd(2)).
const GREATEST: u64 = u64::MAX - 1;

/// A number that a write adds to and a read takes away (eventfd(2)). Contracts see whether it is a semaphore, and the number.
#[derive(Drop)]
pub struct Counter {
    value: u64,
    /// A read takes 1, and not all (EFD_SEMAPHORE).
    semaphore: bool,
    opened: bool,
}

impl Model for Counter {
    ghost Value = { Faultless (Bool × ℕ) };

    ghost view = { λ c. record { opened = c.opened; content = (c.semaphore, c.value) } };

    ghost invariant = { λ c. c.value ≤ counter_limit };
}

impl Counter {
    /// An open counter at 0.
    pub fn new() -> Counter
        ensures { result ≡ opened_with (false, 0) }
    {
        Counter::with_value(0)
    }

    /// An open counter at this value.
    pub fn with_value(value: u32) -> Counter
        ensures { result ≡ opened_with (false, value) }
    {
        Counter::opened(value, false)
    }

    /// An open semaphore at this value: a counter of which a read takes 1.
    pub fn semaphore(value: u32) -> Counter
        ensures { result ≡ opened_with (true, value) }
    {
        Counter::opened(value, true)
    }

    fn opened(value: u32, semaphore: bool) -> Counter
        ensures { result ≡ opened_with (semaphore, value) }
    {
        Counter {
            value: value as u64,
            semaphore,
            opened: true,
        }
    }
}

impl FileObject for Counter {
    ghost view = { counter_view };

    fn kind(&self) -> ObjKind {
        ObjKind::Counter
    }

    fn read(&mut self, _at: u64, buf: &mut [u8]) -> Result<usize, ObjError>
        ensures reads { Reads (counter_view self.old) _at (length buf.old) result buf.new (counter_view self.new) }
        ensures works { result ≢ Err ObjError.Io }
    {
        if buf.len() < 8 {
            return Err(ObjError::Invalid);
        }
        if self.value == 0 {
            return Err(ObjError::WouldBlock);
        }
        let taken = if self.semaphore { 1 } else { self.value };
        buf[..8].copy_from_slice(&taken.to_le_bytes());
        self.value -= taken;
        Ok(8)
    }

    fn write(&mut self, _at: u64, bytes: &[u8]) -> Result<usize, ObjError>
        ensures writes { Writes (counter_view self.old) _at bytes.now result (counter_view self.new) }
        ensures works { result ≢ Err ObjError.Io }
    {
        let Some(addend) = addend_of(bytes) else {
            return Err(ObjError::Invalid);
        };
        if addend > GREATEST - self.value {
            return Err(ObjError::WouldBlock);
        }
        self.value += addend;
        Ok(8)
    }

    fn size(&self) -> u64 {
        0
    }

    fn bytes_ahead(&self, _at: u64) -> Option<usize> {
        None
    }

    fn ready(&self) -> (bool, bool) {
        (self.value > 0, self.value < GREATEST)
    }

    fn lacks_room(&self, bytes: &[u8]) -> bool
        ensures { result ≡ lacks_room (counter_view self.now).body bytes.now }
    {
        match addend_of(bytes) {
            Some(addend) => addend > GREATEST - self.value,
            None => false,
        }
    }

    fn faults(&self) -> u64 {
        0
    }

    fn is_open(&self) -> bool {
        self.opened
    }

    fn close(&mut self) {
        self.opened = false;
    }
}

/// The number that a write gives, if it gives one that can be added.
fn addend_of(bytes: &[u8]) -> Option<u64>
    ensures none { IfNone result (can_add bytes.now ≡ false) }
    ensures some { IfSome result (λ n. (can_add bytes.now ≡ true) × (n ≡ given bytes.now)) }
{
    if bytes.len() < 8 {
        return None;
    }
    let mut first = [0; 8];
    first.copy_from_slice(&bytes[..8]);
    let addend = u64::from_le_bytes(first);
    if addend > GREATEST {
        return None;
    }
    Some(addend)
}
