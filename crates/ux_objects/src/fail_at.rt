//! An object of which one call fails.
ghost use Rattle.std.specs.Prelude.{true, false, ◌≡◌, ◌-◌, ◌<◌, ◌↔◌, Err, length};
ghost use Rattle.ux_model.specs.Object.{lacks_room};
ghost use Rattle.ux_object.specs.Calls.{IsFailure, Reads, Writes};
ghost use Rattle.ux_objects.specs.Failing.{Failing, failing, plain_view, with_faults};

use crate::Plain;
use std::marker::Model;
use ux_object::{FileObject, ObjError, ObjKind};

/// An object of one of the three kinds of which one read or write fails, and no other. Reads and
/// writes count together.
#[derive(Drop)]
pub struct FailAt {
    plain: Plain,
    left: u32,
    faults: u64,
}

impl Model for FailAt {
    ghost Value = { Failing };

    ghost view = { λ f. record { left = f.left; seen = with_faults (plain_view f.plain) f.faults } };

    ghost invariant = { λ f. 0 < f.left → f.faults ≡ 0 };
}

impl FailAt {
    /// The object of which the nth read or write from here on fails, counted from 1; for 0 none does.
    pub fn new(plain: Plain, n: u32) -> FailAt
        ensures { result ≡ failing (plain_view plain) n }
    {
        FailAt {
            plain,
            left: n,
            faults: 0,
        }
    }

    /// Counts a read or a write, and reports whether it is the one that fails.
    fn fails_now(&mut self) -> bool
        ensures reported { (result ≡ true) ↔ (self.old.left ≡ 1) }
        ensures counts { self.new.left ≡ self.old.left - 1 }
        ensures failed { result ≡ true → IsFailure self.old.seen self.new.seen }
        ensures same { result ≡ false → self.new.seen ≡ self.old.seen }
    {
        let fails = self.left == 1;
        self.left = self.left.saturating_sub(1);
        if fails {
            self.faults = 1;
        }
        fails
    }
}

impl FileObject for FailAt {
    ghost view = { λ f. f.seen };

    fn kind(&self) -> ObjKind {
        self.plain.kind()
    }

    fn read(&mut self, at: u64, buf: &mut [u8]) -> Result<usize, ObjError>
        ensures reads { Reads self.old.seen at (length buf.old) result buf.new self.new.seen }
        // It fails at the call that was set, and at no other.
        ensures fails { (result ≡ Err ObjError.Io) ↔ (self.old.left ≡ 1) }
        ensures counts_down { self.new.left ≡ self.old.left - 1 }
    {
        if self.fails_now() {
            return Err(ObjError::Io);
        }
        self.plain.read(at, buf)
    }

    fn write(&mut self, at: u64, bytes: &[u8]) -> Result<usize, ObjError>
        ensures writes { Writes self.old.seen at bytes.now result self.new.seen }
        // It fails at the call that was set, and at no other.
        ensures fails { (result ≡ Err ObjError.Io) ↔ (self.old.left ≡ 1) }
        ensures counts_down { self.new.left ≡ self.old.left - 1 }
    {
        if self.fails_now() {
            return Err(ObjError::Io);
        }
        self.plain.write(at, bytes)
    }

    fn size(&self) -> u64 {
        self.plain.size()
    }

    fn bytes_ahead(&self, at: u64) -> Option<usize> {
        self.plain.bytes_ahead(at)
    }

    fn ready(&self) -> (bool, bool) {
        self.plain.ready()
    }

    // It is no call, so nothing counts.
    fn lacks_room(&self, bytes: &[u8]) -> bool
        ensures { result ≡ lacks_room self.now.seen.body bytes.now }
    {
        self.plain.lacks_room(bytes)
    }

    fn faults(&self) -> u64 {
        self.faults
    }

    fn is_open(&self) -> bool {
        self.plain.is_open()
    }

    fn close(&mut self) {
        self.plain.close();
    }
}
