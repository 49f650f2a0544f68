//! What one poll(2) asks of several descriptors, and what it reports of them.
ghost use Rattle.std.specs.Prelude.{◌≡◌, ◌+◌, ◌<◌, ◌≤◌, ◌==◌, ◌++◌, ◌∷◌, [], length, IfOk};
ghost use Rattle.std.specs.Cmp.Lexicographic.{pointwise};
ghost use Rattle.std.specs.Cmp.Rules.{comparing};
ghost use Rattle.std.proofs.Common.{rules};
ghost use Rattle.ux_types.specs.Polling.{same_asked, same_flags};

use crate::flag_sets::PollFlags;
use crate::identity::Fd;
use crate::limits::POLL_LIMIT;
use std::alloc::AllocError;
use std::fmt;
use std::fmt::{Debug, Formatter, Write};
use std::marker::Model;

/// A descriptor of poll(2), and the conditions that are asked for (`fd` and `events` of struct pollfd).
#[derive(Clone, Copy, Debug, PartialEq, Eq)]
pub struct PollFd {
    /// The descriptor.
    pub fd: Fd,
    /// What is asked for. HUP, ERR and NVAL are reported in any case.
    pub events: PollFlags,
}

/// The descriptors of one poll(2), in order. Contracts see the list of them.
pub struct PollFds {
    items: Vec<PollFd>,
}

// Written out, so that it is proved here and not in each function that drops one.
impl Drop for PollFds {
    fn drop(self) {
        let PollFds { items } = self;
        drop(items);
    }
}

impl Model for PollFds {
    ghost use Rattle.std.specs.Prelude.{List};
    ghost use Rattle.ux_types.specs.declared.polling.PollFd.{PollFd};

    ghost Value = { List PollFd };

    ghost view = { λ f. f.items.items };
}

impl PollFds {
    /// These descriptors. More than 64 are refused by the call that asks of them.
    pub fn new(items: Vec<PollFd>) -> PollFds
        ensures { result ≡ items.items }
    {
        PollFds { items }
    }

    /// The descriptors, to be read.
    pub fn as_slice(&self) -> &[PollFd]
        ensures { result.now ≡ self.now }
    {
        self.items.as_slice()
    }
}

impl Clone for PollFds {
    ghost is_clone = { λ x y. y ≡ x };

    fn clone(&self) -> Result<PollFds, AllocError> {
        let items = Vec::from_slice(*self.items.allocator(), self.items.as_slice())?;
        Ok(PollFds { items })
    }
}

impl PartialEq for PollFds {
    ghost eq = { pointwise same_asked };

    ghost laws = { Prim.search (comparing, rules) };

    fn eq(&self, other: &PollFds) -> bool {
        self.as_slice() == other.as_slice()
    }
}

impl Eq for PollFds {
    ghost laws = { Prim.search (comparing, rules) };
}

impl Debug for PollFds {
    fn fmt<W: Write>(&self, f: &mut Formatter<W>) -> fmt::Result {
        self.as_slice().fmt(f)
    }
}

/// The conditions that one poll(2) found, one set for each descriptor, in order (`revents` of struct pollfd). They lie in the
/// value itself. Contracts see the list of them.
#[derive(Drop)]
pub struct Revents {
    sets: [PollFlags; POLL_LIMIT],
    len: u8,
    ghost in_range: { len ≤ 64 },
}

impl Model for Revents {
    ghost use Rattle.std.specs.Prelude.{List, take};
    ghost use Rattle.ux_types.specs.declared.flag_sets.PollFlags.{PollFlags};

    ghost Value = { List PollFlags };

    ghost view = { λ r. take r.len r.sets };
}

impl Revents {
    /// Of no descriptor.
    pub fn new() -> Revents
        ensures { result ≡ [] }
    {
        Revents {
            sets: [PollFlags(0); POLL_LIMIT],
            len: 0,
        }
    }

    /// One more, behind the others.
    pub fn push(&mut self, found: PollFlags)
        requires room { length self.old < POLL_LIMIT }
        ensures { self.new ≡ self.old ++ found ∷ [] }
    {
        self.sets[self.len as usize] = found;
        self.len += 1;
    }

    /// The same again. It takes no memory.
    pub fn copy(&self) -> Revents
        ensures { result ≡ self.now }
    {
        Revents {
            sets: self.sets,
            len: self.len,
        }
    }

    /// The sets, to be read.
    pub fn as_slice(&self) -> &[PollFlags]
        ensures sets { result.now ≡ self.now }
        ensures limit { length self.now ≤ POLL_LIMIT }
    {
        &self.sets[..self.len as usize]
    }
}

impl PartialEq for Revents {
    ghost eq = { pointwise same_flags };

    ghost laws = { Prim.search (comparing, rules) };

    fn eq(&self, other: &Revents) -> bool {
        self.as_slice() == other.as_slice()
    }
}

impl Eq for Revents {
    ghost laws = { Prim.search (comparing, rules) };
}

impl Debug for Revents {
    fn fmt<W: Write>(&self, f: &mut Formatter<W>) -> fmt::Result {
        self.as_slice().fmt(f)
    }
}
