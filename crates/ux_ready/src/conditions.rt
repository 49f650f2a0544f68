//! Conditions, one by one.
ghost use Rattle.std.specs.Prelude.{◌≡◌};
ghost use Rattle.ux_model.specs.Readiness as model;
ghost use Rattle.ux_model.specs.Polling as polling;

use bitflags::Flags;
use std::marker::Model;
use ux_types::PollFlags;

/// The conditions of poll(2) that hold.
#[derive(Clone, Copy)]
pub(crate) struct Conditions {
    /// POLLIN: a read has something to report at once.
    pub(crate) readable: bool,
    /// POLLOUT: so has a write.
    pub(crate) writable: bool,
    /// POLLRDHUP: nothing more will arrive.
    pub(crate) read_hung: bool,
    /// POLLHUP: and no more can be sent.
    pub(crate) hung: bool,
    /// POLLERR.
    pub(crate) failed: bool,
}

impl Model for Conditions {
    ghost use Rattle.ux_model.specs.Readiness as model;

    ghost Value = { model.Conditions };

    ghost view = { λ c. record { readable = c.readable; writable = c.writable; read_hung = c.read_hung; hung = c.hung; failed = c.failed } };

    ghost inverse = { λ c. record { readable = c.readable; writable = c.writable; read_hung = c.read_hung; hung = c.hung; failed = c.failed } };
}

impl Conditions {
    /// None.
    pub(crate) fn none() -> Conditions
        ensures { result ≡ model.no_conditions }
    {
        Conditions {
            readable: false,
            writable: false,
            read_hung: false,
            hung: false,
            failed: false,
        }
    }

    /// Of these, what poll(2) reports where this is asked for: HUP and ERR in any case.
    pub(crate) fn reported(self, events: PollFlags) -> Conditions
        ensures { result ≡ polling.reported events self }
    {
        Conditions {
            readable: events.contains(PollFlags::IN) && self.readable,
            writable: events.contains(PollFlags::OUT) && self.writable,
            read_hung: events.contains(PollFlags::RDHUP) && self.read_hung,
            hung: self.hung,
            failed: self.failed,
        }
    }

    /// The flags that report them.
    pub(crate) fn flags(self) -> PollFlags
        ensures { result ≡ model.poll_flags self }
    {
        let mut flags = PollFlags(0);
        if self.readable {
            flags = flags.union(PollFlags::IN);
        }
        if self.writable {
            flags = flags.union(PollFlags::OUT);
        }
        if self.read_hung {
            flags = flags.union(PollFlags::RDHUP);
        }
        if self.hung {
            flags = flags.union(PollFlags::HUP);
        }
        if self.failed {
            flags = flags.union(PollFlags::ERR);
        }
        flags
    }
}
