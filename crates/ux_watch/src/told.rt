//! What a supervisor is told of one description.
ghost use Rattle.std.specs.Prelude.{◌≡◌};
ghost use Rattle.ux_watch.specs.Telling as telling;

use ux_object::FileObject;
use ux_ready::readiness;
use ux_state::State;
use ux_types::{DescriptionId, PollFlags};

/// What holds of a description at one moment.
#[derive(Clone, Copy, Debug, PartialEq, Eq)]
pub struct Told {
    /// What poll(2) reports: NVAL alone where the description isn't there.
    pub flags: PollFlags,
    /// How many bytes are unread at its socket; 0 where it leads to none.
    pub bytes: u128,
    /// In how many messages; 0 where it leads to none.
    pub messages: usize,
}

impl Told {
    /// Of a description that isn't there.
    pub(crate) const GONE: Told = Told {
        flags: PollFlags::NVAL,
        bytes: 0,
        messages: 0,
    };

    /// Whether the two are one.
    pub(crate) fn is_same(self, other: Told) -> bool
        ensures { result ≡ telling.is_same self other }
    {
        self.flags.0 == other.flags.0
            && self.bytes == other.bytes
            && self.messages == other.messages
    }
}

/// What holds of this description now. It takes no memory.
pub fn tell<O: FileObject>(state: &State<O>, id: DescriptionId) -> Told
    ensures { result ≡ telling.told state.now id }
{
    let flags = readiness(state, id);
    match state.socket(id) {
        Some(socket) => Told {
            flags,
            bytes: socket.queued_bytes() as u128,
            messages: socket.message_count(),
        },
        None => Told {
            flags,
            bytes: 0,
            messages: 0,
        },
    }
}
