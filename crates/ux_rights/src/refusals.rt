//! Why a queue takes no more.
ghost use Rattle.std.specs.Prelude.{◌≡◌};
ghost use Rattle.ux_rights.specs.Refusals.{refusal_of};

use thiserror::Error;
use ux_types::{Errno, Refusal};

/// Why a message wasn't queued, with its rights.
#[derive(Clone, Copy, Debug, PartialEq, Eq, Error)]
pub enum SendError {
    /// There is no room (EAGAIN).
    #[error("queue is full")]
    Full,
    /// There is no memory for the message (ENOMEM).
    #[error("out of memory")]
    NoMemory,
}

impl From<SendError> for Refusal {
    ghost from_gives = { λ error refusal. refusal ≡ refusal_of error };

    fn from(error: SendError) -> Refusal {
        match error {
            SendError::Full => Refusal::Answer(Errno::EAGAIN),
            SendError::NoMemory => Refusal::NoMemory,
        }
    }
}
