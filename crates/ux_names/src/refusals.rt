//! Why a name isn't bound.
ghost use Rattle.std.specs.Prelude.{◌≡◌};
ghost use Rattle.ux_names.specs.Refusals.{refusal_of_bind, refusal_of_autobind};
ghost use Rattle.ux_names.specs.declared.refusals.BindError.{BindError};
ghost use Rattle.ux_names.specs.declared.refusals.AutobindError.{AutobindError};

use std::alloc::AllocError;
use thiserror::Error;
use ux_types::{Errno, Refusal};

/// Why a name that was given isn't bound.
#[derive(Clone, Copy, Debug, PartialEq, Eq, Error)]
pub enum BindError {
    /// The name is listed already (EADDRINUSE of bind(2)).
    #[error("name already in use")]
    Taken,
    /// There was no memory for it (ENOMEM).
    #[error("out of memory")]
    NoMemory,
}

impl From<AllocError> for BindError {
    ghost from_gives = { λ _ error. error ≡ BindError.NoMemory };

    fn from(_error: AllocError) -> BindError {
        BindError::NoMemory
    }
}

impl From<BindError> for Refusal {
    ghost from_gives = { λ e refusal. refusal ≡ refusal_of_bind e };

    fn from(error: BindError) -> Refusal {
        match error {
            BindError::Taken => Refusal::Answer(Errno::EADDRINUSE),
            BindError::NoMemory => Refusal::NoMemory,
        }
    }
}

/// Why no name is given.
#[derive(Clone, Copy, Debug, PartialEq, Eq, Error)]
pub enum AutobindError {
    /// Each of the 2^20 names is in use (ENOSPC).
    #[error("no name is left")]
    NoneFree,
    /// There was no memory for one (ENOMEM).
    #[error("out of memory")]
    NoMemory,
}

impl From<AllocError> for AutobindError {
    ghost from_gives = { λ _ error. error ≡ AutobindError.NoMemory };

    fn from(_error: AllocError) -> AutobindError {
        AutobindError::NoMemory
    }
}

impl From<AutobindError> for Refusal {
    ghost from_gives = { λ e refusal. refusal ≡ refusal_of_autobind e };

    fn from(error: AutobindError) -> Refusal {
        match error {
            AutobindError::NoneFree => Refusal::Answer(Errno::ENOSPC),
            AutobindError::NoMemory => Refusal::NoMemory,
        }
    }
}
