//! Why nothing was made of what was asked.
use std::alloc::AllocError;
use thiserror::Error;

/// Why nothing was made of what was asked. Nothing has changed then.
#[derive(Clone, Copy, Debug, PartialEq, Eq, Error)]
pub enum SessionFault {
    /// It asks for the end of the layer, which is no process's call.
    #[error("the end of the layer is no call of a process")]
    NoCall,
    /// No live process has this number.
    #[error("no live process has this number")]
    Stranger,
    /// A pending call has this number.
    #[error("a pending call has this number")]
    InUse,
    /// No pending call has this number.
    #[error("no pending call has this number")]
    NotPending,
    /// An allocation failed.
    #[error("out of memory")]
    NoMemory,
}

impl From<AllocError> for SessionFault {
    ghost use Rattle.std.specs.Prelude.{◌≡◌};
    ghost use Rattle.ux_session.specs.declared.fault.SessionFault.{SessionFault};

    ghost from_gives = { λ _ error. error ≡ SessionFault.NoMemory };

    fn from(_error: AllocError) -> SessionFault {
        SessionFault::NoMemory
    }
}
