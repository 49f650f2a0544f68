//! Why a call gave no value.
use std::alloc::AllocError;
use thiserror::Error;
use ux_book::CallFault;
use ux_types::Errno;

/// Why a call gave no value.
#[derive(Clone, Copy, Debug, PartialEq, Eq, Error)]
pub enum CallError {
    /// The call was made, and the layer refused it with this error of POSIX.
    #[error("{0}")]
    Refused(Errno),
    /// The call wasn't made, and nothing has changed.
    #[error("{0}")]
    Fault(CallFault),
    /// The call was made, and its reply is of a kind that wasn't looked for.
    #[error("a reply of another kind")]
    Unlike,
}

impl From<CallFault> for CallError {
    ghost use Rattle.std.specs.Prelude.{◌≡◌};
    ghost use Rattle.delortxa.specs.declared.fault.CallError.{CallError};

    ghost from_gives = { λ fault error. error ≡ CallError.Fault fault };

    fn from(fault: CallFault) -> CallError {
        CallError::Fault(fault)
    }
}

impl From<AllocError> for CallError {
    ghost use Rattle.std.specs.Prelude.{◌≡◌};
    ghost use Rattle.ux_book.specs.declared.fault.CallFault.{CallFault};
    ghost use Rattle.delortxa.specs.declared.fault.CallError.{CallError};

    ghost from_gives = { λ _ error. error ≡ CallError.Fault CallFault.NoMemory };

    fn from(_error: AllocError) -> CallError {
        CallError::Fault(CallFault::NoMemory)
    }
}
