//! The test of credentials that a sender gives.
ghost use Rattle.std.specs.Prelude.{◌≡◌, ◌↔◌, false, IsTrue, IsOk, option_map};
ghost use Rattle.std.specs.Result.{result_err};
ghost use Rattle.ux_model.specs.Credentials.{cred_refusal};
ghost use Rattle.ux_cmsg.specs.Refusals.{errno_of};
ghost use Rattle.ux_types.specs.declared.refusal.Refusal.TheVariants.{Answer};

use thiserror::Error;
use ux_types::{Cred, Errno, Refusal};

/// Why a sender may not give credentials.
#[derive(Clone, Copy, Debug, PartialEq, Eq, Error)]
pub enum CredError {
    /// The sender is unprivileged, and they aren't its own (EPERM).
    #[error("credentials that aren't the sender's own")]
    NotOwn,
    /// No process with their number lives (ESRCH).
    #[error("credentials of a process that doesn't live")]
    NoProcess,
}

impl From<CredError> for Errno {
    ghost from_gives = { λ error errno. errno ≡ errno_of error };

    fn from(error: CredError) -> Errno {
        match error {
            CredError::NotOwn => Errno::EPERM,
            CredError::NoProcess => Errno::ESRCH,
        }
    }
}

impl From<CredError> for Refusal {
    ghost from_gives = { λ error refusal. refusal ≡ Answer (errno_of error) };

    fn from(error: CredError) -> Refusal {
        Refusal::Answer(Errno::from(error))
    }
}

/// Whether a sender with credentials of its own may give others. An unprivileged one may give its own
/// triple alone, a privileged one any user and group with the number of a process that lives: `lives`
/// says whether the process of those given does. It needs no memory.
///
/// # Errors
///
/// `NotOwn` for an unprivileged sender, `NoProcess` for a privileged one.
pub fn check_cred(own: Cred, privileged: bool, given: Cred, lives: bool) -> Result<(), CredError>
    ensures refusal { option_map errno_of (result_err result) ≡ cred_refusal privileged own lives given }
    ensures unprivileged_gives_own { privileged ≡ false → (IsOk result ↔ (given ≡ own)) }
    ensures privileged_gives_living { IsTrue privileged → (IsOk result ↔ IsTrue lives) }
{
    if privileged {
        if lives {
            Ok(())
        } else {
            Err(CredError::NoProcess)
        }
    } else if given == own {
        Ok(())
    } else {
        Err(CredError::NotOwn)
    }
}
