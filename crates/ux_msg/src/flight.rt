//! The limit of rights in flight (ETOOMANYREFS of unix(7)).
ghost use Rattle.std.specs.Prelude.{◌≡◌, None};
ghost use Rattle.ux_model.specs.Sending.{is_over_limit};
ghost use Rattle.ux_rights.specs.Drafts.{drafted};

use ux_object::FileObject;
use ux_rights::{Draft, RefList};
use ux_state::State;

/// Whether a user that may have so many rights in flight, if that is limited, would have more with these.
pub(crate) fn is_over_limit<O: FileObject>(
    state: &State<O>,
    limit: Option<u32>,
    draft: Draft<'_>,
    rights: &RefList,
) -> bool
    ensures { result ≡ is_over_limit state.now limit (drafted draft.entry rights.now None) }
{
    let Some(limit) = limit else {
        return false;
    };
    let count = rights.len() as u128;
    0 < count && (limit as u128) < state.rights_in_flight(draft.uid) as u128 + count
}
