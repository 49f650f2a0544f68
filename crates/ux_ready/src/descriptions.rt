//! The readiness of a description.
ghost use Rattle.std.specs.Prelude.{◌≡◌};
ghost use Rattle.ux_model.specs.Polling as polling;
ghost use Rattle.ux_model.specs.Readiness as model;

use crate::conditions::Conditions;
use crate::files::object_conditions;
use crate::sockets::socket_conditions;
use ux_description::Description;
use ux_object::FileObject;
use ux_state::State;
use ux_types::{DescriptionId, PollFlags};

/// What poll(2) reports of a description: NVAL alone where it isn't there. It takes no memory.
pub fn readiness<O: FileObject>(state: &State<O>, id: DescriptionId) -> PollFlags
    ensures { result ≡ model.flags_at state.now id }
{
    match state.description(id) {
        Some(description) => conditions(state, id, description).flags(),
        None => PollFlags::NVAL,
    }
}

/// What poll(2) reports of a description where these conditions are asked for: NVAL alone where it isn't there. It takes no
/// memory.
pub fn reported<O: FileObject>(state: &State<O>, id: DescriptionId, events: PollFlags) -> PollFlags
    ensures { result ≡ polling.reported_at state.now id events }
{
    match state.description(id) {
        Some(description) => conditions(state, id, description).reported(events).flags(),
        None => PollFlags::NVAL,
    }
}

/// The conditions of this description.
fn conditions<O: FileObject>(
    state: &State<O>,
    id: DescriptionId,
    description: &Description,
) -> Conditions
    ensures { result ≡ model.readiness state.now id description.now }
{
    if let Some(socket) = description.socket() {
        return socket_conditions(state, id, socket);
    }
    match description.object() {
        Some(number) => object_conditions(state, description, number),
        // A description leads to a file object or to a socket.
        None => unreachable!(),
    }
}
