//! The readiness of sockets.
ghost use Rattle.std.specs.Prelude.{◌≡◌};
ghost use Rattle.ux_model.specs.Connecting.{listener_of};
ghost use Rattle.ux_model.specs.Readiness as model;

use crate::conditions::Conditions;
use ux_description::Socket;
use ux_object::FileObject;
use ux_state::State;
use ux_types::DescriptionId;

/// The conditions of this socket, which is that of a description.
#[tactic(auto, unfolding(ux_model::specs::Readiness::socket_conditions))]
pub(crate) fn socket_conditions<O: FileObject>(
    state: &State<O>,
    id: DescriptionId,
    socket: &Socket,
) -> Conditions
    ensures { result ≡ model.socket_conditions state.now id socket.now }
{
    if socket.is_datagram() {
        Conditions {
            readable: !socket.is_empty() || socket.is_read_shut(),
            writable: sends_at_once(state, id, socket),
            ..Conditions::none()
        }
    } else {
        stream_conditions(state, socket)
    }
}

/// The conditions of a stream or seqpacket socket.
fn stream_conditions<O: FileObject>(state: &State<O>, socket: &Socket) -> Conditions
    ensures { result ≡ model.stream_conditions state.now socket.now }
{
    match socket.peer() {
        Some(peer) => match state.socket(peer) {
            Some(other) => connected_conditions(socket, other),
            None => lost_conditions(socket),
        },
        None => listener_conditions(socket),
    }
}

/// Where it isn't connected: an end waits for accept, or it doesn't listen.
fn listener_conditions(socket: &Socket) -> Conditions
    ensures { result ≡ model.listener_conditions (listener_of socket.now.phase) }
{
    match socket.backlog() {
        Some(backlog) => Conditions {
            readable: backlog.len() != 0,
            ..Conditions::none()
        },
        None => Conditions {
            hung: true,
            ..Conditions::none()
        },
    }
}

/// Where it is connected to another that is there.
fn connected_conditions(socket: &Socket, other: &Socket) -> Conditions
    ensures { result ≡ model.connected_conditions socket.now other.now }
{
    let over = socket.is_read_shut() || other.is_write_shut();
    Conditions {
        readable: !socket.is_empty() || socket.reset() || over,
        writable: other.has_room() || socket.is_write_shut() || other.is_read_shut(),
        read_hung: over,
        hung: socket.is_read_shut() && socket.is_write_shut(),
        failed: socket.reset(),
    }
}

/// Where its peer is gone.
fn lost_conditions(socket: &Socket) -> Conditions
    ensures { result ≡ model.lost_conditions socket.now }
{
    Conditions {
        readable: true,
        writable: true,
        read_hung: true,
        hung: true,
        failed: socket.reset(),
    }
}

/// Whether a datagram of this socket needn't wait: it is taken, or refused for another reason than a full queue.
fn sends_at_once<O: FileObject>(state: &State<O>, id: DescriptionId, socket: &Socket) -> bool
    ensures { result ≡ model.sends_at_once state.now id socket.now }
{
    let Some(target) = socket.association() else {
        return true;
    };
    match state.socket(target) {
        Some(target) => {
            socket.is_write_shut()
                || !target.takes_from(id)
                || target.is_read_shut()
                || target.has_room()
        }
        None => true,
    }
}
