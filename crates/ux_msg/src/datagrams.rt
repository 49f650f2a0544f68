//! Sending datagrams (sendmsg(2), unix(7)).
ghost use Rattle.std.specs.Prelude.{IsSomeAnd, Some, None, option_map};
ghost use Rattle.ux_model.specs.State.{socket_at};
ghost use Rattle.ux_rights.specs.Drafts.{drafted};
ghost use Rattle.ux_state.specs.Moves.{IsSocketAt, AreReferenced};
ghost use Rattle.ux_msg.specs.Answers.{Gives};
ghost use Rattle.ux_msg.specs.Sendings.{send_to_target};
ghost use Rattle.ux_model.specs.Sending as model;

use crate::flight::is_over_limit;
use ux_object::FileObject;
use ux_rights::{Draft, RefList};
use ux_state::State;
use ux_types::{Addr, DescriptionId, Errno, RECORD_BYTES_LIMIT, Refusal, Reply};

/// Sends a datagram from the socket of this description to an address, or where it is associated. It reports the
/// name that the socket has now. So many rights of its user may be in flight, if that is limited.
pub(crate) fn send_datagram<O: FileObject>(
    state: &mut State<O>,
    limit: Option<u32>,
    id: DescriptionId,
    addr: Option<&Addr>,
    draft: Draft<'_>,
    rights: RefList,
) -> Result<Reply, Refusal>
    requires socket { IsSocketAt state.old id }
    requires held { AreReferenced state.old rights }
    ensures { IsSomeAnd (socket_at state.old id) (λ s. Gives state.old
        (model.send_datagram state.old limit id s (option_map (λ a. a.now) addr.entry) (drafted draft.entry rights None)) result state.new) }
{
    if draft.bytes.len() > RECORD_BYTES_LIMIT {
        return Err(Errno::EMSGSIZE.into());
    }
    let Some(socket) = state.socket(id) else {
        // It is a socket, as the contract requires.
        unreachable!();
    };
    if socket.is_write_shut() {
        return Err(Errno::EPIPE.into());
    }
    match addr {
        Some(addr) => send_by_name(state, limit, id, addr, draft, rights),
        None => send_by_association(state, limit, id, draft, rights),
    }
}

/// Sends a datagram to what an address leads to.
fn send_by_name<O: FileObject>(
    state: &mut State<O>,
    limit: Option<u32>,
    id: DescriptionId,
    addr: &Addr,
    draft: Draft<'_>,
    rights: RefList,
) -> Result<Reply, Refusal>
    requires socket { IsSocketAt state.old id }
    requires held { AreReferenced state.old rights }
    ensures { IsSomeAnd (socket_at state.old id) (λ s. Gives state.old (model.on_target state.old id s (Some addr.now)
        (λ t target. send_to_target state.old limit id t target (drafted draft.entry rights (Some s.name)))) result state.new) }
{
    let Some(socket) = state.socket(id) else {
        // It is a socket, as the contract requires.
        unreachable!();
    };
    let target = match state.socket_named(socket.kind(), addr) {
        Ok(found) => found.id,
        Err(e) => return Err(e.into()),
    };
    send_to_target(state, limit, id, target, draft, rights)
}

/// Sends a datagram where its socket is associated. A target that is gone ends the association.
fn send_by_association<O: FileObject>(
    state: &mut State<O>,
    limit: Option<u32>,
    id: DescriptionId,
    draft: Draft<'_>,
    rights: RefList,
) -> Result<Reply, Refusal>
    requires socket { IsSocketAt state.old id }
    requires held { AreReferenced state.old rights }
    ensures { IsSomeAnd (socket_at state.old id) (λ s. Gives state.old (model.on_target state.old id s None
        (λ t target. send_to_target state.old limit id t target (drafted draft.entry rights (Some s.name)))) result state.new) }
{
    let Some(socket) = state.socket(id) else {
        // It is a socket, as the contract requires.
        unreachable!();
    };
    let Some(target) = socket.association() else {
        return Err(Errno::EDESTADDRREQ.into());
    };
    if state.socket(target).is_none() {
        state.set_association(id, None);
        return Err(Errno::ECONNREFUSED.into());
    }
    send_to_target(state, limit, id, target, draft, rights)
}

/// Queues a datagram at its target, if that takes datagrams from the sender.
fn send_to_target<O: FileObject>(
    state: &mut State<O>,
    limit: Option<u32>,
    id: DescriptionId,
    target: DescriptionId,
    draft: Draft<'_>,
    rights: RefList,
) -> Result<Reply, Refusal>
    requires sender { IsSocketAt state.old id }
    requires target { IsSocketAt state.old target }
    requires held { AreReferenced state.old rights }
    ensures { IsSomeAnd (socket_at state.old id) (λ s. IsSomeAnd (socket_at state.old target) (λ t. Gives state.old
        (send_to_target state.old limit id target t (drafted draft.entry rights (Some s.name))) result state.new)) }
{
    let (Some(sender), Some(other)) = (state.socket(id), state.socket(target)) else {
        // Both are sockets, as the contract requires.
        unreachable!();
    };
    if !other.takes_from(id) {
        return Err(Errno::EPERM.into());
    }
    if other.is_read_shut() {
        return Err(Errno::EPIPE.into());
    }
    // No call makes a stream the target of a datagram; the definitions speak of any socket.
    if other.is_stream() && draft.bytes.is_empty() {
        return Ok(Reply::Count(0));
    }
    if is_over_limit(state, limit, draft, &rights) {
        return Err(Errno::ETOOMANYREFS.into());
    }
    // A full queue comes before ENOMEM.
    if !other.has_room() {
        return Err(Errno::EAGAIN.into());
    }
    let name = sender.name().clone()?;
    let count = state.send(target, draft, rights, Some(name))?;
    Ok(Reply::Count(count))
}
