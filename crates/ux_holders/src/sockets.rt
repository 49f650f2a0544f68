//! Sockets, and what waits at them.
ghost use Rattle.std.specs.Prelude.{◌≡◌, ◌++◌, [], ◌∷◌, length, map, option_map, slice_get, IfOk, OnOk};
ghost use Rattle.ux_model.specs.Socket.{pending_ends};
ghost use Rattle.ux_model.specs.Connecting.{listener_of};
ghost use Rattle.ux_holders.specs.Listing as listing;

use crate::listed::add;
use crate::rows::{MessageRow, SocketRow};
use std::alloc::{AllocError, Global};
use ux_backlog::Backlog;
use ux_description::Socket;
use ux_rights::Reference;
use ux_types::DescriptionId;

/// The row of a socket.
pub(crate) fn socket_row(alloc: Global, socket: &Socket) -> Result<SocketRow, AllocError>
    ensures { IfOk result (λ row. row ≡ listing.socket_row socket.now) }
{
    let pending = pending_of(alloc, socket)?;
    let messages = messages_of(alloc, socket)?;
    let name = socket.name().clone()?;
    Ok(SocketRow {
        kind: socket.kind(),
        name,
        peer: socket.peer(),
        association: socket.association(),
        backlog: backlog_limit(socket),
        pending,
        messages,
        passcred: socket.passcred(),
        read_shut: socket.is_read_shut(),
        write_shut: socket.is_write_shut(),
        reset: socket.reset(),
    })
}

/// How many connections may wait at a socket, while it listens.
fn backlog_limit(socket: &Socket) -> Option<usize>
    ensures { result ≡ option_map (λ listener. listener.backlog.limit) (listener_of socket.now.phase) }
{
    match socket.backlog() {
        Some(backlog) => Some(backlog.limit()),
        None => None,
    }
}

/// The ends that wait for accept, the oldest first.
fn pending_of(alloc: Global, socket: &Socket) -> Result<Vec<DescriptionId>, AllocError>
    ensures { IfOk result (λ ends. ends.items ≡ pending_ends socket.now.phase) }
{
    match socket.backlog() {
        Some(backlog) => ends_of(alloc, backlog),
        None => Ok(Vec::new(alloc)),
    }
}

/// The ends that wait in a backlog, the oldest first.
#[tactic(auto, using(crate::proofs::Steps::next_same))]
fn ends_of(alloc: Global, backlog: &Backlog) -> Result<Vec<DescriptionId>, AllocError>
    ensures { IfOk result (λ ends. ends.items ≡ backlog.now.pending) }
{
    let mut ends = Vec::new(alloc);
    for index in 0..backlog.len() {
        add(&mut ends, backlog.get(index))?;
    }
    Ok(ends)
}

/// The messages that wait at a socket, the oldest first.
#[tactic(auto, using(crate::proofs::Steps::next_item))]
fn messages_of(alloc: Global, socket: &Socket) -> Result<Vec<MessageRow>, AllocError>
    ensures { IfOk result (λ rows. rows.items ≡ map listing.message_row socket.now.queue) }
{
    let mut rows = Vec::new(alloc);
    for index in 0..socket.message_count() {
        let row = message_row(alloc, socket, index)?;
        add(&mut rows, row)?;
    }
    Ok(rows)
}

/// The row of the message at an index, the oldest at 0.
#[tactic(auto, using(crate::proofs::Steps::found_message, crate::proofs::Steps::no_message))]
fn message_row(
    alloc: Global,
    socket: &Socket,
    index: usize,
) -> Result<Option<MessageRow>, AllocError>
    ensures { IfOk result (λ row. row ≡ option_map listing.message_row (slice_get socket.now.queue index)) }
{
    let Some(unread) = socket.message(index) else {
        return Ok(None);
    };
    Ok(Some(MessageRow {
        tag: unread.tag,
        len: unread.len,
        rights: targets_of(alloc, unread.rights)?,
        cred: unread.cred,
    }))
}

/// The descriptions that these references refer to.
fn targets_of(alloc: Global, rights: &[Reference]) -> Result<Vec<DescriptionId>, AllocError>
    ensures { IfOk result (λ targets. targets.items ≡ rights.now) }
{
    let mut targets = Vec::new(alloc);
    for right in rights {
        targets.push(right.description())?;
    }
    Ok(targets)
}
