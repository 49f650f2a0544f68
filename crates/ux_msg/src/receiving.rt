//! Receiving at a socket (recvmsg(2), read(2)).
ghost use Rattle.std.specs.Prelude.{◌≡◌, ◌<◌, nat_lt, if◌then◌else◌, IsTrue, IsSomeAnd, IfOk, None, option_map, length};
ghost use Rattle.ux_model.specs.Flags.{asks_real_length, are_receive_flags, received_flags};
ghost use Rattle.ux_model.specs.Socket.{marks_records};
ghost use Rattle.ux_model.specs.Front.{OnFront};
ghost use Rattle.ux_model.specs.State.{is_live, socket_at};
ghost use Rattle.ux_state.specs.Moves.{IsSocketAt};
ghost use Rattle.ux_model.specs.Types.{Request};
ghost use Rattle.ux_model.specs.Delivered.{told_of, delivered_by};
ghost use Rattle.ux_msg.specs.Answers.{Gives, reply_of};
ghost use Rattle.ux_model.specs.Receiving as model;
ghost use Rattle.ux_msg.specs.Receipts.{receive_at, receive_nothing_at, read_socket_at, brought_at};

use crate::delivering::{Delivered, Wanted, deliver};
use bitflags::Flags;
use std::alloc::Global;
use ux_object::FileObject;
use ux_record::Peeked;
use ux_rights::Origin;
use ux_state::State;
use ux_types::{Bytes, DescriptionId, Done, Errno, Fd, MsgFlags, Pid, Refusal, Reply, SockType};

/// What a recvmsg(2) asks for beside its descriptor.
#[derive(Clone, Copy)]
pub struct Incoming {
    /// At most so many bytes.
    pub n: usize,
    /// Room for so many bytes of control.
    pub space: usize,
    /// The flags of the call.
    pub flags: MsgFlags,
}

/// recvmsg(2). The process lives.
///
/// # Errors
///
/// EBADF or ENOTSOCK where the number leads to no socket, EINVAL for flags that a receive doesn't take,
/// ENOTCONN, and where nothing waits, a pending ECONNRESET, or EAGAIN while the peer is there, in this
/// order; out of memory.
#[tactic(auto, unfolding(ux_model::specs::Receiving::recv_msg))]
pub fn recv_msg<O: FileObject>(
    state: &mut State<O>,
    alloc: Global,
    pid: Pid,
    fd: Fd,
    asked: Incoming,
) -> Result<Done, Refusal>
    requires { IsTrue (is_live state.old pid.0) }
    ensures gives { Gives state.old (model.recv_msg state.old pid.0 fd asked.n asked.space asked.flags) (reply_of result) state.new }
    ensures delivered { IfOk result (λ done. done.delivered ≡ delivered_by state.old pid.0 (Request.RecvMsg fd asked.n asked.space asked.flags) done.reply) }
{
    let id = match state.find_socket(pid, fd) {
        Ok(found) => found.id,
        Err(e) => return Err(e.into()),
    };
    if !are_receive_flags(asked.flags) {
        return Err(Errno::EINVAL.into());
    }
    recv_at(state, alloc, pid, id, asked)
}

/// Receives at the socket of this description without flags and without control space, for a process that
/// lives, and answers the bytes alone: what read(2) does on a socket.
///
/// # Errors
///
/// Those of a receive; EBADF where the description leads to no socket.
pub fn read_socket<O: FileObject>(
    state: &mut State<O>,
    alloc: Global,
    pid: Pid,
    id: DescriptionId,
    n: usize,
) -> Result<Reply, Refusal>
    requires { IsTrue (is_live state.old pid.0) }
    ensures { Gives state.old (read_socket_at state.old pid.0 id n) result state.new }
{
    let asked = Incoming {
        n,
        space: 0,
        flags: MsgFlags(0),
    };
    let done = recv_at(state, alloc, pid, id, asked)?;
    Ok(bytes_alone(done.reply))
}

/// What read(2) reports of a reply to recvmsg(2).
fn bytes_alone(reply: Reply) -> Reply
    ensures { result ≡ model.bytes_alone reply }
{
    match reply {
        Reply::Received { bytes, .. } => Reply::Bytes(bytes),
        reply => reply,
    }
}

/// Receives at the socket of this description.
fn recv_at<O: FileObject>(
    state: &mut State<O>,
    alloc: Global,
    pid: Pid,
    id: DescriptionId,
    asked: Incoming,
) -> Result<Done, Refusal>
    requires { IsTrue (is_live state.old pid.0) }
    ensures gives { Gives state.old (receive_at state.old pid.0 id (model.incoming asked.n asked.space asked.flags)) (reply_of result) state.new }
    ensures delivered { IfOk result (λ done. done.delivered ≡ told_of (brought_at state.old pid.0 id asked.n asked.space) done.reply) }
{
    let Some(socket) = state.socket(id) else {
        return Err(Errno::EBADF.into());
    };
    if !socket.is_datagram() {
        return recv_from_peer(state, alloc, pid, id, asked);
    }
    if socket.is_empty() {
        return if socket.is_read_shut() {
            Ok(nothing_received())
        } else {
            Err(Errno::EAGAIN.into())
        };
    }
    recv_front(state, alloc, pid, id, asked)
}

/// Receives at the stream or seqpacket socket of this description.
fn recv_from_peer<O: FileObject>(
    state: &mut State<O>,
    alloc: Global,
    pid: Pid,
    id: DescriptionId,
    asked: Incoming,
) -> Result<Done, Refusal>
    requires live { IsTrue (is_live state.old pid.0) }
    requires socket { IsSocketAt state.old id }
    ensures gives { IsSomeAnd (socket_at state.old id) (λ s. Gives state.old (model.receive_from_peer state.old pid.0 id s (model.incoming asked.n asked.space asked.flags)) (reply_of result) state.new) }
    ensures delivered { IfOk result (λ done. done.delivered ≡ told_of (brought_at state.old pid.0 id asked.n asked.space) done.reply) }
{
    let Some(socket) = state.socket(id) else {
        // It is a socket, as the contract requires.
        unreachable!();
    };
    let Some(peer) = socket.peer() else {
        return Err(Errno::ENOTCONN.into());
    };
    if socket.is_stream() && asked.n == 0 {
        return Ok(nothing_received());
    }
    if socket.is_empty() {
        return recv_nothing(state, id, peer);
    }
    recv_front(state, alloc, pid, id, asked)
}

/// Receives the first bytes that wait at the socket of this description, or its first message, with what comes
/// with them.
#[tactic(auto, unfolding(ux_model::specs::Receiving::receive_front))]
fn recv_front<O: FileObject>(
    state: &mut State<O>,
    alloc: Global,
    pid: Pid,
    id: DescriptionId,
    asked: Incoming,
) -> Result<Done, Refusal>
    requires live { IsTrue (is_live state.old pid.0) }
    requires some { IsSomeAnd (socket_at state.old id) (λ s. 0 < length s.queue) }
    ensures gives { IsSomeAnd (socket_at state.old id) (λ s. OnFront asked.n s (λ front.
        Gives state.old (model.receive_front state.old pid.0 id s (model.incoming asked.n asked.space asked.flags) front) (reply_of result) state.new)) }
    ensures delivered { IfOk result (λ done. done.delivered ≡ told_of (brought_at state.old pid.0 id asked.n asked.space) done.reply) }
{
    let Some(socket) = state.socket(id) else {
        // It is a socket, as the contract requires.
        unreachable!();
    };
    let wanted = Wanted {
        cred: socket.passcred(),
        space: asked.space,
        cloexec: asked.flags.contains(MsgFlags::CMSG_CLOEXEC),
    };
    let kind = socket.kind();
    let front = socket.peek(alloc, asked.n)?;
    let delivery = deliver(state, alloc, pid, &front, wanted)?;
    if !asked.flags.contains(MsgFlags::PEEK) {
        state.skip_front(id, asked.n);
    }
    let delivered = tag_delivered(front.origin, delivery.installs);
    Ok(Done {
        reply: received(kind, asked.flags, front, delivery),
        delivered,
    })
}

/// The tag of the message that rights are of, where at least one of them was installed.
fn tag_delivered(origin: Option<Origin>, installs: bool) -> Option<u64>
    ensures { result ≡ (if installs then option_map (λ o. o.tag) origin else None) }
{
    if !installs {
        return None;
    }
    let Origin { tag, .. } = origin?;
    Some(tag)
}

/// What a receive answers where nothing waits, at a socket with this peer.
fn recv_nothing<O: FileObject>(
    state: &mut State<O>,
    id: DescriptionId,
    peer: DescriptionId,
) -> Result<Done, Refusal>
    ensures gives { Gives state.old (receive_nothing_at state.old id peer) (reply_of result) state.new }
    ensures none { IfOk result (λ done. done.delivered ≡ None) }
{
    let Some(socket) = state.socket(id) else {
        return Err(Errno::EBADF.into());
    };
    if socket.reset() {
        state.set_reset(id, false);
        return Err(Errno::ECONNRESET.into());
    }
    match state.socket(peer) {
        Some(other) if !socket.is_read_shut() && !other.is_write_shut() => {
            Err(Errno::EAGAIN.into())
        }
        _ => Ok(nothing_received()),
    }
}

/// The reply that reports what was received at a socket of this type by a call with these flags, and what was
/// delivered with it.
fn received(kind: SockType, flags: MsgFlags, front: Peeked, delivery: Delivered) -> Reply
    ensures { result ≡ Reply.Received (received_flags (nat_lt (length front.bytes) front.whole) delivery.truncated (marks_records kind))
        (if asks_real_length flags then front.whole else length front.bytes) front.bytes delivery.control front.from }
{
    let taken = front.bytes.len();
    let count = if flags.contains(MsgFlags::TRUNC) {
        front.whole
    } else {
        taken
    };
    Reply::Received {
        flags: received_flags(taken < front.whole, delivery.truncated, marks_records(kind)),
        count,
        bytes: front.bytes,
        control: delivery.control,
        from: front.from,
    }
}

/// The flags that report that data was cut off, that control data was left out, and that a record ends.
fn received_flags(cut: bool, control_cut: bool, ends_record: bool) -> MsgFlags
    ensures { result ≡ received_flags cut control_cut ends_record }
{
    let mut reported = MsgFlags(0);
    if cut {
        reported = reported.union(MsgFlags::TRUNC);
    }
    if control_cut {
        reported = reported.union(MsgFlags::CTRUNC);
    }
    if ends_record {
        reported = reported.union(MsgFlags::EOR);
    }
    reported
}

/// Whether a receive at a socket of this type reports where a record ends (MSG_EOR).
fn marks_records(kind: SockType) -> bool
    ensures { result ≡ marks_records kind }
{
    matches!(kind, SockType::Seq)
}

/// The answer that reports nothing.
fn nothing_received() -> Done
    ensures reply { result.reply ≡ model.nothing_received }
    ensures none { result.delivered ≡ None }
{
    let reply = Reply::Received {
        flags: MsgFlags(0),
        count: 0,
        bytes: Bytes::empty(),
        control: Bytes::empty(),
        from: None,
    };
    Done {
        reply,
        delivered: None,
    }
}

/// Whether a receive takes these flags: PEEK, TRUNC, DONTWAIT and CMSG_CLOEXEC.
fn are_receive_flags(flags: MsgFlags) -> bool
    ensures { result ≡ are_receive_flags flags }
{
    MsgFlags::PEEK
        .union(MsgFlags::TRUNC)
        .union(MsgFlags::DONTWAIT)
        .union(MsgFlags::CMSG_CLOEXEC)
        .contains(flags)
}
