//! Sending to a socket (sendmsg(2), write(2)).
ghost use Rattle.std.specs.Prelude.{◌≡◌, IsTrue, Some, None, IfOk, IfErr, IsSomeAnd, MatchResult, if◌then◌else◌, map, option_map};
ghost use Rattle.ux_model.specs.Types.{Errno as ModelErrno};
ghost use Rattle.ux_model.specs.Flags.{are_send_flags};
ghost use Rattle.ux_model.specs.State.{is_live, process_at};
ghost use Rattle.ux_model.specs.Outcome.{as_process};
ghost use Rattle.ux_model.specs.Control.{Control};
ghost use Rattle.ux_model.specs.ControlReading.{control_in};
ghost use Rattle.ux_rights.specs.Drafts.{drafted};
ghost use Rattle.ux_state.specs.Moves.{AreReferenced};
ghost use Rattle.ux_msg.specs.Answers.{Gives};
ghost use Rattle.ux_msg.specs.Sendings.{IsRefusedBehind, send_from_at, send_with_at, write_socket_at};
ghost use Rattle.ux_model.specs.Sending as model;

use crate::datagrams::send_datagram;
use crate::flight::is_over_limit;
use bitflags::Flags;
use std::alloc::Global;
use ux_cmsg::{Control, check_cred, read_control};
use ux_description::Socket;
use ux_fdtable::Table;
use ux_names::{is_unnamed, is_valid_addr};
use ux_object::FileObject;
use ux_rights::{Draft, RefList};
use ux_state::State;
use ux_types::{
    Addr, Bytes, Cred, DescriptionId, Errno, Fd, MsgFlags, Pid, RECORD_BYTES_LIMIT, RIGHTS_LIMIT,
    Refusal, Reply,
};

/// What a sendmsg(2) is given beside its descriptor.
#[derive(Clone, Copy)]
pub struct Outgoing<'a> {
    /// Where it is sent, if not to the socket's peer.
    pub addr: Option<&'a Addr>,
    /// The data.
    pub bytes: &'a Bytes,
    /// The bytes of a control buffer (cmsg(3)).
    pub control: &'a [u8],
    /// The flags of the call.
    pub flags: MsgFlags,
}

/// sendmsg(2), as the call with number `tag`. The process lives.
///
/// # Errors
///
/// EBADF or ENOTSOCK where the number leads to no socket, EINVAL for flags that a send doesn't take, for a
/// control buffer that isn't one, for more than 253 rights and for rights on a stream without data, EBADF for a
/// right that isn't open, EPERM for credentials that aren't the own of an unprivileged process, ESRCH for those
/// of no process that lives, EINVAL for a bad or unnamed address. Then of a datagram, EMSGSIZE above 65,536
/// bytes, EPIPE where the socket is shut down for writing, EDESTADDRREQ with neither address nor association, what
/// the address leads to, ECONNREFUSED where the associated target is gone, which ends the association, EPERM where
/// the target is associated with another, EPIPE where it is shut down for reading, ETOOMANYREFS where the user of
/// an unprivileged process would have more rights in flight than the process may have descriptors, EAGAIN where
/// its queue is full. Of others, EISCONN or EOPNOTSUPP for an address, ENOTCONN, EPIPE where the socket is shut
/// down for writing, or the peer is gone or shut down for reading, EMSGSIZE of a record above 65,536 bytes,
/// ETOOMANYREFS likewise, EAGAIN where the peer's queue is full. In this order; out of memory.
#[tactic(auto, unfolding(ux_model::specs::Sending::send_msg, ux_model::specs::Sending::send_read))]
pub fn send_msg<O: FileObject>(
    state: &mut State<O>,
    alloc: Global,
    pid: Pid,
    tag: u64,
    fd: Fd,
    message: Outgoing<'_>,
) -> Result<Reply, Refusal>
    requires { IsTrue (is_live state.old pid.0) }
    ensures { Gives state.old
        (model.send_msg state.old pid.0 tag fd (option_map (λ a. a.now) message.entry.addr) message.entry.bytes.now message.entry.control.now message.entry.flags) result state.new }
{
    let id = match state.find_socket(pid, fd) {
        Ok(found) => found.id,
        Err(e) => return Err(e.into()),
    };
    if !are_send_flags(message.flags) {
        return Err(Errno::EINVAL.into());
    }
    let control = read_control(alloc, message.control)?;
    send_with(state, alloc, pid, tag, id, message, &control)
}

/// Sends from the socket of this description, with a control buffer that was read.
#[tactic(auto, unfolding(ux_model::specs::Sending::send_with))]
fn send_with<O: FileObject>(
    state: &mut State<O>,
    alloc: Global,
    pid: Pid,
    tag: u64,
    id: DescriptionId,
    message: Outgoing<'_>,
    control: &Control,
) -> Result<Reply, Refusal>
    requires live { IsTrue (is_live state.old pid.0) }
    requires read { control_in message.control.now ≡ Some control.now }
    ensures { Gives state.old (as_process state.old pid.0 (λ P. model.reading_control message.entry.control.now
        (send_with_at state.old (model.sending tag pid.0 P (option_map (λ a. a.now) message.entry.addr) message.entry.bytes.now) id control.now))) result state.new }
{
    let Some(socket) = state.socket(id) else {
        return Err(Errno::EBADF.into());
    };
    if !is_sendable_control(socket, message.bytes, control) {
        return Err(Errno::EINVAL.into());
    }
    let rights = rights_behind(state.table(pid), alloc, control.rights())?;
    let cred = sent_cred(state, pid, control.cred())?;
    if !is_sendable_addr(message.addr) {
        return Err(Errno::EINVAL.into());
    }
    let draft = Draft {
        tag,
        bytes: message.bytes,
        cred,
        uid: state.credentials(pid).uid,
    };
    let limit = flight_limit(state, pid);
    send_from(state, limit, id, message.addr, draft, rights)
}

/// Sends the bytes of a process that lives from the socket of this description, as the call with number `tag`:
/// what write(2) does on a socket.
///
/// # Errors
///
/// Those of a send without an address and without rights; EBADF where the description leads to no socket.
pub fn write_socket<O: FileObject>(
    state: &mut State<O>,
    alloc: Global,
    pid: Pid,
    id: DescriptionId,
    tag: u64,
    bytes: &Bytes,
) -> Result<Reply, Refusal>
    requires { IsTrue (is_live state.old pid.0) }
    ensures { Gives state.old (write_socket_at state.old pid.0 tag id bytes.now) result state.new }
{
    let cred = state.credentials(pid);
    let draft = Draft {
        tag,
        bytes,
        cred,
        uid: cred.uid,
    };
    let limit = flight_limit(state, pid);
    send_from(state, limit, id, None, draft, RefList::new(alloc))
}

/// Sends bytes with rights from the socket of this description: a datagram to the address, where one is
/// given, else where the socket is associated; a stream or a record to the peer. So many rights of the sender's
/// user may be in flight, if that is limited.
///
/// # Errors
///
/// Those of `send_msg` after a bad address.
fn send_from<O: FileObject>(
    state: &mut State<O>,
    limit: Option<u32>,
    id: DescriptionId,
    addr: Option<&Addr>,
    draft: Draft<'_>,
    rights: RefList,
) -> Result<Reply, Refusal>
    requires { AreReferenced state.old rights }
    ensures { Gives state.old (send_from_at state.old limit id (option_map (λ a. a.now) addr.entry) (drafted draft.entry rights None)) result state.new }
{
    let Some(socket) = state.socket(id) else {
        return Err(Errno::EBADF.into());
    };
    if socket.is_datagram() {
        return send_datagram(state, limit, id, addr, draft, rights);
    }
    let peer = socket.peer();
    if addr.is_some() {
        return Err(refusal_of_addr(peer.is_some()).into());
    }
    let shut = socket.is_write_shut();
    send_connected(state, limit, shut, peer, draft, rights)
}

/// Sends bytes with rights to the peer of a stream or seqpacket socket, which is shut down for writing or not.
fn send_connected<O: FileObject>(
    state: &mut State<O>,
    limit: Option<u32>,
    shut: bool,
    peer: Option<DescriptionId>,
    draft: Draft<'_>,
    rights: RefList,
) -> Result<Reply, Refusal>
    requires { AreReferenced state.old rights }
    ensures { Gives state.old (model.send_connected state.old limit shut peer (drafted draft.entry rights None)) result state.new }
{
    let Some(peer) = peer else {
        return Err(Errno::ENOTCONN.into());
    };
    let Some(other) = state.socket(peer) else {
        return Err(Errno::EPIPE.into());
    };
    if shut || other.is_read_shut() {
        return Err(Errno::EPIPE.into());
    }
    if !other.is_stream() && draft.bytes.len() > RECORD_BYTES_LIMIT {
        return Err(Errno::EMSGSIZE.into());
    }
    if other.is_stream() && draft.bytes.is_empty() {
        return Ok(Reply::Count(0));
    }
    if is_over_limit(state, limit, draft, &rights) {
        return Err(Errno::ETOOMANYREFS.into());
    }
    let count = state.send(peer, draft, rights, None)?;
    Ok(Reply::Count(count))
}

/// Why a stream or seqpacket socket isn't sent from with an address: EISCONN where it is connected, else
/// EOPNOTSUPP.
fn refusal_of_addr(is_connected: bool) -> Errno
    ensures { result ≡ (if is_connected then ModelErrno.EISCONN else ModelErrno.EOPNOTSUPP) }
{
    if is_connected {
        Errno::EISCONN
    } else {
        Errno::EOPNOTSUPP
    }
}

/// References to what these numbers of a table lead to. EBADF where one isn't open.
fn rights_behind(table: &Table, alloc: Global, numbers: &[Fd]) -> Result<RefList, Refusal>
    ensures rights { IfOk result (λ rights. model.descriptions_behind table.now (map (λ fd. fd.0) numbers.now) ≡ Some rights) }
    ensures unsent { IfErr result (IsRefusedBehind table.now (map (λ fd. fd.0) numbers.now)) }
{
    let mut rights = RefList::new(alloc);
    let mut left = numbers;
    while let Some((fd, behind)) = left.split_first() {
        let Some(entry) = table.get(*fd) else {
            return Err(Errno::EBADF.into());
        };
        rights.push(entry.description)?;
        left = behind;
    }
    Ok(rights)
}

/// Whether a send takes this address, where one is given: a path or an abstract name.
fn is_sendable_addr(addr: Option<&Addr>) -> bool
    ensures { result ≡ model.is_sendable_addr (option_map (λ a. a.now) addr.entry) }
{
    match addr {
        Some(addr) => is_valid_addr(addr) && !is_unnamed(addr),
        None => true,
    }
}

/// The credentials that a message of a process reports: those that it gives, else its own. The process lives.
///
/// # Errors
///
/// EPERM where an unprivileged process gives others than its own, ESRCH where a privileged one gives those of a
/// process that doesn't live.
fn sent_cred<O: FileObject>(state: &State<O>, pid: Pid, given: Option<Cred>) -> Result<Cred, Errno>
    requires { IsTrue (is_live state.now pid.0) }
    ensures { IsSomeAnd (process_at state.now pid.0) (λ P. MatchResult result
        (λ cred. (model.sender_cred_refusal state.now pid.0 P given ≡ None) × (cred ≡ model.sent_cred pid.0 P given))
        (λ e. model.sender_cred_refusal state.now pid.0 P given ≡ Some e)) }
{
    let own = state.credentials(pid);
    let Some(given) = given else {
        return Ok(own);
    };
    let privileged = state.is_privileged(pid);
    let lives = state.is_live(given.pid);
    check_cred(own, privileged, given, lives)?;
    Ok(given)
}

/// How many rights the user of a process may have in flight for the process to pass more, if that is limited. The
/// process lives.
fn flight_limit<O: FileObject>(state: &State<O>, pid: Pid) -> Option<u32>
    requires { IsTrue (is_live state.now pid.0) }
    ensures { IsSomeAnd (process_at state.now pid.0) (λ P. result ≡ model.flight_limit P) }
{
    if state.is_privileged(pid) {
        None
    } else {
        Some(state.table(pid).limit())
    }
}

/// Whether a control buffer may be sent with these bytes: with few rights or none, which on a stream are sent with
/// a byte at least.
fn is_sendable_control(socket: &Socket, bytes: &Bytes, control: &Control) -> bool
    ensures { result ≡ model.is_sendable_control socket.now.kind bytes.now control.now }
{
    let rights = control.rights();
    rights.len() <= RIGHTS_LIMIT && !(socket.is_stream() && !rights.is_empty() && bytes.is_empty())
}

/// Whether a send takes these flags: DONTWAIT and EOR.
fn are_send_flags(flags: MsgFlags) -> bool
    ensures { result ≡ are_send_flags flags }
{
    MsgFlags::DONTWAIT.union(MsgFlags::EOR).contains(flags)
}
