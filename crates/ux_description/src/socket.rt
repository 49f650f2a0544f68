//! A socket.
ghost use Rattle.std.specs.Prelude.{◌≡◌, ◌↔◌, ◌==◌, ◌<◌, ◌≤◌, ◌-◌, [], ◌∷◌, ◌++◌, length, drop, false, Some, None, IsTrue, IfOk, IfErr, IsErrAnd, OnOk, OnErr, option_map, slice_get};
ghost use Rattle.ux_model.specs.Limits.{record_limit};
ghost use Rattle.ux_model.specs.Message.{queued_bytes};
ghost use Rattle.ux_model.specs.Socket.{is_stream, is_dgram, new_socket, pair_end, peer_of, association_of, tied_socket, takes_from, pending_ends, has_room, sent_part, sent, with_queue, with_reset, with_passcred, with_queue_limit, with_association, shut_down};
ghost use Rattle.ux_model.specs.Front.{OnStreamFront, OnRecordFront, OnFront};
ghost use Rattle.ux_model.specs.Accepting.{without_first_end};
ghost use Rattle.ux_model.specs.Release.{resets_peer};
ghost use Rattle.ux_record.specs.Shown.{Shows};
ghost use Rattle.ux_rights.specs.Drafts.{drafted};

use crate::phase::Phase;
use crate::queue::Queue;
use std::alloc::{AllocError, Global};
use std::marker::Model;
use ux_record::{Peeked, RecordQueue};
use ux_rights::{Draft, RefList, SendError};
use ux_stream::{StreamQueue, Unsent};
use ux_types::{Addr, Cred, DescriptionId, FIRST_QUEUE_LIMIT, Mode, SockType};

/// A socket, without what its descriptors and its description say (unix(7)).
pub struct Socket {
    pub(crate) phase: Phase,
    /// What was sent to it, by its type.
    pub(crate) queue: Queue,
    pub(crate) name: Addr,
    /// SO_PASSCRED.
    passcred: bool,
    read_shut: bool,
    write_shut: bool,
    /// SO_PEERCRED, where a peer's credentials were recorded.
    pub(crate) peer_cred: Option<Cred>,
    /// ECONNRESET is pending.
    reset: bool,
    /// False of a server's end that no accept has taken.
    pub(crate) accepted: bool,
    /// How many bytes its queue takes, if it is a stream socket.
    queue_limit: u32,
}

// Written out, so that it is proved here and not in each function that drops one.
impl Drop for Socket {
    fn drop(self) {
        let Socket {
            phase,
            queue,
            name,
            passcred: _,
            read_shut: _,
            write_shut: _,
            peer_cred: _,
            reset: _,
            accepted: _,
            queue_limit: _,
        } = self;
        drop(phase);
        drop(queue);
        drop(name);
    }
}

impl Model for Socket {
    ghost use Rattle.ux_model.specs.Socket as model;
    ghost use Rattle.ux_description.specs.Views.{phase_of, kind_of, messages_of};

    ghost Value = { model.Socket };

    ghost view = { λ s. record {
      kind = kind_of s.queue;
      phase = phase_of s.phase;
      queue = messages_of s.queue;
      name = s.name;
      passcred = s.passcred;
      read_shut = s.read_shut;
      write_shut = s.write_shut;
      peer_cred = s.peer_cred;
      reset = s.reset;
      accepted = s.accepted;
      queue_limit = s.queue_limit;
    } };
}

impl Socket {
    /// A new socket of this type that is tied to nobody (socket(2)).
    pub fn new(alloc: Global, kind: SockType) -> Socket
        ensures { result ≡ new_socket kind }
    {
        Socket {
            phase: Phase::Idle,
            queue: Queue::new(alloc, kind),
            name: Addr::Unnamed,
            passcred: false,
            read_shut: false,
            write_shut: false,
            peer_cred: None,
            reset: false,
            accepted: true,
            queue_limit: FIRST_QUEUE_LIMIT,
        }
    }

    /// One end of a pair that a process with these credentials makes (socketpair(2)): connected to the
    /// other, or for datagrams associated with it.
    pub fn pair_end(alloc: Global, kind: SockType, peer: DescriptionId, cred: Cred) -> Socket
        ensures { result ≡ pair_end kind peer cred }
    {
        let mut socket = Socket::new(alloc, kind);
        socket.phase = match kind {
            SockType::Dgram => Phase::Associated(peer),
            SockType::Stream | SockType::Seq => Phase::Connected(peer),
        };
        socket.peer_cred = Some(cred);
        socket
    }

    /// Its type.
    pub fn kind(&self) -> SockType
        ensures { result ≡ self.now.kind }
    {
        match &self.queue {
            Queue::Stream(_) => SockType::Stream,
            Queue::Dgram(_) => SockType::Dgram,
            Queue::Seq(_) => SockType::Seq,
        }
    }

    /// Whether it is a stream socket.
    pub fn is_stream(&self) -> bool
        ensures { result ≡ is_stream self.now.kind }
    {
        matches!(&self.queue, Queue::Stream(_))
    }

    /// Whether it is a datagram socket.
    pub fn is_datagram(&self) -> bool
        ensures { result ≡ is_dgram self.now.kind }
    {
        matches!(&self.queue, Queue::Dgram(_))
    }

    /// The description of the socket that it is connected to, which may be gone.
    pub fn peer(&self) -> Option<DescriptionId>
        ensures { result ≡ peer_of self.now.phase }
    {
        match &self.phase {
            Phase::Connected(peer) => Some(*peer),
            _ => None,
        }
    }

    /// The description of the socket that it is associated with, which may be gone.
    pub fn association(&self) -> Option<DescriptionId>
        ensures { result ≡ association_of self.now.phase }
    {
        match &self.phase {
            Phase::Associated(target) => Some(*target),
            _ => None,
        }
    }

    /// The description of the socket that it is connected to or associated with, which may be gone.
    pub fn tied_socket(&self) -> Option<DescriptionId>
        ensures { result ≡ tied_socket self.now.phase }
    {
        match &self.phase {
            Phase::Connected(other) | Phase::Associated(other) => Some(*other),
            _ => None,
        }
    }

    /// Whether it takes datagrams from the socket of this description: an associated one does from its
    /// target alone.
    pub fn takes_from(&self, sender: DescriptionId) -> bool
        ensures { result ≡ takes_from sender self.now.phase }
    {
        match self.association() {
            Some(target) => target == sender,
            None => true,
        }
    }

    /// Its name.
    pub fn name(&self) -> &Addr
        ensures { result.now ≡ self.now.name }
    {
        &self.name
    }

    /// Whether a receive gets credentials (SO_PASSCRED).
    pub fn passcred(&self) -> bool
        ensures { result ≡ self.now.passcred }
    {
        self.passcred
    }

    /// How many bytes its queue takes, if it is a stream socket.
    pub fn queue_limit(&self) -> u32
        ensures { result ≡ self.now.queue_limit }
    {
        self.queue_limit
    }

    /// The credentials that were recorded of its peer (SO_PEERCRED).
    pub fn peer_cred(&self) -> Option<Cred>
        ensures { result ≡ self.now.peer_cred }
    {
        self.peer_cred
    }

    /// Whether it is shut down for reading.
    pub fn is_read_shut(&self) -> bool
        ensures { result ≡ self.now.read_shut }
    {
        self.read_shut
    }

    /// Whether it is shut down for writing.
    pub fn is_write_shut(&self) -> bool
        ensures { result ≡ self.now.write_shut }
    {
        self.write_shut
    }

    /// Whether ECONNRESET is pending.
    pub fn reset(&self) -> bool
        ensures { result ≡ self.now.reset }
    {
        self.reset
    }

    /// Whether nothing waits to be received.
    pub fn is_empty(&self) -> bool
        ensures { result ≡ (length self.now.queue == 0) }
    {
        match &self.queue {
            Queue::Stream(queue) => queue.is_empty(),
            Queue::Dgram(queue) => queue.is_empty(),
            Queue::Seq(queue) => queue.is_empty(),
        }
    }

    /// Whether its loss resets its peer: it has unread messages, or was never accepted.
    pub fn resets_peer(&self) -> bool
        ensures { result ≡ resets_peer (Some self.now) }
    {
        !self.is_empty() || !self.accepted
    }

    /// Whether it takes one more message: a stream, a byte of it at least.
    pub fn has_room(&self) -> bool
        ensures { result ≡ has_room self.now }
    {
        match &self.queue {
            Queue::Stream(queue) => room_of(queue, self.queue_limit) != 0,
            Queue::Dgram(queue) => !queue.is_full(),
            Queue::Seq(queue) => !queue.is_full(),
        }
    }

    /// Queues a message, of a stream the bytes that there is room for, and says how many bytes. A stream is
    /// sent some, and keeps no sender's name.
    ///
    /// # Errors
    ///
    /// `Full` exactly where there is no room, else `NoMemory`. The rights are given back, and the socket stands as
    /// before.
    pub fn send(
        &mut self,
        draft: Draft<'_>,
        rights: RefList,
        from: Option<Addr>,
    ) -> Result<usize, Unsent>
        requires some { IsTrue (is_stream self.old.kind) → 0 < length draft.bytes.now }
        ensures count { IfOk result (λ count. count ≡ length (sent_part self.old (drafted draft.entry rights from)).bytes) }
        ensures ok { OnOk result (self.new ≡ sent (drafted draft.entry rights from) self.old) }
        ensures full { IsErrAnd result (λ e. e.error ≡ SendError.Full) ↔ (has_room self.old ≡ false) }
        ensures given_back { IfErr result (λ e. e.rights ≡ rights) }
        ensures err { OnErr result (self.new ≡ self.old) }
    {
        match &mut self.queue {
            Queue::Stream(queue) => {
                let room = room_of(queue, self.queue_limit);
                queue.send(draft, room, rights)
            }
            Queue::Dgram(queue) => send_whole(queue, draft, rights, from),
            Queue::Seq(queue) => send_whole(queue, draft, rights, from),
        }
    }

    /// What a receive of at most n bytes gives: of a stream the first bytes that wait, with the rights and
    /// the credentials that come with them, else the first message. The socket stays as it is.
    ///
    /// # Errors
    ///
    /// Out of memory.
    pub fn peek(&self, alloc: Global, n: usize) -> Result<Peeked, AllocError>
        requires some { 0 < length self.now.queue }
        ensures { IfOk result (λ r. OnFront n self.now (λ f. Shows f r)) }
    {
        match &self.queue {
            Queue::Stream(queue) => peek_stream(queue, alloc, n, self.passcred),
            Queue::Dgram(queue) => queue.peek(n),
            Queue::Seq(queue) => queue.peek(n),
        }
    }

    /// Takes off what `peek` shows, and of a message what it doesn't show, and gives the rights, and the user
    /// who sent them where there are any. It takes no memory.
    pub fn skip(&mut self, n: usize) -> (RefList, Option<u32>)
        requires some { 0 < length self.old.queue }
        ensures rights { OnFront n self.old (λ f. result.0 ≡ f.rights) }
        ensures sender { OnFront n self.old (λ f. result.1 ≡ option_map (λ o. o.uid) f.origin) }
        ensures rest { OnFront n self.old (λ f. self.new ≡ with_queue f.rest self.old) }
    {
        match &mut self.queue {
            Queue::Stream(queue) => skip_stream(queue, n, self.passcred),
            Queue::Dgram(queue) => first_rights(queue),
            Queue::Seq(queue) => first_rights(queue),
        }
    }

    /// Takes the first message off, and gives its rights and the user who sent it. It takes no memory.
    pub fn pop_message(&mut self) -> Option<(RefList, u32)>
        ensures first { result ≡ option_map (λ m. (m.rights, m.uid)) (slice_get self.old.queue 0) }
        ensures rest { self.new ≡ with_queue (drop 1 self.old.queue) self.old }
    {
        match &mut self.queue {
            Queue::Stream(queue) => queue.pop_message(),
            Queue::Dgram(queue) => queue.pop_message(),
            Queue::Seq(queue) => queue.pop_message(),
        }
    }

    /// Takes the oldest of the ends that wait for accept off. It takes no memory.
    pub fn pop_pending(&mut self) -> Option<DescriptionId>
        ensures first { result ≡ slice_get (pending_ends self.old.phase) 0 }
        ensures rest { pending_ends self.new.phase ≡ drop 1 (pending_ends self.old.phase) }
        ensures queue { self.new.queue ≡ self.old.queue }
        ensures others { self.new ≡ without_first_end self.old }
    {
        match &mut self.phase {
            Phase::Listening(listener) => listener.backlog.pop(),
            _ => None,
        }
    }

    /// Associates a datagram socket with the socket of a description, or with none (connect(2)).
    pub fn set_association(&mut self, target: Option<DescriptionId>)
        ensures { self.new ≡ with_association target self.old }
    {
        match &self.phase {
            Phase::Idle | Phase::Associated(_) => {}
            _ => return,
        }
        self.phase = match target {
            Some(target) => Phase::Associated(target),
            None => Phase::Idle,
        };
    }

    /// Shuts it down for reading, for writing or for both (shutdown(2)). What was shut down stays so.
    pub fn shut_down(&mut self, how: Mode)
        ensures { self.new ≡ shut_down how self.old }
    {
        self.read_shut = self.read_shut || how.can_read();
        self.write_shut = self.write_shut || how.can_write();
    }

    /// A receive gets credentials from now on, or no longer (SO_PASSCRED).
    pub fn set_passcred(&mut self, on: bool)
        ensures { self.new ≡ with_passcred on self.old }
    {
        self.passcred = on;
    }

    /// Another limit of the bytes in its queue, if it is a stream socket. Nothing is dropped where these are more.
    pub fn set_queue_limit(&mut self, limit: u32)
        ensures { self.new ≡ with_queue_limit limit self.old }
    {
        self.queue_limit = limit;
    }

    /// ECONNRESET is pending from now on, or no longer.
    pub fn set_reset(&mut self, on: bool)
        ensures { self.new ≡ with_reset on self.old }
    {
        self.reset = on;
    }
}

/// The bytes that a stream's queue with this limit still takes: none where it has more.
fn room_of(queue: &StreamQueue, limit: u32) -> usize
    ensures { result ≡ limit - queued_bytes queue.now }
{
    (limit as usize).saturating_sub(queue.len_bytes())
}

/// Queues a message whole, and says how many bytes it has.
fn send_whole(
    queue: &mut RecordQueue,
    draft: Draft<'_>,
    rights: RefList,
    from: Option<Addr>,
) -> Result<usize, Unsent>
    ensures count { IfOk result (λ count. count ≡ length draft.entry.bytes.now) }
    ensures ok { OnOk result (queue.new ≡ queue.old ++ drafted draft.entry rights from ∷ []) }
    ensures full { IsErrAnd result (λ e. e.error ≡ SendError.Full) ↔ (record_limit ≤ length queue.old) }
    ensures given_back { IfErr result (λ e. e.rights ≡ rights) }
    ensures err { OnErr result (queue.new ≡ queue.old) }
{
    match queue.send(draft, rights, from) {
        Ok(()) => Ok(draft.bytes.len()),
        Err(unsent) => Err(Unsent {
            error: unsent.error,
            rights: unsent.rights,
        }),
    }
}

/// What a receive of at most n bytes gives of a stream.
fn peek_stream(
    queue: &StreamQueue,
    alloc: Global,
    n: usize,
    wants_cred: bool,
) -> Result<Peeked, AllocError>
    requires { 0 < length queue.now }
    ensures { IfOk result (λ r. OnStreamFront wants_cred n queue.now (λ f. Shows f r)) }
{
    let front = queue.peek(alloc, n, wants_cred)?;
    Ok(Peeked {
        whole: front.bytes.len(),
        bytes: front.bytes,
        rights: front.rights,
        origin: front.origin,
        cred: front.cred,
        from: None,
    })
}

/// Takes off what a receive of at most n bytes takes of a stream, and gives the rights and who sent them.
fn skip_stream(queue: &mut StreamQueue, n: usize, wants_cred: bool) -> (RefList, Option<u32>)
    requires { 0 < length queue.old }
    ensures rights { OnStreamFront wants_cred n queue.old (λ f. result.0 ≡ f.rights) }
    ensures sender { OnStreamFront wants_cred n queue.old (λ f. result.1 ≡ option_map (λ o. o.uid) f.origin) }
    ensures rest { OnStreamFront wants_cred n queue.old (λ f. queue.new ≡ f.rest) }
{
    let (rights, origin) = queue.skip(n, wants_cred);
    match origin {
        Some(origin) => (rights, Some(origin.uid)),
        None => (rights, None),
    }
}

/// Takes the first message off a queue in which one waits, and gives its rights and who sent them.
fn first_rights(queue: &mut RecordQueue) -> (RefList, Option<u32>)
    requires { 0 < length queue.old }
    ensures rights { OnRecordFront 0 queue.old (λ f. result.0 ≡ f.rights) }
    ensures sender { OnRecordFront 0 queue.old (λ f. result.1 ≡ option_map (λ o. o.uid) f.origin) }
    ensures rest { OnRecordFront 0 queue.old (λ f. queue.new ≡ f.rest) }
{
    match queue.pop_message() {
        Some((rights, _)) if rights.is_empty() => (rights, None),
        Some((rights, uid)) => (rights, Some(uid)),
        // One waits, as the contract requires.
        None => unreachable!(),
    }
}
