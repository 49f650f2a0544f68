//! Sockets that listen, and those that are connected to them.
ghost use Rattle.std.specs.Prelude.{◌≡◌, ◌↔◌, ◌<◌, ◌≤◌, length, Some, None, Ok, Err, MatchOption, MatchResult, IsTrue, IsSome, IsSomeAnd, IfOk, OnOk, OnErr, option_and_then, slice_get};
ghost use Rattle.ux_model.specs.Backlog.{backlog_of};
ghost use Rattle.ux_model.specs.Places.{place, changed_place};
ghost use Rattle.ux_model.specs.Socket.{pending_ends, awaiting};
ghost use Rattle.ux_model.specs.Description.{socket_in, changed};
ghost use Rattle.ux_model.specs.Process.{lowest_free};
ghost use Rattle.ux_model.specs.State.{is_live, table_of, with_socket_by, with_description_by};
ghost use Rattle.ux_model.specs.Pairing.{socket_description};
ghost use Rattle.ux_model.specs.Connecting.{listener_of, with_listening, server_end, no_open_flags, tied, with_connection, peer_name};
ghost use Rattle.ux_model.specs.Types.{Addr as ModelAddr};
ghost use Rattle.ux_model.specs.Accepting.{client_name, accepted_with, without_first_end, with_accepted};
ghost use Rattle.ux_state.specs.Moves.{IsUnconnectedAt, IsNoListenerAt, IsListenerAt, OnListener, first_end};

use crate::entries::new_entry;
use crate::state::State;
use std::alloc::Global;
use ux_backlog::PushError;
use ux_description::{Description, Socket};
use ux_fdtable::InstallError;
use ux_object::FileObject;
use ux_slots::Slots;
use ux_types::{Addr, Cred, DescriptionId, Errno, Fd, OpenFlags, Pid};

impl<O: FileObject> State<O> {
    /// Has a socket listen, for a process with these credentials (listen(2)). The ends that wait at it
    /// already stay. It takes no memory.
    pub fn listen(&mut self, id: DescriptionId, backlog: i32, cred: Cred)
        requires { IsUnconnectedAt self.old id }
        ensures { self.new ≡ with_socket_by self.old id (with_listening (backlog_of backlog) cred) }
    {
        let alloc = *self.processes.allocator();
        start_listening(&mut self.descriptions, id, alloc, backlog, cred);
    }

    /// Connects a socket, whose process has these credentials, to a new end, which waits at a listener
    /// (connect(2)).
    ///
    /// # Errors
    ///
    /// `Full` exactly where as many ends wait as may, or more, else `NoMemory`. The state is then as before.
    pub fn connect(
        &mut self,
        client: DescriptionId,
        listener: DescriptionId,
        cred: Cred,
    ) -> Result<(), PushError>
        requires client { IsUnconnectedAt self.old client }
        requires no_listener { IsNoListenerAt self.old client }
        requires listener { IsListenerAt self.old listener }
        ensures ok { OnOk result (OnListener self.old listener (λ s kept. self.new ≡ with_connection self.old
            (record { client = client; client_cred = cred; listener = listener; socket = s; listener_cred = kept.cred }))) }
        ensures full { (result ≡ Err PushError.Full) ↔ OnListener self.old listener (λ s kept. kept.backlog.limit ≤ length kept.backlog.pending) }
        ensures err { OnErr result (self.new ≡ self.old) }
    {
        let (end, listener_cred) = self.new_end(client, listener, cred)?;
        self.descriptions.reserve(1)?;
        let id = self.descriptions.next_id();
        push_pending(&mut self.descriptions, listener, id)?;
        // It has a name, since the proof cites the call by it.
        let _id = self.descriptions.insert_reserved(end);
        tie(&mut self.descriptions, client, id, listener_cred);
        Ok(())
    }

    /// Opens the lowest free number of a process for the oldest end that waits at a listener, which waits
    /// no longer (accept(2)).
    ///
    /// # Errors
    ///
    /// `Full` where no number is free, else `NoMemory`, also where no more references can be counted. The
    /// state is then as before, and the end waits still.
    pub fn accept(
        &mut self,
        pid: Pid,
        listener: DescriptionId,
        flags: OpenFlags,
    ) -> Result<Fd, InstallError>
        requires live { IsTrue (is_live self.old pid.0) }
        requires waits { IsSome (first_end self.old listener) }
        ensures lowest { IfOk result (λ fd. lowest_free (table_of self.old pid.0) ≡ Some fd.0) }
        ensures accepted { IfOk result (λ fd. IsSomeAnd (first_end self.old listener) (λ e. self.new
            ≡ with_accepted self.old (record { process = pid.0; number = fd.0; flags = flags; listener = listener; oldest = e }))) }
        ensures full { (result ≡ Err InstallError.Full) ↔ (lowest_free (table_of self.old pid.0) ≡ None) }
        ensures err { OnErr result (self.new ≡ self.old) }
    {
        let Some(end) = self.first_pending(listener) else {
            // An end waits, as the contract requires.
            unreachable!();
        };
        // Its new descriptor counts before the listener no longer does.
        let fd = self.put_lowest(pid, new_entry(flags, end))?;
        self.pop_pending(listener);
        self.set_accepted(end, flags);
        Ok(fd)
    }

    /// The oldest end that waits at a socket, if one does.
    pub fn first_pending(&self, id: DescriptionId) -> Option<DescriptionId>
        ensures { result ≡ first_end self.now id }
    {
        let Some(socket) = self.socket(id) else {
            return None;
        };
        match socket.backlog() {
            Some(backlog) => backlog.first(),
            None => None,
        }
    }

    /// The name that the client of a server's end has now (accept(2)). None where the client is gone, which
    /// has the unnamed address.
    pub fn client_name(&self, end: DescriptionId) -> Option<&Addr>
        ensures { MatchOption result (client_name self.now end ≡ ModelAddr.Unnamed) (λ name. client_name self.now end ≡ name.now) }
    {
        let Some(socket) = self.socket(end) else {
            return None;
        };
        let Some(client) = socket.peer() else {
            return None;
        };
        match self.socket(client) {
            Some(other) => Some(other.name()),
            None => None,
        }
    }

    /// The name of the socket that one is connected to or associated with (getpeername(2)).
    ///
    /// # Errors
    ///
    /// ENOTCONN where it is neither, or the other is gone.
    pub fn peer_name(&self, socket: &Socket) -> Result<&Addr, Errno>
        ensures { MatchResult result (λ name. peer_name self.now socket.now.phase ≡ Ok name.now) (λ e. peer_name self.now socket.now.phase ≡ Err e) }
    {
        let Some(other) = socket.tied_socket() else {
            return Err(Errno::ENOTCONN);
        };
        match self.socket(other) {
            Some(other) => Ok(other.name()),
            None => Err(Errno::ENOTCONN),
        }
    }

    /// The end that a listener gets of a new connection to a client, and the credentials of the listener's
    /// process.
    fn new_end(
        &self,
        client: DescriptionId,
        listener: DescriptionId,
        cred: Cred,
    ) -> Result<(Description, Cred), PushError>
        requires { IsListenerAt self.now listener }
        ensures end { IfOk result (λ r. OnListener self.now listener (λ s kept. r.0 ≡ socket_description no_open_flags (server_end s client cred))) }
        ensures cred { IfOk result (λ r. OnListener self.now listener (λ s kept. r.1 ≡ kept.cred)) }
        ensures full { (result ≡ Err PushError.Full) ↔ OnListener self.now listener (λ s kept. kept.backlog.limit ≤ length kept.backlog.pending) }
    {
        let Some(socket) = self.socket(listener) else {
            // It is a listener, as the contract requires.
            unreachable!();
        };
        let (Some(backlog), Some(listener_cred)) = (socket.backlog(), socket.listener_cred()) else {
            // It is a listener, as the contract requires.
            unreachable!();
        };
        // A full backlog comes before ENOMEM.
        if backlog.is_full() {
            return Err(PushError::Full);
        }
        let alloc = *self.processes.allocator();
        let end = socket.server_end(alloc, client, cred)?;
        Ok((Description::of_socket(OpenFlags(0), end), listener_cred))
    }

    /// An accept has taken an end, and sets these flags.
    fn set_accepted(&mut self, id: DescriptionId, flags: OpenFlags)
        ensures { self.new ≡ with_description_by self.old id (accepted_with flags) }
    {
        if let Some(x) = self.descriptions.get_mut(id) {
            x.set_accepted(flags);
        }
    }

    /// The oldest end that waits at a socket no longer does.
    fn pop_pending(&mut self, id: DescriptionId)
        ensures { self.new ≡ with_socket_by self.old id without_first_end }
    {
        if let Some(end) = pop_first(&mut self.descriptions, id) {
            self.descriptions.release_ref(end);
        }
    }
}

/// Has a socket listen.
fn start_listening(
    slots: &mut Slots<Description>,
    id: DescriptionId,
    alloc: Global,
    backlog: i32,
    cred: Cred,
)
    ensures places { slots.new.places ≡ changed_place slots.old.places id (changed (with_listening (backlog_of backlog) cred)) }
    ensures counts { slots.new.counts ≡ slots.old.counts }
{
    if let Some(x) = slots.get_mut(id) {
        x.listen(alloc, backlog, cred);
    }
}

/// One more end waits at a listener.
fn push_pending(
    slots: &mut Slots<Description>,
    id: DescriptionId,
    end: DescriptionId,
) -> Result<(), PushError>
    requires { IsSomeAnd (socket_in (place slots.old.places id)) (λ s. IsSome (listener_of s.phase)) }
    ensures places { OnOk result (slots.new.places ≡ changed_place slots.old.places id (changed (awaiting end))) }
    ensures full { (result ≡ Err PushError.Full) ↔
        IsSomeAnd (socket_in (place slots.old.places id)) (λ s. IsSomeAnd (listener_of s.phase) (λ kept. kept.backlog.limit ≤ length kept.backlog.pending)) }
    ensures err { OnErr result (slots.new.places ≡ slots.old.places) }
    ensures counts { slots.new.counts ≡ slots.old.counts }
    ensures room { slots.new.room ≡ slots.old.room }
{
    match slots.get_mut(id) {
        Some(x) => x.push_pending(end),
        // It is a listener, as the contract requires.
        None => unreachable!(),
    }
}

/// Takes the oldest end off that waits at a socket, if one does.
fn pop_first(slots: &mut Slots<Description>, id: DescriptionId) -> Option<DescriptionId>
    ensures first { result ≡ option_and_then (λ s. slice_get (pending_ends s.phase) 0) (socket_in (place slots.old.places id)) }
    ensures places { slots.new.places ≡ changed_place slots.old.places id (changed without_first_end) }
    ensures counts { slots.new.counts ≡ slots.old.counts }
{
    match slots.get_mut(id) {
        Some(x) => x.pop_pending(),
        None => None,
    }
}

/// Connects a socket to that of another description, whose process has these credentials.
fn tie(slots: &mut Slots<Description>, id: DescriptionId, peer: DescriptionId, cred: Cred)
    ensures places { slots.new.places ≡ changed_place slots.old.places id (changed (tied peer cred)) }
    ensures counts { slots.new.counts ≡ slots.old.counts }
{
    if let Some(x) = slots.get_mut(id) {
        x.tie(peer, cred);
    }
}
