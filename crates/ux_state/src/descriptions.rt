//! Changes of one description: its flags and offset, and its socket.
ghost use Rattle.std.specs.Prelude.{◌≡◌, ◌↔◌, ◌<◌, true, false, Err, IfOk, IfErr, OnOk, OnErr, IsTrue, IsSomeAnd, length, option_map};
ghost use Rattle.ux_model.specs.Places.{place, changed_place};
ghost use Rattle.ux_model.specs.Description.{socket_in, changed};
ghost use Rattle.ux_model.specs.Socket.{is_stream, has_room, sent_part, sent, with_queue, with_reset, with_passcred, with_queue_limit, with_association, shut_down};
ghost use Rattle.ux_model.specs.Front.{OnFront};
ghost use Rattle.ux_model.specs.State.{socket_at, with_socket_by, with_description_by};
ghost use Rattle.ux_model.specs.Descriptors.{with_flags};
ghost use Rattle.ux_rights.specs.Drafts.{drafted};
ghost use Rattle.ux_state.specs.Moves.{at_offset, IsSocketAt, AreReferenced};

use crate::references::{have_room, release_all, retain_all};
use crate::state::State;
use ux_description::Description;
use ux_object::FileObject;
use ux_rights::{Draft, RefList, SendError};
use ux_slots::Slots;
use ux_types::{Addr, DescriptionId, Mode, OpenFlags};

impl<O: FileObject> State<O> {
    /// Queues a message at a socket, of a stream the bytes that there is room for, and says how many bytes
    /// (sendmsg(2)). A stream is sent some, and keeps no sender's name.
    ///
    /// # Errors
    ///
    /// `Full` exactly where there is no room, else `NoMemory`, also where no more references can be counted.
    /// The state is then as before.
    pub fn send(
        &mut self,
        id: DescriptionId,
        draft: Draft<'_>,
        rights: RefList,
        from: Option<Addr>,
    ) -> Result<usize, SendError>
        requires socket { IsSocketAt self.old id }
        requires some { IsSomeAnd (socket_at self.old id) (λ s. IsTrue (is_stream s.kind) → 0 < length draft.bytes.now) }
        requires held { AreReferenced self.old rights }
        ensures count { IfOk result (λ count. IsSomeAnd (socket_at self.old id) (λ s. count ≡ length (sent_part s (drafted draft.entry rights from)).bytes)) }
        ensures ok { OnOk result (self.new ≡ with_socket_by self.old id (sent (drafted draft.entry rights from))) }
        ensures full { (result ≡ Err SendError.Full) ↔ IsSomeAnd (socket_at self.old id) (λ s. has_room s ≡ false) }
        ensures err { OnErr result (self.new ≡ self.old) }
    {
        if !self.has_room(id) {
            return Err(SendError::Full);
        }
        if !have_room(&self.descriptions, rights.as_slice()) {
            return Err(SendError::NoMemory);
        }
        if self.flights.count_in(draft.uid, rights.len()).is_err() {
            return Err(SendError::NoMemory);
        }
        retain_all(&mut self.descriptions, rights.as_slice());
        match push_message(&mut self.descriptions, id, draft, rights, from) {
            Ok(count) => Ok(count),
            Err(rights) => {
                release_all(&mut self.descriptions, rights.as_slice());
                self.flights.count_out(draft.uid, rights.len());
                Err(SendError::NoMemory)
            }
        }
    }

    /// Whether the queue of a socket takes one more message: a stream's, a byte of it at least.
    fn has_room(&self, id: DescriptionId) -> bool
        requires { IsSocketAt self.now id }
        ensures { IsSomeAnd (socket_at self.now id) (λ s. result ≡ has_room s) }
    {
        match self.socket(id) {
            Some(socket) => socket.has_room(),
            // It is a socket, as the contract requires.
            None => unreachable!(),
        }
    }

    /// Takes off what a receive of at most n bytes takes at a socket, and closes the rights that come with
    /// it (recvmsg(2)). It takes no memory.
    pub fn skip_front(&mut self, id: DescriptionId, n: usize)
        requires some { IsSomeAnd (socket_at self.old id) (λ s. 0 < length s.queue) }
        ensures rest { IsSomeAnd (socket_at self.old id) (λ s. OnFront n s (λ f. self.new ≡ with_socket_by self.old id (with_queue f.rest))) }
    {
        let (rights, sender) = skip_message(&mut self.descriptions, id, n);
        release_all(&mut self.descriptions, rights.as_slice());
        self.flights.count_out_sent(sender, rights.len());
    }

    /// Associates a datagram socket with another, or with none (connect(2)).
    pub fn set_association(&mut self, id: DescriptionId, target: Option<DescriptionId>)
        ensures { self.new ≡ with_socket_by self.old id (with_association target) }
    {
        if let Some(x) = self.descriptions.get_mut(id) {
            x.set_association(target);
        }
    }

    /// Shuts a socket down for reading, for writing or for both (shutdown(2)).
    pub fn shut_down(&mut self, id: DescriptionId, how: Mode)
        ensures { self.new ≡ with_socket_by self.old id (shut_down how) }
    {
        if let Some(x) = self.descriptions.get_mut(id) {
            x.shut_down(how);
        }
    }

    /// A receive at a socket gets credentials from now on, or no longer (SO_PASSCRED).
    pub fn set_passcred(&mut self, id: DescriptionId, on: bool)
        ensures { self.new ≡ with_socket_by self.old id (with_passcred on) }
    {
        if let Some(x) = self.descriptions.get_mut(id) {
            x.set_passcred(on);
        }
    }

    /// Another limit of the bytes in a socket's queue. Nothing is dropped where these are more.
    pub fn set_queue_limit(&mut self, id: DescriptionId, limit: u32)
        ensures { self.new ≡ with_socket_by self.old id (with_queue_limit limit) }
    {
        if let Some(x) = self.descriptions.get_mut(id) {
            x.set_queue_limit(limit);
        }
    }

    /// ECONNRESET is pending at a socket from now on, or no longer.
    pub fn set_reset(&mut self, id: DescriptionId, on: bool)
        ensures { self.new ≡ with_socket_by self.old id (with_reset on) }
    {
        if let Some(x) = self.descriptions.get_mut(id) {
            x.set_reset(on);
        }
    }

    /// Moves the offset of a description.
    pub fn set_offset(&mut self, id: DescriptionId, offset: u64)
        ensures { self.new ≡ with_description_by self.old id (at_offset offset) }
    {
        if let Some(x) = self.descriptions.get_mut(id) {
            x.set_offset(offset);
        }
    }

    /// Sets or clears the flags that all descriptors of a description share.
    pub fn set_flags(&mut self, id: DescriptionId, flags: OpenFlags)
        ensures { self.new ≡ with_description_by self.old id (with_flags flags) }
    {
        if let Some(x) = self.descriptions.get_mut(id) {
            x.set_flags(flags);
        }
    }
}

/// Queues a message at a socket, or gives its rights back when out of memory.
fn push_message(
    slots: &mut Slots<Description>,
    id: DescriptionId,
    draft: Draft<'_>,
    rights: RefList,
    from: Option<Addr>,
) -> Result<usize, RefList>
    requires some { IsSomeAnd (socket_in (place slots.old.places id)) (λ s. IsTrue (is_stream s.kind) → 0 < length draft.bytes.now) }
    requires room { IsSomeAnd (socket_in (place slots.old.places id)) (λ s. has_room s ≡ true) }
    ensures count { IfOk result (λ count. IsSomeAnd (socket_in (place slots.old.places id)) (λ s. count ≡ length (sent_part s (drafted draft.entry rights from)).bytes)) }
    ensures places { OnOk result (slots.new.places ≡ changed_place slots.old.places id (changed (sent (drafted draft.entry rights from)))) }
    ensures counts { slots.new.counts ≡ slots.old.counts }
    ensures back { IfErr result (λ back. back ≡ rights) }
    ensures err { OnErr result (slots.new.places ≡ slots.old.places) }
{
    match slots.get_mut(id) {
        Some(x) => match x.send(draft, rights, from) {
            Ok(count) => Ok(count),
            Err(unsent) => Err(unsent.rights),
        },
        // It is a socket, as the contract requires.
        None => unreachable!(),
    }
}

/// Takes off what a receive of at most n bytes takes at a socket, and gives the rights that come with it,
/// and who sent them.
fn skip_message(
    slots: &mut Slots<Description>,
    id: DescriptionId,
    n: usize,
) -> (RefList, Option<u32>)
    requires some { IsSomeAnd (socket_in (place slots.old.places id)) (λ s. 0 < length s.queue) }
    ensures rights { IsSomeAnd (socket_in (place slots.old.places id)) (λ s. OnFront n s (λ f. result.0 ≡ f.rights)) }
    ensures sender { IsSomeAnd (socket_in (place slots.old.places id)) (λ s. OnFront n s (λ f. result.1 ≡ option_map (λ o. o.uid) f.origin)) }
    ensures rest { IsSomeAnd (socket_in (place slots.old.places id)) (λ s. OnFront n s (λ f. slots.new.places ≡ changed_place slots.old.places id (changed (with_queue f.rest)))) }
    ensures counts { slots.new.counts ≡ slots.old.counts }
{
    match slots.get_mut(id) {
        Some(x) => x.skip(n),
        // It is a socket, as the contract requires.
        None => unreachable!(),
    }
}
