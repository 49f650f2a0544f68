//! One message that waits, and what a receive gives of it.
ghost use Rattle.std.specs.Prelude.{◌≡◌, ◌<◌, ◌↔◌, length, take, option_copied, IsSome, IfOk};
ghost use Rattle.ux_model.specs.Stream.{origin_of};

use std::alloc::AllocError;
use std::marker::Model;
use ux_rights::{Origin, RefList, Reference};
use ux_types::{Addr, Bytes, Cred};

/// What a receive gives of a message that stays in its queue.
#[derive(Drop)]
pub struct Peeked {
    /// The message's first bytes, no more than were asked for.
    pub bytes: Bytes,
    /// How many bytes the message had. With more than were asked for it is truncated (MSG_TRUNC of
    /// recvmsg(2)).
    pub whole: usize,
    pub rights: RefList,
    /// The send that the rights come from, where there are any.
    pub origin: Option<Origin>,
    pub cred: Cred,
    /// The sender's name at the time of sending, of a datagram.
    pub from: Option<Addr>,
}

/// A whole message.
#[derive(Drop)]
pub struct Record {
    tag: u64,
    bytes: Bytes,
    rights: RefList,
    cred: Cred,
    uid: u32,
    from: Option<Addr>,
}

impl Model for Record {
    ghost use Rattle.ux_model.specs.Message.{Message};

    ghost Value = { Message };

    ghost view = { λ r. record { tag = r.tag; bytes = r.bytes; rights = r.rights; cred = r.cred; uid = r.uid; from = r.from } };
}

impl Record {
    /// A message of the call with this number.
    pub fn new(
        tag: u64,
        bytes: Bytes,
        rights: RefList,
        cred: Cred,
        uid: u32,
        from: Option<Addr>,
    ) -> Record
        ensures { result ≡ record { tag = tag; bytes = bytes; rights = rights; cred = cred; uid = uid; from = from } }
    {
        Record {
            tag,
            bytes,
            rights,
            cred,
            uid,
            from,
        }
    }

    /// The number of the call that sent it.
    pub fn tag(&self) -> u64
        ensures { result ≡ self.now.tag }
    {
        self.tag
    }

    /// How many bytes it has.
    pub fn len(&self) -> usize
        ensures { result ≡ length self.now.bytes }
    {
        self.bytes.len()
    }

    /// The rights, in order.
    pub fn rights(&self) -> &[Reference]
        ensures { result.now ≡ self.now.rights }
    {
        self.rights.as_slice()
    }

    /// The credentials.
    pub fn cred(&self) -> Cred
        ensures { result ≡ self.now.cred }
    {
        self.cred
    }

    /// The user of the sending process.
    pub fn uid(&self) -> u32
        ensures { result ≡ self.now.uid }
    {
        self.uid
    }

    /// The sender's name at the time of sending, of a datagram.
    pub fn from(&self) -> Option<&Addr>
        ensures { option_copied result ≡ self.now.from }
    {
        self.from.as_ref()
    }

    /// The send that its rights come from, where it has some.
    fn origin(&self) -> Option<Origin>
        ensures { result ≡ origin_of self.now }
    {
        if self.rights.is_empty() {
            return None;
        }
        Some(Origin {
            tag: self.tag,
            uid: self.uid,
        })
    }

    /// What a receive of at most n bytes gives. The message stays where it is.
    pub fn peek(&self, n: usize) -> Result<Peeked, AllocError>
        ensures bytes { IfOk result (λ r. r.bytes ≡ take n self.now.bytes) }
        ensures whole { IfOk result (λ r. r.whole ≡ length self.now.bytes) }
        ensures rights { IfOk result (λ r. r.rights ≡ self.now.rights) }
        ensures origin { IfOk result (λ r. r.origin ≡ origin_of self.now) }
        ensures cred { IfOk result (λ r. r.cred ≡ self.now.cred) }
        ensures from { IfOk result (λ r. r.from ≡ self.now.from) }
    {
        Ok(Peeked {
            bytes: self.bytes.clone()?.first(n),
            whole: self.bytes.len(),
            rights: self.rights.clone()?,
            origin: self.origin(),
            cred: self.cred,
            from: self.from.clone()?,
        })
    }

    /// The rights of a message that isn't needed, and the user of the process that sent it.
    pub fn into_rights(self) -> (RefList, u32)
        ensures { result ≡ (self.rights, self.uid) }
    {
        (self.rights, self.uid)
    }

    /// The rights and the sender's name of a message that isn't sent.
    pub fn into_parts(self) -> (RefList, Option<Addr>)
        ensures { result ≡ (self.rights, self.from) }
    {
        (self.rights, self.from)
    }
}
