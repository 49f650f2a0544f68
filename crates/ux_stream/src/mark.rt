//! The mark of a message.
ghost use Rattle.std.specs.Prelude.{◌≡◌, ◌-◌, ◌<◌, ◌≤◌, ◌==◌, ◌&&◌, not, [], length, IfOk};
ghost use Rattle.ux_model.specs.Message.{same_cred};
ghost use Rattle.ux_stream.specs.Marks.{origin_at};

use std::alloc::AllocError;
use std::marker::Model;
use ux_rights::{Draft, Origin, RefList, Reference};
use ux_types::Cred;

/// What is known of a message beside its bytes, which lie in the ring of its queue.
#[derive(Drop)]
pub struct Mark {
    tag: u64,
    /// How many of the ring's bytes are its own.
    count: usize,
    rights: RefList,
    cred: Cred,
    uid: u32,
}

impl Model for Mark {
    ghost use Rattle.ux_stream.specs.Marks.{Stretch};

    ghost Value = { Stretch };

    ghost view = { λ m. record { tag = m.tag; count = m.count; rights = m.rights; cred = m.cred; uid = m.uid } };
}

impl Mark {
    /// The mark of a message with so many bytes of a draft, and these rights.
    pub fn new(draft: Draft<'_>, count: usize, rights: RefList) -> Mark
        ensures { result ≡ record { tag = draft.entry.tag; count = count; rights = rights; cred = draft.entry.cred; uid = draft.entry.uid } }
    {
        Mark {
            tag: draft.tag,
            count,
            rights,
            cred: draft.cred,
            uid: draft.uid,
        }
    }

    /// The number of the call that sent it.
    pub fn tag(&self) -> u64
        ensures { result ≡ self.now.tag }
    {
        self.tag
    }

    /// How many bytes are left.
    pub fn len(&self) -> usize
        ensures { result ≡ self.now.count }
    {
        self.count
    }

    /// The rights, in order.
    pub fn rights(&self) -> &[Reference]
        ensures { result.now ≡ self.now.rights }
    {
        self.rights.as_slice()
    }

    /// The credentials.
    pub fn cred(&self) -> Cred
        ensures { result ≡ self.now.cred }
    {
        self.cred
    }

    /// The user of the sending process.
    pub fn uid(&self) -> u32
        ensures { result ≡ self.now.uid }
    {
        self.uid
    }

    /// Whether a receive that wants credentials doesn't join it to messages with these.
    pub fn is_apart(&self, wants_cred: bool, cred: Cred) -> bool
        ensures { result ≡ (wants_cred && not (same_cred self.now.cred cred)) }
    {
        wants_cred && self.cred != cred
    }

    /// Whether it carries no rights.
    pub fn is_plain(&self) -> bool
        ensures { result ≡ (length self.now.rights == 0) }
    {
        self.rights.is_empty()
    }

    /// The send that its rights come from, where it has some.
    pub fn origin(&self) -> Option<Origin>
        ensures { result ≡ origin_at self.now }
    {
        if self.is_plain() {
            return None;
        }
        Some(Origin {
            tag: self.tag,
            uid: self.uid,
        })
    }

    /// No rights.
    pub fn no_rights(&self) -> RefList
        ensures { result ≡ [] }
    {
        self.rights.empty_like()
    }

    /// A copy of the rights.
    pub fn copy_rights(&self) -> Result<RefList, AllocError>
        ensures { IfOk result (λ r. r ≡ self.now.rights) }
    {
        self.rights.clone()
    }

    /// The rights, out of the mark.
    pub fn take_rights(&mut self) -> RefList
        ensures rights { result ≡ self.old.rights }
        ensures left { self.new ≡ record self.old { rights = [] } }
    {
        self.rights.take()
    }

    /// The rights of a mark that isn't needed.
    pub fn into_rights(self) -> RefList
        ensures { result ≡ self.rights }
    {
        self.rights
    }

    /// Takes bytes off.
    pub fn cut(&mut self, n: usize)
        requires { n ≤ self.old.count }
        ensures { self.new ≡ record self.old { count = self.old.count - n } }
    {
        self.count -= n;
    }
}
