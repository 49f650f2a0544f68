//! `StreamQueue`.
ghost use Rattle.std.specs.Prelude.{◌≡◌, ◌↔◌, ◌==◌, ◌<◌, [], ◌∷◌, ◌++◌, min, length, take, drop, slice_get, option_map, option_copied, option_and_then, None, IsSome, IfOk, IfErr, IsErrAnd, OnOk, OnErr};
ghost use Rattle.std.specs.List.{AllByRecursion};
ghost use Rattle.ux_model.specs.Message.{queued_bytes};
ghost use Rattle.ux_model.specs.Front.{OnStreamFront};
ghost use Rattle.ux_rights.specs.Drafts.{drafted};
ghost use Rattle.ux_stream.specs.Marks.{stretch_of};
ghost use Rattle.ux_stream.specs.Shown.{Shows};

use crate::byte_ring::ByteRing;
use crate::mark::Mark;
use crate::marks::{copy_rights, mark_at, reach_of, take_bytes};
use std::alloc::{AllocError, Allocator, Global};
use std::collections::VecDeque;
use std::marker::Model;
use ux_rights::{Draft, Origin, RefList, SendError};
use ux_types::{Bytes, Cred};

/// A send that failed, with what was to be sent.
#[derive(Drop)]
pub struct Unsent {
    pub error: SendError,
    pub rights: RefList,
}

/// What a receive gives of bytes that stay in their queue.
#[derive(Drop)]
pub struct PeekedBytes {
    pub bytes: Bytes,
    pub rights: RefList,
    /// The send that the rights come from, where there are any.
    pub origin: Option<Origin>,
    /// The credentials of the first message.
    pub cred: Cred,
}

/// What was sent to a stream socket and not yet received, the oldest first. Contracts see the list of
/// its messages.
pub struct StreamQueue<A: Allocator + Copy = Global> {
    /// The bytes of all messages, in order.
    ring: ByteRing<A>,
    marks: VecDeque<Mark, A>,
    alloc: A,
}

// Written out, so that it is proved here and not in each function that drops one.
impl<A: Allocator + Copy> Drop for StreamQueue<A> {
    fn drop(self) {
        let StreamQueue {
            ring,
            marks,
            alloc: _,
        } = self;
        drop(ring);
        drop(marks);
    }
}

impl<A: Allocator + Copy> Model for StreamQueue<A> {
    ghost use Rattle.std.specs.Prelude.{List};
    ghost use Rattle.ux_model.specs.Message.{Message};

    ghost Value = { List Message };

    ghost use Rattle.ux_stream.specs.Marks.{cut_by, IsQueue};

    ghost view = { λ q. cut_by q.marks.items q.ring.items };

    ghost invariant = { λ q. IsQueue q.marks.items q.ring.items };
}

impl<A: Allocator + Copy> StreamQueue<A> {
    /// A queue in which nothing waits. It takes no memory.
    pub fn new(alloc: A) -> StreamQueue<A>
        ensures { result ≡ [] }
    {
        StreamQueue {
            ring: ByteRing::new(),
            marks: VecDeque::new(alloc),
            alloc,
        }
    }

    /// Whether nothing waits.
    #[tactic(auto, using(crate::proofs::Cuts::cut_length))]
    pub fn is_empty(&self) -> bool
        ensures { result ≡ (length self.now == 0) }
    {
        self.marks.is_empty()
    }

    /// How many messages wait.
    #[tactic(auto, using(crate::proofs::Cuts::cut_length))]
    pub fn len(&self) -> usize
        ensures { result ≡ length self.now }
    {
        self.marks.len()
    }

    /// The mark of the message at an index, the oldest at 0.
    #[tactic(auto, using(crate::proofs::Cuts::cut_unnamed))]
    pub fn get(&self, index: usize) -> Option<&Mark>
        ensures mark { option_copied result ≡ option_map stretch_of (slice_get self.now index) }
        ensures unnamed { option_and_then (λ m. m.from) (slice_get self.now index) ≡ None }
    {
        mark_at(&self.marks, index)
    }

    /// How many bytes wait. Each message has one.
    #[tactic(auto, using(crate::proofs::Cuts::cut_queued, crate::proofs::Cuts::cut_some))]
    pub fn len_bytes(&self) -> usize
        ensures count { result ≡ queued_bytes self.now }
        ensures some { AllByRecursion (λ m. 0 < length m.bytes) self.now }
    {
        self.ring.len()
    }

    /// Appends one message, with as many of the bytes as there is room for, and says how many.
    ///
    /// # Errors
    ///
    /// `Full` exactly where there is no room, else `NoMemory`. The rights are given back, and the queue stands as
    /// before.
    pub fn send(&mut self, draft: Draft<'_>, room: usize, rights: RefList) -> Result<usize, Unsent>
        requires { 0 < length draft.bytes.now }
        ensures count { IfOk result (λ count. count ≡ min room (length draft.entry.bytes.now)) }
        ensures ok { OnOk result (self.new ≡ self.old ++ record (drafted draft.entry rights None) { bytes = take room draft.entry.bytes.now } ∷ []) }
        ensures full { IsErrAnd result (λ e. e.error ≡ SendError.Full) ↔ (room ≡ 0) }
        ensures given_back { IfErr result (λ e. e.rights ≡ rights) }
        ensures err { OnErr result (self.new ≡ self.old) }
    {
        if room == 0 {
            let error = SendError::Full;
            return Err(Unsent { error, rights });
        }
        let error = SendError::NoMemory;
        let bytes = draft.bytes.as_slice();
        let count = room.min(bytes.len());
        if self.ring.reserve(self.alloc, count).is_err() {
            return Err(Unsent { error, rights });
        }
        let mark = Mark::new(draft, count, rights);
        if let Err(failed) = self.marks.push_back(mark) {
            let rights = failed.value.into_rights();
            return Err(Unsent { error, rights });
        }
        self.ring.append(&bytes[..count]);
        Ok(count)
    }

    /// Takes at most n bytes off the front, and gives the rights that come with them, and the send that these come
    /// from. It joins messages up to the first with rights, and where credentials are wanted only such as have the
    /// same (unix(7)). It takes no memory.
    pub fn skip(&mut self, n: usize, wants_cred: bool) -> (RefList, Option<Origin>)
        requires { 0 < length self.old }
        ensures rights { OnStreamFront wants_cred n self.old (λ f. result.0 ≡ f.rights) }
        ensures origin { OnStreamFront wants_cred n self.old (λ f. result.1 ≡ f.origin) }
        ensures rest { OnStreamFront wants_cred n self.old (λ f. self.new ≡ f.rest) }
    {
        let reach = reach_of(&self.marks, n, wants_cred);
        self.ring.drop_front(reach.count);
        let rights = take_bytes(&mut self.marks, reach.count);
        (rights.references, rights.origin)
    }

    /// What `skip` would take off, as a receive gives it. The queue stays as it is.
    ///
    /// # Errors
    ///
    /// Out of memory.
    pub fn peek(&self, alloc: Global, n: usize, wants_cred: bool) -> Result<PeekedBytes, AllocError>
        requires { 0 < length self.now }
        ensures shows { IfOk result (λ r. OnStreamFront wants_cred n self.now (λ f. Shows f r)) }
        ensures some_origin { IfOk result (λ r. IsSome r.origin ↔ (0 < length r.rights)) }
    {
        let reach = reach_of(&self.marks, n, wants_cred);
        let bytes = self.ring.front(alloc, reach.count)?;
        let rights = copy_rights(&self.marks, reach.count)?;
        Ok(PeekedBytes {
            bytes,
            rights: rights.references,
            origin: rights.origin,
            cred: reach.cred,
        })
    }

    /// Takes the first message off, and gives its rights and the user of the process that sent it. None
    /// where nothing waits. It takes no memory.
    pub fn pop_message(&mut self) -> Option<(RefList, u32)>
        ensures first { result ≡ option_map (λ m. (m.rights, m.uid)) (slice_get self.old 0) }
        ensures rest { self.new ≡ drop 1 self.old }
    {
        let mark = self.marks.pop_front()?;
        self.ring.drop_front(mark.len());
        let uid = mark.uid();
        Some((mark.into_rights(), uid))
    }
}
