//! `RecordQueue`.
ghost use Rattle.std.specs.Prelude.{◌≡◌, ◌↔◌, ◌==◌, ◌<◌, ◌≤◌, [], ◌∷◌, ◌++◌, length, drop, slice_get, option_map, option_copied, IsTrue, IsSome, IfOk, IfErr, IsErrAnd, OnOk, OnErr};
ghost use Rattle.ux_model.specs.Limits.{record_limit};
ghost use Rattle.ux_model.specs.Message.{queued_bytes};
ghost use Rattle.ux_model.specs.Front.{OnRecordFront};
ghost use Rattle.ux_model.specs.QueueLengths.{next_length};
ghost use Rattle.ux_record.specs.Shown.{Shows};
ghost use Rattle.ux_rights.specs.Drafts.{drafted};

use crate::record::{Peeked, Record};
use std::alloc::{AllocError, Allocator, Global};
use std::collections::VecDeque;
use std::marker::Model;
use ux_rights::{Draft, RefList, SendError};
use ux_types::{Addr, RECORD_LIMIT};

/// A send that failed, with what was to be sent.
#[derive(Drop)]
pub struct UnsentRecord {
    pub error: SendError,
    pub rights: RefList,
    /// The sender's name.
    pub from: Option<Addr>,
}

/// What was sent to a datagram or seqpacket socket and not yet received, the oldest first. Contracts see
/// the list of its messages.
pub struct RecordQueue<A: Allocator + Copy = Global> {
    records: VecDeque<Record, A>,
    /// How many bytes they have.
    bytes: usize,
}

// Written out, so that it is proved here and not in each function that drops one.
impl<A: Allocator + Copy> Drop for RecordQueue<A> {
    fn drop(self) {
        let RecordQueue { records, bytes: _ } = self;
        drop(records);
    }
}

impl<A: Allocator + Copy> Model for RecordQueue<A> {
    ghost use Rattle.std.specs.Prelude.{List};
    ghost use Rattle.ux_model.specs.Message.{Message};
    ghost use Rattle.ux_record.specs.Records.{IsCounted};

    ghost Value = { List Message };

    ghost view = { λ q. q.records.items };

    ghost invariant = { λ q. IsCounted q.records.items q.bytes };
}

impl<A: Allocator + Copy> RecordQueue<A> {
    /// A queue in which nothing waits. It takes no memory.
    pub fn new(alloc: A) -> RecordQueue<A>
        ensures { result ≡ [] }
    {
        RecordQueue {
            records: VecDeque::new(alloc),
            bytes: 0,
        }
    }

    /// How many messages wait.
    pub fn len(&self) -> usize
        ensures count { result ≡ length self.now }
        ensures bounded { result ≤ record_limit }
    {
        self.records.len()
    }

    /// How many bytes wait, in all messages.
    pub fn len_bytes(&self) -> usize
        ensures { result ≡ queued_bytes self.now }
    {
        self.bytes
    }

    /// How many bytes the oldest message has; 0 where none waits.
    pub fn first_len(&self) -> usize
        ensures { result ≡ next_length self.now }
    {
        match self.records.front() {
            Some(record) => record.len(),
            None => 0,
        }
    }

    /// The message at an index, the oldest at 0.
    pub fn get(&self, index: usize) -> Option<&Record>
        ensures { option_copied result ≡ slice_get self.now index }
    {
        self.records.get(index)
    }

    /// Whether nothing waits.
    pub fn is_empty(&self) -> bool
        ensures { result ≡ (length self.now == 0) }
    {
        self.records.is_empty()
    }

    /// Whether as many messages wait as may.
    pub fn is_full(&self) -> bool
        ensures { IsTrue result ↔ (record_limit ≤ length self.now) }
    {
        self.records.len() == RECORD_LIMIT
    }

    /// Appends one message, which may be empty, as one more owner of its bytes.
    ///
    /// # Errors
    ///
    /// `Full` exactly where as many wait as may, else `NoMemory`. The rights and the name are given back, and the
    /// queue stands as before.
    pub fn send(
        &mut self,
        draft: Draft<'_>,
        rights: RefList,
        from: Option<Addr>,
    ) -> Result<(), UnsentRecord>
        ensures ok { OnOk result (self.new ≡ self.old ++ drafted draft.entry rights from ∷ []) }
        ensures full { IsErrAnd result (λ e. e.error ≡ SendError.Full) ↔ (record_limit ≤ length self.old) }
        ensures rights_back { IfErr result (λ e. e.rights ≡ rights) }
        ensures name_back { IfErr result (λ e. e.from ≡ from) }
        ensures err { OnErr result (self.new ≡ self.old) }
    {
        if self.is_full() {
            return Err(UnsentRecord {
                error: SendError::Full,
                rights,
                from,
            });
        }
        let error = SendError::NoMemory;
        let copied: Result<_, _> = draft.bytes.clone();
        let (Some(counted), Ok(bytes)) = (self.bytes.checked_add(draft.bytes.len()), copied) else {
            return Err(UnsentRecord {
                error,
                rights,
                from,
            });
        };
        let record = Record::new(draft.tag, bytes, rights, draft.cred, draft.uid, from);
        if let Err(failed) = self.records.push_back(record) {
            let (rights, from) = failed.value.into_parts();
            return Err(UnsentRecord {
                error,
                rights,
                from,
            });
        }
        self.bytes = counted;
        Ok(())
    }

    /// What a receive of at most n bytes gives of the first message, all of which it takes off (recvmsg(2)). The queue
    /// stays as it is.
    ///
    /// # Errors
    ///
    /// Out of memory.
    pub fn peek(&self, n: usize) -> Result<Peeked, AllocError>
        requires { 0 < length self.now }
        ensures shows { IfOk result (λ r. OnRecordFront n self.now (λ f. Shows f r)) }
        ensures some_origin { IfOk result (λ r. IsSome r.origin ↔ (0 < length r.rights)) }
    {
        self.records[0].peek(n)
    }

    /// Takes the first message off, and gives its rights and the user of the process that sent it. None
    /// where nothing waits. It takes no memory.
    pub fn pop_message(&mut self) -> Option<(RefList, u32)>
        ensures first { result ≡ option_map (λ m. (m.rights, m.uid)) (slice_get self.old 0) }
        ensures rest { self.new ≡ drop 1 self.old }
    {
        let record = self.records.pop_front()?;
        self.bytes -= record.len();
        Some(record.into_rights())
    }
}
