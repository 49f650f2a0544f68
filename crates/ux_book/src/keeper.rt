//! What a book keeps of its entries: all of them, or none.
ghost use Rattle.std.specs.Prelude.{◌≡◌, ◌≢◌, ◌+◌, ◌-◌, ◌^◌, ◌<◌, ◌≤◌, ◌++◌, ◌∷◌, [], ℕ, List, Some, length, vec_len, vec_capacity, OnOk, IfOk, IfErr, IsSomeAnd};
ghost use Rattle.ux_model.specs.Types.{Request, Reply, Entry};
ghost use Rattle.ux_model.specs.Rooms.{size_of, room_for, Fits};
ghost use Rattle.ux_book.specs.declared.fault.CallFault.{CallFault};
ghost use Rattle.ux_book.specs.Keeping.{IsReady};

use crate::fault::CallFault;
use std::alloc::{AllocError, Global};
use ux_reply_room::ReplyRoom;
use ux_types::{Done, Entry, Pid, Released, Request};

/// What keeps the entries of a book, or counts them.
pub trait Keeper: Drop {
    ghost use Rattle.std.specs.Prelude.{◌≡◌, false, ℕ, List};
    ghost use Rattle.ux_model.specs.Types.{Request, Entry};
    ghost use Rattle.ux_book.specs.Faults.{is_deadlock};
    ghost use Rattle.ux_book.specs.declared.fault.CallFault.{CallFault};

    /// What it says of the entries.
    ghost keeps: { Self → List Entry → Type 0 };

    /// For how many more entries it has room.
    ghost room: { Self → ℕ };

    /// All is there that the entry of this request takes.
    ghost ready: { Self → Request → Type 0 };

    /// Why it has no room for one more, after so many entries.
    ghost cannot_keep: { ℕ → CallFault → Type 0 };

    /// How many entries there are.
    fn count(&self) -> usize
        ensures count { (es : List Entry) → keeps self.now es → result ≡ length es }
        ensures within { result + room self.now < 2 ^ 64 };

    /// Makes all ready for the entry of this request, and room for so many entries.
    ///
    /// # Errors
    ///
    /// As `cannot_keep` has it; what it keeps is as before.
    fn prepare(&mut self, request: &Request, count: usize) -> Result<(), CallFault>
        requires few { count ≤ 1027 }
        ensures ready { OnOk result (ready self.new request.now) }
        ensures room { OnOk result (count ≤ room self.new) }
        ensures more { room self.old ≤ room self.new }
        ensures keeps { (es : List Entry) → keeps self.old es → keeps self.new es }
        ensures cannot_keep { IfErr result (λ f. (es : List Entry) → keeps self.old es → cannot_keep (length es) f) };

    /// Keeps the entry of a call for which all was made ready. It takes no memory.
    fn keep(&mut self, pid: Pid, k: u64, request: &Request, done: &Done, released: Released)
        requires ready { ready self.old request.now }
        requires room { 0 < room self.old }
        requires fits { Fits (size_of done.now.reply) (room_for request.now) }
        ensures keeps { (es : List Entry) → keeps self.old es → keeps self.new (es ++ record { pid = pid; k = k; request = request.now; reply = done.now.reply; released = released; delivered = done.now.delivered } ∷ []) }
        ensures room { room self.old ≤ room self.new + 1 };

    /// Keeps the entry of a last call, which takes no memory.
    fn keep_last(&mut self, entry: Entry)
        requires room { 0 < room self.old }
        ensures keeps { (es : List Entry) → keeps self.old es → keeps self.new (es ++ entry ∷ []) }
        ensures room { room self.old ≤ room self.new + 1 };

    /// Why it can't keep one is nothing that others could mend, who wait.
    ghost no_deadlock: { (n : ℕ) (f : CallFault) → cannot_keep n f → is_deadlock f ≡ false };
}

/// Keeps all entries.
pub struct Entries {
    pub(crate) entries: Vec<Entry>,
    /// A copy of the request of the next entry, where it holds more than numbers.
    copy: Option<Request>,
    /// Room for a copy of its reply, which is used where there can be no further owner of what the reply holds.
    room: Option<ReplyRoom>,
}

// Written out, so that it is proved here and not in each function that drops one.
impl Drop for Entries {
    fn drop(self) {
        let Entries {
            entries,
            copy,
            room,
        } = self;
        drop(entries);
        drop(copy);
        drop(room)
    }
}

impl Entries {
    /// None yet, with room for so many.
    ///
    /// # Errors
    ///
    /// Out of memory.
    pub(crate) fn new(alloc: Global, count: usize) -> Result<Entries, AllocError>
        ensures none { IfOk result (λ k. k.entries.items ≡ []) }
        ensures room { IfOk result (λ k. count ≤ vec_capacity k.entries - vec_len k.entries) }
    {
        Ok(Entries {
            entries: Vec::with_capacity(alloc, count)?,
            copy: None,
            room: None,
        })
    }

    /// The entries, and nothing else of it.
    pub(crate) fn into_entries(self) -> Vec<Entry>
        ensures { result ≡ self.entries }
    {
        let Entries {
            entries,
            copy: _,
            room: _,
        } = self;
        entries
    }
}

/// Makes a copy of a request.
// Out of line, so that the usual path reserves no stack for a request.
#[inline(never)]
fn prepare_copy(copy: &mut Option<Request>, request: &Request) -> Result<(), AllocError>
    ensures { OnOk result (copy.new ≡ Some request.now) }
{
    *copy = Some(request.clone()?);
    Ok(())
}

/// Takes the copy of this request.
#[inline(never)]
fn take_copy(copy: &mut Option<Request>, request: &Request) -> Request
    requires { copy.old ≡ Some request.now }
    ensures { result ≡ request.now }
{
    // A borrow, by which the clauses see the argument.
    let _ = request;
    match copy.take() {
        Some(copy) => copy,
        None => unreachable!(),
    }
}

impl Keeper for Entries {
    ghost use Rattle.std.specs.Prelude.{◌≡◌, ◌-◌, vec_len, vec_capacity};
    ghost use Rattle.std.proofs.Common.{ap};
    ghost use Rattle.ux_book.specs.Faults.{is_deadlock};
    ghost use Rattle.ux_book.specs.declared.fault.CallFault.{CallFault};
    ghost use Rattle.ux_book.specs.Keeping.{IsReady};

    ghost keeps = { λ k es. k.entries.items ≡ es };

    ghost room = { λ k. vec_capacity k.entries - vec_len k.entries };

    ghost ready = { λ k request. IsReady k.copy k.room request };

    ghost cannot_keep = { λ _ f. f ≡ CallFault.NoMemory };

    fn count(&self) -> usize {
        self.entries.len()
    }

    fn prepare(&mut self, request: &Request, count: usize) -> Result<(), CallFault> {
        self.entries.reserve(count)?;
        ReplyRoom::provide(&mut self.room, *self.entries.allocator(), request)?;
        if request.has_parts() {
            prepare_copy(&mut self.copy, request)?;
        }
        Ok(())
    }

    fn keep(&mut self, pid: Pid, k: u64, request: &Request, done: &Done, released: Released) {
        let request = match request.numbers() {
            Some(request) => request,
            None => take_copy(&mut self.copy, request),
        };
        let reply = ReplyRoom::lend(&mut self.room, &done.reply);
        self.entries.push_reserved(Entry {
            pid,
            k,
            request,
            reply,
            released,
            delivered: done.delivered,
        });
    }

    fn keep_last(&mut self, entry: Entry) {
        self.entries.push_reserved(entry);
    }

    ghost no_deadlock = { λ _ f is. ap is_deadlock is };
}

/// Keeps no entry, and counts them: a call takes the same room and time whatever came before.
#[derive(Drop)]
pub struct Nothing {
    count: u64,
}

impl Nothing {
    /// None yet.
    pub(crate) fn new() -> Nothing
        ensures { result.count ≡ 0 }
    {
        Nothing { count: 0 }
    }
}

impl Keeper for Nothing {
    ghost use Rattle.std.specs.Prelude.{◌≡◌, ◌+◌, ◌-◌, ◌^◌, ◌≤◌, length};
    ghost use Rattle.std.proofs.Common.{ap};
    ghost use Rattle.ux_book.specs.Faults.{is_deadlock};
    ghost use Rattle.ux_book.specs.declared.fault.CallFault.{CallFault};

    ghost keeps = { λ k es. k.count ≡ length es };

    ghost room = { λ k. 2 ^ 62 + 1027 - k.count };

    ghost ready = { λ _ _. Unit {0} };

    ghost cannot_keep = { λ n f. (f ≡ CallFault.Full) × (2 ^ 62 ≤ n) };

    fn count(&self) -> usize {
        self.count as usize
    }

    fn prepare(&mut self, _request: &Request, _count: usize) -> Result<(), CallFault> {
        if self.count >= 1 << 62 {
            return Err(CallFault::Full);
        }
        Ok(())
    }

    fn keep(&mut self, _pid: Pid, _k: u64, _request: &Request, _done: &Done, _released: Released) {
        self.count += 1;
    }

    fn keep_last(&mut self, _entry: Entry) {
        self.count += 1;
    }

    ghost no_deadlock = { λ _ f is. ap is_deadlock is.0 };
}
