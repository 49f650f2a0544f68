//! The queue beside a plain one, a list of whole messages.
ghost use Rattle.std.specs.Prelude.{◌<◌};

mod list_queue;

use crate::values::{expect_references, fails, references};
use hoard::Hoard;
use linked_list_allocator::LocalHeap;
use list_queue::{ListFront, ListMessage, ListQueue};
use std::alloc::{AllocError, Allocator, Global};
use std::process::Abort;
use ux_rights::{Draft, Origin, RefList, SendError};
use ux_stream::{PeekedBytes, StreamQueue};
use ux_types::{Bytes, Cred, Pid, SHORT_BYTES};

/// Pseudo-random numbers, by a linear congruence (Knuth's MMIX).
#[derive(Drop)]
struct Dice {
    state: u64,
}

impl Dice {
    fn below(&mut self, n: u64) -> usize
        requires { 0 < n }
        ensures { result < n }
    {
        self.state = self
            .state
            .wrapping_mul(6364136223846793005)
            .wrapping_add(1442695040888963407);
        ((self.state >> 33) % n) as usize
    }

    /// A message with 1 to 60 bytes, and one in four with 1 to 6 rights.
    fn message(&mut self, alloc: Global, tag: u64) -> Result<ListMessage, AllocError> {
        let mut bytes = Vec::new(alloc);
        for _ in 0..self.below(60).saturating_add(1) {
            bytes.push(self.below(256) as u8)?;
        }
        let mut rights = Vec::new(alloc);
        if self.below(4) == 0 {
            for _ in 0..self.below(6).saturating_add(1) {
                rights.push(self.below(1000) as u128)?;
            }
        }
        let cred = Cred {
            pid: Pid(1),
            uid: self.below(2) as u32,
            gid: 2,
        };
        let uid = self.below(3) as u32;
        Ok(ListMessage {
            bytes,
            rights,
            origin: Origin { tag, uid },
            cred,
        })
    }
}

fn assert_front(rt: &impl Abort, received: PeekedBytes, wanted: &ListFront) {
    assert_eq!(rt; received.bytes.as_slice(), wanted.bytes.as_slice());
    expect_references(rt, &received.rights, &wanted.rights);
    assert_eq!(rt;
        (received.origin, received.cred),
        (wanted.origin, wanted.cred)
    );
}

/// Sees which rights came off the queue, and from which send.
fn expect_skipped(rt: &impl Abort, skipped: (RefList, Option<Origin>), wanted: &ListFront) {
    let (rights, origin) = skipped;
    expect_references(rt, &rights, &wanted.rights);
    assert_eq!(rt; origin, wanted.origin);
}

/// Two queues that were treated alike.
struct Both<A: Allocator + Copy> {
    queue: StreamQueue<A>,
    list: ListQueue,
    alloc: Global,
    /// How many bytes were sent.
    sent: u64,
    /// How many sends and receives found no memory.
    failed_sends: u64,
    failed_receives: u64,
}

/// As of the messages of a list.
impl<A: Allocator + Copy> Drop for Both<A> {
    fn drop(self) {
        let Both {
            queue,
            list,
            alloc: _,
            sent: _,
            failed_sends: _,
            failed_receives: _,
        } = self;
        drop(queue);
        drop(list);
    }
}

const ROOM: usize = 300;

impl<A: Allocator + Copy> Both<A> {
    fn new(queue: StreamQueue<A>, alloc: Global) -> Both<A> {
        Both {
            queue,
            list: ListQueue::new(alloc),
            alloc,
            sent: 0,
            failed_sends: 0,
            failed_receives: 0,
        }
    }

    fn send(&mut self, rt: &impl Abort, mut m: ListMessage) -> Result<(), AllocError> {
        let room = ROOM.saturating_sub(self.list.len_bytes());
        if m.bytes.is_empty() {
            return Ok(());
        }
        let rights = references(self.alloc, &m.rights)?;
        let bytes = Bytes::from_slice(self.alloc, &m.bytes)?;
        let draft = Draft {
            tag: m.origin.tag,
            bytes: &bytes,
            cred: m.cred,
            uid: m.origin.uid,
        };
        match self.queue.send(draft, room, rights) {
            Ok(count) => {
                assert_eq!(rt; count, room.min(m.bytes.len()));
                self.sent = self.sent.saturating_add(count as u64);
                m.bytes.truncate(room);
                self.list.messages.push_back(m)?;
            }
            Err(unsent) => {
                expect_references(rt, &unsent.rights, &m.rights);
                assert_eq!(rt; unsent.error == SendError::Full, room == 0);
                if room > 0 {
                    self.failed_sends = self.failed_sends.saturating_add(1);
                }
            }
        }
        Ok(())
    }

    fn peek(&mut self, rt: &impl Abort, n: usize, wants_cred: bool) -> Result<(), AllocError> {
        let wanted = self.list.front(n, wants_cred)?;
        assert!(rt; self.queue.is_empty() == wanted.is_none());
        if let Some(wanted) = wanted {
            match self.queue.peek(self.alloc, n, wants_cred) {
                Ok(received) => assert_front(rt, received, &wanted),
                Err(AllocError) => {
                    self.failed_receives = self.failed_receives.saturating_add(1);
                }
            }
        }
        Ok(())
    }

    fn take(&mut self, rt: &impl Abort, n: usize, wants_cred: bool) -> Result<(), AllocError> {
        let wanted = self.list.front(n, wants_cred)?;
        assert!(rt; self.queue.is_empty() == wanted.is_none());
        if let Some(wanted) = wanted {
            match self.queue.peek(self.alloc, n, wants_cred) {
                Ok(received) => {
                    assert_front(rt, received, &wanted);
                    self.list.drop_front(wanted.bytes.len());
                    expect_skipped(rt, self.queue.skip(n, wants_cred), &wanted);
                }
                Err(AllocError) => {
                    self.failed_receives = self.failed_receives.saturating_add(1);
                }
            }
        }
        Ok(())
    }

    /// Takes where there is no memory at all: at most 14 bytes need none, and more fail and stay.
    fn take_without_memory(
        &mut self,
        rt: &impl Abort,
        n: usize,
        wants_cred: bool,
    ) -> Result<(), AllocError> {
        let wanted = self.list.front(n, wants_cred)?;
        assert!(rt; self.queue.is_empty() == wanted.is_none());
        if let Some(wanted) = wanted {
            let hoard = Hoard::take_all(self.alloc)?;
            let peeked = self.queue.peek(self.alloc, n, wants_cred);
            drop(hoard);
            assert_eq!(rt; peeked.is_ok(), wanted.bytes.len() <= SHORT_BYTES);
            match peeked {
                Ok(received) => {
                    assert_front(rt, received, &wanted);
                    self.list.drop_front(wanted.bytes.len());
                    expect_skipped(rt, self.queue.skip(n, wants_cred), &wanted);
                }
                Err(AllocError) => {
                    self.failed_receives = self.failed_receives.saturating_add(1);
                }
            }
        }
        Ok(())
    }

    fn skip(&mut self, rt: &impl Abort, n: usize, wants_cred: bool) -> Result<(), AllocError> {
        let wanted = self.list.front(n, wants_cred)?;
        assert!(rt; self.queue.is_empty() == wanted.is_none());
        if let Some(wanted) = wanted {
            self.list.drop_front(wanted.bytes.len());
            expect_skipped(rt, self.queue.skip(n, wants_cred), &wanted);
        }
        Ok(())
    }

    fn pop(&mut self, rt: &impl Abort) {
        match (self.queue.pop_message(), self.list.messages.pop_front()) {
            (Some((rights, uid)), Some(m)) => {
                expect_references(rt, &rights, &m.rights);
                assert_eq!(rt; uid, m.origin.uid);
            }
            (popped, m) => assert_eq!(rt; popped.is_none(), m.is_none()),
        }
    }

    fn turn(&mut self, rt: &impl Abort, dice: &mut Dice, tag: u64) -> Result<(), AllocError> {
        let n = dice.below(120);
        let wants_cred = dice.below(2) == 0;
        match dice.below(40) {
            0 => self.pop(rt),
            1..=8 => self.peek(rt, n, wants_cred)?,
            9..=13 => self.take(rt, n, wants_cred)?,
            14..=18 => self.skip(rt, n, wants_cred)?,
            _ => self.send(rt, dice.message(self.alloc, tag)?)?,
        }
        assert_eq!(rt;
            (self.queue.len_bytes(), self.queue.is_empty()),
            (self.list.len_bytes(), self.list.messages.is_empty())
        );
        Ok(())
    }
}

#[test]
fn two_queues_agree(rt: HostRuntime) -> Result<(), AllocError> {
    let alloc = rt.alloc();
    let mut both = Both::new(StreamQueue::new(alloc), alloc);
    let mut dice = Dice { state: 7 };
    for tag in 0..10_000_u64 {
        both.turn(&rt, &mut dice, tag)?;
    }
    // The ring has 512 places at most, so its end was passed often.
    assert!(rt; both.sent > 50_000, "{} bytes", both.sent);
    assert!(rt; both.failed_sends == 0 && both.failed_receives == 0);
    Ok(())
}

/// On a heap that is 16 bytes larger each time, each allocation is at some time the first that fails.
/// The queue is then as before.
#[test]
fn failed_allocations_change_nothing(rt: HostRuntime) -> Result<(), AllocError> {
    let alloc = rt.alloc();
    let mut failed_sends: u64 = 0;
    for blocks in 0..1000_usize {
        let heap = LocalHeap::new(alloc, blocks * 16)?;
        let mut both = Both::new(StreamQueue::new(&heap), alloc);
        let mut dice = Dice { state: 7 };
        for tag in 0..40_u64 {
            both.turn(&rt, &mut dice, tag)?;
        }
        for _ in 0..40 {
            both.pop(&rt);
        }
        assert!(rt; both.queue.is_empty());
        if both.failed_sends == 0 {
            assert!(rt; failed_sends > 10, "{failed_sends}");
            return Ok(());
        }
        failed_sends = failed_sends.saturating_add(both.failed_sends);
    }
    assert!(rt; false, "no heap was enough");
    Ok(())
}

/// A receive without memory leaves the queue as before, as the next one shows.
#[test]
fn few_bytes_are_received_without_memory(rt: HostRuntime) -> Result<(), AllocError> {
    let alloc = rt.alloc();
    let mut both = Both::new(StreamQueue::new(alloc), alloc);
    let mut dice = Dice { state: 7 };
    for tag in 0..8_u64 {
        both.send(&rt, dice.message(alloc, tag)?)?;
    }
    for n in [0, 1, 14, 15, 16, 60] {
        both.take_without_memory(&rt, n, true)?;
        both.take(&rt, n, true)?;
    }
    assert!(rt; both.failed_receives > 1, "{}", both.failed_receives);
    Ok(())
}

/// Two bytes need no memory, so only the copy of the rights fails.
#[test]
fn rights_move_where_they_cannot_be_copied(rt: HostRuntime) -> Result<(), AllocError> {
    let alloc = rt.alloc();
    let mut queue = StreamQueue::new(alloc);
    let numbers = [1, 2, 3, 4, 5, 6];
    let cred = Cred {
        pid: Pid(1),
        uid: 2,
        gid: 3,
    };
    let bytes = Bytes::short(b"abc");
    let draft = Draft {
        tag: 7,
        bytes: &bytes,
        cred,
        uid: 2,
    };
    let sent = queue.send(draft, 9, references(alloc, &numbers)?);
    assert!(rt; sent.is_ok());
    assert!(rt; !queue.is_empty());
    let hoard = Hoard::take_all(alloc)?;
    let failed = fails(queue.peek(alloc, 2, true));
    let (rights, origin) = queue.skip(2, true);
    drop(hoard);
    assert!(rt; failed);
    expect_references(&rt, &rights, &numbers);
    assert_eq!(rt; origin, Some(Origin { tag: 7, uid: 2 }));
    assert_eq!(rt; queue.len_bytes(), 1);
    Ok(())
}

fn sends<T: Send>(_: &T) {}

#[test]
fn a_queue_moves_to_another_thread(rt: HostRuntime) {
    sends(&StreamQueue::new(rt.alloc()));
}
