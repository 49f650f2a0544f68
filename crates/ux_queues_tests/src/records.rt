//! A queue of whole messages: taken, peeked at, cut, and with little memory.
ghost use Rattle.std.specs.Prelude.{◌<◌, length};

use crate::values::{expect_references, fails, path, references};
use hoard::Hoard;
use linked_list_allocator::LocalHeap;
use std::alloc::{AllocError, Allocator, Global};
use std::process::Abort;
use ux_record::{Peeked, RecordQueue};
use ux_rights::{Draft, Origin, RefList, SendError};
use ux_types::{Addr, Bytes, Cred, Pid};

const CRED: Cred = Cred {
    pid: Pid(4),
    uid: 5,
    gid: 6,
};

/// The numbers of the references that a message has.
const RIGHTS: &[u128] = &[7, 8, 7];

/// The message of call 9, of which two bytes were asked for.
fn assert_cut(rt: &impl Abort, received: Peeked, from: &Option<Addr>) {
    assert_eq!(rt; received.bytes.as_slice(), b"ab".as_slice());
    expect_references(rt, &received.rights, RIGHTS);
    let origin = Some(Origin { tag: 9, uid: 1000 });
    assert_eq!(rt;
        (received.whole, received.origin, received.cred),
        (3, origin, CRED)
    );
    assert!(rt; received.from == *from);
}

/// A message without bytes, rights and a sender's name.
fn assert_nothing(rt: &impl Abort, received: Peeked) {
    assert_eq!(rt;
        (received.bytes.len(), received.whole, received.origin),
        (0, 0, None)
    );
    assert!(rt; received.from.is_none());
}

/// Sends a message, which is queued.
fn send<A: Allocator + Copy>(
    rt: &impl Abort,
    queue: &mut RecordQueue<A>,
    bytes: &Bytes,
    tag: u64,
    rights: RefList,
    from: Option<Addr>,
) {
    let draft = Draft {
        tag,
        bytes,
        cred: CRED,
        uid: 1000,
    };
    let sent = queue.send(draft, rights, from);
    assert!(rt; sent.is_ok());
}

/// Takes the first message, of which a receive of at most n bytes gives this.
fn receive<A: Allocator + Copy>(
    rt: &impl Abort,
    queue: &mut RecordQueue<A>,
    n: usize,
) -> Result<Peeked, AllocError>
    requires { 0 < length queue.old }
{
    let received = queue.peek(n)?;
    match queue.pop_message() {
        Some((rights, uid)) => {
            assert_eq!(rt; rights.len(), received.rights.len());
            if let Some(origin) = &received.origin {
                assert_eq!(rt; origin.uid, uid);
            }
        }
        None => assert!(rt; false),
    }
    Ok(received)
}

/// Peeks at the message of call 9, and takes it.
fn take_cut<A: Allocator + Copy>(
    rt: &impl Abort,
    queue: &mut RecordQueue<A>,
    from: &Option<Addr>,
) -> Result<(), AllocError> {
    assert!(rt; !queue.is_empty());
    assert_cut(rt, queue.peek(2)?, from);
    assert_cut(rt, receive(rt, queue, 2)?, from);
    Ok(())
}

/// Takes two messages without bytes, the second without a look at it.
fn take_both<A: Allocator + Copy>(
    rt: &impl Abort,
    queue: &mut RecordQueue<A>,
) -> Result<(), AllocError> {
    assert!(rt; !queue.is_empty());
    assert_nothing(rt, receive(rt, queue, 8)?);
    match queue.pop_message() {
        Some((rights, uid)) => assert_eq!(rt; (rights.len(), uid), (0, 1000)),
        None => assert!(rt; false),
    }
    Ok(())
}

#[test]
fn whole_messages_in_order(rt: HostRuntime) -> Result<(), AllocError> {
    let alloc = rt.alloc();
    let from = Some(path(alloc, b"/a")?);
    let mut queue = RecordQueue::new(alloc);
    let rights = references(alloc, RIGHTS)?;
    send(
        &rt,
        &mut queue,
        &Bytes::short(b"abc"),
        9,
        rights,
        from.clone()?,
    );
    send(
        &rt,
        &mut queue,
        &Bytes::empty(),
        10,
        RefList::new(alloc),
        None,
    );
    send(
        &rt,
        &mut queue,
        &Bytes::empty(),
        11,
        RefList::new(alloc),
        None,
    );
    assert_eq!(rt; queue.len(), 3);
    take_cut(&rt, &mut queue, &from)?;
    take_both(&rt, &mut queue)?;
    assert!(rt; queue.is_empty());
    assert!(rt; queue.pop_message().is_none());
    Ok(())
}

/// Sends a message where the queue is full, which gives it back.
fn expect_full(
    rt: &impl Abort,
    alloc: Global,
    queue: &mut RecordQueue,
    from: &Option<Addr>,
) -> Result<(), AllocError> {
    let rights = references(alloc, RIGHTS)?;
    let bytes = Bytes::short(b"y");
    let draft = Draft {
        tag: 16,
        bytes: &bytes,
        cred: CRED,
        uid: 5,
    };
    match queue.send(draft, rights, from.clone()?) {
        Ok(()) => assert!(rt; false),
        Err(unsent) => {
            assert_eq!(rt; unsent.error, SendError::Full);
            expect_references(rt, &unsent.rights, RIGHTS);
            assert!(rt; unsent.from == *from);
        }
    }
    Ok(())
}

#[test]
fn the_seventeenth_is_refused(rt: HostRuntime) -> Result<(), AllocError> {
    let alloc = rt.alloc();
    let mut queue = RecordQueue::new(alloc);
    for tag in 0..16_u64 {
        assert!(rt; !queue.is_full());
        send(
            &rt,
            &mut queue,
            &Bytes::short(b"x"),
            tag,
            RefList::new(alloc),
            None,
        );
    }
    assert!(rt; queue.is_full());
    let from = Some(path(alloc, b"/b")?);
    expect_full(&rt, alloc, &mut queue, &from)?;
    assert_eq!(rt; queue.len(), 16);
    Ok(())
}

/// Sends a message with 20 bytes, and reports whether it was queued.
fn is_queued<A: Allocator + Copy>(
    rt: &impl Abort,
    alloc: Global,
    queue: &mut RecordQueue<A>,
    tag: u8,
    from: &Option<Addr>,
) -> Result<bool, AllocError> {
    let name = from.clone()?;
    let rights = references(alloc, RIGHTS)?;
    let bytes = Bytes::from_slice(alloc, &[tag; 20])?;
    let draft = Draft {
        tag: tag as u64,
        bytes: &bytes,
        cred: CRED,
        uid: 5,
    };
    match queue.send(draft, rights, name) {
        Ok(()) => Ok(true),
        Err(unsent) => {
            assert_eq!(rt; unsent.error, SendError::NoMemory);
            expect_references(rt, &unsent.rights, RIGHTS);
            assert!(rt; unsent.from == *from);
            Ok(false)
        }
    }
}

/// Sees what a receive gives of a message with 20 bytes.
fn expect_whole(rt: &impl Abort, received: Peeked, tag: u8, from: &Option<Addr>) {
    assert_eq!(rt; received.bytes.as_slice(), [tag; 20].as_slice());
    expect_references(rt, &received.rights, RIGHTS);
    assert!(rt; received.from == *from);
}

/// Peeks at a message with 20 bytes, and takes it.
fn take<A: Allocator + Copy>(
    rt: &impl Abort,
    queue: &mut RecordQueue<A>,
    tag: u8,
    from: &Option<Addr>,
) -> Result<(), AllocError> {
    assert!(rt; !queue.is_empty());
    expect_whole(rt, queue.peek(20)?, tag, from);
    expect_whole(rt, receive(rt, queue, 20)?, tag, from);
    Ok(())
}

/// Sends twelve messages, takes those that were queued, and says how many sends failed.
fn pass<A: Allocator + Copy>(
    rt: &impl Abort,
    alloc: Global,
    queue: &mut RecordQueue<A>,
) -> Result<u64, AllocError> {
    let mut failed: u64 = 0;
    let from = Some(path(alloc, b"/c")?);
    let mut queued = Vec::new(alloc);
    for tag in 0..12_u8 {
        if is_queued(rt, alloc, queue, tag, &from)? {
            queued.push(tag)?;
        } else {
            failed = failed.saturating_add(1);
        }
        assert_eq!(rt; queue.len(), queued.len());
    }
    for tag in &queued {
        take(rt, queue, *tag, &from)?;
    }
    assert!(rt; queue.is_empty());
    Ok(failed)
}

/// On a heap that is 16 bytes larger each time, each allocation is at some time the first that fails.
/// The queue is then as before.
#[test]
fn failed_allocations_change_nothing(rt: HostRuntime) -> Result<(), AllocError> {
    let alloc = rt.alloc();
    let mut all: u64 = 0;
    for blocks in 0..1000_usize {
        let heap = LocalHeap::new(alloc, blocks * 16)?;
        let failed = pass(&rt, alloc, &mut RecordQueue::new(&heap))?;
        if failed == 0 {
            assert!(rt; all > 0, "{all}");
            return Ok(());
        }
        all = all.saturating_add(failed);
    }
    assert!(rt; false, "no heap was enough");
    Ok(())
}

/// Where there is no memory, a peek at many rights fails, and they can still be taken off.
#[test]
fn what_cannot_be_copied_moves(rt: HostRuntime) -> Result<(), AllocError> {
    let alloc = rt.alloc();
    let mut queue = RecordQueue::new(alloc);
    let rights = references(alloc, &[1, 2, 3, 4, 5])?;
    send(&rt, &mut queue, &Bytes::short(b"a"), 1, rights, None);
    assert!(rt; !queue.is_empty());
    let hoard = Hoard::take_all(alloc)?;
    let failed = fails(queue.peek(1));
    let first = queue.pop_message();
    drop(hoard);
    assert!(rt; failed);
    match first {
        Some((rights, uid)) => assert_eq!(rt; (rights.len(), uid), (5, 1000)),
        None => assert!(rt; false),
    }
    Ok(())
}

/// Sees what a receive of at most n bytes gives of a message without rights.
fn expect_first(rt: &impl Abort, received: Peeked, n: usize, bytes: &[u8], from: &Option<Addr>) {
    assert_eq!(rt; received.bytes.as_slice(), &bytes[..n.min(bytes.len())]);
    assert_eq!(rt; (received.whole, received.rights.len()), (bytes.len(), 0));
    assert!(rt; received.from == *from);
}

/// How many bytes are asked for.
const WANTED: &[usize] = &[0, 14, 15, 50, 99, 100, 101];

/// Takes each of the messages with these bytes, for which a peek shows what all receives would give.
fn take_each(
    rt: &impl Abort,
    queue: &mut RecordQueue,
    bytes: &[u8],
    from: &Option<Addr>,
) -> Result<(), AllocError> {
    for n in WANTED {
        for peeked in WANTED {
            assert!(rt; !queue.is_empty());
            expect_first(rt, queue.peek(*peeked)?, *peeked, bytes, from);
        }
        assert!(rt; !queue.is_empty());
        expect_first(rt, receive(rt, queue, *n)?, *n, bytes, from);
    }
    Ok(())
}

/// The bytes and the name are handed on, so a receive of any part of them needs no memory.
#[test]
fn a_message_is_handed_on_without_memory(rt: HostRuntime) -> Result<(), AllocError> {
    let alloc = rt.alloc();
    let mut queue = RecordQueue::new(alloc);
    let from = Some(path(alloc, b"/a/name/of/many/bytes")?);
    let mut long = Vec::new(alloc);
    for byte in 0..100_u8 {
        long.push(byte)?;
    }
    let short = Vec::from_slice(alloc, b"fourteen bytes")?;
    for bytes in [&long, &short] {
        for _ in WANTED {
            let bytes = Bytes::from_slice(alloc, bytes)?;
            let none = RefList::new(alloc);
            send(&rt, &mut queue, &bytes, 1, none, from.clone()?);
        }
    }
    let hoard = Hoard::take_all(alloc)?;
    let taken = take_each(&rt, &mut queue, &long, &from);
    let taken_too = take_each(&rt, &mut queue, &short, &from);
    drop(hoard);
    taken?;
    taken_too?;
    assert!(rt; queue.is_empty());
    Ok(())
}

fn sends<T: Send>(_: &T) {}

#[test]
fn a_queue_moves_to_another_thread(rt: HostRuntime) {
    sends(&RecordQueue::new(rt.alloc()));
}
