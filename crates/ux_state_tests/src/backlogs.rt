//! Backlogs at their limits, and with little memory.
use linked_list_allocator::LocalHeap;
use std::alloc::{Allocator, Global};
use std::process::Abort;
use std::test::Fail;
use ux_backlog::{Backlog, PushError};
use ux_types::{DescriptionId, Errno, Refusal};

/// The handle of the description with this number.
fn end(number: u32) -> DescriptionId {
    DescriptionId::new(number as u128)
}

/// A backlog of which the proofs know nothing, so that they needn't follow it.
fn make_backlog<A: Allocator>(alloc: A, backlog: i32) -> Backlog<A> {
    Backlog::new(alloc, backlog)
}

/// Sees that these ends wait, the oldest first.
fn expect_pending<A: Allocator>(rt: &impl Abort, backlog: &Backlog<A>, from: u32, to: u32) {
    let count = to.saturating_sub(from);
    assert_eq!(rt; backlog.len(), count as usize);
    assert_eq!(rt; backlog.is_empty(), count == 0);
    for index in 0..count {
        let found = backlog.get(index as usize);
        assert_eq!(rt; found, Some(end(from.saturating_add(index))), "{index}");
    }
    assert_eq!(rt; backlog.first(), backlog.get(0));
    assert_eq!(rt; backlog.get(count as usize), None);
}

/// Has these ends wait, each of which is taken.
fn fill<A: Allocator>(rt: &impl Abort, backlog: &mut Backlog<A>, from: u32, to: u32) {
    for number in from..to {
        assert!(rt; !backlog.is_full(), "{number}");
        assert_eq!(rt; backlog.push(end(number)), Ok(()), "{number}");
    }
}

/// Takes these ends, the oldest first.
fn drain<A: Allocator>(rt: &impl Abort, backlog: &mut Backlog<A>, from: u32, to: u32) {
    for number in from..to {
        assert_eq!(rt; backlog.pop(), Some(end(number)), "{number}");
    }
}

/// Has ends wait until memory runs out, or the backlog is full, and reports how many wait then.
fn fill_up<A: Allocator>(rt: &impl Abort, backlog: &mut Backlog<A>) -> u32 {
    for number in 0..1000 {
        if let Err(error) = backlog.push(end(number)) {
            assert_eq!(rt; error == PushError::Full, backlog.is_full(), "{number}");
            return number;
        }
    }
    1000
}

/// Limits that are asked for, and what they count as.
const LIMITS: &[(i32, usize)] = &[
    (i32::MIN, 1),
    (-1, 1),
    (0, 1),
    (1, 1),
    (2, 2),
    (127, 127),
    (128, 128),
    (129, 128),
    (i32::MAX, 128),
];

#[test]
fn a_limit_is_between_1_and_128(rt: HostRuntime) {
    for (asked, limit) in LIMITS {
        let mut backlog = make_backlog(rt.alloc(), *asked);
        assert_eq!(rt; backlog.limit(), *limit, "{asked}");
        expect_pending(&rt, &backlog, 0, 0);
        assert_eq!(rt; fill_up(&rt, &mut backlog) as usize, *limit, "{asked}");
    }
}

#[test]
fn the_oldest_end_is_taken_first(rt: HostRuntime) {
    let mut backlog = make_backlog(rt.alloc(), 4);
    fill(&rt, &mut backlog, 0, 4);
    assert_eq!(rt; backlog.push(end(4)), Err(PushError::Full));
    expect_pending(&rt, &backlog, 0, 4);
    drain(&rt, &mut backlog, 0, 3);
    fill(&rt, &mut backlog, 4, 7);
    expect_pending(&rt, &backlog, 3, 7);
    drain(&rt, &mut backlog, 3, 7);
    assert_eq!(rt; backlog.pop(), None);
    expect_pending(&rt, &backlog, 0, 0);
}

#[test]
fn listening_again_drops_nothing(rt: HostRuntime) {
    let mut backlog = make_backlog(rt.alloc(), 3);
    fill(&rt, &mut backlog, 0, 3);
    backlog.set_limit(1);
    assert_eq!(rt; backlog.limit(), 1);
    expect_pending(&rt, &backlog, 0, 3);
    drain(&rt, &mut backlog, 0, 2);
    assert_eq!(rt; backlog.push(end(9)), Err(PushError::Full));
    backlog.set_limit(2);
    fill(&rt, &mut backlog, 3, 4);
    expect_pending(&rt, &backlog, 2, 4);
}

/// Has ends wait in a heap of so many blocks, and reports whether memory ran out before the backlog was
/// full. Then it is as before, and its ends are taken in order.
fn lacks_memory(rt: &impl Abort, alloc: Global, blocks: usize) -> Result<bool, Fail> {
    let heap = LocalHeap::new(alloc, blocks.saturating_mul(64))?;
    let mut backlog = make_backlog(&heap, 128);
    let count = fill_up(rt, &mut backlog);
    let lacking = !backlog.is_full();
    expect_pending(rt, &backlog, 0, count);
    drain(rt, &mut backlog, 0, count);
    Ok(lacking)
}

#[test]
fn a_failed_growth_changes_nothing(rt: HostRuntime) -> Result<(), Fail> {
    let mut was_lacking = false;
    let mut was_filled = false;
    for blocks in 0..200 {
        let lacking = lacks_memory(&rt, rt.alloc(), blocks)?;
        was_lacking |= lacking;
        was_filled |= !lacking;
    }
    assert!(rt; was_lacking && was_filled);
    Ok(())
}

#[test]
fn errors_are_refusals(rt: HostRuntime) {
    let full = Refusal::from(PushError::Full);
    assert_eq!(rt; full, Refusal::Answer(Errno::EAGAIN));
    let no_memory = Refusal::from(PushError::NoMemory);
    assert_eq!(rt; no_memory, Refusal::NoMemory);
}

#[test]
fn errors_are_printed_in_words(rt: HostRuntime) -> Result<(), Fail> {
    let full = PushError::Full;
    let no_memory = PushError::NoMemory;
    let text = format!(in rt.alloc(); "{full}, {no_memory}")?;
    assert_eq!(rt; text.as_str(), "the backlog is full, out of memory");
    Ok(())
}
