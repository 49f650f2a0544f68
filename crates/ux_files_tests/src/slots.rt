//! What no clause says: that calls succeed where there is memory, and that slots are used again.
use hoard::Hoard;
use std::alloc::{AllocError, Global};
use std::marker::Model;
use std::process::Abort;
use std::test::Fail;
use ux_slots::Slots;
use ux_types::DescriptionId;

/// A value as a layer above has it: a struct that contracts see as a number.
#[derive(Debug, PartialEq, Eq, Drop)]
struct File {
    inode: u32,
}

impl Model for File {
    ghost use Rattle.std.specs.Prelude.{ℕ};

    ghost Value = { ℕ };

    ghost view = { λ f. f.inode };

    ghost inverse = { λ n. record { inode = n } };
}

/// Puts in a file, with one reference.
fn open(rt: &impl Abort, slots: &mut Slots<File>, inode: u32) -> Result<DescriptionId, Fail> {
    let next = slots.next_id();
    let id = slots.insert(File { inode })?;
    assert_eq!(rt; id, next);
    Ok(id)
}

/// Counts one more reference to a value to which there is one.
fn retain<T>(rt: &impl Abort, slots: &mut Slots<T>, id: DescriptionId) {
    assert!(rt; slots.count(id) > 0);
    assert!(rt; slots.has_room(id, 1));
    assert!(rt; slots.retain_ref(id).is_ok());
}

/// Counts one reference less to a value to which there is one.
fn release<T>(rt: &impl Abort, slots: &mut Slots<T>, id: DescriptionId) {
    assert!(rt; slots.count(id) > 0);
    slots.release_ref(id);
}

/// Sees which value a handle has, and how many references.
fn expect(rt: &impl Abort, slots: &Slots<File>, id: DescriptionId, inode: u32, count: u64) {
    let found = slots.get(id).map(|file| file.inode);
    assert_eq!(rt; found, Some(inode));
    assert_eq!(rt; slots.count(id), count, "{inode}");
}

/// Sees that a handle has no value.
fn expect_gone(rt: &impl Abort, slots: &Slots<File>, id: DescriptionId) {
    assert!(rt; slots.get(id).is_none());
    assert_eq!(rt; slots.count(id), 0);
}

/// Takes out a value to which there is no reference, and answers it.
fn take(rt: &impl Abort, slots: &mut Slots<File>) -> Option<u32> {
    let (id, file) = slots.next_dead()?;
    expect_gone(rt, slots, id);
    Some(file.inode)
}

/// Takes out so many values, each of which has a bit of its own.
fn take_bits(rt: &impl Abort, slots: &mut Slots<File>, count: usize) -> u32 {
    let mut bits = 0;
    for _ in 0..count {
        bits ^= take(rt, slots).unwrap_or(0);
    }
    assert_eq!(rt; take(rt, slots), None);
    bits
}

#[test]
fn a_value_stays_until_it_is_taken_out(rt: HostRuntime) -> Result<(), Fail> {
    let mut slots = Slots::new(rt.alloc());
    let a = open(&rt, &mut slots, 10)?;
    let b = open(&rt, &mut slots, 20)?;
    let c = open(&rt, &mut slots, 30)?;
    retain(&rt, &mut slots, b);
    expect(&rt, &slots, b, 20, 2);
    release(&rt, &mut slots, b);
    assert_eq!(&rt; take(&rt, &mut slots), None);
    release(&rt, &mut slots, b);
    expect(&rt, &slots, b, 20, 0);
    assert_eq!(&rt; take(&rt, &mut slots), Some(20));
    assert_eq!(&rt; take(&rt, &mut slots), None);
    expect_gone(&rt, &slots, b);
    assert!(&rt; slots.get_mut(b).is_none());
    expect(&rt, &slots, a, 10, 1);
    expect(&rt, &slots, c, 30, 1);
    Ok(())
}

#[test]
fn each_value_without_references_is_taken_out_once(rt: HostRuntime) -> Result<(), Fail> {
    let mut slots = Slots::new(rt.alloc());
    let a = open(&rt, &mut slots, 1)?;
    let b = open(&rt, &mut slots, 2)?;
    let c = open(&rt, &mut slots, 4)?;
    let d = open(&rt, &mut slots, 8)?;
    release(&rt, &mut slots, c);
    release(&rt, &mut slots, a);
    release(&rt, &mut slots, d);
    assert_eq!(&rt; take_bits(&rt, &mut slots, 3), 13);
    expect(&rt, &slots, b, 2, 1);
    Ok(())
}

#[test]
fn all_values_are_released_at_once(rt: HostRuntime) -> Result<(), Fail> {
    let mut slots = Slots::new(rt.alloc());
    let a = open(&rt, &mut slots, 1)?;
    let b = open(&rt, &mut slots, 2)?;
    let c = open(&rt, &mut slots, 4)?;
    retain(&rt, &mut slots, c);
    release(&rt, &mut slots, b);
    slots.release_all();
    expect(&rt, &slots, a, 1, 0);
    expect(&rt, &slots, c, 4, 0);
    assert_eq!(&rt; take_bits(&rt, &mut slots, 3), 7);
    let d = open(&rt, &mut slots, 8)?;
    expect(&rt, &slots, d, 8, 1);
    Ok(())
}

#[test]
fn slots_are_used_again_and_numbers_are_not(rt: HostRuntime) -> Result<(), Fail> {
    let alloc = rt.alloc();
    let mut slots = Slots::new(alloc);
    slots.reserve(100)?;
    let kept = open(&rt, &mut slots, 7)?;
    let mut last = open(&rt, &mut slots, 0)?;
    let hoard = Hoard::take_all(alloc)?;
    for inode in 1..10_000 {
        release(&rt, &mut slots, last);
        assert_eq!(&rt; take(&rt, &mut slots), Some(inode - 1));
        let id = open(&rt, &mut slots, inode)?;
        assert!(&rt; id != last && id != kept);
        last = id;
    }
    drop(hoard);
    assert_eq!(&rt; last.number(), 10_000);
    expect(&rt, &slots, kept, 7, 1);
    Ok(())
}

#[test]
fn a_value_is_written(rt: HostRuntime) -> Result<(), Fail> {
    let mut slots = Slots::new(rt.alloc());
    slots.reserve(2)?;
    let a = open(&rt, &mut slots, 1)?;
    let b = open(&rt, &mut slots, 2)?;
    if let Some(file) = slots.get_mut(a) {
        file.inode = 41;
    }
    expect(&rt, &slots, a, 41, 1);
    expect(&rt, &slots, b, 2, 1);
    Ok(())
}

#[test]
fn counts_and_room_end(rt: HostRuntime) -> Result<(), Fail> {
    let mut slots = Slots::new(rt.alloc());
    let a = open(&rt, &mut slots, 1)?;
    assert!(&rt; slots.has_room(a, usize::MAX - 1));
    assert!(&rt; !slots.has_room(a, usize::MAX));
    assert!(&rt; slots.reserve(usize::MAX).is_err());
    expect(&rt, &slots, a, 1, 1);
    Ok(())
}

/// Puts in files until there is no memory for one, and answers which.
fn fill_up(slots: &mut Slots<File>) -> Option<u32> {
    for inode in 0..10_000 {
        if let Err(failed) = slots.insert(File { inode }) {
            return Some(failed.value.inode);
        }
    }
    None
}

/// Takes out all values, of which none has a reference then, and answers how many there were.
fn end(slots: &mut Slots<File>) -> u32 {
    slots.release_all();
    for taken in 0..10_000 {
        if slots.next_dead().is_none() {
            return taken;
        }
    }
    10_000
}

/// With so many bytes of memory left puts in files until there is none for one, and takes them all out.
fn pass_with_memory(
    alloc: Global,
    slots: &mut Slots<File>,
    bytes: usize,
) -> Result<(Option<u32>, u32), AllocError> {
    let left: Vec<u8> = Vec::with_capacity(alloc, bytes)?;
    let hoard = Hoard::take_all(alloc)?;
    drop(left);
    let failed = fill_up(slots);
    let taken = end(slots);
    drop(hoard);
    Ok((failed, taken))
}

#[test]
fn a_failed_growth_changes_nothing(rt: HostRuntime) -> Result<(), Fail> {
    let alloc = rt.alloc();
    let mut slots = Slots::new(alloc);
    assert_eq!(&rt; pass_with_memory(alloc, &mut slots, 0)?, (Some(0), 0));
    let (failed, taken) = pass_with_memory(alloc, &mut slots, 80_000)?;
    assert!(&rt; failed == Some(taken) && taken >= 100, "{taken}");
    slots.reserve(2_000)?;
    let (failed, more) = pass_with_memory(alloc, &mut slots, 0)?;
    assert!(&rt; failed == Some(more) && more >= 2_000, "{more}");
    assert_eq!(&rt;
        slots.next_id().number(),
        u128::from(taken) + u128::from(more)
    );
    Ok(())
}

/// With so many bytes of memory left asks for room for so many values, which fails.
fn ask_with_memory(
    rt: &impl Abort,
    alloc: Global,
    slots: &mut Slots<File>,
    values: usize,
    bytes: usize,
) -> Result<(), AllocError> {
    let left: Vec<u8> = Vec::with_capacity(alloc, bytes)?;
    let hoard = Hoard::take_all(alloc)?;
    drop(left);
    let failed = slots.reserve(values).is_err();
    drop(hoard);
    assert!(rt; failed);
    Ok(())
}

#[test]
fn room_fails_with_memory_for_the_slots_alone(rt: HostRuntime) -> Result<(), Fail> {
    let alloc = rt.alloc();
    let mut slots = Slots::new(alloc);
    let a = open(&rt, &mut slots, 1)?;
    ask_with_memory(&rt, alloc, &mut slots, 1_000, 100_000)?;
    expect(&rt, &slots, a, 1, 1);
    let b = open(&rt, &mut slots, 2)?;
    assert_eq!(&rt; b.number(), 1);
    let (failed, taken) = pass_with_memory(alloc, &mut slots, 0)?;
    assert_eq!(&rt; failed, taken.checked_sub(2));
    assert!(&rt; taken < 1_000, "{taken}");
    Ok(())
}
