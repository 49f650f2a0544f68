//! Sets of numbers up to their limits. Each step is a function of its own, so that a test's proof stays short.
use hoard::Hoard;
use std::alloc::AllocError;
use std::process::Abort;
use std::test::Fail;
use ux_number_sets::{GroupedSet, NumberSet};

/// Puts so many numbers in, each of which is the first that is free.
fn fill(rt: &impl Abort, set: &mut NumberSet, numbers: usize) {
    for number in 0..numbers {
        assert_eq!(rt; set.first_free(0), Some(number));
        put(rt, set, number, true);
    }
    assert_eq!(rt; set.first_free(0), None);
}

/// Puts a number in, or takes it out.
fn put(rt: &impl Abort, set: &mut NumberSet, number: usize, is_in: bool) {
    assert!(rt; number < set.capacity());
    set.put(number, is_in);
}

/// Puts a number of a group in, or takes it out.
fn put_in_groups(
    rt: &impl Abort,
    set: &mut GroupedSet,
    number: usize,
    is_in: bool,
) -> Result<(), Fail> {
    assert!(rt; number < set.capacity());
    if is_in {
        set.insert(number)?;
    } else {
        set.remove(number);
    }
    Ok(())
}

/// Puts in the numbers from one up to another, each of which is then the first that is free.
fn fill_groups(rt: &impl Abort, set: &mut GroupedSet, from: usize, to: usize) -> Result<(), Fail> {
    for number in from..to {
        assert_eq!(rt; set.first_free(), Some(number));
        put_in_groups(rt, set, number, true)?;
    }
    Ok(())
}

/// Capacities: none, some, and as many as words hold, or one less or more.
const CAPACITIES: &[usize] = &[0, 1, 63, 64, 65, 100, 4095, 4096];

#[test]
fn the_first_free_number_is_found(rt: HostRuntime) -> Result<(), Fail> {
    for capacity in CAPACITIES {
        let mut set = NumberSet::new(rt.alloc(), *capacity)?;
        assert_eq!(rt; set.capacity(), *capacity);
        fill(&rt, &mut set, *capacity);
        set.clear();
        fill(&rt, &mut set, *capacity);
    }
    Ok(())
}

/// Where a search begins, and what it finds where 3, 64 and 199 are free.
const SEARCHES: &[(usize, Option<usize>)] = &[
    (0, Some(3)),
    (3, Some(3)),
    (4, Some(64)),
    (65, Some(199)),
    (200, None),
];

#[test]
fn a_search_begins_where_it_is_asked_to(rt: HostRuntime) -> Result<(), Fail> {
    let mut set = NumberSet::new(rt.alloc(), 200)?;
    fill(&rt, &mut set, 200);
    put(&rt, &mut set, 3, false);
    put(&rt, &mut set, 64, false);
    put(&rt, &mut set, 199, false);
    for (from, number) in SEARCHES {
        assert_eq!(rt; set.first_free(*from), *number, "{from}");
    }
    Ok(())
}

/// Puts in one number of three groups, takes out one of the last that isn't in, and puts in all others in order.
fn fill_around(rt: &impl Abort, set: &mut GroupedSet, number: usize) -> Result<(), Fail> {
    put_in_groups(rt, set, number, true)?;
    put_in_groups(rt, set, 12287, false)?;
    fill_groups(rt, set, 0, number)?;
    fill_groups(rt, set, number.saturating_add(1), 12288)?;
    assert_eq!(rt; set.first_free(), None);
    Ok(())
}

/// Numbers of the last group and on both sides of the end of the first.
const DOWNWARDS: &[usize] = &[12287, 4096, 4095];

/// Takes numbers out, each below the one before.
fn remove_downwards(rt: &impl Abort, set: &mut GroupedSet) -> Result<(), Fail> {
    for number in DOWNWARDS {
        put_in_groups(rt, set, *number, false)?;
        assert_eq!(rt; set.first_free(), Some(*number));
    }
    Ok(())
}

#[test]
fn groups_are_filled_in_turn(rt: HostRuntime) -> Result<(), Fail> {
    let mut set = GroupedSet::new(rt.alloc(), 3)?;
    assert_eq!(rt; set.capacity(), 12288);
    fill_around(&rt, &mut set, 10000)?;
    remove_downwards(&rt, &mut set)?;
    set.clear();
    fill_groups(&rt, &mut set, 0, 12288)?;
    Ok(())
}

/// Whether nothing was made. Of a value of any type its drop is a call, and not each of its parts.
fn is_not_made<T: Drop>(made: Result<T, AllocError>) -> bool {
    made.is_err()
}

#[test]
fn a_group_without_memory_changes_nothing(rt: HostRuntime) -> Result<(), Fail> {
    let alloc = rt.alloc();
    let mut set = GroupedSet::new(alloc, 2)?;
    assert_eq!(rt; set.capacity(), 8192);
    let hoard = Hoard::take_all(alloc)?;
    let fails = set.insert(5000).is_err();
    let none_is_made = is_not_made(NumberSet::new(alloc, 1))
        && is_not_made(GroupedSet::new(alloc, 1));
    drop(hoard);
    assert!(rt; fails && none_is_made);
    fill_groups(&rt, &mut set, 0, 8192)?;
    assert_eq!(rt; set.first_free(), None);
    Ok(())
}

#[test]
fn a_copy_has_numbers_of_its_own(rt: HostRuntime) -> Result<(), Fail> {
    let mut set = NumberSet::new(rt.alloc(), 200)?;
    fill(&rt, &mut set, 200);
    let copy = set.clone()?;
    put(&rt, &mut set, 130, false);
    assert_eq!(rt; copy.first_free(0), None);
    assert_eq!(rt; set.first_free(0), Some(130));
    assert_eq!(rt; copy.capacity(), 200);
    Ok(())
}
