//! Tables at their limits. Each step is a function of its own, so that a test's proof stays short.
use hoard::Hoard;
use std::alloc::{AllocError, Global};
use std::process::Abort;
use std::test::Fail;
use ux_fdtable::{Descriptor, DupError, InstallError, Table};
use ux_rights::RefList;
use ux_types::{DescriptionId, Fd};

/// A descriptor of the description with this number.
fn descriptor(number: u128, cloexec: bool) -> Descriptor {
    Descriptor {
        description: DescriptionId::new(number),
        cloexec,
    }
}

/// A table of which the proofs know nothing, so that they needn't follow it.
fn make_table(alloc: Global, limit: u32) -> Result<Table, AllocError> {
    Table::new(alloc, limit)
}

/// Opens the lowest number that is free, which is this one.
fn open(rt: &impl Abort, table: &mut Table, number: u32, description: u128, cloexec: bool) {
    let answer = table.install(descriptor(description, cloexec));
    assert!(rt; answer == Ok(Fd(number)), "{number}");
}

/// Closes a number at which this was open.
fn close(rt: &impl Abort, table: &mut Table, number: u32, description: u128, cloexec: bool) {
    let removed = table.remove(Fd(number));
    assert!(rt;
        removed == Some(descriptor(description, cloexec)),
        "{number}"
    );
}

/// Closes a number that isn't open.
fn close_nothing(rt: &impl Abort, table: &mut Table, number: u32) {
    assert!(rt; table.remove(Fd(number)).is_none(), "{number}");
}

/// Sees what is open at a number.
fn expect_open(rt: &impl Abort, table: &Table, number: u32, description: u128, cloexec: bool) {
    let found = table.get(Fd(number));
    assert!(rt; found == Some(descriptor(description, cloexec)), "{number}");
}

/// Sees that a number isn't open.
fn expect_closed(rt: &impl Abort, table: &Table, number: u32) {
    assert!(rt; table.get(Fd(number)).is_none(), "{number}");
}

/// Sees which number is the lowest that is free.
fn expect_lowest(rt: &impl Abort, table: &Table, number: u32) {
    assert!(rt; table.lowest_free() == Some(Fd(number)), "{number}");
}

/// Sees which two numbers are the lowest that are free.
fn expect_two(rt: &impl Abort, table: &Table, first: u32, second: u32) {
    assert!(rt;
        table.two_lowest_free() == Some((Fd(first), Fd(second))),
        "{first}, {second}"
    );
}

/// Sees which number is the lowest that is free and isn't below a minimum.
fn expect_from(rt: &impl Abort, table: &Table, minimum: u32, number: Option<u32>) {
    let found = table.lowest_free_from(Fd(minimum)).map(|fd| fd.0);
    assert!(rt; found == number, "{minimum}");
}

/// Opens the lowest number that is free and isn't below a minimum, which is this one.
fn open_from(rt: &impl Abort, table: &mut Table, minimum: u32, number: u32) {
    let answer = table.install_from(Fd(minimum), descriptor(9, false));
    assert!(rt; answer == Ok(Fd(number)), "{minimum}");
}

/// Sees that no number is free that isn't below a minimum.
fn expect_full_from(rt: &impl Abort, table: &mut Table, minimum: u32) {
    let answer = table.install_from(Fd(minimum), descriptor(9, false));
    assert!(rt; answer == Err(InstallError::Full), "{minimum}");
}

/// Opens the two lowest numbers that are free, which are these, and sees which is which.
fn open_two(rt: &impl Abort, table: &mut Table, first: u32, second: u32) {
    let answer = table.install_two(descriptor(5, true), descriptor(6, false));
    assert!(rt; answer == Ok((Fd(first), Fd(second))), "{first}, {second}");
    expect_open(rt, table, first, 5, true);
    expect_open(rt, table, second, 6, false);
}

/// Sees that two numbers aren't opened.
fn refuse_two(rt: &impl Abort, table: &mut Table) {
    let answer = table.install_two(descriptor(5, true), descriptor(6, false));
    assert!(rt; answer == Err(InstallError::Full));
}

/// Sees that no two numbers are free.
fn expect_no_two(rt: &impl Abort, table: &Table) {
    assert!(rt; table.two_lowest_free().is_none());
}

/// Sees that no number is free.
fn expect_full(rt: &impl Abort, table: &mut Table) {
    assert!(rt; table.lowest_free().is_none());
    assert!(rt; table.install(descriptor(8, true)) == Err(InstallError::Full));
}

/// Sees how many numbers lead to a description.
fn expect_count(rt: &impl Abort, table: &Table, description: u128, count: u32) {
    let counted = table.count(DescriptionId::new(description));
    assert!(rt; counted == count as usize, "{description}");
}

/// Sees a table's limit, and that nothing is open in it.
fn expect_empty(rt: &impl Abort, table: &Table, limit: u32) {
    assert_eq!(rt; table.limit(), limit);
    expect_lowest(rt, table, 0);
    expect_closed(rt, table, limit);
}

/// Puts a copy at a number that isn't open.
fn copy_to(rt: &impl Abort, table: &mut Table, number: u32, description: u128) {
    let answer = table.dup_at(Fd(number), descriptor(description, true));
    assert!(rt; answer == Ok(None), "{number}");
}

/// Puts a copy over what was open at a number.
fn copy_over(rt: &impl Abort, table: &mut Table, number: u32, description: u128, replaced: u128) {
    let answer = table.dup_at(Fd(number), descriptor(description, true));
    assert!(rt; answer == Ok(Some(descriptor(replaced, true))), "{number}");
}

/// Puts a copy at a number that isn't below the limit.
fn copy_beyond(rt: &impl Abort, table: &mut Table, number: u32) {
    let answer = table.dup_at(Fd(number), descriptor(1, true));
    assert!(rt; answer == Err(DupError::BadNumber), "{number}");
}

/// Opens the numbers from one up to another.
fn fill(rt: &impl Abort, table: &mut Table, from: u32, to: u32) {
    for number in from..to {
        expect_lowest(rt, table, number);
        open(rt, table, number, 7, false);
    }
}

/// Fills a table, and sees that no more fits and that what is closed is opened again.
fn fill_up(rt: &impl Abort, alloc: Global, limit: u32) -> Result<(), Fail> {
    let mut table = make_table(alloc, limit)?;
    expect_empty(rt, &table, limit);
    fill(rt, &mut table, 0, limit);
    expect_full(rt, &mut table);
    expect_no_two(rt, &table);
    expect_count(rt, &table, 7, limit);
    expect_count(rt, &table, 8, 0);
    let last = limit.saturating_sub(1);
    close(rt, &mut table, last, 7, false);
    expect_lowest(rt, &table, last);
    expect_no_two(rt, &table);
    open(rt, &mut table, last, 7, false);
    close(rt, &mut table, 0, 7, false);
    open(rt, &mut table, 0, 8, true);
    expect_open(rt, &table, 0, 8, true);
    expect_full(rt, &mut table);
    Ok(())
}

/// Limits that are asked for, and what they count as.
const LIMITS: &[(u32, u32)] = &[
    (0, 1),
    (1, 1),
    (2, 2),
    (4095, 4095),
    (4096, 4096),
    (4097, 4096),
    (u32::MAX, 4096),
];

#[test]
fn a_limit_is_between_1_and_4096(rt: HostRuntime) -> Result<(), Fail> {
    for (asked, limit) in LIMITS {
        let table = make_table(rt.alloc(), *asked)?;
        expect_empty(&rt, &table, *limit);
    }
    Ok(())
}

/// Limits of tables that are filled: the least, the greatest, and those about a word's end.
const FILLED: &[u32] = &[1, 2, 63, 64, 65, 128, 4096];

#[test]
fn the_lowest_free_number_is_taken(rt: HostRuntime) -> Result<(), Fail> {
    for limit in FILLED {
        fill_up(&rt, rt.alloc(), *limit)?;
    }
    Ok(())
}

/// Numbers that are closed, in this order, and that are open again behind them by rising number.
const CLOSED: &[u32] = &[900, 64, 63, 999, 130];

const OPENED: &[u32] = &[63, 64, 130, 900, 999, 1000];

#[test]
fn numbers_that_are_closed_are_found_again(rt: HostRuntime) -> Result<(), Fail> {
    let mut table = make_table(rt.alloc(), 1024)?;
    expect_two(&rt, &table, 0, 1);
    fill(&rt, &mut table, 0, 1000);
    for number in CLOSED {
        close(&rt, &mut table, *number, 7, false);
        close_nothing(&rt, &mut table, *number);
    }
    expect_two(&rt, &table, 63, 64);
    close_nothing(&rt, &mut table, 1001);
    close_nothing(&rt, &mut table, u32::MAX);
    for number in OPENED {
        open(&rt, &mut table, *number, 7, false);
    }
    table.clear();
    expect_count(&rt, &table, 7, 0);
    expect_empty(&rt, &table, 1024);
    Ok(())
}

/// Minimums, and the number of a copy of each where 0 to 3 and 5 are open and the limit is 8 (F_DUPFD of fcntl(2)).
const MINIMUMS: &[(u32, Option<u32>)] = &[
    (0, Some(4)),
    (4, Some(4)),
    (5, Some(6)),
    (7, Some(7)),
    (8, None),
    (u32::MAX, None),
];

#[test]
fn a_copy_gets_no_number_below_its_minimum(rt: HostRuntime) -> Result<(), Fail> {
    let mut table = make_table(rt.alloc(), 8)?;
    fill(&rt, &mut table, 0, 4);
    open_from(&rt, &mut table, 5, 5);
    for (minimum, number) in MINIMUMS {
        expect_from(&rt, &table, *minimum, *number);
    }
    open_from(&rt, &mut table, 5, 6);
    open_from(&rt, &mut table, 5, 7);
    // 4 is free still, but below the minimum.
    expect_full_from(&rt, &mut table, 5);
    expect_lowest(&rt, &table, 4);
    open_from(&rt, &mut table, 1, 4);
    expect_full(&rt, &mut table);
    Ok(())
}

#[test]
fn two_numbers_are_opened_together_or_not_at_all(rt: HostRuntime) -> Result<(), Fail> {
    let mut table = make_table(rt.alloc(), 5)?;
    fill(&rt, &mut table, 0, 3);
    close(&rt, &mut table, 1, 7, false);
    open_two(&rt, &mut table, 1, 3);
    // One number alone is left.
    refuse_two(&rt, &mut table);
    expect_closed(&rt, &table, 4);
    expect_lowest(&rt, &table, 4);
    open(&rt, &mut table, 4, 7, false);
    refuse_two(&rt, &mut table);
    Ok(())
}

/// References to the descriptions 7, 8 and 9.
fn three_references(alloc: Global) -> Result<RefList, AllocError> {
    RefList::from_slice(alloc, &[7, 8, 9].map(DescriptionId::new))
}

/// Opens so many numbers for the first of the references.
#[tactic(auto, using(ux_fdtable::proofs::Installing::free_below))]
fn open_all(
    alloc: Global,
    table: &mut Table,
    count: usize,
    references: &RefList,
    cloexec: bool,
) -> Result<(), AllocError> {
    let numbers = table.lowest_numbers(alloc, count)?;
    table.install_all(&numbers, references.as_slice(), cloexec)
}

/// The same, where it lacks memory.
#[tactic(auto, using(ux_fdtable::proofs::Installing::free_below))]
fn refuse_all(
    rt: &impl Abort,
    alloc: Global,
    table: &mut Table,
    references: &RefList,
) -> Result<(), AllocError> {
    let numbers = table.lowest_numbers(alloc, references.len())?;
    let hoard = Hoard::take_all(alloc)?;
    let answer = table.install_all(&numbers, references.as_slice(), true);
    let found = table.lowest_numbers(alloc, 1);
    drop(hoard);
    assert!(rt; answer.is_err() && found.is_err());
    Ok(())
}

#[test]
fn many_numbers_are_opened_at_once(rt: HostRuntime) -> Result<(), Fail> {
    let alloc = rt.alloc();
    let mut table = make_table(alloc, 5)?;
    let references = three_references(alloc)?;
    open(&rt, &mut table, 0, 1, false);
    open(&rt, &mut table, 1, 2, false);
    open(&rt, &mut table, 2, 3, false);
    close(&rt, &mut table, 1, 2, false);
    open_all(alloc, &mut table, 2, &references, true)?;
    expect_open(&rt, &table, 1, 7, true);
    expect_open(&rt, &table, 3, 8, true);
    expect_open(&rt, &table, 2, 3, false);
    expect_lowest(&rt, &table, 4);
    // Only as many as there are numbers.
    open_all(alloc, &mut table, 3, &references, false)?;
    expect_open(&rt, &table, 4, 7, false);
    expect_full(&rt, &mut table);
    Ok(())
}

#[test]
fn many_numbers_are_refused_together(rt: HostRuntime) -> Result<(), Fail> {
    let alloc = rt.alloc();
    let mut table = make_table(alloc, 9)?;
    let references = three_references(alloc)?;
    refuse_all(&rt, alloc, &mut table, &references)?;
    expect_empty(&rt, &table, 9);
    Ok(())
}

#[test]
fn a_copy_starts_without_close_on_exec(rt: HostRuntime) -> Result<(), Fail> {
    let mut table = make_table(rt.alloc(), 4)?;
    assert_eq!(rt; DescriptionId::new(u128::MAX).number(), u128::MAX);
    assert!(rt; descriptor(3, true).duplicate() == descriptor(3, false));
    open(&rt, &mut table, 0, 3, true);
    copy_to(&rt, &mut table, 3, 3);
    expect_open(&rt, &table, 3, 3, false);
    copy_over(&rt, &mut table, 0, 2, 3);
    expect_open(&rt, &table, 0, 2, false);
    copy_beyond(&rt, &mut table, 4);
    copy_beyond(&rt, &mut table, u32::MAX);
    expect_two(&rt, &table, 1, 2);
    Ok(())
}

#[test]
fn numbers_with_the_flag_are_closed_on_exec(rt: HostRuntime) -> Result<(), Fail> {
    let mut table = make_table(rt.alloc(), 5)?;
    open(&rt, &mut table, 0, 10, true);
    open(&rt, &mut table, 1, 11, false);
    open(&rt, &mut table, 2, 12, true);
    open(&rt, &mut table, 3, 13, false);
    table.set_cloexec(Fd(0), false);
    table.set_cloexec(Fd(3), true);
    table.set_cloexec(Fd(4), true);
    table.close_on_exec();
    expect_open(&rt, &table, 0, 10, false);
    expect_open(&rt, &table, 1, 11, false);
    expect_closed(&rt, &table, 3);
    expect_closed(&rt, &table, 4);
    expect_two(&rt, &table, 2, 3);
    Ok(())
}

#[test]
fn a_copy_of_a_table_is_a_table_of_its_own(rt: HostRuntime) -> Result<(), Fail> {
    let mut table = make_table(rt.alloc(), 4)?;
    open(&rt, &mut table, 0, 10, true);
    open(&rt, &mut table, 1, 11, false);
    let mut copy = table.clone()?;
    close(&rt, &mut table, 1, 11, false);
    table.set_cloexec(Fd(0), false);
    expect_two(&rt, &copy, 2, 3);
    copy.close_on_exec();
    expect_closed(&rt, &copy, 0);
    expect_open(&rt, &copy, 1, 11, false);
    expect_two(&rt, &copy, 0, 2);
    expect_open(&rt, &table, 0, 10, false);
    expect_two(&rt, &table, 1, 2);
    Ok(())
}

#[test]
fn a_copy_of_a_table_needs_memory(rt: HostRuntime) -> Result<(), Fail> {
    let alloc = rt.alloc();
    let mut table = make_table(alloc, 1024)?;
    open(&rt, &mut table, 0, 10, true);
    let hoard = Hoard::take_all(alloc)?;
    let failed = table.clone().is_err();
    drop(hoard);
    assert!(rt; failed);
    expect_open(&rt, &table, 0, 10, true);
    expect_lowest(&rt, &table, 1);
    Ok(())
}

#[test]
fn numbers_are_closed_without_memory(rt: HostRuntime) -> Result<(), Fail> {
    let alloc = rt.alloc();
    let mut table = make_table(alloc, 5)?;
    open(&rt, &mut table, 0, 10, true);
    open(&rt, &mut table, 1, 11, false);
    open(&rt, &mut table, 2, 12, false);
    let hoard = Hoard::take_all(alloc)?;
    close(&rt, &mut table, 1, 11, false);
    close_nothing(&rt, &mut table, 4);
    table.close_on_exec();
    drop(hoard);
    expect_closed(&rt, &table, 0);
    expect_open(&rt, &table, 2, 12, false);
    expect_two(&rt, &table, 0, 1);
    Ok(())
}

#[test]
fn a_failed_growth_changes_nothing(rt: HostRuntime) -> Result<(), Fail> {
    let alloc = rt.alloc();
    let mut table = make_table(alloc, 1024)?;
    let hoard = Hoard::take_all(alloc)?;
    let installed = table.install(descriptor(1, true));
    let copied = table.dup_at(Fd(1000), descriptor(2, true));
    drop(hoard);
    assert_eq!(rt; installed, Err(InstallError::NoMemory));
    expect_closed(&rt, &table, 0);
    expect_lowest(&rt, &table, 0);
    assert_eq!(rt; copied, Err(DupError::NoMemory));
    expect_closed(&rt, &table, 1000);
    expect_count(&rt, &table, 2, 0);
    Ok(())
}

#[test]
fn a_table_needs_memory(rt: HostRuntime) -> Result<(), Fail> {
    let alloc = rt.alloc();
    let hoard = Hoard::take_all(alloc)?;
    let failed = make_table(alloc, 1024).is_err();
    drop(hoard);
    assert!(rt; failed);
    Ok(())
}

#[test]
fn errors_are_printed_in_words(rt: HostRuntime) -> Result<(), Fail> {
    let full = InstallError::Full;
    let bad = DupError::BadNumber;
    let text = format!(in rt.alloc(); "{full}, {bad}")?;
    assert_eq!(rt;
        text.as_str(),
        "too many open descriptors, bad descriptor number"
    );
    Ok(())
}
