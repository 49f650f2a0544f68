//! Which of the passed descriptors a receiver gets, and references in order, with memory and without.
use hoard::Hoard;
use std::alloc::{AllocError, Global};
use std::process::Abort;
use std::test::Fail;
use ux_rights::{RefList, SendError, install_count};
use ux_types::{DescriptionId, Errno, Refusal};

/// Rights, control space and free numbers, and then how many are installed. An item's head has 16
/// bytes and a number 4 (cmsg(3) on a machine with 64 bits).
const COUNTS: &[(usize, usize, usize, usize)] = &[
    (0, 64, 9, 0),
    (1, 19, 9, 0),
    (1, 20, 9, 1),
    (3, 27, 9, 2),
    (3, 28, 9, 3),
    (3, 64, 2, 2),
    (253, 1028, 1024, 253),
    (5, usize::MAX, usize::MAX, 5),
];

#[test]
fn least_of_rights_space_and_numbers(rt: HostRuntime) {
    for (count, space, free, install) in COUNTS {
        assert_eq!(rt;
            install_count(*count, *space, *free),
            *install,
            "{count} {space} {free}"
        );
    }
}

fn numbers(alloc: Global, list: &RefList) -> Result<Vec<u128>, AllocError> {
    let mut numbers = Vec::new(alloc);
    for reference in list.as_slice() {
        numbers.push(reference.description().number())?;
    }
    Ok(numbers)
}

/// Sees that a list has these references.
fn expect_list(
    rt: &impl Abort,
    alloc: Global,
    list: &RefList,
    wanted: &[u128],
) -> Result<(), AllocError> {
    let found = numbers(alloc, list)?;
    assert_eq!(rt; found.as_slice(), wanted);
    Ok(())
}

#[test]
fn references_in_order(rt: HostRuntime) -> Result<(), AllocError> {
    let alloc = rt.alloc();
    let sent = [5, 7, 5, 9, 1, 2];
    let ids = sent.map(DescriptionId::new);
    let mut list = RefList::new(alloc);
    assert!(rt; list.is_empty());
    for id in ids {
        list.push(id)?;
    }
    let copy = list.clone()?;
    let taken = list.take();
    let whole = RefList::from_slice(alloc, &ids)?;
    assert_eq!(rt; list.len(), 0);
    assert_eq!(rt; taken.len(), 6);
    assert!(rt; taken.empty_like().is_empty());
    expect_list(&rt, alloc, &copy, &sent)?;
    expect_list(&rt, alloc, &taken, &sent)?;
    expect_list(&rt, alloc, &whole, &sent)?;
    Ok(())
}

#[test]
fn a_failed_growth_changes_nothing(rt: HostRuntime) -> Result<(), AllocError> {
    let alloc = rt.alloc();
    let ids = [5, 7, 5, 9, 1].map(DescriptionId::new);
    let mut short = RefList::from_slice(alloc, &ids[..4])?;
    let long = RefList::from_slice(alloc, &ids)?;
    let hoard = Hoard::take_all(alloc)?;
    let pushed = short.push(ids[4]);
    let copied: Result<_, AllocError> = long.clone();
    let made = RefList::from_slice(alloc, &ids);
    let copied_short: Result<_, AllocError> = short.clone();
    let taken = short.take();
    drop(hoard);
    assert!(rt; pushed.is_err() && copied.is_err() && made.is_err());
    expect_list(&rt, alloc, &copied_short?, &[5, 7, 5, 9])?;
    expect_list(&rt, alloc, &taken, &[5, 7, 5, 9])
}

#[test]
fn errors_are_refusals(rt: HostRuntime) -> Result<(), Fail> {
    let (full, no_memory) = (SendError::Full, SendError::NoMemory);
    let text = format!(in rt.alloc(); "{full}, {no_memory}")?;
    assert_eq!(rt; text.as_str(), "queue is full, out of memory");
    assert_eq!(rt; Refusal::from(full), Refusal::Answer(Errno::EAGAIN));
    assert_eq!(rt; Refusal::from(no_memory), Refusal::NoMemory);
    Ok(())
}
