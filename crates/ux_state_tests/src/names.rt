//! Names at their limits. Each step is a function of its own, so that a test's proof stays short.
use hoard::Hoard;
use std::alloc::{AllocError, Global};
use std::ops::Range;
use std::process::Abort;
use std::test::Fail;
use ux_names::{
    AbstractNames, AutobindError, BindError, PathTarget, Paths, is_unnamed, is_valid_addr,
    is_valid_path,
};
use ux_types::{Addr, DescriptionId, Errno, Name, Refusal};

/// How many names autobind chooses from.
const CHOICE: u128 = 1_048_576;

/// The socket of this description.
fn socket(number: u128) -> PathTarget {
    PathTarget::Socket(DescriptionId::new(number))
}

/// Binds a path, which wasn't listed.
fn bind_path(
    rt: &impl Abort,
    alloc: Global,
    paths: &mut Paths,
    path: &[u8],
    target: PathTarget,
) -> Result<(), Fail> {
    let before = paths.len();
    assert!(rt; paths.bind(Name::from_slice(alloc, path)?, target).is_ok());
    assert_eq!(rt; paths.len(), before.saturating_add(1));
    expect_path(rt, alloc, paths, path, Some(target))
}

/// Sees what a path names.
fn expect_path(
    rt: &impl Abort,
    alloc: Global,
    paths: &Paths,
    path: &[u8],
    target: Option<PathTarget>,
) -> Result<(), Fail> {
    let name = Name::from_slice(alloc, path)?;
    assert_eq!(rt; paths.find(&name), target);
    Ok(())
}

/// Takes a path away, which named this.
fn unlink(
    rt: &impl Abort,
    alloc: Global,
    paths: &mut Paths,
    path: &[u8],
    target: Option<PathTarget>,
) -> Result<(), Fail> {
    let name = Name::from_slice(alloc, path)?;
    assert_eq!(rt; paths.unlink(&name), target);
    expect_path(rt, alloc, paths, path, None)
}

/// Sees which path an entry of the list has.
fn expect_path_at(rt: &impl Abort, listed: &[(&Name, PathTarget)], index: usize, path: &[u8]) {
    match listed.get(index) {
        Some((name, _)) => assert_eq!(rt; name.as_bytes(), path, "{index}"),
        None => assert!(rt; false, "{index}"),
    }
}

/// Sees which paths there are, in order.
fn expect_order(rt: &impl Abort, paths: &Paths, order: &[&[u8]]) -> Result<(), Fail> {
    let listed = paths.in_order()?;
    assert_eq!(rt; listed.len(), order.len());
    assert_eq!(rt; paths.len(), order.len());
    assert!(rt; paths.is_empty() == order.is_empty());
    for (index, path) in order.iter().enumerate() {
        expect_path_at(rt, listed.as_slice(), index, path);
    }
    Ok(())
}

/// Binds a name, and sees whether that was answered.
fn bind(
    rt: &impl Abort,
    alloc: Global,
    names: &mut AbstractNames,
    name: &[u8],
    number: u128,
    answer: Result<(), BindError>,
) -> Result<(), Fail> {
    let bound = names.bind(Name::from_slice(alloc, name)?, DescriptionId::new(number));
    assert!(rt; bound == answer, "{number}");
    Ok(())
}

/// Binds the name that is given, which is this one.
fn autobind(
    rt: &impl Abort,
    names: &mut AbstractNames,
    number: u128,
    name: &[u8],
) -> Result<(), Fail> {
    let given = names.autobind(DescriptionId::new(number))?;
    assert_eq!(rt; given.as_bytes(), name, "{number}");
    let found = names.find(&given);
    assert!(rt; found == Some(DescriptionId::new(number)), "{number}");
    Ok(())
}

/// Gives a name up that led to this description.
fn release(
    rt: &impl Abort,
    alloc: Global,
    names: &mut AbstractNames,
    name: &[u8],
    number: u128,
) -> Result<(), Fail> {
    let name = Name::from_slice(alloc, name)?;
    assert!(rt; names.release(&name) == Some(DescriptionId::new(number)));
    assert!(rt; names.find(&name).is_none());
    assert!(rt; names.release(&name).is_none());
    Ok(())
}

/// Sees which name has a place, and what it leads to.
fn expect_place(
    rt: &impl Abort,
    names: &AbstractNames,
    index: usize,
    bytes: &[u8],
    number: u128,
) -> Result<(), Fail> {
    let listed = names.in_order()?;
    match listed.get(index) {
        Some((name, id)) => {
            assert_eq!(rt; name.as_bytes(), bytes);
            assert_eq!(rt; id.number(), number);
        }
        None => assert!(rt; false, "{number}"),
    }
    Ok(())
}

/// Binds so many of the names that are given, and answers how many were.
fn autobind_all(names: &mut AbstractNames, count: u128) -> u128 {
    for number in 0..count {
        if names.autobind(DescriptionId::new(number)).is_err() {
            return number;
        }
    }
    count
}

/// Sees that no name is left to give.
fn expect_none_free(rt: &impl Abort, names: &mut AbstractNames) {
    let refused = names.autobind(DescriptionId::new(0)).err();
    assert_eq!(rt; refused, Some(AutobindError::NoneFree));
}

/// Three paths, bound in this order.
fn three_paths(rt: &impl Abort, alloc: Global) -> Result<Paths, Fail> {
    let mut paths = Paths::new(alloc);
    expect_order(rt, &paths, &[])?;
    bind_path(rt, alloc, &mut paths, b"/b", PathTarget::File(7))?;
    bind_path(rt, alloc, &mut paths, b"/a", socket(1))?;
    bind_path(rt, alloc, &mut paths, b"/c", socket(u128::MAX))?;
    expect_order(rt, &paths, &[b"/b", b"/a", b"/c"])?;
    Ok(paths)
}

#[test]
fn a_path_is_bound_once(rt: HostRuntime) -> Result<(), Fail> {
    let alloc = rt.alloc();
    let mut paths = three_paths(&rt, alloc)?;
    let again = paths.bind(Name::from_slice(alloc, b"/a")?, PathTarget::File(8));
    assert_eq!(rt; again, Err(BindError::Taken));
    expect_path(&rt, alloc, &paths, b"/a", Some(socket(1)))?;
    expect_path(&rt, alloc, &paths, b"/d", None)?;
    paths.clear();
    expect_order(&rt, &paths, &[])?;
    Ok(())
}

#[test]
fn paths_keep_their_order(rt: HostRuntime) -> Result<(), Fail> {
    let alloc = rt.alloc();
    let mut paths = three_paths(&rt, alloc)?;
    unlink(&rt, alloc, &mut paths, b"/d", None)?;
    unlink(&rt, alloc, &mut paths, b"/b", Some(PathTarget::File(7)))?;
    expect_order(&rt, &paths, &[b"/a", b"/c"])?;
    bind_path(&rt, alloc, &mut paths, b"/b", socket(2))?;
    expect_order(&rt, &paths, &[b"/a", b"/c", b"/b"])?;
    Ok(())
}

/// The path of a number.
fn path_of(alloc: Global, number: u32) -> Result<Name, AllocError> {
    let text = format!(in alloc; "/{number}")?;
    Name::from_slice(alloc, text.as_bytes())
}

/// Binds the paths of these numbers, also in a plain list of the numbers.
fn bind_many(
    rt: &impl Abort,
    alloc: Global,
    paths: &mut Paths,
    plain: &mut Vec<u32>,
    numbers: Range<u32>,
) -> Result<(), Fail> {
    for number in numbers {
        let bound = paths.bind(path_of(alloc, number)?, PathTarget::File(number));
        assert!(rt; bound.is_ok(), "{number}");
        plain.push(number)?;
    }
    Ok(())
}

/// Takes away the path at a place of the plain list.
fn unlink_at(
    rt: &impl Abort,
    alloc: Global,
    paths: &mut Paths,
    plain: &mut Vec<u32>,
    place: usize,
) -> Result<(), Fail> {
    if place < plain.len() {
        let number = plain.remove(place);
        let name = path_of(alloc, number)?;
        assert_eq!(rt; paths.unlink(&name), Some(PathTarget::File(number)));
    }
    Ok(())
}

/// Sees that the paths are those of the plain list, in its order.
fn expect_plain(rt: &impl Abort, alloc: Global, paths: &Paths, plain: &[u32]) -> Result<(), Fail> {
    let listed = paths.in_order()?;
    assert_eq!(rt; listed.len(), plain.len());
    for (index, number) in plain.iter().enumerate() {
        let name = path_of(alloc, *number)?;
        expect_path_at(rt, listed.as_slice(), index, name.as_bytes());
    }
    Ok(())
}

/// Takes away the oldest path, the newest and one in the middle, and binds another.
fn take_three(
    rt: &impl Abort,
    alloc: Global,
    paths: &mut Paths,
    plain: &mut Vec<u32>,
    number: u32,
) -> Result<(), Fail> {
    unlink_at(rt, alloc, paths, plain, 0)?;
    unlink_at(rt, alloc, paths, plain, plain.len().saturating_sub(1))?;
    unlink_at(rt, alloc, paths, plain, plain.len() / 2)?;
    bind_many(rt, alloc, paths, plain, number..number.saturating_add(1))?;
    expect_plain(rt, alloc, paths, plain.as_slice())
}

#[test]
fn many_paths_keep_their_order(rt: HostRuntime) -> Result<(), Fail> {
    let alloc = rt.alloc();
    let mut paths = Paths::new(alloc);
    let mut plain = Vec::new(alloc);
    bind_many(&rt, alloc, &mut paths, &mut plain, 0..100)?;
    expect_plain(&rt, alloc, &paths, plain.as_slice())?;
    for number in 100..149 {
        take_three(&rt, alloc, &mut paths, &mut plain, number)?;
    }
    paths.clear();
    plain.clear();
    bind_many(&rt, alloc, &mut paths, &mut plain, 0..5)?;
    expect_plain(&rt, alloc, &paths, plain.as_slice())
}

/// How many paths there are at most in a test.
const MANY: u32 = 1_000_000;

/// Binds so many paths, and answers how many were bound.
fn bind_to(alloc: Global, paths: &mut Paths, count: u32) -> Result<u32, AllocError> {
    let mut bound: u32 = 0;
    for number in 0..count {
        let path = path_of(alloc, number)?;
        let listed = paths.bind(path, PathTarget::File(number)).is_ok();
        bound = bound.saturating_add(u32::from(listed));
    }
    Ok(bound)
}

/// Takes these paths away, the oldest first, and answers how many named what they were to.
fn unlink_from_oldest(alloc: Global, paths: &mut Paths, count: u32) -> Result<u32, AllocError> {
    let mut unlinked: u32 = 0;
    for number in 0..count {
        let path = path_of(alloc, number)?;
        let named = paths.unlink(&path) == Some(PathTarget::File(number));
        unlinked = unlinked.saturating_add(u32::from(named));
    }
    Ok(unlinked)
}

#[test]
fn a_million_paths_go_from_the_oldest_on(rt: HostRuntime) -> Result<(), Fail> {
    let alloc = rt.alloc();
    let mut paths = Paths::new(alloc);
    assert_eq!(rt; bind_to(alloc, &mut paths, MANY)?, MANY);
    assert_eq!(rt; paths.len() as u128, u128::from(MANY));
    assert_eq!(rt; unlink_from_oldest(alloc, &mut paths, MANY)?, MANY);
    assert!(rt; paths.is_empty());
    Ok(())
}

/// Names that aren't of five digits of `0-9a-f`.
const OTHERS: &[&[u8]] = &[b"0000", b"000000", b"0000A", b"0000g", b"0000/", b""];

/// Binds names that autobind doesn't give.
fn bind_others(rt: &impl Abort, alloc: Global, names: &mut AbstractNames) -> Result<(), Fail> {
    for other in OTHERS {
        bind(rt, alloc, names, other, 93, Ok(()))?;
    }
    Ok(())
}

#[test]
fn a_name_that_was_bound_by_hand_is_not_given(rt: HostRuntime) -> Result<(), Fail> {
    let alloc = rt.alloc();
    let mut names = AbstractNames::new(alloc)?;
    bind(&rt, alloc, &mut names, b"00001", 90, Ok(()))?;
    bind(&rt, alloc, &mut names, b"00001", 91, Err(BindError::Taken))?;
    bind_others(&rt, alloc, &mut names)?;
    autobind(&rt, &mut names, 0, b"00000")?;
    autobind(&rt, &mut names, 2, b"00002")?;
    expect_place(&rt, &names, 0, b"00001", 90)?;
    Ok(())
}

#[test]
fn a_name_that_was_given_up_is_given_again(rt: HostRuntime) -> Result<(), Fail> {
    let alloc = rt.alloc();
    let mut names = AbstractNames::new(alloc)?;
    assert_eq!(rt; autobind_all(&mut names, 10), 10);
    bind_others(&rt, alloc, &mut names)?;
    release(&rt, alloc, &mut names, b"00004", 4)?;
    release(&rt, alloc, &mut names, b"0000A", 93)?;
    autobind(&rt, &mut names, 5, b"00004")?;
    autobind(&rt, &mut names, 6, b"0000a")?;
    Ok(())
}

#[test]
fn each_of_the_names_is_given_once(rt: HostRuntime) -> Result<(), Fail> {
    let alloc = rt.alloc();
    let mut names = AbstractNames::new(alloc)?;
    assert!(rt; names.is_empty());
    assert_eq!(rt; autobind_all(&mut names, CHOICE), CHOICE);
    assert_eq!(rt; names.len() as u128, CHOICE);
    expect_none_free(&rt, &mut names);
    bind(&rt, alloc, &mut names, b"other", 7, Ok(()))?;
    release(&rt, alloc, &mut names, b"80001", 0x80001)?;
    release(&rt, alloc, &mut names, b"7ffff", 0x7ffff)?;
    autobind(&rt, &mut names, 1, b"7ffff")?;
    autobind(&rt, &mut names, 2, b"80001")?;
    expect_none_free(&rt, &mut names);
    names.clear();
    assert!(rt; names.is_empty());
    autobind(&rt, &mut names, 3, b"00000")?;
    Ok(())
}

#[test]
fn a_name_without_memory_changes_nothing(rt: HostRuntime) -> Result<(), Fail> {
    let alloc = rt.alloc();
    let mut paths = Paths::new(alloc);
    let mut names = AbstractNames::new(alloc)?;
    let path = Name::from_slice(alloc, b"/a")?;
    let name = Name::from_slice(alloc, b"12345")?;
    let id = DescriptionId::new(1);
    let hoard = Hoard::take_all(alloc)?;
    let reserved = paths.reserve(1).is_err();
    let path_bound = paths.bind(path, socket(1));
    let name_bound = names.bind(name, id);
    let given = names.autobind(id).err();
    let none_is_made = AbstractNames::new(alloc).is_err();
    drop(hoard);
    assert!(rt; reserved && none_is_made);
    assert_eq!(rt; path_bound, Err(BindError::NoMemory));
    assert_eq!(rt; name_bound, Err(BindError::NoMemory));
    assert_eq!(rt; given, Some(AutobindError::NoMemory));
    assert!(rt; paths.is_empty() && names.is_empty());
    bind(&rt, alloc, &mut names, b"12345", 2, Ok(()))?;
    Ok(())
}

#[test]
fn names_go_without_memory(rt: HostRuntime) -> Result<(), Fail> {
    let alloc = rt.alloc();
    let mut paths = Paths::new(alloc);
    let mut names = AbstractNames::new(alloc)?;
    let path = Name::from_slice(alloc, b"/a")?;
    let listed = path.clone()?;
    let given = names.autobind(DescriptionId::new(1))?;
    paths.reserve(1)?;
    let hoard = Hoard::take_all(alloc)?;
    let bound = paths.bind(listed, socket(1));
    let unlinked = paths.unlink(&path);
    let released = names.release(&given);
    paths.clear();
    names.clear();
    drop(hoard);
    assert_eq!(rt; bound, Ok(()));
    assert_eq!(rt; unlinked, Some(socket(1)));
    assert_eq!(rt; released, Some(DescriptionId::new(1)));
    Ok(())
}

#[test]
fn refusals_are_answered_and_printed(rt: HostRuntime) -> Result<(), Fail> {
    let answers = [
        Refusal::from(BindError::Taken),
        Refusal::from(BindError::NoMemory),
        Refusal::from(AutobindError::NoneFree),
        Refusal::from(AutobindError::NoMemory),
    ];
    let wanted = [
        Refusal::Answer(Errno::EADDRINUSE),
        Refusal::NoMemory,
        Refusal::Answer(Errno::ENOSPC),
        Refusal::NoMemory,
    ];
    assert!(rt; answers == wanted);
    let taken = BindError::Taken;
    let none_free = AutobindError::NoneFree;
    let text = format!(in rt.alloc(); "{taken}, {none_free}")?;
    assert_eq!(rt; text.as_str(), "name already in use, no name is left");
    Ok(())
}

/// A byte, how often it stands in a name, and whether that can be a path and an abstract name: sun_path has 108 bytes, of
/// which one ends a path or begins an abstract name (unix(7)). An abstract name may hold any bytes.
const LENGTHS: &[(u8, usize, bool, bool)] = &[
    (b'a', 0, false, true),
    (b'a', 1, true, true),
    (b'a', 107, true, true),
    (b'a', 108, false, false),
    (255, 107, true, true),
    (0, 1, false, true),
    (0, 107, false, true),
    (0, 108, false, false),
];

/// Sees whether so many bytes can be a path and an abstract name.
fn expect_valid(
    rt: &impl Abort,
    alloc: Global,
    bytes: &[u8],
    path: bool,
    name: bool,
) -> Result<(), Fail> {
    let length = bytes.len();
    let as_path = Addr::Path(Name::from_slice(alloc, bytes)?);
    let as_name = Addr::Abstract(Name::from_slice(alloc, bytes)?);
    assert!(rt;
        is_valid_path(&Name::from_slice(alloc, bytes)?) == path,
        "{length}"
    );
    assert!(rt; is_valid_addr(&as_path) == path, "{length}");
    assert!(rt; is_valid_addr(&as_name) == name, "{length}");
    assert!(rt; !is_unnamed(&as_path) && !is_unnamed(&as_name), "{length}");
    Ok(())
}

#[test]
fn a_name_has_at_most_107_bytes(rt: HostRuntime) -> Result<(), Fail> {
    let alloc = rt.alloc();
    for (byte, count, path, name) in LENGTHS {
        let bytes = vec![in alloc; *byte; *count]?;
        expect_valid(&rt, alloc, &bytes, *path, *name)?;
    }
    // A path ends at its first NUL.
    expect_valid(&rt, alloc, b"a\0b", false, true)?;
    assert!(rt; is_valid_addr(&Addr::Unnamed) && is_unnamed(&Addr::Unnamed));
    Ok(())
}
