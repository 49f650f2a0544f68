//! Kernels that can be booted, and those that can't.
use super::{
    Asked, Row, Told, bare, counters, expect_rows, make_machine, numbered_counters, process,
};
use hoard::Hoard;
use std::alloc::{AllocError, Global};
use std::process::Abort;
use ux_kernel::{BootFault, Kernel, Seed};
use ux_object::FileObject;
use ux_objects::{Counter, Plain};
use ux_types::{Errno, Name, ObjectLimit, Pid, ProcSpec};

/// Two counters, the second of them closed.
fn one_closed(alloc: Global) -> Result<Vec<(Name, Plain)>, AllocError> {
    let mut objects = counters(alloc, &[b"a"])?;
    let mut closed = Plain::Counter(Counter::new());
    closed.close();
    objects.push((Name::from_slice(alloc, b"b")?, closed))?;
    Ok(objects)
}

/// The same, and another under the path of the first.
fn closed_and_twice(alloc: Global) -> Result<Vec<(Name, Plain)>, AllocError> {
    let mut objects = one_closed(alloc)?;
    objects.push((
        Name::from_slice(alloc, b"a")?,
        Plain::Counter(Counter::new()),
    ))?;
    Ok(objects)
}

/// These file objects have the same paths and contents as those.
fn are_as_before(rt: &impl Abort, objects: &[(Name, Plain)], before: &[(Name, Plain)]) {
    assert_eq!(rt; objects.len(), before.len());
    for (object, before) in objects.iter().zip(before) {
        assert_eq!(rt; object.0, before.0);
        assert_eq!(rt; object.1.is_open(), before.1.is_open());
        assert_eq!(rt; object.1.ready(), before.1.ready());
    }
}

/// These can't be booted, for this fault, and all file objects come back as they were.
fn faults(
    rt: &impl Abort,
    alloc: Global,
    (objects, as_before): (Vec<(Name, Plain)>, Vec<(Name, Plain)>),
    procs: &[ProcSpec],
    fault: BootFault,
) {
    match Kernel::boot(alloc, objects, procs) {
        Ok(_) => assert!(rt; false, "booted, and not {fault}"),
        Err((found, back)) => {
            assert_eq!(rt; found, fault);
            are_as_before(rt, &back, &as_before);
        }
    }
}

/// Counters under these paths, the first of them at 5, and the same once more.
fn two_alike(
    rt: &impl Abort,
    alloc: Global,
    paths: &[&[u8]],
) -> Result<(Vec<(Name, Plain)>, Vec<(Name, Plain)>), AllocError> {
    let mut first = counters(alloc, paths)?;
    let mut second = counters(alloc, paths)?;
    add_five(rt, &mut first);
    add_five(rt, &mut second);
    Ok((first, second))
}

/// Adds 5 to the first of these counters.
fn add_five(rt: &impl Abort, objects: &mut Vec<(Name, Plain)>) {
    if let Some(first) = objects.first_mut() {
        if first.1.is_open() {
            assert_eq!(rt; first.1.write(0, &5u64.to_le_bytes()), Ok(8));
        }
    }
}

/// Counters under these paths can't be booted, for this fault, and come back as they were.
fn faults_at(
    rt: &impl Abort,
    alloc: Global,
    paths: &[&[u8]],
    procs: &[ProcSpec],
    fault: BootFault,
) -> Result<(), AllocError> {
    faults(rt, alloc, two_alike(rt, alloc, paths)?, procs, fault);
    Ok(())
}

#[test]
fn each_fault_stops_a_boot(rt: HostRuntime) -> Result<(), AllocError> {
    let alloc = rt.alloc();
    let one = [process(16)];
    let crowd: [&[u8]; 65] = [b"a"; 65];
    let many: Vec<ProcSpec> = vec![in alloc; process(2); 65]?;
    faults_at(&rt, alloc, &crowd, &one, BootFault::TooManyObjects)?;
    faults_at(&rt, alloc, &[b"a"], &many, BootFault::TooManyProcesses)?;
    faults_at(&rt, alloc, &[b"a", b"b", b"a"], &one, BootFault::NameTwice)?;
    let objects = (one_closed(alloc)?, one_closed(alloc)?);
    faults(&rt, alloc, objects, &one, BootFault::ObjectClosed);
    Ok(())
}

#[test]
fn a_path_that_cannot_be_stops_a_boot(rt: HostRuntime) -> Result<(), AllocError> {
    let alloc = rt.alloc();
    let one = [process(16)];
    let long: Vec<u8> = vec![in alloc; 97; 108]?;
    faults_at(&rt, alloc, &[b"a", b""], &one, BootFault::BadPath)?;
    faults_at(&rt, alloc, &[b"a", b"b\0"], &one, BootFault::BadPath)?;
    faults_at(&rt, alloc, &[&long], &one, BootFault::BadPath)?;
    let longest = counters(alloc, &[&long[1..]])?;
    assert!(rt; make_machine(alloc, longest, &one).is_ok());
    Ok(())
}

#[test]
fn a_boot_without_memory_gives_the_objects_back(rt: HostRuntime) -> Result<(), AllocError> {
    let alloc = rt.alloc();
    let one = [process(16)];
    let (objects, as_before) = two_alike(&rt, alloc, &[b"a", b"b"])?;
    let hoard = Hoard::take_all(alloc)?;
    let refused = Kernel::boot(alloc, objects, &one).err();
    drop(hoard);
    match refused {
        Some((fault, back)) => {
            assert_eq!(rt; fault, BootFault::NoMemory);
            are_as_before(&rt, &back, &as_before);
        }
        None => assert!(rt; false, "booted without memory"),
    }
    Ok(())
}

#[test]
fn of_two_faults_one_is_told(rt: HostRuntime) -> Result<(), AllocError> {
    let alloc = rt.alloc();
    let one = [process(16)];
    let many: Vec<ProcSpec> = vec![in alloc; process(2); 65]?;
    let crowd: [&[u8]; 65] = [b"a"; 65];
    faults_at(&rt, alloc, &crowd, &many, BootFault::TooManyObjects)?;
    faults_at(&rt, alloc, &[b""], &many, BootFault::TooManyProcesses)?;
    faults_at(&rt, alloc, &[b"", b""], &one, BootFault::BadPath)?;
    let objects = (closed_and_twice(alloc)?, closed_and_twice(alloc)?);
    faults(&rt, alloc, objects, &one, BootFault::NameTwice);
    Ok(())
}

/// How many file objects there are, how many there may be, and whether a kernel is made.
const CROWDS: &[(u32, ObjectLimit, bool)] = &[
    (64, ObjectLimit::Usual, true),
    (65, ObjectLimit::Usual, false),
    (65, ObjectLimit::Raised, true),
    (4096, ObjectLimit::Raised, true),
    (4097, ObjectLimit::Raised, false),
];

/// Sees whether a kernel with so many file objects is made; those of none come back.
fn expect_boot(
    rt: &impl Abort,
    alloc: Global,
    count: u32,
    most: ObjectLimit,
    boots: bool,
) -> Result<(), AllocError> {
    let one = [process(2)];
    let objects = numbered_counters(alloc, count)?;
    let refused = Kernel::boot_with_seed(alloc, Seed::fixed(), most, objects, &one).err();
    match refused {
        Some((fault, back)) => {
            assert!(rt; !boots);
            assert_eq!(rt; fault, BootFault::TooManyObjects);
            assert_eq!(rt; back.len(), count as usize);
        }
        None => assert!(rt; boots),
    }
    Ok(())
}

#[test]
fn a_kernel_has_64_objects_or_4096_at_most(rt: HostRuntime) -> Result<(), AllocError> {
    for (count, most, boots) in CROWDS {
        expect_boot(&rt, rt.alloc(), *count, *most, *boots)?;
    }
    Ok(())
}

/// The faults of a start, and their numbers.
const FAULTS: &[(BootFault, u8)] = &[
    (BootFault::TooManyObjects, 1),
    (BootFault::TooManyProcesses, 2),
    (BootFault::NameTwice, 3),
    (BootFault::ObjectClosed, 4),
    (BootFault::NoMemory, 5),
    (BootFault::BadPath, 6),
];

#[test]
fn boot_faults_have_their_numbers(rt: HostRuntime) {
    for (fault, number) in FAULTS {
        assert!(rt; *fault as u8 == *number);
    }
}

/// Pairs and sockets of three processes, with the limits 0, 1 and 2.
const LIMITS: &[Row] = &[
    (1, Asked::Pair, Told::Err(Errno::EMFILE)),
    (1, Asked::Socket, Told::Fd(0)),
    (1, Asked::Socket, Told::Err(Errno::EMFILE)),
    (2, Asked::Pair, Told::Err(Errno::EMFILE)),
    (2, Asked::Socket, Told::Fd(0)),
    (2, Asked::Socket, Told::Err(Errno::EMFILE)),
    (3, Asked::Pair, Told::Fds(0, 1)),
    (3, Asked::Socket, Told::Err(Errno::EMFILE)),
];

#[test]
fn a_limit_of_0_counts_as_1(rt: HostRuntime) -> Result<(), AllocError> {
    let alloc = rt.alloc();
    let mut machine = bare(alloc, &[process(0), process(1), process(2)])?;
    expect_rows(&rt, alloc, &mut machine, LIMITS)
}

#[test]
fn a_kernel_has_64_processes_at_most(rt: HostRuntime) -> Result<(), AllocError> {
    let alloc = rt.alloc();
    let specs: Vec<ProcSpec> = vec![in alloc; process(2); 65]?;
    assert!(rt; bare(alloc, &specs).is_err());
    let mut machine = bare(alloc, &specs[..64])?;
    let k = &mut machine;
    for pid in 1..65 {
        expect_rows(&rt, alloc, k, &[(pid, Asked::Pair, Told::Fds(0, 1))])?;
    }
    assert!(rt; !k.kernel.is_live(Pid(0)));
    assert!(rt; !k.kernel.is_live(Pid(65)));
    Ok(())
}
