//! How file objects go.
use super::{
    Asked, Machine, Row, Told, expect_rows, is_made, numbered_counters, process, request_of,
    turns_off, with_counters,
};
use std::alloc::{AllocError, Global};
use ux_kernel::{Kernel, Seed};
use ux_object::FileObject;
use ux_state::ReleasedObjects;
use ux_types::{Errno, ObjectLimit, Pid, Released, Request};

/// Whether this one file object was handed out, closed.
pub(super) fn is_gone(machine: &Machine, number: u32) -> bool {
    machine.released.len() == 1
        && machine.released.iter().all(|r| r.number() == number
            && r.object().is_some_and(|object| !object.is_open()))
}

/// Whether a call closed this one object.
fn is_alone(closed: &Released, number: u32) -> bool {
    let (first, others) = closed.parts();
    first.len() == 1 && first.first() == Some(&number) && others.is_empty()
}

/// Invalid paths, and paths that aren't there.
const NO_PATHS: &[Row] = &[
    (1, Asked::Unlink(b""), Told::Err(Errno::EINVAL)),
    (1, Asked::Unlink(b"c"), Told::Err(Errno::ENOENT)),
];

/// A path that was there.
const GONE: &[Row] = &[
    (1, Asked::Unlink(b"b"), Told::Err(Errno::ENOENT)),
    (1, Asked::Exit, Told::Ok),
];

#[test]
fn an_object_without_a_path_is_handed_out(rt: HostRuntime) -> Result<(), AllocError> {
    let alloc = rt.alloc();
    let mut machine = with_counters(alloc, &[b"a", b"b"])?;
    let k = &mut machine;
    expect_rows(&rt, alloc, k, NO_PATHS)?;
    assert!(rt; is_made(alloc, k, 1, &Asked::Unlink(b"b"))?);
    assert!(rt; is_gone(k, 1));
    expect_rows(&rt, alloc, k, GONE)?;
    assert!(rt; turns_off(k));
    assert!(rt; is_gone(k, 0));
    Ok(())
}

/// A kernel of as many counters as there may be, each under its number, and one process.
pub(super) fn with_most_counters(alloc: Global) -> Result<Machine, AllocError> {
    let objects = numbered_counters(alloc, 4096)?;
    let most = ObjectLimit::Raised;
    match Kernel::boot_with_seed(alloc, Seed::fixed(), most, objects, &[process(16)]) {
        Ok(kernel) => Ok(Machine {
            kernel,
            released: ReleasedObjects::new(alloc),
        }),
        Err(_) => Err(AllocError),
    }
}

/// What a call of the first process closes, where that may make it.
fn closed_by(machine: &mut Machine, request: &Request) -> Option<Released> {
    machine.released.clear();
    if matches!(request, Request::Off) || !machine.kernel.is_live(Pid(1)) {
        return None;
    }
    let (_done, numbers) = machine
        .kernel
        .step(Pid(1), 0, request, &mut machine.released);
    Some(numbers)
}

#[test]
fn the_last_of_4096_objects_goes_by_itself(rt: HostRuntime) -> Result<(), AllocError> {
    let alloc = rt.alloc();
    let mut machine = with_most_counters(alloc)?;
    let k = &mut machine;
    let unlink = request_of(alloc, &Asked::Unlink(b"4095"))?;
    let numbers = closed_by(k, &unlink);
    assert!(rt; numbers.is_some_and(|numbers| is_alone(&numbers, 4095)));
    assert!(rt; is_gone(k, 4095));
    let exit = closed_by(k, &Request::Exit);
    assert!(rt; exit.is_some_and(|numbers| numbers.is_empty()));
    assert!(rt; turns_off(k));
    assert!(rt; k.released.len() == 4095);
    Ok(())
}
