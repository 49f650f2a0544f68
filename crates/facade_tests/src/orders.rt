//! Every order of lists of calls.
use delortxa::{
    Boot, Errno, Fd, Found, Mode, ObjError, OrderFault, OrderList, Pid, Programs, Ran, Reply,
    Request, SockType, call, explore, explore_each,
};
use std::alloc::{AllocError, Global};
use std::process::Abort;
use std::test::Fail;

/// More runs than any programs here have.
const MANY: u64 = 1000;

/// The same where no order is left out.
const EACH: u64 = 100_000;

/// A unit of a counter.
const ONE: [u8; 8] = [1, 0, 0, 0, 0, 0, 0, 0];

const FIRST: Pid = Pid(1);

const SECOND: Pid = Pid(2);

const THIRD: Pid = Pid(3);

/// What all orders come to, of so many processes over this boot: the same whether orders that meet go on as one, or none
/// is left out.
fn found_by(
    alloc: Global,
    objects: Result<Boot, ObjError>,
    count: u32,
    programs: &Programs,
) -> Result<Found, Fail> {
    let boot = boot_of(objects, count)?;
    let Ok(found) = explore(alloc, &boot, programs, MANY) else {
        return Err(Fail::from("not explored"));
    };
    let Ok(each) = explore_each(alloc, &boot, programs, EACH) else {
        return Err(Fail::from("not explored each"));
    };
    // Where an object fails another answer could have come, so nobody can tell that these are all.
    if each.is_all == has_failed(&each) || !are_alike(alloc, &each, &found)? {
        return Err(Fail::from("other outcomes where none is left out"));
    }
    Ok(found)
}

/// Whether an object failed in one of the runs.
fn has_failed(found: &Found) -> bool {
    found.outcomes.iter().any(|outcome| {
        let mut entries = outcome.entries().iter();
        entries.any(|entry| entry.reply == Reply::Err(Errno::EIO))
    })
}

/// Whether the outcomes have the same orders.
fn are_alike(alloc: Global, each: &Found, found: &Found) -> Result<bool, Fail> {
    if each.outcomes.len() != found.outcomes.len() {
        return Ok(false);
    }
    for (one, other) in each.outcomes.iter().zip(&found.outcomes) {
        let (one, other) = (OrderList(one.entries()), OrderList(other.entries()));
        if format!(in alloc; "{one}")?.as_str() != format!(in alloc; "{other}")?.as_str() {
            return Ok(false);
        }
    }
    Ok(true)
}

/// A boot with these objects and so many processes.
fn boot_of(objects: Result<Boot, ObjError>, count: u32) -> Result<Boot, Fail> {
    let Ok(mut boot) = objects else {
        return Err(Fail::from("no object"));
    };
    for _ in 0..count {
        boot = boot.process(1000, 100, 16)?;
    }
    Ok(boot)
}

/// Sees that these are the orders of the outcomes, all of which were found by an order each.
fn has_outcomes<R: Abort>(
    rt: &R,
    alloc: Global,
    found: &Found,
    lists: &[&str],
) -> Result<(), Fail> {
    assert!(rt; found.is_all && found.orders == lists.len() as u64);
    assert_eq!(rt; found.outcomes.len(), lists.len());
    for (outcome, list) in found.outcomes.iter().zip(lists) {
        let order = OrderList(outcome.entries());
        assert_eq!(rt; format!(in alloc; "{order}")?.as_str(), *list);
    }
    Ok(())
}

/// The first process has a unit and takes it; the second takes it too, and gives it back.
fn one_unit(alloc: Global) -> Result<Programs, AllocError> {
    let programs = Programs::new(alloc).call(FIRST, call::open(alloc, b"c", Mode::Both)?)?;
    let programs = programs.call(FIRST, call::write(alloc, Fd(0), &ONE)?)?;
    let programs = programs.call(FIRST, call::read(Fd(0), 8))?;
    let programs = programs.wait(SECOND, FIRST, 2)?;
    let programs = programs.call(SECOND, call::open(alloc, b"c", Mode::Both)?)?;
    let programs = programs.call(SECOND, call::read(Fd(0), 8))?;
    programs.call(SECOND, call::write(alloc, Fd(0), &ONE)?)
}

/// Where the first process takes the unit, the second waits for good, at the third place of its list.
#[test]
fn a_deadlock_is_found(rt: HostRuntime) -> Result<(), Fail> {
    let alloc = rt.alloc();
    let objects = Boot::new(alloc).counter(b"c");
    let found = found_by(alloc, objects, 2, &one_unit(alloc)?)?;
    has_outcomes(&rt, alloc, &found, &["1,1,1,1,2", "1,1,2,2,2,1,1,2"])?;
    let mut deadlocks = found
        .outcomes
        .iter()
        .filter(|outcome| outcome.is_deadlock());
    let Some(Ran::Deadlock(_, waits)) = deadlocks.next() else {
        return Err(Fail::from("no deadlock"));
    };
    assert!(&rt; waits.as_slice() == [(SECOND, 3)].as_slice());
    assert!(&rt; deadlocks.next().is_none());
    Ok(())
}

/// No more runs are begun than the limit, and what is left is told.
#[test]
fn a_limit_is_kept(rt: HostRuntime) -> Result<(), Fail> {
    let alloc = rt.alloc();
    let programs = one_unit(alloc)?;
    let boot = boot_of(Boot::new(alloc).counter(b"c"), 2)?;
    for (limit, orders) in [(0, 0), (1, 1)] {
        let Ok(found) = explore(alloc, &boot, &programs, limit) else {
            return Err(Fail::from("not explored"));
        };
        assert!(&rt; !found.is_all && found.orders == orders);
        assert_eq!(&rt; found.outcomes.len() as u64, orders);
    }
    // Its first order has five calls, so six beginnings, and each is a run.
    for (limit, orders) in [(5, 0), (6, 1)] {
        let Ok(cut) = explore_each(alloc, &boot, &programs, limit) else {
            return Err(Fail::from("not explored each"));
        };
        assert!(&rt; !cut.is_all && cut.orders == orders);
    }
    Ok(())
}

/// A client connects to the server, which waits until it has.
fn connects(
    alloc: Global,
    programs: Programs,
    pid: Pid,
    name: &[u8],
) -> Result<Programs, AllocError> {
    let programs = programs.wait(pid, FIRST, 3)?;
    let programs = programs.call(pid, call::socket(SockType::Stream))?;
    let programs = programs.call(pid, call::bind_abstract(alloc, Fd(0), name)?)?;
    let programs = programs.call(pid, call::connect_abstract(alloc, Fd(0), b"server")?)?;
    let programs = programs.wait(FIRST, pid, 3)?;
    programs.wait(pid, FIRST, 5)
}

/// A server accepts two clients once both have connected: what comes out is who connected first. Behind the server's
/// three calls either client may connect; the exits have one order in the smallest list.
#[test]
fn who_connects_first_is_all_that_differs(rt: HostRuntime) -> Result<(), Fail> {
    let alloc = rt.alloc();
    let programs = Programs::new(alloc).call(FIRST, call::socket(SockType::Stream))?;
    let programs = programs.call(FIRST, call::bind_abstract(alloc, Fd(0), b"server")?)?;
    let programs = programs.call(FIRST, call::listen(Fd(0), 2))?;
    let programs = connects(alloc, programs, SECOND, b"red")?;
    let programs = connects(alloc, programs, THIRD, b"blue")?;
    let programs = programs.call(FIRST, call::accept(Fd(0)))?;
    let programs = programs.call(FIRST, call::accept(Fd(0)))?;
    let found = found_by(alloc, Ok(Boot::new(alloc)), 3, &programs)?;
    let lists = ["1,1,1,2,2,2,3,3,3,1,1,1,2,3", "1,1,1,2,2,3,3,3,2,1,1,1,2,3"];
    has_outcomes(&rt, alloc, &found, &lists)
}

/// The file's first read fails in each run anew: whoever reads first hears of it.
#[test]
fn each_run_starts_with_the_objects_as_at_first(rt: HostRuntime) -> Result<(), Fail> {
    let alloc = rt.alloc();
    let mut programs = Programs::new(alloc);
    for pid in [FIRST, SECOND] {
        programs = programs.call(pid, call::open(alloc, b"worn", Mode::Read)?)?;
        programs = programs.call(pid, call::read(Fd(0), 1))?;
    }
    let objects = Boot::new(alloc).failing_file(b"worn", b"x", 1);
    let found = found_by(alloc, objects, 2, &programs)?;
    has_outcomes(&rt, alloc, &found, &["1,1,1,2,2,2", "1,2,2,1,1,2"])?;
    for outcome in &found.outcomes {
        let failures = outcome
            .entries()
            .iter()
            .filter(|entry| matches!(entry.reply, Reply::Err(_)));
        assert_eq!(&rt; failures.count(), 1);
    }
    Ok(())
}

/// Where the first process waits for the second's exit, one order is left.
#[test]
fn a_wait_holds(rt: HostRuntime) -> Result<(), Fail> {
    let alloc = rt.alloc();
    let programs = Programs::new(alloc).wait(FIRST, SECOND, 1)?;
    let found = found_by(alloc, Ok(Boot::new(alloc)), 2, &programs)?;
    has_outcomes(&rt, alloc, &found, &["2,1"])
}

/// The child has the numbers of its parent as they were at the fork, so its send is answered, whatever its parent closes.
#[test]
fn the_list_of_a_child_begins_with_its_fork(rt: HostRuntime) -> Result<(), Fail> {
    let alloc = rt.alloc();
    let programs = Programs::new(alloc).call(SECOND, call::send(alloc, Fd(0), b"x")?)?;
    let programs = programs.call(FIRST, call::pair(SockType::Stream))?;
    let programs = programs.call(FIRST, Request::Fork)?;
    let programs = programs.call(FIRST, call::close(Fd(0)))?;
    let found = found_by(alloc, Ok(Boot::new(alloc)), 1, &programs)?;
    has_outcomes(&rt, alloc, &found, &["1,1,1,1,2,2"])?;
    let Some(outcome) = found.outcomes.first() else {
        return Err(Fail::from("no outcome"));
    };
    let sends = outcome.entries().iter().find(|entry| entry.pid == SECOND);
    let Some(send) = sends else {
        return Err(Fail::from("no send"));
    };
    assert!(&rt; send.reply == Reply::Count(1));
    Ok(())
}

/// A list that can't be made is refused, and so is a boot that can't start.
#[test]
fn what_cannot_be_made_is_refused(rt: HostRuntime) -> Result<(), Fail> {
    let alloc = rt.alloc();
    let boot = boot_of(Ok(Boot::new(alloc)), 2)?;
    for programs in strange(alloc)? {
        let refused = explore(alloc, &boot, &programs, MANY);
        assert!(&rt; matches!(refused, Err(OrderFault::Stranger)));
    }
    let refused = explore(
        alloc,
        &boot_of(two_of_one_path(alloc), 1)?,
        &Programs::new(alloc),
        MANY,
    );
    assert!(&rt; matches!(refused, Err(OrderFault::NoKernel)));
    Ok(())
}

/// Two pipes at one path.
fn two_of_one_path(alloc: Global) -> Result<Boot, ObjError> {
    Boot::new(alloc).pipe(b"p")?.pipe(b"p")
}

/// Of two processes: a call of nobody, and of one that isn't there; a wait for one that isn't there; a fork by the
/// second; a call and a wait behind an exit; and the end of the layer.
fn strange(alloc: Global) -> Result<Vec<Programs>, AllocError> {
    let mut all = Vec::new(alloc);
    all.push(Programs::new(alloc).call(Pid(0), call::exec())?)?;
    all.push(Programs::new(alloc).call(THIRD, call::exec())?)?;
    all.push(Programs::new(alloc).wait(FIRST, THIRD, 1)?)?;
    all.push(Programs::new(alloc).call(SECOND, Request::Fork)?)?;
    all.push(exited(alloc)?.call(FIRST, call::exec())?)?;
    all.push(exited(alloc)?.wait(FIRST, SECOND, 1)?)?;
    all.push(Programs::new(alloc).call(FIRST, Request::Off)?)?;
    Ok(all)
}

/// The first process exits.
fn exited(alloc: Global) -> Result<Programs, AllocError> {
    Programs::new(alloc).call(FIRST, Request::Exit)
}
