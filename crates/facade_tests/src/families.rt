//! Processes that make others, in threads of a nursery.
use crate::methods::MOST;
use delortxa::{
    BookName, Boot, Bytes, CallError, Calls, Errno, Family, FamilyProgram, Fd, Layer, Nursery, Pid,
    Request, Seat, SockType, with_family,
};
use std::sync::Wait;
use std::test::Fail;
use std::thread::Threads;

/// What the program gives whose first process is alone, where so many children may be made.
fn of_one<R: Threads + Wait + AllocGlobal + Sync, P: FamilyProgram<R>>(
    rt: &R,
    program: P,
    children: usize,
) -> Result<Family<P::Output, P::ChildOutput>, Fail> {
    let Ok(kernel) = Boot::new(rt.alloc()).process(1000, 100, 16)?.start() else {
        return Err(Fail::from("no kernel"));
    };
    with_family(rt, kernel, program, children).map_err(|_| Fail::from("no memory"))
}

/// A parent hears a word from its child, and then the end of all who could send one more.
#[derive(Drop)]
struct Hears;

impl<R: Wait> FamilyProgram<R> for Hears {
    type Task = Fd;

    type Output = Result<(Option<Pid>, Bytes, usize), CallError>;

    type ChildOutput = Result<Pid, CallError>;

    fn run<W: BookName>(
        &self,
        rt: &R,
        _layer: &Layer<W>,
        nursery: &Nursery<W, Fd>,
        seat: &mut Seat<W>,
    ) -> Self::Output {
        seat.pair(rt, SockType::Stream)?;
        let child = nursery.fork(rt, seat, Fd(1))?;
        seat.close(rt, Fd(1))?;
        let word = seat.recv(rt, Fd(0), 8)?.bytes;
        let end = seat.recv(rt, Fd(0), 8)?.count;
        Ok((child, word, end))
    }

    fn run_child<W: BookName>(
        &self,
        rt: &R,
        _layer: &Layer<W>,
        _nursery: &Nursery<W, Fd>,
        task: Fd,
        seat: &mut Seat<W>,
    ) -> Self::ChildOutput {
        seat.send(rt, task, b"word")?;
        // Its run ends early where it closes the number twice, and it exits all the same.
        seat.close(rt, Fd(0))?;
        seat.close(rt, Fd(0))?;
        Ok(seat.pid())
    }
}

#[test]
fn a_child_runs_beside_its_parent_and_exits_early(rt: HostRuntime) -> Result<(), Fail> {
    let family = of_one(&rt, Hears, 1)?;
    let [Ok((child, word, end))] = family.outputs.as_slice() else {
        return Err(Fail::from("the parent failed"));
    };
    assert_eq!(&rt;
        (*child, word.as_slice(), *end),
        (Some(Pid(2)), b"word".as_slice(), 0)
    );
    let [(pid, output)] = family.children.as_slice() else {
        return Err(Fail::from("not one child"));
    };
    assert_eq!(&rt;
        (*pid, output.as_ref().err()),
        (Pid(2), Some(&CallError::Refused(Errno::EBADF)))
    );
    // The child's send, its two closes and its exit; the parent's pair, fork, close, two receives and exit.
    let of_child = family
        .entries
        .iter()
        .filter(|entry| entry.pid == Pid(2))
        .count();
    assert_eq!(&rt; (of_child, family.entries.len()), (4, 10));
    Ok(())
}

/// Each process makes a child until there are as many as its task says, and gives how many processes it knows of.
#[derive(Drop)]
struct Descends;

impl<R: Wait> FamilyProgram<R> for Descends {
    type Task = u32;

    type Output = Result<Option<Pid>, CallError>;

    type ChildOutput = Result<Option<Pid>, CallError>;

    fn run<W: BookName>(
        &self,
        rt: &R,
        _layer: &Layer<W>,
        nursery: &Nursery<W, u32>,
        seat: &mut Seat<W>,
    ) -> Self::Output {
        nursery.fork(rt, seat, 2)
    }

    fn run_child<W: BookName>(
        &self,
        rt: &R,
        _layer: &Layer<W>,
        nursery: &Nursery<W, u32>,
        task: u32,
        seat: &mut Seat<W>,
    ) -> Self::ChildOutput {
        if task == 0 {
            return Ok(None);
        }
        nursery.fork(rt, seat, task - 1)
    }
}

#[test]
fn children_make_children(rt: HostRuntime) -> Result<(), Fail> {
    let family = of_one(&rt, Descends, 5)?;
    assert_eq!(&rt; family.outputs.as_slice(), [Ok(Some(Pid(2)))].as_slice());
    let children = [
        (Pid(2), Ok(Some(Pid(3)))),
        (Pid(3), Ok(Some(Pid(4)))),
        (Pid(4), Ok(None)),
    ];
    assert_eq!(&rt; family.children.as_slice(), children.as_slice());
    // Three forks, and the exits of four processes.
    assert_eq!(&rt; family.entries.len(), 7);
    Ok(())
}

#[test]
fn no_call_is_made_where_each_thread_has_had_its_child(rt: HostRuntime) -> Result<(), Fail> {
    let family = of_one(&rt, Descends, 2)?;
    let children = [(Pid(2), Ok(Some(Pid(3)))), (Pid(3), Ok(None))];
    assert_eq!(&rt; family.children.as_slice(), children.as_slice());
    assert_eq!(&rt; family.entries.len(), 5);
    let family = of_one(&rt, Descends, 0)?;
    assert_eq!(&rt; family.outputs.as_slice(), [Ok(None)].as_slice());
    assert_eq!(&rt; (family.children.len(), family.entries.len()), (0, 1));
    Ok(())
}

/// The first process makes as many others as there may be, and is refused one more.
#[derive(Drop)]
struct HasNoChild;

impl<R: Wait> FamilyProgram<R> for HasNoChild {
    type Task = ();

    type Output = Result<bool, CallError>;

    type ChildOutput = ();

    fn run<W: BookName>(
        &self,
        rt: &R,
        _layer: &Layer<W>,
        nursery: &Nursery<W, ()>,
        seat: &mut Seat<W>,
    ) -> Self::Output {
        for _number in 1..MOST {
            drop(seat.fork(rt)?.exit(rt));
        }
        match nursery.fork(rt, seat, ()) {
            Err(CallError::Refused(Errno::EAGAIN)) => Ok(true),
            _ => Ok(false),
        }
    }

    fn run_child<W: BookName>(
        &self,
        _rt: &R,
        _layer: &Layer<W>,
        _nursery: &Nursery<W, ()>,
        _task: (),
        _seat: &mut Seat<W>,
    ) {}
}

#[test]
fn a_fork_that_is_refused_runs_nothing(rt: HostRuntime) -> Result<(), Fail> {
    let family = of_one(&rt, HasNoChild, 1)?;
    assert_eq!(&rt; family.outputs.as_slice(), [Ok(true)].as_slice());
    // A fork and an exit for each child, the fork that is refused, and the exit.
    let forks = family
        .entries
        .iter()
        .filter(|entry| entry.request == Request::Fork)
        .count();
    assert_eq!(&rt; (family.children.len(), forks), (0, MOST as usize));
    assert_eq!(&rt; family.entries.len(), 2 * (MOST as usize - 1) + 2);
    Ok(())
}
