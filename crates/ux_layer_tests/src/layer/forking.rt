//! Processes that seats make, the accounts of all of them, and the wait for one that nobody makes.
ghost use Rattle.std.specs.Prelude.{◌≡◌, [], IfOk};
ghost use Rattle.ux_model.specs.Boot.{IsBootState};

use super::{Trouble, USER, ask_for_more, calls_and_exits, two_processes};
use std::alloc::Global;
use std::marker::Brand;
use std::process::Abort;
use std::sync::Wait;
use std::test::Fail;
use std::thread;
use std::thread::Threads;
use ux_book::{BookName, Keeper, Receipt, Spent, Trail};
use ux_kernel::Kernel;
use ux_layer::{Layer, Seat, start, start_counting};
use ux_objects::Counter;
use ux_types::{Errno, Pid, Reply};

/// How many processes a layer has at most, those that have exited too.
const MOST: u32 = 1024;

/// A process's seat, those of its children by rising number, and what its forks left.
struct Family<W: BookName, K: Keeper> {
    parent: Seat<W, Counter, K>,
    children: Vec<Seat<W, Counter, K>>,
    receipts: Vec<Receipt<W>>,
}

/// Written out, a drop is a call, and not each of its parts in the proof of each function that drops one.
impl<W: BookName, K: Keeper> Drop for Family<W, K> {
    fn drop(self) {
        let Family {
            parent,
            children,
            receipts,
        } = self;
        drop(parent);
        drop(children);
        drop(receipts);
    }
}

impl<W: BookName, K: Keeper> Family<W, K> {
    /// Makes a fork that must be answered so, and gives the child's seat.
    fn ask<R: Wait>(
        &mut self,
        rt: &R,
        answer: Reply,
    ) -> Result<Option<Seat<W, Counter, K>>, Trouble> {
        let (reply, receipt, child) = match self.parent.fork(rt) {
            Ok(made) => made,
            Err(fault) => return Err(Trouble::Fault(fault)),
        };
        if reply != answer {
            return Err(Trouble::Wrong);
        }
        match self.receipts.push(receipt) {
            Ok(()) => Ok(child),
            Err(_) => Err(Trouble::Memory),
        }
    }

    /// Makes a child, which must have this number, and no call yet.
    fn fork<R: Wait>(&mut self, rt: &R, pid: Pid) -> Result<(), Trouble> {
        let Some(child) = self.ask(rt, Reply::Child(pid))? else {
            return Err(Trouble::Wrong);
        };
        if child.pid() != pid || child.calls() != 0 {
            return Err(Trouble::Wrong);
        }
        match self.children.push(child) {
            Ok(()) => Ok(()),
            Err(_) => Err(Trouble::Memory),
        }
    }

    /// Makes as many children as there may be, and one more in vain.
    fn fork_all<R: Wait>(&mut self, rt: &R) -> Result<(), Trouble> {
        for number in 2..=MOST {
            self.fork(rt, Pid(number))?;
        }
        match self.ask(rt, Reply::Err(Errno::EAGAIN))? {
            Some(_child) => Err(Trouble::Wrong),
            None => Ok(()),
        }
    }

    /// Has all exit, the parent first, and gives what is left of them.
    fn exit_all<R: Wait>(
        self,
        rt: &R,
        alloc: Global,
    ) -> Result<(Vec<Receipt<W>>, Vec<Spent<W>>), Trouble> {
        let Family {
            parent,
            children,
            receipts,
        } = self;
        let mut spents = Vec::new(alloc);
        exit(rt, parent, &mut spents)?;
        for child in children {
            exit(rt, child, &mut spents)?;
        }
        Ok((receipts, spents))
    }
}

/// Has a process exit, and keeps its share.
fn exit<W: BookName, K: Keeper, R: Wait>(
    rt: &R,
    seat: Seat<W, Counter, K>,
    spents: &mut Vec<Spent<W>>,
) -> Result<(), Trouble> {
    match spents.push(seat.exit(rt)) {
        Ok(()) => Ok(()),
        Err(_) => Err(Trouble::Memory),
    }
}

/// Makes all the children of a process that there may be, has all exit, and gives what is left of the forks and of the
/// processes.
fn raise<W: BookName, K: Keeper, R: Wait>(
    rt: &R,
    alloc: Global,
    parent: Seat<W, Counter, K>,
) -> Result<(Vec<Receipt<W>>, Vec<Spent<W>>), Trouble> {
    let mut family = Family {
        parent,
        children: Vec::new(alloc),
        receipts: Vec::new(alloc),
    };
    family.fork_all(rt)?;
    family.exit_all(rt, alloc)
}

/// Sees that accounts don't settle without the last child's share, and gives all shares.
fn all_but_one_are_too_few<W: BookName, K: Keeper, R: Wait>(
    rt: &R,
    layer: &Layer<W, Counter, K>,
    mut spents: Vec<Spent<W>>,
) -> Result<Vec<Spent<W>>, Fail> {
    let last = spents.pop().ok_or("no share")?;
    ask_for_more(rt, layer, &mut spents)?;
    spents.push(last)?;
    Ok(spents)
}

/// A kernel of one process.
fn one_process(alloc: Global) -> Result<Kernel<Counter>, Fail>
    ensures { IfOk result (λ kernel. IsBootState kernel) }
{
    match Kernel::boot(alloc, Vec::new(alloc), &[USER]) {
        Ok(kernel) => Ok(kernel),
        Err(_) => Err(Fail::from("no kernel")),
    }
}

#[test]
fn a_process_makes_1023_children_and_all_settle(rt: HostRuntime) -> Result<(), Fail> {
    let kernel = one_process(rt.alloc())?;
    settle_all::<Brand, _>(&rt, rt.alloc(), Trail::new(rt.alloc())?, kernel)
}

fn settle_all<W: BookName, R: Wait + Abort>(
    rt: &R,
    alloc: Global,
    trail: Trail,
    kernel: Kernel<Counter>,
) -> Result<(), Fail>
    requires trail { trail ≡ record { id = W.trail; entries = []; given = 0 } }
    requires boots { IsBootState kernel }
    requires named { kernel ≡ W.boot }
{
    let Ok((layer, mut seats)) = start::<W, Counter, R>(rt, alloc, trail, kernel) else {
        return Err(Fail::from("no layer"));
    };
    let parent = seats.pop().ok_or("no seat")?;
    let Ok((mut receipts, spents)) = raise(rt, alloc, parent) else {
        return Err(Fail::from("a call went wrong"));
    };
    let held = receipts.len();
    let mut spents = all_but_one_are_too_few(rt, &layer, spents)?;
    let entries = match layer.settle_with(rt, &mut spents, &mut receipts) {
        Ok(account) => account.entries,
        Err(_) => 0,
    };
    drop(receipts);
    assert_eq!(rt; (entries, held), (2048, 1024));
    Ok(())
}

#[test]
fn children_settle_alike_where_nothing_is_kept(rt: HostRuntime) -> Result<(), Fail> {
    let alloc = rt.alloc();
    let kernel = one_process(alloc)?;
    let trail = Trail::new(alloc)?;
    settle_counted::<Brand, _>(&rt, alloc, trail, kernel)
}

fn settle_counted<W: BookName, R: Wait + Abort>(
    rt: &R,
    alloc: Global,
    trail: Trail,
    kernel: Kernel<Counter>,
) -> Result<(), Fail>
    requires trail { trail ≡ record { id = W.trail; entries = []; given = 0 } }
    requires boots { IsBootState kernel }
    requires named { kernel ≡ W.boot }
{
    let started = start_counting::<W, Counter, R>(rt, alloc, trail, kernel);
    let Ok((layer, mut seats)) = started else {
        return Err(Fail::from("no layer"));
    };
    let parent = seats.pop().ok_or("no seat")?;
    let Ok((mut receipts, spents)) = raise(rt, alloc, parent) else {
        return Err(Fail::from("a call went wrong"));
    };
    let mut spents = all_but_one_are_too_few(rt, &layer, spents)?;
    let entries = match layer.settle_with(rt, &mut spents, &mut receipts) {
        Ok(account) => account.entries,
        Err(_) => 0,
    };
    let count = receipts.len();
    drop(receipts);
    assert_eq!(rt; (entries, count), (2048, 1024));
    Ok(())
}

#[test]
fn nobody_waits_for_a_child_once_process_1_has_exited(rt: HostRuntime) -> Result<(), Fail> {
    let kernel = two_processes(rt.alloc())?;
    wait_for_nobody::<Brand, _>(&rt, rt.alloc(), Trail::new(rt.alloc())?, kernel)
}

fn wait_for_nobody<W: BookName + Send + Sync, R: Threads + Wait + Abort + Sync>(
    rt: &R,
    alloc: Global,
    trail: Trail,
    kernel: Kernel<Counter>,
) -> Result<(), Fail>
    requires trail { trail ≡ record { id = W.trail; entries = []; given = 0 } }
    requires boots { IsBootState kernel }
    requires named { kernel ≡ W.boot }
{
    let Ok((layer, mut seats)) = start::<W, Counter, R>(rt, alloc, trail, kernel) else {
        return Err(Fail::from("no layer"));
    };
    let second = seats.pop().ok_or("no seat")?;
    let first = seats.pop().ok_or("no seat")?;
    let (waited, exited) = thread::join(
        rt,
        move || waits_and_exits(rt, second),
        move || calls_and_exits(rt, first),
    );
    assert!(rt; waited && exited);
    layer.wait_for(rt, Pid(3), 1);
    assert_eq!(rt; layer.book(rt).book().entries().len(), 4);
    Ok(())
}

/// Whether a process that waits for the first call of the third process goes on, and exits.
fn waits_and_exits<W: BookName, R: Wait>(rt: &R, seat: Seat<W, Counter>) -> bool {
    let waited = seat.wait_for(rt, Pid(3), 1).is_ok();
    let spent = seat.exit(rt);
    waited && spent.calls() == 1
}
