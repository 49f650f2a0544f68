//! Where the seats of all processes wait, each call that waits says so, and leaves no entry.
ghost use Rattle.std.specs.Prelude.{◌≡◌, []};
ghost use Rattle.ux_model.specs.Boot.{IsBootState};

use super::{is_answered, receive, two_processes};
use std::alloc::Global;
use std::marker::Brand;
use std::process::Abort;
use std::sync::Wait;
use std::test::Fail;
use std::thread;
use std::thread::Threads;
use ux_book::{BookName, CallFault, Trail};
use ux_kernel::Kernel;
use ux_layer::{Seat, start};
use ux_objects::Counter;
use ux_types::{Fd, OpenFlags, Pid, Reply, Request, SockType};

const PAIR: Request = Request::SocketPair {
    kind: SockType::Stream,
    flags: OpenFlags(0),
};

/// What a process waits for.
#[derive(Clone, Copy)]
enum Awaited {
    /// A message that nobody sends.
    Message,
    /// So many entries of a process that makes no more.
    Entries(Pid, u64),
}

#[test]
fn where_all_wait_each_call_says_so(rt: HostRuntime) -> Result<(), Fail> {
    for second in [Awaited::Message, Awaited::Entries(Pid(1), 2)].as_slice() {
        let kernel = two_processes(rt.alloc())?;
        wait_all::<Brand, _>(&rt, rt.alloc(), Trail::new(rt.alloc())?, kernel, *second)?;
    }
    Ok(())
}

fn wait_all<W: BookName + Send + Sync, R: Threads + Wait + Abort + Sync>(
    rt: &R,
    alloc: Global,
    trail: Trail,
    kernel: Kernel<Counter>,
    second: Awaited,
) -> Result<(), Fail>
    requires trail { trail ≡ record { id = W.trail; entries = []; given = 0 } }
    requires boots { IsBootState kernel }
    requires named { kernel ≡ W.boot }
{
    let Ok((layer, mut seats)) = start::<W, Counter, R>(rt, alloc, trail, kernel) else {
        return Err(Fail::from("no layer"));
    };
    let other = seats.pop().ok_or("no seat")?;
    let one = seats.pop().ok_or("no seat")?;
    let (one, other) = thread::join(
        rt,
        move || wait_in_vain(rt, one, Awaited::Message),
        move || wait_in_vain(rt, other, second),
    );
    let one = one.ok_or("a wait went wrong")?;
    let other = other.ok_or("a wait went wrong")?;
    // An exit is an entry, which may end another's wait: so none exits before both were told.
    let mut spents = vec![in alloc; one.exit(rt), other.exit(rt)]?;
    let settled = match layer.settle(rt, &mut spents) {
        Ok(account) => account.entries,
        Err(_) => 0,
    };
    assert_eq!(rt; settled, 4);
    Ok(())
}

/// Makes a pair, and waits until the deadlock is reported. The report leaves the seat as it was.
fn wait_in_vain<W: BookName, R: Wait>(
    rt: &R,
    mut seat: Seat<W, Counter>,
    awaited: Awaited,
) -> Option<Seat<W, Counter>> {
    if !is_answered(rt, &mut seat, PAIR, Reply::Fds(Fd(0), Fd(1))) {
        return None;
    }
    let told = match awaited {
        Awaited::Message => seat.call_blocking(rt, &receive(0)).err(),
        Awaited::Entries(pid, calls) => seat.wait_for(rt, pid, calls).err(),
    };
    let same = seat.calls() == 1;
    if told == Some(CallFault::Deadlock) && same {
        Some(seat)
    } else {
        None
    }
}
