//! The methods of a seat.
use crate::methods::{CALLER, CALLS, MOST, Wrong, boot_all, call_all, refuses};
use delortxa::{BookName, Errno, Layer, LayerProgram, Pid, Reply, Seat, call, with_layer};
use std::sync::Wait;
use std::test::Fail;

/// Makes every call by the first process, for whose exit the second waits, which then counts the entries.
#[derive(Drop)]
struct EveryMethod;

impl<R: Wait> LayerProgram<R> for EveryMethod {
    type Output = Result<u64, Wrong>;

    fn run<W: BookName>(&self, rt: &R, layer: &Layer<W>, seat: &mut Seat<W>) -> Self::Output {
        if seat.pid() == CALLER.pid {
            call_all(seat, rt)?;
            has_child(rt, seat)?;
            fork_to_the_limit(rt, seat)?;
            return Ok(seat.calls());
        }
        // It exits when its calls are made, however many they are.
        layer.wait_for(rt, CALLER.pid, u64::MAX);
        let guard = layer.book(rt);
        Ok(guard.book().entry_count() as u64)
    }
}

/// Makes a call by its request, and a child, which makes the same call and exits.
fn has_child<W: BookName, R: Wait>(rt: &R, seat: &mut Seat<W>) -> Result<(), Wrong> {
    has_receipt(rt, seat)?;
    let Ok(mut child) = seat.fork(rt) else {
        return Err(Wrong("fork"));
    };
    has_receipt(rt, &mut child)?;
    let (pid, spent) = (child.pid(), child.exit(rt));
    if pid == Pid(3) && spent.calls() == 2 {
        Ok(())
    } else {
        Err(Wrong("exit"))
    }
}

/// Makes as many processes as there may be, each of which exits, and is refused one more.
fn fork_to_the_limit<W: BookName, R: Wait>(rt: &R, seat: &mut Seat<W>) -> Result<(), Wrong> {
    for number in 4..=MOST {
        let Ok(child) = seat.fork(rt) else {
            return Err(Wrong("fork"));
        };
        if child.pid() != Pid(number) {
            return Err(Wrong("fork"));
        }
        drop(child.exit(rt));
    }
    refuses("fork", seat.fork(rt), Errno::EAGAIN)
}

/// Sees that a call by its request is answered, and leaves a receipt.
fn has_receipt<W: BookName, R: Wait>(rt: &R, seat: &mut Seat<W>) -> Result<(), Wrong> {
    match seat.call(rt, &call::exec()) {
        Ok((Reply::Ok, _receipt)) => Ok(()),
        _ => Err(Wrong("call")),
    }
}

#[test]
fn every_method_of_a_seat_is_answered_and_refused(rt: HostRuntime) -> Result<(), Fail> {
    let Ok(kernel) = boot_all(rt.alloc())?.start() else {
        return Err(Fail::from("no kernel"));
    };
    let Ok((outputs, history)) = with_layer(&rt, kernel, EveryMethod) else {
        return Err(Fail::from("no memory"));
    };
    let forks = u64::from(MOST) - 3;
    // With the first child's call, and all exits but the second process's.
    let entries = CALLS + 6 + 2 * forks;
    assert_eq!(&rt;
        outputs.as_slice(),
        [Ok(CALLS + 3 + forks), Ok(entries)].as_slice()
    );
    assert_eq!(&rt; history.len() as u64, entries + 1);
    Ok(())
}
