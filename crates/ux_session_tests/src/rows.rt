//! What is answered to each step, with ample memory.
ghost use Rattle.std.specs.Prelude.{◌≡◌, []};
ghost use Rattle.ux_model.specs.Boot.{IsBootState};

use crate::desk::{Step, desk_of, kernel_of, script_of};
use std::alloc::Global;
use std::marker::Brand;
use std::process::Abort;
use std::test::Fail;
use ux_book::{BookName, Trail};
use ux_kernel::Kernel;
use ux_objects::FailAt;

/// Steps with their answers. Conditions are the bits of poll(2) in this layer: IN 1, OUT 2, RDHUP 4, HUP 8, ERR 16, NVAL 32.
type Row = &'static [(Step, &'static str)];

/// Of two receives the one goes on that was asked for first; what is left is told.
const RECEIVES: Row = &[
    (
        Step::Call("1 pair stream -"),
        "fds 0 1 0->0 1->1; . 0=2/0/0 1=2/0/0",
    ),
    (Step::Pend(1, "1 recv 0 2 0 -"), "."),
    (Step::Pend(2, "1 recv 0 2 0 -"), "."),
    (
        Step::Call("1 send 1 - 6162 - -"),
        "n 2; 1: got 2 6162 - - -; .",
    ),
    (
        Step::Pend(2, "1 recv 0 1 0 -"),
        "! a pending call has this number.",
    ),
    (
        Step::Call("1 send 1 - 63646566 - -"),
        "n 4; 2: got 2 6364 - - -; . 0=3/2/1",
    ),
    (
        Step::Pend(3, "1 recv 0 9 0 -"),
        "3: got 2 6566 - - -; . 0=2/0/0",
    ),
];

/// One send of three bytes lets both of these go on, one behind the other.
const BOTH: Row = &[
    (
        Step::Call("1 pair stream -"),
        "fds 0 1 0->0 1->1; . 0=2/0/0 1=2/0/0",
    ),
    (Step::Pend(8, "1 recv 0 1 0 -"), "."),
    (Step::Pend(5, "1 recv 0 1 0 -"), "."),
    (
        Step::Call("1 send 1 - 616263 - -"),
        "n 3; 8: got 1 61 - - -; 5: got 1 62 - - -; . 0=3/1/1",
    ),
];

/// A connect answers an accept that waits; a right leads to its description.
const ACCEPT: Row = &[
    (Step::Call("2 socket stream -"), "fd 0 0->0; . 0=8/0/0"),
    (Step::Call("2 bind 0 a:l"), "ok; ."),
    (Step::Call("2 listen 0 1"), "ok; . 0=0/0/0"),
    (Step::Pend(5, "2 accept 0 -"), "."),
    (Step::Call("1 socket stream -"), "fd 0 0->1; . 1=8/0/0"),
    (
        Step::Call("1 connect 0 a:l"),
        "ok; 5: accepted 1 u 1->2; . 1=2/0/0 2=2/0/0",
    ),
    (Step::Call("1 send 0 - 78 r:0 -"), "n 1; . 2=3/1/1"),
    (
        Step::Call("2 recv 1 1 rights:1 -"),
        "got 1 78 - r:2 - 2->1; . 2=2/0/0",
    ),
];

/// A peer that is freed, with a byte unread, answers a send and a receive that wait. A cancelled receive is never made.
const FREED: Row = &[
    (
        Step::Call("1 pair stream -"),
        "fds 0 1 0->0 1->1; . 0=2/0/0 1=2/0/0",
    ),
    (Step::Call("1 setopt 1 qlimit 1"), "ok; ."),
    (Step::Call("1 send 0 - 41 - -"), "n 1; . 0=0/0/0 1=3/1/1"),
    (Step::Pend(7, "1 recv 0 1 0 -"), "."),
    (Step::Cancel(7), "."),
    (Step::Cancel(7), "! no pending call has this number."),
    (Step::Pend(8, "1 send 0 - 42 - -"), "."),
    (Step::Pend(9, "1 recv 0 1 0 -"), "."),
    (
        Step::Call("1 close 1"),
        "ok; 8: err EPIPE; 9: err ECONNRESET; . 0=15/0/0 1=32/0/0",
    ),
];

/// A fork is made at once. The calls of a process that exits are dropped, and no other's.
const EXIT: Row = &[
    (
        Step::Call("1 pair stream -"),
        "fds 0 1 0->0 1->1; . 0=2/0/0 1=2/0/0",
    ),
    (
        Step::Pend(1, "3 recv 0 1 0 -"),
        "! no live process has this number.",
    ),
    (Step::Pend(1, "1 fork"), "1: child 3; ."),
    (Step::Call("2 socket dgram -"), "fd 0 0->2; . 2=2/0/0"),
    (Step::Pend(2, "2 recv 0 1 0 -"), "."),
    (Step::Pend(3, "1 recv 0 1 0 -"), "."),
    (Step::Call("2 exit"), "ok; . 2=32/0/0"),
    (Step::Cancel(2), "! no pending call has this number."),
    (
        Step::Call("2 getfl 0"),
        "! no live process has this number.",
    ),
    (Step::Call("1 send 1 - 61 - -"), "n 1; 3: got 1 61 - - -; ."),
];

/// Makes the steps of a row, and compares what is answered.
fn expect_row<B: BookName>(
    rt: &impl Abort,
    alloc: Global,
    trail: Trail,
    kernel: Kernel<FailAt>,
    row: Row,
) -> Result<(), Fail>
    requires trail { trail ≡ record { id = B.trail; entries = []; given = 0 } }
    requires boots { IsBootState kernel }
    requires named { kernel ≡ B.boot }
{
    let mut desk = desk_of::<B>(alloc, trail, kernel)?;
    for (step, expected) in row {
        let answered = desk.answer(*step)?;
        assert!(rt;
            answered.as_str() == *expected,
            "{answered} isn't {expected}"
        );
    }
    Ok(())
}

#[test]
fn each_step_is_answered(rt: HostRuntime) -> Result<(), Fail> {
    let alloc = rt.alloc();
    let script = script_of(alloc, "proc 1 1 0 16\nproc 1 1 0 16\n")?;
    for row in &[RECEIVES, BOTH, ACCEPT, FREED, EXIT] {
        let kernel = kernel_of(alloc, &script)?;
        let Ok(trail) = Trail::new(alloc) else {
            return Err(Fail::from("no trail"));
        };
        expect_row::<Brand>(&rt, alloc, trail, kernel, row)?;
    }
    Ok(())
}
