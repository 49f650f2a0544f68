//! An order that is drawn.
ghost use Rattle.std.specs.Prelude.{◌≡◌, []};
ghost use Rattle.ux_model.specs.Boot.{IsBootState};

use crate::desk::{Step, desk_of, kernel_of, script_of};
use std::alloc::Global;
use std::marker::Brand;
use std::process::Abort;
use std::test::Fail;
use ux_book::{BookName, Trail};
use ux_kernel::Kernel;
use ux_objects::FailAt;

/// How many seeds are tried. Each draws among three calls, so that all would go in the order of asking with a chance of
/// less than one in a thousand.
const SEEDS: u64 = 8;

/// In which order three receives go on that one send lets go on, by a seed.
fn drawn_by<B: BookName>(
    alloc: Global,
    trail: Trail,
    kernel: Kernel<FailAt>,
    seed: u64,
) -> Result<String, Fail>
    requires trail { trail ≡ record { id = B.trail; entries = []; given = 0 } }
    requires boots { IsBootState kernel }
    requires named { kernel ≡ B.boot }
{
    let mut desk = desk_of::<B>(alloc, trail, kernel)?;
    desk.answer(Step::Call("1 pair stream -"))?;
    desk.answer(Step::Order(seed))?;
    for number in 1..4 {
        desk.answer(Step::Pend(number, "1 recv 0 1 0 -"))?;
    }
    desk.answer(Step::Call("1 send 1 - 616263 - -"))
}

/// The same on a kernel of its own.
fn drawn(alloc: Global, seed: u64) -> Result<String, Fail> {
    let script = script_of(alloc, "proc 1 1 0 16\n")?;
    let kernel = kernel_of(alloc, &script)?;
    let Ok(trail) = Trail::new(alloc) else {
        return Err(Fail::from("no trail"));
    };
    drawn_by::<Brand>(alloc, trail, kernel, seed)
}

/// Each seed gives its order again, in which each call goes on once; and some seed gives another than that of asking.
#[test]
fn a_seed_draws_an_order(rt: HostRuntime) -> Result<(), Fail> {
    let alloc = rt.alloc();
    let asked = "n 3; 1: got 1 61 - - -; 2: got 1 62 - - -; 3: got 1 63 - - -; .";
    let mut is_drawn = false;
    for seed in 0..SEEDS {
        let order = drawn(alloc, seed)?;
        let text = order.as_str();
        assert!(rt;
            text.contains(" 1: got") && text.contains(" 2: got") && text.contains(" 3: got")
        );
        assert!(rt; text == drawn(alloc, seed)?.as_str());
        is_drawn = is_drawn || text != asked;
    }
    assert!(rt; is_drawn);
    Ok(())
}
