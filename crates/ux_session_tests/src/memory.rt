//! What a session answers while memory lacks.
ghost use Rattle.std.specs.Prelude.{◌≡◌, []};
ghost use Rattle.ux_model.specs.Boot.{IsBootState};

use crate::desk::{Desk, Step, desk_of, kernel_of, request_of, script_of};
use hoard::Hoard;
use std::alloc::Global;
use std::marker::Brand;
use std::process::Abort;
use std::test::Fail;
use ux_book::{BookName, Trail};
use ux_kernel::Kernel;
use ux_objects::FailAt;
use ux_session::{Pending, SessionFault};

/// Without memory a call, a pending one and the telling are refused, and have changed nothing; with memory they go on.
fn expect_refusals<B: BookName>(
    rt: &impl Abort,
    alloc: Global,
    trail: Trail,
    kernel: Kernel<FailAt>,
) -> Result<(), Fail>
    requires trail { trail ≡ record { id = B.trail; entries = []; given = 0 } }
    requires boots { IsBootState kernel }
    requires named { kernel ≡ B.boot }
{
    let mut desk = desk_of::<B>(alloc, trail, kernel)?;
    desk.answer(Step::Call("1 pair stream -"))?;
    desk.answer(Step::Pend(1, "1 recv 0 1 0 -"))?;
    let (pid, request) = request_of(alloc, "1 send 1 - 61 - -")?;
    let (_, receive) = request_of(alloc, "1 recv 0 1 0 -")?;
    let further = Pending {
        number: 2,
        pid,
        request: receive,
    };
    let hoard = Hoard::take_all(alloc)?;
    let called = desk.session.call(pid, &request).err();
    let pended = desk.session.pend(further).err();
    drop(hoard);
    drop(request);
    assert!(rt; called == Some(SessionFault::NoMemory));
    assert!(rt; pended == Some(SessionFault::NoMemory));
    assert!(rt; desk.session.serial().entries().len() == 1);
    assert!(rt; desk.session.pending().len() == 1 && !desk.session.is_stalled());
    expect_telling(rt, alloc, &mut desk)
}

/// Changes aren't told without memory, and are told behind that.
fn expect_telling<B: BookName>(
    rt: &impl Abort,
    alloc: Global,
    desk: &mut Desk<B>,
) -> Result<(), Fail> {
    let made = desk.ask(Step::Call("1 send 1 - 6162 - -"))?;
    drop(made);
    let hoard = Hoard::take_all(alloc)?;
    let told = desk.watch.changes(desk.session.serial().state()).is_err();
    drop(hoard);
    assert!(rt; told);
    let answered = desk.answer(Step::Order(1))?;
    assert!(rt; answered.as_str() == ". 0=3/1/1");
    Ok(())
}

#[test]
fn nothing_changes_without_memory(rt: HostRuntime) -> Result<(), Fail> {
    let alloc = rt.alloc();
    let script = script_of(alloc, "proc 1 1 0 16\nproc 1 1 0 16\n")?;
    let kernel = kernel_of(alloc, &script)?;
    let Ok(trail) = Trail::new(alloc) else {
        return Err(Fail::from("no trail"));
    };
    expect_refusals::<Brand>(&rt, alloc, trail, kernel)
}
