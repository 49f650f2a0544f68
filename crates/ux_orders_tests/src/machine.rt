//! Kernels for scripts, and runs on them.
ghost use Rattle.std.specs.Prelude.{◌≡◌, map, IfOk};
ghost use Rattle.ux_model.specs.Boot.{IsBootState, new_process, boot_state};
ghost use Rattle.ux_script.specs.Objects.{object_of};

use std::alloc::Global;
use std::test::Fail;
use ux_kernel::Kernel;
use ux_objects::FailAt;
use ux_orders::{
    Boot, Chooser, Found, Order, OrderFault, OrderList, Ran, Reduction, explore, explore_each,
    make_order, run_order,
};
use ux_script::objects_of;
use ux_syntax::{Script, parse_script};

/// Makes kernels over the file objects of a script.
#[derive(Drop)]
pub struct Machine {
    pub alloc: Global,
}

impl Boot for Machine {
    type Object = FailAt;

    ghost state = { λ _ plan. boot_state (map object_of plan.objects) plan.procs };

    fn boot(&mut self, script: &Script) -> Result<Kernel<FailAt>, OrderFault> {
        kernel_of(self.alloc, script)
    }
}

/// A kernel of a script's processes over its file objects, as they are at first.
fn kernel_of(alloc: Global, script: &Script) -> Result<Kernel<FailAt>, OrderFault>
    ensures boots { IfOk result (λ kernel. IsBootState kernel) }
    ensures processes { IfOk result (λ kernel. kernel.processes ≡ map new_process script.now.procs.items) }
    ensures state { IfOk result (λ kernel. kernel ≡ boot_state (map object_of script.now.objects.items) script.now.procs.items) }
{
    let objects = objects_of(alloc, script, true)?;
    match Kernel::boot(alloc, objects, &script.procs) {
        Ok(kernel) => Ok(kernel),
        Err(_) => Err(OrderFault::NoKernel),
    }
}

/// The script that a text spells.
pub fn script_of(alloc: Global, text: &str) -> Result<Script, Fail> {
    match parse_script(alloc, text.as_bytes()) {
        Ok(script) => Ok(script),
        Err(_) => Err(Fail::from("no script")),
    }
}

/// A run of a script in the order of this chooser.
pub fn run_by<C: Chooser>(alloc: Global, text: &str, chooser: &mut C) -> Result<Ran, Fail> {
    let script = script_of(alloc, text)?;
    let Ok(kernel) = kernel_of(alloc, &script) else {
        return Err(Fail::from("no kernel"));
    };
    match run_order(alloc, &script, kernel, chooser) {
        Ok(ran) => Ok(ran),
        Err(_) => Err(Fail::from("no run")),
    }
}

/// A run of a script in this order.
pub fn run_in(alloc: Global, text: &str, order: &mut Order) -> Result<Ran, Fail> {
    let script = script_of(alloc, text)?;
    let Ok(kernel) = kernel_of(alloc, &script) else {
        return Err(Fail::from("no kernel"));
    };
    match make_order(alloc, &script, kernel, order) {
        Ok(ran) => Ok(ran),
        Err(_) => Err(Fail::from("no run")),
    }
}

/// What all orders of a script come to.
pub fn found_by(
    alloc: Global,
    text: &str,
    limit: u64,
    reduction: Reduction,
) -> Result<Found, Fail> {
    let script = script_of(alloc, text)?;
    match explore(alloc, &script, &mut Machine { alloc }, limit, reduction) {
        Ok(found) => Ok(found),
        Err(_) => Err(Fail::from("not explored")),
    }
}

/// The same, where none is left out.
pub fn each_by(alloc: Global, text: &str, limit: u64) -> Result<Found, Fail> {
    let script = script_of(alloc, text)?;
    match explore_each(alloc, &script, &mut Machine { alloc }, limit) {
        Ok(found) => Ok(found),
        Err(_) => Err(Fail::from("not explored")),
    }
}

/// A run's order, as it is written.
pub fn list_of(alloc: Global, ran: &Ran) -> Result<String, Fail> {
    let list = OrderList(ran.entries());
    Ok(format!(in alloc; "{list}")?)
}
