//! Kernels of a script's processes over its file objects as they are at first.

ghost use Rattle.std.specs.Prelude.{◌≡◌, map, IfOk};
ghost use Rattle.ux_model.specs.Boot.{IsBootState, new_process, boot_state};
ghost use Rattle.ux_script.specs.Objects.{object_of};

use std::hash::RandomState;
use std::random::RandomSource;
use ux_command::CommandFault;
use ux_kernel::{BootFault, Kernel, Seed};
use ux_objects::FailAt;
use ux_script::objects_of;
use ux_syntax::{Script, ScriptFault};

/// A kernel of the script's processes over its file objects. More than it may have are counted before any is made.
pub fn boot<R: RandomSource + AllocGlobal>(
    rt: &R,
    script: &Script,
) -> Result<Kernel<FailAt>, CommandFault>
    ensures boots { IfOk result (λ kernel. IsBootState kernel) }
    ensures processes { IfOk result (λ kernel. kernel.processes ≡ map new_process script.now.procs.items) }
    ensures state { IfOk result (λ kernel. kernel ≡ boot_state (map object_of script.now.objects.items) script.now.procs.items) }
{
    boot_over(rt, script, true)
}

/// The same over file objects that don't fail, for `--check`, which leaves out calls that answered EIO.
pub fn boot_without_faults<R: RandomSource + AllocGlobal>(
    rt: &R,
    script: &Script,
) -> Result<Kernel<FailAt>, CommandFault>
    ensures boots { IfOk result (λ kernel. IsBootState kernel) }
{
    boot_over(rt, script, false)
}

/// The same over file objects of which each fails where its line has it, or none. Names are hashed by random keys, so that
/// no script can choose names that collide.
fn boot_over<R: RandomSource + AllocGlobal>(
    rt: &R,
    script: &Script,
    fails: bool,
) -> Result<Kernel<FailAt>, CommandFault>
    ensures boots { IfOk result (λ kernel. IsBootState kernel) }
    ensures processes { IfOk result (λ kernel. kernel.processes ≡ map new_process script.now.procs.items) }
    ensures state { IfOk result (λ kernel. kernel ≡ boot_state (map object_of script.now.objects.items) script.now.procs.items) }
{
    let most = script.object_limit();
    if script.objects.len() > most.count() {
        return Err(CommandFault::from(BootFault::TooManyObjects));
    }
    let objects = objects_of(rt.alloc(), script, fails)?;
    let keys = RandomState::new(rt).map_err(|_| ScriptFault::Reading)?;
    match Kernel::boot_with_seed(rt.alloc(), Seed::random(keys), most, objects, &script.procs) {
        Ok(kernel) => Ok(kernel),
        Err((fault, _objects)) => Err(CommandFault::from(fault)),
    }
}
