//! The kernel of a header.
ghost use Rattle.std.specs.Prelude.{◌≡◌, IfOk};
ghost use Rattle.ux_model.specs.Boot.{IsBootState};

use crate::fault::ServeFault;
use std::hash::RandomState;
use std::random::RandomSource;
use ux_kernel::{BootFault, Kernel, Seed};
use ux_objects::FailAt;
use ux_script::objects_of;
use ux_syntax::{Script, ScriptFault};

/// A kernel of the header's processes over its file objects. More than it may have are counted before any is made. Names are
/// hashed by random keys, so that nobody can choose names that collide.
pub fn boot<R: RandomSource + AllocGlobal>(
    rt: &R,
    script: &Script,
) -> Result<Kernel<FailAt>, ServeFault>
    ensures { IfOk result (λ kernel. IsBootState kernel) }
{
    let most = script.object_limit();
    if script.objects.len() > most.count() {
        return Err(ServeFault::from(BootFault::TooManyObjects));
    }
    let objects = objects_of(rt.alloc(), script, true)?;
    let keys = RandomState::new(rt).map_err(|_| ScriptFault::Reading)?;
    match Kernel::boot_with_seed(rt.alloc(), Seed::random(keys), most, objects, &script.procs) {
        Ok(kernel) => Ok(kernel),
        Err((fault, _objects)) => Err(ServeFault::from(fault)),
    }
}
