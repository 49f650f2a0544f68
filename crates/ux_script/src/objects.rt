//! The file objects of a script.

ghost use Rattle.std.specs.Prelude.{◌≡◌, map, IfOk};
ghost use Rattle.ux_script.specs.Objects.{object_of, failing_call};

use std::alloc::{AllocError, Global};
use ux_objects::{FailAt, Plain};
use ux_syntax::Script;
use ux_types::Name;

/// The file objects of a script as they are at first, with their paths. With `fails` each fails where its line has it,
/// else none does.
///
/// # Errors
///
/// `AllocError` where memory runs out, and for a memory file of more than 1,048,576 bytes, which no text spells.
pub fn objects_of(
    alloc: Global,
    script: &Script,
    fails: bool,
) -> Result<Vec<(Name, FailAt)>, AllocError>
    ensures objects { IfOk result (λ objects. map (λ o. (o.0, o.1.seen)) objects.items ≡ map object_of script.now.objects.items) }
    // Which read or write of each fails, 0 for none.
    ensures failing { IfOk result (λ objects. map (λ o. o.1.left) objects.items ≡ map (failing_call fails) script.now.objects.items) }
{
    let mut objects: Vec<(Name, FailAt)> = Vec::new(alloc);
    for line in &script.objects {
        let Ok(plain) = Plain::new(alloc, line.kind, line.body.as_slice()) else {
            return Err(AllocError);
        };
        let failing_call = if fails { line.fail.unwrap_or(0) } else { 0 };
        objects.push((line.name.clone()?, FailAt::new(plain, failing_call)))?;
    }
    Ok(objects)
}
