//! The readiness of file objects.
ghost use Rattle.std.specs.Prelude.{◌≡◌};
ghost use Rattle.ux_model.specs.Places.{place};
ghost use Rattle.ux_model.specs.Readiness as model;
ghost use Rattle.ux_objects.specs.Layers.{layer_view};

use crate::conditions::Conditions;
use ux_description::Description;
use ux_object::{FileObject, ObjKind};
use ux_objects::LayerFile;
use ux_state::State;

/// The conditions of a description of the file object with this number.
pub(crate) fn object_conditions<O: FileObject>(
    state: &State<O>,
    description: &Description,
    number: u32,
) -> Conditions
    ensures { result ≡ model.object_conditions state.now description.now number (place state.now.objects number) }
{
    match state.object(number) {
        Some(object) => file_conditions(state, description, number, object),
        None => Conditions::none(),
    }
}

/// The same, of this file object. A pipe without a writer hangs up its readers, and without a reader fails its
/// writers.
#[tactic(auto, unfolding(ux_model::specs::Readiness::file_conditions))]
fn file_conditions<O: FileObject>(
    state: &State<O>,
    description: &Description,
    number: u32,
    object: &LayerFile<O>,
) -> Conditions
    requires { place state.now.objects number ≡ Some (layer_view O.view object.now) }
    ensures { result ≡ model.file_conditions state.now description.now number (layer_view O.view object.now) }
{
    let (can_be_read, can_be_written) = object.ready();
    let is_pipe = object.kind() == ObjKind::Pipe;
    let reads = description.mode().can_read();
    let writes = description.mode().can_write();
    Conditions {
        readable: reads && can_be_read,
        writable: writes && can_be_written,
        read_hung: false,
        hung: is_pipe && reads && !state.has_writer(number),
        failed: is_pipe && writes && !state.has_reader(number),
    }
}
