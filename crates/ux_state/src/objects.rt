//! The file objects of a state, and what their descriptions are open for.
ghost use Rattle.std.specs.Prelude.{◌≡◌, ◌≤◌, Some, None, IsTrue, IfOk, MatchOption, is_some, length};
ghost use Rattle.ux_model.specs.Limits.{raised_object_limit};
ghost use Rattle.ux_model.specs.Flags.{can_read, can_write};
ghost use Rattle.ux_model.specs.Places.{place};
ghost use Rattle.ux_model.specs.FileObjects.{is_open_for};
ghost use Rattle.ux_objects.specs.Layers.{layer_view};
ghost use Rattle.ux_state.specs.ObjectCalls.{ReadsObject, WritesObject, bytes_read};

use crate::state::State;
use ux_object::{FileObject, ObjError};
use ux_objects::LayerFile;

impl<O: FileObject> State<O> {
    /// How many file objects there were, those at first and those that calls made, closed ones too.
    pub fn object_count(&self) -> usize
        ensures count { result ≡ length self.now.objects }
        ensures most { result ≤ raised_object_limit }
    {
        self.objects.len()
    }

    /// The file object with this number, while it is there.
    pub fn object(&self, number: u32) -> Option<&LayerFile<O>>
        ensures { MatchOption result (place self.now.objects number ≡ None) (λ x. place self.now.objects number ≡ Some (layer_view O.view x.now)) }
    {
        match self.objects.get(number as usize) {
            Some(place) => place.object(),
            None => None,
        }
    }

    /// Whether some description of a file object that is there is open for reading, also one in flight.
    pub fn has_reader(&self, number: u32) -> bool
        requires { IsTrue (is_some (place self.now.objects number)) }
        ensures { result ≡ is_open_for can_read self.now number }
    {
        let counts = &self.openings[number as usize];
        0 < counts.readers
    }

    /// Whether some description of a file object that is there is open for writing, also one in flight.
    pub fn has_writer(&self, number: u32) -> bool
        requires { IsTrue (is_some (place self.now.objects number)) }
        ensures { result ≡ is_open_for can_write self.now number }
    {
        let counts = &self.openings[number as usize];
        0 < counts.writers
    }

    /// Reads of a file object that is there, as the interface of file objects says.
    pub fn read_object(&mut self, number: u32, at: u64, buf: &mut [u8]) -> Result<usize, ObjError>
        requires { IsTrue (is_some (place self.old.objects number)) }
        ensures fits { IfOk result (λ n. n ≤ length buf.old) }
        ensures reads { ReadsObject self.old number at (length buf.old) (bytes_read result buf.new) self.new }
    {
        let place = &mut self.objects[number as usize];
        place.read(at, buf)
    }

    /// Writes to a file object that is there, as the interface of file objects says.
    pub fn write_object(&mut self, number: u32, at: u64, bytes: &[u8]) -> Result<usize, ObjError>
        requires { IsTrue (is_some (place self.old.objects number)) }
        ensures { WritesObject self.old number at bytes.now result self.new }
    {
        let place = &mut self.objects[number as usize];
        place.write(at, bytes)
    }
}
