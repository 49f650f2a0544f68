//! The place of one file object.
ghost use Rattle.std.specs.Prelude.{◌≡◌, ◌≤◌, ◌<◌, [], ◌∷◌, true, Some, None, IsTrue, IfOk, IfSome, MatchOption, is_some, length, option_map};
ghost use Rattle.ux_model.specs.Limits.{raised_object_limit};
ghost use Rattle.ux_model.specs.Object.{closed};
ghost use Rattle.ux_objects.specs.Layers.{layer_view};
ghost use Rattle.ux_state.specs.ObjectCalls.{Reads, Writes, bytes_read};

use crate::released_objects::ReleasedObject;
use std::alloc::{AllocError, Global};
use std::collections::LinkedList;
use std::marker::Model;
use ux_object::{FileObject, ObjError};
use ux_objects::LayerFile;

/// Room in which one file object is handed out, and for its number, made before so that it takes no memory then.
#[derive(Drop)]
pub(crate) struct ObjectRoom<O: FileObject> {
    /// Each has one element.
    object: LinkedList<ReleasedObject<O>>,
    number: LinkedList<u32>,
}

impl<O: FileObject> Model for ObjectRoom<O> {
    ghost use Rattle.std.specs.Prelude.{◌≡◌, ℕ, length};

    ghost Value = { ℕ };

    ghost view = { λ r. length r.object };

    ghost invariant = { λ r. (length r.object ≡ 1) × (length r.number ≡ 1) };
}

/// A file object that was closed and its number, each in the list in which it is handed out.
#[derive(Drop)]
pub(crate) struct ClosedObject<O: FileObject> {
    pub(crate) object: LinkedList<ReleasedObject<O>>,
    pub(crate) number: LinkedList<u32>,
}

impl<O: FileObject> ObjectRoom<O> {
    /// The room.
    ///
    /// # Errors
    ///
    /// Out of memory.
    pub(crate) fn new(alloc: Global) -> Result<ObjectRoom<O>, AllocError> {
        let mut object = LinkedList::new(alloc);
        object.push_back(ReleasedObject::none())?;
        let mut number = LinkedList::new(alloc);
        number.push_back(0)?;
        Ok(ObjectRoom { object, number })
    }

    /// Holds an object that was closed.
    fn holding(self, number: u32, object: LayerFile<O>) -> ClosedObject<O>
        requires { number < raised_object_limit }
        ensures object { result.object ≡ (number, Some (layer_view O.view object)) ∷ [] }
        ensures number { result.number ≡ number ∷ [] }
    {
        let ObjectRoom {
            object: mut objects,
            number: mut numbers,
        } = self;
        let (Some(one), Some(its)) = (objects.front_mut(), numbers.front_mut()) else {
            // Each has room for one.
            unreachable!()
        };
        *one = ReleasedObject::new(number, object);
        *its = number;
        ClosedObject {
            object: objects,
            number: numbers,
        }
    }
}

/// A file object that wasn't closed yet, and the room in which it is handed out.
#[derive(Drop)]
struct HeldObject<O: FileObject> {
    object: LayerFile<O>,
    room: ObjectRoom<O>,
}

/// A place for a file object, which is open while it is there. Contracts see its view.
#[derive(Drop)]
pub(crate) struct ObjectPlace<O: FileObject> {
    held: Option<HeldObject<O>>,
}

impl<O: FileObject> Model for ObjectPlace<O> {
    ghost use Rattle.std.specs.Prelude.{Option, option_map};
    ghost use Rattle.ux_model.specs.Object.{View};
    ghost use Rattle.ux_objects.specs.Layers.{layer_view};
    ghost use Rattle.ux_state.specs.ObjectCalls.{IsOpen};

    ghost Value = { Option View };

    ghost view = { λ s. option_map (λ h. layer_view O.view h.object) s.held };

    ghost invariant = { λ s. IsOpen (option_map (λ h. layer_view O.view h.object) s.held) };
}

impl<O: FileObject> ObjectPlace<O> {
    /// A place that holds this object.
    pub(crate) fn new(object: LayerFile<O>, room: ObjectRoom<O>) -> ObjectPlace<O>
        requires { (layer_view O.view object).opened ≡ true }
        ensures { result ≡ Some (layer_view O.view object) }
    {
        ObjectPlace {
            held: Some(HeldObject { object, room }),
        }
    }

    /// The object, while it is there.
    pub(crate) fn object(&self) -> Option<&LayerFile<O>>
        ensures { MatchOption result (self.now ≡ None) (λ x. self.now ≡ Some (layer_view O.view x.now)) }
    {
        match &self.held {
            Some(held) => Some(&held.object),
            None => None,
        }
    }

    /// Reads of the object that is there.
    pub(crate) fn read(&mut self, at: u64, buf: &mut [u8]) -> Result<usize, ObjError>
        requires { IsTrue (is_some self.old) }
        ensures fits { IfOk result (λ n. n ≤ length buf.old) }
        ensures reads { Reads self.old at (length buf.old) (bytes_read result buf.new) self.new }
    {
        match &mut self.held {
            Some(held) => held.object.read(at, buf),
            // It is there, as the contract requires.
            None => unreachable!(),
        }
    }

    /// Writes to the object that is there.
    pub(crate) fn write(&mut self, at: u64, bytes: &[u8]) -> Result<usize, ObjError>
        requires { IsTrue (is_some self.old) }
        ensures { Writes self.old at bytes.now result self.new }
    {
        match &mut self.held {
            Some(held) => held.object.write(at, bytes),
            // It is there, as the contract requires.
            None => unreachable!(),
        }
    }

    /// Takes out the object, closed, under this number.
    pub(crate) fn take_closed(&mut self, number: u32) -> Option<ClosedObject<O>>
        requires { number < raised_object_limit }
        ensures object { MatchOption result (self.old ≡ None) (λ c. (is_some self.old ≡ true) × (c.object ≡ (number, option_map closed self.old) ∷ [])) }
        ensures number { IfSome result (λ c. c.number ≡ number ∷ []) }
        ensures empty { self.new ≡ None }
    {
        let HeldObject { mut object, room } = self.held.take()?;
        object.close();
        Some(room.holding(number, object))
    }
}
