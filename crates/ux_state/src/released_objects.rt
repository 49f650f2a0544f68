//! The file objects that one call closed.
ghost use Rattle.std.specs.Prelude.{◌≡◌, ◌<◌, ◌≤◌, ◌==◌, ◌++◌, ◌∷◌, [], Some, MatchOption, length, option_map};
ghost use Rattle.ux_model.specs.Limits.{raised_object_limit};
ghost use Rattle.ux_objects.specs.Layers.{layer_view};

use std::alloc::Global;
use std::collections::LinkedList;
use std::collections::linked_list::Iter;
use std::marker::Model;
use ux_object::FileObject;
use ux_objects::LayerFile;

/// A file object that was closed at the end of a call, with its number. Contracts see the number beside
/// its view.
#[derive(Drop)]
pub struct ReleasedObject<O: FileObject> {
    number: u32,
    object: Option<LayerFile<O>>,
}

impl<O: FileObject> Model for ReleasedObject<O> {
    ghost use Rattle.std.specs.Prelude.{ℕ, ◌<◌, Option, option_map};
    ghost use Rattle.ux_model.specs.Limits.{raised_object_limit};
    ghost use Rattle.ux_model.specs.Object.{View};
    ghost use Rattle.ux_objects.specs.Layers.{layer_view};

    ghost Value = { ℕ × Option View };

    ghost view = { λ r. (r.number, option_map (layer_view O.view) r.object) };

    ghost invariant = { λ r. r.number < raised_object_limit };
}

impl<O: FileObject> ReleasedObject<O> {
    /// Room for an object.
    pub(crate) fn none() -> ReleasedObject<O> {
        ReleasedObject {
            number: 0,
            object: None,
        }
    }

    /// This object under its number.
    pub(crate) fn new(number: u32, object: LayerFile<O>) -> ReleasedObject<O>
        requires { number < raised_object_limit }
        ensures { result ≡ (number, Some (layer_view O.view object)) }
    {
        ReleasedObject {
            number,
            object: Some(object),
        }
    }

    /// The number that the object had.
    pub fn number(&self) -> u32
        ensures number { result ≡ self.now.0 }
        ensures small { result < raised_object_limit }
    {
        self.number
    }

    /// The object. What a call released is there.
    pub fn object(&self) -> Option<&LayerFile<O>>
        ensures { MatchOption result (self.now.1 ≡ None) (λ o. self.now.1 ≡ Some (layer_view O.view o.now)) }
    {
        self.object.as_ref()
    }
}

/// The file objects that one call closed, by rising number. Each comes in memory that was made with it, so a call that
/// closes them takes none. Contracts see them as a list.
pub struct ReleasedObjects<O: FileObject> {
    objects: LinkedList<ReleasedObject<O>>,
}

// Written out, so that it is proved here and not in each function that drops one.
impl<O: FileObject> Drop for ReleasedObjects<O> {
    fn drop(self) {
        let ReleasedObjects { objects } = self;
        drop(objects);
    }
}

impl<O: FileObject> Model for ReleasedObjects<O> {
    ghost use Rattle.std.specs.Prelude.{ℕ, ◌≤◌, List, Option, length};
    ghost use Rattle.ux_model.specs.Limits.{raised_object_limit};
    ghost use Rattle.ux_model.specs.Object.{View};

    ghost Value = { List (ℕ × Option View) };

    ghost view = { λ l. l.objects };

    ghost invariant = { λ l. length l.objects ≤ raised_object_limit };
}

impl<O: FileObject> ReleasedObjects<O> {
    /// An empty list.
    pub fn new(alloc: Global) -> ReleasedObjects<O>
        ensures { result ≡ [] }
    {
        ReleasedObjects {
            objects: LinkedList::new(alloc),
        }
    }

    /// Where its memory comes from.
    pub(crate) fn allocator(&self) -> Global {
        *self.objects.allocator()
    }

    /// How many there are.
    pub fn len(&self) -> usize
        ensures count { result ≡ length self.now }
        ensures few { result ≤ raised_object_limit }
    {
        self.objects.len()
    }

    /// Whether there is none.
    pub fn is_empty(&self) -> bool
        ensures { result ≡ (length self.now == 0) }
    {
        self.objects.is_empty()
    }

    /// All of them.
    pub fn iter(&self) -> Iter<'_, ReleasedObject<O>>
        ensures { result ≡ self.now }
    {
        self.objects.iter()
    }

    /// Drops all of them.
    pub fn clear(&mut self)
        ensures { self.new ≡ [] }
    {
        self.objects.clear();
    }

    /// One more, in the list in which it was kept.
    pub(crate) fn push(&mut self, mut one: LinkedList<ReleasedObject<O>>)
        requires few { length self.old < raised_object_limit }
        requires one { length one ≤ 1 }
        ensures { self.new ≡ self.old ++ one }
    {
        // Far fewer than can be counted.
        if self.objects.append(&mut one).is_err() {
            unreachable!()
        }
    }
}
