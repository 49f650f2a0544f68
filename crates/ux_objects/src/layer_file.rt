//! A file object of a layer, whoever made it.
ghost use Rattle.ux_objects.specs.Layers.{layer_view};

use crate::Plain;
use ux_object::{FileObject, ObjError, ObjKind};

/// A file object of a layer: one that it was given, or one that a call made.
#[derive(Drop)]
pub enum LayerFile<O> {
    Given(O),
    Made(Plain),
}

/// Each call is that of the object inside.
impl<O: FileObject> FileObject for LayerFile<O> {
    ghost view = { layer_view O.view };

    fn kind(&self) -> ObjKind {
        match self {
            LayerFile::Given(object) => object.kind(),
            LayerFile::Made(object) => object.kind(),
        }
    }

    fn read(&mut self, at: u64, buf: &mut [u8]) -> Result<usize, ObjError> {
        match self {
            LayerFile::Given(object) => object.read(at, buf),
            LayerFile::Made(object) => object.read(at, buf),
        }
    }

    fn write(&mut self, at: u64, bytes: &[u8]) -> Result<usize, ObjError> {
        match self {
            LayerFile::Given(object) => object.write(at, bytes),
            LayerFile::Made(object) => object.write(at, bytes),
        }
    }

    fn size(&self) -> u64 {
        match self {
            LayerFile::Given(object) => object.size(),
            LayerFile::Made(object) => object.size(),
        }
    }

    fn bytes_ahead(&self, at: u64) -> Option<usize> {
        match self {
            LayerFile::Given(object) => object.bytes_ahead(at),
            LayerFile::Made(object) => object.bytes_ahead(at),
        }
    }

    fn ready(&self) -> (bool, bool) {
        match self {
            LayerFile::Given(object) => object.ready(),
            LayerFile::Made(object) => object.ready(),
        }
    }

    fn lacks_room(&self, bytes: &[u8]) -> bool {
        match self {
            LayerFile::Given(object) => object.lacks_room(bytes),
            LayerFile::Made(object) => object.lacks_room(bytes),
        }
    }

    fn faults(&self) -> u64 {
        match self {
            LayerFile::Given(object) => object.faults(),
            LayerFile::Made(object) => object.faults(),
        }
    }

    fn is_open(&self) -> bool {
        match self {
            LayerFile::Given(object) => object.is_open(),
            LayerFile::Made(object) => object.is_open(),
        }
    }

    fn close(&mut self) {
        match self {
            LayerFile::Given(object) => object.close(),
            LayerFile::Made(object) => object.close(),
        }
    }
}
