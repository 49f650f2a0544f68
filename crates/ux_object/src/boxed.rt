//! The interface at a box: each call is made on the object inside. Nothing else names the box.

use super::{FileObject, ObjError, ObjKind};

impl FileObject for Box<dyn FileObject + Send> {
    ghost view = { λ b. (FileObject-box b).view b.value };

    fn kind(&self) -> ObjKind {
        (**self).kind()
    }

    fn read(&mut self, at: u64, buf: &mut [u8]) -> Result<usize, ObjError> {
        (**self).read(at, buf)
    }

    fn write(&mut self, at: u64, bytes: &[u8]) -> Result<usize, ObjError> {
        (**self).write(at, bytes)
    }

    fn size(&self) -> u64 {
        (**self).size()
    }

    fn bytes_ahead(&self, at: u64) -> Option<usize> {
        (**self).bytes_ahead(at)
    }

    fn ready(&self) -> (bool, bool) {
        (**self).ready()
    }

    fn lacks_room(&self, bytes: &[u8]) -> bool {
        (**self).lacks_room(bytes)
    }

    fn faults(&self) -> u64 {
        (**self).faults()
    }

    fn is_open(&self) -> bool {
        (**self).is_open()
    }

    fn close(&mut self) {
        (**self).close()
    }
}
