//! What is known of an open file object by its description.
ghost use Rattle.std.specs.Prelude.{◌≡◌, Some, None, MatchOption};
ghost use Rattle.ux_model.specs.Description.{object_of};
ghost use Rattle.ux_kernel.specs.FileCalls.{description_of, refusal_of};

use ux_description::Description;
use ux_object::ObjError;
use ux_types::{DescriptionId, Errno, Mode, Refusal};

/// An open file object, with all that its description says.
#[derive(Clone, Copy)]
pub(crate) struct OpenFile {
    pub(crate) id: DescriptionId,
    pub(crate) object: u32,
    pub(crate) offset: u64,
    pub(crate) mode: Mode,
    pub(crate) append: bool,
    pub(crate) nonblock: bool,
}

impl OpenFile {
    /// What a description says of the file object that it leads to, if it leads to one.
    pub(crate) fn of(id: DescriptionId, description: &Description) -> Option<OpenFile>
        ensures { MatchOption result (object_of description.now.target ≡ None) (λ f. (f.id ≡ id) × (description.now ≡ description_of f)) }
    {
        let object = description.object()?;
        Some(OpenFile {
            id,
            object,
            offset: description.offset(),
            mode: description.mode(),
            append: description.append(),
            nonblock: description.nonblock(),
        })
    }
}

/// The refusal that stands for an error of a file object.
pub(crate) fn refusal_of(error: ObjError) -> Refusal
    ensures { result ≡ refusal_of error }
{
    match error {
        ObjError::WouldBlock => Errno::EAGAIN.into(),
        ObjError::Io => Errno::EIO.into(),
        ObjError::Full => Errno::EFBIG.into(),
        ObjError::NoMemory => Refusal::NoMemory,
        ObjError::Invalid => Errno::EINVAL.into(),
    }
}
