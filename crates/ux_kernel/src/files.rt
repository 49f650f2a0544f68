//! Opening file objects (open(2)), and moving in them (lseek(2)).
ghost use Rattle.std.specs.Prelude.{◌≡◌, IsTrue, pos, ◌+ℤ◌};
ghost use Rattle.ux_model.specs.State.{is_live};
ghost use Rattle.ux_msg.specs.Answers.{Gives};
ghost use Rattle.ux_model.specs.Opening as opening;
ghost use Rattle.ux_model.specs.Seeking as seeking;
ghost use Rattle.ux_kernel.specs.FileCalls.{seek_target};

use crate::kernel::Kernel;
use ux_names::{PathTarget, is_valid_path};
use ux_object::{FileObject, ObjKind};
use ux_state::FoundDescription;
use ux_types::{Errno, Fd, Mode, Name, OpenFlags, Pid, Refusal, Reply, Whence};

/// The greatest offset: one of 63 bits (off_t of POSIX.1-2017, sys/types.h).
const OFFSET_LIMIT: i128 = i64::MAX as i128;

impl<O: FileObject> Kernel<O> {
    /// open(2). EINVAL for an invalid path, ENOENT for one that isn't there, EOPNOTSUPP for one of a
    /// socket, EMFILE where no number is free, in this order.
    #[tactic(auto, unfolding(ux_model::specs::Opening::open_file))]
    pub(crate) fn open_file(
        &mut self,
        pid: Pid,
        path: &Name,
        mode: Mode,
        flags: OpenFlags,
    ) -> Result<Reply, Refusal>
        requires { IsTrue (is_live self.old pid.0) }
        ensures { Gives self.old (opening.open_file self.old pid.0 path.now mode flags) result self.new }
    {
        if !is_valid_path(path) {
            return Err(Errno::EINVAL.into());
        }
        let object = match self.state.path(path) {
            Some(PathTarget::File(object)) => object,
            Some(PathTarget::Socket(_)) => return Err(Errno::EOPNOTSUPP.into()),
            None => return Err(Errno::ENOENT.into()),
        };
        let fd = self.state.open_object(pid, object, mode, flags)?;
        Ok(Reply::Fd(fd))
    }

    /// lseek(2). EBADF where the number isn't open, ESPIPE where it leads to no memory file, EINVAL for an
    /// offset below 0 or above 2^63 - 1.
    #[tactic(auto, unfolding(ux_model::specs::Seeking::lseek))]
    pub(crate) fn lseek(
        &mut self,
        pid: Pid,
        fd: Fd,
        offset: i64,
        whence: Whence,
    ) -> Result<Reply, Refusal>
        requires { IsTrue (is_live self.old pid.0) }
        ensures { Gives self.old (seeking.lseek self.old pid.0 fd offset whence) result self.new }
    {
        let FoundDescription {
            descriptor,
            description,
        } = match self.state.find_description(pid, fd) {
            Ok(found) => found,
            Err(e) => return Err(e.into()),
        };
        let number = description.object().ok_or(Errno::ESPIPE)?;
        let object = self.state.object(number).ok_or(Errno::EBADF)?;
        if object.kind() != ObjKind::Memory {
            return Err(Errno::ESPIPE.into());
        }
        let base = match whence {
            Whence::Set => 0,
            Whence::Cur => description.offset(),
            Whence::End => object.size(),
        };
        let target = seek_target(base, offset).ok_or(Errno::EINVAL)?;
        self.state.set_offset(descriptor.description, target);
        Ok(Reply::At(target))
    }
}

/// `base + offset`, or none outside 0 to 2^63 - 1.
fn seek_target(base: u64, offset: i64) -> Option<u64>
    ensures { result ≡ seek_target (pos base +ℤ offset) }
{
    let target = base as i128 + offset as i128;
    if 0 <= target && target <= OFFSET_LIMIT {
        Some(target as u64)
    } else {
        None
    }
}
