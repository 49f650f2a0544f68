//! Writing (write(2)) to file objects and sockets.
ghost use Rattle.std.specs.Prelude.{◌≡◌, IsTrue, Some};
ghost use Rattle.ux_model.specs.State.{is_live, description_at};
ghost use Rattle.ux_msg.specs.Answers.{GivesOrFails};
ghost use Rattle.ux_model.specs.Writing as model;
ghost use Rattle.ux_kernel.specs.FileCalls.{description_of, write_file, write_at, IsWritable};

use crate::kernel::Kernel;
use crate::open_file::{OpenFile, refusal_of};
use ux_msg::write_socket;
use ux_object::{FileObject, ObjKind};
use ux_types::{Bytes, DescriptionId, Errno, Fd, Pid, Refusal, Reply};

impl<O: FileObject> Kernel<O> {
    /// write(2), as the call with number `tag`, which a message to a socket keeps. EBADF where the number
    /// isn't open, or not for writing, EPIPE where nobody can read a pipe, EINVAL, EFBIG or EAGAIN as the
    /// file object has it, EIO where it failed.
    #[tactic(auto, unfolding(ux_model::specs::Writing::write))]
    pub(crate) fn write(
        &mut self,
        pid: Pid,
        tag: u64,
        fd: Fd,
        bytes: &Bytes,
    ) -> Result<Reply, Refusal>
        requires { IsTrue (is_live self.old pid.0) }
        ensures { GivesOrFails self.old (model.write self.old pid.0 tag fd bytes.now) result self.new }
    {
        let entry = match self.state.find_description(pid, fd) {
            Ok(found) => found.descriptor,
            Err(e) => return Err(e.into()),
        };
        self.write_at(pid, entry.description, tag, bytes)
    }

    /// Writes by this description.
    fn write_at(
        &mut self,
        pid: Pid,
        id: DescriptionId,
        tag: u64,
        bytes: &Bytes,
    ) -> Result<Reply, Refusal>
        requires { IsTrue (is_live self.old pid.0) }
        ensures { GivesOrFails self.old (write_at self.old pid.0 tag id bytes.now) result self.new }
    {
        let description = self.state.description(id).ok_or(Errno::EBADF)?;
        match (OpenFile::of(id, description), description.socket()) {
            (Some(file), _) => self.write_file(file, bytes),
            (None, Some(_)) => write_socket(&mut self.state, self.alloc, pid, id, tag, bytes),
            // A description leads to a file object or to a socket.
            (None, None) => unreachable!(),
        }
    }

    /// Writes to an open file object.
    fn write_file(&mut self, file: OpenFile, bytes: &Bytes) -> Result<Reply, Refusal>
        requires { description_at self.old file.id ≡ Some (description_of file) }
        ensures { GivesOrFails self.old (write_file self.old file bytes.now) result self.new }
    {
        let object = self.state.object(file.object).ok_or(Errno::EBADF)?;
        if !file.mode.can_write() {
            return Err(Errno::EBADF.into());
        }
        let kind = object.kind();
        if kind != ObjKind::Counter && bytes.is_empty() {
            return Ok(Reply::Count(0));
        }
        let place = if file.append {
            object.size()
        } else {
            file.offset
        };
        if kind == ObjKind::Pipe && !self.state.has_reader(file.object) {
            return Err(Errno::EPIPE.into());
        }
        self.write_open(file, kind, place, bytes.as_slice())
    }

    /// Hands the bytes to an open file object, and moves the offset of a memory file.
    fn write_open(
        &mut self,
        file: OpenFile,
        kind: ObjKind,
        place: u64,
        bytes: &[u8],
    ) -> Result<Reply, Refusal>
        requires here { description_at self.old file.id ≡ Some (description_of file) }
        requires writable { IsWritable self.old file kind place bytes.now }
        ensures { GivesOrFails self.old (write_file self.old file bytes.now) result self.new }
    {
        match self.state.write_object(file.object, place, bytes) {
            Ok(count) => {
                if kind == ObjKind::Memory {
                    self.state.set_offset(file.id, place + count as u64);
                }
                Ok(Reply::Count(count))
            }
            Err(error) => Err(refusal_of(error)),
        }
    }
}
