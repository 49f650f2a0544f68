//! Reading (read(2)) of file objects and sockets.
ghost use Rattle.std.specs.Prelude.{◌≡◌, ◌+◌, ◌≤◌, ◌<◌, ◌^◌, IsTrue, Some};
ghost use Rattle.ux_model.specs.Limits.{read_limit};
ghost use Rattle.ux_model.specs.State.{is_live, description_at};
ghost use Rattle.ux_model.specs.Object.{read_body};
ghost use Rattle.ux_msg.specs.Answers.{GivesOrFails};
ghost use Rattle.ux_model.specs.Reading as model;
ghost use Rattle.ux_object.specs.Kind.{kind_of};
ghost use Rattle.ux_kernel.specs.FileCalls.{description_of, read_file, read_at, IsReadable};

use crate::kernel::Kernel;
use crate::object_bytes::read_bytes;
use crate::open_file::{OpenFile, refusal_of};
use ux_msg::read_socket;
use ux_object::{FileObject, ObjKind};
use ux_types::{Bytes, DescriptionId, Errno, Fd, Pid, READ_LIMIT, Refusal, Reply};

/// The bytes of a counter's value, which are read all at once (eventfd(2)).
const COUNTER_BYTES: usize = 8;

impl<O: FileObject> Kernel<O> {
    /// read(2). EBADF where the number isn't open, or not for reading, EINVAL for fewer than 8 bytes of a
    /// counter, EAGAIN where there is nothing to read, EIO where the file object failed.
    #[tactic(auto, unfolding(ux_model::specs::Reading::read))]
    pub(crate) fn read(&mut self, pid: Pid, fd: Fd, n: usize) -> Result<Reply, Refusal>
        requires { IsTrue (is_live self.old pid.0) }
        ensures { GivesOrFails self.old (model.read self.old pid.0 fd n) result self.new }
    {
        let entry = match self.state.find_description(pid, fd) {
            Ok(found) => found.descriptor,
            Err(e) => return Err(e.into()),
        };
        self.read_at(pid, entry.description, n.min(READ_LIMIT))
    }

    /// Reads by this description.
    fn read_at(&mut self, pid: Pid, id: DescriptionId, n: usize) -> Result<Reply, Refusal>
        requires live { IsTrue (is_live self.old pid.0) }
        requires few { n ≤ read_limit }
        ensures { GivesOrFails self.old (read_at self.old pid.0 id n) result self.new }
    {
        let description = self.state.description(id).ok_or(Errno::EBADF)?;
        match OpenFile::of(id, description) {
            Some(file) => self.read_file(file, n),
            None => read_socket(&mut self.state, self.alloc, pid, id, n),
        }
    }

    /// Reads of an open file object.
    fn read_file(&mut self, file: OpenFile, n: usize) -> Result<Reply, Refusal>
        requires here { description_at self.old file.id ≡ Some (description_of file) }
        requires few { n ≤ read_limit }
        ensures { GivesOrFails self.old (read_file self.old file n) result self.new }
    {
        let object = self.state.object(file.object).ok_or(Errno::EBADF)?;
        if !file.mode.can_read() {
            return Err(Errno::EBADF.into());
        }
        let kind = object.kind();
        if kind == ObjKind::Counter && n < COUNTER_BYTES {
            return Err(Errno::EINVAL.into());
        }
        if kind != ObjKind::Counter && n == 0 {
            return Ok(Reply::Bytes(Bytes::empty()));
        }
        if object.ready().0 {
            let wanted = wanted_of(object, file.offset, n);
            return self.read_ready(file, kind, n, wanted);
        }
        // A pipe that nobody can write to has ended.
        if kind == ObjKind::Pipe && !self.state.has_writer(file.object) {
            return Ok(Reply::Bytes(Bytes::empty()));
        }
        Err(Errno::EAGAIN.into())
    }

    /// Reads of an open file object that has something to give, and moves the offset of a memory file.
    fn read_ready(
        &mut self,
        file: OpenFile,
        kind: ObjKind,
        n: usize,
        wanted: usize,
    ) -> Result<Reply, Refusal>
        requires here { description_at self.old file.id ≡ Some (description_of file) }
        requires readable { IsReadable self.old file kind n wanted }
        ensures { GivesOrFails self.old (read_file self.old file n) result self.new }
    {
        match read_bytes(
            &mut self.state,
            self.alloc,
            file.object,
            file.offset,
            wanted,
        )? {
            Ok(bytes) => {
                if kind == ObjKind::Memory {
                    self.state
                        .set_offset(file.id, file.offset + bytes.len() as u64);
                }
                Ok(Reply::Bytes(bytes))
            }
            Err(error) => Err(refusal_of(error)),
        }
    }
}

/// How many bytes a read of n bytes wants of an object: of a memory file no more than it has.
fn wanted_of<O: FileObject>(object: &O, offset: u64, n: usize) -> usize
    ensures least { result ≤ n }
    ensures enough { read_body (O.view object.now).body offset result ≡ read_body (O.view object.now).body offset n }
    ensures fits { kind_of (O.view object.now).body ≡ ObjKind.Memory → offset + result < 2 ^ 64 }
{
    match object.kind() {
        ObjKind::Memory => n.min(object.size().saturating_sub(offset) as usize),
        ObjKind::Counter | ObjKind::Pipe => n,
    }
}
