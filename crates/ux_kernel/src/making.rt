//! Making file objects: pipes (pipe2(2)), counters (eventfd(2)) and files (memfd_create(2); open(2) with
//! O_CREAT and O_EXCL).
ghost use Rattle.std.specs.Prelude.{IsTrue};
ghost use Rattle.ux_model.specs.State.{is_live};
ghost use Rattle.ux_model.specs.Making as model;
ghost use Rattle.ux_msg.specs.Answers.{Gives};

use crate::kernel::Kernel;
use bitflags::Flags;
use ux_names::is_valid_path;
use ux_object::FileObject;
use ux_types::{Errno, Mode, Name, OpenFlags, Pid, Refusal, Reply};

impl<O: FileObject> Kernel<O> {
    /// pipe2(2). EINVAL with append, which it doesn't have; EMFILE where fewer than two numbers are free, else
    /// ENFILE where as many file objects were made as one layer may have.
    #[tactic(auto, unfolding(ux_model::specs::Making::make_pipe))]
    pub(crate) fn make_pipe(&mut self, pid: Pid, flags: OpenFlags) -> Result<Reply, Refusal>
        requires { IsTrue (is_live self.old pid.0) }
        ensures { Gives self.old (model.make_pipe self.old pid.0 flags) result self.new }
    {
        if flags.contains(OpenFlags::APPEND) {
            return Err(Errno::EINVAL.into());
        }
        let (reader, writer) = self.state.make_pipe(pid, flags)?;
        Ok(Reply::Fds(reader, writer))
    }

    /// eventfd(2). EINVAL with append, which it doesn't have; EMFILE where no number is free, else ENFILE where
    /// as many file objects were made as one layer may have.
    #[tactic(auto, unfolding(ux_model::specs::Making::make_object))]
    pub(crate) fn make_counter(
        &mut self,
        pid: Pid,
        value: u32,
        semaphore: bool,
        flags: OpenFlags,
    ) -> Result<Reply, Refusal>
        requires { IsTrue (is_live self.old pid.0) }
        ensures { Gives self.old (model.make_counter self.old pid.0 value semaphore flags) result self.new }
    {
        if flags.contains(OpenFlags::APPEND) {
            return Err(Errno::EINVAL.into());
        }
        let fd = self.state.make_counter(pid, value, semaphore, flags)?;
        Ok(Reply::Fd(fd))
    }

    /// memfd_create(2). EINVAL with append or non-blocking, which it doesn't have; EMFILE where no number is
    /// free, else ENFILE where as many file objects were made as one layer may have.
    #[tactic(auto, unfolding(ux_model::specs::Making::make_object))]
    pub(crate) fn make_file(&mut self, pid: Pid, flags: OpenFlags) -> Result<Reply, Refusal>
        requires { IsTrue (is_live self.old pid.0) }
        ensures { Gives self.old (model.make_file self.old pid.0 flags) result self.new }
    {
        if flags.contains(OpenFlags::APPEND) || flags.contains(OpenFlags::NONBLOCK) {
            return Err(Errno::EINVAL.into());
        }
        let fd = self.state.make_file(pid, flags)?;
        Ok(Reply::Fd(fd))
    }

    /// open(2) with O_CREAT and O_EXCL. EINVAL for an invalid path, then EEXIST for one that is there, EMFILE
    /// where no number is free, and ENFILE where as many file objects were made as one layer may have.
    #[tactic(auto, unfolding(ux_model::specs::Making::create_file))]
    pub(crate) fn create_file(
        &mut self,
        pid: Pid,
        path: &Name,
        mode: Mode,
        flags: OpenFlags,
    ) -> Result<Reply, Refusal>
        requires { IsTrue (is_live self.old pid.0) }
        ensures { Gives self.old (model.create_file self.old pid.0 path.now mode flags) result self.new }
    {
        if !is_valid_path(path) {
            return Err(Errno::EINVAL.into());
        }
        if self.state.path(path).is_some() {
            return Err(Errno::EEXIST.into());
        }
        let fd = self.state.create_file(pid, path, mode, flags)?;
        Ok(Reply::Fd(fd))
    }
}
