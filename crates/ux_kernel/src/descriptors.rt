//! Further descriptors (dup(2), dup2(2), fcntl(2)), and the flags of one (fcntl(2)).
ghost use Rattle.std.specs.Prelude.{◌≡◌, IsTrue};
ghost use Rattle.ux_model.specs.Flags.{open_flags_of};
ghost use Rattle.ux_model.specs.State.{is_live};
ghost use Rattle.ux_msg.specs.Answers.{Gives};
ghost use Rattle.ux_model.specs.Descriptors as model;

use crate::kernel::Kernel;
use bitflags::Flags;
use ux_description::Description;
use ux_fdtable::Descriptor;
use ux_object::FileObject;
use ux_types::{Errno, Fd, OpenFlags, Pid, Refusal, Reply};

impl<O: FileObject> Kernel<O> {
    /// dup(2): the lowest free number leads to the same description. EBADF where the number isn't open,
    /// else EMFILE where none is free.
    #[tactic(auto, using(ux_msg::proofs::Found::found_held), unfolding(ux_model::specs::Descriptors::dup))]
    pub(crate) fn dup(&mut self, pid: Pid, fd: Fd) -> Result<Reply, Refusal>
        requires { IsTrue (is_live self.old pid.0) }
        ensures { Gives self.old (model.dup self.old pid.0 fd) result self.new }
    {
        let entry = match self.state.find_description(pid, fd) {
            Ok(found) => found.descriptor,
            Err(e) => return Err(e.into()),
        };
        let number = self.state.put_lowest(pid, entry.duplicate())?;
        Ok(Reply::Fd(number))
    }

    /// dup2(2): a number of the caller's choice leads to the same description, in place of what was open
    /// there. EBADF where the first isn't open or the second isn't below the limit.
    #[tactic(auto, using(ux_msg::proofs::Found::found_held), unfolding(ux_model::specs::Descriptors::dup2))]
    pub(crate) fn dup2(&mut self, pid: Pid, fd: Fd, to: Fd) -> Result<Reply, Refusal>
        requires { IsTrue (is_live self.old pid.0) }
        ensures { Gives self.old (model.dup2 self.old pid.0 fd to) result self.new }
    {
        let entry = match self.state.find_description(pid, fd) {
            Ok(found) => found.descriptor,
            Err(e) => return Err(e.into()),
        };
        // Onto itself it changes nothing, close-on-exec neither.
        if to == fd {
            return Ok(Reply::Fd(to));
        }
        self.state.put_copy_at(pid, to, entry)?;
        Ok(Reply::Fd(to))
    }

    /// fcntl(2), F_DUPFD: the lowest free number that isn't below a minimum leads to the same description. EBADF
    /// where the number isn't open, else EINVAL where the minimum isn't below the limit, else EMFILE where none is free.
    #[tactic(auto, using(ux_msg::proofs::Found::found_held), unfolding(ux_model::specs::Descriptors::dup_from))]
    pub(crate) fn dup_from(&mut self, pid: Pid, fd: Fd, minimum: Fd) -> Result<Reply, Refusal>
        requires { IsTrue (is_live self.old pid.0) }
        ensures { Gives self.old (model.dup_from self.old pid.0 fd minimum) result self.new }
    {
        let entry = match self.state.find_description(pid, fd) {
            Ok(found) => found.descriptor,
            Err(e) => return Err(e.into()),
        };
        if minimum.0 >= self.state.table(pid).limit() {
            return Err(Errno::EINVAL.into());
        }
        let number = self.state.put_lowest_from(pid, minimum, entry.duplicate())?;
        Ok(Reply::Fd(number))
    }

    /// fcntl(2), F_GETFL and F_GETFD at once. EBADF where the number isn't open.
    #[tactic(auto, unfolding(ux_model::specs::Descriptors::get_flags))]
    pub(crate) fn get_flags(&self, pid: Pid, fd: Fd) -> Result<Reply, Refusal>
        requires { IsTrue (is_live self.now pid.0) }
        ensures { Gives self.now (model.get_flags self.now pid.0 fd) result self.now }
    {
        let found = match self.state.find_description(pid, fd) {
            Ok(found) => found,
            Err(e) => return Err(e.into()),
        };
        Ok(Reply::Flags(flags_of(found.descriptor, found.description)))
    }

    /// fcntl(2), F_SETFL and F_SETFD at once. EBADF where the number isn't open.
    #[tactic(auto, unfolding(ux_model::specs::Descriptors::set_flags))]
    pub(crate) fn set_flags(&mut self, pid: Pid, fd: Fd, flags: OpenFlags) -> Result<Reply, Refusal>
        requires { IsTrue (is_live self.old pid.0) }
        ensures { Gives self.old (model.set_flags self.old pid.0 fd flags) result self.new }
    {
        let entry = match self.state.find_description(pid, fd) {
            Ok(found) => found.descriptor,
            Err(e) => return Err(e.into()),
        };
        self.state.set_flags(entry.description, flags);
        self.state
            .set_cloexec(pid, fd, flags.contains(OpenFlags::CLOEXEC));
        Ok(Reply::Ok)
    }
}

/// The flags of a descriptor and of its description.
fn flags_of(entry: Descriptor, description: &Description) -> OpenFlags
    ensures { result ≡ open_flags_of description.now.append description.now.nonblock entry.cloexec }
{
    let mut flags = OpenFlags(0);
    if description.append() {
        flags = flags.union(OpenFlags::APPEND);
    }
    if description.nonblock() {
        flags = flags.union(OpenFlags::NONBLOCK);
    }
    if entry.cloexec {
        flags = flags.union(OpenFlags::CLOEXEC);
    }
    flags
}
