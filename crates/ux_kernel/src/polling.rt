//! What is ready (poll(2)).
ghost use Rattle.std.specs.Prelude.{◌≡◌, ◌≤◌, IsTrue, length, map};
ghost use Rattle.ux_model.specs.State.{is_live};
ghost use Rattle.ux_model.specs.Polling as several;
ghost use Rattle.ux_model.specs.Readiness as model;
ghost use Rattle.ux_msg.specs.Answers.{Gives};

use crate::kernel::Kernel;
use ux_object::FileObject;
use ux_ready::{readiness, reported};
use ux_types::{Errno, Fd, POLL_LIMIT, Pid, PollFd, PollFds, PollFlags, Refusal, Reply, Revents};

impl<O: FileObject> Kernel<O> {
    /// poll(2) of one descriptor, without waiting. A number that isn't open gives NVAL alone.
    #[tactic(auto, unfolding(ux_model::specs::Readiness::poll))]
    pub(crate) fn poll(&self, pid: Pid, fd: Fd) -> Result<Reply, Refusal>
        requires { IsTrue (is_live self.now pid.0) }
        ensures { Gives self.now (model.poll self.now pid.0 fd) result self.now }
    {
        let flags = match self.state.table(pid).get(fd) {
            Some(entry) => readiness(&self.state, entry.description),
            None => PollFlags::NVAL,
        };
        Ok(Reply::Poll(flags))
    }
    /// poll(2) of several descriptors, at most 64. One that waits is answered EAGAIN where nothing is reported of any.
    #[tactic(auto, unfolding(ux_model::specs::Polling::poll_many))]
    pub(crate) fn poll_many(&self, pid: Pid, fds: &PollFds, waits: bool) -> Result<Reply, Refusal>
        requires { IsTrue (is_live self.now pid.0) }
        ensures { Gives self.now (several.poll_many self.now pid.0 fds.now waits) result self.now }
    {
        let asked = fds.as_slice();
        if asked.len() > POLL_LIMIT {
            return Err(Refusal::Answer(Errno::EINVAL));
        }
        let found = self.revents_of(pid, asked);
        if waits && !some_ready(found.as_slice()) {
            return Err(Refusal::Answer(Errno::EAGAIN));
        }
        Ok(Reply::Polled(found))
    }

    /// What is reported of each of these.
    fn revents_of(&self, pid: Pid, asked: &[PollFd]) -> Revents
        requires live { IsTrue (is_live self.now pid.0) }
        requires few { length asked.now ≤ POLL_LIMIT }
        ensures { result ≡ map (several.revents self.now pid.0) asked.now }
    {
        let mut found = Revents::new();
        for one in asked {
            found.push(self.revents(pid, *one));
        }
        found
    }

    /// What is reported of one: NVAL alone of a number that isn't open.
    fn revents(&self, pid: Pid, asked: PollFd) -> PollFlags
        requires { IsTrue (is_live self.now pid.0) }
        ensures { result ≡ several.revents self.now pid.0 asked }
    {
        match self.state.table(pid).get(asked.fd) {
            Some(entry) => reported(&self.state, entry.description, asked.events),
            None => PollFlags::NVAL,
        }
    }
}

/// Whether a condition is reported of one of them at least.
fn some_ready(found: &[PollFlags]) -> bool
    ensures { result ≡ several.some_ready found.now }
{
    found.iter().any(|one| one.0 != 0)
}
