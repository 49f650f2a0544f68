//! What a number leads to.
ghost use Rattle.std.specs.Prelude.{◌≡◌, ◌≤◌, Some, None, Ok, Err, IfOk, IsTrue, IsSomeAnd, MatchOption, MatchResult, length};
ghost use Rattle.ux_model.specs.Limits.{made_limit};
ghost use Rattle.ux_model.specs.Flags.{can_read, can_write};
ghost use Rattle.ux_model.specs.Places.{place};
ghost use Rattle.ux_model.specs.Process.{own_cred};
ghost use Rattle.ux_model.specs.State.{description_at, socket_at, process_at, table_of, is_live};
ghost use Rattle.ux_model.specs.References.{refs};
ghost use Rattle.ux_model.specs.Flight.{in_flight};
ghost use Rattle.ux_model.specs.Outcome.{find_description, find_socket};
ghost use Rattle.ux_model.specs.FileObjects.{is_open_for};
ghost use Rattle.ux_model.specs.History.{has_live};
ghost use Rattle.ux_slots.specs.Held.{Lists};

use crate::process::Process;
use crate::state::State;
use std::alloc::{AllocError, Global};
use ux_description::{Description, Socket};
use ux_fdtable::{Descriptor, Table};
use ux_object::FileObject;
use ux_types::{Cred, DescriptionId, Errno, Fd, Pid};

// `?` gets no proof where the answer lends what owns memory, so who looks one of these two up writes `match`.
/// A descriptor that is open, and the description that it leads to.
#[derive(Clone, Copy)]
pub struct FoundDescription<'a> {
    /// What stands in the process's table.
    pub descriptor: Descriptor,
    /// Where it leads.
    pub description: &'a Description,
}

/// A socket, and the handle of its description.
#[derive(Clone, Copy)]
pub struct FoundSocket<'a> {
    /// The handle.
    pub id: DescriptionId,
    /// The socket.
    pub socket: &'a Socket,
}

impl<O: FileObject> State<O> {
    /// How many processes were made, exited ones too.
    pub fn process_count(&self) -> usize
        ensures count { result ≡ length self.now.processes }
        ensures most { result ≤ made_limit }
    {
        self.processes.len()
    }

    /// Whether a process with this number was made, and hasn't exited.
    #[tactic(auto, using(crate::proofs::Lookups::live_is, crate::proofs::Lookups::live_none, crate::proofs::Lookups::live_zero))]
    pub fn is_live(&self, pid: Pid) -> bool
        ensures { result ≡ is_live self.now pid.0 }
    {
        if pid.0 == 0 {
            return false;
        }
        match self.processes.get(pid.0 as usize - 1) {
            Some(process) => !process.exited,
            None => false,
        }
    }

    /// Whether some process hasn't exited.
    pub fn has_live(&self) -> bool
        ensures { result ≡ has_live self.now }
    {
        self.processes.iter().any(|process| !process.exited)
    }

    /// The process with this number, which lives.
    #[tactic(auto, using(crate::proofs::Lookups::live_inside, crate::proofs::Lookups::live_positive, crate::proofs::Lookups::found_process))]
    pub(crate) fn process(&self, pid: Pid) -> &Process
        requires { IsTrue (is_live self.now pid.0) }
        ensures { process_at self.now pid.0 ≡ Some result.now }
    {
        &self.processes[pid.0 as usize - 1]
    }

    /// The descriptor table of a process.
    pub fn table(&self, pid: Pid) -> &Table
        requires { IsTrue (is_live self.now pid.0) }
        ensures { result.now ≡ table_of self.now pid.0 }
    {
        let process = self.process(pid);
        &process.table
    }

    /// The credentials of a process.
    pub fn credentials(&self, pid: Pid) -> Cred
        requires { IsTrue (is_live self.now pid.0) }
        ensures { IsSomeAnd (process_at self.now pid.0) (λ P. result ≡ own_cred pid.0 P) }
    {
        let process = self.process(pid);
        Cred {
            pid,
            uid: process.uid,
            gid: process.gid,
        }
    }

    /// Whether a process has the privileges of the superuser.
    pub fn is_privileged(&self, pid: Pid) -> bool
        requires { IsTrue (is_live self.now pid.0) }
        ensures { IsSomeAnd (process_at self.now pid.0) (λ P. result ≡ P.privileged) }
    {
        self.process(pid).privileged
    }

    /// The description that a handle names, while it is there.
    pub fn description(&self, id: DescriptionId) -> Option<&Description>
        ensures { MatchOption result (description_at self.now id ≡ None) (λ x. description_at self.now id ≡ Some x.now) }
    {
        self.descriptions.get(id)
    }

    /// How many descriptions were made, dropped ones too: their numbers are below this one.
    pub fn description_count(&self) -> u128
        ensures { result ≡ length self.now.descriptions }
    {
        self.descriptions.next_id().number()
    }

    /// The descriptions that are there, by rising number. It visits these alone.
    ///
    /// # Errors
    ///
    /// Out of memory.
    pub fn description_ids(&self, alloc: Global) -> Result<Vec<DescriptionId>, AllocError>
        ensures { IfOk result (λ ids. Lists self.now.descriptions ids.items) }
    {
        self.descriptions.ids(alloc)
    }

    /// How many references a description has: from descriptors, from rights in unread messages, and from
    /// listeners at which it waits.
    pub fn count(&self, id: DescriptionId) -> u64
        ensures { result ≡ refs self.now id }
    {
        self.descriptions.count(id)
    }

    /// How many rights of this user are in messages that nobody has received.
    pub fn rights_in_flight(&self, uid: u32) -> u64
        ensures { result ≡ in_flight self.now uid }
    {
        self.flights.count(uid)
    }

    /// The descriptor with a number, and its description.
    ///
    /// # Errors
    ///
    /// EBADF where the number isn't open.
    pub fn find_description(&self, pid: Pid, fd: Fd) -> Result<FoundDescription<'_>, Errno>
        requires { IsTrue (is_live self.now pid.0) }
        ensures { MatchResult result (λ r. find_description self.now pid.0 fd ≡ Ok (r.descriptor, r.description.now)) (λ e. find_description self.now pid.0 fd ≡ Err e) }
    {
        let Some(descriptor) = self.table(pid).get(fd) else {
            return Err(Errno::EBADF);
        };
        match self.description(descriptor.description) {
            Some(description) => Ok(FoundDescription {
                descriptor,
                description,
            }),
            None => Err(Errno::EBADF),
        }
    }

    /// The socket that a number leads to, and the handle of its description.
    ///
    /// # Errors
    ///
    /// EBADF where the number isn't open, ENOTSOCK where it leads to no socket.
    pub fn find_socket(&self, pid: Pid, fd: Fd) -> Result<FoundSocket<'_>, Errno>
        requires { IsTrue (is_live self.now pid.0) }
        ensures { MatchResult result (λ r. find_socket self.now pid.0 fd ≡ Ok (r.id, r.socket.now)) (λ e. find_socket self.now pid.0 fd ≡ Err e) }
    {
        let found = match self.find_description(pid, fd) {
            Ok(found) => found,
            Err(error) => return Err(error),
        };
        match found.description.socket() {
            Some(socket) => Ok(FoundSocket {
                id: found.descriptor.description,
                socket,
            }),
            None => Err(Errno::ENOTSOCK),
        }
    }

    /// The socket of the description that a handle names, while it is there.
    pub fn socket(&self, id: DescriptionId) -> Option<&Socket>
        ensures { MatchOption result (socket_at self.now id ≡ None) (λ s. socket_at self.now id ≡ Some s.now) }
    {
        match self.description(id) {
            Some(x) => x.socket(),
            None => None,
        }
    }
}
