//! Table entries: opening, copying and closing descriptors.
ghost use Rattle.std.specs.Prelude.{◌≡◌, ◌+◌, ◌<◌, ◌≤◌, ◌↔◌, IsTrue, Some, None, Err, IfOk, OnOk, OnErr, length, slice_set, option_map};
ghost use Rattle.ux_model.specs.Places.{place, filled, emptied};
ghost use Rattle.ux_model.specs.Process.{lowest_free, lowest_free_from, two_lowest_free, descriptor, copy_of, with_cloexec};
ghost use Rattle.ux_model.specs.State.{is_live, table_of, with_table, with_new, next_description};
ghost use Rattle.ux_model.specs.References.{refs};
ghost use Rattle.ux_model.specs.Socket.{new_socket, pair_end};
ghost use Rattle.ux_model.specs.Pairing.{socket_description, with_pair};
ghost use Rattle.ux_model.specs.Opening.{file_description};
ghost use Rattle.ux_model.specs.Closing as model;
ghost use Rattle.ux_state.specs.Moves.{IsFresh};

use crate::openings::count_in;
use crate::process::process_mut;
use crate::references::{release, release_table, retain};
use crate::state::State;
use bitflags::Flags;
use std::alloc::Global;
use ux_description::{Description, Socket};
use ux_fdtable::{Descriptor, DupError, InstallError};
use ux_object::FileObject;
use ux_types::{Cred, DescriptionId, Fd, Mode, OpenFlags, Pid, SockType};

impl<O: FileObject> State<O> {
    /// Makes a description of a file object, and opens the lowest free number of a process for it (open(2)).
    ///
    /// # Errors
    ///
    /// `Full` where no number is free, else `NoMemory`, also for a file object that was never there. The
    /// state is then as before.
    pub fn open_object(
        &mut self,
        pid: Pid,
        object: u32,
        mode: Mode,
        flags: OpenFlags,
    ) -> Result<Fd, InstallError>
        requires { IsTrue (is_live self.old pid.0) }
        ensures lowest { IfOk result (λ fd. lowest_free (table_of self.old pid.0) ≡ Some fd.0) }
        ensures opened { IfOk result (λ fd. self.new ≡ with_table (with_new self.old (file_description object mode flags)) pid.0
            (filled (table_of self.old pid.0) fd.0 (descriptor flags (next_description self.old)))) }
        ensures full { (result ≡ Err InstallError.Full) ↔ (lowest_free (table_of self.old pid.0) ≡ None) }
        ensures err { OnErr result (self.new ≡ self.old) }
    {
        if (object as usize) < self.object_count() {
            return self.open_description(pid, flags, Description::of_object(object, mode, flags));
        }
        match self.table(pid).lowest_free() {
            Some(_) => Err(InstallError::NoMemory),
            None => Err(InstallError::Full),
        }
    }

    /// Makes a description of a socket of this type, which is tied to nobody, and opens the lowest free
    /// number of a process for it (socket(2)).
    ///
    /// # Errors
    ///
    /// `Full` where no number is free, else `NoMemory`. The state is then as before.
    pub fn open_socket(
        &mut self,
        pid: Pid,
        kind: SockType,
        flags: OpenFlags,
    ) -> Result<Fd, InstallError>
        requires { IsTrue (is_live self.old pid.0) }
        ensures lowest { IfOk result (λ fd. lowest_free (table_of self.old pid.0) ≡ Some fd.0) }
        ensures opened { IfOk result (λ fd. self.new ≡ with_table (with_new self.old (socket_description flags (new_socket kind))) pid.0
            (filled (table_of self.old pid.0) fd.0 (descriptor flags (next_description self.old)))) }
        ensures full { (result ≡ Err InstallError.Full) ↔ (lowest_free (table_of self.old pid.0) ≡ None) }
        ensures err { OnErr result (self.new ≡ self.old) }
    {
        let alloc = *self.processes.allocator();
        self.open_description(
            pid,
            flags,
            Description::of_socket(flags, Socket::new(alloc, kind)),
        )
    }

    /// Opens the lowest free number of a process for a new description, which refers to nothing yet, and
    /// leads to no file object that was never there.
    fn open_description(
        &mut self,
        pid: Pid,
        flags: OpenFlags,
        description: Description,
    ) -> Result<Fd, InstallError>
        requires live { IsTrue (is_live self.old pid.0) }
        requires fresh { IsFresh self.old description }
        ensures lowest { IfOk result (λ fd. lowest_free (table_of self.old pid.0) ≡ Some fd.0) }
        ensures opened { IfOk result (λ fd. self.new ≡ with_table (with_new self.old description) pid.0
            (filled (table_of self.old pid.0) fd.0 (descriptor flags (next_description self.old)))) }
        ensures full { (result ≡ Err InstallError.Full) ↔ (lowest_free (table_of self.old pid.0) ≡ None) }
        ensures err { OnErr result (self.new ≡ self.old) }
    {
        // A full table comes before ENOMEM.
        if self.table(pid).lowest_free().is_none() {
            return Err(InstallError::Full);
        }
        self.descriptions.reserve(1)?;
        let id = self.descriptions.next_id();
        let process = process_mut(&mut self.processes, pid);
        let fd = process.table.install(new_entry(flags, id))?;
        count_in(&mut self.openings, &description);
        // It has a name, since the proof cites the call by it.
        let _id = self.descriptions.insert_reserved(description);
        Ok(fd)
    }

    /// Makes the descriptions of two sockets of this type that are tied to one another, and opens the two
    /// lowest free numbers of a process for them (socketpair(2)).
    ///
    /// # Errors
    ///
    /// `Full` where fewer than two numbers are free, else `NoMemory`. The state is then as before.
    pub fn open_pair(
        &mut self,
        pid: Pid,
        kind: SockType,
        flags: OpenFlags,
        cred: Cred,
    ) -> Result<(Fd, Fd), InstallError>
        requires { IsTrue (is_live self.old pid.0) }
        ensures lowest { IfOk result (λ two. two_lowest_free (table_of self.old pid.0) ≡ Some (two.0.0, two.1.0)) }
        ensures opened { IfOk result (λ two. self.new ≡ with_table (with_pair self.old kind flags cred) pid.0
            (filled (filled (table_of self.old pid.0) two.0.0 (descriptor flags (next_description self.old)))
            two.1.0 (descriptor flags (next_description self.old + 1)))) }
        ensures full { (result ≡ Err InstallError.Full) ↔ (two_lowest_free (table_of self.old pid.0) ≡ None) }
        ensures err { OnErr result (self.new ≡ self.old) }
    {
        if self.table(pid).two_lowest_free().is_none() {
            return Err(InstallError::Full);
        }
        self.descriptions.reserve(2)?;
        let alloc = *self.processes.allocator();
        let first = self.descriptions.next_id();
        let second = DescriptionId::new(first.number() + 1);
        let process = process_mut(&mut self.processes, pid);
        let entries = (new_entry(flags, first), new_entry(flags, second));
        let two = process.table.install_two(entries.0, entries.1)?;
        // They have names, since the proof cites the calls by them.
        let _first = self
            .descriptions
            .insert_reserved(pair_end(alloc, kind, flags, second, cred));
        let _second = self
            .descriptions
            .insert_reserved(pair_end(alloc, kind, flags, first, cred));
        Ok(two)
    }

    /// Opens the two lowest free numbers of a process for two new descriptions, which refer to nothing yet, and lead to no file
    /// object that was never there.
    pub(crate) fn open_two(
        &mut self,
        pid: Pid,
        flags: OpenFlags,
        first: Description,
        second: Description,
    ) -> Result<(Fd, Fd), InstallError>
        requires live { IsTrue (is_live self.old pid.0) }
        requires first { IsFresh self.old first }
        requires second { IsFresh self.old second }
        ensures lowest { IfOk result (λ two. two_lowest_free (table_of self.old pid.0) ≡ Some (two.0.0, two.1.0)) }
        ensures opened { IfOk result (λ two. self.new ≡ with_table (with_new (with_new self.old first) second) pid.0
            (filled (filled (table_of self.old pid.0) two.0.0 (descriptor flags (next_description self.old)))
            two.1.0 (descriptor flags (next_description self.old + 1)))) }
        ensures full { (result ≡ Err InstallError.Full) ↔ (two_lowest_free (table_of self.old pid.0) ≡ None) }
        ensures err { OnErr result (self.new ≡ self.old) }
    {
        if self.table(pid).two_lowest_free().is_none() {
            return Err(InstallError::Full);
        }
        self.descriptions.reserve(2)?;
        let low = self.descriptions.next_id();
        let high = DescriptionId::new(low.number() + 1);
        let process = process_mut(&mut self.processes, pid);
        let entries = (new_entry(flags, low), new_entry(flags, high));
        let two = process.table.install_two(entries.0, entries.1)?;
        count_in(&mut self.openings, &first);
        count_in(&mut self.openings, &second);
        // They have names, since the proof cites the calls by them.
        let _first = self.descriptions.insert_reserved(first);
        let _second = self.descriptions.insert_reserved(second);
        Ok(two)
    }

    /// Puts an entry at the lowest free number of a process, which leads to what something leads to
    /// already.
    ///
    /// # Errors
    ///
    /// `Full` where no number is free, else `NoMemory`, also where no more references can be counted.
    /// The state is then as before.
    pub fn put_lowest(&mut self, pid: Pid, entry: Descriptor) -> Result<Fd, InstallError>
        requires live { IsTrue (is_live self.old pid.0) }
        requires held { 0 < refs self.old entry.description }
        ensures lowest { IfOk result (λ fd. lowest_free (table_of self.old pid.0) ≡ Some fd.0) }
        ensures opened { IfOk result (λ fd. self.new ≡ with_table self.old pid.0 (filled (table_of self.old pid.0) fd.0 entry)) }
        ensures full { (result ≡ Err InstallError.Full) ↔ (lowest_free (table_of self.old pid.0) ≡ None) }
        ensures err { OnErr result (self.new ≡ self.old) }
    {
        self.put_lowest_from(pid, Fd(0), entry)
    }

    /// The same with a number that isn't below a minimum (fcntl(2), F_DUPFD).
    ///
    /// # Errors
    ///
    /// `Full` where no such number is free, else `NoMemory`, also where no more references can be counted.
    /// The state is then as before.
    pub fn put_lowest_from(
        &mut self,
        pid: Pid,
        minimum: Fd,
        entry: Descriptor,
    ) -> Result<Fd, InstallError>
        requires live { IsTrue (is_live self.old pid.0) }
        requires held { 0 < refs self.old entry.description }
        ensures lowest { IfOk result (λ fd. lowest_free_from minimum.0 (table_of self.old pid.0) ≡ Some fd.0) }
        ensures opened { IfOk result (λ fd. self.new ≡ with_table self.old pid.0 (filled (table_of self.old pid.0) fd.0 entry)) }
        ensures full { (result ≡ Err InstallError.Full) ↔ (lowest_free_from minimum.0 (table_of self.old pid.0) ≡ None) }
        ensures err { OnErr result (self.new ≡ self.old) }
    {
        // A full table comes before a count that can't rise.
        if self.table(pid).lowest_free_from(minimum).is_none() {
            return Err(InstallError::Full);
        }
        if !self.descriptions.has_room(entry.description, 1) {
            return Err(InstallError::NoMemory);
        }
        let process = process_mut(&mut self.processes, pid);
        let fd = process.table.install_from(minimum, entry)?;
        retain(&mut self.descriptions, entry.description);
        Ok(fd)
    }

    /// Puts a copy of an entry at a number of a process, in place of what was open there (dup2(2)). It
    /// leads to what something leads to already.
    ///
    /// # Errors
    ///
    /// `BadNumber` where the number isn't below the limit, else `NoMemory`, also where no more references
    /// can be counted. The state is then as before.
    pub fn put_copy_at(&mut self, pid: Pid, fd: Fd, entry: Descriptor) -> Result<(), DupError>
        requires live { IsTrue (is_live self.old pid.0) }
        requires held { 0 < refs self.old entry.description }
        ensures opened { OnOk result (self.new ≡ with_table self.old pid.0 (filled (table_of self.old pid.0) fd.0 (copy_of entry))) }
        ensures bad_number { (result ≡ Err DupError.BadNumber) ↔ (length (table_of self.old pid.0) ≤ fd.0) }
        ensures err { OnErr result (self.new ≡ self.old) }
    {
        if fd.0 >= self.table(pid).limit() {
            return Err(DupError::BadNumber);
        }
        if !self.descriptions.has_room(entry.description, 1) {
            return Err(DupError::NoMemory);
        }
        let process = process_mut(&mut self.processes, pid);
        let replaced = process.table.dup_at(fd, entry)?;
        // Both may lead to one description, so the new entry counts before the old one no longer does.
        retain(&mut self.descriptions, entry.description);
        release(&mut self.descriptions, replaced);
        Ok(())
    }

    /// Takes the entry at a number of a process away (close(2)).
    pub fn take_entry(&mut self, pid: Pid, fd: Fd)
        requires { IsTrue (is_live self.old pid.0) }
        ensures { self.new ≡ with_table self.old pid.0 (emptied (table_of self.old pid.0) fd.0) }
    {
        let process = process_mut(&mut self.processes, pid);
        let removed = process.table.remove(fd);
        release(&mut self.descriptions, removed);
    }

    /// Sets or clears close-on-exec of the entry at a number, if that is open (fcntl(2), F_SETFD).
    pub fn set_cloexec(&mut self, pid: Pid, fd: Fd, cloexec: bool)
        requires { IsTrue (is_live self.old pid.0) }
        ensures { self.new ≡ with_table self.old pid.0
            (slice_set (table_of self.old pid.0) fd.0 (option_map (with_cloexec cloexec) (place (table_of self.old pid.0) fd.0))) }
    {
        let process = process_mut(&mut self.processes, pid);
        process.table.set_cloexec(fd, cloexec);
    }

    /// Ends a process: all its entries are taken away (_exit(2)).
    #[tactic(auto, using(crate::proofs::Lookups::live_inside, crate::proofs::Lookups::live_positive, crate::proofs::Lookups::found_process, crate::proofs::Lookups::with_process_is), unfolding(ux_model::specs::Closing::exit))]
    pub fn end_process(&mut self, pid: Pid)
        requires { IsTrue (is_live self.old pid.0) }
        ensures { self.new ≡ (model.exit self.old pid.0).next }
    {
        let process = process_mut(&mut self.processes, pid);
        release_table(&mut self.descriptions, &process.table);
        process.exit();
    }
}

/// The description of one end of a pair, which is tied to the other.
fn pair_end(
    alloc: Global,
    kind: SockType,
    flags: OpenFlags,
    peer: DescriptionId,
    cred: Cred,
) -> Description
    ensures { result ≡ socket_description flags (pair_end kind peer cred) }
{
    Description::of_socket(flags, Socket::pair_end(alloc, kind, peer, cred))
}

/// An entry that leads to this description, as the flags of the call want it.
pub(crate) fn new_entry(flags: OpenFlags, id: DescriptionId) -> Descriptor
    ensures { result ≡ descriptor flags id }
{
    Descriptor {
        description: id,
        cloexec: flags.contains(OpenFlags::CLOEXEC),
    }
}
