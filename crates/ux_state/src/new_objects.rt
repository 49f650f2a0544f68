//! File objects that calls make: pipes, counters and files.
ghost use Rattle.std.specs.Prelude.{◌≡◌, ◌+◌, ◌-◌, ◌<◌, ◌≤◌, ◌↔◌, ℕ, true, [], Some, None, Err, IsTrue, IsSome, IfOk, OnOk, OnErr, length, take};
ghost use Rattle.ux_model.specs.Limits.{raised_object_limit};
ghost use Rattle.ux_model.specs.Object.{memory, counter, pipe};
ghost use Rattle.ux_model.specs.Places.{filled};
ghost use Rattle.ux_model.specs.Names.{named};
ghost use Rattle.ux_model.specs.Process.{lowest_free, two_lowest_free, descriptor};
ghost use Rattle.ux_model.specs.State.{is_live, table_of, with_table, with_new, next_description};
ghost use Rattle.ux_model.specs.Opening.{file_description};
ghost use Rattle.ux_model.specs.Making.{next_object, object_table_full, with_made, with_path, with_pipe};
ghost use Rattle.ux_objects.specs.Failing.{plain_view};
ghost use Rattle.ux_objects.specs.Faultless.{opened_with};
ghost use Rattle.ux_state.specs.Links.{LinksAlike};
ghost use Rattle.ux_state.specs.Moves.{with_object_more};
ghost use Rattle.ux_state.specs.Refusals.{refusal_of_make};
ghost use Rattle.ux_state.specs.declared.new_objects.MakeError.{MakeError};

use crate::object_place::{ObjectPlace, ObjectRoom};
use crate::openings::make_counts;
use crate::release::look_again;
use crate::state::State;
use std::alloc::AllocError;
use thiserror::Error;
use ux_description::Description;
use ux_names::{BindError, PathTarget};
use ux_object::FileObject;
use ux_objects::{Counter, LayerFile, MemFile, Pipe, Plain};
use ux_types::{Errno, Fd, Mode, Name, OpenFlags, Pid, RAISED_OBJECT_LIMIT, Refusal};

/// Why no file object was made.
#[derive(Clone, Copy, Debug, PartialEq, Eq, Error)]
pub enum MakeError {
    /// The process has too few free numbers (EMFILE).
    #[error("too many open descriptors")]
    Full,
    /// As many file objects were made as one layer may have (ENFILE).
    #[error("too many file objects")]
    TooMany,
    /// There was no memory (ENOMEM).
    #[error("out of memory")]
    NoMemory,
}

impl From<AllocError> for MakeError {
    ghost from_gives = { λ _ error. error ≡ MakeError.NoMemory };

    fn from(_error: AllocError) -> MakeError {
        MakeError::NoMemory
    }
}

impl From<MakeError> for Refusal {
    ghost from_gives = { λ e refusal. refusal ≡ refusal_of_make e };

    fn from(error: MakeError) -> Refusal {
        match error {
            MakeError::Full => Refusal::Answer(Errno::EMFILE),
            MakeError::TooMany => Refusal::Answer(Errno::ENFILE),
            MakeError::NoMemory => Refusal::NoMemory,
        }
    }
}

impl<O: FileObject> State<O> {
    /// Makes a counter with this value, or a semaphore, and opens the lowest free number of a process for it (eventfd(2)).
    ///
    /// # Errors
    ///
    /// `Full` where no number is free, else `TooMany` where the layer has all file objects that it may have,
    /// else `NoMemory`. The state is then as before.
    pub fn make_counter(
        &mut self,
        pid: Pid,
        value: u32,
        semaphore: bool,
        flags: OpenFlags,
    ) -> Result<Fd, MakeError>
        requires { IsTrue (is_live self.old pid.0) }
        ensures lowest { IfOk result (λ fd. lowest_free (table_of self.old pid.0) ≡ Some fd.0) }
        ensures opened { IfOk result (λ fd. self.new ≡ with_table (with_new (with_made self.old (counter semaphore value)) (file_description (next_object self.old) Mode.Both flags)) pid.0
            (filled (table_of self.old pid.0) fd.0 (descriptor flags (next_description self.old)))) }
        ensures full { (result ≡ Err MakeError.Full) ↔ (lowest_free (table_of self.old pid.0) ≡ None) }
        ensures too_many { (result ≡ Err MakeError.TooMany) ↔ (IsSome (lowest_free (table_of self.old pid.0)) × IsTrue (object_table_full self.old)) }
        ensures err { OnErr result (self.new ≡ self.old) }
    {
        let made = if semaphore {
            Counter::semaphore(value)
        } else {
            Counter::with_value(value)
        };
        self.open_made(pid, flags, Plain::Counter(made))
    }

    /// Makes an empty file without a path, and opens the lowest free number of a process for it
    /// (memfd_create(2)).
    ///
    /// # Errors
    ///
    /// `Full` where no number is free, else `TooMany` where the layer has all file objects that it may have,
    /// else `NoMemory`. The state is then as before.
    pub fn make_file(&mut self, pid: Pid, flags: OpenFlags) -> Result<Fd, MakeError>
        requires { IsTrue (is_live self.old pid.0) }
        ensures lowest { IfOk result (λ fd. lowest_free (table_of self.old pid.0) ≡ Some fd.0) }
        ensures opened { IfOk result (λ fd. self.new ≡ with_table (with_new (with_made self.old (memory [])) (file_description (next_object self.old) Mode.Both flags)) pid.0
            (filled (table_of self.old pid.0) fd.0 (descriptor flags (next_description self.old)))) }
        ensures full { (result ≡ Err MakeError.Full) ↔ (lowest_free (table_of self.old pid.0) ≡ None) }
        ensures too_many { (result ≡ Err MakeError.TooMany) ↔ (IsSome (lowest_free (table_of self.old pid.0)) × IsTrue (object_table_full self.old)) }
        ensures err { OnErr result (self.new ≡ self.old) }
    {
        let alloc = *self.processes.allocator();
        self.open_made(pid, flags, Plain::Memory(MemFile::empty(alloc)))
    }

    /// Opens the lowest free number of a process, for reading and writing, for a file object that is new.
    fn open_made(&mut self, pid: Pid, flags: OpenFlags, made: Plain) -> Result<Fd, MakeError>
        requires live { IsTrue (is_live self.old pid.0) }
        requires open { (plain_view made).opened ≡ true }
        ensures lowest { IfOk result (λ fd. lowest_free (table_of self.old pid.0) ≡ Some fd.0) }
        ensures opened { IfOk result (λ fd. self.new ≡ with_table (with_new (with_object_more self.old (plain_view made)) (file_description (next_object self.old) Mode.Both flags)) pid.0
            (filled (table_of self.old pid.0) fd.0 (descriptor flags (next_description self.old)))) }
        ensures full { (result ≡ Err MakeError.Full) ↔ (lowest_free (table_of self.old pid.0) ≡ None) }
        ensures too_many { (result ≡ Err MakeError.TooMany) ↔ (IsSome (lowest_free (table_of self.old pid.0)) × IsTrue (object_table_full self.old)) }
        ensures err { OnErr result (self.new ≡ self.old) }
    {
        self.may_make_one(pid)?;
        Ok(self.open_new(pid, flags, made)?)
    }

    /// The same where there is a number for both.
    #[tactic(auto, using(crate::proofs::Added::live_more, crate::proofs::Added::lowest_more, crate::proofs::Added::opened_more, crate::proofs::Added::taken_back))]
    fn open_new(&mut self, pid: Pid, flags: OpenFlags, made: Plain) -> Result<Fd, AllocError>
        requires live { IsTrue (is_live self.old pid.0) }
        requires open { (plain_view made).opened ≡ true }
        requires few { length self.old.objects < raised_object_limit }
        ensures lowest { IfOk result (λ fd. lowest_free (table_of self.old pid.0) ≡ Some fd.0) }
        ensures opened { IfOk result (λ fd. self.new ≡ with_table (with_new (with_object_more self.old (plain_view made)) (file_description (next_object self.old) Mode.Both flags)) pid.0
            (filled (table_of self.old pid.0) fd.0 (descriptor flags (next_description self.old)))) }
        ensures err { OnErr result (self.new ≡ self.old) }
    {
        let number = self.object_count() as u32;
        self.add_object(made)?;
        match self.open_object(pid, number, Mode::Both, flags) {
            Ok(fd) => Ok(fd),
            Err(_) => {
                self.take_back();
                Err(AllocError)
            }
        }
    }

    /// Makes an empty file under a path that nothing has, and opens the lowest free number of a process for
    /// it (open(2) with O_CREAT and O_EXCL).
    ///
    /// # Errors
    ///
    /// `Full` where no number is free, else `TooMany` where the layer has all file objects that it may have,
    /// else `NoMemory`. The state is then as before.
    pub fn create_file(
        &mut self,
        pid: Pid,
        path: &Name,
        mode: Mode,
        flags: OpenFlags,
    ) -> Result<Fd, MakeError>
        requires live { IsTrue (is_live self.old pid.0) }
        requires new { named path.now self.old.paths ≡ None }
        ensures lowest { IfOk result (λ fd. lowest_free (table_of self.old pid.0) ≡ Some fd.0) }
        ensures opened { IfOk result (λ fd. self.new ≡ with_table (with_new (with_path (with_made self.old (memory [])) path.now (next_object self.old)) (file_description (next_object self.old) mode flags)) pid.0
            (filled (table_of self.old pid.0) fd.0 (descriptor flags (next_description self.old)))) }
        ensures full { (result ≡ Err MakeError.Full) ↔ (lowest_free (table_of self.old pid.0) ≡ None) }
        ensures too_many { (result ≡ Err MakeError.TooMany) ↔ (IsSome (lowest_free (table_of self.old pid.0)) × IsTrue (object_table_full self.old)) }
        ensures err { OnErr result (self.new ≡ self.old) }
    {
        self.may_make_one(pid)?;
        Ok(self.open_created(pid, path, mode, flags)?)
    }

    /// The same where there is a number for both.
    #[tactic(auto, using(crate::proofs::Added::live_placed, crate::proofs::Added::lowest_placed, crate::proofs::Added::opened_placed, crate::proofs::Added::taken_back, crate::proofs::Added::undone))]
    fn open_created(
        &mut self,
        pid: Pid,
        path: &Name,
        mode: Mode,
        flags: OpenFlags,
    ) -> Result<Fd, AllocError>
        requires live { IsTrue (is_live self.old pid.0) }
        requires new { named path.now self.old.paths ≡ None }
        requires few { length self.old.objects < raised_object_limit }
        ensures lowest { IfOk result (λ fd. lowest_free (table_of self.old pid.0) ≡ Some fd.0) }
        ensures opened { IfOk result (λ fd. self.new ≡ with_table (with_new (with_path (with_made self.old (memory [])) path.now (next_object self.old)) (file_description (next_object self.old) mode flags)) pid.0
            (filled (table_of self.old pid.0) fd.0 (descriptor flags (next_description self.old)))) }
        ensures err { OnErr result (self.new ≡ self.old) }
    {
        let alloc = *self.processes.allocator();
        let number = self.object_count() as u32;
        self.add_object(Plain::Memory(MemFile::empty(alloc)))?;
        if self.add_path(path, number).is_err() {
            self.take_back();
            return Err(AllocError);
        }
        match self.open_object(pid, number, mode, flags) {
            Ok(fd) => Ok(fd),
            Err(_) => {
                self.unlink(path);
                self.take_back();
                Err(AllocError)
            }
        }
    }

    /// Makes a pipe, and opens the two lowest free numbers of a process for its ends, the reading one first
    /// (pipe2(2)).
    ///
    /// # Errors
    ///
    /// `Full` where fewer than two numbers are free, else `TooMany` where the layer has all file objects that
    /// it may have, else `NoMemory`. The state is then as before.
    pub fn make_pipe(&mut self, pid: Pid, flags: OpenFlags) -> Result<(Fd, Fd), MakeError>
        requires { IsTrue (is_live self.old pid.0) }
        ensures lowest { IfOk result (λ two. two_lowest_free (table_of self.old pid.0) ≡ Some (two.0.0, two.1.0)) }
        ensures opened { IfOk result (λ two. self.new ≡ with_table (with_pipe self.old flags) pid.0
            (filled (filled (table_of self.old pid.0) two.0.0 (descriptor flags (next_description self.old)))
            two.1.0 (descriptor flags (next_description self.old + 1)))) }
        ensures full { (result ≡ Err MakeError.Full) ↔ (two_lowest_free (table_of self.old pid.0) ≡ None) }
        ensures too_many { (result ≡ Err MakeError.TooMany) ↔ (IsSome (two_lowest_free (table_of self.old pid.0)) × IsTrue (object_table_full self.old)) }
        ensures err { OnErr result (self.new ≡ self.old) }
    {
        self.may_make_two(pid)?;
        let alloc = *self.processes.allocator();
        let Ok(pipe) = Pipe::new(alloc) else {
            return Err(MakeError::NoMemory);
        };
        Ok(self.open_ends(pid, flags, pipe)?)
    }

    /// Opens the two lowest free numbers of a process for the ends of a new pipe, the reading one first.
    #[tactic(auto, using(crate::proofs::Added::live_more, crate::proofs::Added::two_more, crate::proofs::Added::both_more, crate::proofs::Added::taken_back, crate::proofs::Added::fresh_last))]
    fn open_ends(&mut self, pid: Pid, flags: OpenFlags, made: Pipe) -> Result<(Fd, Fd), AllocError>
        requires live { IsTrue (is_live self.old pid.0) }
        requires empty { made ≡ opened_with [] }
        requires few { length self.old.objects < raised_object_limit }
        ensures lowest { IfOk result (λ two. two_lowest_free (table_of self.old pid.0) ≡ Some (two.0.0, two.1.0)) }
        ensures opened { IfOk result (λ two. self.new ≡ with_table (with_pipe self.old flags) pid.0
            (filled (filled (table_of self.old pid.0) two.0.0 (descriptor flags (next_description self.old)))
            two.1.0 (descriptor flags (next_description self.old + 1)))) }
        ensures err { OnErr result (self.new ≡ self.old) }
    {
        let number = self.object_count() as u32;
        self.add_object(Plain::Pipe(made))?;
        let reader = Description::of_object(number, Mode::Read, flags);
        let writer = Description::of_object(number, Mode::Write, flags);
        match self.open_two(pid, flags, reader, writer) {
            Ok(two) => Ok(two),
            Err(_) => {
                self.take_back();
                Err(AllocError)
            }
        }
    }

    /// Whether a process has a free number for one more file object, and the layer a number.
    fn may_make_one(&self, pid: Pid) -> Result<(), MakeError>
        requires { IsTrue (is_live self.now pid.0) }
        ensures free { OnOk result (IsSome (lowest_free (table_of self.now pid.0))) }
        ensures few { OnOk result (length self.now.objects < raised_object_limit) }
        ensures full { (result ≡ Err MakeError.Full) ↔ (lowest_free (table_of self.now pid.0) ≡ None) }
        ensures too_many { (result ≡ Err MakeError.TooMany) ↔ (IsSome (lowest_free (table_of self.now pid.0)) × IsTrue (object_table_full self.now)) }
    {
        if self.table(pid).lowest_free().is_none() {
            return Err(MakeError::Full);
        }
        if self.object_count() >= RAISED_OBJECT_LIMIT {
            return Err(MakeError::TooMany);
        }
        Ok(())
    }

    /// Whether a process has two free numbers, and the layer one for a file object more.
    fn may_make_two(&self, pid: Pid) -> Result<(), MakeError>
        requires { IsTrue (is_live self.now pid.0) }
        ensures free { OnOk result (IsSome (two_lowest_free (table_of self.now pid.0))) }
        ensures few { OnOk result (length self.now.objects < raised_object_limit) }
        ensures full { (result ≡ Err MakeError.Full) ↔ (two_lowest_free (table_of self.now pid.0) ≡ None) }
        ensures too_many { (result ≡ Err MakeError.TooMany) ↔ (IsSome (two_lowest_free (table_of self.now pid.0)) × IsTrue (object_table_full self.now)) }
    {
        if self.table(pid).two_lowest_free().is_none() {
            return Err(MakeError::Full);
        }
        if self.object_count() >= RAISED_OBJECT_LIMIT {
            return Err(MakeError::TooMany);
        }
        Ok(())
    }

    /// One more file object, to which nothing leads yet, with the room in which it will be handed out.
    fn add_object(&mut self, made: Plain) -> Result<(), AllocError>
        requires few { length self.old.objects < raised_object_limit }
        requires open { (plain_view made).opened ≡ true }
        ensures ok { OnOk result (self.new ≡ with_object_more self.old (plain_view made)) }
        ensures err { OnErr result (self.new ≡ self.old) }
    {
        let next = self.objects.len();
        let room = ObjectRoom::new(*self.processes.allocator())?;
        make_counts(&mut self.openings, next)?;
        make_link_count(&mut self.links, next)?;
        look_again(&mut self.settled, Some(next as u32));
        self.objects
            .push(ObjectPlace::new(LayerFile::Made(made), room))?;
        Ok(())
    }

    /// Without the file object that was made last.
    fn take_back(&mut self)
        ensures { self.new ≡ record self.old { objects = take (length self.old.objects - 1) self.old.objects } }
    {
        // It has a name, since the proof cites the call by it.
        let _last = self.objects.pop();
    }

    /// One more path, of a file object that is there.
    fn add_path(&mut self, path: &Name, object: u32) -> Result<(), BindError>
        requires there { object < length self.old.objects }
        requires new { named path.now self.old.paths ≡ None }
        ensures ok { OnOk result (self.new ≡ with_path self.old path.now object) }
        ensures err { OnErr result (self.new ≡ self.old) }
    {
        let listed = path.clone()?;
        self.paths.bind(listed, PathTarget::File(object))?;
        // So many can be counted: it has a name, since the proof cites the call by it.
        let _many = self.paths.len();
        self.links[object as usize] += 1;
        Ok(())
    }
}

/// Makes a count of no paths at the next number, if there is none.
fn make_link_count(links: &mut Vec<usize>, next: usize) -> Result<(), AllocError>
    requires { next ≤ length links.old.items }
    ensures counts { LinksAlike links.old.items links.new.items }
    ensures long { OnOk result (next < length links.new.items) }
{
    if links.len() == next {
        links.push(0)?;
    }
    Ok(())
}
