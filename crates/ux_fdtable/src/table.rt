//! The descriptor table of a process.
ghost use Rattle.std.specs.Prelude.{◌≡◌, ℕ, ◌+◌, ◌<◌, ◌≤◌, ◌↔◌, [], IsSome, IsOk, IfOk, OnOk, OnErr, length, map, take, Some, None, slice_set};
ghost use Rattle.std.specs.Prelude.{option_map};
ghost use Rattle.ux_model.specs.Limits.{table_limit};
ghost use Rattle.ux_model.specs.Places.{place, filled, emptied};
ghost use Rattle.ux_model.specs.Process.{free_numbers, lowest_free, lowest_free_from, two_lowest_free, empty_table, copy_of, kept_on_exec, with_cloexec};
ghost use Rattle.ux_model.specs.References.{table_refs};
ghost use Rattle.ux_model.specs.Delivery.{installed};
ghost use Rattle.ux_fdtable.specs.Padded.{AreBelow, FindsFree, IsReaching, IsTable, padded};
ghost use Rattle.ux_fdtable.specs.Refusals.{refusal_of_install, refusal_of_dup};
ghost use Rattle.ux_fdtable.specs.declared.table.InstallError.{InstallError};
ghost use Rattle.ux_fdtable.specs.declared.table.DupError.{DupError};

use super::descriptor::Descriptor;
use std::alloc::{AllocError, Global};
use std::marker::Model;
use thiserror::Error;
use ux_number_sets::NumberSet;
use ux_rights::Reference;
use ux_types::{DescriptionId, Errno, Fd, Refusal, TABLE_LIMIT};

/// Why a descriptor got no number.
#[derive(Clone, Copy, Debug, PartialEq, Eq, Error)]
pub enum InstallError {
    /// Every number below the limit is open (EMFILE).
    #[error("too many open descriptors")]
    Full,
    /// The table was to grow, and found no memory (ENOMEM).
    #[error("out of memory")]
    NoMemory,
}

/// Why a descriptor wasn't put at a given number.
#[derive(Clone, Copy, Debug, PartialEq, Eq, Error)]
pub enum DupError {
    /// The number isn't below the limit (EBADF).
    #[error("bad descriptor number")]
    BadNumber,
    /// The table was to grow, and found no memory (ENOMEM).
    #[error("out of memory")]
    NoMemory,
}

impl From<AllocError> for InstallError {
    ghost from_gives = { λ _ error. error ≡ InstallError.NoMemory };

    fn from(_error: AllocError) -> InstallError {
        InstallError::NoMemory
    }
}

impl From<InstallError> for Refusal {
    ghost from_gives = { λ e refusal. refusal ≡ refusal_of_install e };

    fn from(error: InstallError) -> Refusal {
        match error {
            InstallError::Full => Refusal::Answer(Errno::EMFILE),
            InstallError::NoMemory => Refusal::NoMemory,
        }
    }
}

impl From<AllocError> for DupError {
    ghost from_gives = { λ _ error. error ≡ DupError.NoMemory };

    fn from(_error: AllocError) -> DupError {
        DupError::NoMemory
    }
}

impl From<DupError> for Refusal {
    ghost from_gives = { λ e refusal. refusal ≡ refusal_of_dup e };

    fn from(error: DupError) -> Refusal {
        match error {
            DupError::BadNumber => Refusal::Answer(Errno::EBADF),
            DupError::NoMemory => Refusal::NoMemory,
        }
    }
}

/// The descriptors of a process by number. Contracts see a list with a place for each number below the
/// limit (RLIMIT_NOFILE of getrlimit(2)).
pub struct Table {
    /// The places up to the greatest number that was ever open.
    places: Vec<Option<Descriptor>>,
    limit: usize,
    /// The numbers that are open.
    in_use: NumberSet,
}

// Written out, so that it is proved here and not in each function that drops one.
impl Drop for Table {
    fn drop(self) {
        let Table {
            places,
            limit: _,
            in_use,
        } = self;
        drop(places);
        drop(in_use);
    }
}

impl Model for Table {
    ghost use Rattle.std.specs.Prelude.{List, Option};
    ghost use Rattle.ux_model.specs.Process as model;
    ghost use Rattle.ux_fdtable.specs.Padded.{padded, IsTable};

    ghost Value = { List (Option model.Descriptor) };

    ghost view = { λ t. padded t.places.items t.limit };

    ghost invariant = { λ t. IsTable t.places.items t.limit t.in_use };
}

impl Clone for Table {
    ghost is_clone = { λ x y. y ≡ x };

    fn clone(&self) -> Result<Table, AllocError> {
        Ok(Table {
            places: self.places.clone()?,
            limit: self.limit,
            in_use: self.in_use.clone()?,
        })
    }
}

impl Table {
    /// A table with nothing open. A limit below 1 counts as 1, above 4,096 as 4,096.
    pub fn new(alloc: Global, limit: u32) -> Result<Table, AllocError>
        ensures { IfOk result (λ t. t ≡ empty_table limit) }
    {
        let limit = limit.min(TABLE_LIMIT).max(1) as usize;
        Ok(Table {
            places: Vec::new(alloc),
            limit,
            in_use: NumberSet::new(alloc, limit)?,
        })
    }

    /// How many numbers there are: those below this one.
    pub fn limit(&self) -> u32
        ensures { result ≡ length self.now }
    {
        self.limit as u32
    }

    /// The descriptor with this number, if it is open.
    pub fn get(&self, fd: Fd) -> Option<Descriptor>
        ensures { result ≡ place self.now fd.0 }
    {
        match self.places.get(fd.0 as usize) {
            Some(slot) => *slot,
            None => None,
        }
    }

    /// The lowest number that isn't open (POSIX.1-2017, System Interfaces 2.14).
    pub fn lowest_free(&self) -> Option<Fd>
        ensures { option_map (λ fd. fd.0) result ≡ lowest_free self.now }
    {
        self.lowest_free_from(Fd(0))
    }

    /// The lowest number that isn't open and isn't below a minimum (fcntl(2), F_DUPFD).
    pub fn lowest_free_from(&self, minimum: Fd) -> Option<Fd>
        ensures { option_map (λ fd. fd.0) result ≡ lowest_free_from minimum.0 self.now }
    {
        let number = self.free_from(minimum.0 as usize)?;
        Some(Fd(number as u32))
    }

    /// The two lowest numbers that aren't open, the lower first, as socketpair(2) takes them.
    pub fn two_lowest_free(&self) -> Option<(Fd, Fd)>
        ensures { option_map (λ two. (two.0.0, two.1.0)) result ≡ two_lowest_free self.now }
    {
        let first = self.free_from(0)?;
        let second = self.free_from(first + 1)?;
        Some((Fd(first as u32), Fd(second as u32)))
    }

    /// Opens the lowest number that is free, and answers it.
    ///
    /// # Errors
    ///
    /// `Full` exactly where no number is free, else `NoMemory`. The table is then as before.
    pub fn install(&mut self, descriptor: Descriptor) -> Result<Fd, InstallError>
        ensures lowest { IfOk result (λ fd. lowest_free self.old ≡ Some fd.0) }
        ensures opened { IfOk result (λ fd. self.new ≡ filled self.old fd.0 descriptor) }
        ensures full { (result ≡ Err InstallError.Full) ↔ (lowest_free self.old ≡ None) }
        ensures err { OnErr result (self.new ≡ self.old) }
    {
        self.install_from(Fd(0), descriptor)
    }

    /// Opens the lowest number that is free and isn't below a minimum, and answers it (fcntl(2), F_DUPFD).
    ///
    /// # Errors
    ///
    /// `Full` exactly where no such number is free, else `NoMemory`. The table is then as before.
    pub fn install_from(&mut self, minimum: Fd, descriptor: Descriptor) -> Result<Fd, InstallError>
        ensures lowest { IfOk result (λ fd. lowest_free_from minimum.0 self.old ≡ Some fd.0) }
        ensures opened { IfOk result (λ fd. self.new ≡ filled self.old fd.0 descriptor) }
        ensures full { (result ≡ Err InstallError.Full) ↔ (lowest_free_from minimum.0 self.old ≡ None) }
        ensures err { OnErr result (self.new ≡ self.old) }
    {
        let Some(number) = self.free_from(minimum.0 as usize) else {
            return Err(InstallError::Full);
        };
        self.put(number, descriptor)?;
        Ok(Fd(number as u32))
    }

    /// Opens the two lowest numbers that are free, and answers them, the lower first (socketpair(2)).
    ///
    /// # Errors
    ///
    /// `Full` exactly where fewer than two are free, else `NoMemory`. The table is then as before.
    #[tactic(auto, using(crate::proofs::TwoFree::first_inside, crate::proofs::TwoFree::second_inside, crate::proofs::TwoFree::taken_back))]
    pub fn install_two(
        &mut self,
        first: Descriptor,
        second: Descriptor,
    ) -> Result<(Fd, Fd), InstallError>
        ensures lowest { IfOk result (λ two. two_lowest_free self.old ≡ Some (two.0.0, two.1.0)) }
        ensures opened { IfOk result (λ two. self.new ≡ filled (filled self.old two.0.0 first) two.1.0 second) }
        ensures full { (result ≡ Err InstallError.Full) ↔ (two_lowest_free self.old ≡ None) }
        ensures err { OnErr result (self.new ≡ self.old) }
    {
        let (low, high) = self.two_lowest_free().ok_or(InstallError::Full)?;
        self.put(low.0 as usize, first)?;
        if let Err(error) = self.put(high.0 as usize, second) {
            let _ = self.remove(low);
            return Err(error.into());
        }
        Ok((low, high))
    }

    /// The lowest numbers that aren't open, in order: this many, or all that there are.
    ///
    /// # Errors
    ///
    /// Out of memory, and never for a count of 0.
    pub fn lowest_numbers(&self, alloc: Global, count: usize) -> Result<Vec<Fd>, AllocError>
        ensures numbers { IfOk result (λ numbers. map (λ fd. fd.0) numbers.items ≡ take count (free_numbers self.now)) }
        ensures none { count ≡ 0 → IsOk result }
    {
        let mut numbers = Vec::with_capacity(alloc, count.min(self.limit))?;
        let mut from = 0;
        while numbers.len() < count {
            match self.free_from(from) {
                Some(number) => {
                    numbers.push_reserved(Fd(number as u32));
                    from = number + 1;
                }
                None => return Ok(numbers),
            }
        }
        Ok(numbers)
    }

    /// Opens these numbers for what the references refer to, the first for the first, with close-on-exec or
    /// without (recvmsg(2)). Every growth comes before the first change.
    ///
    /// # Errors
    ///
    /// Out of memory, and never for no number. The table is then as before.
    pub fn install_all(
        &mut self,
        numbers: &[Fd],
        references: &[Reference],
        cloexec: bool,
    ) -> Result<(), AllocError>
        requires { AreBelow (length self.old) (map (λ fd. fd.0) numbers.now) }
        ensures ok { OnOk result (self.new ≡ installed cloexec (map (λ fd. fd.0) numbers.now) references.now self.old) }
        ensures none { numbers.now ≡ [] → IsOk result }
        ensures err { OnErr result (self.new ≡ self.old) }
    {
        reach_all(&mut self.places, numbers)?;
        fill_all(
            &mut self.places,
            &mut self.in_use,
            numbers,
            references,
            cloexec,
        );
        Ok(())
    }

    /// Puts a copy of a descriptor, without close-on-exec, at a given number, and answers what was open
    /// there (dup2(2)).
    ///
    /// # Errors
    ///
    /// `BadNumber` exactly where the number isn't below the limit, else `NoMemory`, which doesn't come where
    /// the number is open. The table is then as before.
    pub fn dup_at(&mut self, fd: Fd, descriptor: Descriptor) -> Result<Option<Descriptor>, DupError>
        ensures replaced { IfOk result (λ replaced. replaced ≡ place self.old fd.0) }
        ensures opened { OnOk result (self.new ≡ filled self.old fd.0 (copy_of descriptor)) }
        ensures bad_number { (result ≡ Err DupError.BadNumber) ↔ (length self.old ≤ fd.0) }
        ensures taken { IsSome (place self.old fd.0) → IsOk result }
        ensures err { OnErr result (self.new ≡ self.old) }
    {
        if fd.0 >= self.limit() {
            return Err(DupError::BadNumber);
        }
        let replaced = self.get(fd);
        self.put(fd.0 as usize, descriptor.duplicate())?;
        Ok(replaced)
    }

    /// Closes a number, and answers what was open there.
    pub fn remove(&mut self, fd: Fd) -> Option<Descriptor>
        ensures removed { result ≡ place self.old fd.0 }
        ensures closed { self.new ≡ emptied self.old fd.0 }
    {
        let number = fd.0 as usize;
        if number >= self.places.len() {
            return None;
        }
        let removed = self.places[number];
        self.places[number] = None;
        self.in_use.put(number, false);
        removed
    }

    /// Closes every number whose descriptor has close-on-exec (execve(2)).
    pub fn close_on_exec(&mut self)
        ensures { self.new ≡ map kept_on_exec self.old }
    {
        for number in 0..self.limit() {
            self.close_one_on_exec(Fd(number));
        }
    }

    /// Closes every number (_exit(2)).
    pub fn clear(&mut self)
        ensures { self.new ≡ map (λ _. None) self.old }
    {
        self.places.clear();
        self.in_use.clear();
    }

    /// Sets or clears close-on-exec of a number (fcntl(2), F_SETFD). One that isn't open stays so.
    pub fn set_cloexec(&mut self, fd: Fd, cloexec: bool)
        ensures { self.new ≡ slice_set self.old fd.0 (option_map (with_cloexec cloexec) (place self.old fd.0)) }
    {
        let number = fd.0 as usize;
        if let Some(descriptor) = self.get(fd) {
            self.places[number] = Some(Descriptor {
                description: descriptor.description,
                cloexec,
            });
        }
    }

    /// How many numbers lead to this description.
    pub fn count(&self, description: DescriptionId) -> usize
        ensures { result ≡ table_refs description self.now }
    {
        self.places
            .iter()
            .filter(|slot| slot.is_some_and(|e| e.description == description))
            .count()
    }

    /// The first number, from this one on, that isn't open.
    fn free_from(&self, from: usize) -> Option<usize>
        ensures found { FindsFree self.now from result }
        ensures small { length self.now ≤ table_limit }
    {
        self.in_use.first_free(from)
    }

    /// Closes a number if its descriptor has close-on-exec.
    fn close_one_on_exec(&mut self, fd: Fd)
        ensures { self.new ≡ slice_set self.old fd.0 (kept_on_exec (place self.old fd.0)) }
    {
        if let Some(descriptor) = self.get(fd) {
            if descriptor.cloexec {
                let _ = self.remove(fd);
            }
        }
    }

    /// Puts a descriptor at a number.
    fn put(&mut self, number: usize, descriptor: Descriptor) -> Result<(), AllocError>
        requires { number < length self.old }
        ensures ok { OnOk result (self.new ≡ filled self.old number descriptor) }
        ensures taken { IsSome (place self.old number) → IsOk result }
        ensures err { OnErr result (self.new ≡ self.old) }
    {
        reach(&mut self.places, number)?;
        self.places[number] = Some(descriptor);
        self.in_use.put(number, true);
        Ok(())
    }
}

/// Makes the places of a table reach a number, with empty ones.
fn reach(places: &mut Vec<Option<Descriptor>>, number: usize) -> Result<(), AllocError>
    requires { number < table_limit }
    ensures reached { OnOk result (number < length places.new.items) }
    ensures ok { OnOk result (places.new.items ≡ padded places.old.items (number + 1)) }
    ensures within { number < length places.old.items → IsOk result }
    ensures err { OnErr result (places.new.items ≡ places.old.items) }
{
    if number < places.len() {
        return Ok(());
    }
    places.resize(number + 1, None)
}

/// Makes the places of a table reach these numbers, with empty ones.
fn reach_all(places: &mut Vec<Option<Descriptor>>, numbers: &[Fd]) -> Result<(), AllocError>
    requires { AreBelow table_limit (map (λ fd. fd.0) numbers.now) }
    ensures reached { OnOk result (AreBelow (length places.new.items) (map (λ fd. fd.0) numbers.now)) }
    ensures kept { IsReaching (map (λ fd. fd.0) numbers.now) places.old.items places.new.items }
    ensures none { numbers.now ≡ [] → IsOk result }
{
    let mut left = numbers;
    while let Some((fd, behind)) = left.split_first() {
        reach(places, fd.0 as usize)?;
        left = behind;
    }
    Ok(())
}

/// Puts descriptors of these references at numbers that the places of a table reach, the first at the first.
fn fill_all(
    places: &mut Vec<Option<Descriptor>>,
    in_use: &mut NumberSet,
    numbers: &[Fd],
    references: &[Reference],
    cloexec: bool,
)
    requires inside { AreBelow (length places.old.items) (map (λ fd. fd.0) numbers.now) }
    requires covered { length places.old.items ≤ length in_use.old }
    ensures filled { places.new.items ≡ installed cloexec (map (λ fd. fd.0) numbers.now) references.now places.old.items }
    ensures table { (limit : ℕ) → IsTable places.old.items limit in_use.old → IsTable places.new.items limit in_use.new }
{
    let mut left = numbers;
    let mut rest = references;
    while let Some((fd, behind)) = left.split_first() {
        let Some((reference, others)) = rest.split_first() else {
            return;
        };
        let number = fd.0 as usize;
        places[number] = Some(Descriptor {
            description: reference.description(),
            cloexec,
        });
        in_use.put(number, true);
        left = behind;
        rest = others;
    }
}
