//! The first state.
ghost use Rattle.std.specs.Prelude.{◌≡◌, IfOk, IfErr, MatchOption, map, IsErrAnd};
ghost use Rattle.std.specs.List.{list_any, list_all};
ghost use Rattle.ux_model.specs.Names as model;
ghost use Rattle.ux_model.specs.Boot.{IsBootState, boot_state, are_distinct};
ghost use Rattle.ux_model.specs.Limits.{object_limit};
ghost use Rattle.ux_types.specs.ObjectLimits.{most_objects};
ghost use Rattle.ux_kernel.specs.Faults.{fault_of};

use crate::kernel::Kernel;
use std::alloc::Global;
use thiserror::Error;
use ux_names::{Seed, is_valid_path};
use ux_object::FileObject;
use ux_state::State;
use ux_types::{Name, ObjectLimit, PROCESS_LIMIT, ProcSpec};

/// Why no kernel could be made, with the number that a boot fault is reported by.
#[derive(Clone, Copy, Debug, PartialEq, Eq, Error)]
pub enum BootFault {
    /// More file objects than there may be: 64, or 4,096 where that was asked for.
    #[error("too many file objects")]
    TooManyObjects = 1,
    /// More than 64 processes.
    #[error("more than 64 processes")]
    TooManyProcesses = 2,
    /// Two file objects under one path.
    #[error("two file objects with one path")]
    NameTwice = 3,
    /// A file object that was closed before.
    #[error("a file object that was closed before")]
    ObjectClosed = 4,
    /// No memory.
    #[error("out of memory")]
    NoMemory = 5,
    /// A path that isn't 1 to 107 bytes without NUL (unix(7)).
    #[error("a path that isn't 1 to 107 bytes without NUL")]
    BadPath = 6,
}

impl<O: FileObject> Kernel<O> {
    /// A kernel with these file objects, numbered from 0 on, each under its path, and these processes,
    /// numbered from 1 on, in which nothing was opened yet.
    ///
    /// # Errors
    ///
    /// The first of `TooManyObjects`, `TooManyProcesses`, `BadPath`, `NameTwice`, `ObjectClosed` and
    /// `NoMemory`, with all file objects, which are as before.
    pub fn boot(
        alloc: Global,
        objects: Vec<(Name, O)>,
        procs: &[ProcSpec],
    ) -> Result<Kernel<O>, (BootFault, Vec<(Name, O)>)>
        ensures state { IfOk result (λ k. k ≡ boot_state (map (λ o. (o.0, O.view o.1)) objects.items) procs.now) }
        ensures boots { IfOk result (λ k. IsBootState k) }
        ensures fault { MatchOption (fault_of object_limit (map (λ o. (o.0, O.view o.1)) objects.items) procs.now)
            (IfErr result (λ f. f.0 ≡ BootFault.NoMemory))
            (λ due. IsErrAnd result (λ f. f.0 ≡ due)) }
        ensures back { IfErr result (λ f. f.1 ≡ objects) }
    {
        Kernel::boot_with_seed(alloc, Seed::fixed(), ObjectLimit::Usual, objects, procs)
    }

    /// As `boot`, with names that are hashed by this seed, and this limit of file objects.
    ///
    /// # Errors
    ///
    /// Those of `boot`.
    #[tactic(auto, using(crate::proofs::Boots::open_of, crate::proofs::Boots::boots))]
    pub fn boot_with_seed(
        alloc: Global,
        seed: Seed,
        most: ObjectLimit,
        objects: Vec<(Name, O)>,
        procs: &[ProcSpec],
    ) -> Result<Kernel<O>, (BootFault, Vec<(Name, O)>)>
        ensures state { IfOk result (λ k. k ≡ boot_state (map (λ o. (o.0, O.view o.1)) objects.items) procs.now) }
        ensures boots { IfOk result (λ k. IsBootState k) }
        ensures fault { MatchOption (fault_of (most_objects most) (map (λ o. (o.0, O.view o.1)) objects.items) procs.now)
            (IfErr result (λ f. f.0 ≡ BootFault.NoMemory))
            (λ due. IsErrAnd result (λ f. f.0 ≡ due)) }
        ensures back { IfErr result (λ f. f.1 ≡ objects) }
    {
        if let Some(fault) = find_fault(most, &objects, procs) {
            return Err((fault, objects));
        }
        match State::new(alloc, seed, objects, procs) {
            Ok(state) => Ok(Kernel { alloc, state }),
            Err(objects) => Err((BootFault::NoMemory, objects)),
        }
    }
}

/// The first fault other than out of memory.
fn find_fault<O: FileObject>(
    most: ObjectLimit,
    objects: &[(Name, O)],
    procs: &[ProcSpec],
) -> Option<BootFault>
    ensures { result ≡ fault_of (most_objects most) (map (λ o. (o.0, O.view o.1)) objects.now) procs.now }
{
    if objects.len() > most.count() {
        return Some(BootFault::TooManyObjects);
    }
    if procs.len() > PROCESS_LIMIT {
        return Some(BootFault::TooManyProcesses);
    }
    if !are_valid(objects) {
        return Some(BootFault::BadPath);
    }
    if !are_distinct(objects) {
        return Some(BootFault::NameTwice);
    }
    if !are_open(objects) {
        return Some(BootFault::ObjectClosed);
    }
    None
}

/// Whether each of these file objects has a path that can be.
fn are_valid<O: FileObject>(objects: &[(Name, O)]) -> bool
    ensures { result ≡ list_all (λ o. model.is_valid_path o.0) objects.now }
{
    objects.iter().all(|o| is_valid_path(&o.0))
}

/// Whether none of these file objects was closed.
fn are_open<O: FileObject>(objects: &[(Name, O)]) -> bool
    ensures { result ≡ list_all (λ o. (O.view o.1).opened) objects.now }
{
    objects.iter().all(|o| o.1.is_open())
}

/// Whether no two file objects have one path.
fn are_distinct<O: FileObject>(objects: &[(Name, O)]) -> bool
    ensures { result ≡ are_distinct (map (λ o. o.0) objects.now) }
{
    let mut left = objects;
    while let Some((first, rest)) = left.split_first() {
        if is_named(rest, &first.0) {
            return false;
        }
        left = rest;
    }
    true
}

/// Whether one of these file objects has this path.
fn is_named<O: FileObject>(objects: &[(Name, O)], name: &Name) -> bool
    ensures { result ≡ list_any (λ o. model.same_name o.0 name.now) objects.now }
{
    objects.iter().any(|o| o.0 == *name)
}
