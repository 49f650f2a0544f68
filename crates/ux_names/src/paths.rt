//! Paths, and what they name.
ghost use Rattle.std.specs.Prelude.{◌≡◌, ◌+◌, ◌<◌, ◌≤◌, ◌↔◌, [], ◌∷◌, ◌++◌, length, IsTrue, IsSome, IsOk, Some, OnOk, OnErr, IfOk, map, option_map};
ghost use Rattle.ux_model.specs.Names.{named, without_name};
ghost use Rattle.ux_names.specs.Targets.{target_of};

use crate::listing::Listing;
use crate::refusals::BindError;
use crate::seed::Seed;
use std::alloc::{AllocError, Global};
use std::marker::Model;
use ux_types::{DescriptionId, Name};

/// What a path names.
#[derive(Clone, Copy, Debug, PartialEq, Eq)]
pub enum PathTarget {
    /// A file object, by its number.
    File(u32),
    /// The socket of a description, which may be gone.
    Socket(DescriptionId),
}

/// A path's target as it is kept.
#[derive(Drop)]
pub struct KeptTarget {
    target: PathTarget,
}

impl Model for KeptTarget {
    ghost use Rattle.ux_model.specs.Names as model;
    ghost use Rattle.ux_names.specs.Targets.{target_of};

    ghost Value = { model.PathTarget };

    ghost view = { λ t. target_of t.target };
}

impl KeptTarget {
    /// This target.
    fn new(target: PathTarget) -> KeptTarget
        ensures { result ≡ target_of target }
    {
        KeptTarget { target }
    }

    /// What is kept.
    fn get(&self) -> PathTarget
        ensures { target_of result ≡ self.now }
    {
        self.target
    }
}

/// Paths in order of binding. Contracts see the list of the paths, each with what it names, and how many
/// more can be bound without memory.
pub struct Paths {
    listing: Listing<KeptTarget>,
}

// Written out, so that it is proved here and not in each function that drops one.
impl Drop for Paths {
    fn drop(self) {
        let Paths { listing } = self;
        drop(listing);
    }
}

impl Model for Paths {
    ghost use Rattle.ux_model.specs.Names as model;
    ghost use Rattle.ux_names.specs.Listed.{Listed};

    ghost Value = { Listed model.PathTarget };

    ghost view = { λ p. p.listing };
}

impl Paths {
    /// No paths yet. It takes no memory.
    pub fn new(alloc: Global) -> Paths
        ensures { result.names ≡ [] }
    {
        Paths::with_seed(alloc, Seed::fixed())
    }

    /// No paths yet, which are hashed by this seed. It takes no memory.
    pub fn with_seed(alloc: Global, seed: Seed) -> Paths
        ensures { result.names ≡ [] }
    {
        Paths {
            listing: Listing::new(alloc, seed),
        }
    }

    /// How many paths there are.
    pub fn len(&self) -> usize
        ensures { result ≡ length self.now.names }
    {
        self.listing.len()
    }

    /// Whether there are no paths.
    pub fn is_empty(&self) -> bool
        ensures { IsTrue result ↔ (self.now.names ≡ []) }
    {
        self.listing.len() == 0
    }

    /// The paths in order of binding, each with what it names. It sorts them.
    ///
    /// # Errors
    ///
    /// There was no memory for so many.
    pub fn in_order(&self) -> Result<Vec<(&Name, PathTarget)>, AllocError>
        ensures { IfOk result (λ paths. map (λ e. (e.0.now, target_of e.1)) paths.items ≡ self.now.names) }
    {
        let listed = match self.listing.in_order() {
            Ok(listed) => listed,
            Err(error) => return Err(error),
        };
        let mut paths = Vec::new(self.listing.allocator());
        for entry in &listed {
            if paths.push((entry.0, entry.1.get())).is_err() {
                return Err(AllocError);
            }
        }
        Ok(paths)
    }

    /// What a path names, if it is listed.
    pub fn find(&self, name: &Name) -> Option<PathTarget>
        ensures { option_map target_of result ≡ named name.now self.now.names }
    {
        let target = self.listing.find(name)?;
        Some(target.get())
    }

    /// Makes room for so many more paths.
    ///
    /// # Errors
    ///
    /// There was no memory. The paths stand as before.
    pub fn reserve(&mut self, additional: usize) -> Result<(), AllocError>
        ensures ok { OnOk result (additional ≤ self.new.room) }
        ensures had_room { additional ≤ self.old.room → IsOk result }
        ensures room { self.old.room ≤ self.new.room }
        ensures names { self.new.names ≡ self.old.names }
    {
        self.listing.reserve(additional)
    }

    /// Lists a path after all others.
    ///
    /// # Errors
    ///
    /// `Taken` exactly where the path is listed already, else `NoMemory`, which doesn't come where there
    /// is room. The paths stand as before.
    pub fn bind(&mut self, name: Name, target: PathTarget) -> Result<(), BindError>
        ensures ok { OnOk result (self.new.names ≡ self.old.names ++ (name, target_of target) ∷ []) }
        ensures taken { (result ≡ Err BindError.Taken) ↔ IsSome (named name self.old.names) }
        ensures no_memory { result ≡ Err BindError.NoMemory → self.old.room ≡ 0 }
        ensures err { OnErr result (self.new.names ≡ self.old.names) }
        ensures room { self.old.room ≤ self.new.room + 1 }
    {
        if self.listing.find(&name).is_some() {
            return Err(BindError::Taken);
        }
        self.listing.reserve(1)?;
        self.listing.bind_reserved(name, KeptTarget::new(target));
        Ok(())
    }

    /// Takes a path away (unlink(2)), and answers what it named. The others keep their order.
    pub fn unlink(&mut self, name: &Name) -> Option<PathTarget>
        ensures target { option_map target_of result ≡ named name.now self.old.names }
        ensures names { self.new.names ≡ without_name name.now self.old.names }
        ensures room { self.old.room ≤ self.new.room }
    {
        let target = self.listing.remove(name)?;
        Some(target.get())
    }

    /// Takes all paths away.
    pub fn clear(&mut self)
        ensures names { self.new.names ≡ [] }
        ensures room { length self.old.names + self.old.room ≤ self.new.room }
    {
        self.listing.clear();
    }
}
