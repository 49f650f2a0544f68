//! Names of the abstract namespace, and which the layer gives by itself.
ghost use Rattle.std.specs.Prelude.{◌≡◌, ◌<◌, ◌↔◌, true, false, [], ◌∷◌, ◌++◌, length, IsTrue, IsSome, IfSome, None, Some, IfOk, OnOk, OnErr, map, option_map};
ghost use Rattle.ux_model.specs.Limits.{autobind_names};
ghost use Rattle.ux_model.specs.Names.{named, without_name, autobind_name, free_name};
ghost use Rattle.ux_names.specs.NumbersInUse.{PutsName};

use crate::digits::{name_of, number_of};
use crate::listing::Listing;
use crate::refusals::{AutobindError, BindError};
use crate::seed::Seed;
use std::alloc::{AllocError, Global};
use std::marker::Model;
use ux_number_sets::GroupedSet;
use ux_types::{DescriptionId, Name};

/// How many groups the numbers of autobind take.
const GROUPS: usize = 256;

/// Names of the abstract namespace in order of binding. Contracts see the list of the names, each with
/// the description whose socket it leads to.
pub struct AbstractNames {
    listing: Listing<DescriptionId>,
    /// The numbers below 2^20 whose names are in use, whoever bound them.
    numbers: GroupedSet,
}

// Written out, so that it is proved here and not in each function that drops one.
impl Drop for AbstractNames {
    fn drop(self) {
        let AbstractNames { listing, numbers } = self;
        drop(listing);
        drop(numbers);
    }
}

impl Model for AbstractNames {
    ghost use Rattle.std.specs.Prelude.{List, ℕ};
    ghost use Rattle.ux_model.specs.Types.{Name};
    ghost use Rattle.ux_names.specs.NumbersInUse.{AreInUse};

    ghost Value = { List (Name × ℕ) };

    ghost view = { λ a. a.listing.names };

    ghost invariant = { λ a. AreInUse a.listing.names a.numbers };
}

impl AbstractNames {
    /// No names yet.
    ///
    /// # Errors
    ///
    /// There was no memory.
    pub fn new(alloc: Global) -> Result<AbstractNames, AllocError>
        ensures { IfOk result (λ names. names ≡ []) }
    {
        AbstractNames::with_seed(alloc, Seed::fixed())
    }

    /// No names yet, which are hashed by this seed.
    ///
    /// # Errors
    ///
    /// There was no memory.
    pub fn with_seed(alloc: Global, seed: Seed) -> Result<AbstractNames, AllocError>
        ensures { IfOk result (λ names. names ≡ []) }
    {
        Ok(AbstractNames {
            listing: Listing::new(alloc, seed),
            numbers: GroupedSet::new(alloc, GROUPS)?,
        })
    }

    /// How many names there are.
    pub fn len(&self) -> usize
        ensures { result ≡ length self.now }
    {
        self.listing.len()
    }

    /// Whether there are no names.
    pub fn is_empty(&self) -> bool
        ensures { IsTrue result ↔ (self.now ≡ []) }
    {
        self.listing.len() == 0
    }

    /// The names in order of binding, each with the description that it leads to. It sorts them.
    ///
    /// # Errors
    ///
    /// There was no memory for so many.
    pub fn in_order(&self) -> Result<Vec<(&Name, DescriptionId)>, AllocError>
        ensures { IfOk result (λ names. map (λ e. (e.0.now, e.1)) names.items ≡ self.now) }
    {
        let listed = match self.listing.in_order() {
            Ok(listed) => listed,
            Err(error) => return Err(error),
        };
        let mut names = Vec::new(self.listing.allocator());
        for entry in &listed {
            if names.push((entry.0, *entry.1)).is_err() {
                return Err(AllocError);
            }
        }
        Ok(names)
    }

    /// The description that a name leads to, if it is listed.
    pub fn find(&self, name: &Name) -> Option<DescriptionId>
        ensures { result ≡ named name.now self.now }
    {
        self.listing.find(name).copied()
    }

    /// Lists a name after all others.
    ///
    /// # Errors
    ///
    /// `Taken` exactly where the name is listed already, else `NoMemory`. The names stand as before.
    pub fn bind(&mut self, name: Name, id: DescriptionId) -> Result<(), BindError>
        ensures ok { OnOk result (self.new ≡ self.old ++ (name, id) ∷ []) }
        ensures taken { (result ≡ Err BindError.Taken) ↔ IsSome (named name self.old) }
        ensures err { OnErr result (self.new ≡ self.old) }
    {
        if self.listing.find(&name).is_some() {
            return Err(BindError::Taken);
        }
        self.list(name, id)?;
        Ok(())
    }

    /// Lists the lowest of the 2^20 names of five digits of `0-9a-f` that isn't in use, and answers it.
    ///
    /// # Errors
    ///
    /// `NoneFree` exactly where all of them are in use, else `NoMemory`. The names stand as before.
    pub fn autobind(&mut self, id: DescriptionId) -> Result<Name, AutobindError>
        ensures lowest { IfOk result (λ name. free_name self.old ≡ Some name) }
        ensures ok { IfOk result (λ name. self.new ≡ self.old ++ (name, id) ∷ []) }
        ensures none_free { (result ≡ Err AutobindError.NoneFree) ↔ (free_name self.old ≡ None) }
        ensures err { OnErr result (self.new ≡ self.old) }
    {
        let number = self.lowest_free().ok_or(AutobindError::NoneFree)?;
        Ok(self.bind_number(number, id)?)
    }

    /// Takes a name away, and answers the description that it led to. The others keep their order.
    pub fn release(&mut self, name: &Name) -> Option<DescriptionId>
        ensures released { result ≡ named name.now self.old }
        ensures names { self.new ≡ without_name name.now self.old }
    {
        let id = self.listing.remove(name)?;
        remove_number(&mut self.numbers, name);
        Some(id)
    }

    /// Takes all names away.
    pub fn clear(&mut self)
        ensures { self.new ≡ [] }
    {
        self.listing.clear();
        self.numbers.clear();
    }

    /// The lowest number whose name isn't in use.
    fn lowest_free(&self) -> Option<usize>
        ensures name { option_map autobind_name result ≡ free_name self.now }
        ensures small { IfSome result (λ n. n < autobind_names) }
        ensures free { IfSome result (λ n. named (autobind_name n) self.now ≡ None) }
    {
        self.numbers.first_free()
    }

    /// Lists the name of a number, and answers it.
    fn bind_number(&mut self, number: usize, id: DescriptionId) -> Result<Name, AllocError>
        requires small { number < autobind_names }
        requires free { named (autobind_name number) self.old ≡ None }
        ensures name { IfOk result (λ name. name ≡ autobind_name number) }
        ensures ok { IfOk result (λ name. self.new ≡ self.old ++ (name, id) ∷ []) }
        ensures err { OnErr result (self.new ≡ self.old) }
    {
        let name = name_of(self.listing.allocator(), number)?;
        let listed = name.clone()?;
        self.list(listed, id)?;
        Ok(name)
    }

    /// Lists a name that isn't listed.
    fn list(&mut self, name: Name, id: DescriptionId) -> Result<(), AllocError>
        requires { named name self.old ≡ None }
        ensures ok { OnOk result (self.new ≡ self.old ++ (name, id) ∷ []) }
        ensures err { OnErr result (self.new ≡ self.old) }
    {
        self.listing.reserve(1)?;
        insert_number(&mut self.numbers, &name)?;
        self.listing.bind_reserved(name, id);
        Ok(())
    }
}

/// Puts the number of a name in, if it is one that autobind gives.
fn insert_number(numbers: &mut GroupedSet, name: &Name) -> Result<(), AllocError>
    requires { length numbers.old ≡ autobind_names }
    ensures ok { OnOk result (PutsName numbers.old numbers.new name.now true) }
    ensures err { OnErr result (numbers.new ≡ numbers.old) }
{
    match number_of(name) {
        Some(number) => numbers.insert(number),
        None => Ok(()),
    }
}

/// Takes the number of a name out.
fn remove_number(numbers: &mut GroupedSet, name: &Name)
    requires { length numbers.old ≡ autobind_names }
    ensures { PutsName numbers.old numbers.new name.now false }
{
    if let Some(number) = number_of(name) {
        numbers.remove(number);
    }
}
