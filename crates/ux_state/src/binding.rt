//! Names that sockets get, and names that are freed.
ghost use Rattle.std.specs.Prelude.{◌≡◌, ◌≤◌, ◌<◌, ◌↔◌, ℕ, None, Err, IsSome, IsSomeAnd, IfOk, OnOk, OnErr, length, map, option_map};
ghost use Rattle.ux_model.specs.Places.{changed_place};
ghost use Rattle.ux_model.specs.Names.{named, without_name, free_name};
ghost use Rattle.ux_model.specs.Description.{changed};
ghost use Rattle.ux_model.specs.Binding.{with_name, with_path, with_abstract};
ghost use Rattle.ux_model.specs.Owning.{target_name, without_shown};
ghost use Rattle.ux_names.specs.Targets.{target_of};
ghost use Rattle.ux_state.specs.Links.{links_of, link_at, LosesLink};
ghost use Rattle.ux_state.specs.Settling.{file_of};
ghost use Rattle.ux_state.specs.Moves.{IsUnnamedAt};

use crate::release::look_again;
use crate::state::State;
use std::alloc::AllocError;
use ux_description::Description;
use ux_names::{AbstractNames, AutobindError, BindError, PathTarget};
use ux_object::FileObject;
use ux_slots::Slots;
use ux_types::{Addr, DescriptionId, Name};

impl<O: FileObject> State<O> {
    /// Gives a socket without a name a path (bind(2)). The path outlives the socket.
    ///
    /// # Errors
    ///
    /// `Taken` exactly where the path is there already, else `NoMemory`. The state is then as before.
    pub fn bind_path(&mut self, id: DescriptionId, name: &Name) -> Result<(), BindError>
        requires { IsUnnamedAt self.old id }
        ensures ok { OnOk result (self.new ≡ with_path self.old id name.now) }
        ensures taken { (result ≡ Err BindError.Taken) ↔ IsSome (named name.now self.old.paths) }
        ensures err { OnErr result (self.new ≡ self.old) }
    {
        // A name that is taken comes before ENOMEM.
        if self.paths.find(name).is_some() {
            return Err(BindError::Taken);
        }
        let (listed, shown) = two_copies(name)?;
        self.paths.bind(listed, PathTarget::Socket(id))?;
        set_name(&mut self.descriptions, id, Addr::Path(shown));
        Ok(())
    }

    /// Gives a socket without a name one of the abstract namespace (bind(2)), which is freed with the socket.
    ///
    /// # Errors
    ///
    /// `Taken` exactly where the name is there already, else `NoMemory`. The state is then as before.
    pub fn bind_abstract(&mut self, id: DescriptionId, name: &Name) -> Result<(), BindError>
        requires { IsUnnamedAt self.old id }
        ensures ok { OnOk result (self.new ≡ with_abstract self.old id name.now) }
        ensures taken { (result ≡ Err BindError.Taken) ↔ IsSome (named name.now self.old.abstract_names) }
        ensures err { OnErr result (self.new ≡ self.old) }
    {
        if self.abstract_names.find(name).is_some() {
            return Err(BindError::Taken);
        }
        let (listed, shown) = two_copies(name)?;
        self.abstract_names.bind(listed, id)?;
        set_name(&mut self.descriptions, id, Addr::Abstract(shown));
        Ok(())
    }

    /// Gives a socket without a name the lowest of the 2^20 abstract names of five digits of `0-9a-f` that
    /// isn't in use (autobind of unix(7)).
    ///
    /// # Errors
    ///
    /// `NoneFree` exactly where all of them are in use, else `NoMemory`. The state is then as before.
    pub fn autobind(&mut self, id: DescriptionId) -> Result<(), AutobindError>
        requires { IsUnnamedAt self.old id }
        ensures ok { OnOk result (IsSomeAnd (free_name self.old.abstract_names) (λ name. self.new ≡ with_abstract self.old id name)) }
        ensures none_free { (result ≡ Err AutobindError.NoneFree) ↔ (free_name self.old.abstract_names ≡ None) }
        ensures err { OnErr result (self.new ≡ self.old) }
    {
        let name = self.abstract_names.autobind(id)?;
        set_name(&mut self.descriptions, id, Addr::Abstract(name));
        Ok(())
    }

    /// Takes away a path (unlink(2)).
    pub fn unlink(&mut self, name: &Name)
        ensures { self.new ≡ record self.old { paths = without_name name.now self.old.paths } }
    {
        let target = self.paths.unlink(name);
        look_again(&mut self.settled, file_of(&target));
        unlink_target(&mut self.links, target);
    }
}

/// The file object that a path with this target named.
fn file_of(target: &Option<PathTarget>) -> Option<u32>
    ensures { result ≡ file_of (option_map target_of target.now) }
{
    match target {
        Some(PathTarget::File(object)) => Some(*object),
        Some(PathTarget::Socket(_)) => None,
        None => None,
    }
}

/// No longer counts a path that was taken away at the file object that it named.
fn unlink_target(links: &mut Vec<usize>, target: Option<PathTarget>)
    requires { (o : ℕ) → o < length links.old.items → link_at o (option_map target_of target) ≤ links_of links.old.items o }
    ensures { LosesLink (option_map target_of target) links.old.items links.new.items }
{
    if let Some(PathTarget::File(object)) = target {
        let o = object as usize;
        if o < links.len() {
            links[o] -= 1;
        }
    }
}

/// Counts no path any more.
pub(crate) fn unlink_all(links: &mut Vec<usize>)
    ensures { links.new.items ≡ map (λ _. 0) links.old.items }
{
    for count in links.iter_mut() {
        *count = 0;
    }
}

/// Frees the name that the socket of a description shows, if that leads to it. A server's end
/// shows its listener's name, which stays.
pub(crate) fn drop_name(names: &mut AbstractNames, gone: &Description, id: DescriptionId)
    ensures { names.new ≡ without_shown (target_name gone.now.target) id names.old }
{
    if let Some(name) = gone.abstract_name() {
        if names.find(name) == Some(id) {
            names.release(name);
        }
    }
}

/// Two copies of a name.
fn two_copies(name: &Name) -> Result<(Name, Name), AllocError>
    ensures first { IfOk result (λ two. two.0 ≡ name.now) }
    ensures second { IfOk result (λ two. two.1 ≡ name.now) }
{
    Ok((name.clone()?, name.clone()?))
}

/// Gives a socket a name.
fn set_name(slots: &mut Slots<Description>, id: DescriptionId, name: Addr)
    ensures places { slots.new.places ≡ changed_place slots.old.places id (changed (with_name name)) }
    ensures counts { slots.new.counts ≡ slots.old.counts }
{
    if let Some(x) = slots.get_mut(id) {
        x.set_name(name);
    }
}
