//! What a control buffer says.
ghost use Rattle.std.specs.Prelude.{◌≡◌, map};

use std::alloc::{Allocator, Global};
use std::marker::Model;
use ux_types::{Cred, Fd};

/// Credentials, where they were given, and descriptor numbers in order. Contracts see the numbers as a list.
#[derive(Debug, Drop)]
pub struct Control<A: Allocator = Global> {
    cred: Option<Cred>,
    rights: Vec<Fd, A>,
}

impl<A: Allocator> Model for Control<A> {
    ghost use Rattle.std.specs.Prelude.{map};
    ghost use Rattle.ux_model.specs.Control as model;

    ghost Value = { model.Control };

    ghost view = { λ c. record { cred = c.cred; rights = map (λ fd. fd.0) c.rights.items } };
}

impl<A: Allocator> Control<A> {
    /// With these credentials and these descriptor numbers.
    pub fn new(cred: Option<Cred>, rights: Vec<Fd, A>) -> Control<A>
        ensures cred { result.cred ≡ cred }
        ensures rights { result.rights ≡ map (λ fd. fd.0) rights.items }
    {
        Control { cred, rights }
    }

    /// The credentials (SCM_CREDENTIALS).
    pub fn cred(&self) -> Option<Cred>
        ensures { result ≡ self.now.cred }
    {
        self.cred
    }

    /// The descriptor numbers, in order (SCM_RIGHTS).
    pub fn rights(&self) -> &[Fd]
        ensures { map (λ fd. fd.0) result.now ≡ self.now.rights }
    {
        self.rights.as_slice()
    }
}
