//! A descriptor.
ghost use Rattle.std.specs.Prelude.{◌≡◌};
ghost use Rattle.ux_model.specs.Process.{copy_of};

use std::marker::Model;
use ux_types::DescriptionId;

/// A descriptor: what it refers to, and its own flag (FD_CLOEXEC of fcntl(2)).
#[derive(Clone, Copy, Debug, PartialEq, Eq)]
pub struct Descriptor {
    /// The open file description.
    pub description: DescriptionId,
    /// Whether it is closed when its process executes another program.
    pub cloexec: bool,
}

impl Model for Descriptor {
    ghost use Rattle.ux_model.specs.Process as model;

    ghost Value = { model.Descriptor };

    ghost view = { λ e. record { description = e.description; cloexec = e.cloexec } };

    ghost inverse = { λ e. record { description = e.description; cloexec = e.cloexec } };
}

impl Descriptor {
    /// A further descriptor of the same description, which starts without its own flag (dup(2)).
    pub fn duplicate(self) -> Descriptor
        ensures { result ≡ copy_of self }
    {
        Descriptor {
            description: self.description,
            cloexec: false,
        }
    }
}
