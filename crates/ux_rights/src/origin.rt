//! Where the rights of a message come from.

use std::marker::Model;

/// The send that rights come from.
#[derive(Clone, Copy, Debug, PartialEq, Eq)]
pub struct Origin {
    /// The number of the call.
    pub tag: u64,
    /// The user of the sending process, for whom its rights in flight are counted.
    pub uid: u32,
}

impl Model for Origin {
    ghost use Rattle.ux_model.specs.Stream as model;

    ghost Value = { model.Origin };

    ghost view = { λ o. record { tag = o.tag; uid = o.uid } };

    ghost inverse = { λ o. record { tag = o.tag; uid = o.uid } };
}
