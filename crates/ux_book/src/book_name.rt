//! Which book a share is of.
use std::marker::Brand;

/// Names one book: the state that its history begins with, and the trail that its calls stand on. A program calls a
/// function of its own that is generic over a name with `Brand`, and the proof of that call picks both.
pub trait BookName {
    ghost use Rattle.ux_model.specs.State.{State};
    ghost use Rattle.atomic_table.specs.Seated.{TableId};

    ghost boot: { State };

    ghost trail: { TableId };
}

impl BookName for Brand {
    ghost use Rattle.std.specs.Prelude.{[]};
    ghost use Rattle.ux_model.specs.Boot.{boot_state};
    ghost use Rattle.ux_book.specs.Trails.{no_trail};

    ghost boot = { boot_state [] [] };

    ghost trail = { no_trail };
}
