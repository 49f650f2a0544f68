//! Where processes wait for one another.

ghost use Rattle.std.specs.Prelude.{◌≡◌, Some};
ghost use Rattle.ux_syntax.specs.WaitingPlaces.{place_text, waiting_text};

use std::fmt;
use std::marker::Model;
use ux_types::Pid;

/// The processes that wait, each with the number of the script's line that it waits in, counted from 1.
#[derive(Debug, Drop)]
pub struct Waiting {
    places: Vec<(Pid, usize)>,
}

impl Model for Waiting {
    ghost use Rattle.std.specs.Prelude.{ℕ, List};
    ghost use Rattle.ux_model.specs.Types.{Pid};

    ghost Value = { List (Pid × ℕ) };

    ghost view = { λ w. w.places.items };
}

impl Waiting {
    /// They are printed in this order.
    pub fn new(places: Vec<(Pid, usize)>) -> Waiting
        ensures { result ≡ places.items }
    {
        Waiting { places }
    }
}

/// One process and the line that it waits in.
#[derive(Clone, Copy)]
struct WaitText<'a>(&'a (Pid, usize));

impl fmt::Display for WaitText<'_> {
    ghost output = { λ p. Some (place_text p.0.now) };

    fn fmt<W: fmt::Write>(&self, f: &mut fmt::Formatter<W>) -> fmt::Result {
        let pid = self.0.0.0;
        let line = self.0.1;
        write!(f, "process {pid} waits in line {line}")
    }
}

impl fmt::Display for Waiting {
    ghost output = { λ w. Some (waiting_text w) };

    fn fmt<W: fmt::Write>(&self, f: &mut fmt::Formatter<W>) -> fmt::Result {
        let [first, rest @ ..] = self.places.as_slice() else {
            return Ok(());
        };
        let first = WaitText(first);
        write!(f, "{first}")?;
        for further in rest {
            let place = WaitText(further);
            write!(f, ", {place}")?;
        }
        Ok(())
    }
}
