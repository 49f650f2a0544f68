//! The whole state as one value.
use crate::flights::Flights;
use crate::object_place::ObjectPlace;
use crate::openings::Openings;
use crate::process::Process;
use std::marker::Model;
use ux_description::Description;
use ux_names::{AbstractNames, Paths};
use ux_number_sets::NumberSet;
use ux_object::FileObject;
use ux_slots::Slots;

/// All file objects, open file descriptions, processes and names. Contracts see it as the state that the
/// definitions speak of; the counts of references and of rights in flight are in its invariant alone.
pub struct State<O: FileObject> {
    /// By number.
    pub(crate) objects: Vec<ObjectPlace<O>>,
    /// What the descriptions of each file object are open for, so that no call looks through them.
    pub(crate) openings: Vec<Openings>,
    /// By number, in order of making, each with a count of the references to it.
    pub(crate) descriptions: Slots<Description>,
    /// The process with number 1 first.
    pub(crate) processes: Vec<Process>,
    pub(crate) paths: Paths,
    /// How many paths name each file object, so that no call looks through them. As with the openings, there may be
    /// counts of nothing beyond the file objects.
    pub(crate) links: Vec<usize>,
    /// With the descriptions whose sockets they lead to.
    pub(crate) abstract_names: AbstractNames,
    /// How many rights of each user are in messages that nobody has received.
    pub(crate) flights: Flights,
    /// Those file objects that a description or a path leads to, or that were closed, so that the end of a call looks at
    /// no other. One that lost a description or a path is taken out.
    pub(crate) settled: NumberSet,
}

// Written out, so that it is proved here and not in each function that drops one.
impl<O: FileObject> Drop for State<O> {
    fn drop(self) {
        let State {
            objects,
            openings,
            descriptions,
            processes,
            paths,
            links,
            abstract_names,
            flights,
            settled,
        } = self;
        drop(objects);
        drop(openings);
        drop(descriptions);
        drop(processes);
        drop(paths);
        drop(links);
        drop(abstract_names);
        drop(flights);
        drop(settled);
    }
}

impl<O: FileObject> Model for State<O> {
    ghost use Rattle.ux_model.specs.State as model;
    ghost use Rattle.ux_state.specs.Flights.{flights_of};
    ghost use Rattle.ux_state.specs.Keeping.{state_of, IsState};

    ghost Value = { model.State };

    ghost view = { λ s. state_of s.objects.items s.descriptions s.processes.items s.paths.names s.abstract_names };

    ghost invariant = { λ s. IsState s.settled s.openings.items s.links.items s.descriptions (flights_of s.flights) (state_of s.objects.items s.descriptions s.processes.items s.paths.names s.abstract_names) };
}
