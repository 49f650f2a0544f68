//! Names of the abstract namespace.
use crate::measuring::{Batch, nanos};
use anyhow::{Result, anyhow};
use std::alloc::{AllocError, Global};
use std::rt::Clock;
use ux_names::AbstractNames;
use ux_types::{DescriptionId, Name};

/// How often a batch is measured.
const ROUNDS: u32 = 100;

/// The calls of a batch.
const CALLS: u32 = 16;

/// What is measured.
#[derive(Clone, Copy, Drop)]
enum Step {
    Bind,
    Find,
    Autobind,
    ReleaseNewest,
    ReleaseOldest,
}

/// Names in use: those that autobind gives to the first numbers.
#[derive(Drop)]
struct Crowd {
    alloc: Global,
    names: AbstractNames,
    /// How many stay in use.
    count: usize,
    /// The number of the oldest name; the others follow in order, and after the last number the first.
    oldest: usize,
    /// The names of the next batch.
    chosen: Vec<Name>,
    step: Step,
}

/// The description of every name.
fn description() -> DescriptionId {
    DescriptionId::new(7)
}

/// Names that autobind doesn't give.
fn other_names(alloc: Global) -> Result<Vec<Name>, AllocError> {
    let mut names = Vec::new(alloc);
    for number in 0..CALLS {
        let text = format!(in alloc; "service-{number}")?;
        names.push(Name::from_slice(alloc, text.as_bytes())?)?;
    }
    Ok(names)
}

/// The name that autobind gives to a number.
fn name_of(alloc: Global, number: usize) -> Result<Name, AllocError> {
    let text = format!(in alloc; "{number:05x}")?;
    Name::from_slice(alloc, text.as_bytes())
}

/// The place in the order of binding of a batch's name.
fn place_of(step: Step, call: usize, len: usize) -> usize {
    match step {
        Step::ReleaseOldest => call,
        Step::ReleaseNewest => len.saturating_sub(CALLS as usize).saturating_add(call),
        _ => call.saturating_mul(len) / CALLS as usize,
    }
}

/// Gives names until so many are in use, and answers how many were given.
fn autobind_to(names: &mut AbstractNames, count: usize) -> u32 {
    let mut granted: u32 = 0;
    for _ in names.len()..count {
        let given = names.autobind(description()).is_ok();
        granted = granted.saturating_add(u32::from(given));
    }
    granted
}

/// Binds these names.
fn bind_all(names: &mut AbstractNames, chosen: &mut Vec<Name>) -> u32 {
    let mut granted: u32 = 0;
    for _ in 0..CALLS {
        if let Some(name) = chosen.pop() {
            let bound = names.bind(name, description()).is_ok();
            granted = granted.saturating_add(u32::from(bound));
        }
    }
    granted
}

/// Binds copies of these names.
fn bind_copies(names: &mut AbstractNames, chosen: &[Name]) -> Result<(), AllocError> {
    for name in chosen {
        let _ = names.bind(name.clone()?, description());
    }
    Ok(())
}

/// Finds these names.
fn find_all(names: &AbstractNames, chosen: &[Name]) -> u32 {
    let mut granted: u32 = 0;
    for name in chosen {
        let found = names.find(name) == Some(description());
        granted = granted.saturating_add(u32::from(found));
    }
    granted
}

/// Takes these names away.
fn release_all(names: &mut AbstractNames, chosen: &[Name]) -> u32 {
    let mut granted: u32 = 0;
    for name in chosen {
        let released = names.release(name).is_some();
        granted = granted.saturating_add(u32::from(released));
    }
    granted
}

impl Crowd {
    /// With so many names in use.
    fn new(alloc: Global, count: usize) -> Result<Crowd> {
        let mut names = AbstractNames::new(alloc)?;
        let given = autobind_to(&mut names, count);
        if names.len() != count {
            return Err(anyhow!("only {given} names were given"));
        }
        Ok(Crowd {
            alloc,
            names,
            count,
            oldest: 0,
            chosen: Vec::new(alloc),
            step: Step::Bind,
        })
    }

    /// How many names are in use when those of a batch are.
    fn full(&self) -> usize {
        self.count.saturating_add(CALLS as usize)
    }

    /// The names of a batch.
    fn choose(&self) -> Result<Vec<Name>, AllocError> {
        let full = self.full();
        let mut chosen = Vec::new(self.alloc);
        for call in 0..CALLS as usize {
            let place = self.oldest.saturating_add(place_of(self.step, call, full));
            chosen.push(name_of(self.alloc, place % full.max(1))?)?;
        }
        Ok(chosen)
    }

    /// Has no more names in use than those that stay.
    fn thin(&mut self) -> Result<(), AllocError> {
        let others = other_names(self.alloc)?;
        let _ = release_all(&mut self.names, others.as_slice());
        for number in self.count..self.full() {
            let name = name_of(self.alloc, number)?;
            let _ = self.names.release(&name);
        }
        Ok(())
    }

    /// Has the names of the last batch in use again, and chooses those of the next.
    fn refill(&mut self) -> Result<(), AllocError> {
        bind_copies(&mut self.names, self.chosen.as_slice())?;
        self.chosen = self.choose()?;
        if let Step::ReleaseOldest = self.step {
            self.oldest = self.oldest.saturating_add(CALLS as usize) % self.full().max(1);
        }
        Ok(())
    }
}

impl Batch for Crowd {
    fn calls(&self) -> u32 {
        CALLS
    }

    fn prepare(&mut self) -> Result<()> {
        match self.step {
            Step::Bind => {
                self.thin()?;
                self.chosen = other_names(self.alloc)?;
            }
            Step::Autobind => self.thin()?,
            Step::Find => self.chosen = self.choose()?,
            _ => self.refill()?,
        }
        Ok(())
    }

    fn run(&mut self) -> u32 {
        match self.step {
            Step::Bind => bind_all(&mut self.names, &mut self.chosen),
            Step::Find => find_all(&self.names, self.chosen.as_slice()),
            Step::Autobind => {
                let full = self.full();
                autobind_to(&mut self.names, full)
            }
            _ => release_all(&mut self.names, self.chosen.as_slice()),
        }
    }
}

/// The time of a step, in its quickest round.
fn measure_step<R: Clock>(rt: &R, crowd: &mut Crowd, step: Step) -> Result<u128> {
    crowd.step = step;
    nanos(rt, ROUNDS, crowd)
}

/// Prints the times of names that come.
fn measure_coming<R: Clock + Eprint>(rt: &R, crowd: &mut Crowd) -> Result<()> {
    let bind = measure_step(rt, crowd, Step::Bind)?;
    let autobind = measure_step(rt, crowd, Step::Autobind)?;
    let find = measure_step(rt, crowd, Step::Find)?;
    let count = crowd.count;
    eprintln!(rt; "names, {count} in use: bind {bind} ns, autobind {autobind} ns, find {find} ns")?;
    Ok(())
}

/// Prints the times of names that go.
fn measure_going<R: Clock + Eprint>(rt: &R, crowd: &mut Crowd) -> Result<()> {
    let newest = measure_step(rt, crowd, Step::ReleaseNewest)?;
    let oldest = measure_step(rt, crowd, Step::ReleaseOldest)?;
    let count = crowd.count;
    eprintln!(rt;
        "names, {count} in use: release of the newest {newest} ns, of the oldest {oldest} ns"
    )?;
    Ok(())
}

/// Prints the times with so many names in use.
pub(crate) fn measure_names<R: Clock + Eprint>(rt: &R, alloc: Global, count: usize) -> Result<()> {
    let mut crowd = Crowd::new(alloc, count)?;
    measure_coming(rt, &mut crowd)?;
    measure_going(rt, &mut crowd)
}
