//! Values with counted references.
use crate::measuring::{Batch, nanos};
use anyhow::Result;
use std::alloc::{AllocError, Global};
use std::rt::Clock;
use ux_slots::Slots;
use ux_types::DescriptionId;

/// How often a batch is measured.
const ROUNDS: u32 = 200;

/// The calls of a batch.
const CALLS: u32 = 32;

/// What is measured.
#[derive(Clone, Copy, Drop)]
enum Step {
    Insert,
    Get,
    Retain,
    Release,
    NextDead,
}

/// Values that stay, and others that come and go.
#[derive(Drop)]
struct Live {
    slots: Slots<u64>,
    /// Handles of some of those that stay, from all over.
    stay: Vec<DescriptionId>,
    /// Handles of those that come and go.
    fresh: Vec<DescriptionId>,
    step: Step,
}

/// Puts in a value, and answers whether it went.
fn insert(slots: &mut Slots<u64>, handles: &mut Vec<DescriptionId>, value: u64) -> bool {
    match slots.insert(value) {
        Ok(id) => handles.push(id).is_ok(),
        Err(_) => false,
    }
}

/// Sees that a value is there, and counts a further reference.
fn retain(slots: &mut Slots<u64>, id: DescriptionId) -> bool {
    slots.count(id) > 0 && slots.retain_ref(id).is_ok()
}

/// Sees that a reference is there, and counts one less.
fn release(slots: &mut Slots<u64>, id: DescriptionId) -> bool {
    let is_held = slots.count(id) > 0;
    if is_held {
        slots.release_ref(id);
    }
    is_held
}

/// Puts in so many values, and answers their handles.
fn insert_live(
    alloc: Global,
    slots: &mut Slots<u64>,
    count: u32,
) -> Result<Vec<DescriptionId>, AllocError> {
    let mut handles = Vec::new(alloc);
    for value in 0..count {
        if !insert(slots, &mut handles, u64::from(value)) {
            return Err(AllocError);
        }
    }
    Ok(handles)
}

/// As many of these handles as a batch has calls, at like distances.
fn spread(alloc: Global, handles: &[DescriptionId]) -> Result<Vec<DescriptionId>, AllocError> {
    let mut chosen = Vec::new(alloc);
    for call in 0..CALLS as usize {
        let place = call.saturating_mul(handles.len()) / CALLS as usize;
        if let Some(id) = handles.get(place) {
            chosen.push(*id)?;
        }
    }
    Ok(chosen)
}

impl Live {
    /// With so many values that stay.
    fn new(alloc: Global, count: u32) -> Result<Live, AllocError> {
        let mut slots = Slots::new(alloc);
        let handles = insert_live(alloc, &mut slots, count)?;
        Ok(Live {
            slots,
            stay: spread(alloc, handles.as_slice())?,
            fresh: Vec::with_capacity(alloc, CALLS as usize)?,
            step: Step::Insert,
        })
    }

    /// Puts in the values that come and go.
    fn insert_all(&mut self) -> u32 {
        let mut granted: u32 = 0;
        for value in 0..CALLS {
            let inserted = insert(&mut self.slots, &mut self.fresh, u64::from(value));
            granted = granted.saturating_add(u32::from(inserted));
        }
        granted
    }

    /// Gets values that stay.
    fn get_all(&self) -> u32 {
        let mut granted: u32 = 0;
        for id in &self.stay {
            let found = self.slots.get(*id).is_some_and(|value| *value != u64::MAX);
            granted = granted.saturating_add(u32::from(found));
        }
        granted
    }

    /// Counts a further reference to values that stay.
    fn retain_all(&mut self) -> u32 {
        let mut granted: u32 = 0;
        for id in &self.stay {
            let retained = retain(&mut self.slots, *id);
            granted = granted.saturating_add(u32::from(retained));
        }
        granted
    }

    /// Takes the one reference to each value that comes and goes.
    fn release_all(&mut self) -> u32 {
        let mut granted: u32 = 0;
        for id in &self.fresh {
            let released = release(&mut self.slots, *id);
            granted = granted.saturating_add(u32::from(released));
        }
        granted
    }

    /// Takes out values without a reference, and answers how many there were.
    fn take_all(&mut self) -> u32 {
        let mut granted: u32 = 0;
        for _ in 0..CALLS {
            let dead = self.slots.next_dead().is_some();
            granted = granted.saturating_add(u32::from(dead));
        }
        granted
    }
}

impl Batch for Live {
    fn calls(&self) -> u32 {
        CALLS
    }

    fn prepare(&mut self) -> Result<()> {
        let _ = self.release_all();
        let _ = self.take_all();
        self.fresh.clear();
        if matches!(self.step, Step::Release | Step::NextDead) {
            let _ = self.insert_all();
        }
        if matches!(self.step, Step::NextDead) {
            let _ = self.release_all();
        }
        Ok(())
    }

    fn run(&mut self) -> u32 {
        match self.step {
            Step::Insert => self.insert_all(),
            Step::Get => self.get_all(),
            Step::Retain => self.retain_all(),
            Step::Release => self.release_all(),
            Step::NextDead => self.take_all(),
        }
    }
}

/// The time of a step.
fn measure_step<R: Clock>(rt: &R, live: &mut Live, step: Step) -> Result<u128> {
    live.step = step;
    nanos(rt, ROUNDS, live)
}

/// Prints the times of values that come.
fn measure_coming<R: Clock + Eprint>(rt: &R, live: &mut Live, count: u32) -> Result<()> {
    let insert = measure_step(rt, live, Step::Insert)?;
    let get = measure_step(rt, live, Step::Get)?;
    eprintln!(rt; "slots, {count} live: insert {insert} ns, get {get} ns")?;
    Ok(())
}

/// Prints the times of references and of values that go.
fn measure_going<R: Clock + Eprint>(rt: &R, live: &mut Live, count: u32) -> Result<()> {
    let retain = measure_step(rt, live, Step::Retain)?;
    let release = measure_step(rt, live, Step::Release)?;
    let dead = measure_step(rt, live, Step::NextDead)?;
    eprintln!(rt;
        "slots, {count} live: count and retain_ref {retain} ns, count and release_ref {release} ns, next_dead {dead} ns"
    )?;
    Ok(())
}

/// Prints the times with so many values.
pub(crate) fn measure_slots<R: Clock + Eprint>(rt: &R, alloc: Global, count: u32) -> Result<()> {
    let mut live = Live::new(alloc, count)?;
    measure_coming(rt, &mut live, count)?;
    measure_going(rt, &mut live, count)
}
