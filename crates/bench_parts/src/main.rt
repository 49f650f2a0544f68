//! Measures the parts that the calls stand on: scripts and traces, file objects, descriptor tables, queues, control
//! buffers, slots and names. The times go to standard error.
#![tactic(auto)]

mod collisions;
mod control;
mod measuring;
mod names;
mod objects;
mod records;
mod scripts;
mod slots;
mod streams;
mod tables;

use crate::collisions::measure_collisions;
use crate::control::measure_control;
use crate::names::measure_names;
use crate::objects::measure_objects;
use crate::records::measure_records;
use crate::scripts::measure_script;
use crate::slots::measure_slots;
use crate::streams::measure_stream;
use crate::tables::measure_table;
use anyhow::Result;
use std::alloc::Global;
use std::rt::Clock;

/// Measures file objects, and the descriptors that lead to them.
fn measure_files<R: Clock + Eprint>(rt: &R, alloc: Global) -> Result<()> {
    for length in [1, 8, 64, 4096] {
        measure_objects(rt, alloc, length)?;
    }
    for entries in [0, 100, 1000] {
        measure_table(rt, alloc, entries)?;
    }
    Ok(())
}

/// Measures the queues.
fn measure_queues<R: Clock + Eprint>(rt: &R, alloc: Global) -> Result<()> {
    for length in [1, 64, 4096, 65_536] {
        measure_stream(rt, alloc, length)?;
    }
    for length in [64, 4096] {
        measure_records(rt, alloc, length)?;
    }
    Ok(())
}

/// Measures what is found by a number or a name.
fn measure_places<R: Clock + Eprint>(rt: &R, alloc: Global) -> Result<()> {
    for count in [10, 1000, 100_000] {
        measure_slots(rt, alloc, count)?;
    }
    for count in [10, 10_000, 1_000_000] {
        measure_names(rt, alloc, count)?;
    }
    Ok(())
}

fn main(rt: HostRuntime) -> Result<()> {
    let alloc = rt.alloc();
    for calls in [1000, 10_000, 100_000] {
        measure_script(&rt, alloc, calls)?;
    }
    measure_files(&rt, alloc)?;
    measure_queues(&rt, alloc)?;
    for count in [1, 253] {
        measure_control(&rt, alloc, count)?;
    }
    measure_places(&rt, alloc)?;
    measure_collisions(&rt, alloc)?;
    println!(rt; "done")?;
    Ok(())
}
