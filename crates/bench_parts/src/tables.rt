//! Descriptor tables.
use crate::measuring::mean;
use anyhow::Result;
use std::alloc::Global;
use std::rt::Clock;
use std::time::{Duration, Instant};
use ux_fdtable::{Descriptor, Table};
use ux_types::{DescriptionId, Fd};

/// How often a batch of calls is measured.
const ROUNDS: u32 = 200;

/// The calls of one batch.
const BATCH: u32 = 16;

/// The calls of all batches.
const CALLS: usize = (ROUNDS * BATCH) as usize;

/// Opens the lowest free number so often.
fn install_many(table: &mut Table, calls: u32) {
    let descriptor = Descriptor {
        description: DescriptionId::new(1),
        cloexec: false,
    };
    for _ in 0..calls {
        let _ = table.install(descriptor);
    }
}

/// Closes so many numbers from this one on.
fn remove_many(table: &mut Table, from: u32, calls: u32) {
    for number in from..from.saturating_add(calls) {
        let _ = table.remove(Fd(number));
    }
}

/// Measures a table in which so many numbers are open.
pub(crate) fn measure_table<R: Clock + Eprint>(rt: &R, alloc: Global, entries: u32) -> Result<()> {
    let mut table = Table::new(alloc, u32::MAX)?;
    install_many(&mut table, entries);
    let mut installing = Duration::ZERO;
    let mut removing = Duration::ZERO;
    for _ in 0..ROUNDS {
        let start = Instant::now(rt)?;
        install_many(&mut table, BATCH);
        installing = installing.saturating_add(start.elapsed(rt)?);
        let start = Instant::now(rt)?;
        remove_many(&mut table, entries, BATCH);
        removing = removing.saturating_add(start.elapsed(rt)?);
    }
    let install = mean(installing, CALLS);
    let remove = mean(removing, CALLS);
    eprintln!(rt; "table, {entries} open: install {install} ns, remove {remove} ns")?;
    Ok(())
}
