//! A layer that runs for long: four threads as its processes make some calls and exit, and then four others make many,
//! of which the layer keeps nothing. At the end the accounts settle with what the threads kept of their calls. How
//! much memory the program has after the first calls and at the end goes to standard error. The first word of the
//! command line says how many calls the later threads make together: `rt run -- 100000000` makes a hundred million.
#![tactic(auto)]

mod memory;
mod worker;

ghost use Rattle.std.specs.Prelude.{◌≡◌, [], IfOk};
ghost use Rattle.ux_model.specs.Boot.{IsBootState};

use crate::memory::print_memory;
use crate::worker::{Ended, put_all, work_all};
use anyhow::{Result, anyhow};
use std::alloc::Global;
use std::env;
use std::marker::Brand;
use std::rt::{Env, Files};
use std::sync::Wait;
use std::thread::Threads;
use ux_book::{BookName, Nothing, Receipt, Spent, Trail};
use ux_kernel::Kernel;
use ux_layer::{Layer, Seat, start_counting};
use ux_objects::MemFile;
use ux_types::ProcSpec;

/// How many threads make calls at once.
const THREADS: u64 = 4;

/// How many calls each of the first threads makes.
const FIRST_CALLS: u64 = 10_000;

/// How many calls the others make together, where the command line says nothing.
const CALLS: u64 = 10_000_000;

/// How many calls each of the others makes.
fn calls_each<R: Env + AllocGlobal>(rt: &R) -> Result<u64> {
    let mut words = env::args(rt)?;
    let _program = words.next();
    let calls = match words.next() {
        Some(word) => word.parse::<u64>()?,
        None => CALLS,
    };
    Ok(calls / THREADS)
}

/// A kernel with a process for each thread of both rounds.
fn boot(alloc: Global) -> Result<Kernel<MemFile>>
    ensures { IfOk result (λ kernel. IsBootState kernel) }
{
    let user = ProcSpec {
        uid: 1000,
        gid: 1000,
        privileged: false,
        limit: 16,
    };
    match Kernel::boot(alloc, Vec::new(alloc), &[user; 2 * THREADS as usize]) {
        Ok(kernel) => Ok(kernel),
        Err((fault, _objects)) => Err(anyhow!("{fault}")),
    }
}

/// Runs the threads over a layer that keeps nothing, under a name that lives in here.
fn run<W: BookName + Send + Sync, R: Threads + Wait + Files + Print + Eprint + AllocGlobal + Sync>(
    rt: &R,
    trail: Trail,
    kernel: Kernel<MemFile>,
    calls: u64,
) -> Result<()>
    requires trail { trail ≡ record { id = W.trail; entries = []; given = 0 } }
    requires boots { IsBootState kernel }
    requires named { kernel ≡ W.boot }
{
    let alloc = rt.alloc();
    let Ok((layer, seats)) = start_counting::<W, MemFile, R>(rt, alloc, trail, kernel) else {
        return Err(anyhow!("out of memory"));
    };
    let (first, others) = halves(alloc, seats)?;
    let before = work_all(rt, alloc, first, FIRST_CALLS)?;
    print_memory(rt, "after the first calls")?;
    let after = work_all(rt, alloc, others, calls)?;
    print_memory(rt, "at the end")?;
    settle(rt, &layer, before, after)
}

/// The seats of the first threads, and those of the others.
fn halves<W: BookName>(
    alloc: Global,
    seats: Vec<Seat<W, MemFile, Nothing>>,
) -> Result<
    (
        Vec<Seat<W, MemFile, Nothing>>,
        Vec<Seat<W, MemFile, Nothing>>,
    ),
> {
    let mut first = Vec::with_capacity(alloc, THREADS as usize)?;
    let mut others = Vec::with_capacity(alloc, THREADS as usize)?;
    for seat in seats {
        if u64::from(seat.pid().0) <= THREADS {
            first.push(seat)?;
        } else {
            others.push(seat)?;
        }
    }
    Ok((first, others))
}

/// Settles the accounts of all processes with what they kept of their calls.
fn settle<W: BookName, R: Wait + Print + AllocGlobal>(
    rt: &R,
    layer: &Layer<W, MemFile, Nothing>,
    before: Vec<Ended<W>>,
    after: Vec<Ended<W>>,
) -> Result<()> {
    let mut spents = Vec::new(rt.alloc());
    let mut receipts = Vec::new(rt.alloc());
    put_all(before, &mut spents, &mut receipts)?;
    put_all(after, &mut spents, &mut receipts)?;
    let account = layer.settle_with(rt, &mut spents, &mut receipts)?;
    let count = receipts.len();
    println!(rt; "{} entries settle, with {count} receipts", account.entries)?;
    Ok(())
}

fn main(rt: HostRuntime) -> Result<()> {
    let calls = calls_each(&rt)?;
    let kernel = boot(rt.alloc())?;
    let trail = Trail::new(rt.alloc())?;
    run::<Brand, _>(&rt, trail, kernel, calls)
}
