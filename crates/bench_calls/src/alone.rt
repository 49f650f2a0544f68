//! Threads that wait for nobody: each sends itself one byte over a pair of its own, and receives it.
use crate::layers::{CALLER, Layer, make_all, make_rows};
use crate::rows::{PAIR, Requests, Row};
use crate::seats::{TURNS, Way, Worker, each};
use anyhow::Result;
use std::alloc::Global;
use std::rt::Clock;
use std::sync::Wait;
use std::thread;
use std::thread::Threads;
use std::time::{Duration, Instant};
use ux_book::{BookName, Keeper, Nothing};
use ux_layer::Seat;
use ux_objects::Plain;

/// One byte over a pair at the numbers 0 and 1.
const EXCHANGE: &[Row] = &[Row::Send(0, 1), Row::Receive(1, 1)];

/// Prints the time of the exchange by a layer that isn't shared.
pub(crate) fn measure_alone<R: Clock + Eprint, L: Layer>(
    rt: &R,
    alloc: Global,
    what: &str,
    layer: &mut L,
) -> Result<()> {
    make_rows(alloc, layer, CALLER, PAIR)?;
    let time = each(time_of(rt, alloc, layer)?, TURNS as usize);
    eprintln!(rt; "{what}: send and receive, 1 byte, 1 thread: {time} ns")?;
    Ok(())
}

/// How long the turns of one thread take.
fn time_of<R: Clock, L: Layer>(rt: &R, alloc: Global, layer: &mut L) -> Result<Duration> {
    let calls = Requests::of(alloc, EXCHANGE)?;
    let start = Instant::now(rt)?;
    for _ in 0..TURNS {
        make_all(layer, CALLER, calls.as_slice())?;
    }
    Ok(start.elapsed(rt)?)
}

/// How long the exchanges take by seats in threads of their own, from the start of the first to the end of the last.
pub(crate) fn time_apart<W: BookName + Send + Sync, R: Threads + Wait + Clock + Sync>(
    rt: &R,
    alloc: Global,
    seats: Vec<Seat<W, Plain>>,
) -> Result<Duration> {
    let start = Instant::now(rt)?;
    let all = thread::map_vec(rt, seats, &|seat| exchange(rt, alloc, seat))?;
    time_since(rt, start, all)
}

/// As `time_apart`, over a book that keeps no entry.
pub(crate) fn time_running<W: BookName + Send + Sync, R: Threads + Wait + Clock + Sync>(
    rt: &R,
    alloc: Global,
    seats: Vec<Seat<W, Plain, Nothing>>,
) -> Result<Duration> {
    let start = Instant::now(rt)?;
    let all = thread::map_vec(rt, seats, &|seat| exchange(rt, alloc, seat))?;
    time_since(rt, start, all)
}

/// How long it took, where each thread made all its calls.
fn time_since<R: Clock>(rt: &R, start: Instant, all: Vec<Result<()>>) -> Result<Duration> {
    let time = start.elapsed(rt)?;
    for made in all {
        made?;
    }
    Ok(time)
}

/// Makes the calls of one process.
fn exchange<W: BookName, K: Keeper, R: Wait>(
    rt: &R,
    alloc: Global,
    seat: Seat<W, Plain, K>,
) -> Result<()> {
    let mut worker = Worker::new(seat, Way::Call);
    worker.call_rows(rt, alloc, PAIR)?;
    let calls = Requests::of(alloc, EXCHANGE)?;
    worker.repeat(rt, &calls)
}
