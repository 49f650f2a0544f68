//! Measures calls of a kernel, and of a book that keeps their history: with few and with many descriptors open,
//! descriptions made before, names in use, and entries in the book. Then calls by the seats of two threads that wait
//! for one another. The times go to standard error.
//!
//! With arguments it makes the calls of one kind so many times over, for a counter of instructions
//! (`bench/instructions`), or measures calls by the seats of so many threads, none of which waits for another, over a
//! book that keeps each call and over one that keeps none.
#![tactic(auto)]

mod alone;
mod calls;
mod layers;
mod rows;
mod seats;
mod together;

ghost use Rattle.std.specs.Prelude.{◌≡◌, []};
ghost use Rattle.ux_model.specs.Boot.{IsBootState};

use crate::alone::{measure_alone, time_apart, time_running};
use crate::calls::{make_turns, measure, measure_connection, print_names};
use crate::layers::{Layer, PROCESSES, Recorded, Stepped, boot, fill, hold_names, make_before};
use crate::rows::Giving;
use crate::seats::{TURNS, each};
use crate::together::time_in_turns;
use anyhow::{Result, anyhow};
use std::alloc::Global;
use std::env;
use std::marker::Brand;
use std::rt::Clock;
use std::sync::Wait;
use std::thread::Threads;
use std::time::Duration;
use ux_book::{BookName, Trail};
use ux_kernel::Kernel;
use ux_layer::{start, start_counting};
use ux_objects::Plain;

/// What is measured on a layer that isn't shared.
#[derive(Clone, Copy)]
enum Measured<'a> {
    /// Each kind of call, with so many descriptors open, after so many descriptions of sockets were made and
    /// closed.
    Calls { open: u32, made: u32 },
    /// Connections by this title, with so many names in use.
    Connections { names: u32, title: &'static str },
    /// An exchange of one byte.
    Exchange,
    /// The calls of this name, so many times over, without a clock.
    Turns { name: &'a str, turns: u32 },
}

/// Connections with few and with many names in use.
const CONNECTIONS: [Measured<'static>; 3] = [
    Measured::Connections {
        names: 10,
        title: "socket, connect, accept, two closes, 10 names",
    },
    Measured::Connections {
        names: 1000,
        title: "socket, connect, accept, two closes, 1,000 names",
    },
    Measured::Connections {
        names: 10_000,
        title: "socket, connect, accept, two closes, 10,000 names",
    },
];

/// Brings a layer to where this is measured, and measures it.
fn measure_on<R: Clock + Eprint, L: Layer>(
    rt: &R,
    alloc: Global,
    what: &str,
    layer: &mut L,
    measured: Measured<'_>,
) -> Result<()> {
    match measured {
        Measured::Calls { open, made } => {
            fill(alloc, layer, open)?;
            make_before(alloc, layer, made)?;
            measure(rt, alloc, what, layer)
        }
        Measured::Connections { names, title } => {
            fill(alloc, layer, 4)?;
            hold_names(alloc, layer, names)?;
            measure_connection(rt, alloc, what, layer, title)
        }
        Measured::Exchange => measure_alone(rt, alloc, what, layer),
        Measured::Turns { name, turns } => {
            fill(alloc, layer, 4)?;
            make_turns(alloc, layer, name, turns)
        }
    }
}

/// Measures a kernel alone.
fn by_step<R: Clock + Eprint>(rt: &R, alloc: Global, measured: Measured<'_>) -> Result<()> {
    let mut layer = Stepped::new(alloc)?;
    measure_on(rt, alloc, "step", &mut layer, measured)
}

/// Measures a book, which has half as many more entries as descriptions were made.
fn by_record<R: Clock + Eprint>(
    rt: &R,
    alloc: Global,
    giving: Giving,
    measured: Measured<'_>,
) -> Result<()> {
    let kernel = boot(alloc, PROCESSES)?;
    record_named::<Brand, R>(rt, alloc, giving, Trail::new(alloc)?, kernel, measured)
}

/// So, under a name that lives in here.
fn record_named<W: BookName, R: Clock + Eprint>(
    rt: &R,
    alloc: Global,
    giving: Giving,
    trail: Trail,
    kernel: Kernel<Plain>,
    measured: Measured<'_>,
) -> Result<()>
    requires trail { trail ≡ record { id = W.trail; entries = []; given = 0 } }
    requires boots { IsBootState kernel }
    requires named { kernel ≡ W.boot }
{
    let mut layer = Recorded::<W>::new(alloc, giving, trail, kernel)?;
    measure_on(rt, alloc, giving.title(), &mut layer, measured)
}

/// What threads do.
#[derive(Clone, Copy)]
enum Work {
    /// Each makes exchanges of its own.
    Apart,
    /// Two pass one byte to and fro.
    InTurns,
}

/// How long the work takes by the seats of so many threads.
fn by_seats<R: Threads + Wait + Clock + AllocGlobal + Sync>(
    rt: &R,
    threads: usize,
    work: Work,
) -> Result<Duration> {
    let kernel = boot(rt.alloc(), threads)?;
    seats_named::<Brand, R>(rt, Trail::new(rt.alloc())?, kernel, work)
}

/// So, under a name that lives in here.
fn seats_named<W: BookName + Send + Sync, R: Threads + Wait + Clock + AllocGlobal + Sync>(
    rt: &R,
    trail: Trail,
    kernel: Kernel<Plain>,
    work: Work,
) -> Result<Duration>
    requires trail { trail ≡ record { id = W.trail; entries = []; given = 0 } }
    requires boots { IsBootState kernel }
    requires named { kernel ≡ W.boot }
{
    let Ok((layer, seats)) = start::<W, Plain, R>(rt, rt.alloc(), trail, kernel) else {
        return Err(anyhow!("out of memory"));
    };
    let time = match work {
        Work::Apart => time_apart(rt, rt.alloc(), seats),
        Work::InTurns => time_in_turns(rt, rt.alloc(), &layer, seats),
    };
    drop(layer);
    time
}

/// How long exchanges take by the seats of so many threads, over a book that keeps no entry.
fn by_running<R: Threads + Wait + Clock + AllocGlobal + Sync>(
    rt: &R,
    threads: usize,
) -> Result<Duration> {
    let kernel = boot(rt.alloc(), threads)?;
    let trail = Trail::new(rt.alloc())?;
    running_named::<Brand, R>(rt, trail, kernel)
}

/// So, under a name that lives in here.
fn running_named<W: BookName + Send + Sync, R: Threads + Wait + Clock + AllocGlobal + Sync>(
    rt: &R,
    trail: Trail,
    kernel: Kernel<Plain>,
) -> Result<Duration>
    requires trail { trail ≡ record { id = W.trail; entries = []; given = 0 } }
    requires boots { IsBootState kernel }
    requires named { kernel ≡ W.boot }
{
    let alloc = rt.alloc();
    let Ok((layer, seats)) = start_counting::<W, Plain, R>(rt, alloc, trail, kernel) else {
        return Err(anyhow!("out of memory"));
    };
    let time = time_running(rt, alloc, seats);
    drop(layer);
    time
}

/// Measures the same calls by a book alone, and by two threads that wait for one another.
fn measure_turns<R: Threads + Wait + Clock + Eprint + AllocGlobal + Sync>(rt: &R) -> Result<()> {
    eprintln!(rt; "threads:")?;
    by_record(rt, rt.alloc(), Giving::Again, Measured::Exchange)?;
    let time = each(by_seats(rt, 2, Work::InTurns)?, TURNS as usize);
    eprintln!(rt; "seat: a byte to and fro between two threads: {time} ns")?;
    Ok(())
}

/// Measures calls of a kernel and of a book.
fn measure_layers<R: Clock + Eprint>(rt: &R, alloc: Global) -> Result<()> {
    let first = Measured::Calls { open: 4, made: 10 };
    eprintln!(rt; "4 descriptors open, 10 descriptions made before:")?;
    by_step(rt, alloc, first)?;
    by_record(rt, alloc, Giving::Again, first)?;
    by_record(rt, alloc, Giving::Anew, first)?;
    for (open, made) in [(400, 10), (4000, 10), (4, 1_000_000)] {
        eprintln!(rt; "{open} descriptors open, {made} descriptions made before:")?;
        by_step(rt, alloc, Measured::Calls { open, made })?;
        by_record(rt, alloc, Giving::Again, Measured::Calls { open, made })?;
    }
    eprintln!(rt; "4 descriptors of the file open, and other names in use:")?;
    for connections in CONNECTIONS {
        by_step(rt, alloc, connections)?;
        by_record(rt, alloc, Giving::Again, connections)?;
    }
    Ok(())
}

/// How the program is called for a part of what it measures.
const USAGE: &str = "bench_calls [names | step NAME TURNS | record NAME TURNS | seats THREADS]";

/// Prints the names of the kinds of calls, makes the calls of one kind so many times over, or measures exchanges by
/// the seats of so many threads.
fn make_asked<R: Threads + Wait + Clock + Print + Eprint + AllocGlobal + Sync>(
    rt: &R,
    words: &[String],
) -> Result<()> {
    let [layer, name, turns] = words else {
        return match words {
            [word] if word.as_str() == "names" => print_names(rt),
            [word, threads] if word.as_str() == "seats" => measure_threads(rt, threads.as_str()),
            _ => Err(anyhow!("{USAGE}")),
        };
    };
    let Ok(turns) = turns.parse::<u32>() else {
        return Err(anyhow!("{USAGE}"));
    };
    let name = name.as_str();
    match layer.as_str() {
        "step" => by_step(rt, rt.alloc(), Measured::Turns { name, turns }),
        "record" => by_record(
            rt,
            rt.alloc(),
            Giving::Again,
            Measured::Turns { name, turns },
        ),
        _ => Err(anyhow!("{USAGE}")),
    }
}

/// Measures exchanges by the seats of so many threads at once. A process does so for one count of threads, as memory
/// that it used before is faster.
fn measure_threads<R: Threads + Wait + Clock + Eprint + AllocGlobal + Sync>(
    rt: &R,
    threads: &str,
) -> Result<()> {
    let Ok(threads) = threads.parse::<usize>() else {
        return Err(anyhow!("{USAGE}"));
    };
    let turns = (TURNS as usize).saturating_mul(threads);
    let kept = each(by_seats(rt, threads, Work::Apart)?, turns);
    let unkept = each(by_running(rt, threads)?, turns);
    let s = if threads == 1 { "" } else { "s" };
    eprintln!(rt; "seat: send and receive, 1 byte, {threads} thread{s}: {kept} ns")?;
    eprintln!(rt; "running: send and receive, 1 byte, {threads} thread{s}: {unkept} ns")?;
    Ok(())
}

fn main(rt: HostRuntime) -> Result<()> {
    let words = env::args(&rt)?.collect::<Vec<String>>(rt.alloc())?;
    if words.len() > 1 {
        return make_asked(&rt, &words[1..]);
    }
    measure_layers(&rt, rt.alloc())?;
    measure_turns(&rt)?;
    println!(rt; "done")?;
    Ok(())
}
