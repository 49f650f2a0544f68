//! File objects.
use crate::measuring::mean;
use anyhow::Result;
use std::alloc::Global;
use std::rt::Clock;
use std::time::{Duration, Instant};
use ux_object::FileObject;
use ux_objects::{Counter, MemFile, Pipe};

/// A file object as a kernel holds it.
type Boxed = Box<dyn FileObject + Send>;

/// How often a batch of calls is measured.
const ROUNDS: u32 = 200;

/// The calls of one batch. A pipe has room for that many writes of 4,096 bytes.
const BATCH: u32 = 16;

/// The calls of all batches.
const CALLS: usize = (ROUNDS * BATCH) as usize;

/// Writes the same bytes again and again, and answers how often they went.
fn write_many<O: FileObject>(object: &mut O, bytes: &[u8], calls: u32) -> u32 {
    let mut answered: u32 = 0;
    for _ in 0..calls {
        if object.is_open() && object.write(0, bytes).is_ok() {
            answered = answered.saturating_add(1);
        }
    }
    answered
}

/// Reads into the same buffer again and again, and answers how often there was something.
fn read_many<O: FileObject>(object: &mut O, buf: &mut [u8], calls: u32) -> u32 {
    let mut answered: u32 = 0;
    for _ in 0..calls {
        if object.is_open() && object.read(0, buf).is_ok() {
            answered = answered.saturating_add(1);
        }
    }
    answered
}

/// Writes and reads in turn, and answers how often there was something.
fn alternate<O: FileObject>(object: &mut O, bytes: &[u8], buf: &mut [u8], calls: u32) -> u32 {
    let mut answered: u32 = 0;
    for _ in 0..calls {
        let _ = write_many(object, bytes, 1);
        answered = answered.saturating_add(read_many(object, buf, 1));
    }
    answered
}

/// Prints the time of a write, of a read behind as many writes, and of a write and a read in turn.
fn measure_object<R: Clock + Eprint>(
    rt: &R,
    name: &str,
    mut object: Boxed,
    bytes: &[u8],
    buf: &mut [u8],
) -> Result<()> {
    let mut writing = Duration::ZERO;
    let mut reading = Duration::ZERO;
    let mut alternating = Duration::ZERO;
    let mut answered: u32 = 0;
    for _ in 0..ROUNDS {
        let start = Instant::now(rt)?;
        let _ = write_many(&mut object, bytes, BATCH);
        writing = writing.saturating_add(start.elapsed(rt)?);
        let start = Instant::now(rt)?;
        let _ = read_many(&mut object, buf, BATCH);
        reading = reading.saturating_add(start.elapsed(rt)?);
        let start = Instant::now(rt)?;
        answered = answered.saturating_add(alternate(&mut object, bytes, buf, BATCH));
        alternating = alternating.saturating_add(start.elapsed(rt)?);
    }
    let length = bytes.len();
    let write = mean(writing, CALLS);
    let read = mean(reading, CALLS);
    let both = mean(alternating, CALLS);
    eprintln!(rt;
        "{name}, {length} bytes: write {write} ns, read {read} ns, both in turn {both} ns ({answered} answered)"
    )?;
    Ok(())
}

/// Measures the three kinds with so many bytes a call.
pub(crate) fn measure_objects<R: Clock + Eprint>(
    rt: &R,
    alloc: Global,
    length: usize,
) -> Result<()> {
    let bytes = vec![in alloc; 1; length]?;
    let mut buf = vec![in alloc; 0; length]?;
    let file: Boxed = Box::new(alloc, MemFile::new(alloc, bytes.as_slice())?)?;
    measure_object(
        rt,
        "memory file",
        file,
        bytes.as_slice(),
        buf.as_mut_slice(),
    )?;
    let counter: Boxed = Box::new(alloc, Counter::new())?;
    measure_object(rt, "counter", counter, bytes.as_slice(), buf.as_mut_slice())?;
    let pipe: Boxed = Box::new(alloc, Pipe::new(alloc)?)?;
    measure_object(rt, "pipe", pipe, bytes.as_slice(), buf.as_mut_slice())
}
