//! Control buffers with rights.
use crate::measuring::{Batch, nanos};
use anyhow::Result;
use std::alloc::{AllocError, Global};
use std::rt::Clock;
use ux_cmsg::{Control, read_control, write_control};
use ux_types::Fd;

/// How often a batch is measured.
const ROUNDS: u32 = 200;

/// The calls of a batch.
const CALLS: u32 = 64;

/// What is measured.
#[derive(Clone, Copy, Drop)]
enum Step {
    Read,
    Write,
}

/// Rights, and the buffer that spells them.
#[derive(Drop)]
struct Buffer {
    alloc: Global,
    control: Control,
    bytes: Vec<u8>,
    step: Step,
}

/// The numbers from 0 on.
fn numbers(alloc: Global, count: u32) -> Result<Vec<Fd>, AllocError> {
    let mut numbers = Vec::new(alloc);
    for number in 0..count {
        numbers.push(Fd(number))?;
    }
    Ok(numbers)
}

/// Reads a buffer that spells these rights, and sees how many came and which is the last.
fn read(alloc: Global, bytes: &[u8], rights: &[Fd]) -> bool {
    match read_control(alloc, bytes) {
        Ok(control) => {
            let found = control.rights();
            found.len() == rights.len() && found.last().copied() == rights.last().copied()
        }
        Err(_) => false,
    }
}

/// Writes this buffer, and sees how long it is and how it ends.
fn write(alloc: Global, control: &Control, bytes: &[u8]) -> bool {
    match write_control(alloc, control) {
        Ok(written) => {
            written.len() == bytes.len() && written.last().copied() == bytes.last().copied()
        }
        Err(_) => false,
    }
}

impl Buffer {
    /// With so many rights.
    fn new(alloc: Global, count: u32) -> Result<Buffer, AllocError> {
        let control = Control::new(None, numbers(alloc, count)?);
        let bytes = write_control(alloc, &control)?;
        Ok(Buffer {
            alloc,
            control,
            bytes,
            step: Step::Read,
        })
    }

    /// Reads the buffer again and again, and answers how often it read as its rights.
    fn read_all(&self) -> u32 {
        let rights = self.control.rights();
        let mut granted: u32 = 0;
        for _ in 0..CALLS {
            let is_read = read(self.alloc, self.bytes.as_slice(), rights);
            granted = granted.saturating_add(u32::from(is_read));
        }
        granted
    }

    /// Writes the buffer again and again, and answers how often it was as long.
    fn write_all(&self) -> u32 {
        let mut granted: u32 = 0;
        for _ in 0..CALLS {
            let is_written = write(self.alloc, &self.control, self.bytes.as_slice());
            granted = granted.saturating_add(u32::from(is_written));
        }
        granted
    }
}

impl Batch for Buffer {
    fn calls(&self) -> u32 {
        CALLS
    }

    fn prepare(&mut self) -> Result<()> {
        Ok(())
    }

    fn run(&mut self) -> u32 {
        match self.step {
            Step::Read => self.read_all(),
            Step::Write => self.write_all(),
        }
    }
}

/// The time of a step.
fn measure_step<R: Clock>(rt: &R, buffer: &mut Buffer, step: Step) -> Result<u128> {
    buffer.step = step;
    nanos(rt, ROUNDS, buffer)
}

/// Prints the times for so many rights.
pub(crate) fn measure_control<R: Clock + Eprint>(rt: &R, alloc: Global, count: u32) -> Result<()> {
    let mut buffer = Buffer::new(alloc, count)?;
    let read = measure_step(rt, &mut buffer, Step::Read)?;
    let write = measure_step(rt, &mut buffer, Step::Write)?;
    eprintln!(rt; "control buffer, {count} rights: read {read} ns, write {write} ns")?;
    Ok(())
}
