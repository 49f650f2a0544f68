//! How calls are measured.
use anyhow::{Result, anyhow};
use std::rt::Clock;
use std::time::{Duration, Instant};

/// Calls that are measured together.
pub(crate) trait Batch {
    /// How many calls there are in it.
    fn calls(&self) -> u32;

    /// Gets ready for the calls, which isn't measured.
    fn prepare(&mut self) -> Result<()>;

    /// Makes the calls, and answers how many were granted.
    fn run(&mut self) -> u32;
}

/// Makes the calls of a batch, each of which must be granted, and answers their time.
fn time_of<R: Clock, B: Batch>(rt: &R, batch: &mut B) -> Result<Duration> {
    batch.prepare()?;
    let start = Instant::now(rt)?;
    let granted = batch.run();
    let time = start.elapsed(rt)?;
    if granted != batch.calls() {
        return Err(anyhow!("only {granted} calls were granted"));
    }
    Ok(time)
}

/// The time of a call in nanoseconds, in the quickest of so many rounds.
pub(crate) fn nanos<R: Clock, B: Batch>(rt: &R, rounds: u32, batch: &mut B) -> Result<u128> {
    let mut quickest = Duration::MAX;
    for _ in 0..rounds {
        let time = time_of(rt, batch)?;
        quickest = quickest.min(time);
    }
    Ok(quickest.as_nanos() / u128::from(batch.calls().max(1)))
}

/// The mean time of one of so many calls, in nanoseconds.
pub(crate) fn mean(time: Duration, calls: usize) -> u128 {
    time.as_nanos() / (calls as u128).max(1)
}
