//! How far a long run is.

ghost use Rattle.std.specs.Prelude.{◌-◌, ◌≤◌, ◌↔◌, IsTrue};

use std::rt::Clock;
use std::sync::atomic::{AtomicU64, Ordering};
use std::time::Instant;

/// How many steps are made between two looks at the clock.
const STRIDE: u64 = 16;

/// How many milliseconds pass at least before more is reported.
const PAUSE: u64 = 1000;

/// Counts the steps of a run, in any of its threads, and reports their number on standard error, at most once a second.
pub struct Meter<'a, R> {
    rt: &'a R,
    /// What the steps are.
    steps: &'static str,
    /// When the run began. None where nothing is reported.
    start: Option<Instant>,
    count: AtomicU64,
    /// How many milliseconds after the beginning something was reported.
    reported: AtomicU64,
}

// Not derived, since it asks nothing of `R`.
impl<R> Drop for Meter<'_, R> {
    fn drop(self) {
        let Meter {
            rt: _,
            steps: _,
            start: _,
            count,
            reported,
        } = self;
        drop(count);
        drop(reported);
    }
}

/// Whether more is reported now: so long after the last time.
fn is_due(reported: u64, now: u64) -> bool
    ensures { IsTrue result ↔ (1000 ≤ now - reported) }
{
    now.saturating_sub(reported) >= PAUSE
}

impl<'a, R: Clock> Meter<'a, R> {
    /// A run that begins now. Nothing is reported of it where it isn't shown, or there is no clock.
    pub fn new(rt: &'a R, is_shown: bool, steps: &'static str) -> Meter<'a, R> {
        let start = if is_shown {
            Instant::now(rt).ok()
        } else {
            None
        };
        Meter {
            rt,
            steps,
            start,
            count: AtomicU64::new(0),
            reported: AtomicU64::new(0),
        }
    }
}

impl<R: Clock + Eprint> Meter<'_, R> {
    /// Counts a further step.
    pub fn step(&self) {
        let Some(start) = self.start else {
            return;
        };
        let count = self.count.fetch_add(1, Ordering::SeqCst);
        if count % STRIDE == 0 {
            self.look(start, count);
        }
    }

    /// Reports how many steps were made, where it didn't a short while ago.
    fn look(&self, start: Instant, count: u64) {
        let Ok(passed) = start.elapsed(self.rt) else {
            return;
        };
        let now = u64::try_from(passed.as_millis()).unwrap_or(u64::MAX);
        let reported = self.reported.load(Ordering::SeqCst);
        if !is_due(reported, now) {
            return;
        }
        let taken = self
            .reported
            .compare_exchange(reported, now, Ordering::SeqCst, Ordering::SeqCst);
        if taken.is_ok() {
            let steps = self.steps;
            let _ = eprintln!(self.rt; "uxrun: {count} {steps}");
        }
    }
}
