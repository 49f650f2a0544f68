//! How far a long run is reported to be, and how often.

use std::fmt::Display;
use std::io;
use std::process::Abort;
use std::rt::Clock;
use std::sync::atomic::{AtomicU64, Ordering};
use std::test::Fail;
use std::time::Duration;
use ux_command::Meter;

/// A clock that is put forward by hand, and a standard error whose lines are counted.
#[derive(Drop)]
struct Hand {
    now: AtomicU64,
    reported: AtomicU64,
}

impl Clock for Hand {
    fn monotonic(&self) -> io::Result<Duration> {
        Ok(Duration::from_millis(self.now.load(Ordering::SeqCst)))
    }

    fn since_1970(&self) -> io::Result<Duration> {
        self.monotonic()
    }
}

impl Eprint for Hand {
    fn eprint<D: Display + Drop>(&self, _value: D) -> io::Result<()> {
        Ok(())
    }

    fn eprintln<D: Display + Drop>(&self, _value: D) -> io::Result<()> {
        self.reported.fetch_add(1, Ordering::SeqCst);
        Ok(())
    }
}

/// The time after the beginning, and how many lines were reported by then: one a second at most.
const REPORTED: &[(u64, u64)] = &[
    (0, 0),
    (999, 0),
    (1000, 1),
    (1999, 1),
    (2500, 2),
    (3499, 2),
    (3500, 3),
    (60000, 4),
];

/// Makes many steps at each time.
fn expect(rt: &impl Abort, is_shown: bool) {
    let hand = Hand {
        now: AtomicU64::new(7),
        reported: AtomicU64::new(0),
    };
    let meter = Meter::new(&hand, is_shown, "calls");
    for (time, reported) in REPORTED {
        hand.now.store(time.saturating_add(7), Ordering::SeqCst);
        for _ in 0..40 {
            meter.step();
        }
        let wanted = if is_shown { *reported } else { 0 };
        assert_eq!(rt; hand.reported.load(Ordering::SeqCst), wanted, "{time}");
    }
}

#[test]
fn it_is_reported_once_a_second(rt: HostRuntime) -> Result<(), Fail> {
    expect(&rt, true);
    Ok(())
}

#[test]
fn nothing_is_reported_where_it_isnt_shown(rt: HostRuntime) -> Result<(), Fail> {
    expect(&rt, false);
    Ok(())
}
