//! What is measured: a few calls that leave the layer as it was.
use crate::layers::{CALLER, Layer, make_rows};
use crate::rows::{PAIR, PAIR_AND_CLOSES, Requests, Row};
use anyhow::{Result, anyhow};
use std::alloc::Global;
use std::rt::Clock;
use std::time::{Duration, Instant};
use ux_types::{Request, SockType};

/// How often the calls are made in one batch.
const TURNS: u32 = 16;

/// How often a batch is measured.
const ROUNDS: u32 = 40;

/// Calls that are measured together.
struct Calls {
    /// Made before a batch, and not measured.
    before: &'static [Row<'static>],
    /// Made in turn.
    measured: &'static [Row<'static>],
    /// Made after a batch, and not measured.
    after: &'static [Row<'static>],
}

/// Two datagram sockets at the numbers 1 and 2, each associated with the other.
const DATAGRAM_PAIR: &[Row] = &[Row::Pair(SockType::Dgram)];

/// Two of which the first has a name.
const NAMED: &[Row] = &[
    Row::Socket(SockType::Dgram),
    Row::Bind(1, b"target"),
    Row::Socket(SockType::Dgram),
];

/// The closes of what is there.
const CLOSES: &[Row] = &[Row::Close(1), Row::Close(2)];

/// A listener at number 1.
const LISTENER: &[Row] = &[
    Row::Socket(SockType::Stream),
    Row::Bind(1, b"listener"),
    Row::Listen(1, 4),
];

/// A socket that connects to it, the accept of its connection, and the closes of both ends.
const CONNECTION: &Calls = &Calls {
    before: LISTENER,
    measured: &[
        Row::Socket(SockType::Stream),
        Row::Connect(2, b"listener"),
        Row::Accept(1),
        Row::Close(3),
        Row::Close(2),
    ],
    after: &[Row::Close(1)],
};

/// What is measured on each layer.
const ALL: &[(&str, &Calls)] = &[
    (
        "send and receive, 1 byte",
        &Calls {
            before: PAIR,
            measured: &[Row::Send(1, 1), Row::Receive(2, 1)],
            after: CLOSES,
        },
    ),
    (
        "send and receive, 64 bytes",
        &Calls {
            before: PAIR,
            measured: &[Row::Send(1, 64), Row::Receive(2, 64)],
            after: CLOSES,
        },
    ),
    (
        "send and receive, 4,096 bytes",
        &Calls {
            before: PAIR,
            measured: &[Row::Send(1, 4096), Row::Receive(2, 4096)],
            after: CLOSES,
        },
    ),
    (
        "send and receive, 65,536 bytes",
        &Calls {
            before: PAIR,
            measured: &[Row::Send(1, 65_536), Row::Receive(2, 65_536)],
            after: CLOSES,
        },
    ),
    (
        "send and receive of 1 right, and its close",
        &Calls {
            before: PAIR,
            measured: &[Row::Pass(1, 1), Row::Take(2), Row::Close(3)],
            after: CLOSES,
        },
    ),
    (
        "send and receive of 253 rights, and their closes",
        &Calls {
            before: PAIR,
            measured: &[Row::Pass(1, 253), Row::Take(2), Row::CloseMany(3, 253)],
            after: CLOSES,
        },
    ),
    (
        "pair and two closes",
        &Calls {
            before: &[],
            measured: PAIR_AND_CLOSES,
            after: &[],
        },
    ),
    ("socket, connect, accept, two closes", CONNECTION),
    (
        "datagram of 64 bytes on a pair",
        &Calls {
            before: DATAGRAM_PAIR,
            measured: &[Row::Send(2, 64), Row::Receive(1, 64)],
            after: CLOSES,
        },
    ),
    (
        "datagram of 65,536 bytes on a pair",
        &Calls {
            before: DATAGRAM_PAIR,
            measured: &[Row::Send(2, 65_536), Row::Receive(1, 65_536)],
            after: CLOSES,
        },
    ),
    (
        "datagram of 64 bytes by an address",
        &Calls {
            before: NAMED,
            measured: &[Row::SendTo(2, b"target", 64), Row::Receive(1, 64)],
            after: CLOSES,
        },
    ),
    (
        "open and close",
        &Calls {
            before: &[],
            measured: &[Row::Open, Row::Close(1)],
            after: &[],
        },
    ),
    (
        "dup and close",
        &Calls {
            before: &[],
            measured: &[Row::Dup(0), Row::Close(1)],
            after: &[],
        },
    ),
    (
        "write, 1 byte",
        &Calls {
            before: &[Row::Rewind(0)],
            measured: &[Row::Write(0, 1)],
            after: &[],
        },
    ),
    (
        "read, 1 byte",
        &Calls {
            before: &[Row::Rewind(0)],
            measured: &[Row::Read(0, 1)],
            after: &[],
        },
    ),
    (
        "poll of a file",
        &Calls {
            before: &[],
            measured: &[Row::Poll(0)],
            after: &[],
        },
    ),
    (
        "pipe, 4,096 bytes",
        &Calls {
            before: &[Row::OpenPipe],
            measured: &[Row::Write(1, 4096), Row::Read(1, 4096)],
            after: &[Row::Close(1)],
        },
    ),
];

/// Makes these calls, and answers how many were granted.
fn count_granted<L: Layer>(layer: &mut L, requests: &[Request]) -> usize {
    let mut granted: usize = 0;
    for request in requests {
        if layer.ask(CALLER, request) {
            granted = granted.saturating_add(1);
        }
    }
    granted
}

/// Makes these calls in turn, and answers how many were granted.
fn repeat<L: Layer>(layer: &mut L, requests: &[Request]) -> usize {
    let mut granted: usize = 0;
    for _ in 0..TURNS {
        granted = granted.saturating_add(count_granted(layer, requests));
    }
    granted
}

/// The time of one batch.
fn time_of<R: Clock, L: Layer>(
    rt: &R,
    alloc: Global,
    layer: &mut L,
    calls: &Calls,
    measured: &[Request],
) -> Result<Duration> {
    make_rows(alloc, layer, CALLER, calls.before)?;
    let start = Instant::now(rt)?;
    let granted = repeat(layer, measured);
    let time = start.elapsed(rt)?;
    make_rows(alloc, layer, CALLER, calls.after)?;
    if granted != measured.len().saturating_mul(TURNS as usize) {
        return Err(anyhow!("only {granted} calls were granted"));
    }
    Ok(time)
}

/// The time of the calls in nanoseconds, all together, in the quickest of some rounds.
fn nanos<R: Clock, L: Layer>(rt: &R, alloc: Global, layer: &mut L, calls: &Calls) -> Result<u128> {
    let measured = Requests::of(alloc, calls.measured)?;
    let mut quickest = Duration::MAX;
    for _ in 0..ROUNDS {
        quickest = quickest.min(time_of(rt, alloc, layer, calls, measured.as_slice())?);
    }
    Ok(quickest.as_nanos() / u128::from(TURNS))
}

/// Prints the time of these calls.
fn print_time<R: Clock + Eprint, L: Layer>(
    rt: &R,
    alloc: Global,
    what: &str,
    layer: &mut L,
    name: &str,
    calls: &Calls,
) -> Result<()> {
    let time = nanos(rt, alloc, layer, calls)?;
    eprintln!(rt; "{what}: {name}: {time} ns")?;
    Ok(())
}

/// Prints the names of all kinds of calls.
pub(crate) fn print_names(rt: &impl Print) -> Result<()> {
    for (name, _) in ALL {
        println!(rt; "{name}")?;
    }
    Ok(())
}

/// Makes the calls of this name so many times over: what they cost is counted from beside the program.
pub(crate) fn make_turns<L: Layer>(
    alloc: Global,
    layer: &mut L,
    name: &str,
    turns: u32,
) -> Result<()> {
    let Some((_, calls)) = ALL.iter().find(|(known, _)| *known == name) else {
        return Err(anyhow!("no calls are named {name}"));
    };
    let measured = Requests::of(alloc, calls.measured)?;
    let requests = measured.as_slice();
    make_rows(alloc, layer, CALLER, calls.before)?;
    for _ in 0..turns {
        if count_granted(layer, requests) != requests.len() {
            return Err(anyhow!("a call wasn't granted"));
        }
    }
    Ok(())
}

/// Prints the time of each kind of call on a layer.
pub(crate) fn measure<R: Clock + Eprint, L: Layer>(
    rt: &R,
    alloc: Global,
    what: &str,
    layer: &mut L,
) -> Result<()> {
    for (name, calls) in ALL {
        print_time(rt, alloc, what, layer, name, calls)?;
    }
    Ok(())
}

/// Prints the time of a connection alone.
pub(crate) fn measure_connection<R: Clock + Eprint, L: Layer>(
    rt: &R,
    alloc: Global,
    what: &str,
    layer: &mut L,
    name: &str,
) -> Result<()> {
    print_time(rt, alloc, what, layer, name, CONNECTION)
}
