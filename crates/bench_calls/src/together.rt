//! Two threads that pass one byte to and fro over a connection, each of which waits for the other.
use crate::rows::{Requests, Row};
use crate::seats::{Way, Worker};
use anyhow::{Result, anyhow};
use std::alloc::Global;
use std::rt::Clock;
use std::sync::Wait;
use std::thread;
use std::thread::Threads;
use std::time::{Duration, Instant};
use ux_book::BookName;
use ux_layer::{Layer, Seat};
use ux_objects::Plain;
use ux_types::{Pid, SockType};

/// The process that listens.
const SERVER: Pid = Pid(1);

/// A connection to the other thread, at number 1.
const ACCEPTED: &[Row] = &[
    Row::Socket(SockType::Stream),
    Row::Bind(0, b"listener"),
    Row::Listen(0, 1),
    Row::Accept(0),
];

/// One at number 0.
const CONNECTED: &[Row] = &[Row::Socket(SockType::Stream), Row::Connect(0, b"listener")];

/// How long the turns of two seats take.
pub(crate) fn time_in_turns<W: BookName + Send + Sync, R: Threads + Wait + Clock + Sync>(
    rt: &R,
    alloc: Global,
    layer: &Layer<W, Plain>,
    mut seats: Vec<Seat<W, Plain>>,
) -> Result<Duration> {
    let (Some(second), Some(first)) = (seats.pop(), seats.pop()) else {
        return Err(anyhow!("a process is missing"));
    };
    let (served, asked) = thread::join(
        rt,
        move || serve(rt, alloc, first),
        move || ask(rt, alloc, layer, second),
    );
    served?;
    asked
}

/// Listens for the other, and answers each byte by one.
fn serve<W: BookName, R: Wait>(rt: &R, alloc: Global, seat: Seat<W, Plain>) -> Result<()> {
    let mut worker = Worker::new(seat, Way::Blocking);
    worker.call_rows(rt, alloc, ACCEPTED)?;
    let calls = Requests::of(alloc, &[Row::Receive(1, 1), Row::Send(1, 1)])?;
    worker.repeat(rt, &calls)
}

/// Connects, and measures how long it takes until each byte was answered.
fn ask<W: BookName, R: Wait + Clock>(
    rt: &R,
    alloc: Global,
    layer: &Layer<W, Plain>,
    seat: Seat<W, Plain>,
) -> Result<Duration> {
    let mut worker = Worker::new(seat, Way::Blocking);
    // The other listens.
    layer.wait_for(rt, SERVER, 3);
    worker.call_rows(rt, alloc, CONNECTED)?;
    let calls = Requests::of(alloc, &[Row::Send(0, 1), Row::Receive(0, 1)])?;
    let start = Instant::now(rt)?;
    worker.repeat(rt, &calls)?;
    Ok(start.elapsed(rt)?)
}
