//! The queue of a stream socket, beside a plain copy of as many bytes.
use crate::measuring::{Batch, nanos};
use anyhow::Result;
use std::alloc::{AllocError, Global};
use std::rt::Clock;
use ux_rights::{Draft, RefList};
use ux_stream::StreamQueue;
use ux_types::{Bytes, Cred, Pid};

/// How often a batch is measured.
const ROUNDS: u32 = 200;

/// The most bytes that a batch moves, which is about the room of a socket.
const ROOM: usize = 262_144;

/// The most calls of a batch.
const CALLS: usize = 64;

/// What each byte is.
const BYTE: u8 = 0x5a;

/// The sender.
const CRED: Cred = Cred {
    pid: Pid(1),
    uid: 1000,
    gid: 1000,
};

/// What is measured.
#[derive(Clone, Copy, Drop)]
enum Step {
    Send,
    Take,
    Copy,
}

/// A queue, and a message that is sent and taken.
#[derive(Drop)]
struct Stream {
    alloc: Global,
    queue: StreamQueue,
    message: Bytes,
    /// Where the plain copies go.
    copies: Vec<u8>,
    calls: u32,
    step: Step,
}

/// Sends a message.
fn send(alloc: Global, queue: &mut StreamQueue, message: &Bytes) -> bool {
    if message.is_empty() {
        return false;
    }
    let draft = Draft {
        tag: 1,
        bytes: message,
        cred: CRED,
        uid: 1000,
    };
    match queue.send(draft, ROOM, RefList::new(alloc)) {
        Ok(count) => count == message.len(),
        Err(_) => false,
    }
}

/// Takes so many bytes, as a receive does.
fn take(alloc: Global, queue: &mut StreamQueue, length: usize) -> bool {
    if queue.is_empty() {
        return false;
    }
    let Ok(received) = queue.peek(alloc, length, false) else {
        return false;
    };
    let _ = queue.skip(length, false);
    is_message(received.bytes.as_slice(), length)
}

/// Whether this is a message of that length, by its ends.
fn is_message(bytes: &[u8], length: usize) -> bool {
    bytes.len() == length && bytes.first() == Some(&BYTE) && bytes.last() == Some(&BYTE)
}

/// Takes all messages off.
fn clear(queue: &mut StreamQueue) {
    for _ in 0..CALLS {
        if queue.pop_message().is_none() {
            return;
        }
    }
}

impl Stream {
    /// An empty queue, and a message of this length.
    fn new(alloc: Global, length: usize) -> Result<Stream, AllocError> {
        let calls = (ROOM / length.max(1)).clamp(1, CALLS) as u32;
        Ok(Stream {
            alloc,
            queue: StreamQueue::new(alloc),
            message: Bytes::new(vec![in alloc; BYTE; length]?)?,
            copies: Vec::with_capacity(alloc, ROOM)?,
            calls,
            step: Step::Send,
        })
    }

    /// Sends the message so often as there are calls, and answers how often it went.
    fn send_all(&mut self) -> u32 {
        let mut granted: u32 = 0;
        for _ in 0..self.calls {
            let sent = send(self.alloc, &mut self.queue, &self.message);
            granted = granted.saturating_add(u32::from(sent));
        }
        granted
    }

    /// Takes the message so often as there are calls, and answers how often it came.
    fn take_all(&mut self) -> u32 {
        let length = self.message.len();
        let mut granted: u32 = 0;
        for _ in 0..self.calls {
            let taken = take(self.alloc, &mut self.queue, length);
            granted = granted.saturating_add(u32::from(taken));
        }
        granted
    }

    /// Copies the message so often as there are calls, and answers how often there was room.
    fn copy_all(&mut self) -> u32 {
        let mut granted: u32 = 0;
        for _ in 0..self.calls {
            let copied = self.copies.extend_from_slice(self.message.as_slice());
            granted = granted.saturating_add(u32::from(copied.is_ok()));
        }
        granted
    }
}

impl Batch for Stream {
    fn calls(&self) -> u32 {
        self.calls
    }

    fn prepare(&mut self) -> Result<()> {
        clear(&mut self.queue);
        self.copies.clear();
        if matches!(self.step, Step::Take) {
            let _ = self.send_all();
        }
        Ok(())
    }

    fn run(&mut self) -> u32 {
        match self.step {
            Step::Send => self.send_all(),
            Step::Take => self.take_all(),
            Step::Copy => self.copy_all(),
        }
    }
}

/// The time of a step.
fn measure_step<R: Clock>(rt: &R, stream: &mut Stream, step: Step) -> Result<u128> {
    stream.step = step;
    nanos(rt, ROUNDS, stream)
}

/// Prints the times for messages of this length.
pub(crate) fn measure_stream<R: Clock + Eprint>(
    rt: &R,
    alloc: Global,
    length: usize,
) -> Result<()> {
    let mut stream = Stream::new(alloc, length)?;
    let send = measure_step(rt, &mut stream, Step::Send)?;
    let take = measure_step(rt, &mut stream, Step::Take)?;
    let copy = measure_step(rt, &mut stream, Step::Copy)?;
    eprintln!(rt;
        "stream queue, {length} bytes: send {send} ns, take {take} ns, plain copy {copy} ns"
    )?;
    Ok(())
}
