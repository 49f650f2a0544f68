//! The queue of a datagram or record socket.
use crate::measuring::{Batch, nanos};
use anyhow::Result;
use std::alloc::{AllocError, Global};
use std::rt::Clock;
use ux_record::RecordQueue;
use ux_rights::{Draft, RefList};
use ux_types::{Bytes, Cred, Pid};

/// How often a batch is measured.
const ROUNDS: u32 = 200;

/// As many messages as a queue takes.
const CALLS: u32 = 16;

/// What each byte is.
const BYTE: u8 = 0x5a;

/// The sender.
const CRED: Cred = Cred {
    pid: Pid(1),
    uid: 1000,
    gid: 1000,
};

/// What is measured.
#[derive(Clone, Copy, Drop)]
enum Step {
    Send,
    Take,
}

/// A queue, and a message that is sent and taken.
#[derive(Drop)]
struct Records {
    alloc: Global,
    queue: RecordQueue,
    message: Bytes,
    step: Step,
}

/// Sends a message.
fn send(alloc: Global, queue: &mut RecordQueue, message: &Bytes) -> bool {
    let draft = Draft {
        tag: 1,
        bytes: message,
        cred: CRED,
        uid: 1000,
    };
    queue.send(draft, RefList::new(alloc), None).is_ok()
}

/// Takes a message of this length, as a receive does.
fn take(queue: &mut RecordQueue, length: usize) -> bool {
    if queue.is_empty() {
        return false;
    }
    let Ok(received) = queue.peek(length) else {
        return false;
    };
    queue.pop_message().is_some()
        && received.whole == length
        && received.bytes.as_slice().last() == Some(&BYTE)
}

/// Takes all messages off.
fn clear(queue: &mut RecordQueue) {
    for _ in 0..CALLS {
        let _ = queue.pop_message();
    }
}

impl Records {
    /// An empty queue, and a message of this length.
    fn new(alloc: Global, length: usize) -> Result<Records, AllocError> {
        Ok(Records {
            alloc,
            queue: RecordQueue::new(alloc),
            message: Bytes::new(vec![in alloc; BYTE; length]?)?,
            step: Step::Send,
        })
    }

    /// Fills the queue, and answers how many messages it took.
    fn send_all(&mut self) -> u32 {
        let mut granted: u32 = 0;
        for _ in 0..CALLS {
            let sent = send(self.alloc, &mut self.queue, &self.message);
            granted = granted.saturating_add(u32::from(sent));
        }
        granted
    }

    /// Takes every message, and answers how many came.
    fn take_all(&mut self) -> u32 {
        let length = self.message.len();
        let mut granted: u32 = 0;
        for _ in 0..CALLS {
            let taken = take(&mut self.queue, length);
            granted = granted.saturating_add(u32::from(taken));
        }
        granted
    }
}

impl Batch for Records {
    fn calls(&self) -> u32 {
        CALLS
    }

    fn prepare(&mut self) -> Result<()> {
        clear(&mut self.queue);
        if matches!(self.step, Step::Take) {
            let _ = self.send_all();
        }
        Ok(())
    }

    fn run(&mut self) -> u32 {
        match self.step {
            Step::Send => self.send_all(),
            Step::Take => self.take_all(),
        }
    }
}

/// The time of a step.
fn measure_step<R: Clock>(rt: &R, records: &mut Records, step: Step) -> Result<u128> {
    records.step = step;
    nanos(rt, ROUNDS, records)
}

/// Prints the times for messages of this length.
pub(crate) fn measure_records<R: Clock + Eprint>(
    rt: &R,
    alloc: Global,
    length: usize,
) -> Result<()> {
    let mut records = Records::new(alloc, length)?;
    let send = measure_step(rt, &mut records, Step::Send)?;
    let take = measure_step(rt, &mut records, Step::Take)?;
    eprintln!(rt; "record queue, {length} bytes: send {send} ns, take {take} ns")?;
    Ok(())
}
