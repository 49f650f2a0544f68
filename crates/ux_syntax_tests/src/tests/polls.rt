//! Polls of several descriptors: what their calls ask for, what is no such call, and how a trace has their replies.
use super::traces::expect_fifth;
use super::{expect_bad_lines, expect_request};
use std::alloc::Global;
use std::test::*;
use ux_types::{Errno, Fd, POLL_LIMIT, PollFd, PollFds, PollFlags, Reply, Request, Revents};

/// A poll of these descriptors, each with the bits of what is asked for.
fn poll_of(alloc: Global, rows: &[(u32, u8)], waits: bool) -> Result<Request, Fail> {
    let mut fds = Vec::new(alloc);
    for (fd, events) in rows {
        fds.push(PollFd {
            fd: Fd(*fd),
            events: PollFlags(*events),
        })?;
    }
    let fds = PollFds::new(fds);
    Ok(Request::PollMany { fds, waits })
}

#[test]
fn polls_of_several_are_read(rt: HostRuntime) -> Result<(), Fail> {
    let alloc = rt.alloc();
    let poll = poll_of(alloc, &[(3, 1), (4, 3), (5, 0)], true)?;
    expect_request(&rt, alloc, "polls 3:i,4:io,5:- wait", poll)?;
    let poll = poll_of(alloc, &[(4294967295, 7), (0, 1), (0, 1)], false)?;
    expect_request(&rt, alloc, "polls 4294967295:ioh,0:i,0:i now", poll)?;
    let poll = poll_of(alloc, &[], true)?;
    expect_request(&rt, alloc, "polls - wait", poll)
}

/// What may be asked for, as it is written, and its bits.
const EVENTS: &[(&str, u8)] = &[
    ("-", 0),
    ("i", 1),
    ("o", 2),
    ("io", 3),
    ("h", 4),
    ("ih", 5),
    ("oh", 6),
    ("ioh", 7),
];

#[test]
fn what_is_asked_for_is_read(rt: HostRuntime) -> Result<(), Fail> {
    let alloc = rt.alloc();
    for (text, bits) in EVENTS {
        let call = format!(in alloc; "polls 3:{text} now")?;
        let poll = poll_of(alloc, &[(3, *bits)], false)?;
        expect_request(&rt, alloc, &call, poll)?;
    }
    Ok(())
}

/// Polls of several descriptors that are bad lines.
const BAD_CALLS: &[&str] = &[
    "polls",
    "polls 3:i",
    "polls wait",
    "polls wait 3:i",
    "polls 3 wait",
    "polls 3: wait",
    "polls :i wait",
    "polls i wait",
    "polls 3:x wait",
    "polls 3:I wait",
    "polls 3:oi wait",
    "polls 3:hi wait",
    "polls 3:ii wait",
    "polls 3:i- wait",
    "polls 3:-i wait",
    "polls 3:IN wait",
    "polls 3:1 wait",
    "polls 3:i:o wait",
    "polls 03:i wait",
    "polls -1:i wait",
    "polls 4294967296:i wait",
    "polls 3:i, wait",
    "polls ,3:i wait",
    "polls 3:i,,4:i wait",
    "polls 3:i;4:i wait",
    "polls 3:i 4:i wait",
    "polls -,3:i wait",
    "polls 3:i,- wait",
    "polls -- wait",
    "polls 3:i -",
    "polls 3:i 0",
    "polls 3:i -1",
    "polls 3:i Wait",
    "polls 3:i waits",
    "polls 3:i wait now",
    "poll 3:i",
    "poll 3:i wait",
    "Polls 3:i wait",
];

#[test]
fn bad_polls_of_several_are_reported(rt: HostRuntime) -> Result<(), Fail> {
    expect_bad_lines(&rt, rt.alloc(), "1 ", BAD_CALLS, "")
}

/// The conditions with these bits, in order, 64 sets at most.
fn found(bits: &[u8]) -> Reply {
    let mut sets = Revents::new();
    for bits in bits {
        if sets.as_slice().len() < POLL_LIMIT {
            sets.push(PollFlags(*bits));
        }
    }
    Reply::Polled(sets)
}

/// Bits of conditions of each descriptor, and how a trace has them. The last two bits have no name.
const CONDITIONS: &[(&[u8], &str)] = &[
    (&[], ""),
    (&[0], " -"),
    (&[3, 0, 32], " IN|OUT - NVAL"),
    (&[63, 8], " IN|OUT|RDHUP|HUP|ERR|NVAL HUP"),
    (&[0, 64, 128, 16], " - - - ERR"),
];

#[test]
fn conditions_of_several_are_printed(rt: HostRuntime) -> Result<(), Fail> {
    let alloc = rt.alloc();
    for (bits, names) in CONDITIONS {
        let line = format!(in alloc; "5 1 7 polls = polled{names}\n")?;
        expect_fifth(&rt, alloc, "polls 3:i wait", found(bits), &line)?;
    }
    let refusal = Reply::Err(Errno::EAGAIN);
    expect_fifth(
        &rt,
        alloc,
        "polls - wait",
        refusal,
        "5 1 7 polls = err EAGAIN\n",
    )
}
