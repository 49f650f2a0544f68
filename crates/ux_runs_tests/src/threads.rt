//! Scripts that threads run: two that wait for one another, and eight that make calls of all kinds.
use crate::beside::kernel_of;
use std::alloc::Global;
use std::process::Abort;
use std::sync::Wait;
use std::sync::atomic::{AtomicU64, Ordering};
use std::test::Fail;
use std::thread;
use std::thread::Threads;
use ux_replay::check_history;
use ux_syntax::{Script, parse_script};
use ux_threads::{Gate, NoGate, run_threads};
use ux_types::{Entry, Pid};

mod forking;
mod memory;
mod stress;

/// How often a thread looks for what another is to do, before it gives up.
const PATIENCE: u32 = 1_000_000;

/// The history of a script that threads ran, and its trace.
fn history_of<R: Threads + Wait + Sync, G: Gate>(
    rt: &R,
    alloc: Global,
    script: &Script,
    trace: &mut Vec<u8>,
    gate: &G,
) -> Result<Vec<Entry>, Fail> {
    let kernel = kernel_of(alloc, script)?;
    match run_threads(rt, alloc, script, trace, kernel, gate) {
        Ok(entries) => Ok(entries),
        Err(_) => Err(Fail::from("a fault")),
    }
}

/// Sees that a history can be made once more, and how long it is.
fn repeat(
    rt: &impl Abort,
    alloc: Global,
    script: &Script,
    entries: &[Entry],
    count: u64,
) -> Result<(), Fail> {
    let kernel = kernel_of(alloc, script)?;
    assert_eq!(rt; check_history(alloc, entries, kernel), Ok(count));
    Ok(())
}

/// Each process waits by a poll for what the other writes to a counter.
const SEMAPHORES: &str = "object p:a counter
object p:b counter
proc 1000 1000 0 16
proc 1000 1000 0 16
1 open p:a rw -
2 open p:a rw -
1 open p:b rw -
2 open p:b rw -
1 polls 0:i,1:- wait
1 read 0 8
2 write 0 0500000000000000
2 polls 1:i wait
2 read 1 8
1 write 1 0700000000000000
off
";

/// How often a run is made in which threads wait, but never all of them.
const RUNS: u32 = 1000;

#[test]
fn two_threads_wait_for_one_another(rt: HostRuntime) -> Result<(), Fail> {
    let alloc = rt.alloc();
    let script = parse_script(alloc, SEMAPHORES.as_bytes())?;
    for _run in 0..RUNS {
        let mut trace = Vec::new(alloc);
        let entries = history_of(&rt, alloc, &script, &mut trace, &NoGate)?;
        repeat(&rt, alloc, &script, &entries, 13)?;
    }
    Ok(())
}

/// Scripts that come to where every process waits: what is reported then, and the trace up to there.
const DEADLOCKS: [(&str, &str, &str); 5] = [
    (
        "object p:a counter
proc 1000 1000 0 16
1 open p:a rw -
1 read 0 8
1 close 0
",
        "deadlock: process 1 waits in line 4",
        "0 1 0 open = fd 0\n",
    ),
    (
        "proc 1000 1000 0 16
1 pair stream -
1 polls 0:i,1:i now
1 polls 0:i,1:i wait
1 close 0
",
        "deadlock: process 1 waits in line 4",
        "0 1 0 pair = fds 0 1\n1 1 1 polls = polled - -\n",
    ),
    (
        "object p:a counter
proc 1000 1000 0 16
proc 1000 1000 0 16
1 open p:a rw -
2 wait 1 1
2 open p:a rw -
1 read 0 8
2 read 0 8
off
",
        "deadlock: process 1 waits in line 7, process 2 waits in line 8",
        "0 1 0 open = fd 0\n1 2 0 open = fd 0\n",
    ),
    (
        "object p:a counter
proc 1000 1000 0 16
proc 1000 1000 0 16
proc 1000 1000 0 16
1 wait 3 1
3 exit
2 wait 3 1
2 wait 1 2
1 open p:a rw -
1 read 0 8
",
        "deadlock: process 1 waits in line 10, process 2 waits in line 8",
        "0 3 0 exit = ok\n1 1 0 open = fd 0\n",
    ),
    (
        "proc 1000 1000 0 16
proc 1000 1000 0 16
1 wait 2 1
2 wait 1 1
",
        "deadlock: process 1 waits in line 3, process 2 waits in line 4",
        "",
    ),
];

/// Sees that a run by threads ends where every process waits, and has written the trace up to there.
fn expect_deadlock<R: Threads + Wait + Abort + Sync>(
    rt: &R,
    alloc: Global,
    script: &str,
    text: &str,
    trace: &str,
) -> Result<(), Fail> {
    let script = parse_script(alloc, script.as_bytes())?;
    let kernel = kernel_of(alloc, &script)?;
    let mut written = Vec::new(alloc);
    let reported = match run_threads(rt, alloc, &script, &mut written, kernel, &NoGate) {
        Ok(_entries) => String::new(alloc),
        Err(fault) => format!(in alloc; "{fault}")?,
    };
    assert!(rt; reported.as_str() == text && written.as_slice() == trace.as_bytes());
    Ok(())
}

#[test]
fn a_run_ends_where_every_process_waits(rt: HostRuntime) -> Result<(), Fail> {
    for row in DEADLOCKS.as_slice() {
        for _run in 0..RUNS {
            expect_deadlock(&rt, rt.alloc(), row.0, row.1, row.2)?;
        }
    }
    Ok(())
}

/// A server and its client, which wait for one another so that there is one order.
const SERVER: &str = "proc 1000 1000 0 16
proc 1000 1000 0 16
2 socket stream -
2 bind 0 a:s
2 listen 0 4
1 wait 2 3
1 socket stream -
1 connect 0 a:s
1 recv 0 8 0 -
2 wait 1 2
2 accept 0 -
2 send 1 - 6869 - -
2 wait 1 3
1 wait 2 6
";

const TRACE_OF_THE_SERVER: &str = "0 2 0 socket = fd 0
1 2 1 bind = ok
2 2 2 listen = ok
3 1 0 socket = fd 0
4 1 1 connect = ok
5 2 3 accept = accepted 1 u
6 2 4 send = n 2
7 1 2 recv = got 2 6869 - - -
8 2 5 exit = ok
9 1 3 exit = ok
";

#[test]
fn lines_that_wait_leave_one_order(rt: HostRuntime) -> Result<(), Fail> {
    let alloc = rt.alloc();
    let script = parse_script(alloc, SERVER.as_bytes())?;
    for _run in 0..RUNS {
        let mut trace = Vec::new(alloc);
        let entries = history_of(&rt, alloc, &script, &mut trace, &NoGate)?;
        assert!(rt; trace.as_slice() == TRACE_OF_THE_SERVER.as_bytes());
        repeat(&rt, alloc, &script, &entries, 10)?;
    }
    Ok(())
}

/// A process that makes a pair and then a child, which sends to it over both ends that it has too.
const CHILD: &str = "proc 1000 1000 0 16
1 pair stream -
1 fork
2 send 1 - 6869 - -
2 wait 1 3
1 recv 0 8 0 -
1 wait 2 2
";

const TRACE_OF_THE_CHILD: &str = "0 1 0 pair = fds 0 1
1 1 1 fork = child 2
2 2 0 send = n 2
3 1 2 recv = got 2 6869 - - -
4 2 1 exit = ok
5 1 3 exit = ok
";

#[test]
fn a_child_goes_on_in_a_thread_of_its_own(rt: HostRuntime) -> Result<(), Fail> {
    let alloc = rt.alloc();
    let script = parse_script(alloc, CHILD.as_bytes())?;
    for _run in 0..RUNS {
        let mut trace = Vec::new(alloc);
        let entries = history_of(&rt, alloc, &script, &mut trace, &NoGate)?;
        assert!(rt; trace.as_slice() == TRACE_OF_THE_CHILD.as_bytes());
        repeat(&rt, alloc, &script, &entries, 6)?;
    }
    Ok(())
}

/// A client whose second byte finds no room, until the server raises the limit of its end's queue; then the limit is
/// lowered, and the client's send is refused.
const LIMITS: &str = "proc 1000 1000 0 16
proc 1000 1000 0 16
1 socket stream -
1 bind 0 a:s
1 listen 0 1
2 wait 1 3
2 socket stream -
2 connect 0 a:s
1 accept 0 -
1 setopt 1 qlimit 1
2 wait 1 5
2 send 0 - 6162 - -
1 wait 2 3
2 send 0 - 6263 - -
1 setopt 1 qlimit 2
1 wait 2 4
1 setopt 1 qlimit 1
2 wait 1 7
2 send 0 - 63 - d
2 poll 0
1 wait 2 6
1 recv 1 8 0 -
2 wait 1 8
2 send 0 - 63 - d
1 wait 2 7
1 exit
2 wait 1 9
2 recv 0 8 0 -
";

const TRACE_OF_LIMITS: &str = "0 1 0 socket = fd 0
1 1 1 bind = ok
2 1 2 listen = ok
3 2 0 socket = fd 0
4 2 1 connect = ok
5 1 3 accept = accepted 1 u
6 1 4 setopt = ok
7 2 2 send = n 1
8 1 5 setopt = ok
9 2 3 send = n 1
10 1 6 setopt = ok
11 2 4 send = err EAGAIN
12 2 5 poll = poll -
13 1 7 recv = got 2 6162 - - -
14 2 6 send = n 1
15 1 8 exit = ok
16 2 7 recv = err ECONNRESET
17 2 8 exit = ok
";

#[test]
fn a_raised_limit_wakes_who_waits_to_send(rt: HostRuntime) -> Result<(), Fail> {
    let alloc = rt.alloc();
    let script = parse_script(alloc, LIMITS.as_bytes())?;
    for _run in 0..RUNS {
        let mut trace = Vec::new(alloc);
        let entries = history_of(&rt, alloc, &script, &mut trace, &NoGate)?;
        assert!(rt; trace.as_slice() == TRACE_OF_LIMITS.as_bytes());
        repeat(&rt, alloc, &script, &entries, 18)?;
    }
    Ok(())
}

/// Two calls of each process, none of which waits.
const SOCKETS: &str = "proc 1000 1000 0 16
proc 1000 1000 0 16
1 socket dgram -
1 socket dgram -
2 socket dgram -
2 socket dgram -
";

/// Lets a process into each of its first two calls when the other is about to make its own.
#[derive(Drop)]
struct Meeting {
    first: AtomicU64,
    second: AtomicU64,
    missed: AtomicU64,
}

impl Meeting {
    /// Tells that a process came here, and waits for the other.
    fn meet(&self, came: &AtomicU64) {
        came.fetch_add(1, Ordering::SeqCst);
        if !comes_to(came, 2) {
            self.missed.fetch_add(1, Ordering::SeqCst);
        }
    }
}

impl Gate for Meeting {
    fn before(&self, _pid: Pid, k: u64) {
        match k {
            0 => self.meet(&self.first),
            1 => self.meet(&self.second),
            _ => {}
        }
    }

    fn after(&self, _pid: Pid, _k: u64) {}
}

/// Whether a count comes so far.
fn comes_to(count: &AtomicU64, number: u64) -> bool {
    for _n in 0..PATIENCE {
        if count.load(Ordering::SeqCst) >= number {
            return true;
        }
        thread::yield_now();
    }
    false
}

#[test]
fn both_threads_are_there_at_once(rt: HostRuntime) -> Result<(), Fail> {
    let alloc = rt.alloc();
    let script = parse_script(alloc, SOCKETS.as_bytes())?;
    let gate = Meeting {
        first: AtomicU64::new(0),
        second: AtomicU64::new(0),
        missed: AtomicU64::new(0),
    };
    let mut trace = Vec::new(alloc);
    let entries = history_of(&rt, alloc, &script, &mut trace, &gate)?;
    drop(entries);
    assert_eq!(rt; gate.first.load(Ordering::SeqCst), 2);
    assert_eq!(rt; gate.second.load(Ordering::SeqCst), 2);
    assert_eq!(rt; gate.missed.load(Ordering::SeqCst), 0);
    Ok(())
}
