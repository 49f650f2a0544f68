//! Runs by threads in which no memory is left from some call on.
use crate::beside::kernel_of;
use hoard::Hoard;
use std::alloc::{AllocError, Global};
use std::process::Abort;
use std::sync::atomic::{AtomicU64, Ordering};
use std::sync::{Mutex, Wait};
use std::test::Fail;
use std::thread::Threads;
use ux_syntax::{ScriptFault, parse_script};
use ux_threads::{Gate, run_threads};
use ux_types::Pid;

/// How many calls process 1 makes. Their history takes more than a block that a thread may have kept for itself.
const CALLS: u64 = 100;

/// Process 1 makes its calls once the other is there, and each needs memory: room for a copy of its reply. Process 2 waits
/// until the first has exited, and goes on.
fn script_text(alloc: Global) -> Result<Vec<u8>, AllocError> {
    let mut text = Vec::from_slice(alloc, b"proc 1000 1000 0 16\nproc 1000 1000 0 16\n")?;
    text.extend_from_slice(b"2 socket dgram -\n1 wait 2 1\n")?;
    for _call in 0..CALLS {
        text.extend_from_slice(b"1 recv 0 8 0 -\n")?;
    }
    text.extend_from_slice(b"2 wait 1 999\n2 send 0 - 6869 - -\noff\n")?;
    Ok(text)
}

/// Process 1 forks once the other is there. Process 2 waits for the child, and goes on.
const FORK: &str = "proc 1000 1000 0 16
proc 1000 1000 0 16
2 socket dgram -
1 wait 2 1
1 fork
2 wait 3 999
2 send 0 - 6869 - -
off
";

/// Takes all memory before this call of process 1, and before the exit of process 2 what its thread has kept for
/// itself, and gives nothing back. It counts the calls and exits of both.
#[derive(Drop)]
struct Thief<'a, R: Wait> {
    rt: &'a R,
    alloc: Global,
    from: u64,
    taken: [Mutex<Option<Hoard>>; 2],
    came: AtomicU64,
}

impl<R: Wait> Thief<'_, R> {
    /// Takes all memory that this thread can have, once.
    fn take(&self, place: &Mutex<Option<Hoard>>) {
        let mut taken = place.lock(self.rt);
        if taken.is_none() {
            *taken = Hoard::take_all(self.alloc).ok();
        }
    }
}

impl<R: Wait + Sync> Gate for Thief<'_, R> {
    fn before(&self, pid: Pid, k: u64) {
        self.came.fetch_add(1, Ordering::SeqCst);
        let [first, second] = &self.taken;
        if pid == Pid(1) && k == self.from {
            self.take(first);
        } else if pid == Pid(2) && k == 2 {
            self.take(second);
        }
    }

    fn after(&self, _pid: Pid, _k: u64) {}
}

/// Sees that a run of this script is refused memory from this call of process 1 on and writes nothing, and that so
/// many calls and exits come.
fn expect_refusal<R: Threads + Wait + Abort + Sync>(
    rt: &R,
    alloc: Global,
    text: &[u8],
    from: u64,
    came: u64,
) -> Result<(), Fail> {
    let script = parse_script(alloc, text)?;
    let kernel = kernel_of(alloc, &script)?;
    let thief = Thief {
        rt,
        alloc,
        from,
        taken: [Mutex::new(None), Mutex::new(None)],
        came: AtomicU64::new(0),
    };
    let mut written: Vec<u8> = Vec::new(alloc);
    let reported = run_threads(rt, alloc, &script, &mut written, kernel, &thief);
    let seen = thief.came.load(Ordering::SeqCst);
    drop(thief);
    assert!(rt; matches!(reported, Err(ScriptFault::NoMemory)));
    assert!(rt; written.is_empty());
    assert_eq!(rt; seen, came);
    Ok(())
}

#[test]
fn a_worker_without_memory_exits_and_the_run_reports_it(rt: HostRuntime) -> Result<(), Fail> {
    let text = script_text(rt.alloc())?;
    // The first makes no call after the one that was refused, but exits; so the second, which waits for that,
    // makes its two calls and exits, too.
    expect_refusal(&rt, rt.alloc(), &text, 0, 5)?;
    expect_refusal(&rt, rt.alloc(), &text, 1, 6)?;
    // It makes all its calls, and there is none for the history's copy.
    expect_refusal(&rt, rt.alloc(), &text, CALLS, 104)
}

#[test]
fn a_fork_without_memory_ends_the_run(rt: HostRuntime) -> Result<(), Fail> {
    // The first exits, so the second doesn't wait for a child that was never made: it sends, and exits, too.
    expect_refusal(&rt, rt.alloc(), FORK.as_bytes(), 0, 5)
}
