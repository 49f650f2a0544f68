//! A history against a kernel that has just started.
ghost use Rattle.std.specs.Prelude.{◌≡◌, ◌≤◌, ℕ, length, IfOk, IfErr, OnOk, IsTrue};
ghost use Rattle.ux_model.specs.State.{State};
ghost use Rattle.ux_replay.specs.Again.{is_left_out, IsMadeAgain, IsAgain, AreAgain};
ghost use Rattle.ux_replay.specs.Faults.{entry_at};
ghost use Rattle.ux_kernel.specs.Calling.{IsCaller};

use std::alloc::Global;
use ux_fields::is_same_reply;
use ux_kernel::Kernel;
use ux_object::FileObject;
use ux_state::ReleasedObjects;
use ux_types::{Done, Entry, Errno, Reply, Request};

/// Why the calls of a history weren't all made again.
#[derive(Clone, Copy, Debug, PartialEq, Eq)]
pub enum ReplayFault {
    /// The call of the entry of this number may not be made, has another reply, receives the rights of another
    /// message, or releases other file objects.
    Differs(u64),
    /// Memory ran out at the entry of this number, whose call had enough the first time.
    NoMemory(u64),
}

impl ReplayFault {
    /// The number of the first entry that wasn't made again.
    pub fn entry(self) -> u64
        ensures { result ≡ entry_at self }
    {
        match self {
            ReplayFault::Differs(number) | ReplayFault::NoMemory(number) => number,
        }
    }
}

/// Makes the calls of a history on this kernel, in order, and gives how many entries it has. Calls that were
/// answered EIO or ENOMEM are left out: a read, a write or an allocation that failed once needn't fail again.
///
/// # Errors
///
/// The number of the first entry whose call may not be made, has another reply, receives the rights of another
/// message, or releases other file objects, or at which memory ran out.
pub fn check_history<O: FileObject>(
    alloc: Global,
    history: &[Entry],
    kernel: Kernel<O>,
) -> Result<u64, u64>
    // Each call was made again, with the outcome that its entry has, or is left out.
    ensures again { OnOk result ((end : State) × AreAgain kernel 0 history.now end) }
    ensures all { IfOk result (λ n. n ≡ length history.now) }
    ensures first { IfErr result (λ n. n ≤ length history.now) }
{
    replay(alloc, history, kernel).map_err(|fault| fault.entry())
}

/// Makes the calls of a history as `check_history` does, and reports whether a difference or a lack of memory
/// ended it.
///
/// # Errors
///
/// `Differs` or `NoMemory` at the first entry whose call didn't have the same outcome.
pub fn replay<O: FileObject>(
    alloc: Global,
    history: &[Entry],
    mut kernel: Kernel<O>,
) -> Result<u64, ReplayFault>
    // Each call was made again, with the outcome that its entry has, or is left out.
    ensures again { OnOk result ((end : State) × AreAgain kernel 0 history.now end) }
    ensures all { IfOk result (λ n. n ≡ length history.now) }
    ensures first { IfErr result (λ f. entry_at f ≤ length history.now) }
{
    let found = replay_on(alloc, history, &mut kernel);
    drop(kernel);
    found
}

/// Makes the calls of a history as `replay` does, and leaves the kernel as it is after them.
///
/// # Errors
///
/// `Differs` or `NoMemory` at the first entry whose call didn't have the same outcome.
pub fn replay_on<O: FileObject>(
    alloc: Global,
    history: &[Entry],
    kernel: &mut Kernel<O>,
) -> Result<u64, ReplayFault>
    ensures again { OnOk result (AreAgain kernel.old 0 history.now kernel.new) }
    ensures all { IfOk result (λ n. n ≡ length history.now) }
    ensures first { IfErr result (λ f. entry_at f ≤ length history.now) }
{
    let mut released = ReleasedObjects::new(alloc);
    make_again(kernel, history, &mut released)
}

/// Makes the calls, up to the first with another outcome.
fn make_again<O: FileObject>(
    kernel: &mut Kernel<O>,
    history: &[Entry],
    released: &mut ReleasedObjects<O>,
) -> Result<u64, ReplayFault>
    ensures again { OnOk result (AreAgain kernel.old 0 history.now kernel.new) }
    ensures all { IfOk result (λ n. n ≡ length history.now) }
    ensures first { IfErr result (λ f. entry_at f ≤ length history.now) }
{
    for (index, entry) in history.iter().enumerate() {
        replay_entry(kernel, index as u64, entry, released)?;
    }
    Ok(history.len() as u64)
}

/// Makes the call of the entry with this number on a kernel that made those before it, as `replay` does. What was
/// released before is dropped, and what this call releases is put in its place.
///
/// # Errors
///
/// `Differs` or `NoMemory`, with this number, where the call doesn't have the same outcome.
pub fn replay_entry<O: FileObject>(
    kernel: &mut Kernel<O>,
    number: u64,
    entry: &Entry,
    released: &mut ReleasedObjects<O>,
) -> Result<(), ReplayFault>
    ensures again { OnOk result (IsAgain kernel.old number entry.now kernel.new) }
    ensures number { IfErr result (λ f. entry_at f ≡ number) }
{
    if is_left_out(&entry.reply) {
        return Ok(());
    }
    match repeat(kernel, number, entry, released) {
        Repeated::Same => Ok(()),
        Repeated::Different => Err(ReplayFault::Differs(number)),
        Repeated::NoMemory => Err(ReplayFault::NoMemory(number)),
    }
}

/// The outcome of a call that is made again, compared with its entry.
#[derive(Clone, Copy)]
enum Repeated {
    /// It has the same outcome as the first time.
    Same,
    /// It may not be made, or has another outcome.
    Different,
    /// It lacks memory, which it didn't the first time.
    NoMemory,
}

/// Whether an object failed the call, or memory ran out.
fn is_left_out(reply: &Reply) -> bool
    ensures { result ≡ is_left_out reply.now }
{
    matches!(reply, Reply::Err(Errno::EIO | Errno::ENOMEM))
}

/// Makes an entry's call, and compares its reply, the message whose rights it received, and the file objects that
/// it released.
fn repeat<O: FileObject>(
    kernel: &mut Kernel<O>,
    number: u64,
    entry: &Entry,
    released: &mut ReleasedObjects<O>,
) -> Repeated
    ensures { result ≡ Repeated.Same → IsMadeAgain kernel.old number entry.now kernel.new }
{
    if !may_call(kernel, entry) {
        return Repeated::Different;
    }
    released.clear();
    let (done, numbers) = kernel.step(entry.pid, number, &entry.request, released);
    let compared = compare(&done, entry);
    drop(done);
    if matches!(compared, Repeated::Same) && numbers != entry.released {
        return Repeated::Different;
    }
    compared
}

/// Whether the entry's process may make its call now.
fn may_call<O: FileObject>(kernel: &Kernel<O>, entry: &Entry) -> bool
    ensures { IsTrue result → IsCaller kernel.now entry.now.pid.0 entry.now.request }
{
    if matches!(entry.request, Request::Off) {
        return entry.pid.0 == 0 && !kernel.has_live();
    }
    kernel.is_live(entry.pid)
}

/// Compares a reply, and the message whose rights it received, with those of the first time.
fn compare(again: &Done, first: &Entry) -> Repeated
    ensures reply { result ≡ Repeated.Same → again.now.reply ≡ first.now.reply }
    ensures delivered { result ≡ Repeated.Same → again.now.delivered ≡ first.now.delivered }
{
    if is_same_reply(&again.reply, &first.reply) && again.delivered == first.delivered {
        Repeated::Same
    } else if matches!(again.reply, Reply::Err(Errno::ENOMEM)) {
        Repeated::NoMemory
    } else {
        Repeated::Different
    }
}
