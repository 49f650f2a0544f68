//! Every order of the calls that processes make, given as lists.
ghost use Rattle.std.specs.Prelude.{◌≡◌, ◌<◌, ◌≤◌, [], true, IfOk};
ghost use Rattle.std.specs.List.{AllByRecursion};
ghost use Rattle.ux_model.specs.Boot.{boot_state};
ghost use Rattle.ux_syntax.specs.Spelling.{plan_of};
ghost use Rattle.ux_orders.specs.Outcomes.{IsRun, Cover};
ghost use Rattle.ux_orders.specs.Threads.{KnowsAll};
ghost use Rattle.delortxa.specs.Exploring.{with_call, with_wait, with_line, script_of};

use crate::boot::Boot;
use crate::objects::AnyObject;
use std::alloc::{AllocError, Global};
use std::collections::HashMap;
use std::marker::Model;
use ux_kernel::{BootFault, Kernel};
use ux_orders::{Found, OrderFault, Reduction};
use ux_syntax::{Act, Line, Script};
use ux_types::{Pid, ProcSpec, Request};

/// What each process does: its calls in their order, and where it waits for another's. Contracts see all of them as one
/// list, in the order in which they were given.
pub struct Programs {
    alloc: Global,
    lines: Vec<Line>,
    /// How many of them each process has.
    counts: HashMap<u32, usize>,
}

// Written out, so that it is proved here and not in each function that drops one.
impl Drop for Programs {
    fn drop(self) {
        let Programs {
            alloc: _,
            lines,
            counts,
        } = self;
        drop(lines);
        drop(counts);
    }
}

impl Model for Programs {
    ghost use Rattle.std.specs.Prelude.{List};
    ghost use Rattle.ux_syntax.specs.Lines.{Line};

    ghost Value = { List Line };

    ghost view = { λ p. p.lines.items };
}

impl Programs {
    /// Nothing yet, so that each process exits at once. All that follows is allocated here.
    pub fn new(alloc: Global) -> Programs
        ensures { result ≡ [] }
    {
        Programs {
            alloc,
            lines: Vec::new(alloc),
            counts: HashMap::new(alloc),
        }
    }

    /// The next call of this process: one of `delortxa::call`, or `Request::Fork`, or `Request::Exit`, without which it
    /// exits behind its last call.
    ///
    /// # Errors
    ///
    /// Out of memory.
    pub fn call(self, pid: Pid, request: Request) -> Result<Programs, AllocError>
        ensures { IfOk result (λ programs. programs ≡ with_call self pid request) }
    {
        self.line(pid, Act::Call(request))
    }

    /// This process goes on when the other has made so many calls, or has exited. It is no call.
    ///
    /// # Errors
    ///
    /// Out of memory.
    pub fn wait(self, pid: Pid, other: Pid, calls: u32) -> Result<Programs, AllocError>
        ensures { IfOk result (λ programs. programs ≡ with_wait self pid other calls) }
    {
        self.line(pid, Act::Wait(other, calls))
    }

    /// What this process does next.
    fn line(mut self, pid: Pid, act: Act) -> Result<Programs, AllocError>
        ensures { IfOk result (λ programs. programs ≡ with_line self pid act) }
    {
        let before = match self.counts.get(&pid.0) {
            Some(before) => *before,
            None => 0,
        };
        let number = before.saturating_add(1);
        self.counts.insert(pid.0, number)?;
        self.lines.push(Line { pid, act, number })?;
        Ok(self)
    }

    /// The script that says so of these processes.
    fn script(&self, processes: &[ProcSpec]) -> Result<Script, AllocError>
        ensures { IfOk result (λ script. plan_of script ≡ script_of processes.now self.now) }
    {
        let mut lines = Vec::with_capacity(self.alloc, self.lines.len())?;
        for line in &self.lines {
            lines.push(copy_of(line)?)?;
        }
        Ok(Script {
            serial: false,
            objects: Vec::new(self.alloc),
            procs: Vec::from_slice(self.alloc, processes)?,
            lines,
            off: false,
        })
    }
}

/// Makes the calls of all processes in every order, each on a new kernel with what the boot has, and keeps a run for
/// each outcome: the shortest, and of those the one whose processes come in the smallest order. Two runs have the same
/// outcome where each process gets the same replies and closes the same file objects; or where both end in a deadlock in
/// which the same processes wait at the same places of their lists, counted from 1 with the waits. Of orders that come
/// to the same point one alone goes on, and no more than `limit` are begun.
///
/// A call waits where one of a thread would. Process 1 may fork: its children have the numbers behind those of the boot,
/// and the list of each begins when its fork was answered.
///
/// # Errors
///
/// `Stranger` for a list of a process that isn't there and that no fork makes, or for a wait for such a one; for a fork
/// by another process than 1; for what stands behind an exit in its list; and for `Request::Off`. `NoKernel` for a boot
/// that can't start. `NoMemory`, also where a fork makes no process.
pub fn explore(
    alloc: Global,
    boot: &Boot,
    programs: &Programs,
    limit: u64,
) -> Result<Found, OrderFault>
    // Each of them is a legal history from the state in which a kernel starts with the boot, in which each process
    // makes the calls of its list in their order, and its exit last, or a beginning of them up to a deadlock.
    ensures runs { IfOk result (λ found. AllByRecursion (IsRun (boot_state boot.now.objects boot.now.processes) (script_of boot.now.processes programs.now)) found.outcomes.items) }
    // So many such runs were made, and each has the outcome of one of them, which isn't longer.
    ensures covered { IfOk result (λ found. Cover (boot_state boot.now.objects boot.now.processes) (script_of boot.now.processes programs.now) found.orders found.outcomes.items) }
    ensures limit { IfOk result (λ found. found.orders ≤ limit) }
{
    let script = orderly_script(boot, programs)?;
    ux_orders::explore(alloc, &script, &mut Copies(boot), limit, Reduction::all())
}

/// As `explore`, but each order is made to its end, so that it takes far longer: a run for each beginning of an order is
/// begun, and for each process that would have to wait behind it. What it doesn't find can't happen.
///
/// # Errors
///
/// Those of `explore`.
pub fn explore_each(
    alloc: Global,
    boot: &Boot,
    programs: &Programs,
    limit: u64,
) -> Result<Found, OrderFault>
    // As with `explore`.
    ensures runs { IfOk result (λ found. AllByRecursion (IsRun (boot_state boot.now.objects boot.now.processes) (script_of boot.now.processes programs.now)) found.outcomes.items) }
    ensures covered { IfOk result (λ found. Cover (boot_state boot.now.objects boot.now.processes) (script_of boot.now.processes programs.now) found.orders found.outcomes.items) }
    ensures limit { IfOk result (λ found. found.orders ≤ limit) }
    // And the other way round: where `is_all` says so, each history that threads can make of the lists was made, up to where each process has
    // exited or has to wait, if no memory lacks and no object fails in it; and its outcome is one of these.
    ensures all { IfOk result (λ found. found.is_all ≡ true → KnowsAll (boot_state boot.now.objects boot.now.processes) (script_of boot.now.processes programs.now) found.outcomes.items) }
{
    let script = orderly_script(boot, programs)?;
    ux_orders::explore_each(alloc, &script, &mut Copies(boot), limit)
}

/// The script of these lists for the boot's processes, if each may stand as it does.
fn orderly_script(boot: &Boot, programs: &Programs) -> Result<Script, OrderFault>
    ensures { IfOk result (λ script. plan_of script ≡ script_of boot.now.processes programs.now) }
{
    let script = programs.script(boot.processes())?;
    if !is_orderly(programs.alloc, &script.lines, script.process_count())? {
        return Err(OrderFault::Stranger);
    }
    Ok(script)
}

/// Starts a kernel with what a boot has, as often as one is wanted.
#[derive(Clone, Copy)]
struct Copies<'a>(&'a Boot);

impl ux_orders::Boot for Copies<'_> {
    type Object = AnyObject;

    ghost state = { λ copies plan. boot_state copies.0.now.objects plan.procs };

    fn boot(&mut self, script: &Script) -> Result<Kernel<AnyObject>, OrderFault> {
        let Ok(boot) = self.0.anew(&script.procs) else {
            return Err(OrderFault::NoMemory);
        };
        match boot.start() {
            Ok(kernel) => Ok(kernel),
            Err(BootFault::NoMemory) => Err(OrderFault::NoMemory),
            Err(_) => Err(OrderFault::NoKernel),
        }
    }
}

/// A copy of a line.
fn copy_of(line: &Line) -> Result<Line, AllocError>
    ensures { IfOk result (λ copy. copy ≡ line.now) }
{
    let act = match &line.act {
        Act::Call(request) => Act::Call(request.clone()?),
        Act::Wait(pid, calls) => Act::Wait(*pid, *calls),
    };
    Ok(Line {
        pid: line.pid,
        act,
        number: line.number,
    })
}

/// Whether each line is of one of so many processes, and may stand where it does: none behind its process's exit.
fn is_orderly(alloc: Global, lines: &[Line], count: usize) -> Result<bool, AllocError> {
    let mut exited = no_flags(alloc, count)?;
    for line in lines {
        if !is_among(line.pid, count) || !may_ask(line, count) {
            return Ok(false);
        }
        let Some(has_exited) = exited.get_mut(line.pid.0 as usize - 1) else {
            return Ok(false);
        };
        if *has_exited {
            return Ok(false);
        }
        *has_exited = line.act.asks_exit();
    }
    Ok(true)
}

/// So many flags, none of which is set.
fn no_flags(alloc: Global, count: usize) -> Result<Vec<bool>, AllocError> {
    let mut flags = Vec::with_capacity(alloc, count)?;
    for _ in 0..count {
        flags.push(false)?;
    }
    Ok(flags)
}

/// Whether a process may ask for this, where there are so many.
fn may_ask(line: &Line, count: usize) -> bool {
    match &line.act {
        Act::Wait(other, _) => is_among(*other, count),
        Act::Call(Request::Fork) => line.pid == Pid(1),
        Act::Call(request) => !matches!(request, Request::Off),
    }
}

/// Whether this is one of so many processes, which are numbered from 1.
fn is_among(pid: Pid, count: usize) -> bool
    ensures { result ≡ true → 0 < pid.0 }
{
    pid.0 > 0 && pid.0 as usize <= count
}
