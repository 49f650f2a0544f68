//! Making the calls of a script.

ghost use Rattle.std.specs.Prelude.{◌≡◌, ◌+◌, ◌≤◌, ◌⊎◌, ◌++◌, [], false, length, map, take, IfOk, OnOk, IfErr, OnErr, if◌then◌else◌};
ghost use Rattle.std.specs.Io.KnownBytes.{Appends};
ghost use Rattle.ux_model.specs.Limits.{made_limit};
ghost use Rattle.ux_model.specs.State.{is_live};
ghost use Rattle.ux_model.specs.History.{has_live, is_off, is_fork, IsLegal};
ghost use Rattle.ux_book.specs.declared.fault.CallFault.{CallFault};
ghost use Rattle.ux_book.specs.Books.{state_of, processes, ends_of, has_own_call};
ghost use Rattle.ux_book.specs.Sitting.{MakesOne};
ghost use Rattle.ux_model.specs.Boot.{IsBootState, new_process};
ghost use Rattle.ux_syntax.specs.Spelling.{plan_of, known_count, IsOrderly};
ghost use Rattle.ux_syntax.specs.Turns.{all_turns, call_lines};
ghost use Rattle.ux_trace.specs.Trace.{trace};
ghost use Rattle.ux_script.specs.Writes.{AppendsBeginning};
ghost use Rattle.ux_script.specs.Runs.{line_of_entry, exits_of, Makes, Grows, IsRunFault, WritesBeginning};

use crate::write::write_trace;
use std::alloc::Global;
use std::io::Write;
use std::marker::Brand;
use ux_book::{BookName, CallFault, Serial, Trail};
use ux_kernel::Kernel;
use ux_object::FileObject;
use ux_syntax::{Act, Script, ScriptFault};
use ux_types::{Entry, Pid, Reply, Request};

/// Whoever wants to know how far a run is.
pub trait Watch {
    /// The turn of a further line comes.
    fn turn(&self);
}

/// Nobody wants to know.
pub struct NoWatch;

impl Watch for NoWatch {
    fn turn(&self) {}
}

/// Makes the script's calls in order on a kernel that has just started with the script's processes,
/// then an exit of each process that is left, and ends the layer where the script says so; and writes
/// the trace. A file object that a call released is dropped before the next call. The trace is written when
/// all calls were made. A call for which the kernel has no memory is answered ENOMEM, and the run continues; a fork
/// that makes no process ends it. Lines that wait for a process are skipped.
///
/// # Errors
///
/// `NoMemory`, also where a fork makes no process; `Stranger` where a line is of no live process; `Writing`.
pub fn run_serial<O: FileObject, W: Write>(
    alloc: Global,
    script: &Script,
    writer: &mut W,
    kernel: Kernel<O>,
) -> Result<Vec<Entry>, ScriptFault>
    requires boots { IsBootState kernel }
    requires processes { kernel.processes ≡ map new_process script.now.procs.items }
    // The entries are a legal history from the kernel's state.
    ensures legal { IfOk result (λ entries. IsLegal kernel entries.items) }
    // It makes the script's calls in order, then the missing exits, and the end of the layer where the script has it.
    ensures calls { IfOk result (λ entries. map line_of_entry entries.items ≡ all_turns (plan_of script.now)) }
    // What was written is its trace.
    ensures trace { IfOk result (λ entries. Appends (W.contents writer.old) (W.contents writer.new) (trace entries.items)) }
    // After a fault a beginning of such a trace was written.
    ensures beginning { OnErr result (WritesBeginning kernel (plan_of script.now) (W.contents writer.old) (W.contents writer.new)) }
    ensures fault { IfErr result (λ f. IsRunFault f) }
    // A script that a text spells has no stranger.
    ensures stranger { IfErr result (λ f. f ≡ ScriptFault.Stranger → ¬ IsOrderly (plan_of script.now)) }
{
    let entries = match make_serial(alloc, script, kernel) {
        Ok(entries) => entries,
        Err(fault) => return Err(fault),
    };
    match finish_trace(alloc, writer, &entries) {
        Ok(()) => Ok(entries),
        Err(fault) => Err(fault),
    }
}

/// As `run_serial`, but writes nothing.
///
/// # Errors
///
/// `NoMemory`, also where a fork makes no process; `Stranger` where a line is of no live process.
pub fn make_serial<O: FileObject>(
    alloc: Global,
    script: &Script,
    kernel: Kernel<O>,
) -> Result<Vec<Entry>, ScriptFault>
    requires boots { IsBootState kernel }
    requires processes { kernel.processes ≡ map new_process script.now.procs.items }
    // The entries are a legal history from the kernel's state.
    ensures legal { IfOk result (λ entries. IsLegal kernel entries.items) }
    // It makes the script's calls in order, then the missing exits, and the end of the layer where the script has it.
    ensures calls { IfOk result (λ entries. map line_of_entry entries.items ≡ all_turns (plan_of script.now)) }
    ensures fault { IfErr result (λ f. (f ≡ ScriptFault.NoMemory) ⊎ (f ≡ ScriptFault.Stranger)) }
    // A script that a text spells has no stranger.
    ensures stranger { IfErr result (λ f. f ≡ ScriptFault.Stranger → ¬ IsOrderly (plan_of script.now)) }
{
    make_watched(alloc, script, kernel, &NoWatch)
}

/// As `make_serial`, and reports to `watch` each line whose turn it is.
///
/// # Errors
///
/// `NoMemory`, also where a fork makes no process; `Stranger` where a line is of no live process.
pub fn make_watched<O: FileObject, P: Watch>(
    alloc: Global,
    script: &Script,
    kernel: Kernel<O>,
    watch: &P,
) -> Result<Vec<Entry>, ScriptFault>
    requires boots { IsBootState kernel }
    requires processes { kernel.processes ≡ map new_process script.now.procs.items }
    // The entries are a legal history from the kernel's state.
    ensures legal { IfOk result (λ entries. IsLegal kernel entries.items) }
    // It makes the script's calls in order, then the missing exits, and the end of the layer where the script has it.
    ensures calls { IfOk result (λ entries. map line_of_entry entries.items ≡ all_turns (plan_of script.now)) }
    ensures fault { IfErr result (λ f. (f ≡ ScriptFault.NoMemory) ⊎ (f ≡ ScriptFault.Stranger)) }
    // A script that a text spells has no stranger.
    ensures stranger { IfErr result (λ f. f ≡ ScriptFault.Stranger → ¬ IsOrderly (plan_of script.now)) }
{
    let Ok(trail) = Trail::new(alloc) else {
        return Err(ScriptFault::NoMemory);
    };
    match run_calls::<Brand, O, P>(alloc, trail, script, kernel, watch) {
        Ok(entries) => Ok(entries),
        Err(CallFault::Stranger) => Err(ScriptFault::Stranger),
        Err(_) => Err(ScriptFault::NoMemory),
    }
}

/// Writes the trace of a history, and flushes the writer. After a fault a beginning of the trace was written.
///
/// # Errors
///
/// `Writing` where a write or the flush fails, and `NoMemory`.
pub fn finish_trace<W: Write>(
    alloc: Global,
    writer: &mut W,
    history: &[Entry],
) -> Result<(), ScriptFault>
    ensures ok { OnOk result (Appends (W.contents writer.old) (W.contents writer.new) (trace history.now)) }
    ensures err { OnErr result (AppendsBeginning (W.contents writer.old) (W.contents writer.new) (trace history.now)) }
    ensures fault { IfErr result (λ f. (f ≡ ScriptFault.Writing) ⊎ (f ≡ ScriptFault.NoMemory)) }
{
    write_trace(alloc, writer, history)?;
    if writer.flush().is_err() {
        return Err(ScriptFault::Writing);
    }
    Ok(())
}

/// Makes all calls of a run.
fn run_calls<W: BookName, O: FileObject, P: Watch>(
    alloc: Global,
    trail: Trail,
    script: &Script,
    kernel: Kernel<O>,
    watch: &P,
) -> Result<Vec<Entry>, CallFault>
    requires trail { trail ≡ record { id = W.trail; entries = []; given = 0 } }
    requires boots { IsBootState kernel }
    requires named { kernel ≡ W.boot }
    requires processes { kernel.processes ≡ map new_process script.now.procs.items }
    ensures legal { IfOk result (λ entries. IsLegal kernel entries.items) }
    ensures calls { IfOk result (λ entries. map line_of_entry entries.items ≡ all_turns (plan_of script.now)) }
    ensures stranger { IfErr result (λ f. f ≡ CallFault.Stranger → ¬ IsOrderly (plan_of script.now)) }
{
    let Ok(mut serial) = Serial::<W, O>::new(alloc, trail, kernel) else {
        return Err(CallFault::NoMemory);
    };
    make_all(&mut serial, script, watch)?;
    Ok(serial.into_entries())
}

/// Makes the script's calls in order, then the missing exits, and ends the layer where the script says so.
fn make_all<W: BookName, O: FileObject, P: Watch>(
    serial: &mut Serial<W, O>,
    script: &Script,
    watch: &P,
) -> Result<(), CallFault>
    requires { Makes serial.old (plan_of script.now) [] }
    ensures made { OnOk result (Makes serial.new (plan_of script.now) (all_turns (plan_of script.now))) }
    ensures boot { OnOk result (serial.new.boot ≡ serial.old.boot) }
    ensures stranger { IfErr result (λ f. f ≡ CallFault.Stranger → ¬ IsOrderly (plan_of script.now)) }
{
    make_calls(serial, script, 0, watch)?;
    make_rest(serial, script)
}

/// Makes an exit of each process that is left, and ends the layer where the script says so.
pub(crate) fn make_rest<W: BookName, O: FileObject>(
    serial: &mut Serial<W, O>,
    script: &Script,
) -> Result<(), CallFault>
    requires { Makes serial.old (plan_of script.now) (call_lines script.now.lines.items) }
    ensures made { OnOk result (Makes serial.new (plan_of script.now) (all_turns (plan_of script.now))) }
    ensures boot { OnOk result (serial.new.boot ≡ serial.old.boot) }
    ensures grows { OnOk result (Grows serial.old.entries serial.new.entries) }
    ensures stranger { IfErr result (λ f. f ≡ CallFault.Stranger → ¬ IsOrderly (plan_of script.now)) }
{
    let count = serial.process_count();
    make_exits(serial, script, count)?;
    if !script.off {
        return Ok(());
    }
    end(serial)
}

/// Makes the calls of the script's lines from this place on, in order. Nobody waits in a run of one thread.
pub(crate) fn make_calls<W: BookName, O: FileObject, P: Watch>(
    serial: &mut Serial<W, O>,
    script: &Script,
    from: usize,
    watch: &P,
) -> Result<(), CallFault>
    requires { Makes serial.old (plan_of script.now) (call_lines (take from script.now.lines.items)) }
    ensures made { OnOk result (Makes serial.new (plan_of script.now) (call_lines script.now.lines.items)) }
    ensures boot { OnOk result (serial.new.boot ≡ serial.old.boot) }
    ensures grows { OnOk result (Grows serial.old.entries serial.new.entries) }
    ensures stranger { IfErr result (λ f. f ≡ CallFault.Stranger → ¬ IsOrderly (plan_of script.now)) }
{
    let lines = script.lines.as_slice();
    for index in from..lines.len() {
        let line = &lines[index];
        watch.turn();
        match &line.act {
            Act::Call(request) => make_call(serial, line.pid, request)?,
            Act::Wait(..) => {}
        }
    }
    Ok(())
}

/// Makes an exit of each process that is left.
fn make_exits<W: BookName, O: FileObject>(
    serial: &mut Serial<W, O>,
    script: &Script,
    count: usize,
) -> Result<(), CallFault>
    requires begun { Makes serial.old (plan_of script.now) (call_lines script.now.lines.items) }
    requires count { count ≡ known_count (plan_of script.now) }
    requires few { count ≤ made_limit }
    ensures made { OnOk result (Makes serial.new (plan_of script.now) (call_lines script.now.lines.items ++ exits_of script.now.lines.items count)) }
    ensures boot { OnOk result (serial.new.boot ≡ serial.old.boot) }
    ensures grows { OnOk result (Grows serial.old.entries serial.new.entries) }
    ensures stranger { IfErr result (λ f. f ≡ CallFault.Stranger → ⊥) }
{
    for index in 0..count {
        let pid = Pid(index as u32 + 1);
        if serial.is_live(pid) {
            serial.exit(pid)?;
        }
    }
    Ok(())
}

/// Makes the call of a line. It is a stranger's where its process doesn't live, or where it asks for the layer's end. A
/// fork that makes no process fails as out of memory.
///
/// # Errors
///
/// `Stranger`, and `NoMemory`.
pub fn make_call<W: BookName, O: FileObject>(
    serial: &mut Serial<W, O>,
    pid: Pid,
    request: &Request,
) -> Result<(), CallFault>
    ensures entry { OnOk result (MakesOne serial.old serial.new pid request.now) }
    ensures made { OnOk result (processes serial.new ≡ processes serial.old + (if is_fork request.now then 1 else 0)) }
    ensures stranger { IfErr result (λ f. f ≡ CallFault.Stranger → is_off request.now ≡ false → is_live (state_of serial.old) pid.0 ≡ false) }
{
    match request {
        Request::Off => Err(CallFault::Stranger),
        Request::Exit => serial.exit(pid),
        Request::Fork => fork(serial, pid),
        _ => call(serial, pid, request),
    }
}

/// Makes a fork, which makes a process.
fn fork<W: BookName, O: FileObject>(serial: &mut Serial<W, O>, pid: Pid) -> Result<(), CallFault>
    ensures entry { OnOk result (MakesOne serial.old serial.new pid Request.Fork) }
    ensures made { OnOk result (processes serial.new ≡ processes serial.old + 1) }
    ensures stranger { IfErr result (λ f. f ≡ CallFault.Stranger → is_live (state_of serial.old) pid.0 ≡ false) }
{
    match serial.fork(pid) {
        Ok(Reply::Child(_)) => Ok(()),
        Ok(_) => Err(CallFault::NoMemory),
        Err(fault) => Err(fault),
    }
}

/// Makes a call that is neither an exit nor a fork.
fn call<W: BookName, O: FileObject>(
    serial: &mut Serial<W, O>,
    pid: Pid,
    request: &Request,
) -> Result<(), CallFault>
    requires { has_own_call request.now ≡ false }
    ensures entry { OnOk result (MakesOne serial.old serial.new pid request.now) }
    ensures made { OnOk result (processes serial.new ≡ processes serial.old) }
    ensures stranger { IfErr result (λ f. f ≡ CallFault.Stranger → is_live (state_of serial.old) pid.0 ≡ false) }
{
    match serial.call(pid, request) {
        Ok(_reply) => Ok(()),
        Err(fault) => Err(fault),
    }
}

/// Ends the layer, when no process is left and it wasn't ended before.
fn end<W: BookName, O: FileObject>(serial: &mut Serial<W, O>) -> Result<(), CallFault>
    ensures entry { OnOk result (MakesOne serial.old serial.new (record { 0 = 0 }) Request.Off) }
    ensures made { OnOk result (processes serial.new ≡ processes serial.old) }
    ensures stranger { OnErr result (has_live (state_of serial.old) ≡ false → ends_of serial.old.entries ≡ 1) }
{
    match serial.off() {
        Ok(()) => Ok(()),
        Err(_) => Err(CallFault::Stranger),
    }
}
