//! The lines of a block.
use crate::fault::ServeFault;
use bitflags::Flags;
use std::alloc::Global;
use std::fmt;
use std::io::Write;
use ux_audit::Audit;
use ux_book::{BookName, Serial};
use ux_holders::take_snapshot;
use ux_object::FileObject;
use ux_script::put_all;
use ux_session::{Made, leads};
use ux_syntax::ScriptFault;
use ux_trace::entry_text;
use ux_types::PollFlags;
use ux_watch::Change;

/// Conditions of poll(2), joined by `|`, or `-` where there is none.
#[derive(Clone, Copy)]
struct Conditions(PollFlags);

impl fmt::Display for Conditions {
    fn fmt<W: fmt::Write>(&self, f: &mut fmt::Formatter<W>) -> fmt::Result {
        if self.0.is_empty() {
            return write!(f, "-");
        }
        let mut is_first = true;
        for (name, _flag) in self.0.iter_names() {
            if !is_first {
                write!(f, "|")?;
            }
            is_first = false;
            write!(f, "{name}")?;
        }
        Ok(())
    }
}

/// Writes the calls that were made: each with the number of the pending call that it answers, and with what the new numbers
/// lead to.
pub fn put_made<B: BookName, O: FileObject, W: Write>(
    alloc: Global,
    writer: &mut W,
    serial: &Serial<B, O>,
    made: &Made,
) -> Result<(), ServeFault> {
    for (index, number) in made.answered.iter().enumerate() {
        if let Some(number) = number {
            let text = format!(in alloc; "answered {number}\n")?;
            put_all(writer, text.as_bytes())?;
        }
        if let Some(place) = made.from.checked_add(index) {
            put_entry(alloc, writer, serial, place)?;
        }
    }
    Ok(())
}

/// Writes the line of the entry at this place, and to which description each number leads that it gave.
fn put_entry<B: BookName, O: FileObject, W: Write>(
    alloc: Global,
    writer: &mut W,
    serial: &Serial<B, O>,
    place: usize,
) -> Result<(), ServeFault> {
    let Some(entry) = serial.entries().get(place) else {
        return Ok(());
    };
    let text = entry_text(alloc, place, entry)?;
    put_all(writer, text.as_bytes())?;
    let pid = entry.pid.0;
    for lead in leads(alloc, serial.state(), entry)? {
        let fd = lead.fd.0;
        let id = lead.id.number();
        let text = format!(in alloc; "leads {pid} {fd} {id}\n")?;
        put_all(writer, text.as_bytes())?;
    }
    Ok(())
}

/// Writes that a line changes nothing, and why.
pub fn put_fault<W: Write, F: fmt::Display>(
    alloc: Global,
    writer: &mut W,
    fault: &F,
) -> Result<(), ServeFault> {
    let text = format!(in alloc; "! {fault}\n")?;
    Ok(put_all(writer, text.as_bytes())?)
}

/// Writes who holds what now.
pub fn put_holders<B: BookName, O: FileObject, W: Write>(
    alloc: Global,
    writer: &mut W,
    serial: &Serial<B, O>,
) -> Result<(), ServeFault> {
    let held = take_snapshot(alloc, serial.state())?;
    let text = format!(in alloc; "{held}")?;
    put_indented(writer, text.as_bytes())
}

/// Writes each descriptor that is open, and the chain of holdings through which its process came to it; and last, how many
/// there are.
pub fn put_audit<B: BookName, O: FileObject, W: Write>(
    alloc: Global,
    writer: &mut W,
    serial: &Serial<B, O>,
) -> Result<(), ServeFault> {
    let audit = Audit::new(alloc, serial.entries())?;
    let holdings = audit.holdings(alloc)?;
    for (pid, fd) in &holdings {
        let Some(chain) = audit.pedigree(alloc, *pid, *fd)? else {
            return Err(ServeFault::Audit(*pid, *fd));
        };
        let pid = pid.0;
        let fd = fd.0;
        let text = format!(in alloc; "held {pid} {fd} = {chain}\n")?;
        put_indented(writer, text.as_bytes())?;
    }
    let count = holdings.len();
    let text = format!(in alloc; "audit ok {count}\n")?;
    put_indented(writer, text.as_bytes())
}

/// Writes lines, each behind two blanks.
fn put_indented<W: Write>(writer: &mut W, text: &[u8]) -> Result<(), ServeFault> {
    for line in text.split(|byte| *byte == b'\n') {
        if !line.is_empty() {
            put_all(writer, b"  ")?;
            put_all(writer, line)?;
            put_all(writer, b"\n")?;
        }
    }
    Ok(())
}

/// Writes the last line of a block, which tells of what has changed, and flushes the writer.
pub fn end_block<W: Write>(
    alloc: Global,
    writer: &mut W,
    changes: &[Change],
) -> Result<(), ServeFault> {
    put_all(writer, b".")?;
    for change in changes {
        put_change(alloc, writer, change)?;
    }
    put_all(writer, b"\n")?;
    if writer.flush().is_err() {
        return Err(ServeFault::Script(ScriptFault::Writing));
    }
    Ok(())
}

/// Writes what holds of a description now.
fn put_change<W: Write>(alloc: Global, writer: &mut W, change: &Change) -> Result<(), ServeFault> {
    let id = change.id.number();
    let conditions = Conditions(change.now.flags);
    let bytes = change.now.bytes;
    let messages = change.now.messages;
    let text = format!(in alloc; " {id}={conditions}/{bytes}/{messages}")?;
    Ok(put_all(writer, text.as_bytes())?)
}
