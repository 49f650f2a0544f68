//! What is made of a line, and what is answered.
use crate::asked::{Asked, asked_by};
use crate::blocks::{end_block, put_audit, put_fault, put_holders, put_made};
use crate::fault::ServeFault;
use crate::server::Server;
use std::alloc::Global;
use std::io::Write;
use ux_book::BookName;
use ux_object::FileObject;
use ux_session::{Made, Pending, SessionFault};
use ux_syntax::{Act, Line, ScriptFault};

/// Makes what the line of this number asks for, and writes its block. A line that says nothing has none.
///
/// # Errors
///
/// A write that fails, and no memory for what was made to be told, or for all pending calls to be tried.
pub fn answer_line<B: BookName, O: FileObject, W: Write>(
    alloc: Global,
    server: &mut Server<B, O>,
    number: usize,
    text: &[u8],
    writer: &mut W,
) -> Result<(), ServeFault> {
    let asked = asked_by(text);
    if let Asked::Nothing = asked {
        return Ok(());
    }
    answer(alloc, server, number, asked, writer)?;
    let changes = server.watch.changes(server.session.serial().state())?;
    end_block(alloc, writer, &changes)?;
    if server.session.is_stalled() {
        return Err(ServeFault::Script(ScriptFault::NoMemory));
    }
    Ok(())
}

/// Makes what is asked for, and writes the lines of its block but the last.
fn answer<B: BookName, O: FileObject, W: Write>(
    alloc: Global,
    server: &mut Server<B, O>,
    number: usize,
    asked: Asked<'_>,
    writer: &mut W,
) -> Result<(), ServeFault> {
    match asked {
        Asked::Nothing => Ok(()),
        Asked::Call(text) => call(alloc, server, number, text, writer),
        Asked::Pend(name, text) => pend(alloc, server, number, name, text, writer),
        Asked::Cancel(name) => match server.session.cancel(name) {
            Ok(()) => Ok(()),
            Err(fault) => put_fault(alloc, writer, &fault),
        },
        Asked::Order(seed) => {
            server.session.order(seed);
            Ok(())
        }
        Asked::Holders => put_holders(alloc, writer, server.session.serial()),
        Asked::Audit => put_audit(alloc, writer, server.session.serial()),
        Asked::Other => put_fault(alloc, writer, &ScriptFault::BadLine(number)),
    }
}

/// Makes the call of a line at once.
fn call<B: BookName, O: FileObject, W: Write>(
    alloc: Global,
    server: &mut Server<B, O>,
    number: usize,
    text: &[u8],
    writer: &mut W,
) -> Result<(), ServeFault> {
    if let Err(fault) = server.reader.read_line(alloc, number, text) {
        return put_fault(alloc, writer, &fault);
    }
    let Some(line) = server.reader.script().lines.last() else {
        return put_fault(alloc, writer, &ScriptFault::BadLine(number));
    };
    let Act::Call(request) = &line.act else {
        return put_fault(alloc, writer, &ScriptFault::BadLine(number));
    };
    let made = server.session.call(line.pid, request);
    put_outcome(alloc, server, made, writer)
}

/// Makes the call of a line as soon as it needn't wait, under a number of the supervisor's.
fn pend<B: BookName, O: FileObject, W: Write>(
    alloc: Global,
    server: &mut Server<B, O>,
    number: usize,
    name: u32,
    text: &[u8],
    writer: &mut W,
) -> Result<(), ServeFault> {
    if server.session.is_pending(name) {
        return put_fault(alloc, writer, &SessionFault::InUse);
    }
    if let Err(fault) = server.reader.read_line(alloc, number, text) {
        return put_fault(alloc, writer, &fault);
    }
    let Some(line) = server.reader.script().lines.last() else {
        return put_fault(alloc, writer, &ScriptFault::BadLine(number));
    };
    let Some(call) = pending_of(name, line)? else {
        return put_fault(alloc, writer, &ScriptFault::BadLine(number));
    };
    let made = server.session.pend(call);
    put_outcome(alloc, server, made, writer)
}

/// The call of a line, if it is one, under a number of the supervisor's.
fn pending_of(name: u32, line: &Line) -> Result<Option<Pending>, ServeFault> {
    match &line.act {
        Act::Call(request) => Ok(Some(Pending {
            number: name,
            pid: line.pid,
            request: request.clone()?,
        })),
        Act::Wait(..) => Ok(None),
    }
}

/// Writes what was made, or why nothing was.
fn put_outcome<B: BookName, O: FileObject, W: Write>(
    alloc: Global,
    server: &Server<B, O>,
    made: Result<Made, SessionFault>,
    writer: &mut W,
) -> Result<(), ServeFault> {
    match made {
        Ok(made) => put_made(alloc, writer, server.session.serial(), &made),
        Err(fault) => put_fault(alloc, writer, &fault),
    }
}
