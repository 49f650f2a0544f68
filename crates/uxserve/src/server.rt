//! A session that is served line by line.
ghost use Rattle.std.specs.Prelude.{◌≡◌, []};
ghost use Rattle.ux_model.specs.Boot.{IsBootState};

use crate::answers::answer_line;
use crate::asked::is_of_header;
use crate::fault::ServeFault;
use crate::machine::boot;
use crate::source::{LINES, Lines};
use std::alloc::Global;
use std::io::{BufRead, Write};
use std::marker::Brand;
use std::random::RandomSource;
use ux_book::{BookName, Serial, Trail};
use ux_kernel::Kernel;
use ux_object::FileObject;
use ux_objects::FailAt;
use ux_session::Session;
use ux_syntax::{LineReader, ScriptFault};
use ux_watch::Watch;

/// What is kept from line to line.
pub struct Server<B: BookName, O: FileObject> {
    pub(crate) session: Session<B, O>,
    pub(crate) watch: Watch,
    /// What the calls of the lines say, which knows the processes.
    pub(crate) reader: LineReader,
}

// Written out, so that it is proved here and not in each function that drops one.
impl<B: BookName, O: FileObject> Drop for Server<B, O> {
    fn drop(self) {
        let Server {
            session,
            watch,
            reader,
        } = self;
        drop(session);
        drop(watch);
        drop(reader)
    }
}

/// Boots a layer behind the header, and answers each line behind it, up to the end.
///
/// # Errors
///
/// A read or a write that fails, a header for which no layer can be made, and no memory.
pub fn serve<R: RandomSource + AllocGlobal, S: BufRead, W: Write>(
    rt: &R,
    lines: &mut Lines<S>,
    writer: &mut W,
) -> Result<(), ServeFault> {
    let alloc: Global = rt.alloc();
    let mut reader = LineReader::new(alloc);
    let mut text = Vec::new(alloc);
    if !read_header(alloc, lines, &mut reader, &mut text)? {
        return Ok(());
    }
    let kernel = boot(rt, reader.script())?;
    let Ok(trail) = Trail::new(alloc) else {
        return Err(ServeFault::Script(ScriptFault::NoMemory));
    };
    serve_on::<Brand, FailAt, S, W>(alloc, trail, kernel, reader, lines, &mut text, writer)
}

/// Reads the lines of the header. Whether there is one behind it, which stands in the buffer.
fn read_header<S: BufRead>(
    alloc: Global,
    lines: &mut Lines<S>,
    reader: &mut LineReader,
    text: &mut Vec<u8>,
) -> Result<bool, ServeFault> {
    for _ in 0..LINES {
        if !lines.next_line(text)? {
            return Ok(false);
        }
        if !is_of_header(text) || !takes(alloc, lines.number(), reader, text)? {
            return Ok(true);
        }
    }
    Err(ServeFault::Script(ScriptFault::Reading))
}

/// Adds what a line says, where it isn't at fault. Whether it was added.
fn takes(
    alloc: Global,
    number: usize,
    reader: &mut LineReader,
    text: &[u8],
) -> Result<bool, ServeFault> {
    match reader.read_line(alloc, number, text) {
        Ok(()) => Ok(true),
        Err(ScriptFault::NoMemory) => Err(ServeFault::Script(ScriptFault::NoMemory)),
        Err(_) => Ok(false),
    }
}

/// Answers the line in the buffer and those behind it on a layer that has just started.
fn serve_on<B: BookName, O: FileObject, S: BufRead, W: Write>(
    alloc: Global,
    trail: Trail,
    kernel: Kernel<O>,
    reader: LineReader,
    lines: &mut Lines<S>,
    text: &mut Vec<u8>,
    writer: &mut W,
) -> Result<(), ServeFault>
    requires trail { trail ≡ record { id = B.trail; entries = []; given = 0 } }
    requires boots { IsBootState kernel }
    requires named { kernel ≡ B.boot }
{
    let Ok(serial) = Serial::<B, O>::new(alloc, trail, kernel) else {
        return Err(ServeFault::Script(ScriptFault::NoMemory));
    };
    let mut server = Server {
        session: Session::new(alloc, serial),
        watch: Watch::new(alloc),
        reader,
    };
    for _ in 0..LINES {
        answer_line(alloc, &mut server, lines.number(), text, writer)?;
        if !lines.next_line(text)? {
            return Ok(());
        }
    }
    Err(ServeFault::Script(ScriptFault::Reading))
}
