//! The text of the diagram.

use crate::arrows::{Arrow, arrow_of, arrow_of_connect};
use std::alloc::{AllocError, Global};
use std::fmt;
use ux_kernel::Kernel;
use ux_object::FileObject;
use ux_replay::{ReplayFault, replay_entry};
use ux_state::ReleasedObjects;
use ux_trace::echo_text;
use ux_types::Entry;

/// A text of a diagram: what has a meaning in Mermaid is written as its character's number.
#[derive(Clone, Copy)]
struct Escaped<'a>(&'a str);

impl fmt::Display for Escaped<'_> {
    fn fmt<W: fmt::Write>(&self, f: &mut fmt::Formatter<W>) -> fmt::Result {
        for letter in self.0.trim_end().chars() {
            match letter {
                '#' => write!(f, "#35;")?,
                ';' => write!(f, "#59;")?,
                '<' => write!(f, "#60;")?,
                '>' => write!(f, "#62;")?,
                _ => write!(f, "{letter}")?,
            }
        }
        Ok(())
    }
}

/// The diagram of a history: the processes are its participants. A receive is an arrow from the process that sent the
/// message which it begins with, dotted where it only peeks; a connect is one to the process that listened last, and an accept
/// one from the process that connected; every other call is a note. Each has the call's line as `uxrun --echo` prints it. To
/// find the processes the calls are made once more on this kernel, which has just started.
///
/// # Errors
///
/// `Differs` or `NoMemory` at the first entry whose call didn't have the same outcome, or whose text has no memory.
pub fn sequence<O: FileObject>(
    alloc: Global,
    lines: &[Option<usize>],
    history: &[Entry],
    mut kernel: Kernel<O>,
) -> Result<String, ReplayFault> {
    let mut released = ReleasedObjects::new(alloc);
    let mut out = String::new(alloc);
    if put_participants(alloc, &mut out, history).is_err() {
        return Err(ReplayFault::NoMemory(0));
    }
    for (index, entry) in history.iter().enumerate() {
        let number = index as u64;
        let arrow = arrow_of(&kernel, history, entry);
        replay_entry(&mut kernel, number, entry, &mut released)?;
        let arrow = arrow.or_else(|| arrow_of_connect(&kernel, entry));
        if put_entry(alloc, &mut out, arrow, line_at(lines, index), entry).is_err() {
            return Err(ReplayFault::NoMemory(number));
        }
    }
    Ok(out)
}

/// The line of the call at this place, where it has one.
fn line_at(lines: &[Option<usize>], place: usize) -> Option<usize> {
    match lines.get(place) {
        Some(line) => *line,
        None => None,
    }
}

/// The first lines, which name the processes in order of their first calls.
fn put_participants(alloc: Global, out: &mut String, history: &[Entry]) -> Result<(), AllocError> {
    out.push_str("sequenceDiagram\n")?;
    for entry in history {
        if entry.k == 0 && entry.pid.0 != 0 {
            let pid = entry.pid.0;
            let line = format!(in alloc; "  participant p{pid} as process {pid}\n")?;
            out.push_str(line.as_str())?;
        }
    }
    Ok(())
}

/// The line of a call. The end of the layer, which no process calls, has none.
fn put_entry(
    alloc: Global,
    out: &mut String,
    arrow: Option<Arrow>,
    line: Option<usize>,
    entry: &Entry,
) -> Result<(), AllocError> {
    let pid = entry.pid.0;
    if pid == 0 {
        return Ok(());
    }
    let echo = echo_text(alloc, line, entry)?;
    let text = Escaped(echo.as_str());
    let written = match arrow {
        Some(arrow) => format!(in alloc; "  {arrow}: {text}\n")?,
        None => format!(in alloc; "  Note over p{pid}: {text}\n")?,
    };
    out.push_str(written.as_str())
}
