//! Reading a script, and printing a trace.
use crate::measuring::mean;
use anyhow::{Result, anyhow};
use std::alloc::{AllocError, Global};
use std::rt::Clock;
use std::time::Instant;
use ux_syntax::{Act, Line, Script, parse_script};
use ux_trace::entry_text;
use ux_types::{Bytes, Entry, MsgFlags, Released, Reply};

/// The processes of a script.
const PROCESSES: usize = 64;

/// A script of 64 processes that call in turn, and of this many calls.
fn script_text(alloc: Global, calls: usize) -> Result<String, AllocError> {
    let mut text = String::new(alloc);
    for _ in 0..PROCESSES {
        text.push_str("proc 1000 1000 0 1024\n")?;
    }
    for number in 0..calls {
        let pid = number % PROCESSES + 1;
        let call = match number % 4 {
            0 => "pair stream anx",
            1 => "send 10 - 48656c6c6f2c20776f726c6421 - d",
            2 => "recv 11 4096 1024 dptx",
            _ => "close 10",
        };
        let line = format!(in alloc; "{pid} {call}\n")?;
        text.push_str(&line)?;
    }
    Ok(text)
}

/// A history of the script's calls, in which each received something.
fn entries_of(alloc: Global, script: Script) -> Result<Vec<Entry>, AllocError> {
    let mut entries = Vec::new(alloc);
    for (number, line) in script.lines.into_iter().enumerate() {
        let Line { pid, act, .. } = line;
        let Act::Call(request) = act else {
            continue;
        };
        let bytes = Bytes::from_slice(alloc, b"Hello, world!")?;
        entries.push(Entry {
            pid,
            k: number as u64,
            request,
            reply: Reply::Received {
                flags: MsgFlags::TRUNC,
                count: 13,
                bytes,
                control: Bytes::empty(),
                from: None,
            },
            released: Released::new(alloc),
            delivered: None,
        })?;
    }
    Ok(entries)
}

/// Prints the times for a script of so many calls.
pub(crate) fn measure_script<R: Clock + Eprint>(rt: &R, alloc: Global, calls: usize) -> Result<()> {
    let text = script_text(alloc, calls)?;
    let start = Instant::now(rt)?;
    let Ok(script) = parse_script(alloc, text.as_bytes()) else {
        return Err(anyhow!("the script was refused"));
    };
    let reading = mean(start.elapsed(rt)?, calls);
    let entries = entries_of(alloc, script)?;
    let start = Instant::now(rt)?;
    for (number, entry) in entries.iter().enumerate() {
        entry_text(alloc, number, entry)?;
    }
    let printing = mean(start.elapsed(rt)?, calls);
    eprintln!(rt; "{calls} lines: reading {reading} ns a line, printing {printing} ns a line")?;
    Ok(())
}
