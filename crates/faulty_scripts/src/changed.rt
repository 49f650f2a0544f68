//! Valid lines in which one byte is another, or one more.

use anyhow::{Result, anyhow};
use std::alloc::Global;
use ux_explain::{Cause, explain};
use ux_syntax::{is_line, parse_script};

/// Lines that a script may have, of each form of words one at least.
const VALID: &[&str] = &[
    "serial",
    "off",
    "object p:a%20b fail 12 mem 6162",
    "object p:a mem -",
    "object p:x counter",
    "object p:y fail 3 pipe",
    "proc 1000 0 1 16",
    "1 open p:f rw anx",
    "1 read 0 42",
    "1 write 10 61ff",
    "1 lseek 0 -12 cur",
    "1 eventfd 7 anxs",
    "1 socket stream nx",
    "1 bind 0 a:%00b",
    "1 listen 0 -3",
    "1 connect 0 p:q",
    "1 setopt 0 passcred 1",
    "1 send 0 - 78 r:0,12+c:1,2,3 dptx",
    "1 send 0 u - x:00ff -",
    "1 send 0 a: 78 c:1,2,3+r:4 d",
    "1 recv 0 4294967295 24 p",
    "1 recv 0 1 rights:12 -",
    "1 write 10 \"a b\\n\\x0f\"",
    "1 send 0 - \"\" x:\" \\\"\\x00a\" d",
    "object p:a mem \"a \\\\\"",
    "1 shut 0 rw",
    "1 wait 2 10",
    "1 fork",
];

/// The bytes that are put in.
const BYTES: &[u8] = b" 0aAr:%\t\"\\x";

/// How many bytes a line may have.
const LIMIT: usize = 4096;

/// A line with this byte at a place, in front of what stands from another place on.
fn changed(alloc: Global, line: &[u8], place: usize, byte: u8, behind: usize) -> Result<Vec<u8>> {
    let mut text = Vec::from_slice(alloc, line.get(..place).unwrap_or(line))?;
    text.push(byte)?;
    text.extend_from_slice(line.get(behind..).unwrap_or(&[]))?;
    Ok(text)
}

/// A line, if it is none that a script may have, must go wrong at this place or behind it, since what stands before it
/// is the beginning of a valid one.
fn must_go_wrong(alloc: Global, line: &[u8], place: usize) -> Result<()> {
    if is_line(alloc, LIMIT, line)? {
        return Ok(());
    }
    let Err(fault) = parse_script(alloc, line) else {
        return Err(anyhow!("a script of a line that is none"));
    };
    match explain(alloc, line, &fault)? {
        Some(reported)
            if reported.excerpt.column < place || matches!(reported.cause, Cause::NoLine) => {
            Err(anyhow!("not at {place}, but\n{reported}"))
        }
        Some(_) => Ok(()),
        None => Err(anyhow!("no explanation of {fault}")),
    }
}

/// Puts each byte to a place of a line, instead of the one there and in front of it.
fn change_at(alloc: Global, line: &[u8], place: usize) -> Result<()> {
    for byte in BYTES {
        let longer = changed(alloc, line, place, *byte, place)?;
        must_go_wrong(alloc, &longer, place)?;
        let other = changed(alloc, line, place, *byte, place.saturating_add(1))?;
        must_go_wrong(alloc, &other, place)?;
    }
    Ok(())
}

fn change_everywhere(alloc: Global, line: &[u8]) -> Result<()> {
    for place in 0..line.len().saturating_add(1) {
        change_at(alloc, line, place)?;
    }
    Ok(())
}

/// Changes each byte of each line.
pub fn must_find_changes(alloc: Global) -> Result<()> {
    for line in VALID {
        change_everywhere(alloc, line.as_bytes())?;
    }
    Ok(())
}
