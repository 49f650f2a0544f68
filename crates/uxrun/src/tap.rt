//! How scripts answer, in TAP, the Test Anything Protocol (version 14).

use crate::several::Compared;
use std::alloc::{AllocError, Global};
use ux_command::{CommandFault, Source};
use ux_syntax::{ScriptFault, split_lines};

/// Tells of how many scripts will be told.
pub fn tell_plan<R: Print>(rt: &R, count: usize) -> Result<(), CommandFault> {
    println!(rt; "TAP version 14").map_err(|_| ScriptFault::Writing)?;
    println!(rt; "1..{count}").map_err(|_| ScriptFault::Writing)?;
    Ok(())
}

/// A script's name, in which `#` would begin a directive.
fn escaped(alloc: Global, name: &str) -> Result<String, AllocError> {
    let mut text = String::new(alloc);
    for letter in name.chars() {
        if letter == '#' || letter == '\\' {
            text.push('\\')?;
        }
        text.push(letter)?;
    }
    Ok(text)
}

/// Tells a text line by line, in comments.
fn tell_comments<R: Print + AllocGlobal>(rt: &R, text: &[u8]) -> Result<(), CommandFault> {
    let alloc: Global = rt.alloc();
    for line in &split_lines(alloc, text)? {
        if !line.is_empty() {
            let line = String::from_utf8_lossy(alloc, line)?;
            println!(rt; "# {line}").map_err(|_| ScriptFault::Writing)?;
        }
    }
    Ok(())
}

/// Tells why a script doesn't answer as expected.
fn tell_reason<R: Print + AllocGlobal>(
    rt: &R,
    name: &str,
    source: &Source,
    found: &Result<Compared, CommandFault>,
) -> Result<(), CommandFault> {
    match found {
        Ok(compared) => tell_comments(rt, &compared.differing),
        Err(fault) => {
            println!(rt; "# {fault}").map_err(|_| ScriptFault::Writing)?;
            match source.reason_of(rt.alloc(), name, fault)? {
                Some(reason) => tell_comments(rt, reason.as_bytes()),
                None => Ok(()),
            }
        }
    }
}

/// Tells how the script of this number, from 1, ended: its test point, and behind that why it isn't as expected.
pub fn tell_point<R: Print + AllocGlobal>(
    rt: &R,
    number: usize,
    name: &str,
    source: &Source,
    found: &Result<Compared, CommandFault>,
) -> Result<bool, CommandFault> {
    let is_expected = Compared::is_expected(found);
    let word = if is_expected { "ok" } else { "not ok" };
    let escaped = escaped(rt.alloc(), name)?;
    println!(rt; "{word} {number} - {escaped}").map_err(|_| ScriptFault::Writing)?;
    tell_reason(rt, name, source, found)?;
    Ok(is_expected)
}
