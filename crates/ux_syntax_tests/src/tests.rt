//! Scripts and traces by examples. Each step is a function of its own, so that a test's proof stays short.

mod calls;
mod connections;
mod echoes;
mod expectations;
mod forks;
mod making;
mod options;
mod polls;
mod readers;
mod scripts;
mod sends;
mod serial;
mod texts;
mod traces;
mod typed;
mod waits;

use std::alloc::Global;
use std::process::Abort;
use std::test::*;
use ux_syntax::{Act, ScriptFault, parse_script};
use ux_types::{Addr, Name, Request};

/// The text of the fault of a script, or none if it is read.
fn fault_of(alloc: Global, text: &[u8]) -> Result<String, Fail> {
    match parse_script(alloc, text) {
        Ok(_) => Ok(String::new(alloc)),
        Err(fault) => Ok(fault.to_string(alloc)?),
    }
}

/// The address of this form, `u`, `p` or `a`, and this name.
fn addr_of(alloc: Global, form: char, name: &[u8]) -> Result<Addr, Fail> {
    match form {
        'p' => Ok(Addr::Path(Name::from_slice(alloc, name)?)),
        'a' => Ok(Addr::Abstract(Name::from_slice(alloc, name)?)),
        _ => Ok(Addr::Unnamed),
    }
}

/// This front, filled up to so many bytes.
fn filled(alloc: Global, front: &str, filler: char, count: usize) -> Result<String, Fail> {
    let mut text = String::from_str(alloc, front)?;
    for _ in front.len()..count {
        text.push(filler)?;
    }
    Ok(text)
}

/// This line, so many times.
fn repeated(alloc: Global, line: &str, count: usize) -> Result<String, Fail> {
    let mut text = String::new(alloc);
    for _ in 0..count {
        text.push_str(line)?;
    }
    Ok(text)
}

/// Sees which fault a script has, if any.
fn expect_fault(rt: &impl Abort, alloc: Global, text: &str, fault: &str) -> Result<(), Fail> {
    let reported = fault_of(alloc, text.as_bytes())?;
    assert_eq!(rt; reported.as_str(), fault, "{text}");
    Ok(())
}

/// Sees which fault each of these texts has behind this front, if any.
fn expect_faults(
    rt: &impl Abort,
    alloc: Global,
    front: &str,
    rows: &[(&str, &str)],
) -> Result<(), Fail> {
    for (text, fault) in rows {
        let text = format!(in alloc; "{front}{text}")?;
        expect_fault(rt, alloc, &text, fault)?;
    }
    Ok(())
}

/// Sees that the last line behind a process, which may be its second, is a bad one.
fn expect_bad_line(rt: &impl Abort, alloc: Global, lines: &str) -> Result<(), Fail> {
    let number = if lines.contains('\n') { 3 } else { 2 };
    let text = format!(in alloc; "proc 0 0 0 1\n{lines}")?;
    let fault = format!(in alloc; "line {number}: bad line")?;
    expect_fault(rt, alloc, &text, &fault)
}

/// Sees so of each of these texts, between this front and this end.
fn expect_bad_lines(
    rt: &impl Abort,
    alloc: Global,
    front: &str,
    texts: &[&str],
    end: &str,
) -> Result<(), Fail> {
    for text in texts {
        let lines = format!(in alloc; "{front}{text}{end}")?;
        expect_bad_line(rt, alloc, &lines)?;
    }
    Ok(())
}

/// The request that a call of a script asks for.
fn request_in(alloc: Global, call: &str) -> Result<Request, Fail> {
    let front = if stands_behind_serial(call) {
        "serial\n"
    } else {
        ""
    };
    let text = format!(in alloc; "{front}proc 0 0 0 1\n1 {call}")?;
    let mut script = parse_script(alloc, text.as_bytes())?;
    let line = script.lines.pop().ok_or("no line")?;
    match line.act {
        Act::Call(request) => Ok(request),
        Act::Wait(..) => Err(Fail::from("no call")),
    }
}

/// How the calls begin that stand only in a script with the line `serial`.
const BEHIND_SERIAL: &[&str] = &[
    "create ", "memfd ", "eventfd ", "pipe ", "dupfd ", "getfl ", "inq ", "outq ", "setids ",
];

/// Whether a call stands only in a script with the line `serial`.
fn stands_behind_serial(call: &str) -> bool {
    BEHIND_SERIAL.iter().any(|word| call.starts_with(word))
}

/// What was read, with a value that goes along. It is of any type, so that its drop where nothing was read is a
/// call, and not each of its kinds.
fn beside<T, V: Drop>(read: Result<T, Fail>, value: V) -> Result<(T, V), Fail> {
    Ok((read?, value))
}

/// Sees what a call of a script asks for.
fn expect_request(
    rt: &impl Abort,
    alloc: Global,
    call: &str,
    request: Request,
) -> Result<(), Fail> {
    let (read, request) = beside(request_in(alloc, call), request)?;
    assert_eq!(rt; read, request, "{call}");
    Ok(())
}

/// Sees the text of a fault.
fn expect_report(rt: &impl Abort, alloc: Global, fault: &ScriptFault, text: &str) {
    match fault.to_string(alloc) {
        Ok(reported) => assert_eq!(rt; reported.as_str(), text),
        Err(_) => assert!(rt; false, "no memory"),
    }
}
