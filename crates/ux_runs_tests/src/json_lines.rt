//! Runs as JSON: a line for each call, and what a comparison gives.

use crate::beside::serial_history;
use crate::serial::Fake;
use serde_json::Value;
use std::alloc::Global;
use std::process::Abort;
use std::test::Fail;
use ux_script::{finish_json, line_numbers, write_differences};
use ux_syntax::{ScriptFault, expectations_of, parse_script};

/// A script of which the second call answers otherwise than expected, and the third as expected.
const SCRIPT: &str = "proc 1000 1000 0 16
1 pair stream -
1 close 1
#= err EBADF
1 close 1
#= err EBADF
";

/// It as JSON.
const LINES: [&str; 4] = [
    r#"{"kind": "call", "call": 0, "pid": 1, "k": 0, "line": 2, "word": "pair", "arguments": {"type": "stream", "flags": []}, "reply": {"kind": "fds", "fds": [0, 1]}, "closed": []}"#,
    r#"{"kind": "call", "call": 1, "pid": 1, "k": 1, "line": 3, "word": "close", "arguments": {"fd": 1}, "reply": {"kind": "ok"}, "closed": []}"#,
    r#"{"kind": "call", "call": 2, "pid": 1, "k": 2, "line": 5, "word": "close", "arguments": {"fd": 1}, "reply": {"kind": "err", "errno": "EBADF"}, "closed": []}"#,
    r#"{"kind": "call", "call": 3, "pid": 1, "k": 3, "line": null, "word": "exit", "arguments": {}, "reply": {"kind": "ok"}, "closed": []}"#,
];

/// Sees that the lines that were written read as these.
fn expect_lines(
    rt: &impl Abort,
    alloc: Global,
    written: &[u8],
    wanted: &[&str],
) -> Result<(), Fail> {
    let lines = written.split(|b| *b == b'\n').collect::<Vec<&[u8]>>(alloc)?;
    assert_eq!(rt; lines.len(), wanted.len().saturating_add(1));
    for (line, text) in lines.iter().zip(wanted) {
        assert!(rt;
            Value::from_slice(alloc, line)? == Value::from_str(alloc, text)?,
            "{text}"
        );
    }
    Ok(())
}

#[test]
fn each_call_is_a_line(rt: HostRuntime) -> Result<(), Fail> {
    let alloc = rt.alloc();
    let script = parse_script(alloc, SCRIPT.as_bytes())?;
    let history = serial_history(alloc, &script)?;
    let lines = line_numbers(alloc, &script, &history)?;
    let mut written: Vec<u8> = Vec::new(alloc);
    finish_json(alloc, &mut written, &lines, &history)?;
    expect_lines(&rt, alloc, &written, &LINES)
}

#[test]
fn each_write_may_fail(rt: HostRuntime) -> Result<(), Fail> {
    let alloc = rt.alloc();
    let script = parse_script(alloc, SCRIPT.as_bytes())?;
    let history = serial_history(alloc, &script)?;
    for fails_at in 1..5 {
        let mut writer = Fake::new(alloc, 1000, fails_at);
        let reported = finish_json(alloc, &mut writer, &[], &history);
        assert!(rt; matches!(reported, Err(ScriptFault::Writing)));
    }
    Ok(())
}

/// Sees what a comparison of the script's history gives, where so many of its calls were made.
fn expect_differences(
    rt: &impl Abort,
    alloc: Global,
    text: &str,
    made: usize,
    wanted: &[&str],
) -> Result<(), Fail> {
    let script = parse_script(alloc, text.as_bytes())?;
    let history = serial_history(alloc, &script)?;
    let expected = expectations_of(alloc, text.as_bytes())?;
    let lines = line_numbers(alloc, &script, &history)?;
    let made = made.min(history.len());
    let mut written: Vec<u8> = Vec::new(alloc);
    write_differences(alloc, &mut written, &expected, &lines, &history[..made])?;
    expect_lines(rt, alloc, &written, wanted)
}

#[test]
fn each_difference_is_a_line(rt: HostRuntime) -> Result<(), Fail> {
    let alloc = rt.alloc();
    let other = r#"{"kind": "difference", "line": 3, "expected": "err EBADF", "got": "ok"}"#;
    let none = r#"{"kind": "difference", "line": 5, "expected": "err EBADF", "got": null}"#;
    expect_differences(&rt, alloc, SCRIPT, 4, &[other])?;
    expect_differences(&rt, alloc, SCRIPT, 2, &[other, none])?;
    expect_differences(
        &rt,
        alloc,
        "proc 0 0 1 4\n1 close 7\n#= err EBADF\n",
        2,
        &[],
    )
}
