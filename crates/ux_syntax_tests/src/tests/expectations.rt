//! Comments that say what a call is expected to answer: which are found, and which are at fault.
use std::alloc::Global;
use std::process::Abort;
use std::test::*;
use ux_syntax::{Expectation, expectations_of};

/// What is expected, as `LINE=REPLY;` for each.
fn list_of(alloc: Global, expected: &[Expectation]) -> Result<String, Fail> {
    let mut reported = String::new(alloc);
    for one in expected {
        let line = one.line;
        let reply = String::from_utf8(Vec::from_slice(alloc, one.reply.as_slice())?).map_err(
            |_| "no text",
        )?;
        reported.push_str(&format!(in alloc; "{line}={reply};")?)?;
    }
    Ok(reported)
}

/// What the calls of a text are expected to answer, or the text of its fault.
fn found_in(alloc: Global, text: &str) -> Result<String, Fail> {
    match expectations_of(alloc, text.as_bytes()) {
        Ok(expected) => list_of(alloc, &expected),
        Err(fault) => Ok(fault.to_string(alloc)?),
    }
}

/// Sees what is found in each of these texts.
fn expect_found(rt: &impl Abort, alloc: Global, rows: &[(&str, &str)]) -> Result<(), Fail> {
    for (text, found) in rows {
        let reported = found_in(alloc, text)?;
        assert_eq!(rt; reported.as_str(), *found, "{text}");
    }
    Ok(())
}

/// Texts with what their calls are expected to answer.
const FOUND: &[(&str, &str)] = &[
    ("", ""),
    ("proc 0 0 0 1\n1 close 0\n", ""),
    ("proc 0 0 0 1\n1 close 0\n#= err EBADF\n", "2=err EBADF;"),
    ("proc 0 0 0 1\n1 close 0\n#= err EBADF", "2=err EBADF;"),
    (
        "# one\n\nproc 0 0 0 1\n1 exit\n#= ok closed 0 3\n",
        "4=ok closed 0 3;",
    ),
    (
        "proc 0 0 0 1\n1 dup 0\n#= fd 1\n1 dup 1\n1 dup 2\n#= fd 3\noff\n",
        "2=fd 1;5=fd 3;",
    ),
    (
        "proc 0 0 0 1\n1 dup 0\n#= got 2 6869 - r:1 a:%23=\n",
        "2=got 2 6869 - r:1 a:%23=;",
    ),
    ("proc 0 0 0 1\n1 close 0\n#=  ok \n", "2=ok ;"),
    ("proc 0 0 0 1\n1 dup 0\n#=fd 0\n", "2=fd 0;"),
    ("proc 0 0 0 1\n1 dup 0\n# = fd 5\n", "2=fd 5;"),
    ("proc 0 0 0 1\n1 dup 0\n#\t=\tfd 5\n", "2=fd 5;"),
    (
        "proc 0 0 0 1\n1 read 0 2\n#=bytes \"ok\"\n",
        "2=bytes 6f6b;",
    ),
];

#[test]
fn what_stands_behind_a_call_is_expected(rt: HostRuntime) -> Result<(), Fail> {
    expect_found(&rt, rt.alloc(), FOUND)
}

/// Comments that expect nothing, wherever they stand.
const BLANK: &[(&str, &str)] = &[
    ("#=\n#= \n# =\n#\n#==\n# == ok\n ", ""),
    ("proc 0 0 0 1\n#=\n1 close 0\n#=\n1 close 0\n#= \n", ""),
    (
        "proc 0 0 0 1\n1 close 0\n#===== ok =====\n1 close 0\n# #= ok\n1 close 0\n# ok = ok\n",
        "",
    ),
];

#[test]
fn a_blank_comment_expects_nothing(rt: HostRuntime) -> Result<(), Fail> {
    expect_found(&rt, rt.alloc(), BLANK)
}

/// Texts in which a comment expects something of a line that is no call.
const MISPLACED: &[(&str, &str)] = &[
    ("#= ok\n", "line 1: bad line"),
    ("#=ok\n", "line 1: bad line"),
    ("# = ok\n", "line 1: bad line"),
    ("proc 0 0 0 1\n#= ok\n", "line 2: bad line"),
    (
        "proc 0 0 0 1\n1 wait 1 0\n#= ok\n1 close 0\n",
        "line 3: bad line",
    ),
    ("proc 0 0 0 1\noff\n#= ok", "line 3: bad line"),
    ("proc 0 0 0 1\n1 close 0\n\n#= ok\n", "line 4: bad line"),
    ("proc 0 0 0 1\n1 close 0\n# no\n#= ok\n", "line 4: bad line"),
    ("proc 0 0 0 1\n1 close 0\n#=\n#= ok\n", "line 4: bad line"),
    (
        "proc 0 0 0 1\n1 close 0\n#= ok\n#= ok\n",
        "line 4: bad line",
    ),
    (
        "proc 0 0 0 1\n1 close 0\n#= ok\n\n#= ok\n#= ok\n",
        "line 5: bad line",
    ),
];

#[test]
fn what_is_expected_of_no_call_is_a_bad_line(rt: HostRuntime) -> Result<(), Fail> {
    expect_found(&rt, rt.alloc(), MISPLACED)
}
