//! Lines with text in them: what each escape stands for, where text may stand, and what is none.
use super::{expect_bad_lines, expect_fault, filled, request_in};
use std::alloc::Global;
use std::process::Abort;
use std::test::*;
use ux_syntax::{expectations_of, parse_script};

/// Sees that each of these calls is read as the one beside it, which has no text.
fn expect_same_calls(rt: &impl Abort, alloc: Global, rows: &[(&str, &str)]) -> Result<(), Fail> {
    for (call, plain) in rows {
        let read = request_in(alloc, call)?;
        let wanted = request_in(alloc, plain)?;
        assert_eq!(rt; read, wanted, "{call}");
    }
    Ok(())
}

/// Texts, and the digits of their bytes by ASCII and the escapes of C.
const TEXTS: &[(&str, &str)] = &[
    ("write 3 \"ok\"", "write 3 6f6b"),
    ("write 3 \"\"", "write 3 -"),
    (
        "write 3 \"\\a\\b\\t\\n\\v\\f\\r\"",
        "write 3 0708090a0b0c0d",
    ),
    ("write 3 \"\\\"\\\\\"", "write 3 225c"),
    (
        "write 3 \"\\x00\\x7f\\xff\\x5c\\x22n\"",
        "write 3 007fff5c226e",
    ),
    ("write 3 \"\\\\n\\\\x41\"", "write 3 5c6e5c783431"),
    ("write 3 \" a  b \"", "write 3 206120206220"),
    ("write 3 \"'?/%#:+,\"", "write 3 273f2f25233a2b2c"),
    ("write 3 \"\t\u{e9}\"", "write 3 09c3a9"),
];

#[test]
fn a_text_stands_for_its_bytes(rt: HostRuntime) -> Result<(), Fail> {
    expect_same_calls(&rt, rt.alloc(), TEXTS)
}

/// Every place of a call where HEX may stand, with text and without.
const PLACES: &[(&str, &str)] = &[
    ("send 0 - \"a b\" - -", "send 0 - 612062 - -"),
    (
        "send 0 p:\"q \"r\" x:\"s t\" d",
        "send 0 p:\"q 72 x:732074 d",
    ),
    ("send 0 a:x - x:\"\\x00\\n\" -", "send 0 a:x - x:000a -"),
    ("send 0 - \"r:1\" r:1 -", "send 0 - 723a31 r:1 -"),
    ("send 0 u \"\" c:1,2,3 -", "send 0 u - c:1,2,3 -"),
];

#[test]
fn text_may_stand_for_hex(rt: HostRuntime) -> Result<(), Fail> {
    expect_same_calls(&rt, rt.alloc(), PLACES)
}

/// The body of the first file object of a script, or nothing.
fn body_in(alloc: Global, text: &str) -> Result<Vec<u8>, Fail> {
    let script = parse_script(alloc, text.as_bytes())?;
    match script.objects.first() {
        Some(object) => Ok(Vec::from_slice(alloc, object.body.as_slice())?),
        None => Ok(Vec::new(alloc)),
    }
}

#[test]
fn a_memory_file_may_start_with_text(rt: HostRuntime) -> Result<(), Fail> {
    let alloc = rt.alloc();
    for text in [
        "object p:f mem \"k =\\n\"\n",
        "object p:f fail 2 mem \"k =\\n\"",
    ]
    .as_slice()
    {
        let body = body_in(alloc, text)?;
        assert!(rt; body.as_slice() == b"k =\n".as_slice(), "{text}");
    }
    Ok(())
}

/// What is no text, in place of a write's bytes.
const BAD_TEXTS: &[&str] = &[
    "\"",
    "\"ok",
    "\"ok\\\"",
    "\"\\",
    "\"\\\"",
    "\"\\q\"",
    "\"\\'\"",
    "\"\\?\"",
    "\"\\0\"",
    "\"\\N\"",
    "\"\\x\"",
    "\"\\x0\"",
    "\"\\x0g\"",
    "\"\\xF0\"",
    "\"a\"b",
    "\"a\"\"b\"",
    "\"a\"-",
    "a\"b\"",
    "-\"a\"",
    "\"a\" ",
    " \"a\"",
    "\"a\" \"b\"",
    "\"a\" b",
    "'a'",
    "x:\"a\"",
    "\u{201c}a\u{201d}",
];

#[test]
fn what_is_no_text_is_a_bad_line(rt: HostRuntime) -> Result<(), Fail> {
    expect_bad_lines(&rt, rt.alloc(), "1 write 3 ", BAD_TEXTS, "")
}

/// Lines with text in a place where HEX may not stand. Its digits would be a word that may.
const MISPLACED: &[&str] = &[
    "1 close \"\\x10\"",
    "1 read \"0\" 5",
    "1 read 0 \"\\x10\"",
    "1 write \"0\" 61",
    "1 dup2 0 \"1\"",
    "1 wait 1 \"\\x10\"",
    "1 setopt 0 passcred \"\\x10\"",
    "1 listen 0 \"\\x10\"",
    "1 recv 0 \"\\x10\" 0 -",
    "1 recv 0 1 \"\\x10\" -",
    "1 send \"\\x10\" - 61 - -",
    "1 send 0 \"\" 61 - -",
    "1 send 0 - 61 \"\" -",
    "1 send 0 - 61 \"a\" -",
    "1 send 0 - 61 x:\"\" -",
    "1 send 0 - 61 r:\"1\" -",
    "1 send 0 - 61 - \"\"",
    "1 unlink \"f\"",
    "1 \"exit\"",
    "\"1\" exit",
    "proc \"\\x10\" 0 0 1",
    "object p:f fail \"\\x10\" mem 61",
    "object p:f counter \"a\"",
    "object p:f fail 1 pipe \"\"",
    "object \"f\" mem 61",
];

#[test]
fn text_stands_nowhere_else(rt: HostRuntime) -> Result<(), Fail> {
    expect_bad_lines(&rt, rt.alloc(), "", MISPLACED, "")
}

/// Control space for so many rights: 16 bytes for a head and 4 for each number, up to a multiple of 8.
const SPACES: &[(&str, &str)] = &[
    ("recv 0 1 rights:0 -", "recv 0 1 16 -"),
    ("recv 0 1 rights:1 -", "recv 0 1 24 -"),
    ("recv 0 1 rights:2 -", "recv 0 1 24 -"),
    ("recv 0 1 rights:3 p", "recv 0 1 32 p"),
    ("recv 0 1 rights:253 -", "recv 0 1 1032 -"),
];

#[test]
fn space_may_be_that_of_so_many_rights(rt: HostRuntime) -> Result<(), Fail> {
    expect_same_calls(&rt, rt.alloc(), SPACES)
}

/// What is no control space of a receive.
const BAD_SPACES: &[&str] = &[
    "rights:",
    "rights",
    "rights:254",
    "rights:4294967296",
    "rights:01",
    "rights:-1",
    "rights:1 ",
    "Rights:1",
    "right:1",
    "rights:1,2",
    "rights:x",
    "rights:\"1\"",
    "r:1",
];

#[test]
fn what_is_no_space_is_a_bad_line(rt: HostRuntime) -> Result<(), Fail> {
    expect_bad_lines(&rt, rt.alloc(), "1 recv 0 1 ", BAD_SPACES, " -")
}

/// Lines with a number of rights in a place where no control space stands.
const MISPLACED_RIGHTS: &[&str] = &[
    "1 close rights:1",
    "1 read 0 rights:1",
    "1 recv 0 rights:1 0 -",
    "1 recv rights:1 1 0 -",
    "1 write 0 rights:1",
    "1 send 0 - 61 rights:1 -",
    "1 setopt 0 qlimit rights:1",
    "proc 0 0 0 rights:1",
];

#[test]
fn rights_stand_nowhere_else(rt: HostRuntime) -> Result<(), Fail> {
    expect_bad_lines(&rt, rt.alloc(), "", MISPLACED_RIGHTS, "")
}

/// The reply that the call of a text's second line is expected to give, or nothing.
fn expected_in(alloc: Global, text: &str) -> Result<Vec<u8>, Fail> {
    match expectations_of(alloc, text.as_bytes())?.first() {
        Some(one) => Ok(Vec::from_slice(alloc, one.reply.as_slice())?),
        None => Ok(Vec::new(alloc)),
    }
}

/// Replies as they are written, and in plain words. What is no text stays.
const REPLIES: &[(&str, &str)] = &[
    ("bytes \"ok\"", "bytes 6f6b"),
    ("bytes \"a b\" closed 0", "bytes 612062 closed 0"),
    ("bytes \"\"", "bytes -"),
    ("got 2 \"hi\" - r:1 a:x", "got 2 6869 - r:1 a:x"),
    (
        "got 2 \"h \" TRUNC x:\"a b\" -",
        "got 2 6820 TRUNC x:612062 -",
    ),
    ("got 2 6869 - x:\"\\n\" p:\"", "got 2 6869 - x:0a p:\""),
    ("bytes \"ok", "bytes \"ok"),
    ("bytes \"o\\k\"", "bytes \"o\\k\""),
    ("fd \"\\x10\"", "fd \"\\x10\""),
    ("\"ok\"", "\"ok\""),
    ("err EBADF", "err EBADF"),
];

#[test]
fn an_expectation_may_have_text(rt: HostRuntime) -> Result<(), Fail> {
    let alloc = rt.alloc();
    for (written, plain) in REPLIES {
        let text = format!(in alloc; "proc 0 0 0 1\n1 read 0 2\n#= {written}\n")?;
        let reply = expected_in(alloc, &text)?;
        assert!(rt; reply.as_slice() == plain.as_bytes(), "{written}");
    }
    Ok(())
}

/// Texts without fault in which quotation marks mean nothing.
const UNTOUCHED: &[&str] = &[
    "# \"\n#\"\\q\n#= \n",
    "proc 0 0 0 1\n1 open p:\" r -\n1 bind 0 a:\"a\"\n1 unlink p:a\"\\q\n",
];

#[test]
fn marks_in_names_and_comments_mean_nothing(rt: HostRuntime) -> Result<(), Fail> {
    let alloc = rt.alloc();
    for text in UNTOUCHED {
        expect_fault(&rt, alloc, text, "")?;
    }
    Ok(())
}

/// A script whose second line writes a text of these bytes, and has so many in all.
fn long_line(alloc: Global, filler: char, count: usize) -> Result<String, Fail> {
    let front = "proc 0 0 0 1\n1 write 3 \"";
    let bytes = count
        .saturating_add("proc 0 0 0 1\n".len())
        .saturating_sub(1);
    let mut text = filled(alloc, front, filler, bytes)?;
    text.push('"')?;
    Ok(text)
}

#[test]
fn a_line_is_as_long_as_it_is_written(rt: HostRuntime) -> Result<(), Fail> {
    let alloc = rt.alloc();
    expect_fault(&rt, alloc, &long_line(alloc, 'a', 4096)?, "")?;
    expect_fault(
        &rt,
        alloc,
        &long_line(alloc, 'a', 4097)?,
        "line 2: too long",
    )
}
