//! Lines as people type them, and the lines that they stand for.
use std::process::Abort;
use std::test::*;
use ux_syntax::{tidy_line, tidy_text};

/// A line, and the one that it stands for.
const LINES: &[(&str, &str)] = &[
    ("", ""),
    (" \t ", ""),
    ("1 read 0 5", "1 read 0 5"),
    // Blanks and tabs before, behind and between words.
    (" 1\tread   0 \t5\t", "1 read 0 5"),
    ("\tproc  1000 1000\t0 16 ", "proc 1000 1000 0 16"),
    // A comment behind a call or a line of the header, with blanks before it or none behind the mark.
    ("1 read 0 5 # all of it", "1 read 0 5"),
    ("1 read 0 5\t#all \"of it", "1 read 0 5"),
    ("proc 0 0 1 8   # root # and more", "proc 0 0 1 8"),
    // A whole line of comment stays one.
    ("# a comment", "# a comment"),
    ("   #  a comment # in one", "# a comment"),
    // What a call is expected to answer, in a line of its own.
    ("  #=  got 5  \"a  b\" - - -", "#= got 5 \"a  b\" - - -"),
    // And behind a call, where it may not stand: it isn't taken for a comment.
    ("1 read 0 5  #= bytes 0 -", "1 read 0 5 #= bytes 0 -"),
    ("1 read 0 5 # =  bytes 0 -", "1 read 0 5 # =  bytes 0 -"),
    ("1 read 0 5 # == half of it", "1 read 0 5"),
    // Text between quotation marks stays as it is, with blanks, tabs and what looks like a comment.
    (
        "1  write 0  \" a  b\t# c \"  # d",
        "1 write 0 \" a  b\t# c \"",
    ),
    (
        "1 send 0 - \"\" x:\"1  2\"  -",
        "1 send 0 - \"\" x:\"1  2\" -",
    ),
    // Behind a backslash a quotation mark is a byte of the text, and a backslash too.
    ("1 write 0 \"a\\\"  # b\"  #  c", "1 write 0 \"a\\\"  # b\""),
    ("1 write 0 \"a\\\\\"  # b\"", "1 write 0 \"a\\\\\""),
    // A number sign within a word begins no comment.
    ("1 open p:a#b r -", "1 open p:a#b r -"),
    ("1 open p:# r -", "1 open p:# r -"),
];

#[test]
fn a_line_is_read_as_it_is_typed(rt: HostRuntime) -> Result<(), Fail> {
    for (typed, wanted) in LINES {
        let line = tidy_line(rt.alloc(), typed.as_bytes())?;
        assert!(rt; line.as_slice() == wanted.as_bytes(), "{typed}");
    }
    Ok(())
}

/// A text, and the one of the lines that its lines stand for.
const TEXTS: &[(&str, &str)] = &[
    ("", ""),
    ("\n", "\n"),
    (" \n\n\t", "\n\n"),
    (
        "proc 0 0 1 8 # root\n  1  pair stream -\n\n1 close 0 # the end",
        "proc 0 0 1 8\n1 pair stream -\n\n1 close 0",
    ),
    // Text doesn't go on in the next line.
    ("1 write 0 \"a  \n b", "1 write 0 \"a  \nb"),
];

#[test]
fn each_line_of_a_text_is_read_so(rt: HostRuntime) -> Result<(), Fail> {
    for (typed, wanted) in TEXTS {
        let text = tidy_text(rt.alloc(), typed.as_bytes())?;
        assert!(rt; text.as_slice() == wanted.as_bytes(), "{typed}");
    }
    Ok(())
}
