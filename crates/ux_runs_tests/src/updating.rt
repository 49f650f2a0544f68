//! Replies that are written into the text of a script.

use crate::beside::serial_history;
use std::alloc::Global;
use std::process::Abort;
use std::test::Fail;
use ux_script::{differences, line_numbers, with_replies};
use ux_syntax::{expectations_of, parse_script};

/// A text, and the same with what its calls answer.
const ROWS: &[(&str, &str)] = &[
    // A reply that nothing stands for is a further line, also behind the last line, which has no line feed.
    (
        "proc 1000 1000 0 16\n1 pair stream -\n1 send 0 - 6869 - -\n# the end\n1 close 1",
        "proc 1000 1000 0 16\n1 pair stream -\n#= fds 0 1\n1 send 0 - 6869 - -\n#= n 2\n# the end\n1 close 1\n#= ok",
    ),
    // One that another stands for takes its place; one that is right stays as it is written.
    (
        "proc 1000 1000 0 16\n1 pair stream -\n#= fds 3 4\n1 send 0 - 6869 - -\n# =  n 2\n1 recv 1 8 0 -\n#= got 2 \"hi\" - - -\n",
        "proc 1000 1000 0 16\n1 pair stream -\n#= fds 0 1\n1 send 0 - 6869 - -\n# =  n 2\n1 recv 1 8 0 -\n#= got 2 \"hi\" - - -\n",
    ),
    // Where nothing is expected nothing is written, and a row of equals signs isn't an expectation.
    (
        "proc 1000 1000 0 16\n1 close 7\n#=\n1 close 7\n#====\n",
        "proc 1000 1000 0 16\n1 close 7\n#=\n1 close 7\n#= err EBADF\n#====\n",
    ),
    // A wait is no call.
    (
        "proc 1000 1000 0 16\nproc 0 0 1 16\n1 wait 2 0\n\n2 exit\n",
        "proc 1000 1000 0 16\nproc 0 0 1 16\n1 wait 2 0\n\n2 exit\n#= ok\n",
    ),
];

/// The text of a script with what its calls answer.
fn updated(alloc: Global, text: &str) -> Result<Vec<u8>, Fail> {
    let script = parse_script(alloc, text.as_bytes())?;
    let history = serial_history(alloc, &script)?;
    let lines = line_numbers(alloc, &script, &history)?;
    Ok(with_replies(alloc, text.as_bytes(), &lines, &history)?)
}

#[test]
fn replies_are_written_behind_their_calls(rt: HostRuntime) -> Result<(), Fail> {
    for (text, wanted) in ROWS {
        let written = updated(rt.alloc(), text)?;
        assert!(rt; written.as_slice() == wanted.as_bytes(), "{text}");
    }
    Ok(())
}

#[test]
fn what_was_written_is_met_and_stays(rt: HostRuntime) -> Result<(), Fail> {
    let alloc = rt.alloc();
    for (text, wanted) in ROWS {
        let script = parse_script(alloc, wanted.as_bytes())?;
        let history = serial_history(alloc, &script)?;
        let lines = line_numbers(alloc, &script, &history)?;
        let expected = expectations_of(alloc, wanted.as_bytes())?;
        assert!(rt;
            differences(alloc, &expected, &lines, &history)?.is_empty(),
            "{text}"
        );
        let again = with_replies(alloc, wanted.as_bytes(), &lines, &history)?;
        assert!(rt; again.as_slice() == wanted.as_bytes(), "{text}");
    }
    Ok(())
}

/// A call that wasn't made, as in a run that a deadlock ended, leaves its lines as they are.
#[test]
fn a_call_that_was_not_made_is_left_as_it_is(rt: HostRuntime) -> Result<(), Fail> {
    for text in ["1 close 1\n#= ok\n1 close 2\n", ""] {
        let written = with_replies(rt.alloc(), text.as_bytes(), &[], &[])?;
        assert!(rt; written.as_slice() == text.as_bytes());
    }
    Ok(())
}
