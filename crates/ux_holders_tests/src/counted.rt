//! Each reference of a description is found somewhere.

use crate::listings::{FLAGS, PASSING};
use crate::moments::Run;
use std::process::Abort;
use std::test::Fail;

/// References of all kinds: copies, a child's, rights that are sent twice, in a message that nobody can receive, and
/// ends that wait.
const NESTED: &str = "\
object p:a mem 61
proc 1000 1000 0 8
proc 1000 1000 0 8
1 open p:a r -
1 dup 0
1 pair stream -
1 send 2 - 78 r:0,0,1 -
1 pair dgram -
1 send 4 - 79 r:2,3 -
1 fork
1 send 3 - 7a r:3,5 -
1 close 2
1 close 3
2 socket stream -
2 bind 0 a:s
2 listen 0 2
2 socket stream -
2 connect 1 a:s
2 socket stream -
2 connect 2 a:s
3 recv 5 1 24 -
3 exec
1 exit
";

/// How many references a line of a description announces.
fn announced(line: &str) -> Option<usize> {
    let (_, behind) = line.split_once(": ")?;
    let (count, _) = behind.split_once(" reference")?;
    count.parse().ok()
}

/// Sees that behind each description's line as many lines say where its references are.
fn expect_counted(rt: &impl Abort, text: &str) {
    let mut left: usize = 0;
    for line in text.lines() {
        if line.starts_with("  held by ") {
            assert!(rt; left > 0, "{line}");
            left -= 1;
        } else if line.starts_with("description ") {
            assert!(rt; left == 0, "{line}");
            left = announced(line).unwrap_or(usize::MAX);
        }
    }
    assert!(rt; left == 0);
}

#[test]
fn each_reference_is_found(rt: HostRuntime) -> Result<(), Fail> {
    let alloc = rt.alloc();
    for script in [PASSING, FLAGS, NESTED] {
        let run = Run::of(alloc, script)?;
        for count in 0..run.len() {
            let held = run.after(alloc, count)?;
            let text = format!(in alloc; "{held}")?;
            expect_counted(&rt, &text);
        }
    }
    Ok(())
}
