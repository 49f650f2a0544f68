//! The sequence diagram of a run: its arrows lead from participants to participants.

use crate::listings::{FLAGS, PASSING};
use crate::moments::Run;
use std::alloc::Global;
use std::process::Abort;
use std::test::Fail;

/// The processes that an arrow of a line leads from and to.
fn arrow_of(line: &str) -> Option<(&str, &str)> {
    let (ends, _) = line.trim().split_once(": ")?;
    match ends.split_once("-->>") {
        Some(ends) => Some(ends),
        None => ends.split_once("->>"),
    }
}

/// Whether the process is one of the participants.
fn is_participant(text: &str, name: &str) -> bool {
    text.lines().any(|line| {
        line.strip_prefix("  participant ")
            .and_then(|behind| behind.strip_prefix(name))
            .is_some_and(|behind| behind.starts_with(" as process "))
    })
}

#[test]
fn arrows_lead_to_participants(rt: HostRuntime) -> Result<(), Fail> {
    let alloc = rt.alloc();
    for script in [PASSING, FLAGS, BETWEEN] {
        let text = Run::of(alloc, script)?.diagram(alloc)?;
        for line in text.lines() {
            if let Some((from, to)) = arrow_of(line) {
                assert!(rt; is_participant(&text, from), "{line}");
                assert!(rt; is_participant(&text, to), "{line}");
            }
        }
    }
    Ok(())
}

/// Two processes send to a third, which peeks at the first message and takes both, the later one last.
const BETWEEN: &str = "\
proc 1000 1000 0 8
proc 1000 1000 0 8
1 socket dgram -
1 bind 0 a:#;
1 fork
2 socket dgram -
2 send 0 a:#; 61 - -
3 send 0 a:#; 62 - -
1 recv 0 1 0 p
1 recv 0 1 0 -
1 recv 0 1 0 -
";

const ARROWS: &[(&str, &str)] = &[("p2", "p1"), ("p2", "p1"), ("p3", "p1")];

/// Two processes connect to a listener, and once to nobody; a child of its process accepts the first, and that the second.
const CONNECTING: &str = "\
proc 1000 1000 0 8
proc 1000 1000 0 8
1 socket stream -
1 bind 0 a:x
1 listen 0 4
1 fork
2 socket stream -
2 connect 0 a:x
1 socket stream -
1 connect 1 a:x
2 socket stream -
2 connect 1 a:y
3 accept 0 -
1 accept 0 -
1 accept 9 -
";

const CONNECTIONS: &[(&str, &str)] = &[("p2", "p1"), ("p1", "p1"), ("p2", "p3"), ("p1", "p1")];

/// Sees the arrows of a run, and gives its diagram.
fn expect_arrows(
    rt: &impl Abort,
    alloc: Global,
    script: &str,
    arrows: &[(&str, &str)],
) -> Result<String, Fail> {
    let text = Run::of(alloc, script)?.diagram(alloc)?;
    let mut found: usize = 0;
    for line in text.lines() {
        if let Some(arrow) = arrow_of(line) {
            assert!(rt; arrows.get(found) == Some(&arrow), "{line}");
            found = found.saturating_add(1);
        }
    }
    assert!(rt; found == arrows.len());
    Ok(text)
}

#[test]
fn who_connects_is_an_arrow(rt: HostRuntime) -> Result<(), Fail> {
    let text = expect_arrows(&rt, rt.alloc(), CONNECTING, CONNECTIONS)?;
    assert!(rt; text.contains("  p2->>p3: 13 3 accept(0, -) = accepted 1 u"));
    assert!(rt; text.contains("  Note over p2: 12 2 connect(1, a:y) = err ECONNREFUSED"));
    Ok(())
}

#[test]
fn each_arrow_begins_with_the_sender(rt: HostRuntime) -> Result<(), Fail> {
    let text = expect_arrows(&rt, rt.alloc(), BETWEEN, ARROWS)?;
    assert!(rt; text.contains("  p2-->>p1: 9 1 recv(0, 1, 0, p) = got 1 "));
    assert!(rt; text.contains("  Note over p2: 7 2 send(0, a:#35;#59;, "));
    Ok(())
}
