//! The graph of a snapshot: its edges lead from nodes to nodes.

use crate::listings::{FLAGS, PASSING};
use crate::moments::Run;
use std::process::Abort;
use std::test::Fail;
use ux_holders::dot;

/// The nodes that an edge of a line leads from and to.
fn edge_of(line: &str) -> Option<(&str, &str)> {
    let (from, behind) = line.trim().split_once(" -> ")?;
    let (to, _) = behind.split_once([' ', ';'])?;
    Some((from, to))
}

/// The line that makes the node of this name.
fn node_of<'a>(text: &'a str, name: &str) -> Option<&'a str> {
    text.lines().find(|line| {
        line.trim().strip_prefix(name).is_some_and(|behind| behind.starts_with(" [")
            && behind.ends_with("];"))
    })
}

/// Whether there is such a node, and the number of its record, where one is named.
fn is_node(text: &str, name: &str) -> bool {
    match name.split_once(':') {
        None => node_of(text, name).is_some(),
        Some((process, field)) => node_of(text, process).is_some_and(|line| {
            let (_, fields) = line.split_once('<').unwrap_or(("", ""));
            fields.split(['<', '|']).any(|part| part
                .strip_prefix(field)
                .is_some_and(|behind| behind.starts_with('>')))
        }),
    }
}

#[test]
fn edges_lead_to_nodes(rt: HostRuntime) -> Result<(), Fail> {
    let alloc = rt.alloc();
    for script in [PASSING, FLAGS] {
        let run = Run::of(alloc, script)?;
        for count in 0..run.len() {
            let held = run.after(alloc, count)?;
            let text = dot(alloc, &held)?;
            for line in text.lines() {
                if let Some((from, to)) = edge_of(line) {
                    assert!(rt; is_node(&text, from), "{line}");
                    assert!(rt; is_node(&text, to), "{line}");
                }
            }
        }
    }
    Ok(())
}

/// The file that is in flight, and whoever holds it.
const SENT: &[(&str, &str)] = &[
    ("p1:f1", "d3"),
    ("m2_0", "d3"),
    ("d2", "m2_0"),
    ("d3", "o0"),
    ("f0", "o0"),
    ("d1", "d2"),
    ("d2", "d1"),
];

#[test]
fn what_is_held_is_an_edge(rt: HostRuntime) -> Result<(), Fail> {
    let alloc = rt.alloc();
    let held = Run::of(alloc, PASSING)?.after(alloc, 8)?;
    let text = dot(alloc, &held)?;
    for (from, to) in SENT {
        assert!(rt;
            text.lines().any(|line| edge_of(line) == Some((*from, *to))),
            "{from} {to}"
        );
    }
    Ok(())
}

/// A name with a quotation mark and a backslash.
const QUOTED: &str = "\
proc 1000 1000 0 8
1 socket dgram -
1 bind 0 a:q\"\\
";

#[test]
fn labels_are_escaped(rt: HostRuntime) -> Result<(), Fail> {
    let alloc = rt.alloc();
    let held = Run::of(alloc, QUOTED)?.after(alloc, 2)?;
    let text = dot(alloc, &held)?;
    assert!(rt; text.contains("dgram socket a:q\\\"\\\\,\\nidle\""));
    Ok(())
}
