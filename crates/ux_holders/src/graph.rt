//! A snapshot as a graph, in the language of Graphviz.

use crate::rows::{
    DescriptionRow, MessageRow, ObjectRow, PathRow, ProcessRow, SocketRow, TargetRow,
};
use crate::snapshot::Snapshot;
use crate::text::{DescriptionText, MessageText, ObjectText};
use std::alloc::{AllocError, Global};
use std::fmt;
use ux_names::PathTarget;
use ux_trace::NameText;
use ux_types::DescriptionId;

/// A text between the quotation marks of a label.
#[derive(Clone, Copy)]
struct Quoted<'a>(&'a str);

impl fmt::Display for Quoted<'_> {
    fn fmt<W: fmt::Write>(&self, f: &mut fmt::Formatter<W>) -> fmt::Result {
        for letter in self.0.chars() {
            match letter {
                '"' | '\\' => write!(f, "\\{letter}")?,
                _ => write!(f, "{letter}")?,
            }
        }
        Ok(())
    }
}

/// The same, in lines that end behind its commas, so that a node isn't wide.
#[derive(Clone, Copy)]
struct Label<'a>(&'a str);

impl fmt::Display for Label<'_> {
    fn fmt<W: fmt::Write>(&self, f: &mut fmt::Formatter<W>) -> fmt::Result {
        for (place, part) in self.0.split(", ").enumerate() {
            if place > 0 {
                write!(f, ",\\n")?;
            }
            let part = Quoted(part);
            write!(f, "{part}")?;
        }
        Ok(())
    }
}

/// What stands before the nodes: rows from top to bottom, in a typeface and with arrows that take little room.
const HEAD: &str = "digraph holders {
  graph [rankdir=TB, nodesep=0.25, ranksep=0.45];
  node [shape=box, style=filled, fillcolor=white, color=\"#3b5b7a\", fontname=\"Helvetica\", fontsize=11, margin=\"0.1,0.05\"];
  edge [color=\"#3b5b7a\", fontname=\"Helvetica\", fontsize=10, arrowsize=0.7];
";

/// The graph of a snapshot: a row of processes, each with a record of its open numbers, and below it nodes for descriptions,
/// messages that wait, file objects and paths. An edge leads from whoever holds a reference to what it refers to; dashed ones
/// lead to the socket that another is tied to, and red ones from a message to what it passes.
///
/// # Errors
///
/// Out of memory.
pub fn dot(alloc: Global, snapshot: &Snapshot) -> Result<String, AllocError> {
    let mut out = String::from_str(alloc, HEAD)?;
    for row in &snapshot.processes {
        put_process(alloc, &mut out, row)?;
    }
    put_row(alloc, &mut out, &snapshot.processes)?;
    put_descriptions(alloc, &mut out, snapshot)?;
    put_objects(alloc, &mut out, &snapshot.objects)?;
    put_paths(alloc, &mut out, snapshot)?;
    out.push_str("}\n")?;
    Ok(out)
}

/// Puts the processes in one row.
fn put_row(alloc: Global, out: &mut String, rows: &[ProcessRow]) -> Result<(), AllocError> {
    out.push_str("  { rank=same;")?;
    for row in rows {
        let pid = row.pid.0;
        put(out, format!(in alloc; " p{pid};"))?;
    }
    out.push_str(" }\n")
}

/// Appends a line.
fn put(out: &mut String, line: Result<String, AllocError>) -> Result<(), AllocError> {
    let line = line?;
    out.push_str(line.as_str())
}

/// A record with the numbers of a process, and an edge from each to its description.
fn put_process(alloc: Global, out: &mut String, row: &ProcessRow) -> Result<(), AllocError> {
    let pid = row.pid.0;
    put(
        out,
        format!(in alloc;
            "  p{pid} [shape=record, fillcolor=\"#e3edf7\", label=\"{{process {pid}|{{"
        ),
    )?;
    for (place, number) in row.numbers.iter().enumerate() {
        let fd = number.fd.0;
        let bar = if place > 0 { "|" } else { "" };
        let cloexec = if number.descriptor.cloexec {
            " cloexec"
        } else {
            ""
        };
        put(out, format!(in alloc; "{bar}<f{fd}> {fd}{cloexec}"))?;
    }
    out.push_str("}}\"];\n")?;
    put_numbers(alloc, out, row)
}

fn put_numbers(alloc: Global, out: &mut String, row: &ProcessRow) -> Result<(), AllocError> {
    let pid = row.pid.0;
    for number in &row.numbers {
        let fd = number.fd.0;
        let description = number.descriptor.description.number();
        put(
            out,
            format!(in alloc; "  p{pid}:f{fd} -> d{description};\n"),
        )?;
    }
    Ok(())
}

fn put_descriptions(
    alloc: Global,
    out: &mut String,
    snapshot: &Snapshot,
) -> Result<(), AllocError> {
    for row in &snapshot.descriptions {
        put_description(alloc, out, snapshot, row)?;
    }
    Ok(())
}

/// A description, what waits at it, and what it leads or is tied to.
fn put_description(
    alloc: Global,
    out: &mut String,
    snapshot: &Snapshot,
    row: &DescriptionRow,
) -> Result<(), AllocError> {
    let number = row.id.number();
    let text = DescriptionText { snapshot, row };
    let text = format!(in alloc; "{text}")?;
    let label = Label(text.as_str());
    put(
        out,
        format!(in alloc; "  d{number} [style=\"rounded,filled\", label=\"{label}\"];\n"),
    )?;
    match &row.target {
        TargetRow::Object(object) => put(out, format!(in alloc; "  d{number} -> o{object};\n")),
        TargetRow::Socket(socket) => put_socket(alloc, out, snapshot, row.id, socket),
    }
}

/// What waits at a socket, and the socket that it is tied to, while that is there.
fn put_socket(
    alloc: Global,
    out: &mut String,
    snapshot: &Snapshot,
    id: DescriptionId,
    socket: &SocketRow,
) -> Result<(), AllocError> {
    let number = id.number();
    if let Some(other) = socket.peer.or(socket.association) {
        if snapshot.has(other) {
            let other = other.number();
            put(
                out,
                format!(in alloc; "  d{number} -> d{other} [style=dashed];\n"),
            )?;
        }
    }
    put_ends(alloc, out, number, &socket.pending)?;
    put_messages(alloc, out, number, &socket.messages)
}

fn put_ends(
    alloc: Global,
    out: &mut String,
    number: u128,
    ends: &[DescriptionId],
) -> Result<(), AllocError> {
    for end in ends {
        let end = end.number();
        put(
            out,
            format!(in alloc; "  d{number} -> d{end} [label=\"backlog\"];\n"),
        )?;
    }
    Ok(())
}

fn put_messages(
    alloc: Global,
    out: &mut String,
    number: u128,
    messages: &[MessageRow],
) -> Result<(), AllocError> {
    for (index, row) in messages.iter().enumerate() {
        let text = MessageText { index, row };
        let text = format!(in alloc; "{text}")?;
        let label = Label(text.as_str());
        put(
            out,
            format!(in alloc;
                "  m{number}_{index} [shape=note, fillcolor=\"#fff6dd\", label=\"{label}\"];\n"
            ),
        )?;
        put(
            out,
            format!(in alloc; "  d{number} -> m{number}_{index};\n"),
        )?;
        put_rights(alloc, out, number, index, &row.rights)?;
    }
    Ok(())
}

fn put_rights(
    alloc: Global,
    out: &mut String,
    number: u128,
    index: usize,
    rights: &[DescriptionId],
) -> Result<(), AllocError> {
    for right in rights {
        let right = right.number();
        put(
            out,
            format!(in alloc; "  m{number}_{index} -> d{right} [color=\"#b5472f\"];\n"),
        )?;
    }
    Ok(())
}

fn put_objects(alloc: Global, out: &mut String, objects: &[ObjectRow]) -> Result<(), AllocError> {
    for row in objects {
        let number = row.number;
        let text = ObjectText(*row);
        let text = format!(in alloc; "{text}")?;
        let label = Label(text.as_str());
        put(
            out,
            format!(in alloc;
                "  o{number} [shape=cylinder, fillcolor=\"#e9f4ea\", color=\"#3f7d4a\", label=\"{label}\"];\n"
            ),
        )?;
    }
    Ok(())
}

fn put_paths(alloc: Global, out: &mut String, snapshot: &Snapshot) -> Result<(), AllocError> {
    for (index, row) in snapshot.paths.iter().enumerate() {
        put_path(alloc, out, snapshot, index, row)?;
    }
    Ok(())
}

/// A path, and an edge to what it names, while that is there.
fn put_path(
    alloc: Global,
    out: &mut String,
    snapshot: &Snapshot,
    index: usize,
    row: &PathRow,
) -> Result<(), AllocError> {
    let name = NameText(row.name.as_bytes());
    let text = format!(in alloc; "p:{name}")?;
    let label = Label(text.as_str());
    put(
        out,
        format!(in alloc; "  f{index} [shape=plaintext, style=\"\", label=\"{label}\"];\n"),
    )?;
    match row.target {
        PathTarget::File(object) => put(out, format!(in alloc; "  f{index} -> o{object};\n")),
        PathTarget::Socket(id) if snapshot.has(id) => {
            let number = id.number();
            put(out, format!(in alloc; "  f{index} -> d{number};\n"))
        }
        PathTarget::Socket(_) => Ok(()),
    }
}
