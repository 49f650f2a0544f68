//! The text of a snapshot, a line for each thing.

use crate::holders::HolderLines;
use crate::rows::{
    DescriptionRow, MessageRow, NumberRow, ObjectRow, PathRow, ProcessRow, SocketRow, TargetRow,
};
use crate::snapshot::Snapshot;
use crate::words::{Counted, object_word};
use std::fmt;
use ux_names::PathTarget;
use ux_object::ObjKind;
use ux_trace::{AddrText, NameText, mode_word, type_word};
use ux_types::{Addr, DescriptionId};

/// Processes with their numbers, then descriptions with who holds them and what waits, then file objects, then paths.
impl fmt::Display for Snapshot {
    fn fmt<W: fmt::Write>(&self, f: &mut fmt::Formatter<W>) -> fmt::Result {
        let processes = ProcessLines(self.processes.as_slice());
        let descriptions = DescriptionLines(self);
        let objects = ObjectLines(self.objects.as_slice());
        let paths = PathLines(self);
        write!(f, "{processes}{descriptions}{objects}{paths}")
    }
}

#[derive(Clone, Copy)]
struct ProcessLines<'a>(&'a [ProcessRow]);

impl fmt::Display for ProcessLines<'_> {
    fn fmt<W: fmt::Write>(&self, f: &mut fmt::Formatter<W>) -> fmt::Result {
        for row in self.0 {
            let pid = row.pid.0;
            let numbers = NumberLines(row.numbers.as_slice());
            write!(f, "process {pid}\n{numbers}")?;
        }
        Ok(())
    }
}

#[derive(Clone, Copy)]
struct NumberLines<'a>(&'a [NumberRow]);

impl fmt::Display for NumberLines<'_> {
    fn fmt<W: fmt::Write>(&self, f: &mut fmt::Formatter<W>) -> fmt::Result {
        for row in self.0 {
            let fd = row.fd.0;
            let description = row.descriptor.description.number();
            let cloexec = flag_text(row.descriptor.cloexec, " cloexec");
            write!(f, "  {fd} -> {description}{cloexec}\n")?;
        }
        Ok(())
    }
}

/// The text, where the flag is set.
fn flag_text(is_set: bool, text: &'static str) -> &'static str {
    if is_set { text } else { "" }
}

#[derive(Clone, Copy)]
struct DescriptionLines<'a>(&'a Snapshot);

impl fmt::Display for DescriptionLines<'_> {
    fn fmt<W: fmt::Write>(&self, f: &mut fmt::Formatter<W>) -> fmt::Result {
        for row in &self.0.descriptions {
            let text = DescriptionText {
                snapshot: self.0,
                row,
            };
            let holders = HolderLines {
                snapshot: self.0,
                id: row.id,
            };
            let messages = WaitingLines(&row.target);
            write!(f, "{text}\n{holders}{messages}")?;
        }
        Ok(())
    }
}

/// What waits at a socket; nothing waits at a file object.
#[derive(Clone, Copy)]
struct WaitingLines<'a>(&'a TargetRow);

impl fmt::Display for WaitingLines<'_> {
    fn fmt<W: fmt::Write>(&self, f: &mut fmt::Formatter<W>) -> fmt::Result {
        match self.0 {
            TargetRow::Object(_) => Ok(()),
            TargetRow::Socket(socket) => {
                let messages = MessageLines(socket.messages.as_slice());
                write!(f, "{messages}")
            }
        }
    }
}

/// A description, with how many references it has and what it leads to.
#[derive(Clone, Copy)]
pub(crate) struct DescriptionText<'a> {
    pub(crate) snapshot: &'a Snapshot,
    pub(crate) row: &'a DescriptionRow,
}

impl fmt::Display for DescriptionText<'_> {
    fn fmt<W: fmt::Write>(&self, f: &mut fmt::Formatter<W>) -> fmt::Result {
        let row = self.row;
        let number = row.id.number();
        let references = Counted {
            count: row.references,
            noun: "reference",
        };
        let nonblock = flag_text(row.nonblock, ", nonblock");
        write!(f, "description {number}: {references}, ")?;
        match &row.target {
            TargetRow::Object(object) => {
                let offset = row.offset;
                let mode = mode_word(row.mode);
                let append = flag_text(row.append, ", append");
                write!(
                    f,
                    "object {object}, {mode}, offset {offset}{append}{nonblock}"
                )
            }
            TargetRow::Socket(socket) => {
                let text = SocketText {
                    snapshot: self.snapshot,
                    socket,
                };
                write!(f, "{text}{nonblock}")
            }
        }
    }
}

/// A socket: its type, its name, whom it is tied to, and its flags.
#[derive(Clone, Copy)]
struct SocketText<'a> {
    snapshot: &'a Snapshot,
    socket: &'a SocketRow,
}

impl fmt::Display for SocketText<'_> {
    fn fmt<W: fmt::Write>(&self, f: &mut fmt::Formatter<W>) -> fmt::Result {
        let socket = self.socket;
        let kind = type_word(socket.kind);
        let name = Named(&socket.name);
        let tie = TieText {
            snapshot: self.snapshot,
            socket,
        };
        let passcred = flag_text(socket.passcred, ", passcred");
        let read_shut = flag_text(socket.read_shut, ", shut for reading");
        let write_shut = flag_text(socket.write_shut, ", shut for writing");
        let reset = flag_text(socket.reset, ", reset");
        write!(
            f,
            "{kind} socket{name}, {tie}{passcred}{read_shut}{write_shut}{reset}"
        )
    }
}

/// The name of a socket that has one.
#[derive(Clone, Copy)]
struct Named<'a>(&'a Addr);

impl fmt::Display for Named<'_> {
    fn fmt<W: fmt::Write>(&self, f: &mut fmt::Formatter<W>) -> fmt::Result {
        if matches!(self.0, Addr::Unnamed) {
            return Ok(());
        }
        let name = AddrText(self.0);
        write!(f, " {name}")
    }
}

/// Whom a socket is tied to, and whether that one is gone; or how many wait at it.
#[derive(Clone, Copy)]
struct TieText<'a> {
    snapshot: &'a Snapshot,
    socket: &'a SocketRow,
}

impl fmt::Display for TieText<'_> {
    fn fmt<W: fmt::Write>(&self, f: &mut fmt::Formatter<W>) -> fmt::Result {
        let socket = self.socket;
        if let Some(limit) = socket.backlog {
            let pending = socket.pending.len();
            return write!(f, "listening, {pending} of {limit} waiting");
        }
        if let Some(peer) = socket.peer {
            let peer = self.snapshot.place_of(peer);
            return write!(f, "connected to {peer}");
        }
        if let Some(target) = socket.association {
            let target = self.snapshot.place_of(target);
            return write!(f, "associated with {target}");
        }
        write!(f, "idle")
    }
}

/// A description's number, and whether it is gone.
#[derive(Clone, Copy)]
pub(crate) struct PeerText {
    number: u128,
    is_gone: bool,
}

impl fmt::Display for PeerText {
    fn fmt<W: fmt::Write>(&self, f: &mut fmt::Formatter<W>) -> fmt::Result {
        let number = self.number;
        let gone = flag_text(self.is_gone, ", gone");
        write!(f, "{number}{gone}")
    }
}

impl Snapshot {
    /// Whether a description is there.
    pub(crate) fn has(&self, id: DescriptionId) -> bool {
        self.descriptions.iter().any(|row| row.id == id)
    }

    fn place_of(&self, id: DescriptionId) -> PeerText {
        PeerText {
            number: id.number(),
            is_gone: !self.has(id),
        }
    }
}

#[derive(Clone, Copy)]
struct MessageLines<'a>(&'a [MessageRow]);

impl fmt::Display for MessageLines<'_> {
    fn fmt<W: fmt::Write>(&self, f: &mut fmt::Formatter<W>) -> fmt::Result {
        let mut index: usize = 0;
        for row in self.0 {
            let text = MessageText { index, row };
            let rights = PassedText(row.rights.as_slice());
            write!(f, "  {text}{rights}\n")?;
            index = index.saturating_add(1);
        }
        Ok(())
    }
}

/// A message by its place in the queue, with how many bytes it has and which call sent it.
#[derive(Clone, Copy)]
pub(crate) struct MessageText<'a> {
    pub(crate) index: usize,
    pub(crate) row: &'a MessageRow,
}

impl fmt::Display for MessageText<'_> {
    fn fmt<W: fmt::Write>(&self, f: &mut fmt::Formatter<W>) -> fmt::Result {
        let index = self.index;
        let row = self.row;
        let tag = row.tag;
        let bytes = Counted {
            count: row.len as u64,
            noun: "byte",
        };
        write!(f, "message {index}: {bytes} of call {tag}")
    }
}

/// The descriptions that a message passes, where it passes any.
#[derive(Clone, Copy)]
struct PassedText<'a>(&'a [DescriptionId]);

impl fmt::Display for PassedText<'_> {
    fn fmt<W: fmt::Write>(&self, f: &mut fmt::Formatter<W>) -> fmt::Result {
        let mut separator = ", passes ";
        for right in self.0 {
            let number = right.number();
            write!(f, "{separator}{number}")?;
            separator = " ";
        }
        Ok(())
    }
}

#[derive(Clone, Copy)]
struct ObjectLines<'a>(&'a [ObjectRow]);

impl fmt::Display for ObjectLines<'_> {
    fn fmt<W: fmt::Write>(&self, f: &mut fmt::Formatter<W>) -> fmt::Result {
        for row in self.0 {
            let text = ObjectText(*row);
            write!(f, "{text}\n")?;
        }
        Ok(())
    }
}

/// A file object, and of a memory file its length.
#[derive(Clone, Copy)]
pub(crate) struct ObjectText(pub(crate) ObjectRow);

impl fmt::Display for ObjectText {
    fn fmt<W: fmt::Write>(&self, f: &mut fmt::Formatter<W>) -> fmt::Result {
        let number = self.0.number;
        let kind = object_word(self.0.kind);
        write!(f, "object {number}: {kind}")?;
        if self.0.kind != ObjKind::Memory {
            return Ok(());
        }
        let bytes = Counted {
            count: self.0.size,
            noun: "byte",
        };
        write!(f, ", {bytes}")
    }
}

#[derive(Clone, Copy)]
struct PathLines<'a>(&'a Snapshot);

impl fmt::Display for PathLines<'_> {
    fn fmt<W: fmt::Write>(&self, f: &mut fmt::Formatter<W>) -> fmt::Result {
        for row in &self.0.paths {
            let line = PathLine {
                snapshot: self.0,
                row,
            };
            write!(f, "{line}")?;
        }
        Ok(())
    }
}

/// A path and what it names, on one line.
#[derive(Clone, Copy)]
struct PathLine<'a> {
    snapshot: &'a Snapshot,
    row: &'a PathRow,
}

impl fmt::Display for PathLine<'_> {
    fn fmt<W: fmt::Write>(&self, f: &mut fmt::Formatter<W>) -> fmt::Result {
        let name = NameText(self.row.name.as_bytes());
        match self.row.target {
            PathTarget::File(object) => write!(f, "path p:{name} -> object {object}\n"),
            PathTarget::Socket(id) => {
                let place = self.snapshot.place_of(id);
                write!(f, "path p:{name} -> description {place}\n")
            }
        }
    }
}
