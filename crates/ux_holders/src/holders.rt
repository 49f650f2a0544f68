//! Where the references of a description are.

use crate::rows::{DescriptionRow, MessageRow, NumberRow, ProcessRow, SocketRow, TargetRow};
use crate::snapshot::Snapshot;
use std::fmt;
use ux_types::DescriptionId;

/// A line for each reference of a description: the numbers of processes first, then the messages in flight and the
/// places in backlogs.
#[derive(Clone, Copy)]
pub(crate) struct HolderLines<'a> {
    pub(crate) snapshot: &'a Snapshot,
    pub(crate) id: DescriptionId,
}

impl fmt::Display for HolderLines<'_> {
    fn fmt<W: fmt::Write>(&self, f: &mut fmt::Formatter<W>) -> fmt::Result {
        let id = self.id;
        let processes = ByProcesses {
            rows: self.snapshot.processes.as_slice(),
            id,
        };
        let sockets = BySockets {
            rows: self.snapshot.descriptions.as_slice(),
            id,
        };
        write!(f, "{processes}{sockets}")
    }
}

/// By the numbers of processes.
#[derive(Clone, Copy)]
struct ByProcesses<'a> {
    rows: &'a [ProcessRow],
    id: DescriptionId,
}

impl fmt::Display for ByProcesses<'_> {
    fn fmt<W: fmt::Write>(&self, f: &mut fmt::Formatter<W>) -> fmt::Result {
        for process in self.rows {
            let numbers = ByNumbers {
                pid: process.pid.0,
                rows: process.numbers.as_slice(),
                id: self.id,
            };
            write!(f, "{numbers}")?;
        }
        Ok(())
    }
}

/// By the numbers of one process.
#[derive(Clone, Copy)]
struct ByNumbers<'a> {
    pid: u32,
    rows: &'a [NumberRow],
    id: DescriptionId,
}

impl fmt::Display for ByNumbers<'_> {
    fn fmt<W: fmt::Write>(&self, f: &mut fmt::Formatter<W>) -> fmt::Result {
        let pid = self.pid;
        for row in self.rows {
            let fd = row.fd.0;
            if row.descriptor.description == self.id {
                write!(f, "  held by number {fd} of process {pid}\n")?;
            }
        }
        Ok(())
    }
}

/// Queued rights and pending ends that refer to it.
#[derive(Clone, Copy)]
struct BySockets<'a> {
    rows: &'a [DescriptionRow],
    id: DescriptionId,
}

impl fmt::Display for BySockets<'_> {
    fn fmt<W: fmt::Write>(&self, f: &mut fmt::Formatter<W>) -> fmt::Result {
        for row in self.rows {
            if let TargetRow::Socket(socket) = &row.target {
                let places = AtSocket {
                    at: row.id.number(),
                    socket,
                    id: self.id,
                };
                write!(f, "{places}")?;
            }
        }
        Ok(())
    }
}

/// By what waits at one socket: its messages, then the ends.
#[derive(Clone, Copy)]
struct AtSocket<'a> {
    at: u128,
    socket: &'a SocketRow,
    id: DescriptionId,
}

impl fmt::Display for AtSocket<'_> {
    fn fmt<W: fmt::Write>(&self, f: &mut fmt::Formatter<W>) -> fmt::Result {
        let socket = self.socket;
        let messages = ByMessages {
            at: self.at,
            rows: socket.messages.as_slice(),
            id: self.id,
        };
        let ends = ByEnds {
            at: self.at,
            ends: socket.pending.as_slice(),
            id: self.id,
        };
        write!(f, "{messages}{ends}")
    }
}

/// By the messages at one socket.
#[derive(Clone, Copy)]
struct ByMessages<'a> {
    at: u128,
    rows: &'a [MessageRow],
    id: DescriptionId,
}

impl fmt::Display for ByMessages<'_> {
    fn fmt<W: fmt::Write>(&self, f: &mut fmt::Formatter<W>) -> fmt::Result {
        let mut index: usize = 0;
        for row in self.rows {
            let rights = ByRights {
                at: self.at,
                message: index,
                rights: row.rights.as_slice(),
                id: self.id,
            };
            write!(f, "{rights}")?;
            index = index.saturating_add(1);
        }
        Ok(())
    }
}

/// By the rights of one message.
#[derive(Clone, Copy)]
struct ByRights<'a> {
    at: u128,
    message: usize,
    rights: &'a [DescriptionId],
    id: DescriptionId,
}

impl fmt::Display for ByRights<'_> {
    fn fmt<W: fmt::Write>(&self, f: &mut fmt::Formatter<W>) -> fmt::Result {
        let at = self.at;
        let message = self.message;
        for right in self.rights {
            if *right == self.id {
                write!(f, "  held by message {message} at description {at}\n")?;
            }
        }
        Ok(())
    }
}

/// By the places in the backlog of one socket.
#[derive(Clone, Copy)]
struct ByEnds<'a> {
    at: u128,
    ends: &'a [DescriptionId],
    id: DescriptionId,
}

impl fmt::Display for ByEnds<'_> {
    fn fmt<W: fmt::Write>(&self, f: &mut fmt::Formatter<W>) -> fmt::Result {
        let at = self.at;
        let mut place: usize = 0;
        for end in self.ends {
            if *end == self.id {
                write!(
                    f,
                    "  held by place {place} in the backlog of description {at}\n"
                )?;
            }
            place = place.saturating_add(1);
        }
        Ok(())
    }
}
