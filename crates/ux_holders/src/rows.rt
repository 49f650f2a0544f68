//! The rows of a snapshot.

use std::marker::Model;
use ux_fdtable::Descriptor;
use ux_names::PathTarget;
use ux_object::ObjKind;
use ux_types::{Addr, Cred, DescriptionId, Fd, Mode, Name, Pid, SockType};

/// An open number of a process.
#[derive(Clone, Copy)]
pub struct NumberRow {
    pub fd: Fd,
    /// What it leads to, and whether it is closed on exec.
    pub descriptor: Descriptor,
}

/// A process that lives. Contracts see the process's number, and the rows.
#[derive(Drop)]
pub struct ProcessRow {
    pub pid: Pid,
    /// Its open numbers, rising.
    pub numbers: Vec<NumberRow>,
}

impl Model for ProcessRow {
    ghost use Rattle.ux_holders.specs.Rows as model;

    ghost Value = { model.ProcessRow };

    ghost view = { λ r. record { pid = r.pid; numbers = r.numbers.items } };
}

/// A message that nobody has received.
#[derive(Drop)]
pub struct MessageRow {
    /// The number of the call that sent it.
    pub tag: u64,
    /// How many of its bytes wait.
    pub len: usize,
    /// The descriptions that it passes, in order, one as often as it was sent.
    pub rights: Vec<DescriptionId>,
    pub cred: Cred,
}

impl Model for MessageRow {
    ghost use Rattle.ux_holders.specs.Rows as model;

    ghost Value = { model.MessageRow };

    ghost view = { λ r. record { tag = r.tag; len = r.len; rights = r.rights.items; cred = r.cred } };
}

/// A socket.
#[derive(Drop)]
pub struct SocketRow {
    pub kind: SockType,
    pub name: Addr,
    /// The description of the socket that it is connected to, which may be gone.
    pub peer: Option<DescriptionId>,
    /// The description of the socket where it sends by default, which may be gone.
    pub association: Option<DescriptionId>,
    /// How many connections may wait at it, while it listens.
    pub backlog: Option<usize>,
    /// The descriptions of the ends that wait for accept, the oldest first.
    pub pending: Vec<DescriptionId>,
    /// What waits to be received, the oldest first.
    pub messages: Vec<MessageRow>,
    /// SO_PASSCRED.
    pub passcred: bool,
    pub read_shut: bool,
    pub write_shut: bool,
    /// ECONNRESET is pending.
    pub reset: bool,
}

impl Model for SocketRow {
    ghost use Rattle.ux_holders.specs.Rows as model;

    ghost Value = { model.SocketRow };

    ghost view = { λ r. record {
      kind = r.kind;
      name = r.name;
      peer = r.peer;
      association = r.association;
      backlog = r.backlog;
      pending = r.pending.items;
      messages = r.messages.items;
      passcred = r.passcred;
      read_shut = r.read_shut;
      write_shut = r.write_shut;
      reset = r.reset;
    } };
}

/// What a description leads to.
#[derive(Drop)]
pub enum TargetRow {
    /// A file object, by its number.
    Object(u32),
    Socket(SocketRow),
}

/// An open file description.
#[derive(Drop)]
pub struct DescriptionRow {
    pub id: DescriptionId,
    /// How many references it has.
    pub references: u64,
    /// Where a memory file is read and written next.
    pub offset: u64,
    pub mode: Mode,
    /// O_APPEND.
    pub append: bool,
    /// O_NONBLOCK.
    pub nonblock: bool,
    pub target: TargetRow,
}

impl Model for DescriptionRow {
    ghost use Rattle.ux_holders.specs.Rows as model;
    ghost use Rattle.ux_holders.specs.Targets.{target_of};

    ghost Value = { model.DescriptionRow };

    ghost view = { λ r. record {
      id = r.id;
      references = r.references;
      offset = r.offset;
      mode = r.mode;
      append = r.append;
      nonblock = r.nonblock;
      target = target_of r.target;
    } };
}

/// A file object that is open.
#[derive(Clone, Copy)]
pub struct ObjectRow {
    pub number: u32,
    pub kind: ObjKind,
    /// The length of a memory file in bytes, and 0 of every other object.
    pub size: u64,
}

/// A path.
#[derive(Drop)]
pub struct PathRow {
    pub name: Name,
    /// What it names.
    pub target: PathTarget,
}
