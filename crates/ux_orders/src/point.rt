//! The state at a point of a run, spelled.
use crate::spelled::Spelled;
use crate::touched::bytes_taken;
use std::alloc::{AllocError, Global};
use ux_backlog::Backlog;
use ux_description::{Description, Socket, Unread};
use ux_names::PathTarget;
use ux_object::FileObject;
use ux_state::State;
use ux_types::{Addr, Cred, DescriptionId, Entry, Fd, Mode, Name, Pid, SockType};

/// Spells a state. Descriptions are numbered as they are come to, from the processes' numbers on, so that it makes no
/// difference in which order they were made.
#[derive(Drop)]
struct Speller<'a, O: FileObject> {
    state: &'a State<O>,
    /// The history, in which the bytes of messages are.
    entries: &'a [Entry],
    /// The descriptions that were come to, in order.
    ids: Vec<DescriptionId>,
    out: Spelled,
    /// Whether the bytes of each message were found.
    is_whole: bool,
}

/// Spells the state at the end of this history, behind what was spelled before. States that are spelled alike differ in
/// nothing that a call or a reply depends on but in what is in file objects: processes with whom they run as and their
/// open numbers, paths, descriptions, sockets with what waits at them, and which objects are open. What isn't spelled
/// follows from the replies that the processes got: who is whose child.
///
/// # Errors
///
/// Out of memory.
pub(crate) fn spell_state<O: FileObject>(
    alloc: Global,
    state: &State<O>,
    entries: &[Entry],
    out: Spelled,
) -> Result<Option<Spelled>, AllocError> {
    let mut speller = Speller {
        state,
        entries,
        ids: Vec::new(alloc),
        out,
        is_whole: true,
    };
    speller.processes()?;
    speller.paths()?;
    speller.descriptions()?;
    speller.objects()?;
    let Speller { out, is_whole, .. } = speller;
    Ok(is_whole.then_some(out))
}

impl<O: FileObject> Speller<'_, O> {
    fn processes(&mut self) -> Result<(), AllocError> {
        for index in 0..self.state.process_count() {
            self.process(Pid(index as u32 + 1))?;
        }
        Ok(())
    }

    /// Who a process runs as, and its open numbers, rising.
    fn process(&mut self, pid: Pid) -> Result<(), AllocError> {
        let state = self.state;
        if !state.is_live(pid) {
            return self.out.number(0);
        }
        self.cred(state.credentials(pid))?;
        self.out.flag(state.is_privileged(pid))?;
        let table = state.table(pid);
        for number in 0..table.limit() {
            if let Some(descriptor) = table.get(Fd(number)) {
                self.out.number(u64::from(number).saturating_add(1))?;
                self.out.flag(descriptor.cloexec)?;
                self.place(descriptor.description)?;
            }
        }
        self.out.number(0)
    }

    /// A description by when it was come to, counted from 1. Those that are gone are alike.
    fn place(&mut self, id: DescriptionId) -> Result<(), AllocError> {
        if self.state.description(id).is_none() {
            return self.out.number(0);
        }
        let known = self.ids.iter().position(|one| *one == id);
        let place = match known {
            Some(place) => place,
            None => {
                let place = self.ids.len();
                self.ids.push(id)?;
                place
            }
        };
        self.out.number((place as u64).saturating_add(1))
    }

    /// The paths, by rising name.
    fn paths(&mut self) -> Result<(), AllocError> {
        let listed = self.state.paths().in_order()?;
        for rank in 0..listed.len() {
            if let Some(entry) = ranked(&listed, rank) {
                self.path(entry.0, entry.1)?;
            }
        }
        self.out.number(0)
    }

    /// A path, and what it names.
    fn path(&mut self, name: &Name, target: PathTarget) -> Result<(), AllocError> {
        match target {
            PathTarget::File(object) => {
                self.out.number(1)?;
                self.out.bytes(name.as_bytes())?;
                self.out.number(u64::from(object))
            }
            PathTarget::Socket(id) => {
                self.out.number(2)?;
                self.out.bytes(name.as_bytes())?;
                self.place(id)
            }
        }
    }

    /// Every description that a table, a path or a queue reaches, then those that only a cycle of queued sockets keeps.
    fn descriptions(&mut self) -> Result<(), AllocError> {
        for turn in 0..self.state.description_count() {
            match self.next_description(turn)? {
                Some(id) => self.description(id)?,
                None => return self.out.number(0),
            }
        }
        self.out.number(0)
    }

    /// The description that was come to behind so many.
    fn next_description(&mut self, turn: u128) -> Result<Option<DescriptionId>, AllocError> {
        if let Ok(index) = usize::try_from(turn) {
            if let Some(id) = self.ids.get(index) {
                return Ok(Some(*id));
            }
        }
        let left = self.left_out();
        if let Some(id) = left {
            self.ids.push(id)?;
        }
        Ok(left)
    }

    /// The first description that nothing has led to.
    fn left_out(&self) -> Option<DescriptionId> {
        for number in 0..self.state.description_count() {
            let id = DescriptionId::new(number);
            if self.state.description(id).is_some() && !self.ids.contains(&id) {
                return Some(id);
            }
        }
        None
    }

    fn description(&mut self, id: DescriptionId) -> Result<(), AllocError> {
        let state = self.state;
        let Some(description) = state.description(id) else {
            return Ok(());
        };
        self.shared(description)?;
        match description.socket() {
            Some(socket) => {
                self.out.number(2)?;
                self.socket(id, socket)
            }
            None => {
                self.out.number(1)?;
                self.out
                    .number(u64::from(description.object().unwrap_or(0)))
            }
        }
    }

    /// What all descriptors of a description share.
    fn shared(&mut self, description: &Description) -> Result<(), AllocError> {
        let mode = match description.mode() {
            Mode::Read => 1,
            Mode::Write => 2,
            Mode::Both => 3,
        };
        self.out.number(mode)?;
        self.out.number(description.offset())?;
        self.out.flag(description.append())?;
        self.out.flag(description.nonblock())
    }

    fn socket(&mut self, id: DescriptionId, socket: &Socket) -> Result<(), AllocError> {
        let kind = match socket.kind() {
            SockType::Stream => 0,
            SockType::Dgram => 1,
            SockType::Seq => 2,
        };
        self.out.number(kind)?;
        self.name(socket.name())?;
        let is_owner = self.is_owner(id, socket.name());
        self.out.flag(is_owner)?;
        self.out.flag(socket.passcred())?;
        self.out.flag(socket.is_read_shut())?;
        self.out.flag(socket.is_write_shut())?;
        self.out.flag(socket.reset())?;
        self.out.flag(socket.resets_peer())?;
        self.out.number(u64::from(socket.queue_limit()))?;
        self.some_cred(socket.peer_cred())?;
        self.ties(socket)?;
        self.messages(socket)
    }

    /// Whether a name of the abstract namespace leads to this description.
    fn is_owner(&self, id: DescriptionId, name: &Addr) -> bool {
        match name {
            Addr::Abstract(name) => self.state.abstract_name(name) == Some(id),
            Addr::Unnamed | Addr::Path(_) => false,
        }
    }

    fn name(&mut self, name: &Addr) -> Result<(), AllocError> {
        match name {
            Addr::Unnamed => self.out.number(0),
            Addr::Path(name) => {
                self.out.number(1)?;
                self.out.bytes(name.as_bytes())
            }
            Addr::Abstract(name) => {
                self.out.number(2)?;
                self.out.bytes(name.as_bytes())
            }
        }
    }

    fn some_cred(&mut self, cred: Option<Cred>) -> Result<(), AllocError> {
        match cred {
            Some(cred) => {
                self.out.number(1)?;
                self.cred(cred)
            }
            None => self.out.number(0),
        }
    }

    fn cred(&mut self, cred: Cred) -> Result<(), AllocError> {
        self.out.number(u64::from(cred.pid.0))?;
        self.out.number(u64::from(cred.uid))?;
        self.out.number(u64::from(cred.gid))
    }

    /// Whom a socket is tied to, or what waits at a listener.
    fn ties(&mut self, socket: &Socket) -> Result<(), AllocError> {
        if let Some(peer) = socket.peer() {
            self.out.number(1)?;
            return self.place(peer);
        }
        if let Some(target) = socket.association() {
            self.out.number(2)?;
            return self.place(target);
        }
        match socket.backlog() {
            Some(backlog) => {
                self.out.number(3)?;
                self.some_cred(socket.listener_cred())?;
                self.backlog(backlog)
            }
            None => self.out.number(0),
        }
    }

    /// The ends that wait for accept, the oldest first.
    fn backlog(&mut self, backlog: &Backlog) -> Result<(), AllocError> {
        self.out.number(backlog.limit() as u64)?;
        self.out.number(backlog.len() as u64)?;
        for index in 0..backlog.len() {
            if let Some(end) = backlog.get(index) {
                self.place(end)?;
            }
        }
        Ok(())
    }

    /// The messages that wait, the oldest first.
    fn messages(&mut self, socket: &Socket) -> Result<(), AllocError> {
        self.out.number(socket.message_count() as u64)?;
        for index in 0..socket.message_count() {
            if let Some(unread) = socket.message(index) {
                self.message(unread)?;
            }
        }
        Ok(())
    }

    /// A message: not which call sent it, but what it sent, and where rights are with it which user's they are in
    /// flight: the sender's at the time, who may tell of others (SCM_CREDENTIALS) and become another.
    fn message(&mut self, unread: Unread<'_>) -> Result<(), AllocError> {
        let entries = self.entries;
        let Some(entry) = entries.get(unread.tag as usize) else {
            self.is_whole = false;
            return Ok(());
        };
        match last_bytes(entry, unread.len) {
            Some(bytes) => self.out.bytes(bytes)?,
            None => self.is_whole = false,
        }
        self.cred(unread.cred)?;
        match unread.from {
            Some(from) => self.name(from)?,
            None => self.out.number(3)?,
        }
        self.out.number(unread.rights.len() as u64)?;
        if !unread.rights.is_empty() {
            self.out.number(u64::from(unread.uid))?;
        }
        for right in unread.rights {
            self.place(right.description())?;
        }
        Ok(())
    }

    /// Which file objects are open.
    fn objects(&mut self) -> Result<(), AllocError> {
        for number in 0..self.state.object_count() {
            self.out.flag(self.state.object(number as u32).is_some())?;
        }
        Ok(())
    }
}

/// The last bytes that were taken of a call.
fn last_bytes(entry: &Entry, len: usize) -> Option<&[u8]> {
    let bytes = bytes_taken(entry)?;
    let start = bytes.len().checked_sub(len)?;
    bytes.get(start..)
}

/// The path with so many smaller ones among these.
fn ranked<'a>(listed: &[(&'a Name, PathTarget)], rank: usize) -> Option<(&'a Name, PathTarget)> {
    for entry in listed {
        if smaller(listed, entry.0) == rank {
            return Some((entry.0, entry.1));
        }
    }
    None
}

/// How many paths are smaller than this one.
fn smaller(listed: &[(&Name, PathTarget)], name: &Name) -> usize {
    listed
        .iter()
        .filter(|entry| entry.0.as_bytes() < name.as_bytes())
        .count()
}
