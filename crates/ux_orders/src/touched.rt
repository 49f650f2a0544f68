//! What calls wrote to file objects.
use crate::spelled::Spelled;
use std::alloc::{AllocError, Global};
use ux_object::{FileObject, ObjKind};
use ux_state::State;
use ux_types::{Entry, Pid, Reply, Request};

/// The file object that a read or a write is made of.
#[derive(Clone, Copy)]
pub(crate) struct Touched {
    /// Its number.
    pub(crate) number: u32,
    kind: ObjKind,
    /// Where a memory file is read or written.
    at: u64,
}

/// The file object that a call of this process would read or write, if it is such a call.
pub(crate) fn touched_by<O: FileObject>(
    state: &State<O>,
    pid: Pid,
    request: &Request,
) -> Option<Touched> {
    let fd = match request {
        Request::Read { fd, .. } | Request::Write { fd, .. } => *fd,
        _ => return None,
    };
    if !state.is_live(pid) {
        return None;
    }
    let found = match state.find_description(pid, fd) {
        Ok(found) => found,
        Err(_) => return None,
    };
    let number = found.description.object()?;
    let object = state.object(number)?;
    let at = if found.description.append() {
        object.size()
    } else {
        found.description.offset()
    };
    Some(Touched {
        number,
        kind: object.kind(),
        at,
    })
}

/// What was written to each file object so far, behind what it was at first where a call made it. With what was read and
/// written by whom, that says what is in it: in a counter the sum of what came and went, in a pipe what was written in
/// its order without what was read, in a memory file what was written where, the later over the earlier.
#[derive(Drop)]
pub(crate) struct Written {
    alloc: Global,
    objects: Vec<Spelled>,
}

impl Written {
    /// Nothing, to so many objects.
    ///
    /// # Errors
    ///
    /// Out of memory.
    pub(crate) fn new(alloc: Global, count: usize) -> Result<Written, AllocError> {
        let mut objects = Vec::with_capacity(alloc, count)?;
        for _ in 0..count {
            objects.push(Spelled::new(alloc))?;
        }
        Ok(Written { alloc, objects })
    }

    /// Adds the file object that a call made, if it made one: it has the number behind those that were there.
    ///
    /// # Errors
    ///
    /// Out of memory.
    pub(crate) fn make(&mut self, entry: &Entry) -> Result<(), AllocError> {
        let Some((kind, value)) = made_by(entry) else {
            return Ok(());
        };
        let mut object = Spelled::new(self.alloc);
        object.number(kind)?;
        object.number(u64::from(value))?;
        self.objects.push(object)?;
        Ok(())
    }

    /// Adds what a call wrote to this object.
    ///
    /// # Errors
    ///
    /// Out of memory.
    pub(crate) fn add(&mut self, touched: Touched, entry: &Entry) -> Result<(), AllocError> {
        let Some(bytes) = bytes_taken(entry) else {
            return Ok(());
        };
        let Some(object) = self.objects.get_mut(touched.number as usize) else {
            return Ok(());
        };
        match touched.kind {
            ObjKind::Counter => Ok(()),
            ObjKind::Pipe => object.more(bytes),
            ObjKind::Memory => {
                object.number(touched.at)?;
                object.bytes(bytes)
            }
        }
    }

    /// Spells what was written to each, behind how many there are.
    ///
    /// # Errors
    ///
    /// Out of memory.
    pub(crate) fn spell(&self, out: &mut Spelled) -> Result<(), AllocError> {
        out.number(self.objects.len() as u64)?;
        for object in &self.objects {
            out.bytes(object.as_slice())?;
        }
        Ok(())
    }
}

/// The file object that a call made, if it made one: a number for its kind, and the value of a counter.
fn made_by(entry: &Entry) -> Option<(u64, u32)> {
    match (&entry.request, &entry.reply) {
        (Request::Create { .. } | Request::MemFd { .. }, Reply::Fd(_)) => Some((0, 0)),
        (
            Request::EventFd {
                value,
                semaphore,
                ..
            },
            Reply::Fd(_),
        ) => Some((if *semaphore { 3 } else { 1 }, *value)),
        (Request::Pipe { .. }, Reply::Fds(..)) => Some((2, 0)),
        _ => None,
    }
}

/// The bytes that a call sent or wrote, as many as were taken.
pub(crate) fn bytes_taken(entry: &Entry) -> Option<&[u8]> {
    let Reply::Count(count) = &entry.reply else {
        return None;
    };
    let bytes = match &entry.request {
        Request::Write { bytes, .. } | Request::SendMsg { bytes, .. } => bytes.as_slice(),
        _ => return None,
    };
    bytes.get(..*count)
}
