//! Which description each new number leads to.
ghost use Rattle.std.specs.Prelude.{◌≡◌, map, IfOk};
ghost use Rattle.ux_model.specs.ControlReading.{control_in};
ghost use Rattle.ux_model.specs.Giving.{is_onto_itself, numbers_told, rights_in};
ghost use Rattle.ux_audit.specs.Shown.{numbers_read, shown};
ghost use Rattle.ux_session.specs.Leading.{lead_in, AreOfNumbers, HasEachNumber};

use std::alloc::{AllocError, Global};
use ux_cmsg::{ControlError, read_control};
use ux_fdtable::Table;
use ux_object::FileObject;
use ux_state::State;
use ux_types::{DescriptionId, Entry, Fd, Reply, Request};

/// A number of a process, and the description that it leads to.
#[derive(Clone, Copy, Debug, PartialEq, Eq)]
pub struct Lead {
    pub fd: Fd,
    pub id: DescriptionId,
}

/// The numbers that the call of an entry gave its process anew, in order, with the description to which each leads in
/// this state: those that are told, and those of rights that were installed. A fork gives its caller none.
///
/// # Errors
///
/// Out of memory.
pub fn leads<O: FileObject>(
    alloc: Global,
    state: &State<O>,
    entry: &Entry,
) -> Result<Vec<Lead>, AllocError>
    // Each is a number that the call gave, and leads there: the entry may stand anywhere in a legal history.
    ensures sound { IfOk result (λ leads. AreOfNumbers state.now entry.now leads.items) }
    // Each number that the call gave and that leads somewhere is among them, while its process lives.
    ensures complete { IfOk result (λ leads. HasEachNumber state.now entry.now leads.items) }
{
    let mut leads = Vec::new(alloc);
    if !state.is_live(entry.pid) {
        return Ok(leads);
    }
    let table = state.table(entry.pid);
    let numbers = numbers_given(alloc, entry)?;
    for fd in &numbers {
        match lead_of(table, *fd) {
            Some(lead) => leads.push(lead)?,
            None => {}
        }
    }
    Ok(leads)
}

/// Where a number of this table leads.
fn lead_of(table: &Table, fd: Fd) -> Option<Lead>
    ensures { result ≡ lead_in table.now fd }
{
    match table.get(fd) {
        Some(descriptor) => Some(Lead {
            fd,
            id: descriptor.description,
        }),
        None => None,
    }
}

/// The numbers that the call gave its process anew, in order.
fn numbers_given(alloc: Global, entry: &Entry) -> Result<Vec<Fd>, AllocError>
    ensures { IfOk result (λ numbers. map (λ fd. fd.0) numbers.items ≡ shown entry.now.request entry.now.reply) }
{
    match (&entry.request, &entry.reply) {
        (Request::RecvMsg { .. }, Reply::Received { control, .. }) => {
            rights_in(alloc, control.as_slice())
        }
        (Request::RecvMsg { .. }, _) => Ok(Vec::new(alloc)),
        (request, reply) => numbers_told(alloc, request, reply),
    }
}

/// The descriptor numbers that a control buffer spells; none where it spells nothing.
fn rights_in(alloc: Global, control: &[u8]) -> Result<Vec<Fd>, AllocError>
    ensures { IfOk result (λ numbers. map (λ fd. fd.0) numbers.items ≡ rights_in (control_in control.now)) }
{
    match read_control(alloc, control) {
        Ok(control) => Vec::from_slice(alloc, control.rights()),
        Err(ControlError::Invalid) => Ok(Vec::new(alloc)),
        Err(ControlError::NoMemory) => Err(AllocError),
    }
}

/// The numbers that the answer to a call other than a receive reports; dup2(2) onto itself gives none.
fn numbers_told(alloc: Global, request: &Request, reply: &Reply) -> Result<Vec<Fd>, AllocError>
    ensures { IfOk result (λ numbers. map (λ fd. fd.0) numbers.items ≡ numbers_told request.now reply.now) }
{
    match reply {
        Reply::Fd(_) if is_onto_itself(request) => Ok(Vec::new(alloc)),
        Reply::Fd(fd) | Reply::Accepted(fd, _) => Vec::from_slice(alloc, &[*fd]),
        Reply::Fds(first, second) => Vec::from_slice(alloc, &[*first, *second]),
        _ => Ok(Vec::new(alloc)),
    }
}

/// dup2(2) onto itself.
fn is_onto_itself(request: &Request) -> bool
    ensures { result ≡ is_onto_itself request.now }
{
    match request {
        Request::Dup2 { fd, to } => to.0 == fd.0,
        _ => false,
    }
}
