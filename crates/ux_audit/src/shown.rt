//! What an entry reports of the numbers that it gave.
ghost use Rattle.std.specs.Prelude.{◌≡◌, map, IfOk};
ghost use Rattle.ux_model.specs.ControlReading.{control_in};
ghost use Rattle.ux_model.specs.Giving.{is_onto_itself, numbers_told, rights_in, sent_by};
ghost use Rattle.ux_model.specs.Changes.{cloexec_of, is_err};
ghost use Rattle.ux_audit.specs.Shown.{numbers_read, shown};

use bitflags::Flags;
use std::alloc::{AllocError, Global};
use ux_cmsg::{ControlError, read_control};
use ux_types::{Entry, Fd, MsgFlags, OpenFlags, Reply, Request};

/// Whether the answer is a refusal.
pub(crate) fn is_err(reply: &Reply) -> bool
    ensures { result ≡ is_err reply.now }
{
    matches!(reply, Reply::Err(_))
}

/// dup2(2) onto itself.
fn is_onto_itself(request: &Request) -> bool
    ensures { result ≡ is_onto_itself request.now }
{
    match request {
        Request::Dup2 { fd, to } => to.0 == fd.0,
        _ => false,
    }
}

/// The flag of a descriptor that the call gives.
pub(crate) fn cloexec_of(request: &Request) -> bool
    ensures { result ≡ cloexec_of request.now }
{
    match request {
        Request::Open { flags, .. }
        | Request::Create { flags, .. }
        | Request::MemFd { flags }
        | Request::EventFd { flags, .. }
        | Request::Pipe { flags }
        | Request::Socket { flags, .. }
        | Request::SocketPair { flags, .. }
        | Request::Accept { flags, .. } => flags.contains(OpenFlags::CLOEXEC),
        Request::RecvMsg { flags, .. } => flags.contains(MsgFlags::CMSG_CLOEXEC),
        _ => false,
    }
}

/// The descriptor numbers that a control buffer spells; none where it spells nothing.
fn rights_in(alloc: Global, control: &[u8]) -> Result<Vec<Fd>, AllocError>
    ensures { IfOk result (λ numbers. map (λ fd. fd.0) numbers.items ≡ rights_in (control_in control.now)) }
{
    match read_control(alloc, control) {
        Ok(control) => Vec::from_slice(alloc, control.rights()),
        Err(ControlError::Invalid) => Ok(Vec::new(alloc)),
        Err(ControlError::NoMemory) => Err(AllocError),
    }
}

/// The numbers that a receive reports in its control buffer.
fn numbers_read(alloc: Global, reply: &Reply) -> Result<Vec<Fd>, AllocError>
    ensures { IfOk result (λ numbers. map (λ fd. fd.0) numbers.items ≡ numbers_read reply.now) }
{
    match reply {
        Reply::Received { control, .. } => rights_in(alloc, control.as_slice()),
        _ => Ok(Vec::new(alloc)),
    }
}

/// The numbers that the answer to a call other than a receive reports.
fn numbers_told(alloc: Global, request: &Request, reply: &Reply) -> Result<Vec<Fd>, AllocError>
    ensures { IfOk result (λ numbers. map (λ fd. fd.0) numbers.items ≡ numbers_told request.now reply.now) }
{
    match reply {
        Reply::Fd(_) if is_onto_itself(request) => Ok(Vec::new(alloc)),
        Reply::Fd(fd) | Reply::Accepted(fd, _) => Vec::from_slice(alloc, &[*fd]),
        Reply::Fds(first, second) => Vec::from_slice(alloc, &[*first, *second]),
        _ => Ok(Vec::new(alloc)),
    }
}

/// The numbers that the call gave its process anew, in order.
pub(crate) fn numbers_shown(alloc: Global, entry: &Entry) -> Result<Vec<Fd>, AllocError>
    ensures { IfOk result (λ numbers. map (λ fd. fd.0) numbers.items ≡ shown entry.now.request entry.now.reply) }
{
    match &entry.request {
        Request::RecvMsg { .. } => numbers_read(alloc, &entry.reply),
        request => numbers_told(alloc, request, &entry.reply),
    }
}

/// The numbers that a send sends.
pub(crate) fn numbers_sent(alloc: Global, request: &Request) -> Result<Vec<Fd>, AllocError>
    ensures { IfOk result (λ numbers. map (λ fd. fd.0) numbers.items ≡ sent_by request.now) }
{
    match request {
        Request::SendMsg { control, .. } => rights_in(alloc, control.as_slice()),
        _ => Ok(Vec::new(alloc)),
    }
}
