//! Where a holding came from, by the entry that gave it.
ghost use Rattle.std.specs.Prelude.{◌≡◌, ◌==◌, ◌<◌, Some, false, length, map, MatchOption, IfSome, IfNone, IfOk, option_map};
ghost use Rattle.std.specs.List.{list_any, slice_get};
ghost use Rattle.ux_types.specs.declared.Entry.{Entry};
ghost use Rattle.ux_model.specs.Giving.{sent_by, IsReceive};
ghost use Rattle.ux_audit.specs.Shown.{shown};
ghost use Rattle.ux_audit.specs.Origins.{NeverGiven, IsOrigin};

use crate::hands::{Giver, HoldingOrigin};
use crate::shown::{numbers_sent, numbers_shown};
use std::alloc::{AllocError, Global};
use ux_types::{Entry, Fd, How, Request};

/// The first place of the number in the list.
fn place_of(numbers: &[Fd], fd: Fd) -> Option<usize>
    ensures { MatchOption result (list_any (λ m. m == fd.0) (map (λ f. f.0) numbers.now) ≡ false) (λ i. slice_get (map (λ f. f.0) numbers.now) i ≡ Some fd.0) }
{
    for (i, other) in numbers.iter().enumerate() {
        if other.0 == fd.0 {
            return Some(i);
        }
    }
    None
}

/// The place of the number among those that the entry gave.
fn place_shown(alloc: Global, entry: &Entry, fd: Fd) -> Result<Option<usize>, AllocError>
    ensures { IfOk result (λ place. MatchOption place (list_any (λ m. m == fd.0) (shown entry.now.request entry.now.reply) ≡ false)
        (λ i. slice_get (shown entry.now.request entry.now.reply) i ≡ Some fd.0)) }
{
    let numbers = numbers_shown(alloc, entry)?;
    Ok(place_of(numbers.as_slice(), fd))
}

/// The right that was sent at this place.
fn right_sent(alloc: Global, request: &Request, place: usize) -> Result<Option<Fd>, AllocError>
    ensures { IfOk result (λ right. option_map (λ fd. fd.0) right ≡ slice_get (sent_by request.now) place) }
{
    let numbers = numbers_sent(alloc, request)?;
    Ok(numbers.get(place).copied())
}

/// From which holding a receive or peek got the number.
fn received(
    alloc: Global,
    entries: &[Entry],
    j: usize,
    entry: &Entry,
    fd: Fd,
) -> Result<Option<HoldingOrigin>, AllocError>
    requires within { j < length entries.now }
    requires at { slice_get entries.now j ≡ Some entry.now }
    requires receiving { IsReceive entry.now.request }
    ensures found { IfOk result (λ origin. IfSome origin (λ o. IsOrigin entries.now j fd.0 entry.now o)) }
    ensures none { IfOk result (λ origin. IfNone origin (NeverGiven entries.now fd.0 j)) }
{
    let Some(tag) = entry.delivered else {
        return Ok(None);
    };
    let Some(place) = place_shown(alloc, entry, fd)? else {
        return Ok(None);
    };
    let sent = tag as usize;
    if sent >= j {
        return Ok(None);
    }
    let sending = &entries[sent];
    let Some(right) = right_sent(alloc, &sending.request, place)? else {
        return Ok(None);
    };
    Ok(Some(HoldingOrigin {
        how: How::Received(tag),
        from: Some(Giver {
            pid: sending.pid,
            fd: right,
            until: sent,
        }),
    }))
}

/// The origin of what this entry's process copied from another of its numbers, or handed to its child.
fn own(entry: &Entry, j: usize, how: How, fd: Fd) -> HoldingOrigin
    ensures { result ≡ record { how = how; from = Some (record { pid = entry.now.pid; fd = fd; until = j }) } }
{
    HoldingOrigin {
        how,
        from: Some(Giver {
            pid: entry.pid,
            fd,
            until: j,
        }),
    }
}

/// From which holding the entry at place j gave the number, and how.
pub(crate) fn origin(
    alloc: Global,
    entries: &[Entry],
    j: usize,
    fd: Fd,
) -> Result<Option<HoldingOrigin>, AllocError>
    requires within { j < length entries.now }
    ensures found { IfOk result (λ origin. IfSome origin (λ o. (e : Entry) → slice_get entries.now j ≡ Some e → IsOrigin entries.now j fd.0 e o)) }
    ensures none { IfOk result (λ origin. IfNone origin (NeverGiven entries.now fd.0 j)) }
{
    let entry = &entries[j];
    Ok(match &entry.request {
        Request::Open { .. }
        | Request::Create { .. }
        | Request::MemFd { .. }
        | Request::EventFd { .. }
        | Request::Pipe { .. }
        | Request::Socket { .. }
        | Request::SocketPair { .. }
        | Request::Accept { .. } => Some(HoldingOrigin {
            how: How::Made,
            from: None,
        }),
        Request::Dup { fd: source }
        | Request::Dup2 { fd: source, .. }
        | Request::DupFrom { fd: source, .. } => Some(own(entry, j, How::Dup, *source)),
        Request::RecvMsg { .. } => return received(alloc, entries, j, entry, fd),
        Request::Fork => Some(own(entry, j, How::Forked, fd)),
        _ => None,
    })
}
