//! The walk back through the hands that a number came through.
ghost use Rattle.std.specs.Prelude.{◌≡◌, ◌<◌, ◌≤◌, suc, true, length, reverse, IfOk, MatchOption};
ghost use Rattle.ux_model.specs.State.{State};
ghost use Rattle.ux_model.specs.History.{replay, IsLegal};
ghost use Rattle.ux_model.specs.Giving.{is_held};
ghost use Rattle.ux_model.specs.Pedigree.{IsPedigree};
ghost use Rattle.ux_audit.specs.Givers.{Rises, places_at, NoneBelow, IsLastBelow, AreGivers};
ghost use Rattle.ux_audit.specs.Origins.{GivesAt, NoneGives};

use crate::index::Index;
use crate::lists::{last_in, later};
use crate::origin::origin;
use std::alloc::{AllocError, Global};
use ux_types::{Entry, Fd, Link, Pid};

/// The last place below another in the list of this process and number.
fn last_own(rows: &[Vec<Vec<usize>>], pid: Pid, fd: Fd, until: usize) -> Option<usize>
    requires rising { Rises (places_at rows.now pid.0 fd.0) }
    ensures { MatchOption result (NoneBelow until (places_at rows.now pid.0 fd.0)) (IsLastBelow until (places_at rows.now pid.0 fd.0)) }
{
    let p = pid.0 as usize;
    if p >= rows.len() {
        return None;
    }
    last_in(rows[p].as_slice(), fd.0, until)
}

/// The last entry below this place that gave the process the number.
fn last_given(entries: &[Entry], index: &Index, until: usize, pid: Pid, fd: Fd) -> Option<usize>
    requires givers { AreGivers entries.now (length entries.now) index.now.births.items index.now.rows.items }
    requires within { until ≤ length entries.now }
    ensures { MatchOption result (NoneGives entries.now pid.0 fd.0 0 until)
        (λ j. (j < until) × GivesAt entries.now pid.0 fd.0 j × NoneGives entries.now pid.0 fd.0 (suc j) until) }
{
    let born = last_in(index.births.as_slice(), pid.0, until);
    let given = last_own(index.rows.as_slice(), pid, fd, until);
    later(born, given)
}

/// The pedigree of a number that is held at the end, the last holding first.
pub(crate) fn walk(
    alloc: Global,
    entries: &[Entry],
    index: &Index,
    pid: Pid,
    fd: Fd,
) -> Result<Vec<Link>, AllocError>
    requires givers { AreGivers entries.now (length entries.now) index.now.births.items index.now.rows.items }
    ensures { IfOk result (λ links. (boot : State) → IsLegal boot entries.now → is_held (replay boot entries.now) pid.0 fd.0 ≡ true →
        IsPedigree boot entries.now (reverse links.items) pid.0 fd.0) }
{
    let mut links = Vec::new(alloc);
    let mut holder = pid;
    let mut number = fd;
    let mut until = entries.len();
    while let Some(j) = last_given(entries, index, until, holder, number) {
        let Some(origin) = origin(alloc, entries, j, number)? else {
            return Ok(links);
        };
        links.push(Link {
            entry: j,
            pid: holder,
            fd: number,
            how: origin.how,
        })?;
        let Some(giver) = origin.from else {
            return Ok(links);
        };
        holder = giver.pid;
        number = giver.fd;
        until = giver.until;
    }
    Ok(links)
}
