//! What a program can rely on, each by a contract of its own that is proved from those of the library alone: what a
//! receipt shows, what settled accounts say of the history, and that a close never lacks memory.
ghost use Rattle.std.specs.Prelude.{◌≡◌, List, length, Some, IfOk};
ghost use Rattle.std.specs.List.{slice_get};
ghost use Rattle.ux_model.specs.Types.{Entry, Errno};
ghost use Rattle.ux_model.specs.History.{IsLegal};

use anyhow::{Result, anyhow};
use std::sync::Wait;
use ux_book::{BookName, CallFault, Receipt, Spent};
use ux_layer::{Layer, Seat};
use ux_objects::MemFile;
use ux_types::{Fd, Reply, Request};

/// The call of a receipt stands in some legal history from the layer's boot state, at the receipt's number.
pub(crate) fn stands<W: BookName>(receipt: &Receipt<W>)
    ensures { (entries : List Entry) × IsLegal W.boot entries × (slice_get entries receipt.now.number ≡ Some receipt.now.entry) }
{
    receipt.shows()
}

/// How many entries the history has, once all processes have exited and their accounts settle: some legal history
/// from the layer's boot state has exactly so many.
pub(crate) fn entries_made<W: BookName, R: Wait>(
    rt: &R,
    layer: &Layer<W, MemFile>,
    spents: &mut [Spent<W>],
    receipts: &mut [Receipt<W>],
) -> Result<usize>
    ensures { IfOk result (λ count. (entries : List Entry) × IsLegal W.boot entries × (length entries ≡ count)) }
{
    match layer.settle_with(rt, spents, receipts) {
        Ok(account) => Ok(account.entries),
        Err(missing) => Err(anyhow!("{missing}")),
    }
}

/// Closes a number. Whatever the answer, it isn't out of memory.
pub(crate) fn close<W: BookName, R: Wait>(
    rt: &R,
    seat: &mut Seat<W, MemFile>,
    fd: Fd,
) -> Result<(Reply, Receipt<W>), CallFault>
    ensures { IfOk result (λ made. ¬ (made.0 ≡ Reply.Err Errno.ENOMEM)) }
{
    seat.call(rt, &Request::Close { fd })
}
