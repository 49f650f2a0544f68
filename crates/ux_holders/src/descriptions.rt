//! The descriptions that are there.
ghost use Rattle.std.specs.Prelude.{◌≡◌, IfOk};
ghost use Rattle.ux_holders.specs.Listing as listing;
ghost use Rattle.ux_holders.specs.Targets.{target_of};

use crate::listed::add;
use crate::rows::{DescriptionRow, TargetRow};
use crate::sockets::socket_row;
use std::alloc::{AllocError, Global};
use ux_description::Description;
use ux_object::FileObject;
use ux_state::State;
use ux_types::DescriptionId;

/// The descriptions that are there, rising.
#[tactic(auto, using(crate::proofs::Steps::next_row), unfolding(crate::specs::Listing::descriptions_of))]
pub(crate) fn descriptions_of<O: FileObject>(
    alloc: Global,
    state: &State<O>,
) -> Result<Vec<DescriptionRow>, AllocError>
    ensures { IfOk result (λ rows. rows.items ≡ listing.descriptions_of state.now) }
{
    let mut rows = Vec::new(alloc);
    for number in 0..state.description_count() {
        let row = description_row(alloc, state, DescriptionId::new(number))?;
        add(&mut rows, row)?;
    }
    Ok(rows)
}

/// The row of a description, while it is there.
fn description_row<O: FileObject>(
    alloc: Global,
    state: &State<O>,
    id: DescriptionId,
) -> Result<Option<DescriptionRow>, AllocError>
    ensures { IfOk result (λ row. row ≡ listing.description_row state.now id) }
{
    let Some(description) = state.description(id) else {
        return Ok(None);
    };
    let target = target_row(alloc, description)?;
    Ok(Some(DescriptionRow {
        id,
        references: state.count(id),
        offset: description.offset(),
        mode: description.mode(),
        append: description.append(),
        nonblock: description.nonblock(),
        target,
    }))
}

/// What a description leads to.
#[tactic(auto, using(crate::proofs::Steps::leads_somewhere))]
fn target_row(alloc: Global, description: &Description) -> Result<TargetRow, AllocError>
    ensures { IfOk result (λ row. target_of row ≡ listing.target_row description.now.target) }
{
    if let Some(number) = description.object() {
        return Ok(TargetRow::Object(number));
    }
    match description.socket() {
        Some(socket) => Ok(TargetRow::Socket(socket_row(alloc, socket)?)),
        None => unreachable!(),
    }
}
