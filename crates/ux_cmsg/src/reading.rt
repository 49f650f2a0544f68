//! Reading a control buffer.
ghost use Rattle.std.specs.Prelude.{◌≡◌, ◌<◌, ◌↔◌, [], length, map, None, Some, IsOk, IfOk, option_map};
ghost use Rattle.ux_model.specs.Control as model;
ghost use Rattle.ux_model.specs.Control.{Spells};
ghost use Rattle.ux_model.specs.ControlReading.{numbers_in, with_item, control_of, control_in};
ghost use Rattle.ux_cmsg.specs.Items.{item_view};
ghost use Rattle.ux_cmsg.specs.Found.{parts_view};
ghost use Rattle.ux_cmsg.specs.Refusals.{refusal_of};
ghost use Rattle.ux_cmsg.specs.declared.reading.ControlError.TheVariants.{NoMemory};

use crate::control::Control;
use crate::item::{Item, first_item, u32_at};
use std::alloc::{AllocError, Allocator};
use thiserror::Error;
use ux_types::{CMSG_FD_LEN, Cred, Errno, Fd, Refusal};

/// Why a control buffer wasn't read.
#[derive(Clone, Copy, Debug, PartialEq, Eq, Error)]
pub enum ControlError {
    /// It spells no credentials and rights (EINVAL).
    #[error("invalid control buffer")]
    Invalid,
    /// There was no memory for the descriptor numbers (ENOMEM).
    #[error("out of memory")]
    NoMemory,
}

impl From<ControlError> for Refusal {
    ghost from_gives = { λ error refusal. refusal ≡ refusal_of error };

    fn from(error: ControlError) -> Refusal {
        match error {
            ControlError::Invalid => Refusal::Answer(Errno::EINVAL),
            ControlError::NoMemory => Refusal::NoMemory,
        }
    }
}

impl From<AllocError> for ControlError {
    ghost from_gives = { λ _ error. error ≡ NoMemory };

    fn from(_error: AllocError) -> ControlError {
        ControlError::NoMemory
    }
}

/// What the items say that were read, the descriptor numbers still as bytes.
#[derive(Clone, Copy)]
struct Parts<'a> {
    cred: Option<Cred>,
    rights: Option<&'a [u8]>,
}

/// With one item more, unless one of its type was read before.
fn with_item<'a>(parts: Parts<'a>, item: Item<'a>) -> Option<Parts<'a>>
    ensures { option_map parts_view result ≡ with_item (parts_view parts.entry) (item_view item.entry) }
{
    match item {
        Item::Rights(payload) if parts.rights.is_none() => Some(Parts {
            cred: parts.cred,
            rights: Some(payload),
        }),
        Item::Cred(cred) if parts.cred.is_none() => Some(Parts {
            cred: Some(cred),
            rights: parts.rights,
        }),
        _ => None,
    }
}

/// Reads the items, if the bytes are a list of items with no type twice.
fn read_items(bytes: &[u8]) -> Option<Parts<'_>>
    ensures { control_in bytes.now ≡ option_map (λ parts. control_of (parts_view parts)) result }
{
    let mut parts = Parts {
        cred: None,
        rights: None,
    };
    let mut rest = bytes;
    while !rest.is_empty() {
        let (item, behind) = first_item(rest)?;
        parts = with_item(parts, item)?;
        rest = behind;
    }
    Some(parts)
}

/// The descriptor numbers that the payload of an item spells, which its bytes bound.
fn read_numbers<A: Allocator>(alloc: A, payload: &[u8]) -> Result<Vec<Fd, A>, AllocError>
    ensures numbers { IfOk result (λ numbers. map (λ fd. fd.0) numbers.items ≡ numbers_in payload.now) }
    ensures none { numbers_in payload.now ≡ [] → IsOk result }
{
    let mut numbers = Vec::with_capacity(alloc, payload.len() / CMSG_FD_LEN)?;
    let mut rest = payload;
    while let Some((number, behind)) = u32_at(rest) {
        numbers.push_reserved(Fd(number));
        rest = behind;
    }
    Ok(numbers)
}

/// What the items say, their descriptor numbers read.
fn read_parts<A: Allocator>(alloc: A, parts: Parts<'_>) -> Result<Control<A>, AllocError>
    ensures control { IfOk result (λ control. control ≡ control_of (parts_view parts.entry)) }
    ensures none { (control_of (parts_view parts.entry)).rights ≡ [] → IsOk result }
{
    let rights = read_numbers(alloc, parts.rights.unwrap_or(&[]))?;
    Ok(Control::new(parts.cred, rights))
}

/// Reads the control buffer of a sendmsg(2), a list of items as cmsg(3) lays them out. Each begins at a multiple
/// of 8 with its length in 8 bytes, its level (SOL_SOCKET) and its type in 4 each, the lowest byte first; the
/// length counts these 16 bytes and the payload. Descriptor numbers take 4 bytes each, credentials 12. The items
/// come in either order, and none twice. What stands in the padding between them is ignored; behind the last
/// it may be cut short. How many numbers one message may carry is the caller's to check.
///
/// # Errors
///
/// `Invalid` exactly where the bytes are no such list; `NoMemory` where the descriptor numbers found no
/// memory.
pub fn read_control<A: Allocator>(alloc: A, bytes: &[u8]) -> Result<Control<A>, ControlError>
    ensures read { IfOk result (λ control. control_in bytes.now ≡ Some control) }
    ensures spelled { IfOk result (λ control. Spells bytes.now control) }
    ensures invalid { (result ≡ Err ControlError.Invalid) ↔ (control_in bytes.now ≡ None) }
    ensures spells_none { (result ≡ Err ControlError.Invalid) ↔ ((control : model.Control) → ¬ (Spells bytes.now control)) }
    // Without descriptor numbers it takes no memory.
    ensures without_rights { (control : model.Control) → control_in bytes.now ≡ Some control → control.rights ≡ [] → IsOk result }
    ensures no_memory { result ≡ Err ControlError.NoMemory → 0 < length bytes.now }
{
    let parts = read_items(bytes).ok_or(ControlError::Invalid)?;
    Ok(read_parts(alloc, parts)?)
}
