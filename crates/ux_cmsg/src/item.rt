//! The items of a control buffer.
ghost use Rattle.std.specs.Prelude.{◌≡◌, ◌-◌, ◌%◌, drop, option_map};
ghost use Rattle.std.specs.Int.{w32, w64};
ghost use Rattle.ux_model.specs.ControlReading.{number_at, cred_in, item_of, item_behind, item_at};
ghost use Rattle.ux_cmsg.specs.Items.{item_view};

use ux_types::{CMSG_FD_LEN, CMSG_HEAD_LEN, Cred, Pid};

/// The level of all items (SOL_SOCKET).
pub(crate) const LEVEL: u32 = 1;

/// The type of descriptor numbers (SCM_RIGHTS).
pub(crate) const RIGHTS_TYPE: u32 = 1;

/// The type of credentials (SCM_CREDENTIALS).
pub(crate) const CRED_TYPE: u32 = 2;

/// An item begins at a multiple of this.
const ALIGNMENT: u64 = 8;

/// An item of a control buffer.
#[derive(Clone, Copy)]
pub(crate) enum Item<'a> {
    /// Descriptor numbers, four bytes each.
    Rights(&'a [u8]),
    /// Credentials.
    Cred(Cred),
}

/// The number in the first four bytes, the lowest byte first, and the bytes behind it.
pub(crate) fn u32_at(bytes: &[u8]) -> Option<(u32, &[u8])>
    ensures { option_map (λ p. (p.0, p.1.now)) result ≡ number_at w32 bytes.now }
{
    let (number, rest) = bytes.split_first_chunk::<4>()?;
    Some((u32::from_le_bytes(*number), rest))
}

/// The number in the first eight bytes, the lowest byte first, and the bytes behind it.
fn u64_at(bytes: &[u8]) -> Option<(u64, &[u8])>
    ensures { option_map (λ p. (p.0, p.1.now)) result ≡ number_at w64 bytes.now }
{
    let (number, rest) = bytes.split_first_chunk::<8>()?;
    Some((u64::from_le_bytes(*number), rest))
}

/// The credentials that the payload of an item spells: pid, uid and gid in four bytes each, and nothing else.
#[tactic(auto, unfolding(ux_model::specs::ControlReading::cred_in))]
fn cred_of(payload: &[u8]) -> Option<Cred>
    ensures { result ≡ cred_in payload.now }
{
    let (pid, rest) = u32_at(payload)?;
    let (uid, rest) = u32_at(rest)?;
    let (gid, rest) = u32_at(rest)?;
    if rest.is_empty() {
        Some(Cred {
            pid: Pid(pid),
            uid,
            gid,
        })
    } else {
        None
    }
}

/// The item with this type and payload, if there is one.
#[tactic(auto, unfolding(ux_model::specs::ControlReading::item_of))]
fn item_with(kind: u32, payload: &[u8]) -> Option<Item<'_>>
    ensures { option_map item_view result ≡ item_of kind payload.now }
{
    match kind {
        RIGHTS_TYPE if payload.len() % CMSG_FD_LEN == 0 => Some(Item::Rights(payload)),
        CRED_TYPE => Some(Item::Cred(cred_of(payload)?)),
        _ => None,
    }
}

/// What stands behind the padding of an item of this length. At the end the padding may be cut short.
fn behind_padding(len: u64, behind: &[u8]) -> &[u8]
    ensures { result.now ≡ drop ((8 - len % 8) % 8) behind.now }
{
    let padding = (ALIGNMENT - len % ALIGNMENT) % ALIGNMENT;
    match behind.split_at_checked(padding as usize) {
        Some((_, rest)) => rest,
        None => &[],
    }
}

/// The item whose head has this length, level and type, and whose data stands at the front, if there is one, and
/// the bytes from where a next one would stand.
#[tactic(auto, unfolding(ux_model::specs::ControlReading::item_behind))]
fn item_behind(len: u64, level: u32, kind: u32, rest: &[u8]) -> Option<(Item<'_>, &[u8])>
    ensures { option_map (λ p. (item_view p.0, p.1.now)) result ≡ item_behind len level kind rest.now }
{
    if level != LEVEL {
        return None;
    }
    let payload_len = len.checked_sub(CMSG_HEAD_LEN as u64)?;
    let (payload, behind) = rest.split_at_checked(payload_len as usize)?;
    let item = item_with(kind, payload)?;
    Some((item, behind_padding(len, behind)))
}

/// The item that stands at the front, if one does, and the bytes from where a next one would stand.
#[tactic(auto, unfolding(ux_model::specs::ControlReading::item_at))]
pub(crate) fn first_item(bytes: &[u8]) -> Option<(Item<'_>, &[u8])>
    ensures { option_map (λ p. (item_view p.0, p.1.now)) result ≡ item_at bytes.now }
{
    let (len, rest) = u64_at(bytes)?;
    let (level, rest) = u32_at(rest)?;
    let (kind, rest) = u32_at(rest)?;
    item_behind(len, level, kind, rest)
}
