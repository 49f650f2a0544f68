//! Writing a control buffer.
ghost use Rattle.std.specs.Prelude.{◌≡◌, ◌++◌, [], map, None, IsOk, IfOk, IfSome, OnOk};
ghost use Rattle.ux_model.specs.Control.{rights_item, cred_item, item_bytes, IsItem, Spells};
ghost use Rattle.ux_model.specs.Delivery.{control_bytes};
ghost use Rattle.ux_cmsg.specs.Items.{head_bytes};

use crate::control::Control;
use crate::item::{CRED_TYPE, LEVEL, RIGHTS_TYPE};
use std::alloc::{AllocError, Allocator};
use ux_types::{CMSG_CRED_LEN, CMSG_CRED_SPACE, CMSG_FD_LEN, CMSG_HEAD_LEN, Cred, Fd};

/// What stands between credentials and the next item.
const PADDING: [u8; CMSG_CRED_SPACE - CMSG_CRED_LEN] = [0; CMSG_CRED_SPACE - CMSG_CRED_LEN];

/// Adds the head of an item of this length, its payload counted.
fn put_head<A: Allocator>(out: &mut Vec<u8, A>, len: u64, kind: u32) -> Result<(), AllocError>
    ensures { OnOk result (out.new.items ≡ out.old.items ++ head_bytes len kind) }
{
    out.extend_from_slice(&len.to_le_bytes())?;
    out.extend_from_slice(&LEVEL.to_le_bytes())?;
    out.extend_from_slice(&kind.to_le_bytes())?;
    Ok(())
}

/// Adds an item of credentials.
fn put_cred<A: Allocator>(out: &mut Vec<u8, A>, cred: Cred) -> Result<(), AllocError>
    ensures written { OnOk result (out.new.items ≡ out.old.items ++ item_bytes (cred_item cred)) }
    ensures fits { IsItem (cred_item cred) }
{
    put_head(out, CMSG_CRED_LEN as u64, CRED_TYPE)?;
    out.extend_from_slice(&cred.pid.0.to_le_bytes())?;
    out.extend_from_slice(&cred.uid.to_le_bytes())?;
    out.extend_from_slice(&cred.gid.to_le_bytes())?;
    Ok(())
}

/// Adds an item of descriptor numbers.
fn put_rights<A: Allocator>(out: &mut Vec<u8, A>, rights: &[Fd]) -> Result<(), AllocError>
    ensures written { OnOk result (out.new.items ≡ out.old.items ++ item_bytes (rights_item (map (λ fd. fd.0) rights.now))) }
    ensures fits { OnOk result (IsItem (rights_item (map (λ fd. fd.0) rights.now))) }
{
    let len = CMSG_HEAD_LEN + CMSG_FD_LEN * rights.len();
    put_head(out, len as u64, RIGHTS_TYPE)?;
    for fd in rights {
        out.extend_from_slice(&fd.0.to_le_bytes())?;
    }
    Ok(())
}

/// Adds the items of credentials and descriptor numbers.
fn put_items<A: Allocator>(
    out: &mut Vec<u8, A>,
    cred: Option<Cred>,
    rights: &[Fd],
) -> Result<(), AllocError>
    ensures written { OnOk result (out.new.items ≡ out.old.items ++ control_bytes cred (map (λ fd. fd.0) rights.now)) }
    ensures cred_fits { OnOk result (IfSome cred (λ cred. IsItem (cred_item cred))) }
    ensures rights_fit { OnOk result (IsItem (rights_item (map (λ fd. fd.0) rights.now))) }
    ensures nothing { cred ≡ None → rights.now ≡ [] → IsOk result }
{
    if let Some(cred) = cred {
        put_cred(out, cred)?;
        if !rights.is_empty() {
            out.extend_from_slice(&PADDING)?;
        }
    }
    if !rights.is_empty() {
        put_rights(out, rights)?;
    }
    Ok(())
}

/// How much room the items take, the padding behind credentials counted.
fn space_for(cred: Option<Cred>, rights: &[Fd]) -> usize
    ensures { cred ≡ None → rights.now ≡ [] → result ≡ 0 }
{
    let for_cred = if cred.is_some() { CMSG_CRED_SPACE } else { 0 };
    if rights.is_empty() {
        return for_cred;
    }
    for_cred + CMSG_HEAD_LEN + CMSG_FD_LEN * rights.len()
}

/// The control buffer of a recvmsg(2): credentials first, then descriptor numbers where there is at least one,
/// on the next multiple of 8 behind zeros, and nothing behind the last item.
pub fn write_control<A: Allocator, B: Allocator>(
    alloc: A,
    control: &Control<B>,
) -> Result<Vec<u8, A>, AllocError>
    ensures written { IfOk result (λ bytes. bytes.items ≡ control_bytes control.now.cred control.now.rights) }
    // It reads as what was written.
    ensures spelled { IfOk result (λ bytes. Spells bytes.items control.now) }
    // Nothing is written without memory.
    ensures nothing { control.now.cred ≡ None → control.now.rights ≡ [] → IsOk result }
{
    let cred = control.cred();
    let rights = control.rights();
    let mut out = Vec::with_capacity(alloc, space_for(cred, rights))?;
    put_items(&mut out, cred, rights)?;
    Ok(out)
}
