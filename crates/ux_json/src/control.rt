//! What control bytes say (cmsg(3)).

ghost use Rattle.std.specs.Prelude.{◌≡◌, codes, Some, IfOk};
ghost use Rattle.serde_json.specs.Data.{number, unsigned};
ghost use Rattle.serde_json.specs.Find.{get};
ghost use Rattle.serde_json.specs.View.{view};

use crate::words::hex_text;
use serde_json::{Value, json};
use std::alloc::{AllocError, Global};
use ux_cmsg::{Control, ControlError, read_control};
use ux_types::{Cred, Fd};

/// Control bytes: the credentials and descriptors that they spell, or the bytes where they spell no items.
pub(crate) fn control_value(alloc: Global, bytes: &[u8]) -> Result<Value, AllocError> {
    match read_control(alloc, bytes) {
        Ok(control) => said(alloc, &control),
        Err(ControlError::Invalid) => json!(in alloc; {"raw": hex_text(alloc, bytes)?}),
        Err(ControlError::NoMemory) => Err(AllocError),
    }
}

fn said(alloc: Global, control: &Control) -> Result<Value, AllocError> {
    let cred = match control.cred() {
        Some(cred) => cred_value(alloc, cred)?,
        None => Value::Null,
    };
    let rights = fd_list(alloc, control.rights())?;
    json!(in alloc; {"cred": cred, "rights": rights})
}

/// Credentials (SCM_CREDENTIALS) as an object: the process, the user and the group.
///
/// # Errors
///
/// Out of memory.
pub fn cred_value(alloc: Global, cred: Cred) -> Result<Value, AllocError>
    ensures pid { IfOk result (λ v. get (codes "pid") (view v) ≡ Some (number (unsigned cred.pid.0))) }
    ensures uid { IfOk result (λ v. get (codes "uid") (view v) ≡ Some (number (unsigned cred.uid))) }
    ensures gid { IfOk result (λ v. get (codes "gid") (view v) ≡ Some (number (unsigned cred.gid))) }
{
    json!(in alloc; {"pid": cred.pid.0, "uid": cred.uid, "gid": cred.gid})
}

fn fd_list(alloc: Global, fds: &[Fd]) -> Result<Value, AllocError> {
    let mut numbers = Vec::new(alloc);
    for fd in fds {
        numbers.push(Value::from(fd.0))?;
    }
    Ok(Value::Array(numbers))
}
