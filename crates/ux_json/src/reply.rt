//! A reply as an object.

ghost use Rattle.std.specs.Prelude.{◌≡◌, codes, Some, IfOk};
ghost use Rattle.serde_json.specs.Data.{string};
ghost use Rattle.serde_json.specs.Find.{get};
ghost use Rattle.serde_json.specs.View.{view};
ghost use Rattle.ux_json.specs.Lines.{reply_kind};

use crate::control::control_value;
use crate::words::{addr_or_null, addr_text, flag_names, hex_text};
use serde_json::{Value, json};
use std::alloc::{AllocError, Global};
use ux_trace::errno_name;
use ux_types::{Addr, Bytes, Cred, Errno, Fd, MsgFlags, OpenFlags, Pid, PollFlags, Reply, Revents};

/// A reply as an object: its member `kind` is the first word that a trace has for it, and says which other members it has.
///
/// # Errors
///
/// Out of memory.
pub fn reply_value(alloc: Global, reply: &Reply) -> Result<Value, AllocError>
    ensures { IfOk result (λ v. get (codes "kind") (view v) ≡ Some (string (reply_kind reply.now))) }
{
    match reply {
        Reply::Ok => json!(in alloc; {"kind": "ok"}),
        Reply::Fd(fd) => opened(alloc, *fd),
        Reply::Fds(first, second) => opened_two(alloc, *first, *second),
        Reply::Count(count) => counted(alloc, *count),
        Reply::Bytes(bytes) => read(alloc, bytes),
        Reply::At(offset) => json!(in alloc; {"kind": "at", "at": *offset}),
        Reply::Received {
            flags,
            count,
            bytes,
            control,
            from,
        } => received(alloc, *flags, *count, bytes, control, from),
        Reply::Accepted(fd, addr) => accepted(alloc, *fd, addr),
        Reply::Addr(addr) => named(alloc, addr),
        Reply::Opt(value) => json!(in alloc; {"kind": "opt", "value": *value}),
        Reply::Cred(cred) => credentials(alloc, *cred),
        Reply::Poll(flags) => polled(alloc, *flags),
        Reply::Polled(found) => polled_each(alloc, found),
        Reply::Child(pid) => forked(alloc, *pid),
        Reply::Flags(flags) => flagged(alloc, *flags),
        Reply::Err(errno) => refused(alloc, *errno),
    }
}

fn opened(alloc: Global, fd: Fd) -> Result<Value, AllocError>
    ensures { IfOk result (λ v. get (codes "kind") (view v) ≡ Some (string (codes "fd"))) }
{
    json!(in alloc; {"kind": "fd", "fd": fd.0})
}

fn opened_two(alloc: Global, first: Fd, second: Fd) -> Result<Value, AllocError>
    ensures { IfOk result (λ v. get (codes "kind") (view v) ≡ Some (string (codes "fds"))) }
{
    json!(in alloc; {"kind": "fds", "fds": [first.0, second.0]})
}

fn counted(alloc: Global, count: usize) -> Result<Value, AllocError>
    ensures { IfOk result (λ v. get (codes "kind") (view v) ≡ Some (string (codes "n"))) }
{
    json!(in alloc; {"kind": "n", "n": count})
}

fn read(alloc: Global, bytes: &Bytes) -> Result<Value, AllocError>
    ensures { IfOk result (λ v. get (codes "kind") (view v) ≡ Some (string (codes "bytes"))) }
{
    let bytes = hex_text(alloc, bytes.as_slice())?;
    json!(in alloc; {"kind": "bytes", "bytes": bytes})
}

fn accepted(alloc: Global, fd: Fd, addr: &Addr) -> Result<Value, AllocError>
    ensures { IfOk result (λ v. get (codes "kind") (view v) ≡ Some (string (codes "accepted"))) }
{
    let addr = addr_text(alloc, addr)?;
    json!(in alloc; {"kind": "accepted", "fd": fd.0, "addr": addr})
}

fn named(alloc: Global, addr: &Addr) -> Result<Value, AllocError>
    ensures { IfOk result (λ v. get (codes "kind") (view v) ≡ Some (string (codes "addr"))) }
{
    let addr = addr_text(alloc, addr)?;
    json!(in alloc; {"kind": "addr", "addr": addr})
}

fn credentials(alloc: Global, cred: Cred) -> Result<Value, AllocError>
    ensures { IfOk result (λ v. get (codes "kind") (view v) ≡ Some (string (codes "cred"))) }
{
    json!(in alloc; {"kind": "cred", "pid": cred.pid.0, "uid": cred.uid, "gid": cred.gid})
}

fn polled(alloc: Global, flags: PollFlags) -> Result<Value, AllocError>
    ensures { IfOk result (λ v. get (codes "kind") (view v) ≡ Some (string (codes "poll"))) }
{
    let conditions = flag_names(alloc, &flags)?;
    json!(in alloc; {"kind": "poll", "conditions": conditions})
}

/// The names of the conditions of each descriptor.
fn conditions_of(alloc: Global, found: &Revents) -> Result<Value, AllocError> {
    let mut sets = Vec::new(alloc);
    for flags in found.as_slice() {
        sets.push(flag_names(alloc, flags)?)?;
    }
    Ok(Value::Array(sets))
}

fn polled_each(alloc: Global, found: &Revents) -> Result<Value, AllocError>
    ensures { IfOk result (λ v. get (codes "kind") (view v) ≡ Some (string (codes "polled"))) }
{
    let conditions = conditions_of(alloc, found)?;
    json!(in alloc; {"kind": "polled", "conditions": conditions})
}

fn forked(alloc: Global, pid: Pid) -> Result<Value, AllocError>
    ensures { IfOk result (λ v. get (codes "kind") (view v) ≡ Some (string (codes "child"))) }
{
    json!(in alloc; {"kind": "child", "pid": pid.0})
}

fn flagged(alloc: Global, flags: OpenFlags) -> Result<Value, AllocError>
    ensures { IfOk result (λ v. get (codes "kind") (view v) ≡ Some (string (codes "flags"))) }
{
    let flags = flag_names(alloc, &flags)?;
    json!(in alloc; {"kind": "flags", "flags": flags})
}

fn refused(alloc: Global, errno: Errno) -> Result<Value, AllocError>
    ensures { IfOk result (λ v. get (codes "kind") (view v) ≡ Some (string (codes "err"))) }
{
    json!(in alloc; {"kind": "err", "errno": errno_name(errno)})
}

/// What a receive got.
fn received(
    alloc: Global,
    flags: MsgFlags,
    count: usize,
    bytes: &Bytes,
    control: &Bytes,
    from: &Option<Addr>,
) -> Result<Value, AllocError>
    ensures { IfOk result (λ v. get (codes "kind") (view v) ≡ Some (string (codes "got"))) }
{
    let bytes = hex_text(alloc, bytes.as_slice())?;
    let flags = flag_names(alloc, &flags)?;
    let control = control_value(alloc, control.as_slice())?;
    let from = addr_or_null(alloc, from)?;
    json!(in alloc; {
        "kind": "got", "n": count, "bytes": bytes, "flags": flags, "control": control, "from": from
    })
}
