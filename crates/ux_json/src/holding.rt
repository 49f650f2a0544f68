//! A descriptor that is open, and how it came to its process.

ghost use Rattle.std.specs.Prelude.{◌≡◌, codes, Some, IfOk};
ghost use Rattle.serde_json.specs.Data.{number, unsigned};
ghost use Rattle.serde_json.specs.Find.{get};
ghost use Rattle.serde_json.specs.View.{view};

use serde_json::{Value, json};
use std::alloc::{AllocError, Global};
use ux_audit::Chain;
use ux_types::{Fd, How, Link, Pid};

/// By what a holding was taken, as an audit has it.
fn how_word(how: How) -> &'static str {
    match how {
        How::Made => "made",
        How::Dup => "dup",
        How::Received(_) => "got",
        How::Forked => "fork",
    }
}

/// The number of the call that sent a holding, where it was received.
fn sender_of(how: How) -> Option<u64> {
    match how {
        How::Received(call) => Some(call),
        How::Made | How::Dup | How::Forked => None,
    }
}

fn link_value(alloc: Global, link: &Link) -> Result<Value, AllocError> {
    json!(in alloc; {
        "how": how_word(link.how),
        "call": link.entry,
        "pid": link.pid.0,
        "fd": link.fd.0,
        "from": sender_of(link.how)
    })
}

fn chain_value(alloc: Global, chain: &Chain) -> Result<Value, AllocError> {
    let mut links = Vec::new(alloc);
    for link in &chain.links {
        links.push(link_value(alloc, link)?)?;
    }
    Ok(Value::Array(links))
}

/// A process's descriptor as an object, with the chain of links by which it came to the process, the maker's first.
///
/// # Errors
///
/// Out of memory.
pub fn held_value(alloc: Global, pid: Pid, fd: Fd, chain: &Chain) -> Result<Value, AllocError>
    ensures pid { IfOk result (λ v. get (codes "pid") (view v) ≡ Some (number (unsigned pid.0))) }
    ensures fd { IfOk result (λ v. get (codes "fd") (view v) ≡ Some (number (unsigned fd.0))) }
{
    let chain = chain_value(alloc, chain)?;
    json!(in alloc; {"kind": "held", "pid": pid.0, "fd": fd.0, "chain": chain})
}

/// How many descriptors an audit found, as an object.
///
/// # Errors
///
/// Out of memory.
pub fn audit_value(alloc: Global, held: usize) -> Result<Value, AllocError>
    ensures { IfOk result (λ v. get (codes "held") (view v) ≡ Some (number (unsigned held))) }
{
    json!(in alloc; {"kind": "audit", "result": "ok", "held": held})
}
