//! A snapshot as JSON, an object for each thing.

ghost use Rattle.std.specs.Prelude.{◌≡◌, ◌++◌, codes, map, Some, IfOk, OnOk};
ghost use Rattle.serde_json.specs.Data.{number, unsigned, string};
ghost use Rattle.serde_json.specs.Find.{get};
ghost use Rattle.serde_json.specs.View.{view};
ghost use Rattle.ux_holders.specs.Kinds.{each};

use crate::rows::{
    DescriptionRow, MessageRow, NumberRow, ObjectRow, PathRow, ProcessRow, SocketRow, TargetRow,
};
use crate::snapshot::Snapshot;
use crate::words::object_word;
use serde_json::{Value, json};
use std::alloc::{AllocError, Global};
use ux_json::{addr_text, cred_value, path_text};
use ux_names::PathTarget;
use ux_trace::{mode_word, type_word};
use ux_types::DescriptionId;

/// A description's number; as a text where it has more than 64 bits.
fn id_value(alloc: Global, id: DescriptionId) -> Result<Value, AllocError> {
    let number = id.number();
    match u64::try_from(number) {
        Ok(number) => Ok(Value::from(number)),
        Err(_) => Ok(Value::String(format!(in alloc; "{number}")?)),
    }
}

/// A description's number, or null for none.
fn id_or_null(alloc: Global, id: Option<DescriptionId>) -> Result<Value, AllocError> {
    match id {
        Some(id) => id_value(alloc, id),
        None => Ok(Value::Null),
    }
}

fn id_list(alloc: Global, ids: &[DescriptionId]) -> Result<Value, AllocError> {
    let mut numbers = Vec::new(alloc);
    for id in ids {
        numbers.push(id_value(alloc, *id)?)?;
    }
    Ok(Value::Array(numbers))
}

/// An open number, and the description that it leads to.
fn number_value(alloc: Global, row: &NumberRow) -> Result<Value, AllocError> {
    let description = id_value(alloc, row.descriptor.description)?;
    json!(in alloc; {
        "fd": row.fd.0,
        "description": description,
        "cloexec": row.descriptor.cloexec
    })
}

fn number_list(alloc: Global, rows: &[NumberRow]) -> Result<Value, AllocError> {
    let mut numbers = Vec::new(alloc);
    for row in rows {
        numbers.push(number_value(alloc, row)?)?;
    }
    Ok(Value::Array(numbers))
}

/// A process that lives, with its open numbers.
fn process_value(alloc: Global, row: &ProcessRow) -> Result<Value, AllocError>
    ensures kind { IfOk result (λ v. get (codes "kind") (view v) ≡ Some (string (codes "process"))) }
    ensures pid { IfOk result (λ v. get (codes "pid") (view v) ≡ Some (number (unsigned row.now.pid.0))) }
{
    let numbers = number_list(alloc, &row.numbers)?;
    json!(in alloc; {"kind": "process", "pid": row.pid.0, "numbers": numbers})
}

/// A message that waits: the call that sent it, how many of its bytes wait, and what it passes.
fn message_value(alloc: Global, row: &MessageRow) -> Result<Value, AllocError>
    ensures call { IfOk result (λ v. get (codes "call") (view v) ≡ Some (number (unsigned row.now.tag))) }
    ensures n { IfOk result (λ v. get (codes "n") (view v) ≡ Some (number (unsigned row.now.len))) }
{
    let passes = id_list(alloc, &row.rights)?;
    let cred = cred_value(alloc, row.cred)?;
    json!(in alloc; {"call": row.tag, "n": row.len, "passes": passes, "cred": cred})
}

fn message_list(alloc: Global, rows: &[MessageRow]) -> Result<Value, AllocError> {
    let mut messages = Vec::new(alloc);
    for row in rows {
        messages.push(message_value(alloc, row)?)?;
    }
    Ok(Value::Array(messages))
}

fn socket_value(alloc: Global, row: &SocketRow) -> Result<Value, AllocError> {
    let name = addr_text(alloc, &row.name)?;
    let peer = id_or_null(alloc, row.peer)?;
    let association = id_or_null(alloc, row.association)?;
    let pending = id_list(alloc, &row.pending)?;
    let messages = message_list(alloc, &row.messages)?;
    json!(in alloc; {
        "type": type_word(row.kind),
        "name": name,
        "peer": peer,
        "association": association,
        "backlog": row.backlog,
        "pending": pending,
        "messages": messages,
        "passcred": row.passcred,
        "read_shut": row.read_shut,
        "write_shut": row.write_shut,
        "reset": row.reset
    })
}

/// A description, with how many references it has and what it leads to.
fn description_value(alloc: Global, row: &DescriptionRow) -> Result<Value, AllocError>
    ensures kind { IfOk result (λ v. get (codes "kind") (view v) ≡ Some (string (codes "description"))) }
    ensures references { IfOk result (λ v. get (codes "references") (view v) ≡ Some (number (unsigned row.now.references))) }
{
    let id = id_value(alloc, row.id)?;
    let target = target_value(alloc, row)?;
    json!(in alloc; {
        "kind": "description",
        "description": id,
        "references": row.references,
        "nonblock": row.nonblock,
        "target": target
    })
}

/// What a description leads to: a file object with the offset and the mode of the description, or a socket.
fn target_value(alloc: Global, row: &DescriptionRow) -> Result<Value, AllocError> {
    match &row.target {
        TargetRow::Object(object) => opened_value(alloc, row, *object),
        TargetRow::Socket(socket) => socket_value(alloc, socket),
    }
}

fn opened_value(alloc: Global, row: &DescriptionRow, object: u32) -> Result<Value, AllocError> {
    json!(in alloc; {
        "object": object,
        "mode": mode_word(row.mode),
        "offset": row.offset,
        "append": row.append
    })
}

/// A file object that is open, and of a memory file its length.
fn object_value(alloc: Global, row: &ObjectRow) -> Result<Value, AllocError>
    ensures kind { IfOk result (λ v. get (codes "kind") (view v) ≡ Some (string (codes "object"))) }
    ensures object { IfOk result (λ v. get (codes "object") (view v) ≡ Some (number (unsigned row.now.number))) }
    ensures size { IfOk result (λ v. get (codes "size") (view v) ≡ Some (number (unsigned row.now.size))) }
{
    let word = object_word(row.kind);
    json!(in alloc; {"kind": "object", "object": row.number, "type": word, "size": row.size})
}

/// A path, and the file object or the socket's description that it names.
fn path_value(alloc: Global, row: &PathRow) -> Result<Value, AllocError>
    ensures { IfOk result (λ v. get (codes "kind") (view v) ≡ Some (string (codes "path"))) }
{
    let path = path_text(alloc, &row.name)?;
    match row.target {
        PathTarget::File(object) => {
            json!(in alloc; {"kind": "path", "path": path, "object": object})
        }
        PathTarget::Socket(id) => {
            let description = id_value(alloc, id)?;
            json!(in alloc; {"kind": "path", "path": path, "description": description})
        }
    }
}

fn add_processes(
    alloc: Global,
    values: &mut Vec<Value>,
    rows: &[ProcessRow],
) -> Result<(), AllocError>
    ensures { OnOk result (map (λ v. get (codes "kind") (view v)) values.new.items ≡ map (λ v. get (codes "kind") (view v)) values.old.items ++ each (codes "process") rows.now) }
{
    for row in rows {
        values.push(process_value(alloc, row)?)?;
    }
    Ok(())
}

fn add_descriptions(
    alloc: Global,
    values: &mut Vec<Value>,
    rows: &[DescriptionRow],
) -> Result<(), AllocError>
    ensures { OnOk result (map (λ v. get (codes "kind") (view v)) values.new.items ≡ map (λ v. get (codes "kind") (view v)) values.old.items ++ each (codes "description") rows.now) }
{
    for row in rows {
        values.push(description_value(alloc, row)?)?;
    }
    Ok(())
}

fn add_objects(alloc: Global, values: &mut Vec<Value>, rows: &[ObjectRow]) -> Result<(), AllocError>
    ensures { OnOk result (map (λ v. get (codes "kind") (view v)) values.new.items ≡ map (λ v. get (codes "kind") (view v)) values.old.items ++ each (codes "object") rows.now) }
{
    for row in rows {
        values.push(object_value(alloc, row)?)?;
    }
    Ok(())
}

fn add_paths(alloc: Global, values: &mut Vec<Value>, rows: &[PathRow]) -> Result<(), AllocError>
    ensures { OnOk result (map (λ v. get (codes "kind") (view v)) values.new.items ≡ map (λ v. get (codes "kind") (view v)) values.old.items ++ each (codes "path") rows.now) }
{
    for row in rows {
        values.push(path_value(alloc, row)?)?;
    }
    Ok(())
}

/// All that is there at one moment, and who holds it: an object for each process, then for each description, each file object
/// and each path.
///
/// # Errors
///
/// Out of memory.
pub fn snapshot_values(alloc: Global, held: &Snapshot) -> Result<Vec<Value>, AllocError>
    ensures { IfOk result (λ values. map (λ v. get (codes "kind") (view v)) values.items ≡ each (codes "process") held.now.processes.items
        ++ (each (codes "description") held.now.descriptions.items
        ++ (each (codes "object") held.now.objects.items ++ each (codes "path") held.now.paths.items))) }
{
    let mut values = Vec::new(alloc);
    add_processes(alloc, &mut values, &held.processes)?;
    add_descriptions(alloc, &mut values, &held.descriptions)?;
    add_objects(alloc, &mut values, &held.objects)?;
    add_paths(alloc, &mut values, &held.paths)?;
    Ok(values)
}
