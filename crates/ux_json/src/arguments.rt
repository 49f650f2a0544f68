//! The arguments of a call as an object.

ghost use Rattle.std.specs.Prelude.{◌≡◌, codes, Some, IfOk, OnOk, map, option_map};
ghost use Rattle.serde_json.specs.Data.{number, unsigned};
ghost use Rattle.serde_json.specs.Find.{get};
ghost use Rattle.serde_json.specs.View.{view, members_view};
ghost use Rattle.ux_fields.specs.Rows.{poll_fds_field};
ghost use Rattle.ux_fields.specs.Seen.{seen};
ghost use Rattle.ux_json.specs.Arguments.{descriptor_of, target_data, IsDataOf, HasAdded, HasArguments};

use crate::control::control_value;
use crate::words::{addr_text, counter_flag_names, flag_names, hex_text, path_text};
use serde_json::{Map, Value, json, put};
use std::alloc::{AllocError, Global};
use ux_fields::{CallWord, Field, FieldForm, fields_of, form_of};
use ux_trace::{mode_word, option_word, type_word, whence_word};
use ux_types::{Addr, PollFd, PollFds, Request};

/// An address as a script has it, or null for none.
fn target_value(alloc: Global, addr: &Option<Addr>) -> Result<Value, AllocError>
    ensures { IfOk result (λ v. view v ≡ target_data addr.now) }
{
    match addr {
        Some(addr) => Ok(Value::String(addr_text(alloc, addr)?)),
        None => Ok(Value::Null),
    }
}

/// A descriptor and the names of the conditions that are asked for.
fn asked_value(alloc: Global, asked: PollFd) -> Result<Value, AllocError>
    ensures { IfOk result (λ v. get (codes "fd") (view v) ≡ Some (number (unsigned asked.fd.0))) }
{
    let events = flag_names(alloc, &asked.events)?;
    json!(in alloc; {"fd": asked.fd.0, "events": events})
}

/// The descriptors of a poll, an object each.
fn poll_fds_value(alloc: Global, fds: &PollFds) -> Result<Value, AllocError>
    ensures { IfOk result (λ v. IsDataOf (poll_fds_field fds.now) (view v)) }
{
    let mut objects = Vec::new(alloc);
    for asked in fds.as_slice() {
        objects.push(asked_value(alloc, *asked)?)?;
    }
    Ok(Value::Array(objects))
}

/// A field as a value.
fn field_value(alloc: Global, field: Field<'_>) -> Result<Value, AllocError>
    ensures { IfOk result (λ v. IsDataOf (seen field.entry) (view v)) }
{
    match field {
        Field::Fd(fd) => Ok(Value::from(fd.0)),
        Field::Number(number) => Ok(Value::from(number)),
        Field::Size(size) => Ok(Value::from(size)),
        Field::Space(space) => Ok(Value::from(space)),
        Field::Value(value) => Ok(Value::from(value)),
        Field::Offset(offset) => Ok(Value::from(offset)),
        Field::Backlog(backlog) => Ok(Value::from(backlog)),
        Field::Path(path) => Ok(Value::String(path_text(alloc, path)?)),
        Field::Bytes(bytes) => Ok(Value::String(hex_text(alloc, bytes.as_slice())?)),
        Field::Addr(addr) => Ok(Value::String(addr_text(alloc, addr)?)),
        Field::Target(addr) => target_value(alloc, addr),
        Field::Mode(mode) => Value::try_from_str(alloc, mode_word(mode)),
        Field::Whence(whence) => Value::try_from_str(alloc, whence_word(whence)),
        Field::SockType(kind) => Value::try_from_str(alloc, type_word(kind)),
        Field::SockOpt(opt) => Value::try_from_str(alloc, option_word(opt)),
        Field::OpenFlags(flags) => flag_names(alloc, &flags),
        Field::CounterFlags(semaphore, flags) => counter_flag_names(alloc, semaphore, &flags),
        Field::MsgFlags(flags) => flag_names(alloc, &flags),
        Field::Control(bytes) => control_value(alloc, bytes.as_slice()),
        Field::PollFds(fds) => poll_fds_value(alloc, fds),
        Field::Waits(waits) => Ok(Value::Bool(waits)),
    }
}

/// Adds a member for each field that has a name.
fn add_fields(
    alloc: Global,
    members: &mut Map<String, Value>,
    forms: &[FieldForm],
    fields: &[Field],
) -> Result<(), AllocError>
    ensures { OnOk result (HasAdded (map (λ f. f.name.now) forms.now) (map seen fields.now)
        (members_view members.old.entries) (members_view members.new.entries)) }
{
    let [form, later_forms @ ..] = forms else {
        return Ok(());
    };
    let [field, later_fields @ ..] = fields else {
        return Ok(());
    };
    let value = field_value(alloc, *field)?;
    put(members, alloc, form.name, value)?;
    add_fields(alloc, members, later_forms, later_fields)
}

/// The arguments of a call as an object: a number for a number, and the script's word for a word. Flags are a list of names,
/// bytes are hexadecimal digits, control bytes are what they spell, and the descriptors of a poll are a list of objects. Whether
/// a call waits is true or false.
///
/// # Errors
///
/// Out of memory.
pub fn arguments_value(alloc: Global, request: &Request) -> Result<Value, AllocError>
    ensures descriptor { IfOk result (λ v. get (codes "fd") (view v) ≡ option_map (λ n. number (unsigned n)) (descriptor_of request.now)) }
    ensures members { IfOk result (λ v. HasArguments request.now (view v)) }
{
    let mut members = Map::new(alloc);
    let fields = fields_of(request);
    let forms = form_of(CallWord::of(request));
    add_fields(alloc, &mut members, forms, fields.as_slice())?;
    Ok(Value::Object(members))
}
