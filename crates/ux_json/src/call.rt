//! A call of a history as an object.

ghost use Rattle.std.specs.Prelude.{◌≡◌, codes, Some, IfOk};
ghost use Rattle.serde_json.specs.Data.{number, unsigned, string};
ghost use Rattle.serde_json.specs.Find.{get};
ghost use Rattle.serde_json.specs.View.{view};
ghost use Rattle.ux_trace.specs.Trace.{word_text, request_word};
ghost use Rattle.ux_json.specs.Lines.{or_null};

use crate::arguments::arguments_value;
use crate::reply::reply_value;
use serde_json::{Value, json};
use std::alloc::{AllocError, Global};
use ux_trace::CallWord;
use ux_types::{Entry, Released};

/// The numbers of the file objects that a call closed, rising.
fn closed_value(alloc: Global, released: &Released) -> Result<Value, AllocError> {
    let mut numbers = Vec::new(alloc);
    let (first, others) = released.parts();
    for number in first.iter().chain(others) {
        numbers.push(Value::from(*number))?;
    }
    Ok(Value::Array(numbers))
}

/// The number of a line, or null for none.
fn line_value(line: Option<usize>) -> Value
    ensures { view result ≡ or_null line }
{
    match line {
        Some(number) => Value::from(number),
        None => Value::Null,
    }
}

/// A call as an object: its number in the history, from 0, its process, its number among the process's calls, the script's line
/// that asks for it (null for none), its word, arguments and reply, and the file objects that it closed.
///
/// # Errors
///
/// Out of memory.
pub fn call_value(
    alloc: Global,
    place: usize,
    line: Option<usize>,
    entry: &Entry,
) -> Result<Value, AllocError>
    ensures kind { IfOk result (λ v. get (codes "kind") (view v) ≡ Some (string (codes "call"))) }
    ensures place { IfOk result (λ v. get (codes "call") (view v) ≡ Some (number (unsigned place))) }
    ensures line { IfOk result (λ v. get (codes "line") (view v) ≡ Some (or_null line)) }
    ensures pid { IfOk result (λ v. get (codes "pid") (view v) ≡ Some (number (unsigned entry.now.pid.0))) }
    ensures k { IfOk result (λ v. get (codes "k") (view v) ≡ Some (number (unsigned entry.now.k))) }
    ensures word { IfOk result (λ v. get (codes "word") (view v) ≡ Some (string (word_text (request_word entry.now.request)))) }
{
    let number = line_value(line);
    let word = CallWord::of(&entry.request).text();
    let arguments = arguments_value(alloc, &entry.request)?;
    let reply = reply_value(alloc, &entry.reply)?;
    let closed = closed_value(alloc, &entry.released)?;
    json!(in alloc; {
        "kind": "call",
        "call": place,
        "pid": entry.pid.0,
        "k": entry.k,
        "line": number,
        "word": word,
        "arguments": arguments,
        "reply": reply,
        "closed": closed
    })
}
