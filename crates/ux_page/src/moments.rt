//! What is held at a moment of a run, and what a call changed of it.

use indexmap::IndexMap;
use serde_json::Value;
use std::alloc::{AllocError, Global};
use ux_holders::{snapshot_values, take_snapshot};
use ux_object::FileObject;
use ux_state::State;

/// What is held at a moment: each process, description, file object and path as JSON, by its kind with its number or name.
#[derive(Drop)]
pub(crate) struct Moment {
    rows: IndexMap<String, String>,
}

impl Moment {
    /// Nothing.
    pub(crate) fn empty(alloc: Global) -> Moment {
        Moment {
            rows: IndexMap::new(alloc),
        }
    }

    /// What is held in this state.
    pub(crate) fn of<O: FileObject>(alloc: Global, state: &State<O>) -> Result<Moment, AllocError> {
        let held = take_snapshot(alloc, state)?;
        let mut moment = Moment::empty(alloc);
        for row in &snapshot_values(alloc, &held)? {
            let key = key_of(alloc, row)?;
            let text = row.to_string(alloc)?;
            moment.rows.insert(key, text)?;
        }
        Ok(moment)
    }

    /// Appends a list of the rows that weren't there before, or were others.
    pub(crate) fn put_rows(&self, before: &Moment, out: &mut String) -> Result<(), AllocError> {
        out.push('[')?;
        let mut is_first = true;
        for (key, text) in self.rows.iter() {
            let same = match before.rows.get(key.as_str()) {
                Some(old) => old.as_str() == text.as_str(),
                None => false,
            };
            if !same {
                put_next(out, is_first, text)?;
                is_first = false;
            }
        }
        out.push(']')
    }

    /// Appends a list of the keys of the rows that were there before, and aren't.
    pub(crate) fn put_gone(
        &self,
        alloc: Global,
        before: &Moment,
        out: &mut String,
    ) -> Result<(), AllocError> {
        out.push('[')?;
        let mut is_first = true;
        for key in before.rows.keys() {
            if self.rows.get(key.as_str()).is_none() {
                let key = Value::String(String::from_str(alloc, key.as_str())?);
                put_next(out, is_first, &key.to_string(alloc)?)?;
                is_first = false;
            }
        }
        out.push(']')
    }
}

/// Appends what comes next in a list.
fn put_next(out: &mut String, is_first: bool, text: &String) -> Result<(), AllocError> {
    if !is_first {
        out.push(',')?;
    }
    out.push_str(text.as_str())
}

/// The member by which rows of a kind differ.
fn name_of(kind: &str) -> &str {
    if kind == "process" { "pid" } else { kind }
}

/// A row's kind and its number or name.
fn key_of(alloc: Global, row: &Value) -> Result<String, AllocError> {
    let kind = row.get("kind").and_then(Value::as_str).unwrap_or("");
    match row.get(name_of(kind)) {
        Some(Value::String(name)) => format!(in alloc; "{kind} {name}"),
        Some(number) => {
            let number = number.to_string(alloc)?;
            format!(in alloc; "{kind} {number}")
        }
        None => String::from_str(alloc, kind),
    }
}
