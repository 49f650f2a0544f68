//! Scripts with names, which must answer as they expect, also where one more descriptor is opened before all others.

use crate::{kernel_of, must_answer_as_expected};
use anyhow::{Result, anyhow};
use std::alloc::Global;
use std::fs;
use std::rt::Files;
use ux_script::{make_serial, objects_of};
use ux_script_names::{NamedScript, as_typed};
use ux_syntax::parse_script;

/// The scripts, and of each the process that makes the first call.
pub const NAMED: &[(&str, &str)] = &[
    ("socket_activation", "manager"),
    ("picture_in_shared_memory", "display"),
    ("privilege_separation", "monitor"),
];

/// The script without names that a text stands for.
fn plain_text(alloc: Global, text: &[u8]) -> Result<Vec<u8>> {
    let typed = as_typed(alloc, text)?;
    let named = NamedScript::read(alloc, &typed.text).map_err(|fault| anyhow!("{fault}"))?;
    let objects = objects_of(alloc, named.script(), true)?;
    let kernel = kernel_of(alloc, named.script(), objects)?;
    named
        .plain_text(alloc, kernel)
        .map_err(|fault| anyhow!("{fault}"))
}

/// Runs a script with names, whose calls must answer as it expects.
fn must_meet_its_expectations(alloc: Global, text: &[u8]) -> Result<()> {
    let plain = plain_text(alloc, text)?;
    let script = parse_script(alloc, &plain)?;
    let objects = objects_of(alloc, &script, true)?;
    let kernel = kernel_of(alloc, &script, objects)?;
    let history = make_serial(alloc, &script, kernel)?;
    must_answer_as_expected(alloc, &plain, &script, &history)
}

/// A text with one more call of this process before its first, by which it gets other numbers.
fn with_one_more(alloc: Global, text: &[u8], process: &str) -> Result<Vec<u8>> {
    let first = format!(in alloc; "\n{process} ")?;
    let line = format!(in alloc; "\n{process} socket dgram -\n#= fd 0")?;
    let size = first.len();
    let place = text
        .windows(size)
        .position(|part| part == first.as_bytes())
        .ok_or_else(|| anyhow!("no call of {process}"))?;
    let mut more = Vec::from_slice(alloc, text.get(..place).unwrap_or(&[]))?;
    more.extend_from_slice(line.as_bytes())?;
    more.extend_from_slice(text.get(place..).unwrap_or(&[]))?;
    Ok(more)
}

/// Runs a script with names as it is, and with one more call.
pub fn must_answer_by_names<R: Files + AllocGlobal>(
    rt: &R,
    name: &str,
    process: &str,
) -> Result<()> {
    let alloc: Global = rt.alloc();
    let path = format!(in alloc; "named/{name}.ux")?;
    let text = fs::read(rt, path.as_str())?;
    must_meet_its_expectations(alloc, &text)?;
    must_meet_its_expectations(alloc, &with_one_more(alloc, &text, process)?)
}
