//! Which line of a script asks for which call of a history.

ghost use Rattle.std.specs.Prelude.{◌≡◌, length, IfOk};

use std::alloc::{AllocError, Global};
use ux_syntax::{Act, Line, Script};
use ux_types::Entry;

/// The numbers of the lines in which one process asks for its calls, in order.
#[derive(Drop)]
struct CallLines {
    numbers: Vec<usize>,
}

/// An empty list for each process of the script.
fn no_lines(alloc: Global, script: &Script) -> Result<Vec<CallLines>, AllocError> {
    let mut lists = Vec::new(alloc);
    for _ in 0..script.process_count() {
        lists.push(CallLines {
            numbers: Vec::new(alloc),
        })?;
    }
    Ok(lists)
}

/// Adds a line to its process's list, where it asks for a call.
fn add_line(lists: &mut [CallLines], line: &Line) -> Result<(), AllocError> {
    let Act::Call(_) = &line.act else {
        return Ok(());
    };
    let Some(place) = (line.pid.0 as usize).checked_sub(1) else {
        return Ok(());
    };
    match lists.get_mut(place) {
        Some(list) => Ok(list.numbers.push(line.number)?),
        None => Ok(()),
    }
}

/// The number of the line that asks for this call, where one does.
fn number_of(lists: &[CallLines], entry: &Entry) -> Option<usize> {
    let place = (entry.pid.0 as usize).checked_sub(1)?;
    let k = usize::try_from(entry.k).ok()?;
    let list = lists.get(place)?;
    list.numbers.get(k).copied()
}

/// The number of the line of each call of a history: the call with number K of a process is that of its line with
/// this number, where waits aren't counted. The exits that a run adds have none, nor has the end of the layer.
pub fn line_numbers(
    alloc: Global,
    script: &Script,
    history: &[Entry],
) -> Result<Vec<Option<usize>>, AllocError>
    // One for each call.
    ensures { IfOk result (λ lines. length lines.items ≡ length history.now) }
{
    let mut lists = no_lines(alloc, script)?;
    for line in &script.lines {
        add_line(&mut lists, line)?;
    }
    numbers_of(alloc, &lists, history)
}

fn numbers_of(
    alloc: Global,
    lists: &[CallLines],
    history: &[Entry],
) -> Result<Vec<Option<usize>>, AllocError>
    ensures { IfOk result (λ lines. length lines.items ≡ length history.now) }
{
    let mut lines = Vec::new(alloc);
    for entry in history {
        lines.push(number_of(lists, entry))?;
    }
    Ok(lines)
}
