//! Where a line goes wrong, checked by the reader of scripts.

ghost use Rattle.std.specs.Prelude.{◌≡◌, ℕ, true, IfOk};
ghost use Rattle.ux_explain.specs.Places.{IsPlace};

use crate::cause::Cause;
use crate::forms::{Form, Forms, Rows};
use crate::lines::{Mistake, line_fault};
use std::alloc::{AllocError, Global};
use ux_syntax::is_line;

/// These bytes, and behind them words of these forms.
fn rest_of(alloc: Global, ending: &[u8], forms: Forms) -> Result<Vec<u8>, AllocError> {
    let mut rest = Vec::from_slice(alloc, ending)?;
    for index in 0..forms.len() {
        let Some(form) = forms.get(index) else {
            break;
        };
        rest.push(b' ')?;
        rest.extend_from_slice(form.shortest().as_bytes())?;
    }
    Ok(rest)
}

/// Whether these bytes are a line, of any length. Then what stands before any column can become one.
pub(crate) fn is_any_line(alloc: Global, text: &[u8]) -> Result<bool, AllocError>
    ensures { IfOk result (λ yes. yes ≡ true → (column : ℕ) → IsPlace text.now column) }
{
    is_line(alloc, usize::MAX, text)
}

/// Whether what stands before the column and these bytes behind it are a line.
fn completes(
    alloc: Global,
    text: &[u8],
    column: usize,
    ending: &[u8],
    forms: Forms,
) -> Result<bool, AllocError>
    ensures { IfOk result (λ yes. yes ≡ true → IsPlace text.now column) }
{
    if column > text.len() {
        return Ok(false);
    }
    let rest = rest_of(alloc, ending, forms)?;
    let mut line = Vec::from_slice(alloc, &text[..column])?;
    line.extend_from_slice(&rest)?;
    is_line(alloc, usize::MAX, &line)
}

/// Whether one of these endings completes the line.
fn any_ending_completes(
    alloc: Global,
    text: &[u8],
    column: usize,
    endings: &[&str],
    forms: Forms,
) -> Result<bool, AllocError>
    ensures { IfOk result (λ yes. yes ≡ true → IsPlace text.now column) }
{
    for ending in endings {
        if completes(alloc, text, column, ending.as_bytes(), forms)? {
            return Ok(true);
        }
    }
    Ok(false)
}

/// Whether the rest of one of these words completes the line, of which a beginning stands before the column.
fn any_word_completes(
    alloc: Global,
    text: &[u8],
    found: Mistake,
    words: &[&str],
    forms: Forms,
) -> Result<bool, AllocError>
    ensures { IfOk result (λ yes. yes ≡ true → IsPlace text.now found.column) }
{
    for word in words {
        if let Some(ending) = word
            .as_bytes()
            .get(found.column.saturating_sub(found.start)..)
        {
            if completes(alloc, text, found.column, ending, forms)? {
                return Ok(true);
            }
        }
    }
    Ok(false)
}

/// The same of the words that begin rows.
fn any_row_completes(
    alloc: Global,
    text: &[u8],
    found: Mistake,
    rows: Rows,
) -> Result<bool, AllocError>
    ensures { IfOk result (λ yes. yes ≡ true → IsPlace text.now found.column) }
{
    for index in 0..rows.len() {
        let Some(row) = rows.get(index) else {
            break;
        };
        if let Some(ending) = row
            .word
            .as_bytes()
            .get(found.column.saturating_sub(found.start)..)
        {
            if completes(alloc, text, found.column, ending, row.forms)? {
                return Ok(true);
            }
        }
    }
    Ok(false)
}

/// Whether what was found is so: what stands before the column can become a line.
fn is_place(alloc: Global, text: &[u8], found: Mistake) -> Result<bool, AllocError>
    ensures { IfOk result (λ yes. yes ≡ true → IsPlace text.now found.column) }
{
    let Some(form) = found.forms.get(0) else {
        return completes(alloc, text, found.column, b"", found.forms);
    };
    let more = found.forms.behind(1);
    if let Cause::Missing(_) = found.cause {
        return completes(alloc, text, found.column, b"", found.forms);
    }
    if let Some(rows) = form.rows() {
        return any_row_completes(alloc, text, found, rows);
    }
    match form {
        Form::Choice(_, words) => any_word_completes(alloc, text, found, words, more),
        _ => any_ending_completes(alloc, text, found.column, form.endings(), more),
    }
}

/// Where a line goes wrong that is none. Where the place that was found can't be right, it is the line's beginning.
pub(crate) fn place_of(alloc: Global, text: &[u8]) -> Result<Mistake, AllocError>
    ensures { IfOk result (λ found. IsPlace text.now found.column) }
{
    if let Some(found) = line_fault(alloc, text)? {
        if is_place(alloc, text, found)? {
            return Ok(found);
        }
    }
    Ok(Mistake::at(0, Cause::NoLine))
}
