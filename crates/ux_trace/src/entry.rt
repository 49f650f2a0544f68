//! The line of an entry.

ghost use Rattle.std.specs.Prelude.{◌≡◌, IfOk, Some, string_bytes};
ghost use Rattle.ux_trace.specs.Trace.{spaced, closed_text, entry_line};
ghost use Rattle.ux_trace.specs.Echoes.{answer};

use crate::reply::{ReplyText, control_of};
use std::alloc::{AllocError, Global};
use std::collections::LinkedList;
use std::fmt;
use ux_fields::CallWord;
use ux_types::{Entry, Released};

/// Numbers in a row, a blank before each.
#[derive(Clone, Copy)]
struct Spaced<'a>(&'a [u32]);

impl fmt::Display for Spaced<'_> {
    ghost output = { λ s. Some (spaced s.0.now) };

    fn fmt<W: fmt::Write>(&self, f: &mut fmt::Formatter<W>) -> fmt::Result {
        for number in self.0 {
            let number = *number;
            write!(f, " {number}")?;
        }
        Ok(())
    }
}

/// The same of a list.
#[derive(Clone, Copy)]
struct SpacedList<'a>(&'a LinkedList<u32>);

impl fmt::Display for SpacedList<'_> {
    ghost output = { λ s. Some (spaced s.0.now) };

    fn fmt<W: fmt::Write>(&self, f: &mut fmt::Formatter<W>) -> fmt::Result {
        for number in self.0.iter() {
            write!(f, " {number}")?;
        }
        Ok(())
    }
}

/// The file objects that were closed at the end of a call, or nothing where none was.
#[derive(Clone, Copy)]
pub(crate) struct Closed<'a>(pub(crate) &'a Released);

impl fmt::Display for Closed<'_> {
    ghost output = { λ c. Some (closed_text c.0.now) };

    fn fmt<W: fmt::Write>(&self, f: &mut fmt::Formatter<W>) -> fmt::Result {
        if self.0.is_empty() {
            return Ok(());
        }
        let (first, others) = self.0.parts();
        write!(f, " closed{}{}", Spaced(first), SpacedList(others))
    }
}

/// The line of a history's entry, with its line feed: `N PID K WORD = REPLY`, and behind that ` closed`
/// and their numbers where file objects were closed. The number is the entry's place in the history,
/// counted from 0.
pub fn entry_text(alloc: Global, number: usize, entry: &Entry) -> Result<String, AllocError>
    ensures { IfOk result (λ text. string_bytes text ≡ entry_line number entry.now) }
{
    let pid = entry.pid.0;
    let k = entry.k;
    let word = CallWord::of(&entry.request).text();
    let read = control_of(alloc, &entry.reply)?;
    let reply = ReplyText {
        reply: &entry.reply,
        read: &read,
    };
    let closed = Closed(&entry.released);
    format!(in alloc; "{number} {pid} {k} {word} = {reply}{closed}\n")
}

/// What stands behind `=` in the line of a history's entry: the reply, and behind it ` closed` and their numbers
/// where file objects were closed.
pub fn answer_text(alloc: Global, entry: &Entry) -> Result<String, AllocError>
    ensures { IfOk result (λ text. string_bytes text ≡ answer entry.now) }
{
    let read = control_of(alloc, &entry.reply)?;
    let reply = ReplyText {
        reply: &entry.reply,
        read: &read,
    };
    let closed = Closed(&entry.released);
    format!(in alloc; "{reply}{closed}")
}
