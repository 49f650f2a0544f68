//! The line of an entry beside its script.

ghost use Rattle.std.specs.Prelude.{◌≡◌, IfOk, Some, string_bytes};
ghost use Rattle.ux_trace.specs.Echoes.{echo_line, number_or_dash};

use crate::arguments::{CallText, sent_control};
use crate::entry::Closed;
use crate::reply::{ReplyText, control_of};
use std::alloc::{AllocError, Global};
use std::fmt;
use ux_types::Entry;

/// The number of a line, or `-` for none.
#[derive(Clone, Copy)]
struct NumberOrDash(Option<usize>);

impl fmt::Display for NumberOrDash {
    ghost output = { λ line. Some (number_or_dash line.0) };

    fn fmt<W: fmt::Write>(&self, f: &mut fmt::Formatter<W>) -> fmt::Result {
        match self.0 {
            Some(number) => write!(f, "{number}"),
            None => write!(f, "-"),
        }
    }
}

/// The line of an entry beside its script, with its line feed: `LINE PID WORD(ARGUMENT, ..) = REPLY`, and
/// behind that ` closed` and their numbers where file objects were closed. The line is that of the script
/// which asks for the call, counted from 1.
pub fn echo_text(alloc: Global, line: Option<usize>, entry: &Entry) -> Result<String, AllocError>
    ensures { IfOk result (λ text. string_bytes text ≡ echo_line line entry.now) }
{
    let pid = entry.pid.0;
    let sent = sent_control(alloc, &entry.request)?;
    let call = CallText {
        request: &entry.request,
        read: &sent,
    };
    let read = control_of(alloc, &entry.reply)?;
    let reply = ReplyText {
        reply: &entry.reply,
        read: &read,
    };
    let closed = Closed(&entry.released);
    let line = NumberOrDash(line);
    format!(in alloc; "{line} {pid} {call} = {reply}{closed}\n")
}
