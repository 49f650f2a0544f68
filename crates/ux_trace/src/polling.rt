//! What a poll of several descriptors asks for, and what it found.

ghost use Rattle.std.specs.Prelude.{◌≡◌, Some};
ghost use Rattle.ux_trace.specs.Echoes.{asked_text, events_text, poll_fds_text, waits_text};
ghost use Rattle.ux_trace.specs.Trace.{found_text};

use crate::choices::letter;
use crate::words::PollFlagNames;
use bitflags::Flags;
use std::fmt;
use ux_types::{PollFd, PollFlags};

/// The word of whether a poll waits: `wait` or `now`.
pub(crate) fn waits_word(waits: bool) -> &'static str
    ensures { result.now ≡ waits_text waits }
{
    if waits { "wait" } else { "now" }
}

/// The letters of the conditions that are asked for, or `-` where none is.
#[derive(Clone, Copy)]
struct EventLetters(PollFlags);

impl fmt::Display for EventLetters {
    ghost output = { λ events. Some (events_text events.0) };

    fn fmt<W: fmt::Write>(&self, f: &mut fmt::Formatter<W>) -> fmt::Result {
        let input = letter(self.0.contains(PollFlags::IN), "i");
        let room = letter(self.0.contains(PollFlags::OUT), "o");
        let end = letter(self.0.contains(PollFlags::RDHUP), "h");
        if input.is_empty() && room.is_empty() && end.is_empty() {
            return write!(f, "-");
        }
        write!(f, "{input}{room}{end}")
    }
}

/// A descriptor and what is asked for of it, as `3:io`.
#[derive(Clone, Copy)]
struct AskedText(PollFd);

impl fmt::Display for AskedText {
    ghost output = { λ asked. Some (asked_text asked.0) };

    fn fmt<W: fmt::Write>(&self, f: &mut fmt::Formatter<W>) -> fmt::Result {
        let number = self.0.fd.0;
        let events = EventLetters(self.0.events);
        write!(f, "{number}:{events}")
    }
}

/// The descriptors of a poll, joined by commas, or `-` where there is none.
#[derive(Clone, Copy)]
pub(crate) struct PollFdsText<'a>(pub(crate) &'a [PollFd]);

impl fmt::Display for PollFdsText<'_> {
    ghost output = { λ fds. Some (poll_fds_text fds.0.now) };

    fn fmt<W: fmt::Write>(&self, f: &mut fmt::Formatter<W>) -> fmt::Result {
        if self.0.is_empty() {
            return write!(f, "-");
        }
        let mut separator = "";
        for asked in self.0 {
            let asked = AskedText(*asked);
            write!(f, "{separator}{asked}")?;
            separator = ",";
        }
        Ok(())
    }
}

/// The conditions that a poll found of each descriptor, a blank before each set.
#[derive(Clone, Copy)]
pub(crate) struct FoundText<'a>(pub(crate) &'a [PollFlags]);

impl fmt::Display for FoundText<'_> {
    ghost output = { λ found. Some (found_text found.0.now) };

    fn fmt<W: fmt::Write>(&self, f: &mut fmt::Formatter<W>) -> fmt::Result {
        for found in self.0 {
            let names = PollFlagNames(*found);
            write!(f, " {names}")?;
        }
        Ok(())
    }
}
