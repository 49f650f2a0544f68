//! What a poll of several descriptors asks for.

ghost use Rattle.std.specs.Prelude.{◌≡◌, ◌==◌, IfOk, map};
ghost use Rattle.std.specs.List.{slice_split};
ghost use Rattle.ux_syntax.specs.Reading.{each_at, events_at, asked_at, poll_fds_at, waits_at};
ghost use Rattle.ux_syntax.specs.Results.{IsAsRead};

use crate::control::split_commas;
use crate::fault::{BAD, LineError};
use crate::row::row_of;
use crate::words::{Word, flag_of, value_of};
use std::alloc::{AllocError, Global};
use std::marker::Model;
use ux_types::{PollFd, PollFds, PollFlags};

/// Whether a call waits.
#[derive(Drop)]
pub(crate) struct Waits(pub(crate) bool);

impl Model for Waits {
    ghost use Rattle.std.specs.Prelude.{Bool};

    ghost Value = { Bool };

    ghost view = { λ waits. waits.0 };
}

const WAITS: &[(&str, bool)] = &[("now", false), ("wait", true)];

/// Whether a call waits: `wait` or `now`.
impl Word for Waits {
    ghost at = { waits_at };

    #[tactic(auto, unfolding(crate::specs::Reading::waits_at))]
    fn of(_alloc: Global, word: &[u8]) -> Result<Waits, LineError> {
        Ok(Waits(value_of(WAITS, word)?))
    }
}

/// The conditions that a word asks for: letters of `ioh`, or `-` for none.
impl Word for PollFlags {
    ghost at = { events_at };

    #[tactic(auto, unfolding(crate::specs::Reading::events_at))]
    fn of(_alloc: Global, word: &[u8]) -> Result<PollFlags, LineError> {
        if word.is_empty() {
            return Err(BAD);
        }
        if word == b"-".as_slice() {
            return Ok(PollFlags(0));
        }
        let (input, rest) = flag_of(b'i', PollFlags::IN.0, word);
        let (room, rest) = flag_of(b'o', PollFlags::OUT.0, rest);
        let (end, rest) = flag_of(b'h', PollFlags::RDHUP.0, rest);
        if rest.is_empty() {
            Ok(PollFlags(input | room | end))
        } else {
            Err(BAD)
        }
    }
}

fn split_colons<'a>(alloc: Global, text: &'a [u8]) -> Result<Vec<&'a [u8]>, AllocError>
    ensures { IfOk result (λ words. map (λ w. w.now) words.items ≡ slice_split (λ b. b == 58) text.now) }
{
    text.split(|b| *b == b':').collect(alloc)
}

/// A descriptor and what is asked for of it, as `3:io`.
impl Word for PollFd {
    ghost at = { asked_at };

    #[tactic(auto, unfolding(crate::specs::Reading::asked_at))]
    fn of(alloc: Global, word: &[u8]) -> Result<PollFd, LineError> {
        let parts = split_colons(alloc, word)?;
        let (fd, (events, ())) = row_of(alloc, &parts)?;
        Ok(PollFd { fd, events })
    }
}

fn each_asked_of(alloc: Global, words: &[&[u8]]) -> Result<Vec<PollFd>, LineError>
    ensures { IsAsRead (λ fds. fds.items) result (each_at asked_at (map (λ w. w.now) words.now)) }
{
    let mut fds = Vec::new(alloc);
    for word in words {
        fds.push(PollFd::of(alloc, word)?)?;
    }
    Ok(fds)
}

/// The descriptors that a word asks of: `3:i,4:io`, or `-` for none.
impl Word for PollFds {
    ghost at = { poll_fds_at };

    #[tactic(auto, unfolding(crate::specs::Reading::poll_fds_at))]
    fn of(alloc: Global, word: &[u8]) -> Result<PollFds, LineError> {
        if word == b"-".as_slice() {
            return Ok(PollFds::new(Vec::new(alloc)));
        }
        let words = split_commas(alloc, word)?;
        Ok(PollFds::new(each_asked_of(alloc, &words)?))
    }
}
