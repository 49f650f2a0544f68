//! The calls of a script: the word of each, and the words that stand behind it.

ghost use Rattle.std.specs.Prelude.{◌≡◌, map};
ghost use Rattle.ux_syntax.specs.Reading.{word_at, args_at};
ghost use Rattle.ux_syntax.specs.Results.{IsAsRead};

use crate::control::ControlWord;
use crate::fault::{BAD, LineError};
use crate::polling::Waits;
use crate::row::row_of;
use std::alloc::Global;
use ux_fields::{CallWord, SCRIPT_WORDS};
use ux_types::Request;

/// The call that a word names.
#[tactic(auto, unfolding(crate::specs::Reading::word_at))]
pub(crate) fn word_of(word: &[u8]) -> Result<CallWord, LineError>
    ensures { IsAsRead (λ w. w) result (word_at word.now) }
{
    match SCRIPT_WORDS
        .iter()
        .find(|candidate| word == candidate.text().as_bytes())
    {
        Some(found) => Ok(*found),
        None => Err(BAD),
    }
}

/// `eventfd VALUE EFLAGS`.
fn event_fd_of(alloc: Global, words: &[&[u8]]) -> Result<Request, LineError>
    ensures { IsAsRead (λ r. r) result (args_at CallWord.EventFd (map (λ w. w.now) words.now)) }
{
    let (value, ((semaphore, flags), ())) = row_of(alloc, words)?;
    Ok(Request::EventFd {
        value,
        semaphore,
        flags,
    })
}

/// `send FD ADDR HEX CONTROL MFLAGS`.
fn send_of(alloc: Global, words: &[&[u8]]) -> Result<Request, LineError>
    ensures { IsAsRead (λ r. r) result (args_at CallWord.Send (map (λ w. w.now) words.now)) }
{
    let (fd, (addr, (bytes, (control, (flags, ()))))) = row_of(alloc, words)?;
    Ok(Request::SendMsg {
        fd,
        addr,
        bytes,
        control: ControlWord::into_buffer(control, alloc)?,
        flags,
    })
}

/// `polls FDS WAITS`.
fn polls_of(alloc: Global, words: &[&[u8]]) -> Result<Request, LineError>
    ensures { IsAsRead (λ r. r) result (args_at CallWord.Polls (map (λ w. w.now) words.now)) }
{
    let (fds, (Waits(waits), ())) = row_of(alloc, words)?;
    Ok(Request::PollMany { fds, waits })
}

/// The pattern of a row of these values.
macro_rules! row {
    () => { () };
    ($first:ident $(, $rest:ident)*) => { ($first, row!($($rest),*)) };
}

/// The call of this case, whose fields the words of a row spell.
macro_rules! call {
    ($alloc:ident, $words:ident, $case:ident $(, $field:ident)*) => {{
        let row!($($field),*) = row_of($alloc, $words)?;
        Ok(Request::$case { $($field),* })
    }};
}

/// What a call asks for, by its word and the words behind that.
pub(crate) fn request_of(
    alloc: Global,
    word: CallWord,
    args: &[&[u8]],
) -> Result<Request, LineError>
    ensures { IsAsRead (λ r. r) result (args_at word (map (λ w. w.now) args.now)) }
{
    match word {
        CallWord::Open => call!(alloc, args, Open, path, mode, flags),
        CallWord::Create => call!(alloc, args, Create, path, mode, flags),
        CallWord::MemFd => call!(alloc, args, MemFd, flags),
        CallWord::EventFd => event_fd_of(alloc, args),
        CallWord::Pipe => call!(alloc, args, Pipe, flags),
        CallWord::Read => call!(alloc, args, Read, fd, n),
        CallWord::Write => call!(alloc, args, Write, fd, bytes),
        CallWord::Lseek => call!(alloc, args, Lseek, fd, offset, whence),
        CallWord::Dup => call!(alloc, args, Dup, fd),
        CallWord::Dup2 => call!(alloc, args, Dup2, fd, to),
        CallWord::DupFrom => call!(alloc, args, DupFrom, fd, minimum),
        CallWord::GetFlags => call!(alloc, args, GetFlags, fd),
        CallWord::Flags => call!(alloc, args, SetFlags, fd, flags),
        CallWord::Inq => call!(alloc, args, InQueue, fd),
        CallWord::Outq => call!(alloc, args, OutQueue, fd),
        CallWord::Close => call!(alloc, args, Close, fd),
        CallWord::Unlink => call!(alloc, args, Unlink, path),
        CallWord::Socket => call!(alloc, args, Socket, kind, flags),
        CallWord::Pair => call!(alloc, args, SocketPair, kind, flags),
        CallWord::Bind => call!(alloc, args, Bind, fd, addr),
        CallWord::Listen => call!(alloc, args, Listen, fd, backlog),
        CallWord::Connect => call!(alloc, args, Connect, fd, addr),
        CallWord::Accept => call!(alloc, args, Accept, fd, flags),
        CallWord::Shut => call!(alloc, args, Shutdown, fd, how),
        CallWord::GetOpt => call!(alloc, args, GetOpt, fd, opt),
        CallWord::SetOpt => call!(alloc, args, SetOpt, fd, opt, value),
        CallWord::SockName => call!(alloc, args, GetSockName, fd),
        CallWord::PeerName => call!(alloc, args, GetPeerName, fd),
        CallWord::Send => send_of(alloc, args),
        CallWord::Recv => call!(alloc, args, RecvMsg, fd, n, space, flags),
        CallWord::Poll => call!(alloc, args, Poll, fd),
        CallWord::Polls => polls_of(alloc, args),
        CallWord::SetIds => call!(alloc, args, SetIds, uid, gid),
        CallWord::Fork => call!(alloc, args, Fork),
        CallWord::Exec => call!(alloc, args, Exec),
        CallWord::Exit => call!(alloc, args, Exit),
        CallWord::Off => Err(BAD),
    }
}
