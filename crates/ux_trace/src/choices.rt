//! The words of an argument that is one of a few, or a set of flags.

ghost use Rattle.std.specs.Prelude.{◌≡◌, [], Some, if◌then◌else◌};
ghost use Rattle.ux_trace.specs.Echoes.{counter_flags, mode_text, msg_flags, option_text, type_text, whence_text};

use bitflags::Flags;
use std::fmt;
use ux_types::{Mode, MsgFlags, OpenFlags, SockOpt, SockType, Whence};

/// The word of an access mode: `r`, `w` or `rw`.
pub fn mode_word(mode: Mode) -> &'static str
    ensures { result.now ≡ mode_text mode }
{
    match mode {
        Mode::Read => "r",
        Mode::Write => "w",
        Mode::Both => "rw",
    }
}

/// The word of a socket type: `stream`, `dgram` or `seq`.
pub fn type_word(kind: SockType) -> &'static str
    ensures { result.now ≡ type_text kind }
{
    match kind {
        SockType::Stream => "stream",
        SockType::Dgram => "dgram",
        SockType::Seq => "seq",
    }
}

/// The word of where an offset counts from (lseek(2)): `set`, `cur` or `end`.
pub fn whence_word(whence: Whence) -> &'static str
    ensures { result.now ≡ whence_text whence }
{
    match whence {
        Whence::Set => "set",
        Whence::Cur => "cur",
        Whence::End => "end",
    }
}

/// The word of a socket option.
pub fn option_word(opt: SockOpt) -> &'static str
    ensures { result.now ≡ option_text opt }
{
    match opt {
        SockOpt::Kind => "type",
        SockOpt::Error => "error",
        SockOpt::PassCred => "passcred",
        SockOpt::PeerCred => "peercred",
        SockOpt::AcceptConn => "accept",
        SockOpt::QueueLimit => "qlimit",
    }
}

/// A flag's letter where the flag is set, or nothing.
pub(crate) fn letter(is_set: bool, name: &'static str) -> &'static str
    ensures { result.now ≡ (if is_set then name.now else []) }
{
    if is_set { name } else { "" }
}

/// The letters of the flags of an open file, behind them that of a semaphore where it is one, or `-` where none is set.
#[derive(Clone, Copy)]
pub(crate) struct OpenLetters(pub(crate) bool, pub(crate) OpenFlags);

impl fmt::Display for OpenLetters {
    ghost output = { λ letters. Some (counter_flags (letters.0, letters.1)) };

    fn fmt<W: fmt::Write>(&self, f: &mut fmt::Formatter<W>) -> fmt::Result {
        let append = letter(self.1.contains(OpenFlags::APPEND), "a");
        let nonblock = letter(self.1.contains(OpenFlags::NONBLOCK), "n");
        let cloexec = letter(self.1.contains(OpenFlags::CLOEXEC), "x");
        let semaphore = letter(self.0, "s");
        if append.is_empty() && nonblock.is_empty() && cloexec.is_empty() && semaphore.is_empty() {
            return write!(f, "-");
        }
        write!(f, "{append}{nonblock}{cloexec}{semaphore}")
    }
}

/// The letters of the flags of a send or a receive, or `-` where none is set.
#[derive(Clone, Copy)]
pub(crate) struct MessageLetters(pub(crate) MsgFlags);

impl fmt::Display for MessageLetters {
    ghost output = { λ flags. Some (msg_flags flags.0) };

    fn fmt<W: fmt::Write>(&self, f: &mut fmt::Formatter<W>) -> fmt::Result {
        let dontwait = letter(self.0.contains(MsgFlags::DONTWAIT), "d");
        let peek = letter(self.0.contains(MsgFlags::PEEK), "p");
        let trunc = letter(self.0.contains(MsgFlags::TRUNC), "t");
        let cloexec = letter(self.0.contains(MsgFlags::CMSG_CLOEXEC), "x");
        if dontwait.is_empty() && peek.is_empty() && trunc.is_empty() && cloexec.is_empty() {
            return write!(f, "-");
        }
        write!(f, "{dontwait}{peek}{trunc}{cloexec}")
    }
}
