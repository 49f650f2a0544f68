//! Words of a line: numbers, bytes, flags, and words from a small choice.

ghost use Rattle.std.specs.Prelude.{◌≡◌, ◌<◌, ℕ, List, Result, IfOk, map, not};
ghost use Rattle.ux_syntax.specs.declared.fault.Fault.{Fault};
ghost use Rattle.std.specs.List.{list_all};
ghost use Rattle.std.specs.Char.{is_ascii_digit};
ghost use Rattle.ux_syntax.specs.Reading.{is_plain, number_at, fd_at, without_minus, offset_at, backlog_at, digit_at, pairs_at, hex_at, beside_at, bit_at, mode_at, type_at, option_at, whence_at, kind_at, letter_at, flag_at, open_letters_at, open_flags_at, counter_flags_at, msg_flags_at};
ghost use Rattle.ux_syntax.specs.Results.{IsAsRead};

use crate::fault::{BAD, LineError};
use std::alloc::Global;
use std::str;
use ux_object::ObjKind;
use ux_types::{Bytes, Fd, Mode, MsgFlags, OpenFlags, SockOpt, SockType, Whence};

/// A value that one word spells.
pub(crate) trait Word: Sized {
    ghost at: { List ℕ → Result Self Fault };

    fn of(alloc: Global, word: &[u8]) -> Result<Self, LineError>
        ensures { IsAsRead (λ x. x) result (at word.now) };
}

/// Whether a word is empty or begins with a 0 that more follows.
fn has_no_form(word: &[u8]) -> bool
    ensures { result ≡ not (is_plain word.now) }
{
    match word {
        [] => true,
        [_] => false,
        [first, ..] => *first == b'0',
    }
}

fn all_digits(word: &[u8]) -> bool
    ensures { result ≡ list_all is_ascii_digit word.now }
{
    word.iter().all(|byte| byte.is_ascii_digit())
}

/// The number that a word spells: digits without leading zeros, below 2^32.
impl Word for u32 {
    ghost at = { number_at };

    fn of(_alloc: Global, word: &[u8]) -> Result<u32, LineError> {
        if has_no_form(word) || !all_digits(word) {
            return Err(BAD);
        }
        let Ok(text) = str::from_utf8(word) else {
            return Err(BAD);
        };
        match text.parse::<u32>() {
            Ok(number) => Ok(number),
            Err(_) => Err(BAD),
        }
    }
}

/// A descriptor number.
impl Word for Fd {
    ghost at = { fd_at };

    fn of(alloc: Global, word: &[u8]) -> Result<Fd, LineError> {
        Ok(Fd(u32::of(alloc, word)?))
    }
}

/// A number of bytes, which is below 2^32, too.
impl Word for usize {
    ghost at = { number_at };

    fn of(alloc: Global, word: &[u8]) -> Result<usize, LineError> {
        Ok(u32::of(alloc, word)? as usize)
    }
}

/// The value of an option, which is below 2^32, too.
impl Word for u64 {
    ghost at = { number_at };

    fn of(alloc: Global, word: &[u8]) -> Result<u64, LineError> {
        Ok(u64::from(u32::of(alloc, word)?))
    }
}

/// A word without the `-` that it begins with, if any.
fn without_minus(word: &[u8]) -> &[u8]
    ensures { result.now ≡ without_minus word.now }
{
    match word {
        [first, rest @ ..] if *first == b'-' => rest,
        _ => word,
    }
}

/// The offset that a word spells: digits without leading zeros, behind a `-` below 0.
impl Word for i64 {
    ghost at = { offset_at };

    fn of(_alloc: Global, word: &[u8]) -> Result<i64, LineError> {
        let digits = without_minus(word);
        if has_no_form(digits) || !all_digits(digits) || word == b"-0".as_slice() {
            return Err(BAD);
        }
        let Ok(text) = str::from_utf8(word) else {
            return Err(BAD);
        };
        match text.parse::<i64>() {
            Ok(offset) => Ok(offset),
            Err(_) => Err(BAD),
        }
    }
}

/// The backlog that a word spells: as an offset is, of 32 bits.
impl Word for i32 {
    ghost at = { backlog_at };

    #[tactic(auto, unfolding(crate::specs::Reading::backlog_at))]
    fn of(alloc: Global, word: &[u8]) -> Result<i32, LineError> {
        match i32::try_from(i64::of(alloc, word)?) {
            Ok(backlog) => Ok(backlog),
            Err(_) => Err(BAD),
        }
    }
}

pub(crate) fn digit_of(byte: u8) -> Result<u8, LineError>
    ensures exact { IsAsRead (λ n. n) result (digit_at byte) }
    ensures small { IfOk result (λ n. n < 16) }
{
    match byte {
        b'0'..=b'9' => Ok(byte - b'0'),
        b'a'..=b'f' => Ok(byte - b'a' + 10),
        _ => Err(BAD),
    }
}

pub(crate) fn pairs_of(alloc: Global, digits: &[u8]) -> Result<Vec<u8>, LineError>
    ensures { IsAsRead (λ bytes. bytes.items) result (pairs_at digits.now) }
{
    let mut bytes = Vec::new(alloc);
    let mut rest = digits;
    while let [high, low, after @ ..] = rest {
        let high = digit_of(*high)?;
        let low = digit_of(*low)?;
        bytes.push(16 * high + low)?;
        rest = after;
    }
    if rest.is_empty() { Ok(bytes) } else { Err(BAD) }
}

/// The bytes that a word spells: pairs of digits, or `-` for none.
impl Word for Bytes {
    ghost at = { hex_at };

    #[tactic(auto, unfolding(crate::specs::Reading::hex_at))]
    fn of(alloc: Global, word: &[u8]) -> Result<Bytes, LineError> {
        if word.is_empty() {
            return Err(BAD);
        }
        if word == b"-".as_slice() {
            return Ok(Bytes::empty());
        }
        Ok(Bytes::new(pairs_of(alloc, word)?)?)
    }
}

/// The value that stands beside a word in a table of words and values.
pub(crate) fn value_of<T: Copy>(table: &[(&str, T)], word: &[u8]) -> Result<T, LineError>
    ensures { IsAsRead (λ x. x) result (beside_at (map (λ row. (row.0.now, row.1)) table.now) word.now) }
{
    match table.iter().find(|row| word == row.0.as_bytes()) {
        Some(row) => Ok(row.1),
        None => Err(BAD),
    }
}

const BITS: &[(&str, bool)] = &[("0", false), ("1", true)];

impl Word for bool {
    ghost at = { bit_at };

    fn of(_alloc: Global, word: &[u8]) -> Result<bool, LineError> {
        value_of(BITS, word)
    }
}

const MODES: &[(&str, Mode)] = &[("r", Mode::Read), ("w", Mode::Write), ("rw", Mode::Both)];

/// What a file is to be open for.
impl Word for Mode {
    ghost at = { mode_at };

    #[tactic(auto, unfolding(crate::specs::Reading::mode_at))]
    fn of(_alloc: Global, word: &[u8]) -> Result<Mode, LineError> {
        value_of(MODES, word)
    }
}

const TYPES: &[(&str, SockType)] = &[
    ("stream", SockType::Stream),
    ("dgram", SockType::Dgram),
    ("seq", SockType::Seq),
];

/// The type of a socket.
impl Word for SockType {
    ghost at = { type_at };

    #[tactic(auto, unfolding(crate::specs::Reading::type_at))]
    fn of(_alloc: Global, word: &[u8]) -> Result<SockType, LineError> {
        value_of(TYPES, word)
    }
}

const OPTIONS: &[(&str, SockOpt)] = &[
    ("type", SockOpt::Kind),
    ("error", SockOpt::Error),
    ("passcred", SockOpt::PassCred),
    ("peercred", SockOpt::PeerCred),
    ("accept", SockOpt::AcceptConn),
    ("qlimit", SockOpt::QueueLimit),
];

/// An option of a socket.
impl Word for SockOpt {
    ghost at = { option_at };

    #[tactic(auto, unfolding(crate::specs::Reading::option_at))]
    fn of(_alloc: Global, word: &[u8]) -> Result<SockOpt, LineError> {
        value_of(OPTIONS, word)
    }
}

const WHENCES: &[(&str, Whence)] = &[
    ("set", Whence::Set),
    ("cur", Whence::Cur),
    ("end", Whence::End),
];

/// What an offset is counted from.
impl Word for Whence {
    ghost at = { whence_at };

    #[tactic(auto, unfolding(crate::specs::Reading::whence_at))]
    fn of(_alloc: Global, word: &[u8]) -> Result<Whence, LineError> {
        value_of(WHENCES, word)
    }
}

const KINDS: &[(&str, ObjKind)] = &[
    ("mem", ObjKind::Memory),
    ("counter", ObjKind::Counter),
    ("pipe", ObjKind::Pipe),
];

/// The kind of a file object.
impl Word for ObjKind {
    ghost at = { kind_at };

    #[tactic(auto, unfolding(crate::specs::Reading::kind_at))]
    fn of(_alloc: Global, word: &[u8]) -> Result<ObjKind, LineError> {
        value_of(KINDS, word)
    }
}

/// Whether a word begins with this letter, and what follows it.
fn letter_of(letter: u8, word: &[u8]) -> (bool, &[u8])
    ensures { (result.0, result.1.now) ≡ letter_at letter word.now }
{
    match word {
        [first, rest @ ..] if *first == letter => (true, rest),
        _ => (false, word),
    }
}

/// The bits of a flag if a word begins with its letter, else none, and what follows.
pub(crate) fn flag_of(letter: u8, bits: u8, word: &[u8]) -> (u8, &[u8])
    ensures { (result.0, result.1.now) ≡ flag_at letter bits word.now }
{
    let (is_set, rest) = letter_of(letter, word);
    (if is_set { bits } else { 0 }, rest)
}

/// The flags of an open file description whose letters of `anx` a word begins with, and what follows.
fn open_letters_of(word: &[u8]) -> (OpenFlags, &[u8])
    ensures { (result.0, result.1.now) ≡ open_letters_at word.now }
{
    let (append, rest) = flag_of(b'a', OpenFlags::APPEND.0, word);
    let (nonblock, rest) = flag_of(b'n', OpenFlags::NONBLOCK.0, rest);
    let (cloexec, rest) = flag_of(b'x', OpenFlags::CLOEXEC.0, rest);
    (OpenFlags(append | nonblock | cloexec), rest)
}

/// The flags of an open file description that a word spells: letters of `anx`, or `-` for none.
impl Word for OpenFlags {
    ghost at = { open_flags_at };

    #[tactic(auto, unfolding(crate::specs::Reading::open_flags_at))]
    fn of(_alloc: Global, word: &[u8]) -> Result<OpenFlags, LineError> {
        if word.is_empty() {
            return Err(BAD);
        }
        if word == b"-".as_slice() {
            return Ok(OpenFlags(0));
        }
        let (flags, rest) = open_letters_of(word);
        if rest.is_empty() { Ok(flags) } else { Err(BAD) }
    }
}

/// The flags of a counter that a word spells, and whether it is a semaphore: letters of `anxs`, or `-` for none.
impl Word for (bool, OpenFlags) {
    ghost at = { counter_flags_at };

    #[tactic(auto, unfolding(crate::specs::Reading::counter_flags_at))]
    fn of(_alloc: Global, word: &[u8]) -> Result<(bool, OpenFlags), LineError> {
        if word.is_empty() {
            return Err(BAD);
        }
        if word == b"-".as_slice() {
            return Ok((false, OpenFlags(0)));
        }
        let (flags, rest) = open_letters_of(word);
        let (semaphore, rest) = letter_of(b's', rest);
        if rest.is_empty() {
            Ok((semaphore, flags))
        } else {
            Err(BAD)
        }
    }
}

/// The flags of a send or receive that a word spells: letters of `dptx`, or `-` for none.
impl Word for MsgFlags {
    ghost at = { msg_flags_at };

    #[tactic(auto, unfolding(crate::specs::Reading::msg_flags_at))]
    fn of(_alloc: Global, word: &[u8]) -> Result<MsgFlags, LineError> {
        if word.is_empty() {
            return Err(BAD);
        }
        if word == b"-".as_slice() {
            return Ok(MsgFlags(0));
        }
        let (dontwait, rest) = flag_of(b'd', MsgFlags::DONTWAIT.0, word);
        let (peek, rest) = flag_of(b'p', MsgFlags::PEEK.0, rest);
        let (trunc, rest) = flag_of(b't', MsgFlags::TRUNC.0, rest);
        let (cloexec, rest) = flag_of(b'x', MsgFlags::CMSG_CLOEXEC.0, rest);
        if rest.is_empty() {
            Ok(MsgFlags(dontwait | peek | trunc | cloexec))
        } else {
            Err(BAD)
        }
    }
}
