//! What is wrong with a line.

use crate::elsewhere::Elsewhere;
use crate::forms::Form;
use std::fmt;
use ux_syntax::SERIAL_LINE_LIMIT;

/// What is wrong with a line, at its column. The words are those of the manual page.
#[derive(Clone, Copy, Debug)]
pub enum Cause {
    /// It has more bytes than this.
    TooLong(usize),
    ByteOrderMark,
    /// A byte order mark of UTF-16.
    Utf16,
    /// A byte 0.
    Binary,
    Tab,
    CarriageReturn,
    FirstBlank,
    LastBlank,
    TwoBlanks,
    /// A word of this form is missing.
    Missing(Form),
    /// A word too many.
    Further,
    /// The same behind a name.
    FurtherBehindName,
    /// The same, which begins as a comment does.
    LateComment,
    /// The word isn't of this form.
    Expected(Form),
    /// The word isn't of this form, which has words, of which this one is the nearest.
    Nearest(Form, &'static str),
    /// The word is none of those that begin a line, of which this one is the nearest.
    NoHead(Option<&'static str>),
    /// The word begins a comment in other languages.
    OtherComment,
    /// The word is no call, of which this one is the nearest.
    NoCall(Option<&'static str>),
    /// The word is no call, but one of a manual page.
    Elsewhere(Elsewhere),
    UpperCase,
    OddDigit,
    LeadingZero,
    TooLarge(Form),
    /// A path without `p:`.
    NoPath,
    /// This byte of a name needs a `%`.
    Unescaped(u8),
    /// This byte of a name mustn't have a `%`.
    Needless(u8),
    /// A `%` without two digits.
    NoDigits,
    /// The space of rights where control data is to be.
    SpaceOfRights,
    /// A quotation mark that isn't ASCII's.
    TypographicMark,
    /// A text without its closing quotation mark.
    Unclosed,
    /// What stands behind a backslash is no escape.
    Escape,
    /// A text is followed neither by a blank nor by the line's end.
    BehindText,
    /// A line after `off`.
    AfterOff,
    /// A line of the header behind one of a process.
    LateHeader,
    /// `serial` behind another line.
    LateSerial,
    /// A line of this process after its exit.
    AfterExit(u32),
    /// A process that isn't there, beside how many are.
    NoProcess(u32, usize),
    /// A fork of this process in a script without `serial`.
    Forks(u32),
    /// A call that stands in a script with `serial` alone.
    BehindSerial,
    /// A fork beyond so many processes.
    TooManyProcesses(usize),
    /// An expectation behind no call's line.
    Misplaced,
    /// None of the lines that may stand there.
    NoLine,
}

const ONE_BLANK: &str = "words stand exactly one blank apart";

impl fmt::Display for Cause {
    fn fmt<W: fmt::Write>(&self, f: &mut fmt::Formatter<W>) -> fmt::Result {
        match *self {
            Cause::TooLong(limit) if limit < SERIAL_LINE_LIMIT => write!(
                f,
                "a line too long: expected at most {limit} bytes, or {SERIAL_LINE_LIMIT} behind a line serial"
            ),
            Cause::TooLong(limit) => write!(f, "a line too long: expected at most {limit} bytes"),
            Cause::Tab => write!(f, "a tab: {ONE_BLANK}"),
            Cause::CarriageReturn => write!(f, "a carriage return: lines end at line feeds"),
            Cause::FirstBlank => write!(f, "a leading blank: {ONE_BLANK}"),
            Cause::LastBlank => write!(f, "a trailing blank: {ONE_BLANK}"),
            Cause::TwoBlanks => write!(f, "two blanks: {ONE_BLANK}"),
            Cause::Missing(form) => write!(f, "a missing field: expected {form}"),
            Cause::Expected(form) => write!(f, "expected {form}"),
            Cause::Nearest(form, word) => write!(f, "expected {form}; did you mean '{word}'?"),
            Cause::NoHead(_) => write!(f, "expected {}", Form::Head),
            Cause::NoCall(_) => write!(f, "expected {}", Form::Call),
            Cause::Elsewhere(found) => write!(f, "{found}"),
            _ => write_of_ends(f, *self),
        }
    }
}

/// The texts of files that aren't scripts, of comments, and of words too many.
fn write_of_ends<W: fmt::Write>(f: &mut fmt::Formatter<W>, cause: Cause) -> fmt::Result {
    match cause {
        Cause::ByteOrderMark => write!(f, "a byte order mark: a script begins with its first line"),
        Cause::Utf16 => write!(f, "UTF-16: a script has a byte for each character"),
        Cause::Binary => write!(f, "a byte 0: a script is text"),
        Cause::Further => write!(f, "a further field: expected the end of the line"),
        Cause::FurtherBehindName => write!(
            f,
            "a further field: expected the end of the line; a blank in NAME is %20"
        ),
        Cause::LateComment => write!(f, "a comment, which has a line of its own"),
        Cause::OtherComment => write!(f, "a comment begins with #"),
        _ => write_further(f, cause),
    }
}

/// The texts of digits, numbers, names and texts.
fn write_further<W: fmt::Write>(f: &mut fmt::Formatter<W>, cause: Cause) -> fmt::Result {
    match cause {
        Cause::UpperCase => write!(f, "an upper-case digit: expected 0-9a-f"),
        Cause::OddDigit => write!(f, "an odd digit: expected pairs of 0-9a-f"),
        Cause::LeadingZero => write!(f, "a leading zero: expected a number without leading zeros"),
        Cause::TooLarge(form) => write!(f, "a number too large: expected {form}"),
        Cause::NoPath => write!(f, "a path without p: expected p:NAME"),
        Cause::Unescaped(byte) => write!(f, "a byte of NAME that needs %: expected %{byte:02x}"),
        Cause::Needless(byte) => {
            let letter = char::from(byte);
            write!(f, "a byte of NAME that mustn't have %: expected {letter}")
        }
        Cause::SpaceOfRights => write!(f, "rights:N is a SPACE: expected r:N,N,.. in CONTROL"),
        Cause::TypographicMark => write!(f, "a typographic quotation mark: expected \""),
        Cause::Unclosed => write!(f, "a text without its end: expected \""),
        Cause::Escape => write!(
            f,
            "in a text \\ stands before one of abtnvfr\"\\, or before x and two digits of 0-9a-f"
        ),
        Cause::BehindText => write!(f, "behind a text: expected a blank or the end of the line"),
        Cause::NoDigits => write!(f, "in NAME % stands before two digits of 0-9a-f"),
        _ => write_of_context(f, cause),
    }
}

/// The texts of lines that other lines don't allow.
fn write_of_context<W: fmt::Write>(f: &mut fmt::Formatter<W>, cause: Cause) -> fmt::Result {
    match cause {
        Cause::AfterOff => write!(f, "a line after off, which comes last"),
        Cause::LateHeader => write!(
            f,
            "a line of the header, which comes before the lines of the processes"
        ),
        Cause::LateSerial => write!(f, "serial, which comes before all other lines"),
        Cause::AfterExit(pid) => write!(f, "a line of process {pid} after its exit"),
        Cause::NoProcess(0, _) => write!(f, "no process 0: processes count from 1"),
        Cause::NoProcess(pid, 0) => write!(
            f,
            "no process {pid}: a line before makes it, proc UID GID PRIV LIMIT"
        ),
        Cause::NoProcess(pid, count) => {
            write!(f, "no process {pid}: the lines before have {count}")
        }
        Cause::Forks(pid) => write!(
            f,
            "a fork of process {pid}: in a script without serial process 1 alone forks"
        ),
        Cause::BehindSerial => write!(f, "a call that stands behind a line serial alone"),
        Cause::TooManyProcesses(limit) => write!(f, "a fork beyond {limit} processes"),
        Cause::Misplaced => write!(f, "#= REPLY stands right behind the line of a call"),
        _ => write!(f, "none of the lines that may stand there"),
    }
}
