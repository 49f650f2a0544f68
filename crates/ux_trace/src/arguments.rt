//! The arguments of a call as an echo has them.

ghost use Rattle.std.specs.Prelude.{◌≡◌, IfOk, Some, map};
ghost use Rattle.std.specs.List.{flat_map};
ghost use Rattle.ux_fields.specs.Seen.{seen};
ghost use Rattle.ux_trace.specs.Echoes.{after_comma, call_telling, call_text, is_shown, listed, quoted, telling};

use crate::choices::{MessageLetters, OpenLetters, mode_word, option_word, type_word, whence_word};
use crate::polling::{PollFdsText, waits_word};
use crate::words::{AddrOrDash, AddrText, NameText, ParsedControl};
use std::alloc::{AllocError, Global};
use std::fmt;
use ux_cmsg::{Control, ControlError, read_control};
use ux_fields::{CallWord, Field, fields_of};
use ux_types::Request;

/// Whether a byte stands for itself between quotation marks.
fn is_shown(byte: u8) -> bool
    ensures { result ≡ is_shown byte }
{
    (0x20..=0x7e).contains(&byte) && byte != b'"' && byte != b'\\'
}

/// Bytes between quotation marks: a byte that isn't printed there is `\x` and two digits.
#[derive(Clone, Copy)]
struct Quoted<'a>(&'a [u8]);

impl fmt::Display for Quoted<'_> {
    ghost output = { λ bytes. Some (quoted bytes.0.now) };

    fn fmt<W: fmt::Write>(&self, f: &mut fmt::Formatter<W>) -> fmt::Result {
        write!(f, "\"")?;
        for byte in self.0 {
            let byte = *byte;
            if is_shown(byte) {
                let letter = char::from(byte);
                write!(f, "{letter}")?;
            } else {
                write!(f, "\\x{byte:02x}")?;
            }
        }
        write!(f, "\"")
    }
}

/// What the control bytes of a send say: nothing where they spell no items, or where it has none.
pub(crate) fn sent_control(alloc: Global, request: &Request) -> Result<Option<Control>, AllocError>
    ensures { IfOk result (λ read. call_telling read request.now ≡ call_text request.now) }
{
    let Request::SendMsg { control, .. } = request else {
        return Ok(None);
    };
    match read_control(alloc, control.as_slice()) {
        Ok(control) => Ok(Some(control)),
        Err(ControlError::Invalid) => Ok(None),
        Err(ControlError::NoMemory) => Err(AllocError),
    }
}

/// A field, and what the control bytes of a send read as.
#[derive(Clone, Copy)]
struct FieldText<'a> {
    field: Field<'a>,
    read: &'a Option<Control>,
}

impl fmt::Display for FieldText<'_> {
    ghost output = { λ t. Some (telling t.read.now (seen t.field)) };

    fn fmt<W: fmt::Write>(&self, f: &mut fmt::Formatter<W>) -> fmt::Result {
        match self.field {
            Field::Fd(fd) => write!(f, "{}", fd.0),
            Field::Number(number) => write!(f, "{number}"),
            Field::Size(size) | Field::Space(size) => write!(f, "{size}"),
            Field::Value(value) => write!(f, "{value}"),
            Field::Offset(offset) => write!(f, "{offset}"),
            Field::Backlog(backlog) => write!(f, "{backlog}"),
            Field::Path(path) => write!(f, "p:{}", NameText(path.as_bytes())),
            Field::Bytes(bytes) => write!(f, "{}", Quoted(bytes.as_slice())),
            Field::Addr(addr) => write!(f, "{}", AddrText(addr)),
            Field::Target(addr) => write!(f, "{}", AddrOrDash(addr)),
            Field::Mode(mode) => write!(f, "{}", mode_word(mode)),
            Field::Whence(whence) => write!(f, "{}", whence_word(whence)),
            Field::SockType(kind) => write!(f, "{}", type_word(kind)),
            Field::SockOpt(opt) => write!(f, "{}", option_word(opt)),
            Field::OpenFlags(flags) => write!(f, "{}", OpenLetters(false, flags)),
            Field::CounterFlags(semaphore, flags) => write!(f, "{}", OpenLetters(semaphore, flags)),
            Field::MsgFlags(flags) => write!(f, "{}", MessageLetters(flags)),
            Field::Control(bytes) => {
                let control = ParsedControl {
                    bytes: bytes.as_slice(),
                    read: self.read,
                };
                write!(f, "{control}")
            }
            Field::PollFds(fds) => write!(f, "{}", PollFdsText(fds.as_slice())),
            Field::Waits(waits) => write!(f, "{}", waits_word(waits)),
        }
    }
}

/// Fields behind the first: a comma and a blank before each.
#[derive(Clone, Copy)]
struct FurtherFields<'a> {
    fields: &'a [Field<'a>],
    read: &'a Option<Control>,
}

impl fmt::Display for FurtherFields<'_> {
    ghost output = { λ t. Some (flat_map after_comma (map (λ field. telling t.read.now (seen field)) t.fields.now)) };

    fn fmt<W: fmt::Write>(&self, f: &mut fmt::Formatter<W>) -> fmt::Result {
        for field in self.fields {
            let text = FieldText {
                field: *field,
                read: self.read,
            };
            write!(f, ", {text}")?;
        }
        Ok(())
    }
}

/// Fields with a comma and a blank between them, and a bracket at last.
#[derive(Clone, Copy)]
struct ListedFields<'a> {
    fields: &'a [Field<'a>],
    read: &'a Option<Control>,
}

impl fmt::Display for ListedFields<'_> {
    ghost output = { λ t. Some (listed (map (λ field. telling t.read.now (seen field)) t.fields.now)) };

    fn fmt<W: fmt::Write>(&self, f: &mut fmt::Formatter<W>) -> fmt::Result {
        let read = self.read;
        match self.fields {
            [] => write!(f, ")"),
            [first, rest @ ..] => {
                let first = FieldText {
                    field: *first,
                    read,
                };
                let rest = FurtherFields { fields: rest, read };
                write!(f, "{first}{rest})")
            }
        }
    }
}

/// A call with its arguments, and what the control bytes of a send read as.
#[derive(Clone, Copy)]
pub(crate) struct CallText<'a> {
    pub(crate) request: &'a Request,
    pub(crate) read: &'a Option<Control>,
}

impl fmt::Display for CallText<'_> {
    ghost output = { λ c. Some (call_telling c.read.now c.request.now) };

    fn fmt<W: fmt::Write>(&self, f: &mut fmt::Formatter<W>) -> fmt::Result {
        let word = CallWord::of(self.request).text();
        let fields = fields_of(self.request);
        let listed = ListedFields {
            fields: fields.as_slice(),
            read: self.read,
        };
        write!(f, "{word}({listed}")
    }
}
