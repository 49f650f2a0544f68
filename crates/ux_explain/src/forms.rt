//! The forms of words, and which words the lines of a script have.

use std::fmt;
use ux_fields::{FieldForm, FieldKind, SCRIPT_WORDS, form_of};

/// What a word of a line is to be. The names are those of the manual page.
#[derive(Clone, Copy, Debug)]
pub enum Form {
    /// A process's number, or the word that a line of the header or an end has first.
    Head,
    /// The word of a call, or `wait`.
    Call,
    /// The kind of a file object, or `fail` where that may stand in front of it.
    Kind(bool),
    /// A number of 32 bits of this name, which is at least so large.
    Number(&'static str, u32),
    /// A number of 32 bits, or `rights:` and a number of rights.
    Space,
    /// The number behind `rights:`.
    Rights,
    /// A signed number of this name, of 32 or 64 bits.
    Signed(&'static str, u32),
    /// Bytes.
    Hex,
    /// One of these words.
    Choice(&'static str, &'static [&'static str]),
    /// Letters in this order.
    Letters(&'static str, &'static str),
    /// A path.
    Path,
    /// An address.
    Address,
    /// An address, or `-` for none.
    Target,
    /// Control data.
    Control,
    /// Descriptors, each with what is asked for.
    PollFds,
}

/// What the letters of a descriptor's conditions stand for.
const EVENTS: &str = "i is POLLIN, o is POLLOUT, h is POLLRDHUP";

/// Words that are joined by commas, and the last by `or`.
#[derive(Clone, Copy)]
struct Alternatives(&'static [&'static str]);

impl fmt::Display for Alternatives {
    fn fmt<W: fmt::Write>(&self, f: &mut fmt::Formatter<W>) -> fmt::Result {
        let last = self.0.len().saturating_sub(1);
        for (index, word) in self.0.iter().enumerate() {
            let joint = match index {
                0 => "",
                _ if index == last => " or ",
                _ => ", ",
            };
            write!(f, "{joint}{word}")?;
        }
        Ok(())
    }
}

impl fmt::Display for Form {
    fn fmt<W: fmt::Write>(&self, f: &mut fmt::Formatter<W>) -> fmt::Result {
        match *self {
            Form::Head => write!(f, "PID, object, proc, serial or off"),
            Form::Call => write!(f, "a call or wait"),
            Form::Kind(true) => write!(f, "counter, pipe or mem, or fail in front of it"),
            Form::Kind(false) => write!(f, "counter, pipe or mem"),
            Form::Number(name, least) => write!(
                f,
                "{name}: a number from {least} to 4294967295 without leading zeros"
            ),
            Form::Signed(name, bits) => write!(
                f,
                "{name}: a signed number of {bits} bits, - before a negative one, never -0"
            ),
            Form::Space => write!(
                f,
                "SPACE: a number from 0 to 4294967295 without leading zeros, or rights:N"
            ),
            Form::Rights => write!(
                f,
                "N of rights:N: a number from 0 to 253 without leading zeros"
            ),
            Form::Hex => write!(f, "HEX or \"text\": pairs of 0-9a-f, or - for no bytes"),
            Form::Choice(name, words) => {
                let words = Alternatives(words);
                write!(f, "{name}: {words}")
            }
            Form::Letters(name, letters) => {
                write!(f, "{name}: - or letters of {letters} in this order")
            }
            Form::Path => write!(f, "p:NAME"),
            Form::Address => write!(f, "ADDR: u, p:NAME or a:NAME"),
            Form::Target => write!(f, "ADDR: u, p:NAME, a:NAME or -"),
            Form::Control => write!(
                f,
                "CONTROL: -, x:HEX or x:\"text\", r:N,N,.. or c:PID,UID,GID, or one of each joined by +"
            ),
            Form::PollFds => write!(
                f,
                "FDS: descriptors with what is asked for, as 3:i,4:io,5:-, or - for none; {EVENTS}"
            ),
        }
    }
}

/// The forms of words in a row: those of a table, or of the fields of a call.
#[derive(Clone, Copy, Debug)]
pub(crate) enum Forms {
    Own(&'static [Form]),
    Call(&'static [FieldForm]),
}

impl Forms {
    pub(crate) fn len(self) -> usize {
        match self {
            Forms::Own(forms) => forms.len(),
            Forms::Call(fields) => fields.len(),
        }
    }

    pub(crate) fn is_empty(self) -> bool {
        self.len() == 0
    }

    pub(crate) fn get(self, index: usize) -> Option<Form> {
        match self {
            Forms::Own(forms) => forms.get(index).copied(),
            Forms::Call(fields) => Some(Form::of_field(*fields.get(index)?)),
        }
    }

    /// Those behind so many.
    pub(crate) fn behind(self, count: usize) -> Forms {
        match self {
            Forms::Own(forms) => Forms::Own(forms.get(count..).unwrap_or(&[])),
            Forms::Call(fields) => Forms::Call(fields.get(count..).unwrap_or(&[])),
        }
    }
}

/// A first word, and what stands behind it.
#[derive(Clone, Copy, Debug)]
pub(crate) struct FirstWord {
    pub(crate) word: &'static str,
    pub(crate) forms: Forms,
}

/// First words: those of a table, or those of the calls, and `wait`.
#[derive(Clone, Copy)]
pub(crate) enum Rows {
    Own(&'static [FirstWord]),
    Calls,
}

impl Rows {
    pub(crate) fn len(self) -> usize {
        match self {
            Rows::Own(rows) => rows.len(),
            Rows::Calls => SCRIPT_WORDS.len().saturating_add(1),
        }
    }

    pub(crate) fn get(self, index: usize) -> Option<FirstWord> {
        match self {
            Rows::Own(rows) => rows.get(index).copied(),
            Rows::Calls => match SCRIPT_WORDS.get(index) {
                Some(word) => Some(FirstWord {
                    word: word.text(),
                    forms: Forms::Call(form_of(*word)),
                }),
                None if index == SCRIPT_WORDS.len() => Some(WAIT),
                None => None,
            },
        }
    }
}

const PID: Form = Form::Number("PID", 0);

const N: Form = Form::Number("N", 0);

const UID: Form = Form::Number("UID", 0);

const GID: Form = Form::Number("GID", 0);

/// The words of a process's line up to its call's.
pub(crate) const TURN: Forms = Forms::Own(&[PID, Form::Call]);

const WAIT: FirstWord = FirstWord {
    word: "wait",
    forms: Forms::Own(&[PID, N]),
};

/// The kinds of a file object, in front of which `fail` may stand.
const KINDS: &[FirstWord] = &[
    FirstWord {
        word: "counter",
        forms: Forms::Own(&[]),
    },
    FirstWord {
        word: "pipe",
        forms: Forms::Own(&[]),
    },
    FirstWord {
        word: "mem",
        forms: Forms::Own(&[Form::Hex]),
    },
    FirstWord {
        word: "fail",
        forms: Forms::Own(&[Form::Number("N", 1), Form::Kind(false)]),
    },
];

/// The kinds behind `fail N`.
const LATER_KINDS: &[FirstWord] = &[
    FirstWord {
        word: "counter",
        forms: Forms::Own(&[]),
    },
    FirstWord {
        word: "pipe",
        forms: Forms::Own(&[]),
    },
    FirstWord {
        word: "mem",
        forms: Forms::Own(&[Form::Hex]),
    },
];

/// The words that begin a line, but for a process's number.
const HEADS: &[FirstWord] = &[
    FirstWord {
        word: "serial",
        forms: Forms::Own(&[]),
    },
    FirstWord {
        word: "object",
        forms: Forms::Own(&[Form::Path, Form::Kind(true)]),
    },
    FirstWord {
        word: "proc",
        forms: Forms::Own(&[
            UID,
            GID,
            Form::Choice("PRIV", &["0", "1"]),
            Form::Number("LIMIT", 0),
        ]),
    },
    FirstWord {
        word: "off",
        forms: Forms::Own(&[]),
    },
];

/// The first word of a line.
pub(crate) const HEAD: Forms = Forms::Own(&[Form::Head]);

impl Form {
    /// What the word of a field is to be.
    fn of_field(field: FieldForm) -> Form {
        match field.kind {
            FieldKind::Fd | FieldKind::Number | FieldKind::Size | FieldKind::Value => {
                Form::Number(field.sign, 0)
            }
            FieldKind::Space => Form::Space,
            FieldKind::Offset => Form::Signed(field.sign, 64),
            FieldKind::Backlog => Form::Signed(field.sign, 32),
            FieldKind::Path => Form::Path,
            FieldKind::Bytes => Form::Hex,
            FieldKind::Addr => Form::Address,
            FieldKind::Target => Form::Target,
            FieldKind::Mode => Form::Choice(field.sign, &["r", "w", "rw"]),
            FieldKind::Whence => Form::Choice(field.sign, &["set", "cur", "end"]),
            FieldKind::SockType => Form::Choice(field.sign, &["stream", "dgram", "seq"]),
            FieldKind::SockOpt => Form::Choice(
                field.sign,
                &["type", "error", "passcred", "peercred", "accept", "qlimit"],
            ),
            FieldKind::OpenFlags => Form::Letters(field.sign, "anx"),
            FieldKind::CounterFlags => Form::Letters(field.sign, "anxs"),
            FieldKind::MsgFlags => Form::Letters(field.sign, "dptx"),
            FieldKind::Control => Form::Control,
            FieldKind::PollFds => Form::PollFds,
            FieldKind::Waits => Form::Choice(field.sign, &["wait", "now"]),
        }
    }

    /// A word of this form.
    pub(crate) fn shortest(self) -> &'static str {
        match self {
            Form::Head => "off",
            Form::Call => "exit",
            Form::Kind(_) => "pipe",
            Form::Number(_, 0) | Form::Space | Form::Rights | Form::Signed(..) => "0",
            Form::Number(..) => "1",
            Form::Hex | Form::Letters(..) | Form::Target | Form::Control | Form::PollFds => "-",
            Form::Choice(_, [first, ..]) => first,
            Form::Choice(_, []) => "",
            Form::Path => "p:",
            Form::Address => "u",
        }
    }

    /// The words of this form that decide what stands behind them.
    pub(crate) fn rows(self) -> Option<Rows> {
        match self {
            Form::Head => Some(Rows::Own(HEADS)),
            Form::Call => Some(Rows::Calls),
            Form::Kind(true) => Some(Rows::Own(KINDS)),
            Form::Kind(false) => Some(Rows::Own(LATER_KINDS)),
            _ => None,
        }
    }

    /// What a word of this form can end with, so that each beginning of one can be completed by one of them.
    pub(crate) fn endings(self) -> &'static [&'static str] {
        match self {
            Form::Head | Form::Call | Form::Kind(_) | Form::Choice(..) => &[],
            Form::Number(..) | Form::Rights | Form::Signed(..) => &["", "0", "1"],
            Form::Space => &[
                "", "0", "1", "ights:0", "ghts:0", "hts:0", "ts:0", "s:0", ":0",
            ],
            Form::Hex => &["", "-", "0", "0\"", "00\"", "n\""],
            Form::Letters(..) => &["", "-"],
            Form::PollFds => &["", "-", ":-", "0:-"],
            Form::Path | Form::Address | Form::Target => {
                &["", "-", "u", "p:", ":", "0", "00", "f"]
            }
            Form::Control => &[
                "", "-", ":00", "00", "0", ":0", "r:0", ":0,0,0", "0,0,0", ",0,0", "0,0", ",0",
                "c:0,0,0", "0\"", "00\"", "n\"",
            ],
        }
    }
}
