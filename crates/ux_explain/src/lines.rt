//! Where a line goes wrong.

ghost use Rattle.std.specs.Prelude.{◌≡◌};

use crate::cause::Cause;
use crate::elsewhere::{call_elsewhere, value_elsewhere};
use crate::forms::{Form, Forms, HEAD, TURN};
use crate::near::{nearest_row, nearest_word};
use crate::quoted::field_from;
use crate::texts::word_from;
use crate::words::{miss_of, row_of};
use std::alloc::{AllocError, Global};

/// The first byte of a line that is wrong, and what can stand there.
#[derive(Clone, Copy, Debug)]
pub(crate) struct Mistake {
    /// Counted from 0; at the line's length the line ends too early.
    pub(crate) column: usize,
    pub(crate) cause: Cause,
    /// Where the word begins that is wrong.
    pub(crate) start: usize,
    /// The forms of that word and of those behind it; none where the line is to end.
    pub(crate) forms: Forms,
}

impl Mistake {
    /// A fault of the whole line, whose words are as they may be.
    pub(crate) fn at(column: usize, cause: Cause) -> Mistake
        ensures { result.column ≡ column }
    {
        Mistake {
            column,
            cause,
            start: column,
            forms: Forms::Own(&[]),
        }
    }
}

/// Where the last word begins that was gone over, and where the next one would.
#[derive(Clone, Copy)]
struct Walked {
    last: usize,
    next: usize,
}

/// Goes over words of these forms from a column on.
fn walk(text: &[u8], start: usize, forms: Forms) -> Result<Walked, Mistake> {
    let mut last = start;
    let mut start = start;
    for index in 0..forms.len() {
        let forms = forms.behind(index);
        let Some(form) = forms.get(0) else {
            break;
        };
        let Some(word) = field_from(text, start, form) else {
            return Err(Mistake {
                column: text.len(),
                cause: Cause::Missing(form),
                start,
                forms,
            });
        };
        if let Some(miss) = miss_of(form, word) {
            return Err(Mistake {
                column: start.saturating_add(miss.at),
                cause: miss.cause,
                start,
                forms,
            });
        }
        last = start;
        start = start.saturating_add(word.len()).saturating_add(1);
    }
    let next = start;
    Ok(Walked { last, next })
}

/// Nothing stands from a column on, which is one behind the blank behind a word of this form.
fn ends(text: &[u8], start: usize, last: Option<Form>) -> Result<(), Mistake> {
    let Some(rest) = text.get(start..) else {
        return Ok(());
    };
    let first = rest.iter().find(|byte| **byte != b' ');
    let cause = match (first, last) {
        (Some(b'#'), _) => Cause::LateComment,
        (_, Some(Form::Path | Form::Address)) => Cause::FurtherBehindName,
        _ => Cause::Further,
    };
    Err(Mistake::at(start.saturating_sub(1), cause))
}

/// The forms behind words of these, which the last of them decides.
fn forms_behind(forms: Forms, last: &[u8]) -> Forms {
    let form = forms.get(forms.len().saturating_sub(1));
    let rows = form.and_then(Form::rows);
    match rows.and_then(|rows| row_of(rows, last)) {
        Some(row) => row.forms,
        None => Forms::Own(&[]),
    }
}

/// How often the words of a line decide what stands behind them, at most: `object`, `fail`, and the kind.
const DECISIONS: usize = 4;

/// Goes over a line, which isn't empty and is no comment.
fn walk_line(text: &[u8]) -> Result<(), Mistake> {
    let numbered = match text {
        [first, ..] => first.is_ascii_digit(),
        [] => false,
    };
    let mut forms = if numbered { TURN } else { HEAD };
    let mut start = 0;
    let mut last = None;
    for _ in 0..DECISIONS {
        let walked = walk(text, start, forms)?;
        start = walked.next;
        last = forms.get(forms.len().saturating_sub(1)).or(last);
        forms = forms_behind(forms, word_from(text, walked.last).unwrap_or(&[]));
    }
    ends(text, start, last)
}

/// Why a byte is wrong wherever it stands but in a text, else the cause.
fn cause_of_byte(text: &[u8], found: Mistake) -> Cause {
    if let Cause::Escape = found.cause {
        return found.cause;
    }
    let rest = text.get(found.column..).unwrap_or(&[]);
    match rest {
        [0xef, 0xbb, 0xbf, ..] if found.column == 0 => Cause::ByteOrderMark,
        [0xff, 0xfe, ..] | [0xfe, 0xff, ..] if found.column == 0 => Cause::Utf16,
        _ if found.column == 0 && text.contains(&0) => Cause::Binary,
        [0, ..] => Cause::Binary,
        [0xe2, 0x80, 0x98..=0x9f, ..] => Cause::TypographicMark,
        [first, ..] if *first == b'\t' => Cause::Tab,
        [first, ..] if *first == b'\r' => Cause::CarriageReturn,
        [first, ..] if *first == b' ' => cause_of_blank(rest, found),
        _ => found.cause,
    }
}

/// Why a blank is wrong: it stands in front of a line, behind one, or in place of a word.
fn cause_of_blank(rest: &[u8], found: Mistake) -> Cause {
    let last = rest.iter().all(|byte| *byte == b' ');
    if found.column == 0 {
        Cause::FirstBlank
    } else if found.forms.is_empty() && last {
        Cause::LastBlank
    } else if !found.forms.is_empty() && found.column == found.start {
        Cause::TwoBlanks
    } else {
        found.cause
    }
}

/// The cause where a word is one of manual pages, or begins a comment of other languages.
fn cause_elsewhere(form: Form, word: &[u8]) -> Option<Cause> {
    match form {
        Form::Head if word.starts_with(b"//") => Some(Cause::OtherComment),
        Form::Call => Some(Cause::Elsewhere(call_elsewhere(word)?)),
        Form::Choice(_, words) => Some(Cause::Nearest(form, value_elsewhere(words, word)?)),
        _ => None,
    }
}

/// The cause with the nearest word, where a word is none of those that it may be.
fn with_nearest(alloc: Global, text: &[u8], found: Mistake) -> Result<Cause, AllocError> {
    let word = word_from(text, found.start).unwrap_or(&[]);
    let Cause::Expected(form) = found.cause else {
        return Ok(found.cause);
    };
    if let Some(cause) = cause_elsewhere(form, word) {
        return Ok(cause);
    }
    let nearest = match form {
        Form::Choice(_, words) => nearest_word(alloc, words, word)?,
        _ => match form.rows() {
            Some(rows) => nearest_row(alloc, rows, word)?,
            None => None,
        },
    };
    Ok(cause_with(form, nearest))
}

/// Why a word isn't of this form, of which this one is the nearest.
fn cause_with(form: Form, nearest: Option<&'static str>) -> Cause {
    match form {
        Form::Head => Cause::NoHead(nearest),
        Form::Call => Cause::NoCall(nearest),
        _ => match nearest {
            Some(word) => Cause::Nearest(form, word),
            None => Cause::Expected(form),
        },
    }
}

/// Where a line goes wrong, if it does.
pub(crate) fn line_fault(alloc: Global, text: &[u8]) -> Result<Option<Mistake>, AllocError> {
    let Err(mut found) = walk_line(text) else {
        return Ok(None);
    };
    found.cause = cause_of_byte(text, found);
    found.cause = with_nearest(alloc, text, found)?;
    Ok(Some(found))
}
