//! Lines with text in them, and the plain lines that they stand for.

ghost use Rattle.std.specs.Prelude.{◌≡◌, ◌<◌, ◌++◌, false, take, drop, IfOk, OnOk};
ghost use Rattle.std.specs.Option.{option_map};
ghost use Rattle.ux_trace.specs.Trace.{hex};
ghost use Rattle.ux_syntax.specs.Text.{escape_at, pair_at, escaped_byte_at, text_byte_at, text_at, is_behind_word, hex_word_at, raw_word_at, first_word, space_of, space_at, space_word_at, special_word_at, field_at, plain_fields, object_fields, reply_fields, call_fields, fields_of, line_or, may_be_special, plain_line};
ghost use Rattle.ux_syntax.specs.PlainLines.{PlainLinesStay, EchoesAreRead};
ghost use Rattle.ux_syntax.specs.Results.{IsAsRead};

use crate::fault::{BAD, LineError};
use crate::words::{Word, digit_of};
use std::alloc::{AllocError, Global};
use ux_trace::HexText;
use ux_types::RIGHTS_LIMIT;

/// How a word of a line may be written.
#[derive(Clone, Copy)]
pub(crate) enum Field {
    /// As a plain word alone.
    Plain,
    /// As text, too, in place of HEX.
    Hex,
    /// As text behind `x:`, too.
    Raw,
    /// As `rights:` and a number, too.
    Space,
}

/// The byte that a character behind a backslash stands for, as in C.
fn escape_of(letter: u8) -> Result<u8, LineError>
    ensures { IsAsRead (λ b. b) result (escape_at letter) }
{
    match letter {
        b'a' => Ok(7),
        b'b' => Ok(8),
        b't' => Ok(9),
        b'n' => Ok(10),
        b'v' => Ok(11),
        b'f' => Ok(12),
        b'r' => Ok(13),
        b'"' => Ok(34),
        b'\\' => Ok(92),
        _ => Err(BAD),
    }
}

/// The byte that two digits spell, and what follows them.
fn pair_of(text: &[u8]) -> Result<(u8, &[u8]), LineError>
    ensures { IsAsRead (λ x. (x.0, x.1.now)) result (pair_at text.now) }
{
    match text {
        [high, low, rest @ ..] => {
            let high = digit_of(*high)?;
            let low = digit_of(*low)?;
            Ok((16 * high + low, rest))
        }
        _ => Err(BAD),
    }
}

/// The byte that stands behind a backslash, and what follows its spelling.
fn escaped_byte_of(text: &[u8]) -> Result<(u8, &[u8]), LineError>
    ensures { IsAsRead (λ x. (x.0, x.1.now)) result (escaped_byte_at text.now) }
{
    match text {
        [letter, digits @ ..] if *letter == b'x' => pair_of(digits),
        [letter, rest @ ..] => Ok((escape_of(*letter)?, rest)),
        [] => Err(BAD),
    }
}

/// The first byte of a text, and what follows its spelling.
fn text_byte_of(text: &[u8]) -> Result<(u8, &[u8]), LineError>
    ensures { IsAsRead (λ x. (x.0, x.1.now)) result (text_byte_at text.now) }
{
    match text {
        [backslash, rest @ ..] if *backslash == b'\\' => escaped_byte_of(rest),
        [byte, rest @ ..] => Ok((*byte, rest)),
        [] => Err(BAD),
    }
}

/// The bytes of a text up to its closing quotation mark, and what follows the mark.
fn text_of<'a>(alloc: Global, text: &'a [u8]) -> Result<(Vec<u8>, &'a [u8]), LineError>
    ensures { IsAsRead (λ x. (x.0.items, x.1.now)) result (text_at text.now) }
{
    let mut bytes = Vec::new(alloc);
    let mut rest = text;
    while let [first, behind @ ..] = rest {
        if *first == b'"' {
            return Ok((bytes, behind));
        }
        let (byte, after) = text_byte_of(rest)?;
        bytes.push(byte)?;
        rest = after;
    }
    Err(BAD)
}

/// Bytes as pairs of digits, or `-` for none.
fn hex_of(alloc: Global, bytes: &[u8]) -> Result<Vec<u8>, AllocError>
    ensures { IfOk result (λ word. word.items ≡ hex bytes.now) }
{
    let word = format!(in alloc; "{}", HexText(bytes))?;
    Ok(word.into_bytes())
}

/// Whether nothing stands there, or a blank.
fn is_behind_word(text: &[u8]) -> bool
    ensures { result ≡ is_behind_word text.now }
{
    match text {
        [] => true,
        [first, ..] => *first == b' ',
    }
}

/// The plain word of a text, and what follows it.
#[tactic(auto, unfolding(crate::specs::Text::hex_word_at))]
fn hex_word_of<'a>(alloc: Global, text: &'a [u8]) -> Result<(Vec<u8>, &'a [u8]), LineError>
    ensures { IsAsRead (λ x. (x.0.items, x.1.now)) result (hex_word_at text.now) }
{
    let inner = match text {
        [mark, inner @ ..] if *mark == b'"' => inner,
        _ => return Err(BAD),
    };
    match text_of(alloc, inner) {
        Ok((bytes, rest)) => {
            if !is_behind_word(rest) {
                return Err(BAD);
            }
            let digits = hex_of(alloc, &bytes)?;
            Ok((digits, rest))
        }
        Err(error) => Err(error),
    }
}

/// The plain word of a text behind `x:`, and what follows it.
fn raw_word_of<'a>(alloc: Global, text: &'a [u8]) -> Result<(Vec<u8>, &'a [u8]), LineError>
    ensures { IsAsRead (λ x. (x.0.items, x.1.now)) result (raw_word_at text.now) }
{
    let inner = match text {
        [letter, colon, inner @ ..] if *letter == b'x' && *colon == b':' => inner,
        _ => return Err(BAD),
    };
    match hex_word_of(alloc, inner) {
        Ok((digits, rest)) => {
            let mut word = Vec::from_slice(alloc, b"x:")?;
            word.extend_from_slice(&digits)?;
            Ok((word, rest))
        }
        Err(error) => Err(error),
    }
}

/// The first word, and what follows it.
fn first_word(text: &[u8]) -> (&[u8], &[u8])
    ensures { (result.0.now, result.1.now) ≡ first_word text.now }
{
    match text.iter().position(|byte| *byte == b' ') {
        Some(blank) => text.split_at(blank),
        None => (text, &[]),
    }
}

/// The digits of how many bytes of control so many rights take (CMSG_SPACE of cmsg(3)), which one message may pass.
fn space_of(alloc: Global, count: usize) -> Result<Vec<u8>, LineError>
    ensures { IsAsRead (λ digits. digits.items) result (space_of count) }
{
    if count > RIGHTS_LIMIT {
        return Err(BAD);
    }
    // A head of 16 bytes, and 4 for each number, up to the next multiple of 8.
    let space = 16 + 8 * ((count + 1) / 2);
    let digits = format!(in alloc; "{space}")?;
    Ok(digits.into_bytes())
}

/// The plain word of `rights:` and a number.
#[tactic(auto, unfolding(crate::specs::Text::space_at))]
fn space_of_word(alloc: Global, word: &[u8]) -> Result<Vec<u8>, LineError>
    ensures { IsAsRead (λ digits. digits.items) result (space_at word.now) }
{
    match word.strip_prefix(b"rights:") {
        Some(number) => space_of(alloc, usize::of(alloc, number)?),
        None => Err(BAD),
    }
}

fn space_word_of<'a>(alloc: Global, text: &'a [u8]) -> Result<(Vec<u8>, &'a [u8]), LineError>
    ensures { IsAsRead (λ x. (x.0.items, x.1.now)) result (space_word_at text.now) }
{
    let (word, rest) = first_word(text);
    let digits = space_of_word(alloc, word)?;
    Ok((digits, rest))
}

/// The plain word of a field that is written otherwise, and what follows it.
fn special_word_of<'a>(
    alloc: Global,
    field: Field,
    text: &'a [u8],
) -> Result<(Vec<u8>, &'a [u8]), LineError>
    ensures { IsAsRead (λ x. (x.0.items, x.1.now)) result (special_word_at field text.now) }
{
    match field {
        Field::Plain => Err(BAD),
        Field::Hex => hex_word_of(alloc, text),
        Field::Raw => raw_word_of(alloc, text),
        Field::Space => space_word_of(alloc, text),
    }
}

/// Adds a word and the blank that follows it, if any, and gives what follows that.
fn add_word<'a>(plain: &mut Vec<u8>, word: &[u8], rest: &'a [u8]) -> Result<&'a [u8], AllocError>
    ensures added { OnOk result (plain.new.items ≡ plain.old.items ++ (word.now ++ take 1 rest.now)) }
    ensures left { IfOk result (λ behind. behind.now ≡ drop 1 rest.now) }
{
    plain.extend_from_slice(word)?;
    match rest {
        [blank, behind @ ..] => {
            plain.push(*blank)?;
            Ok(behind)
        }
        [] => Ok(rest),
    }
}

/// Adds the plain word of a field and the blank that follows it, if any, and gives what follows that.
fn add_field<'a>(
    alloc: Global,
    plain: &mut Vec<u8>,
    field: Field,
    text: &'a [u8],
) -> Result<&'a [u8], AllocError>
    ensures added { OnOk result (plain.new.items ≡ plain.old.items ++ (field_at field text.now).0) }
    ensures left { IfOk result (λ behind. behind.now ≡ (field_at field text.now).1) }
{
    match special_word_of(alloc, field, text) {
        Ok((word, rest)) => add_word(plain, &word, rest),
        Err(LineError::Memory) => Err(AllocError),
        Err(LineError::Fault(_)) => {
            let (word, rest) = first_word(text);
            add_word(plain, word, rest)
        }
    }
}

/// The plain line of one whose first words are these fields.
fn plain_fields_of(alloc: Global, fields: &[Field], text: &[u8]) -> Result<Vec<u8>, AllocError>
    ensures { IfOk result (λ line. line.items ≡ plain_fields fields.now text.now) }
{
    let mut plain = Vec::new(alloc);
    let mut rest = text;
    for field in fields {
        rest = add_field(alloc, &mut plain, *field, rest)?;
    }
    plain.extend_from_slice(rest)?;
    Ok(plain)
}

const MEMORY: &[Field] = &[Field::Plain, Field::Plain, Field::Plain, Field::Hex];

const FAILING: &[Field] = &[
    Field::Plain,
    Field::Plain,
    Field::Plain,
    Field::Plain,
    Field::Plain,
    Field::Hex,
];

/// The fields of an object's line, by the word behind its name.
fn object_fields(kind: &[u8]) -> &'static [Field]
    ensures { result.now ≡ object_fields kind.now }
{
    if kind == b"mem".as_slice() {
        MEMORY
    } else if kind == b"fail".as_slice() {
        FAILING
    } else {
        &[]
    }
}

const READ: &[Field] = &[Field::Plain, Field::Plain, Field::Hex];

const RECEIVED: &[Field] = &[
    Field::Plain,
    Field::Plain,
    Field::Plain,
    Field::Hex,
    Field::Plain,
    Field::Raw,
];

/// The fields of an expectation, by its reply's word.
fn reply_fields(word: &[u8]) -> &'static [Field]
    ensures { result.now ≡ reply_fields word.now }
{
    if word == b"bytes".as_slice() {
        READ
    } else if word == b"got".as_slice() {
        RECEIVED
    } else {
        &[]
    }
}

const WRITE: &[Field] = &[Field::Plain, Field::Plain, Field::Plain, Field::Hex];

const SEND: &[Field] = &[
    Field::Plain,
    Field::Plain,
    Field::Plain,
    Field::Plain,
    Field::Hex,
    Field::Raw,
];

const RECEIVE: &[Field] = &[
    Field::Plain,
    Field::Plain,
    Field::Plain,
    Field::Plain,
    Field::Space,
];

/// The fields of a process's line, by its call's word.
fn call_fields(word: &[u8]) -> &'static [Field]
    ensures { result.now ≡ call_fields word.now }
{
    if word == b"write".as_slice() {
        WRITE
    } else if word == b"send".as_slice() {
        SEND
    } else if word == b"recv".as_slice() {
        RECEIVE
    } else {
        &[]
    }
}

/// What follows the blank that stands first, if any.
fn behind_blank(text: &[u8]) -> &[u8]
    ensures { result.now ≡ drop 1 text.now }
{
    match text {
        [_, behind @ ..] => behind,
        [] => text,
    }
}

/// The first fields of a line, up to the last that may be written otherwise than plainly.
#[tactic(auto, unfolding(crate::specs::Text::fields_of))]
fn fields_of(text: &[u8]) -> &'static [Field]
    ensures { result.now ≡ fields_of text.now }
{
    let (first, rest) = first_word(text);
    let (second, rest) = first_word(behind_blank(rest));
    if first == b"object".as_slice() {
        let (third, _) = first_word(behind_blank(rest));
        return object_fields(third);
    }
    if first == b"#=".as_slice() {
        return reply_fields(second);
    }
    call_fields(second)
}

/// Whether a line has a byte without which a field is a plain word.
fn may_be_special(field: Field, text: &[u8]) -> bool
    ensures { result ≡ may_be_special field text.now }
{
    match field {
        Field::Plain => false,
        Field::Hex | Field::Raw => text.contains(&b'"'),
        Field::Space => text.contains(&b':'),
    }
}

/// Whether one of the fields may be written otherwise than plainly.
fn may_differ(fields: &[Field], text: &[u8]) -> bool
    ensures { result ≡ false → plain_fields fields.now text.now ≡ text.now }
{
    fields.iter().any(|field| may_be_special(*field, text))
}

/// The plain line that a line stands for, where it isn't that line itself: its text is in digits, and its `rights:N` a number.
///
/// # Errors
///
/// `AllocError` where memory runs out.
#[tactic(auto, unfolding(crate::specs::Text::plain_line))]
pub fn plain_line(alloc: Global, text: &[u8]) -> Result<Option<Vec<u8>>, AllocError>
    ensures { IfOk result (λ plain. line_or text.now (option_map (λ line. line.items) plain) ≡ plain_line text.now) }
{
    let fields = fields_of(text);
    if !may_differ(fields, text) {
        return Ok(None);
    }
    Ok(Some(plain_fields_of(alloc, fields, text)?))
}

/// The lines of a script that has no text are their own plain lines, so it is read as it was before there was text.
pub fn plain_lines_stay()
    ensures { PlainLinesStay }
{}

/// Bytes between quotation marks, as an echo has them, are read as these bytes.
pub fn echoes_are_read()
    ensures { EchoesAreRead }
{}
