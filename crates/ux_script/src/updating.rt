//! A script's text with what its calls answered, in comments behind them.

ghost use Rattle.std.specs.Prelude.{◌≡◌, ◌++◌, [], if◌then◌else◌, IfOk, OnOk, string_bytes};
ghost use Rattle.std.specs.Option.{option_map};
ghost use Rattle.ux_syntax.specs.Spelling.{lines_of};
ghost use Rattle.ux_script.specs.Comparing.{answer_at};
ghost use Rattle.ux_script.specs.Updating.{next_line, reply_line, differs, mended, behind_call, behind, updated};

use crate::comparing::{answer_of, is_met};
use std::alloc::{AllocError, Global};
use ux_syntax::{asks_call, expected_in, is_marked, split_lines};
use ux_types::{Bytes, Entry};

/// Adds a further line.
fn put_line(out: &mut Vec<u8>, text: &[u8]) -> Result<(), AllocError>
    ensures { OnOk result (out.new.items ≡ out.old.items ++ next_line text.now) }
{
    out.push(b'\n')?;
    out.extend_from_slice(text)?;
    Ok(())
}

/// Adds the comment that expects what a call answered, or nothing of one that wasn't made.
fn put_reply(out: &mut Vec<u8>, got: &Option<String>) -> Result<(), AllocError>
    ensures { OnOk result (out.new.items ≡ out.old.items ++ reply_line (option_map string_bytes got.now)) }
{
    if let Some(answer) = got {
        put_line(out, b"#= ")?;
        out.extend_from_slice(answer.as_bytes())?;
    }
    Ok(())
}

/// Whether another reply is expected.
fn differs(expected: &Option<Bytes>, got: &Option<String>) -> bool
    ensures { result ≡ differs expected.now (option_map string_bytes got.now) }
{
    match expected {
        Some(reply) => !is_met(reply.as_slice(), got),
        None => false,
    }
}

/// Adds a comment behind a call, which stays as it is written where the call answered so, where it expects nothing, and
/// where the call wasn't made.
fn put_mended(
    alloc: Global,
    out: &mut Vec<u8>,
    comment: &[u8],
    got: &Option<String>,
) -> Result<(), AllocError>
    ensures { OnOk result (out.new.items ≡ out.old.items ++ mended comment.now (option_map string_bytes got.now)) }
{
    let expected = expected_in(alloc, comment)?;
    if got.is_some() && differs(&expected, got) {
        return put_reply(out, got);
    }
    put_line(out, comment)
}

/// Adds the line behind a call, and what the call answered.
fn put_behind_call(
    alloc: Global,
    out: &mut Vec<u8>,
    text: &[u8],
    got: &Option<String>,
) -> Result<(), AllocError>
    ensures { OnOk result (out.new.items ≡ out.old.items ++ behind_call text.now (option_map string_bytes got.now)) }
{
    if is_marked(text) {
        return put_mended(alloc, out, text, got);
    }
    put_reply(out, got)?;
    put_line(out, text)
}

/// Adds the line behind another, which may ask for a call.
fn put_behind(
    alloc: Global,
    out: &mut Vec<u8>,
    asked: bool,
    text: &[u8],
    got: &Option<String>,
) -> Result<(), AllocError>
    ensures { OnOk result (out.new.items ≡ out.old.items ++ behind asked text.now (option_map string_bytes got.now)) }
{
    if asked {
        return put_behind_call(alloc, out, text, got);
    }
    put_line(out, text)
}

/// The text of a script, behind each call of which stands the comment that expects what the call answered: in the place of the one
/// that stood there and expected something else, or as a further line. A comment without a reply stays, so that nothing is
/// expected there. Beside each call of the history stands the number of its script's line. It takes time in proportion to the lines
/// times the calls.
pub fn with_replies(
    alloc: Global,
    text: &[u8],
    lines: &[Option<usize>],
    history: &[Entry],
) -> Result<Vec<u8>, AllocError>
    ensures { IfOk result (λ out. out.items ≡ updated lines.now history.now (lines_of text.now)) }
{
    let texts = split_lines(alloc, text)?;
    let mut out = Vec::new(alloc);
    let Some((first, rest)) = texts.split_first() else {
        return Ok(out);
    };
    out.extend_from_slice(first)?;
    let mut asked = asks_call(alloc, first)?;
    for (index, text) in rest.iter().enumerate() {
        let got = answer_of(alloc, index + 1, lines, history)?;
        put_behind(alloc, &mut out, asked, text, &got)?;
        asked = asks_call(alloc, text)?;
    }
    if asked {
        put_reply(&mut out, &answer_of(alloc, texts.len(), lines, history)?)?;
    }
    Ok(out)
}
