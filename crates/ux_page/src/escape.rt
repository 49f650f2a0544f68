//! Text in a page.

ghost use Rattle.std.specs.Prelude.{◌≡◌, ◌++◌, ◌∷◌, [], OnOk, IfSome, IfNone};
ghost use Rattle.std.specs.List.{flat_map};
ghost use Rattle.ux_page.specs.Escaping.{between_tags, in_script, TextStaysText};

use std::alloc::AllocError;

/// How a letter is written between tags, where it isn't written as itself.
fn reference(letter: u8) -> Option<&'static [u8]>
    ensures text { IfSome result (λ text. between_tags letter ≡ text.now) }
    ensures same { IfNone result (between_tags letter ≡ letter ∷ []) }
{
    match letter {
        b'&' => Some(b"&amp;"),
        b'<' => Some(b"&lt;"),
        b'>' => Some(b"&gt;"),
        _ => None,
    }
}

/// Appends bytes that a page shows as they are.
pub(crate) fn put_escaped(out: &mut Vec<u8>, bytes: &[u8]) -> Result<(), AllocError>
    ensures { OnOk result (out.new.items ≡ out.old.items ++ flat_map between_tags bytes.now) }
{
    for byte in bytes {
        match reference(*byte) {
            Some(text) => out.extend_from_slice(text)?,
            None => out.push(*byte)?,
        }
    }
    Ok(())
}

/// Appends JSON that stands in a script.
pub(crate) fn put_in_script(out: &mut Vec<u8>, json: &[u8]) -> Result<(), AllocError>
    ensures { OnOk result (out.new.items ≡ out.old.items ++ flat_map in_script json.now) }
{
    for byte in json {
        if *byte == b'<' {
            out.extend_from_slice(b"\\u003c")?;
        } else {
            out.push(*byte)?;
        }
    }
    Ok(())
}

/// No text of a run begins a tag of the page or ends a script, whatever its letters are.
pub fn text_stays_text()
    ensures { TextStaysText }
{}
