//! Scripts as people type them: with names, several blanks, and comments behind calls.

use crate::machines::boot;
use crate::reading::ReadScript;
use std::alloc::Global;
use std::random::RandomSource;
use ux_command::{Args, CommandFault, Source};
use ux_script_names::{NamedScript, Typed, as_typed};
use ux_syntax::{ScriptFault, expectations_of, parse_script};

/// Whether a text names what calls give.
fn names_calls(text: &[u8]) -> bool {
    text.windows(4).any(|part| part == b" -> ".as_slice())
}

/// Whether a line of a header names a process.
fn names_process(line: &[u8]) -> bool {
    match line.strip_prefix(b"proc ") {
        Some([first, ..]) => first.is_ascii_alphabetic() || *first == b'_',
        _ => false,
    }
}

/// Whether a text has parts that no script without names has.
fn has_names(text: &[u8]) -> bool {
    names_calls(text) || text.split(|byte| *byte == b'\n').any(names_process)
}

/// Whether a fault may be one of a script that is typed otherwise than `parse_script` takes it: a line's.
pub fn is_of_a_line(fault: &ScriptFault) -> bool {
    matches!(
        fault,
        ScriptFault::BadLine(_) | ScriptFault::UnknownProcess(_) | ScriptFault::TooLong(_)
    )
}

/// The text without names that a text stands for. Its calls are made once, in the order of the lines, to learn what its
/// names mean.
fn without_names<R: RandomSource + AllocGlobal>(
    rt: &R,
    args: &Args<'_>,
    text: &[u8],
) -> Result<Vec<u8>, CommandFault> {
    let alloc: Global = rt.alloc();
    if args.update {
        return Err(CommandFault::Named);
    }
    let named = NamedScript::read(alloc, text)?;
    let kernel = boot(rt, named.script())?;
    Ok(named.plain_text(alloc, kernel)?)
}

/// The script that the text of this source stands for, and what it expects; the source then explains faults by the text as
/// it was read: without names, comments behind calls and further blanks.
pub fn script_as_typed<R: RandomSource + AllocGlobal>(
    rt: &R,
    args: &Args<'_>,
    source: &mut Source,
) -> Result<ReadScript, CommandFault> {
    let alloc: Global = rt.alloc();
    let Typed {
        text,
        wide,
        constants,
    } = as_typed(alloc, source.text().unwrap_or(&[]))?;
    if constants && args.update {
        return Err(CommandFault::Named);
    }
    let plain = if has_names(&text) {
        without_names(rt, args, &text)?
    } else {
        text
    };
    let script = parse_script(alloc, &plain);
    let expected = if args.expect {
        expectations_of(alloc, &plain)
    } else {
        Ok(Vec::new(alloc))
    };
    source.read_as(plain);
    Ok(ReadScript {
        script: script?,
        expected: expected?,
        wide,
    })
}
