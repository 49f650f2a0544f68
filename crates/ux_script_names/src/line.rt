//! Lines with names: of a header, of a process, and comments that expect something.

use crate::fault::NameFault;
use crate::names::Names;
use crate::scope::Named;
use crate::words::{WordFault, line_for};
use std::alloc::{AllocError, Global};
use ux_types::Pid;

/// Whether a word may be a name: a letter or `_`, and behind it letters, digits and `_`.
pub(crate) fn is_name(word: &[u8]) -> bool {
    match word {
        [first, rest @ ..] => {
            (first.is_ascii_alphabetic() || *first == b'_')
                && rest
                    .iter()
                    .all(|byte| byte.is_ascii_alphanumeric() || *byte == b'_')
        }
        [] => false,
    }
}

/// The words with which lines begin that aren't a process's.
const HEADS: &[&[u8]] = &[b"serial", b"wide", b"object", b"proc", b"off"];

/// Whether a line is a process's: it has a word first that no other line has.
pub(crate) fn is_of_process(text: &[u8]) -> bool {
    match text.split(|byte| *byte == b' ').next() {
        Some(first) => { !first.is_empty() && !first.starts_with(b"#") && !HEADS.contains(&first) }
        None => false,
    }
}

/// A name where one is to stand.
pub(crate) fn name_of(alloc: Global, line: usize, word: &[u8]) -> Result<(), NameFault> {
    if is_name(word) {
        return Ok(());
    }
    if word.is_empty() {
        return Err(NameFault::Missing(line));
    }
    let text = String::from_utf8_lossy(alloc, word)?;
    Err(NameFault::NoName(line, text))
}

/// Names a process, unless another line begins with the name.
pub(crate) fn name_process(
    alloc: Global,
    names: &mut Names,
    pid: Pid,
    line: usize,
    name: &[u8],
) -> Result<(), NameFault> {
    if names.process(name).is_some() || HEADS.contains(&name) {
        let text = String::from_utf8_lossy(alloc, name)?;
        return Err(NameFault::Taken(line, text));
    }
    names.name_process(alloc, name, pid)?;
    Ok(())
}

/// A line of a header without the name of a process, which gets this number, if it has one.
pub(crate) fn header_line(
    alloc: Global,
    names: &mut Names,
    pid: Pid,
    line: usize,
    text: &[u8],
) -> Result<Vec<u8>, NameFault> {
    let words = text
        .split(|byte| *byte == b' ')
        .collect::<Vec<&[u8]>>(alloc)?;
    let named = words.len() == 6 && words[0] == b"proc".as_slice() && is_name(words[1]);
    if !named {
        return Ok(Vec::from_slice(alloc, text)?);
    }
    let name = words[1];
    name_process(alloc, names, pid, line, name)?;
    let mut plain = Vec::from_slice(alloc, b"proc ")?;
    plain.extend_from_slice(&text[name.len() + 6..])?;
    Ok(plain)
}

/// What stands before and behind a word `->`.
fn split_at_arrow(text: &[u8]) -> Option<(&[u8], &[u8])> {
    let place = text.windows(4).position(|part| part == b" -> ".as_slice())?;
    Some((text.get(..place)?, text.get(place.checked_add(4)?..)?))
}

/// A line of a process: what asks for its call, and the names of what the call gives.
#[derive(Drop)]
pub(crate) struct Asking<'a> {
    pub(crate) call: &'a [u8],
    pub(crate) names: Vec<&'a [u8]>,
}

/// The parts of a process's line.
pub(crate) fn parts_of_line<'a>(
    alloc: Global,
    line: usize,
    text: &'a [u8],
) -> Result<Asking<'a>, NameFault> {
    if text.ends_with(b" ->") {
        return Err(NameFault::Missing(line));
    }
    let Some((call, names)) = split_at_arrow(text) else {
        return Ok(Asking {
            call: text,
            names: Vec::new(alloc),
        });
    };
    let names = names
        .split(|byte| *byte == b' ')
        .collect::<Vec<&[u8]>>(alloc)?;
    for name in &names {
        name_of(alloc, line, name)?;
    }
    Ok(Asking { call, names })
}

/// A line in which the name of a process that stands first, or behind `wait`, is its number.
pub(crate) fn with_processes(
    alloc: Global,
    names: &Names,
    text: &[u8],
) -> Result<Vec<u8>, AllocError> {
    let mut plain = Vec::new(alloc);
    let mut waits = false;
    for (place, word) in text.split(|byte| *byte == b' ').enumerate() {
        if place > 0 {
            plain.extend_from_slice(b" ")?;
        }
        let stands = place == 0 || (place == 2 && waits);
        match names.process(word) {
            Some(pid) if stands => {
                let number = pid.0;
                let digits = format!(in alloc; "{number}")?;
                plain.extend_from_slice(digits.as_bytes())?;
            }
            _ => plain.extend_from_slice(word)?,
        }
        waits = waits || (place == 1 && word == b"wait".as_slice());
    }
    Ok(plain)
}

/// The number of the process with which a line begins, if it begins with one.
pub(crate) fn process_of(text: &[u8]) -> Option<Pid> {
    let first = text.split(|byte| *byte == b' ').next()?;
    let digits = str::from_utf8(first).ok()?;
    digits.parse::<u32>().ok().map(Pid)
}

/// The line in which each `$NAME` is the number that it means in a line of this process.
pub(crate) fn with_numbers(
    alloc: Global,
    names: &Names,
    scope: &Vec<Named>,
    pid: Pid,
    line: usize,
    text: &[u8],
) -> Result<Vec<u8>, NameFault> {
    match line_for(alloc, scope, text) {
        Ok(plain) => Ok(plain),
        Err(WordFault::NoMemory) => Err(NameFault::NoMemory),
        Err(WordFault::Nameless(name)) => Err(names.fault_of(alloc, pid, line, &name)?),
    }
}
