//! A poll of several descriptors as people type it: `poll 3:in 4:POLLIN|POLLOUT now`.

use std::alloc::{AllocError, Global};

/// Conditions that may be asked for, each with its letter, in the order in which letters stand.
const EVENTS: &[(&[u8], u8)] = &[
    (b"in", b'i'),
    (b"POLLIN", b'i'),
    (b"out", b'o'),
    (b"POLLOUT", b'o'),
    (b"rdhup", b'h'),
    (b"POLLRDHUP", b'h'),
];

fn is_event(word: &[u8]) -> bool {
    EVENTS.iter().any(|(event, _)| word == *event)
}

/// Adds the letters of conditions that are joined by `|`, or what stands there where it is none of them.
fn put_events(out: &mut Vec<u8>, events: &[u8]) -> Result<(), AllocError> {
    if !events.split(|byte| *byte == b'|').all(is_event) {
        return out.extend_from_slice(events);
    }
    let mut last = None;
    for (event, letter) in EVENTS {
        let asked = events
            .split(|byte| *byte == b'|')
            .any(|part| part == *event);
        if asked && last != Some(*letter) {
            out.push(*letter)?;
            last = Some(*letter);
        }
    }
    Ok(())
}

/// Adds a descriptor and what is asked for of it.
fn put_asked(out: &mut Vec<u8>, asked: &[u8]) -> Result<(), AllocError> {
    let Some(colon) = asked.iter().position(|byte| *byte == b':') else {
        return out.extend_from_slice(asked);
    };
    let behind = colon.saturating_add(1);
    out.extend_from_slice(asked.get(..behind).unwrap_or(asked))?;
    put_events(out, asked.get(behind..).unwrap_or(&[]))
}

/// The line of `polls` that a line of `poll` stands for, if it asks of descriptors with conditions behind colons.
pub(crate) fn polls_line(alloc: Global, line: &[u8]) -> Result<Option<Vec<u8>>, AllocError> {
    let words = line
        .split(|byte| *byte == b' ')
        .collect::<Vec<&[u8]>>(alloc)?;
    let [pid, call, asked @ ..] = words.as_slice() else {
        return Ok(None);
    };
    if *call != b"poll".as_slice() || !asked.iter().any(|word| word.contains(&b':')) {
        return Ok(None);
    }
    let (asked, waits): (&[&[u8]], &[u8]) = match asked {
        [front @ .., last] if *last == b"now".as_slice() => (front, b" now"),
        _ => (asked, b" wait"),
    };
    let mut plain = Vec::from_slice(alloc, pid)?;
    plain.extend_from_slice(b" polls ")?;
    for (place, word) in asked.iter().enumerate() {
        if place > 0 {
            plain.push(b',')?;
        }
        put_asked(&mut plain, word)?;
    }
    plain.extend_from_slice(waits)?;
    Ok(Some(plain))
}
