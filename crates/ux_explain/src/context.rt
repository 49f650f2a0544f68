//! Lines that other lines don't allow.

use crate::cause::Cause;
use crate::lines::Mistake;
use crate::texts::word_from;
use ux_fields::SCRIPT_WORDS;
use ux_syntax::{LineReader, Script};
use ux_types::{MADE_LIMIT, Pid};

/// The number that digits spell.
fn number_of(word: &[u8]) -> u32 {
    let mut number: u32 = 0;
    for byte in word {
        let digit = u32::from(byte.saturating_sub(b'0'));
        number = number.saturating_mul(10).saturating_add(digit);
    }
    number
}

/// Why a process has no line behind these of a script.
fn cause_of_process(read: &LineReader, pid: u32) -> Option<Cause> {
    let count = read.process_count();
    if pid == 0 || pid as usize > count {
        return Some(Cause::NoProcess(pid, count));
    }
    if read.has_exited(Pid(pid)) {
        return Some(Cause::AfterExit(pid));
    }
    None
}

/// Why a process makes no fork behind these lines of a script.
fn cause_of_fork(script: &Script, pid: u32) -> Cause {
    if !script.serial && pid != 1 {
        Cause::Forks(pid)
    } else {
        Cause::TooManyProcesses(MADE_LIMIT)
    }
}

/// Whether a call stands in a script with the line `serial` alone.
fn stands_behind_serial(call: &[u8]) -> bool {
    SCRIPT_WORDS.iter().any(|word| word.wants_serial() && word.text().as_bytes() == call)
}

/// Why the line of a process isn't allowed behind these of a script.
fn turn_fault(read: &LineReader, text: &[u8]) -> Mistake {
    let script = read.script();
    let first = word_from(text, 0).unwrap_or(&[]);
    let pid = number_of(first);
    let start = first.len().saturating_add(1);
    let call = word_from(text, start).unwrap_or(&[]);
    if !script.serial && stands_behind_serial(call) {
        return Mistake::at(start, Cause::BehindSerial);
    }
    if let Some(cause) = cause_of_process(read, pid) {
        return Mistake::at(0, cause);
    }
    if call == b"fork".as_slice() {
        return Mistake::at(start, cause_of_fork(script, pid));
    }
    let start = start.saturating_add(call.len()).saturating_add(1);
    let awaited = number_of(word_from(text, start).unwrap_or(&[]));
    Mistake::at(start, Cause::NoProcess(awaited, read.process_count()))
}

/// Why a line isn't allowed behind these of a script, though its words are as they may be.
pub(crate) fn context_fault(read: &LineReader, text: &[u8]) -> Mistake {
    let meant = !matches!(text, [] | [b'#', ..]);
    if !meant {
        return Mistake::at(0, Cause::Misplaced);
    }
    if read.script().off {
        return Mistake::at(0, Cause::AfterOff);
    }
    let first = word_from(text, 0).unwrap_or(&[]);
    if first == b"serial".as_slice() {
        return Mistake::at(0, Cause::LateSerial);
    }
    match first {
        [digit, ..] if digit.is_ascii_digit() => turn_fault(read, text),
        _ => Mistake::at(0, Cause::LateHeader),
    }
}
