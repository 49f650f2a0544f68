//! Replies with text, and chains of holdings in words.

use std::alloc::{AllocError, Global};
use std::io::{BufWriter, Write};
use std::{fmt, io};
use ux_audit::Chain;
use ux_command::CommandFault;
use ux_script::put_all;
use ux_syntax::ScriptFault;
use ux_trace::{CallWord, HexText, echo_text, entry_text};
use ux_types::{Bytes, Entry, Fd, How, Link, Pid, Reply};

/// A byte of a text that stands between quotation marks in a script.
#[derive(Clone, Copy)]
struct Letter(u8);

impl fmt::Display for Letter {
    fn fmt<W: fmt::Write>(&self, f: &mut fmt::Formatter<W>) -> fmt::Result {
        match self.0 {
            b'"' => write!(f, "\\\""),
            b'\\' => write!(f, "\\\\"),
            b'\n' => write!(f, "\\n"),
            b'\t' => write!(f, "\\t"),
            byte => write!(f, "{}", char::from(byte)),
        }
    }
}

/// Bytes as text between quotation marks.
#[derive(Clone, Copy)]
struct Quoted<'a>(&'a [u8]);

impl fmt::Display for Quoted<'_> {
    fn fmt<W: fmt::Write>(&self, f: &mut fmt::Formatter<W>) -> fmt::Result {
        write!(f, "\"")?;
        for byte in self.0 {
            let letter = Letter(*byte);
            write!(f, "{letter}")?;
        }
        write!(f, "\"")
    }
}

/// Whether bytes are text that can be read.
fn is_text(bytes: &[u8]) -> bool {
    !bytes.is_empty()
        && bytes
            .iter()
            .all(|byte| matches!(*byte, b' '..=b'~' | b'\n' | b'\t'))
}

/// The bytes that a reply gives, if it gives some.
fn bytes_of(reply: &Reply) -> Option<&Bytes> {
    match reply {
        Reply::Bytes(bytes) | Reply::Received { bytes, .. } => Some(bytes),
        _ => None,
    }
}

/// A line of a trace or of an echo with the bytes of its reply as text, where they can be read so.
fn with_text(alloc: Global, line: &str, entry: &Entry) -> Result<String, AllocError> {
    let text = match bytes_of(&entry.reply) {
        Some(bytes) if is_text(bytes.as_slice()) => bytes.as_slice(),
        _ => return String::from_str(alloc, line),
    };
    // The line ends with the reply, of whose words the digits are the first like them.
    let digits = format!(in alloc; " {}", HexText(text))?;
    let Some((call, reply)) = line.rsplit_once(" = ") else {
        return String::from_str(alloc, line);
    };
    let Some((front, behind)) = reply.split_once(digits.as_str()) else {
        return String::from_str(alloc, line);
    };
    let quoted = Quoted(text);
    format!(in alloc; "{call} = {front} {quoted}{behind}")
}

/// Prints the trace of a history, or the calls beside the lines that ask for them, with text in replies.
pub fn print_with_text<R: Print + AllocGlobal>(
    rt: &R,
    lines: Option<&[Option<usize>]>,
    history: &[Entry],
) -> Result<(), CommandFault> {
    let alloc: Global = rt.alloc();
    let mut writer = BufWriter::new(alloc, io::writer(rt)).map_err(|_| AllocError)?;
    for (number, entry) in history.iter().enumerate() {
        let line = match lines {
            Some(lines) => echo_text(alloc, lines.get(number).copied().flatten(), entry)?,
            None => entry_text(alloc, number, entry)?,
        };
        let text = with_text(alloc, line.as_str(), entry)?;
        put_all(&mut writer, text.as_bytes())?;
    }
    if writer.flush().is_err() {
        return Err(CommandFault::Script(ScriptFault::Writing));
    }
    Ok(())
}

/// The call with this number in words: its process and its word.
#[derive(Clone, Copy)]
struct CallWords<'a> {
    number: u64,
    entry: Option<&'a Entry>,
}

impl fmt::Display for CallWords<'_> {
    fn fmt<W: fmt::Write>(&self, f: &mut fmt::Formatter<W>) -> fmt::Result {
        let number = self.number;
        match self.entry {
            Some(entry) => {
                let word = CallWord::of(&entry.request).text();
                let pid = entry.pid.0;
                write!(f, "process {pid}'s {word}, call {number}")
            }
            None => write!(f, "call {number}"),
        }
    }
}

/// How a holding came, in words.
#[derive(Clone, Copy)]
struct LinkWords<'a> {
    link: &'a Link,
    history: &'a [Entry],
}

impl LinkWords<'_> {
    fn call(&self, number: u64) -> CallWords<'_> {
        CallWords {
            number,
            entry: self.history.get(number as usize),
        }
    }
}

impl fmt::Display for LinkWords<'_> {
    fn fmt<W: fmt::Write>(&self, f: &mut fmt::Formatter<W>) -> fmt::Result {
        let (pid, fd) = (self.link.pid.0, self.link.fd.0);
        let call = self.call(self.link.entry as u64);
        match self.link.how {
            How::Made => write!(f, "made as {fd} by {call}"),
            How::Dup => write!(f, "copied to {fd} by {call}"),
            How::Received(tag) => {
                let sent = self.call(tag);
                write!(f, "sent by {sent}, and received as {fd} by {call}")
            }
            How::Forked => write!(f, "left to process {pid} as {fd} by {call}"),
        }
    }
}

/// Prints one descriptor, and in words how its process came to it.
pub fn print_chain_words<R: Print + AllocGlobal>(
    rt: &R,
    history: &[Entry],
    chain: &Chain,
    pid: Pid,
    fd: Fd,
) -> Result<(), CommandFault> {
    let alloc: Global = rt.alloc();
    let mut text = format!(in alloc; "process {} holds {}:", pid.0, fd.0)?;
    for (place, link) in chain.links.iter().enumerate() {
        let link = LinkWords { link, history };
        let further = if place > 0 { "; then" } else { "" };
        let words = format!(in alloc; "{further} {link}")?;
        text.push_str(words.as_str())?;
    }
    println!(rt; "{text}").map_err(|_| ScriptFault::Writing)?;
    Ok(())
}
