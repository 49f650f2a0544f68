//! The lines of the input.
use std::io::{BufRead, ErrorKind};
use ux_syntax::ScriptFault;

/// How many lines are read at most, so that each line's number fits.
pub const LINES: usize = usize::MAX / 8192;

/// The lines of a reader, counted from 1.
#[derive(Drop)]
pub struct Lines<R: BufRead> {
    source: R,
    number: usize,
}

impl<R: BufRead> Lines<R> {
    /// The lines of this reader, none of which was read.
    pub fn new(source: R) -> Lines<R> {
        Lines { source, number: 0 }
    }

    /// The number of the last line that was read.
    pub fn number(&self) -> usize {
        self.number
    }

    /// Reads the next line into the buffer, without its line feed. Gives whether there was one.
    pub fn next_line(&mut self, text: &mut Vec<u8>) -> Result<bool, ScriptFault> {
        text.clear();
        match self.source.read_until(b'\n', text) {
            Ok(0) => return Ok(false),
            Ok(_) => {}
            Err(error) if error.kind() == ErrorKind::OutOfMemory => {
                return Err(ScriptFault::NoMemory);
            }
            Err(_) => return Err(ScriptFault::Reading),
        }
        strip_feed(text);
        let Some(number) = self.number.checked_add(1) else {
            return Err(ScriptFault::Reading);
        };
        self.number = number;
        Ok(true)
    }
}

/// Takes the line feed off the text's end, where it has one.
fn strip_feed(text: &mut Vec<u8>) {
    let count = text.len();
    if count > 0 && text[count - 1] == b'\n' {
        text.truncate(count - 1);
    }
}
