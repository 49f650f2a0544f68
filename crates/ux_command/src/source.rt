//! What was read of a script, and why a fault of it is one.

use crate::fault::CommandFault;
use std::alloc::{AllocError, Global};
use std::io;
use std::io::{ErrorKind, Read};
use ux_explain::{explain, explain_boot, explain_line};
use ux_syntax::{LineReader, ScriptFault};

/// How many bytes of a script are kept at most: none where it has more, so that a script that never ends takes no more
/// memory than its lines need.
const KEPT_LIMIT: usize = 64 << 20;

/// What was read of a script, as long as there was memory for it, and why no more was read.
#[derive(Debug, Drop)]
pub struct Source {
    text: Option<Vec<u8>>,
    /// The text that was read in its place, by which faults are explained.
    read_as: Option<Vec<u8>>,
    failure: Option<io::Error>,
}

impl Source {
    /// Nothing was read yet.
    pub fn new(alloc: Global) -> Source {
        Source {
            text: Some(Vec::new(alloc)),
            read_as: None,
            failure: None,
        }
    }

    /// The script wasn't opened, or not read to its end.
    pub fn fail(&mut self, error: io::Error) {
        if error.kind() != ErrorKind::Interrupted {
            self.failure = Some(error);
        }
    }

    /// Keeps further bytes. Where memory runs out, or they are too many, nothing is kept any more.
    fn keep(&mut self, bytes: &[u8]) {
        let Some(mut text) = self.text.take() else {
            return;
        };
        if bytes.len() <= KEPT_LIMIT.saturating_sub(text.len())
            && text.extend_from_slice(bytes).is_ok()
        {
            self.text = Some(text);
        }
    }

    /// What was read, where it was kept: of a script of at most 64 MiB, as long as there was memory.
    pub fn text(&self) -> Option<&[u8]> {
        match &self.text {
            Some(text) => Some(text.as_slice()),
            None => None,
        }
    }

    /// Another text was read in its place, line for line.
    pub fn read_as(&mut self, text: Vec<u8>) {
        self.read_as = Some(text);
    }

    /// The text by which faults are explained.
    fn explained(&self) -> Option<&[u8]> {
        match &self.read_as {
            Some(text) => Some(text.as_slice()),
            None => self.text(),
        }
    }

    /// Keeps a further line.
    pub fn add_line(&mut self, line: &[u8]) {
        self.keep(line);
        self.keep(b"\n");
    }

    /// Why a fault of the script of this name is one, in lines for standard error, if there is more to say than the
    /// fault's own text says.
    ///
    /// # Errors
    ///
    /// `AllocError` where memory runs out.
    pub fn reason_of(
        &self,
        alloc: Global,
        name: &str,
        fault: &CommandFault,
    ) -> Result<Option<String>, AllocError> {
        match fault {
            CommandFault::Script(ScriptFault::Reading) => Ok(Some(self.reading_reason(
                alloc, name,
            )?)),
            CommandFault::Script(fault) => self.script_reason(alloc, fault),
            CommandFault::Boot(number) => self.boot_reason(alloc, *number),
            _ => Ok(None),
        }
    }

    /// Why the script wasn't read.
    fn reading_reason(&self, alloc: Global, name: &str) -> Result<String, AllocError> {
        let name = match name {
            "-" => "standard input",
            "" => "an empty SCRIPT",
            _ => name,
        };
        match self.failure {
            Some(error) => format!(in alloc; "{name}: {error}"),
            None => format!(in alloc; "no random keys for the hash of names"),
        }
    }

    /// Why a line of the kept text is at fault, in lines for standard error.
    fn script_reason(
        &self,
        alloc: Global,
        fault: &ScriptFault,
    ) -> Result<Option<String>, AllocError> {
        let Some(text) = self.explained() else {
            return Ok(None);
        };
        match explain(alloc, text, fault)? {
            Some(explanation) => Ok(Some(format!(in alloc; "{explanation}")?)),
            None => Ok(None),
        }
    }

    /// Why no layer was made.
    fn boot_reason(&self, alloc: Global, fault: u8) -> Result<Option<String>, AllocError> {
        let Some(text) = self.explained() else {
            return Ok(None);
        };
        let explanation = explain_boot(alloc, text, fault)?;
        Ok(Some(format!(in alloc; "{explanation}")?))
    }
}

/// Why a line is at fault behind those that were read, in lines for standard error. It takes time in proportion to the
/// line, however many were read.
///
/// # Errors
///
/// `AllocError` where memory runs out.
pub fn line_reason(
    alloc: Global,
    read: &LineReader,
    line: &[u8],
    fault: &ScriptFault,
) -> Result<Option<String>, AllocError> {
    match explain_line(alloc, read, line, fault)? {
        Some(explanation) => Ok(Some(format!(in alloc; "{explanation}")?)),
        None => Ok(None),
    }
}

/// A reader whose bytes are kept.
#[derive(Debug, Drop)]
pub struct Kept<R> {
    reader: R,
    source: Source,
}

impl<R: Read + Drop> Kept<R> {
    /// The same reader, of which nothing was kept yet.
    pub fn new(alloc: Global, reader: R) -> Kept<R> {
        let source = Source::new(alloc);
        Kept { reader, source }
    }

    /// Reads on up to the end, as long as what is read is kept.
    pub fn read_rest(&mut self) {
        let mut chunk = [0; 4096];
        for _ in 0..KEPT_LIMIT {
            match self.read(&mut chunk) {
                Ok(count) if count > 0 && self.source.text.is_some() => {}
                _ => return,
            }
        }
    }

    /// What was read.
    pub fn into_source(self) -> Source {
        self.source
    }
}

impl<R: Read> Read for Kept<R> {
    ghost remaining = { λ kept. R.remaining kept.reader };

    fn read(&mut self, buffer: &mut [u8]) -> io::Result<usize> {
        let result = self.reader.read(buffer);
        match &result {
            Ok(count) => self.source.keep(&buffer[..*count]),
            Err(error) => self.source.fail(*error),
        }
        result
    }
}
