//! A script that is read line by line, as it comes.

ghost use Rattle.std.specs.Prelude.{◌≡◌, ◌<◌, true, [], ◌∷◌, OnErr};
ghost use Rattle.ux_syntax.specs.Spelling.{Plan, plan_of, known_count};
ghost use Rattle.ux_syntax.specs.Reading.{no_lines, lines_at};
ghost use Rattle.ux_syntax.specs.Results.{ReadsOn};
ghost use Rattle.ux_syntax.specs.Joining.{is_begun, Continues};
ghost use Rattle.ux_syntax.specs.Turns.{has_exited};

use crate::fault::ScriptFault;
use crate::reading::Reader;
use crate::script::Script;
use std::alloc::Global;
use std::marker::Model;
use ux_types::Pid;

/// A script as far as its lines were read. A line at fault leaves it as it was, so that reading can continue behind it.
/// Contracts see what the lines say.
#[derive(Drop)]
pub struct LineReader {
    reader: Reader,
}

impl Model for LineReader {
    ghost use Rattle.ux_syntax.specs.Spelling.{Plan, plan_of};
    ghost use Rattle.ux_syntax.specs.Results.{KnowsExits};

    ghost Value = { Plan };

    ghost view = { λ r. plan_of r.reader.script };

    ghost invariant = { λ r. KnowsExits (plan_of r.reader.script) r.reader.exited.items };
}

impl LineReader {
    /// Nothing was read yet.
    pub fn new(alloc: Global) -> LineReader
        ensures { result ≡ no_lines }
    {
        LineReader {
            reader: Reader::new(alloc),
        }
    }

    /// What the lines say that were read so far.
    pub fn script(&self) -> &Script
        ensures { plan_of result.now ≡ self.now }
    {
        &self.reader.script
    }

    /// How many processes are known so far: those of the header, and one for each fork line. It takes the same time
    /// however many lines there are, as `has_exited` does.
    pub fn process_count(&self) -> usize
        ensures { result ≡ known_count self.now }
    {
        self.reader.exited.len()
    }

    /// Whether the process has made its exit. One that isn't known hasn't.
    pub fn has_exited(&self, pid: Pid) -> bool
        ensures { 0 < pid.0 → result ≡ has_exited (Plan.lines self.now) pid.0 }
    {
        if pid.0 == 0 {
            return false;
        }
        match self.reader.exited.get(pid.0 as usize - 1) {
            Some(exited) => *exited,
            None => false,
        }
    }

    /// Whether the header is over: a line of a process was read, or the end of the layer.
    pub fn is_begun(&self) -> bool
        ensures { result ≡ is_begun self.now }
    {
        let script = &self.reader.script;
        !script.lines.is_empty() || script.off
    }

    /// Reads one line more, without its line feed, and adds what it says. The number is for the fault, and for the line of a
    /// process.
    ///
    /// # Errors
    ///
    /// `BadLine`, `UnknownProcess` or `TooLong` of this number, and `NoMemory`.
    pub fn read_line(
        &mut self,
        alloc: Global,
        number: usize,
        text: &[u8],
    ) -> Result<(), ScriptFault>
        // The line is taken, or at fault, as it would be in a script behind the lines that were taken.
        ensures reads { ReadsOn result self.new (lines_at number self.old (text.now ∷ [])) }
        ensures same { OnErr result (self.new ≡ self.old) }
        // Once the header is over no process is added, and no line before those that are there.
        ensures continues { is_begun self.old ≡ true → Continues self.old self.new }
    {
        match self.reader.read_line(alloc, number, text) {
            Ok(()) => Ok(()),
            Err(error) => Err(error.at(number)),
        }
    }
}
