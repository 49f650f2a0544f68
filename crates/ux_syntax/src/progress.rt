//! A script that is read byte by byte, which stops at the first line at fault.

ghost use Rattle.std.specs.Prelude.{◌≡◌, ◌+◌, ◌^◌, ◌<◌, ◌≤◌, ℕ, List, [], ◌∷◌, ◌++◌, length, IfErr, OnOk};
ghost use Rattle.ux_syntax.specs.Spelling.{plan_of};
ghost use Rattle.ux_syntax.specs.Reading.{no_lines};
ghost use Rattle.ux_syntax.specs.Results.{FailsAt, GivesScript, KnowsExits};
ghost use Rattle.ux_syntax.specs.Continuing.{continued};

use crate::fault::ScriptFault;
use crate::reading::Reader;
use crate::script::Script;
use std::alloc::Global;

/// What the lines said that were read to their ends, and the line that is being read.
#[derive(Drop)]
pub(crate) struct Progress {
    reader: Reader,
    /// The line's number, counted from 1, and its bytes so far.
    number: usize,
    line: Vec<u8>,
}

impl Progress {
    /// Nothing was read yet.
    pub(crate) fn new(alloc: Global) -> Progress
        ensures nothing { plan_of result.reader.script ≡ no_lines }
        ensures number { result.number ≡ 1 }
        ensures line { result.line.items ≡ [] }
        ensures exits { KnowsExits (plan_of result.reader.script) result.reader.exited.items }
    {
        Progress {
            reader: Reader::new(alloc),
            number: 1,
            line: Vec::new(alloc),
        }
    }

    /// Takes in these bytes.
    ///
    /// # Errors
    ///
    /// The fault of the first line that has one, or `NoMemory`.
    pub(crate) fn take_bytes(&mut self, alloc: Global, bytes: &[u8]) -> Result<(), ScriptFault>
        requires exits { KnowsExits (plan_of self.old.reader.script) self.old.reader.exited.items }
        requires numbers { self.old.number + length bytes.now < 2 ^ 64 }
        ensures ok { OnOk result ((rest : List ℕ) → continued (plan_of self.old.reader.script) self.old.number self.old.line.items (bytes.now ++ rest)
            ≡ continued (plan_of self.new.reader.script) self.new.number self.new.line.items rest) }
        ensures exits { OnOk result (KnowsExits (plan_of self.new.reader.script) self.new.reader.exited.items) }
        ensures number { OnOk result (self.new.number ≤ self.old.number + length bytes.now) }
        ensures fault { IfErr result (λ f. (rest : List ℕ) → FailsAt f (continued (plan_of self.old.reader.script) self.old.number self.old.line.items (bytes.now ++ rest))) }
    {
        for byte in bytes {
            self.take_byte(alloc, *byte)?;
        }
        Ok(())
    }

    /// Takes in one byte: the end of a line, or a further byte of it.
    #[tactic(auto, using(crate::proofs::Feeding::too_long, crate::proofs::Feeding::byte_joins))]
    fn take_byte(&mut self, alloc: Global, byte: u8) -> Result<(), ScriptFault>
        requires exits { KnowsExits (plan_of self.old.reader.script) self.old.reader.exited.items }
        requires numbers { self.old.number + 1 < 2 ^ 64 }
        ensures ok { OnOk result ((rest : List ℕ) → continued (plan_of self.old.reader.script) self.old.number self.old.line.items (byte ∷ rest)
            ≡ continued (plan_of self.new.reader.script) self.new.number self.new.line.items rest) }
        ensures exits { OnOk result (KnowsExits (plan_of self.new.reader.script) self.new.reader.exited.items) }
        ensures number { OnOk result (self.new.number ≤ self.old.number + 1) }
        ensures fault { IfErr result (λ f. (rest : List ℕ) → FailsAt f (continued (plan_of self.old.reader.script) self.old.number self.old.line.items (byte ∷ rest))) }
    {
        if byte == b'\n' {
            return self.end_line(alloc);
        }
        if self.line.len() >= self.reader.script.line_limit() {
            return Err(ScriptFault::TooLong(self.number));
        }
        self.line.push(byte)?;
        Ok(())
    }

    /// Reads the line that has ended, and begins the next.
    #[tactic(auto, using(crate::proofs::Feeding::line_ends, crate::proofs::Feeding::line_fails))]
    fn end_line(&mut self, alloc: Global) -> Result<(), ScriptFault>
        requires exits { KnowsExits (plan_of self.old.reader.script) self.old.reader.exited.items }
        requires numbers { self.old.number + 1 < 2 ^ 64 }
        ensures ok { OnOk result ((rest : List ℕ) → continued (plan_of self.old.reader.script) self.old.number self.old.line.items (10 ∷ rest)
            ≡ continued (plan_of self.new.reader.script) self.new.number self.new.line.items rest) }
        ensures exits { OnOk result (KnowsExits (plan_of self.new.reader.script) self.new.reader.exited.items) }
        ensures number { OnOk result (self.new.number ≤ self.old.number + 1) }
        ensures fault { IfErr result (λ f. (rest : List ℕ) → FailsAt f (continued (plan_of self.old.reader.script) self.old.number self.old.line.items (10 ∷ rest))) }
    {
        if let Err(error) = self.reader.read_line(alloc, self.number, &self.line) {
            return Err(error.at(self.number));
        }
        self.line.clear();
        self.number += 1;
        Ok(())
    }

    /// The script, where no byte is left. The last line may have no line feed.
    #[tactic(auto, using(crate::proofs::Feeding::last_line, crate::proofs::Feeding::last_fails))]
    pub(crate) fn finish(self, alloc: Global) -> Result<Script, ScriptFault>
        requires { KnowsExits (plan_of self.reader.script) self.reader.exited.items }
        ensures { GivesScript result (continued (plan_of self.reader.script) self.number self.line.items []) }
    {
        let Progress {
            mut reader,
            number,
            line,
        } = self;
        match reader.read_line(alloc, number, &line) {
            Ok(()) => Ok(reader.script),
            Err(error) => Err(error.at(number)),
        }
    }
}
