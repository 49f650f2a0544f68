//! Makes the calls of a script with names once, so that each name gets what the call before it gave, and writes the script
//! without names that it stands for.

ghost use Rattle.std.specs.Prelude.{◌≡◌, []};
ghost use Rattle.ux_model.specs.Boot.{IsBootState};

use crate::fault::NameFault;
use crate::line::{
    Asking, header_line, is_of_process, name_process, parts_of_line, process_of, with_numbers,
    with_processes,
};
use crate::names::Names;
use std::alloc::Global;
use std::marker::Brand;
use ux_book::{BookName, Serial, Trail};
use ux_kernel::Kernel;
use ux_object::FileObject;
use ux_script::make_call;
use ux_session::leads;
use ux_state::State;
use ux_syntax::{Act, LineReader, Script, expected_in, plain_line, split_lines};
use ux_types::{Pid, Reply};

/// A script with names, of which the header was read.
#[derive(Drop)]
pub struct NamedScript<'a> {
    lines: Vec<&'a [u8]>,
    /// How many of the lines were read.
    place: usize,
    names: Names,
    reader: LineReader,
    /// The lines that were read, without names.
    text: Vec<u8>,
    /// Whose call the last line asked for.
    asked: Option<Pid>,
}

impl<'a> NamedScript<'a> {
    /// Reads the header of a script: its lines up to the first of a process.
    ///
    /// # Errors
    ///
    /// The first fault of a process's name, and `NoMemory`.
    pub fn read(alloc: Global, text: &'a [u8]) -> Result<NamedScript<'a>, NameFault> {
        let mut script = NamedScript {
            lines: split_lines(alloc, text)?,
            place: 0,
            names: Names::new(alloc),
            reader: LineReader::new(alloc),
            text: Vec::new(alloc),
            asked: None,
        };
        for place in 0..script.lines.len() {
            if is_of_process(script.line(place)) {
                return Ok(script);
            }
            script.read_header_line(alloc, place)?;
        }
        Ok(script)
    }

    fn read_header_line(&mut self, alloc: Global, place: usize) -> Result<(), NameFault> {
        let count = u32::try_from(self.reader.process_count()).unwrap_or(u32::MAX);
        let next = Pid(count.saturating_add(1));
        let text = self.line(place);
        let plain = header_line(alloc, &mut self.names, next, line_at(place), text)?;
        self.add(place, &plain)?;
        let _read = self.reader.read_line(alloc, line_at(place), &plain);
        Ok(())
    }

    /// The line at this place, or an empty one behind the last.
    fn line(&self, place: usize) -> &'a [u8] {
        self.lines.get(place).copied().unwrap_or(&[])
    }

    /// What its header says.
    pub fn script(&self) -> &Script {
        self.reader.script()
    }

    /// Adds a line that was read.
    fn add(&mut self, place: usize, line: &[u8]) -> Result<(), NameFault> {
        if place > 0 {
            self.text.extend_from_slice(b"\n")?;
        }
        self.text.extend_from_slice(line)?;
        self.place = line_at(place);
        Ok(())
    }

    /// Adds the lines that are left, as they are.
    fn add_rest(&mut self) -> Result<(), NameFault> {
        for place in self.place..self.lines.len() {
            let line = self.line(place);
            self.add(place, line)?;
        }
        Ok(())
    }

    /// Reads a line that is no process's: a comment says what the last call is expected to reply. Gives whether it isn't at
    /// fault.
    fn read_other<O: FileObject>(
        &mut self,
        alloc: Global,
        state: &State<O>,
        place: usize,
    ) -> Result<bool, NameFault> {
        let text = self.line(place);
        let plain = match (self.asked, expected_in(alloc, text)?) {
            (Some(pid), Some(reply)) if reply.as_slice().contains(&b'$') => {
                let scope = self.names.scope(alloc, state, pid)?;
                let reply = reply.as_slice();
                let numbers = with_numbers(alloc, &self.names, &scope, pid, line_at(place), reply)?;
                let mut plain = Vec::from_slice(alloc, b"#= ")?;
                plain.extend_from_slice(&numbers)?;
                plain
            }
            _ => Vec::from_slice(alloc, text)?,
        };
        self.add(place, &plain)?;
        Ok(self.reader.read_line(alloc, line_at(place), &plain).is_ok())
    }

    /// The line of a process without names, and the names of what its call gives.
    fn resolve<O: FileObject>(
        &self,
        alloc: Global,
        state: &State<O>,
        line: usize,
        asking: &Asking<'_>,
    ) -> Result<Option<Resolved>, NameFault> {
        let called = with_processes(alloc, &self.names, asking.call)?;
        let Some(pid) = process_of(&called) else {
            return Ok(None);
        };
        let scope = self.names.scope(alloc, state, pid)?;
        let plain = with_numbers(alloc, &self.names, &scope, pid, line, &called)?;
        Ok(Some(Resolved { plain, pid }))
    }

    /// Reads the line at this place, and makes its call. Gives whether the script goes on: it ends with a line at fault, and
    /// with a call that isn't made.
    fn run_line<W: BookName, O: FileObject>(
        &mut self,
        alloc: Global,
        serial: &mut Serial<W, O>,
        place: usize,
    ) -> Result<bool, NameFault> {
        let text = self.line(place);
        if !is_of_process(text) {
            return self.read_other(alloc, serial.state(), place);
        }
        let plain = text_of(alloc, text)?;
        let asking = parts_of_line(alloc, line_at(place), &plain)?;
        let Some(resolved) = self.resolve(alloc, serial.state(), line_at(place), &asking)? else {
            return Ok(false);
        };
        self.add(place, &resolved.plain)?;
        self.asked = Some(resolved.pid);
        let count = self.reader.script().lines.len();
        if self
            .reader
            .read_line(alloc, line_at(place), &resolved.plain)
            .is_err()
        {
            return Ok(false);
        }
        match self.make(serial, count) {
            Some(true) => {
                self.name_given(alloc, serial, line_at(place), &asking.names)?;
                Ok(true)
            }
            made => Ok(made.is_some()),
        }
    }

    /// Makes the call of the script's line of this number. Gives whether the line asks for one; none where it isn't made.
    fn make<W: BookName, O: FileObject>(
        &self,
        serial: &mut Serial<W, O>,
        number: usize,
    ) -> Option<bool> {
        let Some(line) = self.reader.script().lines.get(number) else {
            return Some(false);
        };
        match &line.act {
            Act::Call(request) => make_call(serial, line.pid, request).ok().map(|_| true),
            Act::Wait(..) => Some(false),
        }
    }

    /// Names what the last call gave.
    fn name_given<W: BookName, O: FileObject>(
        &mut self,
        alloc: Global,
        serial: &Serial<W, O>,
        line: usize,
        names: &[&[u8]],
    ) -> Result<(), NameFault> {
        let Some(entry) = serial.entries().last() else {
            return Ok(());
        };
        if let Reply::Child(child) = entry.reply {
            return self.name_child(alloc, entry.pid, child, line, names);
        }
        let leads = leads(alloc, serial.state(), entry)?;
        for (place, name) in names.iter().enumerate() {
            let lead = leads.get(place).copied();
            self.names.give(alloc, entry.pid, name, lead, line)?;
        }
        Ok(())
    }

    /// Names a child, which has its parent's names.
    fn name_child(
        &mut self,
        alloc: Global,
        parent: Pid,
        child: Pid,
        line: usize,
        names: &[&[u8]],
    ) -> Result<(), NameFault> {
        self.names.inherit(alloc, parent, child)?;
        match names.first() {
            Some(name) => name_process(alloc, &mut self.names, child, line, name),
            None => Ok(()),
        }
    }

    /// The script without names that it stands for, line for line: its calls are made once, on a kernel that has just started
    /// with the processes of its header, so that each name gets what its call gave. The lines behind one at fault stay as they
    /// are.
    ///
    /// # Errors
    ///
    /// The first fault of a name, and `NoMemory`.
    pub fn plain_text<O: FileObject>(
        self,
        alloc: Global,
        kernel: Kernel<O>,
    ) -> Result<Vec<u8>, NameFault>
        requires boots { IsBootState kernel }
    {
        let mut script = self;
        let trail = Trail::new(alloc).map_err(|_| NameFault::NoMemory)?;
        run_lines::<Brand, O>(alloc, trail, &mut script, kernel)?;
        script.add_rest()?;
        Ok(script.text)
    }
}

/// The number of the line at this place, counted from 1.
fn line_at(place: usize) -> usize {
    place.saturating_add(1)
}

/// A process's line without names.
#[derive(Drop)]
struct Resolved {
    plain: Vec<u8>,
    pid: Pid,
}

/// A line with its text in digits where it may have names, and as it is written else.
fn text_of(alloc: Global, text: &[u8]) -> Result<Vec<u8>, NameFault> {
    let named = text.contains(&b'$') || text.contains(&b'>');
    let plain = if named {
        plain_line(alloc, text)?
    } else {
        None
    };
    match plain {
        Some(plain) => Ok(plain),
        None => Ok(Vec::from_slice(alloc, text)?),
    }
}

/// Makes the calls of the lines behind the header, up to one at fault.
fn run_lines<W: BookName, O: FileObject>(
    alloc: Global,
    trail: Trail,
    script: &mut NamedScript<'_>,
    kernel: Kernel<O>,
) -> Result<(), NameFault>
    requires trail { trail ≡ record { id = W.trail; entries = []; given = 0 } }
    requires boots { IsBootState kernel }
    requires named { kernel ≡ W.boot }
{
    let Ok(mut serial) = Serial::<W, O>::new(alloc, trail, kernel) else {
        return Err(NameFault::NoMemory);
    };
    for place in script.place..script.lines.len() {
        if !script.run_line(alloc, &mut serial, place)? {
            return Ok(());
        }
    }
    Ok(())
}
