//! The script that was named, and what its calls are expected to answer.

use crate::naming::{is_of_a_line, script_as_typed};
use std::alloc::Global;
use std::io::{ErrorKind, Read};
use std::random::RandomSource;
use std::rt::Files;
use std::{fs, io};
use ux_command::{Args, CommandFault, Kept, Source};
use ux_syntax::{
    Act, Expectation, Script, ScriptFault, expectations_of, parse_script, read_script,
};
use ux_types::Request;

/// A script that was read.
#[derive(Debug, Drop)]
pub struct ReadScript {
    pub script: Script,
    /// What its calls are expected to answer, where that is asked for.
    pub expected: Vec<Expectation>,
    /// Whether it has the line `wide`: it may have all calls, as a serial script, and has more than one order.
    pub wide: bool,
}

impl ReadScript {
    /// Whether its calls may be made in another order than that of its lines.
    fn has_orders(&self) -> bool {
        !self.script.serial || self.wide
    }

    /// Whether another process than 1 forks, so that the numbers of its children depend on the order.
    fn forks_elsewhere(&self) -> bool {
        self.script.lines.iter().any(|line| line.pid.0 != 1
            && matches!(&line.act, Act::Call(Request::Fork)))
    }

    /// Sees that the script can be run in the orders that are asked for, if any are.
    pub fn must_have_orders(&self, args: &Args<'_>) -> Result<(), CommandFault> {
        if args.order.is_none() && args.orders.is_none() {
            return Ok(());
        }
        if !self.has_orders() {
            return Err(CommandFault::Script(ScriptFault::OneOrder));
        }
        if self.forks_elsewhere() {
            return Err(CommandFault::ForksElsewhere);
        }
        Ok(())
    }
}

/// The script that was named. What its calls are expected to answer is looked for only where it is asked for. What was
/// read is left in `source`.
pub fn script_of<R: Files + Input + RandomSource + AllocGlobal>(
    rt: &R,
    args: &Args<'_>,
    source: &mut Source,
) -> Result<ReadScript, CommandFault> {
    match plain_script_of(rt, args, source) {
        Err(fault) if is_of_a_line(&fault) && source.text().is_some() => {
            script_as_typed(rt, args, source)
        }
        Err(fault) => Err(fault.into()),
        Ok((script, expected)) => Ok(ReadScript {
            script,
            expected,
            wide: false,
        }),
    }
}

/// The script that was named, where it is typed as `parse_script` takes it.
fn plain_script_of<R: Files + Input + AllocGlobal>(
    rt: &R,
    args: &Args<'_>,
    source: &mut Source,
) -> Result<(Script, Vec<Expectation>), ScriptFault> {
    let alloc: Global = rt.alloc();
    if args.script == "-" {
        return read_kept(alloc, args, rt.reader(), source);
    }
    match fs::open(rt, args.script) {
        Ok(file) => read_kept(alloc, args, file, source),
        Err(error) => {
            source.fail(error);
            Err(fault_of(&error))
        }
    }
}

/// Reads the script and leaves what was read: all of it, also where a line is at fault.
fn read_kept<R: Read + Drop>(
    alloc: Global,
    args: &Args<'_>,
    reader: R,
    source: &mut Source,
) -> Result<(Script, Vec<Expectation>), ScriptFault> {
    let mut reader = Kept::new(alloc, reader);
    let read = read_named(alloc, args, &mut reader);
    if let Err(fault) = &read {
        if is_of_a_line(fault) {
            reader.read_rest();
        }
    }
    *source = reader.into_source();
    read
}

/// Reads the script once: to the first line at fault, or to its end, where its text is read a second time for what is
/// expected.
fn read_named<R: Read>(
    alloc: Global,
    args: &Args<'_>,
    reader: &mut R,
) -> Result<(Script, Vec<Expectation>), ScriptFault> {
    if !args.expect && !args.update {
        let script = read_script(alloc, reader)?;
        return Ok((script, Vec::new(alloc)));
    }
    let mut text = Vec::new(alloc);
    if let Err(error) = reader.read_to_end(&mut text) {
        return Err(fault_of(&error));
    }
    let script = parse_script(alloc, &text)?;
    let expected = expectations_of(alloc, &text)?;
    Ok((script, expected))
}

/// Why a script can't be read.
pub(crate) fn fault_of(error: &io::Error) -> ScriptFault {
    if error.kind() == ErrorKind::OutOfMemory {
        return ScriptFault::NoMemory;
    }
    ScriptFault::Reading
}
