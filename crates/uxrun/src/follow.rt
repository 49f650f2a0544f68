//! A script that is run as it comes.

use crate::machines::boot;
use crate::print_rest;
use crate::reading::fault_of;
use std::alloc::{AllocError, Global};
use std::io::{BufReader, BufWriter, Read};
use std::random::RandomSource;
use std::rt::{Clock, Files};
use std::sync::Wait;
use std::thread::Threads;
use std::{fs, io};
use ux_command::{Args, CommandFault, Source, line_reason};
use ux_script::{Followed, LineSource, Listener, follow, read_header};
use ux_syntax::{LineReader, ScriptFault};

/// Reports the lines that are left out, counts them, and keeps the others, from which a boot fault is explained.
struct Report<'a, R> {
    rt: &'a R,
    kept: &'a mut Source,
    count: usize,
}

// Not derived, since it asks nothing of `R`.
impl<R> Drop for Report<'_, R> {
    fn drop(self) {
        let Report {
            rt: _,
            kept: _,
            count: _,
        } = self;
    }
}

impl<R: Eprint + AllocGlobal> Listener for Report<'_, R> {
    fn taken(&mut self, text: &[u8]) {
        self.kept.add_line(text);
    }

    fn left_out(&mut self, taken: &LineReader, text: &[u8], fault: &ScriptFault) {
        let _ = eprintln!(self.rt; "uxrun: {fault}");
        if let Ok(Some(reason)) = line_reason(self.rt.alloc(), taken, text, fault) {
            let _ = eprintln!(self.rt; "{reason}");
        }
        // An empty line, so that the lines behind it keep their numbers.
        self.kept.add_line(b"");
        self.count = self.count.saturating_add(1);
    }
}

/// Runs the script that was named as it comes, and prints its trace line by line.
pub fn follow_script<
    R: Files + Input + Threads + Wait + Clock + Print + Eprint + RandomSource + AllocGlobal + Sync,
>(rt: &R, args: &Args<'_>, kept: &mut Source) -> Result<(), CommandFault> {
    if args.script == "-" {
        return follow_source(rt, args, rt.reader(), kept);
    }
    match fs::open(rt, args.script) {
        Ok(file) => follow_source(rt, args, file, kept),
        Err(error) => {
            kept.fail(error);
            Err(CommandFault::Script(fault_of(&error)))
        }
    }
}

/// Runs the script that this source has. What is at fault is reported at once, and counted at last.
fn follow_source<
    R: Files + Threads + Wait + Clock + Print + Eprint + RandomSource + AllocGlobal + Sync,
    S: Read + Drop,
>(rt: &R, args: &Args<'_>, source: S, kept: &mut Source) -> Result<(), CommandFault> {
    let alloc: Global = rt.alloc();
    let buffer = BufReader::new(alloc, source).map_err(|_| AllocError)?;
    let mut lines = LineSource::new(buffer);
    let mut report = Report { rt, kept, count: 0 };
    let run = follow_lines(rt, &mut lines, &mut report);
    if let Some(error) = lines.failure() {
        report.kept.fail(error);
    }
    let Followed { reader, history } = run?;
    let count = report.count;
    print_rest(rt, args, reader.script(), history)?;
    if count > 0 {
        return Err(CommandFault::LeftOut(count));
    }
    Ok(())
}

/// Boots the layer behind the header, and makes the calls of the lines that come.
fn follow_lines<R: Print + Eprint + RandomSource + AllocGlobal, S: Read + Drop>(
    rt: &R,
    lines: &mut LineSource<BufReader<S>>,
    report: &mut Report<'_, R>,
) -> Result<Followed, CommandFault> {
    let alloc: Global = rt.alloc();
    let reader = read_header(alloc, lines, report)?;
    let kernel = boot(rt, reader.script())?;
    let mut writer = BufWriter::new(alloc, io::writer(rt)).map_err(|_| AllocError)?;
    Ok(follow(alloc, reader, lines, &mut writer, report, kernel)?)
}
