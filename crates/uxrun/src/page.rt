//! A page of the run, or of all outcomes.

use crate::machines::boot_without_faults;
use crate::moments::fault_of;
use std::alloc::Global;
use std::fs;
use std::random::RandomSource;
use std::rt::Files;
use ux_command::CommandFault;
use ux_page::{Page, RunText};
use ux_script::line_numbers;
use ux_syntax::Script;
use ux_types::Entry;

/// Adds a run to the page, whose calls are made once more. `end` says why it goes no further.
pub fn add_run<R: RandomSource + AllocGlobal>(
    rt: &R,
    page: &mut Page,
    title: &str,
    script: &Script,
    history: &[Entry],
    end: &str,
) -> Result<(), CommandFault> {
    let alloc: Global = rt.alloc();
    let lines = line_numbers(alloc, script, history)?;
    let mut kernel = boot_without_faults(rt, script)?;
    let run = RunText {
        title,
        lines: &lines,
        history,
        end,
    };
    page.add_run(alloc, &run, &mut kernel).map_err(fault_of)
}

/// Writes the page to this file.
pub fn write_page<R: Files + AllocGlobal>(
    rt: &R,
    file: &str,
    page: Page,
) -> Result<(), CommandFault> {
    let text = page.finish()?;
    fs::write(rt, file, text.as_slice()).map_err(|_| CommandFault::Page)
}

/// Writes a page of one run.
pub fn write_run<R: Files + RandomSource + AllocGlobal>(
    rt: &R,
    file: &str,
    name: &str,
    script: &Script,
    history: &[Entry],
    end: &str,
) -> Result<(), CommandFault> {
    let mut page = Page::new(rt.alloc(), name)?;
    add_run(rt, &mut page, "calls", script, history, end)?;
    write_page(rt, file, page)
}
