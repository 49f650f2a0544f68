//! What a script has come to after some of its calls.
ghost use Rattle.std.specs.Prelude.{◌≡◌, map, IfOk};
ghost use Rattle.ux_model.specs.Boot.{IsBootState, new_process};

use std::alloc::Global;
use std::test::Fail;
use ux_holders::{Snapshot, take_snapshot};
use ux_kernel::Kernel;
use ux_objects::FailAt;
use ux_page::{Page, RunText};
use ux_replay::replay_on;
use ux_script::{line_numbers, make_serial, objects_of};
use ux_sequence::sequence;
use ux_syntax::{Script, parse_script};
use ux_types::Entry;

/// A script with its history.
#[derive(Drop)]
pub(crate) struct Run {
    script: Script,
    history: Vec<Entry>,
}

impl Run {
    /// Makes the calls of a script.
    pub(crate) fn of(alloc: Global, text: &str) -> Result<Run, Fail> {
        let script = parse_script(alloc, text.as_bytes())?;
        let kernel = kernel_of(alloc, &script)?;
        let history = make_serial(alloc, &script, kernel)?;
        Ok(Run { script, history })
    }

    /// How many calls were made.
    pub(crate) fn len(&self) -> usize {
        self.history.len()
    }

    /// Who holds what after the first so many calls.
    pub(crate) fn after(&self, alloc: Global, count: usize) -> Result<Snapshot, Fail> {
        let Some(entries) = self.history.get(..count) else {
            return Err(Fail::from("fewer calls"));
        };
        let mut kernel = kernel_of(alloc, &self.script)?;
        match replay_on(alloc, entries, &mut kernel) {
            Ok(_count) => Ok(take_snapshot(alloc, kernel.state())?),
            Err(_fault) => Err(Fail::from("a replay that differs")),
        }
    }

    /// The sequence diagram of all calls.
    pub(crate) fn diagram(&self, alloc: Global) -> Result<String, Fail> {
        let kernel = kernel_of(alloc, &self.script)?;
        let lines = line_numbers(alloc, &self.script, &self.history)?;
        match sequence(alloc, &lines, &self.history, kernel) {
            Ok(text) => Ok(text),
            Err(_fault) => Err(Fail::from("a replay that differs")),
        }
    }

    /// The page of all calls.
    pub(crate) fn page(&self, alloc: Global) -> Result<String, Fail> {
        let mut kernel = kernel_of(alloc, &self.script)?;
        let lines = line_numbers(alloc, &self.script, &self.history)?;
        let run = RunText {
            title: "calls",
            lines: &lines,
            history: &self.history,
            end: "",
        };
        let mut page = Page::new(alloc, "a.ux")?;
        if page.add_run(alloc, &run, &mut kernel).is_err() {
            return Err(Fail::from("a replay that differs"));
        }
        let text = page.finish()?;
        String::from_utf8(text).map_err(|_| Fail::from("a page that isn't UTF-8"))
    }
}

/// A kernel of a script's processes over its file objects.
fn kernel_of(alloc: Global, script: &Script) -> Result<Kernel<FailAt>, Fail>
    ensures boots { IfOk result (λ kernel. IsBootState kernel) }
    ensures processes { IfOk result (λ kernel. kernel.processes ≡ map new_process script.now.procs.items) }
{
    let objects = objects_of(alloc, script, true)?;
    match Kernel::boot(alloc, objects, &script.procs) {
        Ok(kernel) => Ok(kernel),
        Err(_) => Err(Fail::from("no kernel")),
    }
}
