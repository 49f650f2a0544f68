//! The page.

use crate::escape::{put_escaped, put_in_script};
use crate::moments::Moment;
use crate::texts::{BEFORE_DATA, BEFORE_HEADING, BEFORE_RUNS, BEFORE_TITLE, END};
use std::alloc::{AllocError, Global};
use ux_kernel::Kernel;
use ux_object::FileObject;
use ux_replay::{ReplayFault, replay_entry};
use ux_state::ReleasedObjects;
use ux_trace::{CallWord, echo_text, errno_name};
use ux_types::{Entry, Reply};

/// A run that is shown.
#[derive(Drop)]
pub struct RunText<'a> {
    /// What it is.
    pub title: &'a str,
    /// The line of the script that asks for each call, where one does.
    pub lines: &'a [Option<usize>],
    /// Its calls.
    pub history: &'a [Entry],
    /// Why it goes no further; empty where it is whole.
    pub end: &'a str,
}

/// A page to which runs are added.
#[derive(Drop)]
pub struct Page {
    /// The page up to the last of its runs.
    text: Vec<u8>,
    /// What is held at each call of each run, as JSON: a list that isn't closed.
    data: String,
    /// How many runs there are.
    runs: usize,
}

impl Page {
    /// A page of this name, without runs.
    ///
    /// # Errors
    ///
    /// Out of memory.
    pub fn new(alloc: Global, name: &str) -> Result<Page, AllocError> {
        let mut text = Vec::new(alloc);
        text.extend_from_slice(BEFORE_TITLE.as_bytes())?;
        put_escaped(&mut text, name.as_bytes())?;
        text.extend_from_slice(BEFORE_HEADING.as_bytes())?;
        put_escaped(&mut text, name.as_bytes())?;
        text.extend_from_slice(BEFORE_RUNS.as_bytes())?;
        Ok(Page {
            text,
            data: String::from_str(alloc, "[")?,
            runs: 0,
        })
    }

    /// Adds a run, whose calls are made once more on a kernel that is as that of the run was at first.
    ///
    /// # Errors
    ///
    /// The number of the first call that isn't answered as in the run, or for which memory lacks.
    pub fn add_run<O: FileObject>(
        &mut self,
        alloc: Global,
        run: &RunText<'_>,
        kernel: &mut Kernel<O>,
    ) -> Result<(), ReplayFault> {
        self.put_list(alloc, run).map_err(no_memory)?;
        self.put_start(alloc, kernel).map_err(no_memory)?;
        let mut moment = Moment::of(alloc, kernel.state()).map_err(no_memory)?;
        let mut released = ReleasedObjects::new(alloc);
        for (number, entry) in run.history.iter().enumerate() {
            replay_entry(kernel, number as u64, entry, &mut released)?;
            let after = Moment::of(alloc, kernel.state()).map_err(no_memory)?;
            let between = if number > 0 { "," } else { "" };
            self.put_call(alloc, between, entry, &moment, &after)
                .map_err(no_memory)?;
            moment = after;
        }
        self.data.push_str("]}").map_err(no_memory)?;
        self.runs = self.runs.saturating_add(1);
        Ok(())
    }

    /// The whole page.
    ///
    /// # Errors
    ///
    /// Out of memory.
    pub fn finish(self) -> Result<Vec<u8>, AllocError> {
        let Page {
            mut text,
            mut data,
            runs: _,
        } = self;
        data.push(']')?;
        text.extend_from_slice(BEFORE_DATA.as_bytes())?;
        put_in_script(&mut text, data.as_bytes())?;
        text.extend_from_slice(END.as_bytes())?;
        Ok(text)
    }

    /// Appends the calls of a run as a list that can be read without the page's script, and why it goes no further.
    fn put_list(&mut self, alloc: Global, run: &RunText<'_>) -> Result<(), AllocError> {
        let runs = self.runs;
        self.put_text(format!(in alloc; "<section class=\"run\" id=\"run-{runs}\">\n<h2>")?)?;
        put_escaped(&mut self.text, run.title.as_bytes())?;
        self.text
            .extend_from_slice(b"</h2>\n<ol class=\"calls\">\n")?;
        for (number, entry) in run.history.iter().enumerate() {
            let line = run.lines.get(number).copied().flatten();
            let text = echo_text(alloc, line, entry)?;
            self.put_item(alloc, number, text.as_str().trim_end())?;
        }
        self.text.extend_from_slice(b"</ol>\n")?;
        if !run.end.is_empty() {
            self.put_end(run.end)?;
        }
        self.text.extend_from_slice(b"</section>\n")
    }

    /// Appends a call of that list.
    fn put_item(&mut self, alloc: Global, number: usize, call: &str) -> Result<(), AllocError> {
        let runs = self.runs;
        let id = if runs == 0 {
            format!(in alloc; "call-{number}")?
        } else {
            format!(in alloc; "run-{runs}-call-{number}")?
        };
        self.put_text(format!(in alloc; "<li id=\"{id}\"><a href=\"#{id}\">{number}</a>")?)?;
        put_escaped(&mut self.text, call.as_bytes())?;
        self.text.extend_from_slice(b"</li>\n")
    }

    /// Appends why a run goes no further.
    fn put_end(&mut self, end: &str) -> Result<(), AllocError> {
        self.text.extend_from_slice(b"<p class=\"end\">")?;
        put_escaped(&mut self.text, end.as_bytes())?;
        self.text.extend_from_slice(b"</p>\n")
    }

    fn put_text(&mut self, text: String) -> Result<(), AllocError> {
        self.text.extend_from_slice(text.as_bytes())
    }

    /// Appends what is held before the first call of a run.
    fn put_start<O: FileObject>(
        &mut self,
        alloc: Global,
        kernel: &Kernel<O>,
    ) -> Result<(), AllocError> {
        if self.runs > 0 {
            self.data.push(',')?;
        }
        self.data.push_str("{\"start\":")?;
        let start = Moment::of(alloc, kernel.state())?;
        start.put_rows(&Moment::empty(alloc), &mut self.data)?;
        self.data.push_str(",\"calls\":[")
    }

    /// Appends a call: its word, its error, and what it changed.
    fn put_call(
        &mut self,
        alloc: Global,
        between: &str,
        entry: &Entry,
        before: &Moment,
        after: &Moment,
    ) -> Result<(), AllocError> {
        let word = CallWord::of(&entry.request).text();
        let error = match &entry.reply {
            Reply::Err(errno) => errno_name(*errno),
            _ => "",
        };
        let head = format!(in alloc;
            "{between}{{\"word\":\"{word}\",\"error\":\"{error}\",\"rows\":"
        )?;
        self.data.push_str(head.as_str())?;
        after.put_rows(before, &mut self.data)?;
        self.data.push_str(",\"gone\":")?;
        after.put_gone(alloc, before, &mut self.data)?;
        self.data.push('}')
    }
}

/// No memory, at whatever call.
fn no_memory(_error: AllocError) -> ReplayFault {
    ReplayFault::NoMemory(0)
}
