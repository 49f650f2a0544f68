//! Scripts: file objects, processes, and what their lines ask for.

ghost use Rattle.std.specs.Prelude.{◌≡◌, if◌then◌else◌};
ghost use Rattle.ux_syntax.specs.Spelling.{plan_of, known_count, line_limit, asks_exit, asks_fork, asks_recorded};

use std::marker::Model;
use ux_fields::CallWord;
use ux_object::ObjKind;
use ux_types::{Bytes, Name, ObjectLimit, Pid, ProcSpec, Request};

/// How many bytes a line may have, without its line feed.
const LINE_LIMIT: usize = 4096;

/// The same behind a line `serial`.
pub const SERIAL_LINE_LIMIT: usize = 200_000;

/// A file object that is there from the start: its path, its kind, and what a memory file starts with.
#[derive(Debug, Drop)]
pub struct ObjectLine {
    pub name: Name,
    /// Which of its reads and writes together fails, counted from 1; none does where there is none.
    pub fail: Option<u32>,
    pub kind: ObjKind,
    /// Empty for a counter and a pipe.
    pub body: Bytes,
}

/// What a line asks for.
#[derive(Debug, Drop)]
pub enum Act {
    /// A call.
    Call(Request),
    /// To continue when a process has so many entries or more, or has exited.
    Wait(Pid, u32),
}

impl Act {
    /// Whether it is the process's exit.
    pub fn asks_exit(&self) -> bool
        ensures { result ≡ asks_exit self.now }
    {
        matches!(self, Act::Call(Request::Exit))
    }

    /// Whether it makes a further process.
    pub fn asks_fork(&self) -> bool
        ensures { result ≡ asks_fork self.now }
    {
        matches!(self, Act::Call(Request::Fork))
    }

    /// Whether it is a call that stands only where the script has one order alone.
    pub fn asks_recorded(&self) -> bool
        ensures { result ≡ asks_recorded self.now }
    {
        match self {
            Act::Call(request) => CallWord::of(request).wants_serial(),
            Act::Wait(..) => false,
        }
    }
}

/// One line of a process: the process's number, and what it asks for.
#[derive(Debug, Drop)]
pub struct Line {
    pub pid: Pid,
    pub act: Act,
    /// The number of the text's line, counted from 1.
    pub number: usize,
}

/// What a script says doesn't depend on where its lines stand, so the line's number is not seen.
impl Model for Line {
    ghost use Rattle.ux_syntax.specs.Lines as seen;

    ghost Value = { seen.Line };

    ghost view = { λ line. record { pid = line.pid; act = line.act } };
}

/// The file objects of a script, of which the first has number 0, its processes, of which the first
/// has number 1, and their lines in order.
#[derive(Debug, Drop)]
pub struct Script {
    /// Whether its calls are made in the order of its lines, and in no other. Then any process may fork, a line may be longer,
    /// and there may be more file objects.
    pub serial: bool,
    pub objects: Vec<ObjectLine>,
    pub procs: Vec<ProcSpec>,
    pub lines: Vec<Line>,
    /// Whether the layer is ended after all calls.
    pub off: bool,
}

impl Script {
    /// How many processes there are at the end: those of the header, and one for each fork line.
    pub fn process_count(&self) -> usize
        ensures { result ≡ known_count (plan_of self.now) }
    {
        let forks = self.lines.iter().filter(|line| line.act.asks_fork());
        self.procs.len() + forks.count()
    }

    /// How many bytes a further line may have, without its line feed.
    pub fn line_limit(&self) -> usize
        ensures { result ≡ line_limit self.now.serial }
    {
        if self.serial {
            SERIAL_LINE_LIMIT
        } else {
            LINE_LIMIT
        }
    }

    /// How many file objects a layer for it may start with. Reading doesn't count them.
    pub fn object_limit(&self) -> ObjectLimit
        ensures { result ≡ (if self.now.serial then ObjectLimit.Raised else ObjectLimit.Usual) }
    {
        if self.serial {
            ObjectLimit::Raised
        } else {
            ObjectLimit::Usual
        }
    }
}

/// A line of the header.
#[derive(Drop)]
pub(crate) enum Header {
    Object(ObjectLine),
    Proc(ProcSpec),
}
