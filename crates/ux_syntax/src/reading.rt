//! Reading a script, line by line.

ghost use Rattle.std.specs.Prelude.{◌≡◌, ◌==◌, true, not, length, map, IfOk, IfErr, OnOk, OnErr, Ok};
ghost use Rattle.std.specs.List.{slice_split};
ghost use Rattle.ux_syntax.specs.Spelling.{Plan, plan_of, SpellScript, IsOrderly, OneScript, lines_of, is_meant, asks_fork};
ghost use Rattle.ux_syntax.specs.Turns.{is_known, awaits_known};
ghost use Rattle.ux_syntax.specs.Reading.{words_at, item_at, may_fork, is_unsaid, joined_by, joined_by_fork, line_at, no_lines, script_at};
ghost use Rattle.ux_syntax.specs.Results.{IsAsRead, Leaves, GivesScript, HasFault, KnowsExits};

use crate::acts::act_of;
use crate::fault::{BAD, Fault, LineError, ScriptFault};
use crate::headers::{object_of, proc_of};
use crate::plain::plain_line;
use crate::row::{end, next};
use crate::script::{Act, Header, Line, Script};
use crate::words::Word;
use std::alloc::{AllocError, Global};
use ux_types::{MADE_LIMIT, Pid};

/// What a line says.
#[derive(Drop)]
pub(crate) enum Parsed {
    /// Nothing: it is empty or a comment.
    Skipped,
    /// A line of the header.
    Header(Header),
    /// A line of a process.
    Line(Line),
    /// The end of the layer.
    Off,
    /// That the script has one order alone.
    Serial,
}

#[tactic(auto, unfolding(crate::specs::Reading::words_at))]
fn words_of(alloc: Global, number: usize, words: &[&[u8]]) -> Result<Parsed, LineError>
    ensures { IsAsRead (λ item. item) result (words_at (map (λ w. w.now) words.now)) }
{
    let (first, rest) = next(words)?;
    if first == b"proc".as_slice() {
        return Ok(Parsed::Header(Header::Proc(proc_of(alloc, rest)?)));
    }
    if first == b"object".as_slice() {
        return Ok(Parsed::Header(Header::Object(object_of(alloc, rest)?)));
    }
    if first == b"off".as_slice() {
        end(rest)?;
        return Ok(Parsed::Off);
    }
    if first == b"serial".as_slice() {
        end(rest)?;
        return Ok(Parsed::Serial);
    }
    let pid = Pid(u32::of(alloc, first)?);
    let act = act_of(alloc, rest)?;
    Ok(Parsed::Line(Line { pid, act, number }))
}

fn says_nothing(text: &[u8]) -> bool
    ensures { result ≡ not (is_meant text.now) }
{
    match text {
        [] => true,
        [first, ..] => *first == b'#',
    }
}

fn split_words<'a>(alloc: Global, text: &'a [u8]) -> Result<Vec<&'a [u8]>, AllocError>
    ensures { IfOk result (λ words. map (λ w. w.now) words.items ≡ slice_split (λ b. b == 32) text.now) }
{
    text.split(|b| *b == b' ').collect(alloc)
}

/// The lines of a text, which end at line feeds; the last may have none.
///
/// # Errors
///
/// `AllocError` where memory runs out.
pub fn split_lines<'a>(alloc: Global, text: &'a [u8]) -> Result<Vec<&'a [u8]>, AllocError>
    ensures { IfOk result (λ lines. map (λ l. l.now) lines.items ≡ lines_of text.now) }
{
    text.split(|b| *b == b'\n').collect(alloc)
}

/// What the plain line of this number says.
fn plain_item_of(alloc: Global, number: usize, line: &[u8]) -> Result<Parsed, LineError>
    ensures { IsAsRead (λ item. item) result (words_at (slice_split (λ b. b == 32) line.now)) }
{
    let words = split_words(alloc, line)?;
    words_of(alloc, number, &words)
}

/// What the line of this number says, which may have so many bytes.
#[tactic(auto, unfolding(crate::specs::Reading::item_at))]
pub(crate) fn item_of(
    alloc: Global,
    number: usize,
    limit: usize,
    text: &[u8],
) -> Result<Parsed, LineError>
    ensures { IsAsRead (λ item. item) result (item_at limit text.now) }
{
    if text.len() > limit {
        return Err(LineError::Fault(Fault::TooLong));
    }
    if says_nothing(text) {
        return Ok(Parsed::Skipped);
    }
    match plain_line(alloc, text)? {
        Some(plain) => plain_item_of(alloc, number, &plain),
        None => plain_item_of(alloc, number, text),
    }
}

/// A script as far as it was read, with a flag for each process that is known so far: whether it has made its exit.
#[derive(Drop)]
pub(crate) struct Reader {
    pub(crate) script: Script,
    pub(crate) exited: Vec<bool>,
}

impl Reader {
    /// Nothing was read yet.
    pub(crate) fn new(alloc: Global) -> Reader
        ensures nothing { plan_of result.script ≡ no_lines }
        ensures exits { KnowsExits (plan_of result.script) result.exited.items }
    {
        Reader {
            script: Script {
                serial: false,
                objects: Vec::new(alloc),
                procs: Vec::new(alloc),
                lines: Vec::new(alloc),
                off: false,
            },
            exited: Vec::new(alloc),
        }
    }

    fn knows(&self, pid: Pid) -> bool
        ensures { result ≡ is_known (length self.now.exited.items) pid.0 }
    {
        0 < pid.0 && pid.0 as usize <= self.exited.len()
    }

    /// Whether a process that is waited for is there.
    fn knows_awaited(&self, act: &Act) -> bool
        ensures { result ≡ awaits_known (length self.now.exited.items) act.now }
    {
        match act {
            Act::Call(_) => true,
            Act::Wait(pid, _) => self.knows(*pid),
        }
    }

    fn add_header(&mut self, header: Header) -> Result<(), LineError>
        requires { KnowsExits (plan_of self.old.script) self.old.exited.items }
        ensures reads { Leaves (plan_of self.new.script) result (joined_by (plan_of self.old.script) (Parsed.Header header)) }
        ensures exits { OnOk result (KnowsExits (plan_of self.new.script) self.new.exited.items) }
        ensures kept { OnErr result (plan_of self.new.script ≡ plan_of self.old.script) }
        ensures exits_kept { OnErr result (self.new.exited.items ≡ self.old.exited.items) }
    {
        if !self.script.lines.is_empty() {
            return Err(BAD);
        }
        match header {
            Header::Object(object) => self.script.objects.push(object)?,
            Header::Proc(spec) => {
                // Room first, so that a header without memory leaves all as it was.
                self.exited.reserve(1)?;
                self.script.procs.push(spec)?;
                self.exited.push(false)?;
            }
        }
        Ok(())
    }

    /// Whether a fork of this process may come next.
    fn may_fork(&self, pid: Pid) -> bool
        requires { KnowsExits (plan_of self.now.script) self.now.exited.items }
        ensures { result ≡ may_fork (plan_of self.now.script) pid.0 }
    {
        let asked = self.script.serial || pid.0 == 1;
        asked
            && self.exited.len() < MADE_LIMIT
            && self.knows(pid)
            && !self.exited[pid.0 as usize - 1]
    }

    /// Adds a fork line, behind which there is one process more.
    fn add_fork(&mut self, line: Line) -> Result<(), LineError>
        requires forks { asks_fork line.act ≡ true }
        requires exits { KnowsExits (plan_of self.old.script) self.old.exited.items }
        ensures reads { Leaves (plan_of self.new.script) result (joined_by_fork (plan_of self.old.script) line) }
        ensures exits { OnOk result (KnowsExits (plan_of self.new.script) self.new.exited.items) }
        ensures kept { OnErr result (plan_of self.new.script ≡ plan_of self.old.script) }
        ensures exits_kept { OnErr result (self.new.exited.items ≡ self.old.exited.items) }
    {
        if !self.may_fork(line.pid) {
            return Err(BAD);
        }
        self.exited.reserve(1)?;
        self.script.lines.push(line)?;
        self.exited.push(false)?;
        Ok(())
    }

    fn add_line(&mut self, line: Line) -> Result<(), LineError>
        requires { KnowsExits (plan_of self.old.script) self.old.exited.items }
        ensures reads { Leaves (plan_of self.new.script) result (joined_by (plan_of self.old.script) (Parsed.Line line)) }
        ensures exits { OnOk result (KnowsExits (plan_of self.new.script) self.new.exited.items) }
        ensures kept { OnErr result (plan_of self.new.script ≡ plan_of self.old.script) }
        ensures exits_kept { OnErr result (self.new.exited.items ≡ self.old.exited.items) }
    {
        if line.act.asks_fork() {
            return self.add_fork(line);
        }
        if !self.script.serial && line.act.asks_recorded() {
            return Err(BAD);
        }
        if !self.knows(line.pid) {
            return Err(LineError::Fault(Fault::UnknownProcess));
        }
        let place = line.pid.0 as usize - 1;
        if self.exited[place] {
            return Err(BAD);
        }
        if !self.knows_awaited(&line.act) {
            return Err(LineError::Fault(Fault::UnknownProcess));
        }
        // Room first, so that an exit without memory leaves all as it was.
        self.script.lines.reserve(1)?;
        if line.act.asks_exit() {
            self.exited[place] = true;
        }
        self.script.lines.push(line)?;
        Ok(())
    }

    /// Whether no line has said anything yet, but for `off`.
    fn is_unsaid(&self) -> bool
        ensures { result ≡ is_unsaid (plan_of self.now.script) }
    {
        let script = &self.script;
        !script.serial
            && script.objects.is_empty()
            && script.procs.is_empty()
            && script.lines.is_empty()
    }

    /// Gives the script one order alone, which the first line that says something may do.
    fn add_serial(&mut self) -> Result<(), LineError>
        requires { KnowsExits (plan_of self.old.script) self.old.exited.items }
        ensures reads { Leaves (plan_of self.new.script) result (joined_by (plan_of self.old.script) Parsed.Serial) }
        ensures exits { OnOk result (KnowsExits (plan_of self.new.script) self.new.exited.items) }
        ensures kept { OnErr result (plan_of self.new.script ≡ plan_of self.old.script) }
        ensures exits_kept { OnErr result (self.new.exited.items ≡ self.old.exited.items) }
    {
        if !self.is_unsaid() {
            return Err(BAD);
        }
        self.script.serial = true;
        Ok(())
    }

    /// Reads the line of this number and adds what it says.
    #[tactic(auto, unfolding(crate::specs::Reading::line_at))]
    pub(crate) fn read_line(
        &mut self,
        alloc: Global,
        number: usize,
        text: &[u8],
    ) -> Result<(), LineError>
        requires { KnowsExits (plan_of self.old.script) self.old.exited.items }
        ensures reads { Leaves (plan_of self.new.script) result (line_at (plan_of self.old.script) text.now) }
        ensures exits { OnOk result (KnowsExits (plan_of self.new.script) self.new.exited.items) }
        ensures kept { OnErr result (plan_of self.new.script ≡ plan_of self.old.script) }
        ensures exits_kept { OnErr result (self.new.exited.items ≡ self.old.exited.items) }
    {
        let item = item_of(alloc, number, self.script.line_limit(), text)?;
        if self.script.off && !matches!(item, Parsed::Skipped) {
            return Err(BAD);
        }
        match item {
            Parsed::Skipped => Ok(()),
            Parsed::Header(header) => self.add_header(header),
            Parsed::Line(line) => self.add_line(line),
            Parsed::Off => {
                self.script.off = true;
                Ok(())
            }
            Parsed::Serial => self.add_serial(),
        }
    }
}

/// Reads each line in turn.
fn read_lines(alloc: Global, texts: &[&[u8]]) -> Result<Script, ScriptFault>
    ensures { GivesScript result (script_at (map (λ l. l.now) texts.now)) }
{
    let mut reader = Reader::new(alloc);
    for (index, text) in texts.iter().enumerate() {
        let number = index + 1;
        match reader.read_line(alloc, number, text) {
            Ok(()) => {}
            Err(error) => return Err(error.at(number)),
        }
    }
    Ok(reader.script)
}

/// Reads all lines of a text.
fn read_text(alloc: Global, text: &[u8]) -> Result<Script, ScriptFault>
    ensures { GivesScript result (script_at (lines_of text.now)) }
{
    let texts = split_lines(alloc, text)?;
    read_lines(alloc, &texts)
}

/// The script that a text spells. It takes time in proportion to the text.
///
/// A script is lines that end at line feeds; the last may have none. Empty lines and those that begin
/// with `#` are skipped, and counted. The words of a line stand one blank apart. A line `serial` may come first, which says
/// that the calls are made in the order of the lines, and in no other. The header comes next,
/// its lines in any order: `object p:NAME mem HEX`, `object p:NAME counter` and `object p:NAME pipe`,
/// with `fail N` in front of the kind where the object's Nth read or write fails, number the file objects
/// from 0, and `proc UID GID PRIV LIMIT` the processes from 1. Each further line
/// is a process's number and what it asks for: `open p:NAME MODE OFLAGS`, `read FD N`, `write FD HEX`,
/// `lseek FD OFFSET WHENCE`, `dup FD`, `dup2 FD FD`, `flags FD OFLAGS`, `close FD`, `unlink p:NAME`,
/// `socket TYPE OFLAGS`, `pair TYPE OFLAGS`, `bind FD ADDR`, `listen FD BACKLOG`, `connect FD ADDR`,
/// `accept FD OFLAGS`, `shut FD MODE`, `getopt FD OPTION`, `setopt FD OPTION N`, `sockname FD`, `peername FD`,
/// `send FD ADDR HEX CONTROL MFLAGS`, `recv FD N SPACE MFLAGS`, `poll FD`, `polls FDS WAITS`, `fork`, `exec`, `exit`, or `wait PID N`,
/// which isn't a call: where processes are threads, the process continues when that one has N entries or more, or has
/// exited. Each `fork` makes one more process, whose number is the next: it is known to the lines behind that line,
/// as their own process and as one that is waited for, and to none before. Each process may fork in a
/// script with the line `serial`, and process 1 alone in one without, and only where fewer than 1,024 processes are
/// known: each other fork line is a bad line, and never one of an unknown process. A line may have 4,096 bytes, and
/// 200,000 behind a line `serial`, where `create p:NAME MODE OFLAGS`, `memfd OFLAGS`, `eventfd VALUE EFLAGS`,
/// `pipe OFLAGS`, `dupfd FD MIN`, `getfl FD`, `inq FD`, `outq FD` and `setids UID GID` are calls, too.
/// A line `off` may come last. A send's ADDR may be `-` for none; its CONTROL is `-` for no bytes, `x:HEX` for
/// these, or items joined by `+`: `c:PID,UID,GID` for credentials and `r:N,N,..` for descriptor numbers.
/// FDS is `FD:EVENTS,FD:EVENTS,..`, or `-` for no descriptor, where EVENTS is letters of `ioh`, or `-`, and WAITS `wait` or `now`.
/// HEX may be text between quotation marks, with escapes of C, and SPACE `rights:N`, the space that N rights take.
///
/// # Errors
///
/// `BadLine`, `UnknownProcess` or `TooLong` of the first line at fault, and `NoMemory`.
pub fn parse_script(alloc: Global, text: &[u8]) -> Result<Script, ScriptFault>
    // What is read is spelled so.
    ensures found { IfOk result (λ script. SpellScript (lines_of text.now) (plan_of script)) }
    // Each line is of a process that is there and hasn't made its exit, and waits for none that isn't there.
    ensures orderly { IfOk result (λ script. IsOrderly (plan_of script)) }
    // What is spelled so is read, unless memory runs out.
    ensures only { (s : Plan) → SpellScript (lines_of text.now) s → GivesScript result (Ok s) }
    // A fault is that of the first line at fault, and says why.
    ensures fault { IfErr result (λ f. HasFault (lines_of text.now) f) }
{
    read_text(alloc, text)
}

/// A text spells one script at most.
pub fn one_script()
    ensures { OneScript }
{}
