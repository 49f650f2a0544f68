//! A script that is run as it comes: each line is read, its call is made, and its line of the trace is written.

ghost use Rattle.std.specs.Prelude.{◌≡◌, ◌≤◌, ◌⊎◌, [], true, false, length, map, take, IfSome, IfOk, OnOk, IfErr, OnErr};
ghost use Rattle.std.specs.Io.KnownBytes.{Appends};
ghost use Rattle.std.specs.Io.BufRead.{strip_last};
ghost use Rattle.ux_model.specs.Boot.{IsBootState, new_process};
ghost use Rattle.ux_model.specs.History.{IsLegal};
ghost use Rattle.ux_syntax.specs.Spelling.{Plan, plan_of};
ghost use Rattle.ux_syntax.specs.Reading.{no_lines};
ghost use Rattle.ux_syntax.specs.Turns.{all_turns};
ghost use Rattle.ux_syntax.specs.Joining.{is_begun, Continues};
ghost use Rattle.ux_trace.specs.Trace.{trace};
ghost use Rattle.ux_script.specs.Runs.{line_of_entry};
ghost use Rattle.ux_script.specs.Following.{Follows, Prints, PrintsBeginning, Breaks, WritesFront, IsFollowFault};
ghost use Rattle.ux_script.specs.Hearing.{heard_line, heard_rest, IsNextLine, HearsAll};

use crate::run::{NoWatch, make_calls, make_rest};
use crate::write::put_all;
use std::alloc::Global;
use std::io::{BufRead, Error, ErrorKind, Write};
use std::marker::{Brand, Model};
use ux_book::{BookName, CallFault, Serial, Trail};
use ux_kernel::Kernel;
use ux_object::FileObject;
use ux_syntax::{LineReader, Script, ScriptFault, tidy_line};
use ux_trace::entry_text;
use ux_types::Entry;

/// How many lines are read at most, so that each line's number fits.
const LINES: usize = usize::MAX / 8192;

/// What is done with each line when it was read.
pub trait Listener {
    /// A line was taken, as it was read.
    fn taken(&mut self, text: &[u8]);

    /// A line is at fault behind those that were taken, and nothing is made of it. The fault has its number.
    fn left_out(&mut self, taken: &LineReader, text: &[u8], fault: &ScriptFault);
}

/// The lines of a reader, counted from 1. Contracts see the number of the last line that was read, and the bytes that are
/// left, where the reader's are known.
#[derive(Drop)]
pub struct LineSource<R: BufRead> {
    source: R,
    number: usize,
    failure: Option<Error>,
}

impl<R: BufRead> Model for LineSource<R> {
    ghost use Rattle.ux_script.specs.Hearing.{Unread};

    ghost Value = { Unread };

    ghost view = { λ s. record { number = s.number; bytes = R.remaining s.source } };
}

impl<R: BufRead> LineSource<R> {
    /// The lines of this reader, none of which was read.
    pub fn new(source: R) -> LineSource<R>
        ensures { result ≡ record { number = 0; bytes = R.remaining source } }
    {
        LineSource {
            source,
            number: 0,
            failure: None,
        }
    }

    /// Why no more was read, where a read failed.
    pub fn failure(&self) -> Option<Error> {
        self.failure
    }

    /// The number of the last line that was read.
    fn number(&self) -> usize
        ensures { result ≡ self.now.number }
    {
        self.number
    }

    /// Reads the next line into the buffer, without its line feed. Gives whether there was one.
    fn next_line(&mut self, text: &mut Vec<u8>) -> Result<bool, ScriptFault>
        ensures line { IfOk result (λ more. IsNextLine more self.old self.new text.new.items) }
        ensures fault { IfErr result (λ f. (f ≡ ScriptFault.Reading) ⊎ (f ≡ ScriptFault.NoMemory)) }
    {
        text.clear();
        match self.source.read_until(b'\n', text) {
            Ok(0) => return Ok(false),
            Ok(_) => {}
            Err(error) if error.kind() == ErrorKind::OutOfMemory => {
                return Err(ScriptFault::NoMemory);
            }
            Err(error) => {
                self.failure = Some(error);
                return Err(ScriptFault::Reading);
            }
        }
        strip_feed(text);
        let Some(number) = self.number.checked_add(1) else {
            return Err(ScriptFault::Reading);
        };
        self.number = number;
        Ok(true)
    }
}

/// Takes the line feed off the text's end, where it has one.
fn strip_feed(text: &mut Vec<u8>)
    ensures { text.new.items ≡ strip_last 10 text.old.items }
{
    let count = text.len();
    if count > 0 && text[count - 1] == b'\n' {
        text.truncate(count - 1);
    }
}

/// A script that was run as it came.
#[derive(Drop)]
pub struct Followed {
    /// What the lines say that were taken.
    pub reader: LineReader,
    /// The calls that were made.
    pub history: Vec<Entry>,
}

/// Takes the line of this number, or reports that it is at fault and leaves it out.
fn take_line<L: Listener>(
    alloc: Global,
    reader: &mut LineReader,
    number: usize,
    text: &[u8],
    listener: &mut L,
) -> Result<(), ScriptFault>
    ensures heard { OnOk result (reader.new ≡ heard_line number reader.old text.now) }
    ensures begun { OnOk result (is_begun reader.old ≡ true → Continues reader.old reader.new) }
    ensures fault { IfErr result (λ f. f ≡ ScriptFault.NoMemory) }
{
    let line = tidy_line(alloc, text)?;
    match reader.read_line(alloc, number, &line) {
        Ok(()) => {
            listener.taken(&line);
            Ok(())
        }
        Err(ScriptFault::NoMemory) => Err(ScriptFault::NoMemory),
        Err(fault) => {
            listener.left_out(reader, &line, &fault);
            Ok(())
        }
    }
}

/// Reads lines up to the end of the header: the first line of a process, which is taken too, or the end of the layer. A
/// line at fault is reported, and left out.
///
/// # Errors
///
/// `Reading` where a read fails, and `NoMemory`.
pub fn read_header<R: BufRead, L: Listener>(
    alloc: Global,
    source: &mut LineSource<R>,
    listener: &mut L,
) -> Result<LineReader, ScriptFault>
    // Where the bytes are known: the lines that are left make of the result what all lines of the source make, those at fault left out.
    ensures lines { IfOk result (λ reader. IfSome (heard_rest source.old no_lines) (λ whole. heard_rest source.new reader ≡ Some whole)) }
    // Nothing is left of a source whose header isn't over.
    ensures end { IfOk result (λ reader. is_begun reader ≡ false → IfSome source.old.bytes (λ bytes. source.new.bytes ≡ Some [])) }
    ensures fault { IfErr result (λ f. (f ≡ ScriptFault.Reading) ⊎ (f ≡ ScriptFault.NoMemory)) }
{
    let mut reader = LineReader::new(alloc);
    let mut text = Vec::new(alloc);
    for _ in 0..LINES {
        if reader.is_begun() {
            return Ok(reader);
        }
        if !source.next_line(&mut text)? {
            return Ok(reader);
        }
        take_line(alloc, &mut reader, source.number(), &text, listener)?;
    }
    Err(ScriptFault::Reading)
}

/// Why a run came to no end.
fn fault_of(fault: CallFault) -> ScriptFault
    ensures { (result ≡ ScriptFault.Stranger) ⊎ (result ≡ ScriptFault.NoMemory) }
{
    match fault {
        CallFault::Stranger => ScriptFault::Stranger,
        _ => ScriptFault::NoMemory,
    }
}

/// Writes the lines of the entries from this place on, and flushes the writer.
fn print_from<W: Write>(
    alloc: Global,
    writer: &mut W,
    entries: &[Entry],
    from: usize,
) -> Result<(), ScriptFault>
    requires { from ≤ length entries.now }
    ensures printed { OnOk result (Prints (W.contents writer.old) (W.contents writer.new) (take from entries.now) entries.now) }
    ensures begun { OnErr result (PrintsBeginning (W.contents writer.old) (W.contents writer.new) (take from entries.now) entries.now) }
    ensures fault { IfErr result (λ f. (f ≡ ScriptFault.Writing) ⊎ (f ≡ ScriptFault.NoMemory)) }
{
    for number in from..entries.len() {
        let text = entry_text(alloc, number, &entries[number])?;
        put_all(writer, text.as_bytes())?;
    }
    if writer.flush().is_err() {
        return Err(ScriptFault::Writing);
    }
    Ok(())
}

/// Makes the calls of the script's lines from this place on, and writes their lines of the trace.
fn run_from<B: BookName, O: FileObject, W: Write>(
    alloc: Global,
    serial: &mut Serial<B, O>,
    script: &Script,
    from: usize,
    writer: &mut W,
) -> Result<(), ScriptFault>
    requires { Follows serial.old (plan_of script.now) from }
    ensures made { OnOk result (Follows serial.new (plan_of script.now) (length script.now.lines.items)) }
    ensures boot { OnOk result (serial.new.boot ≡ serial.old.boot) }
    ensures printed { OnOk result (Prints (W.contents writer.old) (W.contents writer.new) serial.old.entries serial.new.entries) }
    ensures broken { OnErr result (Breaks serial.old.boot (W.contents writer.old) (W.contents writer.new) serial.old.entries) }
    ensures fault { IfErr result (λ f. IsFollowFault f) }
{
    let printed = serial.entries().len();
    if let Err(fault) = make_calls(serial, script, from, &NoWatch) {
        return Err(fault_of(fault));
    }
    print_from(alloc, writer, serial.entries(), printed)
}

/// Takes the line of this number, makes its call, and writes its line of the trace.
fn follow_line<B: BookName, O: FileObject, W: Write, L: Listener>(
    alloc: Global,
    serial: &mut Serial<B, O>,
    reader: &mut LineReader,
    number: usize,
    text: &[u8],
    writer: &mut W,
    listener: &mut L,
) -> Result<(), ScriptFault>
    requires begun { is_begun reader.old ≡ true }
    requires made { Follows serial.old reader.old (length (Plan.lines reader.old)) }
    ensures heard { OnOk result (reader.new ≡ heard_line number reader.old text.now) }
    ensures begun { OnOk result (is_begun reader.new ≡ true) }
    ensures made { OnOk result (Follows serial.new reader.new (length (Plan.lines reader.new))) }
    ensures boot { OnOk result (serial.new.boot ≡ serial.old.boot) }
    ensures printed { OnOk result (Prints (W.contents writer.old) (W.contents writer.new) serial.old.entries serial.new.entries) }
    ensures broken { OnErr result (Breaks serial.old.boot (W.contents writer.old) (W.contents writer.new) serial.old.entries) }
    ensures fault { IfErr result (λ f. IsFollowFault f) }
{
    let made = reader.script().lines.len();
    take_line(alloc, reader, number, text, listener)?;
    run_from(alloc, serial, reader.script(), made, writer)
}

/// Takes line after line, up to the end.
fn follow_lines<B: BookName, O: FileObject, R: BufRead, W: Write, L: Listener>(
    alloc: Global,
    serial: &mut Serial<B, O>,
    reader: &mut LineReader,
    source: &mut LineSource<R>,
    writer: &mut W,
    listener: &mut L,
) -> Result<(), ScriptFault>
    requires begun { is_begun reader.old ≡ true }
    requires made { Follows serial.old reader.old (length (Plan.lines reader.old)) }
    ensures heard { OnOk result (HearsAll source.old reader.old source.new reader.new) }
    ensures made { OnOk result (Follows serial.new reader.new (length (Plan.lines reader.new))) }
    ensures boot { OnOk result (serial.new.boot ≡ serial.old.boot) }
    ensures printed { OnOk result (Prints (W.contents writer.old) (W.contents writer.new) serial.old.entries serial.new.entries) }
    ensures broken { OnErr result (Breaks serial.old.boot (W.contents writer.old) (W.contents writer.new) serial.old.entries) }
    ensures fault { IfErr result (λ f. IsFollowFault f) }
{
    let mut text = Vec::new(alloc);
    for _ in 0..LINES {
        if !source.next_line(&mut text)? {
            return Ok(());
        }
        let number = source.number();
        follow_line(alloc, serial, reader, number, &text, writer, listener)?;
    }
    Err(ScriptFault::Reading)
}

/// Makes the calls of the lines that were read, then those of the lines that come.
fn follow_all<B: BookName, O: FileObject, R: BufRead, W: Write, L: Listener>(
    alloc: Global,
    serial: &mut Serial<B, O>,
    reader: &mut LineReader,
    source: &mut LineSource<R>,
    writer: &mut W,
    listener: &mut L,
) -> Result<(), ScriptFault>
    requires { Follows serial.old reader.old 0 }
    ensures heard { OnOk result (is_begun reader.old ≡ true → HearsAll source.old reader.old source.new reader.new) }
    ensures alone { OnOk result (is_begun reader.old ≡ false → reader.new ≡ reader.old) }
    ensures made { OnOk result (Follows serial.new reader.new (length (Plan.lines reader.new))) }
    ensures boot { OnOk result (serial.new.boot ≡ serial.old.boot) }
    ensures printed { OnOk result (Prints (W.contents writer.old) (W.contents writer.new) serial.old.entries serial.new.entries) }
    ensures broken { OnErr result (Breaks serial.old.boot (W.contents writer.old) (W.contents writer.new) serial.old.entries) }
    ensures fault { IfErr result (λ f. IsFollowFault f) }
{
    run_from(alloc, serial, reader.script(), 0, writer)?;
    if !reader.is_begun() {
        return Ok(());
    }
    follow_lines(alloc, serial, reader, source, writer, listener)
}

/// Makes the exits that are missing, ends the layer where the script says so, and writes their lines of the trace.
fn finish<B: BookName, O: FileObject, W: Write>(
    alloc: Global,
    serial: &mut Serial<B, O>,
    script: &Script,
    writer: &mut W,
) -> Result<(), ScriptFault>
    requires { Follows serial.old (plan_of script.now) (length script.now.lines.items) }
    ensures calls { OnOk result (map line_of_entry serial.new.entries ≡ all_turns (plan_of script.now)) }
    ensures boot { OnOk result (serial.new.boot ≡ serial.old.boot) }
    ensures printed { OnOk result (Prints (W.contents writer.old) (W.contents writer.new) serial.old.entries serial.new.entries) }
    ensures broken { OnErr result (Breaks serial.old.boot (W.contents writer.old) (W.contents writer.new) serial.old.entries) }
    ensures fault { IfErr result (λ f. IsFollowFault f) }
{
    let printed = serial.entries().len();
    if let Err(fault) = make_rest(serial, script) {
        return Err(fault_of(fault));
    }
    print_from(alloc, writer, serial.entries(), printed)
}

/// Makes all calls of a run.
fn run_lines<B: BookName, O: FileObject, R: BufRead, W: Write, L: Listener>(
    alloc: Global,
    trail: Trail,
    kernel: Kernel<O>,
    reader: &mut LineReader,
    source: &mut LineSource<R>,
    writer: &mut W,
    listener: &mut L,
) -> Result<Vec<Entry>, ScriptFault>
    requires trail { trail ≡ record { id = B.trail; entries = []; given = 0 } }
    requires boots { IsBootState kernel }
    requires named { kernel ≡ B.boot }
    requires processes { kernel.processes ≡ map new_process (Plan.procs reader.old) }
    ensures heard { OnOk result (is_begun reader.old ≡ true → HearsAll source.old reader.old source.new reader.new) }
    ensures alone { OnOk result (is_begun reader.old ≡ false → reader.new ≡ reader.old) }
    ensures legal { IfOk result (λ entries. IsLegal kernel entries.items) }
    ensures calls { IfOk result (λ entries. map line_of_entry entries.items ≡ all_turns reader.new) }
    ensures trace { IfOk result (λ entries. Appends (W.contents writer.old) (W.contents writer.new) (trace entries.items)) }
    ensures front { OnErr result (WritesFront kernel (W.contents writer.old) (W.contents writer.new)) }
    ensures fault { IfErr result (λ f. IsFollowFault f) }
{
    let Ok(mut serial) = Serial::<B, O>::new(alloc, trail, kernel) else {
        return Err(ScriptFault::NoMemory);
    };
    follow_all(alloc, &mut serial, reader, source, writer, listener)?;
    finish(alloc, &mut serial, reader.script(), writer)?;
    Ok(serial.into_entries())
}

/// Runs a script as it comes, on a kernel that has just started with the processes of its header, which was read
/// before. Each line's call is made as soon as the line is read, and its line of the trace is written at once; lines that
/// wait for a process are skipped. A line at fault is reported and left out, as is a line of the header. At the end come
/// an exit of each process that is left, and the end of the layer where the script has it.
///
/// # Errors
///
/// `Reading` where a read fails, `Writing`, and `NoMemory`, also where a fork makes no process. Then nothing was written, or
/// a beginning of the trace of a legal history from the kernel's state; the contract doesn't say which calls it has.
pub fn follow<O: FileObject, R: BufRead, W: Write, L: Listener>(
    alloc: Global,
    reader: LineReader,
    source: &mut LineSource<R>,
    writer: &mut W,
    listener: &mut L,
    kernel: Kernel<O>,
) -> Result<Followed, ScriptFault>
    requires boots { IsBootState kernel }
    requires processes { kernel.processes ≡ map new_process (Plan.procs reader) }
    // Behind a header that is over, each line that the source has is taken, but those at fault, where the bytes are known.
    ensures lines { IfOk result (λ run. is_begun reader ≡ true → IfSome (heard_rest source.old reader) (λ whole. run.reader ≡ whole)) }
    // Then nothing is left of the source.
    ensures end { OnOk result (is_begun reader ≡ true → IfSome source.old.bytes (λ bytes. source.new.bytes ≡ Some [])) }
    // Behind one that isn't over no line is taken.
    ensures alone { IfOk result (λ run. is_begun reader ≡ false → run.reader ≡ reader) }
    // The entries are a legal history from the kernel's state.
    ensures legal { IfOk result (λ run. IsLegal kernel run.history.items) }
    // It makes the calls of the lines that were taken, in order, then the missing exits, and the end of the layer where there is one.
    ensures calls { IfOk result (λ run. map line_of_entry run.history.items ≡ all_turns run.reader) }
    // What was written is its trace.
    ensures trace { IfOk result (λ run. Appends (W.contents writer.old) (W.contents writer.new) (trace run.history.items)) }
    // After a fault nothing was written, or a beginning of the trace of a legal history.
    ensures front { OnErr result (WritesFront kernel (W.contents writer.old) (W.contents writer.new)) }
    ensures fault { IfErr result (λ f. IsFollowFault f) }
{
    let mut reader = reader;
    let Ok(trail) = Trail::new(alloc) else {
        return Err(ScriptFault::NoMemory);
    };
    match run_lines::<Brand, O, R, W, L>(
        alloc,
        trail,
        kernel,
        &mut reader,
        source,
        writer,
        listener,
    ) {
        Ok(history) => Ok(Followed { reader, history }),
        Err(fault) => Err(fault),
    }
}
