//! Eight threads that make calls of all kinds on shared names.

use super::{history_of, repeat};
use std::alloc::{AllocError, Global};
use std::test::Fail;
use ux_syntax::parse_script;
use ux_threads::NoGate;
use ux_types::{Entry, Reply, Request};

/// How many processes there are.
const PROCESSES: u32 = 8;

/// How often two processes wait for one another.
const TURNS: usize = 100;

/// The calls of a process up to the end of its turns: two opens, and a write and a read in each turn.
const TURN_CALLS: u64 = 2 + 2 * TURNS as u64;

/// The number 1, as a counter gives it.
const ONE: [u8; 8] = [1, 0, 0, 0, 0, 0, 0, 0];

/// How many calls of all kinds each process makes after that.
const CALLS: usize = 1796;

/// What may be asked for, a line each, with `#` for a descriptor. None of it waits: each description is non-blocking.
const KINDS: &str = "read # 8
write # 0100000000000000
lseek # 3 set
dup #
dup2 # 9
flags # n
flags # nx
close #
close #
close #
bind # a:s
bind # a:d
bind # p:s
bind # u
listen # 2
connect # a:s
connect # a:d
connect # p:s
accept # n
accept # nx
shut # w
shut # r
sockname #
peername #
getopt # error
getopt # peercred
setopt # passcred 1
poll #
send # - 6869 - -
send # - 78 r:0 -
send # - 78 r:1,2 -
send # a:d 78 r:0 -
send # a:d 616263 - d
recv # 8 64 -
recv # 2 24 p
recv # 8 0 t
open p:0 rw n
open p:1 rw nx
socket stream n
socket dgram n
socket seq n
pair stream n
pair dgram n
pair seq n";

/// Numbers that look like chance, the same in each run.
#[derive(Drop)]
struct Dice {
    seed: u32,
}

impl Dice {
    /// A number below 32,768.
    fn throw(&mut self) -> usize {
        self.seed = self
            .seed
            .wrapping_mul(1_664_525)
            .wrapping_add(1_013_904_223);
        (self.seed >> 17) as usize
    }
}

/// The lines by which a process waits for its neighbour, and the other way about, over two counters.
fn push_turns(alloc: Global, text: &mut Vec<u8>, pid: u32) -> Result<(), AllocError> {
    let pair = pid.wrapping_add(1) / 2;
    let opens = format!(in alloc; "{pid} open p:{pair}a rw -\n{pid} open p:{pair}b rw -\n")?;
    text.extend_from_slice(opens.as_bytes())?;
    for _turn in 0..TURNS {
        let turn = if pid % 2 == 1 {
            format!(in alloc; "{pid} write 0 0100000000000000\n{pid} read 1 8\n")?
        } else {
            format!(in alloc; "{pid} read 0 8\n{pid} write 1 0100000000000000\n")?
        };
        text.extend_from_slice(turn.as_bytes())?;
    }
    let closes = format!(in alloc; "{pid} close 0\n{pid} close 1\n")?;
    text.extend_from_slice(closes.as_bytes())
}

/// A line of one of these kinds.
fn push_line(
    alloc: Global,
    text: &mut Vec<u8>,
    pid: u32,
    kinds: &[&str],
    dice: &mut Dice,
) -> Result<(), AllocError> {
    let Some(kind) = kinds.get(dice.throw() % kinds.len().max(1)) else {
        return Ok(());
    };
    let fd = dice.throw() % 12;
    let line = match kind.split_once('#') {
        Some((before, after)) => format!(in alloc; "{pid} {before}{fd}{after}\n")?,
        None => format!(in alloc; "{pid} {kind}\n")?,
    };
    text.extend_from_slice(line.as_bytes())
}

/// Whether this is a read of a turn, which gave the one that the neighbour wrote.
fn is_turn_read(entry: &Entry) -> bool {
    match (&entry.request, &entry.reply) {
        (Request::Read { .. }, Reply::Bytes(bytes)) => {
            entry.k < TURN_CALLS && bytes.as_slice() == ONE.as_slice()
        }
        _ => false,
    }
}

/// How many reads of turns there are.
fn turns_read(entries: &[Entry]) -> usize {
    entries.iter().filter(|entry| is_turn_read(entry)).count()
}

/// A script of all this.
fn stress_script(alloc: Global) -> Result<Vec<u8>, AllocError> {
    let mut text = Vec::from_slice(alloc, b"object p:0 counter\nobject p:1 counter\n")?;
    for pair in 1..PROCESSES / 2 + 1 {
        let objects = format!(in alloc; "object p:{pair}a counter\nobject p:{pair}b counter\n")?;
        text.extend_from_slice(objects.as_bytes())?;
    }
    for _pid in 0..PROCESSES {
        text.extend_from_slice(b"proc 1000 1000 0 16\n")?;
    }
    let kinds: Vec<&str> = KINDS.lines().collect(alloc)?;
    let mut dice = Dice { seed: 7 };
    for pid in 1..PROCESSES + 1 {
        push_turns(alloc, &mut text, pid)?;
        push_calls(alloc, &mut text, pid, &kinds, &mut dice)?;
    }
    text.extend_from_slice(b"off\n")?;
    Ok(text)
}

/// So many lines of all kinds.
fn push_calls(
    alloc: Global,
    text: &mut Vec<u8>,
    pid: u32,
    kinds: &[&str],
    dice: &mut Dice,
) -> Result<(), AllocError> {
    for _call in 0..CALLS {
        push_line(alloc, text, pid, kinds, dice)?;
    }
    Ok(())
}

#[test]
fn eight_threads_make_calls_of_all_kinds(rt: HostRuntime) -> Result<(), Fail> {
    let alloc = rt.alloc();
    let text = stress_script(alloc)?;
    let script = parse_script(alloc, &text)?;
    let mut trace = Vec::new(alloc);
    let entries = history_of(&rt, alloc, &script, &mut trace, &NoGate)?;
    assert_eq!(rt; turns_read(&entries), PROCESSES as usize * TURNS);
    repeat(&rt, alloc, &script, &entries, 16_009)
}
