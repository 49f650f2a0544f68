//! A parser without rights of its own. The monitor alone opens files; the parser asks for them by name over a
//! connection, gets each as a passed descriptor (SCM_RIGHTS of unix(7)), and counts its lines. The monitor looks who
//! has connected (SO_PEERCRED of unix(7)), and passes nothing to anybody else.
use anyhow::{Result, anyhow};
use delortxa::{
    BookName, BookProgram, Boot, CallError, Calls, Fd, Mode, Pid, Session, SockType, with_book,
};
use std::alloc::Global;

const MONITOR: Pid = Pid(1);

const PARSER: Pid = Pid(2);

const STRANGER: Pid = Pid(3);

/// The parser's user, to whom the monitor passes files.
const PARSER_USER: u32 = 1000;

/// The most bytes of a name or a file.
const MOST: usize = 256;

/// What came of it: how many lines each file has, what the stranger was passed, and who holds what at the end.
#[derive(Drop)]
struct Report {
    lines: Vec<usize>,
    to_stranger: Option<Fd>,
    holdings: Vec<(Pid, Fd)>,
}

/// The client connects, and the monitor takes it: the client's end, and the monitor's.
fn connect<W: BookName>(
    session: &mut Session<W>,
    listener: Fd,
    pid: Pid,
) -> Result<(Fd, Fd), CallError> {
    let socket = session.socket(pid, SockType::Seq)?;
    session.connect_abstract(pid, socket, b"monitor")?;
    let (connection, _name) = session.accept(MONITOR, listener)?;
    Ok((socket, connection))
}

/// The monitor answers a request: with the file, or with none where it isn't the parser who asked.
fn answer<W: BookName>(session: &mut Session<W>, connection: Fd) -> Result<(), CallError> {
    let name = session.recv(MONITOR, connection, MOST)?.bytes;
    if session.peer_cred(MONITOR, connection)?.uid != PARSER_USER {
        session.send(MONITOR, connection, b"no")?;
        return Ok(());
    }
    let file = session.open(MONITOR, name.as_slice(), Mode::Read)?;
    session.send_rights(MONITOR, connection, b"yes", &[file])?;
    session.close(MONITOR, file)
}

/// The client asks for a file: the descriptor, if the monitor passes one.
fn ask<W: BookName>(
    alloc: Global,
    session: &mut Session<W>,
    client: Pid,
    (socket, connection): (Fd, Fd),
    name: &[u8],
) -> Result<Option<Fd>> {
    session.send(client, socket, name)?;
    answer(session, connection)?;
    let message = session.recv_rights(client, socket, MOST, 1)?;
    Ok(message.control(alloc)?.rights().first().copied())
}

/// The parser's work on one file: how many lines it has.
fn count_lines<W: BookName>(session: &mut Session<W>, file: Fd) -> Result<usize, CallError> {
    let text = session.read(PARSER, file, MOST)?;
    session.close(PARSER, file)?;
    Ok(
        text.as_slice()
            .iter()
            .filter(|byte| **byte == b'\n')
            .count(),
    )
}

#[derive(Drop)]
struct Parsing(Global);

impl BookProgram for Parsing {
    type Output = Result<Report>;

    fn run<W: BookName>(self, session: &mut Session<W>) -> Self::Output {
        let listener = session.socket(MONITOR, SockType::Seq)?;
        session.bind_abstract(MONITOR, listener, b"monitor")?;
        session.listen(MONITOR, listener, 2)?;
        let parser = connect(session, listener, PARSER)?;
        let stranger = connect(session, listener, STRANGER)?;
        let mut lines = Vec::new(self.0);
        for name in [b"first", b"other"] {
            let file = ask(self.0, session, PARSER, parser, name)?.ok_or(anyhow!("no file"))?;
            lines.push(count_lines(session, file)?)?;
        }
        Ok(Report {
            lines,
            to_stranger: ask(self.0, session, STRANGER, stranger, b"first")?,
            holdings: session.holdings(self.0)?,
        })
    }
}

pub(crate) fn run(rt: &(impl Print + AllocGlobal)) -> Result<()> {
    let boot = Boot::new(rt.alloc())
        .file(b"first", b"a\nb\n")?
        .file(b"other", b"c\nd\ne\n")?;
    let boot = boot.process(0, 0, 16)?.process(PARSER_USER, 1000, 16)?;
    let kernel = boot.process(2000, 2000, 16)?.start()?;
    let (report, _history) = with_book(rt.alloc(), kernel, Parsing(rt.alloc()))?;
    let report = report?;
    println!(rt; "the files have {:?} lines", report.lines)?;
    println!(rt; "the stranger is passed {:?}", report.to_stranger)?;
    println!(rt; "at the end there are {:?}", report.holdings)?;
    Ok(())
}
