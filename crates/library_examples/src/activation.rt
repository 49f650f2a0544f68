//! A test of a service manager that activates a service by its socket. The manager opens its log and its key with
//! close-on-exec and the listening socket without it, and makes a child, in which the service's program starts. The
//! test then looks at what the service holds: the socket, at the number that it had, and nothing else of the manager's.
use anyhow::{Result, anyhow};
use delortxa::{
    BookName, BookProgram, Boot, CallError, Calls, Fd, Mode, OpenFlags, Pid, Session, SockType,
    with_book,
};
use std::alloc::{AllocError, Global};

const MANAGER: Pid = Pid(1);

const CLIENT: Pid = Pid(2);

/// What the test found.
#[derive(Drop)]
struct Found {
    /// The listening socket's number, in the manager and so in the service.
    listener: Fd,
    /// What the service holds when its program has started.
    at_start: Vec<Fd>,
    /// What it holds once it has taken a client.
    at_work: Vec<Fd>,
    /// What the manager holds then.
    manager: Vec<Fd>,
    /// How many bytes the service read of the client's greeting.
    greeting: usize,
}

#[derive(Drop)]
struct Activation {
    alloc: Global,
}

/// The descriptors of this process, rising.
fn held_by<W: BookName>(
    alloc: Global,
    session: &Session<W>,
    pid: Pid,
) -> Result<Vec<Fd>, AllocError> {
    let mut held = Vec::new(alloc);
    for (holder, fd) in session.holdings(alloc)?.iter() {
        if *holder == pid {
            held.push(*fd)?;
        }
    }
    Ok(held)
}

/// The manager opens its files and the socket, and gives the socket's number.
fn prepare<W: BookName>(session: &mut Session<W>) -> Result<Fd, CallError> {
    session.open_with(MANAGER, b"log", Mode::Write, OpenFlags::CLOEXEC)?;
    session.open_with(MANAGER, b"key", Mode::Read, OpenFlags::CLOEXEC)?;
    let listener = session.socket(MANAGER, SockType::Stream)?;
    session.bind_path(MANAGER, listener, b"service")?;
    session.listen(MANAGER, listener, 4)?;
    Ok(listener)
}

/// A client connects and greets, and the service takes it: how many bytes it read.
fn greet<W: BookName>(
    session: &mut Session<W>,
    service: Pid,
    listener: Fd,
) -> Result<usize, CallError> {
    let socket = session.socket(CLIENT, SockType::Stream)?;
    session.connect_path(CLIENT, socket, b"service")?;
    session.send(CLIENT, socket, b"hello")?;
    let (connection, _client) = session.accept(service, listener)?;
    Ok(session.recv(service, connection, 64)?.count)
}

impl BookProgram for Activation {
    type Output = Result<Found, CallError>;

    fn run<W: BookName>(self, session: &mut Session<W>) -> Self::Output {
        let alloc = self.alloc;
        let listener = prepare(session)?;
        let service = session.fork(MANAGER)?;
        session.exec(service)?;
        let at_start = held_by(alloc, session, service)?;
        session.close(MANAGER, listener)?;
        let greeting = greet(session, service, listener)?;
        Ok(Found {
            listener,
            at_start,
            at_work: held_by(alloc, session, service)?,
            manager: held_by(alloc, session, MANAGER)?,
            greeting,
        })
    }
}

/// Runs the test, and says what it found.
pub(crate) fn run(rt: &(impl Print + AllocGlobal)) -> Result<()> {
    let alloc = rt.alloc();
    let boot = Boot::new(alloc).file(b"log", b"")?.file(b"key", b"secret")?;
    let boot = boot.process(0, 0, 16)?.process(1000, 1000, 16)?;
    let (found, _history) = with_book(alloc, boot.start()?, Activation { alloc })?;
    let found = found?;
    if found.at_start.as_slice() != [found.listener].as_slice() {
        return Err(anyhow!("the service holds more than the socket"));
    }
    println!(rt; "at its start the service holds {:?}", found.at_start)?;
    println!(rt; "with a client it holds {:?}", found.at_work)?;
    println!(rt; "the manager holds {:?}", found.manager)?;
    println!(rt; "the service read {} bytes", found.greeting)?;
    Ok(())
}
