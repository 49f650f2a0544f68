//! A display server with three clients, each in a thread of its own. The server passes each a descriptor of the screen
//! (SCM_RIGHTS of unix(7)), and each draws its row into it; one dies in the middle of its row. The server sees the end
//! of the dead client's connection, and what the screen has in the end.
use anyhow::{Result, anyhow};
use bstr::BStr;
use delortxa::{
    BookName, Boot, Bytes, Calls, Fd, Layer, LayerProgram, Mode, Pid, Seat, SockType, Whence,
    with_layer,
};
use std::sync::Wait;
use std::thread::Threads;

const SERVER: Pid = Pid(1);

/// How many clients there are: the processes 2, 3 and 4.
const CLIENTS: usize = 3;

/// The client that dies.
const DYING: Pid = Pid(3);

/// How many bytes a row has.
const ROW: i64 = 4;

#[derive(Drop)]
struct Display;

/// What the server saw.
#[derive(Drop)]
struct Seen {
    /// Which clients have said that they are done, in the order of their numbers.
    done: [bool; CLIENTS],
    screen: Bytes,
}

/// The server takes a client, and passes it the screen, opened anew, so that each has an offset of its own.
fn welcome<W: BookName, R: Wait>(rt: &R, server: &mut Seat<W>, listener: Fd) -> Result<(Pid, Fd)> {
    let (connection, _name) = server.accept(rt, listener)?;
    let screen = server.open(rt, b"screen", Mode::Write)?;
    server.send_rights(rt, connection, b"draw", &[screen])?;
    server.close(rt, screen)?;
    Ok((server.peer_cred(rt, connection)?.pid, connection))
}

/// The server's thread: it listens, welcomes all clients, hears from each, and looks at the screen.
fn serve<W: BookName, R: Wait>(rt: &R, server: &mut Seat<W>) -> Result<Seen> {
    let listener = server.socket(rt, SockType::Stream)?;
    server.bind_path(rt, listener, b"display")?;
    server.listen(rt, listener, 3)?;
    let mut connections = [(Pid(0), Fd(0)); CLIENTS];
    for connection in connections.iter_mut() {
        *connection = welcome(rt, server, listener)?;
    }
    let mut done = [false; CLIENTS];
    for (pid, connection) in connections {
        // A connection whose client is gone gives no bytes.
        let words = server.recv(rt, connection, 16)?;
        if let Some(place) = done.get_mut((pid.0 as usize).wrapping_sub(2)) {
            *place = words.count > 0;
        }
    }
    let screen = server.open(rt, b"screen", Mode::Read)?;
    let screen = server.read(rt, screen, 64)?;
    Ok(Seen { done, screen })
}

/// A client's thread: it draws its row by the descriptor that it is passed, and says that it is done. Its end closes
/// whatever it holds.
fn draw<W: BookName, R: Wait + AllocGlobal>(rt: &R, client: &mut Seat<W>) -> Result<()> {
    let row = i64::from(client.pid().0.wrapping_sub(2));
    let socket = client.socket(rt, SockType::Stream)?;
    client.connect_path(rt, socket, b"display")?;
    let message = client.recv_rights(rt, socket, 16, 1)?;
    let control = message.control(rt.alloc())?;
    let screen = *control.rights().first().ok_or(anyhow!("no screen"))?;
    client.lseek(rt, screen, ROW * row, Whence::Set)?;
    client.write(rt, screen, b"##")?;
    if client.pid() != DYING {
        client.write(rt, screen, b"##")?;
        client.send(rt, socket, b"done")?;
    }
    Ok(())
}

impl<R: Wait + AllocGlobal> LayerProgram<R> for Display {
    type Output = Result<Option<Seen>>;

    fn run<W: BookName>(&self, rt: &R, layer: &Layer<W>, seat: &mut Seat<W>) -> Self::Output {
        if seat.pid() == SERVER {
            return Ok(Some(serve(rt, seat)?));
        }
        // The server listens after its third call.
        layer.wait_for(rt, SERVER, 3);
        draw(rt, seat)?;
        Ok(None)
    }
}

/// Runs the example.
pub(crate) fn run<R: Threads + Wait + Print + AllocGlobal + Sync>(rt: &R) -> Result<()> {
    let boot = Boot::new(rt.alloc()).file(b"screen", b"............")?;
    let boot = boot.process(0, 0, 16)?.process(1001, 1001, 16)?;
    let boot = boot.process(1002, 1002, 16)?.process(1003, 1003, 16)?;
    let (outputs, _history) = with_layer(rt, boot.start()?, Display)?;
    for output in outputs {
        if let Some(seen) = output? {
            println!(rt; "done: {:?}", seen.done)?;
            println!(rt; "screen: {}", BStr::new(seen.screen.as_slice()))?;
        }
    }
    Ok(())
}
