//! A server and a client, each a process in a thread of its own. The client says its name, and is greeted.
use anyhow::Result;
use bstr::BStr;
use delortxa::{
    BookName, Boot, Bytes, CallError, Calls, Layer, LayerProgram, Pid, Seat, SockType, with_layer,
};
use std::sync::Wait;
use std::thread::Threads;

const SERVER: Pid = Pid(1);

/// Greets the first client, and gives what that has said.
fn greet<W: BookName, R: Wait>(rt: &R, seat: &mut Seat<W>) -> Result<Bytes, CallError> {
    let listener = seat.socket(rt, SockType::Stream)?;
    seat.bind_abstract(rt, listener, b"greeter")?;
    seat.listen(rt, listener, 1)?;
    let (client, _name) = seat.accept(rt, listener)?;
    let said = seat.recv(rt, client, 64)?;
    seat.send(rt, client, b"hello")?;
    Ok(said.bytes)
}

/// Says its name, and gives the answer.
fn introduce<W: BookName, R: Wait>(
    rt: &R,
    layer: &Layer<W>,
    seat: &mut Seat<W>,
) -> Result<Bytes, CallError> {
    // The server has made three calls once it listens.
    layer.wait_for(rt, SERVER, 3);
    let socket = seat.socket(rt, SockType::Stream)?;
    seat.connect_abstract(rt, socket, b"greeter")?;
    seat.send(rt, socket, b"ada")?;
    Ok(seat.recv(rt, socket, 64)?.bytes)
}

#[derive(Drop)]
struct Greeter;

impl<R: Wait> LayerProgram<R> for Greeter {
    type Output = Result<Bytes, CallError>;

    fn run<W: BookName>(&self, rt: &R, layer: &Layer<W>, seat: &mut Seat<W>) -> Self::Output {
        match seat.pid() {
            SERVER => greet(rt, seat),
            _ => introduce(rt, layer, seat),
        }
    }
}

pub(crate) fn run<R: Threads + Wait + Print + AllocGlobal + Sync>(rt: &R) -> Result<()> {
    let boot = Boot::new(rt.alloc()).process(1000, 1000, 16)?;
    let kernel = boot.process(1000, 1000, 16)?.start()?;
    let (given, _history) = with_layer(rt, kernel, Greeter)?;
    for bytes in given {
        println!(rt; "greeter: {}", BStr::new(bytes?.as_slice()))?;
    }
    Ok(())
}
