//! A key server whose parts are kept apart (privilege separation). The monitor alone opens the secret, and passes it to
//! the worker, for reading (SCM_RIGHTS of unix(7)); the worker tells a client whether it has guessed it. Each is a
//! process in a thread of its own. Proved, in whatever order they make their calls: the secret stays as it is, whoever
//! reads it is answered a run of its bytes, and the client, which is sent no descriptor, has none that leads to it.
ghost use Rattle.std.specs.Prelude.{◌≡◌, ℕ, true, false, IfOk, codes};
ghost use Rattle.ux_laws.specs.Separation.{IsSeparated};
ghost use Rattle.ux_book.specs.Books.{has_own_call};
ghost use Rattle.library_examples.specs.KeyServer.{Keeps, key_boot, leaves};

use anyhow::Result;
use bstr::BStr;
use delortxa::{
    BookName, Boot, Bytes, CallError, CallFault, Calls, Entry, Fd, Layer, LayerProgram, Mode, Pid,
    Reply, ReplyExt, Request, Seat, SockType, call, with_layer,
};
use std::alloc::Global;
use std::sync::Wait;
use std::thread::Threads;

const MONITOR: Pid = Pid(1);

const WORKER: Pid = Pid(2);

const CLIENT: Pid = Pid(3);

/// Whether the request is to be made by `ask`: it opens no path, and neither makes nor ends a process.
fn is_plain(request: &Request) -> bool
    ensures leaves { result ≡ true → (p : ℕ) → leaves p request.now ≡ true }
    ensures own_call { result ≡ true → has_own_call request.now ≡ false }
{
    !matches!(
        request,
        Request::Open { .. } | Request::Fork | Request::Exit | Request::Off
    )
}

/// Makes a call of this process that leaves the secret to the monitor, and no other.
fn ask<W: BookName, R: Wait>(
    rt: &R,
    pid: Pid,
    seat: &mut Seat<W>,
    request: &Request,
) -> Result<Reply, CallError>
    requires { Keeps pid seat.old }
    ensures { Keeps pid seat.new }
{
    if !is_plain(request) {
        return Err(CallError::Fault(CallFault::Stranger));
    }
    match seat.ask(rt, request) {
        Ok(reply) => Ok(reply),
        Err(fault) => Err(CallError::Fault(fault)),
    }
}

/// A socket that listens at this name.
fn listen<W: BookName, R: Wait>(
    rt: &R,
    alloc: Global,
    pid: Pid,
    seat: &mut Seat<W>,
    name: &[u8],
) -> Result<Fd, CallError>
    requires { Keeps pid seat.old }
    ensures { Keeps pid seat.new }
{
    let listener = ask(rt, pid, seat, &call::socket(SockType::Stream))?.fd()?;
    ask(rt, pid, seat, &call::bind_abstract(alloc, listener, name)?)?.done()?;
    ask(rt, pid, seat, &call::listen(listener, 1))?.done()?;
    Ok(listener)
}

/// A socket that is connected to the one that listens at this name.
fn connect<W: BookName, R: Wait>(
    rt: &R,
    alloc: Global,
    pid: Pid,
    seat: &mut Seat<W>,
    name: &[u8],
) -> Result<Fd, CallError>
    requires { Keeps pid seat.old }
    ensures { Keeps pid seat.new }
{
    let socket = ask(rt, pid, seat, &call::socket(SockType::Stream))?.fd()?;
    ask(rt, pid, seat, &call::connect_abstract(alloc, socket, name)?)?.done()?;
    Ok(socket)
}

/// The monitor opens the secret, and passes it to who connects first.
fn guard<W: BookName, R: Wait>(
    rt: &R,
    alloc: Global,
    seat: &mut Seat<W>,
) -> Result<Bytes, CallError>
    requires { Keeps (record { 0 = 1 }) seat.old }
    ensures { Keeps (record { 0 = 1 }) seat.new }
{
    let secret = seat.open(rt, b"secret", Mode::Read)?;
    let listener = listen(rt, alloc, MONITOR, seat, b"monitor")?;
    let (worker, _name) = ask(rt, MONITOR, seat, &call::accept(listener))?.accepted()?;
    let pass = call::send_rights(alloc, worker, b"key", &[secret])?;
    ask(rt, MONITOR, seat, &pass)?.count()?;
    Ok(Bytes::empty())
}

/// The worker is passed the secret, reads it, and tells the client whether it has guessed it.
fn work<W: BookName, R: Wait>(
    rt: &R,
    alloc: Global,
    layer: &Layer<W>,
    seat: &mut Seat<W>,
) -> Result<Bytes, CallError>
    requires { Keeps (record { 0 = 2 }) seat.old }
    ensures { Keeps (record { 0 = 2 }) seat.new }
{
    // The monitor listens.
    layer.wait_for(rt, MONITOR, 4);
    let socket = connect(rt, alloc, WORKER, seat, b"monitor")?;
    ask(rt, WORKER, seat, &call::recv_rights(socket, 8, 1))?.message()?;
    // It was passed the lowest number that was free.
    let secret = ask(rt, WORKER, seat, &call::read(Fd(1), 64))?.bytes()?;
    let listener = listen(rt, alloc, WORKER, seat, b"worker")?;
    let (client, _name) = ask(rt, WORKER, seat, &call::accept(listener))?.accepted()?;
    let guess = ask(rt, WORKER, seat, &call::recv(client, 64))?
        .message()?
        .bytes;
    let is_right = guess.as_slice() == secret.as_slice();
    let answer = call::send(alloc, client, if is_right { b"yes" } else { b"no" })?;
    ask(rt, WORKER, seat, &answer)?.count()?;
    Ok(secret)
}

/// The client guesses, and is told whether it is right.
fn guess<W: BookName, R: Wait>(
    rt: &R,
    alloc: Global,
    layer: &Layer<W>,
    seat: &mut Seat<W>,
) -> Result<Bytes, CallError>
    requires { Keeps (record { 0 = 3 }) seat.old }
    ensures { Keeps (record { 0 = 3 }) seat.new }
{
    // The worker listens.
    layer.wait_for(rt, WORKER, 7);
    let socket = connect(rt, alloc, CLIENT, seat, b"worker")?;
    ask(rt, CLIENT, seat, &call::send(alloc, socket, b"hunter1")?)?.count()?;
    let answer = ask(rt, CLIENT, seat, &call::recv(socket, 8))?.message()?;
    Ok(answer.bytes)
}

#[derive(Drop)]
struct KeyServer(Global);

impl<R: Wait> LayerProgram<R> for KeyServer {
    /// What the worker read of the secret, or what the client was told.
    type Output = Result<Bytes, CallError>;

    ghost use Rattle.library_examples.specs.KeyServer.{Keeps};

    ghost promise_of_calls = { λ _ pid _ _ caller. Keeps pid caller };

    fn run<W: BookName>(&self, rt: &R, layer: &Layer<W>, seat: &mut Seat<W>) -> Self::Output {
        match seat.pid() {
            MONITOR => guard(rt, self.0, seat),
            WORKER => work(rt, self.0, layer, seat),
            CLIENT => guess(rt, self.0, layer, seat),
            _ => Ok(Bytes::empty()),
        }
    }
}

/// What each process gives, and the history of all their calls.
fn serve<R: Threads + Wait + AllocGlobal + Sync>(
    rt: &R,
) -> Result<(Vec<Result<Bytes, CallError>>, Vec<Entry>)>
    // The secret is the file object 0, and the monitor process 1.
    ensures { IfOk result (λ r. IsSeparated key_boot r.1.items 1 0 (codes "hunter2")) }
{
    let alloc = rt.alloc();
    let boot = Boot::new(alloc).file(b"secret", b"hunter2")?;
    let boot = boot.process(0, 0, 16)?.process(1000, 1000, 16)?;
    let kernel = boot.process(2000, 2000, 16)?.start()?;
    Ok(with_layer(rt, kernel, KeyServer(alloc))?)
}

pub(crate) fn run<R: Threads + Wait + Print + AllocGlobal + Sync>(rt: &R) -> Result<()> {
    let (given, _history) = serve(rt)?;
    for bytes in given {
        println!(rt; "key server: {:?}", BStr::new(bytes?.as_slice()))?;
    }
    Ok(())
}
