//! What no script shows of names and connections: the flags of an accepted end, and sockets of another type. The
//! rest of them stands in the scripts of `examples/`, and in the kernel's tests.
use super::{Held, close, process, settle, start_with, user};
use std::alloc::Global;
use std::process::Abort;
use std::test::Fail;
use ux_backlog::PushError;
use ux_fdtable::InstallError;
use ux_names::{AutobindError, BindError};
use ux_object::FileObject;
use ux_objects::Counter;
use ux_state::State;
use ux_types::{Addr, DescriptionId, Errno, Fd, Name, OpenFlags, Pid, SockType};

/// The first state with one process, which may have so many descriptors.
fn start_alone(rt: &impl Abort, alloc: Global, limit: u32) -> Result<Held<Counter>, Fail> {
    start_with(rt, alloc, Counter::new(), Counter::new(), &[process(limit)])
}

/// Makes a socket of process 1, which gets this number.
fn open_socket<O: FileObject>(rt: &impl Abort, state: &mut State<O>, fd: u32) {
    assert!(rt; state.is_live(Pid(1)));
    let opened = state.open_socket(Pid(1), SockType::Stream, OpenFlags(0));
    assert!(rt; opened == Ok(Fd(fd)));
}

/// Gives a socket a path, which gives this answer.
fn bind_path<O: FileObject>(
    rt: &impl Abort,
    state: &mut State<O>,
    id: u128,
    path: &Name,
    answer: Result<(), BindError>,
) {
    let id = DescriptionId::new(id);
    assert!(rt; state.socket(id).is_some_and(|socket| socket.is_unnamed()));
    let bound = state.bind_path(id, path);
    assert!(rt; bound == answer);
}

/// Gives a socket a name of the abstract namespace, which gives this answer.
fn bind_abstract<O: FileObject>(
    rt: &impl Abort,
    state: &mut State<O>,
    id: u128,
    name: &Name,
    answer: Result<(), BindError>,
) {
    let id = DescriptionId::new(id);
    assert!(rt; state.socket(id).is_some_and(|socket| socket.is_unnamed()));
    let bound = state.bind_abstract(id, name);
    assert!(rt; bound == answer);
}

/// Sees which socket an abstract name leads to.
fn expect_abstract<O: FileObject>(
    rt: &impl Abort,
    state: &State<O>,
    name: &Name,
    id: Option<u128>,
) {
    let found = state.abstract_name(name).map(|found| found.number());
    assert!(rt; found == id);
}

/// Sees which name the client of a server's end has, if the client is there.
fn expect_client<O: FileObject>(rt: &impl Abort, state: &State<O>, end: u128, name: Option<&Addr>) {
    assert!(rt; state.client_name(DescriptionId::new(end)) == name);
}

/// Sees which name the peer of a socket has, or why none.
fn expect_peer<O: FileObject>(
    rt: &impl Abort,
    state: &State<O>,
    id: u128,
    answer: Result<&Addr, Errno>,
) {
    match state.socket(DescriptionId::new(id)) {
        Some(socket) => assert!(rt; state.peer_name(socket) == answer),
        None => assert!(rt; false),
    }
}

/// Has the layer choose a socket's name, which gives this answer.
fn autobind<O: FileObject>(
    rt: &impl Abort,
    state: &mut State<O>,
    id: u128,
    answer: Result<(), AutobindError>,
) {
    let id = DescriptionId::new(id);
    assert!(rt; state.socket(id).is_some_and(|socket| socket.is_unnamed()));
    let bound = state.autobind(id);
    assert!(rt; bound == answer);
}

/// Has a socket listen.
fn listen<O: FileObject>(rt: &impl Abort, state: &mut State<O>, id: u128, backlog: i32) {
    let id = DescriptionId::new(id);
    assert!(rt;
        state
            .socket(id)
            .is_some_and(|socket| !socket.is_connected())
    );
    state.listen(id, backlog, user());
}

/// Connects a socket to a listener, which gives this answer.
fn connect<O: FileObject>(
    rt: &impl Abort,
    state: &mut State<O>,
    client: u128,
    listener: u128,
    answer: Result<(), PushError>,
) {
    let client = DescriptionId::new(client);
    let listener = DescriptionId::new(listener);
    assert!(rt;
        state
            .socket(client)
            .is_some_and(|socket| !socket.is_connected())
    );
    assert!(rt;
        state
            .socket(client)
            .is_some_and(|socket| !socket.is_listening())
    );
    assert!(rt;
        state
            .socket(listener)
            .is_some_and(|socket| socket.is_listening())
    );
    let connected = state.connect(client, listener, user());
    assert!(rt; connected == answer);
}

/// Accepts the oldest end that waits at a listener with these flags, which gives this answer.
fn accept<O: FileObject>(
    rt: &impl Abort,
    state: &mut State<O>,
    listener: u128,
    flags: OpenFlags,
    answer: Result<Fd, InstallError>,
) {
    let listener = DescriptionId::new(listener);
    assert!(rt; state.is_live(Pid(1)));
    assert!(rt; state.first_pending(listener).is_some());
    let accepted = state.accept(Pid(1), listener, flags);
    assert!(rt; accepted == answer);
}

/// Sees whether a number of process 1 is closed on exec, and whether its description is non-blocking.
fn expect_flags<O: FileObject>(
    rt: &impl Abort,
    state: &State<O>,
    fd: u32,
    cloexec: bool,
    nonblock: bool,
) {
    assert!(rt; state.is_live(Pid(1)));
    match state.find_description(Pid(1), Fd(fd)) {
        Ok(found) => {
            assert!(rt; found.descriptor.cloexec == cloexec);
            assert!(rt; found.description.nonblock() == nonblock);
        }
        Err(_) => assert!(rt; false),
    }
}

/// Sees which socket of a type an address leads to, or why none.
fn expect_named<O: FileObject>(
    rt: &impl Abort,
    state: &State<O>,
    kind: SockType,
    addr: &Addr,
    answer: Result<u128, Errno>,
) {
    match state.socket_named(kind, addr) {
        Ok(found) => assert!(rt; answer == Ok(found.id.number())),
        Err(refusal) => assert!(rt; answer == Err(refusal)),
    }
}

#[test]
fn an_accepted_end_has_the_flags_of_the_call(rt: HostRuntime) -> Result<(), Fail> {
    let alloc = rt.alloc();
    let mut held = start_alone(&rt, alloc, 8)?;
    let s = &mut held.state;
    for fd in 0..3 {
        open_socket(&rt, s, fd);
    }
    autobind(&rt, s, 0, Ok(()));
    s.set_flags(DescriptionId::new(0), OpenFlags(2));
    listen(&rt, s, 0, 2);
    connect(&rt, s, 1, 0, Ok(()));
    connect(&rt, s, 2, 0, Ok(()));
    accept(&rt, s, 0, OpenFlags(4), Ok(Fd(3)));
    accept(&rt, s, 0, OpenFlags(2), Ok(Fd(4)));
    expect_flags(&rt, s, 0, false, true);
    expect_flags(&rt, s, 3, true, false);
    expect_flags(&rt, s, 4, false, true);
    Ok(())
}

#[test]
fn a_name_leads_to_sockets_of_one_type(rt: HostRuntime) -> Result<(), Fail> {
    let alloc = rt.alloc();
    let mut held = start_alone(&rt, alloc, 8)?;
    let s = &mut held.state;
    open_socket(&rt, s, 0);
    bind_path(&rt, s, 0, &Name::from_slice(alloc, b"p")?, Ok(()));
    let addr = Addr::Path(Name::from_slice(alloc, b"p")?);
    expect_named(&rt, s, SockType::Stream, &addr, Ok(0));
    expect_named(&rt, s, SockType::Seq, &addr, Err(Errno::EPROTOTYPE));
    Ok(())
}

#[test]
fn an_abstract_name_is_freed_with_its_socket(rt: HostRuntime) -> Result<(), Fail> {
    let alloc = rt.alloc();
    let mut held = start_alone(&rt, alloc, 8)?;
    let s = &mut held.state;
    open_socket(&rt, s, 0);
    open_socket(&rt, s, 1);
    let name = Name::from_slice(alloc, b"n\0m")?;
    expect_abstract(&rt, s, &name, None);
    bind_abstract(&rt, s, 0, &name, Ok(()));
    bind_abstract(&rt, s, 1, &name, Err(BindError::Taken));
    expect_abstract(&rt, s, &name, Some(0));
    close(&rt, s, 1, 0);
    settle(&rt, s, &[]);
    expect_abstract(&rt, s, &name, None);
    bind_abstract(&rt, s, 1, &name, Ok(()));
    expect_abstract(&rt, s, &name, Some(1));
    Ok(())
}

#[test]
fn each_end_of_a_connection_shows_the_others_name(rt: HostRuntime) -> Result<(), Fail> {
    let alloc = rt.alloc();
    let mut held = start_alone(&rt, alloc, 8)?;
    let s = &mut held.state;
    open_socket(&rt, s, 0);
    open_socket(&rt, s, 1);
    let path = Name::from_slice(alloc, b"p")?;
    let name = Name::from_slice(alloc, b"c")?;
    bind_path(&rt, s, 0, &path, Ok(()));
    listen(&rt, s, 0, 1);
    expect_peer(&rt, s, 1, Err(Errno::ENOTCONN));
    // The new end is the description 2.
    connect(&rt, s, 1, 0, Ok(()));
    let listener = Addr::Path(path);
    expect_peer(&rt, s, 1, Ok(&listener));
    expect_peer(&rt, s, 2, Ok(&Addr::Unnamed));
    expect_client(&rt, s, 2, Some(&Addr::Unnamed));
    // The client's name is the one that it has now.
    bind_abstract(&rt, s, 1, &name, Ok(()));
    let client = Addr::Abstract(name);
    expect_peer(&rt, s, 2, Ok(&client));
    expect_client(&rt, s, 2, Some(&client));
    close(&rt, s, 1, 1);
    settle(&rt, s, &[]);
    expect_peer(&rt, s, 2, Err(Errno::ENOTCONN));
    expect_client(&rt, s, 2, None);
    Ok(())
}
