//! Each move of a state, and what comes out of it at the end of a call. The steps are functions that
//! promise nothing, so that the proofs needn't follow a state through a test.
ghost use Rattle.std.specs.Prelude.{◌≡◌};

mod connections;
mod files;
mod flights;
mod new_files;
mod processes;
mod sockets;

use std::alloc::{AllocError, Global};
use std::process::Abort;
use std::test::Fail;
use ux_fdtable::InstallError;
use ux_names::Seed;
use ux_object::FileObject;
use ux_objects::MemFile;
use ux_rights::{Draft, RefList};
use ux_state::{ReleasedObjects, State};
use ux_types::{
    Bytes, Cred, DescriptionId, Errno, Fd, Mode, Name, OpenFlags, Pid, ProcSpec, SHORT_BYTES,
    SockType,
};

/// A user's process with this descriptor limit.
fn process(limit: u32) -> ProcSpec {
    ProcSpec {
        uid: 1000,
        gid: 1000,
        privileged: false,
        limit,
    }
}

/// The credentials of such a process with number 1.
fn user() -> Cred {
    Cred {
        pid: Pid(1),
        uid: 1000,
        gid: 1000,
    }
}

/// A state of a test.
struct Held<O: FileObject> {
    state: State<O>,
}

/// Written out, a drop is a call, and not each part of the state in the proof of each test.
impl<O: FileObject> Drop for Held<O> {
    fn drop(self) {
        let Held { state } = self;
        drop(state);
    }
}

/// The first state with these two file objects under the paths `a` and `b`, and with two processes,
/// which may have four descriptors and one.
fn start<O: FileObject>(rt: &impl Abort, alloc: Global, a: O, b: O) -> Result<Held<O>, Fail> {
    start_with(rt, alloc, a, b, &[process(4), process(1)])
}

/// The same with these processes.
fn start_with<O: FileObject>(
    rt: &impl Abort,
    alloc: Global,
    a: O,
    b: O,
    procs: &[ProcSpec],
) -> Result<Held<O>, Fail> {
    assert!(rt; procs.len() <= 64);
    assert!(rt; a.is_open());
    assert!(rt; b.is_open());
    let (first, second) = (
        Name::from_slice(alloc, b"a")?,
        Name::from_slice(alloc, b"b")?,
    );
    assert!(rt; second != first);
    let mut objects = Vec::with_capacity(alloc, 2)?;
    objects.push_reserved((first, a));
    objects.push_reserved((second, b));
    match State::new(alloc, Seed::fixed(), objects, procs) {
        Ok(state) => Ok(Held { state }),
        Err(_) => Err(AllocError)?,
    }
}

/// The same with two memory files.
fn start_with_files(rt: &impl Abort, alloc: Global) -> Result<Held<MemFile>, Fail> {
    let a = MemFile::new(alloc, b"abc")?;
    let b = MemFile::new(alloc, b"xy")?;
    start(rt, alloc, a, b)
}

/// Opens a file object, which gives this answer.
fn open<O: FileObject>(
    rt: &impl Abort,
    state: &mut State<O>,
    pid: u32,
    object: u32,
    mode: Mode,
    answer: Result<Fd, InstallError>,
) {
    assert!(rt; state.is_live(Pid(pid)));
    let opened = state.open_object(Pid(pid), object, mode, OpenFlags(0));
    assert!(rt; opened == answer);
}

/// Opens two sockets of process 1 that are connected to one another, at these numbers.
fn open_pair<O: FileObject>(rt: &impl Abort, state: &mut State<O>, low: u32, high: u32) {
    assert!(rt; state.is_live(Pid(1)));
    let opened = state.open_pair(Pid(1), SockType::Stream, OpenFlags(0), user());
    assert!(rt; opened == Ok((Fd(low), Fd(high))));
}

/// Closes a number.
fn close<O: FileObject>(rt: &impl Abort, state: &mut State<O>, pid: u32, fd: u32) {
    assert!(rt; state.is_live(Pid(pid)));
    state.take_entry(Pid(pid), Fd(fd));
}

/// Ends a process.
fn end<O: FileObject>(rt: &impl Abort, state: &mut State<O>, pid: u32) {
    assert!(rt; state.is_live(Pid(pid)));
    state.end_process(Pid(pid));
    assert!(rt; !state.is_live(Pid(pid)));
}

/// What the process of a user sends.
fn draft(bytes: &Bytes, uid: u32) -> Draft<'_>
    ensures { result.bytes.now ≡ bytes.now }
{
    Draft {
        tag: 1,
        bytes,
        cred: user(),
        uid,
    }
}

/// Sends bytes to a socket.
fn append<O: FileObject>(
    rt: &impl Abort,
    alloc: Global,
    state: &mut State<O>,
    id: u128,
    bytes: &[u8],
) {
    let id = DescriptionId::new(id);
    assert!(rt; !bytes.is_empty());
    assert!(rt; bytes.len() <= SHORT_BYTES);
    let bytes = Bytes::short(bytes);
    assert!(rt; state.socket(id).is_some());
    let sent = state.send(id, draft(&bytes, 1000), RefList::new(alloc), None);
    assert!(rt; sent == Ok(bytes.len()));
}

/// Sends a reference to a description to a socket, for a process of a user.
fn pass<O: FileObject>(
    rt: &impl Abort,
    alloc: Global,
    state: &mut State<O>,
    id: u128,
    passed: u128,
    uid: u32,
) -> Result<(), AllocError> {
    let id = DescriptionId::new(id);
    let passed = DescriptionId::new(passed);
    assert!(rt; state.socket(id).is_some());
    assert!(rt; state.count(passed) > 0);
    let rights = RefList::from_slice(alloc, &[passed])?;
    let sent = state.send(id, draft(&Bytes::short(b"x"), uid), rights, None);
    assert!(rt; sent == Ok(1));
    Ok(())
}

/// Sees which socket a number of process 1 leads to, by its own handle and its peer's, or why none.
fn expect_socket<O: FileObject>(
    rt: &impl Abort,
    state: &State<O>,
    fd: u32,
    answer: Result<(u128, u128), Errno>,
) {
    assert!(rt; state.is_live(Pid(1)));
    match state.find_socket(Pid(1), Fd(fd)) {
        Ok(found) => match found.socket.peer() {
            Some(peer) => assert!(rt; answer == Ok((found.id.number(), peer.number())), "{fd}"),
            None => assert!(rt; false, "{fd}"),
        },
        Err(refusal) => assert!(rt; answer == Err(refusal), "{fd}"),
    }
}

/// Sees what waits at a socket, and whether it is reset.
fn expect_queue<O: FileObject>(
    rt: &(impl Abort + AllocGlobal),
    state: &State<O>,
    id: u128,
    bytes: &[u8],
    reset: bool,
) -> Result<(), Fail> {
    match state.socket(DescriptionId::new(id)) {
        Some(socket) => {
            assert!(rt; socket.reset() == reset);
            assert!(rt; socket.is_empty() == bytes.is_empty());
            if !socket.is_empty() {
                let front = socket.peek(rt.alloc(), 100)?;
                assert!(rt; front.bytes.as_slice() == bytes);
            }
        }
        None => assert!(rt; false),
    }
    Ok(())
}

/// Ends a call, and sees which file objects are released, each closed and gone from the state.
fn settle<O: FileObject>(rt: &(impl Abort + AllocGlobal), state: &mut State<O>, numbers: &[u32]) {
    let mut released = ReleasedObjects::new(rt.alloc());
    let told = state.settle(&mut released);
    assert!(rt; released.len() == numbers.len());
    let (first, others) = told.parts();
    assert!(rt; first.iter().chain(others).eq(numbers.iter()));
    for (gone, number) in released.iter().zip(numbers) {
        assert!(rt; gone.number() == *number);
        assert!(rt; state.object(*number).is_none());
        assert!(rt; gone.object().is_some_and(|object| !object.is_open()));
    }
}
