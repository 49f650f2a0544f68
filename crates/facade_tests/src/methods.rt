//! Every method by which a process calls, once answered and once refused by an errno, with 16 numbers for descriptors.
//! exec(2) and poll(2) aren't refused.

use delortxa::{Boot, CallError, Calls, Cred, Errno, ObjError, Pid};
use std::alloc::{AllocError, Global};
use std::test::Fail;

mod files;
mod sockets;
mod users;

/// The process that makes the calls.
pub(crate) const CALLER: Cred = Cred {
    pid: Pid(1),
    uid: 1000,
    gid: 100,
};

/// How many calls `call_all` makes, each of which is an entry.
pub(crate) const CALLS: u64 = 116;

/// How many processes there may be, those that have exited too.
pub(crate) const MOST: u32 = 1024;

/// A call gave another value, or another error: the method.
#[derive(Clone, Copy, Debug, PartialEq, Eq)]
pub(crate) struct Wrong(pub(crate) &'static str);

impl From<AllocError> for Wrong {
    fn from(_error: AllocError) -> Wrong {
        Wrong("memory")
    }
}

/// Sees that a method gave this.
pub(crate) fn gives<T: PartialEq + Drop>(
    method: &'static str,
    got: Result<T, CallError>,
    wanted: T,
) -> Result<(), Wrong> {
    match got {
        Ok(value) if value == wanted => Ok(()),
        _ => Err(Wrong(method)),
    }
}

/// Sees that a method was refused so.
pub(crate) fn refuses<T: Drop>(
    method: &'static str,
    got: Result<T, CallError>,
    errno: Errno,
) -> Result<(), Wrong> {
    match got {
        Err(CallError::Refused(refusal)) if refusal == errno => Ok(()),
        _ => Err(Wrong(method)),
    }
}

/// Makes all the calls, by a process that has made none.
pub(crate) fn call_all<C: Copy, P: Calls<C>>(process: &mut P, who: C) -> Result<(), Wrong> {
    files::open_and_move(process, who)?;
    files::copy_and_close(process, who)?;
    users::take_ids(process, who)?;
    files::use_objects(process, who)?;
    files::make_objects(process, who)?;
    sockets::listen_at_a_path(process, who)?;
    sockets::talk(process, who)?;
    sockets::set_options(process, who)?;
    sockets::listen_at_a_name(process, who)?;
    sockets::fill_the_table(process, who)
}

/// An object of each kind, and two processes, of which the first is the caller.
pub(crate) fn boot_all(alloc: Global) -> Result<Boot, Fail> {
    match boot_objects(alloc) {
        Ok(boot) => {
            let boot = boot.process(CALLER.uid, CALLER.gid, 16)?;
            Ok(boot.process(2000, 200, 16)?)
        }
        Err(_) => Err(Fail::from("no object")),
    }
}

/// The objects.
fn boot_objects(alloc: Global) -> Result<Boot, ObjError> {
    let boot = Boot::new(alloc).file(b"notes", b"")?.counter(b"count")?;
    boot.pipe(b"pipe")?.failing_file(b"worn", b"x", 1)
}
