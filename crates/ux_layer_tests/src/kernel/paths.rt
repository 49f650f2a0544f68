//! Many paths of sockets that are gone, taken away from the oldest on.
use super::{Asked, Case, Machine, Row, Told, bare, expect_reply, expect_rows, process};
use std::alloc::{AllocError, Global};
use std::process::Abort;
use ux_types::{Addr, Errno, Fd, Name, Reply, Request};

/// How many paths there are.
const PATHS: usize = 4096;

const SOCKET: &[Row] = &[(1, Asked::Socket, Told::Fd(0))];

const CLOSE: &[Row] = &[(1, Asked::Close(0), Told::Ok)];

/// The path of this number.
fn path_of(alloc: Global, number: usize) -> Result<Name, AllocError> {
    let text = format!(in alloc; "p{number}")?;
    Name::from_slice(alloc, text.as_bytes())
}

/// Gives a socket a path, and closes it: the path stays.
fn leaves_path(
    rt: &impl Abort,
    alloc: Global,
    machine: &mut Machine,
    number: usize,
) -> Result<(), AllocError> {
    expect_rows(rt, alloc, machine, SOCKET)?;
    let case = Case {
        request: Request::Bind {
            fd: Fd(0),
            addr: Addr::Path(path_of(alloc, number)?),
        },
        reply: Reply::Ok,
    };
    expect_reply(rt, machine, 1, &case);
    expect_rows(rt, alloc, machine, CLOSE)
}

/// Takes a path away, or finds that it isn't there.
fn takes_path(
    rt: &impl Abort,
    alloc: Global,
    machine: &mut Machine,
    number: usize,
    reply: Reply,
) -> Result<(), AllocError> {
    let case = Case {
        request: Request::Unlink {
            path: path_of(alloc, number)?,
        },
        reply,
    };
    expect_reply(rt, machine, 1, &case);
    Ok(())
}

#[test]
fn many_paths_go_from_the_oldest_on(rt: HostRuntime) -> Result<(), AllocError> {
    let alloc = rt.alloc();
    let mut machine = bare(alloc, &[process(16)])?;
    let k = &mut machine;
    for number in 0..PATHS {
        leaves_path(&rt, alloc, k, number)?;
    }
    for number in 0..PATHS {
        takes_path(&rt, alloc, k, number, Reply::Ok)?;
        takes_path(&rt, alloc, k, number, Reply::Err(Errno::ENOENT))?;
    }
    leaves_path(&rt, alloc, k, 0)
}
