//! How far a process has come in a script, and which line it makes next.
ghost use Rattle.std.specs.Prelude.{◌≡◌, ◌≤◌, drop, length};
ghost use Rattle.ux_orders.specs.Threads.{was_made, has_come};
ghost use Rattle.ux_orders.specs.Crews.{IsNext};

use ux_book::{BookName, Serial};
use ux_object::FileObject;
use ux_syntax::{Act, Line};
use ux_types::{Pid, Request};

/// What a process does next. Lines are given by their places.
#[derive(Clone, Copy, Debug, PartialEq, Eq)]
pub(crate) enum Next {
    /// It makes the call of this line.
    Call(usize),
    /// It waits in this line for another process.
    Wait(usize),
    /// No line is left, so it exits.
    Exit,
}

/// What this process does next, whose lines begin at this place. A line that waits for a process holds it until that
/// process has so many calls, has exited, or was never made and process 1 has exited.
pub(crate) fn next_of<W: BookName, O: FileObject>(
    serial: &Serial<W, O>,
    lines: &[Line],
    from: usize,
    pid: Pid,
) -> Next
    ensures { IsNext (has_come serial.now) pid.0 lines.now (drop from lines.now) result }
{
    for place in from..lines.len() {
        let line = &lines[place];
        if line.pid == pid {
            match &line.act {
                Act::Call(_) => return Next::Call(place),
                Act::Wait(other, calls) => {
                    if !has_come(serial, *other, u64::from(*calls)) {
                        return Next::Wait(place);
                    }
                }
            }
        }
    }
    Next::Exit
}

/// Whether a process has made so many calls, has exited, or was never made and process 1 has exited.
fn has_come<W: BookName, O: FileObject>(serial: &Serial<W, O>, pid: Pid, calls: u64) -> bool
    ensures { result ≡ has_come serial.now pid.0 calls }
{
    match serial.calls(pid) {
        Some(made) => made >= calls,
        None => was_made(serial, pid) || !serial.is_live(Pid(1)) || calls == 0,
    }
}

/// Whether a process with this number was made.
fn was_made<W: BookName, O: FileObject>(serial: &Serial<W, O>, pid: Pid) -> bool
    ensures { result ≡ was_made serial.now pid.0 }
{
    pid.0 > 0 && pid.0 as usize <= serial.process_count()
}

/// Whether a call concerns its process alone: it is answered by the process's own descriptors, and adds one of a new
/// socket or of what they lead to already; or by the process's own ids, and changes those, which no call of another
/// process reads: what it sent, or recorded, has the ids of that time. It never waits. A call that makes a file object
/// isn't one: objects are numbered as they are made, and the call that closes one tells its number.
pub(crate) fn is_alone(request: &Request) -> bool {
    matches!(
        request,
        Request::Socket { .. }
            | Request::SocketPair { .. }
            | Request::Dup { .. }
            | Request::SetIds { .. }
    )
}
