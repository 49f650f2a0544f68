//! Calls that are made at once.
ghost use Rattle.std.specs.Prelude.{◌≡◌, true, false, IfOk, OnOk, OnErr};
ghost use Rattle.std.specs.List.{All};
ghost use Rattle.ux_model.specs.Types.{Request};
ghost use Rattle.ux_model.specs.History.{is_off, IsLegal};
ghost use Rattle.ux_book.specs.Books.{has_own_call};
ghost use Rattle.ux_book.specs.Sitting.{MakesOne};
ghost use Rattle.ux_session.specs.Sessions.{is_asked, left_by, of_others, without, has_number, IsSound, IsHeld, IsMade};
ghost use Rattle.ux_session.specs.Going.{desk, WakesMore};

use crate::order::Order;
use crate::pending::Pending;
use crate::waking::{try_call, wake};
use std::alloc::AllocError;
use ux_book::{BookName, Serial, has_own_call};
use ux_object::FileObject;
use ux_types::{Pid, Request};

/// Makes a call of this process.
pub(crate) fn make_call<W: BookName, O: FileObject>(
    serial: &mut Serial<W, O>,
    pid: Pid,
    request: &Request,
) -> Result<(), AllocError>
    requires { is_off request.now ≡ false }
    ensures made { OnOk result (MakesOne serial.old serial.new pid request.now) }
    ensures same { OnErr result (serial.new ≡ serial.old) }
{
    match request {
        Request::Exit => exit(serial, pid),
        Request::Fork => fork(serial, pid),
        request if has_own_call(request) => Err(AllocError),
        request => match serial.call(pid, request) {
            Ok(_reply) => Ok(()),
            Err(_) => Err(AllocError),
        },
    }
}

/// Makes the exit of this process.
fn exit<W: BookName, O: FileObject>(serial: &mut Serial<W, O>, pid: Pid) -> Result<(), AllocError>
    ensures made { OnOk result (MakesOne serial.old serial.new pid Request.Exit) }
    ensures same { OnErr result (serial.new ≡ serial.old) }
{
    match serial.exit(pid) {
        Ok(()) => Ok(()),
        Err(_) => Err(AllocError),
    }
}

/// Makes a fork of this process.
fn fork<W: BookName, O: FileObject>(serial: &mut Serial<W, O>, pid: Pid) -> Result<(), AllocError>
    ensures made { OnOk result (MakesOne serial.old serial.new pid Request.Fork) }
    ensures same { OnErr result (serial.new ≡ serial.old) }
{
    match serial.fork(pid) {
        Ok(_reply) => Ok(()),
        Err(_) => Err(AllocError),
    }
}

/// Makes a call, where it needn't wait; one that never waits at once. Whether it was made.
pub(crate) fn make_or_wait<W: BookName, O: FileObject>(
    serial: &mut Serial<W, O>,
    call: &Pending,
) -> Result<bool, AllocError>
    requires { is_off call.now.request ≡ false }
    ensures made { IfOk result (λ made. made ≡ true → IsMade serial.old serial.new call.now) }
    ensures waits { IfOk result (λ made. made ≡ false → IsHeld serial.old call.now) }
    ensures plain { IfOk result (λ made. made ≡ false → has_own_call call.now.request ≡ false) }
    ensures kept { IfOk result (λ made. made ≡ false → serial.new ≡ serial.old) }
    ensures same { OnErr result (serial.new ≡ serial.old) }
{
    if has_own_call(&call.request) {
        make_call(serial, call.pid, &call.request)?;
        return Ok(true);
    }
    try_call(serial, call)
}

/// What comes behind a call of this process: its pending calls are dropped where it was its exit, and those that needn't wait
/// any more are made, whose numbers are noted. Whether all that are left were found to wait.
pub(crate) fn go_on<W: BookName, O: FileObject>(
    serial: &mut Serial<W, O>,
    calls: &mut Vec<Pending>,
    order: &mut Order,
    pid: Pid,
    request: &Request,
    answered: &mut Vec<Option<u32>>,
) -> bool
    requires { All (IsSound serial.old) (left_by pid request.now calls.old.items) }
    ensures wakes { WakesMore (is_asked order.old) (desk serial.old (left_by pid request.now calls.old.items)) answered.old.items
        (desk serial.new calls.new.items) answered.new.items }
    ensures held { result ≡ true → All (IsHeld serial.new) calls.new.items }
    ensures sound { All (IsSound serial.new) calls.new.items }
    ensures order { is_asked order.new ≡ is_asked order.old }
    ensures legal { IsLegal serial.new.boot serial.new.entries }
{
    drop_ended(calls, pid, request);
    let all_wait = wake(serial, calls, order, answered);
    // It says that the entries are a legal history.
    let _entries = serial.entries();
    all_wait
}

/// Drops the pending calls of a process whose exit this is.
fn drop_ended(calls: &mut Vec<Pending>, pid: Pid, request: &Request)
    ensures { calls.new.items ≡ left_by pid request.now calls.old.items }
{
    if let Request::Exit = request {
        keep_others(calls, pid);
    }
}

/// Drops the pending calls of this process.
fn keep_others(calls: &mut Vec<Pending>, pid: Pid)
    ensures { calls.new.items ≡ of_others pid calls.old.items }
{
    calls.retain(|call| call.pid.0 != pid.0);
}

/// Drops the pending call with this number.
pub(crate) fn drop_numbered(calls: &mut Vec<Pending>, number: u32)
    ensures { calls.new.items ≡ without number calls.old.items }
{
    calls.retain(|call| call.number != number);
}

/// Whether a pending call has this number.
pub(crate) fn has_number(calls: &[Pending], number: u32) -> bool
    ensures { result ≡ has_number calls.now number }
{
    calls.iter().any(|call| call.number == number)
}
