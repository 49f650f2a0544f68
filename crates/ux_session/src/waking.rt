//! Pending calls that needn't wait any more, made one after another.
ghost use Rattle.std.specs.Prelude.{◌≡◌, ◌<◌, ◌≤◌, ◌==◌, true, false, length, Some, slice_get, IfOk, IfSome, IfNone, OnErr};
ghost use Rattle.std.specs.List.{All, remove};
ghost use Rattle.ux_session.specs.declared.pending.Pending.{Pending};
ghost use Rattle.ux_book.specs.Books.{has_own_call};
ghost use Rattle.ux_session.specs.Sessions.{is_asked, IsSound, IsHeld, IsMade};
ghost use Rattle.ux_session.specs.Going.{desk, WaitBetween, GoesAt, GoesOn, WakesMore};

use crate::order::Order;
use crate::pending::Pending;
use std::alloc::AllocError;
use ux_book::{BookName, Serial};
use ux_object::FileObject;

/// Makes a call, where it needn't wait. Whether it was made.
pub(crate) fn try_call<W: BookName, O: FileObject>(
    serial: &mut Serial<W, O>,
    call: &Pending,
) -> Result<bool, AllocError>
    requires { has_own_call call.now.request ≡ false }
    ensures made { IfOk result (λ made. made ≡ true → IsMade serial.old serial.new call.now) }
    ensures waits { IfOk result (λ made. made ≡ false → IsHeld serial.old call.now) }
    ensures kept { IfOk result (λ made. made ≡ false → serial.new ≡ serial.old) }
    ensures same { OnErr result (serial.new ≡ serial.old) }
{
    match serial.try_call(call.pid, &call.request) {
        Ok(Some(_)) => Ok(true),
        Ok(None) => Ok(false),
        Err(_) => Err(AllocError),
    }
}

/// Makes the first of the calls at the places from `from` up to `to` that needn't wait. Gives its place.
fn try_between<W: BookName, O: FileObject>(
    serial: &mut Serial<W, O>,
    calls: &[Pending],
    from: usize,
    to: usize,
) -> Result<Option<usize>, AllocError>
    requires within { to ≤ length calls.now }
    requires sound { All (IsSound serial.old) calls.now }
    ensures some { IfOk result (λ o. IfSome o (λ place. GoesAt serial.old calls.now place serial.new)) }
    ensures first { IfOk result (λ o. IfSome o (λ place. WaitBetween serial.old calls.now from place)) }
    ensures none { IfOk result (λ o. IfNone o (WaitBetween serial.old calls.now from to)) }
    ensures kept { IfOk result (λ o. IfNone o (serial.new ≡ serial.old)) }
    ensures same { OnErr result (serial.new ≡ serial.old) }
{
    for place in from..to {
        if try_call(serial, &calls[place])? {
            return Ok(Some(place));
        }
    }
    Ok(None)
}

/// Makes the first of the calls from this place on that needn't wait, or of those before it. Gives its place.
fn try_from<W: BookName, O: FileObject>(
    serial: &mut Serial<W, O>,
    calls: &[Pending],
    start: usize,
) -> Result<Option<usize>, AllocError>
    requires within { start ≤ length calls.now }
    requires sound { All (IsSound serial.old) calls.now }
    ensures some { IfOk result (λ o. IfSome o (λ place. GoesAt serial.old calls.now place serial.new)) }
    ensures first { IfOk result (λ o. IfSome o (λ place. start ≡ 0 → WaitBetween serial.old calls.now 0 place)) }
    ensures none { IfOk result (λ o. IfNone o (All (IsHeld serial.old) calls.now)) }
    ensures kept { IfOk result (λ o. IfNone o (serial.new ≡ serial.old)) }
    ensures same { OnErr result (serial.new ≡ serial.old) }
{
    match try_between(serial, calls, start, calls.len())? {
        Some(place) => Ok(Some(place)),
        None => try_between(serial, calls, 0, start),
    }
}

/// Makes one of the calls that needn't wait, and takes it off. Gives its number.
fn make_next<W: BookName, O: FileObject>(
    serial: &mut Serial<W, O>,
    calls: &mut Vec<Pending>,
    start: usize,
) -> Result<Option<u32>, AllocError>
    requires within { start ≤ length calls.old.items }
    requires sound { All (IsSound serial.old) calls.old.items }
    ensures some { IfOk result (λ o. IfSome o (λ number.
        GoesOn (start == 0) (desk serial.old calls.old.items) number (desk serial.new calls.new.items))) }
    ensures none { IfOk result (λ o. IfNone o (All (IsHeld serial.new) calls.new.items)) }
    ensures kept { IfOk result (λ o. IfNone o (desk serial.new calls.new.items ≡ desk serial.old calls.old.items)) }
    ensures same { OnErr result (desk serial.new calls.new.items ≡ desk serial.old calls.old.items) }
    ensures sound { All (IsSound serial.new) calls.new.items }
{
    match try_from(serial, calls, start)? {
        Some(place) => Ok(Some(take(calls, place))),
        None => Ok(None),
    }
}

/// Takes off the call at this place, and gives its number.
fn take(calls: &mut Vec<Pending>, place: usize) -> u32
    requires { place < length calls.old.items }
    ensures number { (call : Pending) → slice_get calls.old.items place ≡ Some call → result ≡ call.number }
    ensures left { calls.new.items ≡ remove calls.old.items place }
{
    calls.remove(place).number
}

/// Makes calls that needn't wait, one after another, as long as there is one, and notes their numbers. Whether all that are
/// left were found to wait: memory may run out before.
pub(crate) fn wake<W: BookName, O: FileObject>(
    serial: &mut Serial<W, O>,
    calls: &mut Vec<Pending>,
    order: &mut Order,
    answered: &mut Vec<Option<u32>>,
) -> bool
    requires { All (IsSound serial.old) calls.old.items }
    ensures wakes { WakesMore (is_asked order.old) (desk serial.old calls.old.items) answered.old.items (desk serial.new calls.new.items) answered.new.items }
    ensures held { result ≡ true → All (IsHeld serial.new) calls.new.items }
    ensures sound { All (IsSound serial.new) calls.new.items }
    ensures order { is_asked order.new ≡ is_asked order.old }
{
    for _turn in 0..calls.len() {
        if calls.is_empty() {
            return true;
        }
        if answered.reserve(1).is_err() {
            return false;
        }
        let start = order.start(calls.len());
        match make_next(serial, calls, start) {
            Ok(Some(number)) => answered.push_reserved(Some(number)),
            Ok(None) => return true,
            Err(_) => return false,
        }
    }
    calls.is_empty()
}
