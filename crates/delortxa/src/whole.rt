//! Bytes that are given whole, by as many calls as it takes.
ghost use Rattle.std.specs.Prelude.{◌≡◌, ℕ, [], None, map, IfOk, IfErr, OnOk};
ghost use Rattle.ux_model.specs.Types.{Request, Reply};
ghost use Rattle.ux_model.specs.Delivery.{control_bytes};
ghost use Rattle.ux_calls.specs.Calls.{no_msg_flags};
ghost use Rattle.delortxa.specs.declared.whole.Way.{Way};
ghost use Rattle.delortxa.specs.Answering.{Fails};
ghost use Rattle.delortxa.specs.Giving.{Takes, EndsEarly, AfterFirst, EndsEarlyAfter, request_of};

use crate::calls::Calls;
use crate::fault::CallError;
use thiserror::Error;
use ux_types::Fd;

/// By which call bytes are given.
#[derive(Clone, Copy, Debug, PartialEq, Eq)]
pub(crate) enum Way {
    /// By write(2).
    Write,
    /// By send(2), without flags.
    Send,
}

/// Bytes of which not all were taken.
#[derive(Clone, Copy, Debug, PartialEq, Eq, Error)]
#[error("only {taken} bytes were taken")]
pub struct Unfinished {
    /// How many bytes were taken.
    pub taken: usize,
    /// The error of the call that took none, or none where its answer was that it took no byte.
    pub error: Option<CallError>,
}

/// Gives these bytes by calls of one kind, until all are taken.
#[tactic(auto, using(crate::proofs::Giving::starts, crate::proofs::Giving::ends_early))]
pub(crate) fn give_all<C: Copy, P: Calls<C>>(
    caller: &mut P,
    who: C,
    fd: Fd,
    way: Way,
    bytes: &[u8],
) -> Result<(), Unfinished>
    ensures all { OnOk result ((k : ℕ) × Takes P.did who (request_of way fd) bytes.now k [] caller.old caller.new) }
    ensures early { IfErr result (λ u. EndsEarly P.did P.unmade who (request_of way fd) bytes.now caller.old caller.new u) }
{
    let mut left = bytes;
    while !left.is_empty() {
        let taken = match give(caller, who, fd, way, left) {
            Ok(taken) => taken,
            Err(error) => {
                return Err(Unfinished {
                    taken: bytes.len() - left.len(),
                    error: Some(error),
                });
            }
        };
        if taken == 0 {
            return Err(Unfinished {
                taken: bytes.len() - left.len(),
                error: None,
            });
        }
        let (_taken, more) = left.split_at(taken.min(left.len()));
        left = more;
    }
    Ok(())
}

/// Sends these bytes, and passes these descriptors by the first call.
#[tactic(auto, using(crate::proofs::Giving::first_failed, crate::proofs::Giving::all_after, crate::proofs::Giving::early_after))]
pub(crate) fn give_all_with<C: Copy, P: Calls<C>>(
    caller: &mut P,
    who: C,
    fd: Fd,
    bytes: &[u8],
    rights: &[Fd],
) -> Result<(), Unfinished>
    ensures all { OnOk result (AfterFirst P.did who (Request.SendMsg fd None bytes.now (control_bytes None (map (λ right. right.0) rights.now)) no_msg_flags) bytes.now caller.old (λ mid left. (k : ℕ) × Takes P.did who (request_of Way.Send fd) left k [] mid caller.new)) }
    ensures early { IfErr result (λ u. EndsEarlyAfter P.did P.unmade who (Request.SendMsg fd None bytes.now (control_bytes None (map (λ right. right.0) rights.now)) no_msg_flags) (request_of Way.Send fd) bytes.now caller.old caller.new u) }
{
    let taken = match caller.send_rights(who, fd, bytes, rights) {
        Ok(taken) => taken,
        Err(error) => {
            return Err(Unfinished {
                taken: 0,
                error: Some(error),
            });
        }
    };
    let (_taken, left) = bytes.split_at(taken.min(bytes.len()));
    match give_all(caller, who, fd, Way::Send, left) {
        Ok(()) => Ok(()),
        Err(more) => Err(Unfinished {
            taken: bytes.len() - left.len() + more.taken,
            error: more.error,
        }),
    }
}

/// Gives these bytes by one call: how many were taken.
fn give<C: Copy, P: Calls<C>>(
    caller: &mut P,
    who: C,
    fd: Fd,
    way: Way,
    bytes: &[u8],
) -> Result<usize, CallError>
    ensures made { IfOk result (λ taken. P.did who caller.old caller.new (request_of way fd bytes.now) (Reply.Count taken)) }
    ensures failed { IfErr result (λ error. Fails P.did P.unmade who caller.old caller.new (request_of way fd bytes.now) error) }
{
    match way {
        Way::Write => caller.write(who, fd, bytes),
        Way::Send => caller.send(who, fd, bytes),
    }
}
