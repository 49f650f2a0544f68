//! The header of a script: lines of file objects and of processes.

ghost use Rattle.std.specs.Prelude.{◌≡◌, map};
ghost use Rattle.ux_syntax.specs.Reading.{fail_at, body_at, object_at, proc_at};
ghost use Rattle.ux_syntax.specs.Results.{IsAsRead};

use crate::fault::{BAD, LineError};
use crate::row::{end, row_of, word};
use crate::script::ObjectLine;
use std::alloc::Global;
use ux_object::ObjKind;
use ux_types::{Bytes, ProcSpec};

/// `fail N` in front of an object's kind, where it stands there, and the words after it. N counts from 1.
fn fail_of<'a>(
    alloc: Global,
    words: &'a [&'a [u8]],
) -> Result<(Option<u32>, &'a [&'a [u8]]), LineError>
    ensures { IsAsRead (λ x. (x.0, map (λ w. w.now) x.1.now)) result (fail_at (map (λ w. w.now) words.now)) }
{
    match words {
        [first, rest @ ..] if *first == b"fail".as_slice() => {
            let (number, rest) = word(alloc, rest)?;
            if number == 0 {
                return Err(BAD);
            }
            Ok((Some(number), rest))
        }
        _ => Ok((None, words)),
    }
}

/// What an object of this kind starts with: `HEX` for a memory file, and nothing for the others.
fn body_of(alloc: Global, kind: ObjKind, words: &[&[u8]]) -> Result<Bytes, LineError>
    ensures { IsAsRead (λ b. b) result (body_at kind (map (λ w. w.now) words.now)) }
{
    match kind {
        ObjKind::Memory => {
            let (bytes, ()) = row_of(alloc, words)?;
            Ok(bytes)
        }
        ObjKind::Counter | ObjKind::Pipe => {
            end(words)?;
            Ok(Bytes::empty())
        }
    }
}

/// `object p:NAME mem HEX`, `object p:NAME counter` or `object p:NAME pipe`, without its first word.
/// In front of the kind may stand `fail N`.
#[tactic(auto, unfolding(crate::specs::Reading::object_at))]
pub(crate) fn object_of(alloc: Global, words: &[&[u8]]) -> Result<ObjectLine, LineError>
    ensures { IsAsRead (λ o. o) result (object_at (map (λ w. w.now) words.now)) }
{
    let (name, words) = word(alloc, words)?;
    let (fail, words) = fail_of(alloc, words)?;
    let (kind, words) = word(alloc, words)?;
    let body = body_of(alloc, kind, words)?;
    Ok(ObjectLine {
        name,
        fail,
        kind,
        body,
    })
}

/// `proc UID GID PRIV LIMIT`, without its first word.
#[tactic(auto, unfolding(crate::specs::Reading::proc_at))]
pub(crate) fn proc_of(alloc: Global, words: &[&[u8]]) -> Result<ProcSpec, LineError>
    ensures { IsAsRead (λ p. p) result (proc_at (map (λ w. w.now) words.now)) }
{
    let (uid, (gid, (privileged, (limit, ())))) = row_of(alloc, words)?;
    Ok(ProcSpec {
        uid,
        gid,
        privileged,
        limit,
    })
}
