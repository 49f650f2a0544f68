//! What a line of a process asks for: a call, or to wait for a process.

ghost use Rattle.std.specs.Prelude.{map};
ghost use Rattle.ux_syntax.specs.Reading.{wait_at, act_at};
ghost use Rattle.ux_syntax.specs.Results.{IsAsRead};

use crate::calls::{request_of, word_of};
use crate::fault::LineError;
use crate::row::{next, row_of};
use crate::script::Act;
use std::alloc::Global;
use ux_types::Pid;

/// `wait PID N`, without its first word.
#[tactic(auto, unfolding(crate::specs::Reading::wait_at))]
fn wait_of(alloc: Global, words: &[&[u8]]) -> Result<Act, LineError>
    ensures { IsAsRead (λ a. a) result (wait_at (map (λ w. w.now) words.now)) }
{
    let (pid, (calls, ())) = row_of(alloc, words)?;
    Ok(Act::Wait(Pid(pid), calls))
}

/// What the words behind a process's number ask for.
#[tactic(auto, unfolding(crate::specs::Reading::act_at))]
pub(crate) fn act_of(alloc: Global, words: &[&[u8]]) -> Result<Act, LineError>
    ensures { IsAsRead (λ a. a) result (act_at (map (λ w. w.now) words.now)) }
{
    let (first, args) = next(words)?;
    if first == b"wait".as_slice() {
        return wait_of(alloc, args);
    }
    Ok(Act::Call(request_of(alloc, word_of(first)?, args)?))
}
