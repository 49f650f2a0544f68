//! Which runs have the same outcome.
ghost use Rattle.std.specs.Prelude.{◌≡◌, ◌≤◌, ◌∷◌, ◌↔◌, [], ℕ, IsTrue, IfSome, IfNone};
ghost use Rattle.ux_model.specs.Limits.{made_limit};
ghost use Rattle.ux_orders.specs.Outcomes.{SameOutcome, answer_of, answers_of};

use crate::ran::Ran;
use ux_fields::is_same_reply;
use ux_types::{Entry, Pid};

/// Whether two runs have the same outcome: each of the processes 1 to `count` has the same replies and closed the same
/// file objects, in its order; and all have exited, or the same ones wait in the same lines. A run that was broken off
/// has none.
pub fn is_same_outcome(one: &Ran, other: &Ran, count: usize) -> bool
    requires { count ≤ made_limit }
    ensures { IsTrue result ↔ SameOutcome count one.now other.now }
{
    match (one, other) {
        (Ran::Whole(one), Ran::Whole(other)) => are_same_answers(one, other, count),
        (Ran::Deadlock(one, waits), Ran::Deadlock(other, others)) => {
            are_same_waits(waits, others) && are_same_answers(one, other, count)
        }
        _ => false,
    }
}

/// Whether each process, and nobody, has the same answers in both.
fn are_same_answers(one: &[Entry], other: &[Entry], count: usize) -> bool
    requires { count ≤ made_limit }
    ensures { IsTrue result ↔ ((p : ℕ) → p ≤ count → answers_of p one.now ≡ answers_of p other.now) }
{
    (0..count as u32 + 1).all(|pid| has_same_answers(one, other, pid))
}

/// Whether this process has the same answers in both, in order.
fn has_same_answers(one: &[Entry], other: &[Entry], pid: u32) -> bool
    ensures { IsTrue result ↔ (answers_of pid one.now ≡ answers_of pid other.now) }
{
    let mut rest = other;
    for entry in one {
        if entry.pid.0 != pid {
            continue;
        }
        let Some((twin, after)) = next_of(rest, pid) else {
            return false;
        };
        if !is_same_answer(entry, twin) {
            return false;
        }
        rest = after;
    }
    next_of(rest, pid).is_none()
}

/// Whether two entries have the same reply, and closed the same file objects.
fn is_same_answer(one: &Entry, other: &Entry) -> bool
    ensures { IsTrue result ↔ (answer_of one.now ≡ answer_of other.now) }
{
    is_same_reply(&one.reply, &other.reply) && one.released == other.released
}

/// The process's next entry, and those after it.
fn next_of(entries: &[Entry], pid: u32) -> Option<(&Entry, &[Entry])>
    ensures some { IfSome result (λ r. answers_of pid entries.now ≡ answer_of r.0.now ∷ answers_of pid r.1.now) }
    ensures none { IfNone result (answers_of pid entries.now ≡ []) }
{
    let mut rest = entries;
    while let Some((entry, more)) = rest.split_first() {
        if entry.pid.0 == pid {
            return Some((entry, more));
        }
        rest = more;
    }
    None
}

/// Whether the same processes wait in the same lines.
fn are_same_waits(one: &[(Pid, usize)], other: &[(Pid, usize)]) -> bool
    ensures { IsTrue result ↔ (one.now ≡ other.now) }
{
    let mut rest = other;
    for wait in one {
        let Some((twin, more)) = rest.split_first() else {
            return false;
        };
        if wait.0 != twin.0 || wait.1 != twin.1 {
            return false;
        }
        rest = more;
    }
    rest.is_empty()
}
