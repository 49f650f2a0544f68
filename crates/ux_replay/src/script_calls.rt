//! Whether a history is that of a script.
ghost use Rattle.std.specs.Prelude.{◌≡◌, ◌++◌, ◌∷◌, ◌≤◌, ◌↔◌, [], true, false, List, ℕ, map, filter, IsTrue, IfSome, IfNone};
ghost use Rattle.ux_model.specs.Limits.{made_limit};
ghost use Rattle.ux_syntax.specs.Spelling.{plan_of, known_count};
ghost use Rattle.ux_syntax.specs.Turns.{has_exited};
ghost use Rattle.ux_replay.specs.Runs.{requests_of, asked, ending, turns, MakesAll, MakesFirst, IsFront};

use ux_fields::is_same_request;
use ux_syntax::{Act, Line, Script};
use ux_types::{Entry, Request};

/// Whether each of the processes 1 to `count` made the script's calls in this history, in their order and no others,
/// and the layer was ended exactly where the script ends it. It takes time in proportion to `count` times the entries
/// and lines.
pub fn makes_all(script: &Script, entries: &[Entry], count: usize) -> bool
    requires count { count ≡ known_count (plan_of script.now) }
    requires few { count ≤ made_limit }
    ensures { IsTrue result ↔ MakesAll (plan_of script.now) entries.now }
{
    (0..count as u32 + 1).all(|pid| follows(script, entries, pid))
}

/// Whether each of the processes 1 to `count` made the first of the script's calls, or all, in their order and no
/// others. It takes time as `makes_all` does.
pub fn makes_first(script: &Script, entries: &[Entry], count: usize) -> bool
    requires count { count ≡ known_count (plan_of script.now) }
    requires few { count ≤ made_limit }
    ensures { IsTrue result ↔ MakesFirst (plan_of script.now) entries.now }
{
    (0..count as u32 + 1).all(|pid| begins(script, entries, pid))
}

/// Whether this process made the first of the script's calls, or all, and no others.
fn begins(script: &Script, entries: &[Entry], pid: u32) -> bool
    ensures { IsTrue result ↔ IsFront (requests_of pid entries.now) (turns (plan_of script.now) pid) }
{
    is_front(&script.lines, entries, pid) || follows(script, entries, pid)
}

/// Whether this process's calls are the first of its lines'.
fn is_front(lines: &[Line], entries: &[Entry], pid: u32) -> bool
    ensures front { result ≡ true → IsFront (requests_of pid entries.now) (asked pid lines.now) }
    ensures none { result ≡ false → (more : List Request) → ¬ (requests_of pid entries.now ++ more ≡ asked pid lines.now) }
{
    let mut rest = entries;
    for line in lines {
        if line.pid.0 != pid {
            continue;
        }
        let Act::Call(request) = &line.act else {
            continue;
        };
        let Some((made, after)) = next_of(rest, pid) else {
            return true;
        };
        if !is_same_request(&made.request, request) {
            return false;
        }
        rest = after;
    }
    next_of(rest, pid).is_none()
}

/// Whether this process made the script's calls, and no others.
fn follows(script: &Script, entries: &[Entry], pid: u32) -> bool
    ensures { IsTrue result ↔ (requests_of pid entries.now ≡ turns (plan_of script.now) pid) }
{
    match behind(&script.lines, entries, pid) {
        Some(rest) => ends(script, rest, pid),
        None => false,
    }
}

/// Whether the process's calls are those that follow its lines.
fn ends(script: &Script, entries: &[Entry], pid: u32) -> bool
    ensures { IsTrue result ↔ (requests_of pid entries.now ≡ ending (plan_of script.now) pid) }
{
    if pid == 0 {
        if script.off {
            return is_alone(entries, pid, &Request::Off);
        }
        return next_of(entries, pid).is_none();
    }
    if exits(&script.lines, pid) {
        return next_of(entries, pid).is_none();
    }
    is_alone(entries, pid, &Request::Exit)
}

/// Whether this is the process's one call.
fn is_alone(entries: &[Entry], pid: u32, request: &Request) -> bool
    ensures { IsTrue result ↔ (requests_of pid entries.now ≡ request.now ∷ []) }
{
    match next_of(entries, pid) {
        Some((entry, rest)) => {
            is_same_request(&entry.request, request) && next_of(rest, pid).is_none()
        }
        None => false,
    }
}

/// Whether the process has a line for its exit.
fn exits(lines: &[Line], pid: u32) -> bool
    ensures { result ≡ has_exited lines.now pid }
{
    lines
        .iter()
        .any(|line| line.pid.0 == pid && line.act.asks_exit())
}

/// What is left of the entries after the process's calls of these lines, where it made them.
fn behind<'a>(lines: &[Line], entries: &'a [Entry], pid: u32) -> Option<&'a [Entry]>
    ensures some { IfSome result (λ rest. asked pid lines.now ++ requests_of pid rest.now ≡ requests_of pid entries.now) }
    ensures none { IfNone result ((more : List Request) → ¬ (asked pid lines.now ++ more ≡ requests_of pid entries.now)) }
{
    let mut rest = entries;
    for line in lines {
        if line.pid.0 != pid {
            continue;
        }
        let Act::Call(request) = &line.act else {
            continue;
        };
        let Some((entry, after)) = next_of(rest, pid) else {
            return None;
        };
        if !is_same_request(&entry.request, request) {
            return None;
        }
        rest = after;
    }
    Some(rest)
}

/// The process's next entry, and those after it.
fn next_of(entries: &[Entry], pid: u32) -> Option<(&Entry, &[Entry])>
    ensures some { IfSome result (λ r. requests_of pid entries.now ≡ r.0.now.request ∷ requests_of pid r.1.now) }
    ensures none { IfNone result (requests_of pid entries.now ≡ []) }
{
    let mut rest = entries;
    while let Some((entry, more)) = rest.split_first() {
        if entry.pid.0 == pid {
            return Some((entry, more));
        }
        rest = more;
    }
    None
}
