//! A history beside its script.
ghost use Rattle.std.specs.Prelude.{◌≡◌, ◌≤◌, IfOk};
ghost use Rattle.ux_model.specs.Limits.{made_limit};
ghost use Rattle.ux_syntax.specs.Spelling.{plan_of, known_count};
ghost use Rattle.ux_replay.specs.Runs.{MakesAll, MakesFirst};

use crate::ran::OrderFault;
use ux_replay::{makes_all, makes_first};
use ux_syntax::Script;
use ux_types::Entry;

/// The history, where each of so many processes made the script's calls in it, and no others.
///
/// # Errors
///
/// `Stranger` where that isn't so.
pub(crate) fn whole_history(
    entries: Vec<Entry>,
    script: &Script,
    count: usize,
) -> Result<Vec<Entry>, OrderFault>
    requires count { count ≡ known_count (plan_of script.now) }
    requires few { count ≤ made_limit }
    ensures same { IfOk result (λ whole. whole ≡ entries) }
    ensures calls { IfOk result (λ whole. MakesAll (plan_of script.now) entries.items) }
{
    if !makes_all(script, &entries, count) {
        return Err(OrderFault::Stranger);
    }
    Ok(entries)
}

/// As `whole_history`, of a run that was cut short: each process made the first of the script's calls.
///
/// # Errors
///
/// `Stranger` where that isn't so.
pub(crate) fn begun_history(
    entries: Vec<Entry>,
    script: &Script,
    count: usize,
) -> Result<Vec<Entry>, OrderFault>
    requires count { count ≡ known_count (plan_of script.now) }
    requires few { count ≤ made_limit }
    ensures same { IfOk result (λ begun. begun ≡ entries) }
    ensures calls { IfOk result (λ begun. MakesFirst (plan_of script.now) entries.items) }
{
    if !makes_first(script, &entries, count) {
        return Err(OrderFault::Stranger);
    }
    Ok(entries)
}
