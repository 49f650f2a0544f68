//! A history beside its script.
ghost use Rattle.std.specs.Prelude.{◌≡◌, ◌≤◌, ◌⊎◌, length, IfOk, IfErr};
ghost use Rattle.ux_model.specs.Limits.{made_limit};
ghost use Rattle.ux_syntax.specs.Spelling.{plan_of, known_count};
ghost use Rattle.ux_replay.specs.Runs.{Runs, HasBegun, MakesAll, MakesFirst};

use std::alloc::Global;
use ux_book::{Book, BookName, copy_entries};
use ux_object::FileObject;
use ux_replay::{makes_all, makes_first};
use ux_syntax::{Script, ScriptFault};
use ux_types::Entry;

/// A copy of the book's history, where each of so many processes made the script's calls in it, and no others.
///
/// # Errors
///
/// `Stranger` only where that isn't so, else `NoMemory`.
pub(crate) fn whole_history<W: BookName, O: FileObject>(
    alloc: Global,
    book: &Book<W, O>,
    script: &Script,
    count: usize,
) -> Result<Vec<Entry>, ScriptFault>
    requires count { count ≡ known_count (plan_of script.now) }
    requires few { count ≤ made_limit }
    ensures entries { IfOk result (λ entries. entries.items ≡ book.now.entries) }
    ensures runs { IfOk result (λ entries. Runs W.boot (plan_of script.now) entries.items) }
    ensures stranger { IfErr result (λ f. f ≡ ScriptFault.Stranger → ¬ (MakesAll (plan_of script.now) book.now.entries)) }
    ensures fault { IfErr result (λ f. (f ≡ ScriptFault.NoMemory) ⊎ (f ≡ ScriptFault.Stranger)) }
{
    if !makes_all(script, book.entries(), count) {
        return Err(ScriptFault::Stranger);
    }
    copy_entries(alloc, book.entries()).map_err(|_| ScriptFault::NoMemory)
}

/// As `whole_history`, of a run that was cut short: each process made the first of the script's calls.
///
/// # Errors
///
/// Those of `whole_history`.
pub(crate) fn begun_history<W: BookName, O: FileObject>(
    alloc: Global,
    book: &Book<W, O>,
    script: &Script,
    count: usize,
) -> Result<Vec<Entry>, ScriptFault>
    requires count { count ≡ known_count (plan_of script.now) }
    requires few { count ≤ made_limit }
    ensures entries { IfOk result (λ entries. entries.items ≡ book.now.entries) }
    ensures begun { IfOk result (λ entries. HasBegun W.boot (plan_of script.now) entries.items) }
    ensures stranger { IfErr result (λ f. f ≡ ScriptFault.Stranger → ¬ (MakesFirst (plan_of script.now) book.now.entries)) }
    ensures fault { IfErr result (λ f. (f ≡ ScriptFault.NoMemory) ⊎ (f ≡ ScriptFault.Stranger)) }
{
    if !makes_first(script, book.entries(), count) {
        return Err(ScriptFault::Stranger);
    }
    copy_entries(alloc, book.entries()).map_err(|_| ScriptFault::NoMemory)
}
