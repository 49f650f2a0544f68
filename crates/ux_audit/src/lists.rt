//! Lists of places in a history, by number.
ghost use Rattle.std.specs.Prelude.{◌≡◌, ◌==◌, ◌⊎◌, ℕ, ◌<◌, ◌≤◌, [], ◌∷◌, ◌++◌, length, map, replicate, None, Some, if◌then◌else◌, OnOk, IfSome, MatchOption};
ghost use Rattle.ux_model.specs.References.{times};
ghost use Rattle.ux_audit.specs.Givers.{items_at, Rises, NoneBelow, IsLastBelow};

use std::alloc::{AllocError, Global};
use ux_types::Fd;

/// Lets the lists have one with this number.
fn reach(alloc: Global, lists: &mut Vec<Vec<usize>>, n: u32) -> Result<(), AllocError>
    ensures within { OnOk result (n < length lists.new.items) }
    ensures same { (k : ℕ) → items_at lists.new.items k ≡ items_at lists.old.items k }
{
    while lists.len() <= n as usize {
        lists.push(Vec::new(alloc))?;
    }
    Ok(())
}

/// Puts a place at the end of the list with this number.
pub(crate) fn note(
    alloc: Global,
    lists: &mut Vec<Vec<usize>>,
    n: u32,
    place: usize,
) -> Result<(), AllocError>
    ensures { OnOk result ((k : ℕ) → items_at lists.new.items k ≡ (if n == k then items_at lists.old.items k ++ place ∷ [] else items_at lists.old.items k)) }
{
    reach(alloc, lists, n)?;
    lists[n as usize].push(place)?;
    Ok(())
}

/// Puts a place at the end of the list of each number.
pub(crate) fn note_all(
    alloc: Global,
    lists: &mut Vec<Vec<usize>>,
    numbers: &[Fd],
    place: usize,
) -> Result<(), AllocError>
    ensures { OnOk result ((k : ℕ) → items_at lists.new.items k ≡ items_at lists.old.items k ++ replicate (times k (map (λ fd. fd.0) numbers.now)) place) }
{
    for fd in numbers {
        note(alloc, lists, fd.0, place)?;
    }
    Ok(())
}

/// The last of these places that is below another.
fn last_below(places: &[usize], until: usize) -> Option<usize>
    requires rising { Rises places.now }
    ensures { MatchOption result (NoneBelow until places.now) (IsLastBelow until places.now) }
{
    let mut low = 0;
    let mut high = places.len();
    while low < high {
        let middle = low + (high - low) / 2;
        if places[middle] < until {
            low = middle + 1;
        } else {
            high = middle;
        }
    }
    if low == 0 {
        return None;
    }
    Some(places[low - 1])
}

/// The last place below another in the list with this number.
pub(crate) fn last_in(lists: &[Vec<usize>], n: u32, until: usize) -> Option<usize>
    requires rising { Rises (items_at lists.now n) }
    ensures { MatchOption result (NoneBelow until (items_at lists.now n)) (IsLastBelow until (items_at lists.now n)) }
{
    let n = n as usize;
    if n >= lists.len() {
        return None;
    }
    last_below(lists[n].as_slice(), until)
}

/// The greater of two places, where there are any.
pub(crate) fn later(a: Option<usize>, b: Option<usize>) -> Option<usize>
    ensures { MatchOption result ((a ≡ None) × (b ≡ None)) (λ j. ((a ≡ Some j) ⊎ (b ≡ Some j)) × IfSome a (λ i. i ≤ j) × IfSome b (λ i. i ≤ j)) }
{
    match (a, b) {
        (Some(i), Some(j)) if i < j => Some(j),
        (Some(i), _) => Some(i),
        (None, other) => other,
    }
}
