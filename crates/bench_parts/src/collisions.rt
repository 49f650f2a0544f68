//! Names that were chosen so that they collide under the fixed seed.
use crate::measuring::mean;
use anyhow::{Result, anyhow};
use std::alloc::{AllocError, Global};
use std::hash::{BuildHasher, Hash, Hasher, RandomState};
use std::random::RandomSource;
use std::rt::Clock;
use std::time::Instant;
use ux_names::{AbstractNames, Seed};
use ux_types::{DescriptionId, Name};

/// How many names.
const COUNT: usize = 8192;

/// A table of so many names has at most so many groups; it looks for a name from the group of its hash on.
const GROUPS: u64 = 4096;

/// Whether the table looks for the name from its first group on, under the fixed seed.
fn is_first(name: &Name) -> bool {
    let mut hasher = Seed::fixed().build_hasher();
    name.hash(&mut hasher);
    let hash = hasher.finish();
    (hash ^ (hash >> 32)) % GROUPS == 0
}

/// Names that the table looks for from one group on, found by trying numbers in turn.
fn colliding_names(alloc: Global) -> Result<Vec<Name>, AllocError> {
    let mut names = Vec::new(alloc);
    for number in 0..u64::from(u32::MAX) {
        if names.len() == COUNT {
            break;
        }
        let name = Name::from_slice(alloc, &number.to_le_bytes())?;
        if is_first(&name) {
            names.push(name)?;
        }
    }
    Ok(names)
}

/// Binds copies of the names, finds each, and takes each away; answers how many calls were granted.
fn use_all(names: &mut AbstractNames, chosen: &[Name]) -> Result<usize, AllocError> {
    let mut granted: usize = 0;
    for name in chosen {
        let bound = names.bind(name.clone()?, DescriptionId::new(7)).is_ok();
        let found = names.find(name).is_some();
        granted = granted.saturating_add(usize::from(bound));
        granted = granted.saturating_add(usize::from(found));
    }
    for name in chosen {
        let gone = names.release(name).is_some();
        granted = granted.saturating_add(usize::from(gone));
    }
    Ok(granted)
}

/// The mean time of a call, in nanoseconds, where names are hashed by this seed.
fn measure_under<R: Clock>(rt: &R, alloc: Global, seed: Seed, chosen: &[Name]) -> Result<u128> {
    let mut names = AbstractNames::with_seed(alloc, seed)?;
    let start = Instant::now(rt)?;
    let granted = use_all(&mut names, chosen)?;
    let time = start.elapsed(rt)?;
    if granted != chosen.len().saturating_mul(3) {
        return Err(anyhow!("only {granted} calls were granted"));
    }
    Ok(mean(time, granted))
}

/// Prints the times of names that collide under the fixed seed, under it and under random keys.
pub(crate) fn measure_collisions<R: Clock + RandomSource + Eprint>(
    rt: &R,
    alloc: Global,
) -> Result<()> {
    let chosen = colliding_names(alloc)?;
    let fixed = measure_under(rt, alloc, Seed::fixed(), chosen.as_slice())?;
    let Ok(keys) = RandomState::new(rt) else {
        return Err(anyhow!("there are no random keys"));
    };
    let random = measure_under(rt, alloc, Seed::random(keys), chosen.as_slice())?;
    let count = chosen.len();
    eprintln!(rt;
        "names, {count} that collide under the fixed seed: under it {fixed} ns a call, under random keys {random} ns"
    )?;
    Ok(())
}
