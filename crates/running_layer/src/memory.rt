//! How much memory the program has.
use anyhow::{Result, anyhow};
use std::fs;
use std::rt::Files;

/// Prints how many pages the program has, and how many of them are in memory: the first two numbers of
/// /proc/self/statm (proc(5)).
pub(crate) fn print_memory<R: Files + Eprint + AllocGlobal>(rt: &R, when: &str) -> Result<()> {
    let text = fs::read_to_string(rt, "/proc/self/statm")?;
    let mut numbers = text.split(' ');
    let (Some(all), Some(resident)) = (numbers.next(), numbers.next()) else {
        return Err(anyhow!("/proc/self/statm has no two numbers"));
    };
    eprintln!(rt; "{when}: {all} pages, {resident} of them in memory")?;
    Ok(())
}
