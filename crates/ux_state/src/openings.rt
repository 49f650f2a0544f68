//! How many descriptions of each file object are open for reading, and for writing.
ghost use Rattle.std.specs.Prelude.{◌≡◌, ◌+◌, ◌<◌, ◌≤◌, ◌^◌, ℕ, OnOk, length};
ghost use Rattle.ux_model.specs.Flags.{can_read, can_write};
ghost use Rattle.ux_state.specs.Counting.{Counted, CountsAlike, CountsOneMore, HasRoom, IsAmong, more, one_if};

use std::alloc::AllocError;
use ux_description::Description;
use ux_types::Mode;

/// How many descriptions of one file object are open for what. There are fewer than numbers of
/// descriptions.
#[derive(Clone, Copy)]
pub(crate) struct Openings {
    pub(crate) readers: u128,
    pub(crate) writers: u128,
}

impl Openings {
    /// None.
    pub(crate) fn new() -> Openings
        ensures readers { result.readers ≡ 0 }
        ensures writers { result.writers ≡ 0 }
    {
        Openings {
            readers: 0,
            writers: 0,
        }
    }

    /// With one more description that is open for this.
    fn with(self, mode: Mode) -> Openings
        requires readers { self.readers + 1 < 2 ^ 128 }
        requires writers { self.writers + 1 < 2 ^ 128 }
        ensures { result ≡ more mode self }
    {
        Openings {
            readers: self.readers + mode.can_read() as u128,
            writers: self.writers + mode.can_write() as u128,
        }
    }

    /// Without one of the descriptions that are open for this.
    fn without(self, mode: Mode) -> Openings
        requires readers { one_if (can_read mode) ≤ self.readers }
        requires writers { one_if (can_write mode) ≤ self.writers }
        ensures { more mode result ≡ self }
    {
        Openings {
            readers: self.readers - mode.can_read() as u128,
            writers: self.writers - mode.can_write() as u128,
        }
    }
}

/// Makes counts of nothing at the next number, if there are none.
pub(crate) fn make_counts(openings: &mut Vec<Openings>, next: usize) -> Result<(), AllocError>
    requires { next ≤ length openings.old.items }
    ensures counts { CountsAlike openings.old.items openings.new.items }
    ensures long { OnOk result (next < length openings.new.items) }
{
    if openings.len() == next {
        openings.push(Openings::new())?;
    }
    Ok(())
}

/// Counts a description that is made.
pub(crate) fn count_in(openings: &mut Vec<Openings>, description: &Description)
    requires { HasRoom openings.old.items }
    ensures { CountsOneMore description.now openings.old.items openings.new.items }
{
    if let Some(object) = description.object() {
        let o = object as usize;
        if o < openings.len() {
            openings[o] = openings[o].with(description.mode());
        }
    }
}

/// No longer counts a description that is freed.
pub(crate) fn count_out(openings: &mut Vec<Openings>, description: &Description)
    requires { IsAmong description.now openings.old.items }
    ensures { CountsOneMore description.now openings.new.items openings.old.items }
{
    if let Some(object) = description.object() {
        let o = object as usize;
        if o < openings.len() {
            openings[o] = openings[o].without(description.mode());
        }
    }
}
