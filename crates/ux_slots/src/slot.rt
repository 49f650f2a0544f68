//! What stands in one slot.

/// A value, with what `Slots` knows of it.
#[derive(Drop)]
pub struct Slot<T> {
    /// The number of the value.
    pub(crate) number: u128,
    /// How many references there are to the value.
    pub(crate) count: u64,
    /// The next slot of the release list, where the slot stands on it.
    pub(crate) next: Option<usize>,
    pub(crate) value: T,
}
