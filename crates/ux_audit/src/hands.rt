//! Who handed a descriptor on.
use ux_types::{Fd, How, Pid};

/// A holding from which another was given.
#[derive(Clone, Copy)]
pub(crate) struct Giver {
    pub(crate) pid: Pid,
    pub(crate) fd: Fd,
    /// How many entries come before the one that gave it.
    pub(crate) until: usize,
}

/// How a holding was taken, and from which, unless its entry made it.
#[derive(Clone, Copy)]
pub(crate) struct HoldingOrigin {
    pub(crate) how: How,
    pub(crate) from: Option<Giver>,
}
