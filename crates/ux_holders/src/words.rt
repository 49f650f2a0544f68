//! The words of a listing: counts and kinds.

use std::fmt;
use ux_object::ObjKind;

/// A count and what is counted, in the plural unless it is one.
#[derive(Clone, Copy)]
pub(crate) struct Counted {
    pub(crate) count: u64,
    pub(crate) noun: &'static str,
}

impl fmt::Display for Counted {
    fn fmt<W: fmt::Write>(&self, f: &mut fmt::Formatter<W>) -> fmt::Result {
        let count = self.count;
        let noun = self.noun;
        let ending = if count == 1 { "" } else { "s" };
        write!(f, "{count} {noun}{ending}")
    }
}

/// The kind of a file object, as scripts spell it.
pub(crate) fn object_word(kind: ObjKind) -> &'static str {
    match kind {
        ObjKind::Memory => "mem",
        ObjKind::Counter => "counter",
        ObjKind::Pipe => "pipe",
    }
}
