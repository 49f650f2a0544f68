//! Names, each with the number that it means.

ghost use Rattle.ux_script_names.specs.Words.{meaning_in};

use crate::words::Meanings;
use std::alloc::{AllocError, Global};

/// A name, and the number that it means.
#[derive(Debug, Drop)]
pub struct Named {
    pub name: Vec<u8>,
    pub number: u32,
}

impl Named {
    /// A copy of the name, with this number.
    pub(crate) fn new(alloc: Global, name: &[u8], number: u32) -> Result<Named, AllocError> {
        Ok(Named {
            name: Vec::from_slice(alloc, name)?,
            number,
        })
    }
}

/// The first of a name means what the name means.
impl Meanings for Vec<Named> {
    ghost meaning = { λ names. meaning_in names.items };

    fn number_of(&self, name: &[u8]) -> Option<u32> {
        for named in self {
            if named.name.as_slice() == name {
                return Some(named.number);
            }
        }
        None
    }
}
