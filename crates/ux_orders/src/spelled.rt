//! Numbers, flags and bytes in a row, spelled so that different rows are different bytes.
use std::alloc::{AllocError, Global};

/// From this number on a number takes nine bytes, of which this is the first.
const LONG: u8 = 255;

/// What was spelled so far.
#[derive(Drop)]
pub(crate) struct Spelled {
    bytes: Vec<u8>,
}

impl Spelled {
    /// Nothing.
    pub(crate) fn new(alloc: Global) -> Spelled {
        Spelled {
            bytes: Vec::new(alloc),
        }
    }

    /// A number.
    pub(crate) fn number(&mut self, number: u64) -> Result<(), AllocError> {
        if number < u64::from(LONG) {
            self.bytes.push(number as u8)?;
            return Ok(());
        }
        self.bytes.push(LONG)?;
        self.bytes.extend_from_slice(&number.to_le_bytes())
    }

    /// A flag.
    pub(crate) fn flag(&mut self, flag: bool) -> Result<(), AllocError> {
        self.number(u64::from(flag))
    }

    /// Bytes, behind how many they are.
    pub(crate) fn bytes(&mut self, bytes: &[u8]) -> Result<(), AllocError> {
        self.number(bytes.len() as u64)?;
        self.bytes.extend_from_slice(bytes)
    }

    /// Bytes alone, of a row of nothing else.
    pub(crate) fn more(&mut self, bytes: &[u8]) -> Result<(), AllocError> {
        self.bytes.extend_from_slice(bytes)
    }

    /// What was spelled.
    pub(crate) fn as_slice(&self) -> &[u8] {
        self.bytes.as_slice()
    }

    /// What was spelled, and nothing else of it.
    pub(crate) fn into_bytes(self) -> Vec<u8> {
        self.bytes
    }
}
