//! Points to which orders came.
use std::alloc::{AllocError, Global};
use std::collections::HashMap;
use ux_types::Pid;

/// How many bytes of points are kept. Behind them none is added, and orders are made though another came to the point.
const MOST_BYTES: usize = 1 << 28;

/// Points to which orders came, each with the processes that slept there.
#[derive(Drop)]
pub(crate) struct Met {
    alloc: Global,
    points: HashMap<Vec<u8>, Vec<Vec<Pid>>>,
    size: usize,
}

impl Met {
    /// None.
    pub(crate) fn new(alloc: Global) -> Met {
        Met {
            alloc,
            points: HashMap::new(alloc),
            size: 0,
        }
    }

    /// Whether an order came to this point before, where no process slept but some of these. Then each outcome that is
    /// found from here on was found from there. One that slept besides wasn't looked at there, so its orders aren't
    /// known (P. Godefroid, Partial-Order Methods for the Verification of Concurrent Systems, on state space caching
    /// with sleep sets).
    pub(crate) fn has(&self, point: &Vec<u8>, asleep: &[Pid]) -> bool {
        match self.points.get(point) {
            Some(sets) => sets.iter().any(|set| is_within(set, asleep)),
            None => false,
        }
    }

    /// Adds a point, unless so many are kept that there is no room.
    ///
    /// # Errors
    ///
    /// Out of memory.
    pub(crate) fn add(&mut self, point: Vec<u8>, asleep: Vec<Pid>) -> Result<(), AllocError> {
        if self.size >= MOST_BYTES {
            return Ok(());
        }
        self.size = self.size.saturating_add(point.len());
        if let Some(sets) = self.points.get_mut(&point) {
            sets.push(asleep)?;
            return Ok(());
        }
        let mut sets = Vec::new(self.alloc);
        sets.push(asleep)?;
        self.points.insert(point, sets)?;
        Ok(())
    }

    /// How many points there are.
    pub(crate) fn count(&self) -> usize {
        self.points.len()
    }
}

/// Whether each of these is among those.
fn is_within(these: &[Pid], those: &[Pid]) -> bool {
    these.iter().all(|pid| those.contains(pid))
}
