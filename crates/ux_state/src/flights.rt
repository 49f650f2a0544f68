//! How many rights of each user are in messages that nobody has received.
ghost use Rattle.std.specs.Prelude.{◌≡◌, ◌≤◌, ℕ, OnOk, OnErr};
ghost use Rattle.ux_model.specs.Flight.{of_sender};
ghost use Rattle.ux_state.specs.Flights.{flights_of, SendsMore, SendsMoreFrom};

use std::alloc::{AllocError, Global};
use std::collections::HashMap;
use std::marker::Model;

/// A count for each user, by user id, so that no call looks through the messages, nor at other users.
/// Contracts see the list of the users who have a count, each with it.
#[derive(Drop)]
pub(crate) struct Flights {
    by_user: HashMap<u32, u64>,
}

impl Model for Flights {
    ghost use Rattle.std.specs.Prelude.{List, ℕ};

    ghost Value = { List (ℕ × ℕ) };

    ghost view = { λ f. f.by_user.entries };
}

impl Flights {
    /// Nobody has sent any. It takes no memory.
    pub(crate) fn new(alloc: Global) -> Flights
        ensures { (uid : ℕ) → flights_of result uid ≡ 0 }
    {
        Flights {
            by_user: HashMap::new(alloc),
        }
    }

    /// How many a user has.
    pub(crate) fn count(&self, uid: u32) -> u64
        ensures { result ≡ flights_of self.now uid }
    {
        match self.by_user.get(&uid) {
            Some(count) => *count,
            None => 0,
        }
    }

    /// Counts so many more of a user. A user's first right takes a place, which stays.
    ///
    /// # Errors
    ///
    /// There was no memory, or no more can be counted. The counts stand as before.
    pub(crate) fn count_in(&mut self, uid: u32, count: usize) -> Result<(), AllocError>
        ensures ok { OnOk result (SendsMore uid count self.old self.new) }
        ensures err { OnErr result (self.new ≡ self.old) }
    {
        if count == 0 {
            return Ok(());
        }
        let Some(total) = self.count(uid).checked_add(count as u64) else {
            return Err(AllocError);
        };
        self.by_user.insert(uid, total)?;
        Ok(())
    }

    /// Counts so many of a user less. It takes no memory.
    pub(crate) fn count_out(&mut self, uid: u32, count: usize)
        requires { count ≤ flights_of self.old uid }
        ensures { SendsMore uid count self.new self.old }
    {
        if let Some(total) = self.by_user.get_mut(&uid) {
            *total -= count as u64;
        }
    }

    /// Counts so many less of the user who sent them, if there are any. It takes no memory.
    pub(crate) fn count_out_sent(&mut self, sender: Option<u32>, count: usize)
        requires { (u : ℕ) → of_sender u sender count ≤ flights_of self.old u }
        ensures { SendsMoreFrom sender count self.new self.old }
    {
        if let Some(uid) = sender {
            self.count_out(uid, count);
        }
    }

    /// Counts none of any user.
    pub(crate) fn clear(&mut self)
        ensures { (uid : ℕ) → flights_of self.new uid ≡ 0 }
    {
        self.by_user.clear();
    }
}
