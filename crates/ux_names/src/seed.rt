//! What the hash of names begins with.
ghost use Rattle.ux_names.specs.Seeds.{hasher_by};

use std::hash::{BuildHasher, DefaultHasher, RandomState};

/// What the hash of names begins with. Names are chosen by whoever calls: under the fixed seed they can be
/// chosen so that they collide, under random keys they can't. No contract depends on it.
#[derive(Clone, Copy)]
pub struct Seed {
    keys: Option<RandomState>,
}

impl Seed {
    /// The same for each kernel.
    pub fn fixed() -> Seed {
        Seed { keys: None }
    }

    /// These keys.
    pub fn random(keys: RandomState) -> Seed {
        Seed { keys: Some(keys) }
    }
}

impl BuildHasher for Seed {
    type Hasher = DefaultHasher;

    ghost build_hasher = { λ s. hasher_by s.keys };

    fn build_hasher(&self) -> DefaultHasher {
        match &self.keys {
            Some(keys) => keys.build_hasher(),
            None => DefaultHasher::new(),
        }
    }
}
