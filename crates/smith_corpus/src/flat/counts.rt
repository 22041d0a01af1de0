//! How often each combination was drawn.

use smith_read::{ReadError, read};
use smith_stats::{Combination, combinations};
use std::alloc::{AllocError, Global};
use std::collections::{BTreeMap, BTreeSet};

/// What a combination is worth that no component has, in the beginning.
pub(crate) const WORTH_OF_NEW: usize = 4096;

/// How much more that is for each component that has a combination on average. So what is rarer than the rest stays
/// worth its bytes, however many components there are.
const WORTH_OF_RARE: usize = WORTH_OF_NEW / 16;

/// How many components have each combination, and how many they are together.
#[derive(Drop)]
pub struct Reached {
    counts: BTreeMap<Combination, usize>,
    total: usize,
}

impl Reached {
    /// None has any.
    pub fn new(alloc: Global) -> Reached {
        let counts = BTreeMap::new(alloc);
        Reached { counts, total: 0 }
    }

    /// Counts a component with these combinations.
    pub(crate) fn add(&mut self, found: &BTreeSet<Combination>) -> Result<(), AllocError> {
        for combination in found {
            let count = self.counts.entry(*combination)?.or_insert(0);
            *count = count.saturating_add(1);
            self.total = self.total.saturating_add(1);
        }
        Ok(())
    }

    // What a combination is worth that no component has.
    fn worth_of_new(&self) -> usize {
        let mean = self.total.checked_div(self.counts.len()).unwrap_or(0);
        WORTH_OF_NEW.saturating_add(WORTH_OF_RARE.saturating_mul(mean))
    }

    /// What these combinations are worth together: each the less, the more components have it.
    pub(crate) fn worth(&self, found: &BTreeSet<Combination>) -> usize {
        let new = self.worth_of_new();
        let mut sum: usize = 0;
        for combination in found {
            let worth = match self.counts.get(combination) {
                Some(count) => new.checked_div(count.saturating_add(1)).unwrap_or(0),
                None => new,
            };
            sum = sum.saturating_add(worth);
        }
        sum
    }
}

/// The combinations in a component, if these bytes are one.
pub(crate) fn combinations_of(
    alloc: Global,
    bytes: &[u8],
) -> Result<BTreeSet<Combination>, AllocError> {
    match read(alloc, bytes) {
        Ok(component) => combinations(alloc, &component),
        Err(ReadError::OutOfMemory) => Err(AllocError),
        Err(_) => Ok(BTreeSet::new(alloc)),
    }
}
