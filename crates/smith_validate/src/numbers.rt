//! Sets of numbers.

ghost use Rattle.std.specs.Prelude.{◌≡◌, ◌⊎◌, ◌||◌, ℕ, false, true, IfOk, OnOk, get_or};
ghost use Rattle.smith_validate.specs.Numbers.{IsAdded, IsListedToo, is_in};

use std::alloc::{AllocError, Global};
use std::collections::BTreeSet;

/// A set of numbers. As long as they are few beside the greatest, they are in a tree. Then a list says of each number
/// up to the greatest whether it is in the set.
#[derive(Drop)]
pub(crate) struct Numbers {
    few: BTreeSet<usize>,
    present: Vec<bool>,
}

impl Numbers {
    pub(crate) fn new(alloc: Global) -> Numbers
        ensures { (n : ℕ) → is_in result n ≡ false }
    {
        Numbers {
            few: BTreeSet::new(alloc),
            present: Vec::new(alloc),
        }
    }

    pub(crate) fn contains(&self, number: usize) -> bool
        ensures { result ≡ is_in self.now number }
    {
        self.is_listed(number) || self.few.contains(&number)
    }

    /// Adds a number. Says whether it was not in the set.
    pub(crate) fn insert(&mut self, number: usize) -> Result<bool, AllocError>
        ensures added { OnOk result (IsAdded self.old self.new number) }
        ensures was { IfOk result (λ is. is ≡ false → is_in self.old number ≡ true) }
    {
        if self.contains(number) {
            return Ok(false);
        }
        if number >= self.present.len() {
            if !self.is_dense(number) {
                self.few.insert(number)?;
                return Ok(true);
            }
            self.list_few()?;
        }
        self.list(number)?;
        Ok(true)
    }

    fn is_listed(&self, number: usize) -> bool
        ensures { result ≡ get_or self.now.present.items number false }
    {
        match self.present.get(number) {
            Some(listed) => *listed,
            None => false,
        }
    }

    // Whether, with that number, the few are one in 64 of the numbers up to the greatest. A list of all of these takes
    // no longer to make than the few took.
    fn is_dense(&self, number: usize) -> bool {
        let most = match self.few.last() {
            Some(last) => number.max(*last),
            None => number,
        };
        most / 64 <= self.few.len()
    }

    fn list(&mut self, number: usize) -> Result<(), AllocError>
        ensures listed { OnOk result (IsListedToo self.old.present.items self.new.present.items number) }
        ensures few { OnOk result (self.new.few ≡ self.old.few) }
    {
        if number >= self.present.len() {
            let len = number.checked_add(1).ok_or(AllocError)?;
            self.present.resize(len, false)?;
        }
        self.present[number] = true;
        Ok(())
    }

    // Moves the few to the list.
    fn list_few(&mut self) -> Result<(), AllocError>
        ensures { OnOk result ((n : ℕ) → is_in self.new n ≡ is_in self.old n) }
    {
        for _ in 0..u64::MAX {
            let Some(number) = self.few.pop_first() else {
                return Ok(());
            };
            self.list(number)?;
        }
        Err(AllocError)
    }
}
