//! Counts of numbers.

ghost use Rattle.std.specs.Prelude.{◌≡◌, ◌+◌, ◌-◌, ℕ, OnOk};
ghost use Rattle.record_judge.specs.Counts.{count_at, only_at};

use std::alloc::{AllocError, Global};
use std::collections::BTreeMap;

/// How often each number was counted. A number that was not counted takes no memory.
#[derive(Drop)]
pub(crate) struct Counts {
    counts: BTreeMap<u32, u64>,
}

impl Counts {
    pub(crate) fn new(alloc: Global) -> Counts
        ensures { (n : ℕ) → count_at result n ≡ 0 }
    {
        Counts {
            counts: BTreeMap::new(alloc),
        }
    }

    pub(crate) fn count(&self, number: u32) -> u64
        ensures { result ≡ count_at self.now number }
    {
        match self.counts.get(&number) {
            Some(count) => *count,
            None => 0,
        }
    }

    /// Counts a number `by` times more. Refused for no memory (99), also where the count would pass 2^64 - 1.
    pub(crate) fn add(&mut self, number: u32, by: u64) -> Result<(), AllocError>
        ensures { OnOk result
            ((n : ℕ) → count_at self.new n ≡ count_at self.old n + only_at number by n) }
    {
        if by == 0 {
            return Ok(());
        }
        let Some(sum) = self.count(number).checked_add(by) else {
            return Err(AllocError);
        };
        match self.counts.insert(number, sum) {
            Ok(_) => Ok(()),
            Err(_) => Err(AllocError),
        }
    }

    /// Counts a number `by` times less, down to 0 at most.
    pub(crate) fn take(&mut self, number: u32, by: u64)
        ensures { (n : ℕ) → count_at self.new n ≡ count_at self.old n - only_at number by n }
    {
        let left = self.count(number).saturating_sub(by);
        if left == 0 {
            let _taken = self.counts.remove(&number);
        } else {
            let _put = self.counts.insert(number, left);
        }
    }
}
