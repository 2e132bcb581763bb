//! Counts of holds by name and record.

ghost use Rattle.std.specs.Prelude.{◌≡◌, ◌+◌, if◌then◌else◌, IfOk, OnOk};
ghost use Rattle.record_judge.specs.Holds.{Key, is_key, named_at};

use std::alloc::{AllocError, Global};
use std::collections::BTreeMap;

/// The name of a hold, and the number of its record.
pub(crate) type HoldKey = (Vec<u8>, u32);

/// How many holds have each name on each record. What has none takes no memory.
#[derive(Drop)]
pub(crate) struct HoldCounts {
    counts: BTreeMap<HoldKey, u64>,
}

/// The only refusal is no memory (99).
pub(crate) fn hold_key(alloc: Global, name: &[u8], number: u32) -> Result<HoldKey, AllocError>
    ensures name { IfOk result (λ k. k.0.items ≡ name.now) }
    ensures number { IfOk result (λ k. k.1 ≡ number) }
{
    let name = Vec::from_slice(alloc, name)?;
    Ok((name, number))
}

impl HoldCounts {
    pub(crate) fn new(alloc: Global) -> HoldCounts
        ensures { (k : Key) → named_at result k ≡ 0 }
    {
        HoldCounts {
            counts: BTreeMap::new(alloc),
        }
    }

    pub(crate) fn count(&self, key: &HoldKey) -> u64
        ensures { result ≡ named_at self.now key.now }
    {
        match self.counts.get(key) {
            Some(count) => *count,
            None => 0,
        }
    }

    /// Counts a hold more. Refused for no memory (99), also where the count would pass 2^64 - 1.
    pub(crate) fn add(&mut self, key: HoldKey) -> Result<(), AllocError>
        ensures { OnOk result ((k : Key) →
            named_at self.new k ≡ named_at self.old k + (if is_key key k then 1 else 0)) }
    {
        let Some(sum) = self.count(&key).checked_add(1) else {
            return Err(AllocError);
        };
        self.counts.insert(key, sum)?;
        Ok(())
    }

    /// Counts none any more.
    pub(crate) fn forget(&mut self, key: &HoldKey)
        ensures { (k : Key) →
            named_at self.new k ≡ (if is_key key.now k then 0 else named_at self.old k) }
    {
        let _count = self.counts.remove(key);
    }
}
