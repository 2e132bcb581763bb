//! Sets of slots.

ghost use Rattle.std.specs.Prelude.{◌≡◌, ◌<◌, ◌↔◌, ℕ, false, IsTrue, ◌||◌, ◌&&◌, nat_eq};
ghost use Rattle.filing_procedures.specs.Sets.{has};

/// A set of slots, of which there are sixty-four.
#[derive(Clone, Copy, Drop)]
pub struct SlotSet {
    bits: u64,
}

impl SlotSet {
    /// No slot.
    pub fn empty() -> SlotSet
        ensures { (k : ℕ) → has result k ≡ false }
    {
        SlotSet { bits: 0 }
    }

    /// These slots and one more.
    pub fn with(self, slot: usize) -> SlotSet
        requires { slot < 64 }
        ensures { (k : ℕ) → has result k ≡ (nat_eq k slot || has self k) }
    {
        SlotSet {
            bits: self.bits | 1u64 << slot,
        }
    }

    /// The slots of either set.
    pub fn union(self, other: SlotSet) -> SlotSet
        ensures { (k : ℕ) → has result k ≡ (has self k || has other k) }
    {
        SlotSet {
            bits: self.bits | other.bits,
        }
    }

    /// The slots of both sets.
    pub fn meet(self, other: SlotSet) -> SlotSet
        ensures { (k : ℕ) → has result k ≡ (has self k && has other k) }
    {
        SlotSet {
            bits: self.bits & other.bits,
        }
    }

    /// Whether both sets have the same slots.
    pub fn is_same(self, other: SlotSet) -> bool
        ensures { IsTrue result ↔ ((k : ℕ) → k < 64 → has self k ≡ has other k) }
    {
        self.bits == other.bits
    }
}
