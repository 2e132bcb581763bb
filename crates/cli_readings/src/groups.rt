//! Which messages were captured twice, octet by octet.

ghost use Rattle.std.specs.Prelude.{◌≡◌, ◌++◌, [], ◌∷◌, List, OnOk, IfOk, filter, slice_get};
ghost use Rattle.std.specs.BTreeMap.{IsOrdered};
ghost use Rattle.std.specs.List.Sorted.{IsPermutation, IsSortedByKey};
ghost use Rattle.cli_readings.specs.Groups.{Added, AreGroupsOf, AreTwice, KeyedGroup, has_one_message, is_twice, key_of, order_of, place_order, records_of, twice_in, was_twice};

use std::alloc::{AllocError, Global};
use std::cmp::Ordering;
use std::collections::BTreeMap;

/// A record, and the message that it has, both by number.
#[derive(Clone, Copy)]
pub(crate) struct Sealed {
    /// The number of the volume that it is in. A store that is one file is its own first volume.
    pub(crate) volume: u32,
    pub(crate) number: u32,
    pub(crate) message: u32,
}

impl Sealed {
    /// Whether it has the message of another record: one of the same number in the same volume.
    fn has_message_of(self, other: Sealed) -> bool
        ensures { result ≡ has_one_message other self }
    {
        self.message == other.message && self.volume == other.volume
    }

    /// Which of two records comes first: that of the first volume, and in one volume that of the lower number.
    fn order(self, other: Sealed) -> Ordering
        ensures { result ≡ place_order self other }
    {
        self.volume
            .cmp(&other.volume)
            .then(self.number.cmp(&other.number))
    }
}

/// The records whose messages have the same seal. There is one at least.
#[derive(Drop)]
pub(crate) struct Group {
    first: Sealed,
    /// Those that were added after it.
    others: Vec<Sealed>,
}

impl Group {
    /// The group of a record.
    pub(crate) fn of(alloc: Global, first: Sealed) -> Group
        ensures { records_of result ≡ first ∷ [] }
    {
        Group {
            first,
            others: Vec::new(alloc),
        }
    }

    /// Adds a record. The only refusal is no memory.
    pub(crate) fn add(&mut self, other: Sealed) -> Result<(), AllocError>
        ensures { OnOk result (records_of self.new ≡ records_of self.old ++ other ∷ []) }
    {
        self.others.push(other)?;
        Ok(())
    }

    /// The record that was added first.
    pub(crate) fn first(&self) -> Sealed
        ensures { result ≡ self.now.first }
    {
        self.first
    }

    /// Those that were added after it, in this order.
    pub(crate) fn others(&self) -> &[Sealed]
        ensures { result.now ≡ self.now.others.items }
    {
        self.others.as_slice()
    }

    /// The record of a place among them, if there are so many.
    pub(crate) fn record(&self, place: usize) -> Option<Sealed>
        ensures { result ≡ slice_get (records_of self.now) place }
    {
        if place == 0 {
            return Some(self.first);
        }
        self.others.as_slice().get(place - 1).copied()
    }

    /// Whether its message was captured twice: two of the records have messages of different numbers, or of different volumes.
    /// Records of one capture, in several classes, have one message.
    pub(crate) fn is_twice(&self) -> bool
        ensures { result ≡ is_twice (records_of self.now) }
    {
        let first = self.first;
        self.others.iter().any(|other| !other.has_message_of(first))
    }
}

/// What stands for a message: how many octets it has, and their SHA-256 in hexadecimal digits.
pub(crate) type SealKey = (u64, Vec<u8>);

/// The records of one or more stores by the seals of their messages. Each takes as much memory, however long its message is.
#[derive(Drop)]
pub(crate) struct Groups {
    alloc: Global,
    groups: BTreeMap<SealKey, Group>,
}

/// Adds a group to others, if its message was captured twice. The only refusal is no memory.
fn push_twice(twice: &mut Vec<(SealKey, Group)>, keyed: (SealKey, Group)) -> Result<(), AllocError>
    ensures { OnOk result
        (twice.new.items ≡ twice.old.items ++ filter was_twice (keyed ∷ [])) }
{
    if keyed.1.is_twice() {
        twice.push(keyed)?;
    }
    Ok(())
}

/// Puts groups into the order of their first records.
fn sort_by_first(groups: &mut Vec<(SealKey, Group)>) -> Result<(), AllocError>
    ensures each { IsPermutation groups.old.items groups.new.items }
    ensures ordered { OnOk result
        (IsSortedByKey (λ (g : KeyedGroup). g.1.first) place_order groups.new.items) }
{
    groups.sort_by(|one, other| one.1.first.order(other.1.first))
}

impl Groups {
    /// No records.
    pub(crate) fn new(alloc: Global) -> Groups
        ensures { AreGroupsOf result [] }
    {
        Groups {
            alloc,
            groups: BTreeMap::new(alloc),
        }
    }

    /// Adds a record to those whose messages have the same seal. The only refusal is no memory.
    pub(crate) fn add(&mut self, seal: SealKey, sealed: Sealed) -> Result<(), AllocError>
        ensures { OnOk result ((added : List Added) → AreGroupsOf self.old added
            → AreGroupsOf self.new (added ++ (key_of seal, sealed) ∷ [])) }
    {
        if let Some(group) = self.groups.get_mut(&seal) {
            return group.add(sealed);
        }
        self.groups.insert(seal, Group::of(self.alloc, sealed))?;
        Ok(())
    }

    /// The groups whose messages were captured twice, with their seals, in the order of these.
    fn twice(self) -> Result<Vec<(SealKey, Group)>, AllocError>
        ensures groups { IfOk result (λ twice. twice.items ≡ twice_in self.groups) }
        ensures ordered { OnOk result (IsOrdered order_of self.groups) }
    {
        let Groups { alloc, groups } = self;
        let mut twice = Vec::new(alloc);
        for keyed in groups {
            push_twice(&mut twice, keyed)?;
        }
        Ok(twice)
    }

    /// The groups whose messages were captured twice, with their seals, in the order of their first records. The only refusal is no
    /// memory.
    pub(crate) fn into_twice(self) -> Result<Vec<(SealKey, Group)>, AllocError>
        ensures { IfOk result (λ twice. (added : List Added) → AreGroupsOf self added
            → AreTwice added twice.items) }
    {
        let mut twice = self.twice()?;
        sort_by_first(&mut twice)?;
        Ok(twice)
    }
}
