//! Which messages are captured already: in a store, or in the volumes of an archive.

ghost use Rattle.std.specs.Prelude.{◌≡◌, None, Some, OnOk, filter, if◌then◌else◌};
ghost use Rattle.std.specs.BTreeMap.{get};
ghost use Rattle.record_known.specs.Known.{Key, is_key, key_cmp};
ghost use Rattle.mail_import.specs.Known.{
  KnowsNone,
  Puts,
  first_record,
  is_of_another,
  record_among,
  record_in,
};

use record_known::{Known, SealKey};
use std::alloc::{AllocError, Global};
use std::collections::BTreeMap;

/// The first record of a message.
#[derive(Clone, Copy)]
pub struct FirstRecord {
    /// Its volume, in an archive of volumes.
    pub volume: Option<u32>,
    pub number: u32,
}

/// The messages that are captured in a store, each with the number of its first record.
#[derive(Drop)]
pub struct StoreKnown {
    /// Which volume the store is, in an archive of volumes.
    pub volume: Option<u32>,
    pub known: Known,
}

impl StoreKnown {
    /// The first record of a message with this seal; none where the store has none.
    fn first_record(&self, key: &SealKey) -> Option<FirstRecord>
        ensures { result ≡ record_in self.now key.now }
    {
        match self.known.first_record(key) {
            Some(number) => Some(FirstRecord {
                volume: self.volume,
                number,
            }),
            None => None,
        }
    }

    /// Whether it is of another volume than this one.
    fn is_of_another(&self, volume: Option<u32>) -> bool
        ensures { result ≡ is_of_another volume self.now }
    {
        match volume {
            Some(volume) => match self.volume {
                Some(own) => own != volume,
                None => true,
            },
            None => self.volume.is_some(),
        }
    }
}

/// The first record of a message with this seal in stores: where several have one, that of the last of these.
fn record_among(stores: &[StoreKnown], key: &SealKey) -> Option<FirstRecord>
    ensures { result ≡ record_among None stores.now key.now }
{
    let mut found = None;
    for store in stores {
        found = store.first_record(key).or(found);
    }
    found
}

/// Leaves out what is known of a volume.
fn leave_out(stores: &mut Vec<StoreKnown>, volume: Option<u32>)
    ensures { stores.new.items ≡ filter (is_of_another volume) stores.old.items }
{
    stores.retain(|store| store.is_of_another(volume));
}

/// The messages that are captured already: those that stores have, and those that were captured since.
pub struct AllKnown {
    stores: Vec<StoreKnown>,
    captured: BTreeMap<SealKey, FirstRecord>,
}

impl Drop for AllKnown {
    fn drop(self) {
        let AllKnown {
            stores: _,
            captured: _,
        } = self;
    }
}

impl AllKnown {
    /// No messages.
    pub fn none(alloc: Global) -> AllKnown
        ensures { KnowsNone result }
    {
        AllKnown {
            stores: Vec::new(alloc),
            captured: BTreeMap::new(alloc),
        }
    }

    /// The first record of a message with this seal that was captured since; none where none was.
    fn captured_record(&self, key: &SealKey) -> Option<FirstRecord>
        ensures { result ≡ get key_cmp self.now.captured key.now }
    {
        match self.captured.get(key) {
            Some(first) => Some(*first),
            None => None,
        }
    }

    /// The first record of a message with this seal; none where none is captured.
    pub fn first_record(&self, key: &SealKey) -> Option<FirstRecord>
        ensures { result ≡ first_record self.now key.now }
    {
        self.captured_record(key)
            .or(record_among(self.stores.as_slice(), key))
    }

    /// Adds what a store has, in the place of what was known of that store before. The only refusal is no memory (99).
    pub fn put(&mut self, store: StoreKnown) -> Result<(), AllocError>
        ensures { OnOk result (Puts store self.old self.new) }
    {
        leave_out(&mut self.stores, store.volume);
        self.stores.push(store)?;
        Ok(())
    }

    /// Notes that a message with this seal is captured, and its first record. The only refusal is no memory (99).
    pub(crate) fn note(&mut self, key: SealKey, first: FirstRecord) -> Result<(), AllocError>
        ensures { OnOk result ((k : Key) → first_record self.new k ≡
            (if is_key key k then Some first else first_record self.old k)) }
    {
        self.captured.insert(key, first)?;
        Ok(())
    }
}
