//! Where rows may stand in a list from which rows are taken.

use std::alloc::{AllocError, Global};
use std::collections::BTreeMap;

/// Where the last row with each key may stand. A place is a guess, and its reader looks whether the row is there: nothing is
/// promised of it.
///
/// Each row has a serial number, and they rise along the list, so a place is found by halving.
#[derive(Drop)]
pub(crate) struct Places<K: Ord> {
    serials: Vec<u64>,
    newest: BTreeMap<K, u64>,
    next: u64,
}

impl<K: Ord + Drop> Places<K> {
    /// The places of no rows.
    pub(crate) fn new(alloc: Global) -> Places<K> {
        Places {
            serials: Vec::new(alloc),
            newest: BTreeMap::new(alloc),
            next: 0,
        }
    }

    /// Notes a row that comes behind the others. The only refusal is no memory (99).
    pub(crate) fn note(&mut self, key: K) -> Result<(), AllocError> {
        self.newest.insert(key, self.next)?;
        self.serials.push(self.next)?;
        self.next = self.next.saturating_add(1);
        Ok(())
    }

    /// Where the last row with a key may stand.
    pub(crate) fn guess(&self, key: &K) -> Option<usize> {
        match self.newest.get(key) {
            Some(serial) => self.serials.as_slice().binary_search(serial).ok(),
            None => None,
        }
    }

    /// Forgets the row at a place, which is taken from the list.
    pub(crate) fn forget(&mut self, place: usize) {
        if place < self.serials.len() {
            let _serial = self.serials.remove(place);
        }
    }
}
