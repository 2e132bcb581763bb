//! The ledger: a store with its history, or without one.

ghost use Rattle.std.specs.Prelude.{◌≡◌};
ghost use Rattle.record_ledger.specs.Ledgers.{store_of, keeps_history};

use crate::occasion::Occasion;
use class_plan::Plan;
use record_noted::Opened;
use record_store::Store;
use sqlite::Alter;
use std::alloc::Global;
use std::time::Clock;

/// An archive that is changed on an occasion. Where its store keeps a history, each change and the
/// line that tells of it are one transaction.
#[derive(Drop)]
pub struct Ledger<'a, S: Alter, K: Clock> {
    pub(crate) alloc: Global,
    /// The store, with its history where it keeps one.
    pub(crate) kept: Opened<S>,
    pub(crate) occasion: Occasion<'a, K>,
}

impl<'a, S: Alter, K: Clock> Ledger<'a, S, K> {
    /// An archive as it was opened, for changes on an occasion. What was opened is kept as it is,
    /// so the ledger stands for what that stands for.
    pub fn of(alloc: Global, opened: Opened<S>, occasion: Occasion<'a, K>) -> Ledger<'a, S, K>
        ensures kept { result.kept ≡ opened }
        ensures occasion { result.occasion ≡ occasion.entry }
    {
        Ledger {
            alloc,
            kept: opened,
            occasion,
        }
    }

    /// The store, to look at.
    pub fn store(&self) -> &Store<S>
        ensures { result.now ≡ store_of self.now.kept }
    {
        match &self.kept {
            Opened::Plain(store) => store,
            Opened::Noted(noted) => noted.store(),
        }
    }

    /// From now on the lines of changes have these notes: `key=value` joined by `;`, one word of 1
    /// to 64 octets from 33 to 126 that doesn't begin with a colon, or nothing. What is kept, and
    /// the rest of the occasion, stay.
    pub fn set_notes(&mut self, notes: &'a [u8])
        ensures { self.new ≡ record self.old {
          occasion = record self.old.occasion { notes = notes.entry };
        } }
    {
        self.occasion.notes = notes;
    }

    /// Whether changes are noted in a history.
    pub fn is_noted(&self) -> bool
        ensures { result ≡ keeps_history self.now.kept }
    {
        matches!(&self.kept, Opened::Noted(_))
    }

    /// The archive's present plan.
    pub fn plan_kept(&self) -> &Plan
        ensures { result.now ≡ (store_of self.now.kept).plan }
    {
        self.store().plan()
    }

    /// Ends the ledger, and returns the store.
    pub fn into_store(self) -> Store<S>
        ensures { result ≡ store_of self.entry.kept }
    {
        let Ledger { kept, .. } = self;
        match kept {
            Opened::Plain(store) => store,
            Opened::Noted(noted) => noted.into_store(),
        }
    }
}
