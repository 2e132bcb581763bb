//! A record of a ledger gets another class. Over a history this is noted by its line, on the ledger's occasion.

ghost use Rattle.std.specs.Prelude.{◌≡◌};
ghost use Rattle.record_archive.specs.Calls.{CarriesOut, Quietly};
ghost use Rattle.record_archive.specs.Refiling as archive;
ghost use Rattle.record_history.specs.Events.{Refiled};
ghost use Rattle.record_ledger.specs.Ledgers.{keeper_of};
ghost use Rattle.record_ledger.specs.Notings.{NotesChange};
ghost use Rattle.record_store.specs.Stores.{keeper_of as keeper_of_store};

use crate::ledger::Ledger;
use crate::noted;
use record_noted::Opened;
use record_store::{Store, StoreFault};
use sqlite::Alter;
use std::time::Clock;

/// The call on a store without a history. It first finds the connection open, as those of `Records` do.
fn refile_plain<S: Alter>(store: &mut Store<S>, number: u32, path: &[u8]) -> Result<(), StoreFault>
    ensures { CarriesOut (keeper_of_store S.Store) store.old store.new
        (λ a. archive.refile a number path.now) Quietly result }
{
    store.ensure_open()?;
    let done = store.refile(number, path);
    let _idle = store.is_idle();
    done
}

impl<S: Alter, K: Clock> Ledger<'_, S, K> {
    /// Puts a live record into another class of the plan, open or closed. Its number, message, day and holds stay; it
    /// falls due by the schedule of the new class, counted from the day of its capture.
    ///
    /// Refused with 89 (`sqlite`) or 99 (no memory), or else with the first that holds, in this order:
    ///
    /// - 80: there is no such record;
    /// - 84: it is destroyed;
    /// - 59: the path is no class of the plan.
    ///
    /// A refusal changes nothing, and notes nothing.
    pub fn refile(&mut self, number: u32, path: &[u8]) -> Result<(), StoreFault>
        ensures carries { CarriesOut (keeper_of S.Store) self.old self.new
            (λ a. archive.refile a number path.now) Quietly result }
        ensures notes { NotesChange S.Store self.old self.new
            (λ a. archive.refile a number path.now)
            (λ a d. d ≡ Refiled number path.now) result }
    {
        match &mut self.kept {
            Opened::Plain(store) => refile_plain(store, number, path),
            Opened::Noted(noted) => noted::refile(self.alloc, noted, &self.occasion, number, path),
        }
    }
}
