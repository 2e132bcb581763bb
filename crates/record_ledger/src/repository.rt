//! The ledger as a `Repository`, whose records are chosen and disposed of. Over a history each
//! destruction is noted.

ghost use Rattle.sqlite.specs.State.{HasCleanDisk};
ghost use Rattle.sqlite.specs.Held.{state};
ghost use Rattle.record_ledger.specs.Ledgers.{KeptFor, store_of, kept_archive};

use crate::ledger::Ledger;
use class_plan::{Date, Plan};
use record_archive::{Line, Records};
use record_choice::{RecordEntry, Repository};
use record_noted::Opened;
use record_store::StoreFault;
use sqlite::Alter;
use std::time::Clock;

impl<S: Alter, K: Clock> Repository for Ledger<'_, S, K> {
    type Fault = StoreFault;

    ghost clean = { λ l. HasCleanDisk (state S.Store (store_of l.kept).conn) };

    ghost stands = { λ l a. KeptFor S.Store l.kept a };

    fn plan(&self) -> &Plan {
        self.plan_kept()
    }

    fn is_shared(&self, message: u32) -> bool {
        self.store().is_shared(message)
    }

    fn entries(&mut self, from: u32, most: usize) -> Result<Vec<RecordEntry>, StoreFault> {
        match &mut self.kept {
            Opened::Plain(store) => Repository::entries(store, from, most),
            Opened::Noted(noted) => noted.entries(from, most),
        }
    }

    fn entry(&mut self, number: u32) -> Result<RecordEntry, StoreFault> {
        match &mut self.kept {
            Opened::Plain(store) => Repository::entry(store, number),
            Opened::Noted(noted) => noted.entry(number),
        }
    }

    fn message(&mut self, number: u32) -> Result<Vec<u8>, StoreFault> {
        match &mut self.kept {
            Opened::Plain(store) => Repository::message(store, number),
            Opened::Noted(noted) => noted.message(number),
        }
    }

    fn due(&mut self, day: Date) -> Result<Vec<Line>, StoreFault> {
        match &mut self.kept {
            Opened::Plain(store) => Repository::due(store, day),
            Opened::Noted(noted) => noted.due(day),
        }
    }

    fn destroy(&mut self, number: u32, day: Date) -> Result<(), StoreFault> {
        Records::destroy(self, number, day)
    }

    ghost is_archive = { λ l a stands. kept_archive _ l.kept a stands };
}
