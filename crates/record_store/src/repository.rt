//! The store as a `Repository`, whose records are chosen and disposed of. Each call is the store's own of the same name.

ghost use Rattle.sqlite.specs.State.{HasCleanDisk};
ghost use Rattle.sqlite.specs.Held.{state};
ghost use Rattle.record_store.specs.Stores.{StandsFor};

use crate::fault::StoreFault;
use crate::store::Store;
use class_plan::{Date, Plan};
use record_archive::{ArchiveRefusal, Line};
use record_choice::{RecordEntry, Repository};
use sqlite::Alter;

impl<S: Alter> Repository for Store<S> {
    type Fault = StoreFault;

    ghost clean = { λ s. HasCleanDisk (state S.Store s.conn) };

    ghost stands = { λ s a. StandsFor S.Store s a };

    fn plan(&self) -> &Plan {
        self.plan()
    }

    fn is_shared(&self, message: u32) -> bool {
        self.others.count(message) > 0
    }

    fn entries(&mut self, from: u32, most: usize) -> Result<Vec<RecordEntry>, StoreFault> {
        self.entries(from, most)
    }

    fn entry(&mut self, number: u32) -> Result<RecordEntry, StoreFault> {
        let mut entries = self.entries(number, 1)?;
        match entries.pop() {
            Some(entry) if entry.number == number => Ok(entry),
            _ => Err(StoreFault::Refused(ArchiveRefusal::NoRecord)),
        }
    }

    fn message(&mut self, number: u32) -> Result<Vec<u8>, StoreFault> {
        self.message(number)
    }

    fn due(&mut self, day: Date) -> Result<Vec<Line>, StoreFault> {
        self.due(day)
    }

    fn destroy(&mut self, number: u32, day: Date) -> Result<(), StoreFault> {
        self.destroy(number, day)
    }

    ghost is_archive = { λ s a stands. stands.archive };
}
