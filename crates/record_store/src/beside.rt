//! What is done in a transaction of a store, and changes nothing of the archive.

ghost use Rattle.record_archive.specs.Calls.{Quietly, unchanged};
ghost use Rattle.record_store.specs.Companions.{ObeysReady, Brought, FailsStill, LeavesBoth};
ghost use Rattle.record_store.specs.Stores.{Behaves};

use crate::fault::{BUSY, StoreFault, fault_of};
use crate::store::Store;
use record_tables::companions::{Accompanied, Companion, Unchanged};
use record_tables::transact::transact;
use sqlite::Alter;

impl<S: Alter> Store<S> {
    /// Does in a transaction what a companion does, beside no change of the archive.
    ///
    /// Refused with 89 (`sqlite`) or 99 (no memory). A refusal changes nothing.
    pub fn do_beside<D: Companion + Drop>(&mut self, companion: D) -> Result<(), StoreFault>
        ensures obeys { ObeysReady S.Store (D.needs companion) self.old self.new result
            unchanged Quietly }
        ensures brought { Brought S.Store (D.needs companion) (D.brings companion)
            self.old self.new result }
        ensures still { FailsStill S.Store self.old self.new result }
        ensures behaves { Behaves S.Store self.old self.new result }
        ensures crash { LeavesBoth S.Store (D.needs companion) (D.brings companion)
            self.old self.new unchanged }
    {
        if !self.conn.is_autocommit() {
            return Err(BUSY);
        }
        let change = Unchanged;
        match transact(&mut self.conn, Accompanied { change, companion }) {
            Ok(()) => Ok(()),
            Err(error) => Err(fault_of(error)),
        }
    }
}
