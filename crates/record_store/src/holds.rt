//! Holds: what keeps a record from destruction.

ghost use Rattle.std.specs.Prelude.{◌≡◌, true, Ok, IfErr, OnOk, OnErr};
ghost use Rattle.record_archive.specs.Archive as archive;
ghost use Rattle.record_archive.specs.Archive.{Archive};
ghost use Rattle.record_archive.specs.Faults.{is_trouble};
ghost use Rattle.record_archive.specs.Calls.{Quietly};
ghost use Rattle.record_store.specs.Companions.{ObeysRowsReady, Brought, FailsStill, LeavesBoth, ChangesReady, BringsWhere, LeavesBothWhere};
ghost use Rattle.record_store.specs.Stores.{StandsFor, StaysStill, ObeysRows, Leaves, LeavesAll, TellsOutcome, Behaves};

use crate::changes::{Holding, Release};
use crate::fault::{BUSY, StoreFault, fault_of};
use crate::store::Store;
use record_archive::ArchiveRefusal;
use record_tables::companions::{Accompanied, Alone, Companion};
use record_tables::transact::transact;
use sqlite::Alter;

impl<S: Alter> Store<S> {
    /// Whether a record may be held by that name; refused with the first of 80, 84 and 86, in this order.
    fn judge_hold(&mut self, name: &[u8], number: u32) -> Result<(), StoreFault>
        ensures tells { TellsOutcome S.Store self.old self.new result
            (λ a. archive.hold a name.now number) (λ a. archive.with_hold a name.now number) }
        ensures still { StaysStill S.Store self.old self.new }
        ensures behaves { Behaves S.Store self.old self.new result }
        ensures crash { LeavesAll S.Store self.old self.new }
    {
        let record = self.record_at(number)?;
        if record.destroyed {
            return Err(StoreFault::Refused(ArchiveRefusal::Destroyed));
        }
        if self.has_hold(name, number)? {
            return Err(StoreFault::Refused(ArchiveRefusal::HoldThere));
        }
        Ok(())
    }

    fn place_hold<D: Companion + Drop>(
        &mut self,
        name: &[u8],
        number: u32,
        companion: D,
    ) -> Result<(), StoreFault>
        ensures ok { OnOk result (ChangesReady S.Store (D.needs companion) self.old self.new
            (λ a. archive.hold a name.now number ≡ Ok (archive.with_hold a name.now number))
            (λ a. archive.with_hold a name.now number)) }
        ensures err { OnErr result
            ((a : Archive) → StandsFor S.Store self.old a → StandsFor S.Store self.new a) }
        ensures trouble { IfErr result (λ f. is_trouble f ≡ true) }
        ensures brought { OnOk result
            (BringsWhere S.Store (D.needs companion) (D.brings companion) self.old self.new
            (λ a. archive.hold a name.now number ≡ Ok (archive.with_hold a name.now number))) }
        ensures still { FailsStill S.Store self.old self.new result }
        ensures behaves { Behaves S.Store self.old self.new result }
        ensures crash { LeavesBothWhere S.Store (D.needs companion) (D.brings companion)
            self.old self.new
            (λ a. archive.hold a name.now number ≡ Ok (archive.with_hold a name.now number))
            (λ a. archive.with_hold a name.now number) }
    {
        if !self.conn.is_autocommit() {
            return Err(BUSY);
        }
        let Ok(()) = self.held.add(number, 1) else {
            return Err(StoreFault::NoMemory);
        };
        let change = Holding { name, number };
        match transact(&mut self.conn, Accompanied { change, companion }) {
            Ok(()) => Ok(()),
            Err(error) => {
                self.held.take(number, 1);
                Err(fault_of(error))
            }
        }
    }

    /// Places a hold of that name on a record, which keeps it from destruction.
    ///
    /// Refused with 80 where there is no such record, 84 where it is destroyed, 86 where that hold is there already,
    /// 89 (`sqlite`) or 99 (no memory). A refusal changes nothing.
    pub fn hold(&mut self, name: &[u8], number: u32) -> Result<(), StoreFault>
        ensures obeys { ObeysRows S.Store self.old self.new result
            (λ a. archive.hold a name.now number) Quietly }
        ensures behaves { Behaves S.Store self.old self.new result }
        ensures crash { Leaves S.Store self.old self.new (λ a. archive.hold a name.now number) }
    {
        self.hold_with(name, number, Alone)
    }

    /// The same beside a companion, in one transaction.
    pub fn hold_with<D: Companion + Drop>(
        &mut self,
        name: &[u8],
        number: u32,
        companion: D,
    ) -> Result<(), StoreFault>
        ensures obeys { ObeysRowsReady S.Store (D.needs companion) self.old self.new result
            (λ a. archive.hold a name.now number) Quietly }
        ensures brought { Brought S.Store (D.needs companion) (D.brings companion)
            self.old self.new result }
        ensures still { FailsStill S.Store self.old self.new result }
        ensures behaves { Behaves S.Store self.old self.new result }
        ensures crash { LeavesBoth S.Store (D.needs companion) (D.brings companion)
            self.old self.new (λ a. archive.hold a name.now number) }
    {
        self.judge_hold(name, number)?;
        self.place_hold(name, number, companion)?;
        Ok(())
    }

    /// Whether a hold of that name may end; refused with the first of 80 and 85, in this order.
    fn judge_release(&mut self, name: &[u8], number: u32) -> Result<(), StoreFault>
        ensures tells { TellsOutcome S.Store self.old self.new result
            (λ a. archive.release a name.now number) (λ a. archive.without_hold a name.now number) }
        ensures still { StaysStill S.Store self.old self.new }
        ensures behaves { Behaves S.Store self.old self.new result }
        ensures crash { LeavesAll S.Store self.old self.new }
    {
        let _record = self.record_at(number)?;
        if self.has_hold(name, number)? {
            Ok(())
        } else {
            Err(StoreFault::Refused(ArchiveRefusal::NoHold))
        }
    }

    fn end_hold<D: Companion + Drop>(
        &mut self,
        name: &[u8],
        number: u32,
        companion: D,
    ) -> Result<(), StoreFault>
        ensures ok { OnOk result (ChangesReady S.Store (D.needs companion) self.old self.new
            (λ a. archive.release a name.now number ≡ Ok (archive.without_hold a name.now number))
            (λ a. archive.without_hold a name.now number)) }
        ensures err { OnErr result
            ((a : Archive) → StandsFor S.Store self.old a → StandsFor S.Store self.new a) }
        ensures trouble { IfErr result (λ f. is_trouble f ≡ true) }
        ensures brought { OnOk result
            (BringsWhere S.Store (D.needs companion) (D.brings companion) self.old self.new
            (λ a. archive.release a name.now number ≡
            Ok (archive.without_hold a name.now number))) }
        ensures still { FailsStill S.Store self.old self.new result }
        ensures behaves { Behaves S.Store self.old self.new result }
        ensures crash { LeavesBothWhere S.Store (D.needs companion) (D.brings companion)
            self.old self.new
            (λ a. archive.release a name.now number ≡ Ok (archive.without_hold a name.now number))
            (λ a. archive.without_hold a name.now number) }
    {
        if !self.conn.is_autocommit() {
            return Err(BUSY);
        }
        let change = Release { name, number };
        match transact(&mut self.conn, Accompanied { change, companion }) {
            Ok(()) => {
                self.held.take(number, 1);
                Ok(())
            }
            Err(error) => Err(fault_of(error)),
        }
    }

    /// Ends the hold of that name on a record.
    ///
    /// Refused with 80 where there is no such record, 85 where there is no such hold, 89 (`sqlite`) or 99 (no
    /// memory). A refusal changes nothing.
    pub fn release(&mut self, name: &[u8], number: u32) -> Result<(), StoreFault>
        ensures obeys { ObeysRows S.Store self.old self.new result
            (λ a. archive.release a name.now number) Quietly }
        ensures behaves { Behaves S.Store self.old self.new result }
        ensures crash { Leaves S.Store self.old self.new (λ a. archive.release a name.now number) }
    {
        self.release_with(name, number, Alone)
    }

    /// The same beside a companion, in one transaction.
    pub fn release_with<D: Companion + Drop>(
        &mut self,
        name: &[u8],
        number: u32,
        companion: D,
    ) -> Result<(), StoreFault>
        ensures obeys { ObeysRowsReady S.Store (D.needs companion) self.old self.new result
            (λ a. archive.release a name.now number) Quietly }
        ensures brought { Brought S.Store (D.needs companion) (D.brings companion)
            self.old self.new result }
        ensures still { FailsStill S.Store self.old self.new result }
        ensures behaves { Behaves S.Store self.old self.new result }
        ensures crash { LeavesBoth S.Store (D.needs companion) (D.brings companion)
            self.old self.new (λ a. archive.release a name.now number) }
    {
        self.judge_release(name, number)?;
        self.end_hold(name, number, companion)?;
        Ok(())
    }
}
