//! Destruction: the number, the path and the day of a destroyed record stay.

ghost use Rattle.std.specs.Prelude.{◌≡◌, ◌<◌, pos, true, false, Err, Some, None, IfErr, OnOk, OnErr, MatchOption};
ghost use Rattle.jiff.specs.Words.{epoch_day};
ghost use Rattle.record_tables.specs.Changes.{Always};
ghost use Rattle.record_tables.specs.Steps.{Writes};
ghost use Rattle.record_tables.specs.CodeRows.{record_of};
ghost use Rattle.record_archive.specs.Archive as archive;
ghost use Rattle.record_archive.specs.Archive.{Archive};
ghost use Rattle.record_adoption.specs.Counts.{count_at};
ghost use Rattle.record_store.specs.Companions.{ObeysRowsReady, Brought, FailsStill, LeavesBoth, ChangesReady, BringsWhere, LeavesBothWhere};
ghost use Rattle.record_store.specs.Destruction.{IsUnheld, IsDestructionAlone, against_destruction, without_body, IsDestroyable};
ghost use Rattle.record_archive.specs.Faults.{WhereRefused, is_trouble};
ghost use Rattle.record_archive.specs.Calls.{Quietly};
ghost use Rattle.record_store.specs.Stores.{StandsFor, StaysStill, ObeysRows, Tells, Leaves, LeavesAll, Behaves};

use crate::dues::number_from_1970;
use crate::fault::{BUSY, LOST, StoreFault, fault_of};
use crate::store::Store;
use class_plan::{Date, Plan};
use record_adoption::{LAST_CAPTURE_DAY, due_day_of};
use record_archive::ArchiveRefusal;
use record_choice::destroys;
use record_tables::companions::{Accompanied, Alone, Companion};
use record_tables::rows::RecordRow;
use record_tables::transact::{Change, transact};
use record_tables::writes::{delete_due, delete_message, set_destroyed};
use sqlite::{Alter, Error, Transaction};

/// Removes the message, if one is given.
fn delete_body<S: Alter>(tx: &mut Transaction<'_, S>, last: Option<u32>) -> Result<(), Error>
    ensures { Writes S.Store tx.old.conn tx.new.conn result Always (without_body last) }
{
    match last {
        Some(message) => delete_message(tx, message),
        None => Ok(()),
    }
}

/// A record is marked as destroyed, and its due day is removed, with the message, if one is given.
#[derive(Drop)]
struct Destruction {
    number: u32,
    last: Option<u32>,
}

impl Change for Destruction {
    ghost may_be_made = { λ c db. Unit {0} };

    ghost makes = { λ c. IsDestructionAlone c.number c.last };

    fn make<S: Alter>(self, tx: &mut Transaction<'_, S>) -> Result<(), Error> {
        delete_due(tx, self.number)?;
        set_destroyed(tx, self.number)?;
        delete_body(tx, self.last)?;
        Ok(())
    }
}

/// Whether there is a day and a due day, which is not after it.
fn is_by(day: Option<u32>, due: Option<u32>) -> bool
    ensures { result ≡ archive.is_by_any day due }
{
    match (day, due) {
        (Some(day), Some(due)) => due <= day,
        _ => false,
    }
}

/// Whether the plan destroys a record by a day; refused with the first of 83 and 82, in this order.
fn judge_plan(plan: &Plan, row: &RecordRow, day: Option<u32>) -> Result<(), StoreFault>
    ensures ok { OnOk result (against_destruction plan.now day (record_of row.now) ≡ None) }
    ensures err { IfErr result (WhereRefused (λ r.
        against_destruction plan.now day (record_of row.now) ≡ Some r)) }
    ensures lost { IfErr result (λ f. is_trouble f ≡ true → 84005 < row.now.day) }
{
    let path = row.path.as_slice();
    if row.day > LAST_CAPTURE_DAY {
        return Err(LOST);
    }
    if !destroys(plan.schedule_of(path)) {
        return Err(StoreFault::Refused(ArchiveRefusal::NotForDestruction));
    }
    if !is_by(day, due_day_of(plan, path, row.day)) {
        return Err(StoreFault::Refused(ArchiveRefusal::NotDue));
    }
    Ok(())
}

impl<S: Alter> Store<S> {
    /// The record, if it may be destroyed by a day; refused with the first of 80, 84, 81, 83 and 82, in this order.
    fn judge_destruction(&mut self, number: u32, day: Option<u32>) -> Result<RecordRow, StoreFault>
        ensures tells { Tells S.Store self.old self.new result
            (λ a r. IsDestroyable number day a (record_of r))
            (λ a f. archive.destroy_by a number day (archive.record_at a number) ≡ Err f) }
        ensures still { StaysStill S.Store self.old self.new }
        ensures behaves { Behaves S.Store self.old self.new result }
        ensures crash { LeavesAll S.Store self.old self.new }
    {
        let record = self.record_at(number)?;
        if record.destroyed {
            return Err(StoreFault::Refused(ArchiveRefusal::Destroyed));
        }
        if self.held.count(number) > 0 {
            return Err(StoreFault::Refused(ArchiveRefusal::Held));
        }
        match judge_plan(&self.plan, &record, day) {
            Ok(()) => Ok(record),
            Err(fault) => Err(fault),
        }
    }

    /// The message, if only one live record has it.
    fn last_body(&self, message: u32) -> Option<u32>
        ensures { MatchOption result (0 < count_at self.now.others message) (λ m. (m ≡ message) ×
            (count_at self.now.others message ≡ 0)) }
    {
        if self.others.count(message) == 0 {
            Some(message)
        } else {
            None
        }
    }

    /// Destroys a live record that no hold keeps.
    fn remove_record<D: Companion + Drop>(
        &mut self,
        number: u32,
        row: &RecordRow,
        companion: D,
    ) -> Result<(), StoreFault>
        ensures ok { OnOk result (ChangesReady S.Store (D.needs companion) self.old self.new
            (λ a. IsUnheld a number (record_of row.now))
            (λ a. archive.without a (record_of row.now))) }
        ensures err { OnErr result
            ((a : Archive) → StandsFor S.Store self.old a → StandsFor S.Store self.new a) }
        ensures trouble { IfErr result (λ f. is_trouble f ≡ true) }
        ensures brought { OnOk result
            (BringsWhere S.Store (D.needs companion) (D.brings companion) self.old self.new
            (λ a. IsUnheld a number (record_of row.now))) }
        ensures still { FailsStill S.Store self.old self.new result }
        ensures behaves { Behaves S.Store self.old self.new result }
        ensures crash { LeavesBothWhere S.Store (D.needs companion) (D.brings companion)
            self.old self.new (λ a. IsUnheld a number (record_of row.now))
            (λ a. archive.without a (record_of row.now)) }
    {
        if !self.conn.is_autocommit() {
            return Err(BUSY);
        }
        let last = self.last_body(row.message);
        let change = Destruction { number, last };
        match transact(&mut self.conn, Accompanied { change, companion }) {
            Ok(()) => {
                self.others.take(row.message, 1);
                Ok(())
            }
            Err(error) => Err(fault_of(error)),
        }
    }

    /// Destroys a record that is due by a day. Its number, path and day stay; its message is removed with the last
    /// live record of it.
    ///
    /// Refused with 89 (`sqlite`) or 99 (no memory), or else with the first that holds, in this order:
    ///
    /// - 80: there is no such record;
    /// - 84: it is destroyed;
    /// - 81: a hold keeps it;
    /// - 83: its schedule's action is not to destroy;
    /// - 82: it is due after the day.
    ///
    /// By a day before 1970 no record is due. A refusal changes nothing.
    pub fn destroy(&mut self, number: u32, day: Date) -> Result<(), StoreFault>
        ensures obeys { ObeysRows S.Store self.old self.new result
            (λ a. archive.destroy_on a number (epoch_day day)) Quietly }
        ensures behaves { Behaves S.Store self.old self.new result }
        ensures crash { Leaves S.Store self.old self.new
            (λ a. archive.destroy_on a number (epoch_day day)) }
    {
        self.destroy_with(number, day, Alone)
    }

    /// The same beside a companion, in one transaction.
    pub fn destroy_with<D: Companion + Drop>(
        &mut self,
        number: u32,
        day: Date,
        companion: D,
    ) -> Result<(), StoreFault>
        ensures obeys { ObeysRowsReady S.Store (D.needs companion) self.old self.new result
            (λ a. archive.destroy_on a number (epoch_day day)) Quietly }
        ensures brought { Brought S.Store (D.needs companion) (D.brings companion)
            self.old self.new result }
        ensures still { FailsStill S.Store self.old self.new result }
        ensures behaves { Behaves S.Store self.old self.new result }
        ensures crash { LeavesBoth S.Store (D.needs companion) (D.brings companion)
            self.old self.new (λ a. archive.destroy_on a number (epoch_day day)) }
    {
        let record = self.judge_destruction(number, number_from_1970(day))?;
        self.remove_record(number, &record, companion)?;
        Ok(())
    }
}
