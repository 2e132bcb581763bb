//! Refiling: a live record gets another class of the plan.

ghost use Rattle.std.specs.Prelude.{◌≡◌, ◌<◌, true, false, Err, IfErr, IfOk, OnOk, OnErr};
ghost use Rattle.class_plan.specs.Calendar.{due_on};
ghost use Rattle.class_plan.specs.Plans.{has};
ghost use Rattle.record_tables.specs.Changes.{Always};
ghost use Rattle.record_tables.specs.Steps.{Writes};
ghost use Rattle.record_archive.specs.Archive.{Archive};
ghost use Rattle.record_archive.specs.Refiling.{refile, refiled};
ghost use Rattle.record_store.specs.Companions.{ObeysRowsReady, Brought, FailsStill, LeavesBoth, ChangesReady, BringsWhere, LeavesBothWhere};
ghost use Rattle.record_store.specs.Refiling.{IsRefiling, IsRefilingAlone, LacksClass, with_due_if};
ghost use Rattle.record_archive.specs.Faults.{WhereRefused, is_trouble};
ghost use Rattle.record_archive.specs.Calls.{Quietly};
ghost use Rattle.record_store.specs.Stores.{StandsFor, StaysStill, ObeysRows, Tells, Leaves, LeavesAll, Behaves};

use crate::fault::{BUSY, LOST, StoreFault, fault_of};
use crate::store::Store;
use class_plan::Plan;
use record_adoption::{LAST_CAPTURE_DAY, due_day_of};
use record_archive::ArchiveRefusal;
use record_tables::companions::{Accompanied, Alone, Companion};
use record_tables::transact::{Change, transact};
use record_tables::writes::{delete_due, insert_due, set_path};
use sqlite::{Alter, Error, Transaction};

/// Adds the due day of a record, if there is one.
fn insert_if_due<S: Alter>(
    tx: &mut Transaction<'_, S>,
    number: u32,
    due: Option<u32>,
) -> Result<(), Error>
    ensures { Writes S.Store tx.old.conn tx.new.conn result Always (with_due_if number due) }
{
    match due {
        Some(day) => insert_due(tx, number, day),
        None => Ok(()),
    }
}

/// A record gets another class and, in place of its due day, that by the class, if there is one.
#[derive(Drop)]
struct Refiling<'a> {
    number: u32,
    path: &'a [u8],
    due: Option<u32>,
}

impl Change for Refiling<'_> {
    ghost may_be_made = { λ c db. Unit {0} };

    ghost makes = { λ c. IsRefilingAlone c.number c.path.now c.due };

    fn make<S: Alter>(self, tx: &mut Transaction<'_, S>) -> Result<(), Error> {
        delete_due(tx, self.number)?;
        insert_if_due(tx, self.number, self.due)?;
        set_path(tx, self.number, self.path)?;
        Ok(())
    }
}

/// The due day of a record that was captured on a day, both in days since 1970-01-01, in another class. Refused with 59
/// where the path is no class of the plan.
fn due_in_class(plan: &Plan, path: &[u8], day: u32) -> Result<Option<u32>, StoreFault>
    ensures class { OnOk result (has plan.now.rows path.now ≡ true) }
    ensures due { IfOk result (λ due. due ≡ due_on plan.now path.now day) }
    ensures err { IfErr result (WhereRefused (LacksClass plan.now path.now)) }
    ensures lost { IfErr result (λ f. is_trouble f ≡ true → 84005 < day) }
{
    if day > LAST_CAPTURE_DAY {
        return Err(LOST);
    }
    if !plan.contains(path) {
        return Err(StoreFault::Refused(ArchiveRefusal::NoClass));
    }
    Ok(due_day_of(plan, path, day))
}

impl<S: Alter> Store<S> {
    /// The due day of a record in another class, if it may be put there; refused with the first of 80, 84 and 59, in
    /// this order.
    fn judge_refiling(&mut self, number: u32, path: &[u8]) -> Result<Option<u32>, StoreFault>
        ensures tells { Tells S.Store self.old self.new result
            (λ a due. IsRefiling a number path.now due)
            (λ a f. refile a number path.now ≡ Err f) }
        ensures still { StaysStill S.Store self.old self.new }
        ensures behaves { Behaves S.Store self.old self.new result }
        ensures crash { LeavesAll S.Store self.old self.new }
    {
        let record = self.record_at(number)?;
        if record.destroyed {
            return Err(StoreFault::Refused(ArchiveRefusal::Destroyed));
        }
        match due_in_class(&self.plan, path, record.day) {
            Ok(due) => Ok(due),
            Err(fault) => Err(fault),
        }
    }

    /// Puts a live record into a class of the plan, by which it is due on this day, if at all.
    fn place_in_class<D: Companion + Drop>(
        &mut self,
        number: u32,
        path: &[u8],
        due: Option<u32>,
        companion: D,
    ) -> Result<(), StoreFault>
        ensures ok { OnOk result (ChangesReady S.Store (D.needs companion) self.old self.new
            (λ a. IsRefiling a number path.now due) (λ a. refiled a number path.now)) }
        ensures err { OnErr result
            ((a : Archive) → StandsFor S.Store self.old a → StandsFor S.Store self.new a) }
        ensures trouble { IfErr result (λ f. is_trouble f ≡ true) }
        ensures brought { OnOk result
            (BringsWhere S.Store (D.needs companion) (D.brings companion) self.old self.new
            (λ a. IsRefiling a number path.now due)) }
        ensures still { FailsStill S.Store self.old self.new result }
        ensures behaves { Behaves S.Store self.old self.new result }
        ensures crash { LeavesBothWhere S.Store (D.needs companion) (D.brings companion)
            self.old self.new (λ a. IsRefiling a number path.now due)
            (λ a. refiled a number path.now) }
    {
        if !self.conn.is_autocommit() {
            return Err(BUSY);
        }
        let change = Refiling { number, path, due };
        match transact(&mut self.conn, Accompanied { change, companion }) {
            Ok(()) => Ok(()),
            Err(error) => Err(fault_of(error)),
        }
    }

    /// Puts a live record into another class of the plan, open or closed. Its number, message, day and holds stay; it
    /// falls due by the schedule of the new class, counted from the day of its capture.
    ///
    /// Refused with 89 (`sqlite`) or 99 (no memory), or else with the first that holds, in this order:
    ///
    /// - 80: there is no such record;
    /// - 84: it is destroyed;
    /// - 59: the path is no class of the plan.
    ///
    /// A refusal changes nothing.
    pub fn refile(&mut self, number: u32, path: &[u8]) -> Result<(), StoreFault>
        ensures obeys { ObeysRows S.Store self.old self.new result
            (λ a. refile a number path.now) Quietly }
        ensures behaves { Behaves S.Store self.old self.new result }
        ensures crash { Leaves S.Store self.old self.new (λ a. refile a number path.now) }
    {
        self.refile_with(number, path, Alone)
    }

    /// The same beside a companion, in one transaction.
    pub fn refile_with<D: Companion + Drop>(
        &mut self,
        number: u32,
        path: &[u8],
        companion: D,
    ) -> Result<(), StoreFault>
        ensures obeys { ObeysRowsReady S.Store (D.needs companion) self.old self.new result
            (λ a. refile a number path.now) Quietly }
        ensures brought { Brought S.Store (D.needs companion) (D.brings companion)
            self.old self.new result }
        ensures still { FailsStill S.Store self.old self.new result }
        ensures behaves { Behaves S.Store self.old self.new result }
        ensures crash { LeavesBoth S.Store (D.needs companion) (D.brings companion)
            self.old self.new (λ a. refile a number path.now) }
    {
        let due = self.judge_refiling(number, path)?;
        self.place_in_class(number, path, due, companion)?;
        Ok(())
    }
}
