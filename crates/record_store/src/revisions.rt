//! Changes of the plan: the due days follow it at once.

ghost use Rattle.std.specs.Prelude.{◌≡◌, true, false, map, IfOk, IfErr, OnOk, OnErr, MatchResult};
ghost use Rattle.class_plan.specs.Plans.{keeps};
ghost use Rattle.record_tables.specs.Changes.{AreAscending};
ghost use Rattle.record_tables.specs.CodeRows.{record_of, due_of};
ghost use Rattle.record_archive.specs.Archive as archive;
ghost use Rattle.record_archive.specs.Archive.{Archive};
ghost use Rattle.record_adoption.specs.Keeping.{dues_in};
ghost use Rattle.record_store.specs.Companions.{ObeysRowsReady, Brought, FailsStill, LeavesBoth, ChangesReady, BringsWhere, LeavesBothWhere};
ghost use Rattle.record_store.specs.Revisions.{IsRevision, with_plan, RefusesDrop};
ghost use Rattle.record_archive.specs.Faults.{WhereRefused, is_trouble};
ghost use Rattle.record_archive.specs.Calls.{Quietly};
ghost use Rattle.record_adoption.specs.Faults.{AreInOrder};
ghost use Rattle.record_store.specs.Faults.{is_own};
ghost use Rattle.record_store.specs.Stores.{StandsFor, StaysStill, ObeysRows, Tells, Leaves, LeavesAll, Falls, IsOpenOnOk, IsNeverOwn, Behaves};

use crate::fault::{BUSY, StoreFault, fault_of, lost_or};
use crate::store::Store;
use class_plan::{Plan, PlanFault};
use record_adoption::due_rows_by;
use record_archive::ArchiveRefusal;
use record_reads::read::records;
use record_rows::{classes_of, rules_of};
use record_tables::companions::{Alone, Companion};
use record_tables::renew::replace_plan_with;
use record_tables::rows::{DueRow, RecordRow};
use sqlite::Alter;

impl<S: Alter> Store<S> {
    /// The new plan; refused with 57 where it drops a path of the present one.
    fn judge_revision(&self, plan: Plan) -> Result<Plan, StoreFault>
        ensures judged { MatchResult result
            (λ p. (keeps self.now.plan plan ≡ true) × (p ≡ plan))
            (WhereRefused (RefusesDrop self.now.plan plan)) }
        ensures cause { IfErr result (λ f. is_own f ≡ false) }
    {
        let mut kept = self.plan.copy()?;
        match kept.revise(plan) {
            Ok(()) => Ok(kept),
            Err(_) => Err(StoreFault::Refused(ArchiveRefusal::Plan(PlanFault::PathDropped))),
        }
    }

    /// The records, in the order of their numbers.
    fn all_records(&mut self) -> Result<Vec<RecordRow>, StoreFault>
        ensures tells { Tells S.Store self.old self.new result (λ a rows. map record_of rows.items ≡
            a.records) (λ a f. ⊥) }
        ensures still { StaysStill S.Store self.old self.new }
        ensures falls { Falls S.Store self.old self.new }
        ensures open { (a : Archive) → StandsFor S.Store self.old a →
            IsOpenOnOk S.Store self.new result }
        ensures cause { IsNeverOwn S.Store self.old self.new result }
        ensures crash { LeavesAll S.Store self.old self.new }
    {
        match records(self.alloc, &mut self.conn) {
            Ok(all) => Ok(all),
            Err(fault) => Err(lost_or(fault)),
        }
    }

    /// The due days of records by a plan.
    fn due_rows(&self, plan: &Plan, rows: &[RecordRow]) -> Result<Vec<DueRow>, StoreFault>
        ensures rows { IfOk result
            (λ v. map due_of v.items ≡ dues_in plan.now (map record_of rows.now)) }
        ensures ascending { IfOk result (λ v. AreAscending (map due_of v.items)) }
        ensures trouble { IfErr result (λ f. is_trouble f ≡ true) }
        ensures lost { IfErr result
            (λ f. AreInOrder (map record_of rows.now) → is_own f ≡ false) }
    {
        match due_rows_by(self.alloc, plan, rows) {
            Ok(dues) => Ok(dues),
            Err(fault) => Err(lost_or(fault)),
        }
    }

    /// Replaces the plan, and the due days by it.
    fn place_plan<D: Companion + Drop>(
        &mut self,
        plan: Plan,
        dues: &[DueRow],
        companion: D,
    ) -> Result<(), StoreFault>
        requires { AreAscending (map due_of dues.now) }
        ensures ok { OnOk result (ChangesReady S.Store (D.needs companion) self.old self.new
            (λ a. IsRevision a plan (map due_of dues.now)) (λ a. with_plan a plan)) }
        ensures err { OnErr result
            ((a : Archive) → StandsFor S.Store self.old a → StandsFor S.Store self.new a) }
        ensures trouble { IfErr result (λ f. is_trouble f ≡ true) }
        ensures brought { OnOk result
            (BringsWhere S.Store (D.needs companion) (D.brings companion) self.old self.new
            (λ a. IsRevision a plan (map due_of dues.now))) }
        ensures still { FailsStill S.Store self.old self.new result }
        ensures behaves { Behaves S.Store self.old self.new result }
        ensures crash { LeavesBothWhere S.Store (D.needs companion) (D.brings companion)
            self.old self.new (λ a. IsRevision a plan (map due_of dues.now))
            (λ a. with_plan a plan) }
    {
        if !self.conn.is_autocommit() {
            return Err(BUSY);
        }
        let rules = rules_of(self.alloc, &plan)?;
        let classes = classes_of(self.alloc, &plan)?;
        let (rules, classes) = (rules.as_slice(), classes.as_slice());
        match replace_plan_with(&mut self.conn, rules, classes, dues, companion) {
            Ok(()) => {
                self.plan = plan;
                Ok(())
            }
            Err(error) => Err(fault_of(error)),
        }
    }

    /// Replaces the plan; from then on each due date is that by the new plan.
    ///
    /// Refused with 57 where the new plan drops a path of the present one, with 89 (`sqlite`) or with 99 (no memory).
    /// A refusal changes nothing.
    pub fn revise(&mut self, plan: Plan) -> Result<(), StoreFault>
        ensures obeys { ObeysRows S.Store self.old self.new result
            (λ a. archive.revise a plan) Quietly }
        ensures behaves { Behaves S.Store self.old self.new result }
        ensures crash { Leaves S.Store self.old self.new (λ a. archive.revise a plan) }
    {
        self.revise_with(plan, Alone)
    }

    /// The same beside a companion, in one transaction.
    pub fn revise_with<D: Companion + Drop>(
        &mut self,
        plan: Plan,
        companion: D,
    ) -> Result<(), StoreFault>
        ensures obeys { ObeysRowsReady S.Store (D.needs companion) self.old self.new result
            (λ a. archive.revise a plan) Quietly }
        ensures brought { Brought S.Store (D.needs companion) (D.brings companion)
            self.old self.new result }
        ensures still { FailsStill S.Store self.old self.new result }
        ensures behaves { Behaves S.Store self.old self.new result }
        ensures crash { LeavesBoth S.Store (D.needs companion) (D.brings companion)
            self.old self.new (λ a. archive.revise a plan) }
    {
        let kept = self.judge_revision(plan)?;
        let rows = self.all_records()?;
        let dues = self.due_rows(&kept, rows.as_slice())?;
        self.place_plan(kept, dues.as_slice(), companion)?;
        Ok(())
    }
}
