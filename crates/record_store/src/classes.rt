//! Classes that are added to the plan.

ghost use Rattle.std.specs.Prelude.{◌≡◌, false, Ok, Err, IfErr, OnOk, OnErr};
ghost use Rattle.std.specs.List.{All};
ghost use Rattle.class_plan.specs.Changes.{addition};
ghost use Rattle.class_plan.specs.Plans.{IsPlan};
ghost use Rattle.record_archive.specs.Archive as archive;
ghost use Rattle.record_archive.specs.Archive.{Archive};
ghost use Rattle.record_store.specs.Companions.{ObeysReady, Brought, FailsStill, LeavesBoth};
ghost use Rattle.record_store.specs.Revisions.{IsClassAddedAlone, HasSameDue};
ghost use Rattle.record_archive.specs.Faults.{WhereRefused, is_trouble};
ghost use Rattle.record_archive.specs.Calls.{Quietly};
ghost use Rattle.record_store.specs.Faults.{is_own};
ghost use Rattle.record_store.specs.Stores.{StandsFor, Obeys, Leaves, Behaves};

use crate::fault::{BUSY, StoreFault, fault_of};
use crate::store::Store;
use class_plan::{Plan, PlanFault};
use record_archive::ArchiveRefusal;
use record_tables::companions::{Accompanied, Alone, Companion};
use record_tables::transact::{Change, transact};
use record_tables::writes::insert_class;
use sqlite::{Alter, Error, Transaction};

/// An open class is added, without a schedule of its own.
#[derive(Drop)]
struct Addition<'a> {
    path: &'a [u8],
}

impl Change for Addition<'_> {
    ghost may_be_made = { λ c db. Unit {0} };

    ghost makes = { λ c. IsClassAddedAlone c.path.now };

    fn make<S: Alter>(self, tx: &mut Transaction<'_, S>) -> Result<(), Error> {
        insert_class(tx, self.path, true, None)?;
        Ok(())
    }
}

/// Adds an open class to a plan; refused with 52, 53, 54 or 56.
fn plan_class(plan: &mut Plan, path: &[u8]) -> Result<(), StoreFault>
    ensures ok { OnOk result (addition plan.old path.now ≡ Ok plan.new) }
    ensures err { IfErr result (WhereRefused (λ r. (a : Archive) →
        archive.plan_answer a (addition plan.old path.now) ≡ Err r)) }
    ensures cause { IfErr result (λ f. is_own f ≡ false) }
    ensures unchanged { OnErr result (plan.new ≡ plan.old) }
    ensures plans { IsPlan plan.old × IsPlan plan.new }
{
    match plan.add(path) {
        Ok(()) => Ok(()),
        Err(PlanFault::NoMemory) => Err(StoreFault::NoMemory),
        Err(fault) => Err(StoreFault::Refused(ArchiveRefusal::Plan(fault))),
    }
}

impl<S: Alter> Store<S> {
    /// Adds an open class without a schedule of its own; no due date changes.
    ///
    /// Refused with 89 (`sqlite`) or 99 (no memory), or else with the smallest that holds:
    ///
    /// - 52: the path is not well made;
    /// - 53: its parent is no class;
    /// - 54: the path is a class already;
    /// - 56: there are 4,096 classes already.
    ///
    /// A refusal changes nothing.
    pub fn add_class(&mut self, path: &[u8]) -> Result<(), StoreFault>
        ensures obeys { Obeys S.Store self.old self.new result
            (λ a. archive.add_class a path.now) Quietly }
        ensures dues { OnOk result
            ((a : Archive) → StandsFor S.Store self.old a →
            All (HasSameDue self.old.plan self.new.plan) a.records) }
        ensures behaves { Behaves S.Store self.old self.new result }
        ensures crash { Leaves S.Store self.old self.new (λ a. archive.add_class a path.now) }
    {
        self.add_class_with(path, Alone)
    }

    /// The same beside a companion, in one transaction.
    pub fn add_class_with<D: Companion + Drop>(
        &mut self,
        path: &[u8],
        companion: D,
    ) -> Result<(), StoreFault>
        ensures obeys { ObeysReady S.Store (D.needs companion) self.old self.new result
            (λ a. archive.add_class a path.now) Quietly }
        ensures dues { OnOk result
            ((a : Archive) → StandsFor S.Store self.old a →
            All (HasSameDue self.old.plan self.new.plan) a.records) }
        ensures brought { Brought S.Store (D.needs companion) (D.brings companion)
            self.old self.new result }
        ensures still { FailsStill S.Store self.old self.new result }
        ensures behaves { Behaves S.Store self.old self.new result }
        ensures crash { LeavesBoth S.Store (D.needs companion) (D.brings companion)
            self.old self.new (λ a. archive.add_class a path.now) }
    {
        if !self.conn.is_autocommit() {
            return Err(BUSY);
        }
        plan_class(&mut self.plan, path)?;
        let change = Addition { path };
        match transact(&mut self.conn, Accompanied { change, companion }) {
            Ok(()) => Ok(()),
            Err(error) => {
                self.plan.remove(path);
                Err(fault_of(error))
            }
        }
    }
}
