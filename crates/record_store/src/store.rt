//! The store and its calls.

ghost use Rattle.std.specs.Prelude.{◌≡◌, false, true, Some, IfOk, IfErr};
ghost use Rattle.sqlite.specs.State.{HasCleanDisk};
ghost use Rattle.sqlite.specs.Held.{state};
ghost use Rattle.record_tables.specs.Tables.{IsFree};
ghost use Rattle.record_tables.specs.CodeRows.{record_of};
ghost use Rattle.record_archive.specs.Archive as archive;
ghost use Rattle.record_archive.specs.Archive.{Archive, empty_archive};
ghost use Rattle.record_adoption.specs.Adoption.{FindsNothing, LeavesArchive};
ghost use Rattle.record_archive.specs.Faults.{is_trouble};
ghost use Rattle.record_store.specs.Faults.{is_own};
ghost use Rattle.record_store.specs.Stores.{StandsFor, StaysStill, Tells, LeavesAll, LeavesNow, Falls, IsOpenOnOk, LacksRecord, Behaves};
ghost use Rattle.record_tables.specs.Steps.{CommitsNothing, IsUntouched};

use crate::fault::{StoreFault, fault_of, lost_or};
use class_plan::Plan;
use record_adoption::Counts;
use record_archive::ArchiveRefusal;
use record_reads::lookup::{has_hold, record_by_number};
use record_rows::{classes_of, rules_of};
use record_tables::lay::lay;
use record_tables::rows::RecordRow;
use sqlite::{Alter, Connection};
use std::alloc::Global;

/// An archive in a database, with the plan and counts that are kept beside the connection.
pub struct Store<S: Alter> {
    pub(crate) alloc: Global,
    pub(crate) conn: Connection<S>,
    pub(crate) plan: Plan,
    pub(crate) next: u64,
    pub(crate) held: Counts,
    pub(crate) others: Counts,
}

impl<S: Alter + Drop> Drop for Store<S> {
    fn drop(self) {
        let Store {
            alloc: _,
            conn: _,
            plan: _,
            next: _,
            held: _,
            others: _,
        } = self;
    }
}

impl<S: Alter> Store<S> {
    /// Creates the tables in a database that has none of their names: an archive with the plan of `Plan::new` and no
    /// record. Tables of other names are left as they are.
    ///
    /// A refusal, 89 (`sqlite`) or 99 (no memory), returns the connection and leaves the database as it was.
    pub fn create(
        alloc: Global,
        mut conn: Connection<S>,
    ) -> Result<Store<S>, (StoreFault, Connection<S>)>
        requires { conn.in_transaction ≡ false }
        ensures ok { IfOk result (λ s. HasCleanDisk (state S.Store s.conn) →
            IsFree (state S.Store conn).now.schema → StandsFor S.Store s empty_archive) }
        ensures trouble { IfErr result (λ e. is_trouble e.0 ≡ true) }
        ensures cause { IfErr result (λ e. is_own e.0 ≡ false) }
        ensures unchanged { IfErr result (λ e. IsUntouched S.Store conn e.1) }
        ensures crash { IfOk result
            (λ s. LeavesArchive S.Store conn s.conn (FindsNothing (state S.Store conn).now)) }
        ensures crash_refused { IfErr result
            (λ e. LeavesArchive S.Store conn e.1 (FindsNothing (state S.Store conn).now)) }
    {
        let Ok(plan) = Plan::new(alloc) else {
            return Err((StoreFault::NoMemory, conn));
        };
        let Ok(rules) = rules_of(alloc, &plan) else {
            return Err((StoreFault::NoMemory, conn));
        };
        let Ok(classes) = classes_of(alloc, &plan) else {
            return Err((StoreFault::NoMemory, conn));
        };
        let held = Counts::new(alloc);
        let others = Counts::new(alloc);
        match lay(&mut conn, rules.as_slice(), classes.as_slice()) {
            Ok(()) => Ok(Store {
                alloc,
                conn,
                plan,
                next: 1,
                held,
                others,
            }),
            Err(error) => Err((fault_of(error), conn)),
        }
    }

    /// Finds that the connection is open. It is open until a fault of the disk shuts it; from then on each call is
    /// refused with 89 (`sqlite`). Lack of memory (99) refuses this too. Nothing is read or written.
    pub fn ensure_open(&mut self) -> Result<(), StoreFault>
        ensures stands { (a : Archive) → StandsFor S.Store self.old a →
            StandsFor S.Store self.new a }
        ensures plan { self.new.plan ≡ self.old.plan }
        ensures still { StaysStill S.Store self.old self.new }
        ensures falls { Falls S.Store self.old self.new }
        ensures open { IsOpenOnOk S.Store self.new result }
        ensures trouble { IfErr result (λ f. is_trouble f ≡ true) }
        ensures cause { IfErr result (λ f. is_own f ≡ false) }
        ensures crash { CommitsNothing S.Store self.old.conn self.new.conn }
    {
        let _settled = self.conn.is_autocommit();
        match self.conn.prepare("SELECT 1") {
            Ok(_) => Ok(()),
            Err(error) => Err(fault_of(error)),
        }
    }

    /// Whether no transaction is open, as between any two calls. While the connection is open, all that a crash may then
    /// leave keeps the archive that the store represents.
    pub fn is_idle(&self) -> bool
        ensures value { (a : Archive) → StandsFor S.Store self.now a → result ≡ true }
        ensures left { LeavesNow S.Store self.now }
    {
        let _live = self.conn.schema();
        self.conn.is_autocommit()
    }

    /// The record with a number. Refused with 80 (no such record), 89 (`sqlite`) or 99 (no memory).
    pub fn record_at(&mut self, number: u32) -> Result<RecordRow, StoreFault>
        ensures tells { Tells S.Store self.old self.new result
            (λ a r. archive.record_at a number ≡ Some (record_of r)) (LacksRecord number) }
        ensures still { StaysStill S.Store self.old self.new }
        ensures behaves { Behaves S.Store self.old self.new result }
        ensures crash { LeavesAll S.Store self.old self.new }
    {
        match record_by_number(self.alloc, &mut self.conn, number) {
            Ok(Some(record)) => Ok(record),
            Ok(None) => Err(StoreFault::Refused(ArchiveRefusal::NoRecord)),
            Err(fault) => Err(lost_or(fault)),
        }
    }

    /// Whether a hold of that name keeps the record.
    pub(crate) fn has_hold(&mut self, name: &[u8], number: u32) -> Result<bool, StoreFault>
        ensures tells { Tells S.Store self.old self.new result (λ a b. b ≡
            archive.is_held_by a name.now number) (λ a f. ⊥) }
        ensures still { StaysStill S.Store self.old self.new }
        ensures behaves { Behaves S.Store self.old self.new result }
        ensures crash { LeavesAll S.Store self.old self.new }
    {
        match has_hold(&mut self.conn, name, number) {
            Ok(is_there) => Ok(is_there),
            Err(error) => Err(fault_of(error)),
        }
    }

    /// The archive's present plan.
    pub fn plan(&self) -> &Plan
        ensures value { result.now ≡ self.now.plan }
        ensures stands { (a : Archive) → StandsFor S.Store self.now a → result.now ≡ a.plan }
    {
        &self.plan
    }

    /// The number that the next record gets: at most 4,294,967,296, which none has.
    pub fn next_number(&self) -> u64
        ensures value { result ≡ self.now.next }
        ensures stands { (a : Archive) → StandsFor S.Store self.now a
            → result ≡ archive.next_number a }
    {
        self.next
    }

    /// Ends the store and returns its connection.
    pub fn into_connection(self) -> Connection<S>
        ensures { result ≡ self.conn }
    {
        let Store {
            alloc: _,
            conn,
            plan: _,
            next: _,
            held: _,
            others: _,
        } = self;
        conn
    }
}
