//! A walk over the records.

ghost use Rattle.std.specs.Prelude.{◌≡◌, ◌-◌, ◌^◌, min, false, true, map, take, filter, IfOk, IfErr};
ghost use Rattle.std.specs.List.{AllByRecursion, list_any};
ghost use Rattle.record_archive.specs.Archive.{Archive};
ghost use Rattle.record_archive.specs.Faults.{is_trouble};
ghost use Rattle.record_reads.specs.Pages.{is_between};
ghost use Rattle.record_tables.specs.CodeRows.{record_of, hold_entry_of};
ghost use Rattle.record_adoption.specs.Adoption.{sorted_holds};
ghost use Rattle.record_choice.specs.Entries.{entry_view, name_list, listed, records_from, entries_from};
ghost use Rattle.record_store.specs.Entries.{names_at_front, listed_beside, AreHoldsOf, IsPage, IsListableRecord, is_counted};
ghost use Rattle.record_store.specs.Faults.{is_own};
ghost use Rattle.record_store.specs.Stores.{StaysStill, StandsFor, Tells, LeavesAll, Falls, IsOpenOnOk, IsNeverOwn};

use crate::fault::{LOST, StoreFault, lost_or};
use crate::store::Store;
use class_plan::{Plan, date_of};
use record_adoption::{Counts, LAST_CAPTURE_DAY};
use record_choice::RecordEntry;
use record_reads::pages::{holds_between, records_from};
use record_tables::rows::{HoldRow, RecordRow};
use sqlite::Alter;
use std::alloc::{AllocError, Global};

/// A limit as a parameter: no archive has more records than this.
fn limit_of(most: usize) -> u32
    ensures { result ≡ min most (2 ^ 32 - 1) }
{
    u32::try_from(most).unwrap_or(u32::MAX)
}

/// Whether a hold is counted for one of the records.
fn is_any_held(held: &Counts, rows: &[RecordRow]) -> bool
    ensures { result ≡ list_any (is_counted held.now) rows.now }
{
    rows.iter().any(|row| held.count(row.number) > 0)
}

/// The names of those holds at the front that are on the record of a number.
fn names_at_front(alloc: Global, holds: &[HoldRow], number: u32) -> Result<Vec<Vec<u8>>, AllocError>
    ensures { IfOk result
        (λ v. name_list v.items ≡ names_at_front number (map hold_entry_of holds.now)) }
{
    let mut names = Vec::new(alloc);
    for hold in holds {
        if hold.record != number {
            return Ok(names);
        }
        let name = Vec::from_slice(alloc, hold.name.as_slice())?;
        names.push(name)?;
    }
    Ok(names)
}

/// The entry of a record by a plan, with the names of its holds.
fn entry_of(plan: &Plan, row: RecordRow, holds: Vec<Vec<u8>>) -> Result<RecordEntry, StoreFault>
    ensures entry { IfOk result
        (λ e. entry_view e ≡ listed plan.now (record_of row) (name_list holds.items)) }
    ensures trouble { IfErr result (λ f. is_trouble f ≡ true) }
    ensures lost { IfErr result (λ f. IsListableRecord (record_of row) → is_own f ≡ false) }
{
    if row.day > LAST_CAPTURE_DAY {
        return Err(LOST);
    }
    let Some(day) = date_of(i64::from(row.day)) else {
        return Err(LOST);
    };
    let due = if row.destroyed {
        None
    } else {
        plan.due_of(row.path.as_slice(), day)
    };
    Ok(RecordEntry {
        number: row.number,
        path: row.path,
        day,
        due,
        message: row.message,
        destroyed: row.destroyed,
        holds,
    })
}

/// The entries of records by a plan, each with those holds that come next and are on it.
fn entries_beside(
    alloc: Global,
    plan: &Plan,
    rows: Vec<RecordRow>,
    holds: &[HoldRow],
) -> Result<Vec<RecordEntry>, StoreFault>
    ensures entries { IfOk result (λ v. map entry_view v.items ≡
        listed_beside plan.now (map hold_entry_of holds.now) (map record_of rows.items)) }
    ensures trouble { IfErr result (λ f. is_trouble f ≡ true) }
    ensures lost { IfErr result
        (λ f. AllByRecursion IsListableRecord (map record_of rows.items) → is_own f ≡ false) }
{
    let mut entries = Vec::new(alloc);
    let mut at = 0;
    for row in rows {
        let names = names_at_front(alloc, &holds[at..], row.number)?;
        at += names.len();
        let entry = entry_of(plan, row, names)?;
        entries.push(entry)?;
    }
    Ok(entries)
}

impl<S: Alter> Store<S> {
    /// The records from a number on, in the order of their numbers, at most `most` of them.
    fn rows_from(&mut self, from: u32, most: u32) -> Result<Vec<RecordRow>, StoreFault>
        ensures tells { Tells S.Store self.old self.new result
            (λ a rows. map record_of rows.items ≡ take most (records_from a from)) (λ a f. ⊥) }
        ensures still { StaysStill S.Store self.old self.new }
        ensures falls { Falls S.Store self.old self.new }
        ensures open { (a : Archive) → StandsFor S.Store self.old a →
            IsOpenOnOk S.Store self.new result }
        ensures cause { IsNeverOwn S.Store self.old self.new result }
        ensures crash { LeavesAll S.Store self.old self.new }
    {
        match records_from(self.alloc, &mut self.conn, from, most) {
            Ok(rows) => Ok(rows),
            Err(fault) => Err(lost_or(fault)),
        }
    }

    /// The holds on the records from one number to another, by record and then in byte order of their names.
    fn holds_between(&mut self, first: u32, last: u32) -> Result<Vec<HoldRow>, StoreFault>
        ensures tells { Tells S.Store self.old self.new result
            (λ a holds. map hold_entry_of holds.items ≡
            filter (is_between first last) (sorted_holds a)) (λ a f. ⊥) }
        ensures still { StaysStill S.Store self.old self.new }
        ensures falls { Falls S.Store self.old self.new }
        ensures cause { IsNeverOwn S.Store self.old self.new result }
        ensures crash { LeavesAll S.Store self.old self.new }
    {
        match holds_between(self.alloc, &mut self.conn, first, last) {
            Ok(holds) => Ok(holds),
            Err(fault) => Err(lost_or(fault)),
        }
    }

    /// The holds on the records of a page from a number on, by record and then in byte order of their names. Where
    /// none is held, no hold is looked at.
    fn holds_on(&mut self, from: u32, rows: &[RecordRow]) -> Result<Vec<HoldRow>, StoreFault>
        ensures tells { Tells S.Store self.old self.new result
            (λ a holds. IsPage a from (map record_of rows.now) →
            AreHoldsOf a (map record_of rows.now) (map hold_entry_of holds.items)) (λ a f. ⊥) }
        ensures still { StaysStill S.Store self.old self.new }
        ensures falls { Falls S.Store self.old self.new }
        ensures cause { IsNeverOwn S.Store self.old self.new result }
        ensures crash { LeavesAll S.Store self.old self.new }
    {
        let Some(last) = rows.last() else {
            return Ok(Vec::new(self.alloc));
        };
        if !is_any_held(&self.held, rows) {
            return Ok(Vec::new(self.alloc));
        }
        let holds = self.holds_between(from, last.number)?;
        Ok(holds)
    }

    /// The records from a number on, live and destroyed, in the order of their numbers, at most `most` of them.
    ///
    /// A page takes the time of its own records. One with a held record also takes that of all holds, so a walk over
    /// all records is best made in pages of some thousands. The only refusals are 89 (`sqlite`) and 99 (no memory).
    pub fn entries(&mut self, from: u32, most: usize) -> Result<Vec<RecordEntry>, StoreFault>
        ensures tells { Tells S.Store self.old self.new result
            (λ a entries. map entry_view entries.items ≡ take most (entries_from a from))
            (λ a f. ⊥) }
        ensures still { StaysStill S.Store self.old self.new }
        ensures falls { Falls S.Store self.old self.new }
        ensures cause { IsNeverOwn S.Store self.old self.new result }
        ensures crash { LeavesAll S.Store self.old self.new }
    {
        let rows = self.rows_from(from, limit_of(most))?;
        let holds = self.holds_on(from, rows.as_slice())?;
        let entries = entries_beside(self.alloc, &self.plan, rows, holds.as_slice())?;
        Ok(entries)
    }
}
