//! The copy of an archive.

ghost use Rattle.std.specs.Prelude.{◌≡◌, false, map, Err, OnOk};
ghost use Rattle.sqlite.specs.State.{HasCleanDisk};
ghost use Rattle.sqlite.specs.Held.{state};
ghost use Rattle.record_archive.specs.Archive.{Archive, IsArchive};
ghost use Rattle.record_tables.specs.Changes.{AreAscending, IsRevised};
ghost use Rattle.record_tables.specs.CodeRows.{due_of};
ghost use Rattle.record_tables.specs.Steps.{Makes, IsCommitted, WasOpen, WasOpenOnOk};
ghost use Rattle.record_reads.specs.Lookups.{Looks};
ghost use Rattle.record_rows.specs.Rules.{rules_of as rules_of_plan, classes_of as classes_of_plan};
ghost use Rattle.record_adoption.specs.Keeping.{StoresArchive};
ghost use Rattle.record_copy.specs.Copies.{Copies};

use crate::fault::CopyFault;
use crate::fill::fill;
use crate::source::read_source;
use class_plan::Plan;
use record_rows::{classes_of, rules_of};
use record_tables::alone::is_alone;
use record_tables::renew::replace_plan;
use record_tables::rows::DueRow;
use sqlite::{Alter, Connection};
use std::alloc::Global;

/// Replaces the plan of an archive without records, and writes the due days of records that are yet to be written.
fn place_plan<T: Alter>(
    alloc: Global,
    plan: &Plan,
    dues: &[DueRow],
    to: &mut Connection<T>,
) -> Result<(), CopyFault>
    requires idle { to.old.in_transaction ≡ false }
    requires ascending { AreAscending (map due_of dues.now) }
    ensures idle { to.new.in_transaction ≡ false }
    ensures ok { Makes T.Store to.old to.new result (IsRevised (rules_of_plan plan.now)
        (classes_of_plan plan.now) (map due_of dues.now)) }
    ensures never { result ≡ Err CopyFault.Lost → ⊥ }
    ensures falls { HasCleanDisk (state T.Store to.new) → HasCleanDisk (state T.Store to.old) }
    ensures was_open { WasOpen T.Store to.old to.new }
{
    let rules = rules_of(alloc, plan)?;
    let classes = classes_of(alloc, plan)?;
    replace_plan(to, rules.as_slice(), classes.as_slice(), dues)?;
    Ok(())
}

/// Copies an archive between two connections without an open transaction.
fn copy_rows<S: Alter, T: Alter>(
    alloc: Global,
    plan: &Plan,
    from: &mut Connection<S>,
    to: &mut Connection<T>,
) -> Result<(), CopyFault>
    requires from_idle { from.old.in_transaction ≡ false }
    requires idle { to.old.in_transaction ≡ false }
    ensures idle { to.new.in_transaction ≡ false }
    ensures copies { OnOk result
        (Copies S.Store T.Store plan.now from.old from.new to.old to.new) }
    ensures lost { HasCleanDisk (state S.Store from.new) → result ≡ Err CopyFault.Lost
        → (a : Archive) → IsArchive a → StoresArchive (state S.Store from.old).now a → ⊥ }
    ensures looks { Looks S.Store from.old from.new }
    ensures from_open { WasOpenOnOk S.Store from.old from.new result }
    ensures committed { IsCommitted T.Store to.old to.new result }
    ensures falls { HasCleanDisk (state T.Store to.new) → HasCleanDisk (state T.Store to.old) }
{
    let rows = read_source(alloc, plan, from)?;
    place_plan(alloc, plan, rows.dues.as_slice(), to)?;
    fill(alloc, &rows, from, to)?;
    if !is_alone(to.schema()) {
        return Err(CopyFault::OtherTables);
    }
    Ok(())
}

/// Copies an archive, whose present plan is given, to a database that has the tables of an archive without records.
///
/// After that the new database stores the same archive: its plan, its messages octet by octet, its records, its holds in
/// the order in which they were placed, and its due days. It has these rows and no others, and no other table. The old
/// database stays as it was, also in a crash. Messages are copied one at a time; of records and holds all are read, as an
/// opening reads them.
///
/// Refused for lack of memory, with the error of the old or of the new database, or where the new one has other tables.
/// A refusal may leave some of the rows in the new database, which is then of no use.
pub fn copy_archive<S: Alter, T: Alter>(
    alloc: Global,
    plan: &Plan,
    from: &mut Connection<S>,
    to: &mut Connection<T>,
) -> Result<(), CopyFault>
    ensures idle { to.old.in_transaction ≡ false → to.new.in_transaction ≡ false }
    ensures copies { OnOk result
        (Copies S.Store T.Store plan.now from.old from.new to.old to.new) }
    ensures lost { HasCleanDisk (state S.Store from.new) → result ≡ Err CopyFault.Lost
        → (a : Archive) → IsArchive a → StoresArchive (state S.Store from.old).now a → ⊥ }
    ensures looks { Looks S.Store from.old from.new }
    ensures from_open { WasOpenOnOk S.Store from.old from.new result }
    ensures committed { IsCommitted T.Store to.old to.new result }
    ensures falls { HasCleanDisk (state T.Store to.new) → HasCleanDisk (state T.Store to.old) }
{
    if !from.is_autocommit() || !to.is_autocommit() {
        return Err(CopyFault::Busy);
    }
    copy_rows(alloc, plan, from, to)?;
    Ok(())
}
