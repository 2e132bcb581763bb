//! Replacing the rows of the plan, and the due days by it.

ghost use Rattle.std.specs.Prelude.{◌≡◌, false, map};
ghost use Rattle.record_tables.specs.Changes.{Always, HasNoClasses, HasNoSchedules, HasNoDues, IsPastDues, AreAscending, with_due, with_dues, with_classes, with_schedules, with_version, IsRevised, IsRevisedAlone, with_class_entry};
ghost use Rattle.sqlite.specs.Held.{state};
ghost use Rattle.sqlite.specs.State.{IsLive};
ghost use Rattle.record_tables.specs.Layouts.{TellsAlone};
ghost use Rattle.record_tables.specs.CodeRows.{due_of, class_entry_of, rule_of, with_plan_rows};
ghost use Rattle.record_tables.specs.Companions.{MakesBoth};
ghost use Rattle.record_tables.specs.Steps.{Writes, CommitsWhole, Makes, IsCommitted, IsOpenOnOk, IsUndone, WasOpen};

use crate::alone::is_alone;
use crate::companions::{Accompanied, Alone, Companion};
use crate::lay::empty_dues;
use crate::rows::{ClassRow, DueRow, ScheduleRow};
use crate::transact::{Change, transact};
use crate::writes::{
    clear_classes, clear_dues, clear_schedules, clear_settings, insert_class, insert_due,
    insert_schedule, insert_setting,
};
use sqlite::{Alter, Connection, Error, Transaction};

fn insert_due_row<S: Alter>(tx: &mut Transaction<'_, S>, due: &DueRow) -> Result<(), Error>
    ensures { Writes S.Store tx.old.conn tx.new.conn result
        (IsPastDues (due_of due.now).number) (with_due (due_of due.now)) }
{
    insert_due(tx, due.record, due.day)
}

/// Adds the due days to a table that has none.
fn insert_dues<S: Alter>(tx: &mut Transaction<'_, S>, dues: &[DueRow]) -> Result<(), Error>
    requires { AreAscending (map due_of dues.now) }
    ensures { Writes S.Store tx.old.conn tx.new.conn result
        HasNoDues (with_dues (map due_of dues.now)) }
{
    for due in dues {
        insert_due_row(tx, due)?;
    }
    Ok(())
}

/// Replaces the due days with these.
fn renew_dues<S: Alter>(tx: &mut Transaction<'_, S>, dues: &[DueRow]) -> Result<(), Error>
    requires { AreAscending (map due_of dues.now) }
    ensures { Writes S.Store tx.old.conn tx.new.conn result
        Always (with_dues (map due_of dues.now)) }
{
    clear_dues(tx)?;
    insert_dues(tx, dues)
}

fn insert_class_row<S: Alter>(tx: &mut Transaction<'_, S>, class: &ClassRow) -> Result<(), Error>
    ensures { Writes S.Store tx.old.conn tx.new.conn result
        Always (with_class_entry (class_entry_of class.now)) }
{
    match &class.schedule {
        Some(text) => insert_class(
            tx,
            class.path.as_slice(),
            class.is_open,
            Some(text.as_slice()),
        )?,
        None => insert_class(tx, class.path.as_slice(), class.is_open, None)?,
    }
    Ok(())
}

/// Adds the classes to a table that has none.
fn insert_classes<S: Alter>(tx: &mut Transaction<'_, S>, classes: &[ClassRow]) -> Result<(), Error>
    ensures { Writes S.Store tx.old.conn tx.new.conn result
        HasNoClasses (with_classes (map class_entry_of classes.now)) }
{
    for class in classes {
        insert_class_row(tx, class)?;
    }
    Ok(())
}

fn renew_classes<S: Alter>(tx: &mut Transaction<'_, S>, classes: &[ClassRow]) -> Result<(), Error>
    ensures { Writes S.Store tx.old.conn tx.new.conn result
        Always (with_classes (map class_entry_of classes.now)) }
{
    clear_classes(tx)?;
    insert_classes(tx, classes)
}

/// Adds the schedules to a table that has none.
fn insert_schedules<S: Alter>(
    tx: &mut Transaction<'_, S>,
    schedules: &[ScheduleRow],
) -> Result<(), Error>
    ensures { Writes S.Store tx.old.conn tx.new.conn result
        HasNoSchedules (with_schedules (map rule_of schedules.now)) }
{
    for schedule in schedules {
        insert_schedule(tx, schedule)?;
    }
    Ok(())
}

fn renew_schedules<S: Alter>(
    tx: &mut Transaction<'_, S>,
    schedules: &[ScheduleRow],
) -> Result<(), Error>
    ensures { Writes S.Store tx.old.conn tx.new.conn result
        Always (with_schedules (map rule_of schedules.now)) }
{
    clear_schedules(tx)?;
    insert_schedules(tx, schedules)
}

/// Replaces the rows of `meta` with that of version 2.
pub(crate) fn put_version<S: Alter>(tx: &mut Transaction<'_, S>) -> Result<(), Error>
    ensures { Writes S.Store tx.old.conn tx.new.conn result Always with_version }
{
    clear_settings(tx)?;
    insert_setting(tx, b"version", b"2")
}

pub(crate) fn put_plan<S: Alter>(
    tx: &mut Transaction<'_, S>,
    schedules: &[ScheduleRow],
    classes: &[ClassRow],
    dues: &[DueRow],
) -> Result<(), Error>
    requires { AreAscending (map due_of dues.now) }
    ensures { Writes S.Store tx.old.conn tx.new.conn result
        Always (with_plan_rows schedules.now classes.now dues.now) }
{
    renew_classes(tx, classes)?;
    renew_schedules(tx, schedules)?;
    renew_dues(tx, dues)
}

/// The rows of a plan, and the due days by it, in place of those that are there.
#[derive(Drop)]
struct Renewal<'a> {
    /// The database has no tables but those of version 2.
    is_alone: bool,
    schedules: &'a [ScheduleRow],
    classes: &'a [ClassRow],
    dues: &'a [DueRow],
}

impl Change for Renewal<'_> {
    ghost may_be_made = { λ c db. TellsAlone db.schema c.is_alone
        × AreAscending (map due_of c.dues.now) };

    ghost makes = { λ c. IsRevisedAlone (map rule_of c.schedules.now)
        (map class_entry_of c.classes.now) (map due_of c.dues.now) };

    fn make<S: Alter>(self, tx: &mut Transaction<'_, S>) -> Result<(), Error> {
        if self.is_alone {
            empty_dues(tx)?;
            put_plan(tx, self.schedules, self.classes, self.dues)?;
            Ok(())
        } else {
            put_plan(tx, self.schedules, self.classes, self.dues)?;
            Ok(())
        }
    }
}

/// Replaces the rows of the plan, and the due days by it: all or nothing, even in a crash. The schedules and the
/// classes come in any order, the due days in the order of their records.
///
/// Refused with the error of `sqlite` alone. The connection has no open transaction, before and after.
pub fn replace_plan<S: Alter>(
    conn: &mut Connection<S>,
    schedules: &[ScheduleRow],
    classes: &[ClassRow],
    dues: &[DueRow],
) -> Result<(), Error>
    requires idle { conn.old.in_transaction ≡ false }
    requires ascending { AreAscending (map due_of dues.now) }
    ensures idle { conn.new.in_transaction ≡ false }
    ensures ok { Makes S.Store conn.old conn.new result (IsRevised (map rule_of schedules.now)
        (map class_entry_of classes.now) (map due_of dues.now)) }
    ensures committed { IsCommitted S.Store conn.old conn.new result }
    ensures err { IsUndone S.Store conn.old conn.new result }
    ensures was_open { WasOpen S.Store conn.old conn.new }
    ensures crash { CommitsWhole S.Store conn.old conn.new (IsRevised (map rule_of schedules.now)
        (map class_entry_of classes.now) (map due_of dues.now)) }
    ensures live { IsLive (state S.Store conn.old) }
    ensures open { IsOpenOnOk S.Store conn.old conn.new result }
{
    replace_plan_with(conn, schedules, classes, dues, Alone)
}

/// The same beside a companion, in one transaction.
pub fn replace_plan_with<S: Alter, D: Companion + Drop>(
    conn: &mut Connection<S>,
    schedules: &[ScheduleRow],
    classes: &[ClassRow],
    dues: &[DueRow],
    companion: D,
) -> Result<(), Error>
    requires idle { conn.old.in_transaction ≡ false }
    requires ascending { AreAscending (map due_of dues.now) }
    ensures idle { conn.new.in_transaction ≡ false }
    ensures ok { Makes S.Store conn.old conn.new result
        (MakesBoth (IsRevisedAlone (map rule_of schedules.now) (map class_entry_of classes.now)
        (map due_of dues.now)) (D.needs companion) (D.brings companion)) }
    ensures committed { IsCommitted S.Store conn.old conn.new result }
    ensures err { IsUndone S.Store conn.old conn.new result }
    ensures was_open { WasOpen S.Store conn.old conn.new }
    ensures crash { CommitsWhole S.Store conn.old conn.new
        (MakesBoth (IsRevisedAlone (map rule_of schedules.now) (map class_entry_of classes.now)
        (map due_of dues.now)) (D.needs companion) (D.brings companion)) }
    ensures live { IsLive (state S.Store conn.old) }
    ensures open { IsOpenOnOk S.Store conn.old conn.new result }
{
    let is_alone = is_alone(conn.schema());
    let change = Renewal {
        is_alone,
        schedules,
        classes,
        dues,
    };
    transact(conn, Accompanied { change, companion })?;
    Ok(())
}
