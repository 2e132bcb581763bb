//! Creating the tables: in a database that has none of their names, and beside those of version 1.

ghost use Rattle.std.specs.Prelude.{◌≡◌, ◌∷◌, [], OnOk, false, map};
ghost use Rattle.sqlite.specs.Held.{state};
ghost use Rattle.record_tables.specs.Tables.{archive_tables, schedule_table, due_table, due_index};
ghost use Rattle.record_tables.specs.Layouts.{LaysIn, GoesOnIn, Empties, TellsDues, IsLaid, IsWidened, LaysTable, LaysIndex, DropsIn, IsIndexed};
ghost use Rattle.record_tables.specs.Steps.{Inside, StaysInside, Writes, CommitsWhole, Makes, IsCommitted, IsUndone, WasOpen, MakesIn};
ghost use Rattle.record_tables.specs.Changes.{Always, AreAscending, with_version};
ghost use Rattle.record_tables.specs.CodeRows.{due_of, class_entry_of, rule_of, with_plan_rows, IsMovedTo};

use crate::layout::has_dues;
use crate::renew::{put_plan, put_version};
use crate::rows::{ClassRow, DueRow, ScheduleRow};
use crate::transact::{Change, transact};
use sqlite::{Alter, Connection, Error, Transaction};
use sqlite_schema::schema::Index;

pub(crate) fn define_table<S: Alter>(tx: &mut Transaction<'_, S>, text: &str) -> Result<(), Error>
    ensures ok { OnOk result (LaysTable S.Store tx.old.conn.now tx.new.conn.now text.now) }
    ensures goes_on { GoesOnIn S.Store tx.old.conn.now tx.new.conn.now result }
    ensures frame { StaysInside S.Store tx.old.conn tx.new.conn result }
{
    tx.execute(text, &[])?;
    Ok(())
}

fn define_index<S: Alter>(tx: &mut Transaction<'_, S>, text: &str) -> Result<(), Error>
    ensures ok { OnOk result (LaysIndex S.Store tx.old.conn.now tx.new.conn.now text.now) }
    ensures goes_on { GoesOnIn S.Store tx.old.conn.now tx.new.conn.now result }
    ensures frame { StaysInside S.Store tx.old.conn tx.new.conn result }
{
    tx.execute(text, &[])?;
    Ok(())
}

/// Creates the table of due days and its index.
fn lay_dues<S: Alter>(tx: &mut Transaction<'_, S>) -> Result<(), Error>
    ensures ok { OnOk result (LaysIn S.Store tx.old.conn.now tx.new.conn.now (due_table ∷ [])) }
    ensures index { OnOk result (Inside S.Store tx.old.conn.now tx.new.conn.now
        (IsIndexed (state S.Store tx.new.conn.now).now.schema due_table due_index)) }
    ensures frame { StaysInside S.Store tx.old.conn tx.new.conn result }
{
    define_table(
        tx,
        "CREATE TABLE due_day (record INTEGER PRIMARY KEY, day INTEGER NOT NULL) STRICT",
    )?;
    define_index(tx, "CREATE INDEX due_by_day ON due_day (day, record)")?;
    Ok(())
}

/// Creates the tables that version 1 lacks, or has in another place.
fn lay_later<S: Alter>(tx: &mut Transaction<'_, S>) -> Result<(), Error>
    ensures ok { OnOk result
        (LaysIn S.Store tx.old.conn.now tx.new.conn.now (schedule_table ∷ due_table ∷ [])) }
    ensures frame { StaysInside S.Store tx.old.conn tx.new.conn result }
{
    define_table(
        tx,
        "CREATE TABLE schedule (path TEXT NOT NULL PRIMARY KEY, count INTEGER NOT NULL, unit INTEGER NOT NULL, action INTEGER NOT NULL, year_end INTEGER NOT NULL) STRICT",
    )?;
    lay_dues(tx)?;
    Ok(())
}

/// Creates all tables in a database that has none of their names.
fn lay_tables<S: Alter>(tx: &mut Transaction<'_, S>) -> Result<(), Error>
    ensures ok { OnOk result (LaysIn S.Store tx.old.conn.now tx.new.conn.now archive_tables) }
    ensures frame { StaysInside S.Store tx.old.conn tx.new.conn result }
{
    define_table(
        tx,
        "CREATE TABLE message (number INTEGER PRIMARY KEY, body BLOB NOT NULL) STRICT",
    )?;
    define_table(
        tx,
        "CREATE TABLE record (number INTEGER PRIMARY KEY, message INTEGER NOT NULL, path TEXT NOT NULL, day INTEGER NOT NULL, destroyed INTEGER NOT NULL) STRICT",
    )?;
    define_table(
        tx,
        "CREATE TABLE hold (name TEXT NOT NULL, record INTEGER NOT NULL, PRIMARY KEY (name, record)) STRICT",
    )?;
    define_table(
        tx,
        "CREATE TABLE meta (key TEXT NOT NULL PRIMARY KEY, value TEXT NOT NULL) STRICT",
    )?;
    define_table(
        tx,
        "CREATE TABLE class (path TEXT NOT NULL PRIMARY KEY, is_open INTEGER NOT NULL, schedule TEXT) STRICT",
    )?;
    lay_later(tx)?;
    Ok(())
}

/// Writes version 2's row of `meta`, the rows of a plan and the due days to tables that are there.
fn fill<S: Alter>(
    tx: &mut Transaction<'_, S>,
    schedules: &[ScheduleRow],
    classes: &[ClassRow],
    dues: &[DueRow],
) -> Result<(), Error>
    requires { AreAscending (map due_of dues.now) }
    ensures { Writes S.Store tx.old.conn tx.new.conn result
        Always (λ t. with_version (with_plan_rows schedules.now classes.now dues.now t)) }
{
    put_plan(tx, schedules, classes, dues)?;
    put_version(tx)
}

/// The tables of version 2, created with a plan in a database that has none of their names.
#[derive(Drop)]
struct Laying<'a> {
    schedules: &'a [ScheduleRow],
    classes: &'a [ClassRow],
}

impl Change for Laying<'_> {
    ghost may_be_made = { λ c db. Unit {0} };

    ghost makes = { λ c. IsLaid (map rule_of c.schedules.now) (map class_entry_of c.classes.now) };

    fn make<S: Alter>(self, tx: &mut Transaction<'_, S>) -> Result<(), Error> {
        lay_tables(tx)?;
        fill(tx, self.schedules, self.classes, &[])?;
        Ok(())
    }
}

/// Creates the tables of version 2, with a plan, in a database that has none of their names: all or nothing, even in a
/// crash. Tables of other names may be there, wherever they stand.
///
/// Refused with the error of `sqlite` alone. The connection has no open transaction, before and after.
pub fn lay<S: Alter>(
    conn: &mut Connection<S>,
    schedules: &[ScheduleRow],
    classes: &[ClassRow],
) -> Result<(), Error>
    requires { conn.old.in_transaction ≡ false }
    ensures idle { conn.new.in_transaction ≡ false }
    ensures ok { Makes S.Store conn.old conn.new result
        (IsLaid (map rule_of schedules.now) (map class_entry_of classes.now)) }
    ensures committed { IsCommitted S.Store conn.old conn.new result }
    ensures err { IsUndone S.Store conn.old conn.new result }
    ensures was_open { WasOpen S.Store conn.old conn.new }
    ensures crash { CommitsWhole S.Store conn.old conn.new
        (IsLaid (map rule_of schedules.now) (map class_entry_of classes.now)) }
{
    transact(conn, Laying { schedules, classes })?;
    Ok(())
}

fn drop_dues<S: Alter>(tx: &mut Transaction<'_, S>) -> Result<(), Error>
    ensures ok { OnOk result (DropsIn S.Store tx.old.conn.now tx.new.conn.now) }
    ensures frame { StaysInside S.Store tx.old.conn tx.new.conn result }
{
    tx.execute("DROP TABLE due_day", &[])?;
    Ok(())
}

/// Removes all due days of version 2 by creating their table anew, as a deletion would remove them row by row.
pub(crate) fn empty_dues<S: Alter>(tx: &mut Transaction<'_, S>) -> Result<(), Error>
    ensures ok { OnOk result
        (Inside S.Store tx.old.conn.now tx.new.conn.now
        (Empties (state S.Store tx.old.conn.now) (state S.Store tx.new.conn.now))) }
    ensures frame { StaysInside S.Store tx.old.conn tx.new.conn result }
{
    drop_dues(tx)?;
    lay_dues(tx)?;
    Ok(())
}

/// Creates the later tables beside those of version 1, and drops the due days that version 1 may have.
fn lay_beside<S: Alter>(tx: &mut Transaction<'_, S>, has_dues: bool) -> Result<(), Error>
    requires { TellsDues (state S.Store tx.old.conn.now).now.schema has_dues }
    ensures ok { OnOk result (MakesIn S.Store tx.old.conn.now tx.new.conn.now IsWidened) }
    ensures goes_on { GoesOnIn S.Store tx.old.conn.now tx.new.conn.now result }
    ensures frame { StaysInside S.Store tx.old.conn tx.new.conn result }
{
    if has_dues {
        drop_dues(tx)?;
        lay_later(tx)?;
        Ok(())
    } else {
        lay_later(tx)?;
        Ok(())
    }
}

/// Version 1 moved over to version 2, with these rows of its plan and these due days.
#[derive(Drop)]
struct Moving<'a> {
    has_dues: bool,
    schedules: &'a [ScheduleRow],
    classes: &'a [ClassRow],
    dues: &'a [DueRow],
}

impl Change for Moving<'_> {
    ghost may_be_made = { λ c db. TellsDues db.schema c.has_dues
        × AreAscending (map due_of c.dues.now) };

    ghost makes = { λ c. IsMovedTo c.schedules.now c.classes.now c.dues.now };

    fn make<S: Alter>(self, tx: &mut Transaction<'_, S>) -> Result<(), Error> {
        lay_beside(tx, self.has_dues)?;
        fill(tx, self.schedules, self.classes, self.dues)?;
        Ok(())
    }
}

/// Moves a database of version 1 over to version 2, with these rows of its plan and these due days: all or nothing,
/// even in a crash. The due days come in the order of their records. Tables of other names may be there, wherever they
/// stand.
///
/// Refused with the error of `sqlite` alone. The connection has no open transaction, before and after.
pub fn move_first<S: Alter>(
    conn: &mut Connection<S>,
    schedules: &[ScheduleRow],
    classes: &[ClassRow],
    dues: &[DueRow],
) -> Result<(), Error>
    requires idle { conn.old.in_transaction ≡ false }
    requires ascending { AreAscending (map due_of dues.now) }
    ensures idle { conn.new.in_transaction ≡ false }
    ensures ok { Makes S.Store conn.old conn.new result
        (IsMovedTo schedules.now classes.now dues.now) }
    ensures committed { IsCommitted S.Store conn.old conn.new result }
    ensures err { IsUndone S.Store conn.old conn.new result }
    ensures was_open { WasOpen S.Store conn.old conn.new }
    ensures crash { CommitsWhole S.Store conn.old conn.new
        (IsMovedTo schedules.now classes.now dues.now) }
{
    let has_dues = has_dues(conn.schema());
    transact(
        conn,
        Moving {
            has_dues,
            schedules,
            classes,
            dues,
        },
    )?;
    Ok(())
}
