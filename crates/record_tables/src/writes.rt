//! Writes of the tables, one statement each, in a transaction of the caller's.
//!
//! A refusal is the error of `sqlite`; on a clean disk it keeps what was committed. A crash leaves nothing of a
//! statement, as none of them commits.

ghost use Rattle.std.specs.Prelude.{◌≡◌, option_map};
ghost use Rattle.sqlite.specs.Values.{bound, bound_value};
ghost use Rattle.sqlite_value.specs.Value.{owned};
ghost use Rattle.sqlite.specs.declared.types.Value.TheVariants.{Text as Words};
ghost use Rattle.sqlite_typed.specs.Columns.{or_null};
ghost use Rattle.record_tables.specs.Steps.{Runs, Writes};
ghost use Rattle.record_tables.specs.CodeRows.{rule_of};
ghost use Rattle.record_tables.specs.Changes.{Always, IsPastMessages, IsPastRecords, IsPastDues, new_message, new_record, with_message, with_record, with_due, with_due_placed, with_hold, with_setting, with_class, with_schedule, without_dues, without_classes, without_schedules, without_settings, without_due, without_message, without_hold, with_destruction, with_path};

use crate::rows::ScheduleRow;
use sqlite::types::{ToSql, ValueRef};
use sqlite::{Alter, Error, Transaction};

fn text_or_null<'a>(text: Option<&'a [u8]>) -> ValueRef<'a>
    ensures { bound_value (owned result) ≡ or_null Words (option_map (λ t. t.now) text.entry) }
{
    match text {
        Some(octets) => ValueRef::Text(octets),
        None => ValueRef::Null,
    }
}

fn run<S: Alter>(
    tx: &mut Transaction<'_, S>,
    sql: &str,
    params: &[ValueRef<'_>],
) -> Result<(), Error>
    ensures { Runs S.Store tx.old.conn tx.new.conn result sql.now (bound params.now) }
{
    tx.execute(sql, params)?;
    Ok(())
}

/// Adds a message with its octets. The caller gives a number above those of all messages.
pub fn insert_message<S: Alter>(
    tx: &mut Transaction<'_, S>,
    number: u32,
    body: &[u8],
) -> Result<(), Error>
    ensures { Writes S.Store tx.old.conn tx.new.conn result
        (IsPastMessages number) (with_message (new_message number body.now)) }
{
    run(
        tx,
        "INSERT INTO message (number, body) VALUES (?1, ?2)",
        &[number.to_sql(), ValueRef::Blob(body)],
    )
}

/// Adds a live record, captured on a day in days since 1970-01-01. The caller gives a number above those of all
/// records.
pub fn insert_record<S: Alter>(
    tx: &mut Transaction<'_, S>,
    number: u32,
    message: u32,
    path: &[u8],
    day: u32,
) -> Result<(), Error>
    ensures { Writes S.Store tx.old.conn tx.new.conn result
        (IsPastRecords number) (with_record (new_record number message path.now day)) }
{
    run(
        tx,
        "INSERT INTO record (number, message, path, day, destroyed) VALUES (?1, ?2, ?3, ?4, 0)",
        &[
            number.to_sql(),
            message.to_sql(),
            ValueRef::Text(path),
            day.to_sql(),
        ],
    )
}

/// Adds the due day of a record, in days since 1970-01-01, at its place in the order of the records' numbers: the last
/// one where all records with due days are before it.
pub fn insert_due<S: Alter>(tx: &mut Transaction<'_, S>, number: u32, day: u32) -> Result<(), Error>
    ensures placed { Writes S.Store tx.old.conn tx.new.conn result
        Always (with_due_placed (record { number = number; day = day })) }
    ensures last { Writes S.Store tx.old.conn tx.new.conn result
        (IsPastDues number) (with_due (record { number = number; day = day })) }
{
    run(
        tx,
        "INSERT INTO due_day (record, day) VALUES (?1, ?2)",
        &[number.to_sql(), day.to_sql()],
    )
}

/// Adds a hold of that name on a record, under the next rowid.
pub fn insert_hold<S: Alter>(
    tx: &mut Transaction<'_, S>,
    name: &[u8],
    number: u32,
) -> Result<(), Error>
    ensures { Writes S.Store tx.old.conn tx.new.conn result Always (with_hold name.now number) }
{
    run(
        tx,
        "INSERT INTO hold (name, record) VALUES (?1, ?2)",
        &[ValueRef::Text(name), number.to_sql()],
    )
}

/// Adds a setting, a row of `meta`, under the next rowid.
pub fn insert_setting<S: Alter>(
    tx: &mut Transaction<'_, S>,
    key: &[u8],
    value: &[u8],
) -> Result<(), Error>
    ensures { Writes S.Store tx.old.conn tx.new.conn result
        Always (with_setting key.now value.now) }
{
    run(
        tx,
        "INSERT INTO meta (key, value) VALUES (?1, ?2)",
        &[ValueRef::Text(key), ValueRef::Text(value)],
    )
}

/// Adds a class under the next rowid; version 1 alone has the text of a schedule here.
pub fn insert_class<S: Alter>(
    tx: &mut Transaction<'_, S>,
    path: &[u8],
    is_open: bool,
    schedule: Option<&[u8]>,
) -> Result<(), Error>
    ensures { Writes S.Store tx.old.conn tx.new.conn result
        Always (with_class path.now is_open (option_map (λ t. t.now) schedule.entry)) }
{
    run(
        tx,
        "INSERT INTO class (path, is_open, schedule) VALUES (?1, ?2, ?3)",
        &[
            ValueRef::Text(path),
            is_open.to_sql(),
            text_or_null(schedule),
        ],
    )
}

/// Adds the schedule of a class or of the whole plan, under the next rowid.
pub fn insert_schedule<S: Alter>(
    tx: &mut Transaction<'_, S>,
    schedule: &ScheduleRow,
) -> Result<(), Error>
    ensures { Writes S.Store tx.old.conn tx.new.conn result
        Always (with_schedule (rule_of schedule.now)) }
{
    run(
        tx,
        "INSERT INTO schedule (path, count, unit, action, year_end) VALUES (?1, ?2, ?3, ?4, ?5)",
        &[
            ValueRef::Text(schedule.path.as_slice()),
            schedule.count.to_sql(),
            schedule.unit.to_sql(),
            schedule.action.to_sql(),
            schedule.year_end.to_sql(),
        ],
    )
}

/// Removes all due days.
pub fn clear_dues<S: Alter>(tx: &mut Transaction<'_, S>) -> Result<(), Error>
    ensures { Writes S.Store tx.old.conn tx.new.conn result Always without_dues }
{
    run(tx, "DELETE FROM due_day", &[])
}

/// Removes all classes.
pub fn clear_classes<S: Alter>(tx: &mut Transaction<'_, S>) -> Result<(), Error>
    ensures { Writes S.Store tx.old.conn tx.new.conn result Always without_classes }
{
    run(tx, "DELETE FROM class", &[])
}

/// Removes all schedules, that of the whole plan too.
pub fn clear_schedules<S: Alter>(tx: &mut Transaction<'_, S>) -> Result<(), Error>
    ensures { Writes S.Store tx.old.conn tx.new.conn result Always without_schedules }
{
    run(tx, "DELETE FROM schedule", &[])
}

/// Removes all settings, the rows of `meta`.
pub fn clear_settings<S: Alter>(tx: &mut Transaction<'_, S>) -> Result<(), Error>
    ensures { Writes S.Store tx.old.conn tx.new.conn result Always without_settings }
{
    run(tx, "DELETE FROM meta", &[])
}

/// Removes the due day of a record; where it has none, nothing changes.
pub fn delete_due<S: Alter>(tx: &mut Transaction<'_, S>, number: u32) -> Result<(), Error>
    ensures { Writes S.Store tx.old.conn tx.new.conn result Always (without_due number) }
{
    run(
        tx,
        "DELETE FROM due_day WHERE record = ?1",
        &[number.to_sql()],
    )
}

/// Removes the message with a number; where there is none, nothing changes.
pub fn delete_message<S: Alter>(tx: &mut Transaction<'_, S>, number: u32) -> Result<(), Error>
    ensures { Writes S.Store tx.old.conn tx.new.conn result Always (without_message number) }
{
    run(
        tx,
        "DELETE FROM message WHERE number = ?1",
        &[number.to_sql()],
    )
}

/// Removes the hold of that name on a record; where there is none, nothing changes.
pub fn delete_hold<S: Alter>(
    tx: &mut Transaction<'_, S>,
    name: &[u8],
    number: u32,
) -> Result<(), Error>
    ensures { Writes S.Store tx.old.conn tx.new.conn result Always (without_hold name.now number) }
{
    run(
        tx,
        "DELETE FROM hold WHERE name = ?1 AND record = ?2",
        &[ValueRef::Text(name), number.to_sql()],
    )
}

/// Marks the record with a number as destroyed; where there is none, nothing changes.
pub fn set_destroyed<S: Alter>(tx: &mut Transaction<'_, S>, number: u32) -> Result<(), Error>
    ensures { Writes S.Store tx.old.conn tx.new.conn result Always (with_destruction number) }
{
    run(
        tx,
        "UPDATE record SET destroyed = 1 WHERE number = ?1",
        &[number.to_sql()],
    )
}

/// Puts the record with a number into another class; where there is none, nothing changes.
pub fn set_path<S: Alter>(
    tx: &mut Transaction<'_, S>,
    number: u32,
    path: &[u8],
) -> Result<(), Error>
    ensures { Writes S.Store tx.old.conn tx.new.conn result Always (with_path number path.now) }
{
    run(
        tx,
        "UPDATE record SET path = ?2 WHERE number = ?1",
        &[number.to_sql(), ValueRef::Text(path)],
    )
}
