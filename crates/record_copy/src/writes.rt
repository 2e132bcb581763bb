//! The records and the holds of an archive, written to tables that have none.

ghost use Rattle.std.specs.Prelude.{map};
ghost use Rattle.record_tables.specs.Changes.{Always, IsPastRecords, with_record, with_hold};
ghost use Rattle.record_tables.specs.CodeRows.{record_of, hold_entry_of};
ghost use Rattle.record_tables.specs.Steps.{Writes};
ghost use Rattle.record_copy.specs.NewRows.{HasNoHolds, IsFreshFor, with_records, with_holds};

use record_tables::rows::{HoldRow, RecordRow};
use record_tables::writes::{insert_hold, insert_record, set_destroyed};
use sqlite::{Alter, Error, Transaction};

/// Adds a record, live or destroyed. The caller gives a number above those of all records.
fn insert_record_row<S: Alter>(tx: &mut Transaction<'_, S>, row: &RecordRow) -> Result<(), Error>
    ensures { Writes S.Store tx.old.conn tx.new.conn result
        (IsPastRecords row.now.number) (with_record (record_of row.now)) }
{
    insert_record(tx, row.number, row.message, row.path.as_slice(), row.day)?;
    if row.destroyed {
        set_destroyed(tx, row.number)?;
    }
    Ok(())
}

/// Adds the records, in the order of their numbers, to a table that has none.
pub(crate) fn insert_records<S: Alter>(
    tx: &mut Transaction<'_, S>,
    rows: &[RecordRow],
) -> Result<(), Error>
    ensures { Writes S.Store tx.old.conn tx.new.conn result
        (IsFreshFor (map record_of rows.now)) (with_records (map record_of rows.now)) }
{
    for row in rows {
        insert_record_row(tx, row)?;
    }
    Ok(())
}

fn insert_hold_row<S: Alter>(tx: &mut Transaction<'_, S>, hold: &HoldRow) -> Result<(), Error>
    ensures { Writes S.Store tx.old.conn tx.new.conn result
        Always (with_hold (hold_entry_of hold.now).name (hold_entry_of hold.now).number) }
{
    insert_hold(tx, hold.name.as_slice(), hold.record)
}

/// Adds the holds, in this order, to a table that has none.
pub(crate) fn insert_holds<S: Alter>(
    tx: &mut Transaction<'_, S>,
    holds: &[HoldRow],
) -> Result<(), Error>
    ensures { Writes S.Store tx.old.conn tx.new.conn result
        HasNoHolds (with_holds (map hold_entry_of holds.now)) }
{
    for hold in holds {
        insert_hold_row(tx, hold)?;
    }
    Ok(())
}
