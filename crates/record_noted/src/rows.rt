//! The rows of lines, and how they are added to the table of events.

ghost use Rattle.std.specs.Prelude.{◌≡◌, ◌+◌, ℕ, List, map, IfOk, OnOk};
ghost use Rattle.record_tables.specs.Companions.{Accompanies};
ghost use Rattle.record_tables.specs.Layouts.{GoesOnIn};
ghost use Rattle.record_tables.specs.Steps.{MakesIn, StaysInside};
ghost use Rattle.record_reads.specs.Events.{event_of};
ghost use Rattle.record_noted.specs.Histories.{IsTrouble, MovesOn, rows_from};
ghost use Rattle.record_noted.specs.Rows.{Awaits, NotesEvents};

use record_history::next_mark;
use record_store::{Cause, EventRow, StoreFault};
use record_tables::events::insert_event;
use sqlite::{Alter, Error, ErrorCode, Transaction};
use std::alloc::Global;

/// The rows of lines, and the end of a history that has them last.
#[derive(Drop)]
pub(crate) struct Addition {
    pub(crate) rows: Vec<EventRow>,
    /// The number of the event that comes next.
    pub(crate) next: u32,
    /// The mark of the last row; without a row, that of the event before.
    pub(crate) mark: Vec<u8>,
}

/// The number after that of an event. Refused with 89 (`NoRowid`) after 4,294,967,294, since the event after would have none
/// of 32 bits.
pub(crate) fn number_after(number: u32) -> Result<u32, StoreFault>
    ensures number { IfOk result (λ n. n ≡ number + 1) }
    ensures trouble { IsTrouble result }
{
    if number == u32::MAX {
        let full = Error::SqliteFailure(ErrorCode::NoRowid);
        return Err(StoreFault::Database(Cause::Sqlite(full)));
    }
    Ok(number + 1)
}

/// The rows of lines that come after an event of this mark, from a number on, each with its mark. Refused with 89 (`NoRowid`)
/// where the last number would be above 4,294,967,294, or with 99 (no memory).
pub(crate) fn rows_of_lines(
    alloc: Global,
    first: u32,
    before: &[u8],
    lines: &[Vec<u8>],
) -> Result<Addition, StoreFault>
    ensures rows { IfOk result (λ x. map event_of x.rows.items ≡
        rows_from first before.now (map (λ l. l.items) lines.now)) }
    ensures ends { IfOk result (λ x. MovesOn first before.now (map (λ l. l.items) lines.now)
        x.next x.mark.items) }
    ensures trouble { IsTrouble result }
{
    let mut rows = Vec::with_capacity(alloc, lines.len())?;
    let mut next = first;
    let mut mark = Vec::from_slice(alloc, before)?;
    for line in lines {
        let number = next;
        next = number_after(number)?;
        mark = next_mark(alloc, mark.as_slice(), line.as_slice())?.into_bytes();
        let row = EventRow {
            number,
            line: Vec::from_slice(alloc, line.as_slice())?,
            mark: Vec::from_slice(alloc, mark.as_slice())?,
        };
        rows.push(row)?;
    }
    Ok(Addition { rows, next, mark })
}

/// Adds rows behind those of the table of events, in a transaction of the caller's, which continues. The caller gives numbers
/// that grow, above those of all events.
pub(crate) fn insert_rows<S: Alter>(
    tx: &mut Transaction<'_, S>,
    rows: &[EventRow],
) -> Result<(), Error>
    ensures ok { OnOk result (MakesIn S.Store tx.old.conn.now tx.new.conn.now
        (Accompanies (Awaits (map event_of rows.now)) (NotesEvents (map event_of rows.now)))) }
    ensures goes_on { GoesOnIn S.Store tx.old.conn.now tx.new.conn.now result }
    ensures frame { StaysInside S.Store tx.old.conn tx.new.conn result }
{
    for row in rows {
        insert_event(tx, row.number, row.line.as_slice(), row.mark.as_slice())?;
    }
    Ok(())
}
