//! The records that are due, read in one query.

ghost use Rattle.std.specs.Prelude.{◌≡◌, map};
ghost use Rattle.record_tables.specs.Tables.{IsArchiveSchema};
ghost use Rattle.record_tables.specs.Rows.{Tables, Stores, AreKeyed};
ghost use Rattle.record_reads.specs.DueRecords.{DueRecord, ReadsDueRecord, FitsDueRecord, due_records_by, due_record_of, FitsDueRecordsBy};
ghost use Rattle.record_reads.specs.Lookups.{WasOpenOnNoArchive};
ghost use Rattle.record_reads.specs.Quiet.{ReadsQuietly};
ghost use Rattle.record_tables.specs.Steps.{Learns, Rejects};

use crate::cells::{number_at, text_at};
use crate::query::read_all;
use crate::typed::FromRow;
use record_tables::fault::Fault;
use record_tables::rows::DueRecordRow;
use sqlite::types::ToSql;
use sqlite::{Alter, Connection, Row};
use std::alloc::Global;

impl FromRow for DueRecordRow {
    ghost reads = { λ row d. ReadsDueRecord row (due_record_of d) };

    ghost is_readable = { λ row. (d : DueRecord) × (FitsDueRecord d × ReadsDueRecord row d) };

    fn from_row(alloc: Global, row: &Row) -> Result<DueRecordRow, Fault> {
        let record = number_at(row, 0)?;
        let day = number_at(row, 1)?;
        let path = text_at(alloc, row, 2)?;
        Ok(DueRecordRow { record, day, path })
    }
}

/// The records with a due day not after a day, in days since 1970-01-01, by due day and then by number.
///
/// Refused as no archive is a column of another kind, or a number that is negative or 2^32 or more. The other
/// refusals are no memory and the errors of `sqlite`.
pub fn due_records_by<S: Alter>(
    alloc: Global,
    conn: &mut Connection<S>,
    day: u32,
) -> Result<Vec<DueRecordRow>, Fault>
    ensures all { Learns S.Store conn.old conn.new result
        (λ db all. (t : Tables) → Stores db t → AreKeyed t →
        map due_record_of all.items ≡ due_records_by day t) }
    ensures none { Rejects S.Store conn.old conn.new result
        (λ db. (t : Tables) → Stores db t → AreKeyed t → FitsDueRecordsBy day t → ⊥) }
    ensures seen { WasOpenOnNoArchive S.Store conn.old conn.new result }
    ensures frame { ReadsQuietly S.Store conn.old conn.new result IsArchiveSchema }
{
    read_all(
        alloc,
        conn,
        "SELECT due_day.record, due_day.day, record.path FROM due_day JOIN record ON record.number = due_day.record WHERE due_day.day <= ?1 ORDER BY due_day.day, due_day.record",
        &[day.to_sql()],
    )
}
