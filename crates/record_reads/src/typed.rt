//! The rows of a query's answer, read as rows of their tables.

ghost use Rattle.std.specs.Prelude.{◌≡◌, ◌≢◌, ℕ, List, pos, IfOk, IfErr};
ghost use Rattle.std.specs.List.{AllZip, AllByRecursion};
ghost use Rattle.sqlite.specs.Order.{column};
ghost use Rattle.sqlite.specs.declared.types.Value.{Value};
ghost use Rattle.sqlite.specs.declared.types.Value.TheVariants.{Blob as Octets};
ghost use Rattle.record_items.specs.Items.{Record};
ghost use Rattle.record_tables.specs.Changes.{ClassEntry, Rule};
ghost use Rattle.record_tables.specs.Reads.{HoldEntry, Pair, ReadsNumber, FitsNumber, ReadsRecord, FitsRecord, ReadsHold, FitsHold, ReadsPair, ReadsClass, ReadsRule, FitsRule};
ghost use Rattle.record_tables.specs.CodeRows.{record_of, hold_entry_of, pair_of, class_entry_of, rule_of};

use crate::cells::{flag_at, is_null_at, number_at, octets_at, text_at};
use record_tables::fault::Fault;
use record_tables::rows::{ClassRow, HoldRow, RecordRow, ScheduleRow, SettingRow};
use sqlite::Row;
use std::alloc::Global;

/// A value that is read from a row.
pub(crate) trait FromRow: Drop {
    ghost reads: { List Value → Self → Type 0 };

    ghost is_readable: { List Value → Type 0 };

    /// Reads the value, exactly where each column has the right kind, and each number is from 0 to 2^32 - 1.
    fn from_row(alloc: Global, row: &Row) -> Result<Self, Fault>
        ensures ok { IfOk result (λ x. reads row.now x) }
        ensures none { IfErr result
            (λ f. f ≢ Fault.NoMemory → (f ≡ Fault.NoArchive) × (is_readable row.now → ⊥)) };
}

impl FromRow for u32 {
    ghost reads = { λ row n. ReadsNumber row n };

    ghost is_readable = { λ row. (n : ℕ) × (FitsNumber n × ReadsNumber row n) };

    fn from_row(_alloc: Global, row: &Row) -> Result<u32, Fault> {
        number_at(row, 0)
    }
}

impl FromRow for Vec<u8> {
    ghost reads = { λ row octets. column row 0 ≡ Octets octets.items };

    ghost is_readable = { λ row. (octets : List ℕ) × (column row 0 ≡ Octets octets) };

    fn from_row(alloc: Global, row: &Row) -> Result<Vec<u8>, Fault> {
        octets_at(alloc, row, 0)
    }
}

impl FromRow for RecordRow {
    ghost reads = { λ row r. ReadsRecord row (record_of r) };

    ghost is_readable = { λ row. (r : Record) × (FitsRecord r × ReadsRecord row r) };

    fn from_row(alloc: Global, row: &Row) -> Result<RecordRow, Fault> {
        let number = number_at(row, 0)?;
        let message = number_at(row, 1)?;
        let path = text_at(alloc, row, 2)?;
        let day = number_at(row, 3)?;
        let destroyed = flag_at(row, 4)?;
        Ok(RecordRow {
            number,
            message,
            path,
            day,
            destroyed,
        })
    }
}

impl FromRow for HoldRow {
    ghost reads = { λ row r. ReadsHold row (hold_entry_of r) };

    ghost is_readable = { λ row. (r : HoldEntry) × (FitsHold r × ReadsHold row r) };

    fn from_row(alloc: Global, row: &Row) -> Result<HoldRow, Fault> {
        let name = text_at(alloc, row, 0)?;
        let record = number_at(row, 1)?;
        Ok(HoldRow { name, record })
    }
}

impl FromRow for SettingRow {
    ghost reads = { λ row r. ReadsPair row (pair_of r) };

    ghost is_readable = { λ row. (r : Pair) × ReadsPair row r };

    fn from_row(alloc: Global, row: &Row) -> Result<SettingRow, Fault> {
        let key = text_at(alloc, row, 0)?;
        let value = text_at(alloc, row, 1)?;
        Ok(SettingRow { key, value })
    }
}

impl FromRow for ClassRow {
    ghost reads = { λ row r. ReadsClass row (class_entry_of r) };

    ghost is_readable = { λ row. (r : ClassEntry) × ReadsClass row r };

    fn from_row(alloc: Global, row: &Row) -> Result<ClassRow, Fault> {
        let path = text_at(alloc, row, 0)?;
        let is_open = flag_at(row, 1)?;
        let schedule = if is_null_at(row, 2) {
            None
        } else {
            Some(text_at(alloc, row, 2)?)
        };
        Ok(ClassRow {
            path,
            is_open,
            schedule,
        })
    }
}

impl FromRow for ScheduleRow {
    ghost reads = { λ row r. ReadsRule row (rule_of r) };

    ghost is_readable = { λ row. (r : Rule) × (FitsRule r × ReadsRule row r) };

    fn from_row(alloc: Global, row: &Row) -> Result<ScheduleRow, Fault> {
        let path = text_at(alloc, row, 0)?;
        let count = number_at(row, 1)?;
        let unit = number_at(row, 2)?;
        let action = number_at(row, 3)?;
        let year_end = number_at(row, 4)?;
        Ok(ScheduleRow {
            path,
            count,
            unit,
            action,
            year_end,
        })
    }
}

/// Reads all rows, exactly where each can be read.
pub(crate) fn rows_in<T: FromRow>(alloc: Global, rows: &[Row]) -> Result<Vec<T>, Fault>
    ensures all { IfOk result (λ all. AllZip T.reads rows.now all.items) }
    ensures none { IfErr result (λ f. f ≢ Fault.NoMemory → (f ≡ Fault.NoArchive) ×
        (AllByRecursion T.is_readable rows.now → ⊥)) }
{
    let mut all = Vec::new(alloc);
    for row in rows {
        let one = T::from_row(alloc, row)?;
        all.push(one)?;
    }
    Ok(all)
}
