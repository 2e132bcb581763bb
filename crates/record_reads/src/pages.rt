//! The records of a page, and the holds on them.
//!
//! Refused as no archive is a column of another kind, a number that is negative or 2^32 or more, or a flag that is
//! neither 0 nor 1. The other refusals are no memory and the errors of `sqlite`.

ghost use Rattle.std.specs.Prelude.{◌≡◌, map, take, filter};
ghost use Rattle.std.specs.List.{AllByRecursion};
ghost use Rattle.record_tables.specs.Tables.{IsArchiveSchema};
ghost use Rattle.record_tables.specs.Rows.{Tables, Stores, AreKeyed};
ghost use Rattle.record_tables.specs.Reads.{FitsRecord, AreHolds, ForRows};
ghost use Rattle.record_tables.specs.CodeRows.{record_of, hold_entry_of};
ghost use Rattle.record_reads.specs.Lookups.{WasOpenOnNoArchive};
ghost use Rattle.record_reads.specs.Pages.{records_from, is_between};
ghost use Rattle.record_reads.specs.Quiet.{ReadsQuietly};
ghost use Rattle.record_tables.specs.Steps.{Learns, Rejects};

use crate::query::read_all;
use record_tables::fault::Fault;
use record_tables::rows::{HoldRow, RecordRow};
use sqlite::types::ToSql;
use sqlite::{Alter, Connection};
use std::alloc::Global;

/// The records from a number on, in the order of their numbers, at most `most` of them. Only these rows are looked at.
pub fn records_from<S: Alter>(
    alloc: Global,
    conn: &mut Connection<S>,
    from: u32,
    most: u32,
) -> Result<Vec<RecordRow>, Fault>
    ensures all { Learns S.Store conn.old conn.new result
        (λ db all. (t : Tables) → Stores db t → AreKeyed t →
        map record_of all.items ≡ take most (records_from from t)) }
    ensures none { Rejects S.Store conn.old conn.new result
        (λ db. (t : Tables) → Stores db t → AreKeyed t →
        AllByRecursion FitsRecord (take most (records_from from t)) → ⊥) }
    ensures seen { WasOpenOnNoArchive S.Store conn.old conn.new result }
    ensures frame { ReadsQuietly S.Store conn.old conn.new result IsArchiveSchema }
{
    read_all(
        alloc,
        conn,
        "SELECT number, message, path, day, destroyed FROM record WHERE number >= ?1 ORDER BY number LIMIT ?2",
        &[from.to_sql(), most.to_sql()],
    )
}

/// The holds on the records from one number to another, both included, by record and then in byte order of their
/// names. All holds are looked at.
pub fn holds_between<S: Alter>(
    alloc: Global,
    conn: &mut Connection<S>,
    first: u32,
    last: u32,
) -> Result<Vec<HoldRow>, Fault>
    ensures all { Learns S.Store conn.old conn.new result
        (λ db all. ForRows Stores AreHolds db
        (λ hs. map hold_entry_of all.items ≡ filter (is_between first last) hs)) }
    ensures none { Rejects S.Store conn.old conn.new result
        (λ db. ForRows Stores AreHolds db (λ hs. ⊥)) }
    ensures seen { WasOpenOnNoArchive S.Store conn.old conn.new result }
    ensures frame { ReadsQuietly S.Store conn.old conn.new result IsArchiveSchema }
{
    read_all(
        alloc,
        conn,
        "SELECT name, record FROM hold WHERE record >= ?1 AND record <= ?2 ORDER BY record, name",
        &[first.to_sql(), last.to_sql()],
    )
}
