//! Reads of the tables, as typed rows.
//!
//! Refused as no archive is a column of another kind, a number that is negative or 2^32 or more, or a flag that is
//! neither 0 nor 1. The other refusals are no memory and the errors of `sqlite`.

ghost use Rattle.std.specs.Prelude.{◌≡◌, map};
ghost use Rattle.std.specs.List.{AllByRecursion};
ghost use Rattle.record_tables.specs.Tables.{HasCommonTables, IsArchiveSchema};
ghost use Rattle.record_tables.specs.Rows.{Tables, Stores, StoresCommon, AreKeyed};
ghost use Rattle.record_tables.specs.Reads.{FitsRecord, FitsNumber, FitsHold, FitsRule, AreHolds, ArePairs, AreClassRows, AreRules, numbers_of, ForRows};
ghost use Rattle.record_reads.specs.Lookups.{WasOpenOnNoArchive};
ghost use Rattle.record_reads.specs.Quiet.{ReadsQuietly};
ghost use Rattle.record_reads.specs.RawRows.{AreTypedRecords, AreTypedMessages, AreTypedHolds, AreTypedClasses, AreTypedSchedules};
ghost use Rattle.record_tables.specs.CodeRows.{record_of, hold_entry_of, pair_of, class_entry_of, rule_of};
ghost use Rattle.record_tables.specs.Steps.{Learns, Rejects};

use crate::query::read_all;
use record_tables::fault::Fault;
use record_tables::rows::{ClassRow, HoldRow, RecordRow, ScheduleRow, SettingRow};
use sqlite::{Alter, Connection};
use std::alloc::Global;

/// All records, in the order of their numbers.
pub fn records<S: Alter>(alloc: Global, conn: &mut Connection<S>) -> Result<Vec<RecordRow>, Fault>
    ensures all { Learns S.Store conn.old conn.new result
        (λ db all. (t : Tables) → StoresCommon db t → AreKeyed t →
        map record_of all.items ≡ t.records) }
    ensures none { Rejects S.Store conn.old conn.new result
        (λ db. (t : Tables) → StoresCommon db t → AreKeyed t →
        AllByRecursion FitsRecord t.records → ⊥) }
    ensures seen { WasOpenOnNoArchive S.Store conn.old conn.new result }
    ensures typed { Learns S.Store conn.old conn.new result
        (λ db all. HasCommonTables db.schema → AreTypedRecords db) }
    ensures frame { ReadsQuietly S.Store conn.old conn.new result HasCommonTables }
{
    read_all(
        alloc,
        conn,
        "SELECT number, message, path, day, destroyed FROM record ORDER BY number",
        &[],
    )
}

/// The numbers of all messages, in order.
pub fn message_numbers<S: Alter>(alloc: Global, conn: &mut Connection<S>) -> Result<Vec<u32>, Fault>
    ensures all { Learns S.Store conn.old conn.new result
        (λ db all. (t : Tables) → StoresCommon db t → AreKeyed t →
        all.items ≡ numbers_of t) }
    ensures none { Rejects S.Store conn.old conn.new result
        (λ db. (t : Tables) → StoresCommon db t → AreKeyed t →
        AllByRecursion FitsNumber (numbers_of t) → ⊥) }
    ensures typed { Learns S.Store conn.old conn.new result
        (λ db all. HasCommonTables db.schema → AreTypedMessages db) }
    ensures frame { ReadsQuietly S.Store conn.old conn.new result HasCommonTables }
{
    read_all(
        alloc,
        conn,
        "SELECT number FROM message ORDER BY number",
        &[],
    )
}

/// All holds, by record and then in byte order of their names.
pub fn holds<S: Alter>(alloc: Global, conn: &mut Connection<S>) -> Result<Vec<HoldRow>, Fault>
    ensures all { Learns S.Store conn.old conn.new result
        (λ db all. ForRows StoresCommon AreHolds db (λ hs. map hold_entry_of all.items ≡ hs)) }
    ensures none { Rejects S.Store conn.old conn.new result
        (λ db. ForRows StoresCommon AreHolds db (λ hs. AllByRecursion FitsHold hs → ⊥)) }
    ensures typed { Learns S.Store conn.old conn.new result
        (λ db all. HasCommonTables db.schema → AreTypedHolds db) }
    ensures frame { ReadsQuietly S.Store conn.old conn.new result HasCommonTables }
{
    read_all(
        alloc,
        conn,
        "SELECT name, record FROM hold ORDER BY record, name",
        &[],
    )
}

/// All settings, in byte order of their keys.
pub fn settings<S: Alter>(alloc: Global, conn: &mut Connection<S>) -> Result<Vec<SettingRow>, Fault>
    ensures all { Learns S.Store conn.old conn.new result
        (λ db all. ForRows StoresCommon ArePairs db (λ ps. map pair_of all.items ≡ ps)) }
    ensures none { Rejects S.Store conn.old conn.new result
        (λ db. ForRows StoresCommon ArePairs db (λ ps. ⊥)) }
    ensures frame { ReadsQuietly S.Store conn.old conn.new result HasCommonTables }
{
    read_all(alloc, conn, "SELECT key, value FROM meta ORDER BY key", &[])
}

/// All classes, in byte order of their paths.
pub fn classes<S: Alter>(alloc: Global, conn: &mut Connection<S>) -> Result<Vec<ClassRow>, Fault>
    ensures all { Learns S.Store conn.old conn.new result
        (λ db all. ForRows StoresCommon AreClassRows db (λ cs. map class_entry_of all.items ≡ cs)) }
    ensures none { Rejects S.Store conn.old conn.new result
        (λ db. ForRows StoresCommon AreClassRows db (λ cs. ⊥)) }
    ensures typed { Learns S.Store conn.old conn.new result
        (λ db all. HasCommonTables db.schema → AreTypedClasses db) }
    ensures frame { ReadsQuietly S.Store conn.old conn.new result HasCommonTables }
{
    read_all(
        alloc,
        conn,
        "SELECT path, is_open, schedule FROM class ORDER BY path",
        &[],
    )
}

/// All schedules, in byte order of their paths; that of the whole plan has the empty path.
pub fn schedules<S: Alter>(
    alloc: Global,
    conn: &mut Connection<S>,
) -> Result<Vec<ScheduleRow>, Fault>
    ensures all { Learns S.Store conn.old conn.new result
        (λ db all. ForRows Stores AreRules db (λ rs. map rule_of all.items ≡ rs)) }
    ensures none { Rejects S.Store conn.old conn.new result
        (λ db. ForRows Stores AreRules db (λ rs. AllByRecursion FitsRule rs → ⊥)) }
    ensures typed { Learns S.Store conn.old conn.new result
        (λ db all. IsArchiveSchema db.schema → AreTypedSchedules db) }
    ensures frame { ReadsQuietly S.Store conn.old conn.new result IsArchiveSchema }
{
    read_all(
        alloc,
        conn,
        "SELECT path, count, unit, action, year_end FROM schedule ORDER BY path",
        &[],
    )
}
