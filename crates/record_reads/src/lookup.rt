//! Rows that are looked up by their keys. Outside a transaction nothing changes.
//!
//! Refused as no archive is a column of another kind, a number that is negative or 2^32 or more, or a flag that is
//! neither 0 nor 1. The other refusals are no memory and the errors of `sqlite`.

ghost use Rattle.std.specs.Prelude.{◌≡◌, option_map, OnOk, IsTrue};
ghost use Rattle.std.specs.List.{AllByRecursion};
ghost use Rattle.sqlite.specs.State.{HasCleanDisk};
ghost use Rattle.sqlite.specs.Held.{state};
ghost use Rattle.record_tables.specs.Rows.{Tables, Stores, AreKeyed};
ghost use Rattle.record_tables.specs.Reads.{FitsRecord};
ghost use Rattle.record_reads.specs.Lookups.{Looks, WasOpenOnNoArchive, record_with, body_with, has_hold_of};
ghost use Rattle.record_tables.specs.CodeRows.{record_of};
ghost use Rattle.record_tables.specs.Steps.{Learns, Rejects};

use crate::query::{read_all, rows_of};
use record_tables::fault::Fault;
use record_tables::rows::RecordRow;
use sqlite::types::{ToSql, ValueRef};
use sqlite::{Alter, Connection, Error};
use std::alloc::Global;

/// The record with a number, live or destroyed; `None` where there is none.
pub fn record_by_number<S: Alter>(
    alloc: Global,
    conn: &mut Connection<S>,
    number: u32,
) -> Result<Option<RecordRow>, Fault>
    ensures record { Learns S.Store conn.old conn.new result
        (λ db r. (t : Tables) → Stores db t → AreKeyed t →
        option_map record_of r ≡ record_with number t) }
    ensures none { Rejects S.Store conn.old conn.new result
        (λ db. (t : Tables) → Stores db t → AreKeyed t →
        AllByRecursion FitsRecord t.records → ⊥) }
    ensures seen { WasOpenOnNoArchive S.Store conn.old conn.new result }
    ensures open { HasCleanDisk (state S.Store conn.new) → OnOk result
        (IsTrue (state S.Store conn.old).is_open × IsTrue (state S.Store conn.new).is_open) }
    ensures looks { Looks S.Store conn.old conn.new }
{
    let mut records: Vec<RecordRow> = read_all(
        alloc,
        conn,
        "SELECT number, message, path, day, destroyed FROM record WHERE number = ?1",
        &[number.to_sql()],
    )?;
    Ok(records.pop())
}

/// The octets of the message with a number; `None` where there is none.
pub fn message_body<S: Alter>(
    alloc: Global,
    conn: &mut Connection<S>,
    number: u32,
) -> Result<Option<Vec<u8>>, Fault>
    ensures body { Learns S.Store conn.old conn.new result
        (λ db b. (t : Tables) → Stores db t → AreKeyed t →
        option_map (λ v. v.items) b ≡ body_with number t) }
    ensures none { Rejects S.Store conn.old conn.new result
        (λ db. (t : Tables) → Stores db t → AreKeyed t → ⊥) }
    ensures seen { WasOpenOnNoArchive S.Store conn.old conn.new result }
    ensures open { HasCleanDisk (state S.Store conn.new) → OnOk result
        (IsTrue (state S.Store conn.old).is_open × IsTrue (state S.Store conn.new).is_open) }
    ensures looks { Looks S.Store conn.old conn.new }
{
    let mut bodies: Vec<Vec<u8>> = read_all(
        alloc,
        conn,
        "SELECT body FROM message WHERE number = ?1",
        &[number.to_sql()],
    )?;
    Ok(bodies.pop())
}

/// Whether there is a hold of that name on the record with a number. Refused with the error of `sqlite` alone.
pub fn has_hold<S: Alter>(conn: &mut Connection<S>, name: &[u8], number: u32) -> Result<bool, Error>
    ensures there { Learns S.Store conn.old conn.new result
        (λ db b. (t : Tables) → Stores db t → AreKeyed t →
        b ≡ has_hold_of name.now number t) }
    ensures open { HasCleanDisk (state S.Store conn.new) → OnOk result
        (IsTrue (state S.Store conn.old).is_open × IsTrue (state S.Store conn.new).is_open) }
    ensures looks { Looks S.Store conn.old conn.new }
{
    let rows = rows_of(
        conn,
        "SELECT record FROM hold WHERE name = ?1 AND record = ?2",
        &[ValueRef::Text(name), number.to_sql()],
    )?;
    Ok(!rows.is_empty())
}
