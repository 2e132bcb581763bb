//! The message of a live record, found by the record's number in one query.

ghost use Rattle.std.specs.Prelude.{◌≡◌, option_map, OnOk, IsTrue};
ghost use Rattle.sqlite.specs.State.{HasCleanDisk};
ghost use Rattle.sqlite.specs.Held.{state};
ghost use Rattle.record_tables.specs.Rows.{Tables, Stores, AreKeyed};
ghost use Rattle.record_reads.specs.Lookups.{Looks, WasOpenOnNoArchive, live_body_with};
ghost use Rattle.record_tables.specs.Steps.{Learns, Rejects};

use crate::query::read_all;
use record_tables::fault::Fault;
use sqlite::types::ToSql;
use sqlite::{Alter, Connection};
use std::alloc::Global;

/// The octets of the message of the record with a number; `None` where there is no such record, where it is destroyed, and
/// where its message is not there.
///
/// Refused as no archive is a column of another kind. The other refusals are no memory and the errors of `sqlite`. Outside
/// a transaction nothing changes.
pub fn live_body<S: Alter>(
    alloc: Global,
    conn: &mut Connection<S>,
    number: u32,
) -> Result<Option<Vec<u8>>, Fault>
    ensures body { Learns S.Store conn.old conn.new result
        (λ db b. (t : Tables) → Stores db t → AreKeyed t →
        option_map (λ v. v.items) b ≡ live_body_with number t) }
    ensures none { Rejects S.Store conn.old conn.new result
        (λ db. (t : Tables) → Stores db t → AreKeyed t → ⊥) }
    ensures seen { WasOpenOnNoArchive S.Store conn.old conn.new result }
    ensures open { HasCleanDisk (state S.Store conn.new) → OnOk result
        (IsTrue (state S.Store conn.old).is_open × IsTrue (state S.Store conn.new).is_open) }
    ensures looks { Looks S.Store conn.old conn.new }
{
    let mut bodies: Vec<Vec<u8>> = read_all(
        alloc,
        conn,
        "SELECT message.body FROM record JOIN message ON message.number = record.message WHERE record.number = ?1 AND record.destroyed = 0",
        &[number.to_sql()],
    )?;
    Ok(bodies.pop())
}
