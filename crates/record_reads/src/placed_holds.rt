//! The holds in the order in which they were placed.
//!
//! Refused as no archive is a column of another kind, or a number that is negative or 2^32 or more. The other
//! refusals are no memory and the errors of `sqlite`.

ghost use Rattle.std.specs.Prelude.{◌≡◌, map};
ghost use Rattle.std.specs.List.{AllByRecursion};
ghost use Rattle.record_tables.specs.Tables.{IsArchiveSchema};
ghost use Rattle.record_tables.specs.Rows.{Tables, Stores, AreKeyed};
ghost use Rattle.record_tables.specs.Reads.{hold_entry, FitsHold};
ghost use Rattle.record_tables.specs.CodeRows.{hold_entry_of};
ghost use Rattle.record_reads.specs.Quiet.{ReadsQuietly};
ghost use Rattle.record_tables.specs.Steps.{Learns, Rejects};

use crate::query::read_all;
use record_tables::fault::Fault;
use record_tables::rows::HoldRow;
use sqlite::{Alter, Connection};
use std::alloc::Global;

/// All holds, in the order of their rowids, in which they were placed.
pub fn placed_holds<S: Alter>(
    alloc: Global,
    conn: &mut Connection<S>,
) -> Result<Vec<HoldRow>, Fault>
    ensures all { Learns S.Store conn.old conn.new result
        (λ db all. (t : Tables) → Stores db t → AreKeyed t →
        map hold_entry_of all.items ≡ map hold_entry t.holds) }
    ensures none { Rejects S.Store conn.old conn.new result
        (λ db. (t : Tables) → Stores db t → AreKeyed t →
        AllByRecursion FitsHold (map hold_entry t.holds) → ⊥) }
    ensures frame { ReadsQuietly S.Store conn.old conn.new result IsArchiveSchema }
{
    read_all(
        alloc,
        conn,
        "SELECT name, record FROM hold ORDER BY rowid",
        &[],
    )
}
