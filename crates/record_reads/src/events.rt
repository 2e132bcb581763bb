//! Reads of the table of events.
//!
//! Refused as no archive is a column of another kind, or a number that is negative or 2^32 or more. The other
//! refusals are no memory and the errors of `sqlite`.

ghost use Rattle.std.specs.Prelude.{◌≡◌, List, map, take, option_map, OnOk, IsTrue};
ghost use Rattle.std.specs.List.{AllByRecursion};
ghost use Rattle.sqlite.specs.State.{HasCleanDisk};
ghost use Rattle.sqlite.specs.Held.{state};
ghost use Rattle.record_tables.specs.Events.{Event, StoresEvents};
ghost use Rattle.record_reads.specs.Events.{FitsEvent, ReadsEvent, event_of, events_from as from_number, last_of};
ghost use Rattle.record_reads.specs.Lookups.{Looks};
ghost use Rattle.record_tables.specs.Steps.{Learns, Rejects};

use crate::cells::{number_at, text_at};
use crate::query::read_all;
use crate::typed::FromRow;
use record_tables::fault::Fault;
use sqlite::types::ToSql;
use sqlite::{Alter, Connection, Row};
use std::alloc::Global;

/// A row of the table `event`: the number of an event, its line, and the mark of the chain up to it.
#[derive(Drop)]
pub struct EventRow {
    pub number: u32,
    pub line: Vec<u8>,
    pub mark: Vec<u8>,
}

impl FromRow for EventRow {
    ghost reads = { λ row r. ReadsEvent row (event_of r) };

    ghost is_readable = { λ row. (e : Event) × (FitsEvent e × ReadsEvent row e) };

    fn from_row(alloc: Global, row: &Row) -> Result<EventRow, Fault> {
        let number = number_at(row, 0)?;
        let line = text_at(alloc, row, 1)?;
        let mark = text_at(alloc, row, 2)?;
        Ok(EventRow { number, line, mark })
    }
}

/// The event with the greatest number; `None` where there is none. Only this row is looked at.
pub fn last_event<S: Alter>(
    alloc: Global,
    conn: &mut Connection<S>,
) -> Result<Option<EventRow>, Fault>
    ensures last { Learns S.Store conn.old conn.new result
        (λ db r. (es : List Event) → StoresEvents db es → option_map event_of r ≡ last_of es) }
    ensures none { Rejects S.Store conn.old conn.new result
        (λ db. (es : List Event) → StoresEvents db es → AllByRecursion FitsEvent es → ⊥) }
    ensures open { HasCleanDisk (state S.Store conn.new) → OnOk result
        (IsTrue (state S.Store conn.old).is_open × IsTrue (state S.Store conn.new).is_open) }
    ensures looks { Looks S.Store conn.old conn.new }
{
    let mut events: Vec<EventRow> = read_all(
        alloc,
        conn,
        "SELECT number, line, mark FROM event ORDER BY number DESC LIMIT 1",
        &[],
    )?;
    Ok(events.pop())
}

/// The events from a number on, in the order of their numbers, at most `most` of them. Only these rows are looked at.
pub fn events_from<S: Alter>(
    alloc: Global,
    conn: &mut Connection<S>,
    from: u32,
    most: u32,
) -> Result<Vec<EventRow>, Fault>
    ensures all { Learns S.Store conn.old conn.new result
        (λ db all. (es : List Event) → StoresEvents db es →
        map event_of all.items ≡ take most (from_number from es)) }
    ensures none { Rejects S.Store conn.old conn.new result
        (λ db. (es : List Event) → StoresEvents db es →
        AllByRecursion FitsEvent (take most (from_number from es)) → ⊥) }
    ensures open { HasCleanDisk (state S.Store conn.new) → OnOk result
        (IsTrue (state S.Store conn.old).is_open × IsTrue (state S.Store conn.new).is_open) }
    ensures looks { Looks S.Store conn.old conn.new }
{
    read_all(
        alloc,
        conn,
        "SELECT number, line, mark FROM event WHERE number >= ?1 ORDER BY number LIMIT ?2",
        &[from.to_sql(), most.to_sql()],
    )
}
