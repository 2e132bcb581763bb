//! Whether a database has a table of events.

ghost use Rattle.std.specs.Prelude.{◌≡◌, ◌↔◌, IsTrue, codes};
ghost use Rattle.record_tables.specs.EventLayouts.{IsEventLayout};
ghost use Rattle.record_tables.specs.Events.{KeepsEvents, event_table};
ghost use Rattle.record_tables.specs.Layout.{IsTable};
ghost use Rattle.record_tables.specs.Tables.{Lacks, Stands};

use crate::layout::{is_column, is_keyed_table, table_of};
use sqlite_schema::schema::{Column, Kind, Schema, Table};

/// Whether a database has a table of events.
#[derive(Clone, Copy, PartialEq, Eq)]
pub enum EventLayout {
    /// No table has the name `event`.
    Absent,
    /// It has one.
    Present,
    /// A table of that name has other columns or another key.
    Other,
}

fn is_event_columns(columns: &[Column]) -> bool
    ensures { IsTrue result ↔ (columns.now ≡ event_table.columns) }
{
    match columns {
        [number, line, mark] => {
            is_column(number, b"number", Kind::Integer, false)
                && is_column(line, b"line", Kind::Text, true)
                && is_column(mark, b"mark", Kind::Text, true)
        }
        _ => false,
    }
}

fn is_event_table(table: &Table) -> bool
    ensures { IsTrue result ↔ IsTable event_table table.now }
{
    is_keyed_table(table, b"event") && is_event_columns(table.columns.as_slice())
}

fn layout_in(schema: &Schema) -> EventLayout
    ensures { IsEventLayout schema.now result }
{
    match table_of(schema, b"event") {
        None => EventLayout::Absent,
        Some(table) => {
            if is_event_table(table) {
                EventLayout::Present
            } else {
                EventLayout::Other
            }
        }
    }
}

/// Whether a schema has a table of events, by its name, columns and key.
pub fn event_layout_of(schema: &Schema) -> EventLayout
    ensures is { IsEventLayout schema.now result }
    ensures absent { Lacks schema.now (codes "event") → result ≡ EventLayout.Absent }
    ensures present { Stands schema.now event_table → result ≡ EventLayout.Present }
{
    let layout = layout_in(schema);
    layout
}
