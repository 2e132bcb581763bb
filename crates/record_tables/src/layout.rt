//! Which version's tables a database has.

ghost use Rattle.std.specs.Prelude.{◌≡◌, ◌↔◌, IsTrue, [], ◌∷◌, Some, None, option_map, drop, codes};
ghost use Rattle.record_tables.specs.Tables.{strict_column, keyed_table, uniquely_keyed_table, message_table, record_table, hold_table, meta_table, class_table, schedule_table, due_table, Stands, Lacks, HasNone, IsFirstSchema, IsArchiveSchema, table_of};
ghost use Rattle.record_tables.specs.Layouts.{TellsDues};
ghost use Rattle.record_tables.specs.Layout.{IsTable, HasTable, HasCommon, IsLayout};

use sqlite_items::Items;
use sqlite_schema::code::Terms;
use sqlite_schema::schema::{Column, Kind, Schema, Stamps, Table};
use sqlite_value::keys::Collation;
use sqlite_value::value::Value;

/// Which version's tables a database has.
#[derive(Clone, Copy, PartialEq, Eq)]
pub enum Layout {
    /// None: no table has one of the archive's names.
    Empty,
    /// Version 1, without due days.
    First,
    /// Version 1, with due days.
    FirstWithDues,
    /// Version 2.
    Second,
    /// Some of a version's tables, or tables with other columns or keys.
    Other,
}

fn is_null(value: &Value) -> bool
    ensures { IsTrue result ↔ (value.now ≡ Value.Null) }
{
    match value {
        Value::Null => true,
        _ => false,
    }
}

pub(crate) fn is_column(column: &Column, name: &[u8], kind: Kind, not_null: bool) -> bool
    ensures { IsTrue result ↔ (column.now ≡ strict_column name.now kind not_null) }
{
    column.name.as_slice() == name
        && column.kind == kind
        && column.is_strict
        && column.not_null == not_null
        && is_null(&column.default)
        && column.collation == Collation::Binary
}

fn is_no_terms(terms: &Terms) -> bool
    ensures { IsTrue result ↔ (terms.now ≡ []) }
{
    terms.roots.is_empty()
}

fn has_no_stamps(stamps: &Stamps) -> bool
    ensures { IsTrue result ↔ (stamps.now ≡ record { places = []; terms = []; formats = [] }) }
{
    stamps.places.is_empty() && is_no_terms(&stamps.terms) && stamps.formats.is_empty()
}

pub(crate) fn is_keyed_table(table: &Table, name: &[u8]) -> bool
    ensures { IsTrue result ↔ (table.now ≡ keyed_table name.now table.now.tree table.now.columns) }
{
    table.name.as_slice() == name
        && table.key == Some(0)
        && table.primary.as_slice() == [0].as_slice()
        && table.uniques.is_empty()
        && table.orders.is_empty()
        && is_no_terms(&table.checks)
        && table.references.is_empty()
        && table.computed.is_empty()
        && has_no_stamps(&table.stamps)
        && !table.is_counted
}

pub(crate) fn is_key(columns: &Items<usize>, key: &[usize]) -> bool
    ensures { IsTrue result ↔ (columns.now ≡ key.now) }
{
    columns.as_slice() == key
}

fn has_one_key(table: &Table, key: &[usize]) -> bool
    ensures { IsTrue result ↔ (table.now.uniques ≡ key.now ∷ []) }
{
    match table.uniques.as_slice() {
        [one] => is_key(one, key),
        _ => false,
    }
}

fn has_plain_order(table: &Table) -> bool
    ensures { IsTrue result ↔ (table.now.orders ≡ record { digits = 0 } ∷ []) }
{
    match table.orders.as_slice() {
        [one] => one.digits == 0,
        _ => false,
    }
}

fn is_uniquely_keyed_table(table: &Table, name: &[u8], key: &[usize]) -> bool
    ensures { IsTrue result
        ↔ (table.now ≡ uniquely_keyed_table name.now table.now.tree key.now table.now.columns) }
{
    table.name.as_slice() == name
        && table.key == None
        && table.primary.as_slice() == key
        && has_one_key(table, key)
        && has_plain_order(table)
        && is_no_terms(&table.checks)
        && table.references.is_empty()
        && table.computed.is_empty()
        && has_no_stamps(&table.stamps)
        && !table.is_counted
}

fn is_message_columns(columns: &[Column]) -> bool
    ensures { IsTrue result ↔ (columns.now ≡ message_table.columns) }
{
    match columns {
        [number, body] => {
            is_column(number, b"number", Kind::Integer, false)
                && is_column(body, b"body", Kind::Blob, true)
        }
        _ => false,
    }
}

fn is_record_columns(columns: &[Column]) -> bool
    ensures { IsTrue result ↔ (columns.now ≡ record_table.columns) }
{
    match columns {
        [number, message, path, day, destroyed] => {
            is_column(number, b"number", Kind::Integer, false)
                && is_column(message, b"message", Kind::Integer, true)
                && is_column(path, b"path", Kind::Text, true)
                && is_column(day, b"day", Kind::Integer, true)
                && is_column(destroyed, b"destroyed", Kind::Integer, true)
        }
        _ => false,
    }
}

fn is_hold_columns(columns: &[Column]) -> bool
    ensures { IsTrue result ↔ (columns.now ≡ hold_table.columns) }
{
    match columns {
        [name, held] => {
            is_column(name, b"name", Kind::Text, true)
                && is_column(held, b"record", Kind::Integer, true)
        }
        _ => false,
    }
}

fn is_meta_columns(columns: &[Column]) -> bool
    ensures { IsTrue result ↔ (columns.now ≡ meta_table.columns) }
{
    match columns {
        [key, value] => {
            is_column(key, b"key", Kind::Text, true) && is_column(value, b"value", Kind::Text, true)
        }
        _ => false,
    }
}

fn is_class_columns(columns: &[Column]) -> bool
    ensures { IsTrue result ↔ (columns.now ≡ class_table.columns) }
{
    match columns {
        [path, is_open, schedule] => {
            is_column(path, b"path", Kind::Text, true)
                && is_column(is_open, b"is_open", Kind::Integer, true)
                && is_column(schedule, b"schedule", Kind::Text, false)
        }
        _ => false,
    }
}

fn are_term_columns(columns: &[Column]) -> bool
    ensures { IsTrue result ↔ (columns.now ≡ drop 1 schedule_table.columns) }
{
    match columns {
        [count, unit, action, year_end] => {
            is_column(count, b"count", Kind::Integer, true)
                && is_column(unit, b"unit", Kind::Integer, true)
                && is_column(action, b"action", Kind::Integer, true)
                && is_column(year_end, b"year_end", Kind::Integer, true)
        }
        _ => false,
    }
}

fn is_schedule_columns(columns: &[Column]) -> bool
    ensures { IsTrue result ↔ (columns.now ≡ schedule_table.columns) }
{
    match columns {
        [path, terms @ ..] => is_column(path, b"path", Kind::Text, true) && are_term_columns(terms),
        _ => false,
    }
}

fn is_due_columns(columns: &[Column]) -> bool
    ensures { IsTrue result ↔ (columns.now ≡ due_table.columns) }
{
    match columns {
        [held, day] => {
            is_column(held, b"record", Kind::Integer, false)
                && is_column(day, b"day", Kind::Integer, true)
        }
        _ => false,
    }
}

pub(crate) fn is_message_table(table: &Table) -> bool
    ensures { IsTrue result ↔ IsTable message_table table.now }
{
    is_keyed_table(table, b"message") && is_message_columns(table.columns.as_slice())
}

pub(crate) fn is_record_table(table: &Table) -> bool
    ensures { IsTrue result ↔ IsTable record_table table.now }
{
    is_keyed_table(table, b"record") && is_record_columns(table.columns.as_slice())
}

pub(crate) fn is_hold_table(table: &Table) -> bool
    ensures { IsTrue result ↔ IsTable hold_table table.now }
{
    is_uniquely_keyed_table(table, b"hold", [1, 2].as_slice())
        && is_hold_columns(table.columns.as_slice())
}

pub(crate) fn is_meta_table(table: &Table) -> bool
    ensures { IsTrue result ↔ IsTable meta_table table.now }
{
    is_uniquely_keyed_table(table, b"meta", [1].as_slice())
        && is_meta_columns(table.columns.as_slice())
}

pub(crate) fn is_class_table(table: &Table) -> bool
    ensures { IsTrue result ↔ IsTable class_table table.now }
{
    is_uniquely_keyed_table(table, b"class", [1].as_slice())
        && is_class_columns(table.columns.as_slice())
}

pub(crate) fn is_schedule_table(table: &Table) -> bool
    ensures { IsTrue result ↔ IsTable schedule_table table.now }
{
    is_uniquely_keyed_table(table, b"schedule", [1].as_slice())
        && is_schedule_columns(table.columns.as_slice())
}

pub(crate) fn is_due_table(table: &Table) -> bool
    ensures { IsTrue result ↔ IsTable due_table table.now }
{
    is_keyed_table(table, b"due_day") && is_due_columns(table.columns.as_slice())
}

pub(crate) fn table_of<'a>(schema: &'a Schema, name: &[u8]) -> Option<&'a Table>
    ensures { option_map (λ t. t.now) result ≡ table_of schema.now name.now }
{
    match schema.table_named(name) {
        Some(at) => schema.tables.get(at),
        None => None,
    }
}

fn lacks(schema: &Schema, name: &[u8]) -> bool
    ensures { IsTrue result ↔ Lacks schema.now name.now }
{
    table_of(schema, name).is_none()
}

fn has_message_table(schema: &Schema) -> bool
    ensures { IsTrue result ↔ HasTable schema.now message_table }
{
    match table_of(schema, b"message") {
        Some(table) => is_message_table(table),
        None => false,
    }
}

fn has_record_table(schema: &Schema) -> bool
    ensures { IsTrue result ↔ HasTable schema.now record_table }
{
    match table_of(schema, b"record") {
        Some(table) => is_record_table(table),
        None => false,
    }
}

fn has_hold_table(schema: &Schema) -> bool
    ensures { IsTrue result ↔ HasTable schema.now hold_table }
{
    match table_of(schema, b"hold") {
        Some(table) => is_hold_table(table),
        None => false,
    }
}

fn has_meta_table(schema: &Schema) -> bool
    ensures { IsTrue result ↔ HasTable schema.now meta_table }
{
    match table_of(schema, b"meta") {
        Some(table) => is_meta_table(table),
        None => false,
    }
}

fn has_class_table(schema: &Schema) -> bool
    ensures { IsTrue result ↔ HasTable schema.now class_table }
{
    match table_of(schema, b"class") {
        Some(table) => is_class_table(table),
        None => false,
    }
}

fn has_schedule_table(schema: &Schema) -> bool
    ensures { IsTrue result ↔ HasTable schema.now schedule_table }
{
    match table_of(schema, b"schedule") {
        Some(table) => is_schedule_table(table),
        None => false,
    }
}

fn has_due_table(schema: &Schema) -> bool
    ensures { IsTrue result ↔ HasTable schema.now due_table }
{
    match table_of(schema, b"due_day") {
        Some(table) => is_due_table(table),
        None => false,
    }
}

fn has_none(schema: &Schema) -> bool
    ensures { IsTrue result ↔ HasNone schema.now }
{
    lacks(schema, b"message")
        && lacks(schema, b"record")
        && lacks(schema, b"hold")
        && lacks(schema, b"meta")
        && lacks(schema, b"class")
        && lacks(schema, b"schedule")
        && lacks(schema, b"due_day")
}

fn has_common(schema: &Schema) -> bool
    ensures { IsTrue result ↔ HasCommon schema.now }
{
    has_message_table(schema)
        && has_record_table(schema)
        && has_hold_table(schema)
        && has_meta_table(schema)
        && has_class_table(schema)
}

/// Whether there is a table of due days, which says of version 1 whether it has due days.
pub(crate) fn has_dues(schema: &Schema) -> bool
    ensures { TellsDues schema.now result }
{
    let lacks_dues = lacks(schema, b"due_day");
    !lacks_dues
}

fn layout_in(schema: &Schema) -> Layout
    ensures { IsLayout schema.now result }
{
    if has_none(schema) {
        return Layout::Empty;
    }
    if !has_common(schema) {
        return Layout::Other;
    }
    if has_schedule_table(schema) && has_due_table(schema) {
        Layout::Second
    } else if lacks(schema, b"schedule") && has_due_table(schema) {
        Layout::FirstWithDues
    } else if lacks(schema, b"schedule") && lacks(schema, b"due_day") {
        Layout::First
    } else {
        Layout::Other
    }
}

/// Which version's tables a schema has, by their names, columns and keys. Tables of other names are ignored, wherever
/// they stand. The answer is `Other` where only some of a version's tables are there, or one has other columns or
/// keys.
pub fn layout_of(schema: &Schema) -> Layout
    ensures is { IsLayout schema.now result }
    ensures empty { HasNone schema.now → result ≡ Layout.Empty }
    ensures first { IsFirstSchema schema.now → Lacks schema.now (codes "due_day")
        → result ≡ Layout.First }
    ensures first_with_dues { IsFirstSchema schema.now → Stands schema.now due_table
        → result ≡ Layout.FirstWithDues }
    ensures second { IsArchiveSchema schema.now → result ≡ Layout.Second }
{
    let layout = layout_in(schema);
    layout
}
