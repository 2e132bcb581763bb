//! Whether a database of version 2 has no tables but its own.

ghost use Rattle.std.specs.Prelude.{◌≡◌, ◌↔◌, ◌∷◌, [], IsTrue};
ghost use Rattle.record_tables.specs.Tables.{Foreign, HasNoReferences, IsArchiveSchema, IsFirstSchema, IsFree, key_index, due_index, archive_beside, archive_schema, no_schema, first_schema, first_schema_with_dues};

use crate::layout::{
    is_class_table, is_due_table, is_hold_table, is_key, is_message_table, is_meta_table,
    is_record_table, is_schedule_table,
};
use sqlite_schema::schema::{Index, Schema, Table};

fn is_key_index(index: &Index, name: &[u8], tree: u32, table: u32, key: &[usize]) -> bool
    ensures { IsTrue result ↔ (index.now ≡ key_index name.now tree table key.now) }
{
    index.name.as_slice() == name
        && index.tree == tree
        && index.table == table
        && is_key(&index.columns, key)
        && index.order.digits == 0
        && index.is_unique
}

fn is_due_index(index: &Index) -> bool
    ensures { IsTrue result ↔ (index.now ≡ due_index) }
{
    index.name.as_slice() == b"due_by_day".as_slice()
        && index.tree == 11
        && index.table == 10
        && is_key(&index.columns, [2, 0].as_slice())
        && index.order.digits == 0
        && !index.is_unique
}

fn are_key_indexes(hold: &Index, meta: &Index, class: &Index, schedule: &Index) -> bool
    ensures { IsTrue result ↔ (hold.now ∷ meta.now ∷ class.now ∷ schedule.now ∷ due_index ∷ []
        ≡ archive_schema.indexes) }
{
    is_key_index(hold, b"sqlite_autoindex_hold_1", 3, 2, [1, 2].as_slice())
        && is_key_index(meta, b"sqlite_autoindex_meta_1", 5, 4, [1].as_slice())
        && is_key_index(class, b"sqlite_autoindex_class_1", 7, 6, [1].as_slice())
        && is_key_index(
            schedule,
            b"sqlite_autoindex_schedule_1",
            9,
            8,
            [1].as_slice(),
        )
}

fn are_own_indexes(indexes: &[Index]) -> bool
    ensures { IsTrue result ↔ (indexes.now ≡ archive_schema.indexes) }
{
    match indexes {
        [hold, meta, class, schedule, due] => {
            are_key_indexes(hold, meta, class, schedule) && is_due_index(due)
        }
        _ => false,
    }
}

fn are_own_tables(tables: &[Table]) -> bool
    ensures { IsTrue result ↔ (tables.now ≡ archive_schema.tables) }
{
    match tables {
        [message, record, hold, meta, class, schedule, due] => {
            (is_message_table(message) && message.tree == 0)
                && (is_record_table(record) && record.tree == 1)
                && (is_hold_table(hold) && hold.tree == 2)
                && (is_meta_table(meta) && meta.tree == 4)
                && (is_class_table(class) && class.tree == 6)
                && (is_schedule_table(schedule) && schedule.tree == 8)
                && (is_due_table(due) && due.tree == 10)
        }
        _ => false,
    }
}

/// Whether a database has the tables and indexes of version 2 as this crate creates them, and no others.
pub fn is_alone(schema: &Schema) -> bool
    ensures { IsTrue result ↔ (schema.now ≡ archive_schema) }
{
    are_own_tables(schema.tables.as_slice())
        && are_own_indexes(schema.indexes.as_slice())
        && schema.views.is_empty()
}

/// Where the tables of version 2 come first and none of the others has a foreign key, they are an archive's.
pub fn first_tables_are_an_archive()
    ensures { (f : Foreign) → HasNoReferences f → IsArchiveSchema (archive_beside f) }
{}

/// A database without tables is free for an archive's.
pub fn no_tables_are_free()
    ensures { IsFree no_schema }
{}

/// The tables of version 1 as they were created are version 1's, with due days and without.
pub fn created_tables_are_version_1()
    ensures without_dues { IsFirstSchema first_schema }
    ensures with_dues { IsFirstSchema first_schema_with_dues }
{}
