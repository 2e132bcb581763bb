//! A comparison of due days with those that are stored.

ghost use Rattle.std.specs.Prelude.{◌≡◌, map};
ghost use Rattle.std.specs.Bool.{Decides};
ghost use Rattle.std.specs.Cmp.Lexicographic.{pointwise};
ghost use Rattle.sqlite.specs.Order.{column};
ghost use Rattle.record_tables.specs.Tables.{IsArchiveSchema};
ghost use Rattle.record_tables.specs.Rows.{Tables, Stores, AreKeyed};
ghost use Rattle.record_reads.specs.StoredDues.{is_number, shows_due};
ghost use Rattle.record_reads.specs.Quiet.{ReadsQuietly};
ghost use Rattle.record_tables.specs.CodeRows.{due_of};
ghost use Rattle.record_tables.specs.Steps.{Learns};

use crate::query::rows_of;
use record_tables::rows::DueRow;
use sqlite::types::ValueRef;
use sqlite::{Alter, Connection, Error, Row};

fn is_number_at(row: &Row, at: usize, number: u32) -> bool
    ensures { result ≡ is_number (column row.now at) number }
{
    match row.get_ref(at) {
        Ok(ValueRef::Int(found)) => found == i64::from(number),
        _ => false,
    }
}

fn shows_due(row: &Row, due: &DueRow) -> bool
    ensures { result ≡ shows_due row.now (due_of due.now) }
{
    is_number_at(row, 0, due.record) && is_number_at(row, 1, due.day)
}

/// Whether the rows are those of these due days, in this order.
fn show_dues(rows: &[Row], dues: &[DueRow]) -> bool
    ensures { result ≡ pointwise shows_due rows.now (map due_of dues.now) }
{
    if rows.len() != dues.len() {
        return false;
    }
    for i in 0..rows.len() {
        if !shows_due(&rows[i], &dues[i]) {
            return false;
        }
    }
    true
}

/// Whether the stored due days are these, in the order of their records. All rows are compared, whatever their
/// columns hold.
///
/// Refused with the error of `sqlite` alone.
pub fn are_dues<S: Alter>(conn: &mut Connection<S>, dues: &[DueRow]) -> Result<bool, Error>
    ensures are { Learns S.Store conn.old conn.new result
        (λ db b. (t : Tables) → Stores db t → AreKeyed t →
        Decides b (t.dues ≡ map due_of dues.now)) }
    ensures frame { ReadsQuietly S.Store conn.old conn.new result IsArchiveSchema }
{
    let rows = rows_of(conn, "SELECT record, day FROM due_day ORDER BY record", &[])?;
    Ok(show_dues(rows.as_slice(), dues))
}
