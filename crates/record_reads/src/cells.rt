//! One column of a row, as a value.

ghost use Rattle.std.specs.Prelude.{◌≡◌, ◌≢◌, ◌↔◌, ◌<◌, ◌^◌, ℕ, List, Bool, pos, IsTrue, IfOk, IfErr};
ghost use Rattle.sqlite.specs.Order.{column};
ghost use Rattle.sqlite.specs.declared.types.Value.TheVariants.{Null, Int, Text as Words, Blob as Octets};
ghost use Rattle.record_tables.specs.Rows.{as_flag};

use record_tables::fault::Fault;
use sqlite::Row;
use sqlite::types::ValueRef;
use std::alloc::Global;

/// The number in a column, exactly where the column holds one from 0 to 2^32 - 1.
pub(crate) fn number_at(row: &Row, at: usize) -> Result<u32, Fault>
    ensures number { IfOk result (λ n. column row.now at ≡ Int (pos n)) }
    ensures none { IfErr result (λ f. (f ≡ Fault.NoArchive) ×
        ((n : ℕ) → n < 2 ^ 32 → column row.now at ≡ Int (pos n) → ⊥)) }
{
    match row.get_ref(at) {
        Ok(ValueRef::Int(n)) => match u32::try_from(n) {
            Ok(number) => Ok(number),
            Err(_) => Err(Fault::NoArchive),
        },
        _ => Err(Fault::NoArchive),
    }
}

/// The boolean in a column, exactly where the column holds 0 or 1.
pub(crate) fn flag_at(row: &Row, at: usize) -> Result<bool, Fault>
    ensures flag { IfOk result (λ b. column row.now at ≡ Int (as_flag b)) }
    ensures none { IfErr result
        (λ f. (f ≡ Fault.NoArchive) × ((b : Bool) → column row.now at ≡ Int (as_flag b) → ⊥)) }
{
    match row.get_ref(at) {
        Ok(ValueRef::Int(0)) => Ok(false),
        Ok(ValueRef::Int(1)) => Ok(true),
        _ => Err(Fault::NoArchive),
    }
}

/// The text in a column, exactly where the column holds one.
pub(crate) fn text_at(alloc: Global, row: &Row, at: usize) -> Result<Vec<u8>, Fault>
    ensures text { IfOk result (λ t. column row.now at ≡ Words t.items) }
    ensures none { IfErr result (λ f. f ≢ Fault.NoMemory → (f ≡ Fault.NoArchive) ×
        ((t : List ℕ) → column row.now at ≡ Words t → ⊥)) }
{
    match row.get_ref(at) {
        Ok(ValueRef::Text(octets)) => Ok(Vec::from_slice(alloc, octets)?),
        _ => Err(Fault::NoArchive),
    }
}

/// The octets in a column, exactly where the column holds some.
pub(crate) fn octets_at(alloc: Global, row: &Row, at: usize) -> Result<Vec<u8>, Fault>
    ensures octets { IfOk result (λ t. column row.now at ≡ Octets t.items) }
    ensures none { IfErr result (λ f. f ≢ Fault.NoMemory → (f ≡ Fault.NoArchive) ×
        ((t : List ℕ) → column row.now at ≡ Octets t → ⊥)) }
{
    match row.get_ref(at) {
        Ok(ValueRef::Blob(octets)) => Ok(Vec::from_slice(alloc, octets)?),
        _ => Err(Fault::NoArchive),
    }
}

/// Whether a column is NULL or missing.
pub(crate) fn is_null_at(row: &Row, at: usize) -> bool
    ensures { IsTrue result ↔ (column row.now at ≡ Null) }
{
    match row.get_ref(at) {
        Ok(ValueRef::Null) | Err(_) => true,
        Ok(_) => false,
    }
}
