//! Fields by name, and whether their values match a key.

ghost use Rattle.std.specs.Prelude.{◌≡◌, ◌<◌, length, map, All, IfOk};
ghost use Rattle.std.specs.List.{list_any, find};
ghost use Rattle.sieve_meaning.specs.Truth.{has_field as has_field_of};
ghost use Rattle.sieve_meaning.specs.Matching.{key_matches as key_matches_by};
ghost use Rattle.filing_table.specs.Machine.{values_of, comparison_holds};
ghost use Rattle.mail_case.specs.Fields.{field_at};
ghost use Rattle.filing_machine.specs.Tops.{value_matches};

use crate::places::FieldPlaces;
use filing_table::comparison_of;
use mail_case::Case;
use sieve_match::{Comparator, MatchType, key_matches};
use std::alloc::{AllocError, Global};

/// Whether the header has a field of this name.
pub fn has_field<C: Case>(case: &C, name: &[u8]) -> bool
    ensures { result ≡ has_field_of (C.facts case.now) name.now }
{
    for field in 0..case.field_count() {
        if case.is_named(field, name) {
            return true;
        }
    }
    false
}

/// The fields of this name, in the order of the message.
pub fn fields_named<C: Case>(
    alloc: Global,
    case: &C,
    name: &[u8],
) -> Result<FieldPlaces, AllocError>
    ensures values { IfOk result (λ v. map (λ place. (field_at (C.facts case.now) place).value) v ≡
        values_of (C.facts case.now) name.now) }
    ensures in_case { IfOk result (λ v. All (λ place. place < length (C.facts case.now).fields) v) }
{
    let mut fields = FieldPlaces::new(alloc);
    for field in 0..case.field_count() {
        if case.is_named(field, name) {
            fields.push(field)?;
        }
    }
    Ok(fields)
}

/// Whether the value of one of the fields matches a key. `comparison` is the first operand of a `Match`.
#[tactic(auto, using(crate::proofs::FindLemmas::is_some_find, crate::proofs::FindLemmas::any_of_map))]
pub fn any_matches<C: Case>(case: &C, fields: &FieldPlaces, comparison: u8, key: &[u8]) -> bool
    requires { All (λ place. place < length (C.facts case.now).fields) fields.now }
    ensures { result ≡ list_any (comparison_holds comparison key.now)
        (map (λ place. (field_at (C.facts case.now) place).value) fields.now) }
{
    first_match(case, fields, comparison, key).is_some()
}

/// The first of the fields whose value matches a key, by the number of the comparison; none where no value does.
pub fn first_match<C: Case>(
    case: &C,
    fields: &FieldPlaces,
    comparison: u8,
    key: &[u8],
) -> Option<usize>
    requires { All (λ place. place < length (C.facts case.now).fields) fields.now }
    ensures { result ≡ find (value_matches (C.facts case.now) comparison key.now) fields.now }
{
    let (match_type, comparator) = comparison_of(comparison);
    first_value_match(case, fields, match_type, comparator, key)
}

/// Whether a key matches a value. A value that is shorter than a key of `:is` or `:contains` is refused without a
/// search.
fn is_match(match_type: MatchType, key: &[u8], value: &[u8], comparator: Comparator) -> bool
    ensures { result ≡ key_matches_by match_type comparator key.now value.now }
{
    let is_shorter = value.len() < key.len();
    match match_type {
        MatchType::Is | MatchType::Contains if is_shorter => false,
        _ => key_matches(match_type, key, value, comparator),
    }
}

/// The first of the fields whose value matches a key.
fn first_value_match<C: Case>(
    case: &C,
    fields: &FieldPlaces,
    match_type: MatchType,
    comparator: Comparator,
    key: &[u8],
) -> Option<usize>
    requires { All (λ place. place < length (C.facts case.now).fields) fields.now }
    ensures { result ≡ find (λ place. key_matches_by match_type comparator key.now
        (field_at (C.facts case.now) place).value) fields.now }
{
    for index in 0..fields.count() {
        let field = fields.at(index);
        if is_match(match_type, key, case.value(field), comparator) {
            return Some(field);
        }
    }
    None
}
