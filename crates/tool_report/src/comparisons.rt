//! What a test looked at.

ghost use Rattle.std.specs.Prelude.{◌≡◌, ◌&&◌, true, option_map, IfOk, IfSome, position};
ghost use Rattle.std.specs.List.{find};
ghost use Rattle.sieve_syntax.specs.Arguments.{strings_of};
ghost use Rattle.sieve_meaning.specs.Matching.{key_matches as matches};
ghost use Rattle.sieve_evaluator.specs.Case.{has_some_name, has_some_match};
ghost use Rattle.tool_report.specs.Comparisons.{places_where};

use sieve_evaluator::{BorrowedField, has_listed_key, has_listed_name};
use sieve_match::key_matches;
use sieve_meaning::{Comparator, MatchType};
use sieve_syntax::StringList;
use std::alloc::{AllocError, Global};

/// The places in the header, from 0, of the fields that a test compares: those that have one of its names.
pub fn compared_fields(
    alloc: Global,
    fields: &[BorrowedField<'_>],
    names: &StringList,
) -> Result<Vec<usize>, AllocError>
    ensures { IfOk result
        (λ v. v.items ≡ places_where (has_some_name (strings_of names.now)) 0 fields.now) }
{
    let mut places = Vec::new(alloc);
    for (place, field) in fields.iter().enumerate() {
        if has_listed_name(field, names) {
            places.push(place)?;
        }
    }
    Ok(places)
}

/// The place in the header, from 0, of the first field that makes a test true; none where no field does.
pub fn deciding_field(
    fields: &[BorrowedField<'_>],
    names: &StringList,
    keys: &StringList,
    how: MatchType,
    comparator: Comparator,
) -> Option<usize>
    ensures { result ≡ position (λ f. has_some_name (strings_of names.now) f
        && has_some_match how comparator (strings_of keys.now) f) fields.now }
{
    fields.iter().position(|field| has_listed_name(field, names)
        && has_listed_key(field, keys, how, comparator))
}

/// The first key that a value matches; none where it matches no key.
pub fn deciding_key<'k>(
    value: &[u8],
    keys: &'k StringList,
    how: MatchType,
    comparator: Comparator,
) -> Option<&'k [u8]>
    ensures first { option_map (λ k. k.now) result
        ≡ find (λ key. matches how comparator key value.now) (strings_of keys.now) }
    ensures matched { IfSome result (λ k. matches how comparator k.now value.now ≡ true) }
{
    let first = keys.first().as_slice();
    if key_matches(how, first, value, comparator) {
        return Some(first);
    }
    for key in keys.others() {
        if key_matches(how, key.as_slice(), value, comparator) {
            return Some(key.as_slice());
        }
    }
    None
}
