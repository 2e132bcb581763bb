//! Whether a test is true in a case (RFC 5228, section 5).

ghost use Rattle.std.specs.Prelude.{◌≡◌, ◌&&◌, codes, false};
ghost use Rattle.std.specs.List.{list_any, list_all};
ghost use Rattle.sieve_syntax.specs.Arguments.{strings_of};
ghost use Rattle.sieve_syntax.specs.View.{test_of, inner_of};
ghost use Rattle.sieve_meaning.specs.Case.{is_named};
ghost use Rattle.sieve_meaning.specs.Reading.{test_in, only_in, tests_in, string_lists, exists_of, header_of, size_of, has_tag as has_tag_of, number_in, match_type as match_type_of, comparator_from};
ghost use Rattle.sieve_meaning.specs.Truth.{truth, all_true, some_true};
ghost use Rattle.sieve_evaluator.specs.Case.{field_of, facts_of, has_some_name, has_some_match};

use crate::case::{BorrowedCase, BorrowedField};
use crate::observer::Observer;
use class_paths::Paths;
use sieve_match::key_matches;
use sieve_meaning::reading::{comparator, has_tag, match_type, next_string_list, number};
use sieve_meaning::{Comparator, MatchType, TestWord, is_same_word, test_word};
use sieve_syntax::{Argument, StringList, StringText, Test, Tests};

/// Whether a field has one of some names.
fn is_any_name(field: &BorrowedField<'_>, names: &[StringText]) -> bool
    ensures { result ≡ has_some_name names.now field.now }
{
    names
        .iter()
        .any(|name| is_same_word(field.name, name.as_slice()))
}

/// Whether a field's value matches one of some keys.
fn is_any_match(
    field: &BorrowedField<'_>,
    keys: &[StringText],
    how: MatchType,
    comparator: Comparator,
) -> bool
    ensures { result ≡ has_some_match how comparator keys.now field.now }
{
    keys.iter().any(|key| key_matches(how, key.as_slice(), field.value.as_slice(), comparator))
}

/// Whether a field has one of the listed names.
pub fn has_listed_name(field: &BorrowedField<'_>, names: &StringList) -> bool
    ensures { result ≡ has_some_name (strings_of names.now) field.now }
{
    is_same_word(field.name, names.first().as_slice()) || is_any_name(field, names.others())
}

/// Whether a field's value matches one of the listed keys.
pub fn has_listed_key(
    field: &BorrowedField<'_>,
    keys: &StringList,
    how: MatchType,
    comparator: Comparator,
) -> bool
    ensures { result ≡ has_some_match how comparator (strings_of keys.now) field.now }
{
    key_matches(
        how,
        keys.first().as_slice(),
        field.value.as_slice(),
        comparator,
    ) || is_any_match(field, keys.others(), how, comparator)
}

/// Whether some field has one of the names, and a value that matches one of the keys.
fn is_any_field(
    fields: &[BorrowedField<'_>],
    names: &StringList,
    keys: &StringList,
    how: MatchType,
    comparator: Comparator,
) -> bool
    ensures { result ≡ list_any (λ f. has_some_name (strings_of names.now) f
        && has_some_match how comparator (strings_of keys.now) f) fields.now }
{
    fields.iter().any(|field| has_listed_name(field, names)
        && has_listed_key(field, keys, how, comparator))
}

/// `header` (RFC 5228, section 5.7): whether some field has one of the names, and a value that matches one of the keys.
fn is_header_true(case: &BorrowedCase<'_, Paths>, arguments: &[Argument]) -> bool
    ensures { result ≡ truth (facts_of case.now)
        (header_of (match_type_of arguments.now) (comparator_from false arguments.now)
        (string_lists false arguments.now)) }
{
    let Some((names, rest)) = next_string_list(arguments) else {
        return false;
    };
    let Some((keys, _)) = next_string_list(rest) else {
        return false;
    };
    is_any_field(
        case.fields.as_slice(),
        names,
        keys,
        match_type(arguments),
        comparator(arguments),
    )
}

fn has_field(fields: &[BorrowedField<'_>], name: &[u8]) -> bool
    ensures { result ≡ list_any (λ f. is_named name.now (field_of f)) fields.now }
{
    fields.iter().any(|field| is_same_word(field.name, name))
}

/// Whether a field is there for each name.
fn has_each_field(fields: &[BorrowedField<'_>], names: &[StringText]) -> bool
    ensures { result
        ≡ list_all (λ name. list_any (λ f. is_named name (field_of f)) fields.now) names.now }
{
    names.iter().all(|name| has_field(fields, name.as_slice()))
}

/// Whether a field is there for each listed name.
fn has_listed_fields(fields: &[BorrowedField<'_>], names: &StringList) -> bool
    ensures { result ≡ list_all
        (λ name. list_any (λ f. is_named name (field_of f)) fields.now) (strings_of names.now) }
{
    has_field(fields, names.first().as_slice()) && has_each_field(fields, names.others())
}

/// `exists` (RFC 5228, section 5.5): whether a field is there for each name.
fn is_exists_true(case: &BorrowedCase<'_, Paths>, arguments: &[Argument]) -> bool
    ensures { result ≡ truth (facts_of case.now) (exists_of (string_lists false arguments.now)) }
{
    match next_string_list(arguments) {
        None => true,
        Some((names, _)) => has_listed_fields(case.fields.as_slice(), names),
    }
}

/// `size` (RFC 5228, section 5.9): whether the message has more octets than the number under `:over`, otherwise fewer.
fn is_size_true(case: &BorrowedCase<'_, Paths>, arguments: &[Argument]) -> bool
    ensures { result ≡ truth (facts_of case.now)
        (size_of (has_tag_of (codes "over") arguments.now) (number_in arguments.now)) }
{
    let number = number(arguments);
    if has_tag(arguments, b"over") {
        number < case.size
    } else {
        case.size < number
    }
}

/// Whether a test is true in a case. A test of an unknown name is false.
#[cycle(truth)]
fn answer_of<O: Observer>(case: &BorrowedCase<'_, Paths>, test: &Test, observer: &mut O) -> bool
    ensures { result ≡ truth (facts_of case.now) (test_in (test_of test.now)) }
{
    let arguments = test.arguments.as_slice();
    match test_word(test.name.as_slice()) {
        TestWord::True => true,
        TestWord::False | TestWord::Other => false,
        TestWord::Not => !is_only_true(case, &test.tests, observer),
        TestWord::AllOf => are_all_true(case, &test.tests, observer),
        TestWord::AnyOf => is_some_true(case, &test.tests, observer),
        TestWord::Exists => is_exists_true(case, arguments),
        TestWord::Size => is_size_true(case, arguments),
        TestWord::Header => is_header_true(case, arguments),
    }
}

/// Whether a test is true in a case. The observer gets the test, its answer, and what was evaluated for it.
#[cycle(truth)]
fn is_true<O: Observer>(case: &BorrowedCase<'_, Paths>, test: &Test, observer: &mut O) -> bool
    ensures { result ≡ truth (facts_of case.now) (test_in (test_of test.now)) }
{
    observer.enter_test(test);
    let answer = answer_of(case, test, observer);
    observer.leave_test(case, test, answer);
    answer
}

/// Whether the first test is true. False where there is none.
#[cycle(truth)]
pub fn is_only_true<O: Observer>(
    case: &BorrowedCase<'_, Paths>,
    tests: &Tests,
    observer: &mut O,
) -> bool
    ensures { result ≡ truth (facts_of case.now) (only_in (inner_of tests.now)) }
{
    match tests {
        Tests::None => false,
        Tests::One(test) => is_true(case, test, observer),
        Tests::Listed(list) => is_true(case, &list.first, observer),
    }
}

#[cycle(truth)]
fn are_all_true<O: Observer>(
    case: &BorrowedCase<'_, Paths>,
    tests: &Tests,
    observer: &mut O,
) -> bool
    ensures { result ≡ all_true (facts_of case.now) (tests_in (inner_of tests.now)) }
{
    match tests {
        Tests::None => true,
        Tests::One(test) => is_true(case, test, observer),
        Tests::Listed(list) => {
            if !is_true(case, &list.first, observer) {
                return false;
            }
            for test in list.others.as_slice() {
                if !is_true(case, test, observer) {
                    return false;
                }
            }
            true
        }
    }
}

#[cycle(truth)]
fn is_some_true<O: Observer>(
    case: &BorrowedCase<'_, Paths>,
    tests: &Tests,
    observer: &mut O,
) -> bool
    ensures { result ≡ some_true (facts_of case.now) (tests_in (inner_of tests.now)) }
{
    match tests {
        Tests::None => false,
        Tests::One(test) => is_true(case, test, observer),
        Tests::Listed(list) => {
            if is_true(case, &list.first, observer) {
                return true;
            }
            for test in list.others.as_slice() {
                if is_true(case, test, observer) {
                    return true;
                }
            }
            false
        }
    }
}
