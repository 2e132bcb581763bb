//! What a test was decided by, in lines.

use crate::comparisons::{compared_fields, deciding_field, deciding_key};
use crate::room::Room;
use class_paths::Paths;
use sieve_evaluator::{BorrowedCase, BorrowedField};
use sieve_meaning::reading::{comparator, match_type, next_string_list};
use sieve_meaning::{MatchType, TestWord, is_same_word, test_word};
use sieve_syntax::{Argument, StringList, Test};
use std::alloc::{AllocError, Global};
use tool_texts::{Shown, put};

/// What a match type says of a value and a key.
fn verb(how: MatchType) -> &'static str {
    match how {
        MatchType::Is => "is",
        MatchType::Contains => "contains",
        MatchType::Matches => "matches",
    }
}

/// Adds a field by its number, from 1, its name and its value; nothing where there is no such field.
pub fn push_field(
    text: &mut Shown,
    case: &BorrowedCase<'_, Paths>,
    place: usize,
) -> Result<(), AllocError> {
    let Some(field) = case.fields.get(place) else {
        return Ok(());
    };
    let number = place.saturating_add(1);
    put!(text;
        "field " value(&number) " " named(field.name) " " quoted(field.value.as_slice())
    )
}

/// Adds a field as it is said beside a test, by its number alone where a report has no room for it.
fn push_told_field(
    text: &mut Shown,
    case: &BorrowedCase<'_, Paths>,
    place: usize,
    room: &mut Room,
) -> Result<(), AllocError> {
    if room.take(case.fields.as_slice(), &[place]) {
        return push_field(text, case, place);
    }
    let number = place.saturating_add(1);
    put!(text; "field " value(&number) ", which is listed with the message,")
}

/// Adds how a value meets a key.
fn push_key(text: &mut Shown, how: MatchType, key: &[u8]) -> Result<(), AllocError> {
    put!(text; " " words(verb(how)) " " quoted(key))
}

/// Adds the field and the key that made a `header` test true. Where a report has no room for the field, its number alone.
fn push_match(
    text: &mut Shown,
    case: &BorrowedCase<'_, Paths>,
    arguments: &[Argument],
    names: &StringList,
    keys: &StringList,
    room: &mut Room,
) -> Result<(), AllocError> {
    let (how, by) = (match_type(arguments), comparator(arguments));
    let Some(place) = deciding_field(case.fields.as_slice(), names, keys, how, by) else {
        return Ok(());
    };
    push_told_field(text, case, place, room)?;
    let value = case
        .fields
        .get(place)
        .map_or(&[][..], |field| field.value.as_slice());
    match deciding_key(value, keys, how, by) {
        Some(key) => push_key(text, how, key),
        None => Ok(()),
    }
}

fn add_line(lines: &mut Vec<Shown>, line: Shown) -> Result<(), AllocError> {
    lines.push(line)?;
    Ok(())
}

/// Adds a line with a field.
fn add_field(
    alloc: Global,
    lines: &mut Vec<Shown>,
    case: &BorrowedCase<'_, Paths>,
    place: usize,
) -> Result<(), AllocError> {
    let mut line = Shown::new(alloc);
    push_field(&mut line, case, place)?;
    add_line(lines, line)
}

/// Adds a line for each of some fields.
fn add_fields(
    alloc: Global,
    lines: &mut Vec<Shown>,
    case: &BorrowedCase<'_, Paths>,
    places: &[usize],
) -> Result<(), AllocError> {
    for place in places {
        add_field(alloc, lines, case, *place)?;
    }
    Ok(())
}

/// Adds the fields whose values a false `header` test compared. Where a report has no room for all of them, their number
/// alone.
fn add_compared(
    alloc: Global,
    lines: &mut Vec<Shown>,
    case: &BorrowedCase<'_, Paths>,
    names: &StringList,
    room: &mut Room,
) -> Result<(), AllocError> {
    let places = compared_fields(alloc, case.fields.as_slice(), names)?;
    if places.is_empty() {
        let mut line = Shown::new(alloc);
        line.words("no field has such a name")?;
        return add_line(lines, line);
    }
    if room.take(case.fields.as_slice(), places.as_slice()) {
        return add_fields(alloc, lines, case, places.as_slice());
    }
    let count = places.len();
    let mut line = Shown::new(alloc);
    put!(line; value(&count) " of the fields that are listed with the message")?;
    add_line(lines, line)
}

fn add_header(
    alloc: Global,
    lines: &mut Vec<Shown>,
    case: &BorrowedCase<'_, Paths>,
    arguments: &[Argument],
    answer: bool,
    room: &mut Room,
) -> Result<(), AllocError> {
    let Some((names, rest)) = next_string_list(arguments) else {
        return Ok(());
    };
    let Some((keys, _)) = next_string_list(rest) else {
        return Ok(());
    };
    if !answer {
        return add_compared(alloc, lines, case, names, room);
    }
    let mut line = Shown::new(alloc);
    push_match(&mut line, case, arguments, names, keys, room)?;
    add_line(lines, line)
}

/// Whether a field has a name.
fn has_field(fields: &[BorrowedField<'_>], name: &[u8]) -> bool {
    fields.iter().any(|field| is_same_word(field.name, name))
}

/// The first name of an `exists` test that no field has; none where each is there.
fn missing_name<'t>(case: &BorrowedCase<'_, Paths>, names: &'t StringList) -> Option<&'t [u8]> {
    let fields = case.fields.as_slice();
    if !has_field(fields, names.first().as_slice()) {
        return Some(names.first().as_slice());
    }
    for name in names.others() {
        if !has_field(fields, name.as_slice()) {
            return Some(name.as_slice());
        }
    }
    None
}

fn add_missing(
    alloc: Global,
    lines: &mut Vec<Shown>,
    case: &BorrowedCase<'_, Paths>,
    arguments: &[Argument],
) -> Result<(), AllocError> {
    let Some((names, _)) = next_string_list(arguments) else {
        return Ok(());
    };
    let Some(name) = missing_name(case, names) else {
        return Ok(());
    };
    let mut line = Shown::new(alloc);
    put!(line; "no field has the name " quoted(name))?;
    add_line(lines, line)
}

fn add_size(alloc: Global, lines: &mut Vec<Shown>, size: u64) -> Result<(), AllocError> {
    let mut line = Shown::new(alloc);
    put!(line; "the message has " value(&size) " octets")?;
    add_line(lines, line)
}

/// Adds what a test with this answer was decided by.
fn add_details(
    alloc: Global,
    lines: &mut Vec<Shown>,
    case: &BorrowedCase<'_, Paths>,
    test: &Test,
    answer: bool,
    room: &mut Room,
) -> Result<(), AllocError> {
    let arguments = test.arguments.as_slice();
    match test_word(test.name.as_slice()) {
        TestWord::Header => add_header(alloc, lines, case, arguments, answer, room),
        TestWord::Exists => add_missing(alloc, lines, case, arguments),
        TestWord::Size => add_size(alloc, lines, case.size),
        TestWord::True
        | TestWord::False
        | TestWord::Not
        | TestWord::AllOf
        | TestWord::AnyOf
        | TestWord::Other => Ok(()),
    }
}

/// What a test with this answer was decided by, a line each; nothing for a test of tests. Fields are said in full as
/// long as the report has room for them.
pub fn detail_lines(
    alloc: Global,
    case: &BorrowedCase<'_, Paths>,
    test: &Test,
    answer: bool,
    room: &mut Room,
) -> Result<Vec<Shown>, AllocError> {
    let mut lines = Vec::new(alloc);
    add_details(alloc, &mut lines, case, test, answer, room)?;
    Ok(lines)
}
