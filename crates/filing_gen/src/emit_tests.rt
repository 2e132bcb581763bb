//! Writes the code of tests (RFC 5228, section 5), which pushes the test's truth value. A jump within the code of a
//! test gets its target once the code that it skips is written. An operation names a text or a number by its place
//! among those of the image.

ghost use Rattle.std.specs.Prelude.{◌≡◌, ◌≤◌, ◌+◌, ◌<◌, ◌^◌, ℕ, List, ◌∷◌, length, OnOk, true, false, not, codes};
ghost use Rattle.sieve_syntax.specs.Arguments.{strings_of, first_of, others_of};
ghost use Rattle.sieve_syntax.specs.View.{test_of, inner_of};
ghost use Rattle.sieve_meaning.specs.Reading.{test_in, only_in, tests_in, string_lists, exists_of, size_of, has_tag as has_tag_of, number_in};
ghost use Rattle.filing_flow.specs.Structure.{Flow, size, action, ValuesOf, HasField, MatchKey, PushNumber, PushSize, IsLess, Push, Drop, sequence, leave, leave_if, Negate};
ghost use Rattle.filing_flow.specs.Code.{end_at};
ghost use Rattle.filing_gen.specs.BlockCode.{either, values_flow, keys_flow, names_flow, header_flow, test_flow, tests_flow};
ghost use Rattle.filing_gen.specs.NameCode.{name_flow, each_flow, EmitsWithin};
ghost use Rattle.filing_gen.specs.Names.{each_once, others_once, other_names};
ghost use Rattle.filing_gen.specs.Adds.{Emits, HasRoom, EmitsAnywhere, EmitsUnended, LeavesNothing};
ghost use Rattle.filing_gen.specs.declared.output.Output.{Output};
ghost use Rattle.filing_gen.specs.Emission.{header_in};

use crate::ends::{NO_PLACE, end_block_at};
use crate::field_names::FieldNames;
use crate::output::{Output, number_operand, put, put_truth, text_operand};
use filing_image::Operation;
use filing_table::comparison_number;
use sieve_meaning::reading::{comparator, has_tag, match_type, next_string_list, number};
use sieve_meaning::{TestWord, test_word};
use sieve_syntax::{Argument, StringList, StringText, Test, Tests};
use std::alloc::{AllocError, Global};

/// Writes `JumpIf` or `JumpUnless`, to the end of the block around.
fn put_jump(out: &mut Output, truth: bool) -> Result<(), AllocError>
    ensures { OnOk result (EmitsUnended out.old out.new (leave_if truth 0)) }
{
    if truth {
        return put(out, Operation::JumpIf(NO_PLACE));
    }
    put(out, Operation::JumpUnless(NO_PLACE))
}

/// Ends a row of tests whose code begins at `start`. Where none of them jumped, this pushes the opposite of `stop` and
/// jumps to the end; where one jumped, it pushes `stop`. The code: `PushTrue` or `PushFalse`, `Jump end`; jumped:
/// `PushFalse` or `PushTrue`; end.
fn put_either(out: &mut Output, start: usize, stop: bool) -> Result<(), AllocError>
    requires start { start ≤ length out.old.code.items }
    requires room { HasRoom out.old 3 }
    ensures { OnOk result
        ((x : Output) (a : Flow) (ends : List ℕ) → start ≡ length x.code.items → LeavesNothing a
        → EmitsUnended x out.old a → Emits x out.new (either (not stop) stop a) ends) }
{
    let jumped = (out.code.len() + 2) as u16;
    end_block_at(out, start, jumped);
    put_truth(out, !stop)?;
    put(out, Operation::Jump(jumped + 1))?;
    put_truth(out, stop)
}

/// Writes `Exists name` and `JumpUnless missing`.
fn emit_name(out: &mut Output, name: &[u8]) -> Result<(), AllocError>
    requires room { HasRoom out.old 2 }
    requires short { length name.now < 2 ^ 16 }
    ensures { OnOk result
        (EmitsUnended out.old out.new (sequence (action (HasField name.now)) (leave_if false 0))) }
{
    let place = text_operand(out, name)?;
    put(out, Operation::Exists(place))?;
    put_jump(out, false)
}

/// Writes `Values name`.
fn emit_value(out: &mut Output, name: &[u8]) -> Result<(), AllocError>
    requires room { HasRoom out.old 1 }
    requires short { length name.now < 2 ^ 16 }
    ensures { OnOk result (EmitsAnywhere out.old out.new (action (ValuesOf name.now))) }
{
    let place = text_operand(out, name)?;
    put(out, Operation::Values(place))
}

/// The code that a test has for a field name after its first.
#[derive(Clone, Copy)]
enum NameCode {
    /// `Exists name` and `JumpUnless missing`.
    Exists,
    /// `Values name` and `Join`.
    Values,
}

/// Writes the code of a name.
fn emit_other_name(out: &mut Output, code: NameCode, name: &[u8]) -> Result<(), AllocError>
    requires room { HasRoom out.old 2 }
    requires short { length name.now < 2 ^ 16 }
    ensures { OnOk result (EmitsWithin code out.old out.new (name_flow code name.now)) }
{
    match code {
        NameCode::Exists => emit_name(out, name),
        NameCode::Values => {
            emit_value(out, name)?;
            put(out, Operation::Join)
        }
    }
}

/// Writes the code of each name that is new, ignoring ASCII case.
fn emit_other_names(
    alloc: Global,
    out: &mut Output,
    code: NameCode,
    first: &[u8],
    others: &[StringText],
) -> Result<(), AllocError>
    requires { HasRoom out.old (size (each_flow code (others_once first.now others.now))) }
    ensures { OnOk result
        (EmitsWithin code out.old out.new (each_flow code (others_once first.now others.now))) }
{
    if others.is_empty() {
        return Ok(());
    }
    let mut asked = FieldNames::of(alloc, first)?;
    for name in others {
        let name = name.as_slice();
        let is_new = asked.insert(name)?;
        if !is_new {
            continue;
        }
        emit_other_name(out, code, name)?;
    }
    Ok(())
}

/// Writes `Exists name` and `JumpUnless missing` for each name, once.
fn emit_names(alloc: Global, out: &mut Output, names: &StringList) -> Result<(), AllocError>
    requires { HasRoom out.old (size (names_flow (each_once (strings_of names.now)))) }
    ensures { OnOk result
        (EmitsUnended out.old out.new (names_flow (each_once (strings_of names.now)))) }
{
    let first = names.first().as_slice();
    emit_name(out, first)?;
    emit_other_names(alloc, out, NameCode::Exists, first, names.others())
}

/// Writes `exists` (RFC 5228, section 5.5): whether the header has a field of each name.
fn emit_exists(alloc: Global, out: &mut Output, arguments: &[Argument]) -> Result<(), AllocError>
    requires { HasRoom out.old (size (test_flow (exists_of (string_lists false arguments.now)))) }
    ensures adds { OnOk result
        (EmitsAnywhere out.old out.new (test_flow (exists_of (string_lists false arguments.now)))) }
{
    let start = out.code.len();
    match next_string_list(arguments) {
        None => put_either(out, start, false),
        Some((names, _)) => {
            emit_names(alloc, out, names)?;
            put_either(out, start, false)
        }
    }
}

/// Writes `Number n`, `Size`, `Less`: whether the message has more octets than the number.
fn emit_over(out: &mut Output, number: u64) -> Result<(), AllocError>
    requires { HasRoom out.old 3 }
    ensures { OnOk result (EmitsAnywhere out.old out.new
        (sequence (action (PushNumber number)) (sequence (action PushSize) (action IsLess)))) }
{
    let place = number_operand(out, number)?;
    put(out, Operation::Number(place))?;
    put(out, Operation::Size)?;
    put(out, Operation::Less)
}

/// Writes `Size`, `Number n`, `Less`: whether the message has fewer octets than the number.
fn emit_under(out: &mut Output, number: u64) -> Result<(), AllocError>
    requires { HasRoom out.old 3 }
    ensures { OnOk result (EmitsAnywhere out.old out.new
        (sequence (action PushSize) (sequence (action (PushNumber number)) (action IsLess)))) }
{
    put(out, Operation::Size)?;
    let place = number_operand(out, number)?;
    put(out, Operation::Number(place))?;
    put(out, Operation::Less)
}

/// Writes `size` (RFC 5228, section 5.9): whether the message has more octets than the number, or fewer.
fn emit_size(out: &mut Output, arguments: &[Argument]) -> Result<(), AllocError>
    requires { HasRoom out.old 3 }
    ensures adds { OnOk result (EmitsAnywhere out.old out.new
        (test_flow (size_of (has_tag_of (codes "over") arguments.now) (number_in arguments.now)))) }
{
    let number = number(arguments);
    if has_tag(arguments, b"over") {
        return emit_over(out, number);
    }
    emit_under(out, number)
}

/// Writes the list of the values of all fields that have the names: `Values name` for the first name, and `Values name`
/// and `Join` for each other name, once.
fn emit_values(alloc: Global, out: &mut Output, names: &StringList) -> Result<(), AllocError>
    requires { HasRoom out.old (size (values_flow (other_names names.now)) + 1) }
    ensures { OnOk result (EmitsAnywhere out.old out.new
        (sequence (action (ValuesOf (first_of names.now))) (values_flow (other_names names.now)))) }
{
    let first = names.first().as_slice();
    emit_value(out, first)?;
    emit_other_names(alloc, out, NameCode::Values, first, names.others())
}

/// Writes `Match how key` and `JumpIf found`.
fn emit_key(out: &mut Output, how: u8, key: &[u8]) -> Result<(), AllocError>
    requires room { HasRoom out.old 2 }
    requires short { length key.now < 2 ^ 16 }
    ensures { OnOk result (EmitsUnended out.old out.new
        (sequence (action (MatchKey how key.now)) (leave_if true 0))) }
{
    let place = text_operand(out, key)?;
    put(out, Operation::Match(how, place))?;
    put_jump(out, true)
}

/// Writes `Match how key` and `JumpIf found` for each key but the first.
fn emit_other_keys(out: &mut Output, how: u8, keys: &[StringText]) -> Result<(), AllocError>
    requires { HasRoom out.old (size (keys_flow how keys.now)) }
    ensures { OnOk result (EmitsUnended out.old out.new (keys_flow how keys.now)) }
{
    for key in keys {
        emit_key(out, how, key.as_slice())?;
    }
    Ok(())
}

/// Writes `Match how key` and `JumpIf found` for each key.
fn emit_keys(out: &mut Output, how: u8, keys: &StringList) -> Result<(), AllocError>
    requires { HasRoom out.old (size (keys_flow how (first_of keys.now ∷ others_of keys.now))) }
    ensures { OnOk result
        (EmitsUnended out.old out.new (keys_flow how (first_of keys.now ∷ others_of keys.now))) }
{
    emit_key(out, how, keys.first().as_slice())?;
    emit_other_keys(out, how, keys.others())
}

/// Writes what follows where no key matched: `Pop`, `PushFalse`, `Jump end`.
fn put_missed(out: &mut Output, end: u16) -> Result<(), AllocError>
    ensures { OnOk result ((ends : List ℕ) → end_at ends 1 ≡ end → Emits out.old out.new
        (sequence (action Drop) (sequence (action (Push false)) (leave 1))) ends) }
{
    put(out, Operation::Pop)?;
    put(out, Operation::PushFalse)?;
    put(out, Operation::Jump(end))
}

/// Writes what follows where a key matched: `Pop`, `PushTrue`.
fn put_found(out: &mut Output) -> Result<(), AllocError>
    ensures { OnOk result
        (EmitsAnywhere out.old out.new (sequence (action Drop) (action (Push true)))) }
{
    put(out, Operation::Pop)?;
    put(out, Operation::PushTrue)
}

/// Writes a test of the values of all fields that have the names, with a jump where a key matches. The code: the list;
/// `Match how key` and `JumpIf found` for each key; `Pop`, `PushFalse`, `Jump end`; found: `Pop`, `PushTrue`; end.
fn emit_some_match(
    alloc: Global,
    out: &mut Output,
    how: u8,
    names: &StringList,
    keys: &StringList,
) -> Result<(), AllocError>
    requires { HasRoom out.old (size (header_flow how (first_of names.now) (other_names names.now)
        (first_of keys.now) (others_of keys.now))) }
    ensures adds { OnOk result (EmitsAnywhere out.old out.new (header_flow how (first_of names.now)
        (other_names names.now) (first_of keys.now) (others_of keys.now))) }
{
    emit_values(alloc, out, names)?;
    let start = out.code.len();
    emit_keys(out, how, keys)?;
    let found = (out.code.len() + 3) as u16;
    end_block_at(out, start, found);
    put_missed(out, found + 2)?;
    put_found(out)
}

/// Writes `header` (RFC 5228, section 5.7): whether a field with one of the names has a value that matches one of the
/// keys.
fn emit_header(alloc: Global, out: &mut Output, arguments: &[Argument]) -> Result<(), AllocError>
    requires { HasRoom out.old (size (test_flow (header_in arguments.now))) }
    ensures adds { OnOk result
        (EmitsAnywhere out.old out.new (test_flow (header_in arguments.now))) }
{
    let Some((names, rest)) = next_string_list(arguments) else {
        return put_truth(out, false);
    };
    let Some((keys, _)) = next_string_list(rest) else {
        return put_truth(out, false);
    };
    let how = comparison_number(match_type(arguments), comparator(arguments));
    emit_some_match(alloc, out, how, names, keys)
}

/// Writes the code of a test; a test of an unknown name pushes false. The only error is a refused allocation.
#[cycle(emission)]
pub fn emit_test(alloc: Global, out: &mut Output, test: &Test) -> Result<(), AllocError>
    requires { HasRoom out.old (size (test_flow (test_in (test_of test.now)))) }
    ensures adds { OnOk result
        (EmitsAnywhere out.old out.new (test_flow (test_in (test_of test.now)))) }
{
    let arguments = test.arguments.as_slice();
    match test_word(test.name.as_slice()) {
        TestWord::True => put_truth(out, true),
        TestWord::False | TestWord::Other => put_truth(out, false),
        TestWord::Not => emit_not(alloc, out, &test.tests),
        TestWord::AllOf => emit_row(alloc, out, &test.tests, false),
        TestWord::AnyOf => emit_row(alloc, out, &test.tests, true),
        TestWord::Exists => emit_exists(alloc, out, arguments),
        TestWord::Size => emit_size(out, arguments),
        TestWord::Header => emit_header(alloc, out, arguments),
    }
}

/// Writes `not` (RFC 5228, section 5.8): the only test, and `Not`.
#[cycle(emission)]
fn emit_not(alloc: Global, out: &mut Output, tests: &Tests) -> Result<(), AllocError>
    requires { HasRoom out.old (size (test_flow (only_in (inner_of tests.now))) + 1) }
    ensures adds { OnOk result (EmitsAnywhere out.old out.new
        (sequence (test_flow (only_in (inner_of tests.now))) (action Negate))) }
{
    emit_only(alloc, out, tests)?;
    put(out, Operation::Not)
}

/// Writes the only test, or the first of a list; `PushFalse` where there is none, which no checked script has.
#[cycle(emission)]
pub fn emit_only(alloc: Global, out: &mut Output, tests: &Tests) -> Result<(), AllocError>
    requires { HasRoom out.old (size (test_flow (only_in (inner_of tests.now)))) }
    ensures adds { OnOk result
        (EmitsAnywhere out.old out.new (test_flow (only_in (inner_of tests.now)))) }
{
    match tests {
        Tests::None => put_truth(out, false),
        Tests::One(test) => emit_test(alloc, out, test),
        Tests::Listed(list) => emit_test(alloc, out, &list.first),
    }
}

/// Writes `allof`, which stops at a false test, or `anyof`, which stops at a true one (RFC 5228, sections 5.2 and 5.3).
/// The code: each test and a jump to stopped; the other truth value, `Jump end`; stopped: the truth value that stops;
/// end.
#[cycle(emission)]
fn emit_row(alloc: Global, out: &mut Output, tests: &Tests, stop: bool) -> Result<(), AllocError>
    requires { HasRoom out.old
        (size (either (not stop) stop (tests_flow stop (tests_in (inner_of tests.now))))) }
    ensures adds { OnOk result (EmitsAnywhere out.old out.new
        (either (not stop) stop (tests_flow stop (tests_in (inner_of tests.now))))) }
{
    let start = out.code.len();
    emit_tests(alloc, out, tests, stop)?;
    put_either(out, start, stop)
}

/// Writes each test, and a jump out where it has the truth value that stops.
#[cycle(emission)]
fn emit_tests(alloc: Global, out: &mut Output, tests: &Tests, stop: bool) -> Result<(), AllocError>
    requires { HasRoom out.old (size (tests_flow stop (tests_in (inner_of tests.now)))) }
    ensures adds { OnOk result
        (EmitsUnended out.old out.new (tests_flow stop (tests_in (inner_of tests.now)))) }
{
    match tests {
        Tests::None => Ok(()),
        Tests::One(test) => {
            emit_test(alloc, out, test)?;
            put_jump(out, stop)
        }
        Tests::Listed(list) => {
            emit_test(alloc, out, &list.first)?;
            put_jump(out, stop)?;
            for test in list.others.as_slice() {
                emit_test(alloc, out, test)?;
                put_jump(out, stop)?;
            }
            Ok(())
        }
    }
}
