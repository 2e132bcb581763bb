//! The weight of a script: a bound on the size of its code. What may still be weighed is passed along as `left`, and
//! weighing stops as soon as a part is heavier than that, whatever follows.

ghost use Rattle.std.specs.Prelude.{◌+◌, ◌*◌, ◌<◌, length, false};
ghost use Rattle.sieve_syntax.specs.Arguments.{others_of};
ghost use Rattle.sieve_syntax.specs.View.{test_of, inner_of, command_of, ending_of};
ghost use Rattle.sieve_meaning.specs.Reading.{test_in, only_in, tests_in, string_lists, exists_of, block_in};
ghost use Rattle.sieve_meaning.specs.Weight.{test_weight, tests_weight, weight};
ghost use Rattle.filing_gen.specs.Weights.{IsLeft, plain_weight, part_weight, IsWeightUpTo};
ghost use Rattle.sieve_library.specs.Libraries.{program_in, listed_program};
ghost use Rattle.filing_gen.specs.Emission.{header_in};

use crate::linker::Weights;
use sieve_meaning::branches::{BranchPart, is_branch, part_in};
use sieve_meaning::reading::{include, next_string_list};
use sieve_meaning::{CommandWord, TestWord, command_word, test_word};
use sieve_syntax::{Argument, Command, Ending, Script, StringList, Test, Tests};

/// The greatest weight of code.
pub const MAX_WEIGHT: u32 = 60_000;

/// Subtracts `each` for each string of a list.
fn weigh_strings(list: &StringList, each: u32, left: u32) -> Option<u32>
    ensures { IsLeft left ((length (others_of list.now) + 1) * each) result }
{
    let weight = (list.others().len() as u64)
        .saturating_add(1)
        .saturating_mul(each as u64);
    if weight > left as u64 {
        return None;
    }
    Some(left - weight as u32)
}

/// Subtracts 4, and 2 for each name of an `exists`.
fn weigh_exists(arguments: &[Argument], left: u32) -> Option<u32>
    ensures { IsLeft left (test_weight (exists_of (string_lists false arguments.now))) result }
{
    let left = left.checked_sub(4)?;
    match next_string_list(arguments) {
        None => Some(left),
        Some((names, _)) => weigh_strings(names, 2, left),
    }
}

/// Subtracts 4, 2 for each name of a `header`, and 3 for each of its keys.
fn weigh_header(arguments: &[Argument], left: u32) -> Option<u32>
    ensures { IsLeft left (test_weight (header_in arguments.now)) result }
{
    let left = left.checked_sub(4)?;
    let Some((names, rest)) = next_string_list(arguments) else {
        return Some(left);
    };
    let Some((keys, _)) = next_string_list(rest) else {
        return Some(left);
    };
    let left = weigh_strings(names, 2, left)?;
    weigh_strings(keys, 3, left)
}

/// Subtracts the weight of a test.
#[cycle(test_weights)]
fn weigh_test(test: &Test, left: u32) -> Option<u32>
    ensures { IsLeft left (test_weight (test_in (test_of test.now))) result }
{
    let arguments = test.arguments.as_slice();
    match test_word(test.name.as_slice()) {
        TestWord::True | TestWord::False | TestWord::Other | TestWord::Size => left.checked_sub(4),
        TestWord::Not => weigh_only(&test.tests, left.checked_sub(4)?),
        TestWord::AllOf | TestWord::AnyOf => weigh_tests(&test.tests, left.checked_sub(4)?),
        TestWord::Exists => weigh_exists(arguments, left),
        TestWord::Header => weigh_header(arguments, left),
    }
}

/// Subtracts the weight of the only test, or of the first of a list.
#[cycle(test_weights)]
fn weigh_only(tests: &Tests, left: u32) -> Option<u32>
    ensures { IsLeft left (test_weight (only_in (inner_of tests.now))) result }
{
    match tests {
        Tests::None => left.checked_sub(4),
        Tests::One(test) => weigh_test(test, left),
        Tests::Listed(list) => weigh_test(&list.first, left),
    }
}

/// Subtracts the weight of all tests.
#[cycle(test_weights)]
fn weigh_tests(tests: &Tests, left: u32) -> Option<u32>
    ensures { IsLeft left (tests_weight (tests_in (inner_of tests.now))) result }
{
    match tests {
        Tests::None => Some(left),
        Tests::One(test) => weigh_test(test, left),
        Tests::Listed(list) => {
            let mut rest = weigh_test(&list.first, left)?;
            for test in list.others.as_slice() {
                rest = weigh_test(test, rest)?;
            }
            Some(rest)
        }
    }
}

/// Subtracts the weight of a command that has no block: 4, and for an `include` also what it includes. An `elsif` or
/// `else` that continues no `if` weighs nothing, nor does a command of another name.
fn weigh_plain<L: Weights>(
    linker: &L,
    word: CommandWord,
    arguments: &[Argument],
    left: u32,
) -> Option<u32>
    ensures { IsLeft left (plain_weight (L.weight_of linker.now) word arguments.now) result }
{
    match word {
        CommandWord::If | CommandWord::ElsIf | CommandWord::Else | CommandWord::Other => Some(left),
        CommandWord::Include => linker.weigh(&include(arguments), left.checked_sub(4)?),
        CommandWord::Require
        | CommandWord::Keep
        | CommandWord::Discard
        | CommandWord::Stop
        | CommandWord::Return
        | CommandWord::FileInto => left.checked_sub(4),
    }
}

/// Subtracts the weight of a block.
#[cycle(weights)]
fn weigh_block<L: Weights>(linker: &L, ending: &Ending, left: u32) -> Option<u32>
    ensures { IsLeft left
        (weight (L.weight_of linker.now) (block_in (ending_of ending.now))) result }
{
    match ending {
        Ending::Semicolon => Some(left),
        Ending::Block(commands) => weigh_commands(linker, commands, left),
    }
}

/// Subtracts the weight of a command by its part. A `Branch` (`if`, `elsif`) weighs 4, its test and its block;
/// `Otherwise` (`else`) weighs 4 and its block. `weigh_plain` says what any other command weighs.
#[cycle(weights)]
fn weigh_part<L: Weights>(linker: &L, command: &Command, part: BranchPart, left: u32) -> Option<u32>
    ensures { IsLeft left
        (part_weight (L.weight_of linker.now) part (command_of command.now)) result }
{
    match part {
        BranchPart::Branch => {
            let left = weigh_only(&command.tests, left.checked_sub(4)?)?;
            weigh_block(linker, &command.ending, left)
        }
        BranchPart::Otherwise => weigh_block(linker, &command.ending, left.checked_sub(4)?),
        BranchPart::Plain => weigh_plain(
            linker,
            command_word(command.name.as_slice()),
            command.arguments.as_slice(),
            left,
        ),
    }
}

/// Subtracts the weight of commands; none where it is more than `left`.
#[cycle(weights)]
pub fn weigh_commands<L: Weights>(linker: &L, commands: &Vec<Command>, left: u32) -> Option<u32>
    ensures { IsLeft left
        (weight (L.weight_of linker.now) (listed_program commands.now.items)) result }
{
    let mut rest = left;
    // Whether an `elsif` or `else` would continue the commands before it.
    let mut is_open = false;
    for command in commands {
        let part = part_in(command_word(command.name.as_slice()), is_open);
        rest = weigh_part(linker, command, part, rest)?;
        is_open = is_branch(part);
    }
    Some(rest)
}

/// The weight of a script and all that it includes, and 1; none where that is above `greatest`. For a checked script,
/// time is linear in the weight, or in `greatest` where that is less.
pub fn script_weight<L: Weights>(linker: &L, script: &Script, greatest: u32) -> Option<u32>
    ensures { IsWeightUpTo greatest
        (weight (L.weight_of linker.now) (program_in script.now) + 1) result }
{
    let left = weigh_commands(linker, &script.commands, greatest.checked_sub(1)?)?;
    Some(greatest - left)
}
