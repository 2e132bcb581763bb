//! The least rule that a command breaks, its tests at any depth included. Each function tries its rules in the order of
//! their numbers, so the first one that is broken is the least. `named` are the capabilities that the `require`s before
//! the command name.

ghost use Rattle.std.specs.Prelude.{◌≡◌, Some};
ghost use Rattle.std.specs.Option.{option_map};
ghost use Rattle.sieve_syntax.specs.View.{test_of, inner_of, command_of, ending_of};
ghost use Rattle.sieve_check.specs.Context.{has_of};
ghost use Rattle.sieve_check.specs.Faults.{number_of};
ghost use Rattle.sieve_check.specs.PieceViews.{pieces_of};
ghost use Rattle.sieve_check.specs.Rules.{lesser, least, form_rules, test_breaches, inner_breaches, place_rules, place_breaches, head_of, is_block, has_wrong_ending};
ghost use Rattle.sieve_check.specs.Views.{form_view, command_view};
ghost use Rattle.sieve_check.specs.Walk.{first_breach};

use crate::capability_set::CapabilitySet;
use crate::context::{Context, names_unknown};
use crate::fault::CheckFault;
use crate::findings::gather;
use crate::lookup::find_test;
use crate::rules::has_wrong_tests;
use crate::table::{CommandRow, Form};
use sieve_syntax::{Arguments, Command, Ending, Test, Tests};

/// The one of the lesser number.
fn lesser(fault: Option<CheckFault>, other: Option<CheckFault>) -> Option<CheckFault>
    ensures { option_map number_of result
        ≡ lesser (option_map number_of fault) (option_map number_of other) }
{
    match (fault, other) {
        (None, _) => other,
        (_, None) => fault,
        (Some(a), Some(b)) => Some(if b.number() < a.number() { b } else { a }),
    }
}

/// The least rule that is broken by what follows a name, without the inner tests.
fn form_fault(
    named: CapabilitySet,
    form: &Form,
    arguments: &Arguments,
    tests: &Tests,
) -> Option<CheckFault>
    ensures { option_map number_of result
        ≡ first_breach (form_rules (has_of named) (form_view form.now)
        (pieces_of form.now arguments.now) (inner_of tests.now)) }
{
    let found = gather(named, form, arguments);
    if found.lacks_capability(named, form) {
        Some(CheckFault::CapabilityNotRequired)
    } else if found.has_wrong_tag() {
        Some(CheckFault::TagNotAllowed)
    } else if found.has_tag_twice(form, arguments) {
        Some(CheckFault::TagTwice)
    } else if found.has_wrong_arguments(form, arguments) {
        Some(CheckFault::WrongArguments)
    } else if found.unknown_comparator {
        Some(CheckFault::UnknownComparator)
    } else if has_wrong_tests(form, tests) {
        Some(CheckFault::Tests)
    } else {
        None
    }
}

/// The least rule that a test breaks, or one of the tests inside it.
#[cycle(judging)]
fn test_fault(test: &Test, named: CapabilitySet) -> Option<CheckFault>
    ensures { option_map number_of result
        ≡ least (test_breaches (has_of named) (test_of test.now)) }
{
    match find_test(test.name.as_slice()) {
        None => Some(CheckFault::UnknownTest),
        Some(row) => {
            let own = form_fault(named, &row.form, &test.arguments, &test.tests);
            lesser(own, tests_fault(&test.tests, named))
        }
    }
}

/// The least rule that one of the tests breaks.
#[cycle(judging)]
fn tests_fault(tests: &Tests, named: CapabilitySet) -> Option<CheckFault>
    ensures { option_map number_of result
        ≡ least (inner_breaches (has_of named) (inner_of tests.now)) }
{
    match tests {
        Tests::None => None,
        Tests::One(test) => test_fault(test, named),
        Tests::Listed(list) => {
            let mut fault = test_fault(&list.first, named);
            for test in list.others.as_slice() {
                fault = lesser(fault, test_fault(test, named));
            }
            fault
        }
    }
}

/// Whether a command ends with a block.
fn is_block(ending: &Ending) -> bool
    ensures { result ≡ is_block (ending_of ending.now) }
{
    matches!(ending, Ending::Block(_))
}

/// Whether the ending is not the one of the table's row.
fn has_wrong_ending(row: &CommandRow, ending: &Ending) -> bool
    ensures { result ≡ has_wrong_ending row.now.has_block (is_block (ending_of ending.now)) }
{
    if row.has_block {
        !is_block(ending)
    } else {
        is_block(ending)
    }
}

/// The least rule that a command breaks by its place, by what it requires or by how it ends.
fn place_fault(
    context: Context,
    row: &CommandRow,
    command: &Command,
    follows_branch: bool,
) -> Option<CheckFault>
    ensures { option_map number_of result ≡
        first_breach (place_rules context.begun (command_view row.now)
        (head_of follows_branch (command_of command.now))) }
{
    if row.role.is_require() && names_unknown(&command.arguments) {
        Some(CheckFault::UnknownCapability)
    } else if row.role.is_require() && context.begun {
        Some(CheckFault::RequireTooLate)
    } else if row.role.goes_on() && !follows_branch {
        Some(CheckFault::ElseWithoutIf)
    } else if has_wrong_ending(row, &command.ending) {
        Some(CheckFault::Block)
    } else {
        None
    }
}

/// The least rule that a command of this row breaks, its tests included, without the commands of its block.
pub fn command_fault(
    context: Context,
    row: &CommandRow,
    command: &Command,
    follows_branch: bool,
) -> Option<CheckFault>
    ensures { option_map number_of result ≡
        least (place_breaches (has_of context.named) context.begun (Some (command_view row.now))
        (head_of follows_branch (command_of command.now))) }
{
    let place = place_fault(context, row, command, follows_branch);
    let form = form_fault(context.named, &row.form, &command.arguments, &command.tests);
    lesser(
        place,
        lesser(form, tests_fault(&command.tests, context.named)),
    )
}
