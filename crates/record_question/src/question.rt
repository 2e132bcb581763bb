//! A question that is one test.

ghost use Rattle.std.specs.Prelude.{◌≡◌, IfOk, IfErr};
ghost use Rattle.sieve_syntax.specs.Tree.{TestTree};
ghost use Rattle.sieve_syntax.specs.View.{test_of, tree_of};
ghost use Rattle.sieve_meaning.specs.Reading.{test_in};
ghost use Rattle.sieve_meaning.specs.Truth.{truth};
ghost use Rattle.sieve_evaluator.specs.Case.{facts_of};
ghost use Rattle.record_question.specs.Questions.{rule, asked_in, test_asked, IsQuestion, IsRead, ExplainsQuestion};

use crate::fault::QuestionFault;
use class_paths::Paths;
use record_choice::Judge;
use sieve_check::{Checked, check};
use sieve_evaluator::{BorrowedCase, is_only_true};
use sieve_syntax::{Arguments, Command, Ending, Script, Test, Tests, Text};
use sieve_text::parse_test;
use std::alloc::{AllocError, Global};

/// A test, asked of messages.
#[derive(Drop)]
pub struct TestQuestion {
    /// The rule `if TEST { }`, as it was checked.
    rule: Checked,
}

/// The rule `if TEST { }` with a test.
fn rule_of(alloc: Global, test: Test) -> Result<Script, AllocError>
    ensures { IfOk result (λ s. tree_of s ≡ rule (test_of test)) }
{
    let command = Command {
        name: Text::from_slice(alloc, b"if")?,
        arguments: Arguments::none(),
        tests: Tests::One(Box::new(alloc, test)?),
        ending: Ending::Block(Box::new(alloc, Vec::new(alloc))?),
    };
    let mut commands = Vec::with_capacity(alloc, 1)?;
    commands.push(command)?;
    Ok(Script { commands })
}

/// Whether the test of the first command is true in a case.
fn is_met(case: &BorrowedCase<'_, Paths>, rule: &Script) -> bool
    ensures { result ≡ truth (facts_of case.now) (asked_in (tree_of rule.now)) }
{
    let mut nobody = ();
    match rule.commands.first() {
        Some(command) => is_only_true(case, &command.tests, &mut nobody),
        None => false,
    }
}

impl TestQuestion {
    /// The question of a text, which has to be exactly one test (RFC 5228, section 5) that a rule may have. A question needs
    /// no `require`. Refused with the number by which a script of it is refused: 10 to 16, 20 and 21 for the text, with
    /// the offset in octets, and 33, 35 to 38 and 41 for the test.
    pub fn read(alloc: Global, text: &[u8]) -> Result<TestQuestion, QuestionFault>
        // The question asks the text's test.
        ensures found { IfOk result (λ q. (t : TestTree)
            × IsQuestion text.now t × (test_asked q ≡ test_in t)) }

        // A text that is a question is read.
        ensures only { (t : TestTree) → IsQuestion text.now t → IsRead result }

        // Each refusal says what the text lacks.
        ensures refused { IfErr result (λ e. ExplainsQuestion text.now e) }
    {
        let test = parse_test(alloc, text)?;
        let script = rule_of(alloc, test)?;
        let rule = check(script)?;
        Ok(TestQuestion { rule })
    }
}

/// The answer is yes where the test is true in the case of the message. Its header is read once, and its body is not
/// copied.
impl Judge for TestQuestion {
    ghost use Rattle.record_question.specs.Questions.{is_yes};

    ghost asks = { is_yes };

    fn judge(&self, alloc: Global, message: &[u8]) -> Result<bool, AllocError> {
        let case = BorrowedCase::read(alloc, message, Paths::new(alloc))?;
        Ok(is_met(&case, self.rule.script()))
    }
}
