//! What a run reports while it goes on. Nothing that an observer does changes the run.

ghost use Rattle.std.specs.Prelude.{◌≡◌};
ghost use Rattle.sieve_syntax.specs.View.{test_of};
ghost use Rattle.sieve_meaning.specs.Reading.{test_in};
ghost use Rattle.sieve_meaning.specs.Truth.{truth};
ghost use Rattle.sieve_evaluator.specs.Case.{facts_of};
ghost use Rattle.sieve_evaluator.specs.Acts.{act_in};

use crate::case::BorrowedCase;
use class_paths::Paths;
use sieve_meaning::{CommandWord, Include};
use sieve_syntax::{Argument, Command, Test};

/// What a command does that is no open branch and no include.
#[derive(Clone, Copy)]
pub enum Act {
    /// Nothing: a `require`.
    Nothing,
    /// Nothing: an `elsif` or `else` after a branch that was taken.
    Passes,
    /// Ends the run (RFC 5228, section 3.3).
    Stops,
    /// Ends its script (RFC 6609, section 3.3).
    Returns,
    /// Keeps the message (RFC 5228, section 4.3).
    Keeps,
    /// Cancels the implicit keep (RFC 5228, section 4.4).
    Discards,
    /// Files into a class and cancels the implicit keep (RFC 5228, section 4.1).
    Files,
    /// Files into a class by `:copy`, which leaves the implicit keep in force (RFC 3894).
    Copies,
    /// Ends the run with fault 1, as the class is not open.
    Refuses,
}

/// What becomes of an include (RFC 6609, section 3.2).
#[derive(Clone, Copy)]
pub enum Inclusion {
    /// The script is entered.
    Enters,
    /// Under `:once`: nothing, as the script was entered before.
    EnteredBefore,
    /// There is no such script: nothing under `:optional`, otherwise fault 2.
    Missing,
    /// The script is active: fault 3.
    Active,
    /// Eight scripts are active: fault 4.
    TooDeep,
}

/// Gets what a run comes to, in its order. What is entered is left in the opposite order, except where memory runs
/// out. Of a test that is not needed, and of a command that is not reached, nothing is reported.
pub trait Observer {
    /// The run comes to a command.
    fn enter_command(&mut self, command: &Command);

    /// The command that was entered last is done, with its tests and its block.
    fn leave_command(&mut self);

    /// The run comes to a test.
    fn enter_test(&mut self, test: &Test);

    /// The test that was entered last, which is this one, has this answer. It is the truth of the test.
    fn leave_test(&mut self, case: &BorrowedCase<'_, Paths>, test: &Test, answer: bool)
        requires { answer ≡ truth (facts_of case.now) (test_in (test_of test.now)) };

    /// The command that was entered last, which has this word and these arguments, does this.
    fn act(
        &mut self,
        case: &BorrowedCase<'_, Paths>,
        word: CommandWord,
        arguments: &[Argument],
        act: Act,
    )
        requires { act ≡ act_in (facts_of case.now) word arguments.now };

    /// The command that was entered last is this include.
    fn include(&mut self, include: &Include<'_>, inclusion: Inclusion);

    /// The script that an include entered last is done.
    fn leave_script(&mut self);
}

/// Observes nothing.
impl Observer for () {
    fn enter_command(&mut self, _command: &Command) {}

    fn leave_command(&mut self) {}

    fn enter_test(&mut self, _test: &Test) {}

    fn leave_test(&mut self, _case: &BorrowedCase<'_, Paths>, _test: &Test, _answer: bool) {}

    fn act(
        &mut self,
        _case: &BorrowedCase<'_, Paths>,
        _word: CommandWord,
        _arguments: &[Argument],
        _act: Act,
    ) {}

    fn include(&mut self, _include: &Include<'_>, _inclusion: Inclusion) {}

    fn leave_script(&mut self) {}
}
