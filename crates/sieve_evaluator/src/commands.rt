//! Runs the commands of a checked script (RFC 5228, sections 3 and 4).

ghost use Rattle.std.specs.Prelude.{◌≡◌, IfOk, map, false};
ghost use Rattle.sieve_syntax.specs.View.{command_of, commands_of, ending_of};
ghost use Rattle.sieve_evaluator.specs.Case.{facts_of};
ghost use Rattle.sieve_evaluator.specs.Runs.{ending_at, filing_of, commands_in, filing_into, IsNoIf, runs_at_level, PlainlyEndsAt, EndsAt, BranchEndsAt};

use crate::case::BorrowedCase;
use crate::entry::ScriptEntry;
use crate::filing::{Ending, Filing};
use crate::includes::run_include;
use crate::observer::{Act, Observer};
use crate::scope::Scope;
use crate::truth::is_only_true;
use class_paths::Paths;
use mail_case::Case;
use sieve_meaning::branches::{BranchPart, part_in};
use sieve_meaning::reading::{first_string, has_tag, include};
use sieve_meaning::{CommandWord, RunFault, command_word};
use sieve_syntax::{Argument, Command, Ending as CommandEnding};
use std::alloc::{AllocError, Global};

/// `fileinto` (RFC 5228, section 4.1): adds the path, and cancels the implicit keep unless `:copy` is given (RFC 3894).
/// It is a fault where the path is not open.
fn file_into<O: Observer>(
    alloc: Global,
    case: &BorrowedCase<'_, Paths>,
    arguments: &[Argument],
    filing: &mut Filing<'_>,
    observer: &mut O,
) -> Result<Ending, AllocError>
    ensures { IfOk result (λ e. ending_at e filing.new ≡
        filing_into (facts_of case.now) arguments.now (filing_of filing.old)) }
{
    let path = first_string(arguments);
    if !case.is_open(path) {
        observer.act(case, CommandWord::FileInto, arguments, Act::Refuses);
        return Ok(Ending::Faults(RunFault::ClassNotOpen));
    }
    filing.filed.insert(alloc, path)?;
    if has_tag(arguments, b"copy") {
        observer.act(case, CommandWord::FileInto, arguments, Act::Copies);
        return Ok(Ending::GoesOn);
    }
    filing.cancelled = true;
    observer.act(case, CommandWord::FileInto, arguments, Act::Files);
    Ok(Ending::GoesOn)
}

/// A command that is no branch, and has no block.
fn run_plain<'a, L: ScriptEntry, O: Observer>(
    alloc: Global,
    scope: &Scope<'_, '_, 'a>,
    word: CommandWord,
    arguments: &'a [Argument],
    filing: &mut Filing<'a>,
    observer: &mut O,
) -> Result<Ending, AllocError>
    ensures { IsNoIf word → IfOk result (λ e. PlainlyEndsAt L.depth scope.now word arguments.now
        (filing_of filing.old) (ending_at e filing.new)) }
{
    match word {
        CommandWord::Stop => {
            observer.act(scope.case, word, arguments, Act::Stops);
            Ok(Ending::Stops)
        }
        CommandWord::Return => {
            observer.act(scope.case, word, arguments, Act::Returns);
            Ok(Ending::Returns)
        }
        CommandWord::Keep => {
            filing.kept = true;
            observer.act(scope.case, word, arguments, Act::Keeps);
            Ok(Ending::GoesOn)
        }
        CommandWord::Discard => {
            filing.cancelled = true;
            observer.act(scope.case, word, arguments, Act::Discards);
            Ok(Ending::GoesOn)
        }
        CommandWord::FileInto => file_into(alloc, scope.case, arguments, filing, observer),
        CommandWord::Include => {
            run_include::<L, O>(alloc, scope, &include(arguments), filing, observer)
        }
        CommandWord::ElsIf => {
            observer.act(scope.case, word, arguments, Act::Passes);
            Ok(Ending::GoesOn)
        }
        CommandWord::Else => {
            observer.act(scope.case, word, arguments, Act::Passes);
            Ok(Ending::GoesOn)
        }
        CommandWord::Require | CommandWord::If | CommandWord::Other => Ok(Ending::GoesOn),
    }
}

/// Runs the block that a command ends with.
#[cycle(running)]
fn run_block<'a, L: ScriptEntry, O: Observer>(
    alloc: Global,
    scope: &Scope<'_, '_, 'a>,
    ending: &'a CommandEnding,
    filing: &mut Filing<'a>,
    observer: &mut O,
) -> Result<Ending, AllocError>
    ensures { IfOk result (λ e. ending_at e filing.new ≡ runs_at_level L.depth scope.now false
        (commands_in (ending_of ending.now)) (filing_of filing.old)) }
{
    match ending {
        CommandEnding::Semicolon => Ok(Ending::GoesOn),
        CommandEnding::Block(commands) => run::<L, O>(alloc, scope, commands, filing, observer),
    }
}

/// Runs an `if`, or an `elsif` that is open. Answers whether the branches after it are open.
#[cycle(running)]
fn run_branch<'a, L: ScriptEntry, O: Observer>(
    alloc: Global,
    scope: &Scope<'_, '_, 'a>,
    command: &'a Command,
    filing: &mut Filing<'a>,
    observer: &mut O,
) -> Result<(Ending, bool), AllocError>
    ensures { IfOk result (λ r. BranchEndsAt L.depth scope.now (command_of command.now)
        (filing_of filing.old) (ending_at r.0 filing.new) r.1) }
{
    if !is_only_true(scope.case, &command.tests, observer) {
        return Ok((Ending::GoesOn, true));
    }
    let ending = run_block::<L, O>(alloc, scope, &command.ending, filing, observer)?;
    Ok((ending, false))
}

/// Runs one command. Answers whether the branches after it are open.
#[cycle(running)]
fn run_command<'a, L: ScriptEntry, O: Observer>(
    alloc: Global,
    scope: &Scope<'_, '_, 'a>,
    command: &'a Command,
    is_open: bool,
    filing: &mut Filing<'a>,
    observer: &mut O,
) -> Result<(Ending, bool), AllocError>
    ensures { IfOk result (λ r. EndsAt L.depth scope.now is_open (command_of command.now)
        (filing_of filing.old) (ending_at r.0 filing.new) r.1) }
{
    let word = command_word(command.name.as_slice());
    match part_in(word, is_open) {
        BranchPart::Branch => {
            let (ending, opens) = run_branch::<L, O>(alloc, scope, command, filing, observer)?;
            Ok((ending, opens))
        }
        BranchPart::Otherwise => {
            let ending = run_block::<L, O>(alloc, scope, &command.ending, filing, observer)?;
            Ok((ending, false))
        }
        BranchPart::Plain => {
            let arguments = command.arguments.as_slice();
            let ending = run_plain::<L, O>(alloc, scope, word, arguments, filing, observer)?;
            Ok((ending, false))
        }
    }
}

/// Runs commands in order as long as each goes on. The observer gets each, and what it comes to.
#[cycle(running)]
pub fn run<'a, L: ScriptEntry, O: Observer>(
    alloc: Global,
    scope: &Scope<'_, '_, 'a>,
    commands: &'a Vec<Command>,
    filing: &mut Filing<'a>,
    observer: &mut O,
) -> Result<Ending, AllocError>
    ensures { IfOk result (λ e. ending_at e filing.new ≡ runs_at_level L.depth scope.now false
        (commands_of (map command_of commands.now.items)) (filing_of filing.old)) }
{
    let mut is_open = false;
    for command in commands {
        observer.enter_command(command);
        let (ending, opens) = run_command::<L, O>(
            alloc, scope, command, is_open, filing, observer,
        )?;
        observer.leave_command();
        if ending != Ending::GoesOn {
            return Ok(ending);
        }
        is_open = opens;
    }
    Ok(Ending::GoesOn)
}
