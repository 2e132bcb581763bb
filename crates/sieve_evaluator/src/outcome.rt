//! The evaluator's call.

ghost use Rattle.std.specs.Prelude.{◌≡◌, IfOk, map, option_copied};
ghost use Rattle.sieve_meaning.specs.Meaning.{main_names, meaning};
ghost use Rattle.sieve_meaning.specs.Outcome.{outcome_at, outcome_of};
ghost use Rattle.sieve_evaluator.specs.Case.{facts_of};
ghost use Rattle.sieve_evaluator.specs.Runs.{fault_of};
ghost use Rattle.sieve_meaning.specs.Scripts.{script_of};
ghost use Rattle.sieve_library.specs.BorrowedShelves.{library_on};
ghost use Rattle.sieve_library.specs.Libraries.{program_in};

use crate::case::BorrowedCase;
use crate::commands::run;
use crate::filing::{Ending, Filing};
use crate::observer::Observer;
use crate::scope::Scope;
use class_paths::Paths;
use sieve_library::Shelves;
use sieve_meaning::{Levels, Location, Outcome, ScriptName, outcome_at_end};
use sieve_syntax::Script;
use std::alloc::{AllocError, Global};
use std::collections::VecDeque;

/// The outcome of a run, from its end and from what it has done.
fn captured(alloc: Global, ending: Ending, filing: &Filing<'_>) -> Result<Outcome, AllocError>
    ensures { IfOk result (λ o. o ≡
        outcome_at (fault_of ending) filing.now.filed filing.now.kept filing.now.cancelled) }
{
    outcome_at_end(
        alloc,
        ending.fault(),
        &filing.filed,
        filing.kept,
        filing.cancelled,
    )
}

/// The main script's personal name, if it has one.
fn main_names<'a>(
    alloc: Global,
    known_as: Option<&'a [u8]>,
) -> Result<Vec<ScriptName<'a>>, AllocError>
    ensures { IfOk result (λ v. map script_of v.items ≡ main_names (option_copied known_as.entry)) }
{
    let mut names = Vec::new(alloc);
    if let Some(name) = known_as {
        names.push(ScriptName {
            location: Location::Personal,
            name,
        })?;
    }
    Ok(names)
}

/// The scripts that are entered at the beginning: the main one, where it has a personal name.
fn main_entered<'a>(
    alloc: Global,
    known_as: Option<&'a [u8]>,
) -> Result<VecDeque<ScriptName<'a>>, AllocError>
    ensures { IfOk result (λ v. map script_of v.items ≡ main_names (option_copied known_as.entry)) }
{
    let mut names = VecDeque::new(alloc);
    if let Some(name) = known_as {
        names.push_front(ScriptName {
            location: Location::Personal,
            name,
        })?;
    }
    Ok(names)
}

/// What a main script captures a message in: the outcome of what the script means in the message's case. The script may
/// be known by a personal name, and may include the scripts of two shelves. Its weight is not looked at: a script that
/// is too heavy for an image is run like any other. The observer gets what the run comes to. The only error is out
/// of memory.
pub fn evaluate_observed<'a, O: Observer>(
    alloc: Global,
    main: &'a Script,
    known_as: Option<&'a [u8]>,
    shelves: Shelves<'a>,
    case: &BorrowedCase<'_, Paths>,
    observer: &mut O,
) -> Result<Outcome, AllocError>
    ensures { IfOk result (λ o. o ≡ outcome_of (meaning (facts_of case.now)
        (library_on shelves.entry) (option_copied known_as.entry) (program_in main.now))) }
{
    let chain = main_names(alloc, known_as)?;
    let scope = Scope {
        case,
        shelves,
        chain: chain.as_slice(),
    };
    let entered = main_entered(alloc, known_as)?;
    let mut filing = Filing {
        filed: Paths::new(alloc),
        kept: false,
        cancelled: false,
        entered,
    };
    let ending = run::<Levels, O>(alloc, &scope, &main.commands, &mut filing, observer)?;
    let outcome = captured(alloc, ending, &filing)?;
    Ok(outcome)
}

/// What a main script captures a message in, as `evaluate_observed` gives it, with nobody to observe the run.
pub fn evaluate<'a>(
    alloc: Global,
    main: &'a Script,
    known_as: Option<&'a [u8]>,
    shelves: Shelves<'a>,
    case: &BorrowedCase<'_, Paths>,
) -> Result<Outcome, AllocError>
    ensures { IfOk result (λ o. o ≡ outcome_of (meaning (facts_of case.now)
        (library_on shelves.entry) (option_copied known_as.entry) (program_in main.now))) }
{
    let mut nobody = ();
    evaluate_observed(alloc, main, known_as, shelves, case, &mut nobody)
}
