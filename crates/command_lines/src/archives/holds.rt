//! What a command line asks of holds.

ghost use Rattle.std.specs.Prelude.{IfOk};
ghost use Rattle.clap.specs.Matches.{found_of};
ghost use Rattle.command_lines.specs.Changes.{IsHolding, IsHoldName, IsNewName, IsRelease, IsWhole};
ghost use Rattle.command_lines.specs.Chosen.{AreHeld};

use super::questions::typed_of;
use super::{ChosenTask, Command, judge_place, names};
use crate::reading::{NoCommand, has_flag, required};
use choice_words::TypedChoice;
use clap::ArgMatches;
use session_words::is_name;
use std::alloc::Global;

/// The name of a hold.
fn name_asked<'a>(alloc: Global, asked: &ArgMatches<'a>) -> Result<&'a str, NoCommand>
    ensures { IfOk result (λ name. IsHoldName (found_of asked.now) name.now) }
{
    let name = required(asked, names::NAME)?;
    if is_name(name.as_bytes()) {
        return Ok(name);
    }
    let reason = "a hold's name is 1 to 64 octets from 33 to 126";
    Err(NoCommand::wrong(alloc, name, reason))
}

/// What is said of numbers of records where the name of a hold belongs.
pub(super) const NAME_FORGOTTEN: &str =
    "numbers of records, where the name of the hold belongs; type it before them, as audit 3 5-9";

/// The name of a hold that is to be placed. One that reads as numbers is refused.
fn new_name_asked<'a>(alloc: Global, asked: &ArgMatches<'a>) -> Result<&'a str, NoCommand>
    ensures { IfOk result (λ name. IsNewName (found_of asked.now) name.now) }
{
    let name = name_asked(alloc, asked)?;
    judge_place(alloc, name, NAME_FORGOTTEN)?;
    Ok(name)
}

/// Which records the hold or the class of a name is about. They must be named; if they are not, `missing` says how they are.
pub(super) fn held_asked<'a>(
    alloc: Global,
    asked: &ArgMatches<'a>,
    name: &str,
    missing: &str,
) -> Result<TypedChoice<'a>, NoCommand>
    ensures { IfOk result (AreHeld (found_of asked.now)) }
{
    let choice = typed_of(alloc, asked)?;
    if choice.is_empty() {
        return Err(NoCommand::wrong(alloc, name, missing));
    }
    Ok(choice)
}

/// What is said where a hold is to be placed on nothing.
const NONE_TO_HOLD: &str =
    "the name of the hold; name the records too, by their numbers as 3 5-9, or by conditions as --sender müller";

/// What is said where a hold is to end on nothing.
const NONE_TO_RELEASE: &str =
    "the name of the hold; name the records too, by their numbers as 3 5-9, or by conditions as --sender müller, or end the whole hold by --all";

/// On which records a hold is placed.
pub(super) fn hold_asked<'a>(
    alloc: Global,
    asked: &ArgMatches<'a>,
) -> Result<Command<'a>, NoCommand>
    ensures { IfOk result (IsHolding (found_of asked.now)) }
{
    let name = new_name_asked(alloc, asked)?;
    let choice = held_asked(alloc, asked, name, NONE_TO_HOLD)?;
    Ok(Command::Chosen(choice, ChosenTask::Hold(name)))
}

/// The end of a whole hold. Records beside it are refused.
fn whole_asked<'a>(
    alloc: Global,
    asked: &ArgMatches<'a>,
    name: &'a str,
) -> Result<Command<'a>, NoCommand>
    ensures { IfOk result (IsWhole (found_of asked.now) name.now) }
{
    if !typed_of(alloc, asked)?.is_empty() {
        let reason = "--all ends the hold on each record; it takes no numbers and no conditions";
        return Err(NoCommand::refused(alloc, reason));
    }
    Ok(Command::ReleaseAll {
        name,
        is_agreed: has_flag(asked, names::YES),
    })
}

/// On which records a hold ends. `--yes` is refused where the whole hold does not end, since nobody is asked then.
pub(super) fn release_asked<'a>(
    alloc: Global,
    asked: &ArgMatches<'a>,
) -> Result<Command<'a>, NoCommand>
    ensures { IfOk result (IsRelease (found_of asked.now)) }
{
    let name = name_asked(alloc, asked)?;
    if has_flag(asked, names::ALL) {
        return whole_asked(alloc, asked, name);
    }
    if has_flag(asked, names::YES) {
        return Err(NoCommand::refused(alloc, "--yes needs --all"));
    }
    let choice = held_asked(alloc, asked, name, NONE_TO_RELEASE)?;
    Ok(Command::Chosen(choice, ChosenTask::Release(name)))
}
