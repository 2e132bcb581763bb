//! What a command line asks of a refiling.

ghost use Rattle.std.specs.Prelude.{IfOk};
ghost use Rattle.clap.specs.Matches.{found_of};
ghost use Rattle.command_lines.specs.Changes.{IsRefile};

use super::holds::held_asked;
use super::{ChosenTask, Command, names};
use crate::reading::{NoCommand, has_flag, required};
use clap::ArgMatches;
use std::alloc::Global;

/// Another class for records.
#[derive(Clone, Copy)]
pub struct Refiling<'a> {
    /// The path of the class, as it is typed.
    pub to: &'a str,
    /// Whether nobody is asked before.
    pub is_agreed: bool,
}

/// What is said where no record is to get another class.
const NONE_TO_REFILE: &str =
    "the class that records get; name the records too, by their numbers as 3 5-9, or by conditions as --sender müller";

/// Which records get another class, and which one. A reason must be given.
pub(super) fn refile_asked<'a>(
    alloc: Global,
    asked: &ArgMatches<'a>,
) -> Result<Command<'a>, NoCommand>
    ensures { IfOk result (IsRefile (found_of asked.now)) }
{
    let to = required(asked, names::TO)?;
    if required(asked, names::REASON)?.is_empty() {
        return Err(NoCommand::refused(alloc, "refile needs a reason; give it by --reason TEXT"));
    }
    let choice = held_asked(alloc, asked, to, NONE_TO_REFILE)?;
    let refiling = Refiling {
        to,
        is_agreed: has_flag(asked, names::YES),
    };
    Ok(Command::Chosen(choice, ChosenTask::Refile(refiling)))
}
