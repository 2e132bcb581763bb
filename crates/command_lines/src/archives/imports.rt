//! What a command line asks of an import.

ghost use Rattle.std.specs.Prelude.{codes, IfOk};
ghost use Rattle.clap.specs.Matches.{found_of};
ghost use Rattle.command_lines.specs.Asked.{value_in};
ghost use Rattle.command_lines.specs.Captures.{Imports, IsDated};

use super::captures::filing_asked;
use super::{Filing, names};
use crate::days::day_of;
use crate::reading::{NoCommand, has_flag, required, values_of};
use clap::ArgMatches;
use jiff::civil::Date;
use std::alloc::Global;

/// What gives the moment of a message's capture.
#[derive(Clone, Copy)]
pub enum Dating {
    /// The topmost `Received` field of the message.
    Received,
    /// Its `Date` field.
    Date,
    /// The clock.
    Now,
    /// The beginning of a day, in UTC.
    On(Date),
}

/// Old mail that is taken in.
#[derive(Drop)]
pub struct Import<'a> {
    /// The paths of mboxes, of folders of `.eml` files and of Maildirs; at least one.
    pub sources: Vec<&'a str>,
    /// How it is filed. Its moment is not used.
    pub filing: Filing<'a>,
    pub dating: Dating,
    /// Whether nothing is told of what is captured and passed over.
    pub is_quiet: bool,
    /// Whether each message is told that is captured already. Not where it is quiet.
    pub is_verbose: bool,
    /// Whether messages are captured again that the history has as captured.
    pub is_again: bool,
}

/// What gives the moment of a message's capture.
fn dating_asked(alloc: Global, asked: &ArgMatches<'_>) -> Result<Dating, NoCommand>
    ensures { IfOk result (IsDated (value_in (found_of asked.now) (codes "dated"))) }
{
    let word = required(asked, names::DATED)?;
    match word {
        "received" => Ok(Dating::Received),
        "date" => Ok(Dating::Date),
        "now" => Ok(Dating::Now),
        _ => match day_of(word) {
            Some(day) => Ok(Dating::On(day)),
            None => {
                let reason =
                    "none of received, date and now, nor a day of 1970 to 9999, written YYYY-MM-DD";
                Err(NoCommand::wrong(alloc, word, reason))
            }
        },
    }
}

/// What is taken in, and how.
pub(super) fn import_asked<'a>(
    alloc: Global,
    asked: &ArgMatches<'a>,
) -> Result<Import<'a>, NoCommand>
    ensures { IfOk result (Imports (found_of asked.now)) }
{
    let typed = values_of(asked, names::SOURCES).unwrap_or(&[]);
    let filing = filing_asked(alloc, asked)?;
    let dating = dating_asked(alloc, asked)?;
    Ok(Import {
        sources: Vec::from_slice(alloc, typed)?,
        filing,
        dating,
        is_quiet: has_flag(asked, names::QUIET),
        is_verbose: has_flag(asked, names::VERBOSE),
        is_again: has_flag(asked, names::AGAIN),
    })
}
