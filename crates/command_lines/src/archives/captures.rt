//! What a command line says of how mail is captured: by which rules, as of which moment, for how long, and what is told of it.

ghost use Rattle.std.specs.Prelude.{◌≡◌, ◌*ℤ◌, codes, pos, IfOk, IfSome, Some};
ghost use Rattle.jiff.specs.Words.{epoch_day};
ghost use Rattle.clap.specs.Matches.{found_of};
ghost use Rattle.command_lines.specs.Asked.{value_in};
ghost use Rattle.command_lines.specs.Captures.{limit_typed, IsFiling, IsFirstSecond, IsIntake, IsMoment, IsSecond};

use super::{Command, Filing, Moment, Telling, names};
use crate::days::day_of;
use crate::reading::{NoCommand, has_flag, required, value_of};
use clap::ArgMatches;
use jiff::civil::{Date, date};
use session_words::read_number;
use std::alloc::Global;

/// How many hours there are from the beginning of 1970 to that of a day, in UTC.
fn hours_before(day: Date) -> i64
    ensures { result ≡ epoch_day day *ℤ pos 24 }
{
    date(1970, 1, 1).duration_until(day).as_hours()
}

/// The first second of a day in UTC, in seconds since 1970; none for a day before.
fn first_second_of(day: Date) -> Option<u64>
    ensures { IfSome result (IsFirstSecond day) }
{
    u64::try_from(hours_before(day)).ok()?.checked_mul(3_600)
}

/// The moment that a word is: a number of seconds since 1970, of 64 bits in decimal digits without a leading zero, or a day of
/// 1970 to 9999, which begins at midnight in UTC. None for any other word.
fn moment_of(word: &str) -> Option<u64>
    ensures { IfSome result (IsSecond word.now) }
{
    match read_number(word.as_bytes(), u64::MAX) {
        Some(seconds) => Some(seconds),
        None => first_second_of(day_of(word)?),
    }
}

/// The moment of a capture.
fn moment_asked(alloc: Global, asked: &ArgMatches<'_>) -> Result<Moment, NoCommand>
    ensures { IfOk result (IsMoment (value_in (found_of asked.now) (codes "at"))) }
{
    match value_of(asked, names::AT) {
        None => Ok(Moment::Unnamed),
        Some("now") => Ok(Moment::Now),
        Some(word) => match moment_of(word) {
            Some(moment) => Ok(Moment::At(moment)),
            None => Err(NoCommand::wrong_after(
                alloc,
                names::AT,
                word,
                "none of now, a number of seconds since 1970, and a day written YYYY-MM-DD",
            )),
        },
    }
}

/// How long the work on a message may take where it is not said, in seconds.
const LIMIT: u64 = 60;

/// The longest time that the work on a message may be given, in seconds: a day.
const GREATEST_LIMIT: u64 = 86_400;

/// How long the work on a message may take, in seconds.
fn limit_asked(alloc: Global, asked: &ArgMatches<'_>) -> Result<u64, NoCommand>
    ensures { IfOk result (λ limit. limit_typed (value_in (found_of asked.now) (codes "limit")) ≡ Some limit) }
{
    let Some(word) = value_of(asked, names::LIMIT) else {
        return Ok(LIMIT);
    };
    match read_number(word.as_bytes(), GREATEST_LIMIT) {
        Some(seconds) if seconds > 0 => Ok(seconds),
        _ => Err(NoCommand::wrong_after(
            alloc,
            names::LIMIT,
            word,
            "not a number of seconds from 1 to 86400",
        )),
    }
}

/// How mail is filed.
pub(super) fn filing_asked<'a>(
    alloc: Global,
    asked: &ArgMatches<'a>,
) -> Result<Filing<'a>, NoCommand>
    ensures { IfOk result (IsFiling (found_of asked.now)) }
{
    Ok(Filing {
        rules: required(asked, names::RULES)?,
        officer: required(asked, names::OFFICER)?,
        unfiled_on_fault: has_flag(asked, names::UNFILED_ON_FAULT),
        moment: moment_asked(alloc, asked)?,
        limit: limit_asked(alloc, asked)?,
    })
}

/// The Maildir whose new messages are captured, and how.
pub(super) fn intake_asked<'a>(
    alloc: Global,
    asked: &ArgMatches<'a>,
) -> Result<Command<'a>, NoCommand>
    ensures { IfOk result (IsIntake (found_of asked.now)) }
{
    Ok(Command::Intake {
        maildir: required(asked, names::MAILDIR)?,
        filing: filing_asked(alloc, asked)?,
        telling: Telling {
            is_quiet: has_flag(asked, names::QUIET),
            has_times: has_flag(asked, names::TIMES),
        },
    })
}
