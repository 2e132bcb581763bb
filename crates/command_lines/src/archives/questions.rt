//! What a command line asks of records: their numbers, and conditions that they meet.

ghost use Rattle.std.specs.Prelude.{◌≡◌, [], IfOk};
ghost use Rattle.clap.specs.Matches.{found_of};
ghost use Rattle.command_lines.specs.Asked.{text_in, text_of, value_in};
ghost use Rattle.command_lines.specs.Chosen.{are_backwards, AreChosen, AreConditioned, AreConditions, AreDays, AreMeant};
ghost use Rattle.command_lines.specs.Days.{IsDay};

use super::names;
use super::numbers::{Numbers, first_asked, numbers_asked};
use crate::days::day_of;
use crate::reading::{NoCommand, has_flag, value_of};
use choice_words::{Choice, TypedChoice, VolumeNumber};
use clap::ArgMatches;
use jiff::civil::Date;
use std::alloc::Global;

/// A day, where it is given.
pub(super) fn day_asked(
    alloc: Global,
    asked: &ArgMatches<'_>,
    name: &str,
) -> Result<Option<Date>, NoCommand>
    ensures { IfOk result (IsDay (value_in (found_of asked.now) name.now)) }
{
    let Some(text) = value_of(asked, name) else {
        return Ok(None);
    };
    match day_of(text) {
        Some(day) => Ok(Some(day)),
        None => Err(NoCommand::wrong_after(
            alloc,
            name,
            text,
            "not a day of 1970 to 9999, written YYYY-MM-DD",
        )),
    }
}

/// Whether a first day is after a last one.
fn is_backwards(first: Option<Date>, last: Option<Date>) -> bool
    ensures { result ≡ are_backwards first last }
{
    match (first, last) {
        (Some(first), Some(last)) => last < first,
        _ => false,
    }
}

/// The days of capture from which and up to which records are asked for, where they are given.
fn days_asked(
    alloc: Global,
    asked: &ArgMatches<'_>,
) -> Result<(Option<Date>, Option<Date>), NoCommand>
    ensures { IfOk result (λ days. AreDays (found_of asked.now) days.0 days.1) }
{
    let since = day_asked(alloc, asked, names::SINCE)?;
    let until = day_asked(alloc, asked, names::UNTIL)?;
    if is_backwards(since, until) {
        let reason = "the day of --until is before that of --since";
        return Err(NoCommand::Wrong(String::from_str(alloc, reason)?));
    }
    Ok((since, until))
}

/// The text that is looked for, where it is given: without the white space at its ends, which no one sees who types it.
fn text_asked<'a>(asked: &ArgMatches<'a>, name: &str) -> Option<&'a str>
    ensures { text_of result ≡ text_in (found_of asked.now) name.now }
{
    let text = value_of(asked, name)?;
    Some(text.trim())
}

/// The conditions that are given.
fn conditions_of<'a>(alloc: Global, asked: &ArgMatches<'a>) -> Result<Choice<'a>, NoCommand>
    ensures conditions { IfOk result (AreConditions (found_of asked.now)) }
    ensures numbers { IfOk result (λ c. c.numbers.items ≡ []) }
    ensures from { IfOk result (λ c. c.from ≡ 1) }
{
    let (since, until) = days_asked(alloc, asked)?;
    let due = day_asked(alloc, asked, names::DUE)?;
    Ok(Choice {
        numbers: Vec::new(alloc),
        from: 1,
        class: value_of(asked, names::CLASS),
        due,
        since,
        until,
        is_held: has_flag(asked, names::HELD),
        is_live: has_flag(asked, names::LIVE),
        is_destroyed: has_flag(asked, names::DESTROYED),
        test: value_of(asked, names::WHERE),
        sender: text_asked(asked, names::SENDER),
        recipient: text_asked(asked, names::RECIPIENT),
        subject: text_asked(asked, names::SUBJECT),
    })
}

/// The conditions of a choice, without numbers.
pub(super) fn conditions_asked<'a>(
    alloc: Global,
    asked: &ArgMatches<'a>,
) -> Result<TypedChoice<'a>, NoCommand>
    ensures { IfOk result (AreConditioned (found_of asked.now)) }
{
    Ok(TypedChoice {
        alone: conditions_of(alloc, asked)?,
        of_volumes: Vec::new(alloc),
        from: None,
    })
}

/// Which records are chosen, from the first one on.
pub(super) fn typed_of<'a>(
    alloc: Global,
    asked: &ArgMatches<'a>,
) -> Result<TypedChoice<'a>, NoCommand>
    ensures { IfOk result (AreMeant (found_of asked.now)) }
{
    let conditions = conditions_of(alloc, asked)?;
    let Numbers { alone, of_volumes } = numbers_asked(alloc, asked)?;
    Ok(TypedChoice {
        alone: Choice {
            numbers: alone,
            ..conditions
        },
        of_volumes,
        from: None,
    })
}

/// Which records are chosen, from the first that is looked at on.
pub(super) fn choice_asked<'a>(
    alloc: Global,
    asked: &ArgMatches<'a>,
) -> Result<TypedChoice<'a>, NoCommand>
    ensures { IfOk result (AreChosen (found_of asked.now)) }
{
    let mut choice = typed_of(alloc, asked)?;
    let Some(first) = first_asked(alloc, asked)? else {
        return Ok(choice);
    };
    let number = first.number;
    match first.volume {
        Some(volume) => choice.from = Some(VolumeNumber { volume, number }),
        None => choice.alone.from = number,
    }
    Ok(choice)
}
