//! Words of a command line, which `clap` reads by a program's table.

ghost use Rattle.std.specs.Prelude.{◌≡◌, IfOk, Some, map, option_map};
ghost use Rattle.clap.specs.Matches.{found_of};
ghost use Rattle.clap.specs.Simple.{HasMatchesOf};
ghost use Rattle.command_lines.specs.Tables.{app_of_table};
ghost use Rattle.command_lines.specs.Typed.{has_hyphened_after as has_hyphened_word_after, has_signed as has_signed_word, is_hyphened as is_hyphened_word, is_signed as is_signed_word, typed};
ghost use Rattle.command_lines.specs.declared.table.Values.TheVariants.{Plain};
ghost use Rattle.command_lines.specs.Asked.{all_values_in, is_given, text_of, value_in};

use crate::hints::{hint_on, stray_on};
use crate::table::{Hint, Program, Values, command_of};
use crate::wrapping::push_wrapped;
use clap::error::ErrorKind;
use clap::{ArgMatches, Command, Error};
use std::alloc::{AllocError, AllocFailed, Global};
use std::fmt::Display;
use std::{env, io};
use tool_texts::Shown;

/// Why a command line has nothing for a program to do.
#[derive(Drop)]
pub enum NoCommand {
    /// It asks for help or for the version, which is printed.
    Answered,
    /// `clap` refuses it, and has told why.
    Told,
    /// A value is refused for this reason, which is still to be told.
    Wrong(String),
    /// A word is not UTF-8.
    NotText,
    /// The program reads a word or a subcommand that is not in its table, or has one there that it does not read.
    Unread,
    /// There is no memory.
    NoMemory,
}

/// A word as it is typed; one without a character in quotation marks, so that it is seen.
pub(crate) fn seen(typed: &str) -> &str {
    if typed.is_empty() { "\"\"" } else { typed }
}

impl NoCommand {
    /// The refusal for a reason.
    pub(crate) fn refused(alloc: Global, reason: &str) -> NoCommand {
        match String::from_str(alloc, reason) {
            Ok(text) => NoCommand::Wrong(text),
            Err(_) => NoCommand::NoMemory,
        }
    }

    /// The refusal of a value as it is typed, with the reason.
    pub(crate) fn wrong(alloc: Global, typed: &str, reason: &str) -> NoCommand {
        match format!(in alloc; "{}: {reason}", seen(typed)) {
            Ok(text) => NoCommand::Wrong(text),
            Err(_) => NoCommand::NoMemory,
        }
    }

    /// The refusal of the value of an option, with the option, the value as it is typed, and the reason.
    pub(crate) fn wrong_after(alloc: Global, name: &str, typed: &str, reason: &str) -> NoCommand {
        match format!(in alloc; "--{name} {}: {reason}", seen(typed)) {
            Ok(text) => NoCommand::Wrong(text),
            Err(_) => NoCommand::NoMemory,
        }
    }
}

impl From<AllocError> for NoCommand {
    fn from(_error: AllocError) -> NoCommand {
        NoCommand::NoMemory
    }
}

impl<T: Drop> From<AllocFailed<T>> for NoCommand {
    fn from(_error: AllocFailed<T>) -> NoCommand {
        NoCommand::NoMemory
    }
}

/// The words with which the process was started, the program's name first.
pub fn words_of_process(rt: &HostRuntime) -> Result<Vec<String>, NoCommand> {
    match env::args(rt) {
        Ok(words) => Ok(words.collect(rt.alloc())?),
        Err(error) if error.kind() == io::ErrorKind::OutOfMemory => Err(NoCommand::NoMemory),
        Err(_) => Err(NoCommand::NotText),
    }
}

/// Adds the lines of what `clap` reports.
fn push_report(text: &mut Shown, error: &Error, report: &str) -> Result<(), AllocError> {
    for line in report.lines() {
        if error.use_stderr() {
            text.value(&line)?;
            text.end_line()?;
        } else {
            push_wrapped(text, line)?;
        }
    }
    Ok(())
}

/// What `clap` reports. A hidden character in it, which only a word of the command line can have, is shown by its number.
fn report_of(alloc: Global, error: &Error) -> Result<Shown, AllocError> {
    let report = error.to_string(alloc)?;
    let mut text = Shown::new(alloc);
    push_report(&mut text, error, report.as_str())?;
    Ok(text)
}

/// Prints what `clap` reports in place of words, unless that is a lack of memory.
fn tell_report(rt: &HostRuntime, error: &Error) -> NoCommand {
    if error.kind() == ErrorKind::OutOfMemory {
        return NoCommand::NoMemory;
    }
    let Ok(report) = report_of(rt.alloc(), error) else {
        return NoCommand::NoMemory;
    };
    if error.use_stderr() {
        let _ = eprint!(rt; "{report}");
        NoCommand::Told
    } else {
        let _ = print!(rt; "{report}");
        NoCommand::Answered
    }
}

/// Words as they are shown. A hidden character is shown by its number, so that no word has a line end.
pub(crate) fn shown_words(alloc: Global, words: &[String]) -> Result<Vec<String>, AllocError> {
    let mut shown = Vec::with_capacity(alloc, words.len())?;
    for word in words {
        let mut text = Shown::new(alloc);
        text.value(word)?;
        shown.push(text.into_string())?;
    }
    Ok(shown)
}

/// Prints what `clap` reports of words as they are shown, which are none of a command's.
pub(crate) fn tell_refusal<'a>(
    rt: &HostRuntime,
    command: Command<'a>,
    shown: &'a [String],
) -> NoCommand {
    match command.try_get_matches_from(shown) {
        Ok(_) => NoCommand::Unread,
        Err(error) => tell_report(rt, &error),
    }
}

/// What a program says of words that `clap` refuses: of an argument that is none of their subcommand's, whose name is the first
/// word that is typed, or which option is meant by it.
fn hinted(
    alloc: Global,
    program: &Program,
    words: &[String],
    error: &Error,
) -> Result<Option<String>, AllocError> {
    let Some(name) = words.get(1) else {
        return Ok(None);
    };
    let report = error.to_string(alloc)?;
    if let Some((argument, said)) = stray_on(program, name, report.as_str()) {
        return Ok(Some(format!(in alloc; "{}: {said}", seen(argument))?));
    }
    match hint_on(program, name, &report) {
        Some(Hint { typed, meant }) => Ok(Some(format!(in alloc;
            "{typed}: no such option; {meant} is meant?"
        )?)),
        None => Ok(None),
    }
}

/// Why words are none of a program's: by a hint, or as `clap` reports, which is printed.
fn refusal_of(
    rt: &HostRuntime,
    program: &Program,
    words: &[String],
    error: &Error,
) -> Result<NoCommand, AllocError> {
    let alloc = rt.alloc();
    if let Some(text) = hinted(alloc, program, words, error)? {
        return Ok(NoCommand::Wrong(text));
    }
    let shown = shown_words(alloc, words)?;
    let command = command_of(alloc, program, Values::Signed)?;
    Ok(tell_refusal(rt, command, shown.as_slice()))
}

/// Whether a word begins as a number with a sign does.
fn is_signed(word: &[u8]) -> bool
    ensures { result ≡ is_signed_word word.now }
{
    word.len() > 1 && word[0] == b'-' && word[1] >= b'0' && word[1] <= b'9'
}

/// Whether a word begins with a hyphen.
fn is_hyphened(word: &[u8]) -> bool
    ensures { result ≡ is_hyphened_word word.now }
{
    !word.is_empty() && word[0] == b'-'
}

/// Whether a number with a sign is typed.
pub(crate) fn has_signed(words: &[String]) -> bool
    ensures { result ≡ has_signed_word (typed words.now) }
{
    for word in words {
        if is_signed(word.as_bytes()) {
            return true;
        }
    }
    false
}

/// Whether a word with a hyphen at its beginning stands right after this one.
pub(crate) fn has_hyphened_after(words: &[String], before: &str) -> bool
    ensures { result ≡ has_hyphened_word_after before.now (typed words.now) }
{
    let mut is_after = false;
    for word in words {
        if is_after && is_hyphened(word.as_bytes()) {
            return true;
        }
        is_after = word.as_str() == before;
    }
    false
}

/// Reads words by the table of a program. Where they are none of its, and the program has no hint on them, what `clap` reports
/// is printed.
pub(crate) fn read_words<'a>(
    rt: &HostRuntime,
    program: &Program,
    words: &'a [String],
    values: Values,
) -> Result<ArgMatches<'a>, NoCommand>
    ensures { values ≡ Plain
        → IfOk result (HasMatchesOf (app_of_table program.now) (typed words.now)) }
{
    match command_of(rt.alloc(), program, values)?.try_get_matches_from(words) {
        Ok(matches) => Ok(matches),
        Err(error) => Err(refusal_of(rt, program, words, &error)?),
    }
}

/// The value of the word of a name, if it is given.
pub(crate) fn value_of<'a>(asked: &ArgMatches<'a>, name: &str) -> Option<&'a str>
    ensures { text_of result ≡ value_in (found_of asked.now) name.now }
{
    asked.get_str(name)
}

/// The value of the word of a name, which must be given.
pub(crate) fn required<'a>(asked: &ArgMatches<'a>, name: &str) -> Result<&'a str, NoCommand>
    ensures { IfOk result (λ s. value_in (found_of asked.now) name.now ≡ Some s.now) }
{
    match value_of(asked, name) {
        Some(value) => Ok(value),
        None => Err(NoCommand::Unread),
    }
}

/// The values of the word of a name, in the order in which they are given, if any is.
pub(crate) fn values_of<'m, 'a>(asked: &'m ArgMatches<'a>, name: &str) -> Option<&'m [&'a str]>
    ensures { option_map (λ s. map (λ v. v.now) s.now) result
        ≡ all_values_in (found_of asked.now) name.now }
{
    asked.get_strs(name)
}

/// Whether the flag of a name is given.
pub(crate) fn has_flag(asked: &ArgMatches<'_>, name: &str) -> bool
    ensures { result ≡ is_given (found_of asked.now) name.now }
{
    asked.get_one(name).unwrap_or(false)
}
