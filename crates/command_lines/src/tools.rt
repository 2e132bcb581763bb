//! The command line of `mailfile-tool`: what it asks for, with each value read and judged.

ghost use Rattle.std.specs.Prelude.{◌≡◌, false, IfOk};
ghost use Rattle.clap.specs.Matches.{found_of};
ghost use Rattle.session_words.specs.Words.{number_up_to};
ghost use Rattle.command_lines.specs.Tools.{format_in, AreFolders, AreRules, IsAsked, IsCaptureDay, IsChecked, IsCommand, IsCompile, IsExplained, IsFound, IsPlace, IsRecipients, IsToolRead};
ghost use Rattle.command_lines.specs.Typed.{has_signed as has_signed_word, typed};
ghost use Rattle.command_lines.specs.declared.table.Values.TheVariants.{Plain};

mod names;
mod words;

use crate::days::day_of;
use crate::reading::{NoCommand, has_flag, has_signed, read_words, required, value_of, values_of};
use crate::table::Values;
use clap::ArgMatches;
use jiff::civil::Date;
use session_words::read_number;
use std::alloc::Global;

/// The last year in which a message can be captured.
const LAST_YEAR: i16 = 2199;

/// What is said of a day on which no message can be captured.
pub const NO_DAY: &str = "the day is not YYYY-MM-DD of the years 1970 to 2199";

/// What `mailfile-tool` is asked to do. Files and folders are named by their paths.
#[derive(Drop)]
pub enum Command<'a> {
    /// Frames commands for a session.
    Frame {
        /// The file of the commands; none for standard input.
        file: Option<&'a str>,
    },
    Explain(Explain<'a>),
    Check(Check<'a>),
    /// Writes the image of a script.
    Compile {
        /// The script, or the officer where it is in a folder of all rules.
        script: &'a str,
        place: Place<'a>,
        image: &'a str,
    },
    /// Shows an image.
    Dump {
        image: &'a str,
    },
    Why(Why<'a>),
    /// Writes the recipients of mail for records.
    Recipients {
        /// The folder of all rules.
        rules: &'a str,
        /// The domains of the recipients.
        domains: Vec<&'a str>,
    },
}

/// What is explained.
#[derive(Clone, Copy)]
pub enum Explain<'a> {
    /// All numbers.
    Numbers,
    Number {
        /// The number as it is typed.
        word: &'a str,
        /// None where it is none of 0 to 255.
        number: Option<u8>,
    },
    /// The replies on standard input.
    Replies {
        /// The script that was refused.
        script: Option<&'a str>,
    },
}

/// Judges files.
#[derive(Drop)]
pub struct Check<'a> {
    /// Scripts and plans; officers where their scripts are in a folder of all rules.
    pub files: Vec<&'a str>,
    /// The present plan.
    pub plan: Option<&'a str>,
    pub place: Place<'a>,
}

/// Where scripts are.
#[derive(Clone, Copy)]
pub enum Place<'a> {
    /// Each is named by its path, and those that can be included are in these folders.
    Folders(Folders<'a>),
    /// In the folder of all rules at this path: an officer's program is `OFFICER/main.sieve`.
    Rules(&'a str),
}

/// The folders of the scripts that can be included; none where the command line names none.
#[derive(Clone, Copy)]
pub struct Folders<'a> {
    /// The folder of the officer's own scripts.
    pub personal: Option<&'a str>,
    /// The folder of the scripts that every officer can include.
    pub global: Option<&'a str>,
}

impl<'a> Folders<'a> {
    /// The folder of the scripts of a location.
    pub fn of(&self, is_global: bool) -> Option<&'a str> {
        if is_global {
            self.global
        } else {
            self.personal
        }
    }
}

/// Says why a message is filed where it is.
#[derive(Clone, Copy)]
pub struct Why<'a> {
    pub by: Rules<'a>,
    pub message: &'a str,
    pub plan: Option<&'a str>,
    /// The day of the capture, of 1970 to 2199; none for today.
    pub day: Option<Date>,
}

/// What files the message.
#[derive(Clone, Copy)]
pub enum Rules<'a> {
    Script {
        /// The path of the script, or the officer where it is in a folder of all rules.
        script: &'a str,
        place: Place<'a>,
        format: Format,
    },
    Image(&'a str),
}

/// How it is said why a script files a message.
#[derive(Clone, Copy)]
pub enum Format {
    Lines,
    /// One line of JSON.
    Json,
    /// The steps of the script's image.
    Steps,
}

/// The folders of the scripts that can be included.
fn folders_asked<'a>(asked: &ArgMatches<'a>) -> Folders<'a>
    ensures { AreFolders (found_of asked.now) result }
{
    Folders {
        personal: value_of(asked, names::PERSONAL),
        global: value_of(asked, names::GLOBAL),
    }
}

/// Where scripts are.
fn place_asked<'a>(asked: &ArgMatches<'a>) -> Place<'a>
    ensures { IsPlace (found_of asked.now) result }
{
    match value_of(asked, names::RULES) {
        Some(folder) => Place::Rules(folder),
        None => Place::Folders(folders_asked(asked)),
    }
}

/// The number that is typed, in decimal digits without a leading zero.
fn number_of(word: &str) -> Option<u8>
    ensures { result ≡ number_up_to 255 word.now }
{
    match read_number(word.as_bytes(), u64::from(u8::MAX)) {
        Some(number) => Some(number as u8),
        None => None,
    }
}

/// What is explained: all numbers rather than one, and one rather than replies.
fn explain_asked<'a>(asked: &ArgMatches<'a>) -> Explain<'a>
    ensures { IsExplained (found_of asked.now) result }
{
    if has_flag(asked, names::NUMBERS) {
        return Explain::Numbers;
    }
    match value_of(asked, names::NUMBER) {
        Some(word) => Explain::Number {
            word,
            number: number_of(word),
        },
        None => Explain::Replies {
            script: value_of(asked, names::REFUSED),
        },
    }
}

/// What is judged. Files have to be named; officers of a folder of all rules may be missing.
fn check_asked<'a>(alloc: Global, asked: &ArgMatches<'a>) -> Result<Check<'a>, NoCommand>
    ensures { IfOk result (IsChecked (found_of asked.now)) }
{
    let files = values_of(asked, names::FILES).unwrap_or(&[]);
    let place = place_asked(asked);
    if let (Place::Folders(_), true) = (place, files.is_empty()) {
        return Err(NoCommand::refused(
            alloc,
            "check takes scripts, and plans by the ending .toml; or with --rules officers",
        ));
    }
    Ok(Check {
        files: Vec::from_slice(alloc, files)?,
        plan: value_of(asked, names::PRESENT_PLAN),
        place,
    })
}

/// The script whose image is written, and where.
fn compile_asked<'a>(asked: &ArgMatches<'a>) -> Result<Command<'a>, NoCommand>
    ensures { IfOk result (IsCompile (found_of asked.now)) }
{
    Ok(Command::Compile {
        script: required(asked, names::SCRIPT)?,
        place: place_asked(asked),
        image: required(asked, names::OUTPUT)?,
    })
}

/// The folder of all rules whose officers are recipients, and their domains.
fn recipients_asked<'a>(alloc: Global, asked: &ArgMatches<'a>) -> Result<Command<'a>, NoCommand>
    ensures { IfOk result (IsRecipients (found_of asked.now)) }
{
    let domains = values_of(asked, names::DOMAINS).unwrap_or(&[]);
    Ok(Command::Recipients {
        rules: required(asked, names::RULES)?,
        domains: Vec::from_slice(alloc, domains)?,
    })
}

/// The day of a capture, where it is given.
fn day_asked(alloc: Global, asked: &ArgMatches<'_>) -> Result<Option<Date>, NoCommand>
    ensures { IfOk result (IsCaptureDay (found_of asked.now)) }
{
    let Some(text) = value_of(asked, names::DAY) else {
        return Ok(None);
    };
    match day_of(text) {
        Some(day) if day.year() <= LAST_YEAR => Ok(Some(day)),
        _ => Err(NoCommand::refused(alloc, NO_DAY)),
    }
}

/// How it is said why a script files a message: by its steps rather than as JSON.
fn format_asked(asked: &ArgMatches<'_>) -> Format
    ensures { result ≡ format_in (found_of asked.now) }
{
    if has_flag(asked, names::STEPS) {
        Format::Steps
    } else if has_flag(asked, names::JSON) {
        Format::Json
    } else {
        Format::Lines
    }
}

/// What files the message, and the path of the message: the only path where an image is named, and otherwise the second.
fn rules_asked<'a>(alloc: Global, asked: &ArgMatches<'a>) -> Result<(Rules<'a>, &'a str), NoCommand>
    ensures { IfOk result (λ r. AreRules (found_of asked.now) r.1.now r.0) }
{
    let first = required(asked, names::SCRIPT)?;
    match (value_of(asked, names::RUN), value_of(asked, names::MESSAGE)) {
        (Some(image), None) => Ok((Rules::Image(image), first)),
        (None, Some(message)) => {
            let script = Rules::Script {
                script: first,
                place: place_asked(asked),
                format: format_asked(asked),
            };
            Ok((script, message))
        }
        _ => Err(NoCommand::refused(
            alloc,
            "why takes a script and a message, or with --image a message alone",
        )),
    }
}

/// What is asked about a message.
fn why_asked<'a>(alloc: Global, asked: &ArgMatches<'a>) -> Result<Why<'a>, NoCommand>
    ensures { IfOk result (IsAsked (found_of asked.now)) }
{
    let day = day_asked(alloc, asked)?;
    let (by, message) = rules_asked(alloc, asked)?;
    Ok(Why {
        by,
        message,
        plan: value_of(asked, names::PLAN),
        day,
    })
}

/// What the subcommand of a name is asked to do.
fn command_asked<'a>(
    alloc: Global,
    name: &str,
    asked: &ArgMatches<'a>,
) -> Result<Command<'a>, NoCommand>
    ensures { IfOk result (IsCommand name.now (found_of asked.now)) }
{
    match name {
        "frame" => Ok(Command::Frame {
            file: value_of(asked, names::COMMANDS),
        }),
        "explain" => Ok(Command::Explain(explain_asked(asked))),
        "check" => Ok(Command::Check(check_asked(alloc, asked)?)),
        "compile" => compile_asked(asked),
        "dump" => Ok(Command::Dump {
            image: required(asked, names::IMAGE)?,
        }),
        "why" => Ok(Command::Why(why_asked(alloc, asked)?)),
        "recipients" => recipients_asked(alloc, asked),
        _ => Err(NoCommand::Unread),
    }
}

/// What the words that were found ask for.
fn read_matches<'a>(alloc: Global, matches: &ArgMatches<'a>) -> Result<Command<'a>, NoCommand>
    ensures { IfOk result (IsFound matches.now) }
{
    match matches.subcommand() {
        Some((name, asked)) => command_asked(alloc, name, asked),
        None => Err(NoCommand::Unread),
    }
}

/// Which words can be values: one with a hyphen at its beginning only where that is a number.
fn values_typed(words: &[String]) -> Values
    ensures { has_signed_word (typed words.now) ≡ false → result ≡ Plain }
{
    if has_signed(words) {
        Values::Signed
    } else {
        Values::Plain
    }
}

/// Reads the words of a command line, the program's name first. A day that is not in the calendar of captures, and a
/// message that is not clear, are `Wrong`; help, and what `clap` refuses, are printed.
pub fn read_command<'a>(rt: &HostRuntime, words: &'a [String]) -> Result<Command<'a>, NoCommand>
    ensures { has_signed_word (typed words.now) ≡ false
        → IfOk result (IsToolRead (typed words.now)) }
{
    let alloc = rt.alloc();
    let matches = read_words(rt, &words::program(alloc)?, words, values_typed(words))?;
    read_matches(alloc, &matches)
}
