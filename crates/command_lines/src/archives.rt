//! The command line of `mailfile-store`: what it asks for, with each value read and judged.

ghost use Rattle.std.specs.Prelude.{◌≡◌, codes, false, IfOk, OnOk, Some};
ghost use Rattle.clap.specs.Matches.{found_of};
ghost use Rattle.choice_words.specs.Readings.{reads_as_numbers as reads_as_numbers_of};
ghost use Rattle.command_lines.specs.Asked.{value_in};
ghost use Rattle.command_lines.specs.Captures.{IsDeliver};
ghost use Rattle.command_lines.specs.Changes.{IsDisposal, IsDispose};
ghost use Rattle.command_lines.specs.Commands.{IsCommand, IsLine, IsLineOf, IsRead, IsReadOf};
ghost use Rattle.command_lines.specs.Readings.{formats_in, one_format, sorting_typed, IsExport, IsList, IsListing, IsReport, IsShow, IsTarget, IsWhyOf};
ghost use Rattle.command_lines.specs.StoreTable.{may_be_hyphened};
ghost use Rattle.command_lines.specs.Typed.{typed};
ghost use Rattle.command_lines.specs.declared.table.Values.TheVariants.{Plain};
ghost use Rattle.command_lines.specs.Stores.{IsCheck, IsCopy, IsCreate, IsPlan, IsTitles};

mod approvals;
mod capture_words;
mod captures;
mod class_words;
mod disposals;
mod histories;
mod history_words;
mod holds;
mod import_words;
mod imports;
mod names;
mod numbers;
mod question_words;
mod questions;
mod refilings;
mod sizes;
mod words;

use crate::reading::{
    NoCommand, has_flag, has_hyphened_after, has_signed, read_words, required, value_of,
};
use crate::table::Values;
use approvals::approved_asked;
pub use approvals::{DisposalAsked, TypedDisposal};
use captures::{filing_asked, intake_asked};
use choice_words::reads_as_numbers;
pub use choice_words::{Choice, TypedChoice, TypedNumbers};
use clap::ArgMatches;
use disposals::damage_asked;
pub use histories::{Attribution, DeedKind, HistoryAsked, HistoryTask, Reasons, TypedHistory};
use histories::{attribution_asked, head_asked, history_asked, judge_author};
use holds::{NAME_FORGOTTEN, hold_asked, release_asked};
use imports::import_asked;
pub use imports::{Dating, Import};
use jiff::civil::Date;
pub use numbers::Numbers;
use numbers::{numbers_asked, record_asked};
use questions::{choice_asked, conditions_asked, day_asked};
pub use refilings::Refiling;
use refilings::refile_asked;
use sizes::size_asked;
use std::alloc::{AllocError, Global};

/// What `mailfile-store` is asked to do, with the store in the file at a path.
#[derive(Drop)]
pub struct CommandLine<'a> {
    pub store: &'a str,
    /// For the history, where the command changes something.
    pub attribution: Attribution<'a>,
    pub command: Command<'a>,
}

/// A subcommand with its values.
#[derive(Drop)]
pub enum Command<'a> {
    /// Makes a new store with the plan in the file at a path: in one file, or in a folder of volumes.
    Create {
        plan: &'a str,
        /// The size of its volumes, in octets; none for a store in one file.
        size: Option<u64>,
    },
    /// Makes a new store in a folder of volumes, of which the first one is the store in the file at a path, which is moved there.
    Adopt {
        file: &'a str,
        /// The size of its volumes, in octets.
        size: u64,
    },
    /// Writes the plan as text.
    WritePlan,
    /// Replaces the plan by the one in the file at a path.
    ReplacePlan {
        plan: &'a str,
        /// Whether nobody is asked before.
        is_agreed: bool,
    },
    /// Captures the message on standard input.
    Deliver {
        filing: Filing<'a>,
        /// Whether it is captured also where it does not look like a message.
        is_as_is: bool,
    },
    /// Captures the new messages of a Maildir.
    Intake {
        maildir: &'a str,
        filing: Filing<'a>,
        telling: Telling,
    },
    /// Captures old mail.
    Import(Import<'a>),
    /// Writes the message of a record.
    Show {
        record: TypedNumber<'a>,
        /// Whether the fields of its header are written instead.
        fields: bool,
    },
    /// Makes a copy in a new file at a path.
    Copy {
        new: &'a str,
        /// Whether messages are copied too that are not the ones that were captured.
        is_damaged: bool,
    },
    /// Judges the whole store, and says of a mark whether its history has it.
    Check {
        head: Option<&'a str>,
    },
    /// Begins the history of the store, or prints it.
    History(HistoryTask<'a>),
    /// Prints the certificates of records that were destroyed; of all, where there is no number.
    Certificates {
        numbers: Numbers,
    },
    /// Judges rules by the plan of the store.
    CheckRules(RulesChecked<'a>),
    Why(Why<'a>),
    Dispose(DisposalAsked<'a>),
    /// Ends the hold of a name, which is 1 to 64 octets from 33 to 126, on each record.
    ReleaseAll {
        name: &'a str,
        /// Whether nobody is asked before.
        is_agreed: bool,
    },
    /// Lists the holds, with how many records each keeps.
    Holds {
        /// Whether they are printed as an array of JSON objects.
        is_json: bool,
    },
    /// Lists the live records whose messages stand in the archive a second time.
    Twice(Listing),
    /// Writes the titles of classes.
    WriteTitles {
        /// Whether they are printed as an array of JSON objects.
        is_json: bool,
    },
    /// Gives classes the titles in the file at a path.
    SetTitles {
        titles: &'a str,
    },
    /// Does something with the records of a choice.
    Chosen(TypedChoice<'a>, ChosenTask<'a>),
}

/// What is done with the records of a choice.
#[derive(Clone, Copy)]
pub enum ChosenTask<'a> {
    List(Listing),
    /// Writes them to files of a folder.
    Export(Target<'a>),
    /// Keeps them by the hold of a name, which is 1 to 64 octets from 33 to 126. The choice asks for something.
    Hold(&'a str),
    /// Ends the hold of such a name on them. The choice asks for something.
    Release(&'a str),
    /// Gives them another class. The choice asks for something, and there is a reason.
    Refile(Refiling<'a>),
    /// Writes a page of HTML on them. The choice has no numbers.
    Report {
        /// The day by which records are due, which may be later than today; none for today.
        day: Option<Date>,
    },
}

/// The moment of a capture.
#[derive(Clone, Copy)]
pub enum Moment {
    /// That of the clock, which is judged by the days of the archive.
    Unnamed,
    /// That of the clock, whatever days the archive has.
    Now,
    /// In seconds since 1970.
    At(u64),
}

/// How mail is filed.
#[derive(Clone, Copy)]
pub struct Filing<'a> {
    /// The path of the folder of rules.
    pub rules: &'a str,
    pub officer: &'a str,
    /// Whether mail goes to `unfiled` where the rules are at fault.
    pub unfiled_on_fault: bool,
    pub moment: Moment,
    /// How long the work on a message may take, in seconds.
    pub limit: u64,
}

/// What an intake tells.
#[derive(Clone, Copy)]
pub struct Telling {
    /// Whether nothing is told of what is captured.
    pub is_quiet: bool,
    /// Whether each line begins with the time of day.
    pub has_times: bool,
}

/// Rules that are judged.
#[derive(Clone, Copy)]
pub struct RulesChecked<'a> {
    /// The path of the folder of rules.
    pub rules: &'a str,
    /// The officer whose rules they are; none for all officers of the folder.
    pub officer: Option<&'a str>,
}

/// How records are listed.
#[derive(Clone, Copy)]
pub enum Format {
    /// A line each.
    Lines,
    Csv,
    Json,
    /// The numbers alone, a line each.
    Numbers,
    /// How many there are.
    Count,
}

/// What a list has of each record, and how.
#[derive(Clone, Copy)]
pub struct Listing {
    pub format: Format,
    /// Whether it has the sender, the subject and the date of the message's header.
    pub headers: bool,
    /// The number of the volume that the records are in, in an archive of volumes; none on a command line.
    pub volume: Option<u32>,
}

/// The order of an export's index.
#[derive(Clone, Copy)]
pub enum Sorting {
    /// By number.
    Number,
    /// By the date of the message's header.
    Date,
    /// By sender.
    Sender,
}

/// Where an export goes, and how its index is sorted.
#[derive(Clone, Copy)]
pub struct Target<'a> {
    /// The path of the folder.
    pub folder: &'a str,
    pub sorting: Sorting,
}

/// The number of a record.
#[derive(Clone, Copy)]
pub struct TypedNumber<'a> {
    /// As it is typed, which names the record where it is refused.
    pub word: &'a str,
    /// The number of its volume, where it is typed with one.
    pub volume: Option<u32>,
    pub number: u32,
}

/// Says why a record is in its class.
#[derive(Clone, Copy)]
pub struct Why<'a> {
    /// The path of the folder of today's rules.
    pub rules: &'a str,
    /// The path of the folder of the rules as they were, with which today's are compared.
    pub formerly: Option<&'a str>,
    pub officer: &'a str,
    pub record: TypedNumber<'a>,
}

/// The destruction of what is due.
#[derive(Drop)]
pub struct Disposal {
    /// The day by which records are due; none for today.
    pub day: Option<Date>,
    /// Whether records are destroyed, and not only listed.
    pub destroys: bool,
    /// Whether those are destroyed too whose messages are not the ones that were captured.
    pub is_damaged: bool,
    /// The records that are meant; all that are due, where there is none.
    pub numbers: Vec<TypedNumbers>,
}

/// The formats that a list can have, with the flags that ask for them.
const FORMATS: &[(&str, Format)] = &[
    (names::CSV, Format::Csv),
    (names::JSON, Format::Json),
    (names::ONLY_NUMBERS, Format::Numbers),
    (names::COUNT, Format::Count),
];

/// How records are listed. Two formats at once are refused.
fn format_asked(alloc: Global, asked: &ArgMatches<'_>) -> Result<Format, NoCommand>
    ensures { IfOk result (λ format. one_format (formats_in (found_of asked.now)) ≡ Some format) }
{
    let mut format = None;
    for (name, named) in FORMATS {
        if has_flag(asked, name) {
            if format.is_some() {
                let reason = "--csv, --json, --numbers and --count cannot be used together";
                return Err(NoCommand::refused(alloc, reason));
            }
            format = Some(*named);
        }
    }
    Ok(format.unwrap_or(Format::Lines))
}

/// What a list has. Headers of messages are refused where no record has more than its number.
fn listing_asked(alloc: Global, asked: &ArgMatches<'_>) -> Result<Listing, NoCommand>
    ensures { IfOk result (IsListing (found_of asked.now)) }
{
    let format = format_asked(alloc, asked)?;
    let headers = has_flag(asked, names::HEADERS);
    if headers && matches!(format, Format::Numbers | Format::Count) {
        let reason = "--headers cannot be used with --numbers or --count";
        return Err(NoCommand::refused(alloc, reason));
    }
    Ok(Listing {
        format,
        headers,
        volume: None,
    })
}

/// The records that are listed: those of a choice, or those whose messages stand twice, beside which nothing is chosen.
fn list_asked<'a>(alloc: Global, asked: &ArgMatches<'a>) -> Result<Command<'a>, NoCommand>
    ensures { IfOk result (IsList (found_of asked.now)) }
{
    let choice = choice_asked(alloc, asked)?;
    let listing = listing_asked(alloc, asked)?;
    if !has_flag(asked, names::TWICE) {
        Ok(Command::Chosen(choice, ChosenTask::List(listing)))
    } else if choice.is_empty() {
        Ok(Command::Twice(listing))
    } else {
        let reason = "--twice looks at all messages; it takes no numbers and no conditions";
        Err(NoCommand::refused(alloc, reason))
    }
}

/// How the index of an export is sorted: by number, where nothing is said.
fn sorting_asked(alloc: Global, asked: &ArgMatches<'_>) -> Result<Sorting, NoCommand>
    ensures { IfOk result (λ sorting. sorting_typed (value_in (found_of asked.now) (codes "sort")) ≡ Some sorting) }
{
    match value_of(asked, names::SORT) {
        None | Some("number") => Ok(Sorting::Number),
        Some("date") => Ok(Sorting::Date),
        Some("sender") => Ok(Sorting::Sender),
        Some(word) => Err(NoCommand::wrong_after(
            alloc,
            names::SORT,
            word,
            "none of number, date and sender",
        )),
    }
}

/// Refuses a word that reads as numbers of records where something else belongs, which was more likely forgotten, in words that
/// say what.
fn judge_place(alloc: Global, word: &str, forgotten: &str) -> Result<(), NoCommand>
    ensures { OnOk result (reads_as_numbers_of word.now ≡ false) }
{
    if reads_as_numbers(word.as_bytes()) {
        return Err(NoCommand::wrong(alloc, word, forgotten));
    }
    Ok(())
}

/// What is said of numbers of records where the folder of an export belongs.
const FOLDER_FORGOTTEN: &str =
    "numbers of records, where the folder of the export belongs; type it before them, as for-court 3 5-9; type ./ before a folder of this name";

/// Where an export is written, and how its index is sorted. A folder that reads as numbers is refused.
fn target_asked<'a>(alloc: Global, asked: &ArgMatches<'a>) -> Result<Target<'a>, NoCommand>
    ensures { IfOk result (IsTarget (found_of asked.now)) }
{
    let folder = required(asked, names::FOLDER)?;
    judge_place(alloc, folder, FOLDER_FORGOTTEN)?;
    Ok(Target {
        folder,
        sorting: sorting_asked(alloc, asked)?,
    })
}

/// What is said of numbers of records where the file of a copy belongs.
const FILE_FORGOTTEN: &str =
    "numbers of records, where the file of the new store belongs, which gets all records; type ./ before a file of this name";

/// The file of a copy. One that reads as numbers is refused.
fn copy_asked<'a>(alloc: Global, asked: &ArgMatches<'a>) -> Result<Command<'a>, NoCommand>
    ensures { IfOk result (IsCopy (found_of asked.now)) }
{
    let new = required(asked, names::NEW)?;
    judge_place(alloc, new, FILE_FORGOTTEN)?;
    Ok(Command::Copy {
        new,
        is_damaged: has_flag(asked, names::DAMAGED),
    })
}

/// What is done with the plan. `--yes` is refused where there is no plan to agree to.
fn plan_asked<'a>(alloc: Global, asked: &ArgMatches<'a>) -> Result<Command<'a>, NoCommand>
    ensures { IfOk result (IsPlan (found_of asked.now)) }
{
    let is_agreed = has_flag(asked, names::YES);
    match value_of(asked, names::NEW_PLAN) {
        Some(plan) => Ok(Command::ReplacePlan { plan, is_agreed }),
        None if is_agreed => Err(NoCommand::refused(alloc, "--yes needs the plan of --set")),
        None => Ok(Command::WritePlan),
    }
}

/// What is done with the titles of classes.
fn titles_asked<'a>(asked: &ArgMatches<'a>) -> Command<'a>
    ensures { IsTitles (found_of asked.now) result }
{
    match value_of(asked, names::NEW_TITLES) {
        Some(titles) => Command::SetTitles { titles },
        None => Command::WriteTitles {
            is_json: has_flag(asked, names::JSON),
        },
    }
}

/// What is to be destroyed.
fn disposal_asked(alloc: Global, asked: &ArgMatches<'_>) -> Result<TypedDisposal, NoCommand>
    ensures { IfOk result (IsDisposal (found_of asked.now)) }
{
    let day = day_asked(alloc, asked, names::DAY)?;
    let is_damaged = damage_asked(alloc, asked)?;
    let Numbers { alone, of_volumes } = numbers_asked(alloc, asked)?;
    Ok(TypedDisposal {
        alone: Disposal {
            day,
            destroys: has_flag(asked, names::YES),
            is_damaged,
            numbers: alone,
        },
        of_volumes,
    })
}

/// What is judged: the store, or rules. An officer is refused where there are no rules.
fn check_asked<'a>(alloc: Global, asked: &ArgMatches<'a>) -> Result<Command<'a>, NoCommand>
    ensures { IfOk result (IsCheck (found_of asked.now)) }
{
    let officer = value_of(asked, names::OFFICER);
    match value_of(asked, names::RULES) {
        Some(rules) => Ok(Command::CheckRules(RulesChecked { rules, officer })),
        None if officer.is_some() => Err(NoCommand::refused(
            alloc,
            "an officer needs the folder of --rules",
        )),
        None => Ok(Command::Check {
            head: head_asked(alloc, asked)?,
        }),
    }
}

/// Which record it is whose class is asked about, and by which rules.
fn why_asked<'a>(alloc: Global, asked: &ArgMatches<'a>) -> Result<Why<'a>, NoCommand>
    ensures { IfOk result (IsWhyOf (found_of asked.now)) }
{
    Ok(Why {
        rules: required(asked, names::RULES)?,
        formerly: value_of(asked, names::FORMERLY),
        officer: required(asked, names::OFFICER)?,
        record: record_asked(alloc, asked)?,
    })
}

/// What is made: a new store with a plan, or one of volumes that begins with a store that is there.
fn create_asked<'a>(alloc: Global, asked: &ArgMatches<'a>) -> Result<Command<'a>, NoCommand>
    ensures { IfOk result (IsCreate (found_of asked.now)) }
{
    let size = size_asked(alloc, asked)?;
    match (value_of(asked, names::ADOPT), size) {
        (Some(file), Some(size)) => Ok(Command::Adopt { file, size }),
        (Some(_), None) => Err(NoCommand::refused(alloc, "--adopt needs the size of --roll")),
        (None, size) => Ok(Command::Create {
            plan: required(asked, names::PLAN_FILE)?,
            size,
        }),
    }
}

/// What is exported, and where to.
fn export_asked<'a>(alloc: Global, asked: &ArgMatches<'a>) -> Result<Command<'a>, NoCommand>
    ensures { IfOk result (IsExport (found_of asked.now)) }
{
    let target = target_asked(alloc, asked)?;
    let choice = choice_asked(alloc, asked)?;
    Ok(Command::Chosen(choice, ChosenTask::Export(target)))
}

/// What a page of HTML is written on.
fn report_asked<'a>(alloc: Global, asked: &ArgMatches<'a>) -> Result<Command<'a>, NoCommand>
    ensures { IfOk result (IsReport (found_of asked.now)) }
{
    let day = day_asked(alloc, asked, names::DAY)?;
    let choice = conditions_asked(alloc, asked)?;
    Ok(Command::Chosen(choice, ChosenTask::Report { day }))
}

/// What is destroyed, or listed as what may be.
fn dispose_asked<'a>(alloc: Global, asked: &ArgMatches<'a>) -> Result<Command<'a>, NoCommand>
    ensures { IfOk result (IsDispose (found_of asked.now)) }
{
    let typed = disposal_asked(alloc, asked)?;
    Ok(Command::Dispose(approved_asked(alloc, asked, typed)?))
}

/// The record whose message is written.
fn show_asked<'a>(alloc: Global, asked: &ArgMatches<'a>) -> Result<Command<'a>, NoCommand>
    ensures { IfOk result (IsShow (found_of asked.now)) }
{
    Ok(Command::Show {
        record: record_asked(alloc, asked)?,
        fields: has_flag(asked, names::FIELDS),
    })
}

/// How the message on standard input is captured.
fn deliver_asked<'a>(alloc: Global, asked: &ArgMatches<'a>) -> Result<Command<'a>, NoCommand>
    ensures { IfOk result (IsDeliver (found_of asked.now)) }
{
    Ok(Command::Deliver {
        filing: filing_asked(alloc, asked)?,
        is_as_is: has_flag(asked, names::AS_IS),
    })
}

/// What the subcommand of a name is asked to do.
fn command_asked<'a>(
    alloc: Global,
    name: &str,
    asked: &ArgMatches<'a>,
) -> Result<Command<'a>, NoCommand>
    ensures { IfOk result (IsCommand name.now (found_of asked.now)) }
{
    match name {
        "create" => create_asked(alloc, asked),
        "plan" => plan_asked(alloc, asked),
        "deliver" => deliver_asked(alloc, asked),
        "intake" => intake_asked(alloc, asked),
        "import" => Ok(Command::Import(import_asked(alloc, asked)?)),
        "list" => list_asked(alloc, asked),
        "show" => show_asked(alloc, asked),
        "export" => export_asked(alloc, asked),
        "copy" => copy_asked(alloc, asked),
        "check" => check_asked(alloc, asked),
        "why" => Ok(Command::Why(why_asked(alloc, asked)?)),
        "hold" => hold_asked(alloc, asked),
        "release" => release_asked(alloc, asked),
        "refile" => refile_asked(alloc, asked),
        "dispose" => dispose_asked(alloc, asked),
        "report" => report_asked(alloc, asked),
        "holds" => Ok(Command::Holds {
            is_json: has_flag(asked, names::JSON),
        }),
        "titles" => Ok(titles_asked(asked)),
        "history" => Ok(Command::History(history_asked(alloc, asked)?)),
        "certificates" => Ok(Command::Certificates {
            numbers: numbers_asked(alloc, asked)?,
        }),
        _ => Err(NoCommand::Unread),
    }
}

/// The store, and what the subcommand of a name is asked to do with it.
fn line_asked<'a>(
    alloc: Global,
    name: &str,
    asked: &ArgMatches<'a>,
) -> Result<CommandLine<'a>, NoCommand>
    ensures { IfOk result (IsLine name.now (found_of asked.now)) }
{
    let store = required(asked, names::STORE)?;
    let attribution = attribution_asked(alloc, asked)?;
    let command = command_asked(alloc, name, asked)?;
    judge_author(alloc, &attribution, &command)?;
    Ok(CommandLine {
        store,
        attribution,
        command,
    })
}

/// What the words that were found ask for.
fn read_matches<'a>(alloc: Global, matches: &ArgMatches<'a>) -> Result<CommandLine<'a>, NoCommand>
    ensures { IfOk result (IsLineOf matches.now) }
{
    match matches.subcommand() {
        Some((name, asked)) => line_asked(alloc, name, asked),
        None => Err(NoCommand::Unread),
    }
}

/// What is said of numbers of records that stand right after the name of a subcommand, where something else belongs.
fn forgotten_after(name: &str) -> Option<&'static str> {
    match name {
        "export" => Some(FOLDER_FORGOTTEN),
        "copy" => Some(FILE_FORGOTTEN),
        "hold" => Some(NAME_FORGOTTEN),
        _ => None,
    }
}

/// A refusal of words that was told. Where numbers of records stand in the place of something else too, that is still to be told.
fn with_forgotten(alloc: Global, words: &[String], refusal: NoCommand) -> NoCommand {
    if !matches!(refusal, NoCommand::Told) {
        return refusal;
    }
    let (Some(name), Some(word)) = (words.get(1), words.get(2)) else {
        return refusal;
    };
    match forgotten_after(name.as_str()) {
        Some(forgotten) if reads_as_numbers(word.as_bytes()) => {
            NoCommand::wrong(alloc, word.as_str(), forgotten)
        }
        _ => refusal,
    }
}

/// Which words can be values: one with a hyphen at its beginning only where that is a number, or the name after `--by`.
fn values_typed(words: &[String]) -> Values
    ensures { may_be_hyphened (typed words.now) ≡ false → result ≡ Plain }
{
    if has_signed(words) || has_hyphened_after(words, "--by") {
        Values::Signed
    } else {
        Values::Plain
    }
}

/// Reads the words of a command line, the program's name first. A value that its option or place cannot have is
/// `Wrong`; help, and what `clap` refuses, are printed.
pub fn read_command_line<'a>(
    rt: &HostRuntime,
    words: &'a [String],
) -> Result<CommandLine<'a>, NoCommand>
    ensures read { IfOk result IsRead }
    ensures typed { may_be_hyphened (typed words.now) ≡ false
        → IfOk result (IsReadOf (typed words.now)) }
{
    let alloc = rt.alloc();
    match read_words(rt, &words::program(alloc)?, words, values_typed(words)) {
        Ok(matches) => read_matches(alloc, &matches),
        Err(refusal) => Err(with_forgotten(alloc, words, refusal)),
    }
}
