//! What a command line asks of a history, and what it tells for one.

ghost use Rattle.std.specs.Prelude.{◌≡◌, [], codes, is_some, length, nat_le, true, unwrap_or, IfOk, IfSome, IsTrue, OnOk};
ghost use Rattle.std.specs.List.{list_all};
ghost use Rattle.clap.specs.Matches.{found_of};
ghost use Rattle.choice_words.specs.Typed.{is_named_or_none};
ghost use Rattle.command_lines.specs.Asked.{text_of, value_in};
ghost use Rattle.command_lines.specs.Histories.{IsAskedFor};
ghost use Rattle.command_lines.specs.Stores.{is_mark, is_mark_octet, IsHead};
ghost use Rattle.command_lines.specs.Tasks.{changes_in, is_chosen, kind_of, needs_reason, task_of, AreEvents, IsChange, IsJudged, IsKind, IsTask, IsTold, StandsAlone};
ghost use Rattle.session_words.specs.Words.{is_name as is_name_of};

use super::numbers::{Numbers, numbers_asked, numbers_in_volume};
use super::questions::day_asked;
use super::{Command, names};
use crate::reading::{NoCommand, has_flag, value_of};
use choice_words::{TypedNumbers, VolumeNumbers};
use clap::ArgMatches;
use jiff::civil::Date;
use session_words::is_name;
use std::alloc::{AllocError, Global};
use tool_texts::Shown;

/// Who makes a change, and for what reason, as it is told.
#[derive(Clone, Copy)]
pub struct Attribution<'a> {
    /// 1 to 64 octets from 33 to 126; none where it is not told.
    pub by: Option<&'a str>,
    /// At most 500 octets, without a hidden character; empty where it is not told.
    pub reason: &'a str,
}

/// A kind of deed.
#[derive(Clone, Copy)]
pub enum DeedKind {
    Captured,
    Held,
    Released,
    /// Records that got another class.
    Refiled,
    Destroyed,
    /// Classes that were added.
    Added,
    /// Plans that were replaced.
    Replaced,
    /// Classes that got another title or legal basis.
    Titled,
    /// That reasons were made required, or optional.
    Made,
    /// What was found when a history began, or after a program that keeps none.
    Found,
    /// That what was found after such a program was accepted.
    Accepted,
}

/// Which events of a store are printed, and how.
#[derive(Drop)]
pub struct HistoryAsked<'a> {
    /// Those of records with these numbers; all, where there is none.
    pub numbers: Vec<TypedNumbers>,
    /// Those of this day or later.
    pub since: Option<Date>,
    /// Those that this name stands for.
    pub by: Option<&'a str>,
    pub kind: Option<DeedKind>,
    /// Whether they are printed as an array of JSON objects.
    pub is_json: bool,
}

/// Which events are printed, and how, as it is typed. Numbers of an archive in one file have no volume, and those of an archive of
/// volumes have one; which of the two is right, the archive says.
#[derive(Drop)]
pub struct TypedHistory<'a> {
    /// What else is asked for, and the numbers without a volume.
    pub alone: HistoryAsked<'a>,
    /// The numbers with a volume.
    pub of_volumes: Vec<VolumeNumbers>,
}

impl<'a> TypedHistory<'a> {
    /// What is asked of the history of a volume, for that volume alone. None where numbers of other volumes alone are typed. Numbers
    /// without a volume count for nothing here.
    pub fn in_volume(
        &self,
        alloc: Global,
        volume: u32,
    ) -> Result<Option<HistoryAsked<'a>>, AllocError>
        ensures asked { IfOk result (λ o. is_some o
            ≡ is_named_or_none volume self.now.of_volumes.items) }
        ensures events { IfOk result (λ o. IfSome o (IsAskedFor volume self.now)) }
    {
        match numbers_in_volume(alloc, volume, self.of_volumes.as_slice())? {
            Some(numbers) => Ok(Some(HistoryAsked {
                numbers,
                ..self.alone
            })),
            None => Ok(None),
        }
    }

    /// Whether something that is printed is chosen, but for who did it.
    fn is_chosen(&self) -> bool
        ensures { result ≡ is_chosen self.now }
    {
        let asked = &self.alone;
        !asked.numbers.is_empty()
            || !self.of_volumes.is_empty()
            || asked.since.is_some()
            || asked.kind.is_some()
            || asked.is_json
    }
}

/// Whether those who decide which records are kept, and how long, have to give a reason.
#[derive(Clone, Copy)]
pub enum Reasons {
    Required,
    Optional,
}

/// What is done with a history.
#[derive(Drop)]
pub enum HistoryTask<'a> {
    /// It is begun. Who does that is told beside it.
    Begin,
    /// It is noted whether reasons are required. Who does that is told beside it.
    Reasons(Reasons),
    /// It is noted that a person lets stand what a program that keeps no history has left. Who that is, and for what reason,
    /// is told beside it.
    AcceptFound,
    Print(TypedHistory<'a>),
}

/// The greatest length of a reason.
const LONGEST_REASON: usize = 500;

/// Whether a text has nothing that can be seen.
fn is_blank(text: &str) -> bool {
    !text.is_empty() && text.trim().is_empty()
}

/// Whether a text can be a reason: it is not too long, is not of blanks alone, and is printed as it is.
fn is_reason(alloc: Global, text: &str) -> Result<bool, AllocError>
    ensures { IfOk result (λ is. IsTrue is → nat_le (length text.now) 500 ≡ true) }
{
    if text.len() > LONGEST_REASON || is_blank(text) {
        return Ok(false);
    }
    let mut shown = Shown::new(alloc);
    shown.value(&text)?;
    Ok(shown.as_str() == text)
}

/// Whether a word can be a name for the history. One that begins with two hyphens is an option before which a name is missing.
fn is_name_told(word: &str) -> bool
    ensures { IsTrue result → is_name_of word.now ≡ true }
{
    is_name(word.as_bytes()) && !word.starts_with("--")
}

/// Who stands in a history for programs that keep none.
const NOBODY: &str = "unknown";

/// Finds that whoever a command notes in a history has a name that stands for a person or a program. The events that are printed
/// may be chosen by any name.
pub(super) fn judge_author(
    alloc: Global,
    told: &Attribution<'_>,
    command: &Command<'_>,
) -> Result<(), NoCommand> {
    let is_printing = matches!(command, Command::History(HistoryTask::Print(_)));
    match told.by {
        Some(name) if name == NOBODY && !is_printing => Err(NoCommand::wrong(
            alloc,
            name,
            "this name stands for programs that keep no history; name yourself by another one, as --by ann",
        )),
        _ => Ok(()),
    }
}

/// A name for the history, where one is given.
fn name_told<'a>(alloc: Global, asked: &ArgMatches<'a>) -> Result<Option<&'a str>, NoCommand>
    ensures typed { IfOk result (λ name. text_of name ≡ value_in (found_of asked.now) (codes "by")) }
    ensures name { IfOk result (λ name. IfSome name (λ n. is_name_of n.now ≡ true)) }
{
    match value_of(asked, names::BY) {
        Some(name) if !is_name_told(name) => {
            let reason = "who does it is told by 1 to 64 visible ASCII characters, as ann";
            Err(NoCommand::wrong(alloc, name, reason))
        }
        name => Ok(name),
    }
}

/// A reason for the history.
fn reason_told<'a>(alloc: Global, asked: &ArgMatches<'a>) -> Result<&'a str, NoCommand>
    ensures typed { IfOk result (λ text. text.now ≡ unwrap_or (value_in (found_of asked.now) (codes "reason")) []) }
    ensures short { IfOk result (λ text. nat_le (length text.now) 500 ≡ true) }
{
    let text = value_of(asked, names::REASON).unwrap_or("");
    if is_reason(alloc, text)? {
        return Ok(text);
    }
    let reason =
        "a reason has at most 500 octets, not all of them blanks, and no line end or other hidden character";
    Err(NoCommand::wrong(alloc, text, reason))
}

/// Who makes a change, and for what reason, as far as the subcommand has words for that.
pub(super) fn attribution_asked<'a>(
    alloc: Global,
    asked: &ArgMatches<'a>,
) -> Result<Attribution<'a>, NoCommand>
    ensures { IfOk result (IsTold (found_of asked.now)) }
{
    Ok(Attribution {
        by: name_told(alloc, asked)?,
        reason: reason_told(alloc, asked)?,
    })
}

/// The kind of a word.
fn kind_of(word: &str) -> Option<DeedKind>
    ensures { result ≡ kind_of word.now }
{
    match word {
        "captured" => Some(DeedKind::Captured),
        "held" => Some(DeedKind::Held),
        "released" => Some(DeedKind::Released),
        "refiled" => Some(DeedKind::Refiled),
        "destroyed" => Some(DeedKind::Destroyed),
        "added" => Some(DeedKind::Added),
        "replaced" => Some(DeedKind::Replaced),
        "titled" => Some(DeedKind::Titled),
        "made" => Some(DeedKind::Made),
        "found" => Some(DeedKind::Found),
        "accepted" => Some(DeedKind::Accepted),
        _ => None,
    }
}

/// A kind of deed, where one is asked for.
fn kind_asked(alloc: Global, asked: &ArgMatches<'_>) -> Result<Option<DeedKind>, NoCommand>
    ensures { IfOk result (IsKind (value_in (found_of asked.now) (codes "deeds"))) }
{
    let Some(word) = value_of(asked, names::DEEDS) else {
        return Ok(None);
    };
    match kind_of(word) {
        Some(kind) => Ok(Some(kind)),
        None => {
            let reason =
                "none of captured, held, released, refiled, destroyed, added, replaced, titled, made, found and accepted";
            Err(NoCommand::wrong_after(alloc, names::DEEDS, word, reason))
        }
    }
}

/// Which events are asked for.
fn events_asked<'a>(alloc: Global, asked: &ArgMatches<'a>) -> Result<TypedHistory<'a>, NoCommand>
    ensures { IfOk result (AreEvents (found_of asked.now)) }
{
    let Numbers { alone, of_volumes } = numbers_asked(alloc, asked)?;
    let alone = HistoryAsked {
        numbers: alone,
        since: day_asked(alloc, asked, names::EVENTS_SINCE)?,
        by: value_of(asked, names::BY),
        kind: kind_asked(alloc, asked)?,
        is_json: has_flag(asked, names::JSON),
    };
    Ok(TypedHistory { alone, of_volumes })
}

/// A change of a history that a flag asks for.
#[derive(Clone, Copy)]
enum Change {
    Begin,
    RequireReasons,
    WaiveReasons,
    AcceptFound,
}

/// The changes of a history, with the flags that ask for them.
const CHANGES: &[(&str, Change)] = &[
    (names::BEGIN, Change::Begin),
    (names::REQUIRE_REASON, Change::RequireReasons),
    (names::WAIVE_REASON, Change::WaiveReasons),
    (names::ACCEPT_FOUND, Change::AcceptFound),
];

/// The change of a history that is asked for, if one is. Two at once are refused.
fn change_asked(alloc: Global, asked: &ArgMatches<'_>) -> Result<Option<Change>, NoCommand>
    ensures { IfOk result (IsChange (changes_in (found_of asked.now))) }
{
    let mut change = None;
    for (name, named) in CHANGES {
        if has_flag(asked, name) {
            if change.is_some() {
                let reason =
                    "of --begin, --require-reason, --waive-reason and --accept-found one stands alone";
                return Err(NoCommand::refused(alloc, reason));
            }
            change = Some(*named);
        }
    }
    Ok(change)
}

/// Whether a change of a history always needs a reason.
fn needs_reason(change: Change) -> bool
    ensures { result ≡ needs_reason change }
{
    match change {
        Change::WaiveReasons | Change::AcceptFound => true,
        Change::Begin | Change::RequireReasons => false,
    }
}

/// The task that a change of a history is.
fn task_of<'a>(change: Change) -> HistoryTask<'a>
    ensures { result ≡ task_of change }
{
    match change {
        Change::Begin => HistoryTask::Begin,
        Change::RequireReasons => HistoryTask::Reasons(Reasons::Required),
        Change::WaiveReasons => HistoryTask::Reasons(Reasons::Optional),
        Change::AcceptFound => HistoryTask::AcceptFound,
    }
}

/// Finds that a change of a history has what it needs beside it, and nothing else.
fn judge_change(
    alloc: Global,
    asked: &ArgMatches<'_>,
    events: &TypedHistory<'_>,
    change: Change,
) -> Result<(), NoCommand>
    ensures { OnOk result (StandsAlone (found_of asked.now) events.now change) }
{
    if events.is_chosen() {
        let reason =
            "--begin, --require-reason, --waive-reason and --accept-found stand with --by and --reason alone";
        return Err(NoCommand::refused(alloc, reason));
    }
    if needs_reason(change) && value_of(asked, names::REASON).unwrap_or("").is_empty() {
        let reason = "--waive-reason and --accept-found need a reason; give it by --reason TEXT";
        return Err(NoCommand::refused(alloc, reason));
    }
    Ok(())
}

/// The change of a history that is asked for, if one is, with what it needs beside it. Without one there is no reason either.
fn judged_change(
    alloc: Global,
    asked: &ArgMatches<'_>,
    events: &TypedHistory<'_>,
) -> Result<Option<Change>, NoCommand>
    ensures { IfOk result (IsJudged (found_of asked.now) events.now) }
{
    match change_asked(alloc, asked)? {
        Some(change) => {
            judge_change(alloc, asked, events, change)?;
            Ok(Some(change))
        }
        None if value_of(asked, names::REASON).is_some() => {
            let reason =
                "--reason needs --begin, --require-reason, --waive-reason or --accept-found";
            Err(NoCommand::refused(alloc, reason))
        }
        None => Ok(None),
    }
}

/// What is done with a history. A reason is refused where it is not changed, and a choice of events where it is; a reason that is
/// missing is refused where findings are accepted or reasons are waived.
pub(super) fn history_asked<'a>(
    alloc: Global,
    asked: &ArgMatches<'a>,
) -> Result<HistoryTask<'a>, NoCommand>
    ensures { IfOk result (IsTask (found_of asked.now)) }
{
    let events = events_asked(alloc, asked)?;
    match judged_change(alloc, asked, &events)? {
        Some(change) => Ok(task_of(change)),
        None => Ok(HistoryTask::Print(events)),
    }
}

/// Whether an octet is a hexadecimal digit, as it is printed.
fn is_mark_octet(octet: u8) -> bool
    ensures { result ≡ is_mark_octet octet }
{
    matches!(octet, b'0'..=b'9' | b'a'..=b'f')
}

/// Whether all octets are such digits.
fn are_mark_octets(word: &[u8]) -> bool
    ensures { result ≡ list_all is_mark_octet word.now }
{
    word.iter().all(|octet| is_mark_octet(*octet))
}

/// Whether a text is a mark: 64 hexadecimal digits, as they are printed.
fn is_mark(text: &str) -> bool
    ensures { result ≡ is_mark text.now }
{
    text.len() == 64 && are_mark_octets(text.as_bytes())
}

/// A mark that is looked for.
pub(super) fn head_asked<'a>(
    alloc: Global,
    asked: &ArgMatches<'a>,
) -> Result<Option<&'a str>, NoCommand>
    ensures { IfOk result (IsHead (value_in (found_of asked.now) (codes "head"))) }
{
    match value_of(asked, names::HEAD) {
        Some(mark) if !is_mark(mark) => {
            let reason =
                "a mark is 64 hexadecimal digits, a to f as small letters, as check prints it";
            Err(NoCommand::wrong(alloc, mark, reason))
        }
        mark => Ok(mark),
    }
}
