//! `hold` and `release`: records that must not be destroyed.

ghost use Rattle.std.specs.Prelude.{◌≡◌, ◌||◌, ◌∷◌, ◌++◌, [], true, false, not, IfOk, OnErr, OnOk};
ghost use Rattle.cli_choice.specs.Reads.{IsReadOf};
ghost use Rattle.record_archive.specs.Archive.{Archive};
ghost use Rattle.record_archive.specs.Calls.{CarriesOut, Quietly};
ghost use Rattle.record_choice.specs.Reads.{OnlyReads};
ghost use Rattle.record_choice.specs.Views.{choice_view};
ghost use Rattle.record_ledger.specs.Ledgers.{keeper_of};
ghost use Rattle.cli_console.specs.Counts.{counted as counted_if};
ghost use Rattle.cli_console.specs.Failures.{IsToldAs};
ghost use Rattle.cli_console.specs.Finds.{IsAtEnd, IsBounded, found_ahead, found_in};
ghost use Rattle.cli_changes.specs.HoldLines.{change_words, changed_line as changed_line_of, counted_words, found_words, named_words, no_more_line, said_words};
ghost use Rattle.cli_changes.specs.Holdings.{
  AddsMeant,
  HoldsAs,
  HoldsWell,
  IsHeld,
  changed_numbers,
  changed_on,
  chosen_by,
  hold_command,
  held_by,
  in_both,
  is_any_of,
  meant_numbers,
  more_meant,
  more_seen,
  none_meant,
  none_seen,
  none_tried,
  status_of_none,
};
ghost use Rattle.cli_changes.specs.Series.{ChangesAll, ChangesFirst, IsSoOf, KeepsAll, WasClean};

use crate::series::{
    Changed, RecordChange, change_each, is_all_found, judge_refused, refusal_told,
};
use choice_words::{TypedNumbers, reads_as_any_numbers};
use cli_choice::{Change, Questions, is_meant};
use cli_console::{Failure, Reader, Search, Status, counted, read_chosen, tell, write_text};
use cli_history::StoreLedger;
use cli_texts::{Headers, put_number};
use command_lines::archives::Choice;
use record_archive::Records;
use record_choice::{Holder, Repository};
use record_store::{RecordEntry, StoreFault};
use sqlite::Alter;
use std::alloc::{AllocError, Global};
use tool_texts::{Shown, put};

/// Changes the hold of a name on a record.
fn change_one<S: Alter>(
    archive: &mut StoreLedger<'_, S>,
    change: Change,
    name: &[u8],
    number: u32,
) -> Result<(), StoreFault>
    ensures { CarriesOut (keeper_of S.Store) archive.old archive.new
        (hold_command change name.now number) Quietly result }
{
    match change {
        Change::Place => archive.hold(name, number),
        Change::End => archive.release(name, number),
    }
}

/// Adds words for what becomes of a hold.
fn put_change(line: &mut Shown, change: Change) -> Result<(), AllocError>
    ensures { OnOk result (line.new ≡ line.old ++ change_words change) }
{
    match change {
        Change::Place => line.words(" hold "),
        Change::End => line.words(" released "),
    }
}

/// The line of a hold that was placed on a record, or released.
#[tactic(auto, unfolding(crate::specs::HoldLines::changed_line))]
fn changed_line(alloc: Global, hold: &HoldChange<'_>, number: u32) -> Result<Shown, AllocError>
    ensures { IfOk result (λ line. line
        ≡ changed_line_of hold.now.volume hold.now.change hold.now.name.now number) }
{
    let mut line = Shown::new(alloc);
    line.words("record ")?;
    put_number(&mut line, hold.volume, number)?;
    put_change(&mut line, hold.change)?;
    line.named(hold.name.as_bytes())?;
    line.end_line()?;
    Ok(line)
}

/// Writes that a hold was placed on a record, or released. That is done, so whatever happens to the line is no failure.
fn write_change(hold: &HoldChange<'_>, number: u32) {
    if let Ok(line) = changed_line(hold.rt.alloc(), hold, number) {
        let _ = write_text(hold.rt, &line);
    }
}

/// The change of the hold of a name on single records.
#[derive(Clone, Copy)]
pub struct HoldChange<'a> {
    pub rt: &'a HostRuntime,
    /// The number of the volume of the records, in an archive of volumes.
    pub volume: Option<u32>,
    pub change: Change,
    pub name: &'a str,
}

impl<S: Alter> RecordChange<StoreLedger<'_, S>> for HoldChange<'_> {
    ghost keeper = { keeper_of S.Store };

    ghost command = { λ it n a. hold_command it.change it.name.now n a };

    /// Changes the hold on a record, and writes that. A refusal is told, and a fault of the store is the end.
    fn change_one(&self, archive: &mut StoreLedger<'_, S>, number: u32) -> Result<bool, Failure> {
        match change_one(archive, self.change, self.name.as_bytes(), number) {
            Ok(()) => {
                write_change(self, number);
                Ok(true)
            }
            Err(fault) => refusal_told(self.rt, self.volume, number, fault),
        }
    }
}

/// The records of those that are found on which the hold of a name is to change.
#[derive(Drop)]
struct Meant<'a> {
    change: Change,
    name: &'a str,
    typed: &'a [TypedNumbers],
    /// Their numbers.
    numbers: Vec<u32>,
    /// How many live records are passed over, which are as they are to be already.
    passed: u64,
    /// How many destroyed ones are passed over.
    destroyed: u64,
}

impl Meant<'_> {
    /// Counts a record that is passed over.
    fn pass_over(&mut self, entry: &RecordEntry)
        ensures { self.new ≡ record self.old {
          passed = counted_if (not entry.now.destroyed) self.old.passed;
          destroyed = counted_if entry.now.destroyed self.old.destroyed;
        } }
    {
        self.passed = counted(!entry.destroyed, self.passed);
        self.destroyed = counted(entry.destroyed, self.destroyed);
    }

    /// Adds the number of a record that is meant, and counts another one as passed over.
    fn look_at(&mut self, entry: &RecordEntry) -> Result<(), Failure>
        ensures { OnOk result (AddsMeant self.old (entry.now ∷ []) self.new) }
    {
        if is_meant(self.change, self.name.as_bytes(), self.typed, entry) {
            self.numbers.push(entry.number)?;
            return Ok(());
        }
        self.pass_over(entry);
        Ok(())
    }
}

impl Reader for Meant<'_> {
    ghost takes = { λ old a es new. AddsMeant old es new };

    fn take<R: Repository<Fault = StoreFault>>(
        &mut self,
        _archive: &mut R,
        entry: &RecordEntry,
        _headers: Option<&Headers>,
    ) -> Result<(), Failure> {
        self.look_at(entry)
    }

    ghost takes_none = { λ meant a. none_meant meant };

    ghost takes_more = { λ x y z a es fs one other. more_meant x y z es fs one other };
}

/// The records of those that are found on which the hold of a name is to change: the numbers of each that is meant, in
/// their order, and no other.
fn meant_of<'a, R: Repository<Fault = StoreFault>>(
    archive: &mut R,
    search: &mut Search<'_, '_>,
    hold: HoldChange<'a>,
    typed: &'a [TypedNumbers],
) -> Result<Meant<'a>, Failure>
    requires { IsBounded search.old }
    ensures reads { OnlyReads R.clean R.stands archive.old archive.new }
    ensures meant { IfOk result (λ m. IsReadOf R.clean R.stands archive.old archive.new
        (λ a. m.numbers.items ≡ meant_numbers hold.entry.change hold.entry.name.now typed.now
        (found_ahead search.old a))) }
    ensures ended { IfOk result (λ m. IsReadOf R.clean R.stands archive.old archive.new
        (λ a. IsAtEnd search.old a search.new)) }
{
    let mut meant = Meant {
        change: hold.change,
        name: hold.name,
        typed,
        numbers: Vec::new(hold.rt.alloc()),
        passed: 0,
        destroyed: 0,
    };
    search.read_found(hold.rt, archive, &mut meant)?;
    Ok(meant)
}

/// Whether records were handed over.
#[derive(Clone, Copy)]
struct Seen {
    is_any: bool,
}

impl Reader for Seen {
    ghost takes = { λ old a es new. new.is_any ≡ (old.is_any || is_any_of es) };

    fn take<R: Repository<Fault = StoreFault>>(
        &mut self,
        _archive: &mut R,
        _entry: &RecordEntry,
        _headers: Option<&Headers>,
    ) -> Result<(), Failure> {
        self.is_any = true;
        Ok(())
    }

    ghost takes_none = { λ seen a. none_seen seen.is_any };

    ghost takes_more = { λ x y z a es fs one other.
        more_seen x.is_any y.is_any z.is_any es fs one other };
}

/// The live records that the hold of a name keeps.
pub(crate) fn held_choice(alloc: Global, name: &str) -> Result<record_choice::Choice, AllocError>
    ensures { IfOk result (λ c. choice_view c ≡ chosen_by name.now) }
{
    let mut held = record_choice::Choice::live();
    held.held = Some(Holder::Named(Vec::from_slice(alloc, name.as_bytes())?));
    Ok(held)
}

/// Whether a live record has a hold of a name.
pub fn is_held_by<R: Repository<Fault = StoreFault>>(
    rt: &HostRuntime,
    archive: &mut R,
    name: &str,
) -> Result<bool, Failure>
    ensures reads { OnlyReads R.clean R.stands archive.old archive.new }
    ensures held { IfOk result (λ b. IsReadOf R.clean R.stands archive.old archive.new
        (λ a. b ≡ is_any_of (held_by name.now a))) }
{
    let mut seen = Seen { is_any: false };
    read_chosen(rt, archive, &held_choice(rt.alloc(), name)?, &mut seen)?;
    Ok(seen.is_any)
}

/// The name of a hold, and what is said of it.
#[tactic(auto, unfolding(crate::specs::HoldLines::said_words))]
fn said_of(alloc: Global, name: &str, words: &'static str) -> Result<Shown, AllocError>
    ensures { IfOk result (λ text. text ≡ said_words name.now words.now) }
{
    let mut text = Shown::new(alloc);
    put!(text; named(name.as_bytes()) ": " words(words))?;
    Ok(text)
}

/// What is said of numbers of records where the name of a hold belongs.
const NAME_FORGOTTEN: &str =
    "numbers of records, where the name of the hold belongs; type it before them, as audit 3 5-9, or audit 3/17 in a folder of volumes";

/// The failure of the end of a hold that no record has. `Usage` where its name reads as numbers of records, with a volume or without:
/// then it was more likely forgotten. Else `BadData`.
pub(crate) fn not_held(alloc: Global, name: &str) -> Failure
    ensures { IsToldAs (status_of_none name.now) result }
{
    if reads_as_any_numbers(name.as_bytes()) {
        return Failure::shown(Status::Usage, said_of(alloc, name, NAME_FORGOTTEN));
    }
    let words = "no record has a hold of this name; the subcommand holds lists the holds";
    Failure::shown(Status::BadData, said_of(alloc, name, words))
}

/// Tells that no hold ended. `BadData` where a record is refused, which was told, and where no record of the archive has a hold
/// of that name, or `Usage` where that name reads as numbers.
fn tell_none_ended(
    rt: &HostRuntime,
    name: &str,
    is_held: bool,
    is_refused: bool,
) -> Result<(), Failure>
    ensures held { OnOk result (is_held ≡ true) }
    ensures accepted { OnOk result (is_refused ≡ false) }
{
    if !is_held {
        return Err(not_held(rt.alloc(), name));
    }
    judge_refused(is_refused)?;
    let words = "none of these records has this hold; the subcommand holds lists the holds";
    tell(rt, &said_of(rt.alloc(), name, words)?);
    Ok(())
}

/// What became of the records that were found on which the hold of a name was to change.
#[derive(Clone, Copy)]
pub struct HoldTally {
    changed: Changed,
    /// How many live records were passed over, which are as they are to be already.
    passed: u64,
    /// How many destroyed ones were passed over.
    destroyed: u64,
}

impl HoldTally {
    /// That of no record.
    pub fn none() -> HoldTally
        ensures { result ≡ none_tried }
    {
        HoldTally {
            changed: Changed::none(),
            passed: 0,
            destroyed: 0,
        }
    }

    /// That of these records, and of those of another store, up to the greatest counts.
    pub fn joined(self, other: HoldTally) -> HoldTally
        ensures { result ≡ in_both self other }
    {
        HoldTally {
            changed: self.changed.joined(other.changed),
            passed: self.passed.saturating_add(other.passed),
            destroyed: self.destroyed.saturating_add(other.destroyed),
        }
    }

    /// Whether the hold changed on one.
    pub fn is_any(&self) -> bool
        ensures { result ≡ self.now.changed.is_any }
    {
        self.changed.is_any
    }
}

/// Adds a count between words.
#[tactic(auto, unfolding(crate::specs::HoldLines::counted_words))]
fn put_counted(
    line: &mut Shown,
    before: &'static str,
    count: u64,
    after: &'static str,
) -> Result<(), AllocError>
    ensures { OnOk result (line.new ≡ line.old ++ counted_words before.now count after.now) }
{
    put!(line; words(before) value(&count) words(after))
}

/// Adds what was found, where a hold keeps no record more.
fn put_found(line: &mut Shown, passed: u64, destroyed: u64) -> Result<(), AllocError>
    ensures { OnOk result (line.new ≡ line.old ++ found_words passed destroyed) }
{
    if passed > 0 {
        return put_counted(line, "0 new, ", passed, " kept already");
    }
    if destroyed > 0 {
        return put_counted(line, "found 0 live, ", destroyed, " destroyed");
    }
    line.words("no record is found")
}

/// Adds a name between words.
#[tactic(auto, unfolding(crate::specs::HoldLines::named_words))]
fn put_named(
    line: &mut Shown,
    before: &'static str,
    name: &[u8],
    after: &'static str,
) -> Result<(), AllocError>
    ensures { OnOk result (line.new ≡ line.old ++ named_words before.now name.now after.now) }
{
    put!(line; words(before) named(name) words(after))
}

/// Adds the line that a hold was placed on no record, and why: none was found, or it keeps those that were found already.
fn put_no_more(line: &mut Shown, name: &str, passed: u64, destroyed: u64) -> Result<(), AllocError>
    ensures { OnOk result (line.new ≡ line.old ++ no_more_line name.now passed destroyed) }
{
    put_named(line, "hold ", name.as_bytes(), " keeps no record more: ")?;
    put_found(line, passed, destroyed)?;
    line.end_line()
}

/// Ends what placed a hold on records: where it was placed on none, and none was refused, that is written. `BadData` where one was
/// refused, which was told.
fn end_placing(rt: &HostRuntime, name: &str, tally: HoldTally) -> Result<(), Failure>
    ensures { OnOk result (tally.changed.is_refused ≡ false) }
{
    judge_refused(tally.changed.is_refused)?;
    if tally.changed.is_any {
        return Ok(());
    }
    let mut line = Shown::new(rt.alloc());
    put_no_more(&mut line, name, tally.passed, tally.destroyed)?;
    write_text(rt, &line)
}

/// Ends what ended a hold on records. `BadData` where one was refused, which was told; where it ended on none, also as for
/// `tell_none_ended`.
fn end_releasing(
    rt: &HostRuntime,
    name: &str,
    changed: Changed,
    is_held: bool,
) -> Result<(), Failure>
    ensures held { OnOk result (changed.is_any ≡ false → is_held ≡ true) }
    ensures accepted { OnOk result (changed.is_refused ≡ false) }
{
    if !changed.is_any {
        return tell_none_ended(rt, name, is_held, changed.is_refused);
    }
    judge_refused(changed.is_refused)
}

/// Ends a change of the hold of a name that was tried on all records that are meant, in one store or in several. Where the hold was
/// to end, and ended on none, it counts whether a live record has it.
///
/// `BadData` where a record was refused, or not found, which was told, and where no live record has the hold that was to end (`Usage` where
/// its name reads as numbers of records). Where it changed on none, that is told.
pub fn end_holds(
    rt: &HostRuntime,
    change: Change,
    name: &str,
    tally: HoldTally,
    is_held: bool,
) -> Result<(), Failure>
    ensures held { OnOk result (change ≡ Change.End → tally.changed.is_any ≡ false
        → is_held ≡ true) }
    ensures accepted { OnOk result (tally.changed.is_refused ≡ false) }
{
    match change {
        Change::Place => end_placing(rt, name, tally),
        Change::End => end_releasing(rt, name, tally.changed, is_held),
    }
}

/// Whether a live record has the hold that was to end, where it ended on none; else that one may have it.
fn may_be_held<S: Alter>(
    archive: &mut StoreLedger<'_, S>,
    hold: &HoldChange<'_>,
    is_any: bool,
) -> Result<bool, Failure>
    ensures reads { KeepsAll (keeper_of S.Store) archive.old archive.new }
    ensures held { IfOk result (λ b. b ≡ true → is_any ≡ false
        → IsSoOf (keeper_of S.Store) archive.old archive.new
        (λ a. IsHeld hold.now.change hold.now.name.now a)) }
{
    if is_any {
        return Ok(true);
    }
    match hold.change {
        Change::Place => Ok(true),
        Change::End => is_held_by(hold.rt, archive, hold.name),
    }
}

/// Changes the hold of a name on the records of a store that are found. No record is changed before all are found. Those that are typed
/// by themselves and are not found, or that the archive refuses, are told, and count as refused. `BadData` where the class is none of the
/// plan.
///
/// Where it succeeds, the hold is placed on each record that is found, is live and does not have it yet, or ended on each that is
/// found and has it, and nothing else of the archive has changed. Where it fails, it is so for the first of them, in the order of
/// their numbers, up to one of them, none or all, and nothing else has changed.
pub fn hold_found<S: Alter>(
    archive: &mut StoreLedger<'_, S>,
    hold: &HoldChange<'_>,
    choice: &Choice<'_>,
    questions: &Questions,
) -> Result<HoldTally, Failure>
    ensures falls { WasClean (keeper_of S.Store) archive.old archive.new }
    ensures done { IfOk result (λ tally. ChangesAll (keeper_of S.Store) archive.old archive.new
        (changed_on hold.now.change hold.now.name.now)
        (λ a. changed_numbers hold.now.change hold.now.name.now
        (found_in choice.now questions.now a))
        (λ a. HoldsAs tally hold.now.change hold.now.name.now choice.now.numbers.items
        (found_in choice.now questions.now a))) }
    ensures failed { OnErr result (ChangesFirst (keeper_of S.Store) archive.old archive.new
        (changed_on hold.now.change hold.now.name.now)
        (λ a. changed_numbers hold.now.change hold.now.name.now
        (found_in choice.now questions.now a))) }
{
    let mut search = Search::new(hold.rt, archive, choice, questions)?;
    let meant = meant_of(archive, &mut search, *hold, choice.numbers.as_slice())?;
    let changed = change_each(hold, archive, meant.numbers.as_slice())?;
    let is_all_found = is_all_found(search.end_in(hold.rt, archive, hold.volume))?;
    Ok(HoldTally {
        changed: changed.with_missing(is_all_found),
        passed: meant.passed,
        destroyed: meant.destroyed,
    })
}

/// Places the hold of a name on the records that are found, or ends it on them. No record is changed before all are found.
///
/// `BadData` where the class is none of the plan; and in the end where a number that is typed by itself is not found, or the archive
/// refuses that record, each of which is told, and where no record of the archive has the hold that is to end, which is told too (`Usage`
/// where the name of the hold reads as numbers of records). It is no failure where a hold is placed on no further record, since a hold is
/// placed again after each intake, nor where it ends on none of those that are found, while others have it. Either is told.
///
/// Where it succeeds, the hold is placed on each record that is found, is live and does not have it yet, or ended on each that is
/// found and has it, and nothing else of the archive has changed. Where it fails, it is so for the first of them, in the order of
/// their numbers, up to one of them, none or all, and nothing else has changed.
pub fn change_holds<S: Alter>(
    rt: &HostRuntime,
    archive: &mut StoreLedger<'_, S>,
    change: Change,
    name: &str,
    choice: &Choice<'_>,
    questions: &Questions,
) -> Result<(), Failure>
    ensures falls { WasClean (keeper_of S.Store) archive.old archive.new }
    ensures done { OnOk result (ChangesAll (keeper_of S.Store) archive.old archive.new
        (changed_on change name.now)
        (λ a. changed_numbers change name.now (found_in choice.now questions.now a))
        (λ a. HoldsWell change name.now choice.now.numbers.items
        (found_in choice.now questions.now a) a)) }
    ensures failed { OnErr result (ChangesFirst (keeper_of S.Store) archive.old archive.new
        (changed_on change name.now)
        (λ a. changed_numbers change name.now (found_in choice.now questions.now a))) }
{
    let hold = HoldChange {
        rt,
        volume: None,
        change,
        name,
    };
    let tally = hold_found(archive, &hold, choice, questions)?;
    let is_held = may_be_held(archive, &hold, tally.is_any())?;
    end_holds(rt, change, name, tally, is_held)
}
