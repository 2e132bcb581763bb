//! What is changed in an archive of volumes: in each of them, by a ledger of its own.

ghost use Rattle.std.specs.Prelude.{◌≡◌, All, true, false, IfOk, None, OnOk};
ghost use Rattle.choice_words.specs.Readings.{reads_as_any_numbers};
ghost use Rattle.cli_history.specs.declared.opening.Purpose.TheVariants.{Ending};
ghost use Rattle.cli_tasks.specs.Changes.{EndsListed, HoldsFound, ListsHeld, ShowsHold};
ghost use Rattle.cli_tasks.specs.Endings.{JudgesWhereAny};
ghost use Rattle.cli_tasks.specs.Purposes.{for_hold};
ghost use Rattle.cli_tasks.specs.Releases.{EndsIn, EndsWhereAny, ListsEach, ReleasesOver, is_any_listed};
ghost use Rattle.cli_tasks.specs.Volumes.{HoldsIn, HoldsInEach, HoldsOver, HoldsTyped, ShowsIn};
ghost use Rattle.cli_tasks.specs.Works.{SomeVolume};

use crate::archives::{Archives, Work};
use crate::changes::{ChangeBy, LedgerWork, purpose_of_hold};
use crate::volume_endings::judge_endings;
use crate::volume_numbers::{NAME_FORGOTTEN, judge_forgotten, judge_numbers};
use crate::volume_row::{Volumes, author_in};
use choice_words::TypedChoice;
use class_plan::Plan;
use cli_changes::{
    HoldChange, HoldTally, end_holds, hold_found, is_held_by, judge_release, list_held,
    release_listed,
};
use cli_choice::{Change, Questions, choice_in_volume};
use cli_console::Failure;
use cli_history::{Purpose, Seals, StoreLedger};
use cli_readings::judge_choice;
use command_lines::archives::{Attribution, Choice};
use record_store::Store;
use sqlite::{Alter, Connection};
use std::alloc::{AllocError, Global};

/// Places or ends the hold of a name on the records of a choice, of whose messages these questions are asked.
#[derive(Drop)]
struct ChangeHold<'a, 't> {
    hold: HoldChange<'t>,
    choice: &'t Choice<'a>,
    questions: &'t Questions,
}

impl LedgerWork for ChangeHold<'_, '_> {
    type Answer = HoldTally;

    ghost purpose_by = { λ it present. for_hold it.hold.change };

    ghost makes = { λ S g it old new done seals. HoldsFound g old new done it.hold.change
        it.hold.name.now it.choice.now it.questions.now };

    fn purpose(&self, _alloc: Global, _present: &Plan) -> Result<Purpose, AllocError> {
        Ok(purpose_of_hold(self.hold.change))
    }

    fn perform<S: Alter>(
        self,
        _rt: &HostRuntime,
        ledger: &mut StoreLedger<'_, S>,
        _seals: &Seals,
    ) -> Result<HoldTally, Failure> {
        hold_found(ledger, &self.hold, self.choice, self.questions)
    }
}

/// Places or ends a hold on the records of a choice in a volume.
fn hold_in<A: Archives>(
    archives: &A,
    volumes: Volumes<'_>,
    volume: u32,
    hold: HoldChange<'_>,
    choice: &Choice<'_>,
    questions: &Questions,
    told: &Attribution<'_>,
) -> Result<HoldTally, Failure>
    ensures { IfOk result (λ tally. HoldsIn A.Kept.Store (A.is_at archives.now)
        volumes.entry.folder.now told.now hold.entry.change hold.entry.name.now choice.now
        questions.now tally volume) }
{
    let rt = hold.rt;
    let author = author_in(rt, told, volume)?;
    let change = ChangeHold {
        hold: HoldChange {
            volume: Some(volume),
            ..hold
        },
        choice,
        questions,
    };
    volumes.lend(rt, archives, volume, ChangeBy { author, change })
}

/// Places or ends a hold on the records of a volume that are asked for. One of which none is asked for is not opened.
fn hold_typed<A: Archives>(
    archives: &A,
    volumes: Volumes<'_>,
    volume: u32,
    hold: HoldChange<'_>,
    typed: &TypedChoice<'_>,
    questions: &Questions,
    told: &Attribution<'_>,
) -> Result<HoldTally, Failure>
    ensures { IfOk result (λ tally. HoldsTyped A.Kept.Store (A.is_at archives.now)
        volumes.entry.folder.now told.now hold.entry.change hold.entry.name.now typed.now
        questions.now tally volume) }
{
    match choice_in_volume(hold.rt.alloc(), typed, volume)? {
        Some(choice) => hold_in(archives, volumes, volume, hold, &choice, questions, told),
        None => Ok(HoldTally::none()),
    }
}

/// Places or ends a hold on the records of a choice, volume by volume.
fn hold_in_each<A: Archives>(
    archives: &A,
    volumes: Volumes<'_>,
    hold: HoldChange<'_>,
    typed: &TypedChoice<'_>,
    questions: &Questions,
    told: &Attribution<'_>,
) -> Result<HoldTally, Failure>
    ensures { IfOk result (λ tally. HoldsInEach A.Kept.Store (A.is_at archives.now)
        volumes.entry.folder.now told.now hold.entry.change hold.entry.name.now typed.now
        questions.now volumes.entry.last tally) }
{
    let mut tally = HoldTally::none();
    for below in 0..volumes.last {
        let next = hold_typed(archives, volumes, below + 1, hold, typed, questions, told)?;
        tally = tally.joined(next);
    }
    Ok(tally)
}

/// Looks whether a live record of a store has the hold of a name.
#[derive(Drop)]
struct LookForHold<'a> {
    name: &'a str,
}

impl Work for LookForHold<'_> {
    type Answer = bool;

    ghost does = { λ S g it before done after. IfOk done
        (λ is_held. ShowsHold g it.name.now before after is_held) };

    fn work<S: Alter>(
        self,
        rt: &HostRuntime,
        archive: Store<S>,
    ) -> (Connection<S>, Result<bool, Failure>) {
        let mut archive = archive;
        let is_held = is_held_by(rt, &mut archive, self.name);
        (archive.into_connection(), is_held)
    }
}

/// Whether a live record of any volume has the hold of a name.
fn is_held_in_any<A: Archives>(
    rt: &HostRuntime,
    archives: &A,
    volumes: Volumes<'_>,
    name: &str,
) -> Result<bool, Failure>
    ensures { IfOk result (λ is_held. is_held ≡ true → SomeVolume volumes.entry.last
        (ShowsIn A.Kept.Store (A.is_at archives.now) volumes.entry.folder.now name.now)) }
{
    for below in 0..volumes.last {
        let is_held = volumes.lend(rt, archives, below + 1, LookForHold { name })?;
        if is_held {
            return Ok(true);
        }
    }
    Ok(false)
}

/// Whether a live record of any volume has the hold that was to end, where it ended on none; else that one may have it.
fn may_be_held<A: Archives>(
    rt: &HostRuntime,
    archives: &A,
    volumes: Volumes<'_>,
    change: Change,
    name: &str,
    is_any: bool,
) -> Result<bool, Failure>
    ensures { IfOk result (λ is_held. is_held ≡ true → change ≡ Change.End → is_any ≡ false
        → SomeVolume volumes.entry.last
        (ShowsIn A.Kept.Store (A.is_at archives.now) volumes.entry.folder.now name.now)) }
{
    if is_any {
        return Ok(true);
    }
    match change {
        Change::Place => Ok(true),
        Change::End => is_held_in_any(rt, archives, volumes, name),
    }
}

/// Finds that a hold that is to be placed is not named like numbers of records. `Usage` where it is. One that is to end has its name.
fn judge_name(rt: &HostRuntime, change: Change, name: &str) -> Result<(), Failure>
    ensures { OnOk result (change ≡ Change.Place → reads_as_any_numbers name.now ≡ false) }
{
    match change {
        Change::Place => judge_forgotten(rt, name, NAME_FORGOTTEN),
        Change::End => Ok(()),
    }
}

/// Places or ends the hold of a name on the records of a choice, volume by volume, each in its own ledger. It fails as in a single store,
/// at the first volume that does, and those before it are done; where a record is refused, or is not found, the others are done all the
/// same. What is told once is told of all volumes. `Usage` where a number is typed without its volume, or where numbers of records stand in
/// the place of the name of a hold that is to be placed, and `BadData` where there is no such volume.
pub fn change_holds<A: Archives>(
    rt: &HostRuntime,
    archives: &A,
    volumes: Volumes<'_>,
    typed: &TypedChoice<'_>,
    change: Change,
    name: &str,
    told: &Attribution<'_>,
) -> Result<(), Failure>
    ensures { OnOk result (HoldsOver A.Kept.Store (A.is_at archives.now) volumes.entry.folder.now
        told.now change name.now typed.now volumes.entry.last) }
{
    judge_name(rt, change, name)?;
    judge_numbers(rt, volumes.last, typed)?;
    let questions = judge_choice(rt, &typed.alone)?;
    let hold = HoldChange {
        rt,
        volume: None,
        change,
        name,
    };
    let tally = hold_in_each(archives, volumes, hold, typed, &questions, told)?;
    let is_held = may_be_held(rt, archives, volumes, change, name, tally.is_any())?;
    end_holds(rt, change, name, tally, is_held)
}

/// The records of a volume that were listed.
#[derive(Drop)]
pub struct Listed {
    pub volume: u32,
    /// Their numbers.
    pub numbers: Vec<u32>,
}

/// Lists the records that the hold of a name keeps in a volume.
#[derive(Drop)]
struct ListHeld<'a> {
    volume: u32,
    name: &'a str,
}

impl Work for ListHeld<'_> {
    type Answer = Vec<u32>;

    ghost does = { λ S g it before done after. IfOk done
        (λ numbers. ListsHeld g it.name.now before after numbers.items) };

    fn work<S: Alter>(
        self,
        rt: &HostRuntime,
        archive: Store<S>,
    ) -> (Connection<S>, Result<Vec<u32>, Failure>) {
        let mut archive = archive;
        let listed = list_held(rt, &mut archive, Some(self.volume), self.name);
        (archive.into_connection(), listed)
    }
}

/// Ends the hold of a name on the records of these numbers in a volume. They have to be all of its records that have it.
#[derive(Drop)]
struct ReleaseListed<'t> {
    volume: u32,
    name: &'t str,
    numbers: &'t [u32],
}

impl LedgerWork for ReleaseListed<'_> {
    type Answer = ();

    ghost purpose_by = { λ it present. Ending };

    ghost makes = { λ S g it old new done seals. EndsListed g old new done it.name.now
        it.numbers.now };

    fn purpose(&self, _alloc: Global, _present: &Plan) -> Result<Purpose, AllocError> {
        Ok(Purpose::Ending)
    }

    fn perform<S: Alter>(
        self,
        rt: &HostRuntime,
        ledger: &mut StoreLedger<'_, S>,
        _seals: &Seals,
    ) -> Result<(), Failure> {
        release_listed(rt, ledger, self.volume, self.name, self.numbers)
    }
}

/// Lists the records that the hold of a name keeps, volume by volume.
fn list_in_each<A: Archives>(
    rt: &HostRuntime,
    archives: &A,
    volumes: Volumes<'_>,
    name: &str,
) -> Result<Vec<Listed>, Failure>
    ensures { IfOk result (λ listed. ListsEach A.Kept.Store (A.is_at archives.now)
        volumes.entry.folder.now name.now volumes.entry.last listed.items) }
{
    let mut listed = Vec::new(rt.alloc());
    for below in 0..volumes.last {
        let volume = below + 1;
        let numbers = volumes.lend(rt, archives, volume, ListHeld { volume, name })?;
        listed.push(Listed { volume, numbers })?;
    }
    Ok(listed)
}

/// Ends the hold of a name on the records of these numbers in a volume. They have to be all of its records that have it.
fn release_in<A: Archives>(
    rt: &HostRuntime,
    archives: &A,
    volumes: Volumes<'_>,
    volume: u32,
    name: &str,
    numbers: &[u32],
    told: &Attribution<'_>,
) -> Result<(), Failure>
    ensures { OnOk result (EndsIn A.Kept.Store (A.is_at archives.now) volumes.entry.folder.now
        told.now name.now volume numbers.now) }
{
    let author = author_in(rt, told, volume)?;
    let change = ReleaseListed {
        volume,
        name,
        numbers,
    };
    volumes.lend(rt, archives, volume, ChangeBy { author, change })
}

/// Ends the hold of a name on the records of a volume that were listed, if any were.
fn release_any_in<A: Archives>(
    rt: &HostRuntime,
    archives: &A,
    volumes: Volumes<'_>,
    name: &str,
    listed: &Listed,
    told: &Attribution<'_>,
) -> Result<(), Failure>
    ensures { OnOk result (EndsWhereAny A.Kept.Store (A.is_at archives.now)
        volumes.entry.folder.now told.now name.now listed.now) }
{
    let numbers = listed.numbers.as_slice();
    if numbers.is_empty() {
        return Ok(());
    }
    release_in(rt, archives, volumes, listed.volume, name, numbers, told)
}

/// Ends the hold of a name on the records that were listed, volume by volume, once their ledgers were judged.
fn release_each<A: Archives>(
    rt: &HostRuntime,
    archives: &A,
    volumes: Volumes<'_>,
    name: &str,
    listed: &[Listed],
    told: &Attribution<'_>,
) -> Result<(), Failure>
    requires { All (JudgesWhereAny A.Kept.Store (A.is_at archives.now) volumes.folder.now
        told.now) listed.now }
    ensures { OnOk result (All (EndsWhereAny A.Kept.Store (A.is_at archives.now)
        volumes.entry.folder.now told.now name.now) listed.now) }
{
    for of_volume in listed {
        release_any_in(rt, archives, volumes, name, of_volume, told)?;
    }
    Ok(())
}

/// Whether records were listed.
fn is_any(listed: &[Listed]) -> bool
    ensures { result ≡ is_any_listed listed.now }
{
    listed.iter().any(|of_volume| !of_volume.numbers.is_empty())
}

/// Ends the hold of a name on each live record of all volumes that has it, once these were listed, and someone agrees. `BadData` where no
/// record has it, and `Usage` where nobody agrees; and, where the ledger of one of their volumes cannot be opened for this, as in a single
/// store: then nothing is done. Another program may change a volume after that; where it fails then, those before it are done. `TryAgain`
/// where a volume has other records with the hold by then.
pub fn release_all<A: Archives>(
    rt: &HostRuntime,
    archives: &A,
    volumes: Volumes<'_>,
    name: &str,
    is_agreed: bool,
    told: &Attribution<'_>,
) -> Result<(), Failure>
    ensures { OnOk result (ReleasesOver A.Kept.Store (A.is_at archives.now)
        volumes.entry.folder.now told.now name.now volumes.entry.last) }
{
    let listed = list_in_each(rt, archives, volumes, name)?;
    let listed = listed.as_slice();
    judge_endings(rt, archives, volumes, listed, told)?;
    judge_release(rt, name, is_any(listed), is_agreed)?;
    release_each(rt, archives, volumes, name, listed, told)
}
