//! `refile` over an archive of volumes.

ghost use Rattle.std.specs.Prelude.{◌≡◌, All, true, IfOk, OnOk};
ghost use Rattle.cli_history.specs.declared.opening.Purpose.TheVariants.{Ending};
ghost use Rattle.cli_tasks.specs.Changes.{RefilesFound, ShowsMoves};
ghost use Rattle.cli_tasks.specs.Endings.{JudgesWhereAny};
ghost use Rattle.cli_tasks.specs.Refiles.{
  MovesEach,
  MovesIn,
  RefilesIn,
  RefilesOver,
  RefilesWhereAny,
};

use crate::archives::{Archives, Work};
use crate::changes::{ChangeBy, LedgerWork};
use crate::volume_chains::judge_chain;
use crate::volume_changes::Listed;
use crate::volume_endings::judge_endings;
use crate::volume_numbers::judge_numbers;
use crate::volume_plans::judge_plans;
use crate::volume_row::{Volumes, author_in};
use choice_words::TypedChoice;
use class_plan::Plan;
use cli_changes::{
    MoveTally, RefilingTo, judge_moves, judge_refiling, judge_refused, moves_shown, refile_listed,
};
use cli_choice::{Questions, choice_in_volume};
use cli_console::{Failure, today};
use cli_history::{Purpose, Seals, StoreLedger};
use cli_readings::judge_choice;
use command_lines::archives::{Attribution, Choice, Refiling};
use record_store::{EventLayout, Store};
use sqlite::{Alter, Connection};
use std::alloc::{AllocError, Global};

/// Which records of a volume are to get which class.
#[derive(Clone, Copy)]
struct AskedIn<'a, 't> {
    volume: u32,
    /// The class.
    to: &'t [u8],
    choice: &'t Choice<'a>,
    questions: &'t Questions,
}

/// The records of a volume that get another class, and what that changes.
#[derive(Drop)]
struct Moved {
    tally: MoveTally,
    /// Their numbers.
    numbers: Vec<u32>,
}

/// Finds the records that get another class in a volume, and writes for each what that changes.
#[derive(Drop)]
struct FindMoves<'a, 't> {
    asked: AskedIn<'a, 't>,
}

impl FindMoves<'_, '_> {
    /// Finds them.
    fn perform<S: Alter>(&self, rt: &HostRuntime, archive: &mut Store<S>) -> Result<Moved, Failure>
        ensures { IfOk result (λ moved. ShowsMoves S.Store self.now.asked.to.now
            self.now.asked.choice.now self.now.asked.questions.now archive.old archive.new.conn
            moved) }
    {
        let AskedIn {
            volume,
            to,
            choice,
            questions,
        } = self.asked;
        let is_noted = matches!(archive.event_layout(), EventLayout::Present);
        judge_refiling(rt, is_noted, archive.plan(), to)?;
        let day = today(rt)?;
        let moves = moves_shown(rt, archive, Some(volume), to, day, choice, questions)?;
        Ok(Moved {
            tally: moves.tally(),
            numbers: moves.into_numbers(),
        })
    }
}

impl Work for FindMoves<'_, '_> {
    type Answer = Moved;

    ghost does = { λ S g it before done after. IfOk done
        (λ moved. ShowsMoves g it.asked.to.now it.asked.choice.now it.asked.questions.now before
        after moved) };

    fn work<S: Alter>(
        self,
        rt: &HostRuntime,
        archive: Store<S>,
    ) -> (Connection<S>, Result<Moved, Failure>) {
        let mut archive = archive;
        let found = self.perform(rt, &mut archive);
        (archive.into_connection(), found)
    }
}

/// Gives the records of these numbers in a volume another class. They have to be all of its chosen records that get it.
#[derive(Drop)]
struct RefileListed<'a, 't> {
    asked: AskedIn<'a, 't>,
    numbers: &'t [u32],
}

impl LedgerWork for RefileListed<'_, '_> {
    type Answer = ();

    ghost purpose_by = { λ it present. Ending };

    ghost makes = { λ S g it old new done seals. RefilesFound g old new done it.asked.to.now
        it.numbers.now it.asked.choice.now it.asked.questions.now };

    fn purpose(&self, _alloc: Global, _present: &Plan) -> Result<Purpose, AllocError> {
        Ok(Purpose::Ending)
    }

    fn perform<S: Alter>(
        self,
        rt: &HostRuntime,
        ledger: &mut StoreLedger<'_, S>,
        _seals: &Seals,
    ) -> Result<(), Failure> {
        let AskedIn {
            volume,
            to,
            choice,
            questions,
            ..
        } = self.asked;
        let refiling = RefilingTo {
            rt,
            volume: Some(volume),
            to,
        };
        refile_listed(ledger, &refiling, choice, questions, self.numbers)
    }
}

/// Which records of all volumes are to get which class.
#[derive(Clone, Copy)]
struct Asked<'a, 't> {
    /// The class.
    to: &'t [u8],
    typed: &'t TypedChoice<'a>,
    questions: &'t Questions,
}

/// What was found in all volumes.
#[derive(Drop)]
struct AllMoved {
    tally: MoveTally,
    listed: Vec<Listed>,
}

/// Finds the records of a volume that get another class, and writes for each what that changes. A volume of which no record is asked
/// for is not opened.
fn moves_in<A: Archives>(
    rt: &HostRuntime,
    archives: &A,
    volumes: Volumes<'_>,
    volume: u32,
    asked: Asked<'_, '_>,
) -> Result<Moved, Failure>
    ensures { IfOk result (λ moved. MovesIn A.Kept.Store (A.is_at archives.now)
        volumes.entry.folder.now asked.entry.to.now asked.entry.typed.now
        asked.entry.questions.now volume moved) }
{
    let Asked {
        to,
        typed,
        questions,
    } = asked;
    match choice_in_volume(rt.alloc(), typed, volume)? {
        Some(choice) => {
            let asked = AskedIn {
                volume,
                to,
                choice: &choice,
                questions,
            };
            volumes.lend(rt, archives, volume, FindMoves { asked })
        }
        None => Ok(Moved {
            tally: MoveTally::none(),
            numbers: Vec::new(rt.alloc()),
        }),
    }
}

/// Finds the records that get another class, volume by volume, and writes for each what that changes.
fn moves_in_each<A: Archives>(
    rt: &HostRuntime,
    archives: &A,
    volumes: Volumes<'_>,
    asked: Asked<'_, '_>,
) -> Result<AllMoved, Failure>
    ensures { IfOk result (λ all. MovesEach A.Kept.Store (A.is_at archives.now)
        volumes.entry.folder.now asked.entry.to.now asked.entry.typed.now
        asked.entry.questions.now volumes.entry.last all.tally all.listed.items) }
{
    let mut tally = MoveTally::none();
    let mut listed = Vec::new(rt.alloc());
    for below in 0..volumes.last {
        let volume = below + 1;
        let Moved {
            tally: next,
            numbers,
        } = moves_in(rt, archives, volumes, volume, asked)?;
        tally = tally.joined(next);
        listed.push(Listed { volume, numbers })?;
    }
    Ok(AllMoved { tally, listed })
}

/// Gives the records of these numbers in a volume another class. They have to be all of its chosen records that get it.
fn refile_in<A: Archives>(
    rt: &HostRuntime,
    archives: &A,
    volumes: Volumes<'_>,
    asked: AskedIn<'_, '_>,
    numbers: &[u32],
    told: &Attribution<'_>,
) -> Result<(), Failure>
    ensures { OnOk result (RefilesIn A.Kept.Store (A.is_at archives.now)
        volumes.entry.folder.now told.now asked.entry.to.now asked.entry.choice.now
        asked.entry.questions.now asked.entry.volume numbers.now) }
{
    let volume = asked.volume;
    let author = author_in(rt, told, volume)?;
    let change = RefileListed { asked, numbers };
    volumes.lend(rt, archives, volume, ChangeBy { author, change })
}

/// Gives the records of a volume that were listed another class, if any were.
fn refile_any_in<A: Archives>(
    rt: &HostRuntime,
    archives: &A,
    volumes: Volumes<'_>,
    asked: Asked<'_, '_>,
    listed: &Listed,
    told: &Attribution<'_>,
) -> Result<(), Failure>
    ensures { OnOk result (RefilesWhereAny A.Kept.Store (A.is_at archives.now)
        volumes.entry.folder.now told.now asked.entry.to.now asked.entry.typed.now
        asked.entry.questions.now listed.now) }
{
    let volume = listed.volume;
    let numbers = listed.numbers.as_slice();
    if numbers.is_empty() {
        return Ok(());
    }
    let Asked {
        to,
        typed,
        questions,
    } = asked;
    match choice_in_volume(rt.alloc(), typed, volume)? {
        Some(choice) => {
            let asked = AskedIn {
                volume,
                to,
                choice: &choice,
                questions,
            };
            refile_in(rt, archives, volumes, asked, numbers, told)
        }
        None => Ok(()),
    }
}

/// Gives the records that were listed another class, volume by volume, once the ledgers of these were judged.
fn refile_each<A: Archives>(
    rt: &HostRuntime,
    archives: &A,
    volumes: Volumes<'_>,
    asked: Asked<'_, '_>,
    listed: &[Listed],
    told: &Attribution<'_>,
) -> Result<(), Failure>
    requires { All (JudgesWhereAny A.Kept.Store (A.is_at archives.now) volumes.folder.now
        told.now) listed.now }
    ensures { OnOk result (All (RefilesWhereAny A.Kept.Store (A.is_at archives.now)
        volumes.entry.folder.now told.now asked.entry.to.now asked.entry.typed.now
        asked.entry.questions.now) listed.now) }
{
    for of_volume in listed {
        refile_any_in(rt, archives, volumes, asked, of_volume, told)?;
    }
    Ok(())
}

/// Gives the records of a choice another class of the plan, once it was written what that changes in all volumes, and someone agrees.
/// `Usage` where a number is typed without its volume or nobody agrees, and `BadData` where there is no such volume, or a volume has not
/// the plan of the archive, or does not go on from the one before; and, where the ledger of a volume of these records cannot be opened for
/// this, as in a single store: then nothing is done. Another program may change a volume after that; where it fails then, those before it
/// are done. `TryAgain` where other records of a volume would get the class by then.
pub fn refile<A: Archives>(
    rt: &HostRuntime,
    archives: &A,
    volumes: Volumes<'_>,
    typed: &TypedChoice<'_>,
    refiling: Refiling<'_>,
    told: &Attribution<'_>,
) -> Result<(), Failure>
    ensures { OnOk result (RefilesOver A.Kept.Store (A.is_at archives.now)
        volumes.entry.folder.now told.now refiling.entry.to.now typed.now volumes.entry.last) }
{
    judge_numbers(rt, volumes.last, typed)?;
    let questions = judge_choice(rt, &typed.alone)?;
    judge_plans(rt, archives, volumes)?;
    judge_chain(rt, archives, volumes)?;
    let asked = Asked {
        to: refiling.to.as_bytes(),
        typed,
        questions: &questions,
    };
    let AllMoved { tally, listed } = moves_in_each(rt, archives, volumes, asked)?;
    let listed = listed.as_slice();
    judge_endings(rt, archives, volumes, listed, told)?;
    judge_moves(rt, tally, refiling.is_agreed)?;
    refile_each(rt, archives, volumes, asked, listed, told)?;
    judge_refused(tally.is_refused)
}
