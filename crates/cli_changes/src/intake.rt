//! `intake`: the new messages of a Maildir.

ghost use Rattle.std.specs.Prelude.{◌≡◌, ◌==◌, is_ok, length, not, true, IfErr, IfOk, OnOk};
ghost use Rattle.std.specs.IoError.{error_kind};
ghost use Rattle.record_ledger.specs.Ledgers.{keeper_of};
ghost use Rattle.cli_changes.specs.Endings.{
  EndsWith,
  IsFailureOf,
  IsOfMaildir,
  maildir_status,
  status_after as status_after_of,
};
ghost use Rattle.cli_changes.specs.IntakeCalls.{is_none as is_none_of, IsFound, TakesAll, TakesMail, TakesNew, TakesRound};
ghost use Rattle.cli_changes.specs.Intakes.{GoesOnAfter};
ghost use Rattle.cli_changes.specs.Rounds.{IsEndAfter};

use crate::intake_log::IntakeLog;
use crate::intake_memory::{forget, recall, renew};
use crate::intake_room::Room;
use crate::moments::{Timing, day_of_moment, timing_in};
use crate::rounds::{Round, Rounds, left_of, together};
use crate::rules::FilingRules;
use crate::space::Place;
use crate::time_of_day::put_time;
use cli_console::{Failure, Status, now};
use cli_history::StoreLedger;
use cli_sources::maildir::{NewMail, has_cur, new_mail, try_move};
use command_lines::archives::{Filing, Telling};
use mail_intake::{End, Taking, Tally, take_in};
use record_archive::Records;
use sqlite::Alter;
use std::io;
use tool_texts::Shown;

/// A Maildir, how its messages are filed, and what is said of them.
pub struct Intake<'a> {
    pub(crate) rt: &'a HostRuntime,
    pub(crate) maildir: &'a str,
    pub(crate) timing: Timing,
    pub(crate) filing: FilingRules<'a>,
    pub(crate) log: IntakeLog<'a>,
}

impl Drop for Intake<'_> {
    fn drop(self) {
        let Intake {
            rt: _,
            maildir: _,
            timing: _,
            filing: _,
            log: _,
        } = self;
    }
}

/// The status of a fault of a Maildir; none where there was no memory.
fn maildir_status(kind: io::ErrorKind) -> Option<Status>
    ensures { result ≡ maildir_status kind }
{
    match kind {
        io::ErrorKind::OutOfMemory => None,
        io::ErrorKind::NotFound | io::ErrorKind::NotADirectory => Some(Status::NoInput),
        _ => Some(Status::TryAgain),
    }
}

/// The failure of the Maildir.
pub(crate) fn maildir_failure(rt: &HostRuntime, maildir: &str, error: io::Error) -> Failure
    ensures { IsFailureOf (maildir_status (error_kind error)) result }
{
    match maildir_status(error.kind()) {
        Some(status) => Failure::at(rt.alloc(), status, maildir, &error),
        None => Failure::NoMemory,
    }
}

/// The status of an intake that came to its end; none where nothing stays.
fn status_after(tally: &Tally, nameless: usize) -> Option<Status>
    ensures { result ≡ status_after_of tally.now nameless }
{
    if tally.given_up > 0 {
        return Some(Status::TryAgain);
    }
    if tally.unfit > 0 || nameless > 0 {
        return Some(Status::BadData);
    }
    None
}

/// How an intake ends that came to its end.
fn end_of(tally: &Tally, nameless: usize) -> Result<(), Failure>
    ensures { EndsWith (status_after_of tally.now nameless) result }
{
    match status_after(tally, nameless) {
        Some(status) => Err(Failure::Reported(status)),
        None => Ok(()),
    }
}

/// Tells what is left to tell at the end of the last round of an intake that began at a time of day, by what became of the messages of
/// the rounds before it, and answers how it ended.
fn close(
    log: &IntakeLog<'_>,
    before: &Tally,
    taking: Taking<Failure>,
    since: &Shown,
) -> Result<(), Failure>
    ensures { IsEndAfter before.now taking result }
{
    let Taking {
        tally,
        nameless,
        end,
    } = taking;
    match end {
        End::Done => {
            let all = together(before, &tally);
            log.write_summary(&all, nameless, since);
            end_of(&all, nameless)
        }
        End::NotCaptured(failure) | End::NotMoved(failure) | End::NotSettled(failure) => {
            Err(failure)
        }
    }
}

/// Takes the new messages over, in an intake that began at a moment, and remembers which ones stay. Where the volume is full before the
/// last one, no more is told.
fn take_over<A: Records>(
    rt: &HostRuntime,
    room: &mut Room<'_, A>,
    begun: u64,
) -> Result<(), Failure>
    ensures { OnOk result (TakesAll A.keeper room.old room.new) }
{
    let mut since = Shown::new(rt.alloc());
    put_time(&mut since, begun)?;
    let day = day_of_moment(begun);
    let recalled = recall(&room.job, room.has_complained);
    let taking = take_in(room, &recalled.memory, day)?;
    room.hear_nameless(taking.nameless, &recalled.memory, day);
    let is_whole = matches!(&taking.end, End::Done);
    let has_complained = renew(&room.job, &recalled, day, room.told.as_slice(), is_whole);
    if room.is_full() {
        room.end_round(&taking.tally, has_complained);
        return Ok(());
    }
    close(&room.job.log, &room.before, taking, &since)
}

/// The new messages of a Maildir that are left for a round, if they can be moved.
fn movable_mail(rt: &HostRuntime, maildir: &str, rounds: &Rounds) -> Result<NewMail, Failure>
    ensures { IfOk result (IsFound rounds.now) }
{
    let NewMail { names, nameless } = match new_mail(rt, maildir) {
        Ok(mail) => mail,
        Err(error) => return Err(maildir_failure(rt, maildir, error)),
    };
    let names = left_of(names, rounds);
    if names.is_empty() {
        return Ok(NewMail { names, nameless });
    }
    match try_move(rt, maildir) {
        Ok(()) => Ok(NewMail { names, nameless }),
        Err(error) => Err(maildir_failure(rt, maildir, error)),
    }
}

/// The same, and the moment at which they are looked for.
fn mail_now(rt: &HostRuntime, maildir: &str, rounds: &Rounds) -> Result<(NewMail, u64), Failure>
    ensures { IfOk result (λ found. IsFound rounds.now found.0) }
{
    let mail = movable_mail(rt, maildir, rounds)?;
    let moment = now(rt)?;
    Ok((mail, moment))
}

/// How a round ended, unless it failed.
fn ended_by<'j>(
    done: Result<(), Failure>,
    round: Round<Intake<'j>, Rounds>,
) -> Result<Round<Intake<'j>, Rounds>, Failure>
    ensures { IfOk result (λ r. (r ≡ round.entry) × (is_ok done ≡ true)) }
{
    match done {
        Ok(()) => Ok(round),
        Err(failure) => Err(failure),
    }
}

/// Takes messages over at a desk over an archive, in a round that begins at a moment.
fn take_mail<'j, A: Records>(
    rt: &HostRuntime,
    archive: A,
    job: Intake<'j>,
    rounds: Rounds,
    timing: Timing,
    place: Place,
    mail: NewMail,
    moment: u64,
) -> (A, Result<Round<Intake<'j>, Rounds>, Failure>)
    ensures goes_on { IfOk result.1 (GoesOnAfter rounds) }
    ensures taken { IfOk result.1
        (TakesMail A.keeper job.entry rounds place mail archive result.0) }
{
    let is_told = rounds.begun.is_some();
    let begun = rounds.begun.unwrap_or(moment);
    let plan = archive.plan().copy().ok();
    let desk = match job.filing.desk(rt, archive, is_told) {
        Ok(desk) => desk,
        Err((archive, failure)) => return (archive, Err(failure)),
    };
    let mut room = Room::new(job, rounds, place, desk, plan, timing, mail);
    let done = take_over(rt, &mut room, begun);
    let ended = room.into_round(begun);
    let (archive, round) = ended;
    (archive, ended_by(done, round))
}

/// Whether no message is new, in an intake that has not begun.
fn is_none(rounds: &Rounds, mail: &NewMail) -> bool
    ensures { result ≡ is_none_of rounds.now mail.now }
{
    rounds.begun.is_none() && mail.names.is_empty() && mail.nameless == 0
}

/// Takes the new messages over at a desk over an archive. Where there is none, no desk is made.
fn take_timed<'j, A: Records>(
    rt: &HostRuntime,
    archive: A,
    job: Intake<'j>,
    rounds: Rounds,
    timing: Timing,
    place: Place,
) -> (A, Result<Round<Intake<'j>, Rounds>, Failure>)
    ensures goes_on { IfOk result.1 (GoesOnAfter rounds) }
    ensures taken { IfOk result.1 (TakesNew A.keeper job.entry rounds place archive result.0) }
{
    let (mail, moment) = match mail_now(rt, job.maildir, &rounds) {
        Ok(found) => found,
        Err(failure) => return (archive, Err(failure)),
    };
    if is_none(&rounds, &mail) {
        forget(&job);
        return (archive, Ok(Round::Done));
    }
    take_mail(rt, archive, job, rounds, timing, place, mail, moment)
}

/// Captures the new messages of a Maildir, in the order of their names, and moves them to its folder `cur`; in a volume until it is full,
/// so that what is left is for a round in the next one. Each message is looked at in one round. Where the clock is before the days of the
/// store it may be done later, `TryAgain`, unless the moment is named.
pub fn take_new<'a, 'j, S: Alter>(
    rt: &HostRuntime,
    archive: StoreLedger<'a, S>,
    job: Intake<'j>,
    rounds: Rounds,
    place: Place,
) -> (
    StoreLedger<'a, S>,
    Result<Round<Intake<'j>, Rounds>, Failure>,
)
    ensures { IfOk result.1
        (TakesRound (keeper_of S.Store) job.entry rounds place archive.entry result.0) }
{
    let mut archive = archive;
    match timing_in(rt, &mut archive, job.timing) {
        Ok(timing) => take_timed(rt, archive, job, rounds, timing, place),
        Err(failure) => (archive, Err(failure)),
    }
}

/// Whether messages have names among those that were listed.
fn has_names(mail: &NewMail) -> bool
    ensures { result ≡ not (length mail.now.names.items == 0) }
{
    !mail.names.is_empty()
}

/// Finds that a folder is a Maildir.
fn judge_maildir(rt: &HostRuntime, maildir: &str) -> Result<(), Failure> {
    match has_cur(rt, maildir) {
        Ok(true) => Ok(()),
        Ok(false) => Err(Failure::at(
            rt.alloc(),
            Status::NoInput,
            maildir,
            &"no Maildir: it has no folder cur",
        )),
        Err(error) => Err(maildir_failure(rt, maildir, error)),
    }
}

impl<'a> Intake<'a> {
    /// The rules by which messages are filed.
    pub fn rules(&self) -> &FilingRules<'a> {
        &self.filing
    }

    /// When messages are captured.
    pub fn timing(&self) -> Timing
        ensures { result ≡ self.now.timing }
    {
        self.timing
    }

    /// The same at other times.
    pub fn with_timing(self, timing: Timing) -> Intake<'a>
        ensures { result ≡ record self.entry { timing = timing } }
    {
        let mut job = self;
        job.timing = timing;
        job
    }

    /// Whether there is a new message. The failure is that of the Maildir.
    pub fn has_mail(&self) -> Result<bool, Failure>
        ensures { IfErr result IsOfMaildir }
    {
        match new_mail(self.rt, self.maildir) {
            Ok(mail) => Ok(has_names(&mail)),
            Err(error) => Err(maildir_failure(self.rt, self.maildir, error)),
        }
    }

    /// A Maildir, how its messages are filed, and what is said of them. `Usage` where their moment is named and has not come;
    /// `NoInput` where there is no Maildir. It may be done later, `TryAgain`, where the clock is not in the years 1970 to 2199, where the
    /// Maildir cannot be looked at, or where rules are at fault and mail is not to go to `unfiled` then.
    pub fn read(
        rt: &'a HostRuntime,
        maildir: &'a str,
        filing: &Filing<'a>,
        telling: Telling,
    ) -> Result<Intake<'a>, Failure> {
        let timing = Timing::new(rt, filing.moment)?;
        judge_maildir(rt, maildir)?;
        Ok(Intake {
            rt,
            maildir,
            timing,
            filing: FilingRules::read(rt, filing, telling.has_times)?,
            log: IntakeLog::new(rt, telling),
        })
    }
}
