//! Old mail that is captured.

ghost use Rattle.std.specs.Prelude.{◌-◌, string_bytes, IfOk, OnOk};
ghost use Rattle.cli_tasks.specs.Captured.{KnowsVolumes, ShowsCaptured};
ghost use Rattle.cli_tasks.specs.Commands.{IsTold};
ghost use Rattle.cli_tasks.specs.Imports.{ImportsAll, ImportsIn, ImportsRound, KnowsBefore, Prepares};

use crate::archives::{Archives, Work, lend};
use crate::changes::filing_of;
use crate::rolling::place_for_import;
use crate::volume_row::Volumes;
use cli_changes::{ImportRounds, MailImport, NamedRules, Place, Round, import_mail};
use cli_console::{Failure, Status};
use cli_history::{Author, Purpose, captured_for, open_ledger};
use command_lines::archives::{Attribution, Import};
use record_known::Known;
use record_store::Store;
use sqlite::{Alter, Connection};

/// The rules of an import, by which the history names the officer of each capture. Where they are at fault, which was told, nothing
/// would be known of the captures later, so none is made: `TryAgain`.
fn named_rules(rt: &HostRuntime, job: &MailImport<'_>) -> Result<NamedRules, Failure> {
    match job.rules().named(rt.alloc())? {
        Some(named) => Ok(named),
        None => Err(Failure::Reported(Status::TryAgain)),
    }
}

/// Looks which messages are captured for an officer already.
#[derive(Drop)]
struct LookForCaptured<'o> {
    officer: &'o str,
}

impl Work for LookForCaptured<'_> {
    type Answer = Known;

    ghost does = { λ S g it before done after. IfOk done
        (ShowsCaptured g it.officer.now before after) };

    fn work<S: Alter>(
        self,
        rt: &HostRuntime,
        archive: Store<S>,
    ) -> (Connection<S>, Result<Known, Failure>) {
        let mut archive = archive;
        match captured_for(rt, &mut archive, self.officer) {
            Ok(known) => (archive.into_connection(), Ok(known)),
            Err(failure) => (archive.into_connection(), Err(failure)),
        }
    }
}

/// Notes which messages are captured for an officer already in the volumes of an archive from one on, up to the one before another.
fn know_volumes<A: Archives>(
    rt: &HostRuntime,
    archives: &A,
    folder: &str,
    officer: &str,
    from: u32,
    to: u32,
    rounds: ImportRounds,
) -> Result<ImportRounds, Failure>
    ensures { IfOk result (KnowsVolumes A.Kept.Store (A.is_at archives.now) folder.now officer.now
        from (to - from) rounds) }
{
    let volumes = Volumes { folder, last: to };
    let count = to.saturating_sub(from);
    let mut rounds = rounds;
    for done in 0..count {
        let volume = from + done;
        let known = volumes.lend(rt, archives, volume, LookForCaptured { officer })?;
        rounds.know(Some(volume), known)?;
    }
    Ok(rounds)
}

/// The rules of an import, once it is noted what is captured by them already in a store, or in a volume.
fn prepared<S: Alter>(
    rt: &HostRuntime,
    archive: &mut Store<S>,
    job: &MailImport<'_>,
    rounds: &mut ImportRounds,
    volume: Option<u32>,
) -> Result<NamedRules, Failure>
    ensures { IfOk result (λ named. Prepares S.Store (string_bytes named.officer) volume
        archive.old archive.new rounds.old rounds.new) }
{
    let named = named_rules(rt, job)?;
    let known = captured_for(rt, archive, named.officer.as_str())?;
    rounds.know(volume, known)?;
    Ok(named)
}

/// Captures old mail, in a volume until it is full.
#[derive(Drop)]
struct ImportOld<'a> {
    author: Author<'a>,
    job: MailImport<'a>,
    rounds: ImportRounds,
    place: Place,
}

impl<'a> Work for ImportOld<'a> {
    type Answer = Round<MailImport<'a>, ImportRounds>;

    ghost does = { λ S g it before done after. IfOk done
        (λ round. ImportsIn g it.author it.job it.rounds it.place before round after) };

    fn work<S: Alter>(
        self,
        rt: &HostRuntime,
        archive: Store<S>,
    ) -> (
        Connection<S>,
        Result<Round<MailImport<'a>, ImportRounds>, Failure>,
    ) {
        let ImportOld {
            author,
            job,
            rounds,
            place,
        } = self;
        let mut archive = archive;
        let mut rounds = rounds;
        let named = match prepared(rt, &mut archive, &job, &mut rounds, place.volume) {
            Ok(named) => Some(named),
            Err(failure) => {
                let failure = failure.in_volume(rt.alloc(), place.volume);
                return (archive.into_connection(), Err(failure));
            }
        };
        let filing = filing_of(&named);
        let ledger = match open_ledger(rt, archive, &author, filing, Purpose::Capturing) {
            Ok(ledger) => ledger,
            Err((archive, failure)) => {
                let failure = failure.in_volume(rt.alloc(), author.volume());
                return (archive.into_connection(), Err(failure));
            }
        };
        let (ledger, done) = import_mail(ledger, job, rounds, place);
        (ledger.into_store().into_connection(), done)
    }
}

/// Notes which messages are captured already in the volumes before one, from this one on; none are before a store that is no volume.
fn know_before<A: Archives>(
    rt: &HostRuntime,
    archives: &A,
    store: &str,
    job: &MailImport<'_>,
    from: u32,
    volume: Option<u32>,
    rounds: ImportRounds,
) -> Result<ImportRounds, Failure>
    ensures { IfOk result (KnowsBefore A.Kept.Store (A.is_at archives.now) store.now from volume
        rounds) }
{
    match volume {
        Some(volume) => {
            let named = named_rules(rt, job)?;
            let officer = named.officer.as_str();
            know_volumes(rt, archives, store, officer, from, volume, rounds)
        }
        None => Ok(rounds),
    }
}

/// Captures old mail in a round: in a store, or in a volume of an archive until that is full, once it is noted what the volumes from this one
/// on up to that one have already. Answers beside it which volume that is.
fn import_round<'a, A: Archives>(
    rt: &HostRuntime,
    archives: &A,
    store: &str,
    job: MailImport<'a>,
    rounds: ImportRounds,
    from: u32,
    is_first: bool,
    told: &Attribution<'a>,
) -> Result<(Round<MailImport<'a>, ImportRounds>, Option<u32>), Failure>
    ensures { IfOk result (λ made. ImportsRound A.Kept.Store (A.is_at archives.now) store.now
        (IsTold told.now) job.entry rounds made.0) }
{
    let timing = job.timing();
    let (capturing, place) = place_for_import(rt, archives, store, told, timing, is_first)?;
    let known = know_before(rt, archives, store, &job, from, place.volume, rounds)?;
    let author = Author::or_program(rt, told)?;
    let work = ImportOld {
        author: author.in_volume(place.volume),
        job,
        rounds: known,
        place,
    };
    let round = lend(rt, archives, capturing.path.as_str(), work)?;
    Ok((round, place.volume))
}

/// Captures old mail in a store that keeps a history, or in one volume after another of an archive whose volumes do.
pub fn import<'a, A: Archives>(
    rt: &'a HostRuntime,
    archives: &A,
    store: &str,
    asked: &Import<'a>,
    told: &Attribution<'a>,
) -> Result<(), Failure>
    ensures { OnOk result (ImportsAll A.Kept.Store (A.is_at archives.now) store.now
        (IsTold told.now)) }
{
    let mut job = MailImport::read(rt, asked)?;
    let mut rounds = ImportRounds::none(rt.alloc());
    let mut from = 1;
    for round in 0..u64::MAX {
        let is_first = round == 0;
        let (made, volume) = import_round(rt, archives, store, job, rounds, from, is_first, told)?;
        match made {
            Round::Done => return Ok(()),
            Round::NextVolume(rest, so_far) => {
                job = rest;
                rounds = so_far;
                from = volume.unwrap_or(from);
            }
        }
    }
    Ok(())
}
