//! What another program has changed, noted as found.

ghost use Rattle.std.specs.Prelude.{◌≡◌, false, IfErr, IfOk, is_ok, is_some, not};
ghost use Rattle.cli_console.specs.Failures.{IsToldAs};
ghost use Rattle.cli_history.specs.Made.{IsMadeBy};
ghost use Rattle.cli_history.specs.Openings.{IsReady, IsSight, StaysReady, is_refused as is_refused_by};
ghost use Rattle.cli_history.specs.Reasons.{lacks_reason as is_reason_lacking};
ghost use Rattle.cli_history.specs.Walks.{ForArchive, Looks};

use crate::author::Author;
use crate::beginning::{Known, findings_in};
use crate::comparison::{Depth, compare, tell_differences};
use crate::differences::{Changes, plain_reason};
use crate::findings::UNKNOWN;
use crate::opening::{Purpose, occasion_by, open_noted};
use crate::replaying::Replayed;
use cli_console::{Failure, Status, tell_in, tell_words_in};
use record_judge::SealedArchive;
use record_noted::NotedStore;
use record_store::Store;
use sqlite::Alter;
use std::alloc::{AllocError, Global};
use tool_texts::Shown;

/// Whether a reason is lacking.
fn lacks_reason(purpose: Purpose, is_required: bool, reason: &str) -> bool
    ensures { result ≡ is_reason_lacking purpose is_required reason.now }
{
    purpose.decides() && is_required && reason.is_empty()
}

/// Finds that there is a reason for what is decided, where the history requires one: else `Usage`.
fn judge_reason(
    alloc: Global,
    replayed: &Replayed,
    author: &Author<'_>,
    purpose: Purpose,
) -> Result<(), Failure>
    ensures lacks { is_ok result ≡ not (is_reason_lacking purpose replayed.now.requires_reasons
        author.now.reason.now) }
    ensures told { IfErr result (IsToldAs Status.Usage) }
{
    if lacks_reason(purpose, replayed.requires_reasons(), author.reason()) {
        return Err(Failure::told(
            alloc,
            Status::Usage,
            "the history of the store requires a reason; give it by --reason TEXT",
        ));
    }
    Ok(())
}

/// What another program has done, where the store has anything else than a history makes, by the rows; none where the store has
/// just that. What differs is told.
fn changes_apart<S: Alter>(
    rt: &HostRuntime,
    noted: &mut NotedStore<S>,
    volume: Option<u32>,
    made: &SealedArchive,
) -> Result<Option<Changes>, Failure>
    ensures looks { IfOk result (λ c. is_some c ≡ false → Looks S.Store noted.old noted.new) }
    ensures made { IfOk result (λ c. is_some c ≡ false
        → ForArchive S.Store noted.old noted.new (λ a ls. IsMadeBy made.now a)) }
{
    let comparison = compare(rt, noted, made, Depth::Rows)?;
    if comparison.is_same() {
        return Ok(None);
    }
    tell_words_in(
        rt,
        volume,
        "another program has changed the archive without its history; what is there is noted as found",
    );
    tell_differences(rt, noted, volume, &comparison)?;
    Ok(Some(comparison.into_changes()))
}

/// A history that was done again for a change, and what another program has done since its last event, if anything.
#[derive(Drop)]
struct Sight {
    replayed: Replayed,
    changes: Option<Changes>,
}

/// Does a history again for a change, and compares the store with what it makes. A failure is one of `prepared`.
fn look_at<S: Alter>(
    rt: &HostRuntime,
    noted: &mut NotedStore<S>,
    author: &Author<'_>,
    purpose: Purpose,
) -> Result<Sight, Failure>
    ensures sight { IfOk result (IsSight S.Store purpose author.now noted.old noted.new) }
    ensures named { is_some author.now.name ≡ false → IfErr result (IsToldAs Status.Usage) }
{
    author.named(rt)?;
    let replayed = Replayed::of(rt, noted, purpose)?;
    judge_reason(rt.alloc(), &replayed, author, purpose)?;
    let changes = changes_apart(rt, noted, author.volume(), replayed.archive())?;
    Ok(Sight { replayed, changes })
}

/// The lines of all that is there in a store, from the event of a number on. Nobody knows who did it: the reason says who
/// notes it. A message that the history knows keeps the seal that it has there.
pub fn lines_found<'a, S: Alter>(
    rt: &'a HostRuntime,
    archive: &mut Store<S>,
    first: u32,
    made: &SealedArchive,
    reason: &'a str,
) -> Result<Vec<Vec<u8>>, Failure> {
    let known = Known::of(rt.alloc(), made)?;
    let occasion = occasion_by(rt, UNKNOWN, reason, None)?;
    findings_in(rt, archive, &occasion, &occasion, first, &known)
}

/// Puts another reason in the place of the one with which a line ends.
fn give_reason(line: &mut Vec<u8>, plain: &str, reason: &str) -> Result<(), AllocError> {
    let kept = line.len().saturating_sub(plain.len());
    line.truncate(kept);
    line.extend_from_slice(reason.as_bytes())
}

/// Gives the first of some lines, which all end with the same reason, reasons of their own.
fn give_reasons(
    lines: &mut Vec<Vec<u8>>,
    plain: &str,
    reasons: &[String],
) -> Result<(), AllocError> {
    for (place, reason) in reasons.iter().enumerate() {
        if let Some(line) = lines.get_mut(place) {
            give_reason(line, plain, reason.as_str())?;
        }
    }
    Ok(())
}

/// Tells the reasons for which there are no lines: what was done was more than the events have room for.
fn tell_left(
    rt: &HostRuntime,
    volume: Option<u32>,
    reasons: &[String],
    lines: &[Vec<u8>],
) -> Result<(), AllocError> {
    for reason in reasons.iter().skip(lines.len()) {
        let mut words = Shown::new(rt.alloc());
        words.value(reason)?;
        tell_in(rt, volume, &words);
    }
    Ok(())
}

/// The lines of all that is there in a store after another program has changed it.
fn lines_apart<S: Alter>(
    rt: &HostRuntime,
    archive: &mut Store<S>,
    author: &Author<'_>,
    first: u32,
    made: &SealedArchive,
    changes: &Changes,
) -> Result<Vec<Vec<u8>>, Failure> {
    let who = author.named(rt)?;
    let reasons = changes.reasons(who)?;
    let reason = plain_reason(rt.alloc(), who)?;
    let mut lines = lines_found(rt, archive, first, made, reason.as_str())?;
    give_reasons(&mut lines, reason.as_str(), reasons.as_slice())?;
    tell_left(rt, author.volume(), reasons.as_slice(), lines.as_slice())?;
    Ok(lines)
}

/// Takes lines, and notes them behind the events of a history, in one transaction. `BadData` where one is none of an event: then
/// nothing is noted. A failure hands the store back.
fn note_found<S: Alter>(
    rt: &HostRuntime,
    archive: Store<S>,
    replayed: &mut Replayed,
    lines: &[Vec<u8>],
) -> Result<NotedStore<S>, (Store<S>, Failure)> {
    let mut noted = match open_noted(rt, archive) {
        Ok(noted) => noted,
        Err(refusal) => return Err(refusal),
    };
    if let Err(failure) = replayed.take_found(rt.alloc(), lines) {
        return Err((noted.into_store(), failure));
    }
    match noted.note_all(lines) {
        Ok(()) => Ok(noted),
        Err(fault) => Err((
            noted.into_store(),
            Failure::of_store(rt.alloc(), "the history", fault),
        )),
    }
}

/// Notes all that is there behind the events of a history, in one transaction. A failure hands the store back.
fn restate<S: Alter>(
    rt: &HostRuntime,
    noted: NotedStore<S>,
    author: &Author<'_>,
    replayed: &mut Replayed,
    changes: &Changes,
) -> Result<NotedStore<S>, (Store<S>, Failure)> {
    let next = noted.next();
    let mut archive = noted.into_store();
    match lines_apart(rt, &mut archive, author, next, replayed.archive(), changes) {
        Ok(lines) => note_found(rt, archive, replayed, lines.as_slice()),
        Err(failure) => Err((archive, failure)),
    }
}

/// A history that is ready for a change of its archive.
#[derive(Drop)]
pub struct Ready<S: Alter> {
    pub noted: NotedStore<S>,
    /// What its events tell.
    pub replayed: Replayed,
    /// Whether it was noted just now what another program has done.
    pub is_restated: bool,
}

/// Notes what another program has done, if anything.
fn prepared_with<S: Alter>(
    rt: &HostRuntime,
    noted: NotedStore<S>,
    author: &Author<'_>,
    sight: Sight,
) -> Result<Ready<S>, (Store<S>, Failure)>
    ensures { IfOk result (StaysReady noted sight) }
{
    let Sight { replayed, changes } = sight;
    let mut replayed = replayed;
    let Some(changes) = changes else {
        return Ok(Ready {
            noted,
            replayed,
            is_restated: false,
        });
    };
    match restate(rt, noted, author, &mut replayed, &changes) {
        Ok(noted) => Ok(Ready {
            noted,
            replayed,
            is_restated: true,
        }),
        Err(refusal) => Err(refusal),
    }
}

/// Whether what is done for a purpose is refused: it can end the keeping of records, and something that was found is not
/// accepted. What was noted just now nobody has accepted.
fn is_refused<S: Alter>(ready: &Ready<S>, purpose: Purpose) -> bool
    ensures { result ≡ is_refused_by purpose ready.now }
{
    if ready.is_restated {
        return purpose.ends();
    }
    ready.replayed.findings().blocks(purpose)
}

/// Prepares a history for a change of its archive. What another program has changed since its last event is told, and all
/// that is there is noted as found.
///
/// `Usage` where it is not known who changes the archive, or where a reason is required and none is given; `BadData` where
/// something stands against an event, and where the change can end the keeping of records while something that was found is
/// not accepted. A failure hands the store back.
pub fn prepared<S: Alter>(
    rt: &HostRuntime,
    noted: NotedStore<S>,
    author: &Author<'_>,
    purpose: Purpose,
) -> Result<Ready<S>, (Store<S>, Failure)>
    ensures ready { IfOk result (IsReady S.Store purpose author.now noted) }
    ensures named { is_some author.now.name ≡ false
        → IfErr result (λ e. IsToldAs Status.Usage e.1) }
{
    let mut noted = noted;
    let sight = match look_at(rt, &mut noted, author, purpose) {
        Ok(sight) => sight,
        Err(failure) => return Err((noted.into_store(), failure)),
    };
    let ready = match prepared_with(rt, noted, author, sight) {
        Ok(ready) => ready,
        Err(refusal) => return Err(refusal),
    };
    if is_refused(&ready, purpose) {
        let failure = ready.replayed.findings().failure();
        let Ready { noted, .. } = ready;
        return Err((noted.into_store(), failure));
    }
    Ok(ready)
}
