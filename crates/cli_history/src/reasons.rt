//! What a person decides of a history itself: whether it requires reasons, and that what was found is let stand.

ghost use Rattle.std.specs.Prelude.{◌≡◌, false, true, ℕ, List, IfErr, IfOk, is_some};
ghost use Rattle.sqlite.specs.State.{HasCleanDisk};
ghost use Rattle.sqlite.specs.Held.{state};
ghost use Rattle.record_archive.specs.Archive.{Archive};
ghost use Rattle.record_noted.specs.Histories.{KeepsLines, StandsWith};
ghost use Rattle.cli_console.specs.Failures.{IsToldAs};
ghost use Rattle.cli_history.specs.Findings.{is_open_at};
ghost use Rattle.cli_history.specs.Acceptances.{Accepts, AcceptsNext, NotesNext};
ghost use Rattle.cli_history.specs.Replays.{RequiresReasons};
ghost use Rattle.cli_history.specs.Walks.{Looks};
ghost use Rattle.record_history.specs.Spelled.{IsSpelledDeed};
ghost use Rattle.record_history.specs.Views.{deed_view};

use crate::author::Author;
use crate::beginning::line_now;
use crate::opening::{Purpose, occasion_of};
use crate::replaying::Replayed;
use crate::restating::{Ready, prepared};
use cli_console::{Failure, Status};
use command_lines::archives::Reasons;
use record_history::Deed;
use record_noted::NotedStore;
use record_store::Store;
use sqlite::Alter;

/// The deed that tells whether reasons are required.
fn deed_of(reasons: Reasons) -> Deed<'static>
    ensures { IsSpelledDeed (deed_view result) }
{
    match reasons {
        Reasons::Required => Deed::ReasonsRequired,
        Reasons::Optional => Deed::ReasonsOptional,
    }
}

/// Notes a deed as the next event of a history. Answers the number of the event.
fn note_next<'a, S: Alter>(
    rt: &'a HostRuntime,
    noted: &mut NotedStore<S>,
    author: &'a Author<'_>,
    deed: Deed<'_>,
) -> Result<u32, Failure>
    requires { IsSpelledDeed (deed_view deed) }
    ensures notes { IfOk result (NotesNext S.Store author.now (deed_view deed.entry) noted.old
        noted.new) }
    ensures kept { IfErr result (λ _. KeepsLines S.Store noted.old noted.new) }
{
    let number = noted.next();
    let occasion = occasion_of(rt, author, None)?;
    let line = line_now(rt, &occasion, number, deed)?;
    let lines = vec![in rt.alloc(); line]?;
    match noted.note_all(lines.as_slice()) {
        Ok(()) => Ok(number),
        Err(fault) => Err(Failure::of_store(rt.alloc(), "the history", fault)),
    }
}

/// Whether reasons are required already, or need not be given already.
fn is_so(reasons: Reasons, are_required: bool) -> bool {
    match reasons {
        Reasons::Required => are_required,
        Reasons::Optional => !are_required,
    }
}

/// Whether a history requires reasons of those who decide which records are kept, and how long, by all of its events. `BadData`
/// where something stands against an event; another failure is that of the store.
pub fn are_reasons_required<S: Alter>(
    rt: &HostRuntime,
    noted: &mut NotedStore<S>,
) -> Result<bool, Failure>
    ensures looks { Looks S.Store noted.old noted.new }
    ensures required { IfOk result (λ is_so. HasCleanDisk (state S.Store noted.new.store.conn)
        → (a : Archive) → (ls : List (List ℕ)) → StandsWith S.Store noted.old a ls
        → RequiresReasons ls is_so) }
{
    let replayed = Replayed::of(rt, noted, Purpose::Capturing)?;
    Ok(replayed.requires_reasons())
}

/// Notes whether reasons are required, unless it is so already.
fn note_if_new<S: Alter>(
    rt: &HostRuntime,
    noted: &mut NotedStore<S>,
    author: &Author<'_>,
    reasons: Reasons,
    are_required: bool,
) -> Result<Option<u32>, Failure> {
    if is_so(reasons, are_required) {
        return Ok(None);
    }
    let number = note_next(rt, noted, author, deed_of(reasons))?;
    Ok(Some(number))
}

/// Notes in a history whether reasons are required from now on of those who decide which records are kept, and how long.
/// Answers the number of the event; none where it was so before, and nothing is noted. A failure is one of `open_ledger`; the
/// store is handed back.
pub fn note_reasons<S: Alter>(
    rt: &HostRuntime,
    noted: NotedStore<S>,
    author: &Author<'_>,
    reasons: Reasons,
) -> (Store<S>, Result<Option<u32>, Failure>) {
    match prepared(rt, noted, author, Purpose::Capturing) {
        Ok(prepared) => {
            let Ready {
                noted,
                replayed,
                ..
            } = prepared;
            let mut noted = noted;
            let are_required = replayed.requires_reasons();
            let done = note_if_new(rt, &mut noted, author, reasons, are_required);
            (noted.into_store(), done)
        }
        Err((archive, failure)) => (archive, Err(failure)),
    }
}

/// Accepts what was found. `BadData` where nothing is without acceptance, and where what is to be accepted was noted only
/// just now, so that nobody has looked at it.
fn accept_next<S: Alter>(
    rt: &HostRuntime,
    ready: &mut Ready<S>,
    author: &Author<'_>,
) -> Result<u32, Failure>
    ensures accepts { IfOk result (AcceptsNext S.Store author.now ready.old ready.new) }
    ensures kept { IfErr result (λ _. KeepsLines S.Store ready.old.noted ready.new.noted) }
    ensures restated { ready.old.is_restated ≡ true → IfErr result (IsToldAs Status.BadData) }
    ensures accepted { is_open_at ready.old.replayed.findings.stage ≡ false
        → IfErr result (IsToldAs Status.BadData) }
{
    if ready.is_restated {
        return Err(ready.replayed.findings().failure());
    }
    if !ready.replayed.findings().is_unaccepted() {
        return Err(Failure::told(
            rt.alloc(),
            Status::BadData,
            "nothing that was found is left to accept",
        ));
    }
    note_next(rt, &mut ready.noted, author, Deed::FindingsAccepted)
}

/// Notes in a history that a person lets stand what a program that keeps none has left. Answers the number of the event.
/// `BadData` where there is nothing to accept, and where such a program has changed the archive since the last event: then
/// what is there is noted as found first, and can be accepted once it was looked at. Other failures are those of
/// `open_ledger`; the store is handed back.
pub fn accept_findings<S: Alter>(
    rt: &HostRuntime,
    noted: NotedStore<S>,
    author: &Author<'_>,
) -> (Store<S>, Result<u32, Failure>)
    ensures named { is_some author.now.name ≡ false
        → IfErr result.1 (IsToldAs Status.Usage) }
    ensures accepts { IfOk result.1 (λ number. HasCleanDisk (state S.Store result.0.conn)
        → (a : Archive) → (ls : List (List ℕ)) → StandsWith S.Store noted a ls
        → Accepts S.Store author.now result.0 a ls number) }
{
    match prepared(rt, noted, author, Purpose::Keeping) {
        Ok(ready) => {
            let mut ready = ready;
            let done = accept_next(rt, &mut ready, author);
            let Ready { noted, .. } = ready;
            (noted.into_store(), done)
        }
        Err((archive, failure)) => (archive, Err(failure)),
    }
}
