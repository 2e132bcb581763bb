//! Histories of volumes that begin, that come to require reasons, and in which findings are accepted: `history --begin`,
//! `--require-reason`, `--waive-reason` and `--accept-found`.
//!
//! Histories begin from the first volume up, since each names the last mark of the volume before. Whether reasons are required is noted from
//! the last one down, since a volume that is begun takes over from that. Both have the lock of the folder, so none is begun meanwhile, and
//! before both all histories are found sound. Findings are accepted volume by volume, whatever another one refuses.

ghost use Rattle.std.specs.Prelude.{◌≡◌, false, true, None, Ok, IfErr, IfOk, OnOk, is_some};
ghost use Rattle.record_noted.specs.Openings.{OpensHistory};
ghost use Rattle.record_store.specs.declared.store.Store.{Store};
ghost use Rattle.cli_console.specs.Failures.{IsToldAs};
ghost use Rattle.cli_tasks.specs.Histories.{
  AcceptsIn,
  AcceptsOver,
  AcceptsWhereFound,
  BeginsIn,
  BeginsOver,
  BeginsWhereNone,
  DoneInSome,
  HasNoneToAccept,
  IsBegun,
  NotesReasonsOver,
};
ghost use Rattle.cli_tasks.specs.Works.{OverVolumes};

use crate::archives::{Archives, Work};
use crate::beginnings::{NoteReasons, accepted_line, begun_line, reasons_line};
use crate::rolling::had;
use crate::volume_row::{Volumes, author_in, judge_named, volume_line};
use crate::volume_settings::not_cut_off;
use crate::volume_soundness::{judge_beginnings, judge_histories};
use cli_console::{Failure, Joined, Status, tell, write_text};
use cli_history::{
    Author, Purpose, accept_findings, begin_history, notes_after, open_history, open_ledger,
    open_noted,
};
use cli_volumes::lock_folder;
use command_lines::archives::{Attribution, Reasons};
use record_noted::{NotedStore, Opened};
use record_store::Store;
use sqlite::{Alter, Connection};
use std::alloc::{AllocError, Global};
use tool_texts::Shown;

/// Writes what was done in a volume, behind a line with its number.
fn write_line_in(
    rt: &HostRuntime,
    volume: u32,
    line: Result<Shown, AllocError>,
) -> Result<(), Failure> {
    write_text(rt, &volume_line(rt.alloc(), volume)?)?;
    write_text(rt, &line?)
}

/// The history of a volume, as it is behind one that was begun where there was none.
#[derive(Drop)]
struct Begun {
    /// With how many events it was begun; none where there was one already.
    events: Option<u64>,
    /// The mark of its last event.
    mark: Vec<u8>,
}

/// The notes of the first event of a history: the mark of the volume before, where that has one.
fn notes_for(alloc: Global, before: Option<&[u8]>) -> Result<Vec<u8>, AllocError> {
    match before {
        Some(mark) => notes_after(alloc, mark),
        None => Ok(Vec::new(alloc)),
    }
}

/// How a history ends that was begun with so many events, or was there already.
fn ended<S: Alter>(
    alloc: Global,
    noted: NotedStore<S>,
    events: Option<u64>,
) -> (Connection<S>, Result<Begun, Failure>)
    ensures left { result.0 ≡ noted.store.conn }
    ensures events { IfOk result.1 (λ begun. begun.events ≡ events) }
{
    let mark = Vec::from_slice(alloc, noted.mark());
    let connection = noted.into_store().into_connection();
    match mark {
        Ok(mark) => (connection, Ok(Begun { events, mark })),
        Err(AllocError) => (connection, Err(Failure::NoMemory)),
    }
}

/// Begins the history of a store that has none, where there is memory for the notes of its first event.
fn begin_with<S: Alter>(
    rt: &HostRuntime,
    archive: Store<S>,
    author: &Author<'_>,
    notes: Result<Vec<u8>, AllocError>,
) -> (Store<S>, Result<u64, Failure>) {
    match notes {
        Ok(notes) => begin_history(rt, archive, author, notes.as_slice()),
        Err(AllocError) => (archive, Err(Failure::NoMemory)),
    }
}

/// Begins the history of a store that has none after this mark, if it is to be after one, and opens it.
fn begin_after<S: Alter>(
    rt: &HostRuntime,
    archive: Store<S>,
    author: &Author<'_>,
    before: Option<&[u8]>,
) -> (Connection<S>, Result<Begun, Failure>)
    ensures { IfOk result.1 (λ begun. IsBegun S.Store (is_some begun.events) result.0) }
{
    let (archive, begun) = begin_with(rt, archive, author, notes_for(rt.alloc(), before));
    let events = match begun {
        Ok(events) => events,
        Err(failure) => return (archive.into_connection(), Err(failure)),
    };
    match open_noted(rt, archive) {
        Ok(noted) => ended(rt.alloc(), noted, Some(events)),
        Err((archive, failure)) => (archive.into_connection(), Err(failure)),
    }
}

/// Begins the history of a volume that has none after this mark, if it is to be after one, and opens that of each.
#[derive(Drop)]
struct BeginAfterMark<'b, 'a> {
    before: Option<&'b [u8]>,
    author: Author<'a>,
}

impl Work for BeginAfterMark<'_, '_> {
    type Answer = Begun;

    ghost does = { λ S g it before done after. IfOk done (λ begun. BeginsWhereNone g
        (is_some begun.events) before after) };

    fn work<S: Alter>(
        self,
        rt: &HostRuntime,
        archive: Store<S>,
    ) -> (Connection<S>, Result<Begun, Failure>) {
        match open_history(rt, archive) {
            Ok(Opened::Noted(noted)) => ended(rt.alloc(), noted, None),
            Ok(Opened::Plain(archive)) => begin_after(rt, archive, &self.author, self.before),
            Err((archive, failure)) => (archive.into_connection(), Err(failure)),
        }
    }
}

/// Begins the history of a volume that has none after this mark, and says with how many events.
fn begin_in<A: Archives>(
    rt: &HostRuntime,
    archives: &A,
    volumes: Volumes<'_>,
    volume: u32,
    before: Option<&[u8]>,
    told: &Attribution<'_>,
) -> Result<Begun, Failure>
    ensures { IfOk result (λ begun. BeginsIn A.Kept.Store (A.is_at archives.now)
        volumes.entry.folder.now (is_some begun.events) volume) }
{
    let author = author_in(rt, told, volume)?;
    let begun = volumes.lend(rt, archives, volume, BeginAfterMark { before, author })?;
    if let Some(events) = begun.events {
        write_line_in(rt, volume, begun_line(rt.alloc(), events))?;
    }
    Ok(begun)
}

/// The mark of a volume beside another one, where there is one.
pub fn mark_of(before: &Option<Vec<u8>>) -> Option<&[u8]> {
    match before {
        Some(mark) => Some(mark.as_slice()),
        None => None,
    }
}

/// Begins the history of each volume that has none, from the first one up. Answers whether there was one without.
fn begin_in_each<A: Archives>(
    rt: &HostRuntime,
    archives: &A,
    volumes: Volumes<'_>,
    told: &Attribution<'_>,
) -> Result<bool, Failure>
    ensures { IfOk result (λ is_any. DoneInSome (BeginsIn A.Kept.Store (A.is_at archives.now)
        volumes.entry.folder.now) is_any volumes.entry.last) }
{
    let mut is_any = false;
    let mut before: Option<Vec<u8>> = None;
    for below in 0..volumes.last {
        let mark = mark_of(&before);
        let begun = begin_in(rt, archives, volumes, below + 1, mark, told)?;
        let Begun { events, mark } = begun;
        is_any |= events.is_some();
        before = Some(mark);
    }
    Ok(is_any)
}

/// That something was done. Else this failure.
fn if_any(alloc: Global, is_any: bool, status: Status, words: &'static str) -> Result<(), Failure>
    ensures done { OnOk result (is_any ≡ true) }
    ensures none { is_any ≡ false → IfErr result (IsToldAs status) }
{
    if is_any {
        return Ok(());
    }
    Err(Failure::told(alloc, status, words))
}

/// Begins the history of each volume of the archive in a folder that has none: after the last mark of the volume before, where that has one.
/// `CannotMake` where each has one, and `BadData` where one of these is damaged: then none is begun. `TryAgain` where another program
/// begins a volume, or sets something in all of them.
pub fn begin<A: Archives>(
    rt: &HostRuntime,
    archives: &A,
    folder: &str,
    told: &Attribution<'_>,
) -> Result<(), Failure>
    ensures { OnOk result (OverVolumes (BeginsOver A.Kept.Store (A.is_at archives.now)
        folder.now)) }
{
    judge_named(rt, told)?;
    let _lock = had(rt, folder, lock_folder(rt, folder))?;
    let volumes = Volumes::of(rt, folder)?;
    judge_beginnings(rt, archives, volumes)?;
    let begun = begin_in_each(rt, archives, volumes, told);
    let is_any = not_cut_off(rt, begun)?;
    let words = "each volume has a history already";
    if_any(rt.alloc(), is_any, Status::CannotMake, words)
}

/// Notes in the history of each volume whether reasons are required, from the last one down, and says in which event, or that it is so
/// already.
fn note_reasons_in_each<A: Archives>(
    rt: &HostRuntime,
    archives: &A,
    volumes: Volumes<'_>,
    reasons: Reasons,
    told: &Attribution<'_>,
) -> Result<(), Failure> {
    for later in 0..volumes.last {
        let volume = volumes.last - later;
        let author = author_in(rt, told, volume)?;
        let number = volumes.lend(rt, archives, volume, NoteReasons { author, reasons })?;
        write_line_in(rt, volume, reasons_line(rt.alloc(), reasons, number))?;
    }
    Ok(())
}

/// Notes in the history of each volume of the archive in a folder whether those who decide have to give a reason, unless it is so already.
/// `BadData` where a volume has no history, or one that is damaged: then nothing is noted in any. `TryAgain` where another program
/// begins a volume, or sets something in all of them.
pub fn require_reasons<A: Archives>(
    rt: &HostRuntime,
    archives: &A,
    folder: &str,
    reasons: Reasons,
    told: &Attribution<'_>,
) -> Result<(), Failure>
    ensures { OnOk result (OverVolumes (NotesReasonsOver A.Kept.Store (A.is_at archives.now)
        folder.now)) }
{
    judge_named(rt, told)?;
    let _lock = had(rt, folder, lock_folder(rt, folder))?;
    let volumes = Volumes::of(rt, folder)?;
    judge_histories(rt, archives, volumes)?;
    let noted = note_reasons_in_each(rt, archives, volumes, reasons, told);
    not_cut_off(rt, noted)
}

/// What a refusal to accept what was found comes to: nothing was left to accept, where what ends the keeping of records may be done;
/// else that refusal.
fn unless_accepted<'a, S: Alter>(
    rt: &'a HostRuntime,
    archive: Store<S>,
    author: &'a Author<'_>,
    failure: Failure,
) -> (Connection<S>, Result<Option<u32>, Failure>)
    ensures { IfOk result.1 (λ number. (number ≡ None)
        × HasNoneToAccept S.Store author.now result.0) }
{
    if !matches!(&failure, Failure::Told(Status::BadData, _)) {
        return (archive.into_connection(), Err(failure));
    }
    match open_ledger(rt, archive, author, None, Purpose::Ending) {
        Ok(ledger) => (ledger.into_store().into_connection(), Ok(None)),
        Err((archive, _)) => (archive.into_connection(), Err(failure)),
    }
}

/// Accepts what was found in a history. Answers the number of the event; none where nothing was left to accept.
fn accept_noted<S: Alter>(
    rt: &HostRuntime,
    noted: NotedStore<S>,
    author: &Author<'_>,
) -> (Connection<S>, Result<Option<u32>, Failure>)
    ensures { IfOk result.1 (λ number. (before : Store S) → OpensHistory S.Store before noted
        → AcceptsWhereFound S.Store author.now (is_some number) before result.0) }
{
    let (archive, accepted) = accept_findings(rt, noted, author);
    match accepted {
        Ok(number) => (archive.into_connection(), Ok(Some(number))),
        Err(failure) => unless_accepted(rt, archive, author, failure),
    }
}

/// Accepts what was found in a volume, where something was. Answers the number of the event.
#[derive(Drop)]
struct AcceptWhereFound<'a>(Author<'a>);

impl Work for AcceptWhereFound<'_> {
    type Answer = Option<u32>;

    ghost does = { λ S g it before done after. IfOk done (λ number. AcceptsWhereFound g it.0
        (is_some number) before after) };

    fn work<S: Alter>(
        self,
        rt: &HostRuntime,
        archive: Store<S>,
    ) -> (Connection<S>, Result<Option<u32>, Failure>) {
        match open_noted(rt, archive) {
            Ok(noted) => accept_noted(rt, noted, &self.0),
            Err((archive, failure)) => (archive.into_connection(), Err(failure)),
        }
    }
}

/// Says in which event of a volume what was found is accepted, where anything was.
fn write_accepted(rt: &HostRuntime, volume: u32, accepted: Option<u32>) -> Result<(), Failure> {
    match accepted {
        Some(number) => write_line_in(rt, volume, accepted_line(rt.alloc(), number)),
        None => Ok(()),
    }
}

/// Accepts what was found in a volume, and says in which event. Answers whether anything was.
fn accept_in<A: Archives>(
    rt: &HostRuntime,
    archives: &A,
    volumes: Volumes<'_>,
    volume: u32,
    told: &Attribution<'_>,
) -> Result<bool, Failure>
    ensures { IfOk result (λ is_new. AcceptsIn A.Kept.Store (A.is_at archives.now)
        volumes.entry.folder.now told.now is_new volume) }
{
    let author = author_in(rt, told, volume)?;
    let accepted = volumes.lend(rt, archives, volume, AcceptWhereFound(author))?;
    write_accepted(rt, volume, accepted)?;
    Ok(accepted.is_some())
}

/// Takes what was done in a volume. What is bad data there is told, and the others are done all the same; any other failure is the end.
fn take(rt: &HostRuntime, joined: &mut Joined, done: Result<bool, Failure>) -> Result<bool, Failure>
    ensures before { OnOk result (joined.new.is_refused ≡ false → joined.old.is_refused ≡ false) }
    ensures done { IfOk result (λ is_new. joined.new.is_refused ≡ false → done ≡ Ok is_new) }
{
    match done {
        Err(Failure::Told(Status::BadData, words)) => {
            tell(rt, &words);
            joined.refuse();
            Ok(false)
        }
        done => done,
    }
}

/// Accepts what was found in each volume in which something was. Answers whether something was in one. `BadData` where one refuses it.
fn accept_in_each<A: Archives>(
    rt: &HostRuntime,
    archives: &A,
    volumes: Volumes<'_>,
    told: &Attribution<'_>,
) -> Result<bool, Failure>
    ensures { IfOk result (λ is_any. DoneInSome (AcceptsIn A.Kept.Store (A.is_at archives.now)
        volumes.entry.folder.now told.now) is_any volumes.entry.last) }
{
    let mut joined = Joined::new();
    let mut is_any = false;
    for below in 0..volumes.last {
        let accepted = accept_in(rt, archives, volumes, below + 1, told);
        let is_new = take(rt, &mut joined, accepted)?;
        is_any |= is_new;
    }
    joined.end()?;
    Ok(is_any)
}

/// Notes in the history of each volume of the archive in a folder in which something was found that a person lets it stand. What a volume
/// refuses is told, and the others are done all the same: then, and where nothing is left to accept in any, it is `BadData`.
pub fn accept_found<A: Archives>(
    rt: &HostRuntime,
    archives: &A,
    folder: &str,
    told: &Attribution<'_>,
) -> Result<(), Failure>
    ensures { OnOk result (OverVolumes (AcceptsOver A.Kept.Store (A.is_at archives.now) folder.now
        told.now)) }
{
    judge_named(rt, told)?;
    let volumes = Volumes::of(rt, folder)?;
    let accepted = accept_in_each(rt, archives, volumes, told);
    let is_any = not_cut_off(rt, accepted)?;
    let words = "nothing that was found is left to accept";
    if_any(rt.alloc(), is_any, Status::BadData, words)
}
