//! `copy`: a new archive with all that another one has.

ghost use Rattle.std.specs.Prelude.{◌≡◌, IfOk, Ok, OnOk};
ghost use Rattle.cli_tasks.specs.Copies.{CopiesTo, FillsWith, draft_at};
ghost use Rattle.cli_tasks.specs.Works.{IsDone};

use crate::archives::{Archives, Filling, Work, lend, not_made};
use crate::drafts::{begin, read_back, settle};
use class_plan::Plan;
use cli_console::{Failure, Status, tell_in, tell_words_in, write_text};
use cli_history::{Author, Lines, Seals, Whole, open_history};
use cli_readings::{Judged, Summary, judged_summary};
use command_lines::archives::Attribution;
use record_copy::{CopyFault, copy_archive};
use record_noted::Opened;
use record_store::Store;
use sqlite::{Alter, Connection};
use std::alloc::{AllocError, Global};
use tool_texts::{Shown, put};

/// The paths of a copy.
#[derive(Clone, Copy)]
pub struct Paths<'a> {
    /// Of the archive that is copied.
    pub store: &'a str,
    /// Of the new one.
    pub new: &'a str,
}

/// The failure of a copy.
fn copy_failure(alloc: Global, paths: Paths<'_>, fault: CopyFault) -> Failure {
    match fault {
        CopyFault::NoMemory => Failure::NoMemory,
        CopyFault::Source(error) => Failure::at(alloc, Status::TryAgain, paths.store, &error),
        CopyFault::Target(error) => Failure::at(alloc, Status::TryAgain, paths.new, &error),
        CopyFault::Lost => Failure::at(
            alloc,
            Status::TryAgain,
            paths.store,
            &"a row that was written is gone",
        ),
        CopyFault::Busy => {
            Failure::at(
                alloc,
                Status::TryAgain,
                paths.store,
                &"a transaction is open",
            )
        }
        CopyFault::OtherTables => Failure::at(
            alloc,
            Status::CannotMake,
            paths.new,
            &"another program has made a table in it",
        ),
    }
}

/// What is done where messages are not the ones that were captured, and where the history is not whole.
#[derive(Clone, Copy)]
pub enum Damage {
    /// Nothing is copied.
    Refused,
    /// Messages are copied as they are, and the history as far as it is whole.
    Copied,
}

impl Damage {
    /// What is done as it is typed.
    pub fn of(is_damaged: bool) -> Damage {
        if is_damaged {
            Damage::Copied
        } else {
            Damage::Refused
        }
    }
}

/// A history that is copied.
enum History {
    /// All of its lines.
    Lines(Lines),
    /// As far as it is whole. What is there is noted as found behind it by this author, where it is not whole.
    Whole(Whole, Author<'static>),
}

impl Drop for History {
    fn drop(self) {
        match self {
            History::Lines(_) => {}
            History::Whole(_, _) => {}
        }
    }
}

/// What is kept of an archive while it is copied.
#[derive(Drop)]
struct Kept {
    plan: Plan,
    summary: Summary,
    /// Its history, where it keeps one.
    history: Option<History>,
}

/// Reads the history of an archive, where it keeps one. The archive is handed back.
fn lines_of<S: Alter>(
    rt: &HostRuntime,
    archive: Store<S>,
    volume: Option<u32>,
) -> (Store<S>, Result<Option<History>, Failure>) {
    match open_history(rt, archive) {
        Ok(Opened::Noted(noted)) => {
            let mut noted = noted;
            match Lines::of(rt, &mut noted, volume) {
                Ok(lines) => (noted.into_store(), Ok(Some(History::Lines(lines)))),
                Err(failure) => (noted.into_store(), Err(failure)),
            }
        }
        Ok(Opened::Plain(archive)) => (archive, Ok(None)),
        Err((archive, failure)) => (archive, Err(failure)),
    }
}

/// Who notes what is there behind a history that is not whole: who runs the program, or else the program.
const NOBODY: Attribution<'static> = Attribution {
    by: None,
    reason: "",
};

/// Reads the history of an archive as far as it is whole, where it keeps one. What stands against it is told.
fn whole_of<S: Alter>(
    rt: &HostRuntime,
    archive: &mut Store<S>,
    volume: Option<u32>,
) -> Result<Option<History>, Failure> {
    let Some(whole) = Whole::of(rt, archive)? else {
        return Ok(None);
    };
    if let Some(fault) = whole.fault() {
        tell_in(rt, volume, fault);
        tell_words_in(
            rt,
            volume,
            "the copy gets the history before that event, and what is there is noted behind it as found; look at it, and accept it by history --accept-found",
        );
    }
    let author = Author::or_program(rt, &NOBODY)?;
    Ok(Some(History::Whole(whole, author)))
}

/// Reads the history of an archive, where it keeps one; as far as it is whole, where damage is copied. The archive is handed
/// back.
fn history_of<S: Alter>(
    rt: &HostRuntime,
    archive: Store<S>,
    damage: Damage,
    volume: Option<u32>,
) -> (Store<S>, Result<Option<History>, Failure>) {
    match damage {
        Damage::Refused => lines_of(rt, archive, volume),
        Damage::Copied => {
            let mut archive = archive;
            let whole = whole_of(rt, &mut archive, volume);
            (archive, whole)
        }
    }
}

/// How much an archive keeps. The records whose messages are not the ones that were captured are told; `BadData` where such
/// a message may not be copied.
fn judged_by_seals<S: Alter>(
    rt: &HostRuntime,
    archive: &mut Store<S>,
    damage: Damage,
    volume: Option<u32>,
) -> Result<Summary, Failure> {
    let seals = Seals::of(rt, archive)?;
    let Judged {
        summary,
        altered,
        ..
    } = judged_summary(rt, archive, &seals)?;
    altered.tell_in(rt, volume)?;
    match damage {
        Damage::Refused if !altered.is_empty() => Err(Failure::told(
            rt.alloc(),
            Status::BadData,
            "nothing is copied; with --damaged all is copied as it is in the store",
        )),
        Damage::Refused | Damage::Copied => Ok(summary),
    }
}

/// Reads a whole archive before it is copied.
fn kept_of<S: Alter>(
    rt: &HostRuntime,
    archive: &mut Store<S>,
    history: Option<History>,
    damage: Damage,
    volume: Option<u32>,
) -> Result<Kept, Failure>
    ensures { IfOk result (λ kept. kept.plan ≡ archive.new.plan) }
{
    let summary = judged_by_seals(rt, archive, damage, volume)?;
    let plan = archive.plan().copy()?;
    Ok(Kept {
        plan,
        summary,
        history,
    })
}

/// Reads a whole archive, its history too, before it is copied. The archive is handed back.
fn read_all<S: Alter>(
    rt: &HostRuntime,
    archive: Store<S>,
    damage: Damage,
    volume: Option<u32>,
) -> (Store<S>, Result<Kept, Failure>)
    ensures { IfOk result.1 (λ kept. kept.plan ≡ result.0.plan) }
{
    let (archive, history) = history_of(rt, archive, damage, volume);
    let mut archive = archive;
    match history {
        Ok(history) => {
            let kept = kept_of(rt, &mut archive, history, damage, volume);
            (archive, kept)
        }
        Err(failure) => (archive, Err(failure)),
    }
}

/// Takes a history over into a draft that was filled, where there is one. The draft is not opened again for that.
fn take_over<T: Alter>(
    rt: &HostRuntime,
    filled: Connection<T>,
    history: Option<&History>,
    new: &str,
) -> (Connection<T>, Result<(), Failure>) {
    let Some(history) = history else {
        return (filled, Ok(()));
    };
    if !filled.is_autocommit() {
        let busy = Failure::at(rt.alloc(), Status::TryAgain, new, &"a transaction is open");
        return (filled, Err(busy));
    }
    match Store::adopt(rt.alloc(), filled) {
        Ok(archive) => {
            let (archive, begun) = match history {
                History::Lines(lines) => lines.begin(rt, archive),
                History::Whole(whole, author) => whole.begin(rt, archive, author),
            };
            (archive.into_connection(), begun)
        }
        Err((fault, filled)) => {
            let failure = Failure::of_store(rt.alloc(), "the new archive", fault);
            (filled, Err(not_made(failure)))
        }
    }
}

/// Fills the draft of an archive with what another database has, and with a history.
#[derive(Drop)]
struct FillDraft<'f> {
    /// The plan of the archive in that database.
    plan: &'f Plan,
    history: Option<&'f History>,
    paths: Paths<'f>,
}

impl Filling for FillDraft<'_> {
    ghost fills = { λ S T g h it from from_after draft done left. OnOk done
        (FillsWith g h it.plan.now from from_after draft left) };

    fn fill<S: Alter, T: Alter>(
        self,
        rt: &HostRuntime,
        draft: Store<T>,
        from: &mut Connection<S>,
    ) -> (Connection<T>, Result<(), Failure>) {
        let FillDraft {
            plan,
            history,
            paths,
        } = self;
        let mut to = draft.into_connection();
        match copy_archive(rt.alloc(), plan, from, &mut to) {
            Ok(()) => take_over(rt, to, history, paths.new),
            Err(fault) => (to, Err(copy_failure(rt.alloc(), paths, fault))),
        }
    }
}

/// Fills a draft. How it is closed shows when it is read back.
fn fill<A: Archives, S: Alter>(
    rt: &HostRuntime,
    archives: &A,
    draft: &str,
    filling: FillDraft<'_>,
    from: &mut Connection<S>,
) -> Result<(), Failure>
    ensures { OnOk result (IsDone (A.is_at archives.now draft.now)
        (FillsWith S.Store A.Kept.Store filling.entry.plan.now from.old from.new)) }
{
    match archives.lend_to_fill(rt, draft, filling, from) {
        Ok(lent) => {
            let (filled, _closed) = lent;
            filled
        }
        Err(failure) => Err(not_made(failure)),
    }
}

/// Copies an archive that was read to a draft.
fn copy_all<A: Archives, S: Alter>(
    rt: &HostRuntime,
    archives: &A,
    from: &mut Connection<S>,
    kept: &Kept,
    draft: &str,
    paths: Paths<'_>,
) -> Result<(), Failure>
    ensures { OnOk result (IsDone (A.is_at archives.now draft.now)
        (FillsWith S.Store A.Kept.Store kept.now.plan from.old from.new)) }
{
    let filling = FillDraft {
        plan: &kept.plan,
        history: kept.history.as_ref(),
        paths,
    };
    fill(rt, archives, draft, filling, from)
}

/// Reads the draft of an archive back once it is filled, and compares it with what was copied.
fn compare<A: Archives>(
    rt: &HostRuntime,
    archives: &A,
    filled: Result<(), Failure>,
    kept: &Summary,
    draft: &str,
) -> Result<Summary, Failure>
    ensures filled { OnOk result (filled ≡ Ok tt) }
    ensures same { IfOk result (λ copied. copied.sum ≡ kept.now.sum) }
{
    filled?;
    let copied = read_back(rt, archives, draft)?;
    if copied.sum.as_slice() != kept.sum.as_slice() {
        return Err(Failure::at(
            rt.alloc(),
            Status::TryAgain,
            draft,
            &"the disk has not kept what was written",
        ));
    }
    Ok(copied)
}

/// Gives the draft of an archive its place if it has what was copied, and answers how much that is. Otherwise none is left.
fn finish<A: Archives>(
    rt: &HostRuntime,
    archives: &A,
    filled: Result<(), Failure>,
    kept: &Summary,
    draft: &str,
    new: &str,
) -> Result<Summary, Failure>
    ensures filled { OnOk result (filled ≡ Ok tt) }
    ensures same { IfOk result (λ copied. copied.sum ≡ kept.now.sum) }
{
    let found = compare(rt, archives, filled, kept, draft);
    settle(rt, archives, draft, new, found)
}

/// Makes a new archive with what was read of another one, and answers how much that is. Where that fails, no new one is left.
fn make_copy<A: Archives, S: Alter>(
    rt: &HostRuntime,
    archives: &A,
    from: &mut Connection<S>,
    kept: &Kept,
    paths: Paths<'_>,
) -> Result<Summary, Failure>
    ensures { OnOk result (IsDone (A.is_at archives.now (draft_at paths.entry.new.now))
        (FillsWith S.Store A.Kept.Store kept.now.plan from.old from.new)) }
{
    let draft = begin(rt, archives, paths.new, kept.plan.copy()?)?;
    let place = draft.as_str();
    let filled = copy_all(rt, archives, from, kept, place, paths);
    finish(rt, archives, filled, &kept.summary, place, paths.new)
}

/// Makes a new archive with all that another one has, and answers how much that is. Where that fails, no new one is left. `BadData`
/// where a message is not the one that was captured, and where the history is not whole, unless damage is to be copied. What is damaged
/// is told.
#[derive(Clone, Copy)]
pub struct Copying<'a, 'p, A> {
    pub archives: &'a A,
    pub paths: Paths<'p>,
    pub damage: Damage,
    /// The number of the volume that is copied, in an archive of volumes.
    pub volume: Option<u32>,
}

impl<A: Archives> Work for Copying<'_, '_, A> {
    type Answer = Summary;

    ghost does = { λ S g it before done after. OnOk done (CopiesTo g A.Kept.Store
        (A.is_at it.archives.now) it.paths.new.now before after) };

    fn work<S: Alter>(
        self,
        rt: &HostRuntime,
        archive: Store<S>,
    ) -> (Connection<S>, Result<Summary, Failure>) {
        let Copying {
            archives,
            paths,
            damage,
            volume,
        } = self;
        let (archive, read) = read_all(rt, archive, damage, volume);
        let mut from = archive.into_connection();
        match read {
            Ok(kept) => {
                let made = make_copy(rt, archives, &mut from, &kept, paths);
                (from, made)
            }
            Err(failure) => (from, Err(failure)),
        }
    }
}

/// How much of an archive was copied.
fn copied_line(alloc: Global, copied: &Summary) -> Result<Shown, AllocError> {
    let mut line = Shown::new(alloc);
    put!(line; "copied records " value(&copied.records) " messages " value(&copied.messages)
        " octets " value(&copied.octets))?;
    line.end_line()?;
    Ok(line)
}

/// Makes a new archive with all that another one has. Where that fails, no new one is left. `BadData` where a message is not
/// the one that was captured, and where the history is not whole, unless damage is to be copied: messages as they are, and
/// the history as far as it is whole, with what is there noted behind it as found. What is damaged is told.
pub fn copy_to<A: Archives>(
    rt: &HostRuntime,
    archives: &A,
    paths: Paths<'_>,
    is_damaged: bool,
) -> Result<(), Failure>
    ensures { OnOk result (IsDone (A.is_at archives.now paths.entry.store.now)
        (CopiesTo A.Kept.Store A.Kept.Store (A.is_at archives.now) paths.entry.new.now)) }
{
    let work = Copying {
        archives,
        paths,
        damage: Damage::of(is_damaged),
        volume: None,
    };
    let copied = lend(rt, archives, paths.store, work)?;
    write_text(rt, &copied_line(rt.alloc(), &copied)?)
}
