//! Histories of volumes, which are found sound before anything is noted in one of them.

ghost use Rattle.std.specs.Prelude.{◌≡◌, IfOk, OnOk};
ghost use Rattle.record_noted.specs.Openings.{OpensHistory};
ghost use Rattle.record_store.specs.declared.store.Store.{Store};
ghost use Rattle.cli_tasks.specs.Histories.{
  HasSoundHistory,
  IsSoundIn,
  MayBeginIn,
  MayHaveBegun,
  TellsEvents,
};
ghost use Rattle.cli_tasks.specs.Works.{EachVolume};

use crate::archives::{Archives, Work};
use crate::volume_row::Volumes;
use cli_console::Failure;
use cli_history::{are_reasons_required, open_history, open_noted};
use record_noted::{NotedStore, Opened};
use record_store::Store;
use sqlite::{Alter, Connection};

/// Reads all events of a history. `BadData` where something stands against one.
fn judge_events<S: Alter>(rt: &HostRuntime, noted: &mut NotedStore<S>) -> Result<(), Failure>
    ensures { OnOk result (TellsEvents S.Store noted.old noted.new) }
{
    are_reasons_required(rt, noted)?;
    Ok(())
}

/// Reads all events of a history, and hands back the connection of its store. Answers this, or `BadData` where something stands against an
/// event.
fn judge_noted<S: Alter, T: Drop>(
    rt: &HostRuntime,
    noted: NotedStore<S>,
    answer: T,
) -> (Connection<S>, Result<T, Failure>)
    ensures { IfOk result.1 (λ x. (x ≡ answer) × ((before : Store S)
        → OpensHistory S.Store before noted → HasSoundHistory S.Store before result.0)) }
{
    let mut noted = noted;
    let judged = judge_events(rt, &mut noted);
    let connection = noted.into_store().into_connection();
    match judged {
        Ok(()) => (connection, Ok(answer)),
        Err(failure) => (connection, Err(failure)),
    }
}

/// Reads the whole history of a store. `BadData` where it has none, and where something stands against an event.
#[derive(Drop)]
struct JudgeHistory;

impl Work for JudgeHistory {
    type Answer = ();

    ghost does = { λ S g it before done after. OnOk done (HasSoundHistory g before after) };

    fn work<S: Alter>(
        self,
        rt: &HostRuntime,
        archive: Store<S>,
    ) -> (Connection<S>, Result<(), Failure>) {
        match open_noted(rt, archive) {
            Ok(noted) => judge_noted(rt, noted, ()),
            Err((archive, failure)) => (archive.into_connection(), Err(failure)),
        }
    }
}

/// Finds that each volume has a history, and that nothing stands against an event. Else `BadData`.
pub fn judge_histories<A: Archives>(
    rt: &HostRuntime,
    archives: &A,
    volumes: Volumes<'_>,
) -> Result<(), Failure>
    ensures { OnOk result (EachVolume volumes.entry.last (IsSoundIn A.Kept.Store
        (A.is_at archives.now) volumes.entry.folder.now)) }
{
    for below in 0..volumes.last {
        volumes.lend(rt, archives, below + 1, JudgeHistory)?;
    }
    Ok(())
}

/// Reads the whole history of a store, where it has one. Answers whether it has. `BadData` where something stands against an event.
#[derive(Drop)]
struct JudgeBeginning;

impl Work for JudgeBeginning {
    type Answer = bool;

    ghost does = { λ S g it before done after. IfOk done (λ has_history. MayHaveBegun g has_history
        before after) };

    fn work<S: Alter>(
        self,
        rt: &HostRuntime,
        archive: Store<S>,
    ) -> (Connection<S>, Result<bool, Failure>) {
        match open_history(rt, archive) {
            Ok(Opened::Noted(noted)) => judge_noted(rt, noted, true),
            Ok(Opened::Plain(archive)) => (archive.into_connection(), Ok(false)),
            Err((archive, failure)) => (archive.into_connection(), Err(failure)),
        }
    }
}

/// Finds that nothing stands against an event of the histories that volumes have. Else `BadData`.
pub fn judge_beginnings<A: Archives>(
    rt: &HostRuntime,
    archives: &A,
    volumes: Volumes<'_>,
) -> Result<(), Failure>
    ensures { OnOk result (EachVolume volumes.entry.last (MayBeginIn A.Kept.Store
        (A.is_at archives.now) volumes.entry.folder.now)) }
{
    for below in 0..volumes.last {
        volumes.lend(rt, archives, below + 1, JudgeBeginning)?;
    }
    Ok(())
}
