//! What is captured for an officer already, as the events of a history tell it.

ghost use Rattle.std.specs.Prelude.{◌++◌, [], ℕ, List, map, IfOk, OnOk};
ghost use Rattle.sqlite.specs.State.{HasCleanDisk};
ghost use Rattle.sqlite.specs.Held.{state};
ghost use Rattle.record_tables.specs.Events.{Event as Row};
ghost use Rattle.record_reads.specs.Events.{event_of as row_of};
ghost use Rattle.record_archive.specs.Archive.{Archive};
ghost use Rattle.record_noted.specs.Histories.{rows_of};
ghost use Rattle.record_store.specs.Stores.{StandsFor};
ghost use Rattle.cli_history.specs.Captures.{AreCaptured, TakesCapture};
ghost use Rattle.cli_history.specs.Walks.{Glances, HasLines, KeepsLinesIn};

use crate::pages::Events;
use crate::seals::deed_of;
use cli_console::{Failure, Status};
use record_known::Known;
use record_store::{EventLayout, EventRow, Store};
use sqlite::Alter;
use std::alloc::{AllocError, Global};

/// Notes what an event captured for an officer.
fn take_row(
    alloc: Global,
    known: &mut Known,
    row: &EventRow,
    officer: &[u8],
) -> Result<(), AllocError>
    ensures { OnOk result (TakesCapture officer.now (row_of row.now) known.old known.new) }
{
    let told = deed_of(alloc, row)?;
    match told {
        Some(deed) => Ok(known.take(deed, officer)?),
        None => Ok(()),
    }
}

/// Notes what the events of a page captured for an officer.
#[tactic(auto, using(crate::proofs::CaptureLemmas::page_laws))]
fn take_page(
    alloc: Global,
    known: &mut Known,
    page: &[EventRow],
    officer: &[u8],
) -> Result<(), AllocError>
    ensures { (rows : List Row) → AreCaptured officer.now known.old rows
        → OnOk result (AreCaptured officer.now known.new (rows ++ map row_of page.now)) }
{
    for row in page {
        take_row(alloc, known, row, officer)?;
    }
    Ok(())
}

/// Notes what the events of a history captured for an officer, a page at a time.
fn take_all<S: Alter>(
    rt: &HostRuntime,
    archive: &mut Store<S>,
    known: &mut Known,
    officer: &[u8],
) -> Result<(), Failure>
    ensures glances { Glances S.Store archive.old archive.new }
    ensures captured { AreCaptured officer.now known.old []
        → HasCleanDisk (state S.Store archive.new.conn) → (a : Archive) → (ls : List (List ℕ))
        → StandsFor S.Store archive.old a → HasLines S.Store archive.old ls
        → OnOk result (AreCaptured officer.now known.new (rows_of ls)) }
{
    let mut events = Events::all();
    for _ in 0..u64::MAX {
        let Some(page) = events.next_page_of(rt, archive)? else {
            return Ok(());
        };
        take_page(rt.alloc(), known, page.as_slice(), officer)?;
    }
    Ok(())
}

/// The messages that are captured for an officer, as the history of a store tells them by all of its events, of which there are
/// at most 4,294,967,294. An event whose line cannot be read tells none, and neither does a message that was found when the
/// history began. `BadData` where the store keeps no history; other failures are those of the store.
pub fn captured_for<S: Alter>(
    rt: &HostRuntime,
    archive: &mut Store<S>,
    officer: &str,
) -> Result<Known, Failure>
    ensures glances { Glances S.Store archive.old archive.new }
    ensures captured { HasCleanDisk (state S.Store archive.new.conn) → (a : Archive)
        → (ls : List (List ℕ)) → StandsFor S.Store archive.old a
        → KeepsLinesIn S.Store archive.old ls
        → IfOk result (λ known. AreCaptured officer.now known (rows_of ls)) }
{
    if let EventLayout::Absent = archive.event_layout() {
        return Err(Failure::told(
            rt.alloc(),
            Status::BadData,
            "the store has no history, by which it is known what is captured already; history --begin begins one",
        ));
    }
    let mut known = Known::none(rt.alloc());
    take_all(rt, archive, &mut known, officer.as_bytes())?;
    Ok(known)
}
