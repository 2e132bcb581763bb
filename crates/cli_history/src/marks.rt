//! Which event of a history has a mark that begins so.

ghost use Rattle.std.specs.Prelude.{◌≡◌, ◌++◌, ℕ, List, map, IfOk};
ghost use Rattle.sqlite.specs.State.{HasCleanDisk};
ghost use Rattle.sqlite.specs.Held.{state};
ghost use Rattle.record_tables.specs.Events.{Event as Row};
ghost use Rattle.record_reads.specs.Events.{event_of as row_of};
ghost use Rattle.record_archive.specs.Archive.{Archive};
ghost use Rattle.record_noted.specs.Histories.{StandsWith, rows_of};
ghost use Rattle.cli_history.specs.Judgements.{IsMet, begins_so};
ghost use Rattle.cli_history.specs.Marks.{met_after};
ghost use Rattle.cli_history.specs.Walks.{Looks};

use crate::pages::Events;
use cli_console::Failure;
use record_noted::NotedStore;
use record_store::EventRow;
use sqlite::Alter;

/// The number of an event where its mark begins so, and else that of the event from before.
fn met_at(row: &EventRow, front: &[u8], before: Option<u32>) -> Option<u32>
    ensures { result ≡ met_after (begins_so front.now row.now.mark.items) row.now.number before }
{
    if row.mark.starts_with(front) {
        Some(row.number)
    } else {
        before
    }
}

/// The number of the last event of a page whose mark begins so, and else that of the event from before.
fn met_in(page: &[EventRow], front: &[u8], before: Option<u32>) -> Option<u32>
    ensures { (rows : List Row) → IsMet front.now before rows
        → IsMet front.now result (rows ++ map row_of page.now) }
{
    let mut met = before;
    for row in page {
        met = met_at(row, front, met);
    }
    met
}

/// The number of the last event of a history whose mark begins so; none where no event has such a mark. Whether the events are
/// lawful is not looked at. A failure is that of the store.
pub fn event_with_mark<S: Alter>(
    rt: &HostRuntime,
    noted: &mut NotedStore<S>,
    front: &[u8],
) -> Result<Option<u32>, Failure>
    ensures looks { Looks S.Store noted.old noted.new }
    ensures met { IfOk result (λ met. HasCleanDisk (state S.Store noted.new.store.conn)
        → (a : Archive) → (ls : List (List ℕ)) → StandsWith S.Store noted.old a ls
        → IsMet front.now met (rows_of ls)) }
{
    let mut met = None;
    let mut events = Events::all();
    for _ in 0..u64::MAX {
        let Some(page) = events.next_page(rt, noted)? else {
            return Ok(met);
        };
        met = met_in(page.as_slice(), front, met);
    }
    Ok(met)
}
