//! The events of a history and the records beside it, a page at a time.

ghost use Rattle.std.specs.Prelude.{◌≡◌, ◌-◌, ◌<◌, ℕ, None, Some, List, drop, false, length, map, take, IfOk};
ghost use Rattle.sqlite.specs.State.{HasCleanDisk};
ghost use Rattle.sqlite.specs.Held.{state};
ghost use Rattle.record_choice.specs.Entries.{entry_view};
ghost use Rattle.record_choice.specs.Walks.{above, last_of};
ghost use Rattle.record_history.specs.Spelled.{IsSpelledDeed};
ghost use Rattle.record_history.specs.Views.{deed_view, event_view};
ghost use Rattle.record_noted.specs.Histories.{rows_of};
ghost use Rattle.record_reads.specs.Events.{event_of as row_of};
ghost use Rattle.cli_history.specs.Replays.{told_by};
ghost use Rattle.cli_history.specs.Tellings.{TellsAs, is_told_as_bad};
ghost use Rattle.cli_history.specs.Walks.{ForArchive, Glances, HasLines, IsNextEntries, IsNextPage, Looks, number_behind};

use cli_console::{Failure, Status};
use record_history::{Event, LineFault, read_line, read_line_again};
use record_noted::NotedStore;
use record_store::{EventRow, RecordEntry, Store};
use sqlite::Alter;
use std::alloc::{AllocError, Global};
use tool_texts::{Shown, put};

/// How many events are read in a step.
pub const PAGE: u32 = 1_000;

/// The number after that of the last event of a page; none where the page has no event, or no number is left.
fn number_after(page: &[EventRow]) -> Option<u32>
    ensures { result ≡ number_behind (map row_of page.now) }
{
    match page.last() {
        Some(last) => last.number.checked_add(1),
        None => None,
    }
}

/// A walk over the events of a history, by number.
#[derive(Clone, Copy)]
pub struct Events {
    /// The number from which it goes on, if it does.
    from: Option<u32>,
}

impl Events {
    /// A walk from the first event on.
    pub fn all() -> Events
        ensures { result.from ≡ Some 1 }
    {
        Events { from: Some(1) }
    }

    /// The page that was read, and the walk goes on behind it; none where it has no event.
    fn go_on(&mut self, page: Vec<EventRow>) -> Option<Vec<EventRow>>
        ensures { (ls : List (List ℕ)) → (n : ℕ) → length ls < 4294967295 → self.old.from ≡ Some n
            → map row_of page.items ≡ take 1000 (drop (n - 1) (rows_of ls))
            → IsNextPage (rows_of ls) (Some n) self.new.from result }
    {
        if page.is_empty() {
            return None;
        }
        self.from = number_after(page.as_slice());
        Some(page)
    }

    /// The next events; `None` at the end. The pages of a walk, joined, are the events of the history, each of them once and
    /// in order. A failure is that of the store.
    pub fn next_page<S: Alter>(
        &mut self,
        rt: &HostRuntime,
        noted: &mut NotedStore<S>,
    ) -> Result<Option<Vec<EventRow>>, Failure>
        ensures looks { Looks S.Store noted.old noted.new }
        ensures page { ForArchive S.Store noted.old noted.new (λ a ls.
            IfOk result (IsNextPage (rows_of ls) self.old.from self.new.from)) }
    {
        let Some(from) = self.from else {
            return Ok(None);
        };
        let end = noted.next();
        if from >= end {
            return Ok(None);
        }
        match noted.events(from, PAGE) {
            Ok(page) => Ok(self.go_on(page)),
            Err(fault) => Err(Failure::of_store(rt.alloc(), "the history", fault)),
        }
    }

    /// The same of a store whose history was not opened, and that has a table of events: a history of at most 4,294,967,294
    /// events.
    pub fn next_page_of<S: Alter>(
        &mut self,
        rt: &HostRuntime,
        archive: &mut Store<S>,
    ) -> Result<Option<Vec<EventRow>>, Failure>
        ensures glances { Glances S.Store archive.old archive.new }
        ensures page { HasCleanDisk (state S.Store archive.new.conn) → (ls : List (List ℕ))
            → HasLines S.Store archive.old ls
            → IfOk result (IsNextPage (rows_of ls) self.old.from self.new.from) }
    {
        let Some(from) = self.from else {
            return Ok(None);
        };
        match archive.events_from(from, PAGE) {
            Ok(page) => Ok(self.go_on(page)),
            Err(fault) => Err(Failure::of_store(rt.alloc(), "the history", fault)),
        }
    }
}

/// How many records are read in a step.
const RECORDS: usize = 4_000;

/// The number above that of the last of some records, if there is one.
fn number_above(page: &[RecordEntry]) -> Option<u32>
    ensures { result ≡ above (last_of None (map entry_view page.now)) }
{
    match page.last() {
        Some(entry) => entry.number.checked_add(1),
        None => None,
    }
}

/// A walk over the records of an archive with a history, by number.
#[derive(Clone, Copy)]
pub struct Entries {
    /// The number from which it goes on, if it does.
    from: Option<u32>,
}

impl Entries {
    /// A walk from the first record on.
    pub fn all() -> Entries
        ensures { result.from ≡ Some 1 }
    {
        Entries { from: Some(1) }
    }

    /// The next records; `None` at the end. The pages of a walk, joined, are the records of the archive, each of them once and
    /// in order, whatever the history tells of them. A failure is that of the store.
    pub fn next_page<S: Alter>(
        &mut self,
        rt: &HostRuntime,
        noted: &mut NotedStore<S>,
    ) -> Result<Option<Vec<RecordEntry>>, Failure>
        ensures looks { Looks S.Store noted.old noted.new }
        ensures page { ForArchive S.Store noted.old noted.new (λ a ls.
            IfOk result (IsNextEntries a self.old.from self.new.from)) }
    {
        let Some(from) = self.from else {
            return Ok(None);
        };
        let page = match noted.entries(from, RECORDS) {
            Ok(page) => page,
            Err(fault) => return Err(Failure::of_store(rt.alloc(), "the store", fault)),
        };
        if page.is_empty() {
            return Ok(None);
        }
        self.from = number_above(page.as_slice());
        Ok(Some(page))
    }
}

/// What is said of an event, with its number.
pub fn at_event(alloc: Global, number: u32, words: &'static str) -> Result<Shown, AllocError> {
    let mut text = Shown::new(alloc);
    put!(text; "event " value(&number) ": " words(words))?;
    Ok(text)
}

/// Why the line of a row is not that of its event: it has another number, or could not be read.
fn line_failure(alloc: Global, number: u32, fault: Option<LineFault>) -> Failure
    ensures { fault ≡ Some LineFault.NoMemory → is_told_as_bad result ≡ false }
{
    let words = match fault {
        Some(LineFault::NoMemory) => return Failure::NoMemory,
        Some(LineFault::NotALine) => "its line is none of an event",
        None => "its line has another number",
    };
    Failure::shown(Status::BadData, at_event(alloc, number, words))
}

/// The event of a row. `BadData` where its line is none, or is that of another number.
pub fn event_of<'a>(alloc: Global, row: &'a EventRow) -> Result<Event<'a>, Failure>
    ensures spelled { IfOk result (λ e. IsSpelledDeed (deed_view e.deed)) }
    ensures tells { TellsAs (row_of row.now) result }
{
    let own = u64::from(row.number);
    let (number, event) = match read_line(alloc, row.line.as_slice()) {
        Ok(read) => read,
        Err(fault) => return Err(line_failure(alloc, row.number, Some(fault))),
    };
    if number != own {
        return Err(line_failure(alloc, row.number, None));
    }
    Ok(event)
}

/// The same, of a row against which nothing stands: its line is one, and is not written again to be compared.
pub fn judged_event_of<'a>(alloc: Global, row: &'a EventRow) -> Result<Event<'a>, Failure>
    ensures spelled { IfOk result (λ e. IsSpelledDeed (deed_view e.deed)) }
    ensures told { IfOk result (λ e. told_by row.now.line.items ≡ Some (event_view e)) }
{
    match read_line_again(alloc, row.line.as_slice()) {
        Ok((number, event)) if number == u64::from(row.number) => Ok(event),
        Ok(_) => Err(line_failure(alloc, row.number, None)),
        Err(fault) => Err(line_failure(alloc, row.number, Some(fault))),
    }
}
