//! `check`: whether a history is whole, and explains its archive.

ghost use Rattle.std.specs.Prelude.{◌≡◌, ◌++◌, ◌∷◌, ◌&&◌, ◌||◌, [], List, map, not, true, IfOk, OnOk, is_none, is_some, is_ok};
ghost use Rattle.std.specs.Str.{bytes_eq};
ghost use Rattle.record_tables.specs.Events.{Event as Row};
ghost use Rattle.record_reads.specs.Events.{event_of as row_of};
ghost use Rattle.record_noted.specs.Histories.{rows_of};
ghost use Rattle.cli_history.specs.Findings.{is_open_at};
ghost use Rattle.cli_history.specs.Judgements.{IsJudged, Passes, TakesEvent};
ghost use Rattle.cli_history.specs.Made.{IsMadeWhole};
ghost use Rattle.cli_history.specs.Marks.{is_sought as is_mark_sought, met_after};
ghost use Rattle.cli_history.specs.Walks.{ForArchive, Looks};

use crate::comparison::{Depth, compare, tell_differences};
use crate::findings::Findings;
use crate::notes::is_altered;
use crate::pages::{Events, at_event, judged_event_of};
use crate::stored::StoredSeals;
use crate::watching::Watch;
use cli_console::{Failure, Status, tell, write_text};
use record_history::{Deed, Event};
use record_noted::NotedStore;
use record_store::EventRow;
use sqlite::Alter;
use std::alloc::{AllocError, Global};
use tool_texts::{Shown, put};

/// What was found of a history so far.
struct Judgement<'h> {
    watch: Watch,
    findings: Findings,
    /// A mark that was noted elsewhere.
    head: Option<&'h str>,
    /// The number of the event that has that mark, once it was judged.
    met: Option<u32>,
    count: u64,
    /// The mark of the last event, as the database has it.
    mark: Vec<u8>,
    /// The moment of the last event.
    moment: u64,
}

impl Drop for Judgement<'_> {
    fn drop(self) {
        let Judgement {
            watch: _,
            findings: _,
            head: _,
            met: _,
            count: _,
            mark: _,
            moment: _,
        } = self;
    }
}

/// That a mark is that of an event.
fn met_line(alloc: Global, mark: &str, number: u32) -> Result<Shown, AllocError> {
    let mut line = Shown::new(alloc);
    put!(line; "mark " value(&mark) " is that of event " value(&number))?;
    line.end_line()?;
    Ok(line)
}

/// That no event has a mark; of those that were judged, where something stands against one, which has this number.
fn unmet_words(alloc: Global, mark: &str, fault: Option<u32>) -> Result<Shown, AllocError> {
    let mut words = Shown::new(alloc);
    put!(words; value(&mark) ": ")?;
    match fault {
        None => words.words("no event of the history has this mark")?,
        Some(number) => put!(words; "no event before event " value(&number) " has this mark")?,
    }
    Ok(words)
}

/// That the message of a record that an event destroys was not the one that was captured.
fn altered_line(alloc: Global, event: u32, record: u32) -> Result<Shown, AllocError> {
    let mut line = Shown::new(alloc);
    put!(line; "event " value(&event) ": record " value(&record)
        " was destroyed, and its message was not the one captured")?;
    line.end_line()?;
    Ok(line)
}

/// Says of an event that destroys a record where it notes that the message was not the one that was captured.
fn say_altered(rt: &HostRuntime, number: u32, event: &Event<'_>) -> Result<(), Failure> {
    match &event.deed {
        Deed::Destroyed { number: record, .. } if is_altered(event.notes) => {
            write_text(rt, &altered_line(rt.alloc(), number, *record)?)
        }
        _ => Ok(()),
    }
}

impl<'h> Judgement<'h> {
    fn new(
        alloc: Global,
        volume: Option<u32>,
        head: Option<&'h str>,
    ) -> Result<Judgement<'h>, AllocError>
        ensures judged { IfOk result (λ j. IsJudged j []) }
        ensures head { IfOk result (λ j. j.head ≡ head.entry) }
    {
        let watch = Watch::new(alloc, volume)?;
        Ok(Judgement {
            watch,
            findings: Findings::none(alloc),
            head,
            met: None,
            count: 0,
            mark: Vec::new(alloc),
            moment: 0,
        })
    }

    /// Whether an event has the mark that is looked for.
    fn is_sought(&self, row: &EventRow) -> bool
        ensures { result ≡ is_mark_sought (λ m. bytes_eq m.now row.now.mark.items) self.now.head }
    {
        match self.head {
            Some(mark) => mark.as_bytes() == row.mark.as_slice(),
            None => false,
        }
    }

    /// Notes the event whose mark is looked for.
    fn meet(&mut self, row: &EventRow)
        ensures met { self.new.met ≡ met_after
            (is_mark_sought (λ m. bytes_eq m.now row.now.mark.items) self.old.head)
            row.now.number self.old.met }
        ensures rest { self.new ≡ record self.old { met = self.new.met } }
    {
        if self.is_sought(row) {
            self.met = Some(row.number);
        }
    }

    /// Tells where a clock went back, which is no fault of the history.
    fn look_at_clock(
        &mut self,
        rt: &HostRuntime,
        number: u32,
        moment: u64,
    ) -> Result<(), AllocError>
        ensures { self.new ≡ record self.old { moment = self.new.moment } }
    {
        if moment < self.moment {
            let words = "its moment is before that of the event before it; the clock went back";
            self.watch.tell(rt, &at_event(rt.alloc(), number, words)?);
        }
        self.moment = moment;
        Ok(())
    }

    /// Notes what an event says, against which nothing stands.
    fn take(&mut self, rt: &HostRuntime, row: &EventRow) -> Result<(), Failure>
        ensures { OnOk result (TakesEvent row.now self.old self.new) }
    {
        self.meet(row);
        let event = judged_event_of(rt.alloc(), row)?;
        self.findings.take(row.number, &event)?;
        say_altered(rt, row.number, &event)?;
        Ok(self.look_at_clock(rt, row.number, event.moment)?)
    }

    /// Judges an event. Where one before it is at fault, nothing is known of it.
    fn judge_row(&mut self, rt: &HostRuntime, row: &EventRow) -> Result<(), Failure>
        ensures judged { (rows : List Row) → IsJudged self.old rows
            → OnOk result (IsJudged self.new (rows ++ row_of row.now ∷ [])) }
        ensures head { OnOk result (self.new.head ≡ self.old.head) }
    {
        self.count = self.count.saturating_add(1);
        let is_sound = self.watch.look_at(rt, row)?;
        if is_sound {
            return self.take(rt, row);
        }
        Ok(())
    }

    /// Keeps the mark of the last event of a page.
    fn keep_mark(&mut self, page: &[EventRow]) -> Result<(), AllocError>
        ensures { self.new ≡ record self.old { mark = self.new.mark } }
    {
        if let Some(last) = page.last() {
            self.mark = last.mark.clone()?;
        }
        Ok(())
    }

    /// Judges the events of a page, and keeps the mark of the last.
    #[tactic(auto, using(crate::proofs::JudgementLemmas::page_laws))]
    fn judge_page(&mut self, rt: &HostRuntime, page: &[EventRow]) -> Result<(), Failure>
        ensures judged { (rows : List Row) → IsJudged self.old rows
            → OnOk result (IsJudged self.new (rows ++ map row_of page.now)) }
        ensures head { OnOk result (self.new.head ≡ self.old.head) }
    {
        for row in page {
            self.judge_row(rt, row)?;
        }
        Ok(self.keep_mark(page)?)
    }

    /// How many events there are, and the last mark, a line each.
    fn totals(&self, alloc: Global) -> Result<Shown, AllocError> {
        let mut text = Shown::new(alloc);
        put!(text; "events " value(&self.count))?;
        text.end_line()?;
        if !self.mark.is_empty() {
            text.words("mark ")?;
            text.escaped(self.mark.as_slice())?;
            text.end_line()?;
        }
        Ok(text)
    }

    /// Whether an event has the mark that is looked for, if one is.
    fn is_met(&self) -> bool
        ensures { result ≡ is_none self.now.head || is_some self.now.met }
    {
        self.head.is_none() || self.met.is_some()
    }

    /// Says which event has the mark that is looked for, or that none has.
    fn say_met(&self, rt: &HostRuntime) -> Result<(), Failure> {
        let alloc = rt.alloc();
        match (self.head, self.met) {
            (None, _) => Ok(()),
            (Some(mark), Some(number)) => write_text(rt, &met_line(alloc, mark, number)?),
            (Some(mark), None) => {
                tell(rt, &unmet_words(alloc, mark, self.watch.fault())?);
                Ok(())
            }
        }
    }

    /// Says what was found behind the beginning, a line for each group.
    fn say_found(&self, rt: &HostRuntime) -> Result<(), Failure> {
        let lines = self.findings.lines()?;
        for line in &lines {
            write_text(rt, line)?;
        }
        Ok(())
    }

    /// Tells that something that was found is not accepted, if it is so. Answers whether it is not so.
    fn is_accepted(&self, rt: &HostRuntime) -> Result<bool, AllocError>
        ensures { IfOk result (λ b. b ≡ not (is_open_at self.now.findings.stage)) }
    {
        if !self.findings.is_unaccepted() {
            return Ok(true);
        }
        self.watch.tell(rt, &self.findings.unaccepted_words()?);
        Ok(false)
    }
}

/// Judges the events of a history.
fn judge_events<'h, S: Alter>(
    rt: &HostRuntime,
    noted: &mut NotedStore<S>,
    volume: Option<u32>,
    head: Option<&'h str>,
) -> Result<Judgement<'h>, Failure>
    ensures looks { Looks S.Store noted.old noted.new }
    ensures judged { IfOk result (λ j.
        ForArchive S.Store noted.old noted.new (λ a ls. IsJudged j (rows_of ls))) }
    ensures head { IfOk result (λ j. j.head ≡ head.entry) }
{
    let mut judgement = Judgement::new(rt.alloc(), volume, head)?;
    let mut events = Events::all();
    for _ in 0..u64::MAX {
        let Some(page) = events.next_page(rt, noted)? else {
            return Ok(judgement);
        };
        judgement.judge_page(rt, page.as_slice())?;
    }
    Ok(judgement)
}

/// Whether nothing stands against an event of a history, and the store has what they make, each message by its seal. What
/// differs is told.
fn is_explained<S: Alter>(
    rt: &HostRuntime,
    noted: &mut NotedStore<S>,
    volume: Option<u32>,
    watch: &Watch,
    stored: StoredSeals,
) -> Result<bool, Failure>
    ensures looks { Looks S.Store noted.old noted.new }
    ensures sound { IfOk result (λ b. b ≡ true → is_none watch.now.fault ≡ true) }
    ensures made { IfOk result (λ b. b ≡ true → ForArchive S.Store noted.old noted.new
        (λ a ls. IsMadeWhole stored watch.now.judge.archive a)) }
{
    if !watch.is_sound() {
        return Ok(false);
    }
    let comparison = compare(rt, noted, watch.archive(), Depth::Messages(stored))?;
    tell_differences(rt, noted, volume, &comparison)?;
    Ok(comparison.is_same())
}

/// What a judgement comes to: `BadData` where the store has not what the history makes, where something that was found is not
/// accepted, or where no event has the mark that is looked for. Each was told.
fn verdict(is_same: bool, is_accepted: bool, is_met: bool) -> Result<(), Failure>
    ensures { is_ok result ≡ is_same && (is_accepted && is_met) }
{
    if is_same && is_accepted && is_met {
        Ok(())
    } else {
        Err(Failure::Reported(Status::BadData))
    }
}

/// Judges a history: the numbers of its events have no gap, each mark is that of the line after the events before it, each
/// line is that of an event, and the archive allows each at its point; and what they make is what the store has, each
/// message by its seal. Prints which messages were destroyed that were not the ones captured, what was found after a program
/// that keeps no history, and whether that was accepted, how many events there are, the last mark, and which event has a mark
/// that was noted elsewhere, where one is looked for. `BadData` where any of that is not so, and where something that was
/// found is not accepted, which is told.
///
/// The caller gives the seals of the messages that it has read; the others are read here. Where those are the seals of the
/// archive's messages, each message of a live record is the one whose seal the history tells. What is told names the volume of
/// the store, in an archive of volumes.
pub fn judge_history<S: Alter>(
    rt: &HostRuntime,
    noted: &mut NotedStore<S>,
    volume: Option<u32>,
    head: Option<&str>,
    stored: StoredSeals,
) -> Result<(), Failure>
    ensures looks { Looks S.Store noted.old noted.new }
    ensures passes { OnOk result
        (ForArchive S.Store noted.old noted.new (λ a ls. Passes head.entry stored a ls)) }
{
    let judgement = judge_events(rt, noted, volume, head)?;
    let is_same = is_explained(rt, noted, volume, &judgement.watch, stored)?;
    judgement.say_found(rt)?;
    write_text(rt, &judgement.totals(rt.alloc())?)?;
    judgement.say_met(rt)?;
    let is_accepted = judgement.is_accepted(rt)?;
    verdict(is_same, is_accepted, judgement.is_met())
}
