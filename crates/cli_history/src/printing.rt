//! `history`: what was done to an archive.

ghost use Rattle.std.specs.Prelude.{◌≡◌, ◌&&◌, ◌∷◌, [], None, Some, false, not, true, IfOk, OnOk, is_none, map, string_bytes};
ghost use Rattle.record_history.specs.Spelled.{IsSpelledDeed};
ghost use Rattle.record_history.specs.Views.{deed_view, event_view};
ghost use Rattle.record_noted.specs.Histories.{rows_of};
ghost use Rattle.record_reads.specs.Events.{event_of as row_of};
ghost use Rattle.cli_console.specs.Counts.{one_more};
ghost use Rattle.cli_console.specs.Sinks.{Writes};
ghost use Rattle.cli_history.specs.Chosen.{asks_for_all};
ghost use Rattle.cli_history.specs.Lawful.{IsLawful, Watches};
ghost use Rattle.cli_history.specs.Printed.{AddsHistory, Begins, Ends, IsEventText, IsNew, IsObjectOf, LeavesUnmet, MeetsAll, PrintsRow, PrintsRows, WritesHistory, end_of, head_unless, number_places as places_of};
ghost use Rattle.cli_history.specs.Tellings.{is_told_as_bad};
ghost use Rattle.cli_history.specs.Walks.{ForArchive, Looks};

use crate::chosen::{is_asked, is_for_all, is_there_after, word_of};
use crate::fields::fields_of;
use crate::missing::Missing;
use crate::pages::{Events, event_of};
use crate::watching::Watch;
use cli_console::{Failure, Sink, StandardOutput, Status, in_array};
use cli_texts::{ListedEvent, NumberPlaces, event_object, history_line};
use command_lines::archives::HistoryAsked;
use record_history::{Deed, Event};
use record_noted::NotedStore;
use record_store::EventRow;
use sqlite::Alter;
use std::alloc::{AllocError, Global};

/// The events of histories that are printed, of one store after another: a line each, or as an array of JSON objects.
#[derive(Drop)]
pub struct HistoryText<K> {
    sink: K,
    is_json: bool,
    /// Whether what stands before the events is written.
    is_begun: bool,
    /// How many events were printed.
    count: u64,
}

/// A history that is printed, and judged as it is read.
pub struct PrintedHistory<'q, 'a> {
    asked: &'q HistoryAsked<'a>,
    /// The number of its volume, in an archive of volumes.
    volume: Option<u32>,
    watch: Watch,
    /// Whether the line of one could not be read.
    is_any_unread: bool,
    /// The numbers that are asked for, and of which no event was printed.
    missing: Missing,
    /// Whether a record of one of these numbers is there after the events that were read.
    is_there: bool,
}

impl Drop for PrintedHistory<'_, '_> {
    fn drop(self) {
        let PrintedHistory {
            asked: _,
            volume: _,
            watch: _,
            is_any_unread: _,
            missing: _,
            is_there: _,
        } = self;
    }
}

/// What is said of a number of which no event is printed.
fn unmet_words(asked: &HistoryAsked<'_>) -> &'static str {
    if asked.since.is_none() && asked.by.is_none() && asked.kind.is_none() {
        "no event tells of a record of this number"
    } else {
        "no event that is asked for tells of a record of this number"
    }
}

/// The number of a record at a place in the line of an event, and no other.
pub(crate) fn at_word(place: usize) -> NumberPlaces
    ensures { result ≡ record { of_record = Some place; of_message = None } }
{
    NumberPlaces {
        of_record: Some(place),
        of_message: None,
    }
}

/// Which words of the line of an event are numbers of records: behind its number, its moment and who did it stands the deed.
fn number_places(deed: &Deed<'_>) -> NumberPlaces
    ensures { result ≡ places_of (deed_view deed.now) }
{
    match deed {
        Deed::Captured { .. } | Deed::Refiled { .. } | Deed::Destroyed { .. } => at_word(4),
        Deed::Held { .. } | Deed::Released { .. } => at_word(5),
        Deed::FoundMessage { .. } => NumberPlaces {
            of_record: None,
            of_message: Some(5),
        },
        Deed::FoundRecord { .. } => NumberPlaces {
            of_record: Some(5),
            of_message: Some(8),
        },
        Deed::FoundHold { .. } => at_word(6),
        Deed::ClassAdded { .. }
        | Deed::PlanReplaced(_)
        | Deed::Titled { .. }
        | Deed::ReasonsRequired
        | Deed::ReasonsOptional
        | Deed::FindingsAccepted
        | Deed::FoundPlan(_) => NumberPlaces::none(),
    }
}

/// An event as a JSON object, after what stands between it and the one before.
fn object_of(
    alloc: Global,
    volume: Option<u32>,
    row: &EventRow,
    event: &Event<'_>,
    is_first: bool,
) -> Result<String, AllocError>
    requires { IsSpelledDeed (deed_view event.now.deed) }
    ensures { IfOk result (λ s. IsObjectOf volume is_first (row_of row.now)
        (Some (event_view event.now)) (string_bytes s)) }
{
    let fields = fields_of(alloc, &event.deed)?;
    let listed = ListedEvent {
        volume,
        number: row.number,
        moment: event.moment,
        who: event.who,
        word: word_of(&event.deed),
        fields: fields.as_slice(),
        notes: event.notes,
        reason: event.reason,
        line: row.line.as_slice(),
        mark: row.mark.as_slice(),
    };
    let object = event_object(alloc, &listed)?;
    in_array(alloc, is_first, object.as_str())
}

/// The text of an event: its line, or a JSON object that comes after others.
fn text_of(
    alloc: Global,
    volume: Option<u32>,
    row: &EventRow,
    event: &Event<'_>,
    is_json: bool,
    is_first: bool,
) -> Result<String, AllocError>
    requires { IsSpelledDeed (deed_view event.now.deed) }
    ensures { IfOk result (λ s. IsEventText volume is_json is_first
        (row_of row.now, Some (event_view event.now)) (string_bytes s)) }
{
    if is_json {
        return object_of(alloc, volume, row, event, is_first);
    }
    let line = history_line(
        alloc,
        volume,
        number_places(&event.deed),
        row.line.as_slice(),
    )?;
    Ok(line.into_string())
}

/// Whether what tells no event is printed: where all events are asked for, and as a line.
fn prints_unread(asked: &HistoryAsked<'_>, is_json: bool) -> bool
    ensures { result ≡ asks_for_all asked.now && not is_json }
{
    is_for_all(asked) && !is_json
}

/// What is yet to stand before all events, or cases.
pub(crate) fn text_ahead(is_begun: bool, is_json: bool) -> &'static str
    ensures { result.now ≡ head_unless is_begun is_json }
{
    if is_json && !is_begun { "[" } else { "" }
}

/// What stands after all of them.
pub(crate) fn text_behind(is_json: bool) -> &'static str
    ensures { result.now ≡ end_of is_json }
{
    if is_json { "\n]\n" } else { "" }
}

impl<K: Sink + Drop> HistoryText<K> {
    /// Those of no store, of which nothing is written yet.
    pub fn new(is_json: bool, sink: K) -> HistoryText<K>
        ensures { IsNew is_json sink result }
    {
        HistoryText {
            sink,
            is_json,
            is_begun: false,
            count: 0,
        }
    }

    /// Writes what stands before all events, unless that is done.
    fn begin(&mut self) -> Result<(), Failure>
        ensures { OnOk result (Begins K.written self.old self.new) }
    {
        let head = text_ahead(self.is_begun, self.is_json);
        self.sink.write(head.as_bytes())?;
        self.is_begun = true;
        Ok(())
    }

    /// Writes the text of an event.
    fn push(&mut self, text: &str) -> Result<(), Failure>
        ensures added { OnOk result (Writes K.written self.old.sink self.new.sink text.now) }
        ensures rest { OnOk result (self.new ≡ record self.old {
          sink = self.new.sink;
          count = one_more self.old.count;
        }) }
    {
        self.sink.write(text.as_bytes())?;
        self.count = self.count.saturating_add(1);
        Ok(())
    }

    /// Prints the events of the history of a store that are asked for, behind those of the stores before it. In an archive of volumes the
    /// store is the volume of a number, which names its events and their records. The events are judged as they are read: what that came to
    /// is answered, and ends with [`PrintedHistory::end`]. A failure is that of the store, or of the output.
    pub fn add_history<'q, 'a, S: Alter>(
        &mut self,
        rt: &HostRuntime,
        noted: &mut NotedStore<S>,
        volume: Option<u32>,
        asked: &'q HistoryAsked<'a>,
    ) -> Result<PrintedHistory<'q, 'a>, Failure>
        ensures looks { Looks S.Store noted.old noted.new }
        ensures added { OnOk result (ForArchive S.Store noted.old noted.new (λ a ls.
            AddsHistory K.written volume asked.now self.old (rows_of ls) self.new)) }
        ensures judged { IfOk result (λ p. ForArchive S.Store noted.old noted.new
            (λ a ls. Watches p.watch (rows_of ls))) }
        ensures met { IfOk result (λ p. ForArchive S.Store noted.old noted.new (λ a ls.
            LeavesUnmet asked.now self.old.is_json (rows_of ls) p.missing.rest.items)) }
    {
        self.begin()?;
        let mut printing = PrintedHistory::of(rt.alloc(), volume, asked)?;
        printing.print_all(rt, noted, self)?;
        Ok(printing)
    }

    /// Writes what stands after all events. Answers the sink.
    pub fn end(self) -> Result<K, Failure>
        ensures { IfOk result (Ends K.written self) }
    {
        let mut whole = self;
        whole.begin()?;
        let end = text_behind(whole.is_json);
        whole.sink.write(end.as_bytes())?;
        let HistoryText { sink, .. } = whole;
        Ok(sink)
    }
}

impl<'q, 'a> PrintedHistory<'q, 'a> {
    fn of(
        alloc: Global,
        volume: Option<u32>,
        asked: &'q HistoryAsked<'a>,
    ) -> Result<PrintedHistory<'q, 'a>, AllocError>
        ensures asked { IfOk result (λ p. p.asked.now ≡ asked.now) }
        ensures volume { IfOk result (λ p. p.volume ≡ volume) }
        ensures there { IfOk result (λ p. p.is_there ≡ false) }
        ensures judged { IfOk result (λ p. Watches p.watch []) }
        ensures typed { IfOk result (λ p. p.missing.rest.items ≡ asked.now.numbers.items) }
    {
        Ok(PrintedHistory {
            asked,
            volume,
            watch: Watch::new(alloc, volume)?,
            is_any_unread: false,
            missing: Missing::of(alloc, asked.numbers.as_slice())?,
            is_there: false,
        })
    }

    /// Prints an event, where it is asked for.
    fn print_event<K: Sink + Drop>(
        &mut self,
        rt: &HostRuntime,
        text: &mut HistoryText<K>,
        row: &EventRow,
        event: &Event<'_>,
    ) -> Result<(), Failure>
        requires { IsSpelledDeed (deed_view event.now.deed) }
        ensures { OnOk result (PrintsRow K.written self.old text.old (row_of row.now)
            (Some (event_view event.now)) self.new text.new) }
    {
        let is_there = self.is_there;
        self.is_there = is_there_after(self.asked.numbers.as_slice(), is_there, &event.deed);
        if !is_asked(self.asked, is_there, event) {
            return Ok(());
        }
        self.missing.meet(&event.deed)?;
        let is_first = text.count == 0;
        let said = text_of(rt.alloc(), self.volume, row, event, text.is_json, is_first)?;
        text.push(said.as_str())
    }

    /// Prints what stands in the place of an event's line, where all events are asked for, and tells that it is none.
    fn print_unread<K: Sink + Drop>(
        &mut self,
        rt: &HostRuntime,
        text: &mut HistoryText<K>,
        row: &EventRow,
        failure: Failure,
    ) -> Result<(), Failure>
        ensures unread { OnOk result (is_told_as_bad failure ≡ true) }
        ensures printed { OnOk result (PrintsRow K.written self.old text.old (row_of row.now)
            None self.new text.new) }
    {
        let Failure::Told(Status::BadData, words) = failure else {
            return Err(failure);
        };
        self.is_any_unread = true;
        if !self.watch.is_told(row.number) {
            self.watch.tell(rt, &words);
        }
        if !prints_unread(self.asked, text.is_json) {
            return Ok(());
        }
        let places = NumberPlaces::none();
        let line = history_line(rt.alloc(), self.volume, places, row.line.as_slice())?;
        text.push(line.as_str())
    }

    /// Judges a row, and prints its event where it is asked for.
    fn print_row<K: Sink + Drop>(
        &mut self,
        rt: &HostRuntime,
        text: &mut HistoryText<K>,
        row: &EventRow,
    ) -> Result<(), Failure>
        ensures { OnOk result (PrintsRows K.written self.old text.old (row_of row.now ∷ [])
            self.new text.new) }
    {
        self.watch.look_at(rt, row)?;
        match event_of(rt.alloc(), row) {
            Ok(event) => self.print_event(rt, text, row, &event),
            Err(failure) => self.print_unread(rt, text, row, failure),
        }
    }

    /// Prints the events of a page that are asked for.
    fn print_page<K: Sink + Drop>(
        &mut self,
        rt: &HostRuntime,
        text: &mut HistoryText<K>,
        page: &[EventRow],
    ) -> Result<(), Failure>
        ensures { OnOk result (PrintsRows K.written self.old text.old (map row_of page.now)
            self.new text.new) }
    {
        for row in page {
            self.print_row(rt, text, row)?;
        }
        Ok(())
    }

    /// Prints all events that are asked for.
    fn print_all<S: Alter, K: Sink + Drop>(
        &mut self,
        rt: &HostRuntime,
        noted: &mut NotedStore<S>,
        text: &mut HistoryText<K>,
    ) -> Result<(), Failure>
        ensures looks { Looks S.Store noted.old noted.new }
        ensures printed { OnOk result (ForArchive S.Store noted.old noted.new (λ a ls.
            PrintsRows K.written self.old text.old (rows_of ls) self.new text.new)) }
    {
        let mut events = Events::all();
        for _ in 0..u64::MAX {
            let Some(page) = events.next_page(rt, noted)? else {
                return Ok(());
            };
            self.print_page(rt, text, page.as_slice())?;
        }
        Ok(())
    }

    /// What it came to: `BadData` where something stands against an event, and where a number is asked for of which no event
    /// tells. Both are told.
    pub fn end(&self, rt: &HostRuntime) -> Result<(), Failure>
        ensures sound { OnOk result (is_none self.now.watch.fault ≡ true) }
        ensures read { OnOk result (self.now.is_any_unread ≡ false) }
        ensures met { OnOk result (self.now.missing.rest.items ≡ []) }
    {
        self.watch.end(rt.alloc())?;
        let is_all_met = self.missing.tell(rt, self.volume, unmet_words(self.asked))?;
        if self.is_any_unread || !is_all_met {
            return Err(Failure::Reported(Status::BadData));
        }
        Ok(())
    }
}

/// Prints the events of a history that are asked for to a sink, between what stands before and after all events. Answers what the
/// history came to as it was read, and the sink.
fn history_to<'q, 'a, S: Alter, K: Sink + Drop>(
    rt: &HostRuntime,
    noted: &mut NotedStore<S>,
    asked: &'q HistoryAsked<'a>,
    sink: K,
) -> Result<(PrintedHistory<'q, 'a>, K), Failure>
    ensures looks { Looks S.Store noted.old noted.new }
    ensures prints { IfOk result (λ printed. ForArchive S.Store noted.old noted.new (λ a ls.
        WritesHistory K.written None asked.now sink (rows_of ls) printed.1)) }
    ensures judged { IfOk result (λ printed. ForArchive S.Store noted.old noted.new (λ a ls.
        Watches printed.0.watch (rows_of ls))) }
    ensures met { IfOk result (λ printed. ForArchive S.Store noted.old noted.new (λ a ls.
        LeavesUnmet asked.now asked.now.is_json (rows_of ls) printed.0.missing.rest.items)) }
{
    let mut text = HistoryText::new(asked.is_json, sink);
    let printing = text.add_history(rt, noted, None, asked)?;
    let output = text.end()?;
    Ok((printing, output))
}

/// Prints the events of a history that are asked for, a line each as it is hashed, or as an array of JSON objects. The events
/// are judged as they are read. `BadData` in the end where something stands against one, which is told, and where a number is
/// asked for of whose record no such event tells.
pub fn write_history<S: Alter>(
    rt: &HostRuntime,
    noted: &mut NotedStore<S>,
    asked: &HistoryAsked<'_>,
) -> Result<(), Failure>
    ensures looks { Looks S.Store noted.old noted.new }
    ensures lawful { OnOk result
        (ForArchive S.Store noted.old noted.new (λ a ls. IsLawful ls)) }
    ensures met { OnOk result
        (ForArchive S.Store noted.old noted.new (λ a ls. MeetsAll asked.now (rows_of ls))) }
{
    let output = StandardOutput::new(rt);
    let (printing, _output) = history_to(rt, noted, asked, output)?;
    printing.end(rt)
}
