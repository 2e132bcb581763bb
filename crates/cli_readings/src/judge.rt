//! `check`: what an archive holds.

ghost use Rattle.std.specs.Prelude.{◌≡◌, ◌∷◌, ◌++◌, [], ℕ, None, IfOk, OnOk, length, refl};
ghost use Rattle.record_choice.specs.Reads.{OnlyReads};
ghost use Rattle.cli_console.specs.Finds.{TakesThese};
ghost use Rattle.cli_readings.specs.Checks.{AreNone, CountsMessages, CountsUnless, Counts, NotesSeal, TellsContents, contents_text, count_line, every_entry, is_kept, is_live_and_due, is_passed, more_counted, no_figures, none_counted, together, totals_of, totals_text, volumes_text, with_records};
ghost use Rattle.cli_console.specs.Sinks.{Writes};
ghost use Rattle.cli_choice.specs.Reads.{IsReadOf};

use class_plan::Date;
use cli_console::{
    Failure, Reader, Sink, StandardOutput, counted, is_by, message_of, read_chosen, today,
    write_text,
};
use cli_history::StoredSeals;
use cli_texts::Headers;
use record_choice::{Choice, Repository};
use record_store::{EventLayout, RecordEntry, Store, StoreFault};
use sqlite::Alter;
use std::alloc::{AllocError, Global};
use tool_texts::Shown;

/// Whether a record is live, and kept by a hold.
fn is_held(entry: &RecordEntry) -> bool
    ensures { result ≡ is_kept entry.now }
{
    !entry.destroyed && !entry.holds.is_empty()
}

/// Whether a record is live, and due by a day.
fn is_due(entry: &RecordEntry, day: Date) -> bool
    ensures { result ≡ is_live_and_due day entry.now }
{
    !entry.destroyed && is_by(entry.due, day)
}

/// How many records an archive has.
#[derive(Clone, Copy)]
struct Figures {
    records: u64,
    live: u64,
    /// Live records that are kept by a hold.
    held: u64,
    /// Live records that are due by the day, held or not.
    due: u64,
    /// The greatest number of a record.
    last: u32,
}

impl Figures {
    /// No records.
    fn none() -> Figures
        ensures { result ≡ no_figures }
    {
        Figures {
            records: 0,
            live: 0,
            held: 0,
            due: 0,
            last: 0,
        }
    }

    /// Counts a record.
    fn count(&mut self, entry: &RecordEntry, day: Date)
        ensures { self.new ≡ with_records day (entry.now ∷ []) self.old }
    {
        self.records = counted(true, self.records);
        self.live = counted(!entry.destroyed, self.live);
        self.held = counted(is_held(entry), self.held);
        self.due = counted(is_due(entry, day), self.due);
        self.last = entry.number;
    }
}

/// The messages of an archive.
#[derive(Drop)]
struct Messages {
    count: u64,
    octets: u64,
    /// The message that was counted last.
    last: u32,
    /// Whether the store keeps a history, which tells the seals of messages.
    is_noted: bool,
    /// The seals of the messages that were counted, where the store keeps a history.
    seals: StoredSeals,
}

impl Messages {
    /// No messages.
    fn none(alloc: Global, is_noted: bool) -> Messages
        ensures { AreNone is_noted result }
    {
        Messages {
            count: 0,
            octets: 0,
            last: 0,
            is_noted,
            seals: StoredSeals::none(alloc),
        }
    }

    /// Whether the message of a record is passed over: the record is destroyed, or its message is that of the live one before.
    fn is_passed(&self, entry: &RecordEntry) -> bool
        ensures { result ≡ is_passed self.now entry.now }
    {
        entry.destroyed || self.count > 0 && self.last == entry.message
    }

    /// Notes the seal of a message, where seals are noted.
    fn note(&mut self, alloc: Global, message: u32, octets: &[u8]) -> Result<(), AllocError>
        ensures seals { OnOk result (NotesSeal message octets.now self.old self.new) }
        ensures rest { self.new ≡ record self.old { seals = self.new.seals } }
    {
        if !self.is_noted {
            return Ok(());
        }
        self.seals.note(alloc, message, octets)
    }

    /// Adds the message of a record, unless it is passed over.
    fn add<R: Repository<Fault = StoreFault>>(
        &mut self,
        rt: &HostRuntime,
        archive: &mut R,
        entry: &RecordEntry,
    ) -> Result<(), Failure>
        ensures reads { OnlyReads R.clean R.stands archive.old archive.new }
        ensures counted { OnOk result (IsReadOf R.clean R.stands archive.old archive.new
            (λ a. CountsUnless (is_passed self.old entry.now) a entry.now self.old self.new)) }
    {
        if self.is_passed(entry) {
            return Ok(());
        }
        let octets = message_of(rt, archive, entry)?;
        self.last = entry.message;
        self.count = self.count.saturating_add(1);
        self.octets = self.octets.saturating_add(octets.len() as u64);
        self.note(rt.alloc(), entry.message, octets.as_slice())?;
        Ok(())
    }
}

/// A count of the records of a store and of their messages, and the day by which records are due.
#[derive(Drop)]
struct Counting<'a> {
    rt: &'a HostRuntime,
    day: Date,
    figures: Figures,
    messages: Messages,
}

impl Reader for Counting<'_> {
    ghost takes = { λ old a es new. Counts old a es new };

    fn take<R: Repository<Fault = StoreFault>>(
        &mut self,
        archive: &mut R,
        entry: &RecordEntry,
        _headers: Option<&Headers>,
    ) -> Result<(), Failure> {
        self.figures.count(entry, self.day);
        self.messages.add(self.rt, archive, entry)?;
        Ok(())
    }

    ghost takes_none = { λ counting a. none_counted counting a };

    ghost takes_more = { λ x y z a es fs one other. more_counted x y z a es fs one other };
}

/// Adds a line with a count.
fn put_count(text: &mut Shown, name: &'static str, count: u64) -> Result<(), AllocError>
    ensures { OnOk result (text.new ≡ text.old ++ count_line name.now count) }
{
    text.words(name)?;
    text.value(&count)?;
    text.end_line()
}

/// What stores hold.
#[derive(Clone, Copy)]
pub struct Totals {
    records: u64,
    live: u64,
    held: u64,
    due: u64,
    messages: u64,
    octets: u64,
}

impl Totals {
    /// Nothing.
    pub fn none() -> Totals
        ensures { result ≡ record {
          records = 0;
          live = 0;
          held = 0;
          due = 0;
          messages = 0;
          octets = 0;
        } }
    {
        Totals {
            records: 0,
            live: 0,
            held: 0,
            due: 0,
            messages: 0,
            octets: 0,
        }
    }

    /// What a store holds with these records and messages.
    fn of(figures: &Figures, messages: &Messages) -> Totals
        ensures { result ≡ totals_of figures.now messages.now }
    {
        Totals {
            records: figures.records,
            live: figures.live,
            held: figures.held,
            due: figures.due,
            messages: messages.count,
            octets: messages.octets,
        }
    }

    /// Adds what another store holds, up to the greatest count.
    pub fn add(&mut self, other: Totals)
        ensures { self.new ≡ together self.old other }
    {
        self.records = self.records.saturating_add(other.records);
        self.live = self.live.saturating_add(other.live);
        self.held = self.held.saturating_add(other.held);
        self.due = self.due.saturating_add(other.due);
        self.messages = self.messages.saturating_add(other.messages);
        self.octets = self.octets.saturating_add(other.octets);
    }
}

/// Adds what stores hold, a line for each count.
fn put_totals(text: &mut Shown, totals: &Totals) -> Result<(), AllocError>
    ensures { OnOk result (text.new ≡ text.old ++ totals_text totals.now) }
{
    put_count(text, "records ", totals.records)?;
    put_count(text, "live ", totals.live)?;
    put_count(text, "held ", totals.held)?;
    put_count(text, "due today ", totals.due)?;
    put_count(text, "messages ", totals.messages)?;
    put_count(text, "octets ", totals.octets)?;
    Ok(())
}

/// What was read of a whole store.
#[derive(Drop)]
pub struct Contents {
    pub totals: Totals,
    /// The seals of its messages, where they are noted.
    pub seals: StoredSeals,
}

/// What an archive with so many classes holds.
fn text_of(
    alloc: Global,
    classes: u64,
    figures: &Figures,
    messages: &Messages,
) -> Result<Shown, AllocError>
    ensures { IfOk result (λ text. text ≡ contents_text classes figures.now messages.now) }
{
    let next = u64::from(figures.last) + 1;
    let mut text = Shown::new(alloc);
    put_count(&mut text, "classes ", classes)?;
    let totals = Totals::of(figures, messages);
    put_totals(&mut text, &totals)?;
    put_count(&mut text, "next number ", next)?;
    Ok(text)
}

/// Reads a whole archive, and writes to a sink what it holds: of its records those that are due by a day too. Answers the totals, the
/// seals of its messages, where they are noted, and the sink.
fn contents_to<R: Repository<Fault = StoreFault>, K: Sink + Drop>(
    rt: &HostRuntime,
    archive: &mut R,
    day: Date,
    is_noted: bool,
    sink: K,
) -> Result<(Contents, K), Failure>
    ensures reads { OnlyReads R.clean R.stands archive.old archive.new }
    ensures told { IfOk result (λ ended. IsReadOf R.clean R.stands archive.old archive.new
        (λ a. TakesThese (λ before b es after. TellsContents K.written day is_noted ended.0 before
        b es after) sink a (every_entry a) ended.1)) }
{
    let mut sink = sink;
    let mut counting = Counting {
        rt,
        day,
        figures: Figures::none(),
        messages: Messages::none(rt.alloc(), is_noted),
    };
    read_chosen(rt, archive, &Choice::every(), &mut counting)?;
    let classes = archive.plan().class_count();
    let text = text_of(
        rt.alloc(),
        classes as u64,
        &counting.figures,
        &counting.messages,
    )?;
    sink.write(text.as_str().as_bytes())?;
    let Counting {
        figures,
        messages,
        ..
    } = counting;
    let totals = Totals::of(&figures, &messages);
    let Messages { seals, .. } = messages;
    Ok((Contents { totals, seals }, sink))
}

/// Reads a whole store, and writes to standard output what it holds. Answers the totals, and the seals of its messages where it keeps
/// a history.
pub fn write_contents<S: Alter>(
    rt: &HostRuntime,
    archive: &mut Store<S>,
) -> Result<Contents, Failure> {
    let is_noted = matches!(archive.event_layout(), EventLayout::Present);
    let output = StandardOutput::new(rt);
    let (contents, _) = contents_to(rt, archive, today(rt)?, is_noted, output)?;
    Ok(contents)
}

/// What so many volumes hold together.
fn text_of_volumes(alloc: Global, volumes: u32, totals: &Totals) -> Result<Shown, AllocError>
    ensures { IfOk result (λ text. text ≡ volumes_text volumes totals.now) }
{
    let mut text = Shown::new(alloc);
    put_count(&mut text, "volumes ", u64::from(volumes))?;
    put_totals(&mut text, totals)?;
    Ok(text)
}

/// Writes to standard output what so many volumes hold together.
pub fn write_totals(rt: &HostRuntime, volumes: u32, totals: &Totals) -> Result<(), Failure> {
    write_text(rt, &text_of_volumes(rt.alloc(), volumes, totals)?)
}
