//! The seals of messages, by which one that was altered in the file is known. The titles of classes are kept beside them, since
//! one walk over the events finds both.

ghost use Rattle.std.specs.Prelude.{◌≡◌, ◌==◌, ◌++◌, ℕ, None, Some, Option, List, [], map, true, false, IfOk, OnOk, if◌then◌else◌, option_map, position};
ghost use Rattle.sqlite.specs.State.{HasCleanDisk};
ghost use Rattle.sqlite.specs.Held.{state};
ghost use Rattle.record_tables.specs.Events.{Event as Row};
ghost use Rattle.record_reads.specs.Events.{event_of as row_of};
ghost use Rattle.record_archive.specs.Archive.{Archive};
ghost use Rattle.record_history.specs.Events.{Event as PlainEvent};
ghost use Rattle.record_history.specs.Replay.{seal as seal_of_octets};
ghost use Rattle.record_history.specs.Titles.{last_title, title_given};
ghost use Rattle.record_history.specs.Views.{deed_view, seal_view};
ghost use Rattle.cli_history.specs.OneSeal.{AreBeginnings, IsEnoughFor, IsSealIn, TakesSeal, TellsNoSeal, begins_for, behind_blank};
ghost use Rattle.cli_history.specs.Seals.{fidelity as fidelity_to, is_seal, known, later, length_and_sum as length_and_sum_of, sealed_by};
ghost use Rattle.record_noted.specs.Histories.{rows_of};
ghost use Rattle.record_store.specs.Stores.{StandsFor};
ghost use Rattle.cli_history.specs.Tellings.{AreTold, TakesRow, TellsRow, is_present};
ghost use Rattle.cli_history.specs.Titles.{Path, title_of};
ghost use Rattle.cli_history.specs.Walks.{Glances, HasLines, KeepsLinesIn};

use crate::pages::Events;
use crate::titles::Titles;
use cli_console::Failure;
use record_history::{Deed, Event, LineFault, Seal, lines_have_one_reading, read_line, seal_of};
use record_store::{EventLayout, EventRow, Store};
use sqlite::Alter;
use std::alloc::{AllocError, Global};
use std::collections::BTreeMap;
use tool_texts::{Shown, put};

/// A seal, and the event that tells it.
#[derive(Drop)]
pub struct Told {
    seal: Seal,
    event: u32,
}

/// The seals of messages, as the events of a history tell them. Of several events about one message the last one counts.
pub struct Seals {
    /// By the numbers of messages.
    told: BTreeMap<u32, Told>,
    titles: Titles,
}

impl Drop for Seals {
    fn drop(self) {
        let Seals { told: _, titles: _ } = self;
    }
}

/// What a message is, beside the one that was captured.
#[derive(Clone, Copy)]
pub enum Fidelity {
    /// No seal of it is known.
    Unsealed,
    /// It has the length and the SHA-256 of its seal.
    Same,
    /// It has not, and the event of this number tells the seal.
    Altered(u32),
}

/// The deed of an event; none where its line cannot be read, or is that of another number. The only refusal is no memory.
pub(crate) fn deed_of(alloc: Global, row: &EventRow) -> Result<Option<Deed<'_>>, AllocError>
    ensures { IfOk result (λ deed. (told : Option PlainEvent) × TellsRow (row_of row.now) told
        × (option_map deed_view deed ≡ option_map (λ e. e.deed) told)) }
{
    let own = u64::from(row.number);
    let (number, event) = match read_line(alloc, row.line.as_slice()) {
        Ok(read) => read,
        Err(LineFault::NotALine) => return Ok(None),
        Err(LineFault::NoMemory) => return Err(AllocError),
    };
    if number != own {
        return Ok(None);
    }
    let Event { deed, .. } = event;
    Ok(Some(deed))
}

/// How the deeds begin that tell the seal of one message.
struct Beginnings {
    captured: String,
    found: String,
}

impl Drop for Beginnings {
    fn drop(self) {
        let Beginnings {
            captured: _,
            found: _,
        } = self;
    }
}

/// Where the first blank of a text stands, if there is one.
fn blank_in(text: &[u8]) -> Option<usize>
    ensures { result ≡ position (λ o. o == 32) text.now }
{
    text.iter().position(|octet| *octet == b' ')
}

/// What follows the first blank of a text; nothing where there is none.
pub(crate) fn after_blank(text: &[u8]) -> &[u8]
    ensures { result.now ≡ behind_blank text.now }
{
    match blank_in(text) {
        Some(blank) => &text[blank + 1..],
        None => b"",
    }
}

impl Beginnings {
    /// Those of the deeds that tell the seal of the message with a number.
    fn of(alloc: Global, message: u32) -> Result<Beginnings, AllocError>
        ensures { IfOk result (AreBeginnings message) }
    {
        Ok(Beginnings {
            captured: format!(in alloc; "captured {message} ")?,
            found: format!(in alloc; "found message {message} ")?,
        })
    }

    /// Whether the line of an event can tell that seal: by what follows the number of the event, its moment and who did it.
    fn are_those_of(&self, line: &[u8]) -> bool
        ensures { result ≡ begins_for self.now line.now }
    {
        let deed = after_blank(after_blank(after_blank(line)));
        deed.starts_with(self.captured.as_bytes()) || deed.starts_with(self.found.as_bytes())
    }
}

impl Seals {
    /// No seal of any message and no title of a class, as of a store without a history.
    pub fn none(alloc: Global) -> Seals
        ensures seals { (n : ℕ) → known result n ≡ None }
        ensures titles { (p : Path) → title_of result.titles p ≡ None }
    {
        Seals {
            told: BTreeMap::new(alloc),
            titles: Titles::none(alloc),
        }
    }

    /// The titles of classes, as the same events tell them.
    pub fn titles(&self) -> &Titles
        ensures { result.now ≡ self.now.titles }
    {
        &self.titles
    }

    /// What a message of so many octets with this SHA-256, in hexadecimal digits, is beside the one that was captured under its
    /// number: the same where a seal is known and has this length and this sum, and altered where a seal is known and has not.
    pub fn fidelity(&self, message: u32, octets: u64, sum: &[u8]) -> Fidelity
        ensures { result ≡ fidelity_to (known self.now message)
            (record { octets = octets; sum = sum.now }) }
    {
        match self.told.get(&message) {
            Some(told) if is_seal_of(&told.seal, octets, sum) => Fidelity::Same,
            Some(told) => Fidelity::Altered(told.event),
            None => Fidelity::Unsealed,
        }
    }

    /// What the octets of a message are, beside those that were captured under its number. The only refusal is no memory.
    pub fn is_captured(
        &self,
        alloc: Global,
        message: u32,
        body: &[u8],
    ) -> Result<Fidelity, AllocError>
        ensures { IfOk result (λ f. f ≡
            fidelity_to (known self.now message) (seal_of_octets body.now)) }
    {
        if !self.told.contains_key(&message) {
            return Ok(Fidelity::Unsealed);
        }
        let seal = seal_of(alloc, body)?;
        Ok(self.fidelity(message, seal.octets, seal.sum.as_slice()))
    }

    /// How many octets the message of a number had as it was captured, and its SHA-256 as an event tells it; none where no
    /// seal of it is known.
    pub fn length_and_sum(&self, message: u32) -> Option<(u64, &[u8])>
        ensures { option_map (λ x. (x.0, x.1.now)) result ≡
            option_map length_and_sum_of (known self.now message) }
    {
        match self.told.get(&message) {
            Some(told) => Some((told.seal.octets, told.seal.sum.as_slice())),
            None => None,
        }
    }

    /// Notes the seal of a message. The only refusal is no memory.
    fn note(&mut self, message: u32, seal: Seal, event: u32) -> Result<(), AllocError>
        ensures seal { OnOk result ((n : ℕ) → known self.new n ≡
            (if n == message then Some (seal_view seal, event) else known self.old n)) }
        ensures titles { OnOk result (self.new.titles ≡ self.old.titles) }
    {
        match self.told.insert(message, Told { seal, event }) {
            Ok(_) => Ok(()),
            Err(_) => Err(AllocError),
        }
    }

    /// Notes the seal that a deed tells, if it tells one. The only refusal is no memory.
    fn take_seal(&mut self, event: u32, deed: Deed<'_>) -> Result<(), AllocError>
        ensures seal { OnOk result ((n : ℕ) → known self.new n ≡
            later (sealed_by event (deed_view deed.entry) n) (known self.old n)) }
        ensures titles { OnOk result (self.new.titles ≡ self.old.titles) }
    {
        match deed {
            Deed::Captured { first, seal, .. } => self.note(first, seal, event),
            Deed::FoundMessage { number, seal } => self.note(number, seal, event),
            _ => Ok(()),
        }
    }

    /// Notes the title that a deed gives a class, if it gives one. The only refusal is no memory.
    fn take_title(&mut self, deed: &Deed<'_>) -> Result<(), AllocError>
        ensures seals { OnOk result ((n : ℕ) → known self.new n ≡ known self.old n) }
        ensures titles { OnOk result ((p : Path) → title_of self.new.titles p ≡
            last_title (title_of self.old.titles p) (title_given p.items (deed_view deed.now))) }
    {
        self.titles.take(deed)
    }

    /// Notes the seal or the title that the deed of an event tells. The only refusal is no memory.
    pub(crate) fn take(&mut self, event: u32, deed: Deed<'_>) -> Result<(), AllocError>
        ensures seal { OnOk result ((n : ℕ) → known self.new n ≡
            later (sealed_by event (deed_view deed.entry) n) (known self.old n)) }
        ensures titles { OnOk result ((p : Path) → title_of self.new.titles p ≡
            last_title (title_of self.old.titles p)
            (title_given p.items (deed_view deed.entry))) }
    {
        self.take_title(&deed)?;
        self.take_seal(event, deed)
    }

    /// Notes what an event tells. The only refusal is no memory.
    fn take_row(&mut self, alloc: Global, row: &EventRow) -> Result<(), AllocError>
        ensures takes { OnOk result (TakesRow (row_of row.now) self.old self.new) }
        ensures seal { (message : ℕ) →
            OnOk result (TakesSeal message (row_of row.now) self.old self.new) }
    {
        lines_have_one_reading();
        let told = deed_of(alloc, row)?;
        match told {
            Some(deed) => Ok(self.take(row.number, deed)?),
            None => Ok(()),
        }
    }

    /// The same of an event that is asked for.
    fn take_asked(
        &mut self,
        alloc: Global,
        row: &EventRow,
        only: Option<&Beginnings>,
    ) -> Result<(), AllocError>
        ensures takes { only.entry ≡ None →
            OnOk result (TakesRow (row_of row.now) self.old self.new) }
        ensures seal { (message : ℕ) → IsEnoughFor message only.entry →
            OnOk result (TakesSeal message (row_of row.now) self.old self.new) }
    {
        if is_asked(only, row) {
            return self.take_row(alloc, row);
        }
        Ok(())
    }

    /// Notes what the events of a page tell: all of them, or those whose deeds begin so.
    fn take_page(
        &mut self,
        alloc: Global,
        page: &[EventRow],
        only: Option<&Beginnings>,
    ) -> Result<(), AllocError>
        ensures told { only.entry ≡ None → (rows : List Row) → AreTold self.old rows
            → OnOk result (AreTold self.new (rows ++ map row_of page.now)) }
        ensures seal { (message : ℕ) → IsEnoughFor message only.entry → (rows : List Row)
            → IsSealIn message self.old rows
            → OnOk result (IsSealIn message self.new (rows ++ map row_of page.now)) }
    {
        for row in page {
            self.take_asked(alloc, row, only)?;
        }
        Ok(())
    }

    /// Notes what the events of a history tell, a page at a time.
    fn take_all<S: Alter>(
        &mut self,
        rt: &HostRuntime,
        archive: &mut Store<S>,
        only: Option<&Beginnings>,
    ) -> Result<(), Failure>
        ensures glances { Glances S.Store archive.old archive.new }
        ensures told { only.entry ≡ None → AreTold self.old [] →
            HasCleanDisk (state S.Store archive.new.conn) → (a : Archive) → (ls : List (List ℕ))
            → StandsFor S.Store archive.old a → HasLines S.Store archive.old ls
            → OnOk result (AreTold self.new (rows_of ls)) }
        ensures seal { (message : ℕ) → IsEnoughFor message only.entry →
            IsSealIn message self.old [] → HasCleanDisk (state S.Store archive.new.conn) →
            (a : Archive) → (ls : List (List ℕ)) → StandsFor S.Store archive.old a →
            HasLines S.Store archive.old ls →
            OnOk result (IsSealIn message self.new (rows_of ls)) }
    {
        let mut events = Events::all();
        for _ in 0..u64::MAX {
            let Some(page) = events.next_page_of(rt, archive)? else {
                return Ok(());
            };
            self.take_page(rt.alloc(), page.as_slice(), only)?;
        }
        Ok(())
    }

    /// What the history of a store tells, by all events or by those whose deeds begin so.
    fn read<S: Alter>(
        rt: &HostRuntime,
        archive: &mut Store<S>,
        only: Option<&Beginnings>,
    ) -> Result<Seals, Failure>
        ensures glances { Glances S.Store archive.old archive.new }
        ensures told { only.entry ≡ None → HasCleanDisk (state S.Store archive.new.conn)
            → (a : Archive) → (ls : List (List ℕ)) → StandsFor S.Store archive.old a
            → KeepsLinesIn S.Store archive.old ls → IfOk result (λ s. AreTold s (rows_of ls)) }
        ensures seal { (message : ℕ) → IsEnoughFor message only.entry →
            HasCleanDisk (state S.Store archive.new.conn) → (a : Archive) →
            (ls : List (List ℕ)) → StandsFor S.Store archive.old a →
            KeepsLinesIn S.Store archive.old ls →
            IfOk result (λ s. IsSealIn message s (rows_of ls)) }
    {
        let mut seals = Seals::none(rt.alloc());
        if !has_events(archive.event_layout()) {
            return Ok(seals);
        }
        seals.take_all(rt, archive, only)?;
        Ok(seals)
    }

    /// The seals and titles that the history of a store tells, by all of its events, of which there are at most 4,294,967,294;
    /// none where the store keeps no history. An event whose line cannot be read tells none. A failure is that of the store.
    pub fn of<S: Alter>(rt: &HostRuntime, archive: &mut Store<S>) -> Result<Seals, Failure>
        ensures glances { Glances S.Store archive.old archive.new }
        ensures told { HasCleanDisk (state S.Store archive.new.conn) → (a : Archive)
            → (ls : List (List ℕ)) → StandsFor S.Store archive.old a
            → KeepsLinesIn S.Store archive.old ls → IfOk result (λ s. AreTold s (rows_of ls)) }
    {
        Seals::read(rt, archive, None)
    }

    /// The same, of one message alone and without titles: the seal that the history tells of it last, if it tells one.
    pub fn of_message<S: Alter>(
        rt: &HostRuntime,
        archive: &mut Store<S>,
        message: u32,
    ) -> Result<Seals, Failure>
        ensures glances { Glances S.Store archive.old archive.new }
        ensures seal { HasCleanDisk (state S.Store archive.new.conn) → (a : Archive)
            → (ls : List (List ℕ)) → StandsFor S.Store archive.old a
            → KeepsLinesIn S.Store archive.old ls
            → IfOk result (λ s. IsSealIn message s (rows_of ls)) }
    {
        let deeds = Beginnings::of(rt.alloc(), message)?;
        Seals::read(rt, archive, Some(&deeds))
    }
}

/// Whether there is a table of events.
fn has_events(layout: EventLayout) -> bool
    ensures { result ≡ is_present layout }
{
    matches!(layout, EventLayout::Present)
}

/// Whether an event is asked for: any event, or one whose deed begins so.
fn is_asked(only: Option<&Beginnings>, row: &EventRow) -> bool
    ensures all { only.entry ≡ None → result ≡ true }
    ensures passed { (message : ℕ) → IsEnoughFor message only.entry → result ≡ false
        → TellsNoSeal message (row_of row.now) }
{
    let _number = row.number;
    match only {
        Some(deeds) => deeds.are_those_of(row.line.as_slice()),
        None => true,
    }
}

/// Whether a seal is that of a message of so many octets with this sum.
fn is_seal_of(seal: &Seal, octets: u64, sum: &[u8]) -> bool
    ensures { result ≡ is_seal (seal_view seal.now) (record { octets = octets; sum = sum.now }) }
{
    seal.octets == octets && seal.sum.as_slice() == sum
}

/// That the message of a record is not the one whose seal an event tells.
pub fn altered_words(alloc: Global, record: u32, event: u32) -> Result<Shown, AllocError> {
    let mut words = Shown::new(alloc);
    put!(words; "record " value(&record) ": its message is not the one that was captured (event "
        value(&event) ")")?;
    Ok(words)
}
