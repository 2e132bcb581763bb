//! What a history makes of an archive, beside what the store has.

ghost use Rattle.std.specs.Prelude.{◌≡◌, ◌↔◌, ◌==◌, ◌&&◌, ◌++◌, ◌∷◌, ℕ, [], List, false, true, IfOk, IsNone, IsTrue, OnOk};
ghost use Rattle.std.specs.Prelude.{Some, if◌then◌else◌, is_some, length, map, option_and_then, option_map, slice_get};
ghost use Rattle.std.specs.BTreeMap.{get};
ghost use Rattle.std.specs.List.{AllByRecursion, list_all, list_any};
ghost use Rattle.std.specs.Ordering.{nat_cmp};
ghost use Rattle.std.specs.Str.{bytes_eq};
ghost use Rattle.record_choice.specs.Entries as plain;
ghost use Rattle.record_choice.specs.Entries.{entry_of, entry_view};
ghost use Rattle.cli_history.specs.Compared.{Begins, Compares, HasMet, IsAsMade, IsAsTold, IsThere, KeepsSeals, has_holds, has_seal_of};
ghost use Rattle.cli_history.specs.Compared.{is_alike, is_message_made, is_same as is_same_as_made, message_made, names_in, record_told};
ghost use Rattle.cli_history.specs.Compared.{row_had, row_told};
ghost use Rattle.cli_history.specs.Made.{IsMadeAt, last_numbered, names_of};
ghost use Rattle.cli_history.specs.Walks.{ForArchive, Looks};
ghost use Rattle.cli_history.specs.declared.comparison.Comparison.{Comparison};

use crate::chosen::is_about;
use crate::differences::{Change, Changes};
use crate::pages::{Entries, Events, event_of};
use crate::plans::is_same_plan;
use crate::stored::StoredSeals;
use choice_words::TypedNumbers;
use class_plan::{Plan, day_number};
use cli_console::{Failure, tell_in, tell_words_in};
use record_judge::{NamedHold, SealedArchive, SealedMessage, SealedRecord};
use record_noted::NotedStore;
use record_store::{EventRow, RecordEntry};
use sqlite::Alter;
use std::alloc::{AllocError, Global};
use std::collections::BTreeMap;
use tool_texts::{Shown, put};

/// How many records are named that differ.
const MAX_NAMED: usize = 20;

/// How much of an archive is compared.
#[derive(Drop)]
pub enum Depth {
    /// The plan, and of each record its row and its holds.
    Rows,
    /// The messages too, by their seals. Those are read whose seals were not made before.
    Messages(StoredSeals),
}

/// How a record differs.
#[derive(Clone, Copy)]
enum Difference {
    /// The history has no such record.
    Untold,
    /// The store has none any more.
    Gone,
    /// Its class, its day, its message, whether it is destroyed, or its holds.
    Changed,
    /// Its message is not that of its seal.
    Unsealed,
}

/// The records that differ, and what is known of messages and holds.
pub struct Comparison<'a> {
    made: &'a SealedArchive,
    /// The seals of the messages that the store has, where they are compared.
    stored: Option<StoredSeals>,
    /// Whether the plan is that of the history.
    is_planned: bool,
    /// The place of each record that was not met yet, by number.
    records: BTreeMap<u32, usize>,
    /// The place of each message, by number.
    messages: BTreeMap<u32, usize>,
    /// The names of the holds on each record.
    held: BTreeMap<u32, Vec<&'a [u8]>>,
    /// The first records that differ.
    found: Vec<(u32, Difference)>,
    /// How many more of them there are.
    more: u64,
    /// What was done that the history does not tell.
    changes: Changes,
}

impl Drop for Comparison<'_> {
    fn drop(self) {
        let Comparison {
            made: _,
            stored: _,
            is_planned: _,
            records: _,
            messages: _,
            held: _,
            found: _,
            more: _,
            changes: _,
        } = self;
    }
}

/// Notes the place of a number.
fn note_place(
    places: &mut BTreeMap<u32, usize>,
    number: u32,
    place: usize,
) -> Result<(), AllocError>
    ensures { OnOk result ((n : ℕ) → get nat_cmp places.new n ≡
        (if n == number then Some place else get nat_cmp places.old n)) }
{
    places.insert(number, place)?;
    Ok(())
}

/// The place of each record by its number. Of several records of a number the last one counts.
fn places_of_records(
    alloc: Global,
    records: &[SealedRecord],
) -> Result<BTreeMap<u32, usize>, AllocError>
    ensures { IfOk result (λ places. (n : ℕ) →
        option_and_then (slice_get records.now) (get nat_cmp places n)
        ≡ last_numbered (λ r. r.number) records.now n) }
{
    let mut places = BTreeMap::new(alloc);
    for place in 0..records.len() {
        note_place(&mut places, records[place].number, place)?;
    }
    Ok(places)
}

/// The place of each message by its number. Of several messages of a number the last one counts.
fn places_of_messages(
    alloc: Global,
    messages: &[SealedMessage],
) -> Result<BTreeMap<u32, usize>, AllocError>
    ensures { IfOk result (λ places. (n : ℕ) →
        option_and_then (slice_get messages.now) (get nat_cmp places n)
        ≡ last_numbered (λ m. m.number) messages.now n) }
{
    let mut places = BTreeMap::new(alloc);
    for place in 0..messages.len() {
        note_place(&mut places, messages[place].number, place)?;
    }
    Ok(places)
}

/// Takes out the names of the holds on a record.
fn take_names<'a>(
    alloc: Global,
    held: &mut BTreeMap<u32, Vec<&'a [u8]>>,
    number: u32,
) -> Vec<&'a [u8]>
    ensures names { result.items ≡ names_in (get nat_cmp held.old number) }
    ensures others { (n : ℕ) → (n == number) ≡ false
        → get nat_cmp held.new n ≡ get nat_cmp held.old n }
{
    match held.remove(&number) {
        Some(names) => names,
        None => Vec::new(alloc),
    }
}

/// Keeps names as those of the holds on a record.
fn keep_names<'a>(
    held: &mut BTreeMap<u32, Vec<&'a [u8]>>,
    number: u32,
    names: Vec<&'a [u8]>,
) -> Result<(), AllocError>
    ensures { OnOk result ((n : ℕ) → get nat_cmp held.new n ≡
        (if n == number then Some names.entry else get nat_cmp held.old n)) }
{
    held.insert(number, names)?;
    Ok(())
}

/// Adds the name of a hold to those on its record.
fn add_name<'a>(
    alloc: Global,
    held: &mut BTreeMap<u32, Vec<&'a [u8]>>,
    hold: &'a NamedHold,
) -> Result<(), AllocError>
    ensures { OnOk result ((n : ℕ) → map (λ name. name.now) (names_in (get nat_cmp held.new n)) ≡
        (if n == hold.now.number
        then map (λ name. name.now) (names_in (get nat_cmp held.old n)) ++ hold.now.name.items ∷ []
        else map (λ name. name.now) (names_in (get nat_cmp held.old n)))) }
{
    let mut names = take_names(alloc, held, hold.number);
    names.push(hold.name.as_slice())?;
    keep_names(held, hold.number, names)
}

/// The names of the holds on each record.
fn holds_of<'a>(
    alloc: Global,
    holds: &'a [NamedHold],
) -> Result<BTreeMap<u32, Vec<&'a [u8]>>, AllocError>
    ensures { IfOk result (λ held. (n : ℕ) →
        map (λ name. name.now) (names_in (get nat_cmp held n)) ≡ names_of holds.now n) }
{
    let mut held = BTreeMap::new(alloc);
    for hold in holds {
        add_name(alloc, &mut held, hold)?;
    }
    Ok(held)
}

/// Whether a name is among these.
fn is_among(names: &[&[u8]], hold: &[u8]) -> bool
    ensures { result ≡ list_any (λ n. bytes_eq hold.now n.now) names.now }
{
    names.iter().any(|name| hold == *name)
}

/// Whether one of these holds has a name.
fn has_hold(holds: &[Vec<u8>], name: &[u8]) -> bool
    ensures { result ≡ list_any (λ h. bytes_eq h.items name.now) holds.now }
{
    holds.iter().any(|hold| hold.as_slice() == name)
}

/// Whether each of these holds has a name that is among those.
fn are_all_among(holds: &[Vec<u8>], names: &[&[u8]]) -> bool
    ensures { result ≡
        list_all (λ h. list_any (λ n. bytes_eq h.items n.now) names.now) holds.now }
{
    holds.iter().all(|hold| is_among(names, hold.as_slice()))
}

/// Whether the holds on a record, each of which has another name, have the names of a history.
fn are_holds(holds: &[Vec<u8>], names: &[&[u8]]) -> bool
    ensures { result ≡ (length holds.now == length names.now)
        && list_all (λ h. list_any (λ n. bytes_eq h.items n.now) names.now) holds.now }
{
    if holds.len() != names.len() {
        return false;
    }
    are_all_among(holds, names)
}

/// Whether an entry is that of a record, but for its holds.
fn is_record(entry: &RecordEntry, record: &SealedRecord) -> bool
    ensures { IsTrue result ↔ (row_had entry.now ≡ row_told record.now) }
{
    entry.message == record.message
        && entry.path.as_slice() == record.path.as_slice()
        && day_number(entry.day) == i64::from(record.day)
        && entry.destroyed == record.destroyed
}

/// How an entry differs from a record and its holds, as a history tells them; not at all exactly where it is told, with this
/// message, class and day, as live or as destroyed, and with holds of these names and no others.
fn compared(entry: &RecordEntry, told: Option<&SealedRecord>, names: &[&[u8]]) -> Option<Difference>
    ensures { IsNone result ↔ IsAsTold (option_map (λ r. r.now) told.entry) entry.now
        (has_holds entry.now names.now) }
{
    match told {
        None => Some(Difference::Untold),
        Some(record) if is_record(entry, record) && are_holds(entry.holds.as_slice(), names) => {
            None
        }
        Some(_) => Some(Difference::Changed),
    }
}

/// Adds the holds of a record that the history tells, and that have ended.
fn add_ended(
    changes: &mut Changes,
    names: &[&[u8]],
    entry: &RecordEntry,
) -> Result<(), AllocError> {
    for name in names {
        if !has_hold(entry.holds.as_slice(), name) {
            changes.add_ended_hold(name, entry.number)?;
        }
    }
    Ok(())
}

/// Adds the holds of a record that the history does not tell.
fn add_placed(
    changes: &mut Changes,
    names: &[&[u8]],
    entry: &RecordEntry,
) -> Result<(), AllocError> {
    for hold in &entry.holds {
        if !is_among(names, hold.as_slice()) {
            changes.add_placed_hold(hold.as_slice(), entry.number)?;
        }
    }
    Ok(())
}

/// Adds what was done to a record beside its holds, by what the history tells of it.
fn add_row(
    changes: &mut Changes,
    entry: &RecordEntry,
    told: Option<&SealedRecord>,
) -> Result<(), AllocError> {
    let number = entry.number;
    let Some(record) = told else {
        changes.add(Change::Captured(number))?;
        if entry.destroyed {
            changes.add(Change::Destroyed(number))?;
        }
        return Ok(());
    };
    if is_record(entry, record) {
        return Ok(());
    }
    changes.add(if entry.destroyed && !record.destroyed {
        Change::Destroyed(number)
    } else {
        Change::Changed(number)
    })
}

impl<'a> Comparison<'a> {
    fn new(
        alloc: Global,
        made: &'a SealedArchive,
        plan: &Plan,
        depth: Depth,
    ) -> Result<Comparison<'a>, AllocError>
        ensures { IfOk result (Begins made.now plan.now depth) }
    {
        let is_planned = is_same_plan(alloc, made.plan(), plan)?;
        let mut changes = Changes::none(alloc);
        if !is_planned {
            changes.add(Change::PlanReplaced)?;
        }
        Ok(Comparison {
            made,
            stored: match depth {
                Depth::Rows => None,
                Depth::Messages(stored) => Some(stored),
            },
            is_planned,
            records: places_of_records(alloc, made.records())?,
            messages: places_of_messages(alloc, made.messages())?,
            held: holds_of(alloc, made.holds())?,
            found: Vec::new(alloc),
            more: 0,
            changes,
        })
    }

    /// Notes a record that differs.
    fn note(&mut self, number: u32, difference: Difference) -> Result<(), AllocError>
        ensures rest { self.new ≡ record self.old { found = self.new.found; more = self.new.more } }
        ensures noted { OnOk result (is_alike self.new ≡ false) }
    {
        if self.found.len() < MAX_NAMED {
            self.found.push((number, difference))?;
        } else {
            self.more = self.more.saturating_add(1);
        }
        Ok(())
    }

    /// The record of a number that the history makes, if it makes one that was not met yet.
    fn told(&self, number: u32) -> Option<&'a SealedRecord>
        ensures { option_map (λ r. r.now) result ≡ record_told self.now number }
    {
        match self.records.get(&number) {
            Some(place) => self.made.records().get(*place),
            None => None,
        }
    }

    /// How an entry differs from the record that the history makes, its message left aside.
    fn difference_of(&self, entry: &RecordEntry) -> Option<Difference>
        ensures { IsNone result ↔ IsAsMade self.now entry.now }
    {
        let told = self.told(entry.number);
        match self.held.get(&entry.number) {
            Some(names) => compared(entry, told, names.as_slice()),
            None => compared(entry, told, &[]),
        }
    }

    /// Adds what was done to a record that is not as the history tells.
    fn add_changes(&mut self, entry: &RecordEntry) -> Result<(), AllocError>
        ensures { self.new ≡ record self.old { changes = self.new.changes } }
    {
        let told = self.told(entry.number);
        add_row(&mut self.changes, entry, told)?;
        match self.held.get(&entry.number) {
            Some(names) => {
                add_ended(&mut self.changes, names.as_slice(), entry)?;
                add_placed(&mut self.changes, names.as_slice(), entry)
            }
            None => add_placed(&mut self.changes, &[], entry),
        }
    }

    /// The message of a number that the history tells, if it tells one.
    fn told_message(&self, number: u32) -> Option<&'a SealedMessage>
        ensures { option_map (λ m. m.now) result ≡ message_made self.now number }
    {
        match self.messages.get(&number) {
            Some(place) => self.made.messages().get(*place),
            None => None,
        }
    }

    /// Whether a message is that of its seal, which the history tells.
    fn is_sealed(&self, stored: &StoredSeals, message: u32) -> bool
        ensures { result ≡ has_seal_of (message_made self.now message) (Some stored.now) message }
    {
        match self.told_message(message) {
            Some(told) => stored.is_sealed_by(message, &told.seal),
            None => false,
        }
    }

    /// Makes the seal of the message of a live record, where messages are compared and it was not made before.
    fn make_seal<S: Alter>(
        &mut self,
        rt: &HostRuntime,
        noted: &mut NotedStore<S>,
        entry: &RecordEntry,
    ) -> Result<(), Failure>
        ensures looks { Looks S.Store noted.old noted.new }
        ensures rest { self.new ≡ record self.old { stored = self.new.stored } }
        ensures depth { is_some self.new.stored ≡ is_some self.old.stored }
        ensures seals { OnOk result (ForArchive S.Store noted.old noted.new (λ a ls.
            IsThere a (entry_view entry.now) → KeepsSeals a self.old.stored self.new.stored)) }
    {
        let Some(stored) = &mut self.stored else {
            return Ok(());
        };
        if entry.destroyed || stored.has(entry.message) {
            return Ok(());
        }
        let body = match noted.message(entry.number) {
            Ok(body) => body,
            Err(fault) => return Err(Failure::of_store(rt.alloc(), "the store", fault)),
        };
        Ok(stored.note(rt.alloc(), entry.message, body.as_slice())?)
    }

    /// Whether the message of a record is that of its seal, if it is compared: its record is live.
    fn is_message_sealed(&self, entry: &RecordEntry) -> bool
        ensures { result ≡ is_message_made self.now entry.now }
    {
        match &self.stored {
            Some(stored) if !entry.destroyed => self.is_sealed(stored, entry.message),
            _ => true,
        }
    }

    /// Compares a record.
    fn compare_record<S: Alter>(
        &mut self,
        rt: &HostRuntime,
        noted: &mut NotedStore<S>,
        entry: &RecordEntry,
    ) -> Result<(), Failure>
        ensures looks { Looks S.Store noted.old noted.new }
        ensures compares { OnOk result (Compares entry.now self.old self.new) }
        ensures seals { OnOk result (ForArchive S.Store noted.old noted.new (λ a ls.
            IsThere a (entry_view entry.now) → KeepsSeals a self.old.stored self.new.stored)) }
    {
        let difference = self.difference_of(entry);
        if let Some(difference) = difference {
            self.add_changes(entry)?;
            self.records.remove(&entry.number);
            return Ok(self.note(entry.number, difference)?);
        }
        self.records.remove(&entry.number);
        self.make_seal(rt, noted, entry)?;
        if !self.is_message_sealed(entry) {
            self.note(entry.number, Difference::Unsealed)?;
        }
        Ok(())
    }

    /// Compares the records of a page.
    fn compare_page<S: Alter>(
        &mut self,
        rt: &HostRuntime,
        noted: &mut NotedStore<S>,
        page: &[RecordEntry],
    ) -> Result<(), Failure>
        ensures looks { Looks S.Store noted.old noted.new }
        ensures met { OnOk result (ForArchive S.Store noted.old noted.new (λ a ls.
            AllByRecursion (IsThere a) (map entry_view page.now)
            → (first : Comparison) → (met : List plain.RecordEntry) → HasMet a first self.old met
            → HasMet a first self.new (met ++ map entry_view page.now))) }
    {
        for entry in page {
            self.compare_record(rt, noted, entry)?;
        }
        Ok(())
    }

    /// Compares all records of the store.
    fn compare_all<S: Alter>(
        &mut self,
        rt: &HostRuntime,
        noted: &mut NotedStore<S>,
    ) -> Result<(), Failure>
        ensures looks { Looks S.Store noted.old noted.new }
        ensures met { OnOk result (ForArchive S.Store noted.old noted.new (λ a ls.
            HasMet a self.old self.new (map (entry_of a) a.records))) }
    {
        let mut entries = Entries::all();
        for _ in 0..u64::MAX {
            let Some(page) = entries.next_page(rt, noted)? else {
                return Ok(());
            };
            self.compare_page(rt, noted, page.as_slice())?;
        }
        Ok(())
    }

    /// The numbers of the records that were not met.
    fn numbers_left(&self, alloc: Global) -> Result<Vec<u32>, AllocError> {
        let mut numbers = Vec::new(alloc);
        for number in self.records.keys() {
            numbers.push(*number)?;
        }
        Ok(numbers)
    }

    /// Notes that the store has a record no more.
    fn note_gone(&mut self, number: u32) -> Result<(), AllocError>
        ensures rest { self.new ≡ record self.old
            { found = self.new.found; more = self.new.more; changes = self.new.changes } }
        ensures noted { OnOk result (is_alike self.new ≡ false) }
    {
        self.note(number, Difference::Gone)?;
        self.changes.add(Change::Gone(number))
    }

    /// Notes the records that the store has no more.
    fn note_all_gone(&mut self, alloc: Global) -> Result<(), AllocError>
        ensures rest { self.new ≡ record self.old
            { found = self.new.found; more = self.new.more; changes = self.new.changes } }
        ensures noted { OnOk result (is_alike self.new ≡ true → is_alike self.old ≡ true) }
    {
        let gone = self.numbers_left(alloc)?;
        for number in &gone {
            self.note_gone(*number)?;
        }
        Ok(())
    }

    /// Whether nothing differs: the plan, no record, and no record of the history is left.
    pub fn is_same(&self) -> bool
        ensures { result ≡ is_same_as_made self.now }
    {
        self.is_planned && self.found.is_empty() && self.records.is_empty()
    }

    /// What was done that the history does not tell. Messages are left aside.
    pub fn into_changes(self) -> Changes
        ensures { result ≡ self.entry.changes }
    {
        let Comparison {
            made: _,
            stored: _,
            is_planned: _,
            records: _,
            messages: _,
            held: _,
            found: _,
            more: _,
            changes: done,
        } = self;
        done
    }
}

/// The last event of a page that is about a record, or the one from before.
fn last_about(alloc: Global, page: &[EventRow], number: u32, before: Option<u32>) -> Option<u32> {
    let typed = [TypedNumbers::One(number)];
    let mut last = before;
    for row in page {
        if let Ok(event) = event_of(alloc, row) {
            if is_about(&typed, &event.deed) {
                last = Some(row.number);
            }
        }
    }
    last
}

/// The last event that is about a record.
fn last_event_about<S: Alter>(
    rt: &HostRuntime,
    noted: &mut NotedStore<S>,
    number: u32,
) -> Result<Option<u32>, Failure>
    ensures { Looks S.Store noted.old noted.new }
{
    let mut last = None;
    let mut events = Events::all();
    for _ in 0..u64::MAX {
        let Some(page) = events.next_page(rt, noted)? else {
            break;
        };
        last = last_about(rt.alloc(), page.as_slice(), number, last);
    }
    Ok(last)
}

/// How a record differs, in words, and since which event.
fn difference_line(
    alloc: Global,
    number: u32,
    difference: Difference,
    since: Option<u32>,
) -> Result<Shown, AllocError> {
    let mut line = Shown::new(alloc);
    put!(line; "record " value(&number) ": ")?;
    line.words(match difference {
        Difference::Untold => "no event tells of it",
        Difference::Gone => "the store has it no more",
        Difference::Changed => "it is not as the history tells",
        Difference::Unsealed => "its message is not the one that was captured",
    })?;
    if let Some(event) = since {
        put!(line; "; the last event about it is " value(&event))?;
    }
    Ok(line)
}

/// Tells whether the plan differs, and which records do.
pub fn tell_differences<S: Alter>(
    rt: &HostRuntime,
    noted: &mut NotedStore<S>,
    volume: Option<u32>,
    comparison: &Comparison<'_>,
) -> Result<(), Failure>
    ensures { Looks S.Store noted.old noted.new }
{
    if !comparison.is_planned {
        tell_words_in(rt, volume, "the plan is not that of the history");
    }
    for (number, difference) in &comparison.found {
        let since = last_event_about(rt, noted, *number)?;
        let line = difference_line(rt.alloc(), *number, *difference, since)?;
        tell_in(rt, volume, &line);
    }
    if comparison.more > 0 {
        let mut line = Shown::new(rt.alloc());
        put!(line; "and " value(&comparison.more) " more")?;
        tell_in(rt, volume, &line);
    }
    Ok(())
}

/// Compares what a history makes of an archive with what the store has. Where nothing differs then, the store has the archive
/// that the history makes, and nothing else. A failure is that of the store.
pub fn compare<'a, S: Alter>(
    rt: &HostRuntime,
    noted: &mut NotedStore<S>,
    made: &'a SealedArchive,
    depth: Depth,
) -> Result<Comparison<'a>, Failure>
    ensures looks { Looks S.Store noted.old noted.new }
    ensures same { IfOk result (λ c. is_same_as_made c ≡ true
        → ForArchive S.Store noted.old noted.new (λ a ls. IsMadeAt depth made.now a)) }
{
    let mut comparison = Comparison::new(rt.alloc(), made, noted.plan(), depth)?;
    comparison.compare_all(rt, noted)?;
    comparison.note_all_gone(rt.alloc())?;
    Ok(comparison)
}
