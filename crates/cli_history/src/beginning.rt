//! What is there in a store, as it is noted: the first events of a history, and what another program has left.

ghost use Rattle.std.specs.Prelude.{◌≡◌, true, IfOk, OnOk};
ghost use Rattle.std.specs.List.{list_all};
ghost use Rattle.session_words.specs.Words.{is_name as is_name_of};
ghost use Rattle.record_history.specs.Spelled.{IsMoment, IsSpelledDeed};
ghost use Rattle.record_history.specs.Views.{deed_view};
ghost use Rattle.record_ledger.specs.Notes.{TellsOf};

use crate::author::Author;
use crate::opening::occasion_by;
use cli_console::{Failure, Status, Walk, message_of, now};
use record_choice::Choice;
use record_history::{Deed, Event, LAST_MOMENT, Seal, event_line};
use record_judge::SealedArchive;
use record_ledger::Occasion;
use record_noted::NotedStore;
use record_store::{RecordEntry, Store};
use session_words::is_name;
use sqlite::Alter;
use std::alloc::{AllocError, Global};
use std::collections::{BTreeMap, BTreeSet};
use tool_texts::{Shown, put};

/// The seals that a history has of messages.
pub struct Known<'a> {
    seals: BTreeMap<u32, &'a Seal>,
}

impl Drop for Known<'_> {
    fn drop(self) {
        let Known { seals: _ } = self;
    }
}

impl<'a> Known<'a> {
    /// None, where a history begins.
    fn none(alloc: Global) -> Known<'a> {
        Known {
            seals: BTreeMap::new(alloc),
        }
    }

    /// Those of what a history makes.
    pub fn of(alloc: Global, made: &'a SealedArchive) -> Result<Known<'a>, AllocError> {
        let mut known = Known::none(alloc);
        for message in made.messages() {
            known.seals.insert(message.number, &message.seal)?;
        }
        Ok(known)
    }

    /// The seal of a message, where it is known.
    fn seal(&self, message: u32) -> Result<Option<Seal>, AllocError> {
        match self.seals.get(&message) {
            Some(seal) => Ok(Some(Seal {
                octets: seal.octets,
                sum: seal.sum.clone()?,
            })),
            None => Ok(None),
        }
    }
}

/// The moment of the clock, at most the last one that a line can have. `TryAgain` where there is no clock.
fn moment_now(rt: &HostRuntime) -> Result<u64, Failure>
    ensures { IfOk result (λ m. IsMoment m) }
{
    Ok(now(rt)?.min(LAST_MOMENT))
}

/// The line of the event of a deed, on an occasion, at the moment of the clock. `TryAgain` where there is no clock.
pub fn line_now(
    rt: &HostRuntime,
    occasion: &Occasion<'_, HostRuntime>,
    number: u32,
    deed: Deed<'_>,
) -> Result<Vec<u8>, Failure>
    requires { IsSpelledDeed (deed_view deed) }
    ensures { IfOk result (λ v. TellsOf occasion.now number (deed_view deed.entry) v.items) }
{
    let moment = moment_now(rt)?;
    let event = Event {
        moment,
        who: occasion.who,
        deed,
        notes: occasion.notes,
        reason: occasion.reason,
    };
    Ok(event_line(rt.alloc(), u64::from(number), &event)?)
}

/// Whether the name of each of some holds is one, so that the line of an event can tell it.
fn are_named(holds: &[Vec<u8>]) -> bool
    ensures { result ≡ list_all (λ h. is_name_of h.items) holds.now }
{
    holds.iter().all(|hold| is_name(hold.as_slice()))
}

/// That a hold on a record has a name that is none.
fn unnamed_words(alloc: Global, record: u32) -> Result<Shown, AllocError> {
    let mut words = Shown::new(alloc);
    put!(words; "record " value(&record)
        ": the name of a hold on it is no name, so no event can tell of it")?;
    Ok(words)
}

/// The lines of what is found, in the order in which they are to be noted.
#[derive(Drop)]
struct Findings<'k, 's> {
    /// The number of the first of these events.
    first: u32,
    lines: Vec<Vec<u8>>,
    known: &'k Known<'s>,
    /// The messages that were found.
    messages: BTreeSet<u32>,
}

impl<'k, 's> Findings<'k, 's> {
    fn new(alloc: Global, first: u32, known: &'k Known<'s>) -> Findings<'k, 's> {
        Findings {
            first,
            lines: Vec::new(alloc),
            known,
            messages: BTreeSet::new(alloc),
        }
    }

    /// The number of the next event.
    fn next(&self) -> u32 {
        let count = u32::try_from(self.lines.len()).unwrap_or(u32::MAX);
        self.first.saturating_add(count)
    }

    /// The line of the message of a live record: by the seal that is known, or else by that of its octets.
    fn message_line<S: Alter>(
        &self,
        rt: &HostRuntime,
        archive: &mut Store<S>,
        occasion: &Occasion<'_, HostRuntime>,
        entry: &RecordEntry,
    ) -> Result<Vec<u8>, Failure> {
        let number = entry.message;
        if let Some(seal) = self.known.seal(number)? {
            return line_now(
                rt,
                occasion,
                self.next(),
                Deed::FoundMessage { number, seal },
            );
        }
        let body = message_of(rt, archive, entry)?;
        Ok(occasion.message_found(rt.alloc(), self.next(), number, body.as_slice())?)
    }

    /// Adds the message of a live record, unless it was found before.
    fn add_message<S: Alter>(
        &mut self,
        rt: &HostRuntime,
        archive: &mut Store<S>,
        occasion: &Occasion<'_, HostRuntime>,
        entry: &RecordEntry,
    ) -> Result<(), Failure> {
        if entry.destroyed || !self.messages.insert(entry.message)? {
            return Ok(());
        }
        let line = self.message_line(rt, archive, occasion, entry)?;
        Ok(self.lines.push(line)?)
    }

    /// Adds a record with its holds. `BadData` where one of them has a name that is none.
    fn add_record(
        &mut self,
        alloc: Global,
        occasion: &Occasion<'_, HostRuntime>,
        entry: &RecordEntry,
    ) -> Result<(), Failure>
        ensures { OnOk result (list_all (λ h. is_name_of h.items) entry.now.holds.items ≡ true) }
    {
        if !are_named(entry.holds.as_slice()) {
            return Err(Failure::shown(Status::BadData, unnamed_words(alloc, entry.number)));
        }
        let line = occasion.record_found(alloc, self.next(), entry)?;
        self.lines.push(line)?;
        for name in &entry.holds {
            let line = occasion.hold_found(alloc, self.next(), name.as_slice(), entry.number)?;
            self.lines.push(line)?;
        }
        Ok(())
    }

    /// Adds the records of a page, each after its message.
    fn add_page<S: Alter>(
        &mut self,
        rt: &HostRuntime,
        archive: &mut Store<S>,
        occasion: &Occasion<'_, HostRuntime>,
        page: &[RecordEntry],
    ) -> Result<(), Failure> {
        for entry in page {
            self.add_message(rt, archive, occasion, entry)?;
            self.add_record(rt.alloc(), occasion, entry)?;
        }
        Ok(())
    }
}

/// The lines of what is found in a store, from the event of a number on: its plan, on an occasion of its own, and each message,
/// record and hold. `BadData` where a hold has a name that is none: the line of such an event would not be read again.
pub fn findings_in<S: Alter>(
    rt: &HostRuntime,
    archive: &mut Store<S>,
    heading: &Occasion<'_, HostRuntime>,
    occasion: &Occasion<'_, HostRuntime>,
    first: u32,
    known: &Known<'_>,
) -> Result<Vec<Vec<u8>>, Failure> {
    let mut findings = Findings::new(rt.alloc(), first, known);
    let line = heading.plan_found(rt.alloc(), findings.next(), archive.plan())?;
    findings.lines.push(line)?;
    let every = Choice::every();
    let mut walk = Walk::from(&every, 1);
    for _ in 0..u64::MAX {
        let Some(page) = walk.next_page(rt, archive)? else {
            break;
        };
        findings.add_page(rt, archive, occasion, page.as_slice())?;
    }
    Ok(findings.lines)
}

/// For what reason a history begins where none is told.
const BEGINNING: &str = "the beginning";

/// The lines that a history begins with, the first one with these notes. `Usage` where it is not known who begins it.
fn first_lines<'a, S: Alter>(
    rt: &'a HostRuntime,
    archive: &mut Store<S>,
    author: &'a Author<'_>,
    notes: &'a [u8],
) -> Result<Vec<Vec<u8>>, Failure> {
    let who = author.named(rt)?.as_bytes();
    let reason = if author.reason().is_empty() {
        BEGINNING
    } else {
        author.reason()
    };
    let mut heading = occasion_by(rt, who, reason, None)?;
    heading.notes = notes;
    let occasion = occasion_by(rt, who, reason, None)?;
    findings_in(
        rt,
        archive,
        &heading,
        &occasion,
        1,
        &Known::none(rt.alloc()),
    )
}

/// Begins the history of a store that has none with what is found there, the first event with notes, and answers how many events
/// that are. `Usage` where it is not known who begins it, `BadData` where a hold has a name that is none. The store is handed back.
pub fn begin_history<S: Alter>(
    rt: &HostRuntime,
    archive: Store<S>,
    author: &Author<'_>,
    notes: &[u8],
) -> (Store<S>, Result<u64, Failure>) {
    let mut archive = archive;
    let lines = match first_lines(rt, &mut archive, author, notes) {
        Ok(lines) => lines,
        Err(failure) => return (archive, Err(failure)),
    };
    let count = lines.len() as u64;
    match NotedStore::begin_with(rt.alloc(), archive, lines.as_slice()) {
        Ok(noted) => (noted.into_store(), Ok(count)),
        Err((fault, archive)) => (
            archive,
            Err(Failure::of_store(rt.alloc(), "the history", fault)),
        ),
    }
}
