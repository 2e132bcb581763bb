//! `certificates`: those of records that were destroyed, from the history.

ghost use Rattle.std.specs.Prelude.{◌≡◌, ◌∷◌, [], IfOk, IfSome, OnOk, is_none, map, option_map, true};
ghost use Rattle.record_history.specs.Spelled.{IsSpelledDeed};
ghost use Rattle.record_history.specs.Views.{deed_view, event_view};
ghost use Rattle.record_noted.specs.Histories.{rows_of};
ghost use Rattle.record_reads.specs.Events.{event_of as row_of};
ghost use Rattle.cli_history.specs.Certified.{Certifies, CertifiesEach, CertifiesRow, IsCertificateOf, LeavesUncertified, WritesCertificates, certified, destroyed_by as record_destroyed};
ghost use Rattle.cli_history.specs.Lawful.{IsLawful, Watches};
ghost use Rattle.cli_history.specs.Tellings.{TellsRow};
ghost use Rattle.cli_history.specs.Titles.{title_seen, title_beside};
ghost use Rattle.cli_history.specs.Walks.{ForArchive, Looks};

use crate::chosen::is_about;
use crate::days::day_text;
use crate::missing::Missing;
use crate::notes::is_altered;
use crate::pages::{Events, event_of};
use crate::titles::Titles;
use crate::untold::tell_untold;
use crate::watching::Watch;
use choice_words::TypedNumbers;
use class_plan::schedule_text;
use cli_console::{Failure, Sink, StandardOutput, Status};
use cli_texts::{ClassTitle, ToldCertificate, told_certificate};
use record_history::{Deed, Event, Seal};
use record_judge::SealedArchive;
use record_noted::NotedStore;
use record_store::{ArchiveRefusal, EventRow, RecordEntry, StoreFault};
use sqlite::Alter;
use std::alloc::{AllocError, Global};
use std::collections::{BTreeMap, BTreeSet};
use tool_texts::Shown;

/// The seal of a message, as a history has it.
#[derive(Drop)]
struct Sealed {
    octets: u64,
    sum: Vec<u8>,
}

/// The messages of the records that were destroyed: each with its seal, once that was found.
struct Messages {
    seals: BTreeMap<u32, Option<Sealed>>,
}

impl Drop for Messages {
    fn drop(self) {
        let Messages { seals: _ } = self;
    }
}

/// The record of a number, if there is one.
fn entry_of<S: Alter>(
    rt: &HostRuntime,
    noted: &mut NotedStore<S>,
    number: u32,
) -> Result<Option<RecordEntry>, Failure>
    ensures { Looks S.Store noted.old noted.new }
{
    match noted.entry(number) {
        Ok(entry) => Ok(Some(entry)),
        Err(StoreFault::Refused(ArchiveRefusal::NoRecord)) => Ok(None),
        Err(fault) => Err(Failure::of_store(rt.alloc(), "the store", fault)),
    }
}

/// The event of a row; none where its line is none of an event.
fn readable<'a>(alloc: Global, row: &'a EventRow) -> Result<Option<Event<'a>>, Failure>
    ensures spelled { IfOk result (λ o. IfSome o (λ e. IsSpelledDeed (deed_view e.deed))) }
    ensures tells { IfOk result (λ o. TellsRow (row_of row.now) (option_map event_view o)) }
{
    match event_of(alloc, row) {
        Ok(event) => Ok(Some(event)),
        Err(Failure::Told(Status::BadData, _)) => Ok(None),
        Err(failure) => Err(failure),
    }
}

/// The record that a deed destroys, if it destroys one.
fn destroyed_by(deed: &Deed<'_>) -> Option<u32>
    ensures { result ≡ record_destroyed (deed_view deed.now) }
{
    match deed {
        Deed::Destroyed { number, .. } => Some(*number),
        _ => None,
    }
}

/// The record that an event destroys, where it is one of those of the numbers that are typed, if there are any.
fn destroyed_in(typed: &[TypedNumbers], event: &Event<'_>) -> Option<u32>
    ensures { result ≡ certified typed.now (event_view event.now) }
{
    if is_about(typed, &event.deed) {
        destroyed_by(&event.deed)
    } else {
        None
    }
}

impl Messages {
    /// Adds the message of a record that an event destroys.
    fn add<S: Alter>(
        &mut self,
        rt: &HostRuntime,
        noted: &mut NotedStore<S>,
        typed: &[TypedNumbers],
        row: &EventRow,
    ) -> Result<(), Failure>
        ensures { Looks S.Store noted.old noted.new }
    {
        let Some(event) = readable(rt.alloc(), row)? else {
            return Ok(());
        };
        let Some(number) = destroyed_in(typed, &event) else {
            return Ok(());
        };
        if let Some(entry) = entry_of(rt, noted, number)? {
            self.seals.insert(entry.message, None)?;
        }
        Ok(())
    }

    /// Keeps a seal, where its message is one of these.
    fn keep(&mut self, message: u32, seal: &Seal) -> Result<(), AllocError> {
        if self.seals.contains_key(&message) {
            let sealed = Sealed {
                octets: seal.octets,
                sum: seal.sum.clone()?,
            };
            self.seals.insert(message, Some(sealed))?;
        }
        Ok(())
    }

    /// Keeps the seal of the message that an event captures or finds.
    fn look_at(&mut self, alloc: Global, row: &EventRow) -> Result<(), Failure> {
        let Some(event) = readable(alloc, row)? else {
            return Ok(());
        };
        match &event.deed {
            Deed::Captured { first, seal, .. } => Ok(self.keep(*first, seal)?),
            Deed::FoundMessage { number, seal } => Ok(self.keep(*number, seal)?),
            _ => Ok(()),
        }
    }

    /// Adds the messages of the records that the events of a page destroy.
    fn add_page<S: Alter>(
        &mut self,
        rt: &HostRuntime,
        noted: &mut NotedStore<S>,
        typed: &[TypedNumbers],
        page: &[EventRow],
    ) -> Result<(), Failure>
        ensures { Looks S.Store noted.old noted.new }
    {
        for row in page {
            self.add(rt, noted, typed, row)?;
        }
        Ok(())
    }

    /// Keeps the seals that the events of a page have.
    fn look_at_page(&mut self, alloc: Global, page: &[EventRow]) -> Result<(), Failure> {
        for row in page {
            self.look_at(alloc, row)?;
        }
        Ok(())
    }
}

/// The messages of the records that were destroyed.
fn messages_of<S: Alter>(
    rt: &HostRuntime,
    noted: &mut NotedStore<S>,
    typed: &[TypedNumbers],
) -> Result<Messages, Failure>
    ensures { Looks S.Store noted.old noted.new }
{
    let mut messages = Messages {
        seals: BTreeMap::new(rt.alloc()),
    };
    let mut events = Events::all();
    for _ in 0..u64::MAX {
        let Some(page) = events.next_page(rt, noted)? else {
            return Ok(messages);
        };
        messages.add_page(rt, noted, typed, page.as_slice())?;
    }
    Ok(messages)
}

/// Finds the seals of messages.
fn find_seals<S: Alter>(
    rt: &HostRuntime,
    noted: &mut NotedStore<S>,
    messages: &mut Messages,
) -> Result<(), Failure>
    ensures { Looks S.Store noted.old noted.new }
{
    let mut events = Events::all();
    for _ in 0..u64::MAX {
        let Some(page) = events.next_page(rt, noted)? else {
            return Ok(());
        };
        messages.look_at_page(rt.alloc(), page.as_slice())?;
    }
    Ok(())
}

/// The first live record with a message, of what a history makes of an archive.
fn keeper_in(made: &SealedArchive, message: u32) -> Option<u32> {
    let records = made.records();
    let first = records.partition_point(|record| record.number < message);
    for record in &records[first..] {
        if record.message == message && !record.destroyed {
            return Some(record.number);
        }
        if record.message != message {
            return None;
        }
    }
    None
}

/// What is known beside an event that destroys a record.
#[derive(Clone, Copy)]
struct Beside<'e> {
    /// The record, if the archive has it.
    entry: Option<&'e RecordEntry>,
    /// The title of its class, where it has a title or a legal basis by the events before.
    title: Option<ClassTitle<'e>>,
    /// The live record that kept its message, if there was one.
    kept_by: Option<u32>,
}

/// The title of the class of a record, if the archive has the record.
fn title_of_class<'t>(titles: &'t Titles, entry: Option<&RecordEntry>) -> Option<ClassTitle<'t>>
    ensures { option_map title_seen result ≡ title_beside titles.now entry.entry }
{
    match entry {
        Some(entry) => titles.of_class(entry.path.as_slice()),
        None => None,
    }
}

/// The certificate of an event that destroys a record, which may be one of a volume; none of any other event.
fn certificate_of(
    alloc: Global,
    volume: Option<u32>,
    row: &EventRow,
    event: &Event<'_>,
    beside: Beside<'_>,
    messages: &Messages,
) -> Result<Option<Shown>, AllocError>
    requires { IsSpelledDeed (deed_view event.now.deed) }
    ensures { IfOk result
        (IsCertificateOf volume (row_of row.now) (event_view event.now)) }
{
    let Deed::Destroyed {
        number,
        day,
        schedule,
    } = &event.deed
    else {
        return Ok(None);
    };
    let day = day_text(alloc, *day)?;
    let schedule = schedule_text(alloc, *schedule)?;
    let entry = beside.entry;
    let sealed = entry.and_then(|entry| messages.seals.get(&entry.message));
    let seal = match sealed {
        Some(Some(sealed)) => Some((sealed.octets, sealed.sum.as_slice())),
        _ => None,
    };
    let told = ToldCertificate {
        volume,
        number: *number,
        path: entry.map(|entry| entry.path.as_slice()),
        title: beside.title,
        day: day.as_str(),
        schedule: schedule.as_slice(),
        seal,
        moment: event.moment,
        who: event.who,
        reason: event.reason,
        event: row.number,
        kept_by: beside.kept_by,
        is_altered: is_altered(event.notes),
    };
    Ok(Some(told_certificate(alloc, &told)?))
}

/// Certificates that are printed of a history, which is judged as it is read.
struct PrintedCertificates<'n> {
    /// The number of the volume, in an archive of volumes.
    volume: Option<u32>,
    typed: &'n [TypedNumbers],
    messages: Messages,
    watch: Watch,
    /// The titles of classes, by the events that were read.
    titles: Titles,
    missing: Missing,
    /// The records of which an event tells that they were destroyed.
    told: BTreeSet<u32>,
}

impl Drop for PrintedCertificates<'_> {
    fn drop(self) {
        let PrintedCertificates {
            volume: _,
            typed: _,
            messages: _,
            watch: _,
            titles: _,
            missing: _,
            told: _,
        } = self;
    }
}

impl<'n> PrintedCertificates<'n> {
    /// The live record that keeps the message of a record, up to the event that was judged last. Where something stands against an
    /// event, no record is known to have kept a message.
    fn keeper_of(&self, entry: Option<&RecordEntry>) -> Option<u32> {
        match entry {
            Some(entry) if self.watch.is_sound() => {
                keeper_in(self.watch.archive(), entry.message)
            }
            _ => None,
        }
    }

    /// The certificate of the event that was judged last, with what is known beside it; none where it destroys no record.
    fn text_of(
        &self,
        alloc: Global,
        row: &EventRow,
        event: &Event<'_>,
        entry: Option<&RecordEntry>,
    ) -> Result<Option<Shown>, AllocError>
        requires { IsSpelledDeed (deed_view event.now.deed) }
        ensures { IfOk result
            (IsCertificateOf self.now.volume (row_of row.now) (event_view event.now)) }
    {
        let title = title_of_class(&self.titles, entry);
        let kept_by = self.keeper_of(entry);
        let beside = Beside {
            entry,
            title,
            kept_by,
        };
        certificate_of(alloc, self.volume, row, event, beside, &self.messages)
    }

    /// Prints the certificate of an event, where it destroys a record that is asked for.
    fn print_one<S: Alter, K: Sink + Drop>(
        &mut self,
        rt: &HostRuntime,
        noted: &mut NotedStore<S>,
        row: &EventRow,
        sink: &mut K,
    ) -> Result<(), Failure>
        ensures looks { Looks S.Store noted.old noted.new }
        ensures certified { OnOk result (CertifiesRow K.written self.old sink.old
            (row_of row.now) self.new sink.new) }
    {
        let Some(event) = readable(rt.alloc(), row)? else {
            return Ok(());
        };
        self.titles.take(&event.deed)?;
        let Some(number) = destroyed_in(self.typed, &event) else {
            return Ok(());
        };
        self.missing.meet(&event.deed)?;
        self.told.insert(number)?;
        let entry = entry_of(rt, noted, number)?;
        match self.text_of(rt.alloc(), row, &event, entry.as_ref())? {
            Some(text) => sink.write(text.as_str().as_bytes()),
            None => Ok(()),
        }
    }

    /// Judges an event, and prints its certificate.
    fn print_row<S: Alter, K: Sink + Drop>(
        &mut self,
        rt: &HostRuntime,
        noted: &mut NotedStore<S>,
        row: &EventRow,
        sink: &mut K,
    ) -> Result<(), Failure>
        ensures looks { Looks S.Store noted.old noted.new }
        ensures certified { OnOk result (Certifies K.written self.old sink.old
            (row_of row.now ∷ []) self.new sink.new) }
    {
        self.watch.look_at(rt, row)?;
        self.print_one(rt, noted, row, sink)
    }

    /// Prints the certificates of a page of events.
    fn print_page<S: Alter, K: Sink + Drop>(
        &mut self,
        rt: &HostRuntime,
        noted: &mut NotedStore<S>,
        page: &[EventRow],
        sink: &mut K,
    ) -> Result<(), Failure>
        ensures looks { Looks S.Store noted.old noted.new }
        ensures certified { OnOk result (Certifies K.written self.old sink.old
            (map row_of page.now) self.new sink.new) }
    {
        for row in page {
            self.print_row(rt, noted, row, sink)?;
        }
        Ok(())
    }

    /// Prints the certificates of a history.
    fn print_all<S: Alter, K: Sink + Drop>(
        &mut self,
        rt: &HostRuntime,
        noted: &mut NotedStore<S>,
        sink: &mut K,
    ) -> Result<(), Failure>
        ensures looks { Looks S.Store noted.old noted.new }
        ensures certified { OnOk result (ForArchive S.Store noted.old noted.new (λ a ls.
            Certifies K.written self.old sink.old (rows_of ls) self.new sink.new)) }
    {
        let mut events = Events::all();
        for _ in 0..u64::MAX {
            let Some(page) = events.next_page(rt, noted)? else {
                return Ok(());
            };
            self.print_page(rt, noted, page.as_slice(), sink)?;
        }
        Ok(())
    }

    /// Tells which records are destroyed of which no event tells that, where no numbers are asked for.
    fn tell_untold<S: Alter>(
        &self,
        rt: &HostRuntime,
        noted: &mut NotedStore<S>,
    ) -> Result<(), Failure>
        ensures { Looks S.Store noted.old noted.new }
    {
        if self.typed.is_empty() {
            return tell_untold(rt, noted, self.volume, &self.told);
        }
        Ok(())
    }

    /// What it came to: `BadData` where something stands against an event, and where a number is asked for of whose record no
    /// event tells that it was destroyed. Both are told.
    fn end(&self, rt: &HostRuntime) -> Result<(), Failure>
        ensures sound { OnOk result (is_none self.now.watch.fault ≡ true) }
        ensures met { OnOk result (self.now.missing.rest.items ≡ []) }
    {
        self.watch.end(rt.alloc())?;
        if self
            .missing
            .tell(rt, self.volume, "no event tells that it was destroyed")?
        {
            return Ok(());
        }
        Err(Failure::Reported(Status::BadData))
    }
}

/// Writes the certificates of a history to a sink, one behind the other. Answers what the history came to as it was read, and the sink.
fn certificates_to<'n, S: Alter, K: Sink + Drop>(
    rt: &HostRuntime,
    noted: &mut NotedStore<S>,
    volume: Option<u32>,
    typed: &'n [TypedNumbers],
    sink: K,
) -> Result<(PrintedCertificates<'n>, K), Failure>
    ensures looks { Looks S.Store noted.old noted.new }
    ensures certified { IfOk result (λ printed. ForArchive S.Store noted.old noted.new (λ a ls.
        WritesCertificates K.written volume typed.now sink (rows_of ls) printed.1)) }
    ensures judged { IfOk result (λ printed. ForArchive S.Store noted.old noted.new (λ a ls.
        Watches printed.0.watch (rows_of ls))) }
    ensures met { IfOk result (λ printed. ForArchive S.Store noted.old noted.new (λ a ls.
        LeavesUncertified typed.now (rows_of ls) printed.0.missing.rest.items)) }
{
    let mut messages = messages_of(rt, noted, typed)?;
    find_seals(rt, noted, &mut messages)?;
    let watch = Watch::new(rt.alloc(), volume)?;
    let missing = Missing::of(rt.alloc(), typed)?;
    let mut printed = PrintedCertificates {
        volume,
        typed,
        messages,
        watch,
        titles: Titles::none(rt.alloc()),
        missing,
        told: BTreeSet::new(rt.alloc()),
    };
    let mut sink = sink;
    printed.print_all(rt, noted, &mut sink)?;
    Ok((printed, sink))
}

/// Prints a certificate for each record that was destroyed, by the history of a store: all, or those of the numbers that are typed. In
/// an archive of volumes the store is the volume of a number, which names its records and events. The events are judged as they are
/// read. `BadData` in the end where something stands against one, which is told, and where a number is typed of whose record no event
/// tells that it was destroyed. Where no number is typed, such records are told, and that is no fault: a program without a history may
/// have destroyed them, or they were destroyed before the history began.
pub fn write_certificates<S: Alter>(
    rt: &HostRuntime,
    noted: &mut NotedStore<S>,
    volume: Option<u32>,
    typed: &[TypedNumbers],
) -> Result<(), Failure>
    ensures looks { Looks S.Store noted.old noted.new }
    ensures lawful { OnOk result
        (ForArchive S.Store noted.old noted.new (λ a ls. IsLawful ls)) }
    ensures met { OnOk result
        (ForArchive S.Store noted.old noted.new (λ a ls. CertifiesEach typed.now (rows_of ls))) }
{
    let output = StandardOutput::new(rt);
    let (printed, _output) = certificates_to(rt, noted, volume, typed, output)?;
    printed.tell_untold(rt, noted)?;
    printed.end(rt)
}
