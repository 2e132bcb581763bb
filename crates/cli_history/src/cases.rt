//! The cases of a store. A case is all that is kept by the hold of one name.

ghost use Rattle.std.specs.Prelude.{◌≡◌, IfOk, option_map};
ghost use Rattle.record_history.specs.Views.{deed_view};
ghost use Rattle.cli_history.specs.Cases.{begun, case_after, found, joined, parted, placed, reopened, told_view};

use crate::all_cases::{Began, Kept, NamedCase};
use crate::pages::{PAGE, event_of};
use crate::seals::deed_of;
use cli_console::{Failure, Walk};
use record_choice::{Choice, Holder};
use record_history::Deed;
use record_store::{EventLayout, EventRow, RecordEntry, Store};
use sqlite::Alter;
use std::alloc::{AllocError, Global};
use std::collections::BTreeMap;

/// A case, as the events of a history tell it. It has a record at least.
#[derive(Clone, Copy)]
struct Told {
    /// How many records it has beside that one.
    others: u64,
    /// The number of the event by which it began.
    event: u32,
    /// Whether the hold was only found then, as one that was there before.
    is_found: bool,
    /// Whether the history has stated anew what is there since, and not this case yet.
    is_open: bool,
}

impl Told {
    /// A case with one record, which an event has.
    fn begun(event: u32, is_found: bool) -> Told
        ensures { told_view result ≡ begun event is_found }
    {
        Told {
            others: 0,
            event,
            is_found,
            is_open: false,
        }
    }

    /// The same with one more record. Refused for no memory, where it would have more than 2^64 records.
    fn joined(self) -> Result<Told, AllocError>
        ensures { IfOk result (λ t. told_view t ≡ joined (told_view self)) }
    {
        match self.others.checked_add(1) {
            Some(others) => Ok(Told { others, ..self }),
            None => Err(AllocError),
        }
    }
}

/// A case on whose hold another record is placed by an event.
fn placed(told: Option<Told>, event: u32) -> Result<Told, AllocError>
    ensures { IfOk result (λ t. told_view t ≡ placed event (option_map told_view told)) }
{
    match told {
        Some(told) if !told.is_open => told.joined(),
        _ => Ok(Told::begun(event, false)),
    }
}

/// A case one of whose records an event has found. What was told of it before stands.
fn found(told: Option<Told>, event: u32) -> Result<Told, AllocError>
    ensures { IfOk result (λ t. told_view t ≡ found event (option_map told_view told)) }
{
    match told {
        Some(told) if told.is_open => Ok(Told {
            others: 0,
            is_open: false,
            ..told
        }),
        Some(told) => told.joined(),
        None => Ok(Told::begun(event, true)),
    }
}

/// A case with one record less. It ends with its last one.
fn parted(told: Option<Told>) -> Option<Told>
    ensures { option_map told_view result ≡ parted (option_map told_view told) }
{
    let told = told?;
    match told.others.checked_sub(1) {
        Some(others) => Some(Told { others, ..told }),
        None => None,
    }
}

/// A case whose records a history is about to state anew.
fn reopened(told: Option<Told>) -> Option<Told>
    ensures { option_map told_view result ≡ option_map reopened (option_map told_view told) }
{
    match told {
        Some(told) => Some(Told {
            is_open: true,
            ..told
        }),
        None => None,
    }
}

/// What the deed of an event makes of the case of a name: its first record begins it, and it ends with its last one. Where a
/// history states anew what is there, a case that it finds again goes on. The only refusal is no memory.
fn after_deed(
    told: Option<Told>,
    name: &[u8],
    event: u32,
    deed: &Deed<'_>,
) -> Result<Option<Told>, AllocError>
    ensures { IfOk result (λ t. option_map told_view t
        ≡ case_after name.now event (deed_view deed.now) (option_map told_view told)) }
{
    match deed {
        Deed::Held { name: held, .. } if *held == name => Ok(Some(placed(told, event)?)),
        Deed::FoundHold { name: held, .. } if *held == name => Ok(Some(found(told, event)?)),
        Deed::Released { name: held, .. } if *held == name => Ok(parted(told)),
        Deed::FoundPlan(_) => Ok(reopened(told)),
        _ => Ok(told),
    }
}

/// A case of an archive.
#[derive(Clone, Copy)]
struct Case {
    /// How many records it has.
    records: u64,
    /// As far as the history tells it.
    told: Option<Told>,
}

/// The cases of an archive.
struct Cases {
    /// By the names of their holds.
    cases: BTreeMap<Vec<u8>, Case>,
}

impl Drop for Cases {
    fn drop(self) {
        let Cases { cases: _ } = self;
    }
}

impl Cases {
    /// Adds a record that a hold keeps.
    fn add_record(&mut self, alloc: Global, name: &[u8]) -> Result<(), AllocError> {
        if let Some(case) = self.cases.get_mut(name) {
            case.records = case.records.saturating_add(1);
            return Ok(());
        }
        let case = Case {
            records: 1,
            told: None,
        };
        let name = Vec::from_slice(alloc, name)?;
        self.cases.insert(name, case)?;
        Ok(())
    }

    /// Adds a record, with each hold that keeps it.
    fn add_entry(&mut self, alloc: Global, entry: &RecordEntry) -> Result<(), AllocError> {
        for name in &entry.holds {
            self.add_record(alloc, name.as_slice())?;
        }
        Ok(())
    }

    /// The cases that the holds of an archive are. A failure is that of the store.
    fn of<S: Alter>(rt: &HostRuntime, archive: &mut Store<S>) -> Result<Cases, Failure> {
        let mut cases = Cases {
            cases: BTreeMap::new(rt.alloc()),
        };
        let mut held = Choice::live();
        held.held = Some(Holder::Anyone);
        let mut walk = Walk::from(&held, 1);
        for _ in 0..u64::MAX {
            let Some(page) = walk.next_page(rt, archive)? else {
                break;
            };
            for entry in page.iter() {
                cases.add_entry(rt.alloc(), entry)?;
            }
        }
        Ok(cases)
    }

    /// Notes what the deed of an event tells of the case of a name.
    fn note(&mut self, name: &[u8], event: u32, deed: &Deed<'_>) -> Result<(), AllocError> {
        if let Some(case) = self.cases.get_mut(name) {
            case.told = after_deed(case.told, name, event, deed)?;
        }
        Ok(())
    }

    /// Notes what the deed of an event tells of each case.
    fn note_all(&mut self, event: u32, deed: &Deed<'_>) -> Result<(), AllocError> {
        for (name, case) in self.cases.iter_mut() {
            case.told = after_deed(case.told, name.as_slice(), event, deed)?;
        }
        Ok(())
    }

    /// Notes what the deed of an event tells of cases.
    fn take(&mut self, event: u32, deed: &Deed<'_>) -> Result<(), AllocError> {
        match deed {
            Deed::Held { name, .. } | Deed::Released { name, .. } | Deed::FoundHold { name, .. } =>
                { self.note(*name, event, deed) }
            Deed::FoundPlan(_) => self.note_all(event, deed),
            _ => Ok(()),
        }
    }

    /// Notes what the events of a page tell. An event whose line cannot be read tells nothing.
    fn take_page(&mut self, alloc: Global, page: &[EventRow]) -> Result<(), AllocError> {
        for row in page {
            if let Some(deed) = deed_of(alloc, row)? {
                self.take(row.number, &deed)?;
            }
        }
        Ok(())
    }

    /// Notes what the events of a history tell, a page at a time. A failure is that of the store.
    fn take_all<S: Alter>(
        &mut self,
        rt: &HostRuntime,
        archive: &mut Store<S>,
    ) -> Result<(), Failure> {
        let mut from = Some(1);
        for _ in 0..u64::MAX {
            let Some(first) = from else {
                break;
            };
            let page = page_from(rt, archive, first, PAGE)?;
            let Some(last) = page.last() else {
                break;
            };
            from = last.number.checked_add(1);
            self.take_page(rt.alloc(), page.as_slice())?;
        }
        Ok(())
    }
}

/// The events of a history from a number on, at most so many.
pub(crate) fn page_from<S: Alter>(
    rt: &HostRuntime,
    archive: &mut Store<S>,
    first: u32,
    most: u32,
) -> Result<Vec<EventRow>, Failure> {
    archive.events_from(first, most).map_err(|fault| Failure::of_store(
        rt.alloc(),
        "the history",
        fault,
    ))
}

/// How a case began whose event is in a row.
fn began_by(
    alloc: Global,
    volume: Option<u32>,
    row: &EventRow,
    is_found: bool,
) -> Result<Began, Failure> {
    let event = event_of(alloc, row)?;
    Ok(Began {
        volume,
        event: row.number,
        moment: event.moment,
        who: Vec::from_slice(alloc, event.who)?,
        reason: Vec::from_slice(alloc, event.reason)?,
        is_found,
    })
}

/// How a case began, where the history of a store tells that.
fn began_in<S: Alter>(
    rt: &HostRuntime,
    archive: &mut Store<S>,
    volume: Option<u32>,
    case: Case,
) -> Result<Option<Began>, Failure> {
    let Some(told) = case.told.filter(|told| !told.is_open) else {
        return Ok(None);
    };
    let rows = page_from(rt, archive, told.event, 1)?;
    match rows.first() {
        Some(row) => Ok(Some(began_by(rt.alloc(), volume, row, told.is_found)?)),
        None => Ok(None),
    }
}

/// The cases of a store, which is the volume of a number, in an archive of volumes: how many records each has, and, where the store
/// keeps a history that tells it, since when, by whom and for what reason. An event whose line cannot be read tells nothing; `check`
/// finds it. A failure is that of the store.
pub(crate) fn cases_in<S: Alter>(
    rt: &HostRuntime,
    archive: &mut Store<S>,
    volume: Option<u32>,
) -> Result<Vec<NamedCase>, Failure> {
    let mut cases = Cases::of(rt, archive)?;
    if let EventLayout::Present = archive.event_layout() {
        cases.take_all(rt, archive)?;
    }
    let mut named = Vec::new(rt.alloc());
    for (name, case) in &cases.cases {
        let began = began_in(rt, archive, volume, *case)?;
        named.push(NamedCase {
            name: Vec::from_slice(rt.alloc(), name.as_slice())?,
            kept: Kept {
                records: case.records,
                began,
            },
        })?;
    }
    Ok(named)
}
