//! A report on an archive: what it counts and keeps of the records, and its parts.

ghost use Rattle.std.specs.Prelude.{◌≡◌, ◌++◌, ◌&&◌, [], List, ℕ, pos, map, is_some, option_map, IfOk, OnOk};
ghost use Rattle.jiff.specs.Words.{epoch_day};
ghost use Rattle.cli_page.specs.DueLists.{due_view};
ghost use Rattle.cli_page.specs.KeptNumbers.{KeepAlso};
ghost use Rattle.cli_page.specs.Reports.{IsReport, report_end};
ghost use Rattle.cli_page.specs.Seeing.{due_seen, seen_for, listed_if, AddsRecord, report_day, listed_numbers, is_listed, number_if};

use crate::counts::Seen;
use crate::dates::{DueDay, due_day};
use crate::due_list::DueList;
use crate::fault::ReportFault;
use crate::holds::Holds;
use crate::page::Page;
use crate::summary::{classes, heading, totals};
use crate::tally::Tally;
use crate::timeline::timeline;
use class_plan::{Date, Plan};
use cli_texts::{Headers, ListedTitle};
use std::alloc::{AllocError, Global};

/// A record, as a report reads it.
#[derive(Clone, Copy)]
pub struct Record<'a> {
    /// The number of its volume, in an archive of volumes.
    pub volume: Option<u32>,
    pub number: u32,
    /// The path of its class.
    pub path: &'a [u8],
    /// The day of its capture.
    pub day: Date,
    /// When it falls due; none where its schedule is permanent, and where it is destroyed.
    pub due: Option<Date>,
    /// The names of its holds.
    pub holds: &'a [Vec<u8>],
    pub is_destroyed: bool,
}

/// What a report is about.
#[derive(Clone, Copy)]
pub struct Heading<'a> {
    /// The file of the store.
    pub file: &'a str,
    /// The day by which records are due.
    pub day: Date,
    /// The day on which the report is made.
    pub today: Date,
    /// When it is made.
    pub moment: &'a str,
    /// The conditions that its records meet, as they are typed. None where it is on all records.
    pub conditions: Option<&'a str>,
    /// The titles of classes, of those that have one.
    pub titles: &'a [ListedTitle<'a>],
}

/// A report on an archive by a day. Its memory grows with the classes, with the holds and with what is due, and not with the
/// messages.
#[derive(Drop)]
pub struct Report {
    alloc: Global,
    day: Date,
    day_number: u32,
    tally: Tally,
    holds: Holds,
    due: DueList,
}

/// A due date as it is counted. One before 1970 is refused.
#[tactic(auto, using(crate::proofs::SeenLemmas::due_seen_is))]
fn due_of(due: Option<Date>) -> Result<Option<DueDay>, ReportFault>
    ensures { IfOk result (λ d. d ≡ option_map due_seen due) }
{
    let Some(date) = due else {
        return Ok(None);
    };
    match due_day(date) {
        Some(day) => Ok(Some(day)),
        None => Err(ReportFault::NoDay),
    }
}

/// What is counted of a record.
fn seen_of(record: &Record<'_>) -> Result<Seen, ReportFault>
    ensures { IfOk result (λ s. s ≡ seen_for «record».now) }
{
    Ok(Seen {
        is_destroyed: record.is_destroyed,
        is_held: !record.holds.is_empty(),
        due: due_of(record.due)?,
    })
}

/// Adds a record to those of each of its holds.
#[tactic(auto, using(crate::proofs::HoldLemmas::held_next))]
fn add_holds(holds: &mut Holds, record: &Record<'_>) -> Result<(), ReportFault>
    ensures { OnOk result (KeepAlso (map (λ h. h.items) «record».now.holds.now)
        («record».now.volume, «record».now.number) holds.old.holds.entries
        holds.new.holds.entries) }
{
    for name in record.holds {
        holds.add(name.as_slice(), record.volume, record.number)?;
    }
    Ok(())
}

/// Lists a record, where it is due.
fn list_due(
    list: &mut DueList,
    plan: &Plan,
    record: &Record<'_>,
    headers: Option<&Headers>,
    is_due: bool,
) -> Result<(), ReportFault>
    ensures listed { OnOk result (map due_view list.new.items.items
        ≡ map due_view list.old.items.items
        ++ listed_if is_due plan.now «record».now «record».now.due) }
    ensures numbers { OnOk result (map (λ d. d.number) (map due_view list.new.items.items)
        ≡ map (λ d. d.number) (map due_view list.old.items.items)
        ++ number_if (is_due && is_some «record».now.due) «record».now.number) }
{
    match record.due {
        Some(due) if is_due => list.add(plan, record, headers, due),
        _ => Ok(()),
    }
}

/// Adds the end of a report.
#[tactic(auto, unfolding(crate::specs::Reports::report_end))]
fn push_end(page: &mut Page) -> Result<(), AllocError>
    ensures { OnOk result (page.new ≡ page.old ++ report_end) }
{
    page.markup(
        "</main>\n<footer>Made by mailfile-store report. Days are those of UTC.</footer>\n</body>\n</html>\n",
    )
}

impl Report {
    /// A report without records on the classes of a plan. A day before 1970 is refused.
    pub fn new(alloc: Global, plan: &Plan, day: Date) -> Result<Report, ReportFault>
        ensures day { IfOk result (λ r. epoch_day day ≡ pos r.day_number) }
        ensures tally { IfOk result (λ r. r.tally.day ≡ r.day_number) }
        ensures holds { IfOk result (λ r. r.holds.holds.entries ≡ []) }
        ensures due { IfOk result (λ r. r.due.items.items ≡ []) }
    {
        let day_number = due_day(day).ok_or(ReportFault::NoDay)?.day;
        Ok(Report {
            alloc,
            day,
            day_number,
            tally: Tally::new(alloc, plan, day_number)?,
            holds: Holds::new(alloc),
            due: DueList::new(alloc),
        })
    }

    /// Adds a record, after those of earlier volumes and those with smaller numbers, and what its message's header says, which is
    /// listed where the record is due.
    pub fn add(
        &mut self,
        plan: &Plan,
        record: &Record<'_>,
        headers: Option<&Headers>,
    ) -> Result<(), ReportFault>
        ensures added { OnOk result (AddsRecord plan.now «record».now self.old self.new) }
        ensures numbers { OnOk result (listed_numbers self.new ≡ listed_numbers self.old
            ++ number_if (is_listed (report_day self.old)
            «record».now.is_destroyed «record».now.due)
            «record».now.number) }
        ensures day { OnOk result (report_day self.new ≡ report_day self.old) }
    {
        let seen = seen_of(record)?;
        let is_due = seen.is_due(self.day_number);
        self.tally.add(record.path, &seen)?;
        add_holds(&mut self.holds, record)?;
        list_due(&mut self.due, plan, record, headers, is_due)
    }

    /// Writes the report, for a heading with its day: what it is about, its classes, when records fall due, what holds keep, and
    /// what is due.
    pub fn write(
        &self,
        page: &mut Page,
        plan: &Plan,
        about: &Heading<'_>,
    ) -> Result<(), ReportFault>
        ensures { OnOk result ((text : List ℕ) × IsReport plan.now about.now self.now text
            × (page.new ≡ page.old ++ text)) }
    {
        heading(self.alloc, page, about)?;
        totals(page, about, &self.tally.all, self.due.free_count() as u64)?;
        classes(self.alloc, page, plan, &self.tally, about)?;
        timeline(self.alloc, page, &self.tally, self.day)?;
        self.holds.section(page)?;
        self.due.section(page, about.titles, self.day)?;
        push_end(page)?;
        Ok(())
    }
}
