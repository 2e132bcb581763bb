//! `report`: one page of HTML on what is kept, what is due and what is held.

ghost use Rattle.std.specs.Prelude.{◌≡◌, IfOk, IfSome, OnOk, is_none, not};
ghost use Rattle.record_choice.specs.Reads.{OnlyReads};
ghost use Rattle.cli_console.specs.Headers.{AreTextsOf};
ghost use Rattle.cli_readings.specs.Checks.{is_live_and_due};
ghost use Rattle.cli_choice.specs.Reads.{IsReadOf};
ghost use Rattle.cli_readings.specs.Chosen.{ReportsOf};
ghost use Rattle.cli_readings.specs.Reports.{IsRecordOf, IsReportBy, ReportsMore, more_reports, none_reports};

use crate::conditions::conditions_of;
use crate::list::headers_of_record;
use class_plan::{Date, Plan};
use cli_choice::Questions;
use cli_console::{Failure, Reader, Search, Status, is_by, now, today, write_data};
use cli_history::Titles;
use cli_page::{Heading, Page, Record, Report, ReportFault};
use cli_texts::{Headers, moment_text};
use command_lines::archives::Choice;
use record_choice::Repository;
use record_store::{RecordEntry, Store, StoreFault};
use sqlite::Alter;

/// The failure of a report.
fn report_failure(rt: &HostRuntime, fault: ReportFault) -> Failure {
    let words = match fault {
        ReportFault::NoMemory => return Failure::NoMemory,
        ReportFault::TooMany => "too many records to be counted",
        ReportFault::NoClass => "a record's class is none of the plan's",
        ReportFault::NoDay => "a due date is not in the years 1970 to 9999",
    };
    Failure::told(rt.alloc(), Status::BadData, words)
}

/// A record as a page reads it: one of a volume, in an archive of volumes.
pub fn record_of(volume: Option<u32>, entry: &RecordEntry) -> Record<'_>
    ensures { IsRecordOf volume entry.now result }
{
    Record {
        volume,
        number: entry.number,
        path: entry.path.as_slice(),
        day: entry.day,
        due: entry.due,
        holds: entry.holds.as_slice(),
        is_destroyed: entry.destroyed,
    }
}

/// What the header of a record's message says, where the record is live and due by a day.
fn headers_of_due<R: Repository<Fault = StoreFault>>(
    rt: &HostRuntime,
    archive: &mut R,
    entry: &RecordEntry,
    day: Date,
) -> Result<Option<Headers>, Failure>
    ensures reads { OnlyReads R.clean R.stands archive.old archive.new }
    ensures asked { IfOk result (λ h. is_none h ≡ not (is_live_and_due day entry.now)) }
    ensures texts { IfOk result (λ o. IsReadOf R.clean R.stands archive.old archive.new
        (λ a. IfSome o (λ h. AreTextsOf a entry.now.number h))) }
{
    if !is_by(entry.due, day) {
        return Ok(None);
    }
    headers_of_record(rt, archive, entry)
}

/// A report by a day to which records are added.
pub(crate) struct Reporting<'a> {
    rt: &'a HostRuntime,
    report: Report,
    day: Date,
    /// The number of the volume whose records are added, in an archive of volumes.
    pub(crate) volume: Option<u32>,
}

impl Drop for Reporting<'_> {
    fn drop(self) {
        let Reporting {
            rt: _,
            report: _,
            day: _,
            volume: _,
        } = self;
    }
}

impl<'a> Reporting<'a> {
    /// A report by a day, without records, on the classes of a plan. `BadData` where the day is before 1970.
    pub(crate) fn new(rt: &'a HostRuntime, plan: &Plan, day: Date) -> Result<Reporting<'a>, Failure>
        ensures { IfOk result (λ r. IsReportBy day r) }
    {
        match Report::new(rt.alloc(), plan, day) {
            Ok(report) => Ok(Reporting {
                rt,
                report,
                day,
                volume: None,
            }),
            Err(fault) => Err(report_failure(rt, fault)),
        }
    }
}

impl Reader for Reporting<'_> {
    ghost takes = { λ old a es new. ReportsMore old a es new };

    fn take<R: Repository<Fault = StoreFault>>(
        &mut self,
        archive: &mut R,
        entry: &RecordEntry,
        _headers: Option<&Headers>,
    ) -> Result<(), Failure> {
        let headers = headers_of_due(self.rt, archive, entry, self.day)?;
        match self.report.add(
            archive.plan(),
            &record_of(self.volume, entry),
            headers.as_ref(),
        ) {
            Ok(()) => Ok(()),
            Err(fault) => Err(report_failure(self.rt, fault)),
        }
    }

    ghost takes_none = { λ reporting a. none_reports reporting a };

    ghost takes_more = { λ x y z a es fs one other. more_reports x y z a es fs one other };
}

/// Writes the page of a report on the records of a store, or an archive, of this name that meet these conditions.
pub(crate) fn write_page(
    rt: &HostRuntime,
    plan: &Plan,
    reporting: &Reporting<'_>,
    file: &str,
    conditions: Option<&str>,
    titles: &Titles,
) -> Result<(), Failure> {
    let titles = titles.listed()?;
    let moment = moment_text(rt.alloc(), now(rt)?)?;
    let heading = Heading {
        file,
        day: reporting.day,
        today: today(rt)?,
        moment: moment.as_str(),
        conditions,
        titles: titles.as_slice(),
    };
    let mut page = Page::new(rt.alloc());
    match reporting.report.write(&mut page, plan, &heading) {
        Ok(()) => write_data(rt, page.as_str().as_bytes()),
        Err(fault) => Err(report_failure(rt, fault)),
    }
}

/// Writes a report by a day to standard output, as a page of HTML that names the store's file. It is on the records that
/// meet a choice, and whose messages have what is asked of them. `BadData` where the class is none of the plan.
pub fn write_report<S: Alter>(
    rt: &HostRuntime,
    archive: &mut Store<S>,
    file: &str,
    day: Date,
    choice: &Choice<'_>,
    questions: &Questions,
) -> Result<(), Failure>
    ensures { OnOk result (ReportsOf S.Store day choice.now questions.now archive.old) }
{
    let mut search = Search::new(rt, archive, choice, questions)?;
    let mut reporting = Reporting::new(rt, archive.plan(), day)?;
    search.read_found(rt, archive, &mut reporting)?;
    let titles = Titles::of(rt, archive)?;
    let conditions = conditions_of(rt.alloc(), choice)?;
    write_page(
        rt,
        archive.plan(),
        &reporting,
        file,
        conditions.as_deref(),
        &titles,
    )?;
    search.end(rt, archive)
}
