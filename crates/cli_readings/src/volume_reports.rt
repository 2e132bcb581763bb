//! `report` over an archive of volumes: one page on the records of all of them.

ghost use Rattle.std.specs.Prelude.{IfOk, OnOk};
ghost use Rattle.record_choice.specs.Reads.{OnlyReads};
ghost use Rattle.cli_console.specs.Finds.{TakesThese, found_in};
ghost use Rattle.cli_readings.specs.Ends.{IsEnded};
ghost use Rattle.cli_choice.specs.Reads.{IsReadOf};
ghost use Rattle.cli_readings.specs.Reports.{IsReportBy};
ghost use Rattle.cli_readings.specs.VolumeReports.{ReportsVolume, reported_of};

use crate::conditions::conditions_over;
use crate::report::{Reporting, write_page};
use crate::volume_reader::VolumeReader;
use class_plan::{Date, Plan};
use cli_choice::Questions;
use cli_console::{Failure, Search};
use cli_history::Titles;
use command_lines::archives::{Choice, TypedChoice};
use record_choice::Repository;
use record_store::{Store, StoreFault};
use sqlite::Alter;

/// A report on the records of several volumes.
#[derive(Drop)]
pub struct VolumeReport<'a> {
    reporting: Reporting<'a>,
}

impl<'a> VolumeReport<'a> {
    /// A report by a day, without records, on the classes of a plan. `BadData` where the day is before 1970.
    pub fn new(rt: &'a HostRuntime, plan: &Plan, day: Date) -> Result<VolumeReport<'a>, Failure>
        ensures { IfOk result (λ r. IsReportBy day r.reporting) }
    {
        let reporting = Reporting::new(rt, plan, day)?;
        Ok(VolumeReport { reporting })
    }

    /// Adds the records of a volume that meet a choice, and whose messages have what is asked of them. Answers the search, which is
    /// at its end. `BadData` where the class is none of the plan of the volume.
    fn add_volume<'s, 'c, R: Repository<Fault = StoreFault>>(
        &mut self,
        rt: &HostRuntime,
        archive: &mut R,
        volume: u32,
        choice: &'s Choice<'c>,
        questions: &'s Questions,
    ) -> Result<Search<'s, 'c>, Failure>
        ensures reads { OnlyReads R.clean R.stands archive.old archive.new }
        ensures added { OnOk result (IsReadOf R.clean R.stands archive.old archive.new
            (λ a. TakesThese (λ old b es new. ReportsVolume (reported_of volume b.plan es) old new)
            self.old a (found_in choice.now questions.now a) self.new)) }
        ensures ended { IfOk result (λ search. IsReadOf R.clean R.stands archive.old archive.new
            (λ a. IsEnded choice.now questions.now a search)) }
    {
        let mut search = Search::new(rt, archive, choice, questions)?;
        self.reporting.volume = Some(volume);
        search.read_found(rt, archive, &mut self.reporting)?;
        Ok(search)
    }

    /// Writes the report to standard output, as a page of HTML that names the folder of the archive and what was asked for, by the
    /// plan of the archive and the titles of its classes.
    pub fn write(
        &self,
        rt: &HostRuntime,
        plan: &Plan,
        folder: &str,
        typed: &TypedChoice<'_>,
        titles: &Titles,
    ) -> Result<(), Failure> {
        let conditions = conditions_over(rt.alloc(), typed)?;
        write_page(
            rt,
            plan,
            &self.reporting,
            folder,
            conditions.as_deref(),
            titles,
        )
    }
}

impl VolumeReader for VolumeReport<'_> {
    ghost takes = { λ volume old a es new. ReportsVolume (reported_of volume a.plan es) old new };

    fn read_volume<S: Alter>(
        &mut self,
        rt: &HostRuntime,
        archive: &mut Store<S>,
        volume: u32,
        choice: &Choice<'_>,
        questions: &Questions,
    ) -> Result<(), Failure> {
        let search = self.add_volume(rt, archive, volume, choice, questions)?;
        search.end_in(rt, archive, Some(volume))
    }
}
