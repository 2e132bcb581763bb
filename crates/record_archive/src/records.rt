//! An archive of records that is kept somewhere.

ghost use Rattle.std.specs.Prelude.{◌≡◌, map};
ghost use Rattle.jiff.specs.Words.{epoch_day};
ghost use Rattle.class_plan.specs.Calendar.{number_of_day};
ghost use Rattle.class_plan.specs.Dates.{IsCaptureDay};
ghost use Rattle.class_plan.specs.Plans.{Listing};
ghost use Rattle.record_archive.specs.Archive as archive;
ghost use Rattle.record_archive.specs.Archive.{Archive, AreClasses, IsArchive, capture_lines, due_list_on};
ghost use Rattle.record_archive.specs.Calls.{CarriesOut, Keeper, Quietly, unchanged};
ghost use Rattle.record_archive.specs.Lines.{line_view};

use crate::fault::ArchiveFault;
use crate::line::Line;
use class_paths::Paths;
use class_plan::{Date, Plan};

/// An archive of records that is kept somewhere. The `Store` of `record_store` is one.
///
/// Each call carries out a command of `Archive` in `specs/`. Besides the refusals of each call, every call that changes
/// or reads records may be refused with 89 (the keeper, with its cause) and 99 (no memory). A refusal changes nothing.
/// A crash inside a call leaves what it might have left before, or what the command makes of the archive.
pub trait Records {
    /// Why the keeper refuses, as the error of a database.
    type Cause: Copy;

    /// Whether it is clean, the archive that it stands for, what a crash may leave of it, and what that keeps.
    ghost keeper: { Keeper Self Archive };

    /// The plan that is kept beside the records.
    ghost plan_of: { Self → Listing };

    /// The archive's present plan.
    fn plan(&self) -> &Plan
        ensures { result.now ≡ plan_of self.now };

    /// Adds an open class without a schedule of its own. Refused with the smallest that holds of 52 (no path), 53 (no
    /// parent), 54 (there already) and 56 (4,096 classes).
    fn add_class(&mut self, path: &[u8]) -> Result<(), ArchiveFault<Self::Cause>>
        ensures { CarriesOut keeper self.old self.new
            (λ a. archive.add_class a path.now) Quietly result };

    /// Replaces the plan. Refused with 57 where the new plan drops a path of the present one.
    fn revise(&mut self, plan: Plan) -> Result<(), ArchiveFault<Self::Cause>>
        ensures { CarriesOut keeper self.old self.new
            (λ a. archive.revise a plan) Quietly result };

    /// Stores a message, and a record of it for each path. Answers a line for each record. Refused with 87 where the
    /// numbers of records are used up.
    ///
    /// The caller gives a day of 1970 to 2199, and paths of classes of the plan.
    fn capture(
        &mut self,
        body: &[u8],
        day: Date,
        paths: &Paths,
    ) -> Result<Vec<Line>, ArchiveFault<Self::Cause>>
        requires day { IsCaptureDay day }
        requires paths { AreClasses (plan_of self.old) paths.now }
        ensures { CarriesOut keeper self.old self.new
            (λ a. archive.capture a body.now (number_of_day day) paths.now)
            (λ a lines. map line_view lines.items ≡
            capture_lines a (number_of_day day) paths.now) result };

    /// Places a hold of that name on a record. Refused with 80 (no such record), 84 (destroyed) or 86 (that hold is
    /// there).
    fn hold(&mut self, name: &[u8], number: u32) -> Result<(), ArchiveFault<Self::Cause>>
        ensures { CarriesOut keeper self.old self.new
            (λ a. archive.hold a name.now number) Quietly result };

    /// Ends the hold of that name on a record. Refused with 80 (no such record) or 85 (no such hold).
    fn release(&mut self, name: &[u8], number: u32) -> Result<(), ArchiveFault<Self::Cause>>
        ensures { CarriesOut keeper self.old self.new
            (λ a. archive.release a name.now number) Quietly result };

    /// The due list of a day. Nothing is due by a day before 1970.
    fn due(&mut self, day: Date) -> Result<Vec<Line>, ArchiveFault<Self::Cause>>
        ensures { CarriesOut keeper self.old self.new unchanged
            (λ a lines. map line_view lines.items ≡ due_list_on a (epoch_day day)) result };

    /// Destroys a record that is due by a day. Refused with the first that holds of 80 (no such record), 84
    /// (destroyed), 81 (held), 83 (its schedule does not destroy) and 82 (due later).
    fn destroy(&mut self, number: u32, day: Date) -> Result<(), ArchiveFault<Self::Cause>>
        ensures { CarriesOut keeper self.old self.new
            (λ a. archive.destroy_on a number (epoch_day day)) Quietly result };

    ghost plan_is: { (records : Self) (a : Archive) → keeper.stands records a
        → plan_of records ≡ a.plan };

    ghost is_archive: { (records : Self) (a : Archive) → keeper.stands records a → IsArchive a };
}
