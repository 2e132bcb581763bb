//! Each deed of a history, done again.

ghost use Rattle.std.specs.Prelude.{OnOk};
ghost use Rattle.record_history.specs.Views.{deed_view};
ghost use Rattle.record_judge.specs.Sealed.{IsDone, IsKept, StaysKept, archive_view};

use crate::faults::Misdeed;
use crate::sealed::{SealedArchive, SealedRecord};
use record_history::Deed;

impl SealedArchive {
    /// Does a deed again: exactly what the archive's own command makes, with the seal of a message in its place.
    ///
    /// Refused where the archive refuses it, where its plan is none, where its record was captured after 2199-12-31, or for
    /// no memory (99); then the archive is of no more use.
    pub fn do_again(&mut self, deed: Deed<'_>) -> Result<(), Misdeed>
        ensures done { IsKept self.old → IsDone (deed_view deed.entry)
            (archive_view self.old) (archive_view self.new) result }
        ensures kept { OnOk result (StaysKept self.old self.new) }
    {
        match deed {
            Deed::Captured {
                first,
                seal,
                day,
                filing: _,
                paths,
            } => self.capture(first, seal, day, paths.as_slice()),
            Deed::Held { name, number } => self.hold(name, number),
            Deed::Released { name, number } => self.release(name, number),
            Deed::Destroyed {
                number,
                day,
                schedule: _,
            } => self.destroy(number, day),
            Deed::Refiled { number, path } => self.refile(number, path),
            Deed::ClassAdded { path } => self.add_class(path),
            Deed::PlanReplaced(plan) => self.replace_plan(&plan),
            Deed::Titled { .. }
            | Deed::ReasonsRequired
            | Deed::ReasonsOptional
            | Deed::FindingsAccepted => Ok(()),
            Deed::FoundPlan(plan) => self.find_plan(&plan),
            Deed::FoundMessage { number, seal } => self.find_message(number, seal),
            Deed::FoundRecord {
                number,
                message,
                path,
                day,
                destroyed,
            } => {
                let path = Vec::from_slice(self.alloc, path)?;
                self.find_record(SealedRecord {
                    number,
                    message,
                    path,
                    day,
                    destroyed,
                })
            }
            Deed::FoundHold { name, number } => self.find_hold(name, number),
        }
    }
}
