//! What a deed tells of its record beside what it does.

ghost use Rattle.std.specs.Prelude.{◌↔◌, ℕ, IsTrue};
ghost use Rattle.record_history.specs.Events as plain;
ghost use Rattle.record_history.specs.Replay.{IsTrueOf};
ghost use Rattle.record_history.specs.Views.{deed_view};
ghost use Rattle.record_judge.specs.Sealed.{IsKept, archive_view};

use crate::listings::is_same_own;
use crate::sealed::SealedArchive;
use class_plan::Schedule;
use record_history::Deed;

impl SealedArchive {
    /// Whether a schedule is that of the class of a record. Yes where there is no such record.
    #[tactic(auto, using(crate::proofs::TruthLemmas::told_of_none))]
    fn has_schedule(&self, number: u32, schedule: Schedule) -> bool
        ensures { IsKept self.now → (day : ℕ) →
            IsTrue result ↔ IsTrueOf (plain.Destroyed number day schedule) (archive_view self.now) }
    {
        match self.record_at(number) {
            Some(record) => is_same_own(
                self.plan.schedule_of(record.path.as_slice()),
                Some(schedule),
            ),
            None => true,
        }
    }

    /// Whether what a deed tells of its record is so: the schedule under which it destroys one is that of the record's class.
    pub(crate) fn is_told_truly(&self, deed: &Deed<'_>) -> bool
        ensures { IsKept self.now →
            IsTrue result ↔ IsTrueOf (deed_view deed.now) (archive_view self.now) }
    {
        match deed {
            Deed::Destroyed {
                number,
                schedule,
                ..
            } => self.has_schedule(*number, *schedule),
            Deed::Captured { .. }
            | Deed::Held { .. }
            | Deed::Released { .. }
            | Deed::Refiled { .. }
            | Deed::ClassAdded { .. }
            | Deed::PlanReplaced(_)
            | Deed::Titled { .. }
            | Deed::ReasonsRequired
            | Deed::ReasonsOptional
            | Deed::FindingsAccepted
            | Deed::FoundPlan(_)
            | Deed::FoundMessage { .. }
            | Deed::FoundRecord { .. }
            | Deed::FoundHold { .. } => true,
        }
    }
}
