//! Destructions that are done again.

ghost use Rattle.std.specs.Prelude.{◌≡◌, ◌≤◌, Some, IfOk, IfErr};
ghost use Rattle.class_plan.specs.Calendar.{due_on};
ghost use Rattle.class_plan.specs.declared.schedules.Schedule.{Schedule};
ghost use Rattle.record_archive.specs.Archive as archive;
ghost use Rattle.record_archive.specs.Archive.{Record};
ghost use Rattle.record_history.specs.Events as plain;
ghost use Rattle.record_judge.specs.Sealed.{IsDone, IsKept, MayGo, MayNotGo, StaysKept, archive_view};

use crate::faults::Misdeed;
use crate::message_index::leave_message;
use crate::record_index::mark_destroyed;
use crate::sealed::SealedArchive;
use class_plan::{Action, Plan, Schedule, date_of, day_number};

/// The last capture day, 2199-12-31, in days since 1970-01-01.
const LAST_CAPTURE_DAY: u32 = 84_005;

/// Whether a schedule's action is to destroy. No where there is no schedule.
fn destroys(schedule: Option<Schedule>) -> bool
    ensures { result ≡ archive.destroys schedule }
{
    matches!(
        schedule,
        Some(Schedule::After {
            action: Action::Destroy,
            ..
        })
    )
}

/// The day on which a record of a class falls due; `None` where its schedule is permanent, and where the path is no class.
fn due_day_of(plan: &Plan, path: &[u8], day: u32) -> Option<u32>
    requires { day ≤ 84005 }
    ensures { result ≡ due_on plan.now path.now day }
{
    let captured = date_of(i64::from(day))?;
    let due = plan.due_of(path, captured)?;
    Some(day_number(due) as u32)
}

/// Whether a record of a class falls due by a day.
fn is_due(plan: &Plan, path: &[u8], captured: u32, day: u32) -> bool
    requires { captured ≤ 84005 }
    ensures { result ≡ archive.is_by_any (Some day) (due_on plan.now path.now captured) }
{
    match due_day_of(plan, path, captured) {
        Some(due) => due <= day,
        None => false,
    }
}

impl SealedArchive {
    /// The message of a record, if the record may be destroyed by a day.
    #[tactic(auto, using(crate::proofs::DeedLemmas::destruction_laws))]
    fn judge_destruction(&self, number: u32, day: u32) -> Result<u32, Misdeed>
        ensures ok { IsKept self.now → IfOk result (MayGo (archive_view self.now) number day) }
        ensures err { IsKept self.now → IfErr result (MayNotGo (archive_view self.now) number day) }
    {
        let Some(record) = self.record_at(number) else {
            return Err(Misdeed::Refused);
        };
        let path = record.path.as_slice();
        if record.destroyed {
            return Err(Misdeed::Refused);
        }
        if self.is_held(number) {
            return Err(Misdeed::Refused);
        }
        if !destroys(self.plan.schedule_of(path)) {
            return Err(Misdeed::Refused);
        }
        if record.day > LAST_CAPTURE_DAY {
            return Err(Misdeed::LateDay);
        }
        if !is_due(&self.plan, path, record.day, day) {
            return Err(Misdeed::Refused);
        }
        Ok(record.message)
    }

    /// Marks a record as destroyed, and removes its message with the last live record.
    #[tactic(auto, using(crate::proofs::SealedLemmas::removed, crate::proofs::SealedLemmas::kept_marked))]
    fn remove(&mut self, number: u32, message: u32)
        ensures archive { IsKept self.old → (r : Record) → r.number ≡ number
            → r.message ≡ message
            → archive_view self.new ≡ archive.without (archive_view self.old) r }
        ensures kept { StaysKept self.old self.new }
    {
        mark_destroyed(self.records.as_mut_slice(), &mut self.record_index, number);
        let shared = self.record_index.has_live(message);
        leave_message(&mut self.messages, &mut self.message_index, shared, message);
    }

    pub(crate) fn destroy(&mut self, number: u32, day: u32) -> Result<(), Misdeed>
        ensures done { IsKept self.old → (schedule : Schedule) →
            IsDone (plain.Destroyed number day schedule)
            (archive_view self.old) (archive_view self.new) result }
        ensures kept { StaysKept self.old self.new }
    {
        let message = self.judge_destruction(number, day)?;
        self.remove(number, message);
        Ok(())
    }
}
