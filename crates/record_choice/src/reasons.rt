//! Why a record may not be destroyed.

ghost use Rattle.std.specs.Prelude.{◌≡◌, ℕ, None, Some, IfOk, MatchOption};
ghost use Rattle.jiff.specs.Words.{epoch_day};
ghost use Rattle.record_archive.specs.Archive as archive;
ghost use Rattle.record_archive.specs.Archive.{Archive, Record, record_at};
ghost use Rattle.record_choice.specs.Entries.{OfRecord, entry_of, entry_view};
ghost use Rattle.record_choice.specs.Reads.{OnlyReads};
ghost use Rattle.record_choice.specs.Reasons.{MayGo, IsReason};

use crate::choice::{has_any, is_due};
use crate::entry::RecordEntry;
use crate::repository::Repository;
use class_plan::{Action, Date, Plan, Schedule};

/// Why a record may not be destroyed by a day: the first that holds, in the order of 80, 84, 81, 83 and 82.
#[derive(Drop)]
pub enum Reason {
    /// 80: there is no record with the number.
    NoRecord,
    /// 84: it is destroyed.
    Destroyed,
    /// 81: holds of these names keep it.
    Held(Vec<Vec<u8>>),
    /// 83: the action of this schedule, which its class has, is not to destroy.
    NotForDestruction(Option<Schedule>),
    /// 82: it is due on this date, which is later.
    NotDue(Option<Date>),
}

/// Whether a schedule's action is to destroy. No where there is no schedule.
pub fn destroys(schedule: Option<Schedule>) -> bool
    ensures { result ≡ archive.destroys schedule }
{
    matches!(
        schedule,
        Some(Schedule::After {
            action: Action::Destroy,
            ..
        })
    )
}

/// Why a record that is there may not be destroyed by a day, if it may not.
fn judge(plan: &Plan, entry: RecordEntry, day: Date) -> Option<Reason>
    ensures { (a : Archive) (n : ℕ) (r : Record) → plan.now ≡ a.plan → record_at a n ≡ Some r
        → r.number ≡ n → entry_view entry ≡ entry_of a r
        → MatchOption result (MayGo a (epoch_day day) n) (IsReason a (epoch_day day) n) }
{
    if entry.destroyed {
        return Some(Reason::Destroyed);
    }
    if has_any(entry.holds.as_slice()) {
        return Some(Reason::Held(entry.into_holds()));
    }
    let schedule = plan.schedule_of(entry.path.as_slice());
    if !destroys(schedule) {
        return Some(Reason::NotForDestruction(schedule));
    }
    if !is_due(Some(day), entry.due) {
        return Some(Reason::NotDue(entry.due));
    }
    None
}

/// A record, if it has a number.
fn if_numbered(entry: RecordEntry, number: u32) -> Option<RecordEntry>
    ensures { MatchOption result (entry.number ≡ number → ⊥)
        (λ e. (e ≡ entry) × (entry.number ≡ number)) }
{
    if entry.number == number {
        Some(entry)
    } else {
        None
    }
}

/// The record with a number, if there is one.
fn find_entry<R: Repository>(records: &mut R, number: u32) -> Result<Option<RecordEntry>, R::Fault>
    ensures reads { OnlyReads R.clean R.stands records.old records.new }
    ensures told { IfOk result (λ o. R.clean records.new → (a : Archive) → R.stands records.old a
        → MatchOption o (record_at a number ≡ None)
        (λ e. OfRecord a number (λ r. entry_view e ≡ entry_of a r))) }
{
    let mut entries = records.entries(number, 1)?;
    match entries.pop() {
        Some(entry) => Ok(if_numbered(entry, number)),
        None => Ok(None),
    }
}

/// Why the record of a number may not be destroyed by a day. `None` where it may.
pub fn why_not<R: Repository>(
    records: &mut R,
    number: u32,
    day: Date,
) -> Result<Option<Reason>, R::Fault>
    ensures reads { OnlyReads R.clean R.stands records.old records.new }
    ensures told { IfOk result (λ o. R.clean records.new → (a : Archive) → R.stands records.old a
        → MatchOption o (MayGo a (epoch_day day) number) (IsReason a (epoch_day day) number)) }
{
    let found = find_entry(records, number)?;
    match found {
        Some(entry) => Ok(judge(records.plan(), entry, day)),
        None => Ok(Some(Reason::NoRecord)),
    }
}
