//! How many records are due at once, and may be destroyed at once.

ghost use Rattle.std.specs.Prelude.{◌≡◌, ◌++◌, OnOk};
ghost use Rattle.jiff.specs.Words.{epoch_day};
ghost use Rattle.record_choice.specs.Entries.{entry_view};
ghost use Rattle.cli_changes.specs.DueToday.{compared, count_line, due_in_both, due_today_lines, none_due, with_entry, with_record};

use crate::refilings::is_destroyable;
use class_plan::{Date, Plan, Schedule};
use cli_console::{counted, is_by};
use cli_texts::due_by;
use record_store::RecordEntry;
use std::alloc::AllocError;
use tool_texts::{Shown, put};

/// How many live records are due today.
#[derive(Clone, Copy)]
pub struct DueToday {
    /// Held or not.
    pub all: u64,
    /// Those that no hold keeps, by a schedule that destroys.
    pub destroyable: u64,
}

impl DueToday {
    /// None of no record.
    pub fn none() -> DueToday
        ensures { result ≡ none_due }
    {
        DueToday {
            all: 0,
            destroyable: 0,
        }
    }

    /// Those of some records, and those of others.
    pub fn joined(self, other: DueToday) -> DueToday
        ensures { result ≡ due_in_both self other }
    {
        DueToday {
            all: self.all.saturating_add(other.all),
            destroyable: self.destroyable.saturating_add(other.destroyable),
        }
    }

    /// Counts a live record with a due date, if it has one, and with the schedule of its class.
    fn count(&mut self, due: &Option<Date>, schedule: Option<Schedule>, is_held: bool, today: Date)
        ensures { self.new ≡ with_record due.now schedule is_held today self.old }
    {
        self.all = counted(is_by(*due, today), self.all);
        self.destroyable = counted(
            is_destroyable(*due, schedule, is_held, today),
            self.destroyable,
        );
    }

    /// Adds a live record, as if it were in the class of a path, by a plan.
    pub fn add(&mut self, entry: &RecordEntry, path: &[u8], plan: &Plan, today: Date)
        ensures { self.new
            ≡ with_entry plan.now path.now (epoch_day today) (entry_view entry.now) self.old }
    {
        self.count(
            &due_by(plan, path, entry.day),
            plan.schedule_of(path),
            !entry.holds.is_empty(),
            today,
        );
    }
}

/// Adds a count after a change and before it, in a line.
#[tactic(auto, unfolding(crate::specs::DueToday::count_line))]
fn put_count(
    text: &mut Shown,
    what: &'static str,
    after: u64,
    before: u64,
) -> Result<(), AllocError>
    ensures { OnOk result (text.new ≡ text.old ++ count_line what.now after before) }
{
    put!(text; words(what) value(&after) ", before " value(&before))?;
    text.end_line()
}

/// Adds a count after a change and before it, behind other words.
#[tactic(auto, unfolding(crate::specs::DueToday::compared))]
pub(crate) fn put_compared(
    text: &mut Shown,
    what: &'static str,
    after: u64,
    before: u64,
) -> Result<(), AllocError>
    ensures { OnOk result (text.new ≡ text.old ++ compared what.now after before) }
{
    put!(text; words(what) value(&after) ", before " value(&before))
}

/// Adds how many records are due at once after a change and before it, and how many may be destroyed at once, a line each.
pub fn put_due_today(text: &mut Shown, before: DueToday, after: DueToday) -> Result<(), AllocError>
    ensures { OnOk result (text.new ≡ text.old ++ due_today_lines before after) }
{
    let what = "records that are due at once: ";
    put_count(text, what, after.all, before.all)?;
    let what = "records that may be destroyed at once: ";
    put_count(text, what, after.destroyable, before.destroyable)
}
