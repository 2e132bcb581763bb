//! Whether a new plan keeps less than the present one.

ghost use Rattle.std.specs.Prelude.{◌≡◌, IfOk};
ghost use Rattle.std.specs.List.{list_any};
ghost use Rattle.class_plan.specs.Plans.{schedule_at};
ghost use Rattle.cli_changes.specs.Keeping.{is_kept_less as is_less_kept, keeps_less, is_no_longer, is_no_longer_if_any, is_same_unit as are_same_units};

use class_plan::{Plan, Schedule, Unit};
use record_choice::destroys;
use std::alloc::{AllocError, Global};

/// A class of a plan: its path, whether it is open, and its own schedule, if it has one.
type Class<'p> = (&'p [u8], bool, Option<Schedule>);

fn is_same_unit(one: Unit, other: Unit) -> bool
    ensures { result ≡ are_same_units one other }
{
    matches!(
        (one, other),
        (Unit::Days, Unit::Days) | (Unit::Months, Unit::Months) | (Unit::Years, Unit::Years)
    )
}

/// Whether what a schedule sets is due no later than what another one sets. Counts of different units are not compared: then
/// it is not said.
fn is_due_no_later(schedule: Schedule, other: Schedule) -> bool
    ensures { result ≡ is_no_longer schedule other }
{
    match (schedule, other) {
        (Schedule::Permanent, _) => false,
        (Schedule::After { .. }, Schedule::Permanent) => true,
        (
            Schedule::After {
                count,
                unit,
                year_end,
                ..
            },
            Schedule::After {
                count: other_count,
                unit: other_unit,
                year_end: other_year_end,
                ..
            },
        ) => {
            is_same_unit(unit, other_unit) && count <= other_count && (!year_end || other_year_end)
        }
    }
}

/// The same of the schedules of classes, if they have any.
fn is_due_no_later_if_any(schedule: Option<Schedule>, other: Option<Schedule>) -> bool
    ensures { result ≡ is_no_longer_if_any schedule other }
{
    match (schedule, other) {
        (Some(schedule), Some(other)) => is_due_no_later(schedule, other),
        _ => false,
    }
}

/// Whether a new schedule keeps records less than the present one: it destroys them, and the present one does not, or may do so
/// later.
fn is_kept_less(present: Option<Schedule>, new: Option<Schedule>) -> bool
    ensures { result ≡ is_less_kept present new }
{
    destroys(new) && !(destroys(present) && is_due_no_later_if_any(present, new))
}

/// Whether a new plan keeps the records of a class less than the present one.
fn is_class_kept_less(present: &Plan, new: &Plan, path: &[u8]) -> bool
    ensures { result ≡
        is_less_kept (schedule_at present.now path.now) (schedule_at new.now path.now) }
{
    is_kept_less(present.schedule_of(path), new.schedule_of(path))
}

/// Whether a new plan keeps the records of one of some classes less than the present one.
fn is_any_kept_less(present: &Plan, new: &Plan, classes: &[Class<'_>]) -> bool
    ensures { result ≡ list_any (λ c. is_less_kept (schedule_at present.now c.0.now)
        (schedule_at new.now c.0.now)) classes.now }
{
    classes
        .iter()
        .any(|class| is_class_kept_less(present, new, class.0))
}

/// Whether a new plan keeps the records of any class of the present one less: it destroys them, where the present one does not,
/// or may do so later. The only refusal is no memory.
pub fn keeps_less(alloc: Global, present: &Plan, new: &Plan) -> Result<bool, AllocError>
    ensures { IfOk result (λ less. less ≡ keeps_less present.now new.now) }
{
    let classes = present.classes(alloc)?;
    Ok(is_any_kept_less(present, new, classes.as_slice()))
}
