//! Whether two plans are the same.

ghost use Rattle.std.specs.Prelude.{◌≡◌, ◌↔◌, IsTrue, IfOk, map};
ghost use Rattle.class_plan.specs.Parts.{answer_row};

use class_plan::{Action, Plan, Schedule, Unit};
use std::alloc::{AllocError, Global};

/// A class: its path, whether it is open, and its own schedule, if it has one.
type Class<'a> = (&'a [u8], bool, Option<Schedule>);

fn is_same_unit(one: Unit, other: Unit) -> bool
    ensures { IsTrue result ↔ (one ≡ other) }
{
    match one {
        Unit::Days => matches!(other, Unit::Days),
        Unit::Months => matches!(other, Unit::Months),
        Unit::Years => matches!(other, Unit::Years),
    }
}

fn is_same_action(one: Action, other: Action) -> bool
    ensures { IsTrue result ↔ (one ≡ other) }
{
    match one {
        Action::Review => matches!(other, Action::Review),
        Action::Transfer => matches!(other, Action::Transfer),
        Action::Destroy => matches!(other, Action::Destroy),
    }
}

fn is_same_schedule(one: Schedule, other: Schedule) -> bool
    ensures { IsTrue result ↔ (one ≡ other) }
{
    match one {
        Schedule::Permanent => matches!(other, Schedule::Permanent),
        Schedule::After {
            count,
            unit,
            action,
            year_end,
        } => match other {
            Schedule::Permanent => false,
            Schedule::After {
                count: other_count,
                unit: other_unit,
                action: other_action,
                year_end: other_end,
            } => {
                count == other_count
                    && is_same_unit(unit, other_unit)
                    && is_same_action(action, other_action)
                    && year_end == other_end
            }
        },
    }
}

fn is_same_own(one: Option<Schedule>, other: Option<Schedule>) -> bool
    ensures { IsTrue result ↔ (one ≡ other) }
{
    match one {
        None => other.is_none(),
        Some(one) => match other {
            None => false,
            Some(other) => is_same_schedule(one, other),
        },
    }
}

fn is_same_class(one: &Class<'_>, other: &Class<'_>) -> bool
    ensures { IsTrue result ↔ (answer_row one.now ≡ answer_row other.now) }
{
    one.0 == other.0 && one.1 == other.1 && is_same_own(one.2, other.2)
}

fn are_same_classes(ones: &[Class<'_>], others: &[Class<'_>]) -> bool
    ensures { IsTrue result ↔ (map answer_row ones.now ≡ map answer_row others.now) }
{
    if ones.len() != others.len() {
        return false;
    }
    for place in 0..ones.len() {
        if !is_same_class(&ones[place], &others[place]) {
            return false;
        }
    }
    true
}

/// Whether two plans have the same schedule of the root and the same classes. The only refusal is no memory.
pub fn is_same_plan(alloc: Global, one: &Plan, other: &Plan) -> Result<bool, AllocError>
    ensures { IfOk result (λ b. IsTrue b ↔ (one.now ≡ other.now)) }
{
    let classes = one.classes(alloc)?;
    let others = other.classes(alloc)?;
    Ok(
        is_same_schedule(one.root(), other.root())
            && are_same_classes(classes.as_slice(), others.as_slice()),
    )
}
