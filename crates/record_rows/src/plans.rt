//! The plan that has some rows.
ghost use Rattle.std.specs.Prelude.{◌≡◌, ◌<◌, IfOk, IfSome, IfNone, OnSome, length, map};
ghost use Rattle.std.specs.Bool.{Decides};
ghost use Rattle.std.specs.Cmp.Lexicographic.{pointwise};
ghost use Rattle.class_plan.specs.Plans.{IsPlan};
ghost use Rattle.class_plan.specs.Parts.{part_row};
ghost use Rattle.record_tables.specs.CodeRows.{rule_of, class_entry_of};
ghost use Rattle.record_rows.specs.Rules.{HasRows, HasNoPlan, same_rule, same_class, answer_entry};
ghost use Rattle.record_rows.specs.Merge.{unit_at, action_at, schedule_in, own_in, merge};

use crate::rules::rules_of;
use class_plan::{Action, Plan, PlanFault, Schedule, Unit};
use record_tables::rows::{ClassRow, ScheduleRow};
use std::alloc::{AllocError, Global};

/// The unit of a number: years for any but 1 and 2.
fn unit_of(number: u32) -> Unit
    ensures { result ≡ unit_at number }
{
    match number {
        1 => Unit::Days,
        2 => Unit::Months,
        _ => Unit::Years,
    }
}

/// The action of a number: destroy for any but 1 and 2.
fn action_of(number: u32) -> Action
    ensures { result ≡ action_at number }
{
    match number {
        1 => Action::Review,
        2 => Action::Transfer,
        _ => Action::Destroy,
    }
}

/// The schedule of a row, as far as the row is a schedule's.
fn schedule_in(rule: &ScheduleRow) -> Schedule
    ensures { result ≡ schedule_in (rule_of rule.now) }
{
    if rule.unit == 0 {
        return Schedule::Permanent;
    }
    Schedule::After {
        count: rule.count,
        unit: unit_of(rule.unit),
        action: action_of(rule.action),
        year_end: rule.year_end == 1,
    }
}

/// The schedule of the first row, where it has this path.
fn own_in(rules: &[ScheduleRow], path: &[u8]) -> Option<Schedule>
    ensures own { result ≡ own_in (map rule_of rules.now) path.now }
    ensures some { OnSome result (0 < length rules.now) }
{
    let Some(rule) = rules.first() else {
        return None;
    };
    if path == rule.path.as_slice() {
        Some(schedule_in(rule))
    } else {
        None
    }
}

/// The classes, each with the schedule of its path where that is the next of the rules.
fn parts_of(
    alloc: Global,
    rules: &[ScheduleRow],
    classes: &[ClassRow],
) -> Result<Vec<(Vec<u8>, bool, Option<Schedule>)>, AllocError>
    ensures { IfOk result (λ v. map part_row v.items
        ≡ merge (map rule_of rules.now) (map class_entry_of classes.now)) }
{
    let mut parts = Vec::with_capacity(alloc, classes.len())?;
    let mut place = 0;
    for class in classes {
        let path = Vec::from_slice(alloc, class.path.as_slice())?;
        let own = own_in(&rules[place..], class.path.as_slice());
        if own.is_some() {
            place += 1;
        }
        parts.push((path, class.is_open, own))?;
    }
    Ok(parts)
}

fn is_same_rule(one: &ScheduleRow, other: &ScheduleRow) -> bool
    ensures { result ≡ same_rule (rule_of one.now) (rule_of other.now) }
{
    one.path.as_slice() == other.path.as_slice()
        && one.count == other.count
        && one.unit == other.unit
        && one.action == other.action
        && one.year_end == other.year_end
}

/// Whether a row is that of a class, as a plan answers it.
fn is_class_row(class: &(&[u8], bool, Option<Schedule>), row: &ClassRow) -> bool
    ensures { result ≡ same_class (answer_entry class.now) (class_entry_of row.now) }
{
    class.0 == row.path.as_slice() && class.1 == row.is_open && row.schedule.is_none()
}

/// Whether these are the same rows of schedules, in the same order.
fn are_same_rules(rules: &[ScheduleRow], others: &[ScheduleRow]) -> bool
    ensures { result ≡ pointwise same_rule (map rule_of rules.now) (map rule_of others.now) }
{
    if rules.len() != others.len() {
        return false;
    }
    for i in 0..rules.len() {
        if !is_same_rule(&rules[i], &others[i]) {
            return false;
        }
    }
    true
}

/// Whether the rows are those of the classes, as a plan answers them, in the same order.
fn are_class_rows(classes: &[(&[u8], bool, Option<Schedule>)], rows: &[ClassRow]) -> bool
    ensures { result
        ≡ pointwise same_class (map answer_entry classes.now) (map class_entry_of rows.now) }
{
    if classes.len() != rows.len() {
        return false;
    }
    for i in 0..classes.len() {
        if !is_class_row(&classes[i], &rows[i]) {
            return false;
        }
    }
    true
}

/// Whether these are the rows of the plan.
fn has_rows(
    alloc: Global,
    plan: &Plan,
    rules: &[ScheduleRow],
    classes: &[ClassRow],
) -> Result<bool, AllocError>
    ensures { IfOk result (λ b.
        Decides b (HasRows plan.now (map rule_of rules.now) (map class_entry_of classes.now))) }
{
    let own = rules_of(alloc, plan)?;
    let told = plan.classes(alloc)?;
    Ok(are_same_rules(own.as_slice(), rules) && are_class_rows(told.as_slice(), classes))
}

/// The plan that has these rows of schedules and of classes, both in byte order of the paths. The root's schedule
/// has the empty path, and so comes first. `None` where no plan has these rows.
///
/// The only refusal is no memory (99).
pub fn plan_of_rows(
    alloc: Global,
    rules: &[ScheduleRow],
    classes: &[ClassRow],
) -> Result<Option<Plan>, AllocError>
    ensures plan { IfOk result
        (λ o. IfSome o (λ p. HasRows p (map rule_of rules.now) (map class_entry_of classes.now))) }
    ensures none { IfOk result
        (λ o. IfNone o (HasNoPlan (map rule_of rules.now) (map class_entry_of classes.now))) }
    ensures sound { IfOk result (λ o. IfSome o (λ p. IsPlan p)) }
{
    let Some((root, own)) = rules.split_first() else {
        return Ok(None);
    };
    let parts = parts_of(alloc, own, classes)?;
    match Plan::from_parts(alloc, schedule_in(root), parts) {
        Ok(plan) => {
            if has_rows(alloc, &plan, rules, classes)? {
                Ok(Some(plan))
            } else {
                Ok(None)
            }
        }
        Err(fault) => match fault {
            PlanFault::NoMemory => Err(AllocError),
            _ => Ok(None),
        },
    }
}
