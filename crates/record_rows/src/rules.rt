//! The rows of a plan.
ghost use Rattle.std.specs.Prelude.{◌≡◌, IfOk, map, [], ◌∷◌};
ghost use Rattle.class_plan.specs.Parts.{answer_row};
ghost use Rattle.record_tables.specs.CodeRows.{rule_of, class_entry_of};
ghost use Rattle.record_rows.specs.Rules.{unit_number, action_number, rule_at, own_rules, rules_of, classes_of, answer_entry};

use class_plan::{Action, Plan, Schedule, Unit};
use record_tables::rows::{ClassRow, ScheduleRow};
use std::alloc::{AllocError, Global};

/// The number of a unit: 1 days, 2 months, 3 years.
fn unit_number(unit: Unit) -> u32
    ensures { result ≡ unit_number unit }
{
    match unit {
        Unit::Days => 1,
        Unit::Months => 2,
        Unit::Years => 3,
    }
}

/// The number of an action: 1 review, 2 transfer, 3 destroy.
fn action_number(action: Action) -> u32
    ensures { result ≡ action_number action }
{
    match action {
        Action::Review => 1,
        Action::Transfer => 2,
        Action::Destroy => 3,
    }
}

/// The row of a schedule; all numbers are 0 where it is permanent.
pub(crate) fn rule_row(path: Vec<u8>, schedule: Schedule) -> ScheduleRow
    ensures { rule_of result ≡ rule_at path.items schedule }
{
    match schedule {
        Schedule::Permanent => ScheduleRow {
            path,
            count: 0,
            unit: 0,
            action: 0,
            year_end: 0,
        },
        Schedule::After {
            count,
            unit,
            action,
            year_end,
        } => ScheduleRow {
            path,
            count,
            unit: unit_number(unit),
            action: action_number(action),
            year_end: if year_end { 1 } else { 0 },
        },
    }
}

/// The rows of the root's schedule and of the classes' own ones.
fn rules_from(
    alloc: Global,
    root: Schedule,
    classes: &[(&[u8], bool, Option<Schedule>)],
) -> Result<Vec<ScheduleRow>, AllocError>
    ensures { IfOk result
        (λ v. map rule_of v.items ≡ rule_at [] root ∷ own_rules (map answer_row classes.now)) }
{
    let mut rules = Vec::new(alloc);
    rules.push(rule_row(Vec::new(alloc), root))?;
    for class in classes {
        if let Some(schedule) = class.2 {
            let path = Vec::from_slice(alloc, class.0)?;
            rules.push(rule_row(path, schedule))?;
        }
    }
    Ok(rules)
}

fn classes_from(
    alloc: Global,
    classes: &[(&[u8], bool, Option<Schedule>)],
) -> Result<Vec<ClassRow>, AllocError>
    ensures { IfOk result (λ v. map class_entry_of v.items ≡ map answer_entry classes.now) }
{
    let mut rows = Vec::with_capacity(alloc, classes.len())?;
    for class in classes {
        let path = Vec::from_slice(alloc, class.0)?;
        rows.push(ClassRow {
            path,
            is_open: class.1,
            schedule: None,
        })?;
    }
    Ok(rows)
}

/// The rows of a plan's schedules: that of the root, whose path is empty, and one for each class that has
/// a schedule of its own, in byte order of the paths.
///
/// The only refusal is no memory (99).
pub fn rules_of(alloc: Global, plan: &Plan) -> Result<Vec<ScheduleRow>, AllocError>
    ensures { IfOk result (λ v. map rule_of v.items ≡ rules_of plan.now) }
{
    let classes = plan.classes(alloc)?;
    rules_from(alloc, plan.root(), classes.as_slice())
}

/// The rows of a plan's classes, in byte order of the paths.
///
/// The only refusal is no memory (99).
pub fn classes_of(alloc: Global, plan: &Plan) -> Result<Vec<ClassRow>, AllocError>
    ensures { IfOk result (λ v. map class_entry_of v.items ≡ classes_of plan.now) }
{
    let classes = plan.classes(alloc)?;
    classes_from(alloc, classes.as_slice())
}
