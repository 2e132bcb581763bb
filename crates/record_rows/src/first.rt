//! The rows of version 1, in which schedules are texts.
ghost use Rattle.std.specs.Prelude.{◌≡◌, IfOk, IfSome, IfNone, [], ◌∷◌, map, option_map};
ghost use Rattle.record_tables.specs.CodeRows.{rule_of, class_entry_of};
ghost use Rattle.record_rows.specs.Rules.{rule_at};
ghost use Rattle.record_rows.specs.Texts.{HasTexts, HasNoTexts, without_schedule, text_rules, rules_of_texts};

use crate::plans::plan_of_rows;
use crate::rules::rule_row;
use class_plan::{Plan, Schedule, schedule_of_text};
use record_tables::rows::{ClassRow, ScheduleRow};
use std::alloc::{AllocError, Global};

/// The row of the root's schedule, and after it those of the schedules that classes have as texts. `None` where a text
/// is no schedule's.
fn rules_after(
    alloc: Global,
    root: Schedule,
    classes: &[ClassRow],
) -> Result<Option<Vec<ScheduleRow>>, AllocError>
    ensures { IfOk result (λ o. option_map (λ v. map rule_of v.items) o ≡
        option_map (λ rs. rule_at [] root ∷ rs) (text_rules (map class_entry_of classes.now))) }
{
    let mut rules = Vec::new(alloc);
    rules.push(rule_row(Vec::new(alloc), root))?;
    for class in classes {
        if let Some(text) = &class.schedule {
            let Some(schedule) = schedule_of_text(text.as_slice()) else {
                return Ok(None);
            };
            let path = Vec::from_slice(alloc, class.path.as_slice())?;
            rules.push(rule_row(path, schedule))?;
        }
    }
    Ok(Some(rules))
}

/// The rows of version 2 for the schedules that version 1 has as texts: that of the root, and one for each class
/// that has a text. `None` where a text is no schedule's.
///
/// The only refusal is no memory (99).
pub fn rules_of_texts(
    alloc: Global,
    root: &[u8],
    classes: &[ClassRow],
) -> Result<Option<Vec<ScheduleRow>>, AllocError>
    ensures { IfOk result (λ o. option_map (λ v. map rule_of v.items) o ≡
        rules_of_texts root.now (map class_entry_of classes.now)) }
{
    match schedule_of_text(root) {
        Some(root) => rules_after(alloc, root, classes),
        None => Ok(None),
    }
}

/// The rows of version 2 for classes of version 1, without the texts of their schedules.
///
/// The only refusal is no memory (99).
pub fn classes_without_texts(
    alloc: Global,
    classes: &[ClassRow],
) -> Result<Vec<ClassRow>, AllocError>
    ensures { IfOk result (λ v. map class_entry_of v.items
        ≡ map (λ c. without_schedule (class_entry_of c)) classes.now) }
{
    let mut rows = Vec::with_capacity(alloc, classes.len())?;
    for class in classes {
        let path = Vec::from_slice(alloc, class.path.as_slice())?;
        rows.push(ClassRow {
            path,
            is_open: class.is_open,
            schedule: None,
        })?;
    }
    Ok(rows)
}

/// The plan of the rows of version 1: the text of the root's schedule, and the classes in byte order of their
/// paths, with the texts of their own schedules. `None` where no plan has these rows.
///
/// The only refusal is no memory (99).
pub fn plan_of_texts(
    alloc: Global,
    root: &[u8],
    classes: &[ClassRow],
) -> Result<Option<Plan>, AllocError>
    ensures plan { IfOk result
        (λ o. IfSome o (λ p. HasTexts p root.now (map class_entry_of classes.now))) }
    ensures none { IfOk result
        (λ o. IfNone o (HasNoTexts root.now (map class_entry_of classes.now))) }
{
    let Some(rules) = rules_of_texts(alloc, root, classes)? else {
        return Ok(None);
    };
    let rows = classes_without_texts(alloc, classes)?;
    match plan_of_rows(alloc, rules.as_slice(), rows.as_slice())? {
        Some(plan) => Ok(Some(plan)),
        None => Ok(None),
    }
}
