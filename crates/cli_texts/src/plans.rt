//! A plan as the text of a plan file.

ghost use Rattle.std.specs.Prelude.{◌≡◌, ◌++◌, flat_map, map, pos, option_map, IfOk, IfSome, OnOk, string_bytes};
ghost use Rattle.jiff.specs.Words.{epoch_day};
ghost use Rattle.class_plan.specs.Schedules.{IsInRange};
ghost use Rattle.class_plan.specs.Calendar.{number_of_day, due_on};
ghost use Rattle.class_plan.specs.Dates.{IsCaptureDay};
ghost use Rattle.class_plan.specs.Document.{plan_of_text as plan_of_text_in};
ghost use Rattle.class_plan.specs.Parts.{answer_row};
ghost use Rattle.class_plan.specs.Plans.{schedule_at};
ghost use Rattle.cli_texts.specs.DueDays.{due_by_plan};
ghost use Rattle.cli_texts.specs.PlanTexts.{class_lines, if_written as if_written_as, listed_lines, open_line, own_line, plan_lines, plan_written, row_lines, schedule_line, stated_line};

use crate::escapes::shown;
use class_plan::{Date, Plan, PlanFault, Schedule, date_of, day_number, schedule_text};
use std::alloc::{AllocError, Global};

/// The class that each plan has, whether it is listed or not.
const ALWAYS: &[u8] = b"unfiled";

/// The number of the last day of a capture, 2199-12-31.
const LAST_DAY: i64 = 84_005;

/// Adds `key = "schedule"` and the end of the line.
fn push_schedule(
    alloc: Global,
    text: &mut String,
    key: &str,
    schedule: Schedule,
) -> Result<(), AllocError>
    requires { IsInRange schedule }
    ensures { OnOk result
        (string_bytes text.new ≡ string_bytes text.old ++ schedule_line key.now schedule) }
{
    let octets = schedule_text(alloc, schedule)?;
    let words = shown(alloc, octets.as_slice())?;
    text.push_str(key)?;
    text.push_str(" = \"")?;
    text.push_str(words.as_str())?;
    text.push_str("\"\n")
}

/// Adds the schedule of a class.
fn push_own(alloc: Global, text: &mut String, plan: &Plan, path: &[u8]) -> Result<(), AllocError>
    ensures { OnOk result (string_bytes text.new
        ≡ string_bytes text.old ++ own_line (schedule_at plan.now path.now)) }
{
    match plan.schedule_of(path) {
        Some(schedule) => push_schedule(alloc, text, "schedule", schedule),
        None => Ok(()),
    }
}

/// Adds the schedule of a class, where it has one of its own.
fn push_stated(
    alloc: Global,
    text: &mut String,
    plan: &Plan,
    path: &[u8],
    has_own: bool,
) -> Result<(), AllocError>
    ensures { OnOk result (string_bytes text.new
        ≡ string_bytes text.old ++ stated_line plan.now path.now has_own) }
{
    if !has_own {
        return Ok(());
    }
    push_own(alloc, text, plan, path)
}

/// Adds that a class is closed, where it is.
fn push_openness(text: &mut String, is_open: bool) -> Result<(), AllocError>
    ensures { OnOk result (string_bytes text.new ≡ string_bytes text.old ++ open_line is_open) }
{
    if is_open {
        return Ok(());
    }
    text.push_str("open = false\n")
}

/// Adds a class.
fn push_class(
    alloc: Global,
    text: &mut String,
    plan: &Plan,
    path: &[u8],
    is_open: bool,
    has_own: bool,
) -> Result<(), AllocError>
    ensures { OnOk result (string_bytes text.new
        ≡ string_bytes text.old ++ class_lines plan.now path.now is_open has_own) }
{
    let shown_path = shown(alloc, path)?;
    text.push_str("\n[[class]]\npath = \"")?;
    text.push_str(shown_path.as_str())?;
    text.push_str("\"\n")?;
    push_stated(alloc, text, plan, path, has_own)?;
    push_openness(text, is_open)
}

/// Adds a class, unless it is the one that is always there and has nothing of its own.
fn push_listed(
    alloc: Global,
    text: &mut String,
    plan: &Plan,
    path: &[u8],
    is_open: bool,
    has_own: bool,
) -> Result<(), AllocError>
    ensures { OnOk result (string_bytes text.new
        ≡ string_bytes text.old ++ listed_lines plan.now path.now is_open has_own) }
{
    if path == ALWAYS && !has_own {
        return Ok(());
    }
    push_class(alloc, text, plan, path, is_open, has_own)
}

/// Adds classes.
fn push_classes(
    alloc: Global,
    text: &mut String,
    plan: &Plan,
    classes: &[(&[u8], bool, Option<Schedule>)],
) -> Result<(), AllocError>
    ensures { OnOk result (string_bytes text.new
        ≡ string_bytes text.old ++ flat_map (row_lines plan.now) (map answer_row classes.now)) }
{
    for class in classes {
        let (path, is_open, schedule) = *class;
        push_listed(alloc, text, plan, path, is_open, schedule.is_some())?;
    }
    Ok(())
}

/// The text of a plan, its classes in byte order of their paths. `plan_of_text` reads it.
///
/// The only refusal is no memory (99).
pub fn plan_text(alloc: Global, plan: &Plan) -> Result<String, AllocError>
    ensures { IfOk result (λ t. string_bytes t ≡ plan_lines plan.now) }
{
    let mut text = String::new(alloc);
    push_schedule(alloc, &mut text, "root", plan.root())?;
    let classes = plan.classes(alloc)?;
    push_classes(alloc, &mut text, plan, classes.as_slice())?;
    Ok(text)
}

/// The due date, by a plan, of a record that was captured in a class on a day; none where the class is permanent or none
/// of the plan's, and for a day that is no day of a capture.
pub fn due_by(plan: &Plan, path: &[u8], day: Date) -> Option<Date>
    ensures due { option_map epoch_day result
        ≡ option_map pos (due_by_plan plan.now path.now (epoch_day day)) }
    ensures capture { IsCaptureDay day → option_map number_of_day result
        ≡ due_on plan.now path.now (number_of_day day) }
{
    let number = day_number(day);
    if number > LAST_DAY {
        return None;
    }
    match date_of(number) {
        Some(day) => plan.due_of(path, day),
        None => None,
    }
}

/// A plan, where its text is this one.
fn if_written(alloc: Global, plan: Plan, text: &str) -> Result<Option<Plan>, AllocError>
    ensures { IfOk result (λ o. o ≡ if_written_as text.now plan) }
{
    let written = plan_text(alloc, &plan)?;
    if written.as_str() == text {
        Ok(Some(plan))
    } else {
        Ok(None)
    }
}

/// The plan of a text, where the text of that plan is the same again. So what is read back is the plan that was written:
/// a text that `plan_text` has written says all that its plan has.
///
/// The only refusal is no memory (99).
pub fn plan_of_text(alloc: Global, text: &str) -> Result<Option<Plan>, AllocError>
    ensures { IfOk result (λ o. o ≡ plan_written (plan_of_text_in text.now) text.now) }
{
    match Plan::from_toml(alloc, text.as_bytes()) {
        Ok(plan) => if_written(alloc, plan, text),
        Err(PlanFault::NoMemory) => Err(AllocError),
        Err(_) => Ok(None),
    }
}
