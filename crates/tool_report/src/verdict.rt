//! The verdict on a run: the commands that chose its classes.

use crate::book::Mark;
use crate::narrator::Narration;
use crate::report::Report;
use crate::schedules::{StatedBy, push_due, push_stated, schedule_words, stated_by};
use crate::way::push_line;
use crate::words::push_mark;
use class_plan::Schedule;
use std::alloc::{AllocError, Global};
use tool_texts::{Shown, fault_text, put};

/// Why a message is in a class.
#[derive(Clone, Copy)]
pub enum Reason {
    Filed(Mark),
    Kept(Mark),
    /// By the implicit keep, which no command cancelled.
    KeptImplicitly,
    /// The run ended with a fault.
    Faulted,
}

/// Why a run has a class in its outcome. The class is `unfiled` where no command filed into it.
pub fn reason_of(narration: &Narration, has_fault: bool, path: &[u8]) -> Reason {
    if has_fault {
        return Reason::Faulted;
    }
    if let Some(mark) = narration.filers.get(path) {
        return Reason::Filed(*mark);
    }
    match narration.keeper {
        Some(mark) => Reason::Kept(mark),
        None => Reason::KeptImplicitly,
    }
}

/// Adds a reason.
fn push_reason(
    text: &mut Shown,
    report: &Report<'_, '_, '_>,
    reason: Reason,
) -> Result<(), AllocError> {
    match reason {
        Reason::Filed(mark) => {
            text.words("filed by ")?;
            push_mark(text, report.book, mark)
        }
        Reason::Kept(mark) => {
            text.words("kept by ")?;
            push_mark(text, report.book, mark)
        }
        Reason::KeptImplicitly => text.words("the implicit keep, which no command cancelled"),
        Reason::Faulted => text.words("as the run ended with a fault"),
    }
}

/// Adds a schedule and where it comes from.
fn push_schedule(text: &mut Shown, schedule: &str, stated: StatedBy<'_>) -> Result<(), AllocError> {
    put!(text; "schedule " escaped(schedule.as_bytes()) ", ")?;
    push_stated(text, stated)?;
    text.words("; ")
}

/// Adds the schedule of a class, with its origin and the date on which a record of the moment is due.
fn push_disposal(
    alloc: Global,
    text: &mut Shown,
    report: &Report<'_, '_, '_>,
    classes: &[(&[u8], bool, Option<Schedule>)],
    path: &[u8],
) -> Result<(), AllocError> {
    let Some(schedule) = schedule_words(alloc, report.plan, path)? else {
        return text.words("no schedule");
    };
    push_schedule(text, schedule.as_str(), stated_by(classes, path))?;
    push_due(text, report.plan, path, report.moment)
}

/// Adds a class with its reason, and on the next line its schedule.
fn push_class(
    alloc: Global,
    text: &mut Shown,
    report: &Report<'_, '_, '_>,
    classes: &[(&[u8], bool, Option<Schedule>)],
    path: &[u8],
) -> Result<(), AllocError> {
    let reason = reason_of(report.narration, report.outcome.fault.is_some(), path);
    text.named(path)?;
    text.words(": ")?;
    push_reason(text, report, reason)?;
    text.end_line()?;
    text.words("  ")?;
    push_disposal(alloc, text, report, classes, path)?;
    text.end_line()
}

/// Adds the classes of the outcome, or that there is none.
fn push_classes(
    alloc: Global,
    text: &mut Shown,
    report: &Report<'_, '_, '_>,
) -> Result<(), AllocError> {
    let paths = report.outcome.classes.as_slice();
    if paths.is_empty() {
        return push_line(text, 0, "discarded: no command filed or kept the message");
    }
    let classes = report.plan.classes(alloc)?;
    for path in paths {
        push_class(alloc, text, report, classes.as_slice(), path.as_slice())?;
    }
    Ok(())
}

/// Adds the command that a fault is of, where a script was run.
fn push_culprit(text: &mut Shown, report: &Report<'_, '_, '_>) -> Result<(), AllocError> {
    match report.narration.culprit {
        Some(culprit) => push_mark(text, report.book, culprit),
        None => text.words("the script was not run"),
    }
}

/// Adds a fault, with the command that it is of and the includes that this was run by.
fn push_fault(text: &mut Shown, report: &Report<'_, '_, '_>) -> Result<(), AllocError> {
    let Some(fault) = report.outcome.fault else {
        return Ok(());
    };
    let number = fault.number();
    put!(text; "fault " value(&number) ": ")?;
    push_culprit(text, report)?;
    text.end_line()?;
    for mark in report.narration.by_way_of.as_slice() {
        text.words("  run by ")?;
        push_mark(text, report.book, *mark)?;
        text.end_line()?;
    }
    push_line(text, 1, fault_text(number).unwrap_or(""))
}

/// Adds which command cancelled the implicit keep, where one did.
fn push_canceller(text: &mut Shown, report: &Report<'_, '_, '_>) -> Result<(), AllocError> {
    match report.narration.canceller {
        Some(mark) if report.outcome.fault.is_none() => {
            text.words("the implicit keep: cancelled by ")?;
            push_mark(text, report.book, mark)?;
            text.end_line()
        }
        _ => Ok(()),
    }
}

/// Adds the verdict: a fault, each class with its reason and its schedule, and what cancelled the implicit keep.
pub fn push_verdict(
    alloc: Global,
    text: &mut Shown,
    report: &Report<'_, '_, '_>,
) -> Result<(), AllocError> {
    push_fault(text, report)?;
    push_classes(alloc, text, report)?;
    push_canceller(text, report)
}
