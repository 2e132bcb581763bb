//! The classes of a run, each with what filed the message in it and with its schedule.

use class_plan::{Plan, day_of, schedule_text};
use filing_image::{Image, Operation};
use filing_machine::{Step, Trace};
use std::alloc::AllocError;
use tool_console::{Failure, write_line};
use tool_texts::{Shown, put};

/// The command that filed a message in a class.
#[derive(Clone, Copy)]
struct Filing {
    /// The number of its step, from 1.
    number: usize,
    /// Whether it left the implicit keep in place.
    is_copy: bool,
}

/// Whether an instruction files into the class of a path as a copy; none where it does not file there.
fn files_in(image: &Image, operation: Operation, path: &[u8]) -> Option<bool> {
    let Operation::File(how, text) = operation else {
        return None;
    };
    let text = usize::from(text);
    if text < image.text_count() && image.text(text) == path {
        return Some(how != 0);
    }
    None
}

/// The command of the first step that filed the message in a class.
fn first_filing(image: &Image, steps: &[Step], path: &[u8]) -> Option<Filing> {
    for (index, step) in steps.iter().enumerate() {
        let Some(operation) = image.code().get(step.place).copied() else {
            continue;
        };
        if let Some(is_copy) = files_in(image, operation, path) {
            return Some(Filing {
                number: index.saturating_add(1),
                is_copy,
            });
        }
    }
    None
}

/// The first step that kept the message, by its number from 1.
fn keeping_step(image: &Image, steps: &[Step]) -> Option<usize> {
    let index = steps.iter().position(|step| matches!(
        image.code().get(step.place),
        Some(Operation::Keep)
    ))?;
    Some(index.saturating_add(1))
}

/// Adds the step that filed a message in the class of a path, and its command.
fn push_filing(line: &mut Shown, filing: Filing, path: &[u8]) -> Result<(), AllocError> {
    let number = filing.number;
    let copy = if filing.is_copy { ":copy " } else { "" };
    put!(line; "step " value(&number) ", fileinto " words(copy) quoted(path))
}

/// Adds the step that kept a message, or that no command did.
fn push_keep(line: &mut Shown, keeping: Option<usize>) -> Result<(), AllocError> {
    match keeping {
        Some(number) => put!(line; "step " value(&number) ", keep"),
        None => line.words("no command, as none filed it without :copy or discarded it"),
    }
}

/// Adds why a message is in a class: a fault, or the step that filed or kept it, or that no command did.
fn push_reason(
    line: &mut Shown,
    image: &Image,
    run: &Trace,
    path: &[u8],
) -> Result<(), AllocError> {
    if let Some(fault) = run.outcome.fault {
        return put!(line; "fault " value(&fault.number()));
    }
    let steps = run.steps.as_slice();
    match first_filing(image, steps, path) {
        Some(filing) => push_filing(line, filing, path),
        None => push_keep(line, keeping_step(image, steps)),
    }
}

/// Adds the schedule of a class, and the date on which a record of a moment falls due in it.
fn push_schedule(
    line: &mut Shown,
    plan: &Plan,
    moment: u64,
    path: &[u8],
) -> Result<(), AllocError> {
    let Some(schedule) = plan.schedule_of(path) else {
        return line.words("no schedule");
    };
    let Some(day) = day_of(moment) else {
        return line.words("no day");
    };
    let text = schedule_text(line.allocator(), schedule)?;
    put!(line; "schedule " escaped(text.as_slice()))?;
    match plan.due_of(path, day) {
        Some(due) => put!(line; ", from " value(&day) " due " value(&due)),
        None => line.words(", due never"),
    }
}

/// Writes the classes of a run, a line each, with the reason and the schedule. The moment is that of the capture, in
/// seconds since 1970-01-01.
pub fn show_classes(
    rt: &HostRuntime,
    image: &Image,
    plan: &Plan,
    moment: u64,
    run: &Trace,
) -> Result<(), Failure> {
    let mut line = Shown::new(rt.alloc());
    for path in run.outcome.classes.as_slice() {
        put!(line; named(path.as_slice()) " by ")?;
        push_reason(&mut line, image, run, path.as_slice())?;
        line.words("; ")?;
        push_schedule(&mut line, plan, moment, path.as_slice())?;
        write_line(rt, &mut line)?;
    }
    Ok(())
}
