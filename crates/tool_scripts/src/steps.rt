//! The fields that a message was read as, and the steps of a run over it.

use filing_image::{Image, Operation};
use filing_machine::{Step, Top, Trace};
use mail_case::Case;
use mail_head::read_head;
use std::alloc::{AllocError, Global};
use tool_console::{Failure, write_line};
use tool_texts::{Shown, put};

/// Adds the value of a field in quotation marks.
fn push_value<C: Case>(line: &mut Shown, case: &C, field: usize) -> Result<(), AllocError> {
    if field < case.field_count() {
        return line.quoted(case.value(field));
    }
    Ok(())
}

/// Writes a field by its index, and its value.
fn show_field<C: Case>(
    rt: &HostRuntime,
    line: &mut Shown,
    case: &C,
    index: usize,
    name: &[u8],
) -> Result<(), Failure> {
    let number = index.saturating_add(1);
    put!(line; "field " value(&number) " " named(name) " ")?;
    push_value(line, case, index)?;
    write_line(rt, line)
}

/// Writes the size of a message, and the fields that it was read as, a line each, numbered from 1.
pub fn show_fields<C: Case>(rt: &HostRuntime, message: &[u8], case: &C) -> Result<(), Failure> {
    let size = case.size();
    let mut line = Shown::new(rt.alloc());
    put!(line; "message of " value(&size) " octets")?;
    write_line(rt, &mut line)?;
    let head = read_head(rt.alloc(), message)?;
    for (index, field) in head.fields().iter().enumerate() {
        show_field(rt, &mut line, case, index, field.name())?;
    }
    Ok(())
}

/// Adds a truth that a step left, with the field that matched, if there is one.
fn push_truth<C: Case>(
    line: &mut Shown,
    case: &C,
    truth: bool,
    matched: Option<usize>,
) -> Result<(), AllocError> {
    put!(line; ": " value(&truth))?;
    let Some(field) = matched else {
        return Ok(());
    };
    let number = field.saturating_add(1);
    put!(line; ", by field " value(&number) " ")?;
    push_value(line, case, field)
}

/// Adds whether a run jumped to a place.
fn push_jump(line: &mut Shown, to: u16, next: Option<&Step>) -> Result<(), AllocError> {
    match next {
        Some(next) if next.place == usize::from(to) => line.words(": goes there"),
        _ => line.words(": goes on"),
    }
}

/// Adds what a step did, in words after its instruction; nothing where there is nothing to show.
fn push_told<C: Case>(
    line: &mut Shown,
    case: &C,
    operation: Operation,
    step: &Step,
    next: Option<&Step>,
) -> Result<(), AllocError> {
    match (operation, step.top) {
        (
            Operation::PushTrue
            | Operation::PushFalse
            | Operation::Not
            | Operation::Match(_, _)
            | Operation::Exists(_)
            | Operation::Less
            | Operation::Marked(_),
            Some(Top::Truth(truth)),
        ) => push_truth(line, case, truth, step.matched),
        (Operation::Values(_) | Operation::Join, Some(Top::Values(count))) => {
            put!(line; ": " value(&count) " values")
        }
        (Operation::Size | Operation::Number(_), Some(Top::Number(number))) => {
            put!(line; ": " value(&number))
        }
        (Operation::JumpIf(to) | Operation::JumpUnless(to), _) => push_jump(line, to, next),
        _ => Ok(()),
    }
}

/// An image whose run is shown, and a line for each of its instructions.
#[derive(Clone, Copy)]
struct Listing<'a> {
    code: &'a [Operation],
    lines: &'a [&'a str],
}

/// Writes a step by its index: its number from 1, the instruction and its place, and what it left.
fn show_step<C: Case>(
    rt: &HostRuntime,
    line: &mut Shown,
    shown: Listing<'_>,
    case: &C,
    steps: &[Step],
    index: usize,
) -> Result<(), Failure> {
    let Some(step) = steps.get(index) else {
        return Ok(());
    };
    let Some(operation) = shown.code.get(step.place).copied() else {
        return Ok(());
    };
    let number = index.saturating_add(1);
    let instruction = shown.lines.get(step.place).copied().unwrap_or("");
    put!(line; "step " value(&number) ": " value(&instruction))?;
    push_told(line, case, operation, step, steps.get(number))?;
    write_line(rt, line)
}

/// The lines of the instructions of an image that is shown, each by its place.
fn instruction_lines(alloc: Global, shown: &str) -> Result<Vec<&str>, AllocError> {
    let mut lines = Vec::new(alloc);
    for line in shown.lines() {
        if !line.starts_with("procedure ") {
            lines.push(line)?;
        }
    }
    Ok(lines)
}

/// Writes the steps of a run, a line each: its number from 1, the instruction and its place, and what it left.
pub fn show_steps<C: Case>(
    rt: &HostRuntime,
    image: &Image,
    case: &C,
    run: &Trace,
) -> Result<(), Failure> {
    let text = format!(in rt.alloc(); "{image}")?;
    let lines = instruction_lines(rt.alloc(), text.as_str())?;
    let shown = Listing {
        code: image.code(),
        lines: lines.as_slice(),
    };
    let mut line = Shown::new(rt.alloc());
    for index in 0..run.steps.len() {
        show_step(rt, &mut line, shown, case, run.steps.as_slice(), index)?;
    }
    Ok(())
}
