//! The way of a run by the source: what it came to, in lines.

use crate::book::Book;
use crate::details::detail_lines;
use crate::narrator::{Row, Told};
use crate::nodes::{Node, Thing};
use crate::report::Report;
use crate::room::Room;
use crate::words::{push_label, push_place, push_words};
use sieve_evaluator::{Act, Inclusion};
use sieve_meaning::reading::include;
use sieve_meaning::{CommandWord, RunFault, command_word};
use sieve_syntax::Command;
use std::alloc::{AllocError, Global};
use tool_texts::{Shown, put};

/// Adds the fault of a command, after its words.
fn push_fault(text: &mut Shown, fault: RunFault) -> Result<(), AllocError> {
    put!(text; ": fault " value(&fault.number()))
}

fn push_act(text: &mut Shown, act: Act) -> Result<(), AllocError> {
    let words = match act {
        Act::Nothing => "",
        Act::Passes => ": not tried, as a branch before it was taken",
        Act::Stops => ": the run ends",
        Act::Returns => ": the script ends",
        Act::Keeps => ": keeps the message in unfiled",
        Act::Discards => ": cancels the implicit keep",
        Act::Files => ": files, and cancels the implicit keep",
        Act::Copies => ": files a copy",
        Act::Refuses => return push_fault(text, RunFault::ClassNotOpen),
    };
    text.words(words)
}

/// Adds that an include runs a script, by its name.
fn push_runs(text: &mut Shown, book: &Book<'_>, command: &Command) -> Result<(), AllocError> {
    let script = include(command.arguments.as_slice()).script;
    text.words(": runs ")?;
    push_label(text, book, book.page_named(&script))
}

fn push_inclusion(
    text: &mut Shown,
    book: &Book<'_>,
    command: &Command,
    inclusion: Inclusion,
) -> Result<(), AllocError> {
    match inclusion {
        Inclusion::Enters => push_runs(text, book, command),
        Inclusion::EnteredBefore => text.words(": nothing, as the script was entered before"),
        Inclusion::Missing if include(command.arguments.as_slice()).is_optional => {
            text.words(": nothing, as there is no such script")
        }
        Inclusion::Missing => push_fault(text, RunFault::ScriptMissing),
        Inclusion::Active => push_fault(text, RunFault::RecursiveInclude),
        Inclusion::TooDeep => push_fault(text, RunFault::NestingTooDeep),
    }
}

/// What a branch came to that the run reached, by the answer of its test, which is the next row.
fn branch_words(command: &Command, next: Option<&Row>) -> &'static str {
    match command_word(command.name.as_slice()) {
        CommandWord::Else => ": taken",
        CommandWord::If | CommandWord::ElsIf => match next.map(|row| row.told) {
            Some(Told::Answered(true)) => ": taken",
            _ => ": not taken",
        },
        _ => "",
    }
}

fn push_command(
    text: &mut Shown,
    book: &Book<'_>,
    command: &Command,
    told: Told,
    next: Option<&Row>,
) -> Result<(), AllocError> {
    match told {
        Told::Did(act) => push_act(text, act),
        Told::Included(inclusion) => push_inclusion(text, book, command, inclusion),
        Told::EnteredAgain => {
            push_runs(text, book, command)?;
            text.words(" again, as above")
        }
        Told::Reached | Told::Answered(_) => text.words(branch_words(command, next)),
    }
}

/// Adds what a command or a test came to, in words that follow its own.
pub fn push_told(
    text: &mut Shown,
    book: &Book<'_>,
    node: Node<'_>,
    told: Told,
    next: Option<&Row>,
) -> Result<(), AllocError> {
    match (node.thing, told) {
        (Thing::Command(command), _) => push_command(text, book, command, told, next),
        (Thing::Test(_), Told::Answered(answer)) => put!(text; ": " value(&answer)),
        (Thing::Test(_), _) => Ok(()),
    }
}

/// Adds a number of indentations of two columns.
pub fn push_indent(text: &mut Shown, depth: usize) -> Result<(), AllocError> {
    for _ in 0..depth {
        text.words("  ")?;
    }
    Ok(())
}

/// Adds a line after a number of indentations.
pub fn push_line(text: &mut Shown, depth: usize, line: &'static str) -> Result<(), AllocError> {
    push_indent(text, depth)?;
    text.words(line)?;
    text.end_line()
}

/// Adds lines after a number of indentations.
fn push_lines(text: &mut Shown, depth: usize, lines: &[Shown]) -> Result<(), AllocError> {
    for line in lines {
        push_indent(text, depth)?;
        text.text(line)?;
        text.end_line()?;
    }
    Ok(())
}

/// Adds what a row says.
fn push_row(
    alloc: Global,
    text: &mut Shown,
    report: &Report<'_, '_, '_>,
    row: Row,
    next: Option<&Row>,
    room: &mut Room,
) -> Result<(), AllocError> {
    let Some(node) = report.book.node(row.mark) else {
        return Ok(());
    };
    let depth = row.depth.saturating_add(1);
    push_indent(text, depth)?;
    push_place(text, report.book, row.mark)?;
    text.words(" ")?;
    push_words(text, node.thing)?;
    push_told(text, report.book, node, row.told, next)?;
    text.end_line()?;
    if let (Thing::Test(test), Told::Answered(answer)) = (node.thing, row.told) {
        let lines = detail_lines(alloc, report.case, test, answer, room)?;
        return push_lines(text, depth.saturating_add(1), lines.as_slice());
    }
    Ok(())
}

/// Adds the way of a run: its main script's name, and below that what it came to.
pub fn push_way(
    alloc: Global,
    text: &mut Shown,
    report: &Report<'_, '_, '_>,
) -> Result<(), AllocError> {
    push_label(text, report.book, 0)?;
    text.end_line()?;
    let mut room = Room::new();
    let rows = report.narration.rows.as_slice();
    for (index, row) in rows.iter().enumerate() {
        let next = rows.get(index.saturating_add(1));
        push_row(alloc, text, report, *row, next, &mut room)?;
    }
    Ok(())
}
