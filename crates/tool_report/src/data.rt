//! A report as JSON. Octets are texts as they are shown between quotation marks.

ghost use Rattle.tool_report.specs.Reports.{IsOfMessage};

use crate::book::{Book, Mark};
use crate::details::detail_lines;
use crate::fields::passed_over;
use crate::narrator::{Row, Told};
use crate::nodes::{Node, Thing};
use crate::report::{Digest, Report};
use crate::room::Room;
use crate::schedules::{StatedBy, due_date, push_stated, schedule_words, stated_by};
use crate::verdict::{Reason, reason_of};
use crate::way::push_told;
use crate::words::words_at;
use class_plan::{Date, Schedule, day_of};
use serde_json::{Map, Number, Value, push, put};
use sieve_evaluator::BorrowedField;
use sieve_meaning::RunFault;
use std::alloc::{AllocError, Global};
use tool_texts::{Shown, escaped, fault_text};

/// An object that is made member by member.
#[derive(Drop)]
struct Members {
    alloc: Global,
    map: Map<String, Value>,
}

impl Members {
    fn new(alloc: Global) -> Members {
        Members {
            alloc,
            map: Map::new(alloc),
        }
    }

    fn value(&mut self, key: &str, value: Value) -> Result<(), AllocError> {
        put(&mut self.map, self.alloc, key, value)
    }

    fn text(&mut self, key: &str, text: String) -> Result<(), AllocError> {
        self.value(key, Value::String(text))
    }

    fn words(&mut self, key: &str, words: &str) -> Result<(), AllocError> {
        let text = String::from_str(self.alloc, words)?;
        self.text(key, text)
    }

    fn octets(&mut self, key: &str, octets: &[u8]) -> Result<(), AllocError> {
        let text = escaped(self.alloc, octets)?;
        self.text(key, text)
    }

    fn count(&mut self, key: &str, count: usize) -> Result<(), AllocError> {
        self.value(key, Value::Number(Number::from(count)))
    }

    /// Adds a date as text, or null.
    fn date(&mut self, key: &str, date: Option<Date>) -> Result<(), AllocError> {
        let value = date_data(self.alloc, date)?;
        self.value(key, value)
    }

    /// Adds what a mark is of, or null.
    fn mark(&mut self, key: &str, book: &Book<'_>, mark: Option<Mark>) -> Result<(), AllocError> {
        let value = mark_if(self.alloc, book, mark)?;
        self.value(key, value)
    }

    fn into_value(self) -> Value {
        Value::Object(self.map)
    }
}

/// Adds the script, the place and the words of a mark.
fn add_mark(members: &mut Members, book: &Book<'_>, mark: Mark) -> Result<(), AllocError> {
    if let Some(page) = book.pages.get(mark.page) {
        members.octets("script", page.label)?;
    }
    if let Some(place) = book.place(mark) {
        members.count("line", place.line)?;
        members.count("column", place.column)?;
    }
    let words = words_at(members.alloc, book, mark)?;
    members.text("words", words.into_string())
}

fn mark_data(alloc: Global, book: &Book<'_>, mark: Mark) -> Result<Value, AllocError> {
    let mut members = Members::new(alloc);
    add_mark(&mut members, book, mark)?;
    Ok(members.into_value())
}

/// A mark, or null.
fn mark_if(alloc: Global, book: &Book<'_>, mark: Option<Mark>) -> Result<Value, AllocError> {
    match mark {
        Some(mark) => mark_data(alloc, book, mark),
        None => Ok(Value::Null),
    }
}

fn lines_data(alloc: Global, lines: Vec<Shown>) -> Result<Value, AllocError> {
    let mut values = Vec::new(alloc);
    for line in lines {
        push(&mut values, Value::String(line.into_string()))?;
    }
    Ok(Value::Array(values))
}

/// The includes that a faulty command was run by.
fn includes_data(alloc: Global, report: &Report<'_, '_, '_>) -> Result<Value, AllocError> {
    let mut includes = Vec::new(alloc);
    for mark in report.narration.by_way_of.as_slice() {
        push(&mut includes, mark_data(alloc, report.book, *mark)?)?;
    }
    Ok(Value::Array(includes))
}

/// Adds the number and the text of a fault, and the command that it is of.
fn add_fault(
    members: &mut Members,
    report: &Report<'_, '_, '_>,
    fault: RunFault,
) -> Result<(), AllocError> {
    members.count("number", usize::from(fault.number()))?;
    members.words("text", fault_text(fault.number()).unwrap_or(""))?;
    members.mark("by", report.book, report.narration.culprit)?;
    let includes = includes_data(members.alloc, report)?;
    members.value("run_by", includes)
}

/// The fault of a run, or null.
fn fault_data(alloc: Global, report: &Report<'_, '_, '_>) -> Result<Value, AllocError> {
    let Some(fault) = report.outcome.fault else {
        return Ok(Value::Null);
    };
    let mut members = Members::new(alloc);
    add_fault(&mut members, report, fault)?;
    Ok(members.into_value())
}

/// A date as text, or null.
fn date_data(alloc: Global, date: Option<Date>) -> Result<Value, AllocError> {
    match date {
        Some(date) => Ok(Value::String(format!(in alloc; "{date}")?)),
        None => Ok(Value::Null),
    }
}

/// The word for the reason of a class, and the command that it names.
fn reason_word(report: &Report<'_, '_, '_>, path: &[u8]) -> (&'static str, Option<Mark>) {
    match reason_of(report.narration, report.outcome.fault.is_some(), path) {
        Reason::Filed(mark) => ("filed", Some(mark)),
        Reason::Kept(mark) => ("kept", Some(mark)),
        Reason::KeptImplicitly => ("implicit keep", None),
        Reason::Faulted => ("fault", report.narration.culprit),
    }
}

/// Adds a class and its reason.
fn add_reason(
    members: &mut Members,
    report: &Report<'_, '_, '_>,
    path: &[u8],
) -> Result<(), AllocError> {
    let (word, mark) = reason_word(report, path);
    members.octets("class", path)?;
    members.words("reason", word)?;
    members.mark("by", report.book, mark)
}

/// Where a schedule comes from, in words.
fn stated_words(alloc: Global, stated: StatedBy<'_>) -> Result<String, AllocError> {
    let mut text = Shown::new(alloc);
    push_stated(&mut text, stated)?;
    Ok(text.into_string())
}

/// Adds the schedule of a class, where that comes from, and when a record of the moment is due; nothing where it has none.
fn add_schedule(
    members: &mut Members,
    report: &Report<'_, '_, '_>,
    classes: &[(&[u8], bool, Option<Schedule>)],
    path: &[u8],
) -> Result<(), AllocError> {
    let Some(schedule) = schedule_words(members.alloc, report.plan, path)? else {
        return Ok(());
    };
    members.text("schedule", schedule)?;
    let stated = stated_words(members.alloc, stated_by(classes, path))?;
    members.text("stated", stated)?;
    members.date("due", due_date(report.plan, path, report.moment))
}

fn class_data(
    alloc: Global,
    report: &Report<'_, '_, '_>,
    classes: &[(&[u8], bool, Option<Schedule>)],
    path: &[u8],
) -> Result<Value, AllocError> {
    let mut members = Members::new(alloc);
    add_reason(&mut members, report, path)?;
    add_schedule(&mut members, report, classes, path)?;
    Ok(members.into_value())
}

/// The classes of an outcome, given all classes of the plan in order.
fn outcome_data(
    alloc: Global,
    report: &Report<'_, '_, '_>,
    classes: &[(&[u8], bool, Option<Schedule>)],
) -> Result<Value, AllocError> {
    let mut values = Vec::new(alloc);
    for path in report.outcome.classes.as_slice() {
        push(
            &mut values,
            class_data(alloc, report, classes, path.as_slice())?,
        )?;
    }
    Ok(Value::Array(values))
}

fn classes_data(alloc: Global, report: &Report<'_, '_, '_>) -> Result<Value, AllocError> {
    let classes = report.plan.classes(alloc)?;
    outcome_data(alloc, report, classes.as_slice())
}

/// Adds a field of a message, with its number from 1.
fn add_field(
    members: &mut Members,
    place: usize,
    field: &BorrowedField<'_>,
) -> Result<(), AllocError> {
    members.count("number", place.saturating_add(1))?;
    members.octets("name", field.name)?;
    members.octets("value", field.value.as_slice())
}

fn field_data(alloc: Global, place: usize, field: &BorrowedField<'_>) -> Result<Value, AllocError> {
    let mut members = Members::new(alloc);
    add_field(&mut members, place, field)?;
    Ok(members.into_value())
}

fn fields_data(alloc: Global, fields: &[BorrowedField<'_>]) -> Result<Value, AllocError> {
    let mut values = Vec::new(alloc);
    for (place, field) in fields.iter().enumerate() {
        push(&mut values, field_data(alloc, place, field)?)?;
    }
    Ok(Value::Array(values))
}

/// The parts of a header that are no fields, but for those without octets.
fn parts_data(alloc: Global, parts: &[&[u8]]) -> Result<Value, AllocError> {
    let mut values = Vec::new(alloc);
    for part in parts {
        if !part.is_empty() {
            push(&mut values, Value::String(escaped(alloc, part)?))?;
        }
    }
    Ok(Value::Array(values))
}

/// Adds the size of the message in octets, its fields, and the parts of its header that are no fields.
fn add_message(members: &mut Members, report: &Report<'_, '_, '_>) -> Result<(), AllocError> {
    let alloc = members.alloc;
    members.value("size", Value::Number(Number::from(report.case.size)))?;
    members.value("fields", fields_data(alloc, report.case.fields.as_slice())?)?;
    let parts = passed_over(alloc, report.message)?;
    members.value("passed_over", parts_data(alloc, parts.as_slice())?)
}

fn message_data(alloc: Global, report: &Report<'_, '_, '_>) -> Result<Value, AllocError> {
    let mut members = Members::new(alloc);
    add_message(&mut members, report)?;
    Ok(members.into_value())
}

/// What a command or a test came to, in words.
fn told_words(
    alloc: Global,
    book: &Book<'_>,
    node: Node<'_>,
    told: Told,
    next: Option<&Row>,
) -> Result<Shown, AllocError> {
    let mut text = Shown::new(alloc);
    push_told(&mut text, book, node, told, next)?;
    Ok(text)
}

/// Adds what a command or a test came to: a test's answer and what it was decided by, or a command's words.
fn add_told(
    members: &mut Members,
    report: &Report<'_, '_, '_>,
    node: Node<'_>,
    row: Row,
    next: Option<&Row>,
    room: &mut Room,
) -> Result<(), AllocError> {
    let alloc = members.alloc;
    if let (Thing::Test(test), Told::Answered(answer)) = (node.thing, row.told) {
        members.value("answer", Value::Bool(answer))?;
        let lines = detail_lines(alloc, report.case, test, answer, room)?;
        return members.value("by", lines_data(alloc, lines)?);
    }
    let words = told_words(alloc, report.book, node, row.told, next)?;
    members.words("told", words.as_str().strip_prefix(": ").unwrap_or(""))
}

/// Adds what a row says.
fn add_row(
    members: &mut Members,
    report: &Report<'_, '_, '_>,
    row: Row,
    next: Option<&Row>,
    room: &mut Room,
) -> Result<(), AllocError> {
    add_mark(members, report.book, row.mark)?;
    members.count("depth", row.depth)?;
    match report.book.node(row.mark) {
        Some(node) => add_told(members, report, node, row, next, room),
        None => Ok(()),
    }
}

fn row_data(
    alloc: Global,
    report: &Report<'_, '_, '_>,
    row: Row,
    next: Option<&Row>,
    room: &mut Room,
) -> Result<Value, AllocError> {
    let mut members = Members::new(alloc);
    add_row(&mut members, report, row, next, room)?;
    Ok(members.into_value())
}

fn way_data(alloc: Global, report: &Report<'_, '_, '_>) -> Result<Value, AllocError> {
    let rows = report.narration.rows.as_slice();
    let mut room = Room::new();
    let mut values = Vec::new(alloc);
    for (index, row) in rows.iter().enumerate() {
        let next = rows.get(index.saturating_add(1));
        push(&mut values, row_data(alloc, report, *row, next, &mut room)?)?;
    }
    Ok(Value::Array(values))
}

/// Adds a digest and the path of its file.
fn add_digest(members: &mut Members, digest: &Digest) -> Result<(), AllocError> {
    members.octets("sha256", digest.sha256.as_bytes())?;
    members.octets("file", digest.path.as_bytes())
}

fn digest_data(alloc: Global, digest: &Digest) -> Result<Value, AllocError> {
    let mut members = Members::new(alloc);
    add_digest(&mut members, digest)?;
    Ok(members.into_value())
}

fn digests_data(alloc: Global, digests: &[Digest]) -> Result<Value, AllocError> {
    let mut values = Vec::new(alloc);
    for digest in digests {
        push(&mut values, digest_data(alloc, digest)?)?;
    }
    Ok(Value::Array(values))
}

/// Adds the parts of a report.
fn add_report(members: &mut Members, report: &Report<'_, '_, '_>) -> Result<(), AllocError> {
    let alloc = members.alloc;
    members.date("day", day_of(report.moment))?;
    members.value("fault", fault_data(alloc, report)?)?;
    members.value("classes", classes_data(alloc, report)?)?;
    members.mark("canceller", report.book, report.narration.canceller)?;
    members.value("message", message_data(alloc, report)?)?;
    members.value("way", way_data(alloc, report)?)?;
    members.value("files", digests_data(alloc, report.digests)?)
}

/// The report as one line of JSON, with the members `day`, `fault`, `classes`, `canceller`, `message`, `way` and
/// `files`. The only error is out of memory.
pub fn report_json(alloc: Global, report: &Report<'_, '_, '_>) -> Result<String, AllocError>
    requires { IsOfMessage report.now }
{
    let mut members = Members::new(alloc);
    add_report(&mut members, report)?;
    members.into_value().to_string(alloc)
}
