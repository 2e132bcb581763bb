//! Records as lines and as JSON.

ghost use Rattle.std.specs.Prelude.{◌≡◌, ◌++◌, ◌∷◌, [], flat_map, map, option_map, IfOk, OnOk, string_bytes};
ghost use Rattle.serde_json.specs.Data.{no_members};
ghost use Rattle.serde_json.specs.View.{members_view, view};
ghost use Rattle.cli_texts.specs.Headers.{texts_in};
ghost use Rattle.cli_texts.specs.Json.{due_value as due_value_of, header_members, json_text as json_text_of, record_members as record_members_of, record_value as record_value_of, text_members, texts_value, with_members};
ghost use Rattle.cli_texts.specs.Lines.{due_words, captured, listed_front, listed_state, hold_words, listed, header_words, texts_words};

use crate::headers::{Headers, ListedHeaders};
use crate::json::{add_volume, json_text, put_shown, shown_value};
use crate::numbers::put_number;
use class_plan::Date;
use record_archive::Line;
use serde_json::{Map, Value};
use std::alloc::{AllocError, Global};
use tool_texts::{Shown, put};

/// A record as it is listed.
#[derive(Clone, Copy)]
pub struct Row<'a> {
    /// The number of its volume, in an archive of volumes.
    pub volume: Option<u32>,
    pub number: u32,
    pub path: &'a [u8],
    /// The day of its capture.
    pub day: Date,
    /// The day on which it falls due; none where its schedule is permanent, and where it is destroyed.
    pub due: Option<Date>,
    /// The names of its holds.
    pub holds: &'a [Vec<u8>],
    pub destroyed: bool,
}

/// Adds a due date, or `never`.
pub(crate) fn put_due(text: &mut Shown, due: Option<Date>) -> Result<(), AllocError>
    ensures { OnOk result (text.new ≡ text.old ++ due_words due) }
{
    match due {
        Some(date) => text.value(&date),
        None => text.words("never"),
    }
}

/// A record of a capture in words, as a session answers it: `record 1 class finance due 2030-11-14`; in a volume
/// `record 3/1 class finance due 2030-11-14`.
#[tactic(auto, unfolding(crate::specs::Lines::captured))]
pub fn captured_words(alloc: Global, volume: Option<u32>, line: &Line) -> Result<Shown, AllocError>
    ensures { IfOk result (λ t. t ≡ captured volume line.now) }
{
    let mut text = Shown::new(alloc);
    text.words("record ")?;
    put_number(&mut text, volume, line.number)?;
    put!(text; " class " named(line.path.as_slice()) " due ")?;
    put_due(&mut text, line.due)?;
    Ok(text)
}

/// The line of a record of a capture: its words, and the end of the line.
pub fn captured_line(alloc: Global, volume: Option<u32>, line: &Line) -> Result<Shown, AllocError>
    ensures { IfOk result (λ t. t ≡ captured volume line.now ++ 10 ∷ []) }
{
    let mut text = captured_words(alloc, volume, line)?;
    text.end_line()?;
    Ok(text)
}

/// Adds the texts of a header in quotation marks, each cut to 80 columns.
#[tactic(auto, unfolding(crate::specs::Lines::header_words))]
fn put_headers(line: &mut Shown, headers: &Headers) -> Result<(), AllocError>
    ensures { OnOk result (line.new ≡ line.old ++ header_words headers.now) }
{
    let cut = headers.cut(line.allocator())?;
    put!(line;
        " sender " quoted(cut.sender.as_bytes())
        " subject " quoted(cut.subject.as_bytes())
        " date " quoted(cut.date.as_bytes())
    )
}

/// Adds the texts of a header, where there are any.
fn put_texts(line: &mut Shown, texts: Option<&Headers>) -> Result<(), AllocError>
    ensures { OnOk result
        (line.new ≡ line.old ++ texts_words (option_map (λ h. h.now) texts.entry)) }
{
    match texts {
        Some(texts) => put_headers(line, texts),
        None => Ok(()),
    }
}

/// Adds the number of a record, its class and the day of its capture.
#[tactic(auto, unfolding(crate::specs::Lines::listed_front))]
fn put_front(line: &mut Shown, row: &Row<'_>) -> Result<(), AllocError>
    ensures { OnOk result (line.new ≡ line.old ++ listed_front row.now) }
{
    line.words("record ")?;
    put_number(line, row.volume, row.number)?;
    put!(line; " class " named(row.path) " day " value(&row.day))
}

/// Adds when a record is due, or that it is destroyed.
fn put_state(line: &mut Shown, row: &Row<'_>) -> Result<(), AllocError>
    ensures { OnOk result (line.new ≡ line.old ++ listed_state row.now) }
{
    if row.destroyed {
        return line.words(" destroyed");
    }
    line.words(" due ")?;
    put_due(line, row.due)
}

/// Adds each hold on a record.
fn put_holds(line: &mut Shown, holds: &[Vec<u8>]) -> Result<(), AllocError>
    ensures { OnOk result
        (line.new ≡ line.old ++ flat_map (λ h. hold_words h.items) holds.now) }
{
    for name in holds {
        put!(line; " hold " named(name.as_slice()))?;
    }
    Ok(())
}

/// A listed record, before what is said of its message's header.
fn record_text(alloc: Global, row: &Row<'_>) -> Result<Shown, AllocError>
    ensures { IfOk result (λ line. line ≡ listed row.now) }
{
    let mut line = Shown::new(alloc);
    put_front(&mut line, row)?;
    put_state(&mut line, row)?;
    put_holds(&mut line, row.holds)?;
    Ok(line)
}

/// The line of a listed record: `record 1 class finance day 2023-11-14 due 2030-11-14`, then ` hold NAME` for each hold. In a
/// volume the number is as `3/1`. One that is destroyed has ` destroyed` in place of its due date. What is listed of its
/// message's header comes last, as ` sender "Ann" subject "a bill" date ""`: each text in quotation marks, and cut to 80
/// columns.
pub fn listed_line(
    alloc: Global,
    row: &Row<'_>,
    headers: ListedHeaders<'_>,
) -> Result<Shown, AllocError>
    ensures { IfOk result
        (λ line. line ≡ listed row.now ++ texts_words (texts_in headers.entry) ++ 10 ∷ []) }
{
    let mut line = record_text(alloc, row)?;
    put_texts(&mut line, headers.texts())?;
    line.end_line()?;
    Ok(line)
}

/// A due date, or null.
fn due_value(alloc: Global, due: Option<Date>) -> Result<Value, AllocError>
    ensures { IfOk result (λ v. view v ≡ due_value_of due) }
{
    match due {
        Some(date) => Ok(Value::from(format!(in alloc; "{date}")?)),
        None => Ok(Value::Null),
    }
}

/// The names of holds.
fn holds_value(alloc: Global, holds: &[Vec<u8>]) -> Result<Value, AllocError>
    ensures { IfOk result (λ v. view v ≡ texts_value (map (λ h. h.items) holds.now)) }
{
    let mut names = Vec::new(alloc);
    for name in holds {
        names.push(shown_value(alloc, name.as_slice())?)?;
    }
    Ok(Value::from(names))
}

/// The members of a record's object that come before what its message's header says.
fn record_members(alloc: Global, row: &Row<'_>) -> Result<Map<String, Value>, AllocError>
    ensures { IfOk result
        (λ m. members_view m.entries ≡ with_members (record_members_of row.now) no_members) }
{
    let date = row.day;
    let day = format!(in alloc; "{date}")?;
    let due = due_value(alloc, row.due)?;
    let holds = holds_value(alloc, row.holds)?;
    let mut members = Map::new(alloc);
    serde_json::put(&mut members, alloc, "number", Value::from(row.number))?;
    put_shown(alloc, &mut members, "class", row.path)?;
    serde_json::put(&mut members, alloc, "day", Value::from(day))?;
    serde_json::put(&mut members, alloc, "due", due)?;
    serde_json::put(&mut members, alloc, "holds", holds)?;
    serde_json::put(&mut members, alloc, "destroyed", Value::from(row.destroyed))?;
    Ok(members)
}

/// Adds the members of a message's header.
fn add_texts(
    alloc: Global,
    members: &mut Map<String, Value>,
    sender: Value,
    subject: Value,
    date: Value,
) -> Result<(), AllocError>
    ensures { OnOk result (members_view members.new.entries
        ≡ with_members (text_members (view sender) (view subject) (view date))
        (members_view members.old.entries)) }
{
    serde_json::put(members, alloc, "sender", sender)?;
    serde_json::put(members, alloc, "subject", subject)?;
    serde_json::put(members, alloc, "date", date)
}

/// Adds what is listed of a message's header: its texts, or null where the message is destroyed.
fn add_headers(
    alloc: Global,
    members: &mut Map<String, Value>,
    headers: ListedHeaders<'_>,
) -> Result<(), AllocError>
    ensures { OnOk result (members_view members.new.entries
        ≡ with_members (header_members headers.entry) (members_view members.old.entries)) }
{
    match headers {
        ListedHeaders::Unasked => Ok(()),
        ListedHeaders::Destroyed => {
            add_texts(alloc, members, Value::Null, Value::Null, Value::Null)
        }
        ListedHeaders::Texts(headers) => {
            let sender = Value::try_from_str(alloc, headers.sender.as_str())?;
            let subject = Value::try_from_str(alloc, headers.subject.as_str())?;
            let date = Value::try_from_str(alloc, headers.date.as_str())?;
            add_texts(alloc, members, sender, subject, date)
        }
    }
}

/// A record as a value.
#[tactic(auto, using(crate::proofs::JsonLemmas::with_more))]
fn record_value(
    alloc: Global,
    row: &Row<'_>,
    headers: ListedHeaders<'_>,
) -> Result<Value, AllocError>
    ensures { IfOk result (λ v. view v ≡ record_value_of row.now headers.entry) }
{
    let mut members = record_members(alloc, row)?;
    add_volume(alloc, &mut members, row.volume)?;
    add_headers(alloc, &mut members, headers)?;
    Ok(Value::from(members))
}

/// A record as a JSON object, in ASCII. In a volume it has the number of the volume as `volume`. Where what its message's
/// header says is asked for, the object has it as `sender`, `subject` and `date`: as texts, or null where the message is
/// destroyed.
///
/// The only refusal is no memory (99).
#[tactic(auto, using(crate::proofs::JsonLemmas::record_plain))]
pub fn json_object(
    alloc: Global,
    row: &Row<'_>,
    headers: ListedHeaders<'_>,
) -> Result<String, AllocError>
    ensures { IfOk result
        (λ t. string_bytes t ≡ json_text_of (record_value_of row.now headers.entry)) }
{
    let object = record_value(alloc, row, headers)?;
    json_text(alloc, &object)
}
