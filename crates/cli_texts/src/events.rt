//! Events of a history, as JSON and as certificates.

ghost use Rattle.std.specs.Prelude.{◌≡◌, ◌++◌, ℕ, List, map, IfOk, OnOk, string_bytes};
ghost use Rattle.serde_json.specs.Data.{no_members};
ghost use Rattle.serde_json.specs.View.{members_view, view};
ghost use Rattle.cli_texts.specs.Json.{json_text as json_text_of, texts_value as texts_value_of, with_members};
ghost use Rattle.cli_texts.specs.EventValues.{event_members as event_members_of, event_value as event_value_of, field_member, field_value as field_value_of, numbers_value as numbers_value_of};
ghost use Rattle.cli_texts.specs.Lines.{class_words, told_record, seal_words, told_deed, reason_words, told_certificate as told_certificate_of};
ghost use Rattle.cli_texts.specs.Moments.{IsMomentText};
ghost use Rattle.cli_texts.specs.Words.{free_words};

use crate::certificates::{moment_text, put_altered, put_keeper};
use crate::json::{add_volume, json_text, put_shown, shown_value};
use crate::numbers::put_number;
use crate::titles::{ClassTitle, put_title};
use serde_json::{Map, Value};
use std::alloc::{AllocError, Global};
use std::str;
use tool_texts::{Shown, put};

/// The value of a field.
#[derive(Drop)]
pub enum Field<'a> {
    Number(u64),
    /// All numbers from a first to a last.
    Numbers(u32, u32),
    Text(&'a [u8]),
    Octets(Vec<u8>),
    Words(String),
    Texts(Vec<&'a [u8]>),
    Truth(bool),
}

/// A field of a deed, by its name.
#[derive(Drop)]
pub struct Named<'a> {
    pub name: &'static str,
    pub value: Field<'a>,
}

/// An event as it is printed.
#[derive(Clone, Copy)]
pub struct ListedEvent<'a> {
    /// The number of the volume whose history tells it, in an archive of volumes.
    pub volume: Option<u32>,
    pub number: u32,
    /// In seconds since 1970-01-01T00:00:00Z.
    pub moment: u64,
    pub who: &'a [u8],
    /// The word of its deed.
    pub word: &'static str,
    /// What its deed tells.
    pub fields: &'a [Named<'a>],
    /// What more is noted of its deed; empty where nothing is.
    pub notes: &'a [u8],
    pub reason: &'a [u8],
    /// As it is hashed.
    pub line: &'a [u8],
    /// That of the chain up to it.
    pub mark: &'a [u8],
}

/// Numbers from a first to a last.
fn numbers_value(alloc: Global, first: u32, last: u32) -> Result<Value, AllocError>
    ensures { IfOk result (λ v. view v ≡ numbers_value_of first last) }
{
    let mut numbers = Vec::new(alloc);
    for number in first..=last {
        numbers.push(Value::from(number))?;
    }
    Ok(Value::from(numbers))
}

/// Texts, as they are shown.
fn texts_value(alloc: Global, texts: &[&[u8]]) -> Result<Value, AllocError>
    ensures { IfOk result (λ v. view v ≡ texts_value_of (map (λ t. t.now) texts.now)) }
{
    let mut values = Vec::new(alloc);
    for text in texts {
        values.push(shown_value(alloc, text)?)?;
    }
    Ok(Value::from(values))
}

/// The value of a field.
fn field_value(alloc: Global, value: &Field<'_>) -> Result<Value, AllocError>
    ensures { IfOk result (λ v. view v ≡ field_value_of value.now) }
{
    match value {
        Field::Number(number) => Ok(Value::from(*number)),
        Field::Numbers(first, last) => numbers_value(alloc, *first, *last),
        Field::Text(text) => shown_value(alloc, text),
        Field::Octets(octets) => shown_value(alloc, octets.as_slice()),
        Field::Words(words) => Value::try_from_str(alloc, words.as_str()),
        Field::Texts(texts) => texts_value(alloc, texts.as_slice()),
        Field::Truth(is_so) => Ok(Value::from(*is_so)),
    }
}

/// The members of an event's object that come before its volume and the fields of its deed, with the text of its moment.
fn event_members(
    alloc: Global,
    event: &ListedEvent<'_>,
    moment: String,
) -> Result<Map<String, Value>, AllocError>
    ensures { IfOk result (λ m. members_view m.entries
        ≡ with_members (event_members_of event.now (string_bytes moment)) no_members) }
{
    let word = Value::try_from_str(alloc, event.word)?;
    let mut members = Map::new(alloc);
    serde_json::put(&mut members, alloc, "number", Value::from(event.number))?;
    serde_json::put(&mut members, alloc, "moment", Value::from(moment))?;
    put_shown(alloc, &mut members, "who", event.who)?;
    serde_json::put(&mut members, alloc, "deed", word)?;
    put_shown(alloc, &mut members, "notes", event.notes)?;
    put_shown(alloc, &mut members, "reason", event.reason)?;
    put_shown(alloc, &mut members, "line", event.line)?;
    put_shown(alloc, &mut members, "mark", event.mark)?;
    Ok(members)
}

/// Adds the fields of a deed.
fn add_fields(
    alloc: Global,
    members: &mut Map<String, Value>,
    fields: &[Named<'_>],
) -> Result<(), AllocError>
    ensures { OnOk result (members_view members.new.entries
        ≡ with_members (map field_member fields.now) (members_view members.old.entries)) }
{
    for field in fields {
        let value = field_value(alloc, &field.value)?;
        serde_json::put(members, alloc, field.name, value)?;
    }
    Ok(())
}

/// An event as a value, with the text of its moment.
#[tactic(auto, using(crate::proofs::JsonLemmas::with_more))]
fn event_value(alloc: Global, event: &ListedEvent<'_>, moment: String) -> Result<Value, AllocError>
    ensures { IfOk result
        (λ v. view v ≡ event_value_of event.now (string_bytes moment)) }
{
    let mut members = event_members(alloc, event, moment)?;
    add_volume(alloc, &mut members, event.volume)?;
    add_fields(alloc, &mut members, event.fields)?;
    Ok(Value::from(members))
}

/// An event as a JSON object, in ASCII, with the fields of its deed. In a volume it has the number of the volume as `volume`.
///
/// The only refusal is no memory (99).
#[tactic(auto, using(crate::proofs::JsonLemmas::event_plain))]
pub fn event_object(alloc: Global, event: &ListedEvent<'_>) -> Result<String, AllocError>
    ensures { IfOk result (λ t. (moment : List ℕ) × IsMomentText event.now.moment moment
        × (string_bytes t ≡ json_text_of (event_value_of event.now moment))) }
{
    let moment = moment_text(alloc, event.moment)?;
    let object = event_value(alloc, event, moment)?;
    json_text(alloc, &object)
}

/// A destruction, as a history tells of it.
#[derive(Clone, Copy)]
pub struct ToldCertificate<'a> {
    /// The number of its volume, whose history tells of it, in an archive of volumes.
    pub volume: Option<u32>,
    pub number: u32,
    /// The path of its class; none where the archive has no such record.
    pub path: Option<&'a [u8]>,
    /// The title of its class as it was destroyed, where it had a title or a legal basis.
    pub title: Option<ClassTitle<'a>>,
    /// The day by which it was due, in days since 1970-01-01.
    pub day: &'a str,
    /// The text of the schedule.
    pub schedule: &'a [u8],
    /// How many octets its message had, and their SHA-256 in hexadecimal digits; none where the history has no such message.
    pub seal: Option<(u64, &'a [u8])>,
    /// In seconds since 1970-01-01T00:00:00Z.
    pub moment: u64,
    pub who: &'a [u8],
    pub reason: &'a [u8],
    /// The number of its event.
    pub event: u32,
    /// A live record that kept the same message, if there was one.
    pub kept_by: Option<u32>,
    /// Whether the event notes that its message was not the one that was captured.
    pub is_altered: bool,
}

/// Adds a text that a user chose.
pub(crate) fn put_text(line: &mut Shown, octets: &[u8]) -> Result<(), AllocError>
    ensures { OnOk result (line.new ≡ line.old ++ free_words octets.now) }
{
    match str::from_utf8(octets) {
        Ok(text) => line.value(&text),
        Err(_) => line.escaped(octets),
    }
}

/// Adds the class of a record with its title, where the class is known.
fn put_class(
    line: &mut Shown,
    path: Option<&[u8]>,
    title: Option<ClassTitle<'_>>,
) -> Result<(), AllocError>
    ensures { OnOk result (line.new ≡ line.old ++ class_words path.entry title.entry) }
{
    match path {
        Some(path) => {
            put!(line; " class " named(path))?;
            put_title(line, title)
        }
        None => Ok(()),
    }
}

/// Adds the record that was destroyed, and the day by which it was due.
#[tactic(auto, unfolding(crate::specs::Lines::told_record))]
fn put_told_record(line: &mut Shown, it: &ToldCertificate<'_>) -> Result<(), AllocError>
    ensures { OnOk result (line.new ≡ line.old ++ told_record it.now) }
{
    line.words("destroyed record ")?;
    put_number(line, it.volume, it.number)?;
    put_class(line, it.path, it.title)?;
    put!(line; " as due by " value(&it.day) " (" escaped(it.schedule) ")")
}

/// Adds the length and the sum of the message, where they are known.
fn put_seal(line: &mut Shown, seal: Option<(u64, &[u8])>) -> Result<(), AllocError>
    ensures { OnOk result (line.new ≡ line.old ++ seal_words seal.entry) }
{
    match seal {
        Some((octets, sum)) => put!(line; " octets " value(&octets) " sha256 " escaped(sum)),
        None => Ok(()),
    }
}

/// Adds when the record was destroyed, by whom and by which event.
#[tactic(auto, unfolding(crate::specs::Lines::told_deed))]
fn put_told_deed(
    line: &mut Shown,
    it: &ToldCertificate<'_>,
    moment: &String,
) -> Result<(), AllocError>
    ensures { OnOk result (line.new ≡ line.old ++ told_deed it.now (string_bytes moment.now)) }
{
    put!(line; " at " value(moment) " by ")?;
    put_text(line, it.who)?;
    line.words(" event ")?;
    put_number(line, it.volume, it.event)
}

/// Adds the reason of a deed, where it has one.
pub(crate) fn put_reason(line: &mut Shown, reason: &[u8]) -> Result<(), AllocError>
    ensures { OnOk result (line.new ≡ line.old ++ reason_words reason.now) }
{
    if reason.is_empty() {
        return Ok(());
    }
    line.words(" : ")?;
    put_text(line, reason)
}

/// The line of a certificate from a history, with the text of its moment.
fn told_line(alloc: Global, it: &ToldCertificate<'_>, moment: &String) -> Result<Shown, AllocError>
    ensures { IfOk result
        (λ line. line ≡ told_certificate_of it.now (string_bytes moment.now)) }
{
    let mut line = Shown::new(alloc);
    put_told_record(&mut line, it)?;
    put_seal(&mut line, it.seal)?;
    put_told_deed(&mut line, it, moment)?;
    put_keeper(&mut line, it.volume, it.kept_by)?;
    put_altered(&mut line, it.is_altered)?;
    put_reason(&mut line, it.reason)?;
    line.end_line()?;
    Ok(line)
}

/// The line of a certificate from a history: `destroyed record 7 class finance as due by 2030-11-14 (7 years destroy) octets 83
/// sha256 SUM at 2030-12-01T09:00:00Z by bea event 12`, and its reason after ` : ` where it has one. The class, the length and
/// the sum are left out where they are not known. The title and the legal basis of the class come after its path, as
/// `title_line` has them. In a volume the numbers of records and of the event are as `3/7`.
///
/// The only refusal is no memory (99).
pub fn told_certificate(alloc: Global, it: &ToldCertificate<'_>) -> Result<Shown, AllocError>
    ensures { IfOk result (λ line. (moment : List ℕ) × IsMomentText it.now.moment moment
        × (line ≡ told_certificate_of it.now moment)) }
{
    let moment = moment_text(alloc, it.moment)?;
    told_line(alloc, it, &moment)
}
