//! Cases, as lines and as JSON. A case is all that is kept by the hold of one name.

ghost use Rattle.std.specs.Prelude.{◌≡◌, ◌++◌, Some, IfOk, OnOk, string_bytes};
ghost use Rattle.serde_json.specs.Data.{no_members};
ghost use Rattle.serde_json.specs.View.{members_view, view};
ghost use Rattle.cli_texts.specs.Json.{IsBeginningValue, IsCaseObject, IsCaseValue, beginning_members as beginning_members_of, with_members};
ghost use Rattle.cli_texts.specs.Cases.{beginning_words, began_word as began_word_for, case_words, IsCaseLine};

use crate::certificates::moment_text;
use crate::escapes::shown;
use crate::events::{put_reason, put_text};
use crate::json::{add_volume, json_text, put_shown};
use serde_json::{Map, Value, json};
use std::alloc::{AllocError, Global};
use tool_texts::{Shown, put};

/// How a case began, as a history tells it.
#[derive(Clone, Copy)]
pub struct CaseBeginning<'a> {
    /// The number of the volume whose history tells it, in an archive of volumes.
    pub volume: Option<u32>,
    /// The number of the event.
    pub event: u32,
    /// In seconds since 1970-01-01T00:00:00Z.
    pub moment: u64,
    pub who: &'a [u8],
    pub reason: &'a [u8],
    /// Whether the hold was only found then, as one that was there before.
    pub is_found: bool,
}

/// A case as it is listed.
#[derive(Clone, Copy)]
pub struct ListedCase<'a> {
    /// The name of its hold.
    pub name: &'a [u8],
    /// How many records it keeps.
    pub records: u64,
    /// None where no history tells it.
    pub beginning: Option<CaseBeginning<'a>>,
}

/// Whether a history tells when the case began, or only when its hold was found.
fn put_began_word(line: &mut Shown, is_found: bool) -> Result<(), AllocError>
    ensures { OnOk result (line.new ≡ line.old ++ began_word_for is_found) }
{
    line.words(if is_found { " found " } else { " since " })
}

/// Adds how a case began, with the text of its moment.
#[tactic(auto, unfolding(crate::specs::Cases::beginning_words))]
fn put_beginning(
    line: &mut Shown,
    beginning: &CaseBeginning<'_>,
    moment: &String,
) -> Result<(), AllocError>
    ensures { OnOk result
        (line.new ≡ line.old ++ beginning_words beginning.now (string_bytes moment.now)) }
{
    put_began_word(line, beginning.is_found)?;
    put!(line; value(moment) " by ")?;
    put_text(line, beginning.who)?;
    put_reason(line, beginning.reason)
}

/// Adds the name of a case and how many records it keeps.
#[tactic(auto, unfolding(crate::specs::Cases::case_words))]
fn put_case(line: &mut Shown, case: &ListedCase<'_>) -> Result<(), AllocError>
    ensures { OnOk result (line.new ≡ line.old ++ case_words case.now) }
{
    put!(line; "hold " named(case.name) " records " value(&case.records))
}

/// The line of a case: `hold audit records 2 since 2026-11-28T09:12:00Z by bea : order 12/3`. One that a history found has
/// `found` in place of `since`, and one of which no history tells ends with its records.
///
/// The only refusal is no memory (99).
pub fn case_line(alloc: Global, case: &ListedCase<'_>) -> Result<Shown, AllocError>
    ensures { IfOk result (λ line. IsCaseLine case.now line) }
{
    let mut line = Shown::new(alloc);
    put_case(&mut line, case)?;
    if let Some(beginning) = &case.beginning {
        let moment = moment_text(alloc, beginning.moment)?;
        put_beginning(&mut line, beginning, &moment)?;
    }
    line.end_line()?;
    Ok(line)
}

/// The members of how a case began but for the volume, with the text of that moment.
fn beginning_members(
    alloc: Global,
    beginning: &CaseBeginning<'_>,
    moment: String,
) -> Result<Map<String, Value>, AllocError>
    ensures { IfOk result (λ m. members_view m.entries
        ≡ with_members (beginning_members_of beginning.now (string_bytes moment)) no_members) }
{
    let mut members = Map::new(alloc);
    serde_json::put(&mut members, alloc, "event", Value::from(beginning.event))?;
    serde_json::put(&mut members, alloc, "moment", Value::from(moment))?;
    put_shown(alloc, &mut members, "who", beginning.who)?;
    put_shown(alloc, &mut members, "reason", beginning.reason)?;
    serde_json::put(
        &mut members,
        alloc,
        "found",
        Value::from(beginning.is_found),
    )?;
    Ok(members)
}

/// How a case began, as a value. In a volume it has the number of the volume as `volume`.
#[tactic(auto, using(crate::proofs::JsonLemmas::with_more))]
fn beginning_value(alloc: Global, beginning: &CaseBeginning<'_>) -> Result<Value, AllocError>
    ensures { IfOk result (λ v. IsBeginningValue (Some beginning.now) (view v)) }
{
    let moment = moment_text(alloc, beginning.moment)?;
    let mut members = beginning_members(alloc, beginning, moment)?;
    add_volume(alloc, &mut members, beginning.volume)?;
    Ok(Value::from(members))
}

/// How a case began, as a value; null where no history tells it.
fn began_value(alloc: Global, case: &ListedCase<'_>) -> Result<Value, AllocError>
    ensures { IfOk result (λ v. IsBeginningValue case.now.beginning (view v)) }
{
    match &case.beginning {
        Some(beginning) => beginning_value(alloc, beginning),
        None => Ok(Value::Null),
    }
}

/// A case as a value.
fn case_value(alloc: Global, case: &ListedCase<'_>) -> Result<Value, AllocError>
    ensures { IfOk result (λ v. IsCaseValue case.now (view v)) }
{
    let name = shown(alloc, case.name)?;
    let began = began_value(alloc, case)?;
    json!(in alloc; {
        "name": name,
        "records": case.records,
        "began": began
    })
}

/// A case as a JSON object, in ASCII. `began` is null where no history tells it.
///
/// The only refusal is no memory (99).
#[tactic(auto, using(crate::proofs::JsonLemmas::case_plain))]
pub fn case_object(alloc: Global, case: &ListedCase<'_>) -> Result<String, AllocError>
    ensures { IfOk result (λ t. IsCaseObject case.now (string_bytes t)) }
{
    let object = case_value(alloc, case)?;
    json_text(alloc, &object)
}
