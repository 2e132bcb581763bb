//! What deeds are made of, as a line has it.

ghost use Rattle.std.specs.Prelude.{◌≡◌, map, option_map, All, IfOk};
ghost use Rattle.class_plan.specs.Parts.{answer_row};
ghost use Rattle.class_plan.specs.Schedules.{IsInRange, IsInRangeIfAny};
ghost use Rattle.class_plan.specs.Texts.{schedule_of_bytes};
ghost use Rattle.record_history.specs.Reading.{Gives, filing_at as filing_at_of, filing_from, own_at as own_at_of, paths_of as paths_of_word, plan_from as plan_from_parts, row_at as row_at_of, row_from, row_of as row_of_part, rows_of as rows_of_parts, seal_at as seal_at_of, state_of as state_of_word};
ghost use Rattle.record_history.specs.Spelled.{HasSchedules};
ghost use Rattle.record_history.specs.Views.{filing_view, listing_view, seal_view};

use crate::events::{Filing, Listing, Seal};
use crate::faults::LineFault;
use crate::words::{comma_parts, split, strip, strip_if, wide_number_at, word};
use class_plan::{Schedule, schedule_of_text};
use std::alloc::{AllocError, Global};

/// A class as a listing has it: its path, whether it is open, and its own schedule, if it has one.
type Class<'a> = (&'a [u8], bool, Option<Schedule>);

#[tactic(auto, unfolding(crate::specs::Reading::seal_at))]
pub(crate) fn seal_at(alloc: Global, text: &[u8]) -> Result<(Seal, &[u8]), LineFault>
    ensures { Gives (λ x. (seal_view x.0, x.1.now)) result (seal_at_of text.now) }
{
    let (octets, rest) = wide_number_at(text)?;
    let rest = strip(rest, b" ")?;
    let (sum, rest) = word(rest);
    let sum = Vec::from_slice(alloc, sum)?;
    Ok((Seal { octets, sum }, rest))
}

#[tactic(auto, unfolding(crate::specs::Reading::filing_from))]
fn filing_after(text: &[u8]) -> Result<(Option<Filing<'_>>, &[u8]), LineFault>
    ensures { Gives (λ x. (option_map filing_view x.0, x.1.now)) result
        (filing_from (Some text.now) text.now) }
{
    let (officer, rest) = word(text);
    let rest = strip(rest, b" rules ")?;
    let (rules, rest) = word(rest);
    Ok((Some(Filing { officer, rules }), rest))
}

/// The officer and the rules, where the text begins with them.
#[tactic(auto, unfolding(crate::specs::Reading::filing_at, crate::specs::Reading::filing_from))]
pub(crate) fn filing_at(text: &[u8]) -> Result<(Option<Filing<'_>>, &[u8]), LineFault>
    ensures { Gives (λ x. (option_map filing_view x.0, x.1.now)) result (filing_at_of text.now) }
{
    match strip_if(text, b" by ") {
        Some(rest) => filing_after(rest),
        None => Ok((None, text)),
    }
}

/// The paths of a word, with commas between them.
pub(crate) fn paths_of(alloc: Global, text: &[u8]) -> Result<Vec<&[u8]>, AllocError>
    ensures { IfOk result (λ v. map (λ p. p.now) v.items ≡ paths_of_word text.now) }
{
    match text {
        [] => Ok(Vec::new(alloc)),
        _ => comma_parts(alloc, text),
    }
}

/// A schedule that a text has to be.
pub(crate) fn schedule_of(text: &[u8]) -> Result<Schedule, LineFault>
    ensures schedule { Gives (λ s. s) result (schedule_of_bytes text.now) }
    ensures range { IfOk result (λ s. IsInRange s) }
{
    match schedule_of_text(text) {
        Some(schedule) => Ok(schedule),
        None => Err(LineFault::NotALine),
    }
}

/// What follows a path: nothing, or a schedule after a comma.
#[tactic(auto, unfolding(crate::specs::Reading::own_at))]
fn own_at(text: &[u8]) -> Result<Option<Schedule>, LineFault>
    ensures schedule { Gives (λ s. s) result (own_at_of text.now) }
    ensures range { IfOk result (λ s. IsInRangeIfAny s) }
{
    match text {
        [] => Ok(None),
        _ => {
            let rest = strip(text, b", ")?;
            let schedule = schedule_of(rest)?;
            Ok(Some(schedule))
        }
    }
}

fn row_at(is_open: bool, text: &[u8]) -> Result<Class<'_>, LineFault>
    ensures row { Gives (λ c. answer_row c) result (row_at_of is_open text.now) }
    ensures range { IfOk result (λ c. IsInRangeIfAny c.2) }
{
    let (path, rest) = split(text, b',');
    let own = own_at(rest)?;
    Ok((path, is_open, own))
}

/// A class, after the semicolon before it.
#[tactic(auto, unfolding(crate::specs::Reading::row_of))]
fn row_of(part: &[u8]) -> Result<Class<'_>, LineFault>
    ensures row { Gives (λ c. answer_row c) result (row_of_part part.now) }
    ensures range { IfOk result (λ c. IsInRangeIfAny c.2) }
{
    let text = strip(part, b" ")?;
    match strip_if(text, b"closed ") {
        Some(rest) => row_at(false, rest),
        None => row_at(true, text),
    }
}

/// Whether a record is destroyed.
#[tactic(auto, unfolding(crate::specs::Reading::state_of))]
pub(crate) fn state_of(text: &[u8]) -> Result<bool, LineFault>
    ensures { Gives (λ b. b) result (state_of_word text.now) }
{
    if text == b"live".as_slice() {
        return Ok(false);
    }
    if text == b"destroyed".as_slice() {
        return Ok(true);
    }
    Err(LineFault::NotALine)
}

/// The classes of the parts of a plan's text.
fn rows_of<'a>(alloc: Global, parts: &[&'a [u8]]) -> Result<Vec<Class<'a>>, LineFault>
    ensures rows { Gives (λ v. map answer_row v.items) result
        (rows_of_parts (map (λ p. p.now) parts.now)) }
    ensures range { IfOk result
        (λ v. All (λ r. IsInRangeIfAny r.schedule) (map answer_row v.items)) }
{
    let mut rows = Vec::with_capacity(alloc, parts.len())?;
    for part in parts {
        match row_of(part) {
            Ok(row) => rows.push(row)?,
            Err(fault) => return Err(fault),
        }
    }
    Ok(rows)
}

/// The plan of the parts of its text between semicolons.
#[tactic(auto, unfolding(crate::specs::Reading::plan_from))]
pub(crate) fn plan_of<'a>(alloc: Global, parts: &[&'a [u8]]) -> Result<Listing<'a>, LineFault>
    ensures plan { Gives (λ l. listing_view l) result
        (plan_from_parts (map (λ p. p.now) parts.now)) }
    ensures range { IfOk result (λ l. HasSchedules (listing_view l)) }
{
    match parts {
        [] => Err(LineFault::NotALine),
        [first, others @ ..] => {
            let root = schedule_of(first)?;
            let classes = rows_of(alloc, others)?;
            Ok(Listing { root, classes })
        }
    }
}
