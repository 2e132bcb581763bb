//! Deeds, as a line has them.

ghost use Rattle.std.specs.Prelude.{◌≡◌, IfOk};
ghost use Rattle.class_plan.specs.Schedules.{IsInRange};
ghost use Rattle.record_history.specs.Events.{Held, Released, PlanReplaced, FoundPlan, FoundHold};
ghost use Rattle.record_history.specs.Reading.{Gives, accepted_at as accepted_at_of, added_at as added_at_of, captured_at as captured_at_of, deed_at as deed_at_of, destroyed_at as destroyed_at_of, found_at as found_at_of, hold_at as hold_at_of, hold_deed, made_at as made_at_of, message_at as message_at_of, place_at as place_at_of, schedule_at as schedule_at_of, plan_at as plan_at_of, plan_change_at as plan_change_at_of, plan_deed, reasons_at as reasons_at_of, record_at as record_at_of, refiled_at as refiled_at_of, titled_at as titled_at_of};
ghost use Rattle.record_history.specs.Spelled.{HasSchedules, IsDay, IsSpelledDeed};
ghost use Rattle.record_history.specs.Views.{deed_view, listing_view};

use crate::days::day_at;
use crate::events::{Deed, Listing};
use crate::faults::LineFault;
use crate::readers::{filing_at, paths_of, plan_of, schedule_of, seal_at, state_of};
use crate::words::{counted_at, number_at, semicolon_parts, split, strip, strip_if, word};
use class_plan::Schedule;
use std::alloc::Global;

#[tactic(auto, unfolding(crate::specs::Reading::captured_at))]
fn captured_at(alloc: Global, text: &[u8]) -> Result<(Deed<'_>, &[u8]), LineFault>
    ensures deed { Gives (λ x. (deed_view x.0, x.1.now)) result (captured_at_of text.now) }
    ensures spelled { IfOk result (λ x. IsSpelledDeed (deed_view x.0)) }
{
    let (first, rest) = number_at(text)?;
    let rest = strip(rest, b" on ")?;
    let (day, rest) = day_at(rest)?;
    let rest = strip(rest, b" message ")?;
    let (seal, rest) = seal_at(alloc, rest)?;
    let (filing, rest) = filing_at(rest)?;
    let rest = strip(rest, b" in ")?;
    let (paths, rest) = word(rest);
    let paths = paths_of(alloc, paths)?;
    let deed = Deed::Captured {
        first,
        seal,
        day,
        filing,
        paths,
    };
    Ok((deed, rest))
}

/// A name and the number of a record.
#[tactic(auto, unfolding(crate::specs::Reading::hold_at))]
fn hold_at(text: &[u8]) -> Result<(&[u8], u32, &[u8]), LineFault>
    ensures { Gives (λ x. (x.0.now, x.1, x.2.now)) result (hold_at_of text.now) }
{
    let (name, rest) = word(text);
    let rest = strip(rest, b" ")?;
    let (number, rest) = number_at(rest)?;
    Ok((name, number, rest))
}

#[tactic(auto, unfolding(crate::specs::Reading::hold_deed))]
fn held_at(text: &[u8]) -> Result<(Deed<'_>, &[u8]), LineFault>
    ensures deed { Gives (λ x. (deed_view x.0, x.1.now)) result (hold_deed Held text.now) }
    ensures spelled { IfOk result (λ x. IsSpelledDeed (deed_view x.0)) }
{
    let (name, number, rest) = hold_at(text)?;
    Ok((Deed::Held { name, number }, rest))
}

#[tactic(auto, unfolding(crate::specs::Reading::hold_deed))]
fn released_at(text: &[u8]) -> Result<(Deed<'_>, &[u8]), LineFault>
    ensures deed { Gives (λ x. (deed_view x.0, x.1.now)) result (hold_deed Released text.now) }
    ensures spelled { IfOk result (λ x. IsSpelledDeed (deed_view x.0)) }
{
    let (name, number, rest) = hold_at(text)?;
    Ok((Deed::Released { name, number }, rest))
}

#[tactic(auto, unfolding(crate::specs::Reading::hold_deed))]
fn found_hold_at(text: &[u8]) -> Result<(Deed<'_>, &[u8]), LineFault>
    ensures deed { Gives (λ x. (deed_view x.0, x.1.now)) result (hold_deed FoundHold text.now) }
    ensures spelled { IfOk result (λ x. IsSpelledDeed (deed_view x.0)) }
{
    let (name, number, rest) = hold_at(text)?;
    Ok((Deed::FoundHold { name, number }, rest))
}

/// A schedule in parentheses.
#[tactic(auto, unfolding(crate::specs::Reading::schedule_at))]
fn schedule_at(text: &[u8]) -> Result<(Schedule, &[u8]), LineFault>
    ensures schedule { Gives (λ x. (x.0, x.1.now)) result (schedule_at_of text.now) }
    ensures range { IfOk result (λ x. IsInRange x.0) }
{
    let rest = strip(text, b" (")?;
    let (schedule, rest) = split(rest, b')');
    let schedule = schedule_of(schedule)?;
    let rest = strip(rest, b")")?;
    Ok((schedule, rest))
}

#[tactic(auto, unfolding(crate::specs::Reading::destroyed_at))]
fn destroyed_at(text: &[u8]) -> Result<(Deed<'_>, &[u8]), LineFault>
    ensures deed { Gives (λ x. (deed_view x.0, x.1.now)) result (destroyed_at_of text.now) }
    ensures spelled { IfOk result (λ x. IsSpelledDeed (deed_view x.0)) }
{
    let (number, rest) = number_at(text)?;
    let rest = strip(rest, b" as due by ")?;
    let (day, rest) = day_at(rest)?;
    let (schedule, rest) = schedule_at(rest)?;
    let deed = Deed::Destroyed {
        number,
        day,
        schedule,
    };
    Ok((deed, rest))
}

#[tactic(auto, unfolding(crate::specs::Reading::refiled_at))]
fn refiled_at(text: &[u8]) -> Result<(Deed<'_>, &[u8]), LineFault>
    ensures deed { Gives (λ x. (deed_view x.0, x.1.now)) result (refiled_at_of text.now) }
    ensures spelled { IfOk result (λ x. IsSpelledDeed (deed_view x.0)) }
{
    let (number, rest) = number_at(text)?;
    let rest = strip(rest, b" to ")?;
    let (path, rest) = word(rest);
    Ok((Deed::Refiled { number, path }, rest))
}

/// The title and the legal basis of a class.
#[tactic(auto, unfolding(crate::specs::Reading::titled_at))]
fn titled_at(text: &[u8]) -> Result<(Deed<'_>, &[u8]), LineFault>
    ensures deed { Gives (λ x. (deed_view x.0, x.1.now)) result (titled_at_of text.now) }
    ensures spelled { IfOk result (λ x. IsSpelledDeed (deed_view x.0)) }
{
    let (path, rest) = word(text);
    let rest = strip(rest, b" ")?;
    let (title, rest) = counted_at(rest)?;
    let rest = strip(rest, b" ")?;
    let (basis, rest) = counted_at(rest)?;
    Ok((Deed::Titled { path, title, basis }, rest))
}

/// A plan, and the parenthesis after it.
#[tactic(auto, unfolding(crate::specs::Reading::plan_at))]
fn plan_at(alloc: Global, text: &[u8]) -> Result<(Listing<'_>, &[u8]), LineFault>
    ensures plan { Gives (λ x. (listing_view x.0, x.1.now)) result (plan_at_of text.now) }
    ensures spelled { IfOk result (λ x. HasSchedules (listing_view x.0)) }
{
    let (plan, rest) = split(text, b')');
    let plan = strip(plan, b"root ")?;
    let parts = semicolon_parts(alloc, plan)?;
    let plan = plan_of(alloc, parts.as_slice())?;
    let rest = strip(rest, b")")?;
    Ok((plan, rest))
}

#[tactic(auto, unfolding(crate::specs::Reading::plan_deed))]
fn replaced_at(alloc: Global, text: &[u8]) -> Result<(Deed<'_>, &[u8]), LineFault>
    ensures deed { Gives (λ x. (deed_view x.0, x.1.now)) result (plan_deed PlanReplaced text.now) }
    ensures spelled { IfOk result (λ x. IsSpelledDeed (deed_view x.0)) }
{
    let (plan, rest) = plan_at(alloc, text)?;
    Ok((Deed::PlanReplaced(plan), rest))
}

#[tactic(auto, unfolding(crate::specs::Reading::plan_deed))]
fn found_plan_at(alloc: Global, text: &[u8]) -> Result<(Deed<'_>, &[u8]), LineFault>
    ensures deed { Gives (λ x. (deed_view x.0, x.1.now)) result (plan_deed FoundPlan text.now) }
    ensures spelled { IfOk result (λ x. IsSpelledDeed (deed_view x.0)) }
{
    let (plan, rest) = plan_at(alloc, text)?;
    Ok((Deed::FoundPlan(plan), rest))
}

#[tactic(auto, unfolding(crate::specs::Reading::message_at))]
fn message_at(alloc: Global, text: &[u8]) -> Result<(Deed<'_>, &[u8]), LineFault>
    ensures deed { Gives (λ x. (deed_view x.0, x.1.now)) result (message_at_of text.now) }
    ensures spelled { IfOk result (λ x. IsSpelledDeed (deed_view x.0)) }
{
    let (number, rest) = number_at(text)?;
    let rest = strip(rest, b" ")?;
    let (seal, rest) = seal_at(alloc, rest)?;
    Ok((Deed::FoundMessage { number, seal }, rest))
}

/// The path, the day and the state of a record.
#[tactic(auto, unfolding(crate::specs::Reading::place_at))]
fn place_at(text: &[u8]) -> Result<(&[u8], u32, bool, &[u8]), LineFault>
    ensures place { Gives (λ x. (x.0.now, x.1, x.2, x.3.now)) result (place_at_of text.now) }
    ensures within { IfOk result (λ x. IsDay x.1) }
{
    let rest = strip(text, b" in ")?;
    let (path, rest) = word(rest);
    let rest = strip(rest, b" on ")?;
    let (day, rest) = day_at(rest)?;
    let rest = strip(rest, b" ")?;
    let (state, rest) = word(rest);
    let destroyed = state_of(state)?;
    Ok((path, day, destroyed, rest))
}

#[tactic(auto, unfolding(crate::specs::Reading::record_at))]
fn record_at(text: &[u8]) -> Result<(Deed<'_>, &[u8]), LineFault>
    ensures deed { Gives (λ x. (deed_view x.0, x.1.now)) result (record_at_of text.now) }
    ensures spelled { IfOk result (λ x. IsSpelledDeed (deed_view x.0)) }
{
    let (number, rest) = number_at(text)?;
    let rest = strip(rest, b" of message ")?;
    let (message, rest) = number_at(rest)?;
    let (path, day, destroyed, rest) = place_at(rest)?;
    let deed = Deed::FoundRecord {
        number,
        message,
        path,
        day,
        destroyed,
    };
    Ok((deed, rest))
}

#[tactic(auto, unfolding(crate::specs::Reading::found_at))]
fn found_at(alloc: Global, text: &[u8]) -> Result<(Deed<'_>, &[u8]), LineFault>
    ensures deed { Gives (λ x. (deed_view x.0, x.1.now)) result (found_at_of text.now) }
    ensures spelled { IfOk result (λ x. IsSpelledDeed (deed_view x.0)) }
{
    if let Some(rest) = strip_if(text, b"plan (") {
        return found_plan_at(alloc, rest);
    }
    if let Some(rest) = strip_if(text, b"message ") {
        return message_at(alloc, rest);
    }
    if let Some(rest) = strip_if(text, b"record ") {
        return record_at(rest);
    }
    match strip_if(text, b"hold ") {
        Some(rest) => found_hold_at(rest),
        None => Err(LineFault::NotALine),
    }
}

#[tactic(auto, unfolding(crate::specs::Reading::added_at))]
fn added_at(text: &[u8]) -> (Deed<'_>, &[u8])
    ensures deed { added_at_of text.now ≡ Some (deed_view result.0, result.1.now) }
    ensures spelled { IsSpelledDeed (deed_view result.0) }
{
    let (path, rest) = word(text);
    (Deed::ClassAdded { path }, rest)
}

/// Whether reasons are required from now on.
#[tactic(auto, unfolding(crate::specs::Reading::reasons_at))]
fn reasons_at(text: &[u8]) -> Result<(Deed<'_>, &[u8]), LineFault>
    ensures deed { Gives (λ x. (deed_view x.0, x.1.now)) result (reasons_at_of text.now) }
    ensures spelled { IfOk result (λ x. IsSpelledDeed (deed_view x.0)) }
{
    if let Some(rest) = strip_if(text, b"required") {
        return Ok((Deed::ReasonsRequired, rest));
    }
    match strip_if(text, b"optional") {
        Some(rest) => Ok((Deed::ReasonsOptional, rest)),
        None => Err(LineFault::NotALine),
    }
}

#[tactic(auto, unfolding(crate::specs::Reading::accepted_at))]
fn accepted_at(text: &[u8]) -> Result<(Deed<'_>, &[u8]), LineFault>
    ensures deed { Gives (λ x. (deed_view x.0, x.1.now)) result (accepted_at_of text.now) }
    ensures spelled { IfOk result (λ x. IsSpelledDeed (deed_view x.0)) }
{
    match strip_if(text, b"accepted findings") {
        Some(rest) => Ok((Deed::FindingsAccepted, rest)),
        None => Err(LineFault::NotALine),
    }
}

#[tactic(auto, unfolding(crate::specs::Reading::made_at))]
fn made_at(text: &[u8]) -> Result<(Deed<'_>, &[u8]), LineFault>
    ensures deed { Gives (λ x. (deed_view x.0, x.1.now)) result (made_at_of text.now) }
    ensures spelled { IfOk result (λ x. IsSpelledDeed (deed_view x.0)) }
{
    match strip_if(text, b"made reasons ") {
        Some(rest) => reasons_at(rest),
        None => accepted_at(text),
    }
}

#[tactic(auto, unfolding(crate::specs::Reading::plan_change_at))]
fn plan_change_at(alloc: Global, text: &[u8]) -> Result<(Deed<'_>, &[u8]), LineFault>
    ensures deed { Gives (λ x. (deed_view x.0, x.1.now)) result (plan_change_at_of text.now) }
    ensures spelled { IfOk result (λ x. IsSpelledDeed (deed_view x.0)) }
{
    if let Some(rest) = strip_if(text, b"added class ") {
        return Ok(added_at(rest));
    }
    if let Some(rest) = strip_if(text, b"replaced plan (") {
        return replaced_at(alloc, rest);
    }
    if let Some(rest) = strip_if(text, b"titled ") {
        return titled_at(rest);
    }
    match strip_if(text, b"found ") {
        Some(rest) => found_at(alloc, rest),
        None => made_at(text),
    }
}

/// A deed, and what follows it.
#[tactic(auto, unfolding(crate::specs::Reading::deed_at))]
pub(crate) fn deed_at(alloc: Global, text: &[u8]) -> Result<(Deed<'_>, &[u8]), LineFault>
    ensures deed { Gives (λ x. (deed_view x.0, x.1.now)) result (deed_at_of text.now) }
    ensures spelled { IfOk result (λ x. IsSpelledDeed (deed_view x.0)) }
{
    if let Some(rest) = strip_if(text, b"captured ") {
        return captured_at(alloc, rest);
    }
    if let Some(rest) = strip_if(text, b"held ") {
        return held_at(rest);
    }
    if let Some(rest) = strip_if(text, b"released ") {
        return released_at(rest);
    }
    if let Some(rest) = strip_if(text, b"destroyed ") {
        return destroyed_at(rest);
    }
    match strip_if(text, b"refiled ") {
        Some(rest) => refiled_at(rest),
        None => plan_change_at(alloc, text),
    }
}
