//! Schedules as texts: `permanent`, or a count, a unit and an action with single spaces between
//! them, as in `7 years destroy`. One space and `year-end` may follow.
ghost use Rattle.std.specs.Prelude.{◌≡◌, Some, MatchOption, IfOk, IfSome, length};
ghost use Rattle.std.specs.List.{position, position_or_len, before_first, after_first};
ghost use Rattle.class_plan.specs.Schedules.{most, IsInRange};
ghost use Rattle.class_plan.specs.Texts.{count_of, unit_of, action_of, year_end_of, ending_of, schedule_of_bytes, IsLargeOrNone, is_space, text_of, unit_word, action_word, year_end_text};
ghost use Rattle.class_plan.specs.declared.schedules.Schedule.TheVariants.{After};

use crate::schedules::{Action, Schedule, Unit};
use std::alloc::{AllocError, Global};

const PERMANENT: &[u8] = b"permanent";

/// What follows the action where a schedule names the year's end.
const YEAR_END: &[u8] = b" year-end";

/// The greatest count of any unit.
const MAX_COUNT: u32 = 366_000;

/// The greatest count of a unit.
pub(crate) fn limit_of(unit: Unit) -> u32
    ensures { result ≡ most unit }
{
    match unit {
        Unit::Days => MAX_COUNT,
        Unit::Months => 12_000,
        Unit::Years => 1_000,
    }
}

fn first_space(text: &[u8]) -> Option<usize>
    ensures { result ≡ position is_space text.now }
{
    text.iter().position(|octet| *octet == b' ')
}

/// The text before the first space and the text after it; `None` without a space.
fn split_at_space(text: &[u8]) -> Option<(&[u8], &[u8])>
    ensures { MatchOption result (position_or_len is_space text.now ≡ length text.now) (λ p.
        (p.0.now ≡ before_first is_space text.now) × (p.1.now ≡ after_first is_space text.now)) }
{
    match first_space(text) {
        Some(end) => Some((&text[..end], &text[end + 1..])),
        None => None,
    }
}

/// The schedule of a text; `None` where the text is no schedule. The text is `permanent`, or a
/// count, a unit and an action with single spaces between them. The count is decimal, without
/// leading zeros, and in its unit's range; the unit is `days`, `months` or `years`; the action is
/// `review`, `transfer` or `destroy`. One space and `year-end` may follow.
pub fn schedule_of_text(text: &[u8]) -> Option<Schedule>
    ensures schedule { result ≡ schedule_of_bytes text.now }
    ensures text { IfSome result (λ s. text_of s ≡ text.now) }
    ensures range { IfSome result (λ s. IsInRange s) }
{
    if text == PERMANENT {
        return Some(Schedule::Permanent);
    }
    let Some((count, rest)) = split_at_space(text) else {
        return None;
    };
    let Some((unit, ending)) = split_at_space(rest) else {
        return None;
    };
    let Some(count) = read_count(count) else {
        return None;
    };
    let Some(unit) = read_unit(unit) else {
        return None;
    };
    let Some((action, year_end)) = read_ending(ending) else {
        return None;
    };
    if count < 1 || count > limit_of(unit) {
        return None;
    }
    Some(Schedule::After {
        count,
        unit,
        action,
        year_end,
    })
}

/// The text of a schedule, which reads back as the schedule.
///
/// The caller gives a count in its unit's range. The only refusal is no memory (99).
pub fn schedule_text(alloc: Global, schedule: Schedule) -> Result<Vec<u8>, AllocError>
    requires { IsInRange schedule }
    ensures text { IfOk result (λ v. v.items ≡ text_of schedule) }
    ensures reads_back { IfOk result (λ v. schedule_of_bytes v.items ≡ Some schedule) }
{
    match schedule {
        Schedule::Permanent => Vec::from_slice(alloc, PERMANENT),
        Schedule::After {
            count,
            unit,
            action,
            year_end,
        } => after_text(alloc, count, unit, action, year_end),
    }
}

/// The text of a schedule that is not permanent.
fn after_text(
    alloc: Global,
    count: u32,
    unit: Unit,
    action: Action,
    year_end: bool,
) -> Result<Vec<u8>, AllocError>
    ensures { IfOk result (λ v. v.items ≡ text_of (After count unit action year_end)) }
{
    let unit = unit_text(unit);
    let action = action_text(action);
    let ending = ending_text(year_end);
    Ok(format!(in alloc; "{count} {unit} {action}{ending}")?.into_bytes())
}

fn unit_text(unit: Unit) -> &'static str
    ensures { result.now ≡ unit_word unit }
{
    match unit {
        Unit::Days => "days",
        Unit::Months => "months",
        Unit::Years => "years",
    }
}

fn action_text(action: Action) -> &'static str
    ensures { result.now ≡ action_word action }
{
    match action {
        Action::Review => "review",
        Action::Transfer => "transfer",
        Action::Destroy => "destroy",
    }
}

/// What follows the action in a schedule's text.
fn ending_text(year_end: bool) -> &'static str
    ensures { result.now ≡ year_end_text year_end }
{
    if year_end { " year-end" } else { "" }
}

fn read_unit(word: &[u8]) -> Option<Unit>
    ensures { result ≡ unit_of word.now }
{
    if word == b"days".as_slice() {
        return Some(Unit::Days);
    }
    if word == b"months".as_slice() {
        return Some(Unit::Months);
    }
    if word == b"years".as_slice() {
        return Some(Unit::Years);
    }
    None
}

fn read_action(word: &[u8]) -> Option<Action>
    ensures { result ≡ action_of word.now }
{
    if word == b"review".as_slice() {
        return Some(Action::Review);
    }
    if word == b"transfer".as_slice() {
        return Some(Action::Transfer);
    }
    if word == b"destroy".as_slice() {
        return Some(Action::Destroy);
    }
    None
}

/// Whether the text after an action names the year's end; `None` for any other text there.
fn read_year_end(text: &[u8]) -> Option<bool>
    ensures { result ≡ year_end_of text.now }
{
    if text.is_empty() {
        return Some(false);
    }
    if text == YEAR_END {
        return Some(true);
    }
    None
}

/// The action of an ending, and whether the ending names the year's end.
fn read_ending(text: &[u8]) -> Option<(Action, bool)>
    ensures { result ≡ ending_of text.now }
{
    let end = first_space(text).unwrap_or(text.len());
    let Some(action) = read_action(&text[..end]) else {
        return None;
    };
    let Some(year_end) = read_year_end(&text[end..]) else {
        return None;
    };
    Some((action, year_end))
}

/// The count of a word, decimal and without leading zeros. `None` where the word is no such count,
/// and where its digits before the last are above all ranges already.
fn read_count(word: &[u8]) -> Option<u32>
    ensures { MatchOption result (IsLargeOrNone (count_of word.now))
        (λ n. count_of word.now ≡ Some n) }
{
    if word.is_empty() || word[0] == b'0' {
        return None;
    }
    let mut count: u32 = 0;
    for octet in word {
        if !octet.is_ascii_digit() || count > MAX_COUNT {
            return None;
        }
        count = count * 10 + u32::from(*octet - b'0');
    }
    Some(count)
}
