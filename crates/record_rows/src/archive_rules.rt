//! Whether records, messages and holds are those of an archive.
ghost use Rattle.std.specs.Prelude.{◌≡◌, ℕ, ◌&&◌, not, IfOk, map, []};
ghost use Rattle.std.specs.Bool.{Decides};
ghost use Rattle.std.specs.List.{list_all};
ghost use Rattle.std.specs.List.Sorted.{IsStrictlySortedBy};
ghost use Rattle.std.specs.Ordering.{nat_cmp};
ghost use Rattle.std.specs.Str.{bytes_eq};
ghost use Rattle.record_tables.specs.CodeRows.{record_of, hold_entry_of};
ghost use Rattle.record_rows.specs.SoundRows.{is_named, is_live, is_one_of, AreRows};
ghost use Rattle.record_rows.specs.Tests.{is_sound, rises_from, rises_after, hold_rises};

use class_plan::Plan;
use record_tables::rows::{HoldRow, RecordRow};
use std::alloc::{AllocError, Global};
use std::collections::BTreeSet;

/// The last capture day, 2199-12-31, in days since 1970-01-01.
const LAST_CAPTURE_DAY: u32 = 84_005;

/// Whether the row of a record, by itself, is one of an archive with the plan.
fn is_sound(plan: &Plan, row: &RecordRow) -> bool
    ensures { result ≡ is_sound plan.now (record_of row.now) }
{
    1 <= row.number
        && 1 <= row.message
        && row.message <= row.number
        && row.day <= LAST_CAPTURE_DAY
        && plan.contains(row.path.as_slice())
}

fn are_sound(plan: &Plan, records: &[RecordRow]) -> bool
    ensures { result ≡ list_all (λ r. is_sound plan.now (record_of r)) records.now }
{
    records.iter().all(|record| is_sound(plan, record))
}

fn do_records_rise(records: &[RecordRow]) -> bool
    ensures { result ≡ rises_from 0 (map (λ r. r.number) records.now) }
{
    let mut least: u64 = 0;
    for record in records {
        if u64::from(record.number) < least {
            return false;
        }
        least = u64::from(record.number) + 1;
    }
    true
}

/// Whether each number is above the one before it.
fn do_rise(numbers: &[u32]) -> bool
    ensures { result ≡ rises_from 0 numbers.now }
{
    let mut least: u64 = 0;
    for number in numbers {
        if u64::from(*number) < least {
            return false;
        }
        least = u64::from(*number) + 1;
    }
    true
}

/// Whether one hold comes before another, by record and then by name.
fn is_before(one: &HoldRow, other: &HoldRow) -> bool
    ensures { result ≡ hold_rises (hold_entry_of one.now) (hold_entry_of other.now) }
{
    if one.record == other.record {
        one.name.as_slice().cmp(&other.name.as_slice()).is_lt()
    } else {
        one.record < other.record
    }
}

/// Whether each hold comes after the one before it.
fn do_holds_rise(holds: &[HoldRow]) -> bool
    ensures { result ≡ rises_after (map hold_entry_of holds.now) }
{
    for i in 1..holds.len() {
        if !is_before(&holds[i - 1], &holds[i]) {
            return false;
        }
    }
    true
}

/// The messages that live records name.
fn named_messages(alloc: Global, records: &[RecordRow]) -> Result<BTreeSet<u32>, AllocError>
    ensures { IfOk result
        (λ s. (m : ℕ) → is_one_of s.keys m ≡ is_named (map record_of records.now) m) }
{
    let mut named = BTreeSet::new(alloc);
    for record in records {
        if !record.destroyed {
            named.insert(record.message)?;
        }
    }
    Ok(named)
}

fn live_numbers(alloc: Global, records: &[RecordRow]) -> Result<BTreeSet<u32>, AllocError>
    ensures { IfOk result
        (λ s. (n : ℕ) → is_one_of s.keys n ≡ is_live (map record_of records.now) n) }
{
    let mut live = BTreeSet::new(alloc);
    for record in records {
        if !record.destroyed {
            live.insert(record.number)?;
        }
    }
    Ok(live)
}

/// Whether a set has these numbers and no other, in this order.
fn has_just(set: &BTreeSet<u32>, numbers: &[u32]) -> bool
    ensures same { result ≡ bytes_eq set.now.keys numbers.now }
    ensures in_order { IsStrictlySortedBy nat_cmp set.now.keys }
{
    let mut place = 0;
    for key in set {
        if place == numbers.len() {
            return false;
        }
        if *key != numbers[place] {
            return false;
        }
        place += 1;
    }
    place == numbers.len()
}

/// Whether a hold is on one of these records.
fn is_of(hold: &HoldRow, live: &BTreeSet<u32>) -> bool
    ensures { result ≡ is_one_of live.now.keys hold.now.record }
{
    live.contains(&hold.record)
}

fn are_of(holds: &[HoldRow], live: &BTreeSet<u32>) -> bool
    ensures { result ≡ list_all (λ h. is_one_of live.now.keys h.record) holds.now }
{
    holds.iter().all(|hold| is_of(hold, live))
}

/// Whether the records, the numbers of the messages, and the holds are those of an archive with the plan:
///
/// - each record has a number from 1 on, a message from 1 up to that number, a class of the plan as its path, and
///   a capture day of 1970 to 2199, in days since 1970-01-01;
/// - a message is there exactly where a live record names it;
/// - each hold names a live record;
/// - the records and the messages come in the order of their numbers, and the holds by record and then in byte
///   order of their names, each once.
///
/// The only refusal is no memory (99).
pub fn are_rows_of(
    alloc: Global,
    plan: &Plan,
    records: &[RecordRow],
    messages: &[u32],
    holds: &[HoldRow],
) -> Result<bool, AllocError>
    ensures { IfOk result (λ b. Decides b
        (AreRows plan.now (map record_of records.now) messages.now (map hold_entry_of holds.now))) }
{
    if !are_sound(plan, records) || !do_records_rise(records) {
        return Ok(false);
    }
    if !do_rise(messages) || !do_holds_rise(holds) {
        return Ok(false);
    }
    let named = named_messages(alloc, records)?;
    if !has_just(&named, messages) {
        return Ok(false);
    }
    let live = live_numbers(alloc, records)?;
    Ok(are_of(holds, &live))
}
