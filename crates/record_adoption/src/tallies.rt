//! Counts over the rows of an archive.

ghost use Rattle.std.specs.Prelude.{◌≡◌, ◌-◌, ◌≤◌, ◌^◌, ◌==◌, ◌&&◌, not, ℕ, map, IfOk};
ghost use Rattle.record_tables.specs.CodeRows.{record_of};
ghost use Rattle.record_archive.specs.Archive.{past_all};
ghost use Rattle.record_adoption.specs.Counts.{count_at, tally};

use crate::counts::Counts;
use record_tables::rows::{HoldRow, RecordRow};
use std::alloc::{AllocError, Global};

/// One above the greatest number of a record; 1 where there is none.
pub(crate) fn next_after(records: &[RecordRow]) -> u64
    ensures next { result ≡ past_all 1 (map record_of records.now) }
    ensures small { result ≤ 2 ^ 32 }
{
    let mut next: u64 = 1;
    for record in records {
        next = next.max(u64::from(record.number) + 1);
    }
    next
}

/// The number of holds on each record.
pub(crate) fn held_counts(alloc: Global, holds: &[HoldRow]) -> Result<Counts, AllocError>
    ensures { IfOk result (λ c. (n : ℕ) → count_at c n ≡ tally (λ h. h.record == n) holds.now) }
{
    let mut counts = Counts::new(alloc);
    for hold in holds {
        counts.add(hold.record, 1)?;
    }
    Ok(counts)
}

/// The number of live records of each message.
fn live_counts(alloc: Global, records: &[RecordRow]) -> Result<Counts, AllocError>
    ensures { IfOk result (λ c. (m : ℕ)
        → count_at c m ≡ tally (λ r. not r.destroyed && (r.message == m)) records.now) }
{
    let mut counts = Counts::new(alloc);
    for record in records {
        if !record.destroyed {
            counts.add(record.message, 1)?;
        }
    }
    Ok(counts)
}

/// Takes 1 from a number's count for each time that the number appears here.
fn take_each(counts: &mut Counts, numbers: &[u32])
    ensures { (n : ℕ)
        → count_at counts.new n ≡ count_at counts.old n - tally (λ k. k == n) numbers.now }
{
    for number in numbers {
        counts.take(*number, 1);
    }
}

/// The number of live records of each message beyond the first; the caller gives messages that each have one.
pub(crate) fn other_counts(
    alloc: Global,
    records: &[RecordRow],
    messages: &[u32],
) -> Result<Counts, AllocError>
    ensures { IfOk result (λ c. (m : ℕ) →
        count_at c m ≡ tally (λ r. not r.destroyed &&
        (r.message == m)) records.now - tally (λ k. k == m) messages.now) }
{
    let mut counts = live_counts(alloc, records)?;
    take_each(&mut counts, messages);
    Ok(counts)
}
