//! An index of the records of a sealed archive, so that no deed goes over all of them.

ghost use Rattle.std.specs.Prelude.{◌≡◌, ◌<◌, ◌==◌, ◌&&◌, not, ℕ, [], Some, if◌then◌else◌, length, map, nat_lt, slice_index_or, slice_set, OnOk, IfSome};
ghost use Rattle.std.specs.Ordering.{nat_cmp};
ghost use Rattle.std.specs.BTreeMap.{get};
ghost use Rattle.record_judge.specs.Counts.{count_at};
ghost use Rattle.record_judge.specs.Indexes.{FollowsRecords, IsNoted, IsRecordIndex, first_or, place_at};
ghost use Rattle.record_judge.specs.Sealed.{marked};
ghost use Rattle.record_judge.specs.declared.sealed.SealedRecord.{SealedRecord};

use crate::counts::Counts;
use crate::sealed::SealedRecord;
use std::alloc::{AllocError, Global};
use std::collections::BTreeMap;

/// The place of the first record with each number, how many records have each number, and how many live ones each message
/// has.
#[derive(Drop)]
pub(crate) struct RecordIndex {
    pub(crate) first: BTreeMap<u32, usize>,
    pub(crate) numbers: Counts,
    pub(crate) lives: Counts,
}

/// Notes a place at a number that has none yet.
fn note_place(
    places: &mut BTreeMap<u32, usize>,
    number: u32,
    place: usize,
) -> Result<(), AllocError>
    ensures { OnOk result ((q : ℕ) → get nat_cmp places.new q ≡
        first_or (get nat_cmp places.old q) (place_at number place q)) }
{
    if places.contains_key(&number) {
        return Ok(());
    }
    places.insert(number, place)?;
    Ok(())
}

/// 1 for a live record, and 0 for a destroyed one.
fn weight(destroyed: bool) -> u64
    ensures { result ≡ (if destroyed then 0 else 1) }
{
    if destroyed { 0 } else { 1 }
}

impl RecordIndex {
    /// The index of no records.
    pub(crate) fn new(alloc: Global) -> RecordIndex
        ensures { IsRecordIndex result [] }
    {
        RecordIndex {
            first: BTreeMap::new(alloc),
            numbers: Counts::new(alloc),
            lives: Counts::new(alloc),
        }
    }

    /// Notes a record that comes behind the others.
    pub(crate) fn note(&mut self, place: usize, row: &SealedRecord) -> Result<(), AllocError>
        ensures { OnOk result (IsNoted row.now place self.old self.new) }
    {
        note_place(&mut self.first, row.number, place)?;
        self.numbers.add(row.number, 1)?;
        self.lives.add(row.message, weight(row.destroyed))
    }

    /// The place of a record, where no other has its number.
    pub(crate) fn only(&self, number: u32) -> Option<usize>
        ensures place { IfSome result (λ i. get nat_cmp self.now.first number ≡ Some i) }
        ensures alone { IfSome result (λ i. count_at self.now.numbers number ≡ 1) }
    {
        if self.numbers.count(number) != 1 {
            return None;
        }
        self.first.get(&number).copied()
    }

    /// Whether a message has a live record.
    pub(crate) fn has_live(&self, message: u32) -> bool
        ensures { result ≡ nat_lt 0 (count_at self.now.lives message) }
    {
        self.lives.count(message) > 0
    }
}

/// 1 where a record is live and has the number, and else 0.
fn weight_of_mark(row: &SealedRecord, number: u32) -> u64
    ensures { result ≡ (if row.now.number == number && not row.now.destroyed then 1 else 0) }
{
    if row.number == number && !row.destroyed {
        1
    } else {
        0
    }
}

fn mark_one(row: &mut SealedRecord, number: u32)
    ensures { row.new ≡ marked number row.old }
{
    if row.number == number {
        row.destroyed = true;
    }
}

/// Marks the record at a place as destroyed, where it has the number.
#[tactic(auto, using(crate::proofs::IndexLemmas::mark_kept))]
fn mark_place(rows: &mut [SealedRecord], index: &mut RecordIndex, place: usize, number: u32)
    requires { place < length rows.old }
    ensures rows { (d : SealedRecord) →
        rows.new ≡ slice_set rows.old place (marked number (slice_index_or rows.old place d)) }
    ensures index { FollowsRecords index.old rows.old index.new rows.new }
{
    let gone = weight_of_mark(&rows[place], number);
    let message = rows[place].message;
    index.lives.take(message, gone);
    mark_one(&mut rows[place], number);
}

/// Marks each record with a number as destroyed, whatever the index has of it.
fn mark_each(rows: &mut [SealedRecord], index: &mut RecordIndex, number: u32)
    ensures rows { rows.new ≡ map (marked number) rows.old }
    ensures index { FollowsRecords index.old rows.old index.new rows.new }
{
    for place in 0..rows.len() {
        mark_place(rows, index, place, number);
    }
}

/// Marks each record with a number as destroyed. It goes over all records only where more than one has the number.
pub(crate) fn mark_destroyed(rows: &mut [SealedRecord], index: &mut RecordIndex, number: u32)
    ensures rows { IsRecordIndex index.old rows.old → rows.new ≡ map (marked number) rows.old }
    ensures index { FollowsRecords index.old rows.old index.new rows.new }
{
    let Some(place) = index.only(number) else {
        mark_each(rows, index, number);
        return;
    };
    if place >= rows.len() {
        mark_each(rows, index, number);
        return;
    }
    mark_place(rows, index, place, number);
}
