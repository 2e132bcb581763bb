//! Refilings that are done again.

ghost use Rattle.std.specs.Prelude.{◌≡◌, ◌<◌, map, length, slice_index_or, slice_set, OnOk, IfErr};
ghost use Rattle.record_archive.specs.Refiling.{refiled};
ghost use Rattle.record_history.specs.Events as plain;
ghost use Rattle.record_judge.specs.Indexes.{IsRecordIndex};
ghost use Rattle.record_judge.specs.Refilings.{MayBeRefiled, placed};
ghost use Rattle.record_judge.specs.Sealed.{IsDone, IsKept, IsMisdeed, StaysKept, archive_view, record_view};
ghost use Rattle.record_judge.specs.declared.sealed.SealedRecord.{SealedRecord};

use crate::faults::Misdeed;
use crate::record_index::RecordIndex;
use crate::sealed::{SealedArchive, SealedRecord};
use std::alloc::{AllocError, Global};

fn place_one(row: &mut SealedRecord, number: u32, path: Vec<u8>)
    ensures { record_view row.new ≡ placed number path.items (record_view row.old) }
{
    if row.number == number {
        row.path = path;
    }
}

/// Puts the record at a place into a class, where it has the number.
#[tactic(auto, using(crate::proofs::RefilingLemmas::row_placed))]
fn place_row(rows: &mut [SealedRecord], place: usize, number: u32, path: Vec<u8>)
    requires { place < length rows.old }
    ensures { (d : SealedRecord) → map record_view rows.new ≡ slice_set (map record_view rows.old)
        place (placed number path.items (record_view (slice_index_or rows.old place d))) }
{
    place_one(&mut rows[place], number, path);
}

/// Puts each record with a number into a class.
fn place_each(
    alloc: Global,
    rows: &mut [SealedRecord],
    number: u32,
    path: &[u8],
) -> Result<(), AllocError>
    ensures { OnOk result (map record_view rows.new ≡
        map (placed number path.now) (map record_view rows.old)) }
{
    for place in 0..rows.len() {
        let copy = Vec::from_slice(alloc, path)?;
        place_row(rows, place, number, copy);
    }
    Ok(())
}

/// Puts each record with a number into a class. It goes over all records only where more than one has the number.
fn place_rows(
    alloc: Global,
    rows: &mut [SealedRecord],
    index: &RecordIndex,
    number: u32,
    path: &[u8],
) -> Result<(), AllocError>
    ensures { IsRecordIndex index.now rows.old → OnOk result (map record_view rows.new ≡
        map (placed number path.now) (map record_view rows.old)) }
{
    let Some(place) = index.only(number) else {
        return place_each(alloc, rows, number, path);
    };
    if place >= rows.len() {
        return place_each(alloc, rows, number, path);
    }
    let copy = Vec::from_slice(alloc, path)?;
    place_row(rows, place, number, copy);
    Ok(())
}

impl SealedArchive {
    /// Finds that a record is there and live, and that a path is a class of the plan.
    #[tactic(auto, using(crate::proofs::RefilingLemmas::refiling_laws))]
    fn judge_refiling(&self, number: u32, path: &[u8]) -> Result<(), Misdeed>
        ensures ok { IsKept self.now → OnOk result
            (MayBeRefiled (archive_view self.now) number path.now) }
        ensures err { IsKept self.now → IfErr result (λ m.
            IsMisdeed (plain.Refiled number path.now) (archive_view self.now) m) }
    {
        let Some(record) = self.record_at(number) else {
            return Err(Misdeed::Refused);
        };
        if record.destroyed {
            return Err(Misdeed::Refused);
        }
        if !self.plan.contains(path) {
            return Err(Misdeed::Refused);
        }
        Ok(())
    }

    /// The same for the records of the archive.
    fn move_records(&mut self, number: u32, path: &[u8]) -> Result<(), AllocError>
        ensures archive { IsKept self.old → OnOk result
            (archive_view self.new ≡ refiled (archive_view self.old) number path.now) }
        ensures kept { OnOk result (StaysKept self.old self.new) }
    {
        place_rows(
            self.alloc,
            self.records.as_mut_slice(),
            &self.record_index,
            number,
            path,
        )?;
        Ok(())
    }

    #[tactic(auto, using(crate::proofs::RefilingLemmas::refiled_done))]
    pub(crate) fn refile(&mut self, number: u32, path: &[u8]) -> Result<(), Misdeed>
        ensures done { IsKept self.old → IsDone (plain.Refiled number path.now)
            (archive_view self.old) (archive_view self.new) result }
        ensures kept { OnOk result (StaysKept self.old self.new) }
    {
        self.judge_refiling(number, path)?;
        self.move_records(number, path)?;
        Ok(())
    }
}
